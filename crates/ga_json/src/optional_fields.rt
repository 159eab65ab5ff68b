//! Values that may be absent, with their names.

ghost use Rattle.std.specs.Prelude.{◌≡◌, IsTrue};
ghost use Rattle.std.specs.Str.{is_utf8};
ghost use Rattle.ga_json.specs.FieldValues.{text_json, joined_text_json, optional_number_json};
ghost use Rattle.ga_json.specs.Fields.{named_field_value};
ghost use Rattle.ga_json.specs.Names.{is_field_name};

use crate::field::Field;

/// A text with its name; no value if it isn't UTF-8.
pub fn text_field<'a>(name: &'a [u8], text: &'a [u8]) -> Field<'a>
    requires { IsTrue (is_field_name name.now) }
    ensures { named_field_value result ≡ (name.now, text_json text.now) }
{
    match str::from_utf8(text) {
        Ok(_) => Field::text(name, text),
        Err(_) => Field::absent(name),
    }
}

/// A text in two parts with its name; no value if one of them isn't UTF-8.
pub fn joined_text_field<'a>(name: &'a [u8], front: &'a [u8], rest: &'a [u8]) -> Field<'a>
    requires { IsTrue (is_field_name name.now) }
    ensures { named_field_value result ≡ (name.now, joined_text_json front.now rest.now) }
{
    let are_texts = is_text(front) && is_text(rest);
    if are_texts {
        Field::joined(name, front, rest)
    } else {
        Field::absent(name)
    }
}

/// Whether bytes are UTF-8.
fn is_text(bytes: &[u8]) -> bool
    ensures { result ≡ is_utf8 bytes.now }
{
    match str::from_utf8(bytes) {
        Ok(_) => true,
        Err(_) => false,
    }
}

/// A number with its name, if there is one.
pub fn optional_number_field<'a>(name: &'a [u8], number: Option<u64>) -> Field<'a>
    requires { IsTrue (is_field_name name.now) }
    ensures { named_field_value result ≡ (name.now, optional_number_json number) }
{
    match number {
        Some(number) => Field::number(name, number),
        None => Field::absent(name),
    }
}
