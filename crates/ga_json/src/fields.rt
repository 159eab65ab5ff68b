//! Writes fields.

ghost use Rattle.std.specs.Prelude.{◌≡◌, ◌≤◌, ◌+◌, ◌++◌, ◌∷◌, [], false};
ghost use Rattle.arrayvec.specs.ArrayVec.{array_vec_len};
ghost use Rattle.ga_text.specs.Output.{WritesExactly};
ghost use Rattle.ga_text.specs.Digits.{name_of_node};
ghost use Rattle.ga_json.specs.Compact.{natural_text, compact_json_text, optional_comma};
ghost use Rattle.ga_json.specs.FieldValues.{field_value_json};
ghost use Rattle.ga_json.specs.inner.{json_field_text, json_fields_text};

use crate::field::{Field, FieldValue};
use crate::strings::{write_joined_string, write_json_string};
use arrayvec::ArrayVec;
use ga_grid::NodeId;
use ga_text::{
    MAX_NUMBER_DIGITS, NODE_NAME_BYTES, OUTPUT_CAPACITY, WriteResult, Writer, push_node,
    push_number, push_text,
};
use std::io::Write;

/// The most bytes of a name.
const NAME_ROOM: usize = 24;

/// The most bytes of a comma, a name between quotation marks and a colon.
const KEY_ROOM: usize = NAME_ROOM + 4;

/// Writes fields, with a comma between two.
///
/// # Errors
/// A write failed.
pub fn write_fields<W: Write>(fields: &[Field<'_>], writer: &mut Writer<'_, W>) -> WriteResult
    ensures { WritesExactly result (json_fields_text false fields.now) W.contents writer.old writer.new }
{
    let mut later = false;
    'fields: for field in fields {
        write_field(later, field, writer)?;
        later = true;
    }
    Ok(())
}

/// Writes a field: its name, a colon and its value, after a comma if another is before it.
fn write_field<W: Write>(later: bool, field: &Field<'_>, writer: &mut Writer<'_, W>) -> WriteResult
    ensures { WritesExactly result (json_field_text later field.now) W.contents writer.old writer.new }
{
    writer.make_room(KEY_ROOM + MAX_NUMBER_DIGITS)?;
    push_key(&mut writer.pending, later, field);
    write_value(field.value, writer)
}

/// Adds a name between quotation marks and a colon, after a comma if another field is before it.
fn push_key(out: &mut ArrayVec<u8, OUTPUT_CAPACITY>, later: bool, field: &Field<'_>)
    requires { array_vec_len out.old + KEY_ROOM ≤ OUTPUT_CAPACITY }
    ensures text { out.new.items ≡ out.old.items ++ (optional_comma later ++ (34 ∷ (field.now.name.now ++ 34 ∷ 58 ∷ []))) }
    ensures len { array_vec_len out.new ≤ array_vec_len out.old + KEY_ROOM }
{
    push_text(out, if later { b",\"" } else { b"\"" });
    push_text(out, field.name);
    push_text(out, b"\":");
}

/// Adds a node's name between quotation marks.
fn push_name(out: &mut ArrayVec<u8, OUTPUT_CAPACITY>, node: NodeId)
    requires { array_vec_len out.old + NODE_NAME_BYTES + 2 ≤ OUTPUT_CAPACITY }
    ensures { out.new.items ≡ out.old.items ++ (34 ∷ (name_of_node node ++ 34 ∷ [])) }
{
    push_text(out, b"\"");
    push_node(out, node);
    push_text(out, b"\"");
}

/// Adds a number in decimal.
fn push_integer(out: &mut ArrayVec<u8, OUTPUT_CAPACITY>, number: u64)
    requires { array_vec_len out.old + MAX_NUMBER_DIGITS ≤ OUTPUT_CAPACITY }
    ensures { out.new.items ≡ out.old.items ++ natural_text number }
{
    push_number(out, number);
}

/// Writes a value, for which there is room unless it is a text.
fn write_value<W: Write>(value: FieldValue<'_>, writer: &mut Writer<'_, W>) -> WriteResult
    requires { array_vec_len writer.old.pending + MAX_NUMBER_DIGITS ≤ OUTPUT_CAPACITY }
    ensures { WritesExactly result (compact_json_text (field_value_json value.entry)) W.contents writer.old writer.new }
{
    match value {
        FieldValue::Number(number) => push_integer(&mut writer.pending, number),
        FieldValue::Node(node) => push_name(&mut writer.pending, node),
        FieldValue::Text(text) => return write_json_string(text, writer),
        FieldValue::Joined(front, rest) => return write_joined_string(front, rest, writer),
        FieldValue::Flag(flag) => push_text(
            &mut writer.pending,
            if flag { b"true" } else { b"false" },
        ),
        FieldValue::Absent => push_text(&mut writer.pending, b"null"),
    }
    Ok(())
}
