//! A named value of an answer.

ghost use Rattle.std.specs.Prelude.{◌≡◌, ◌≤◌, length, IsTrue};
ghost use Rattle.ga_json.specs.Names.{is_field_name};

use arrayvec::ArrayVec;
use ga_grid::NodeId;
use ga_word::Word18;

/// The most fields of a row.
pub const MAX_FIELDS: usize = 32;

/// The fields of a row of an answer.
pub type RowFields<'a> = ArrayVec<Field<'a>, MAX_FIELDS>;

/// A value of a field.
#[derive(Clone, Copy)]
pub enum FieldValue<'a> {
    /// A number: a step, a count or a word of 18 bits.
    Number(u64),
    /// A node, as a string of the three digits of its name.
    Node(NodeId),
    /// A text, as a string.
    Text(&'a [u8]),
    /// A text in two parts, as one string.
    Joined(&'a [u8], &'a [u8]),
    /// A truth value.
    Flag(bool),
    /// No value, as `null`.
    Absent,
}

/// A value with its name.
#[derive(Clone, Copy)]
pub struct Field<'a> {
    /// The name: at most 24 lower case letters, digits and `_`.
    pub name: &'a [u8],
    /// The value.
    pub value: FieldValue<'a>,
    pub ghost named_field_value: { IsTrue (is_field_name name.now) },
}

impl<'a> Field<'a> {
    ghost use Rattle.std.specs.Prelude.{◌≡◌, ◌++◌, pos, IsTrue};
    ghost use Rattle.ga_text.specs.Digits.{name_of_node};
    ghost use Rattle.ga_json.specs.Values.{null, boolean, number, string};
    ghost use Rattle.ga_json.specs.FieldValues.{field_value_json};
    ghost use Rattle.ga_json.specs.Names.{is_field_name};

    /// A number with its name.
    #[inline(always)]
    pub fn number(name: &'a [u8], value: u64) -> Self
        requires { IsTrue (is_field_name name.now) }
        ensures name { result.name.now ≡ name.now }
        ensures value { field_value_json result.value ≡ number (pos value) }
    {
        Field {
            name,
            value: FieldValue::Number(value),
        }
    }

    /// A word with its name.
    #[inline(always)]
    pub fn word(name: &'a [u8], word: Word18) -> Self
        requires { IsTrue (is_field_name name.now) }
        ensures name { result.name.now ≡ name.now }
        ensures value { field_value_json result.value ≡ number (pos word) }
    {
        Field {
            name,
            value: FieldValue::Number(u64::from(word.get())),
        }
    }

    /// A node with its name.
    #[inline(always)]
    pub fn node(name: &'a [u8], node: NodeId) -> Self
        requires { IsTrue (is_field_name name.now) }
        ensures name { result.name.now ≡ name.now }
        ensures value { field_value_json result.value ≡ string (name_of_node node) }
    {
        Field {
            name,
            value: FieldValue::Node(node),
        }
    }

    /// A text with its name.
    #[inline(always)]
    pub fn text(name: &'a [u8], text: &'a [u8]) -> Self
        requires { IsTrue (is_field_name name.now) }
        ensures name { result.name.now ≡ name.now }
        ensures value { field_value_json result.value ≡ string text.now }
    {
        Field {
            name,
            value: FieldValue::Text(text),
        }
    }

    /// A text in two parts with its name.
    #[inline(always)]
    pub fn joined(name: &'a [u8], front: &'a [u8], rest: &'a [u8]) -> Self
        requires { IsTrue (is_field_name name.now) }
        ensures name { result.name.now ≡ name.now }
        ensures value { field_value_json result.value ≡ string (front.now ++ rest.now) }
    {
        Field {
            name,
            value: FieldValue::Joined(front, rest),
        }
    }

    /// A truth value with its name.
    #[inline(always)]
    pub fn flag(name: &'a [u8], flag: bool) -> Self
        requires { IsTrue (is_field_name name.now) }
        ensures name { result.name.now ≡ name.now }
        ensures value { field_value_json result.value ≡ boolean flag }
    {
        Field {
            name,
            value: FieldValue::Flag(flag),
        }
    }

    /// A name without a value.
    #[inline(always)]
    pub fn absent(name: &'a [u8]) -> Self
        requires { IsTrue (is_field_name name.now) }
        ensures name { result.name.now ≡ name.now }
        ensures value { field_value_json result.value ≡ null }
    {
        Field {
            name,
            value: FieldValue::Absent,
        }
    }
}

impl<'a> Default for Field<'a> {
    fn default() -> Self {
        Field {
            name: b"",
            value: FieldValue::Absent,
        }
    }
}

/// A row of these fields.
pub fn row_fields<'a>(fields: &[Field<'a>]) -> RowFields<'a>
    requires { length fields.now ≤ MAX_FIELDS }
    ensures { result.items ≡ fields.now }
{
    let mut row = ArrayVec::new();
    let _fits = row.try_extend_from_slice(fields);
    row
}
