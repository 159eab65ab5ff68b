//! Parts of a node, as fields of a row.

ghost use Rattle.std.specs.Prelude.{◌≡◌, map, nat_lt, if◌then◌else◌, IsTrue};
ghost use Rattle.ga_json.specs.FieldValues.{field_value_json};
ghost use Rattle.ga_json.specs.Fields.{named_field_value};
ghost use Rattle.ga_json.specs.Names.{is_field_name};
ghost use Rattle.ga_explorer_json.specs.Parts.{json_number_or_null, json_number_unless_zero, node_part_keyword, stack_place_or_cell_address, part_word_fields};

use ga_event::NodePart;
use ga_json::Field;
use ga_word::Word18;

/// A number with its name, if there is one.
pub(crate) fn optional_number<'a>(name: &'a [u8], value: Option<u64>) -> Field<'a>
    requires { IsTrue (is_field_name name.now) }
    ensures name { result.name.now ≡ name.now }
    ensures value { field_value_json result.value ≡ json_number_or_null value }
{
    match value {
        Some(value) => Field::number(name, value),
        None => Field::absent(name),
    }
}

/// A number with its name, unless it is 0: the step that made a value, which a loaded one has not, or a stop.
pub(crate) fn json_number_unless_zero<'a>(name: &'a [u8], value: u32) -> Field<'a>
    requires { IsTrue (is_field_name name.now) }
    ensures name { result.name.now ≡ name.now }
    ensures value { field_value_json result.value ≡ json_number_unless_zero value }
{
    if value == 0 {
        Field::absent(name)
    } else {
        Field::number(name, u64::from(value))
    }
}

/// The name of a register, a stack or a memory.
pub(crate) fn node_part_keyword(part: NodePart) -> &'static [u8]
    ensures { result.now ≡ node_part_keyword part }
{
    match part {
        NodePart::Data(k) => data_word(k),
        NodePart::Return(_) => b"r",
        NodePart::Ram(_) => b"ram",
        NodePart::Rom(_) => b"rom",
        NodePart::A => b"a",
        NodePart::B => b"b",
        NodePart::P => b"p",
        NodePart::I => b"i",
        NodePart::Io => b"io",
        NodePart::Carry => b"carry",
        NodePart::Slot => b"slot",
        NodePart::Wait => b"wait",
        NodePart::Stop => b"stop",
        NodePart::OutsideWord => b"outside",
    }
}

/// The name of a word of the data stack.
fn data_word(k: u8) -> &'static [u8]
    ensures { result.now ≡ node_part_keyword (NodePart.Data k) }
{
    if k == 0 {
        b"t"
    } else if k == 1 {
        b"s"
    } else {
        b"d"
    }
}

/// The place of a word in its stack, where it has no name of its own, or the address of a cell.
pub(crate) fn stack_place_or_cell_address(part: NodePart) -> Option<u64>
    ensures { result ≡ stack_place_or_cell_address part }
{
    match part {
        NodePart::Data(k) => place_from(k, 2),
        NodePart::Return(k) => place_from(k, 1),
        NodePart::Ram(k) => Some(u64::from(k)),
        NodePart::Rom(k) => Some(u64::from(128 + k % 64)),
        NodePart::A
        | NodePart::B
        | NodePart::P
        | NodePart::I
        | NodePart::Io
        | NodePart::Carry
        | NodePart::Slot
        | NodePart::Wait
        | NodePart::Stop
        | NodePart::OutsideWord => None,
    }
}

/// A place, unless it is before the first one.
fn place_from(place: u8, first: u8) -> Option<u64>
    ensures { result ≡ (if nat_lt place first then None else Some place) }
{
    if place < first {
        None
    } else {
        Some(u64::from(place))
    }
}

/// A part with its word.
pub(crate) fn part_word_fields(part: NodePart, word: Word18) -> [Field<'static>; 3]
    ensures { map named_field_value result ≡ part_word_fields part word }
{
    [
        Field::text(b"part", node_part_keyword(part)),
        optional_number(b"index", stack_place_or_cell_address(part)),
        Field::word(b"value", word),
    ]
}
