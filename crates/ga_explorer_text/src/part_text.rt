//! The names of the parts of a node.

ghost use Rattle.std.specs.Prelude.{◌≡◌, ◌+◌, ◌≤◌, ◌++◌};
ghost use Rattle.arrayvec.specs.ArrayVec.{array_vec_len};
ghost use Rattle.ga_display.specs.Texts.{register_text};
ghost use Rattle.ga_explorer_text.specs.Whence.{data_stack_part_name, return_stack_part_name, node_part_name, part_name_suffix};

use ga_event::NodePart;
use ga_text::{
    MAX_NUMBER_DIGITS, TextBuffer, WORD_DIGITS, push_hex_byte, push_number, push_spaced_word,
    push_text,
};
use ga_word::Word18;

/// The most bytes of a part's name.
pub(crate) const MAX_PART_BYTES: usize = b"d".len() + MAX_NUMBER_DIGITS;

/// The most bytes of a part's name and its word.
pub(crate) const MAX_NAMED_WORD_BYTES: usize = 1 + MAX_PART_BYTES + 1 + WORD_DIGITS;

/// Adds the name of a part: of a cell its address.
pub(crate) fn push_part(out: &mut TextBuffer, part: NodePart)
    requires { array_vec_len out.old + MAX_PART_BYTES ≤ 256 }
    ensures text { out.new.items ≡ out.old.items ++ node_part_name part }
    ensures len { array_vec_len out.new ≤ array_vec_len out.old + MAX_PART_BYTES }
{
    match part {
        NodePart::Data(k) => push_data(out, k),
        NodePart::Return(k) => push_return(out, k),
        NodePart::Ram(k) => push_hex_byte(out, k),
        NodePart::Rom(k) => push_hex_byte(out, 128 + k % 64),
        NodePart::A => push_text(out, b"a"),
        NodePart::B => push_text(out, b"b"),
        NodePart::P => push_text(out, b"p"),
        NodePart::I => push_text(out, b"i"),
        NodePart::Io => push_text(out, b"io"),
        NodePart::Carry => push_text(out, b"carry"),
        NodePart::Slot => push_text(out, b"slot"),
        NodePart::Wait => push_text(out, b"wait"),
        NodePart::Stop => push_text(out, b"stop"),
        NodePart::OutsideWord => push_text(out, b"outside"),
    }
}

/// Adds the name of a word of the data stack.
fn push_data(out: &mut TextBuffer, k: u8)
    requires { array_vec_len out.old + MAX_PART_BYTES ≤ 256 }
    ensures text { out.new.items ≡ out.old.items ++ data_stack_part_name k }
    ensures len { array_vec_len out.new ≤ array_vec_len out.old + MAX_PART_BYTES }
{
    if k == 0 {
        push_text(out, b"t");
    } else if k == 1 {
        push_text(out, b"s");
    } else {
        push_text(out, b"d");
        push_number(out, u64::from(k));
    }
}

/// Adds the name of a word of the return stack.
fn push_return(out: &mut TextBuffer, k: u8)
    requires { array_vec_len out.old + MAX_PART_BYTES ≤ 256 }
    ensures text { out.new.items ≡ out.old.items ++ return_stack_part_name k }
    ensures len { array_vec_len out.new ≤ array_vec_len out.old + MAX_PART_BYTES }
{
    push_text(out, b"r");
    if k > 0 {
        push_number(out, u64::from(k));
    }
}

/// Adds the name of the part in which a step left what it made, but for T, the instruction word and a cell.
pub(crate) fn push_part_suffix(out: &mut TextBuffer, part: NodePart)
    requires { array_vec_len out.old + 1 + MAX_PART_BYTES ≤ 256 }
    ensures text { out.new.items ≡ out.old.items ++ part_name_suffix part }
    ensures len { array_vec_len out.new ≤ array_vec_len out.old + 1 + MAX_PART_BYTES }
{
    match part {
        NodePart::Data(0) => (),
        NodePart::Ram(_) => (),
        NodePart::Rom(_) => (),
        NodePart::I => (),
        _ => {
            push_text(out, b" ");
            push_part(out, part);
        }
    }
}

/// Adds the name of a part, and its word.
pub(crate) fn push_named_word(out: &mut TextBuffer, part: NodePart, word: Word18)
    requires { array_vec_len out.old + MAX_NAMED_WORD_BYTES ≤ 256 }
    ensures text { out.new.items ≡ out.old.items ++ register_text (node_part_name part) word }
    ensures len { array_vec_len out.new ≤ array_vec_len out.old + MAX_NAMED_WORD_BYTES }
{
    push_text(out, b" ");
    push_part(out, part);
    push_spaced_word(out, word);
}
