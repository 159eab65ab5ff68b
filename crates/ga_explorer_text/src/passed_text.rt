//! A step of a node with the registers after it, as one line.

ghost use Rattle.std.specs.Prelude.{◌≡◌, ◌<◌, ◌≤◌, ◌+◌, ◌^◌, ◌++◌, Some, codes};
ghost use Rattle.arrayvec.specs.ArrayVec.{array_vec_len};
ghost use Rattle.ga_word.specs.Word.{hex_digits_of_word};
ghost use Rattle.ga_node.specs.Record.{record_of_node};
ghost use Rattle.ga_display.specs.Texts.{register_text};
ghost use Rattle.ga_explorer_text.specs.Around.{registers_after_text, step_registers_text};

use crate::deed_text::push_action;
use arrayvec::ArrayVec;
use ga_grid::NodeId;
use ga_lab::MadeEvent;
use ga_node::{Node, NodePlace};
use ga_text::{TextBuffer, WORD_DIGITS, push_spaced_word, push_step, push_text};
use ga_word::Word18;

/// The bytes of a register: a space, its name, a space and a word.
const REGISTER_ROOM: usize = b" t ".len() + WORD_DIGITS;

/// The bytes of the registers after a step.
const BEHIND_ROOM: usize = 6 * REGISTER_ROOM;

/// A step: its number, what it did, and the registers after it.
pub(crate) fn step_registers_line(
    node: NodeId,
    step: u32,
    made: MadeEvent,
    behind: &Node,
) -> TextBuffer
    ensures { result.items ≡ step_registers_text node step (Some made) (record_of_node behind.now) }
{
    let mut out = ArrayVec::new();
    push_step(&mut out, node, step);
    push_text(&mut out, b" ");
    push_action(&mut out, made, node);
    push_behind(&mut out, behind);
    out
}

/// Adds T, S, R, A, B and P.
#[tactic(auto, unfolding(ga_node::specs::Record::record_of_node))]
fn push_behind(out: &mut TextBuffer, node: &Node)
    requires { array_vec_len out.old + BEHIND_ROOM ≤ 256 }
    ensures text { out.new.items ≡ out.old.items ++ registers_after_text (record_of_node node.now) }
    ensures len { array_vec_len out.new ≡ array_vec_len out.old + BEHIND_ROOM }
{
    push_register(out, b"t", node.word_of_data_stack(0));
    push_register(out, b"s", node.word_of_data_stack(1));
    push_register(out, b"r", node.word_of_return_stack(0));
    push_register(out, b"a", node.get(NodePlace::A));
    push_register(out, b"b", node.get(NodePlace::B));
    push_register(out, b"p", node.get(NodePlace::P));
}

/// Adds a register: its name, and its value as a word.
fn push_register(out: &mut TextBuffer, name: &[u8; 1], value: u32)
    requires small { value < 2 ^ 18 }
    requires room { array_vec_len out.old + REGISTER_ROOM ≤ 256 }
    ensures text { out.new.items ≡ out.old.items ++ register_text name.now value }
    ensures len { array_vec_len out.new ≡ array_vec_len out.old + REGISTER_ROOM }
{
    push_text(out, &[b' ', name[0]]);
    push_value(out, value);
}

/// Adds a space, and a value of at most 18 bits as a word.
fn push_value(out: &mut TextBuffer, value: u32)
    requires small { value < 2 ^ 18 }
    requires room { array_vec_len out.old + 1 + WORD_DIGITS ≤ 256 }
    ensures text { out.new.items ≡ out.old.items ++ (codes " " ++ hex_digits_of_word value) }
    ensures len { array_vec_len out.new ≡ array_vec_len out.old + 1 + WORD_DIGITS }
{
    push_spaced_word(out, Word18::from_low_bits(value));
}
