//! The texts of a node and of its memory.
ghost use Rattle.std.specs.Prelude.{◌≡◌, ◌<◌, ◌+◌, ◌≤◌, ◌^◌, ◌++◌, length, codes};
ghost use Rattle.arrayvec.specs.ArrayVec.{array_vec_len};
ghost use Rattle.ga_word.specs.Word.{hex_digits_of_word};
ghost use Rattle.ga_node.specs.Record.{record_of_node};
ghost use Rattle.ga_text.specs.Digits.{spaced_words_text};
ghost use Rattle.ga_text.specs.Output.{WritesExactly};
ghost use Rattle.ga_display.specs.Texts.{node_text, memory_word_text, wait_or_stop_text, side_letters_text, register_text, registers_text, slot_carry_io_text, stacks_text};

use arrayvec::ArrayVec;
use ga_grid::NodeId;
use ga_node::{Node, NodePlace, Wait};
use ga_text::{
    MAX_LINE_BYTES, MAX_NUMBER_DIGITS, WORD_DIGITS, WriteResult, Writer, push_decimal_digit,
    push_node_and_space, push_number, push_spaced_word, push_text, push_word, two_hex_digits,
};
use ga_word::Word18;
use std::io::Write;

/// How many words the data stack has.
const DATA_WORDS: u8 = 10;

/// How many words the return stack has.
const RETURN_WORDS: u8 = 9;

/// The bytes of a set of sides.
const SET_ROOM: usize = b"rdlu".len();

/// The most bytes of whether a node runs, waits or is stopped.
const STATE_ROOM: usize = b"stop ".len() + MAX_NUMBER_DIGITS;

/// The bytes of a register: a space, its name, a space and a word.
const REGISTER_ROOM: usize = b" p ".len() + WORD_DIGITS;

/// The bytes of P, A, B and I.
const REGISTERS_ROOM: usize = 4 * REGISTER_ROOM;

/// The bytes of the slot, the carry and `io`.
const FLAGS_ROOM: usize = b" slot 4 carry 1 io ".len() + WORD_DIGITS;

/// The bytes of the words of each stack, each after a space.
const DATA_ROOM: usize = 10 * (1 + WORD_DIGITS);

const RETURNS_ROOM: usize = 9 * (1 + WORD_DIGITS);

/// The bytes of both stacks, each after its name.
const STACKS_ROOM: usize = b" d".len() + DATA_ROOM + b" r".len() + RETURNS_ROOM;

/// Writes the text of a node, as `write_text` does.
///
/// # Errors
/// A write failed.
pub fn write_node<W: Write>(writer: &mut Writer<'_, W>, node: NodeId, at: &Node) -> WriteResult
    ensures { WritesExactly result (node_text node (record_of_node at.now)) W.contents writer.old writer.new }
{
    writer.make_room(MAX_LINE_BYTES)?;
    push_node_line(&mut writer.pending, node, at);
    Ok(())
}

/// Adds the text of a node.
fn push_node_line<const ROOM: usize>(out: &mut ArrayVec<u8, ROOM>, node: NodeId, at: &Node)
    requires { array_vec_len out.old + MAX_LINE_BYTES ≤ ROOM }
    ensures { out.new.items ≡ out.old.items ++ node_text node (record_of_node at.now) }
{
    push_text(out, b"node ");
    push_node_and_space(out, node);
    push_state(out, at);
    push_registers(out, at);
    push_flags(out, at);
    push_stacks(out, at);
    push_text(out, b"\n");
}

/// Writes the word at an address of a node's memory, as `write_text` does.
///
/// # Errors
/// A write failed.
pub fn write_memory_word<W: Write>(
    writer: &mut Writer<'_, W>,
    node: NodeId,
    address: u8,
    word: Word18,
) -> WriteResult
    ensures { WritesExactly result (memory_word_text node address word) W.contents writer.old writer.new }
{
    writer.make_room(MAX_LINE_BYTES)?;
    let out = &mut writer.pending;
    push_text(out, b"mem ");
    push_node_and_space(out, node);
    push_text(out, &two_hex_digits(address));
    push_spaced_word(out, word);
    push_text(out, b"\n");
    Ok(())
}

/// Adds whether the node runs, what it waits for, or how it is stopped.
fn push_state<const ROOM: usize>(out: &mut ArrayVec<u8, ROOM>, node: &Node)
    requires { array_vec_len out.old + STATE_ROOM ≤ ROOM }
    ensures text { out.new.items ≡ out.old.items ++ wait_or_stop_text (record_of_node node.now).wait (record_of_node node.now).stop }
    ensures len { array_vec_len out.new ≤ array_vec_len out.old + STATE_ROOM }
{
    match node.wait() {
        Wait::Nothing => push_stop(out, node.stop()),
        Wait::Fetch(sides) => {
            push_text(out, b"fetch ");
            push_set(out, sides.get());
        }
        Wait::Read(sides) => {
            push_text(out, b"read ");
            push_set(out, sides.get());
        }
        Wait::Write(side) => {
            push_text(out, b"write ");
            push_set(out, side.bit_in_set());
        }
    }
}

fn push_stop<const ROOM: usize>(out: &mut ArrayVec<u8, ROOM>, stop: u8)
    requires { array_vec_len out.old + STATE_ROOM ≤ ROOM }
    ensures text { out.new.items ≡ out.old.items ++ wait_or_stop_text Wait.Nothing stop }
    ensures len { array_vec_len out.new ≤ array_vec_len out.old + STATE_ROOM }
{
    if stop == 0 {
        push_text(out, b"run");
    } else {
        push_text(out, b"stop ");
        push_number(out, u64::from(stop));
    }
}

/// Adds a set of sides, given by its number.
fn push_set<const ROOM: usize>(out: &mut ArrayVec<u8, ROOM>, sides: u8)
    requires { array_vec_len out.old + SET_ROOM ≤ ROOM }
    ensures text { out.new.items ≡ out.old.items ++ side_letters_text sides }
    ensures len { array_vec_len out.new ≡ array_vec_len out.old + SET_ROOM }
{
    let letters = [
        if sides / 8 % 2 == 1 { b'r' } else { b'-' },
        if sides / 4 % 2 == 1 { b'd' } else { b'-' },
        if sides / 2 % 2 == 1 { b'l' } else { b'-' },
        if sides % 2 == 1 { b'u' } else { b'-' },
    ];
    push_text(out, &letters);
}

/// Adds P, A, B and I.
#[tactic(auto, unfolding(ga_node::specs::Record::record_of_node))]
fn push_registers<const ROOM: usize>(out: &mut ArrayVec<u8, ROOM>, node: &Node)
    requires { array_vec_len out.old + REGISTERS_ROOM ≤ ROOM }
    ensures text { out.new.items ≡ out.old.items ++ registers_text (record_of_node node.now) }
    ensures len { array_vec_len out.new ≡ array_vec_len out.old + REGISTERS_ROOM }
{
    push_register(out, b"p", node.get(NodePlace::P));
    push_register(out, b"a", node.get(NodePlace::A));
    push_register(out, b"b", node.get(NodePlace::B));
    push_register(out, b"i", node.get(NodePlace::I));
}

/// Adds a register: its name, and its value as a word.
fn push_register<const ROOM: usize>(out: &mut ArrayVec<u8, ROOM>, name: &[u8; 1], value: u32)
    requires small { value < 2 ^ 18 }
    requires room { array_vec_len out.old + REGISTER_ROOM ≤ ROOM }
    ensures text { out.new.items ≡ out.old.items ++ register_text name.now value }
    ensures len { array_vec_len out.new ≡ array_vec_len out.old + REGISTER_ROOM }
{
    push_text(out, &[b' ', name[0]]);
    push_value(out, value);
}

/// Adds the slot, the carry and `io`.
#[tactic(auto, unfolding(ga_node::specs::Record::record_of_node))]
fn push_flags<const ROOM: usize>(out: &mut ArrayVec<u8, ROOM>, node: &Node)
    requires { array_vec_len out.old + FLAGS_ROOM ≤ ROOM }
    ensures text { out.new.items ≡ out.old.items ++ slot_carry_io_text (record_of_node node.now) }
    ensures len { array_vec_len out.new ≡ array_vec_len out.old + FLAGS_ROOM }
{
    push_text(out, b" slot ");
    push_decimal_digit(out, node.get(NodePlace::Slot) as u8);
    push_text(out, b" carry ");
    push_decimal_digit(out, node.get(NodePlace::Carry) as u8);
    push_text(out, b" io ");
    push_word(out, Word18::from_low_bits(node.get(NodePlace::Io)));
}

/// Adds both stacks, the top of each first.
fn push_stacks<const ROOM: usize>(out: &mut ArrayVec<u8, ROOM>, node: &Node)
    requires { array_vec_len out.old + STACKS_ROOM ≤ ROOM }
    ensures text { out.new.items ≡ out.old.items ++ stacks_text (record_of_node node.now) }
    ensures len { array_vec_len out.new ≡ array_vec_len out.old + STACKS_ROOM }
{
    push_text(out, b" d");
    'data: for place in 0..DATA_WORDS {
        push_value(out, node.word_of_data_stack(place));
    }
    push_text(out, b" r");
    'returns: for place in 0..RETURN_WORDS {
        push_value(out, node.word_of_return_stack(place));
    }
}

/// Adds a space, and a value of at most 18 bits as a word.
fn push_value<const ROOM: usize>(out: &mut ArrayVec<u8, ROOM>, value: u32)
    requires small { value < 2 ^ 18 }
    requires room { array_vec_len out.old + 1 + WORD_DIGITS ≤ ROOM }
    ensures text { out.new.items ≡ out.old.items ++ (codes " " ++ hex_digits_of_word value) }
    ensures len { array_vec_len out.new ≡ array_vec_len out.old + 1 + WORD_DIGITS }
{
    push_spaced_word(out, Word18::from_low_bits(value));
}
