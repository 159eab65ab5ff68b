//! A chip as a text.

ghost use Rattle.std.specs.Prelude.{◌≡◌, ◌<◌, ◌≤◌, ◌+◌, ◌++◌, length, take, drop, OnOk, IfOk, IfErr, ◌^◌, slice_index};
ghost use Rattle.ga_node.specs.Record.{record_of_node, record_at_load_defaults};
ghost use Rattle.ga_grid.specs.Chip.{records_of_chip, HaveWaitsFittingSlotsAndStops};
ghost use Rattle.ga_grid.specs.Grid.{initial_p_of_node};
ghost use Rattle.ga_image.specs.inner.{field_lines_text, blocks_text, words_of_bank, bank_size, field_of_bank};
ghost use Rattle.ga_image.specs.Printing.{register_lines, stack_and_run_state_lines, memory_lines, changed_lines_since_load, block_unless_empty, changed_lines_of_node, printed_image, AreEighteenBitWords, AreRegistersInRange, AreStacksAndRunStateInRange, AreStackOrMemoryWords, IsRecordInRange, AreRecordsInRange, IsImageOfRecords};
ghost use Rattle.ga_text.specs.Lines.{lines_of_text};
ghost use Rattle.ga_image.specs.FirstFault.{out_of_memory_fault};

use super::fault::{ImageFault, ImageFaultCause};
use super::field::{Bank, Field};
use super::field_text::{push_digit_unless, push_node, push_wait_unless, push_words_unless};
use arrayvec::ArrayVec;
use ga_grid::{CHIP_NODE_COUNT, Chip, NodeId, initial_p};
use ga_node::{Node, NodePlace};
use ga_stacks::UNUSED_STACK_WORD;
use std::alloc::{AllocError, Global};

/// The most bytes of a block: its first line, those of the registers, the carry and the slot, those of the stacks, that of a
/// wait, which is longer than that of a stop and never occurs with one, and eight for each memory.
const BLOCK_ROOM: usize = b"node 717\n".len()
    + 4 * b"a 03ffff\n".len()
    + b"io 03ffff\n".len()
    + b"carry 1\n".len()
    + b"slot 0\n".len()
    + b"d\n".len()
    + b"r\n".len()
    + 19 * b" 03ffff".len()
    + b"wait fetch rdlu\n".len()
    + 16 * (b"ram 38\n".len() + 8 * b" 03ffff".len());

/// The most bytes of an image.
const ROOM: usize = b"ga144 2\n".len() + CHIP_NODE_COUNT * BLOCK_ROOM + b"end\n".len();

/// How many rows a memory is written in.
const ROWS: u8 = 8;

/// How many words a row has.
const ROW_WORDS: u8 = 8;

/// How many words the data stack has.
const DATA_WORDS: u8 = 10;

/// How many words the return stack has.
const RETURN_WORDS: u8 = 9;

/// The text of a chip as an image of format 2: of each node what differs from its values at load. Where each node's wait fits
/// its slot and its stop, the text is an image of a chip with the same records. The most memory that any chip takes is taken
/// first.
///
/// # Errors
/// `Memory` alone, at line 0.
#[tactic(auto, using(crate::proofs::PrintedBack::print_parse_round_trips))]
pub fn print(alloc: Global, chip: &Chip) -> Result<Vec<u8>, ImageFault>
    // The text is the one that the records determine.
    ensures text { IfOk result (λ text. text.items ≡ printed_image (records_of_chip chip.now)) }

    // It is an image of a chip with the same records, where in each node the wait, the slot and the stop are consistent.
    ensures back { IfOk result (λ text. HaveWaitsFittingSlotsAndStops (records_of_chip chip.now) → IsImageOfRecords (lines_of_text text.items) (records_of_chip chip.now)) }

    // Nothing is refused but memory.
    ensures refused { IfErr result (λ fault. fault ≡ out_of_memory_fault) }
{
    match whole_text(alloc, chip) {
        Ok(text) => Ok(text),
        Err(_) => Err(ImageFault {
            line: 0,
            cause: ImageFaultCause::Memory,
        }),
    }
}

fn whole_text(alloc: Global, chip: &Chip) -> Result<Vec<u8>, AllocError>
    ensures text { IfOk result (λ text. text.items ≡ printed_image (records_of_chip chip.now)) }
    ensures sound { OnOk result (AreRecordsInRange (records_of_chip chip.now)) }
{
    let mut text = Vec::with_capacity(alloc, ROOM)?;
    text.extend_from_slice(b"ga144 2\n")?;
    for number in 0..CHIP_NODE_COUNT as u8 {
        let node = NodeId::new(number);
        push_block(&mut text, node, chip.node(node))?;
    }
    text.extend_from_slice(b"end\n")?;
    Ok(text)
}

/// Adds the block of a node, unless all that it holds is as at load.
fn push_block(text: &mut Vec<u8>, node: NodeId, at: &Node) -> Result<(), AllocError>
    ensures text { OnOk result (text.new.items ≡ text.old.items ++ blocks_text (block_unless_empty node.number (changed_lines_of_node node.number (record_of_node at.now)))) }
    ensures sound { OnOk result (IsRecordInRange (record_of_node at.now)) }
{
    let before = text.as_slice().len();
    text.extend_from_slice(b"node ")?;
    push_node(text, node)?;
    text.extend_from_slice(b"\n")?;
    let begun = text.as_slice().len();
    push_fields(text, node, at)?;
    let after = text.as_slice().len();
    if after == begun {
        text.truncate(before);
    }
    Ok(())
}

/// Adds the field lines of a node.
fn push_fields(text: &mut Vec<u8>, node: NodeId, at: &Node) -> Result<(), AllocError>
    ensures text { OnOk result (text.new.items ≡ text.old.items ++ field_lines_text (changed_lines_of_node node.number (record_of_node at.now))) }
    ensures sound { OnOk result (IsRecordInRange (record_of_node at.now)) }
{
    push_registers(text, node, at)?;
    push_state(text, at)?;
    push_memory(text, at, Bank::Ram)?;
    push_memory(text, at, Bank::Rom)
}

/// Adds the lines of the registers that hold words.
fn push_registers(text: &mut Vec<u8>, node: NodeId, at: &Node) -> Result<(), AllocError>
    ensures text { OnOk result (text.new.items ≡ text.old.items ++ field_lines_text (register_lines (record_at_load_defaults (initial_p_of_node node.number)) (record_of_node at.now))) }
    ensures sound { OnOk result (AreRegistersInRange (record_of_node at.now)) }
{
    push_words_unless(text, 0, Field::A, &[at.get(NodePlace::A)])?;
    push_words_unless(text, 0x15d, Field::B, &[at.get(NodePlace::B)])?;
    push_words_unless(text, initial_p(node), Field::P, &[at.get(NodePlace::P)])?;
    push_words_unless(text, 0, Field::I, &[at.get(NodePlace::I)])?;
    push_words_unless(text, UNUSED_STACK_WORD, Field::Io, &[at.get(NodePlace::Io)])
}

/// Adds the lines of the carry and the slot, of the stacks, and of the wait and the stop.
fn push_state(text: &mut Vec<u8>, at: &Node) -> Result<(), AllocError>
    ensures text { OnOk result (text.new.items ≡ text.old.items ++ field_lines_text (stack_and_run_state_lines (record_at_load_defaults 0) (record_of_node at.now))) }
    ensures sound { OnOk result (AreStacksAndRunStateInRange (record_of_node at.now)) }
{
    push_digit_unless(text, 0, Field::Carry, at.get(NodePlace::Carry))?;
    push_digit_unless(text, 4, Field::Slot, at.get(NodePlace::Slot))?;
    push_words_unless(
        text,
        UNUSED_STACK_WORD,
        Field::Data(0),
        row(at, Bank::Data, 0, DATA_WORDS).as_slice(),
    )?;
    push_words_unless(
        text,
        UNUSED_STACK_WORD,
        Field::Return(0),
        row(at, Bank::Return, 0, RETURN_WORDS).as_slice(),
    )?;
    push_wait_unless(text, at.wait().code())?;
    push_digit_unless(text, 0, Field::Stop, at.get(NodePlace::Stop))
}

/// Adds the lines of a memory.
fn push_memory(text: &mut Vec<u8>, at: &Node, bank: Bank) -> Result<(), AllocError>
    requires { bank_size bank ≡ 64 }
    ensures text { OnOk result (text.new.items ≡ text.old.items ++ field_lines_text (memory_lines (field_of_bank bank) (words_of_bank bank (record_of_node at.now)))) }
    ensures sound { OnOk result (AreStackOrMemoryWords 64 (words_of_bank bank (record_of_node at.now))) }
{
    'rows: for number in 0..ROWS {
        let cell = ROW_WORDS * number;
        push_words_unless(
            text,
            0,
            bank.field(cell),
            row(at, bank, cell, ROW_WORDS).as_slice(),
        )?;
    }
    Ok(())
}

/// A word of a stack or a memory.
#[tactic(auto, unfolding(ga_node::specs::Record::record_of_node))]
fn word_at(at: &Node, bank: Bank, place: u8) -> u32
    requires { place < bank_size bank }
    ensures value { result ≡ slice_index (words_of_bank bank (record_of_node at.now)) place }
    ensures size { 2 ≤ place → length (words_of_bank bank (record_of_node at.now)) ≡ bank_size bank }
    ensures in_range { result < 2 ^ 18 }
{
    match bank {
        Bank::Data => at.word_of_data_stack(place),
        Bank::Return => at.word_of_return_stack(place),
        Bank::Ram => at.get(NodePlace::Ram(place)),
        Bank::Rom => at.get(NodePlace::Rom(place)),
    }
}

/// Some words of a stack or a memory, from a place on.
fn row(at: &Node, bank: Bank, first: u8, count: u8) -> ArrayVec<u32, 16>
    requires first { first ≤ 56 }
    requires some { 2 < count }
    requires few { count ≤ 16 }
    requires within { first + count ≤ bank_size bank }
    ensures items { result.items ≡ take count (drop first (words_of_bank bank (record_of_node at.now))) }
    ensures size { length (words_of_bank bank (record_of_node at.now)) ≡ bank_size bank }
    ensures words { AreEighteenBitWords result.items }
{
    let mut words = ArrayVec::new();
    'words: for place in 0..count {
        words.push(word_at(at, bank, first + place));
    }
    words
}
