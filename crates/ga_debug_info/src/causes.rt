//! Faults of a source as texts.

ghost use Rattle.std.specs.Prelude.{◌≡◌, ◌++◌, OnOk, codes, decimal};
ghost use Rattle.std.specs.List.{flat_map};
ghost use Rattle.ga_parser.specs.Hints.{hint_for_word, hint_text};
ghost use Rattle.ga_debug_info.specs.Faults.{printable_byte_text, printable_text, hint_suffix_text, number_range_text, repeated_cell_text, org_address_text, source_cause_text, source_fault_text, prefixed_line, more_faults_text, reported_faults_text};

use crate::building::{push_number, three_digits};
use ga_source::{NumberRange, SourceFault, SourceFaultCause, SpellingHint, hint_for_word};
use ga_text::two_hex_digits;
use std::alloc::AllocError;

/// The maximum number of faults of a source that are printed.
const MAX_REPORTED: usize = 20;

/// Adds a byte as it is printed.
fn push_printable_byte(text: &mut Vec<u8>, byte: u8) -> Result<(), AllocError>
    ensures { OnOk result (text.new.items ≡ text.old.items ++ printable_byte_text byte) }
{
    if 32 <= byte && byte < 127 {
        text.push(byte)?;
        return Ok(());
    }
    text.extend_from_slice(b"\\x")?;
    text.extend_from_slice(&two_hex_digits(byte))
}

/// Adds a word as it is printed.
fn push_printable(text: &mut Vec<u8>, word: &[u8]) -> Result<(), AllocError>
    ensures { OnOk result (text.new.items ≡ text.old.items ++ printable_text word.now) }
{
    for byte in word {
        push_printable_byte(text, *byte)?;
    }
    Ok(())
}

/// Adds the three parts of a hint.
#[tactic(auto, using(crate::proofs::Hinted::parts_shown))]
fn push_hint(text: &mut Vec<u8>, hint: SpellingHint<'_>) -> Result<(), AllocError>
    ensures { OnOk result (text.new.items ≡ text.old.items ++ (codes ": " ++ printable_text (hint_text hint.entry))) }
{
    text.extend_from_slice(b": ")?;
    push_printable(text, hint.before)?;
    push_printable(text, hint.word)?;
    push_printable(text, hint.behind)
}

/// Adds what is proposed in place of a word, if anything is.
fn push_proposal(text: &mut Vec<u8>, word: &[u8]) -> Result<(), AllocError>
    ensures { OnOk result (text.new.items ≡ text.old.items ++ hint_suffix_text (hint_for_word word.now)) }
{
    match hint_for_word(word) {
        Some(hint) => push_hint(text, hint),
        None => Ok(()),
    }
}

/// Adds an unknown word, and what is proposed in its place.
fn push_unknown(text: &mut Vec<u8>, word: &[u8]) -> Result<(), AllocError>
    ensures { OnOk result (text.new.items ≡ text.old.items ++ (codes "what is " ++ printable_text word.now ++ hint_suffix_text (hint_for_word word.now))) }
{
    text.extend_from_slice(b"what is ")?;
    push_printable(text, word)?;
    push_proposal(text, word)
}

/// The numbers of a range.
fn number_range_text(range: NumberRange) -> &'static [u8]
    ensures { result.now ≡ number_range_text range }
{
    match range {
        NumberRange::Word => b"-131072 to 262143",
        NumberRange::P => b"0 to 0x3ff",
        NumberRange::B => b"0 to 0x1ff",
        NumberRange::Cell => b"0 to 0x3f, 0x80 to 0xbf",
    }
}

/// Adds a number that its place doesn't accept, and the accepted ones.
fn push_out_of_range(text: &mut Vec<u8>, word: &[u8], range: NumberRange) -> Result<(), AllocError>
    ensures { OnOk result (text.new.items ≡ text.old.items ++ (codes "number out of range: " ++ printable_text word.now ++ codes " (" ++ number_range_text range ++ codes ")")) }
{
    text.extend_from_slice(b"number out of range: ")?;
    push_printable(text, word)?;
    text.extend_from_slice(b" (")?;
    text.extend_from_slice(number_range_text(range))?;
    text.extend_from_slice(b")")
}

/// Adds what is wrong with a cell that was given before.
fn push_twice(text: &mut Vec<u8>, cell: u32, line: u32) -> Result<(), AllocError>
    ensures { OnOk result (text.new.items ≡ text.old.items ++ source_cause_text (SourceFaultCause.CellTwice cell line)) }
{
    push_given_before(text, cell, line)?;
    push_org(text, cell)
}

/// Adds the cell that a line gave before.
fn push_given_before(text: &mut Vec<u8>, cell: u32, line: u32) -> Result<(), AllocError>
    ensures { OnOk result (text.new.items ≡ text.old.items ++ repeated_cell_text cell line) }
{
    text.extend_from_slice(b"cell ")?;
    text.extend_from_slice(&three_digits(cell))?;
    text.extend_from_slice(b" given before on line ")?;
    push_number(text, line)
}

/// Adds a cell in decimal, as `org` has it.
fn push_org(text: &mut Vec<u8>, cell: u32) -> Result<(), AllocError>
    ensures { OnOk result (text.new.items ≡ text.old.items ++ org_address_text cell) }
{
    text.extend_from_slice(b" (org ")?;
    push_number(text, cell)?;
    text.extend_from_slice(b" is ")?;
    text.extend_from_slice(&three_digits(cell))?;
    text.extend_from_slice(b")")
}

/// Adds what is wrong with a cell past the end of memory.
fn push_past(text: &mut Vec<u8>, address: u32) -> Result<(), AllocError>
    ensures { OnOk result (text.new.items ≡ text.old.items ++ source_cause_text (SourceFaultCause.PastMemoryEnd address)) }
{
    text.extend_from_slice(&three_digits(address))?;
    text.extend_from_slice(b" is past the end of RAM or ROM")
}

/// Adds what is wrong with a jump that doesn't reach its target.
fn push_reach(text: &mut Vec<u8>, cell: u32, target: u32) -> Result<(), AllocError>
    ensures { OnOk result (text.new.items ≡ text.old.items ++ source_cause_text (SourceFaultCause.JumpOutOfReach cell target)) }
{
    text.extend_from_slice(&three_digits(target))?;
    text.extend_from_slice(b" is out of reach of a jump in ")?;
    text.extend_from_slice(&three_digits(cell))
}

/// Adds what is wrong with a loop that is longer than its cell.
fn push_loop(text: &mut Vec<u8>, cell: u32) -> Result<(), AllocError>
    ensures { OnOk result (text.new.items ≡ text.old.items ++ source_cause_text (SourceFaultCause.UnextOutOfReach cell)) }
{
    text.extend_from_slice(b"the loop of unext in ")?;
    text.extend_from_slice(&three_digits(cell))?;
    text.extend_from_slice(b" is longer than its cell")
}

/// Adds what is wrong.
fn push_cause(text: &mut Vec<u8>, cause: SourceFaultCause<'_>) -> Result<(), AllocError>
    ensures { OnOk result (text.new.items ≡ text.old.items ++ source_cause_text cause.entry) }
{
    match cause {
        SourceFaultCause::Memory => text.extend_from_slice(b"no memory"),
        SourceFaultCause::LongLine => text.extend_from_slice(b"the line has more than 200 bytes"),
        SourceFaultCause::OpenComment => text.extend_from_slice(b"a comment without its )"),
        SourceFaultCause::NoNodeBegun => text.extend_from_slice(b"no node has begun"),
        SourceFaultCause::NoSuchNode => text.extend_from_slice(b"no such node"),
        SourceFaultCause::NodeTwice => text.extend_from_slice(b"the node has a program already"),
        SourceFaultCause::UnknownWord(word) => push_unknown(text, word),
        SourceFaultCause::NameTaken => text.extend_from_slice(b"the name is taken"),
        SourceFaultCause::MissingNameOrValue => text.extend_from_slice(
            b"a name or a value is missing",
        ),
        SourceFaultCause::NoNumber => {
            text.extend_from_slice(b"no number from -131072 to 262143 before constant")
        }
        SourceFaultCause::LabelTwice => text.extend_from_slice(b"the label stands twice"),
        SourceFaultCause::RegisterTwice => text.extend_from_slice(b"the register is given twice"),
        SourceFaultCause::UnmatchedControlWord => text.extend_from_slice(
            b"nothing is open that this closes",
        ),
        SourceFaultCause::UnclosedControlWord => text.extend_from_slice(b"this is never closed"),
        SourceFaultCause::OperandOutOfRange(word, range) => push_out_of_range(text, word, range),
        SourceFaultCause::CellTwice { cell, line } => push_twice(text, cell, line),
        SourceFaultCause::PastMemoryEnd(address) => push_past(text, address),
        SourceFaultCause::JumpOutOfReach { cell, target } => push_reach(text, cell, target),
        SourceFaultCause::UnextOutOfReach(cell) => push_loop(text, cell),
    }
}

/// Adds a fault with its line, without a line feed.
pub fn push_fault(text: &mut Vec<u8>, fault: SourceFault<'_>) -> Result<(), AllocError>
    ensures { OnOk result (text.new.items ≡ text.old.items ++ source_fault_text fault.entry) }
{
    text.extend_from_slice(b"line ")?;
    push_number(text, fault.line)?;
    text.extend_from_slice(b": ")?;
    push_cause(text, fault.cause)
}

/// Adds a line with a fault, after a prefix.
fn push_fault_line(
    text: &mut Vec<u8>,
    prefix: &[u8],
    fault: SourceFault<'_>,
) -> Result<(), AllocError>
    ensures { OnOk result (text.new.items ≡ text.old.items ++ prefixed_line prefix.now (source_fault_text fault.entry)) }
{
    text.extend_from_slice(prefix)?;
    push_fault(text, fault)?;
    text.push(b'\n')?;
    Ok(())
}

/// Adds a line for each fault.
fn push_all<'s>(
    text: &mut Vec<u8>,
    prefix: &[u8],
    faults: &[SourceFault<'s>],
) -> Result<(), AllocError>
    ensures { OnOk result (text.new.items ≡ text.old.items ++ flat_map (λ fault. prefixed_line prefix.now (source_fault_text fault)) faults.now) }
{
    for fault in faults {
        push_fault_line(text, prefix, *fault)?;
    }
    Ok(())
}

/// Adds the number of faults that are left out, if any are.
fn push_more(text: &mut Vec<u8>, prefix: &[u8], count: usize) -> Result<(), AllocError>
    ensures { OnOk result (text.new.items ≡ text.old.items ++ more_faults_text prefix.now count) }
{
    if count == 0 {
        return Ok(());
    }
    text.extend_from_slice(prefix)?;
    text.extend_from_slice(b"and ")?;
    push_count(text, count)?;
    text.extend_from_slice(b" more\n")
}

/// Adds a count in decimal digits.
fn push_count(text: &mut Vec<u8>, count: usize) -> Result<(), AllocError>
    ensures { OnOk result (text.new.items ≡ text.old.items ++ decimal count) }
{
    let mut buffer = itoa::Buffer::new();
    text.extend_from_slice(buffer.format(count).as_bytes())
}

/// Adds the first 20 faults, each on a line after a prefix, and the number of the others.
pub fn push_faults<'s>(
    text: &mut Vec<u8>,
    prefix: &[u8],
    faults: &[SourceFault<'s>],
) -> Result<(), AllocError>
    ensures { OnOk result (text.new.items ≡ text.old.items ++ reported_faults_text prefix.now faults.now) }
{
    let (first, more) = faults.split_at(faults.len().min(MAX_REPORTED));
    push_all(text, prefix, first)?;
    push_more(text, prefix, more.len())
}
