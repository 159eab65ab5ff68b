//! What standard error says of lines that say what is expected.

ghost use Rattle.std.specs.Prelude.{◌≡◌, ◌⊎◌, ◌++◌, [], decimal, Some, OnOk, IfOk};
ghost use Rattle.std.specs.List.{flat_map};
ghost use Rattle.ga_text.specs.Lines.{Bytes};
ghost use Rattle.ga_text.specs.Output.{IsTextWrittenOrTruncated};
ghost use Rattle.ga_debug_info.specs.Faults.{prefixed_line, more_faults_text, out_of_memory_text};
ghost use Rattle.ga_state_expectations.specs.Faults.{never_condition_fault_text, expectation_fault_cause_text, expectation_fault_text, expectation_faults_text, expectations_error_text};

use crate::cause::{ExpectationFault, ExpectationFaultCause, ExpectationsError};
use ga_debug_info::report_out_of_memory;
use ga_state_conditions::ConditionFault;
use ga_text::{WriteResult, write_all};
use std::alloc::{AllocError, Global};
use std::io::Write;

/// The maximum number of faults that are printed.
const MAX_REPORTED: usize = 20;

/// What is wrong with the conditions after `never`, and what would be right.
fn never_condition_fault_text(fault: ConditionFault) -> &'static [u8]
    ensures { result.now ≡ never_condition_fault_text fault }
{
    match fault {
        ConditionFault::Syntax => {
            b"no such condition: never NNN VALUE OP NUMBER, pass NNN MMM OP NUMBER, stop, stop NNN, wait NNN, stuck NNN, mem NNN HH = NUMBER, p NNN X, reach NNN X, change NNN HH [= NUMBER], or COND or COND"
        }
        ConditionFault::CountsSteps => {
            b"a state counts no steps: compare another value of the node, or a word that passes"
        }
        ConditionFault::CountsWords => {
            b"a state counts no words: give the word, as pass NNN MMM OP NUMBER does"
        }
        ConditionFault::TooManyConditions =>
            b"too many conditions: at most 8 after a never, others on a line of their own",
    }
}

/// What is wrong, and what would be right.
fn expectation_fault_cause_text(cause: ExpectationFaultCause) -> &'static [u8]
    ensures { result.now ≡ expectation_fault_cause_text cause }
{
    match cause {
        ExpectationFaultCause::NoExpectation => {
            b"nothing is expected: [NNN] VALUE OP NUMBER, [NNN] reads SIDE .., [NNN] writes SIDE, [NNN] awaits code, [NNN] stops N, pass NNN MMM = NUMBERS [..], never COND or COND .., every order ends, or one end"
        }
        ExpectationFaultCause::NoSuchChipExpectation =>
            b"no such expectation: every order ends, or one end",
        ExpectationFaultCause::NoNode => b"no node has begun: NNN before it names one",
        ExpectationFaultCause::NoSuchNode =>
            b"no such node: a row of 0 to 7, then a column of 00 to 17",
        ExpectationFaultCause::NoSuchValue => {
            b"no such value: t s r p a b i, d2 to d9, r1 to r8, io, slot, carry or a cell [HH]; nor is it reads, writes, awaits or stops"
        }
        ExpectationFaultCause::CountsSteps => b"an end counts no steps: compare another value",
        ExpectationFaultCause::NoSuchComparison => {
            b"no such comparison: VALUE OP NUMBER, where OP is = != < <= > or >="
        }
        ExpectationFaultCause::NoNumber => b"a number is missing: VALUE OP NUMBER",
        ExpectationFaultCause::NoSuchNumber => {
            b"no such number: 291, 0x123, -5, a word of six hexadecimal digits, a port, or a label of the node"
        }
        ExpectationFaultCause::OutOfRange => b"number out of range (-131072 to 262143)",
        ExpectationFaultCause::NoSide => b"a side is missing: left, right, up or down",
        ExpectationFaultCause::NoSuchSide => b"no such side: left, right, up or down",
        ExpectationFaultCause::TooManySides => {
            b"too many sides: a node writes to one, and reads from four at most"
        }
        ExpectationFaultCause::AwaitedNotCode =>
            b"no such wait: awaits code, reads SIDE .. or writes SIDE",
        ExpectationFaultCause::NoSuchStop => b"no such stop: stops 1, stops 2 or stops 3",
        ExpectationFaultCause::NotLink => {
            b"no such expectation: pass NNN MMM = NUMBERS, or pass NNN MMM = NUMBERS .. if others may come after them"
        }
        ExpectationFaultCause::NotNeighbours => {
            b"not neighbours: words pass between a node and the next one in its row or column"
        }
        ExpectationFaultCause::NoLinkWords => {
            b"no words: pass NNN MMM = NUMBERS, or never pass NNN MMM >= 0 if none may come"
        }
        ExpectationFaultCause::TooManyLinkWords => {
            b"too many words: at most 64, then .. for any others"
        }
        ExpectationFaultCause::WordsAfterEnd => { b"words after ..: it comes last, for any others" }
        ExpectationFaultCause::NeverConditionFault(fault) => never_condition_fault_text(fault),
    }
}

/// Adds a number in decimal digits.
fn push_number(text: &mut Vec<u8>, number: usize) -> Result<(), AllocError>
    ensures { OnOk result (text.new.items ≡ text.old.items ++ decimal number) }
{
    let mut buffer = itoa::Buffer::new();
    text.extend_from_slice(buffer.format(number).as_bytes())
}

/// Adds a fault with its line, after a prefix.
fn push_fault(text: &mut Vec<u8>, prefix: &[u8], fault: ExpectationFault) -> Result<(), AllocError>
    ensures { OnOk result (text.new.items ≡ text.old.items ++ prefixed_line prefix.now (expectation_fault_text fault)) }
{
    text.extend_from_slice(prefix)?;
    text.extend_from_slice(b"line ")?;
    push_number(text, fault.line as usize)?;
    text.extend_from_slice(b": ")?;
    text.extend_from_slice(expectation_fault_cause_text(fault.cause))?;
    text.push(b'\n')?;
    Ok(())
}

/// Adds each fault with its line, after a prefix.
fn push_faults(
    text: &mut Vec<u8>,
    prefix: &[u8],
    faults: &[ExpectationFault],
) -> Result<(), AllocError>
    ensures { OnOk result (text.new.items ≡ text.old.items ++ flat_map (λ fault. prefixed_line prefix.now (expectation_fault_text fault)) faults.now) }
{
    for fault in faults {
        push_fault(text, prefix, *fault)?;
    }
    Ok(())
}

/// Adds the number of faults that are left out, if any are.
fn push_more(text: &mut Vec<u8>, prefix: &[u8], count: usize) -> Result<(), AllocError>
    ensures { OnOk result (text.new.items ≡ text.old.items ++ more_faults_text prefix.now count) }
{
    if count == 0 {
        return Ok(());
    }
    text.extend_from_slice(prefix)?;
    text.extend_from_slice(b"and ")?;
    push_number(text, count)?;
    text.extend_from_slice(b" more\n")
}

/// A line for each fault, after a prefix: the first 20, and the number of the others.
///
/// # Errors
/// Out of memory.
pub fn format_expectation_faults(
    alloc: Global,
    prefix: &[u8],
    faults: &[ExpectationFault],
) -> Result<Vec<u8>, AllocError>
    ensures { IfOk result (λ text. text.items ≡ expectation_faults_text prefix.now faults.now) }
{
    let mut text = Vec::new(alloc);
    let (first, more) = faults.split_at(faults.len().min(MAX_REPORTED));
    push_faults(&mut text, prefix, first)?;
    push_more(&mut text, prefix, more.len())?;
    Ok(text)
}

/// Reports why the lines of a source give no expectations: the first 20 faults, and the number of the others, or that memory ran out.
pub fn report_expectations_error<E: Write>(
    alloc: Global,
    errors: &mut E,
    why: &ExpectationsError,
) -> WriteResult
    ensures { (before : Bytes) → E.contents errors.old ≡ Some before →
        IsTextWrittenOrTruncated result (E.contents errors.new) before out_of_memory_text []
        ⊎ IsTextWrittenOrTruncated result (E.contents errors.new) before (expectations_error_text why.now) [] }
{
    match why {
        ExpectationsError::Memory => report_out_of_memory(errors),
        ExpectationsError::FaultyLines(faults) => {
            match format_expectation_faults(alloc, b"ga144: ", faults.as_slice()) {
                Ok(text) => write_all(errors, text.as_slice()),
                Err(_) => report_out_of_memory(errors),
            }
        }
    }
}
