//! The line of an expectation, and what is known of it.

ghost use Rattle.std.specs.Prelude.{◌≡◌, ◌≤◌, ◌+◌, ◌++◌, codes, decimal};
ghost use Rattle.arrayvec.specs.ArrayVec.{array_vec_len};
ghost use Rattle.ga_text.specs.Output.{WritesExactly};
ghost use Rattle.ga_check_report.specs.ExpectationTexts.{session_option_text, breach_text, outcome_text, expectation_line, expectations_header, no_such_expectation_text};

use crate::decision_text::{MADE_ROOM, push_made};
use crate::ends_text::{at_least_text, push_counted};
use crate::outcome::{Breach, ExpectationOutcome};
use arrayvec::ArrayVec;
use ga_explorer_text::{expectation_line_start, push_link_fault, push_observation};
use ga_state_expectations::LineExpectation;
use ga_text::{MAX_NUMBER_DIGITS, TextBuffer, WriteResult, Writer, push_number, push_text};
use std::io::Write;

/// The maximum number of bytes of the option that writes a session.
const OPTION_ROOM: usize = b": --session ".len() + MAX_NUMBER_DIGITS;

/// The maximum number of bytes of what breaks an expectation.
const BREACH_ROOM: usize = MADE_ROOM + OPTION_ROOM;

/// Adds the option that writes the session of the expectation with this number.
fn push_session_option(out: &mut TextBuffer, number: usize)
    requires { array_vec_len out.old + OPTION_ROOM ≤ 256 }
    ensures text { out.new.items ≡ out.old.items ++ session_option_text number }
    ensures len { array_vec_len out.new ≤ array_vec_len out.old + OPTION_ROOM }
{
    push_text(out, b": --session ");
    push_number(out, number as u64);
}

/// Adds what breaks the expectation with this number; each state was explored or not.
fn push_breach(out: &mut TextBuffer, whole: bool, number: usize, breach: Breach)
    requires { array_vec_len out.old + BREACH_ROOM ≤ 256 }
    ensures text { out.new.items ≡ out.old.items ++ breach_text whole number breach }
    ensures len { array_vec_len out.new ≤ array_vec_len out.old + BREACH_ROOM }
{
    match breach {
        Breach::Unmet { observation, .. } => {
            push_observation(out, observation);
            push_session_option(out, number);
        }
        Breach::Reached(made) => {
            push_made(out, made);
            push_session_option(out, number);
        }
        Breach::OverLink { place, fault } => {
            push_link_fault(out, place, fault);
            push_session_option(out, number);
        }
        Breach::Endless => push_text(out, b"some order goes on for ever"),
        Breach::SeveralEnds(ends) => {
            push_text(out, at_least_text(whole));
            push_number(out, ends as u64);
            push_text(out, b" ends");
        }
    }
}

/// What comes after the words of the expectation with this number: what is known of it, if each state was explored or not.
pub(crate) fn outcome_text(whole: bool, number: usize, outcome: ExpectationOutcome) -> TextBuffer
    ensures { result.items ≡ outcome_text whole number outcome }
{
    let mut out = ArrayVec::new();
    push_text(&mut out, b": ");
    match outcome {
        ExpectationOutcome::Holds => push_text(&mut out, b"holds in every order\n"),
        ExpectationOutcome::Broken(breach) => {
            push_text(&mut out, b"broken, ");
            push_breach(&mut out, whole, number, breach);
            push_text(&mut out, b"\n");
        }
        ExpectationOutcome::Unknown => push_text(&mut out, b"not known\n"),
    }
    out
}

/// Writes the line of the expectation with this number.
///
/// # Errors
/// A write failed.
pub(crate) fn write_expectation<W: Write>(
    whole: bool,
    number: usize,
    one: &LineExpectation,
    outcome: ExpectationOutcome,
    writer: &mut Writer<'_, W>,
) -> WriteResult
    ensures { WritesExactly result (expectation_line whole number one.now outcome) W.contents writer.old writer.new }
{
    writer.write_blocks(expectation_line_start(one.line).as_slice())?;
    writer.write_blocks(one.text.as_slice())?;
    writer.write_blocks(outcome_text(whole, number, outcome).as_slice())
}

/// The numbers of states and of expectations.
pub(crate) fn expectations_header(whole: bool, states: usize, expectations: usize) -> TextBuffer
    ensures { result.items ≡ expectations_header whole states expectations }
{
    let mut out = ArrayVec::new();
    push_text(&mut out, at_least_text(whole));
    push_counted(&mut out, states as u64, b" state");
    push_text(&mut out, b", ");
    push_counted(&mut out, expectations as u64, b" expectation");
    push_text(&mut out, b"\n");
    out
}

/// What comes before the reason why there is no session of this number.
pub(crate) fn no_session_front(asked: u32) -> TextBuffer
    ensures text { result.items ≡ codes "no session " ++ decimal asked ++ codes ": " }
    ensures len { array_vec_len result ≤ 40 }
{
    let mut out = ArrayVec::new();
    push_text(&mut out, b"no session ");
    push_number(&mut out, u64::from(asked));
    push_text(&mut out, b": ");
    out
}

/// That there are only this number of expectations.
pub(crate) fn no_such_expectation_text(asked: u32, expectations: usize) -> TextBuffer
    ensures { result.items ≡ no_such_expectation_text asked expectations }
{
    let mut out = no_session_front(asked);
    push_counted(&mut out, expectations as u64, b" expectation");
    push_text(&mut out, b"\n");
    out
}
