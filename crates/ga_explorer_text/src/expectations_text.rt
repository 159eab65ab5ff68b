//! The status of each expectation of a source, written line by line.

ghost use Rattle.std.specs.Prelude.{◌≡◌, ◌≤◌, length};
ghost use Rattle.ga_causal.specs.Dependence.{is_node_flagged};
ghost use Rattle.ga_text.specs.Output.{WritesSomeText, WritesExactly};
ghost use Rattle.ga_explorer_text.specs.Expected.{expectation_line_start, session_breach_text, status_start, status_details, status_text, status_line, status_lines_text, AreStatusesWritten, IsExpectationsAnswer};

use super::link_fault_text::push_link_fault;
use super::observation_text::push_observation;
use arrayvec::ArrayVec;
use ga_debug_info::DebugInfo;
use ga_display::{advised_refusal_text, push_event_text};
use ga_lab::{Lab, LabFault};
use ga_races::find_deadlocked_nodes;
use ga_scheduler::is_quiescent;
use ga_state_expectations::{
    ExpectationStatus, LineExpectation, SessionBreach, expectation_status, known_expectations,
};
use ga_text::{MAX_LINE_BYTES, TextBuffer, WriteResult, Writer, push_node, push_number, push_text};
use std::alloc::Global;
use std::io::Write;

/// The maximum number of bytes of the status of an expectation.
const STATUS_ROOM: usize = 2 * MAX_LINE_BYTES;

/// The status of an expectation.
type StatusText = ArrayVec<u8, STATUS_ROOM>;

/// `expectations`: writes the status of each expectation of the source, over the history and the chip now, in the order of lines. Takes memory for the
/// expectations.
///
/// # Errors
/// A write failed.
pub fn write_expectations<W: Write>(
    alloc: Global,
    lab: &Lab,
    notes: &Option<DebugInfo>,
    writer: &mut Writer<'_, W>,
) -> WriteResult
    ensures { WritesSomeText result (IsExpectationsAnswer notes.now lab.now) W.contents writer.old writer.new }
{
    match known_expectations(alloc, notes) {
        Ok(expectations) => write_expectation_statuses(lab, expectations.as_slice(), writer),
        Err(_) => writer.write_text(advised_refusal_text(LabFault::Memory)),
    }
}

/// Writes the status of each of these expectations, over the history and the chip now, or that there are none.
///
/// # Errors
/// A write failed.
fn write_expectation_statuses<W: Write>(
    lab: &Lab,
    expectations: &[LineExpectation],
    writer: &mut Writer<'_, W>,
) -> WriteResult
    ensures { WritesSomeText result (AreStatusesWritten lab.now expectations.now) W.contents writer.old writer.new }
{
    let chip = lab.chip();
    let stuck = find_deadlocked_nodes(chip);
    let is_quiet = is_quiescent(chip);
    if expectations.is_empty() {
        return writer.write_text(b"none\n");
    }
    write_lines(lab, &stuck, is_quiet, expectations, writer)
}

/// Writes the status of each of these expectations, where these nodes are deadlocked and an event is possible or none is.
fn write_lines<W: Write>(
    lab: &Lab,
    stuck: &[bool; 144],
    is_quiet: bool,
    expectations: &[LineExpectation],
    writer: &mut Writer<'_, W>,
) -> WriteResult
    ensures { WritesSomeText result (λ text. text ≡ status_lines_text (is_node_flagged stuck.now) is_quiet lab.now expectations.now) W.contents writer.old writer.new }
{
    'lines: for one in expectations {
        write_line(lab, stuck, is_quiet, one, writer)?;
    }
    Ok(())
}

/// Writes the status of an expectation.
fn write_line<W: Write>(
    lab: &Lab,
    stuck: &[bool; 144],
    is_quiet: bool,
    one: &LineExpectation,
    writer: &mut Writer<'_, W>,
) -> WriteResult
    ensures { WritesExactly result (status_line (is_node_flagged stuck.now) is_quiet lab.now one.now) W.contents writer.old writer.new }
{
    let status = expectation_status(lab, stuck, is_quiet, &one.expectation);
    writer.write_blocks(expectation_line_start(one.line).as_slice())?;
    writer.write_blocks(one.text.as_slice())?;
    writer.write_blocks(status_text(status).as_slice())
}

/// What comes before the words of an expectation.
pub fn expectation_line_start(line: u32) -> TextBuffer
    ensures { result.items ≡ expectation_line_start line }
{
    let mut out = ArrayVec::new();
    push_text(&mut out, b"line ");
    push_number(&mut out, u64::from(line));
    push_text(&mut out, b": ");
    out
}

/// What comes after the words of an expectation: its status.
fn status_text(status: ExpectationStatus) -> StatusText
    ensures { result.items ≡ status_text status }
{
    let details = status_details(status);
    let mut out = ArrayVec::new();
    push_text(&mut out, status_start(&status));
    push_text(&mut out, details.as_slice());
    out
}

/// The status of an expectation, in a word.
fn status_start(status: &ExpectationStatus) -> &'static [u8]
    ensures text { result.now ≡ status_start status.now }
    ensures len { length result.now ≤ 16 }
{
    match status {
        ExpectationStatus::Held => b": held\n",
        ExpectationStatus::Broken(_) => b": broken, ",
        ExpectationStatus::Pending => b": pending\n",
    }
}

/// What breaks an expectation, if it is broken, and the line's end.
fn status_details(status: ExpectationStatus) -> TextBuffer
    ensures { result.items ≡ status_details status }
{
    match status {
        ExpectationStatus::Held => ArrayVec::new(),
        ExpectationStatus::Broken(breach) => session_breach_text(breach),
        ExpectationStatus::Pending => ArrayVec::new(),
    }
}

/// What breaks an expectation, and the line's end.
fn session_breach_text(breach: SessionBreach) -> TextBuffer
    ensures { result.items ≡ session_breach_text breach }
{
    let mut out = ArrayVec::new();
    match breach {
        SessionBreach::Unmet(observation) => {
            push_observation(&mut out, observation);
            push_text(&mut out, b"\n");
        }
        SessionBreach::Reached(made) => push_event_text(&mut out, made),
        SessionBreach::Stuck(node) => {
            push_text(&mut out, b"stuck ");
            push_node(&mut out, node);
            push_text(&mut out, b"\n");
        }
        SessionBreach::OverLink { place, fault } => {
            push_link_fault(&mut out, place, fault);
            push_text(&mut out, b"\n");
        }
    }
    out
}
