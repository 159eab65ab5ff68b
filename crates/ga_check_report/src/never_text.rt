//! The text about an event after which a condition holds.

ghost use Rattle.std.specs.Prelude.{◌≡◌, false};
ghost use Rattle.ga_text.specs.Output.{WritesExactly};
ghost use Rattle.ga_check_report.specs.NeverTexts.{event_not_reached_text, unreached_event_text, reached_event_text};

use crate::ends_text::{push_counted, stopped_line};
use crate::request::CheckRequest;
use arrayvec::ArrayVec;
use ga_explorer_text::run_result_text;
use ga_lab::{Lab, MadeEvent};
use ga_scheduler::{RunEnd, RunResult, Schedule};
use ga_state_ends::FoundEnds;
use ga_state_search::SearchFault;
use ga_text::{TextBuffer, WriteResult, Writer, push_text};
use std::io::Write;

/// Writes the newest event of a lab as a run does.
///
/// # Errors
/// A write failed.
pub(crate) fn write_made<W: Write>(
    lab: &Lab,
    conditions: usize,
    which: u8,
    made: MadeEvent,
    writer: &mut Writer<'_, W>,
) -> WriteResult
    ensures { WritesExactly result (reached_event_text false conditions which made lab.now) W.contents writer.old writer.new }
{
    let ran = RunResult {
        events: u64::from(lab.counts().kept),
        end: RunEnd::ConditionHeld { made, which },
        schedule: Schedule::round_robin_schedule(),
    };
    writer.write_blocks(run_result_text(&ran, conditions).as_slice())
}

/// Writes that no such event was found.
///
/// # Errors
/// A write failed.
pub(crate) fn write_unreached_text<W: Write>(
    request: CheckRequest<'_>,
    found: &FoundEnds,
    writer: &mut Writer<'_, W>,
) -> WriteResult
    ensures { WritesExactly result (unreached_event_text request.entry found.now) W.contents writer.old writer.new }
{
    writer.write_blocks(unreached_line(request, found.count_states(), found.fault()).as_slice())
}

/// That no such event was found among this number of states.
fn unreached_line(
    request: CheckRequest<'_>,
    states: usize,
    fault: Option<SearchFault>,
) -> TextBuffer
    ensures { result.items ≡ event_not_reached_text request.entry states fault }
{
    let mut out = ArrayVec::new();
    match fault {
        None => {
            push_text(&mut out, b"never, in ");
            push_counted(&mut out, states as u64, b" state");
            push_text(&mut out, b"\n");
        }
        Some(fault) => {
            push_text(&mut out, b"not reached in ");
            push_counted(&mut out, states as u64, b" state");
            push_text(&mut out, b", ");
            push_text(&mut out, stopped_line(request, fault).as_slice());
        }
    }
    out
}
