//! The text of a run.

ghost use Rattle.std.specs.Prelude.{◌≡◌, ◌+◌, ◌*◌, ◌≤◌, ◌++◌, length, decimal};
ghost use Rattle.arrayvec.specs.ArrayVec.{array_vec_len};
ghost use Rattle.ga_explorer_text.specs.Texts.{run_end_text, which_condition_held_text, fault_name_text};

use arrayvec::ArrayVec;
use ga_display::{push_event_text, refusal_advice_text};
use ga_lab::LabFault;
use ga_scheduler::{RunEnd, RunResult};
use ga_text::{MAX_LINE_BYTES, MAX_NUMBER_DIGITS, push_number, push_text};

/// The most bytes of a run's line.
const RUN_ROOM: usize = 2 * MAX_LINE_BYTES;

/// The text of a run's line.
pub type RunText = ArrayVec<u8, RUN_ROOM>;

/// The number of events of a run, and why it ended: of several conditions, which held first; if the history is full, what to do.
pub fn run_result_text(ran: &RunResult, conditions: usize) -> RunText
    ensures { result.items ≡ run_end_text conditions ran.now.events ran.now.end }
{
    let mut out = ArrayVec::new();
    match ran.end {
        RunEnd::ConditionHeld { made, which } => {
            push_text(&mut out, b"reached ");
            push_number(&mut out, ran.events);
            push_which(&mut out, conditions, which);
            push_text(&mut out, b" ");
            push_event_text(&mut out, made);
        }
        RunEnd::MadeRequestedEvents => push_count(&mut out, b"made ", ran.events, b"\n"),
        RunEnd::Quiet => push_count(&mut out, b"quiet ", ran.events, b"\n"),
        RunEnd::Refused(why) => push_count(
            &mut out,
            word_of(why),
            ran.events,
            refusal_advice_text(why),
        ),
    }
    out
}

/// Adds which of several conditions held, counted from 1, and nothing of one alone.
fn push_which(out: &mut RunText, conditions: usize, which: u8)
    requires { array_vec_len out.old + 2 * MAX_NUMBER_DIGITS ≤ MAX_LINE_BYTES }
    ensures text { out.new.items ≡ out.old.items ++ which_condition_held_text conditions which }
    ensures len { array_vec_len out.new ≤ array_vec_len out.old + 2 * MAX_NUMBER_DIGITS }
{
    if conditions > 1 {
        push_text(out, b" by ");
        push_number(out, u64::from(which) + 1);
    }
}

/// Adds a word, a number and the rest of the line.
fn push_count(out: &mut RunText, word: &[u8], events: u64, rest: &[u8])
    requires word { array_vec_len out.old + length word.now ≤ MAX_LINE_BYTES }
    requires rest { length rest.now ≤ 80 }
    ensures { out.new.items ≡ out.old.items ++ word.now ++ decimal events ++ rest.now }
{
    push_text(out, word);
    push_number(out, events);
    push_text(out, rest);
}

/// Why a step was refused.
fn word_of(why: LabFault) -> &'static [u8]
    ensures text { result.now ≡ fault_name_text why }
    ensures len { length result.now ≤ 8 }
{
    match why {
        LabFault::Waiting => b"waiting ",
        LabFault::Stopped => b"stopped ",
        LabFault::Full => b"full ",
        LabFault::Memory => b"memory ",
        LabFault::Empty => b"empty ",
        LabFault::NoStep => b"nostep ",
        LabFault::EventNumbersSpent => b"spent ",
    }
}
