//! The line of what decides that an end isn't clean.

ghost use Rattle.std.specs.Prelude.{◌≡◌, ◌≤◌, ◌+◌, ◌++◌};
ghost use Rattle.arrayvec.specs.ArrayVec.{array_vec_len};
ghost use Rattle.ga_event.specs.declared.made.MadeEvent.TheVariants.{Pass};
ghost use Rattle.ga_display.specs.Texts.{own_event_kind_text};
ghost use Rattle.ga_check_report.specs.DecisionTexts.{event_text_without_line_end, end_decision_text};

use arrayvec::ArrayVec;
use ga_event::MadeEvent;
use ga_grid::NodeId;
use ga_node::OwnEventKind;
use ga_state_ends::EndDecision;
use ga_text::{
    MAX_NUMBER_DIGITS, MAX_STEP_BYTES, TextBuffer, push_number, push_spaced_word, push_step,
    push_text, two_hex_digits,
};
use ga_word::Word18;

/// The maximum number of bytes of what an event of a node's own was.
const KIND_ROOM: usize = b" stop ".len() + MAX_NUMBER_DIGITS;

/// The maximum number of bytes of an event.
pub(crate) const MADE_ROOM: usize = b"pass ".len()
    + MAX_STEP_BYTES
    + b" ".len()
    + MAX_STEP_BYTES
    + b" 03ffff".len();

/// The line of what decides, if something does.
pub(crate) fn decision_line(decision: Option<EndDecision>) -> TextBuffer
    ensures { result.items ≡ end_decision_text decision }
{
    let mut out = ArrayVec::new();
    if let Some((taken, other)) = decision {
        push_text(&mut out, b"  decided by ");
        push_made(&mut out, taken);
        push_text(&mut out, b", not ");
        push_made(&mut out, other);
        push_text(&mut out, b"\n");
    }
    out
}

/// Adds an event.
pub(crate) fn push_made(out: &mut TextBuffer, made: MadeEvent)
    requires { array_vec_len out.old + MADE_ROOM ≤ 256 }
    ensures text { out.new.items ≡ out.old.items ++ event_text_without_line_end made }
    ensures len { array_vec_len out.new ≤ array_vec_len out.old + MADE_ROOM }
{
    match made {
        MadeEvent::Own { node, step, kind } => {
            push_step(out, node, step);
            push_kind(out, kind);
        }
        MadeEvent::Pass {
            writer,
            writer_step,
            reader,
            reader_step,
            word,
        } => push_pass(out, (writer, writer_step), (reader, reader_step), word),
    }
}

/// Adds a pass, by both of its steps and the word.
fn push_pass(out: &mut TextBuffer, writer: (NodeId, u32), reader: (NodeId, u32), word: Word18)
    requires { array_vec_len out.old + MADE_ROOM ≤ 256 }
    ensures text { out.new.items ≡ out.old.items ++ event_text_without_line_end (Pass writer.0 writer.1 reader.0 reader.1 word) }
    ensures len { array_vec_len out.new ≤ array_vec_len out.old + MADE_ROOM }
{
    push_text(out, b"pass ");
    push_step(out, writer.0, writer.1);
    push_text(out, b" ");
    push_step(out, reader.0, reader.1);
    push_spaced_word(out, word);
}

/// Adds what an event of a node's own was.
fn push_kind(out: &mut TextBuffer, kind: OwnEventKind)
    requires { array_vec_len out.old + KIND_ROOM ≤ 256 }
    ensures text { out.new.items ≡ out.old.items ++ own_event_kind_text kind }
    ensures len { array_vec_len out.new ≤ array_vec_len out.old + KIND_ROOM }
{
    match kind {
        OwnEventKind::Fetch => push_text(out, b" fetch"),
        OwnEventKind::Run(code) => {
            let [high, low] = two_hex_digits(code);
            push_text(out, &[b' ', b'r', b'u', b'n', b' ', high, low]);
        }
        OwnEventKind::Wait => push_text(out, b" wait"),
        OwnEventKind::Stop(number) => {
            push_text(out, b" stop ");
            push_number(out, u64::from(number));
        }
    }
}
