//! The texts of events and of the list that keeps them.
ghost use Rattle.std.specs.Prelude.{◌≡◌, ◌+◌, ◌≤◌, ◌<◌, ◌++◌, length, codes};
ghost use Rattle.arrayvec.specs.ArrayVec.{array_vec_len};
ghost use Rattle.ga_event.specs.declared.made.MadeEvent.TheVariants.{Own, Pass};
ghost use Rattle.ga_display.specs.Texts.{event_text, own_event_kind_text, refusal_text};

use arrayvec::ArrayVec;
use ga_grid::NodeId;
use ga_lab::{LabFault, MadeEvent};
use ga_node::OwnEventKind;
use ga_text::{
    MAX_LINE_BYTES, MAX_NUMBER_DIGITS, push_node_and_space, push_number, push_spaced_word,
    push_step, push_text, push_up_to_eight_digits, two_hex_digits,
};
use ga_word::Word18;

/// The text of a fetch, and the end of its line.
static FETCH: [u8; 7] = *b" fetch\n";

/// The most bytes of what an event of a node's own was, with its line feed.
const KIND_ROOM: usize = b" stop \n".len() + MAX_NUMBER_DIGITS;

/// Adds the text of an event.
#[inline(always)]
pub fn push_event_text<const ROOM: usize>(out: &mut ArrayVec<u8, ROOM>, made: MadeEvent)
    requires { array_vec_len out.old + MAX_LINE_BYTES ≤ ROOM }
    ensures { out.new.items ≡ out.old.items ++ event_text made }
{
    match made {
        MadeEvent::Own { node, step, kind } => {
            if step < 100_000_000 {
                push_near(out, node, step, kind);
            } else {
                push_far(out, node, step, kind);
            }
        }
        MadeEvent::Pass {
            writer,
            writer_step,
            reader,
            reader_step,
            word,
        } => push_pass(out, (writer, writer_step), (reader, reader_step), word),
    }
}

/// Adds the text of an event of a node's own, whose number has at most eight digits: without a call.
#[inline(always)]
fn push_near<const ROOM: usize>(
    out: &mut ArrayVec<u8, ROOM>,
    node: NodeId,
    step: u32,
    kind: OwnEventKind,
)
    requires small { step < 100000000 }
    requires room { array_vec_len out.old + MAX_LINE_BYTES ≤ ROOM }
    ensures { out.new.items ≡ out.old.items ++ event_text (Own node step kind) }
{
    push_node_and_space(out, node);
    push_up_to_eight_digits(out, u64::from(step));
    push_kind(out, kind);
}

/// Adds the text of an event of a node's own, whose number has any length.
#[inline(never)]
fn push_far<const ROOM: usize>(
    out: &mut ArrayVec<u8, ROOM>,
    node: NodeId,
    step: u32,
    kind: OwnEventKind,
)
    requires { array_vec_len out.old + MAX_LINE_BYTES ≤ ROOM }
    ensures { out.new.items ≡ out.old.items ++ event_text (Own node step kind) }
{
    push_step(out, node, step);
    push_kind(out, kind);
}

/// Adds the text of a pass, by both of its steps and the word.
fn push_pass<const ROOM: usize>(
    out: &mut ArrayVec<u8, ROOM>,
    writer: (NodeId, u32),
    reader: (NodeId, u32),
    word: Word18,
)
    requires { array_vec_len out.old + MAX_LINE_BYTES ≤ ROOM }
    ensures { out.new.items ≡ out.old.items ++ event_text (Pass writer.0 writer.1 reader.0 reader.1 word) }
{
    push_text(out, b"pass ");
    push_step(out, writer.0, writer.1);
    push_text(out, b" ");
    push_step(out, reader.0, reader.1);
    push_spaced_word(out, word);
    push_text(out, b"\n");
}

/// Adds what an event of a node's own was, and the end of its line.
#[inline(always)]
fn push_kind<const ROOM: usize>(out: &mut ArrayVec<u8, ROOM>, kind: OwnEventKind)
    requires { array_vec_len out.old + KIND_ROOM ≤ ROOM }
    ensures text { out.new.items ≡ out.old.items ++ (own_event_kind_text kind ++ codes "\n") }
{
    match kind {
        OwnEventKind::Run(code) => {
            let [high, low] = two_hex_digits(code);
            push_text(out, &[b' ', b'r', b'u', b'n', b' ', high, low, b'\n']);
        }
        OwnEventKind::Fetch => push_text(out, &fetch()),
        other => push_end(out, other),
    }
}

/// The text of a fetch, and the end of its line, by value, which is copied without a check for overlap.
#[inline(always)]
fn fetch() -> [u8; 7]
    ensures { result ≡ codes " fetch\n" }
{
    [
        FETCH[0], FETCH[1], FETCH[2], FETCH[3], FETCH[4], FETCH[5], FETCH[6],
    ]
}

/// Adds that an event of a node's own was a wait or a stop, and the end of its line.
#[inline(never)]
fn push_end<const ROOM: usize>(out: &mut ArrayVec<u8, ROOM>, kind: OwnEventKind)
    requires { array_vec_len out.old + KIND_ROOM ≤ ROOM }
    ensures text { out.new.items ≡ out.old.items ++ (own_event_kind_text kind ++ codes "\n") }
{
    match kind {
        OwnEventKind::Fetch => push_text(out, b" fetch\n"),
        OwnEventKind::Run(code) => {
            let [high, low] = two_hex_digits(code);
            push_text(out, &[b' ', b'r', b'u', b'n', b' ', high, low, b'\n']);
        }
        OwnEventKind::Wait => push_text(out, b" wait\n"),
        OwnEventKind::Stop(number) => {
            push_text(out, b" stop ");
            push_number(out, u64::from(number));
            push_text(out, b"\n");
        }
    }
}

/// The text of a refused call.
pub fn refusal_text(fault: LabFault) -> &'static [u8]
    ensures text { result.now ≡ refusal_text fault }
    ensures len { length result.now ≤ MAX_LINE_BYTES }
{
    match fault {
        LabFault::Waiting => b"no 1 waiting\n",
        LabFault::Stopped => b"no 2 stopped\n",
        LabFault::Full => b"no 3 full\n",
        LabFault::Memory => b"no 4 memory\n",
        LabFault::Empty => b"no 5 empty\n",
        LabFault::NoStep => b"no 6 nostep\n",
        LabFault::EventNumbersSpent => b"no 7 spent\n",
    }
}
