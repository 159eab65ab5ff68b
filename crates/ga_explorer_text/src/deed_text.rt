//! What a step of a node did, in a few words.

ghost use Rattle.std.specs.Prelude.{◌≡◌, ◌+◌, ◌≤◌, ◌++◌, ◌%◌, length};
ghost use Rattle.arrayvec.specs.ArrayVec.{array_vec_len};
ghost use Rattle.ga_slots.specs.Codes.{name_of_opcode, opcode_of_code};
ghost use Rattle.ga_explorer_text.specs.Deeds.{step_text_for_node, own_event_kind_name, passed_word_text};

use ga_grid::NodeId;
use ga_lab::MadeEvent;
use ga_node::OwnEventKind;
use ga_slots::Op;
use ga_text::{
    MAX_NUMBER_DIGITS, MAX_STEP_BYTES, TextBuffer, WORD_DIGITS, push_number, push_step, push_text,
    push_word,
};
use ga_word::Word18;

/// The most bytes of an opcode's name.
const NAME_ROOM: usize = b"invert".len();

/// The most bytes of what an event of a node's own was.
const KIND_ROOM: usize = b"stop ".len() + MAX_NUMBER_DIGITS;

/// The most bytes of what a step did.
pub(crate) const MAX_ACTION_BYTES: usize = b"takes  from ".len() + WORD_DIGITS + MAX_STEP_BYTES;

/// Adds what a step of a node did: the opcode's name, what came in its place, or the word that was passed and the step at the other
/// end.
pub(crate) fn push_action(out: &mut TextBuffer, made: MadeEvent, node: NodeId)
    requires { array_vec_len out.old + MAX_ACTION_BYTES ≤ 256 }
    ensures text { out.new.items ≡ out.old.items ++ step_text_for_node made node.number }
    ensures len { array_vec_len out.new ≤ array_vec_len out.old + MAX_ACTION_BYTES }
{
    match &made {
        MadeEvent::Own { kind, .. } => push_kind(out, *kind),
        MadeEvent::Pass {
            writer,
            writer_step,
            reader,
            word,
            ..
        } if node.number == reader.number => {
            push_pass(out, b"takes ", *word, b" from ", *writer, *writer_step);
        }
        MadeEvent::Pass {
            reader,
            reader_step,
            word,
            ..
        } => push_pass(out, b"sends ", *word, b" to ", *reader, *reader_step),
    }
}

/// Adds which way a word went, the word, and the step at the other end.
fn push_pass(out: &mut TextBuffer, way: &[u8], word: Word18, end: &[u8], other: NodeId, step: u32)
    requires { array_vec_len out.old + length way.now + length end.now + WORD_DIGITS + MAX_STEP_BYTES ≤ 256 }
    ensures text { out.new.items ≡ out.old.items ++ passed_word_text way.now word end.now other step }
    ensures len { array_vec_len out.new ≤ array_vec_len out.old + length way.now + length end.now + WORD_DIGITS + MAX_STEP_BYTES }
{
    push_text(out, way);
    push_word(out, word);
    push_text(out, end);
    push_step(out, other, step);
}

/// Adds what an event of a node's own was.
fn push_kind(out: &mut TextBuffer, kind: OwnEventKind)
    requires { array_vec_len out.old + KIND_ROOM ≤ 256 }
    ensures text { out.new.items ≡ out.old.items ++ own_event_kind_name kind }
    ensures len { array_vec_len out.new ≤ array_vec_len out.old + KIND_ROOM }
{
    match kind {
        OwnEventKind::Fetch => push_text(out, b"fetch"),
        OwnEventKind::Run(code) => push_text(out, opcode_name(code)),
        OwnEventKind::Wait => push_text(out, b"wait"),
        OwnEventKind::Stop(number) => {
            push_text(out, b"stop ");
            push_number(out, u64::from(number));
        }
    }
}

/// The name of the opcode with this code.
fn opcode_name(code: u8) -> &'static [u8]
    ensures text { result.now ≡ name_of_opcode (opcode_of_code (code % 32)) }
    ensures len { length result.now ≤ NAME_ROOM }
{
    Op::from_code(code % 32).name().as_bytes()
}
