//! The text of a step with what it did, and of a value with the step that made it.

ghost use Rattle.std.specs.Prelude.{◌≡◌, ◌≤◌, ◌+◌, ◌-◌, ◌++◌, codes, None};
ghost use Rattle.ga_word.specs.Word.{hex_digits_of_word};
ghost use Rattle.ga_display.specs.Texts.{register_text};
ghost use Rattle.arrayvec.specs.ArrayVec.{array_vec_len};
ghost use Rattle.ga_explorer_text.specs.Whence.{transfer_result_text, op_result_text, own_event_result_text, step_result_text, loaded_value_text, value_with_word_text, queried_value_of_transfer_text, queried_value_text, step_action_text, value_line_numbers_text, value_run_count_text};
ghost use Rattle.ga_lab.specs.Machine.{history_of_node};
ghost use Rattle.std.specs.List.{slice_get};

use crate::deed_text::{MAX_ACTION_BYTES, push_action};
use crate::line_number::{push_line_number, push_run_count};
use crate::part_text::{MAX_NAMED_WORD_BYTES, push_named_word, push_part, push_part_suffix};
use crate::value_words::{MULTIPLY_STEP, ValueWords};
use arrayvec::ArrayVec;
use ga_event::NodePart;
use ga_grid::NodeId;
use ga_lab::{Lab, MadeEvent};
use ga_node::OwnEventKind;
use ga_provenance::{PartValue, ProvenanceLine};
use ga_text::{
    MAX_STEP_BYTES, TextBuffer, WORD_DIGITS, push_node, push_spaced_word, push_step, push_text,
};
use ga_word::Word18;

/// The most bytes of a word and of A.
const TWO_WORDS: usize = 1 + WORD_DIGITS + MAX_NAMED_WORD_BYTES;

/// The most bytes of a value with its step.
const MAX_VALUE_BYTES: usize = DID_ROOM + MAX_NAMED_WORD_BYTES + TWO_WORDS;

/// The most bytes of a step with what it did.
const DID_ROOM: usize = MAX_STEP_BYTES + 1 + MAX_ACTION_BYTES;

/// A step of a node, with what it did.
pub(crate) fn head_line(lab: &Lab, node: NodeId, step: u32) -> TextBuffer
    ensures { result.items ≡ step_action_text lab.now node step }
{
    let mut out = ArrayVec::new();
    push_did(&mut out, lab, node, step);
    out
}

/// A step of a node as line 0, with what it did and the queried value.
pub(crate) fn queried_line(
    lab: &Lab,
    node: NodeId,
    step: u32,
    value: PartValue,
    word: Word18,
) -> TextBuffer
    ensures { result.items ≡ value_line_numbers_text 0 None ++ step_action_text lab.now node step ++ queried_value_text (slice_get (history_of_node lab.now node.number) (step - 1)) step value word }
{
    let mut out = ArrayVec::new();
    push_line_number(&mut out, 0, None);
    push_did(&mut out, lab, node, step);
    let made = lab.made_event_of_step(node, step.saturating_sub(1));
    push_queried(&mut out, made, step, value, word);
    out
}

/// The step that made a value, or that it was loaded, with the value's word, two blanks deeper.
pub(crate) fn indented_line(lab: &Lab, value: PartValue, words: ValueWords) -> TextBuffer
    ensures { result.items ≡ codes "  " ++ value_with_word_text lab.now value words.word words.a }
{
    let mut out = ArrayVec::new();
    push_text(&mut out, b"  ");
    push_value_line(&mut out, lab, value, words);
    out
}

/// A line of a value with its number, that of the line that used it, and how many values its run has.
pub(crate) fn numbered_line(
    lab: &Lab,
    number: u32,
    user: Option<u32>,
    line: ProvenanceLine,
    words: ValueWords,
) -> TextBuffer
    ensures { result.items ≡ (value_line_numbers_text number user ++ value_with_word_text lab.now line.value words.word words.a) ++ value_run_count_text line.count }
{
    let mut out = ArrayVec::new();
    push_line_number(&mut out, number, user);
    push_value_line(&mut out, lab, line.value, words);
    push_run_count(&mut out, line.count);
    out
}

/// Adds the step that made a value, or that it was loaded, with the value's word.
fn push_value_line(out: &mut TextBuffer, lab: &Lab, value: PartValue, words: ValueWords)
    requires { array_vec_len out.old + MAX_VALUE_BYTES ≤ 256 }
    ensures text { out.new.items ≡ out.old.items ++ value_with_word_text lab.now value words.word words.a }
    ensures len { array_vec_len out.new ≤ array_vec_len out.old + MAX_VALUE_BYTES }
{
    if value.step == 0 {
        push_loaded(out, value, words.word);
    } else {
        push_did(out, lab, value.node, value.step);
        push_part_suffix(out, value.part);
        let made = lab.made_event_of_step(value.node, value.step - 1);
        push_left(out, made, value.part, words);
    }
}

/// Adds a loaded value, with its word.
fn push_loaded(out: &mut TextBuffer, value: PartValue, word: Word18)
    requires { array_vec_len out.old + MAX_VALUE_BYTES ≤ 256 }
    ensures text { out.new.items ≡ out.old.items ++ loaded_value_text value word }
    ensures len { array_vec_len out.new ≤ array_vec_len out.old + MAX_VALUE_BYTES }
{
    push_node(out, value.node);
    push_text(out, b" load ");
    push_part(out, value.part);
    push_spaced_word(out, word);
}

/// Adds a step of a node, with what it did.
fn push_did(out: &mut TextBuffer, lab: &Lab, node: NodeId, step: u32)
    requires { array_vec_len out.old + DID_ROOM ≤ 256 }
    ensures text { out.new.items ≡ out.old.items ++ step_action_text lab.now node step }
    ensures len { array_vec_len out.new ≤ array_vec_len out.old + DID_ROOM }
{
    push_step(out, node, step);
    push_text(out, b" ");
    if let Some(made) = lab.made_event_of_step(node, step.saturating_sub(1)) {
        push_action(out, made, node);
    }
}

/// Adds the queried value of a step, but for the word that it sent.
fn push_queried(
    out: &mut TextBuffer,
    made: Option<MadeEvent>,
    step: u32,
    value: PartValue,
    word: Word18,
)
    requires { array_vec_len out.old + MAX_NAMED_WORD_BYTES ≤ 256 }
    ensures { out.new.items ≡ out.old.items ++ queried_value_text made step value word }
{
    match made {
        Some(MadeEvent::Pass { .. }) => push_queried_of_transfer(out, step, value, word),
        Some(MadeEvent::Own { .. }) => push_named_word(out, value.part, word),
        None => push_named_word(out, value.part, word),
    }
}

/// Adds the queried value of a transfer: one that its node has after it.
fn push_queried_of_transfer(out: &mut TextBuffer, step: u32, value: PartValue, word: Word18)
    requires { array_vec_len out.old + MAX_NAMED_WORD_BYTES ≤ 256 }
    ensures { out.new.items ≡ out.old.items ++ queried_value_of_transfer_text step value word }
{
    if value.step == step {
        push_named_word(out, value.part, word);
    }
}

/// Adds the word that a step left in a part, but for a transferred one.
fn push_left(out: &mut TextBuffer, made: Option<MadeEvent>, part: NodePart, words: ValueWords)
    requires { array_vec_len out.old + TWO_WORDS ≤ 256 }
    ensures text { out.new.items ≡ out.old.items ++ step_result_text made part words.word words.a }
    ensures len { array_vec_len out.new ≤ array_vec_len out.old + TWO_WORDS }
{
    match made {
        Some(MadeEvent::Pass { .. }) => push_beside_transfer(out, part, words.word),
        Some(MadeEvent::Own { kind, .. }) => push_left_by_kind(out, kind, part, words),
        None => push_spaced_word(out, words.word),
    }
}

/// Adds the word that an event of a node's own left in a part.
fn push_left_by_kind(out: &mut TextBuffer, kind: OwnEventKind, part: NodePart, words: ValueWords)
    requires { array_vec_len out.old + TWO_WORDS ≤ 256 }
    ensures text { out.new.items ≡ out.old.items ++ own_event_result_text kind part words.word words.a }
    ensures len { array_vec_len out.new ≤ array_vec_len out.old + TWO_WORDS }
{
    match kind {
        OwnEventKind::Run(code) => push_left_by_op(out, code, part, words),
        OwnEventKind::Fetch => push_spaced_word(out, words.word),
        OwnEventKind::Wait => push_spaced_word(out, words.word),
        OwnEventKind::Stop(_) => push_spaced_word(out, words.word),
    }
}

/// Adds the word that an opcode left in a part, and A where it is T of `+*`.
fn push_left_by_op(out: &mut TextBuffer, code: u8, part: NodePart, words: ValueWords)
    requires { array_vec_len out.old + TWO_WORDS ≤ 256 }
    ensures text { out.new.items ≡ out.old.items ++ op_result_text code part words.word words.a }
    ensures len { array_vec_len out.new ≤ array_vec_len out.old + TWO_WORDS }
{
    match part {
        NodePart::Data(k) => {
            if code == MULTIPLY_STEP && k == 0 {
                push_t_and_a(out, words);
            } else {
                push_spaced_word(out, words.word);
            }
        }
        _ => push_spaced_word(out, words.word),
    }
}

/// Adds a word, and A.
fn push_t_and_a(out: &mut TextBuffer, words: ValueWords)
    requires { array_vec_len out.old + TWO_WORDS ≤ 256 }
    ensures text { out.new.items ≡ out.old.items ++ ((codes " " ++ hex_digits_of_word words.word) ++ register_text (codes "a") words.a) }
    ensures len { array_vec_len out.new ≤ array_vec_len out.old + TWO_WORDS }
{
    push_spaced_word(out, words.word);
    push_named_word(out, NodePart::A, words.a);
}

/// Adds the word that a transfer left in a part, but for the transferred one, which is in T or the instruction word.
fn push_beside_transfer(out: &mut TextBuffer, part: NodePart, word: Word18)
    requires { array_vec_len out.old + 1 + WORD_DIGITS ≤ 256 }
    ensures text { out.new.items ≡ out.old.items ++ transfer_result_text part word }
    ensures len { array_vec_len out.new ≤ array_vec_len out.old + 1 + WORD_DIGITS }
{
    match part {
        NodePart::Data(0) => (),
        NodePart::I => (),
        _ => push_spaced_word(out, word),
    }
}
