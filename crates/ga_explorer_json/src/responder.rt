//! What answers the lines of a session with JSON objects, and may end it at the first refused command.

ghost use Rattle.std.specs.Prelude.{◌≡◌, [], Some, IfOk, option_map, slice_get, take};
ghost use Rattle.ga_text.specs.Lines.{Bytes};
ghost use Rattle.ga_text.specs.Output.{IsTextWrittenOrPending, WritesExactly, WritesSomeText};
ghost use Rattle.ga_explorer.specs.Opening.{explorer_state};
ghost use Rattle.ga_explorer_json.specs.Session.{text_after_comma, is_json_refusal};
ghost use Rattle.ga_explorer_json.specs.inner.{json_action_after_answer, refusal_line_of_object, RespondsToLineRequest};

use crate::answers::{LineRequest, answer_request, line_request};
use crate::bytes::text_after_first_such_byte;
use crate::noted_refusal::note_refusal;
use ga_console::{DebuggerCommand, LineAction, Responder};
use ga_debug_info::DebugInfo;
use ga_explorer::Explorer;
use ga_lab::Lab;
use ga_text::{LineBuffer, WriteError, Writer};
use std::alloc::Global;
use std::io::Write;

/// A lab that is explored, what is known of the text on which it began, and whether the session ends at the first refused command.
#[derive(Drop)]
pub struct JsonExplorer {
    pub(crate) lab: Lab,
    pub(crate) notes: Option<DebugInfo>,
    /// A refusal ends the session.
    pub(crate) is_strict: bool,
    /// The text of the refusal that ended the session.
    pub(crate) refusal: LineBuffer,
}

impl JsonExplorer {
    /// What answers in a session that is strict or isn't.
    pub(crate) fn new(explorer: Explorer, is_strict: bool) -> Self
        ensures explorer { explorer_state result.lab result.notes ≡ explorer }
        ensures strict { result.is_strict ≡ is_strict }
    {
        let (lab, notes) = explorer.into_parts();
        JsonExplorer {
            lab,
            notes,
            is_strict,
            refusal: LineBuffer::new(),
        }
    }
}

impl Responder for JsonExplorer {
    ghost use Rattle.std.specs.Prelude.{false, None, []};
    ghost use Rattle.ga_explorer.specs.Opening.{explorer_state};
    ghost use Rattle.ga_explorer_json.specs.inner.{JsonSessionGoesOn, JsonSessionEnds};

    ghost answers = { λ p line answer new. JsonSessionGoesOn p.is_strict (explorer_state p.lab p.notes) line answer new.is_strict (explorer_state new.lab new.notes) };

    ghost refuses = { λ p line answer new. JsonSessionEnds p.is_strict (explorer_state p.lab p.notes) line answer new.is_strict (explorer_state new.lab new.notes) };

    ghost begin = { λ s. record { lab = s; notes = None; is_strict = false; refusal = record { items = [] } } };

    fn open(lab: Lab) -> Self {
        JsonExplorer {
            lab,
            notes: None,
            is_strict: false,
            refusal: LineBuffer::new(),
        }
    }

    fn answer<W: Write>(
        &mut self,
        alloc: Global,
        line: &[u8],
        writer: &mut Writer<'_, W>,
    ) -> Result<LineAction, WriteError> {
        if line == b"quit".as_slice() {
            return Ok(LineAction::Quit);
        }
        let request = line_request(&self.notes, line);
        respond(
            alloc,
            &mut self.lab,
            &self.notes,
            line,
            request,
            self.is_strict,
            &mut self.refusal,
            writer,
        )
    }

    fn obey_debugger_command<W: Write>(
        &mut self,
        alloc: Global,
        command: DebuggerCommand,
        writer: &mut Writer<'_, W>,
    ) -> Result<LineAction, WriteError> {
        respond(
            alloc,
            &mut self.lab,
            &self.notes,
            b"",
            LineRequest::Debug(command),
            self.is_strict,
            &mut self.refusal,
            writer,
        )
    }
}

/// Answers what a line asks for. In a strict session a refusal ends it. An answer is written once it is whole.
///
/// # Errors
/// A write failed, or there was no memory for a long answer.
fn respond<W: Write>(
    alloc: Global,
    lab: &mut Lab,
    notes: &Option<DebugInfo>,
    line: &[u8],
    request: LineRequest,
    is_strict: bool,
    refusal: &mut LineBuffer,
    writer: &mut Writer<'_, W>,
) -> Result<LineAction, WriteError>
    ensures { WritesSomeText result (RespondsToLineRequest is_strict (explorer_state lab.old notes.now) line.now request (explorer_state lab.new notes.now) result)
        W.contents writer.old writer.new }
{
    let mut long = Vec::new(alloc);
    let mut held = Writer::new(&mut long);
    answer_request(alloc, lab, notes, line, request, &mut held)?;
    pass_on(&mut held, is_strict, refusal, writer)
}

/// Writes an answer that was held back, and returns whether it ends the session. A long answer is in the vector first.
///
/// # Errors
/// A write failed, or there was no memory for a long answer.
fn pass_on<W: Write>(
    held: &mut Writer<'_, Vec<u8>>,
    is_strict: bool,
    refusal: &mut LineBuffer,
    writer: &mut Writer<'_, W>,
) -> Result<LineAction, WriteError>
    ensures { (answer : Bytes) → IsTextWrittenOrPending (Some held.old.stream.now.items) [] answer held.old.pending.items →
        WritesExactly result answer W.contents writer.old writer.new
        × IfOk result (λ turn. turn ≡ json_action_after_answer is_strict answer) }
{
    if held.stream.is_empty() {
        return write_answer(held.pending.as_slice(), is_strict, refusal, writer);
    }
    held.flush()?;
    write_answer(held.stream.as_slice(), is_strict, refusal, writer)
}

/// Writes an answer, and returns whether it ends the session. The text of a refusal is noted then.
///
/// # Errors
/// A write failed.
fn write_answer<W: Write>(
    answer: &[u8],
    is_strict: bool,
    refusal: &mut LineBuffer,
    writer: &mut Writer<'_, W>,
) -> Result<LineAction, WriteError>
    ensures written { WritesExactly result answer.now W.contents writer.old writer.new }
    ensures turn { IfOk result (λ turn. turn ≡ json_action_after_answer is_strict answer.now) }
    ensures noted { result ≡ Ok LineAction.Refused → refusal.new.items ≡ take 201 (refusal_line_of_object (text_after_comma answer.now)) }
{
    writer.write_blocks(answer)?;
    if !(is_strict && is_json_refusal(answer)) {
        return Ok(LineAction::Answered);
    }
    note_refusal(text_after_comma(answer), refusal);
    Ok(LineAction::Refused)
}

/// Whether an answer is a refusal.
fn is_json_refusal(answer: &[u8]) -> bool
    ensures { result ≡ is_json_refusal answer.now }
{
    text_after_comma(answer).starts_with(b"\"refused\":".as_slice())
}

/// The text after the first comma.
fn text_after_comma(text: &[u8]) -> &[u8]
    ensures { result.now ≡ text_after_comma text.now }
{
    text_after_first_such_byte(b',', text)
}
