//! A session that may end at its first refused command.

ghost use Rattle.std.specs.Prelude.{◌≡◌, ◌≢◌, ◌≤◌, [], Some, IfOk, take, length, true};
ghost use Rattle.ga_text.specs.Lines.{Bytes};
ghost use Rattle.ga_text.specs.Output.{IsTextWrittenOrPending, IsTextWrittenOrTruncated, WritesExactly, WritesSomeText};
ghost use Rattle.ga_console.specs.inner.Run.{AnswersLineOrEnds, AnswersCommandOrEnds};
ghost use Rattle.ga_explorer.specs.Session.{is_refusal_answer, AnswersLineAndContinues, AnswersAndEndsSession, session_status};
ghost use Rattle.ga_explorer.specs.inner.{strict_action_after_answer, IsRefusalNoted, refused_line_text};

use crate::explorer::Explorer;
use ga_console::{
    CommandsEnd, DebuggerCommand, LineAction, Responder, Status, status_of_commands_end,
};
use ga_lab::Lab;
use ga_text::{
    LineBuffer, TextBuffer, WriteError, WriteResult, Writer, push_number, push_text, write_all,
};
use std::alloc::Global;
use std::io::Write;

/// The most bytes of a refusal that are noted. None has more.
const MAX_REFUSAL: usize = 201;

/// A lab that is explored, and whether the session ends at the first refused command.
#[derive(Drop)]
pub struct StrictExplorer {
    /// What answers.
    pub explorer: Explorer,
    /// A refusal ends the session.
    pub is_strict: bool,
    /// The refusal that ended the session.
    pub refusal: LineBuffer,
}

impl StrictExplorer {
    /// What answers in a session that is strict or isn't.
    pub(crate) fn new(explorer: Explorer, is_strict: bool) -> Self
        ensures explorer { result.explorer ≡ explorer }
        ensures strict { result.is_strict ≡ is_strict }
    {
        StrictExplorer {
            explorer,
            is_strict,
            refusal: LineBuffer::new(),
        }
    }
}

impl Responder for StrictExplorer {
    ghost use Rattle.std.specs.Prelude.{false, None, []};
    ghost use Rattle.ga_explorer.specs.inner.{StrictSessionGoesOn, StrictSessionEnds};
    ghost use Rattle.ga_explorer.specs.Opening.{explorer_state};

    ghost answers = { λ p line answer new. StrictSessionGoesOn p.is_strict p.explorer line answer new.is_strict new.explorer };

    ghost refuses = { λ p line answer new. StrictSessionEnds p.is_strict p.explorer line answer new.is_strict new.explorer };

    ghost begin = { λ s. record { explorer = explorer_state s None; is_strict = false; refusal = record { items = [] } } };

    fn open(lab: Lab) -> Self {
        StrictExplorer {
            explorer: Explorer::open(lab),
            is_strict: false,
            refusal: LineBuffer::new(),
        }
    }

    fn answer<W: Write>(
        &mut self,
        alloc: Global,
        line: &[u8],
        writer: &mut Writer<'_, W>,
    ) -> Result<LineAction, WriteError> {
        if self.is_strict {
            return answer_strictly(alloc, &mut self.explorer, &mut self.refusal, line, writer);
        }
        self.explorer.answer(alloc, line, writer)
    }

    #[inline(always)]
    fn obey_debugger_command<W: Write>(
        &mut self,
        alloc: Global,
        command: DebuggerCommand,
        writer: &mut Writer<'_, W>,
    ) -> Result<LineAction, WriteError> {
        if self.is_strict {
            return obey_strictly(
                alloc,
                &mut self.explorer,
                &mut self.refusal,
                command,
                writer,
            );
        }
        self.explorer.obey_debugger_command(alloc, command, writer)
    }
}

/// Answers a line, of which at least the first 201 bytes are here. A refusal ends the session. An answer is written once it is whole.
///
/// # Errors
/// A write failed, or there was no memory for a long answer.
fn answer_strictly<W: Write>(
    alloc: Global,
    explorer: &mut Explorer,
    refusal: &mut LineBuffer,
    line: &[u8],
    writer: &mut Writer<'_, W>,
) -> Result<LineAction, WriteError>
    ensures answered { WritesSomeText result (AnswersLineOrEnds (AnswersLineAndContinues true) (AnswersAndEndsSession true) explorer.old line.now explorer.new result) W.contents writer.old writer.new }
    ensures quit { result ≡ Ok LineAction.Quit → refusal.new ≡ refusal.old }
{
    let mut long = Vec::new(alloc);
    let mut held = Writer::new(&mut long);
    match explorer.answer(alloc, line, &mut held)? {
        LineAction::Quit => Ok(LineAction::Quit),
        LineAction::Refused => Ok(LineAction::Refused),
        LineAction::Answered => pass_on(&mut held, refusal, writer),
    }
}

/// Answers a line that spells a command of the debugger in the same way.
///
/// # Errors
/// A write failed, or there was no memory for a long answer.
fn obey_strictly<W: Write>(
    alloc: Global,
    explorer: &mut Explorer,
    refusal: &mut LineBuffer,
    command: DebuggerCommand,
    writer: &mut Writer<'_, W>,
) -> Result<LineAction, WriteError>
    ensures { WritesSomeText result (AnswersCommandOrEnds (AnswersLineAndContinues true) (AnswersAndEndsSession true) explorer.old command explorer.new result) W.contents writer.old writer.new }
{
    let mut long = Vec::new(alloc);
    let mut held = Writer::new(&mut long);
    match explorer.obey_debugger_command(alloc, command, &mut held)? {
        LineAction::Quit => Ok(LineAction::Quit),
        LineAction::Refused => Ok(LineAction::Refused),
        LineAction::Answered => pass_on(&mut held, refusal, writer),
    }
}

/// Writes an answer that was held back, and returns whether it ends the session. A long answer is in the vector first.
///
/// # Errors
/// A write failed, or there was no memory for a long answer.
fn pass_on<W: Write>(
    held: &mut Writer<'_, Vec<u8>>,
    refusal: &mut LineBuffer,
    writer: &mut Writer<'_, W>,
) -> Result<LineAction, WriteError>
    ensures answer { (answer : Bytes) → IsTextWrittenOrPending (Some held.old.stream.now.items) [] answer held.old.pending.items →
        WritesExactly result answer W.contents writer.old writer.new
        × IfOk result (λ turn. turn ≡ strict_action_after_answer answer)
        × IfOk result (λ turn. IsRefusalNoted turn answer refusal.new.items) }
    ensures goes_on { result ≢ Ok LineAction.Quit }
{
    if held.stream.is_empty() {
        return write_answer(held.pending.as_slice(), refusal, writer);
    }
    held.flush()?;
    write_answer(held.stream.as_slice(), refusal, writer)
}

/// Writes an answer, and returns whether it ends the session. A refusal is noted.
///
/// # Errors
/// A write failed.
fn write_answer<W: Write>(
    answer: &[u8],
    refusal: &mut LineBuffer,
    writer: &mut Writer<'_, W>,
) -> Result<LineAction, WriteError>
    ensures written { WritesExactly result answer.now W.contents writer.old writer.new }
    ensures turn { IfOk result (λ turn. turn ≡ strict_action_after_answer answer.now) }
    ensures noted { IfOk result (λ turn. IsRefusalNoted turn answer.now refusal.new.items) }
    ensures goes_on { result ≢ Ok LineAction.Quit }
{
    writer.write_blocks(answer)?;
    if !is_refusal_answer(answer) {
        return Ok(LineAction::Answered);
    }
    refusal.clear();
    push_text(refusal, front_of(answer));
    Ok(LineAction::Refused)
}

/// The first bytes of an answer.
#[tactic(auto, using(std::proofs::lemmas::List::take_all))]
fn front_of(answer: &[u8]) -> &[u8]
    ensures { result.now ≡ take MAX_REFUSAL answer.now }
{
    if answer.len() <= MAX_REFUSAL {
        answer
    } else {
        answer.split_at(MAX_REFUSAL).0
    }
}

/// Whether an answer is a refusal.
pub fn is_refusal_answer(answer: &[u8]) -> bool
    ensures { result ≡ is_refusal_answer answer.now }
{
    answer.starts_with(b"no ".as_slice())
}

/// The status of a session that ended so. Where it ended at a refused command, `errors` gets the number of the line, and the refusal.
pub fn report_session_end_status<E: Write>(
    errors: &mut E,
    ending: Result<CommandsEnd, WriteError>,
    is_strict: bool,
    refusal: &LineBuffer,
) -> Status
    ensures { result ≡ session_status is_strict ending }
{
    match ending {
        Ok(CommandsEnd::Refused(number)) => {
            let _told = report_refusal(errors, number, refusal.as_slice());
            Status::CommandRefused
        }
        Ok(CommandsEnd::PastLimit(number)) => {
            if is_strict {
                let _told = report_refusal(errors, number, b"no 33 input\n");
                return Status::CommandRefused;
            }
            Status::StreamFault
        }
        _ => status_of_commands_end(ending),
    }
}

/// Reports that the command of this line was refused.
fn report_refusal<E: Write>(errors: &mut E, number: u32, refusal: &[u8]) -> WriteResult
    requires { length refusal.now ≤ MAX_REFUSAL }
    ensures { (before : Bytes) → E.contents errors.old ≡ Some before →
        IsTextWrittenOrTruncated result (E.contents errors.new) before (refused_line_text number refusal.now) [] }
{
    let mut text = TextBuffer::new();
    push_text(&mut text, b"ga144: line ");
    push_number(&mut text, u64::from(number));
    push_text(&mut text, b": refused: ");
    push_text(&mut text, refusal);
    write_all(errors, text.as_slice())
}
