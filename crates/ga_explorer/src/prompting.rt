//! Exploring at a terminal: a prompt before each command.

ghost use Rattle.std.specs.Prelude.{◌≡◌, ◌-◌, ◌++◌, Some};
ghost use Rattle.ga_text.specs.Lines.{Bytes};
ghost use Rattle.ga_text.specs.Input.{IsWithinInputLimit, input_limit};
ghost use Rattle.ga_text.specs.Output.{IsSameStream, IsTextWrittenOrPending, WritesExactly};
ghost use Rattle.ga_console.specs.Session.{ServesCommands, IsWholeOrPrefixOnWriteError};
ghost use Rattle.ga_explorer.specs.Session.{prompt_text, AnswersWithPrompt, AnswersAndEndsSession};

use crate::strict::StrictExplorer;
use ga_console::{CommandsEnd, DebuggerCommand, LineAction, Responder, serve_commands};
use ga_lab::Lab;
use ga_text::{InputBuffer, WriteError, WriteResult, Writer};
use std::alloc::Global;
use std::io::{Read, Write};

/// A lab that is explored, and whether a prompt for the next command follows each answer.
#[derive(Drop)]
pub struct PromptedExplorer {
    /// What answers.
    pub explorer: StrictExplorer,
    /// A prompt follows each answer.
    pub is_prompted: bool,
}

impl PromptedExplorer {
    /// Writes the prompt of the next command, if one is wanted.
    ///
    /// # Errors
    /// A write failed.
    #[inline(always)]
    fn write_prompt<W: Write>(&self, writer: &mut Writer<'_, W>) -> WriteResult
        ensures { WritesExactly result (prompt_text self.now.is_prompted) W.contents writer.old writer.new }
    {
        if self.is_prompted {
            return writer.write_text(b"> ");
        }
        Ok(())
    }
}

impl Responder for PromptedExplorer {
    ghost use Rattle.std.specs.Prelude.{false, None, []};
    ghost use Rattle.ga_explorer.specs.inner.{PromptingSessionGoesOn, PromptingSessionEnds};
    ghost use Rattle.ga_explorer.specs.Opening.{explorer_state};

    ghost answers = { λ p line written new. PromptingSessionGoesOn p.is_prompted p.explorer.is_strict p.explorer.explorer line written new.is_prompted new.explorer.is_strict new.explorer.explorer };

    ghost refuses = { λ p line answer new. PromptingSessionEnds p.is_prompted p.explorer.is_strict p.explorer.explorer line answer new.is_prompted new.explorer.is_strict new.explorer.explorer };

    ghost begin = { λ s. record { explorer = record { explorer = explorer_state s None; is_strict = false; refusal = record { items = [] } }; is_prompted = false } };

    fn open(lab: Lab) -> Self {
        PromptedExplorer {
            explorer: StrictExplorer::open(lab),
            is_prompted: false,
        }
    }

    fn answer<W: Write>(
        &mut self,
        alloc: Global,
        line: &[u8],
        writer: &mut Writer<'_, W>,
    ) -> Result<LineAction, WriteError> {
        match self.explorer.answer(alloc, line, writer)? {
            LineAction::Quit => Ok(LineAction::Quit),
            LineAction::Refused => Ok(LineAction::Refused),
            LineAction::Answered => {
                self.write_prompt(writer)?;
                Ok(LineAction::Answered)
            }
        }
    }

    #[inline(always)]
    fn obey_debugger_command<W: Write>(
        &mut self,
        alloc: Global,
        command: DebuggerCommand,
        writer: &mut Writer<'_, W>,
    ) -> Result<LineAction, WriteError> {
        match self.explorer.obey_debugger_command(alloc, command, writer)? {
            LineAction::Quit => Ok(LineAction::Quit),
            LineAction::Refused => Ok(LineAction::Refused),
            LineAction::Answered => {
                self.write_prompt(writer)?;
                Ok(LineAction::Answered)
            }
        }
    }
}

/// Answers the command lines one by one, until the input ends or a strict session has a command refused, with a prompt before each if the
/// session prompts.
///
/// # Errors
/// A write failed.
pub(crate) fn serve_explorer<R: Read, W: Write>(
    alloc: Global,
    input: &mut InputBuffer,
    reader: &mut R,
    writer: &mut Writer<'_, W>,
    session: &mut PromptedExplorer,
) -> Result<CommandsEnd, WriteError>
    requires { IsWithinInputLimit input.old }
    ensures same { IsSameStream writer.old writer.new }
    ensures serves { (left before said : Bytes) → R.remaining reader.old ≡ Some left →
        IsTextWrittenOrPending (W.contents writer.old.stream.now) before said writer.old.pending.items →
        (read rest text sent : Bytes)
        × (input.old.bytes ++ left ≡ read ++ rest) × (R.remaining reader.new ≡ Some rest)
        × (W.contents writer.new.stream.now ≡ Some (before ++ sent))
        × ServesCommands (AnswersWithPrompt session.old.is_prompted session.old.explorer.is_strict) (AnswersAndEndsSession session.old.explorer.is_strict)
        (input_limit - input.old.taken) session.old.explorer.explorer read rest text session.new.explorer.explorer result
        × IsWholeOrPrefixOnWriteError result (said ++ (prompt_text session.old.is_prompted ++ text)) sent }
{
    session.write_prompt(writer)?;
    serve_commands(alloc, input, reader, writer, session)
}
