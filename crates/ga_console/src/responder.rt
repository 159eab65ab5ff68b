//! What answers the lines of a session.
ghost use Rattle.ga_text.specs.Output.{WritesSomeText};
ghost use Rattle.std.specs.Prelude.{◌≡◌};
ghost use Rattle.ga_text.specs.Lines.{Bytes};
ghost use Rattle.ga_lab.specs.Machine.{MachineState};
ghost use Rattle.ga_console.specs.Replies.{IsAnswerInWording, IsCommandReply};
ghost use Rattle.ga_console.specs.Session.{AnswersOrQuitsLine, NeverAnswersAndEnds};
ghost use Rattle.ga_console.specs.inner.Run.{AnswersLineOrEnds, AnswersCommandOrEnds};

use super::changes::{write_back_reply, write_rewind_reply, write_step_reply};
use super::command::{DebuggerCommand, parse_debugger_command};
use super::readings::{
    write_count_reply, write_dump_reply, write_memory_reply, write_node_reply, write_trace_reply,
    write_why_reply,
};
use ga_display::RefusalWording;
use ga_image::MAX_IMAGE_LINE_BYTES;
use ga_lab::Lab;
use ga_text::{WriteError, WriteResult, Writer};
use std::alloc::Global;
use std::io::Write;

/// What a line asks for.
#[derive(Clone, Copy, PartialEq, Eq)]
pub enum LineAction {
    /// An answer, which was written.
    Answered,
    /// An answer, which was written, and the end of the session, as the command was refused.
    Refused,
    /// The end of the session.
    Quit,
}

/// What answers the lines of a session. It knows each command of the debugger, and may know more.
pub trait Responder: Drop {
    // The machine before a line, the line, its answer, and the machine after it, if the session continues.
    ghost answers: { Self → Bytes → Bytes → Self → Type 0 };

    // The same, where the session ends, as the command was refused.
    ghost refuses: { Self → Bytes → Bytes → Self → Type 0 } = { NeverAnswersAndEnds };

    // The session's machine on a lab that was opened.
    ghost begin: { MachineState → Self };

    /// Begins on a lab.
    fn open(lab: Lab) -> Self
        ensures { result ≡ begin lab };

    /// Answers a line, of which at least the first 201 bytes are here.
    ///
    /// # Errors
    /// A write failed.
    fn answer<W: Write>(
        &mut self,
        alloc: Global,
        line: &[u8],
        writer: &mut Writer<'_, W>,
    ) -> Result<LineAction, WriteError>
        ensures { WritesSomeText result (AnswersLineOrEnds answers refuses self.old line.now self.new result) W.contents writer.old writer.new };

    /// Answers a line that spells a command of the debugger.
    ///
    /// # Errors
    /// A write failed.
    fn obey_debugger_command<W: Write>(
        &mut self,
        alloc: Global,
        command: DebuggerCommand,
        writer: &mut Writer<'_, W>,
    ) -> Result<LineAction, WriteError>
        ensures { WritesSomeText result (AnswersCommandOrEnds answers refuses self.old command self.new result) W.contents writer.old writer.new };
}

impl Responder for Lab {
    ghost use Rattle.ga_console.specs.Replies.{IsBriefAnswer};

    ghost answers = { IsBriefAnswer };

    ghost begin = { λ s. s };

    fn open(lab: Lab) -> Self {
        lab
    }

    fn answer<W: Write>(
        &mut self,
        alloc: Global,
        line: &[u8],
        writer: &mut Writer<'_, W>,
    ) -> Result<LineAction, WriteError> {
        answer_line_in_wording(alloc, self, line, RefusalWording::Brief, writer)
    }

    #[inline(always)]
    fn obey_debugger_command<W: Write>(
        &mut self,
        alloc: Global,
        command: DebuggerCommand,
        writer: &mut Writer<'_, W>,
    ) -> Result<LineAction, WriteError> {
        execute_command_in_wording(alloc, self, command, RefusalWording::Brief, writer)?;
        Ok(LineAction::Answered)
    }
}

/// Answers a line as the debugger does, with refusals in this wording. At least the first 201 bytes of the line are here.
///
/// # Errors
/// A write failed.
pub fn answer_line_in_wording<W: Write>(
    alloc: Global,
    lab: &mut Lab,
    line: &[u8],
    wording: RefusalWording,
    writer: &mut Writer<'_, W>,
) -> Result<LineAction, WriteError>
    ensures { WritesSomeText result (AnswersOrQuitsLine (IsAnswerInWording wording) lab.old line.now lab.new result) W.contents writer.old writer.new }
{
    if line.len() > MAX_IMAGE_LINE_BYTES {
        writer.write_text(wording.long_line_refusal())?;
        return Ok(LineAction::Answered);
    }
    match parse_debugger_command(line) {
        None => {
            writer.write_text(b"no 31 syntax\n")?;
            Ok(LineAction::Answered)
        }
        Some(command) => match command {
            DebuggerCommand::Quit => Ok(LineAction::Quit),
            _ => {
                execute_command_in_wording(alloc, lab, command, wording, writer)?;
                Ok(LineAction::Answered)
            }
        },
    }
}

/// Carries a command out and answers as the debugger does, with refusals in this wording. `quit` asks for nothing here.
///
/// # Errors
/// A write failed.
#[inline(always)]
pub fn execute_command_in_wording<W: Write>(
    alloc: Global,
    lab: &mut Lab,
    command: DebuggerCommand,
    wording: RefusalWording,
    writer: &mut Writer<'_, W>,
) -> WriteResult
    ensures { WritesSomeText result (λ text. IsCommandReply wording lab.old command text lab.new) W.contents writer.old writer.new }
{
    match command {
        DebuggerCommand::Step(at) => write_step_reply(lab, at, wording, writer),
        DebuggerCommand::Back => write_back_reply(lab, wording, writer),
        DebuggerCommand::Rewind(at, number) => write_rewind_reply(lab, at, number, wording, writer),
        DebuggerCommand::Node(at) => write_node_reply(lab, at, writer),
        DebuggerCommand::Memory(at, address) => write_memory_reply(lab, at, address, writer),
        DebuggerCommand::Trace(at) => write_trace_reply(lab, at, wording, writer),
        DebuggerCommand::Why {
            from,
            from_step,
            to,
            to_step,
        } => write_why_reply(lab, (from, from_step), (to, to_step), wording, writer),
        DebuggerCommand::Count => write_count_reply(lab, writer),
        DebuggerCommand::Dump => write_dump_reply(alloc, lab, wording, writer),
        DebuggerCommand::Quit => Ok(()),
    }
}
