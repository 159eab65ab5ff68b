//! A session that says nothing.
ghost use Rattle.std.specs.Prelude.{◌≡◌, ◌↔◌, [], Some, Ok, IsTrue};
ghost use Rattle.ga_text.specs.Lines.{Bytes};
ghost use Rattle.ga_text.specs.Output.{IsTextWrittenOrPending};
ghost use Rattle.ga_console.specs.declared.responder.LineAction.TheVariants.{Quit};
ghost use Rattle.ga_console.specs.Session.{NeverAnswersAndEnds};
ghost use Rattle.ga_console.specs.inner.Run.{AnswersLineOrEnds, AnswersCommandOrEnds};
ghost use Rattle.ga_picture.specs.Following.{IsOutOfMemoryAnswer};
ghost use Rattle.ga_picture.specs.inner.{NotesFailedAllocation};
ghost use Rattle.ga_explorer.specs.Answers.{AnswersExplorerLine};

use ga_console::{DebuggerCommand, LineAction, Responder};
use ga_display::advised_refusal_text;
use ga_explorer::Explorer;
use ga_lab::{Lab, LabFault};
use ga_text::{WriteError, Writer};
use std::alloc::Global;
use std::io::Write;

/// A session that carries out what exploring would, and says none of its answers.
#[derive(Drop)]
pub struct SilentSession {
    /// What answers.
    pub explorer: Explorer,
    /// An allocation failed for an answer, or for what it reports.
    pub short: bool,
}

impl SilentSession {
    /// Answers a line, of which at least the first 201 bytes are here, and says nothing.
    fn hear(&mut self, alloc: Global, line: &[u8]) -> LineAction
        ensures heard { (answer : Bytes) × AnswersLineOrEnds AnswersExplorerLine NeverAnswersAndEnds self.old.explorer line.now self.new.explorer (Ok result) answer
            × NotesFailedAllocation self.old.short answer self.new.short }
        ensures ends { result ≡ Quit → self.new.short ≡ self.old.short }
    {
        let mut answer = Vec::new(alloc);
        let mut said = Writer::new(&mut answer);
        match self.explorer.answer(alloc, line, &mut said) {
            Ok(LineAction::Answered) => {
                self.note(&mut said);
                LineAction::Answered
            }
            Ok(LineAction::Refused) => {
                self.note(&mut said);
                LineAction::Refused
            }
            Ok(LineAction::Quit) => LineAction::Quit,
            Err(WriteError) => {
                self.short = true;
                LineAction::Answered
            }
        }
    }

    /// Answers a line that spells a command of the debugger, and says nothing.
    fn hear_command(&mut self, alloc: Global, command: DebuggerCommand) -> LineAction
        ensures { (answer : Bytes) × AnswersCommandOrEnds AnswersExplorerLine NeverAnswersAndEnds self.old.explorer command self.new.explorer (Ok result) answer
            × NotesFailedAllocation self.old.short answer self.new.short }
    {
        let mut answer = Vec::new(alloc);
        let mut said = Writer::new(&mut answer);
        match self
            .explorer
            .obey_debugger_command(alloc, command, &mut said)
        {
            Ok(turn) => {
                self.note(&mut said);
                turn
            }
            Err(WriteError) => {
                self.short = true;
                LineAction::Answered
            }
        }
    }

    /// Notes an answer that reports out of memory.
    fn note(&mut self, said: &mut Writer<'_, Vec<u8>>)
        ensures same { self.new.explorer ≡ self.old.explorer }
        ensures noted { (answer : Bytes) → IsTextWrittenOrPending (Some said.old.stream.now.items) [] answer said.old.pending.items → NotesFailedAllocation self.old.short answer self.new.short }
    {
        match said.flush() {
            Ok(()) => self.short = self.short || is_short(said.stream.as_slice()),
            Err(WriteError) => self.short = true,
        }
    }
}

/// Whether an answer reports out of memory.
fn is_short(answer: &[u8]) -> bool
    ensures { IsTrue result ↔ IsOutOfMemoryAnswer answer.now }
{
    if answer.len() < 7 {
        return false;
    }
    let (front, _) = answer.split_at(7);
    front == b"memory ".as_slice() || answer == advised_refusal_text(LabFault::Memory)
}

impl Responder for SilentSession {
    ghost use Rattle.std.specs.Prelude.{false, None};
    ghost use Rattle.ga_explorer.specs.Opening.{explorer_state};
    ghost use Rattle.ga_picture.specs.inner.{ExecutesLineSilently};

    ghost answers = { λ m line said new. ExecutesLineSilently m.explorer m.short line said new.explorer new.short };

    ghost begin = { λ s. record { explorer = explorer_state s None; short = false } };

    fn open(lab: Lab) -> Self {
        SilentSession {
            explorer: Explorer::open(lab),
            short: false,
        }
    }

    fn answer<W: Write>(
        &mut self,
        alloc: Global,
        line: &[u8],
        _writer: &mut Writer<'_, W>,
    ) -> Result<LineAction, WriteError> {
        Ok(self.hear(alloc, line))
    }

    fn obey_debugger_command<W: Write>(
        &mut self,
        alloc: Global,
        command: DebuggerCommand,
        _writer: &mut Writer<'_, W>,
    ) -> Result<LineAction, WriteError> {
        Ok(self.hear_command(alloc, command))
    }
}
