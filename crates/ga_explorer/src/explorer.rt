//! What answers the lines of a session of exploring.

ghost use Rattle.std.specs.Prelude.{◌≡◌, ◌≤◌, length, Some, None, IfSome, IfNone, IsTrue, false};
ghost use Rattle.ga_text.specs.Output.{WritesSomeText};
ghost use Rattle.ga_explorer.specs.Commands.{explorer_command_of_line, AnswersExplorerCommand};
ghost use Rattle.ga_explorer.specs.Opening.{explorer_state};
ghost use Rattle.ga_explorer.specs.Answers.{AnswersLineOrQuits, AnswersNonExplorerLine, IsDebuggerLine, IsNoDebuggerCommand};
ghost use Rattle.ga_console.specs.Session.{AnswersOrQuitsLine};

use crate::changes::write_change_result;
use crate::commands::{ExplorerCommand, answer_query, parse_explorer_command};
use crate::forms::write_syntax_error;
use ga_console::{
    DebuggerCommand, LineAction, Responder, answer_line_in_wording, execute_command_in_wording,
    parse_debugger_command,
};
use ga_debug_info::DebugInfo;
use ga_display::RefusalWording;
use ga_image::MAX_IMAGE_LINE_BYTES;
use ga_lab::Lab;
use ga_text::{WriteError, WriteResult, Writer};
use std::alloc::Global;
use std::io::Write;
use std::marker::Model;

/// A lab that is explored, and what is known of the text on which it began.
#[derive(Drop)]
pub struct Explorer {
    lab: Lab,
    notes: Option<DebugInfo>,
}

impl Model for Explorer {
    ghost use Rattle.ga_explorer.specs.Opening.{ExplorerState, explorer_state};

    ghost Value = { ExplorerState };

    ghost view = { λ e. explorer_state e.lab e.notes };
}

impl Explorer {
    /// To explore a lab, with these notes of its cells.
    pub(crate) fn of(lab: Lab, notes: Option<DebugInfo>) -> Self
        ensures { result ≡ explorer_state lab notes }
    {
        Explorer { lab, notes }
    }

    /// The lab.
    pub fn lab(&self) -> &Lab
        ensures { result.now ≡ self.now.lab }
    {
        &self.lab
    }

    /// What the source says of the cells, where it began with source.
    pub fn notes(&self) -> &Option<DebugInfo>
        ensures { result.now ≡ self.now.notes }
    {
        &self.notes
    }

    /// The lab, and what is known of the text on which it began.
    pub fn into_parts(self) -> (Lab, Option<DebugInfo>)
        ensures { record { lab = result.0; notes = result.1 } ≡ self }
    {
        let Explorer { lab, notes } = self;
        (lab, notes)
    }

    /// The lab, for which nothing is explored any more.
    pub fn into_lab(self) -> Lab
        ensures { result ≡ self.lab }
    {
        let Explorer { lab, notes: _ } = self;
        lab
    }
}

impl Responder for Explorer {
    ghost use Rattle.std.specs.Prelude.{None};
    ghost use Rattle.ga_explorer.specs.Answers.{AnswersExplorerLine};

    ghost answers = { AnswersExplorerLine };

    ghost begin = { λ s. explorer_state s None };

    fn open(lab: Lab) -> Self {
        Explorer { lab, notes: None }
    }

    fn answer<W: Write>(
        &mut self,
        alloc: Global,
        line: &[u8],
        writer: &mut Writer<'_, W>,
    ) -> Result<LineAction, WriteError> {
        answer_explorer_line(alloc, &mut self.lab, &self.notes, line, writer)
    }

    #[inline(always)]
    fn obey_debugger_command<W: Write>(
        &mut self,
        alloc: Global,
        command: DebuggerCommand,
        writer: &mut Writer<'_, W>,
    ) -> Result<LineAction, WriteError> {
        execute_command_in_wording(
            alloc,
            &mut self.lab,
            command,
            RefusalWording::Advised,
            writer,
        )?;
        Ok(LineAction::Answered)
    }
}

/// Answers a line, of which at least the first 201 bytes are here, to who explores a lab with these notes of its cells.
///
/// # Errors
/// A write failed.
pub fn answer_explorer_line<W: Write>(
    alloc: Global,
    lab: &mut Lab,
    notes: &Option<DebugInfo>,
    line: &[u8],
    writer: &mut Writer<'_, W>,
) -> Result<LineAction, WriteError>
    ensures { WritesSomeText result (AnswersLineOrQuits (record { lab = lab.old; notes = notes.now }) line.now (record { lab = lab.new; notes = notes.now }) result)
        W.contents writer.old writer.new }
{
    match asked_by(notes, line) {
        Some(asked) => {
            explored(alloc, lab, notes, asked, writer)?;
            Ok(LineAction::Answered)
        }
        None => answer_other(alloc, lab, line, writer),
    }
}

/// Carries a command of exploring out.
///
/// # Errors
/// A write failed.
fn explored<W: Write>(
    alloc: Global,
    lab: &mut Lab,
    notes: &Option<DebugInfo>,
    asked: ExplorerCommand,
    writer: &mut Writer<'_, W>,
) -> WriteResult
    ensures { WritesSomeText result (λ text. AnswersExplorerCommand (explorer_state lab.old notes.now) asked text (explorer_state lab.new notes.now))
        W.contents writer.old writer.new }
{
    match asked {
        ExplorerCommand::Change(change) => write_change_result(
            change.carry_out(alloc, lab, notes),
            writer,
        ),
        ExplorerCommand::AnswerQuery(question) => answer_query(alloc, lab, notes, question, writer),
    }
}

/// The command of exploring that a line spells, where it is not too long.
fn asked_by(notes: &Option<DebugInfo>, line: &[u8]) -> Option<ExplorerCommand>
    ensures some { IfSome result (λ asked. (length line.now ≤ MAX_IMAGE_LINE_BYTES) × (explorer_command_of_line notes.now line.now ≡ Some asked)) }
    ensures none { IfNone result (length line.now ≤ MAX_IMAGE_LINE_BYTES → explorer_command_of_line notes.now line.now ≡ None) }
{
    if line.len() <= MAX_IMAGE_LINE_BYTES {
        parse_explorer_command(notes, line)
    } else {
        None
    }
}

/// Answers a line that spells no command of exploring.
///
/// # Errors
/// A write failed.
fn answer_other<W: Write>(
    alloc: Global,
    lab: &mut Lab,
    line: &[u8],
    writer: &mut Writer<'_, W>,
) -> Result<LineAction, WriteError>
    ensures { WritesSomeText result (AnswersOrQuitsLine AnswersNonExplorerLine lab.old line.now lab.new result)
        W.contents writer.old writer.new }
{
    if is_no_command(line) {
        write_syntax_error(line, writer)?;
        return Ok(LineAction::Answered);
    }
    answer_line_in_wording(alloc, lab, line, RefusalWording::Advised, writer)
}

/// Whether a line is not too long and spells no command of the debugger.
fn is_no_command(line: &[u8]) -> bool
    ensures none { IsTrue result → IsNoDebuggerCommand line.now }
    ensures some { result ≡ false → IsDebuggerLine line.now }
{
    line.len() <= MAX_IMAGE_LINE_BYTES && parse_debugger_command(line).is_none()
}
