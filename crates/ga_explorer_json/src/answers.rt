//! What answers a line of a session: the command that it spells, and the answer of each command.

ghost use Rattle.std.specs.Prelude.{◌≡◌};
ghost use Rattle.ga_text.specs.Output.{WritesSomeText};
ghost use Rattle.ga_explorer.specs.Opening.{explorer_state};
ghost use Rattle.ga_explorer_json.specs.Answers.{AnswersCommandJson, AnswersExplorerJson, IsRequestOfLine, AnswersLineRequest};
ghost use Rattle.ga_explorer_json.specs.inner.{IsQueryJsonWritten};

use crate::changes_json::write_change_result_json;
use crate::steps_json::{write_chain_json, write_dump_json, write_trace_json};
use crate::text_json::{write_long_line_json, write_query_text, write_syntax_json};
use crate::{
    write_cell_writes_json, write_decisions_json, write_event_counts_json, write_expectations_json,
    write_link_words_json, write_memory_json, write_node_json, write_provenance_json,
    write_races_json, write_rewind_json, write_rollback_effects_json, write_step_json,
    write_steps_around_json, write_undo_json, write_waiting_nodes_json,
};
use ga_console::{DebuggerCommand, parse_debugger_command};
use ga_debug_info::DebugInfo;
use ga_explorer::{ExplorerCommand, Query, parse_explorer_command, part_of_value};
use ga_image::MAX_IMAGE_LINE_BYTES;
use ga_lab::Lab;
use ga_text::{WriteResult, Writer};
use std::alloc::Global;
use std::io::Write;

/// What a line asks for.
#[derive(Clone, Copy, PartialEq, Eq)]
pub enum LineRequest {
    /// A command of exploring.
    Explore(ExplorerCommand),
    /// A command of the debugger.
    Debug(DebuggerCommand),
    /// Nothing, since the line has more than 200 bytes.
    TooLongLine,
    /// Nothing, since the line spells no command.
    Unknown,
}

/// What a line asks for, of which at least the first 201 bytes are here.
pub(crate) fn line_request(notes: &Option<DebugInfo>, line: &[u8]) -> LineRequest
    ensures { IsRequestOfLine notes.now line.now result }
{
    if line.len() > MAX_IMAGE_LINE_BYTES {
        return LineRequest::TooLongLine;
    }
    match parse_explorer_command(notes, line) {
        Some(asked) => LineRequest::Explore(asked),
        None => match parse_debugger_command(line) {
            Some(command) => LineRequest::Debug(command),
            None => LineRequest::Unknown,
        },
    }
}

/// Answers what a line asks for.
///
/// # Errors
/// A write failed, or there was no memory for a text.
pub(crate) fn answer_request<W: Write>(
    alloc: Global,
    lab: &mut Lab,
    notes: &Option<DebugInfo>,
    line: &[u8],
    request: LineRequest,
    writer: &mut Writer<'_, W>,
) -> WriteResult
    ensures { WritesSomeText result (λ text. AnswersLineRequest (explorer_state lab.old notes.now) line.now request text (explorer_state lab.new notes.now))
        W.contents writer.old writer.new }
{
    match request {
        LineRequest::Explore(asked) => explore_for_json(alloc, lab, notes, asked, writer),
        LineRequest::Debug(command) => obey_for_json(alloc, lab, command, writer),
        LineRequest::TooLongLine => write_long_line_json(writer),
        LineRequest::Unknown => write_syntax_json(line, writer),
    }
}

/// Carries a command of the debugger out. `quit` asks for nothing here.
///
/// # Errors
/// A write failed.
fn obey_for_json<W: Write>(
    alloc: Global,
    lab: &mut Lab,
    command: DebuggerCommand,
    writer: &mut Writer<'_, W>,
) -> WriteResult
    ensures { WritesSomeText result (λ text. AnswersCommandJson lab.old command text lab.new) W.contents writer.old writer.new }
{
    match command {
        DebuggerCommand::Step(node) => write_step_json(lab, node, writer),
        DebuggerCommand::Back => write_undo_json(lab, writer),
        DebuggerCommand::Rewind(node, step) => write_rewind_json(lab, node, step, writer),
        DebuggerCommand::Node(node) => write_node_json(lab, node, writer),
        DebuggerCommand::Memory(node, address) => write_memory_json(lab, node, address, writer),
        DebuggerCommand::Trace(node) => write_trace_json(lab, node, writer),
        DebuggerCommand::Why {
            from,
            from_step,
            to,
            to_step,
        } => write_chain_json(lab, (from, from_step), (to, to_step), writer),
        DebuggerCommand::Count => write_event_counts_json(lab, writer),
        DebuggerCommand::Dump => write_dump_json(alloc, lab, writer),
        DebuggerCommand::Quit => Ok(()),
    }
}

/// Carries a command of exploring out.
///
/// # Errors
/// A write failed, or there was no memory for a text.
fn explore_for_json<W: Write>(
    alloc: Global,
    lab: &mut Lab,
    notes: &Option<DebugInfo>,
    asked: ExplorerCommand,
    writer: &mut Writer<'_, W>,
) -> WriteResult
    ensures { WritesSomeText result (λ text. AnswersExplorerJson (explorer_state lab.old notes.now) asked text (explorer_state lab.new notes.now))
        W.contents writer.old writer.new }
{
    match asked {
        ExplorerCommand::Change(change) => {
            let named = change;
            let command = named.name();
            write_change_result_json(command, change.carry_out(alloc, lab, notes), writer)
        }
        ExplorerCommand::AnswerQuery(query) => {
            answer_query_for_json(alloc, lab, notes, query, writer)
        }
    }
}

/// Writes the answer of a query.
///
/// # Errors
/// A write failed, or there was no memory for a text.
fn answer_query_for_json<W: Write>(
    alloc: Global,
    lab: &mut Lab,
    notes: &Option<DebugInfo>,
    asked: Query,
    writer: &mut Writer<'_, W>,
) -> WriteResult
    ensures said { IsQueryJsonWritten result (explorer_state lab.old notes.now) asked W.contents writer.old writer.new }
    ensures same { lab.new ≡ lab.old }
{
    match asked {
        Query::Effects { node, which } => {
            let step = which.resolve(lab, node);
            write_rollback_effects_json(alloc, lab, notes, node, step, writer)
        }
        Query::Words { from, to } => write_link_words_json(lab, from, to, writer),
        Query::Writes { node, address } => write_cell_writes_json(lab, node, address, writer),
        Query::StepsAround { node, which, most } => {
            let step = which.resolve(lab, node);
            write_steps_around_json(lab, notes, node, step, most, writer)
        }
        Query::Whence {
            node,
            which,
            value,
            first,
        } => {
            let step = which.resolve(lab, node);
            write_provenance_json(
                alloc,
                lab,
                notes,
                node,
                step,
                part_of_value(value),
                first,
                writer,
            )
        }
        Query::Because { node, which, most } => {
            let step = which.resolve(lab, node);
            write_decisions_json(lab, notes, node, step, most, writer)
        }
        Query::Races { only } => write_races_json(alloc, lab, only, writer),
        Query::Expectations => write_expectations_json(alloc, lab, notes, writer),
        Query::WaitingNodes => write_waiting_nodes_json(lab, writer),
        Query::Text(query) => write_query_text(alloc, lab, query, writer),
    }
}
