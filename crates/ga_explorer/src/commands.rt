//! The commands of exploring: of each how a line spells it, and what answers it.

ghost use Rattle.std.specs.Prelude.{◌≡◌};
ghost use Rattle.ga_explorer.specs.Commands.{explorer_command_of_line, single_word_command, query_without_arguments, command_with_arguments, query_with_arguments};
ghost use Rattle.ga_explorer.specs.inner.{IsQueryAnswerWritten};
ghost use Rattle.ga_explorer.specs.Opening.{explorer_state};

use crate::arguments::{
    parse_node_and_cell, parse_node_and_step, parse_node_and_steps, parse_node_and_value,
    parse_two_nodes,
};
use crate::back_request::parse_back;
use crate::changes::Change;
use crate::command_table::{TextQuery, text_query_of_word};
use crate::forms::place_of;
use crate::named_value::part_of_value;
use crate::run_request::{MOST_EVENTS, parse_run};
use ga_conditions::never_holding_conditions;
use ga_console::StepSelector;
use ga_debug_info::DebugInfo;
use ga_explorer_text::{
    write_cell_writes, write_decisions_answer, write_expectations, write_link_words,
    write_provenance_answer, write_races, write_rollback_effects, write_steps_around,
    write_waiting_nodes,
};
use ga_grid::NodeId;
use ga_lab::Lab;
use ga_scheduler::{NodeValue, Schedule};
use ga_text::{WriteResult, Writer, parse_node, split_at_space};
use std::alloc::Global;
use std::io::Write;

/// A command of exploring.
#[derive(Clone, Copy, PartialEq, Eq)]
pub enum ExplorerCommand {
    /// A command that changes the machine.
    Change(Change),
    /// A command that changes nothing.
    AnswerQuery(Query),
}

/// A query: a command that changes nothing.
#[derive(Clone, Copy, PartialEq, Eq)]
pub enum Query {
    /// `effects`: writes what a rollback of a step would remove, without removing it.
    Effects {
        node: NodeId,
        which: StepSelector,
    },
    /// `words`: writes the words transferred from one node to another.
    Words {
        from: NodeId,
        to: NodeId,
    },
    /// `writes`: writes the steps of a node that wrote at an address of its memory.
    Writes {
        node: NodeId,
        address: u8,
    },
    /// `at`: writes the steps of a node up to a number before and after one, each with the registers after it.
    StepsAround {
        node: NodeId,
        which: StepSelector,
        most: u32,
    },
    /// `whence`: writes the steps whose values went into what a step of a node made, or into a value after it, from a line on.
    Whence {
        node: NodeId,
        which: StepSelector,
        value: Option<NodeValue>,
        first: u32,
    },
    /// `because`: writes the last steps of a node before one, at most a given number, at which a value decided where it
    /// continued.
    Because {
        node: NodeId,
        which: StepSelector,
        most: u32,
    },
    /// `races`: writes the races of one node or of all.
    Races {
        only: Option<NodeId>,
    },
    /// `expectations`: writes the status of each expectation of the source.
    Expectations,
    /// `who`: writes who waits for whom, and which nodes are deadlocked.
    WaitingNodes,
    /// One that only a text answers.
    Text(TextQuery),
}

/// The command of exploring that a line spells, or none.
pub fn parse_explorer_command(notes: &Option<DebugInfo>, line: &[u8]) -> Option<ExplorerCommand>
    ensures { result ≡ explorer_command_of_line notes.now line.now }
{
    match split_at_space(line) {
        Some((name, arguments)) => command_with_arguments(notes, name, arguments),
        None => single_word_command(line),
    }
}

/// The command that is spelled by one word.
#[tactic(auto, unfolding(crate::specs::Commands::single_word_command))]
fn single_word_command(name: &[u8]) -> Option<ExplorerCommand>
    ensures { result ≡ single_word_command name.now }
{
    match name {
        b"run" => Some(ExplorerCommand::Change(Change::Run {
            schedule: Schedule::round_robin_schedule(),
            most: MOST_EVENTS,
            until: never_holding_conditions(),
        })),
        _ => Some(ExplorerCommand::AnswerQuery(query_without_arguments(name)?)),
    }
}

/// A command of one word that changes nothing.
#[tactic(auto, unfolding(crate::specs::Commands::query_without_arguments))]
fn query_without_arguments(name: &[u8]) -> Option<Query>
    ensures { result ≡ query_without_arguments name.now }
{
    if name == b"expectations".as_slice() {
        return Some(Query::Expectations);
    }
    match name {
        b"who" => Some(Query::WaitingNodes),
        b"races" => Some(Query::Races { only: None }),
        _ => Some(Query::Text(text_query_of_word(name)?)),
    }
}

/// The command of a word and what follows the space after it.
#[tactic(auto, unfolding(crate::specs::Commands::command_with_arguments))]
fn command_with_arguments(
    notes: &Option<DebugInfo>,
    name: &[u8],
    arguments: &[u8],
) -> Option<ExplorerCommand>
    ensures { result ≡ command_with_arguments notes.now name.now arguments.now }
{
    if name == b"run".as_slice() {
        Some(ExplorerCommand::Change(parse_run(notes, arguments)?))
    } else if name == b"back".as_slice() {
        Some(ExplorerCommand::Change(parse_back(notes, arguments)?))
    } else {
        Some(ExplorerCommand::AnswerQuery(query_with_arguments(name, arguments)?))
    }
}

/// A query, of a word and what follows it.
#[tactic(auto, unfolding(crate::specs::Commands::query_with_arguments))]
fn query_with_arguments(name: &[u8], arguments: &[u8]) -> Option<Query>
    ensures { result ≡ query_with_arguments name.now arguments.now }
{
    if name == b"effects".as_slice() {
        let (node, which) = parse_node_and_step(arguments)?;
        Some(Query::Effects { node, which })
    } else if name == b"words".as_slice() {
        let (from, to) = parse_two_nodes(arguments)?;
        Some(Query::Words { from, to })
    } else if name == b"writes".as_slice() {
        let (node, address) = parse_node_and_cell(arguments)?;
        Some(Query::Writes { node, address })
    } else if name == b"at".as_slice() {
        let (node, which, most) = parse_node_and_steps(arguments)?;
        Some(Query::StepsAround { node, which, most })
    } else if name == b"whence".as_slice() {
        let (node, which, value, first) = parse_node_and_value(arguments)?;
        Some(Query::Whence {
            node,
            which,
            value,
            first,
        })
    } else if name == b"because".as_slice() {
        let (node, which, most) = parse_node_and_steps(arguments)?;
        Some(Query::Because { node, which, most })
    } else if name == b"races".as_slice() {
        let node = parse_node(arguments)?;
        Some(Query::Races { only: Some(node) })
    } else if name == b"help".as_slice() {
        Some(Query::Text(TextQuery::CommandHelp(place_of(arguments)?)))
    } else {
        None
    }
}

/// Writes the answer of the query.
///
/// # Errors
/// A write failed.
pub(crate) fn answer_query<W: Write>(
    alloc: Global,
    lab: &mut Lab,
    notes: &Option<DebugInfo>,
    asked: Query,
    writer: &mut Writer<'_, W>,
) -> WriteResult
    ensures said { IsQueryAnswerWritten result (explorer_state lab.old notes.now) asked W.contents writer.old writer.new }
    ensures same { lab.new ≡ lab.old }
{
    match asked {
        Query::Effects { node, which } => {
            let step = which.resolve(lab, node);
            write_rollback_effects(alloc, lab, notes, node, step, writer)
        }
        Query::Words { from, to } => write_link_words(lab, from, to, writer),
        Query::Writes { node, address } => write_cell_writes(lab, node, address, writer),
        Query::StepsAround { node, which, most } => {
            let step = which.resolve(lab, node);
            write_steps_around(lab, notes, node, step, most, writer)
        }
        Query::Whence {
            node,
            which,
            value,
            first,
        } => {
            let step = which.resolve(lab, node);
            write_provenance_answer(
                alloc,
                lab,
                notes,
                node,
                step,
                part_of_value(value),
                first,
                writer,
            )
        }
        Query::Because { node, which, most } => {
            let step = which.resolve(lab, node);
            write_decisions_answer(lab, notes, node, step, most, writer)
        }
        Query::Races { only } => write_races(alloc, lab, only, writer),
        Query::Expectations => write_expectations(alloc, lab, notes, writer),
        Query::WaitingNodes => write_waiting_nodes(lab, writer),
        Query::Text(query) => query.write_text(lab, writer),
    }
}
