//! The command line.
ghost use Rattle.std.specs.Prelude.{IfOk};
ghost use Rattle.ga_console.specs.Settings.{AreSettingsInRange};

mod lines;
mod refusals;
mod values;

use crate::step_selector::StepSelector;
use clap::ArgMatches;
use ga_grid::NodeId;
use lines::{GREATEST_EXPLORED, GREATEST_LIMIT, MOST_CALLS, MOST_WORKERS, program};
use refusals::{no_further_file, no_json_session, no_later_session, no_same};
use std::alloc::Global;
use thiserror::Error;
use values::{file, files, fold, kind, limit, name, number, place, seconds, step};

/// How many events are kept where no limit is given.
const DEFAULT_LIMIT: u32 = 1_000_000;

/// How many events a session of exploring keeps where no limit is given.
const DEFAULT_EXPLORED: u32 = 20_000_000;

/// The maximum number of states where no number is given.
const DEFAULT_MOST: u32 = 1_000_000;

/// What the program is to do.
///
/// A `file` is the name of one that is read before standard input, or none. A `chip` is the name of a file whose image gives the chip, where
/// the other gives source, or none.
#[derive(Drop, PartialEq, Eq)]
pub enum Settings {
    /// Serve a session that keeps up to this many events, 1 to 4000000.
    Debug {
        limit: u32,
    },
    /// Serve a session of exploring that keeps up to this many events, 1 to 100000000. Where `strict` is set, it ends at the first refused
    /// command; with `json` the answers are JSON objects.
    Explore {
        limit: u32,
        strict: bool,
        json: bool,
        chip: Option<String>,
        file: Option<String>,
    },
    /// Run 1 to 16 workers, of which each makes 1 to 100000 calls, over a chip that keeps up to this many events, 1 to 4000000.
    Race {
        workers: u32,
        calls: u32,
        limit: u32,
    },
    /// Find the ends of a program in every order of its nodes, with at most `most` states, 1 to 4294967295, in at most `seconds`, 1 to
    /// 4294967295, if given, and write their kinds; or write the session of one kind, whose number counts from 1. Of source with expectations
    /// write whether each holds, or the session of one, unless `ends` is set. With `same` one end is expected, too. With `never` find an event after which one of the conditions of
    /// this text holds, or write its session. With `settled` each node whose first event is to wait for code makes it first, with `json` the
    /// answer is JSON objects, but for a session, and with `progress` the progress is written. The `files` are checked one after another; `-`
    /// is standard input, and so is no file.
    Check {
        most: u32,
        seconds: Option<u32>,
        settled: bool,
        session: Option<u32>,
        never: Option<String>,
        ends: bool,
        same: bool,
        json: bool,
        progress: bool,
        files: Vec<String>,
    },
    /// Serve an editor, by the Debug Adapter Protocol.
    Dap,
    /// Assemble source into an image; with `json` the answer is JSON objects.
    Assemble {
        json: bool,
        file: Option<String>,
    },
    /// List the cells of source.
    List {
        file: Option<String>,
    },
    /// Write source of an image.
    Disassemble {
        file: Option<String>,
    },
    /// Draw the history of a session, at most `limit` events, 1 to 100000000, from one place on and up to another, both counted from 1.
    /// Marked are the causes of a step, and what a rollback of a step would remove; each step is a node and a number, counted from 1, or the last.
    /// Idle and independent nodes are drawn too where `all` is set, and with `only` nothing but such causes and what would be removed;
    /// a run of at least `fold` own steps is one mark, where `fold` is not 0. Races are marked where `races` is set.
    Draw {
        limit: u32,
        cause: Option<(NodeId, StepSelector)>,
        rewind: Option<(NodeId, StepSelector)>,
        from: u32,
        to: u32,
        all: bool,
        only: bool,
        fold: u32,
        races: bool,
        chip: Option<String>,
        file: Option<String>,
    },
}

/// Why there are no settings.
#[derive(Debug, Drop, Error)]
pub enum CommandLineFault {
    /// Help or the version was requested. This is its text; in that of `explore` a line `{commands}` is replaced by the
    /// session's own lines.
    #[error("{0}")]
    Help(String),
    /// The words are no command line of the program. The text has the faulty word, and what is expected.
    #[error("{0}")]
    Refused(String),
    /// There was no memory to read the settings, or to report what is wrong with them.
    #[error("out of memory")]
    Memory,
}

/// Reads the command line, the program's name first. The numbers that it answers are in their ranges.
///
/// # Errors
/// `Help`, where help or the version was requested; `Refused`; `Memory`.
pub fn parse_command_line(alloc: Global, words: &[&str]) -> Result<Settings, CommandLineFault>
    ensures in_range { IfOk result AreSettingsInRange }
{
    let Ok(command) = program(alloc) else {
        return Err(CommandLineFault::Memory);
    };
    match command.try_get_matches_from(words) {
        Ok(matches) => chosen(alloc, &matches),
        Err(error) => match error.to_string(alloc) {
            Ok(text) => {
                if error.use_stderr() {
                    Err(CommandLineFault::Refused(text))
                } else {
                    Err(CommandLineFault::Help(text))
                }
            }
            Err(_) => Err(CommandLineFault::Memory),
        },
    }
}

fn chosen(alloc: Global, matches: &ArgMatches<'_>) -> Result<Settings, CommandLineFault>
    ensures in_range { IfOk result AreSettingsInRange }
{
    match matches.subcommand() {
        Some(("debug", debug)) => Ok(Settings::Debug {
            limit: limit(debug, DEFAULT_LIMIT, GREATEST_LIMIT)?,
        }),
        Some(("explore", explorer)) => {
            let limit = limit(explorer, DEFAULT_EXPLORED, GREATEST_EXPLORED)?;
            Ok(Settings::Explore {
                limit,
                strict: explorer.get_flag("strict"),
                json: explorer.get_flag("json"),
                chip: name(alloc, explorer.get_str("chip"))?,
                file: file(alloc, explorer)?,
            })
        }
        Some(("race", race)) => {
            let workers = number(race.get_str("workers"), MOST_WORKERS)?;
            let calls = number(race.get_str("calls"), MOST_CALLS)?;
            Ok(Settings::Race {
                workers,
                calls,
                limit: limit(race, DEFAULT_LIMIT, GREATEST_LIMIT)?,
            })
        }
        Some(("check", check)) => checked(alloc, check),
        Some(("dap", _)) => Ok(Settings::Dap),
        Some(("asm", source)) => Ok(Settings::Assemble {
            json: source.get_flag("json"),
            file: file(alloc, source)?,
        }),
        Some(("list", source)) => Ok(Settings::List {
            file: file(alloc, source)?,
        }),
        Some(("dis", image)) => Ok(Settings::Disassemble {
            file: file(alloc, image)?,
        }),
        Some(("draw", draw)) => drawn(alloc, draw),
        _ => Err(CommandLineFault::Memory),
    }
}

/// How far to search for ends, and what to write about them.
fn checked(alloc: Global, check: &ArgMatches<'_>) -> Result<Settings, CommandLineFault>
    ensures in_range { IfOk result AreSettingsInRange }
{
    let most = place(check.get_str("most"), DEFAULT_MOST)?;
    let session = kind(alloc, check.get_str("session"))?;
    let never = name(alloc, check.get_str("never"))?;
    if never.is_some() && is_later_kind(session) {
        return Err(no_later_session(alloc));
    }
    let same = check.get_flag("same");
    if same && (never.is_some() || session.is_some()) {
        return Err(no_same(alloc));
    }
    let json = check.get_flag("json");
    if json && session.is_some() {
        return Err(no_json_session(alloc));
    }
    let files = files(alloc, check)?;
    if files.len() > 1 && (never.is_some() || session.is_some()) {
        return Err(no_further_file(alloc));
    }
    Ok(Settings::Check {
        most,
        seconds: seconds(check.get_str("seconds"))?,
        settled: check.get_flag("settled"),
        session,
        never,
        ends: check.get_flag("ends"),
        same,
        json,
        progress: check.get_flag("progress"),
        files,
    })
}

/// Whether a session is requested, other than the first.
fn is_later_kind(session: Option<u32>) -> bool {
    match session {
        None => false,
        Some(number) => number != 1,
    }
}

/// What is to be drawn.
fn drawn(alloc: Global, draw: &ArgMatches<'_>) -> Result<Settings, CommandLineFault>
    ensures in_range { IfOk result AreSettingsInRange }
{
    let limit = limit(draw, DEFAULT_EXPLORED, GREATEST_EXPLORED)?;
    let from = place(draw.get_str("from"), 1)?;
    let to = place(draw.get_str("to"), u32::MAX)?;
    Ok(Settings::Draw {
        limit,
        cause: step(alloc, draw, "cause")?,
        rewind: step(alloc, draw, "rewind")?,
        from,
        to,
        all: draw.get_flag("all"),
        only: draw.get_flag("only"),
        fold: fold(draw.get_str("fold"))?,
        races: draw.get_flag("races"),
        chip: name(alloc, draw.get_str("chip"))?,
        file: file(alloc, draw)?,
    })
}
