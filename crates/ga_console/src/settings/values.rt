//! The values of options, as clap's parsers left them.
ghost use Rattle.std.specs.Prelude.{◌≤◌, IfOk, IfSome};
ghost use Rattle.ga_console.specs.Settings.{IsNumberBetween};

use crate::settings::CommandLineFault;
use crate::settings::refusals::{no_kind, no_step};
use crate::step_selector::StepSelector;
use clap::ArgMatches;
use ga_grid::NodeId;
use ga_text::{parse_node, parse_number};
use std::alloc::Global;

/// From how many own steps on a run is drawn as one mark, where no number is given.
const DEFAULT_FOLD: u32 = 3;

/// The names of the files.
pub(super) fn files(
    alloc: Global,
    matches: &ArgMatches<'_>,
) -> Result<Vec<String>, CommandLineFault> {
    let mut files = Vec::new(alloc);
    let Some(names) = matches.get_strs("FILE") else {
        return Ok(files);
    };
    for name in names {
        push_name(alloc, &mut files, name)?;
    }
    Ok(files)
}

/// Adds the name of a file.
fn push_name(alloc: Global, files: &mut Vec<String>, name: &str) -> Result<(), CommandLineFault> {
    let Ok(name) = String::from_str(alloc, name) else {
        return Err(CommandLineFault::Memory);
    };
    match files.push(name) {
        Ok(()) => Ok(()),
        Err(_) => Err(CommandLineFault::Memory),
    }
}

/// The maximum number of seconds, if one is given.
pub(super) fn seconds(text: Option<&str>) -> Result<Option<u32>, CommandLineFault>
    ensures in_range { IfOk result (λ seconds. IfSome seconds (λ n. IsNumberBetween 1 4294967295 n)) }
{
    match text {
        None => Ok(None),
        given => Ok(Some(number(given, u32::MAX)?)),
    }
}

/// The number of a kind of end, counted from 1, where one is given, spelled as in a command.
pub(super) fn kind(alloc: Global, text: Option<&str>) -> Result<Option<u32>, CommandLineFault>
    ensures in_range { IfOk result (λ kind. IfSome kind (λ n. IsNumberBetween 1 4294967295 n)) }
{
    match text {
        None => Ok(None),
        Some(given) => match parse_number(given.as_bytes()) {
            Some(_) => Ok(Some(number(text, u32::MAX)?)),
            None => Err(no_kind(alloc, given)),
        },
    }
}

/// The name of the file, where one is given that is not `-`.
pub(super) fn file(
    alloc: Global,
    matches: &ArgMatches<'_>,
) -> Result<Option<String>, CommandLineFault> {
    match matches.get_str("FILE") {
        Some("-") => Ok(None),
        given => name(alloc, given),
    }
}

/// The name of a file, where one is given.
pub(super) fn name(alloc: Global, text: Option<&str>) -> Result<Option<String>, CommandLineFault> {
    match text {
        None => Ok(None),
        Some(name) => match String::from_str(alloc, name) {
            Ok(name) => Ok(Some(name)),
            Err(_) => Err(CommandLineFault::Memory),
        },
    }
}

/// How many events are kept at most: the number that is given, or the usual one.
pub(super) fn limit(
    matches: &ArgMatches<'_>,
    usual: u32,
    greatest: u32,
) -> Result<u32, CommandLineFault>
    requires positive { 1 ≤ usual }
    requires below { usual ≤ greatest }
    ensures in_range { IfOk result (λ n. IsNumberBetween 1 greatest n) }
{
    match matches.get_str("limit") {
        None => Ok(usual),
        given => number(given, greatest),
    }
}

/// A number from 1 on, or this one where none is given.
pub(super) fn place(text: Option<&str>, usual: u32) -> Result<u32, CommandLineFault>
    requires { IsNumberBetween 1 4294967295 usual }
    ensures in_range { IfOk result (λ n. IsNumberBetween 1 4294967295 n) }
{
    match text {
        None => Ok(usual),
        given => number(given, u32::MAX),
    }
}

/// From how many own steps on a run is drawn as one mark. That it is a number was seen by its parser.
pub(super) fn fold(text: Option<&str>) -> Result<u32, CommandLineFault> {
    let Some(text) = text else {
        return Ok(DEFAULT_FOLD);
    };
    match text.parse::<u32>() {
        Ok(n) => Ok(n),
        Err(_) => Err(CommandLineFault::Memory),
    }
}

/// A step, where one is given: a node and a number or `last`, spelled as in a command.
pub(super) fn step(
    alloc: Global,
    matches: &ArgMatches<'_>,
    name: &str,
) -> Result<Option<(NodeId, StepSelector)>, CommandLineFault> {
    let Some(words) = matches.get_strs(name) else {
        return Ok(None);
    };
    let [node, step] = words else {
        return Err(CommandLineFault::Memory);
    };
    match (
        parse_node(node.as_bytes()),
        StepSelector::parse(step.as_bytes()),
    ) {
        (Some(node), Some(step)) => Ok(Some((node, step))),
        _ => Err(no_step(alloc, name, node, step)),
    }
}

/// A number from 1 to the greatest. That it is one was seen by its parser.
pub(super) fn number(text: Option<&str>, greatest: u32) -> Result<u32, CommandLineFault>
    ensures in_range { IfOk result (λ n. IsNumberBetween 1 greatest n) }
{
    let Some(text) = text else {
        return Err(CommandLineFault::Memory);
    };
    let Ok(number) = text.parse::<u32>() else {
        return Err(CommandLineFault::Memory);
    };
    if number < 1 || number > greatest {
        return Err(CommandLineFault::Memory);
    }
    Ok(number)
}
