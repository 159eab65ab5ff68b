//! The arguments of `run`: an order, how many events, and conditions.

ghost use Rattle.std.specs.Prelude.{◌≡◌};
ghost use Rattle.ga_explorer.specs.Reading.{parse_run_arguments, parse_single_order, parse_named_order, parse_seeded_run, parse_run_bounds, run_command_with_bounds, run_until_command};

use crate::changes::Change;
use ga_conditions::{never_holding_conditions, parse_conditions, parse_until_conditions};
use ga_debug_info::DebugInfo;
use ga_scheduler::Schedule;
use ga_text::{parse_number, split_at_space};

/// How many events are made at most where no number is given.
pub(crate) const MOST_EVENTS: u32 = u32::MAX;

/// What follows `run` and a space.
pub(crate) fn parse_run(notes: &Option<DebugInfo>, text: &[u8]) -> Option<Change>
    ensures { result ≡ parse_run_arguments notes.now text.now }
{
    match split_at_space(text) {
        Some((name, rest)) => parse_named_order(notes, name, rest, text),
        None => parse_single_order(notes, text),
    }
}

/// An order of one word, or what bounds a run in rounds.
#[tactic(auto, unfolding(crate::specs::Reading::parse_single_order))]
fn parse_single_order(notes: &Option<DebugInfo>, text: &[u8]) -> Option<Change>
    ensures { result ≡ parse_single_order notes.now text.now }
{
    if text == b"greedy".as_slice() {
        Some(Change::Run {
            schedule: Schedule::greedy_schedule(),
            most: MOST_EVENTS,
            until: never_holding_conditions(),
        })
    } else {
        bounded_of(notes, Schedule::round_robin_schedule(), text)
    }
}

/// An order with what follows it, or what bounds a run in rounds.
#[tactic(auto, unfolding(crate::specs::Reading::parse_named_order))]
fn parse_named_order(
    notes: &Option<DebugInfo>,
    name: &[u8],
    rest: &[u8],
    text: &[u8],
) -> Option<Change>
    ensures { result ≡ parse_named_order notes.now name.now rest.now text.now }
{
    if name == b"greedy".as_slice() {
        bounded_of(notes, Schedule::greedy_schedule(), rest)
    } else if name == b"random".as_slice() {
        seeded_of(notes, rest)
    } else {
        bounded_of(notes, Schedule::round_robin_schedule(), text)
    }
}

/// A seed, and what bounds the run.
fn seeded_of(notes: &Option<DebugInfo>, text: &[u8]) -> Option<Change>
    ensures { result ≡ parse_seeded_run notes.now text.now }
{
    match split_at_space(text) {
        Some((seed, rest)) => {
            let seed = parse_number(seed)?;
            bounded_of(notes, Schedule::random_schedule(u64::from(seed)), rest)
        }
        None => {
            let seed = parse_number(text)?;
            Some(Change::Run {
                schedule: Schedule::random_schedule(u64::from(seed)),
                most: MOST_EVENTS,
                until: never_holding_conditions(),
            })
        }
    }
}

/// A number, `until` and conditions, or both.
fn bounded_of(notes: &Option<DebugInfo>, schedule: Schedule, text: &[u8]) -> Option<Change>
    ensures { result ≡ parse_run_bounds notes.now schedule text.now }
{
    match split_at_space(text) {
        Some((name, rest)) => run_command_with_bounds(notes, schedule, name, rest),
        None => Some(Change::Run {
            schedule,
            most: parse_number(text)?,
            until: never_holding_conditions(),
        }),
    }
}

/// A number, `until` and conditions, or both, by the first word and what follows it.
#[tactic(auto, unfolding(crate::specs::Reading::run_command_with_bounds))]
fn run_command_with_bounds(
    notes: &Option<DebugInfo>,
    schedule: Schedule,
    name: &[u8],
    rest: &[u8],
) -> Option<Change>
    ensures { result ≡ run_command_with_bounds notes.now schedule name.now rest.now }
{
    match name {
        b"until" => run_until_command(notes, schedule, MOST_EVENTS, rest),
        _ => {
            let most = parse_number(name)?;
            let until = parse_until_conditions(notes, rest)?;
            Some(Change::Run {
                schedule,
                most,
                until,
            })
        }
    }
}

fn run_until_command(
    notes: &Option<DebugInfo>,
    schedule: Schedule,
    most: u32,
    text: &[u8],
) -> Option<Change>
    ensures { result ≡ run_until_command notes.now schedule most text.now }
{
    Some(Change::Run {
        schedule,
        most,
        until: parse_conditions(notes, text)?,
    })
}
