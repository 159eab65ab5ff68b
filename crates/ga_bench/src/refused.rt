//! Runs in which one allocation fails. The run repeats at once what was refused, and one line says how it ended.
//!
//! The failure comes from outside: the process's allocation 1000 fails (`.ci/alloc_failures` or `rt try --fail-alloc 1000`), and the
//! number of allocations before the run is chosen so that this is the run's. A run is over only if the failing allocation is
//! still ahead, so an allocation that is added later, or a failure that nobody reports, changes a line.

use crate::causes::run_chain_query;
use crate::messages::run_client_requests;
use crate::shared::{run_one_worker_race, run_shared_calls};
use std::alloc::Global;
use std::io;
use std::sync::Wait;
use std::thread::Threads;

/// The growth of the process that is refused.
const REFUSED: u32 = 1000;

/// How a run, or a part of it, came out.
#[derive(Clone, Copy, PartialEq, Eq)]
pub enum RunOutcome {
    /// All was answered as it should be.
    Answered,
    /// This alone was refused for want of memory. It changed nothing, and was answered when it was repeated.
    Refused(&'static str),
    /// This, with its number, alone was refused for want of memory. It changed nothing, and was answered when it was repeated.
    RefusedWithNumber(&'static str, usize),
    /// This is not as it should be.
    Wrong(&'static str),
}

impl RunOutcome {
    /// How two parts of a run came out. Only one of them may be refused.
    pub fn combine_outcomes(self, other: RunOutcome) -> RunOutcome {
        match (self, other) {
            (RunOutcome::Wrong(what), _) => RunOutcome::Wrong(what),
            (_, RunOutcome::Wrong(what)) => RunOutcome::Wrong(what),
            (RunOutcome::Answered, _) => other,
            (_, RunOutcome::Answered) => self,
            _ => RunOutcome::Wrong("two refusals"),
        }
    }
}

/// Makes the run of this name.
fn run_of<R: Threads + Wait + Sync>(rt: &R, alloc: Global, run: &str) -> RunOutcome {
    match run {
        "causes" => run_chain_query(alloc),
        "messages" => run_client_requests(alloc),
        "shared" => run_shared_calls(rt, alloc, true),
        "shared-broken-off" => run_shared_calls(rt, alloc, false),
        "race" => run_one_worker_race(rt, alloc),
        _ => RunOutcome::Wrong("there is no such run"),
    }
}

/// Makes `count` allocations; false if one fails.
fn grow(alloc: Global, count: u32) -> bool {
    for _ in 0..count {
        if Box::new(alloc, 0u8).is_err() {
            return false;
        }
    }
    true
}

/// Makes a run, of which this growth is to be refused, or none where it is 0: how it came out, and whether the refusal is still ahead.
pub fn run_with_failed_allocation<R: Threads + Wait + Sync>(
    rt: &R,
    alloc: Global,
    run: &str,
    growth: u32,
) -> (RunOutcome, bool) {
    let before = if growth == 0 {
        0
    } else {
        REFUSED.saturating_sub(growth)
    };
    if !grow(alloc, before) {
        return (RunOutcome::Wrong("refused before the run"), false);
    }
    let outcome = run_of(rt, alloc, run);
    (outcome, !grow(alloc, REFUSED))
}

/// Prints how a run came out.
pub fn print_outcome(
    rt: &HostRuntime,
    (outcome, is_ahead): (RunOutcome, bool),
    growth: u32,
) -> io::Result<()> {
    match outcome {
        RunOutcome::Refused(what) if !is_ahead => println!(rt; "refused: {what}"),
        RunOutcome::RefusedWithNumber(what, number) if !is_ahead => {
            println!(rt; "refused: {what}, number {number}")
        }
        RunOutcome::Answered if is_ahead => println!(rt; "no growth is left"),
        RunOutcome::Answered if growth == 0 => println!(rt; "all is answered"),
        RunOutcome::Answered => println!(rt; "answered all the same"),
        RunOutcome::Wrong(what) => println!(rt; "wrong: {what}"),
        _ => println!(rt; "wrong: a refusal with memory at hand"),
    }
}
