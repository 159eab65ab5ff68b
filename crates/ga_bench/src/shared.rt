//! A shared chip: its calls, its closing, and a race of one worker.

ghost use Rattle.std.specs.Prelude.{◌≡◌, ◌<◌, ◌^◌, All, IfOk, vec_len};

use crate::programs::{SENDER_PROGRAM, load_program};
use crate::refused::RunOutcome;
use ga_grid::{Chip, NodeId, OutOfMemoryError};
use ga_lab::MadeEvent;
use ga_node::OwnEventKind;
use ga_shared::{
    Call, CallAnswer, CallReceipt, NoEffectCallHooks, SharedLab, UnsharedLab, WorkerRaceFault,
    WorkerSeat, race,
};
use std::alloc::{AllocError, Global};
use std::marker::Brand;
use std::sync::Wait;
use std::sync::ledger::{Blank, Ledger};
use std::thread::Threads;

/// How many events may be kept.
const LIMIT: u32 = 1_000_000;

/// How many calls are made.
const CALLS: usize = 9;

/// A chip whose node 000 sends a word to the right.
fn linked(alloc: Global) -> Result<Chip, OutOfMemoryError> {
    let mut chip = Chip::new(alloc)?;
    load_program(chip.node_mut(NodeId::new(0)), SENDER_PROGRAM);
    Ok(chip)
}

/// The calls of the shared chip: four steps, a rollback to the third, both steps again, a rollback to a step that does not
/// exist, and one to the first step.
fn calls() -> [Call; CALLS] {
    let node = NodeId::new(0);
    let step = Call::Step(node);
    let third = Call::Rewind(node, 3);
    let ninth = Call::Rewind(node, 9);
    let first = Call::Rewind(node, 1);
    [step, step, step, step, third, step, step, ninth, first]
}

fn answers() -> [CallAnswer; CALLS] {
    [
        made(1, OwnEventKind::Fetch),
        made(2, OwnEventKind::Run(0x08)),
        made(3, OwnEventKind::Run(0x1e)),
        made(4, OwnEventKind::Run(0x08)),
        CallAnswer::Removed(2),
        made(3, OwnEventKind::Run(0x1e)),
        made(4, OwnEventKind::Run(0x08)),
        CallAnswer::Refused(6),
        CallAnswer::Removed(4),
    ]
}

/// The number of events in the history before the first call, and after each.
static KEPT: [u32; 10] = [0, 1, 2, 3, 4, 2, 3, 4, 4, 0];

/// The number of events made before the first call, and after each.
static MADE: [u64; 10] = [0, 1, 2, 3, 4, 4, 5, 6, 6, 6];

fn made(step: u32, kind: OwnEventKind) -> CallAnswer {
    let node = NodeId::new(0);
    CallAnswer::Made(MadeEvent::Own { node, step, kind })
}

/// The calls and then the closing. After an allocation failure a call is repeated, or no call follows it.
pub fn run_shared_calls<R: Wait>(rt: &R, alloc: Global, goes_on: bool) -> RunOutcome {
    opened::<Brand, R>(rt, alloc, Blank::new(1), goes_on)
}

/// Opens a shared chip with one worker, makes the calls and closes it.
fn opened<L: Ledger, R: Wait>(rt: &R, alloc: Global, blank: Blank, goes_on: bool) -> RunOutcome
    requires ledger { (blank.name ≡ L.name) × (blank.parts ≡ L.parts) }
    requires parts { blank.parts ≡ 1 }
{
    let Ok(chip) = linked(alloc) else {
        return RunOutcome::Refused("chip");
    };
    let Ok((shared, mut seats)) = SharedLab::<L>::new(alloc, blank, chip, LIMIT, 1) else {
        return RunOutcome::Refused("new");
    };
    let Some(seat) = seats.first_mut() else {
        return RunOutcome::Wrong("no seat");
    };
    let (count, outcome) = called(rt, &shared, seat, goes_on);
    match shared.close(seats) {
        Ok(closed) => outcome.combine_outcomes(is_closed(&closed, count)),
        Err(_) => RunOutcome::Wrong("not closed"),
    }
}

/// Makes the calls, and says how many were made.
fn called<L: Ledger, R: Wait>(
    rt: &R,
    shared: &SharedLab<L>,
    seat: &mut WorkerSeat<L>,
    goes_on: bool,
) -> (usize, RunOutcome) {
    let mut outcome = RunOutcome::Answered;
    for (place, (call, answer)) in calls().iter().zip(&answers()).enumerate() {
        let wanted = CallReceipt {
            place: place as u64,
            call: *call,
            answer: *answer,
        };
        if seat.receipts.len() != place {
            return (place, RunOutcome::Wrong("other receipts"));
        }
        match make(rt, shared, seat, *call) {
            Some(receipt) if receipt == wanted => {}
            Some(_) => return (place, RunOutcome::Wrong("another receipt")),
            None => {
                outcome = outcome.combine_outcomes(RunOutcome::RefusedWithNumber(
                    "call",
                    place + 1,
                ));
                if !goes_on {
                    return (place, outcome);
                }
                if make(rt, shared, seat, *call) != Some(wanted) {
                    return (place, RunOutcome::Wrong("another receipt after a refusal"));
                }
            }
        }
    }
    (CALLS, outcome)
}

/// Makes a call; none where memory was refused.
fn make<L: Ledger, R: Wait>(
    rt: &R,
    shared: &SharedLab<L>,
    seat: &mut WorkerSeat<L>,
    call: Call,
) -> Option<CallReceipt> {
    match call {
        Call::Step(node) => shared.step(rt, seat, node).ok(),
        Call::Rewind(node, step) => shared.rewind(rt, seat, node, step).ok(),
    }
}

/// Whether the log is that of `count` calls, and the lab the one after them.
fn is_closed(closed: &UnsharedLab, count: usize) -> RunOutcome {
    let calls = calls();
    let answers = answers();
    let wanted = calls.iter().zip(&answers).take(count);
    if closed.log.len() != count
        || !closed.log.iter().zip(wanted).all(|(entry, call)| entry.worker == 0
            && entry.call == *call.0
            && entry.answer == *call.1)
    {
        return RunOutcome::Wrong("another log");
    }
    let counts = closed.lab.counts();
    if KEPT.get(count).copied() == Some(counts.kept)
        && MADE.get(count).copied() == Some(counts.made)
    {
        RunOutcome::Answered
    } else {
        RunOutcome::Wrong("another lab")
    }
}

/// A race of one worker, which takes its own step back.
pub fn run_one_worker_race<R: Threads + Wait + Sync>(rt: &R, alloc: Global) -> RunOutcome {
    let Ok(chip) = linked(alloc) else {
        return RunOutcome::Refused("chip");
    };
    let Ok(lists) = one_list(alloc) else {
        return RunOutcome::Refused("list of calls");
    };
    match race(rt, alloc, chip, LIMIT, lists, &NoEffectCallHooks) {
        Ok(closed) => is_closed(&closed, CALLS),
        Err(WorkerRaceFault::Memory) => RunOutcome::Refused("race, for want of memory"),
        Err(WorkerRaceFault::NotStarted) => RunOutcome::Refused("race, not started"),
        Err(WorkerRaceFault::LogDisagrees) => RunOutcome::Wrong("a race that disagrees"),
    }
}

fn one_list(alloc: Global) -> Result<Vec<Vec<Call>>, AllocError>
    ensures { IfOk result (λ lists. (vec_len lists ≡ 1) × All (λ l. vec_len l < 2 ^ 32) lists.items) }
{
    let calls = calls();
    let mut lists = Vec::new(alloc);
    lists.push(calls.as_slice().to_vec(alloc)?)?;
    Ok(lists)
}
