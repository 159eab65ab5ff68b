//! Workers that race for the chip, each on a thread of its own.

ghost use Rattle.std.specs.Prelude.{◌≡◌, ◌<◌, ◌≤◌, ◌^◌, All, map, IfOk, OnOk, vec_len};
ghost use Rattle.ga_grid.specs.Chip.{records_of_chip};
ghost use Rattle.ga_shared.specs.inner.{HasWorkerMadeListedCalls, IsWorkerReady, AreWorkersReady, AreWorkersFinished};
ghost use Rattle.ga_shared.specs.Log.{IsConcurrentCallsResult};

use crate::call::{Call, SharedLabFault};
use crate::closing::UnsharedLab;
use crate::locked::WorkerSeat;
use crate::shared::SharedLab;
use crate::workers::{CallHooks, make_worker_calls};
use ga_grid::Chip;
use std::alloc::Global;
use std::marker::Brand;
use std::snapshot::Snapshot;
use std::sync::Wait;
use std::sync::ledger::{Blank, Ledger};
use std::thread;
use std::thread::{Promise, PromisedHandle, Scope, Threads};
use thiserror::Error;

/// Why a race has no answer. Each drops the lab.
#[derive(Clone, Copy, PartialEq, Eq, Debug, Error)]
pub enum WorkerRaceFault {
    /// Out of memory (4).
    #[error("out of memory")]
    Memory,
    /// The log doesn't agree with the given chip and limit, or with a worker's receipts (22).
    #[error("the log disagrees with the workers")]
    LogDisagrees,
    /// A thread was not started (23). Those that ran are joined.
    #[error("a thread was not started")]
    NotStarted,
}

/// What a thread gives back: its seat, and how its work ended.
type Worked<L> = (WorkerSeat<L>, Result<(), SharedLabFault>);

/// The seat is that of this worker, which made all calls of its list if its work ended well.
#[derive(Drop)]
struct WorksThrough {
    worker: u32,
    lists: Snapshot<Vec<Vec<Call>>>,
}

impl<L: Ledger> Promise<Worked<L>> for WorksThrough {
    ghost use Rattle.std.specs.Prelude.{◌≡◌, OnOk, map};
    ghost use Rattle.ga_shared.specs.inner.{HasWorkerMadeListedCalls};

    ghost kept_by = { λ p r. (r.0.number ≡ p.worker) × OnOk r.1 (HasWorkerMadeListedCalls (map (λ l. l.items) p.lists.value.items) r.0) };
}

/// What a thread of a race does.
fn run<L: Ledger, G: CallHooks, R: Wait>(
    rt: &R,
    shared: &SharedLab<L>,
    seat: WorkerSeat<L>,
    gate: &G,
    lists: &Vec<Vec<Call>>,
) -> Worked<L>
    requires { IsWorkerReady lists.now seat }
    ensures number { result.0.number ≡ seat.number }
    ensures done { OnOk result.1 (HasWorkerMadeListedCalls (map (λ l. l.items) lists.now.items) result.0) }
{
    let mut seat = seat;
    let list = &lists[seat.number() as usize];
    let outcome = make_worker_calls(rt, shared, &mut seat, gate, list.as_slice());
    (seat, outcome)
}

/// Starts a thread for each seat, joins them, and gives their seats back in order.
fn run_all<'s, E, L: Ledger + Send + Sync + 's, G: CallHooks + Sync, R: Threads + Wait + Sync>(
    rt: &'s R,
    alloc: Global,
    scope: &'s Scope<'s, E>,
    shared: &'s SharedLab<L>,
    seats: Vec<WorkerSeat<L>>,
    gate: &'s G,
    lists: &'s Vec<Vec<Call>>,
) -> Result<Vec<WorkerSeat<L>>, WorkerRaceFault>
    requires { AreWorkersReady lists.now seats }
    ensures { IfOk result (AreWorkersFinished lists.now) }
{
    let mut seats = seats;
    let count = seats.len();
    let Ok(mut threads) = Vec::with_capacity(alloc, count) else {
        return Err(WorkerRaceFault::Memory);
    };
    let Ok(mut back) = Vec::with_capacity(alloc, count) else {
        return Err(WorkerRaceFault::Memory);
    };
    while let Some(seat) = seats.pop() {
        let promise = WorksThrough {
            worker: seat.number(),
            lists: Snapshot::of(lists),
        };
        let Ok(thread) = start(rt, scope, promise, shared, seat, gate, lists) else {
            return Err(WorkerRaceFault::NotStarted);
        };
        threads.push_reserved(thread);
    }
    let mut is_whole = true;
    while let Some(thread) = threads.pop() {
        let (seat, outcome) = thread.join(rt);
        if outcome.is_err() {
            is_whole = false;
        }
        back.push_reserved(seat);
    }
    if is_whole {
        Ok(back)
    } else {
        Err(WorkerRaceFault::Memory)
    }
}

/// Starts the thread of one seat.
fn start<'s, E, L: Ledger + Send + Sync + 's, G: CallHooks + Sync, R: Threads + Wait + Sync>(
    rt: &'s R,
    scope: &'s Scope<'s, E>,
    promise: WorksThrough,
    shared: &'s SharedLab<L>,
    seat: WorkerSeat<L>,
    gate: &'s G,
    lists: &'s Vec<Vec<Call>>,
) -> Result<PromisedHandle<Worked<L>, WorksThrough>, WorkerRaceFault>
    requires ready { IsWorkerReady lists.now seat }
    requires promise { (promise.worker ≡ seat.number) × (promise.lists.value ≡ lists.now) }
    ensures { IfOk result (λ thread. thread.promise ≡ promise) }
{
    let job = move || -> Worked<L>
        requires { IsWorkerReady lists.now seat }
        ensures { (result.0.number ≡ seat.number)
            × OnOk result.1 (HasWorkerMadeListedCalls (map (λ l. l.items) lists.entry.now.items) result.0) }
    { run(rt, shared, seat, gate, lists) };
    match scope.spawn_with(promise, job) {
        Ok(thread) => Ok(thread),
        Err(_) => Err(WorkerRaceFault::NotStarted),
    }
}

/// The threads of a race, in a scope of their own.
fn in_threads<L: Ledger + Send + Sync, G: CallHooks + Sync, R: Threads + Wait + Sync>(
    rt: &R,
    alloc: Global,
    shared: &SharedLab<L>,
    seats: Vec<WorkerSeat<L>>,
    gate: &G,
    lists: &Vec<Vec<Call>>,
) -> Result<Vec<WorkerSeat<L>>, WorkerRaceFault>
    requires { AreWorkersReady lists.now seats }
    ensures { IfOk result (AreWorkersFinished lists.now) }
{
    thread::scope(
        thread::scope_env(),
        rt,
        move |scope| -> Result<Vec<WorkerSeat<L>>, WorkerRaceFault>
            requires { AreWorkersReady lists.now seats }
            ensures { IfOk result (AreWorkersFinished lists.entry.now) }
        { run_all(rt, alloc, scope, shared, seats, gate, lists) },
    )
}

/// A race over a ledger with a part for each list.
fn race_on<L: Ledger + Send + Sync, G: CallHooks + Sync, R: Threads + Wait + Sync>(
    rt: &R,
    alloc: Global,
    blank: Blank,
    chip: Chip,
    limit: u32,
    lists: &Vec<Vec<Call>>,
    gate: &G,
) -> Result<UnsharedLab, WorkerRaceFault>
    requires ledger { (blank.name ≡ L.name) × (blank.parts ≡ L.parts) }
    requires parts { blank.parts ≡ vec_len lists.now }
    requires few { (1 ≤ vec_len lists.now) × (vec_len lists.now ≤ 16) }
    requires short { All (λ l. vec_len l < 2 ^ 32) lists.now.items }
    ensures { IfOk result (λ closed. IsConcurrentCallsResult (records_of_chip chip) limit (map (λ l. l.items) lists.now.items) closed) }
{
    let Ok((shared, seats)) = SharedLab::<L>::new(alloc, blank, chip, limit, lists.len() as u32)
    else {
        return Err(WorkerRaceFault::Memory);
    };
    let back = in_threads(rt, alloc, &shared, seats, gate, lists)?;
    match shared.close(back) {
        Ok(closed) => Ok(closed),
        Err(_) => Err(WorkerRaceFault::LogDisagrees),
    }
}

/// Starts a thread for each of 1 to 16 lists, which makes its calls one by one, joins them, and closes the shared chip. In the
/// log the calls of worker w are list w.
///
/// # Errors
/// `NotStarted`, then `Memory`, then `LogDisagrees`.
pub fn race<G: CallHooks + Sync, R: Threads + Wait + Sync>(
    rt: &R,
    alloc: Global,
    chip: Chip,
    limit: u32,
    lists: Vec<Vec<Call>>,
    gate: &G,
) -> Result<UnsharedLab, WorkerRaceFault>
    requires few { (1 ≤ vec_len lists) × (vec_len lists ≤ 16) }
    requires short { All (λ l. vec_len l < 2 ^ 32) lists.items }
    ensures { IfOk result (λ closed. IsConcurrentCallsResult (records_of_chip chip) limit (map (λ l. l.items) lists.items) closed) }
{
    let blank = Blank::new(lists.len() as u64);
    race_on::<Brand, G, R>(rt, alloc, blank, chip, limit, &lists, gate)
}
