//! A chip that threads share: the log of the calls of a race, and what closing it does to receipts.

ghost use Rattle.std.specs.Prelude.{◌≡◌, ◌<◌, ◌^◌, All, IfOk, vec_len};

use crate::common::{PAIR_PROGRAM, assert_equal_values};
use ga_grid::NodeId;
use ga_image::parse;
use ga_shared::{
    Call, CallAnswer, CallHooks, CallReceipt, CloseFault, LogEntry, NoEffectCallHooks, SharedLab,
    UnsharedLab, WorkerSeat, race, receipts_match_log,
};
use std::alloc::Global;
use std::marker::Brand;
use std::process::Abort;
use std::sync::Wait;
use std::sync::atomic::{AtomicBool, AtomicU32, Ordering};
use std::sync::ledger::{Blank, Ledger};
use std::test::Fail;
use std::thread;
use std::thread::Threads;

/// Four steps of node 000 for worker 0, and of node 001 for worker 1.
fn two_lists(alloc: Global) -> Result<Vec<Vec<Call>>, Fail>
    ensures { IfOk result (λ lists. (vec_len lists ≡ 2) × All (λ l. vec_len l < 2 ^ 32) lists.items) }
{
    let first = [Call::Step(NodeId::new(0)); 4];
    let second = [Call::Step(NodeId::new(1)); 4];
    let mut lists = Vec::new(alloc);
    lists.push(first.as_slice().to_vec(alloc)?)?;
    lists.push(second.as_slice().to_vec(alloc)?)?;
    Ok(lists)
}

/// 120 steps of node N for each worker N of 16.
fn sixteen_lists(alloc: Global) -> Result<Vec<Vec<Call>>, Fail>
    ensures { IfOk result (λ lists. (vec_len lists ≡ 16) × All (λ l. vec_len l < 2 ^ 32) lists.items) }
{
    let mut lists = Vec::new(alloc);
    for worker in 0..16u8 {
        let calls = [Call::Step(NodeId::new(worker)); 120];
        lists.push(calls.as_slice().to_vec(alloc)?)?;
    }
    Ok(lists)
}

/// How many calls are in the log, and how many events the lab keeps and has made.
fn counts(rt: &impl Abort, closed: &UnsharedLab, calls: usize, kept: u32, made: u64) {
    assert_equal_values(rt, &closed.log.len(), &calls);
    let counts = closed.lab.counts();
    assert_equal_values(rt, &(counts.kept, counts.made), &(kept, made));
}

/// The race of two workers, each of whom makes four steps of its node, past a gate.
fn raced<G: CallHooks + Sync, R: Threads + Wait + Sync + AllocGlobal>(
    rt: &R,
    gate: &G,
) -> Result<UnsharedLab, Fail> {
    let alloc = rt.alloc();
    let lists = two_lists(alloc)?;
    let closed = race(rt, alloc, parse(alloc, PAIR_PROGRAM)?, 1000000, lists, gate)?;
    Ok(closed)
}

// The race that reports eight calls, whatever the schedule.
#[test]
fn close_always_disagrees(rt: HostRuntime) -> Result<(), Fail> {
    let closed = raced(&rt, &NoEffectCallHooks)?;
    counts(&rt, &closed, 8, 8, 8);
    Ok(())
}

/// Waits until a flag is up, and notes where that takes too many turns.
fn hold(flag: &AtomicBool, has_failed: &AtomicBool) {
    for _turn in 0..10000000u32 {
        if flag.load(Ordering::SeqCst) {
            return;
        }
        thread::yield_now();
    }
    has_failed.store(true, Ordering::SeqCst);
}

/// Holds call 1 of one worker until call 1 of the other is answered, and notes where that takes too many turns.
#[derive(Drop)]
struct Holds {
    held: u32,
    is_answered: AtomicBool,
    has_failed: AtomicBool,
}

impl CallHooks for Holds {
    fn before(&self, worker: u32, call: u32) {
        if worker == self.held && call == 1 {
            hold(&self.is_answered, &self.has_failed);
        }
    }

    fn after(&self, worker: u32, call: u32) {
        if worker != self.held && call == 1 {
            self.is_answered.store(true, Ordering::SeqCst);
        }
    }
}

/// Whether a race ends well in which call 1 of one worker waits for call 1 of the other.
fn held_race<R: Threads + Wait + Sync + AllocGlobal>(rt: &R, held: u32) -> Result<bool, Fail> {
    let gate = Holds {
        held,
        is_answered: AtomicBool::new(false),
        has_failed: AtomicBool::new(false),
    };
    let closed = raced(rt, &gate)?;
    Ok(closed.log.len() == 8 && !gate.has_failed.load(Ordering::SeqCst))
}

#[test]
fn workers_take_turns(rt: HostRuntime) -> Result<(), Fail> {
    assert!(rt; held_race(&rt, 0)?);
    assert!(rt; held_race(&rt, 1)?);
    Ok(())
}

/// Counts what the first and the last of 16 workers report: 2k after call k, and 2k - 1 before its answer. Notes any other
/// order.
#[derive(Drop)]
struct Told {
    first: AtomicU32,
    last: AtomicU32,
    has_failed: AtomicBool,
}

impl Told {
    fn tell(&self, worker: u32, call: u32, is_after: bool) {
        let told = match worker {
            0 => &self.first,
            15 => &self.last,
            _ => return,
        };
        let was = told.load(Ordering::SeqCst);
        let is_due = if is_after {
            call >= 1 && was == call.saturating_mul(2).saturating_sub(1)
        } else {
            call >= 1 && was == (call.saturating_sub(1)).saturating_mul(2)
        };
        if !is_due {
            self.has_failed.store(true, Ordering::SeqCst);
        }
        told.store(was.saturating_add(1), Ordering::SeqCst);
    }
}

impl CallHooks for Told {
    fn before(&self, worker: u32, call: u32) {
        self.tell(worker, call, false);
    }

    fn after(&self, worker: u32, call: u32) {
        self.tell(worker, call, true);
    }
}

#[test]
fn gates_are_told_of_each_call(rt: HostRuntime) -> Result<(), Fail> {
    let gate = Told {
        first: AtomicU32::new(0),
        last: AtomicU32::new(0),
        has_failed: AtomicBool::new(false),
    };
    let alloc = rt.alloc();
    let _closed = race(
        &rt,
        alloc,
        parse(alloc, PAIR_PROGRAM)?,
        1000000,
        sixteen_lists(alloc)?,
        &gate,
    )?;
    assert!(rt; !gate.has_failed.load(Ordering::SeqCst));
    assert_equal_values(&rt, &gate.first.load(Ordering::SeqCst), &240);
    assert_equal_values(&rt, &gate.last.load(Ordering::SeqCst), &240);
    Ok(())
}

/// Holds worker 1 until call 1 of worker 0 is reported as made, and worker 0 there until worker 1 made its four calls.
#[derive(Drop)]
struct OneFirst {
    is_told: AtomicBool,
    is_done: AtomicBool,
    has_failed: AtomicBool,
}

impl CallHooks for OneFirst {
    fn before(&self, worker: u32, call: u32) {
        if worker == 1 && call == 1 {
            hold(&self.is_told, &self.has_failed);
        }
    }

    fn after(&self, worker: u32, call: u32) {
        if worker == 0 && call == 1 {
            self.is_told.store(true, Ordering::SeqCst);
            hold(&self.is_done, &self.has_failed);
        }
        if worker == 1 && call == 4 {
            self.is_done.store(true, Ordering::SeqCst);
        }
    }
}

/// The workers of a log, call by call.
fn is_log_of(rt: &impl Abort, closed: &UnsharedLab, workers: &[u32]) {
    assert_equal_values(rt, &closed.log.len(), &workers.len());
    for (entry, worker) in closed.log.iter().zip(workers) {
        assert_equal_values(rt, &entry.worker, worker);
    }
}

#[test]
fn gates_are_told_after_the_call(rt: HostRuntime) -> Result<(), Fail> {
    let gate = OneFirst {
        is_told: AtomicBool::new(false),
        is_done: AtomicBool::new(false),
        has_failed: AtomicBool::new(false),
    };
    let closed = raced(&rt, &gate)?;
    assert!(rt; !gate.has_failed.load(Ordering::SeqCst));
    is_log_of(&rt, &closed, &[0, 1, 1, 1, 1, 0, 0, 0]);
    Ok(())
}

/// A shared chip with two workers, of whom each made two steps of its node: 0, 1, 0, 1.
fn after_four<L: Ledger, R: Wait>(
    rt: &R,
    alloc: Global,
    blank: Blank,
) -> Result<(SharedLab<L>, Vec<WorkerSeat<L>>), Fail>
    requires ledger { (blank.name ≡ L.name) × (blank.parts ≡ L.parts) }
    requires parts { blank.parts ≡ 2 }
    ensures { IfOk result (λ made. vec_len made.1 ≡ 2) }
{
    let (shared, mut seats) = SharedLab::<L>::new(
        alloc,
        blank,
        parse(alloc, PAIR_PROGRAM)?,
        1000000,
        2,
    )?;
    for place in 0..4usize {
        let number = place % 2;
        let node = NodeId::new(number as u8);
        let receipt = shared.step(rt, &mut seats[number], node)?;
        if receipt.place != place as u64 {
            return Err(Fail::from("another place"));
        }
    }
    Ok((shared, seats))
}

/// The log of two workers, of whom each made two steps of its node: 0, 1, 0, 1.
fn log_of_four<L: Ledger, R: Wait>(rt: &R, alloc: Global, blank: Blank) -> Result<UnsharedLab, Fail>
    requires ledger { (blank.name ≡ L.name) × (blank.parts ≡ L.parts) }
    requires parts { blank.parts ≡ 2 }
{
    let (shared, seats) = after_four::<L, R>(rt, alloc, blank)?;
    match shared.close(seats) {
        Ok(closed) => Ok(closed),
        Err(CloseFault::LogDisagrees { .. }) => Err(Fail::from("disagree")),
        Err(CloseFault::SeatsMissing { .. }) => Err(Fail::from("missing")),
    }
}

/// The worker that is named where receipts were changed: 1 for an answer, 2 for a receipt taken out, 3 for two exchanged, all
/// of worker 1; 4 for an answer of both workers. And the log that is handed back.
fn after_change<L: Ledger, R: Wait>(
    rt: &R,
    alloc: Global,
    blank: Blank,
    change: u32,
) -> Result<(Option<u32>, UnsharedLab), Fail>
    requires ledger { (blank.name ≡ L.name) × (blank.parts ≡ L.parts) }
    requires parts { blank.parts ≡ 2 }
{
    let (shared, mut seats) = after_four::<L, R>(rt, alloc, blank)?;
    for (worker, seat) in seats.iter_mut().enumerate() {
        if worker == 0 && change != 4 || seat.receipts.len() != 2 {
            continue;
        }
        match change {
            2 => {
                let _last = seat.receipts.pop();
            }
            3 => seat.receipts.swap(0, 1),
            _ => seat.receipts[1].answer = CallAnswer::Refused(1),
        }
    }
    match shared.close(seats) {
        Err(CloseFault::LogDisagrees { worker, closed }) => Ok((worker, closed)),
        Ok(_) => Err(Fail::from("closed")),
        Err(CloseFault::SeatsMissing { .. }) => Err(Fail::from("missing")),
    }
}

#[test]
fn changed_receipts(rt: HostRuntime) -> Result<(), Fail> {
    let alloc = rt.alloc();
    let whole = log_of_four::<Brand, HostRuntime>(&rt, alloc, Blank::new(2))?;
    assert_eq!(rt; whole.log.len(), 4);
    for (change, named) in [(1, 1), (2, 1), (3, 1), (4, 0)] {
        let (worker, closed) = after_change::<Brand, HostRuntime>(
            &rt,
            alloc,
            Blank::new(2),
            change,
        )?;
        assert_eq!(rt; worker, Some(named), "at {change}");
        assert!(rt; closed.log.as_slice() == whole.log.as_slice());
        assert!(rt; closed.lab.counts() == whole.lab.counts());
    }
    Ok(())
}

/// What is handed back where a seat is missing.
fn handed_back<L: Ledger>(
    shared: SharedLab<L>,
    seats: Vec<WorkerSeat<L>>,
) -> Option<(SharedLab<L>, Vec<WorkerSeat<L>>)> {
    match shared.close(seats) {
        Err(CloseFault::SeatsMissing { shared, seats }) => Some((shared, seats)),
        Err(CloseFault::LogDisagrees { .. }) => None,
        Ok(_) => None,
    }
}

/// Whether closing with these seats ends well.
fn closes<L: Ledger>(shared: SharedLab<L>, seats: Vec<WorkerSeat<L>>) -> bool {
    match shared.close(seats) {
        Ok(_) => true,
        Err(CloseFault::LogDisagrees { .. }) => false,
        Err(CloseFault::SeatsMissing { .. }) => false,
    }
}

/// Whether closing without a seat hands both back, and closing with it ends well.
fn closes_with_both<L: Ledger, R: Wait>(rt: &R, alloc: Global, blank: Blank) -> Result<bool, Fail>
    requires ledger { (blank.name ≡ L.name) × (blank.parts ≡ L.parts) }
    requires parts { blank.parts ≡ 2 }
{
    let (shared, mut seats) = after_four::<L, R>(rt, alloc, blank)?;
    let last = seats.pop().ok_or("no seat")?;
    let (shared, mut seats) = handed_back(shared, seats).ok_or("nothing is handed back")?;
    // The seat of worker 0 is the one that comes back.
    if seats.len() != 1 || seats[0].number() != 0 || last.number() != 1 {
        return Ok(false);
    }
    seats.push(last)?;
    Ok(closes(shared, seats))
}

#[test]
fn missing_seat(rt: HostRuntime) -> Result<(), Fail> {
    let alloc = rt.alloc();
    assert!(rt; closes_with_both::<Brand, HostRuntime>(&rt, alloc, Blank::new(2))?);
    Ok(())
}

#[test]
fn no_receipts(rt: HostRuntime) {
    let log = [LogEntry {
        worker: 1,
        call: Call::Step(NodeId::new(0)),
        answer: CallAnswer::Refused(1),
    }];
    let none: [CallReceipt; 0] = [];
    assert!(rt; receipts_match_log(log.as_slice(), 0, none.as_slice()));
    assert!(rt; !receipts_match_log(log.as_slice(), 1, none.as_slice()));
    let empty: [LogEntry; 0] = [];
    assert!(rt; receipts_match_log(empty.as_slice(), 1, none.as_slice()));
}
