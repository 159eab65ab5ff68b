//! Closing a shared chip.

ghost use Rattle.std.specs.Prelude.{◌≡◌, ◌≢◌, ◌<◌, ◌↔◌, ◌==◌, ℕ, sum_by, count_by, IfSome, IfNone, IsTrue, ◌∷◌, List, vec_len};
ghost use Rattle.ga_grid.specs.Chip.{records_of_chip};
ghost use Rattle.ga_shared.specs.Log.{receipts_of_worker, AreAllWorkerSeats, HasMatchingReceipts, IsFirstWorkerNotMatchingLog};
ghost use Rattle.ga_shared.specs.declared.call.CallReceipt.{CallReceipt};

use crate::call::{CallReceipt, LogEntry};
use crate::copies::is_equal_to;
use crate::locked::{LockedLab, WorkerSeat};
use crate::shared::SharedLab;
use ga_grid::Chip;
use ga_lab::Lab;
use std::sync::ledger::{Book, Ledger, Share};

/// The lab and the log of its calls, once no worker shares it any more.
#[derive(Drop)]
pub struct UnsharedLab {
    /// The lab, after all calls of the log.
    pub lab: Lab,
    /// The calls of all workers, in the order in which they had the lock.
    pub log: Vec<LogEntry>,
}

/// Why a shared chip was not closed, or closed with a doubt.
#[derive(Drop)]
pub enum CloseFault<L: Ledger> {
    /// The seats are not those of all workers, each once (21). The shared chip and all seats are returned.
    SeatsMissing {
        shared: SharedLab<L>,
        seats: Vec<WorkerSeat<L>>,
    },
    /// Without a worker: the lab was not opened on the chip and the limit given; else the receipts of this worker, and of none
    /// before it, are not the log's (22).
    LogDisagrees {
        worker: Option<u32>,
        closed: UnsharedLab,
    },
}

impl<L: Ledger> SharedLab<L> {
    ghost use Rattle.ga_shared.specs.Close.{IsCloseResult};

    /// Closes the shared chip, with the seats of all workers.
    ///
    /// # Errors
    /// `SeatsMissing` where the seats are not those of all workers, each once; then `LogDisagrees`.
    pub fn close(self, seats: Vec<WorkerSeat<L>>) -> Result<UnsharedLab, CloseFault<L>>
        ensures { IsCloseResult self seats.items result }
    {
        if !are_seated(seats.as_slice(), self.workers) {
            return Err(CloseFault::SeatsMissing {
                shared: self,
                seats,
            });
        }
        let SharedLab {
            locked,
            load,
            limit,
            workers,
        } = self;
        let LockedLab {
            lab,
            load: copy,
            log,
            mut book,
        } = locked.into_inner();
        let is_equal_to = is_opened_on(&lab, &copy, &load, limit);
        let wrong = least_wrong(log.as_slice(), seats.as_slice(), workers);
        count_up(&mut book, seats);
        let closed = UnsharedLab { lab, log };
        if !is_equal_to {
            return Err(CloseFault::LogDisagrees {
                worker: None,
                closed,
            });
        }
        match wrong {
            None => Ok(closed),
            Some(worker) => Err(CloseFault::LogDisagrees {
                worker: Some(worker),
                closed,
            }),
        }
    }
}

/// Whether the lab, with this copy of its load, was opened on a chip and a limit.
fn is_opened_on(lab: &Lab, copy: &Chip, load: &Chip, limit: u32) -> bool
    ensures { IsTrue result ↔ ((records_of_chip copy.now ≡ records_of_chip load.now) × (lab.now.limit ≡ limit)) }
{
    is_equal_to(copy, load) && lab.counts().limit == limit
}

/// Whether these are the seats of all workers, each once.
fn are_seated<L: Ledger>(seats: &[WorkerSeat<L>], workers: u32) -> bool
    ensures { IsTrue result ↔ AreAllWorkerSeats workers seats.now }
{
    if seats.len() != workers as usize {
        return false;
    }
    for number in 0..workers {
        if count_of(seats, number) != 1 {
            return false;
        }
    }
    true
}

fn count_of<L: Ledger>(seats: &[WorkerSeat<L>], number: u32) -> usize
    ensures { result ≡ count_by (λ s. s.number == number) seats.now }
{
    seats.iter().filter(|s| s.number() == number).count()
}

/// The least worker whose receipts are not those of the log.
fn least_wrong<L: Ledger>(log: &[LogEntry], seats: &[WorkerSeat<L>], workers: u32) -> Option<u32>
    ensures none { IfNone result ((w : ℕ) → w < workers → HasMatchingReceipts log.now seats.now w) }
    ensures some { IfSome result (λ w. (w < workers) × IsFirstWorkerNotMatchingLog log.now seats.now w) }
{
    for worker in 0..workers {
        if !agrees(log, seats, worker) {
            return Some(worker);
        }
    }
    None
}

/// Whether the receipts of each seat of a worker are those of the log.
fn agrees<L: Ledger>(log: &[LogEntry], seats: &[WorkerSeat<L>], worker: u32) -> bool
    ensures { IsTrue result ↔ HasMatchingReceipts log.now seats.now worker }
{
    for i in 0..seats.len() {
        let seat = &seats[i];
        if seat.number() == worker && !receipts_match_log(log, worker, seat.receipts.as_slice()) {
            return false;
        }
    }
    true
}

/// Whether a worker's receipts are the log's entries of that worker, in order and with their places.
pub fn receipts_match_log(log: &[LogEntry], worker: u32, receipts: &[CallReceipt]) -> bool
    ensures { IsTrue result ↔ (receipts.now ≡ receipts_of_worker worker 0 log.now) }
{
    let mut left = receipts;
    for place in 0..log.len() {
        let entry = log[place];
        if entry.worker == worker {
            let receipt = CallReceipt {
                place: place as u64,
                call: entry.call,
                answer: entry.answer,
            };
            let Some(others) = after_first(left, &receipt) else {
                return false;
            };
            left = others;
        }
    }
    left.is_empty()
}

/// The receipts after the first, if that is this one.
fn after_first<'a>(receipts: &'a [CallReceipt], receipt: &CallReceipt) -> Option<&'a [CallReceipt]>
    ensures some { IfSome result (λ others. receipts.now ≡ receipt.now ∷ others.now) }
    ensures none { IfNone result ((others : List CallReceipt) → receipts.now ≢ receipt.now ∷ others) }
{
    let (first, others) = receipts.split_first()?;
    if first.is_equal_to(receipt) {
        Some(others)
    } else {
        None
    }
}

/// The seats of all workers have the whole ledger among them, so their calls add up to the book's.
fn count_up<L: Ledger>(book: &mut Book<L>, seats: Vec<WorkerSeat<L>>)
    requires some { 0 < vec_len seats }
    requires all { vec_len seats ≡ L.parts }
    ensures { book.old.total ≡ sum_by (λ s. s.calls) seats.items }
{
    let mut seats = seats;
    let mut total = none(&mut seats);
    while let Some(seat) = seats.pop() {
        let WorkerSeat {
            number: _,
            receipts: _,
            share,
        } = seat;
        total.merge(share);
    }
    book.audit(&mut total);
}

/// A share with no part, made from that of the first seat.
fn none<L: Ledger>(seats: &mut Vec<WorkerSeat<L>>) -> Share<L>
    requires { 0 < vec_len seats.old }
    ensures share { (result.parts ≡ 0) × (result.amount ≡ 0) }
    ensures same { seats.new.items ≡ seats.old.items }
{
    let seat = &mut seats[0];
    seat.share.empty()
}
