//! The chip under its lock, and its workers' seats.

ghost use Rattle.ga_shared.specs.declared.call.Call.TheVariants.{Step, Rewind};

use crate::call::{Call, CallReceipt, SharedLabFault};
use crate::copies::copy_of;
use crate::locked::{LockedLab, WorkerSeat};
use ga_grid::{Chip, NodeId};
use ga_lab::Lab;
use std::alloc::Global;
use std::marker::Model;
use std::sync::ledger::{Blank, Ledger};
use std::sync::{Mutex, Wait};

/// A lab under a lock, for 1 to 16 workers. Each has a [`WorkerSeat`], with which any thread calls `step` and `rewind`; `close`
/// consumes the seats and returns the lab and the log. Outside the lock are a copy of the chip, the limit and the number of
/// workers, which no call changes.
#[derive(Drop)]
pub struct SharedLab<L: Ledger> {
    pub(crate) locked: Mutex<LockedLab<L>>,
    pub(crate) load: Chip,
    pub(crate) limit: u32,
    pub(crate) workers: u32,
}

impl<L: Ledger> Model for SharedLab<L> {
    ghost use Rattle.std.specs.Prelude.{◌≡◌, ◌≤◌};
    ghost use Rattle.ga_grid.specs.Chip.{records_of_chip};
    ghost use Rattle.ga_shared.specs.Log.{OpeningParameters};

    ghost Value = { OpeningParameters };

    ghost view = { λ s. record { load = records_of_chip s.load; limit = s.limit; workers = s.workers } };

    ghost invariant = { λ s. (s.workers ≡ L.parts) × (1 ≤ s.workers) × (s.workers ≤ 16) };
}

impl<L: Ledger> SharedLab<L> {
    ghost use Rattle.std.specs.Prelude.{◌≡◌, ◌<◌, ◌≤◌, ℕ, IfOk, OnErr, Some, vec_len, slice_get};
    ghost use Rattle.ga_grid.specs.Chip.{records_of_chip};
    ghost use Rattle.ga_shared.specs.Log.{CountsCall, fresh_worker};

    /// A shared chip that keeps at most `limit` events, and a seat for each worker, numbered from 0. `blank` is a new ledger, with a
    /// part for each worker, in which their calls are counted.
    ///
    /// # Errors
    /// `Memory` alone; the chip is then dropped.
    pub fn new(
        alloc: Global,
        blank: Blank,
        chip: Chip,
        limit: u32,
        workers: u32,
    ) -> Result<(SharedLab<L>, Vec<WorkerSeat<L>>), SharedLabFault>
        requires ledger { (blank.name ≡ L.name) × (blank.parts ≡ L.parts) }
        requires parts { blank.parts ≡ workers }
        requires workers { (1 ≤ workers) × (workers ≤ 16) }
        ensures shared { IfOk result (λ made.
            made.0 ≡ record { load = records_of_chip chip; limit = limit; workers = workers }) }
        ensures seats { IfOk result (λ made. (vec_len made.1 ≡ workers)
            × ((w : ℕ) → w < workers → slice_get made.1.items w ≡ Some (fresh_worker w))) }
    {
        let Ok(load) = copy_of(alloc, &chip) else {
            return Err(SharedLabFault::Memory);
        };
        let Ok(copy) = copy_of(alloc, &chip) else {
            return Err(SharedLabFault::Memory);
        };
        let (book, mut rest) = blank.open::<L>();
        let mut seats = Vec::new(alloc);
        for number in 0..workers {
            let share = rest.split_off(1, 0);
            let seat = WorkerSeat {
                number,
                receipts: Vec::new(alloc),
                share,
            };
            let Ok(()) = seats.push(seat) else {
                return Err(SharedLabFault::Memory);
            };
        }
        let Ok(lab) = Lab::new(alloc, chip, limit) else {
            return Err(SharedLabFault::Memory);
        };
        let locked = LockedLab {
            lab,
            load: copy,
            log: Vec::new(alloc),
            book,
        };
        let shared = SharedLab {
            locked: Mutex::new(locked),
            load,
            limit,
            workers,
        };
        Ok((shared, seats))
    }

    /// Makes a step of a node, under the lock.
    ///
    /// # Errors
    /// `Memory` alone; then nothing was logged. What the lab refuses is an answer.
    pub fn step(
        &self,
        rt: &impl Wait,
        seat: &mut WorkerSeat<L>,
        node: NodeId,
    ) -> Result<CallReceipt, SharedLabFault>
        ensures counts { IfOk result (λ receipt. CountsCall seat.old seat.new (Step node) receipt) }
        ensures memory { OnErr result (seat.new ≡ seat.old) }
    {
        self.locked.lock(rt).call(seat, Call::Step(node))
    }

    /// Takes a step of a node back with all that depends on it, under the lock.
    ///
    /// # Errors
    /// `Memory` alone; then nothing was logged. What the lab refuses is an answer.
    pub fn rewind(
        &self,
        rt: &impl Wait,
        seat: &mut WorkerSeat<L>,
        node: NodeId,
        step: u32,
    ) -> Result<CallReceipt, SharedLabFault>
        ensures counts { IfOk result (λ receipt. CountsCall seat.old seat.new (Rewind node step) receipt) }
        ensures memory { OnErr result (seat.new ≡ seat.old) }
    {
        self.locked.lock(rt).call(seat, Call::Rewind(node, step))
    }
}
