//! The data under the one lock, and a worker's seat.

ghost use Rattle.std.specs.Prelude.{◌≡◌, ◌≢◌, IfOk, OnOk, OnErr};
ghost use Rattle.ga_shared.specs.Log.{call_answer, state_after_call, refusal_number};

use crate::call::{Call, CallAnswer, CallReceipt, LogEntry, SharedLabFault};
use ga_grid::Chip;
use ga_lab::{Lab, LabFault};
use std::marker::Model;
use std::sync::ledger::{Book, Ledger, Share};

/// The seat of a worker: its number, its receipts, and its share of the ledger that counts the calls. It can't be copied, and
/// its type names the shared chip that made it.
#[derive(Drop)]
pub struct WorkerSeat<L: Ledger> {
    pub(crate) number: u32,
    /// The receipts of the worker's calls, in the order in which it made them.
    pub receipts: Vec<CallReceipt>,
    pub(crate) share: Share<L>,
}

impl<L: Ledger> Model for WorkerSeat<L> {
    ghost use Rattle.std.specs.Prelude.{◌≡◌};
    ghost use Rattle.ga_shared.specs.Log.{Worker};

    ghost Value = { Worker };

    ghost view = { λ s. record { number = s.number; receipts = s.receipts.items; calls = s.share.amount } };

    ghost invariant = { λ s. s.share.parts ≡ 1 };
}

impl<L: Ledger> WorkerSeat<L> {
    ghost use Rattle.std.specs.Prelude.{◌≡◌};

    /// The worker's number.
    pub fn number(&self) -> u32
        ensures { result ≡ self.now.number }
    {
        self.number
    }
}

/// The lab, a copy of its load, the log of its calls, and the book that counts them.
#[derive(Drop)]
pub struct LockedLab<L: Ledger> {
    pub(crate) lab: Lab,
    pub(crate) load: Chip,
    pub(crate) log: Vec<LogEntry>,
    pub(crate) book: Book<L>,
}

impl<L: Ledger> Model for LockedLab<L> {
    ghost use Rattle.ga_grid.specs.Chip.{records_of_chip};
    ghost use Rattle.ga_shared.specs.Log.{LockedState, HasConsistentLog};

    ghost Value = { LockedState };

    ghost view = { λ l. record { load = records_of_chip l.load; lab = l.lab; log = l.log.items; calls = l.book.total } };

    ghost invariant = { λ l. HasConsistentLog (record { load = records_of_chip l.load; lab = l.lab; log = l.log.items; calls = l.book.total }) };
}

impl<L: Ledger> LockedLab<L> {
    ghost use Rattle.std.specs.Prelude.{◌≡◌, ◌≤◌, length, IfOk, OnErr};
    ghost use Rattle.ga_shared.specs.Log.{MakesLoggedCall, HasConsistentLog};

    /// Makes one call of the lab for a worker, logs it, and puts its receipt at the end of the seat's.
    ///
    /// # Errors
    /// `Memory` alone; then nothing changed.
    #[inline(always)]
    pub fn call(
        &mut self,
        seat: &mut WorkerSeat<L>,
        call: Call,
    ) -> Result<CallReceipt, SharedLabFault>
        ensures makes { IfOk result (λ receipt. MakesLoggedCall self.old self.new seat.old seat.new call receipt) }
        ensures place { seat.old.calls ≤ length self.old.log }
        ensures memory { OnErr result ((self.new ≡ self.old) × (seat.new ≡ seat.old)) }
        ensures history { HasConsistentLog self.new }
    {
        self.book.audit(&mut seat.share);
        let Ok(()) = seat.receipts.reserve(1) else {
            return Err(SharedLabFault::Memory);
        };
        let Ok(()) = self.log.reserve(1) else {
            return Err(SharedLabFault::Memory);
        };
        let place = self.log.len() as u64;
        let receipt = CallReceipt {
            place,
            call,
            answer: answer(&mut self.lab, call)?,
        };
        self.log.push_reserved(receipt.entry(seat.number));
        self.book.add(&mut seat.share, 1);
        seat.receipts.push_reserved(receipt);
        Ok(receipt)
    }
}

/// Makes a call of the lab.
#[inline(always)]
fn answer(lab: &mut Lab, call: Call) -> Result<CallAnswer, SharedLabFault>
    ensures answer { IfOk result (λ answer. answer ≡ call_answer lab.old call) }
    ensures given { IfOk result (λ answer. answer ≢ CallAnswer.Refused 4) }
    ensures lab { OnOk result (lab.new ≡ state_after_call lab.old call) }
    ensures memory { OnErr result (lab.new ≡ lab.old) }
{
    match call {
        Call::Step(node) => match lab.step(node) {
            Ok(made) => Ok(CallAnswer::Made(made)),
            Err(fault) => refused(fault),
        },
        Call::Rewind(node, step) => match lab.rewind(node, step) {
            Ok(removed) => Ok(CallAnswer::Removed(removed)),
            Err(fault) => refused(fault),
        },
    }
}

/// A refusal is an answer, unless there was no memory.
fn refused(fault: LabFault) -> Result<CallAnswer, SharedLabFault>
    ensures answer { IfOk result (λ answer. answer ≡ CallAnswer.Refused (refusal_number fault)) }
    ensures given { IfOk result (λ answer. answer ≢ CallAnswer.Refused 4) }
    ensures some { OnOk result (fault ≢ LabFault.Memory) }
    ensures memory { OnErr result (fault ≡ LabFault.Memory) }
{
    match fault {
        LabFault::Waiting => Ok(CallAnswer::Refused(1)),
        LabFault::Stopped => Ok(CallAnswer::Refused(2)),
        LabFault::Full => Ok(CallAnswer::Refused(3)),
        LabFault::Memory => Err(SharedLabFault::Memory),
        LabFault::Empty => Ok(CallAnswer::Refused(5)),
        LabFault::NoStep => Ok(CallAnswer::Refused(6)),
        LabFault::EventNumbersSpent => Ok(CallAnswer::Refused(7)),
    }
}
