//! The calls of one worker, and the gate around them.

ghost use Rattle.std.specs.Prelude.{◌≡◌, ◌<◌, ◌^◌, ℕ, length, take, IfOk, OnOk, OnErr};
ghost use Rattle.ga_shared.specs.Log.{HasMadeCalls, CountsCall};

use crate::call::{Call, CallReceipt, SharedLabFault};
use crate::locked::WorkerSeat;
use crate::shared::SharedLab;
use std::sync::Wait;
use std::sync::ledger::Ledger;

/// Makes the calls one by one, and calls the gate before and after each, up to the first fault.
///
/// # Errors
/// `Memory` alone; the calls before it were made.
pub fn make_worker_calls<L: Ledger, G: CallHooks, R: Wait>(
    rt: &R,
    shared: &SharedLab<L>,
    seat: &mut WorkerSeat<L>,
    gate: &G,
    calls: &[Call],
) -> Result<(), SharedLabFault>
    requires { length calls.now < 2 ^ 32 }
    ensures done { OnOk result (HasMadeCalls seat.old seat.new calls.now) }
    ensures fault { OnErr result
        ((n : ℕ) × (n < length calls.now) × HasMadeCalls seat.old seat.new (take n calls.now)) }
{
    let worker = seat.number();
    for i in 0..calls.len() {
        let number = i as u32 + 1;
        gate.before(worker, number);
        make(rt, shared, seat, calls[i])?;
        gate.after(worker, number);
    }
    Ok(())
}

/// Makes one call.
fn make<L: Ledger, R: Wait>(
    rt: &R,
    shared: &SharedLab<L>,
    seat: &mut WorkerSeat<L>,
    call: Call,
) -> Result<CallReceipt, SharedLabFault>
    ensures counts { IfOk result (λ receipt. CountsCall seat.old seat.new call receipt) }
    ensures memory { OnErr result (seat.new ≡ seat.old) }
{
    match call {
        Call::Step(node) => shared.step(rt, seat, node),
        Call::Rewind(node, step) => shared.rewind(rt, seat, node, step),
    }
}

/// Called before and after each call of a worker, outside the lock. Calls count from 1.
pub trait CallHooks {
    /// The worker is about to make the call.
    fn before(&self, worker: u32, call: u32);

    /// The worker made the call.
    fn after(&self, worker: u32, call: u32);
}

/// The gate that does nothing.
#[derive(Clone, Copy, Debug)]
pub struct NoEffectCallHooks;

impl CallHooks for NoEffectCallHooks {
    fn before(&self, _worker: u32, _call: u32) {}

    fn after(&self, _worker: u32, _call: u32) {}
}
