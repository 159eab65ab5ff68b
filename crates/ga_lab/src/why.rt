//! The chain of causes between two steps.

ghost use Rattle.std.specs.Prelude.{◌≡◌, ◌+◌, ◌<◌, ◌^◌, ◌⊎◌, ℕ, List, length, drop, Some, Err, IsOk};
ghost use Rattle.ga_event.specs.declared.event.EventWithLook.{EventWithLook};
ghost use Rattle.ga_causal.specs.Dependence.{position_of_step};
ghost use Rattle.ga_journal.specs.Logs.{AreEventsSinceStep};
ghost use Rattle.ga_lab.specs.Machine.{chain_between};

use crate::fault::LabFault;
use ga_causal::{Chain, find_chain_after_skipped_events, position_of_step};
use ga_grid::NodeId;
use ga_journal::EventsFromStep;

/// The chain from the step at which these events begin to another, in the whole list of which they are the last.
pub(crate) fn chain_since(
    since: &EventsFromStep,
    to: (NodeId, u32),
) -> Result<Option<Chain>, LabFault>
    requires counted { 0 < to.1 }
    requires short { since.now.before + length since.now.causes.items < 2 ^ 32 }
    ensures { (all : List EventWithLook) (n k : ℕ) →
        AreEventsSinceStep all n k to.0.number since.now.causes.items since.now.before since.now.steps →
        let answer = chain_between all (position_of_step all n k) (position_of_step all to.0.number to.1) in
        (result ≡ answer) ⊎ ((result ≡ Err LabFault.Memory) × IsOk answer) }
{
    if to.1 <= since.steps {
        return Ok(None);
    }
    match position_of_step(&since.causes, to.0, to.1 - since.steps) {
        Some(effect) => chain(since, effect),
        None => Err(LabFault::NoStep),
    }
}

/// The chain from the first of these events to another of them.
#[tactic(auto, using(crate::proofs::Explaining::found_chain))]
fn chain(since: &EventsFromStep, effect: u32) -> Result<Option<Chain>, LabFault>
    requires effect { effect < length since.now.causes.items }
    requires short { since.now.before + length since.now.causes.items < 2 ^ 32 }
    ensures { (all : List EventWithLook) → drop since.now.before all ≡ since.now.causes.items →
        (result ≡ chain_between all (Some since.now.before) (Some (since.now.before + effect)))
        ⊎ (result ≡ Err LabFault.Memory) }
{
    let alloc = *since.causes.allocator();
    match find_chain_after_skipped_events(alloc, &since.causes, since.before, 0, effect) {
        Ok(found) => Ok(found),
        Err(_) => Err(LabFault::Memory),
    }
}
