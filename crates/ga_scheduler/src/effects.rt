//! What a rollback would take, without taking it.

ghost use Rattle.std.specs.Prelude.{◌≡◌, ◌⊎◌, ◌↔◌, ◌+◌, ◌≤◌, ℕ, false, ◌++◌, slice_index, Ok, Err, IsOk, IfOk, OnOk, IfErr};
ghost use Rattle.ga_event.specs.Told.{count_steps};
ghost use Rattle.ga_lab.specs.Machine.{rewind_answer, has_step};
ghost use Rattle.ga_scheduler.specs.Effects.{step_count_in_history, rollback_effect_on_node, rollback_effects_below_node, rollback_effects};

use ga_grid::NodeId;
use ga_lab::{Lab, LabFault};
use ga_rollback::VisitedEntries;
use std::alloc::Global;

/// What a rollback would remove of a node: `steps` steps, all from the first on.
#[derive(Clone, Copy, PartialEq, Eq, Debug)]
pub struct RollbackEffect {
    /// The node.
    pub node: NodeId,
    /// The first of the node's steps that would go.
    pub first: u32,
    /// How many of the node's steps would go.
    pub steps: u32,
}

/// What a rollback would take.
#[derive(Debug, Drop)]
pub struct RollbackEffects {
    /// How many events would go, which `rewind` would answer.
    pub events: u32,
    /// The nodes of which steps would go, in the order of their numbers.
    pub nodes: Vec<RollbackEffect>,
}

// Appends to a list what would be removed of a node, if any of its steps would.
fn add_steps(
    list: &mut Vec<RollbackEffect>,
    lab: &Lab,
    node: NodeId,
    steps: u32,
) -> Result<(), LabFault>
    requires { steps ≤ count_steps node.number lab.now.kept }
    ensures ok { OnOk result ((left : ℕ → ℕ) → steps + left node.number ≡ count_steps node.number lab.now.kept →
        list.new.items ≡ list.old.items ++ rollback_effect_on_node left (step_count_in_history lab.now) node.number) }
    ensures err { IfErr result (λ why. why ≡ LabFault.Memory) }
{
    if steps == 0 {
        return Ok(());
    }
    let first = lab.steps(node) - steps + 1;
    match list.push(RollbackEffect { node, first, steps }) {
        Ok(()) => Ok(()),
        Err(_) => Err(LabFault::Memory),
    }
}

// What would be removed of each node, given how many steps would remain.
fn listed(alloc: Global, lab: &Lab, steps: &VisitedEntries) -> Result<Vec<RollbackEffect>, LabFault>
    requires { (m : ℕ) → slice_index steps.now m ≤ count_steps m lab.now.kept }
    ensures ok { IfOk result (λ list. (left : ℕ → ℕ) →
        ((m : ℕ) → slice_index steps.now m + left m ≡ count_steps m lab.now.kept) →
        list.items ≡ rollback_effects_below_node left (step_count_in_history lab.now) 144) }
    ensures err { IfErr result (λ why. why ≡ LabFault.Memory) }
{
    let mut list = Vec::new(alloc);
    for number in steps.first()..steps.past() {
        let node = NodeId::new(number);
        add_steps(&mut list, lab, node, steps.count(node))?;
    }
    Ok(list)
}

/// What `rewind` would take, and what it would answer: each event that depends on the step, and so of each node its steps from one
/// on. Nothing is taken back. Takes memory for the list alone, and time by what it names, whatever else is kept.
///
/// # Errors
/// `NoStep`, where the node has no such step; then `Memory`.
pub fn find_rollback_effects(
    alloc: Global,
    lab: &mut Lab,
    node: NodeId,
    step: u32,
) -> Result<RollbackEffects, LabFault>
    ensures events { IfOk result (λ effects. rewind_answer lab.old node.number step ≡ Ok effects.events) }
    ensures nodes { IfOk result (λ effects. effects.nodes.items ≡ rollback_effects lab.old node.number step) }
    ensures err { IfErr result (λ why. (rewind_answer lab.old node.number step ≡ Err why)
        ⊎ ((why ≡ LabFault.Memory) × IsOk (rewind_answer lab.old node.number step))) }
    ensures refused { (result ≡ Err LabFault.NoStep) ↔ (has_step lab.old node.number step ≡ false) }
    ensures same { lab.new ≡ lab.old }
{
    match lab.forecast_rollback(node, step) {
        Ok(going) => match listed(alloc, lab, &going.steps) {
            Ok(nodes) => Ok(RollbackEffects {
                events: going.events,
                nodes,
            }),
            Err(why) => Err(why),
        },
        Err(why) => Err(why),
    }
}
