//! The requests that go back.

ghost use Rattle.std.specs.Prelude.{◌≡◌, ◌<◌, ◌≤◌, ◌+◌, ℕ, Ok};
ghost use Rattle.ga_event.specs.Told.{count_steps};
ghost use Rattle.ga_lab.specs.Machine.{node_at_step, rewind_answer};
ghost use Rattle.ga_dap_breakpoints.specs.Back.{state_rolled_back_past_steps, state_after_step_back, can_event_reach_slot, is_at_slot_address, reaches_slot};

use ga_dap_views::{SlotAddress, slot_address_of_walked_back_node};
use ga_grid::NodeId;
use ga_lab::{Lab, MadeEvent, NodeWalk};
use ga_node::OwnEventKind;

/// What is watched of a node.
#[derive(Clone, Copy, PartialEq, Eq, Debug)]
pub enum WatchedAction {
    /// The node comes to a slot.
    ArrivesAtSlot(SlotAddress),
    /// The node writes the cell of RAM at an address.
    WritesWatchedCell(u8),
}

/// Rolls back what a node did after its first `keeps` steps, with all dependents and nothing else. Returns the number of
/// removed events. The time is linear in that number.
pub fn roll_back_past_steps(lab: &mut Lab, node: NodeId, keeps: u32) -> u32
    ensures state { lab.new ≡ state_rolled_back_past_steps lab.old node keeps }
    ensures gone { (gone : ℕ) → keeps < count_steps node.number lab.old.kept → rewind_answer lab.old node.number (keeps + 1) ≡ Ok gone → result ≡ gone }
    ensures none { count_steps node.number lab.old.kept ≤ keeps → result ≡ 0 }
{
    if keeps >= lab.steps(node) {
        return 0;
    }
    match lab.rewind(node, keeps + 1) {
        Ok(gone) => gone,
        Err(_) => 0,
    }
}

/// `stepBack` by an instruction (Debug Adapter Protocol, "StepBackRequest"): takes back a node's last step, with all that depends on it, and says how
/// many events that were.
pub fn step_back(lab: &mut Lab, node: NodeId) -> u32
    ensures { lab.new ≡ state_after_step_back lab.old node }
{
    let keeps = lab.steps(node).saturating_sub(1);
    roll_back_past_steps(lab, node, keeps)
}

/// Whether a node can arrive at a slot by the step with this event.
pub(crate) fn can_event_reach_slot(told: &Option<MadeEvent>) -> bool
    ensures { result ≡ can_event_reach_slot told.now }
{
    match told {
        Some(MadeEvent::Own { step, kind, .. }) => match kind {
            OwnEventKind::Run(_) => true,
            OwnEventKind::Fetch => *step == 1,
            OwnEventKind::Wait => false,
            OwnEventKind::Stop(_) => false,
        },
        Some(MadeEvent::Pass { .. }) => true,
        None => false,
    }
}

pub(crate) fn is_at_slot_address(at: SlotAddress, found: Option<SlotAddress>) -> bool
    ensures { result ≡ is_at_slot_address at found }
{
    match found {
        Some(found) => found.cell == at.cell && found.slot == at.slot,
        None => false,
    }
}

/// Whether the step of a node after its first `place` steps is one by which it arrived at a slot. The node is walked back to
/// just after it.
pub fn reaches_slot(
    lab: &Lab,
    walk: &mut NodeWalk<'_>,
    node: NodeId,
    at: SlotAddress,
    place: u32,
) -> bool
    requires walk { walk.old ≡ node_at_step lab.now node walk.old.step }
    requires order { place < walk.old.step }
    ensures comes { result ≡ reaches_slot lab.now node at place }
    ensures walk { walk.new ≡ node_at_step lab.now node walk.new.step }
    ensures order { place < walk.new.step }
{
    walk.step();
    let found = slot_address_of_walked_back_node(lab, walk, node, place + 1);
    can_event_reach_slot(&lab.made_event_of_step(node, place)) && is_at_slot_address(at, found)
}
