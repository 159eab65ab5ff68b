//! The position of a node.

ghost use Rattle.std.specs.Prelude.{◌≡◌, ◌≤◌, option_map};
ghost use Rattle.ga_node.specs.Record.{record_of_node};
ghost use Rattle.ga_event.specs.Told.{count_steps};
ghost use Rattle.ga_lab.specs.Machine.{node_at_step};
ghost use Rattle.ga_debug_info.specs.Source.{cell_of_address};
ghost use Rattle.ga_dap_views.specs.Spots.{slot_address, slot_address_after_steps};

use ga_grid::NodeId;
use ga_lab::{Lab, NodeWalk};
use ga_node::{Node, NodePlace};
use ga_ports::{AddressTarget, classify_address};
use ga_provenance::fetched_cell_at;

/// A slot of a cell.
#[derive(Clone, Copy, PartialEq, Eq, Debug)]
pub struct SlotAddress {
    /// The cell: 0 to 63 of RAM, 128 to 191 of ROM.
    pub cell: u8,
    /// The slot: 0 to 3.
    pub slot: u8,
}

/// The cell of memory that an address names: of ROM from 128 on.
pub fn memory_cell_of_address(address: u32) -> Option<u8>
    ensures { result ≡ cell_of_address address }
{
    match classify_address(address) {
        AddressTarget::Ram(cell) => Some(cell),
        AddressTarget::Rom(cell) => Some(128 + cell),
        _ => None,
    }
}

/// The slot that comes next in a node, 4 where a fetch is due, and P.
#[tactic(auto, unfolding(ga_node::specs::Record::record_of_node))]
pub fn next_slot_and_p(node: &Node) -> (u8, u32)
    ensures slot { result.0 ≡ (record_of_node node.now).slot }
    ensures p { result.1 ≡ (record_of_node node.now).p }
{
    (node.get(NodePlace::Slot) as u8, node.get(NodePlace::P))
}

/// The position of a node at the step of a walk of it. Takes time linear in the number of steps that it made since the fetch of
/// its instruction word.
fn spot_at(lab: &Lab, walk: &NodeWalk<'_>, node: NodeId) -> Option<SlotAddress>
    requires { walk.now ≡ node_at_step lab.now node walk.now.step }
    ensures { result ≡ slot_address_after_steps lab.now node walk.now.step }
{
    let step = walk.step();
    let (slot, p) = next_slot_and_p(walk.node());
    if slot == 4 {
        return due_spot(p);
    }
    match fetched_cell_at(lab, walk, node, node, step) {
        Some(cell) => Some(SlotAddress { cell, slot }),
        None => None,
    }
}

/// The position of a node that is to fetch at this address.
fn due_spot(p: u32) -> Option<SlotAddress>
    ensures { result ≡ option_map (slot_address 0) (cell_of_address p) }
{
    match memory_cell_of_address(p) {
        Some(cell) => Some(SlotAddress { cell, slot: 0 }),
        None => None,
    }
}

/// The position of a node after `step` of its steps, to which it is walked back.
pub fn slot_address_of_walked_back_node(
    lab: &Lab,
    walk: &mut NodeWalk<'_>,
    node: NodeId,
    step: u32,
) -> Option<SlotAddress>
    requires walk { walk.old ≡ node_at_step lab.now node walk.old.step }
    requires order { step ≤ walk.old.step }
    ensures spot { result ≡ slot_address_after_steps lab.now node step }
    ensures walk { walk.new ≡ node_at_step lab.now node step }
{
    walk.walk_back_to(step);
    spot_at(lab, walk, node)
}

/// The position of a node after `step` of its steps: the slot that it carried out next, or that of the cell that it fetched
/// next. None if its code was in no memory. Takes time linear in the number of steps that the node made since, or since the
/// fetch before.
pub fn slot_address_after_steps(lab: &Lab, node: NodeId, step: u32) -> Option<SlotAddress>
    requires { step ≤ count_steps node.number lab.now.kept }
    ensures { result ≡ slot_address_after_steps lab.now node step }
{
    spot_at(lab, &lab.walk_node_from_step(node, step), node)
}
