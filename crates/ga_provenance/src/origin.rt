//! The step that made a value, and the cell of the instruction word to which a step belongs.

ghost use Rattle.std.specs.Prelude.{◌≡◌, ◌<◌, ◌≤◌, ◌-◌, None, IfSome};
ghost use Rattle.ga_node.specs.Record.{record_of_node};
ghost use Rattle.ga_event.specs.Told.{count_steps};
ghost use Rattle.ga_lab.specs.Machine.{history_of_node, node_at_step};
ghost use Rattle.ga_event.specs.Flow.{IsNodePartInRange, flow_of_stored_flow, ComputesNothingFromOutsideWord};
ghost use Rattle.ga_provenance.specs.Origins.{is_memory_part, moves_into_or_out_of_memory, moved_source_part, is_three_part_flow, part_to_list_for_value_flow, part_flow_by_event, value_flow_at_step, origin_after_steps, origin_of_value, node_after_steps};
ghost use Rattle.ga_provenance.specs.inner.{source_part_by_event, IsTrailNotPastStep};
ghost use Rattle.ga_ports.specs.Address.{address_target};
ghost use Rattle.ga_provenance.specs.Fetched.{cell_of_target, fetched_cell};

use crate::known::{known_flow, p_at};
use crate::moving::source_part_by_event;
use crate::trail::CachedWalk;
use crate::value::PartValue;
use ga_event::{
    MadeEvent, NodePart, ValueFlow, flow_after_send, flow_after_take, flow_of_own_event,
};
use ga_grid::NodeId;
use ga_lab::{Lab, NodeWalk};
use ga_node::{Node, NodePlace};
use ga_ports::{AddressTarget, classify_address};

// Whether the part is a cell of memory.
pub(crate) fn is_cell(part: NodePart) -> bool
    ensures { result ≡ is_memory_part part }
{
    match part {
        NodePart::Ram(_) => true,
        NodePart::Rom(_) => true,
        _ => false,
    }
}

// Whether a value that moved from a part to another was read from memory or stored there.
fn moves_into_or_out_of_memory(from: NodePart, to: NodePart) -> bool
    ensures { result ≡ moves_into_or_out_of_memory from to }
{
    if is_cell(from) {
        !is_cell(to)
    } else {
        is_cell(to)
    }
}

// The part from which a value was moved to another part of the node alone, where it was.
pub(crate) fn moved_source_part(flow: &ValueFlow, to: NodePart) -> Option<NodePart>
    requires { ComputesNothingFromOutsideWord (flow_of_stored_flow flow.now) }
    ensures value { result ≡ moved_source_part (flow_of_stored_flow flow.now) to }
    ensures part { IfSome result (λ from. IsNodePartInRange from) }
{
    match flow {
        ValueFlow::CopiedFromPart(NodePart::OutsideWord) => None,
        ValueFlow::CopiedFromPart(from) => {
            if moves_into_or_out_of_memory(*from, to) {
                None
            } else {
                Some(*from)
            }
        }
        ValueFlow::ComputedFromParts(_) => None,
    }
}

// Whether a value is computed from three parts.
fn is_three_part_flow(flow: &ValueFlow) -> bool
    ensures { result ≡ is_three_part_flow (flow_of_stored_flow flow.now) }
{
    match flow {
        ValueFlow::CopiedFromPart(_) => false,
        ValueFlow::ComputedFromParts(parts) => parts.len() == 3,
    }
}

// The part as which a value that a step made is listed.
fn part_to_list_for_value_flow(flow: &ValueFlow, part: NodePart) -> NodePart
    requires { IsNodePartInRange part }
    ensures value { result ≡ part_to_list_for_value_flow (flow_of_stored_flow flow.now) part }
    ensures part { IsNodePartInRange result }
{
    match part {
        NodePart::A => {
            if is_three_part_flow(flow) {
                NodePart::T
            } else {
                part
            }
        }
        NodePart::Carry => {
            if is_three_part_flow(flow) {
                NodePart::T
            } else {
                part
            }
        }
        _ => part,
    }
}

// The source of the value that an event of a node, as made, leaves in a part.
fn part_flow_by_event(made: &MadeEvent, before: &Node, node: NodeId, part: NodePart) -> ValueFlow
    requires { IsNodePartInRange part }
    ensures value { flow_of_stored_flow result ≡ part_flow_by_event made.now (record_of_node before.now) node.number part }
    ensures sources { ComputesNothingFromOutsideWord (flow_of_stored_flow result) }
{
    match made {
        MadeEvent::Own { .. } => flow_of_own_event(before, part),
        MadeEvent::Pass { reader, .. } => {
            if node.number == reader.number {
                flow_after_take(before.wait(), part)
            } else {
                flow_after_send(part)
            }
        }
    }
}

// Where the value of a part comes from that a node's next step leaves, from where it is walked back to; past its steps all stays.
pub(crate) fn flow_behind(lab: &Lab, walk: &NodeWalk<'_>, node: NodeId, part: NodePart) -> ValueFlow
    requires part { IsNodePartInRange part }
    requires walk { walk.now ≡ node_at_step lab.now node walk.now.step }
    ensures value { flow_of_stored_flow result ≡ value_flow_at_step lab.now node.number walk.now.step part }
    ensures sources { ComputesNothingFromOutsideWord (flow_of_stored_flow result) }
{
    match lab.made_event_of_step(node, walk.step()) {
        Some(made) => part_flow_by_event(&made, walk.node(), node, part),
        None => ValueFlow::CopiedFromPart(part),
    }
}

// The value's step, or the last of the node if it made fewer: after that nothing is made.
#[tactic(auto, using(crate::proofs::Made::origin_last))]
pub(crate) fn kept_step(lab: &Lab, value: PartValue) -> u32
    requires { IsNodePartInRange value.part }
    ensures same { origin_after_steps lab.now value.node result value.part ≡ origin_of_value lab.now value }
    ensures within { result ≤ count_steps value.node.number lab.now.kept }
{
    let steps = lab.steps(value.node);
    if value.step < steps {
        value.step
    } else {
        steps
    }
}

/// The newest step up to the value's own that made it, with the value's part then, or step 0 if the value was loaded. A step
/// that only moved the value from part to part of the node, as `dup` or `push`, made nothing. Takes time linear in the number
/// of steps that the node made since.
pub fn origin_of_value(lab: &Lab, value: PartValue) -> PartValue
    requires { IsNodePartInRange value.part }
    ensures value { result ≡ origin_of_value lab.now value }
    ensures part { IsNodePartInRange result.part }
    ensures within { result.step ≤ count_steps value.node.number lab.now.kept }
{
    let step = kept_step(lab, value);
    let mut trail = CachedWalk::new(lab, value.node, lab.walk_node_from_step(value.node, step));
    origin_behind(lab, &mut trail, value.node, step, value.part)
}

// A trail of a node that has not come past a step: from another walk, where that is of the same node and not earlier, else from the
// newest step.
pub(crate) fn trail_near<'l>(
    lab: &'l Lab,
    near: &NodeWalk<'l>,
    at: NodeId,
    node: NodeId,
    step: u32,
) -> CachedWalk<'l>
    requires within { step ≤ count_steps node.number lab.now.kept }
    requires near { near.now ≡ node_at_step lab.now at near.now.step }
    ensures stands { result ≡ node_at_step lab.now node result.step }
    ensures order { step ≤ result.step }
{
    if at == node && step <= near.step() {
        CachedWalk::new(lab, node, near.copy())
    } else {
        CachedWalk::new(lab, node, lab.walk_node_from_step(node, lab.steps(node)))
    }
}

// A trail of a node that has not come past a step: the last one, which is of some node, where it serves, else one as by
// [`trail_near`].
pub(crate) fn trail_on<'l>(
    lab: &'l Lab,
    near: &NodeWalk<'l>,
    at: NodeId,
    last: NodeId,
    trail: CachedWalk<'l>,
    node: NodeId,
    step: u32,
) -> CachedWalk<'l>
    requires within { step ≤ count_steps node.number lab.now.kept }
    requires near { near.now ≡ node_at_step lab.now at near.now.step }
    requires trail { trail ≡ node_at_step lab.now last trail.step }
    ensures stands { result ≡ node_at_step lab.now node result.step }
    ensures order { step ≤ result.step }
{
    if last == node && step <= trail.step() {
        trail
    } else {
        trail_near(lab, near, at, node, step)
    }
}

// The source of the value that the step at a place leaves in a part of its node. The node is walked back to right before the
// step only if the entries don't determine it.
pub(crate) fn flow_by_trail(
    lab: &Lab,
    trail: &mut CachedWalk<'_>,
    node: NodeId,
    place: u32,
    part: NodePart,
) -> ValueFlow
    requires part { IsNodePartInRange part }
    requires trail { IsTrailNotPastStep lab.now node trail.old place }
    ensures value { flow_of_stored_flow result ≡ value_flow_at_step lab.now node.number place part }
    ensures sources { ComputesNothingFromOutsideWord (flow_of_stored_flow result) }
    ensures trail { trail.new ≡ node_at_step lab.now node trail.new.step }
    ensures order { place ≤ trail.new.step }
{
    if let Some(flow) = known_flow(lab, trail, node, place, part) {
        return flow;
    }
    trail.walk_back_to(place);
    flow_behind(lab, trail.walk(), node, part)
}

/// The origin of the value in a part of a node after a step, by a trail of the node that has not been walked back past that
/// step, nor then past the one that made the value. The node is walked back only where the entries don't determine from where a
/// step has the value.
pub(crate) fn origin_behind(
    lab: &Lab,
    trail: &mut CachedWalk<'_>,
    node: NodeId,
    step: u32,
    part: NodePart,
) -> PartValue
    requires part { IsNodePartInRange part }
    requires trail { IsTrailNotPastStep lab.now node trail.old step }
    ensures value { result ≡ origin_after_steps lab.now node step part }
    ensures part { IsNodePartInRange result.part }
    ensures within { result.step ≤ step }
    ensures node { result.node ≡ node }
    ensures trail { trail.new ≡ node_at_step lab.now node trail.new.step }
    ensures order { result.step - 1 ≤ trail.new.step }
{
    let mut value = trail.trace_by_steps_as_made(lab, PartValue { node, step, part });
    'steps: while value.step > 0 {
        let PartValue { step, part, .. } = value;
        let flow = flow_by_trail(lab, trail, node, step - 1, part);
        match moved_source_part(&flow, part) {
            Some(from) => {
                let step = step - 1;
                let part = from;
                value = trail.trace_by_steps_as_made(lab, PartValue { node, step, part });
            }
            None => {
                let part = part_to_list_for_value_flow(&flow, part);
                return PartValue { node, step, part };
            }
        }
    }
    value
}

/// The cell that an address names.
fn cell_of(address: u32) -> Option<u8>
    ensures { result ≡ cell_of_target (address_target address) }
{
    match classify_address(address) {
        AddressTarget::Ram(cell) => Some(cell),
        AddressTarget::Rom(cell) => Some(128 + cell),
        _ => None,
    }
}

/// P of a node.
#[tactic(auto, unfolding(ga_node::specs::Record::record_of_node))]
fn p_of(node: &Node) -> u32
    ensures { result ≡ (record_of_node node.now).p }
{
    node.get(NodePlace::P)
}

/// P right before the step at a place. The node is walked back only if the entries don't determine it.
fn p_by_trail(lab: &Lab, trail: &mut CachedWalk<'_>, node: NodeId, place: u32) -> u32
    requires trail { IsTrailNotPastStep lab.now node trail.old place }
    requires within { place ≤ count_steps node.number lab.now.kept }
    ensures { (node_after_steps lab.now node.number place).p ≡ result }
{
    if let Some(p) = p_at(lab, node, place) {
        return p;
    }
    trail.walk_back_to(place);
    p_of(trail.walk().node())
}

/// The cell from which the instruction word in I after a step was fetched: 0 to 63 of RAM, 128 to 191 of ROM. None if it was
/// loaded, or came from elsewhere than a memory. Takes time linear in the number of steps that the node made since the fetch.
/// Only where the entries of the steps don't determine it, the node is walked back there: from where the walk `near` is, if
/// that is of the same node and not earlier, else from its newest step.
pub fn fetched_cell_at<'l>(
    lab: &'l Lab,
    near: &NodeWalk<'l>,
    at: NodeId,
    node: NodeId,
    step: u32,
) -> Option<u8>
    requires { near.now ≡ node_at_step lab.now at near.now.step }
    ensures { result ≡ fetched_cell lab.now node step }
{
    let part = NodePart::I;
    let step = kept_step(lab, PartValue { node, step, part });
    let mut trail = trail_near(lab, near, at, node, step);
    let made = origin_behind(lab, &mut trail, node, step, part);
    if made.step == 0 {
        return None;
    }
    cell_of(p_by_trail(lab, &mut trail, node, made.step - 1))
}
