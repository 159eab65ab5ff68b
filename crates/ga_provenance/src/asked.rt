//! The value that a step selects for a query.

ghost use Rattle.std.specs.Prelude.{◌≡◌, ◌≤◌, ◌<◌, ◌+◌, ◌^◌, IfSome};
ghost use Rattle.ga_ports.specs.Address.{address_target, IsTargetInRange};
ghost use Rattle.ga_node.specs.Record.{record_of_node};
ghost use Rattle.ga_node.specs.Table.{next_action_of_node};
ghost use Rattle.ga_lab.specs.Machine.{node_at_step};
ghost use Rattle.ga_event.specs.Flow.{IsNodePartInRange};
ghost use Rattle.ga_provenance.specs.Asked.{queried_read_part, queried_write_part, queried_opcode_part, queried_action_part, node_part_receiving_word, queried_event_part, queried_part_value, queried_value};
ghost use Rattle.ga_provenance.specs.inner.{IsNodePartIfAnyQueried};

use crate::value::PartValue;
use ga_event::{MadeEvent, NodePart, next_action_of_running_node};
use ga_grid::NodeId;
use ga_lab::{Lab, NodeWalk};
use ga_node::{NextAction, Node, NodePlace, Wait};
use ga_ports::{AddressTarget, classify_address};
use ga_slots::Op;

/// The value that a step of a node selects.
#[derive(Clone, Copy, PartialEq, Eq, Debug)]
pub(crate) enum QueriedPart {
    /// The value that the step left in this part.
    PartAfter(NodePart),
    /// The value of this part before the step, which the step sent or by which it was decided.
    PartBefore(NodePart),
    /// The step made no value.
    Nothing,
}

// What P, A and B name.
#[tactic(auto, unfolding(ga_node::specs::Record::record_of_node))]
fn p_target(node: &Node) -> AddressTarget
    ensures value { result ≡ address_target (record_of_node node.now).p }
    ensures in_range { IsTargetInRange result }
{
    classify_address(node.get(NodePlace::P))
}

#[tactic(auto, unfolding(ga_node::specs::Record::record_of_node))]
fn a_target(node: &Node) -> AddressTarget
    ensures value { result ≡ address_target (record_of_node node.now).a }
    ensures in_range { IsTargetInRange result }
{
    classify_address(node.get(NodePlace::A))
}

#[tactic(auto, unfolding(ga_node::specs::Record::record_of_node))]
fn b_target(node: &Node) -> AddressTarget
    ensures value { result ≡ address_target (record_of_node node.now).b }
    ensures in_range { IsTargetInRange result }
{
    classify_address(node.get(NodePlace::B))
}

// The selected value of a read at what the address in a part names, whose word comes to the part `there`.
fn asked_of_read(address: NodePart, there: NodePart, target: AddressTarget) -> QueriedPart
    requires address { IsNodePartInRange address }
    requires there { IsNodePartInRange there }
    ensures value { result ≡ queried_read_part address there target }
    ensures part { IsNodePartIfAnyQueried result }
{
    match target {
        AddressTarget::Ram(_) => QueriedPart::PartAfter(there),
        AddressTarget::Rom(_) => QueriedPart::PartAfter(there),
        AddressTarget::Io => QueriedPart::PartAfter(there),
        AddressTarget::Ports(_) => QueriedPart::PartBefore(address),
        AddressTarget::Bad => QueriedPart::PartBefore(address),
    }
}

// The selected value of a write at what the address in a part names.
fn asked_of_write(address: NodePart, target: AddressTarget) -> QueriedPart
    requires address { IsNodePartInRange address }
    requires target { IsTargetInRange target }
    ensures value { result ≡ queried_write_part address target }
    ensures part { IsNodePartIfAnyQueried result }
{
    match target {
        AddressTarget::Ram(k) => QueriedPart::PartAfter(NodePart::Ram(k)),
        AddressTarget::Rom(_) => QueriedPart::Nothing,
        AddressTarget::Io => QueriedPart::PartAfter(NodePart::Io),
        AddressTarget::Ports(_) => QueriedPart::PartBefore(address),
        AddressTarget::Bad => QueriedPart::PartBefore(address),
    }
}

// The selected value of a step that ran an opcode, by the node before.
fn asked_of_op(op: Op, node: &Node) -> QueriedPart
    ensures value { result ≡ queried_opcode_part op (record_of_node node.now) }
    ensures part { IsNodePartIfAnyQueried result }
{
    match op {
        Op::Return | Op::Execute => QueriedPart::PartAfter(NodePart::P),
        Op::Jump | Op::Call => QueriedPart::PartBefore(NodePart::I),
        Op::Unext | Op::Next => QueriedPart::PartBefore(NodePart::R),
        Op::If | Op::MinusIf => QueriedPart::PartBefore(NodePart::T),
        Op::FetchP => asked_of_read(NodePart::P, NodePart::T, p_target(node)),
        Op::FetchPlus | Op::Fetch => asked_of_read(NodePart::A, NodePart::T, a_target(node)),
        Op::FetchB => asked_of_read(NodePart::B, NodePart::T, b_target(node)),
        Op::StoreP => asked_of_write(NodePart::P, p_target(node)),
        Op::StorePlus | Op::Store => asked_of_write(NodePart::A, a_target(node)),
        Op::StoreB => asked_of_write(NodePart::B, b_target(node)),
        Op::MultiplyStep | Op::TwoStar | Op::TwoSlash | Op::Invert => QueriedPart::PartAfter(
            NodePart::T,
        ),
        Op::Plus | Op::And | Op::Or => QueriedPart::PartAfter(NodePart::T),
        Op::Dup | Op::Pop | Op::Over | Op::A => QueriedPart::PartAfter(NodePart::T),
        Op::Drop | Op::Nop => QueriedPart::Nothing,
        Op::Push => QueriedPart::PartAfter(NodePart::R),
        Op::BStore => QueriedPart::PartAfter(NodePart::B),
        Op::AStore => QueriedPart::PartAfter(NodePart::A),
    }
}

// The selected value of an event of a node's own, by the node before.
fn asked_of_own(before: &Node) -> QueriedPart
    ensures value { result ≡ queried_action_part (next_action_of_node (record_of_node before.now)) (record_of_node before.now) }
    ensures part { IsNodePartIfAnyQueried result }
{
    match next_action_of_running_node(before) {
        NextAction::Fetch => asked_of_read(NodePart::P, NodePart::I, p_target(before)),
        NextAction::Run(op) => asked_of_op(op, before),
    }
}

// The selected value of a step that took a word, by what the node waited for.
fn asked_of_take(wait: Wait) -> QueriedPart
    ensures value { result ≡ node_part_receiving_word wait }
    ensures part { IsNodePartIfAnyQueried result }
{
    match wait {
        Wait::Fetch(_) => QueriedPart::PartAfter(NodePart::I),
        Wait::Read(_) => QueriedPart::PartAfter(NodePart::T),
        Wait::Nothing => QueriedPart::Nothing,
        Wait::Write(_) => QueriedPart::Nothing,
    }
}

// The selected value of an event as made, by the node before.
fn asked_of_told(made: &MadeEvent, before: &Node, node: NodeId) -> QueriedPart
    ensures value { result ≡ queried_event_part made.now (record_of_node before.now) node.number }
    ensures part { IsNodePartIfAnyQueried result }
{
    match made {
        MadeEvent::Own { .. } => asked_of_own(before),
        MadeEvent::Pass { reader, .. } => {
            if node.number == reader.number {
                asked_of_take(before.wait())
            } else {
                QueriedPart::PartBefore(NodePart::T)
            }
        }
    }
}

// The selected value of the step after `place` steps of a node.
fn value_of(node: NodeId, place: u32, asked: QueriedPart) -> Option<PartValue>
    requires fits { place + 1 < 2 ^ 32 }
    requires part { IsNodePartIfAnyQueried asked }
    ensures value { result ≡ queried_part_value node place asked }
    ensures part { IfSome result (λ value. IsNodePartInRange value.part) }
{
    match asked {
        QueriedPart::PartAfter(part) => Some(PartValue {
            node,
            step: place + 1,
            part,
        }),
        QueriedPart::PartBefore(part) => Some(PartValue {
            node,
            step: place,
            part,
        }),
        QueriedPart::Nothing => None,
    }
}

/// The value that a step selects (DB001, opcodes): what it left on a stack, in a cell or in a register; of a word that was sent
/// T before it; of a wait, a stop or a branch what decided it. None if it made no value, as `drop` or `.`, or doesn't exist.
/// Takes time linear in the number of steps that the node made since.
#[tactic(auto, using(crate::proofs::Made::has_step_so))]
pub fn queried_value(lab: &Lab, node: NodeId, step: u32) -> Option<PartValue>
    ensures value { result ≡ queried_value lab.now node step }
    ensures part { IfSome result (λ value. IsNodePartInRange value.part) }
{
    if step == 0 {
        return None;
    }
    let place = step - 1;
    if place >= lab.steps(node) {
        return None;
    }
    let near = lab.walk_node_from_step(node, step);
    queried_value_at_walk(lab, &near, node)
}

/// The value that the step selects to which a node is walked back, as [`queried_value`] has it; the walk stays where it is. Takes
/// the same time whatever the history is.
pub fn queried_value_at_walk(lab: &Lab, walk: &NodeWalk<'_>, node: NodeId) -> Option<PartValue>
    requires { walk.now ≡ node_at_step lab.now node walk.now.step }
    ensures value { result ≡ queried_value lab.now node walk.now.step }
    ensures part { IfSome result (λ value. IsNodePartInRange value.part) }
{
    let step = walk.step();
    if step == 0 {
        return None;
    }
    let place = step - 1;
    let made = lab.made_event_of_step(node, place)?;
    let mut before = walk.copy();
    before.back();
    value_of(node, place, asked_of_told(&made, before.node(), node))
}
