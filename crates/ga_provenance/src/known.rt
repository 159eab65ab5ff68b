//! The source of a value that a step leaves, if the entries of the steps determine it.

ghost use Rattle.std.specs.Prelude.{◌≡◌, ◌<◌, ◌≤◌, IfSome};
ghost use Rattle.ga_ports.specs.Address.{IsTargetInRange};
ghost use Rattle.ga_node.specs.Table.{next_action_of_node};
ghost use Rattle.ga_node.specs.State.{wait_of_code};
ghost use Rattle.ga_node.specs.declared.due.NextAction.TheVariants as due;
ghost use Rattle.ga_lab.specs.Machine.{node_at_step};
ghost use Rattle.ga_event.specs.Flow.{IsNodePartInRange, deciding_test_or_target, deciding_target, flow_of_own_event, flow_after_take, flow_of_stored_flow, ComputesNothingFromOutsideWord};
ghost use Rattle.ga_provenance.specs.Origins.{node_after_steps, value_flow_at_step};
ghost use Rattle.ga_provenance.specs.inner.{IsNextActionOfKind, IsTrailNotPastStep};

use crate::later::value_by_later_steps;
use crate::trail::CachedWalk;
use ga_event::{
    DecidingTestOrTarget, MadeEvent, NodePart, ValueFlow, flow_after_send, flow_after_take,
    flow_by_test_or_target,
};
use ga_grid::NodeId;
use ga_lab::Lab;
use ga_node::{NextAction, NodePlace, OwnEventKind, Wait};
use ga_ports::{PortSet, classify_address};
use ga_slots::Op;

// P right before the step at a place, where one of the next few steps wrote P.
pub(crate) fn p_at(lab: &Lab, node: NodeId, place: u32) -> Option<u32>
    ensures { IfSome result (λ p. (node_after_steps lab.now node.number place).p ≡ p) }
{
    value_by_later_steps(lab, node, place, NodePlace::P)
}

// What decides an opcode at a place: P is read from the entries of the next few steps, A and B from the trail.
fn choice_of(
    lab: &Lab,
    trail: &mut CachedWalk<'_>,
    node: NodeId,
    place: u32,
    op: Op,
) -> Option<DecidingTestOrTarget>
    requires trail { IsTrailNotPastStep lab.now node trail.old place }
    ensures value { IfSome result (λ known. known ≡ deciding_test_or_target (due.Run op) (node_after_steps lab.now node.number place)) }
    ensures target { IfSome result (λ known. IsTargetInRange (deciding_target known)) }
    ensures same { trail.new ≡ trail.old }
{
    match op {
        Op::Unext | Op::Next | Op::If | Op::MinusIf => None,
        Op::FetchP | Op::StoreP => Some(DecidingTestOrTarget::TargetChoice(classify_address(p_at(
            lab, node, place,
        )?))),
        Op::Plus => Some(DecidingTestOrTarget::TestResult(p_at(lab, node, place)? / 512 % 2 == 1)),
        Op::FetchPlus | Op::Fetch | Op::StorePlus | Op::Store => {
            let registers = trail.registers(lab, node, place);
            Some(DecidingTestOrTarget::TargetChoice(classify_address(registers.a)))
        }
        Op::FetchB | Op::StoreB => {
            let registers = trail.registers(lab, node, place);
            Some(DecidingTestOrTarget::TargetChoice(classify_address(registers.b)))
        }
        _ => Some(DecidingTestOrTarget::Plain),
    }
}

// What decides the step at a place, before which this came next in its node.
fn choice_at(
    lab: &Lab,
    trail: &mut CachedWalk<'_>,
    node: NodeId,
    place: u32,
    due: NextAction,
) -> Option<DecidingTestOrTarget>
    requires trail { IsTrailNotPastStep lab.now node trail.old place }
    ensures value { IfSome result (λ known. known ≡ deciding_test_or_target due (node_after_steps lab.now node.number place)) }
    ensures target { IfSome result (λ known. IsTargetInRange (deciding_target known)) }
    ensures same { trail.new ≡ trail.old }
{
    match due {
        NextAction::Fetch => Some(DecidingTestOrTarget::TargetChoice(classify_address(p_at(
            lab, node, place,
        )?))),
        NextAction::Run(op) => choice_of(lab, trail, node, place, op),
    }
}

// What an own event leaves in a part, which the step at a place was.
#[tactic(auto, using(crate::proofs::Ran::own_where))]
fn own_flow_at(
    lab: &Lab,
    trail: &mut CachedWalk<'_>,
    node: NodeId,
    place: u32,
    due: NextAction,
    part: NodePart,
) -> Option<ValueFlow>
    requires part { IsNodePartInRange part }
    requires trail { IsTrailNotPastStep lab.now node trail.old place }
    requires due { next_action_of_node (node_after_steps lab.now node.number place) ≡ due }
    ensures value { IfSome result (λ flow. flow_of_stored_flow flow ≡ flow_of_own_event (node_after_steps lab.now node.number place) part) }
    ensures sources { IfSome result (λ flow. ComputesNothingFromOutsideWord (flow_of_stored_flow flow)) }
    ensures same { trail.new ≡ trail.old }
{
    match choice_at(lab, trail, node, place, due) {
        Some(choice) => Some(flow_by_test_or_target(due, choice, part)),
        None => None,
    }
}

// What came next in a node whose event was of this kind.
pub(crate) fn due_by(kind: OwnEventKind) -> Option<NextAction>
    ensures { IfSome result (λ due. IsNextActionOfKind kind due) }
{
    match kind {
        OwnEventKind::Fetch => Some(NextAction::Fetch),
        OwnEventKind::Run(code) => {
            if code < 32 {
                Some(NextAction::Run(Op::from_code(code)))
            } else {
                None
            }
        }
        _ => None,
    }
}

// The wait of a reader, by its number.
fn reading(code: u32) -> Option<Wait>
    ensures { IfSome result (λ wait. wait ≡ wait_of_code code) }
{
    match code {
        17..32 => Some(Wait::Fetch(PortSet::from_bits((code - 16) as u8))),
        33..48 => Some(Wait::Read(PortSet::from_bits((code - 32) as u8))),
        _ => None,
    }
}

// What the reader's half of the pass at a place leaves in a part.
fn taken_flow(lab: &Lab, node: NodeId, place: u32, part: NodePart) -> Option<ValueFlow>
    requires { IsNodePartInRange part }
    ensures value { IfSome result (λ flow. flow_of_stored_flow flow ≡ flow_after_take (node_after_steps lab.now node.number place).wait part) }
    ensures sources { IfSome result (λ flow. ComputesNothingFromOutsideWord (flow_of_stored_flow flow)) }
{
    let wait = reading(lab.overwritten_value(node, place, NodePlace::Wait)?)?;
    Some(flow_after_take(wait, part))
}

/// The source of the value that the step at a place leaves in a part, if the entries determine it.
pub(crate) fn known_flow(
    lab: &Lab,
    trail: &mut CachedWalk<'_>,
    node: NodeId,
    place: u32,
    part: NodePart,
) -> Option<ValueFlow>
    requires part { IsNodePartInRange part }
    requires trail { IsTrailNotPastStep lab.now node trail.old place }
    ensures value { IfSome result (λ flow. flow_of_stored_flow flow ≡ value_flow_at_step lab.now node.number place part) }
    ensures sources { IfSome result (λ flow. ComputesNothingFromOutsideWord (flow_of_stored_flow flow)) }
    ensures same { trail.new ≡ trail.old }
{
    match lab.made_event_of_step(node, place)? {
        MadeEvent::Own { kind, .. } => own_flow_at(lab, trail, node, place, due_by(kind)?, part),
        MadeEvent::Pass { reader, .. } => {
            if node.number == reader.number {
                taken_flow(lab, node, place, part)
            } else {
                Some(flow_after_send(part))
            }
        }
    }
}
