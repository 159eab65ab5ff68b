//! What a node held after one of its steps, by the entries of its next steps.

ghost use Rattle.std.specs.Prelude.{◌≡◌, ◌<◌, ◌^◌, ℕ, true, slice_index, IfSome};
ghost use Rattle.ga_ports.specs.Address.{IsTargetInRange};
ghost use Rattle.ga_node.specs.Record.{NodeRecord};
ghost use Rattle.ga_node.specs.State.{IsPlaceValueInRange};
ghost use Rattle.ga_node.specs.Table.{next_action_of_node};
ghost use Rattle.ga_event.specs.declared.flow.part.NodePart.TheVariants.{Ram};
ghost use Rattle.ga_event.specs.Flow.{CopiedFromPart, IsNodePartInRange, node_part_value, deciding_test_or_target, deciding_target, flow_of_own_event, flow_of_stored_flow};
ghost use Rattle.ga_lab.specs.Holding.{HoldsPlaceValue};
ghost use Rattle.ga_provenance.specs.Origins.{node_after_steps};

use crate::known::{due_by, p_at};
use ga_event::{DecidingTestOrTarget, MadeEvent, NodePart, ValueFlow, flow_by_test_or_target};
use ga_grid::NodeId;
use ga_lab::Lab;
use ga_node::{NextAction, NodePlace};
use ga_ports::classify_address;
use ga_slots::Op;
use ga_word::Word18;

/// The number of steps that are searched for the old value of a place. Most values are overwritten within a few steps: P by the
/// next fetch, an operand by the opcode that takes it, a cell within a short loop.
const AHEAD: u32 = 64;

/// The value of a place of a node after some of its steps, where one of the next few steps overwrote it.
pub(crate) fn value_by_later_steps(
    lab: &Lab,
    node: NodeId,
    place: u32,
    what: NodePlace,
) -> Option<u32>
    ensures value { IfSome result (λ old. HoldsPlaceValue (node_after_steps lab.now node.number place) what old) }
    ensures in_range { IfSome result (λ old. IsPlaceValueInRange what old) }
{
    let steps = lab.steps(node);
    let mut at = place;
    'looking: while at < steps && at - place < AHEAD {
        if let Some(old) = lab.overwritten_value(node, at, what) {
            return Some(old);
        }
        at += 1;
    }
    None
}

/// The place of a part: none of a word deep in a stack, and of a part that few steps overwrite.
fn place_of_part(part: NodePart) -> Option<NodePlace>
    ensures value { IfSome result (λ what. (node : NodeRecord) (value : ℕ) → HoldsPlaceValue node what value → node_part_value 0 node part ≡ value) }
    ensures fits { IfSome result (λ what. (value : ℕ) → IsPlaceValueInRange what value → value < 2 ^ 18) }
{
    match part {
        NodePart::Data(0) => Some(NodePlace::T),
        NodePart::Data(1) => Some(NodePlace::S),
        NodePart::Return(0) => Some(NodePlace::R),
        NodePart::Ram(cell) => Some(NodePlace::Ram(cell)),
        NodePart::A => Some(NodePlace::A),
        NodePart::B => Some(NodePlace::B),
        NodePart::P => Some(NodePlace::P),
        NodePart::I => Some(NodePlace::I),
        NodePart::Slot => Some(NodePlace::Slot),
        _ => None,
    }
}

/// The register A of a node after some of its steps, where one of the next few steps overwrote it.
fn a_at(lab: &Lab, node: NodeId, place: u32) -> Option<u32>
    ensures { IfSome result (λ a. (node_after_steps lab.now node.number place).a ≡ a) }
{
    value_by_later_steps(lab, node, place, NodePlace::A)
}

/// The register B of a node after some of its steps, where one of the next few steps overwrote it.
fn b_at(lab: &Lab, node: NodeId, place: u32) -> Option<u32>
    ensures { IfSome result (λ b. (node_after_steps lab.now node.number place).b ≡ b) }
{
    value_by_later_steps(lab, node, place, NodePlace::B)
}

/// What the address names at which the step at a place read, before which this came next in its node; none of a step that didn't
/// read, and where no later step is near that overwrote the address.
fn read_choice(lab: &Lab, node: NodeId, place: u32, due: NextAction) -> Option<DecidingTestOrTarget>
    ensures value { IfSome result (λ known. known ≡ deciding_test_or_target due (node_after_steps lab.now node.number place)) }
    ensures target { IfSome result (λ known. IsTargetInRange (deciding_target known)) }
{
    match due {
        NextAction::Fetch | NextAction::Run(Op::FetchP) => Some(DecidingTestOrTarget::TargetChoice(
            classify_address(p_at(lab, node, place)?),
        )),
        NextAction::Run(Op::FetchPlus) | NextAction::Run(Op::Fetch) => Some(
            DecidingTestOrTarget::TargetChoice(classify_address(a_at(lab, node, place)?)),
        ),
        NextAction::Run(Op::FetchB) => Some(DecidingTestOrTarget::TargetChoice(classify_address(
            b_at(lab, node, place)?,
        ))),
        _ => None,
    }
}

/// From where the step at a place, a read, has what it left in a part.
#[tactic(auto, using(crate::proofs::Ran::own_where))]
fn read_flow(
    lab: &Lab,
    node: NodeId,
    place: u32,
    due: NextAction,
    part: NodePart,
) -> Option<ValueFlow>
    requires part { IsNodePartInRange part }
    requires due { next_action_of_node (node_after_steps lab.now node.number place) ≡ due }
    ensures { IfSome result (λ flow. flow_of_stored_flow flow ≡ flow_of_own_event (node_after_steps lab.now node.number place) part) }
{
    match read_choice(lab, node, place, due) {
        Some(choice) => Some(flow_by_test_or_target(due, choice, part)),
        None => None,
    }
}

/// Whether the step at a place read a cell of RAM into a part, before which this came next, as far as the entries of the next few
/// steps say so.
fn has_read_cell(
    lab: &Lab,
    node: NodeId,
    place: u32,
    due: NextAction,
    part: NodePart,
    cell: u8,
) -> bool
    requires part { IsNodePartInRange part }
    requires due { next_action_of_node (node_after_steps lab.now node.number place) ≡ due }
    ensures { result ≡ true → flow_of_own_event (node_after_steps lab.now node.number place) part ≡ CopiedFromPart (Ram cell) }
{
    match read_flow(lab, node, place, due, part) {
        Some(ValueFlow::CopiedFromPart(NodePart::Ram(other))) => other == cell,
        Some(ValueFlow::CopiedFromPart(_)) => false,
        Some(ValueFlow::ComputedFromParts(_)) => false,
        None => false,
    }
}

/// The word in a cell of RAM after some of its node's steps, where the next step read it into T, or as instruction word, and one of
/// the next few steps overwrote that.
fn read_word(lab: &Lab, node: NodeId, place: u32, cell: u8) -> Option<Word18>
    requires { cell < 64 }
    ensures { IfSome result (λ word. word ≡ slice_index (node_after_steps lab.now node.number place).ram cell) }
{
    let steps = lab.steps(node);
    if place >= steps {
        return None;
    }
    let MadeEvent::Own { kind, .. } = lab.made_event_of_step(node, place)? else {
        return None;
    };
    let due = due_by(kind)?;
    let part = match due {
        NextAction::Fetch => NodePart::I,
        NextAction::Run(_) => NodePart::T,
    };
    // These are called only for their contracts: that the chip has all its nodes, and a node all its words.
    lab.chip().node(node);
    lab.walk_node_from_step(node, steps)
        .node()
        .has_valid_list_sizes();
    if has_read_cell(lab, node, place, due, part, cell) {
        let word = overwritten_word(lab, node, place + 1, part)?;
        Some(word)
    } else {
        None
    }
}

/// The word in a part of a node after some of its steps, where one of the next few steps overwrote it.
fn overwritten_word(lab: &Lab, node: NodeId, place: u32, part: NodePart) -> Option<Word18>
    ensures { IfSome result (λ word. word ≡ node_part_value 0 (node_after_steps lab.now node.number place) part) }
{
    let what = place_of_part(part)?;
    let old = value_by_later_steps(lab, node, place, what)?;
    Some(Word18::from_low_bits(old))
}

/// The word in a part of a node after some of its steps, as entries of the next few steps have it, without a walk: one of them
/// overwrote it, or the next step read it from a cell to where one of them overwrote it. None if they don't have it, and for a part
/// deep in a stack. Takes the same time whatever the history is.
pub fn part_word_by_later_steps(
    lab: &Lab,
    node: NodeId,
    place: u32,
    part: NodePart,
) -> Option<Word18>
    ensures { IfSome result (λ word. word ≡ node_part_value 0 (node_after_steps lab.now node.number place) part) }
{
    if let Some(word) = overwritten_word(lab, node, place, part) {
        return Some(word);
    }
    match part {
        NodePart::Ram(cell) => {
            if cell < 64 {
                read_word(lab, node, place, cell)
            } else {
                None
            }
        }
        _ => None,
    }
}
