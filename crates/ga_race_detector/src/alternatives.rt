//! What a node could have taken in place of the word that it took.

ghost use Rattle.std.specs.Prelude.{◌≡◌, ◌↔◌, ◌+◌, ◌<◌, ◌≤◌, ◌^◌, ℕ, true, false, take, slice_index, Some, Err, IfSome, IfOk, IfErr};
ghost use Rattle.ga_node.specs.Record.{record_of_node};
ghost use Rattle.ga_grid.specs.Chip.{node_record_at};
ghost use Rattle.ga_event.specs.Told.{count_steps};
ghost use Rattle.ga_lab.specs.Machine.{chip_of_machine, machine_events_with_looks, earlier_state, state_after_rewind, rewind_answer, has_step};
ghost use Rattle.ga_grid.specs.Grid.{neighbour_number};
ghost use Rattle.ga_event.specs.Apply.{replay, waits_to_read_side};
ghost use Rattle.ga_causal.specs.Dependence.{events_after_rewind};
ghost use Rattle.ga_causal.specs.Steps.{count_touching_events};
ghost use Rattle.ga_race_detector.specs.Races.{alternative_word, word_offered_over_side};
ghost use Rattle.ga_race_detector.specs.inner.Writers.{posted_word_over_side, word_passed_between};

use ga_event::{is_waiting_to_read, is_waiting_to_write};
use ga_grid::{NodeId, neighbour};
use ga_lab::{Lab, LabFault, MadeEvent};
use ga_node::Node;
use ga_ports::Side;
use ga_rollback::VisitedEntries;

// The node as a rollback would leave it that removes its number of steps in `steps`.
pub(crate) fn behind(lab: &Lab, steps: &VisitedEntries, node: NodeId) -> Node
    requires { slice_index steps.now node.number ≤ count_steps node.number lab.now.kept }
    ensures value { (place : ℕ) → count_steps node.number (take place lab.now.kept) + slice_index steps.now node.number ≡ count_steps node.number lab.now.kept →
        record_of_node result ≡ node_record_at (chip_of_machine (earlier_state lab.now place)) node.number }
    ensures replays { (place : ℕ) → replay lab.now.load (take place lab.now.kept) ≡ Some (chip_of_machine (earlier_state lab.now place)) }
{
    let left = lab.steps(node) - steps.count(node);
    match lab.peek(node, left) {
        Some(then) => then,
        None => lab.node(node).copy(),
    }
}

// The word that the writer waits to give the reader over the side, if that waits for it.
fn word_offered_over_side(reader: &Node, writer: &Node, side: Side) -> Option<u32>
    ensures value { result ≡ word_offered_over_side (record_of_node reader.now) (record_of_node writer.now) side }
    ensures in_range { IfSome result (λ word. word < 2 ^ 18) }
{
    if is_waiting_to_write(&writer.wait(), side) && is_waiting_to_read(&reader.wait(), side) {
        Some(writer.word_of_data_stack(0))
    } else {
        None
    }
}

// The word of a pass from the writer to the reader.
fn word_passed_between(made: &MadeEvent, writer: NodeId, reader: NodeId) -> Option<u32>
    ensures value { result ≡ word_passed_between writer.number reader.number made.now }
    ensures in_range { IfSome result (λ word. word < 2 ^ 18) }
{
    match made {
        MadeEvent::Own { .. } => None,
        MadeEvent::Pass {
            writer: from,
            reader: to,
            word,
            ..
        } => {
            if from.number == writer.number && to.number == reader.number {
                Some(word.get())
            } else {
                None
            }
        }
    }
}

// The word that the node waits to write over the side.
fn posted_now(node: &Node, side: Side) -> Option<u32>
    ensures value { result ≡ posted_word_over_side (record_of_node node.now) side }
    ensures in_range { IfSome result (λ word. word < 2 ^ 18) }
{
    if is_waiting_to_write(&node.wait(), side) {
        Some(node.word_of_data_stack(0))
    } else {
        None
    }
}

// The word that the node waited to write to its neighbour over the side after `steps` of its steps: that of its next step, if
// this transferred one there.
fn posted(lab: &Lab, node: NodeId, steps: u32, side: Side, reader: NodeId) -> Option<u32>
    requires near { neighbour_number reader.number side ≡ Some node.number }
    ensures value { (place : ℕ) → count_steps node.number (take place lab.now.kept) ≡ steps →
        result ≡ posted_word_over_side (node_record_at (chip_of_machine (earlier_state lab.now place)) node.number) side }
    ensures in_range { IfSome result (λ word. word < 2 ^ 18) }
{
    let now = lab.node(node);
    let _many = lab.steps(node);
    match lab.made_event_of_step(node, steps) {
        Some(made) => word_passed_between(&made, node, reader),
        None => posted_now(now, side),
    }
}

/// The word that a rollback of a node's step would leave offered to it over a side, where it would wait for one there, and
/// would leave `writer.1` steps of its neighbour there. Takes no memory, and the same time whatever would be removed.
pub(crate) fn offered_behind(
    lab: &Lab,
    step: (NodeId, u32),
    side: Side,
    writer: (NodeId, u32),
) -> Option<u32>
    requires reads { waits_to_read_side (node_record_at (chip_of_machine (state_after_rewind lab.now step.0.number step.1)) step.0.number).wait side ≡ true }
    requires near { neighbour_number step.0.number side ≡ Some writer.0.number }
    requires left { writer.1 ≡ count_touching_events writer.0.number (events_after_rewind (machine_events_with_looks lab.now) step.0.number step.1) }
    ensures word { result ≡ alternative_word (chip_of_machine (state_after_rewind lab.now step.0.number step.1)) step.0.number side }
    ensures in_range { IfSome result (λ word. word < 2 ^ 18) }
{
    let _stands = lab.node(step.0);
    posted(lab, writer.0, writer.1, side, step.0)
}

/// The word that a rollback of the node's step would leave offered over a side of the node: none if no neighbour there waits to
/// write it, or the node doesn't wait for it. For a step by which the node took a word, the sides thus show what else it could
/// have taken. Nothing is removed. Takes no memory, and time linear in what `rewind` would remove.
///
/// # Errors
/// `NoStep`, where the node has no such step.
pub fn alternative_word(
    lab: &mut Lab,
    node: NodeId,
    step: u32,
    side: Side,
) -> Result<Option<u32>, LabFault>
    ensures word { IfOk result (λ word. word ≡ alternative_word (chip_of_machine (state_after_rewind lab.old node.number step)) node.number side) }
    ensures in_range { IfOk result (λ word. IfSome word (λ it. it < 2 ^ 18)) }
    ensures err { IfErr result (λ why. rewind_answer lab.old node.number step ≡ Err why) }
    ensures refused { (result ≡ Err LabFault.NoStep) ↔ (has_step lab.old node.number step ≡ false) }
    ensures same { lab.new ≡ lab.old }
{
    match lab.forecast_rollback(node, step) {
        Ok(going) => match neighbour(node, side) {
            Some(other) => {
                let reader = behind(lab, &going.steps, node);
                let writer = behind(lab, &going.steps, other);
                Ok(word_offered_over_side(&reader, &writer, side))
            }
            None => Ok(None),
        },
        Err(why) => Err(why),
    }
}
