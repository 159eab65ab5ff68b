//! A node gone back by lines of its source.

ghost use Rattle.std.specs.Prelude.{◌≡◌, ◌<◌, ◌≤◌};
ghost use Rattle.ga_event.specs.Told.{count_steps};
ghost use Rattle.ga_lab.specs.Machine.{node_at_step};
ghost use Rattle.ga_dap_breakpoints.specs.inner.Words.{previous_slot_address_over_calls, begins_line_by_cells};
ghost use Rattle.ga_dap_breakpoints.specs.Lines.{executed_op, is_return_op, is_jump_op, previous_step_count_over_calls, line_of_slot_address, slot_starts_line, enters_line, nearest_line_start, state_after_line_rollback};

use crate::back::roll_back_past_steps;
use crate::words::slot_address_of_node_record;
use ga_dap_views::{
    SlotAddress, first_code_word_of_line, is_call_step, slot_address_of_walked_back_node,
    source_line_of_slot, step_pushing_return_entry,
};
use ga_debug_info::DebugInfo;
use ga_grid::NodeId;
use ga_lab::{Lab, MadeEvent, NodeWalk};
use ga_node::OwnEventKind;
use ga_slots::Op;

/// The opcode that the step with this event executed.
fn executed_op(told: &Option<MadeEvent>) -> Option<Op>
    ensures { result ≡ executed_op told.now }
{
    match told {
        Some(
            MadeEvent::Own {
                kind: OwnEventKind::Run(code),
                ..
            },
        ) => Some(Op::from_code(*code % 32)),
        _ => None,
    }
}

fn is_return_op(op: Option<Op>) -> bool
    ensures { result ≡ is_return_op op }
{
    match op {
        Some(Op::Return) => true,
        _ => false,
    }
}

/// Whether an opcode is a jump; `unext` stays in its cell.
fn is_jump_op(op: Option<Op>) -> bool
    ensures { result ≡ is_jump_op op }
{
    match op {
        Some(Op::Return | Op::Execute | Op::Jump | Op::Call) => true,
        Some(Op::Next | Op::If | Op::MinusIf) => true,
        _ => false,
    }
}

/// Of the step at a place, the place before it; if it returned from a call that the node made after its first `began` steps,
/// the place of that call.
fn previous_step_count_over_calls(lab: &Lab, node: NodeId, place: u32, began: u32) -> u32
    requires { place ≤ count_steps node.number lab.now.kept }
    ensures value { result ≡ previous_step_count_over_calls began lab.now node place }
    ensures within { result ≤ place }
{
    if !is_return_op(executed_op(&lab.made_event_of_step(node, place))) {
        return place;
    }
    let call = step_pushing_return_entry(lab, node, place, 0);
    if began < call && is_call_step(lab, node, call) {
        call.saturating_sub(1)
    } else {
        place
    }
}

/// The line of a node at a slot.
fn line_of_slot_address(notes: &DebugInfo, node: NodeId, spot: Option<SlotAddress>) -> Option<u32>
    ensures { result ≡ line_of_slot_address notes.now node spot }
{
    source_line_of_slot(notes, node, spot?)
}

/// Whether a slot is the first of a line.
fn slot_starts_line(notes: &DebugInfo, node: NodeId, line: u32, spot: SlotAddress) -> bool
    ensures { result ≡ slot_starts_line notes.now node line spot }
{
    match first_code_word_of_line(notes, node, line) {
        Some(word) => word.cell == spot.cell && word.first == usize::from(spot.slot),
        None => false,
    }
}

/// Whether a node that is at a slot arrived at a line by this step: from another line, or by a jump to its first slot.
fn enters_line(
    notes: &DebugInfo,
    node: NodeId,
    before: Option<SlotAddress>,
    spot: Option<SlotAddress>,
    op: Option<Op>,
) -> bool
    ensures { result ≡ enters_line notes.now node before spot op (line_of_slot_address notes.now node spot) }
{
    let Some(at) = spot else {
        return false;
    };
    let Some(line) = source_line_of_slot(notes, node, at) else {
        return false;
    };
    match line_of_slot_address(notes, node, before) {
        Some(other) => other != line || is_jump_op(op) && slot_starts_line(notes, node, line, at),
        None => true,
    }
}

/// The slot of a node before its step at a place, by the cell of its word before that step; over the call if the step returned
/// from one that the node made after its first `began` steps. The node is walked back there.
fn previous_slot_address_over_calls(
    lab: &Lab,
    walk: &mut NodeWalk<'_>,
    node: NodeId,
    place: u32,
    began: u32,
    word: Option<u8>,
) -> Option<SlotAddress>
    requires walk { walk.old ≡ node_at_step lab.now node walk.old.step }
    requires order { place ≤ walk.old.step }
    requires within { place ≤ count_steps node.number lab.now.kept }
    ensures { result ≡ previous_slot_address_over_calls began lab.now node place word }
{
    let before = previous_step_count_over_calls(lab, node, place, began);
    if before == place {
        walk.walk_back_to(place);
        slot_address_of_node_record(walk.node(), word)
    } else {
        slot_address_of_walked_back_node(lab, walk, node, before)
    }
}

/// Whether a line of the source begins for a node after its step with this number, by the cells from which its words came
/// before and after the step: it arrived from another line, stepping over the call if it returned from one that it made after
/// its first `began` steps, or by a jump to the first slot of the first word of the line. The time is linear in the length of
/// that call, and otherwise independent of the history.
pub(crate) fn begins_line_by_cells(
    lab: &Lab,
    notes: &DebugInfo,
    node: NodeId,
    step: u32,
    began: u32,
    before: Option<u8>,
    behind: Option<u8>,
) -> bool
    requires { step < count_steps node.number lab.now.kept }
    ensures { result ≡ begins_line_by_cells began notes.now lab.now node step before behind }
{
    // It is less than the node's steps, so that one more can be counted.
    let steps = lab.steps(node);
    prove!(step < steps);
    let mut walk = lab.walk_node_from_step(node, step + 1);
    let spot = slot_address_of_node_record(walk.node(), behind);
    let there = previous_slot_address_over_calls(lab, &mut walk, node, step, began, before);
    let told = lab.made_event_of_step(node, step);
    enters_line(notes, node, there, spot, executed_op(&told))
}

/// The nearest beginning of a line at a place or before it, among at most `most` places.
fn nearest_line_start(lab: &Lab, notes: &DebugInfo, node: NodeId, from: u32, most: u32) -> u32
    requires { from ≤ count_steps node.number lab.now.kept }
    ensures { result ≡ nearest_line_start notes.now lab.now node from most }
{
    let mut walk = lab.walk_node_from_step(node, from);
    let mut spot = slot_address_of_walked_back_node(lab, &mut walk, node, from);
    let mut place = from;
    let mut left = most;
    'going: while left > 0 {
        if place == 0 {
            return 0;
        }
        let before = previous_step_count_over_calls(lab, node, place - 1, 0);
        let there = slot_address_of_walked_back_node(lab, &mut walk, node, before);
        let told = lab.made_event_of_step(node, place - 1);
        let op = executed_op(&told);
        if enters_line(notes, node, there, spot, op) {
            return place;
        }
        place = before;
        spot = there;
        left -= 1;
    }
    0
}

/// `stepBack` by a line (Debug Adapter Protocol, "SteppingGranularity"): rolls a node back to the beginning of its line, or, if
/// it is at the beginning of one, to that of the line before; steps over calls, and removes all dependents. Returns the number
/// of removed events.
pub fn step_back_line(lab: &mut Lab, notes: &DebugInfo, node: NodeId) -> u32
    ensures { lab.new ≡ state_after_line_rollback notes.now lab.old node }
{
    let steps = lab.steps(node);
    if steps == 0 {
        return 0;
    }
    let from = previous_step_count_over_calls(lab, node, steps - 1, 0);
    let keeps = nearest_line_start(lab, notes, node, from, steps);
    roll_back_past_steps(lab, node, keeps)
}
