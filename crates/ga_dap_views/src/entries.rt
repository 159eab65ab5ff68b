//! The entries of a node's return stack, followed back.

ghost use Rattle.std.specs.Prelude.{◌≡◌, ◌<◌, ◌≤◌, map, IfSome};
ghost use Rattle.std.specs.List.{range_with_len};
ghost use Rattle.ga_event.specs.Told.{count_steps};
ghost use Rattle.ga_dap_views.specs.Calls.{step_pushing_return_entry, is_call_step, previous_return_entry_indices};
ghost use Rattle.ga_dap_views.specs.inner.{return_entry_index_before_effect};

use crate::calls::{ReturnStackEffect, return_stack_effect};
use ga_grid::NodeId;
use ga_lab::{Lab, MadeEvent};
use ga_node::OwnEventKind;
use ga_slots::Op;

/// The place of an entry before a step, by its place after it.
fn return_entry_index_before_effect(shift: ReturnStackEffect, place: u8) -> Option<u8>
    requires { place < 9 }
    ensures value { result ≡ return_entry_index_before_effect shift place }
    ensures in_range { IfSome result (λ from. from < 9) }
{
    match shift {
        ReturnStackEffect::Stays => Some(place),
        ReturnStackEffect::Calls => place.checked_sub(1),
        ReturnStackEffect::Pushes => place.checked_sub(1),
        ReturnStackEffect::Pops => if place == 8 { None } else { Some(place + 1) },
        ReturnStackEffect::Replaces => if place == 0 { None } else { Some(place) },
    }
}

/// The place of each entry before a shift; none if it is new, or a copy in the last place.
fn entries_before(shift: ReturnStackEffect) -> [Option<u8>; 9]
    ensures { result ≡ map (return_entry_index_before_effect shift) (range_with_len 0 9) }
{
    [
        return_entry_index_before_effect(shift, 0),
        return_entry_index_before_effect(shift, 1),
        return_entry_index_before_effect(shift, 2),
        return_entry_index_before_effect(shift, 3),
        return_entry_index_before_effect(shift, 4),
        return_entry_index_before_effect(shift, 5),
        return_entry_index_before_effect(shift, 6),
        return_entry_index_before_effect(shift, 7),
        return_entry_index_before_effect(shift, 8),
    ]
}

/// For each place of the return stack, the place that its entry after a node's next step had before it, where the node had made
/// `step` steps; none if the step put it there.
#[tactic(auto, using(crate::proofs::Putting::entries_so))]
pub fn previous_return_entry_indices(lab: &Lab, node: NodeId, step: u32) -> [Option<u8>; 9]
    requires { step ≤ count_steps node.number lab.now.kept }
    ensures { result ≡ previous_return_entry_indices lab.now node step }
{
    let mut walk = lab.walk_node_from_step(node, step);
    entries_before(return_stack_effect(lab, &mut walk, node, step))
}

/// The number of the step that put the entry at a place of the return stack after `step` steps of a node; 0 if it was there at
/// load. Takes time linear in the number of steps that the node made since.
pub fn step_pushing_return_entry(lab: &Lab, node: NodeId, step: u32, behind: u8) -> u32
    requires step { step ≤ count_steps node.number lab.now.kept }
    requires place { behind < 9 }
    ensures value { result ≡ step_pushing_return_entry lab.now node step behind }
    ensures within { result ≤ step }
{
    let mut walk = lab.walk_node_from_step(node, step);
    let mut left = step;
    let mut place = behind;
    'following: while left > 0 {
        let shift = return_stack_effect(lab, &mut walk, node, left - 1);
        match return_entry_index_before_effect(shift, place) {
            Some(from) => place = from,
            None => return left,
        }
        left -= 1;
    }
    0
}

/// Whether the step of a node with this number is a call.
pub fn is_call_step(lab: &Lab, node: NodeId, step: u32) -> bool
    ensures { result ≡ is_call_step lab.now node step }
{
    if step == 0 {
        return false;
    }
    match lab.made_event_of_step(node, step - 1) {
        Some(
            MadeEvent::Own {
                kind: OwnEventKind::Run(code),
                ..
            },
        ) => match Op::from_code(code % 32) {
            Op::Call => true,
            _ => false,
        },
        _ => false,
    }
}
