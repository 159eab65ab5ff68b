//! Looks and changes of what is shown to them, between which nothing happens.

ghost use Rattle.std.specs.Prelude.{◌≡◌, ◌≢◌, ◌<◌, ◌^◌, ◌↔◌, ◌⊎◌, ◌&&◌, ◌||◌, ◌++◌, ◌∷◌, [], ℕ, true, false, length, Contains, OnOk, IfOk};
ghost use Rattle.ga_grid.specs.Grid.{neighbour_number};
ghost use Rattle.std.specs.List.{list_any};
ghost use Rattle.ga_causal.specs.Dependence.{event_with_look_touches_node, touched_nodes, is_node_flagged};
ghost use Rattle.ga_event.specs.Apply.{equals_optional_number};
ghost use Rattle.ga_races.specs.declared.racing_pairs.RacingPair.{RacingPair};
ghost use Rattle.ga_races.specs.HappensBefore.{trace_action_at, AreRacingActions};
ghost use Rattle.ga_races.specs.Acts.{has_side_towards_node, trace_action_of_event_access, trace_actions_of_accesses, is_node_own_event, is_look_of_node, IsRacingLook};
ghost use Rattle.ga_races.specs.inner.{AddsRacingPairs, IsPairAtPlaces, IsPairWithLookAtPlace, IsPairWithChangeAtPlace, IsPairWithLookOverSide, IsPairWithLookOverSides, IsPairWithLaterAtPlace, AreLookingNodesMarked};

use crate::act::{EventAccess, SideSet};
use ga_causal::NodeSet;
use ga_event::{Event, EventWithLook};
use ga_grid::{NodeId, OutOfMemoryError, neighbour};
use ga_ports::Side;
use reached::{both, is_between, mark_look};
use std::alloc::Global;

mod reached;

/// The places of a look and of a change of what is shown to it, in a list of actions.
#[derive(Clone, Copy, PartialEq, Eq, Debug)]
pub struct RacingPair {
    /// The place of the look in the list of actions.
    pub look: u32,
    /// The place of the change in the list of actions.
    pub change: u32,
}

// The action at a place.
fn act_at(acts: &[EventAccess], place: usize) -> EventAccess
    requires { place < length acts.now }
    ensures { trace_action_of_event_access result ≡ trace_action_at (trace_actions_of_accesses acts.now) place }
{
    acts[place]
}

// Whether two actions of a list touch no common node, are dependent, and nothing happens between them.
fn is_near(acts: &[EventAccess], first: usize, later: usize) -> bool
    requires order { first < later }
    requires within { later < length acts.now }
    ensures { (result ≡ true) ↔ AreRacingActions (trace_actions_of_accesses acts.now) first later }
{
    let act = act_at(acts, first);
    let end = act_at(acts, later);
    if act.shares_node(&end) || !act.keeps_order_with_event(&end) {
        return false;
    }
    !is_between(acts, first, later)
}

// Whether two actions of a list, in any order, touch no common node, are dependent, and nothing happens between them.
fn are_near(acts: &[EventAccess], one: usize, other: usize) -> bool
    requires one { one < length acts.now }
    requires other { other < length acts.now }
    requires apart { one ≢ other }
    ensures { (result ≡ true) ↔ (AreRacingActions (trace_actions_of_accesses acts.now) one other ⊎ AreRacingActions (trace_actions_of_accesses acts.now) other one) }
{
    if one < other {
        is_near(acts, one, other)
    } else {
        is_near(acts, other, one)
    }
}

// Whether the action at a place is a look of the node.
fn is_look_of_node(acts: &[EventAccess], place: usize, node: NodeId) -> bool
    requires { place < length acts.now }
    ensures { result ≡ is_look_of_node (trace_action_at (trace_actions_of_accesses acts.now) place) node.number }
{
    let act = act_at(acts, place);
    match act.cause.event {
        Event::Own(own) => act.cause.look && own.number == node.number,
        Event::Pass { .. } => false,
    }
}

// Whether the action at a place changes what is shown to the node.
fn changes(acts: &[EventAccess], place: usize, node: NodeId) -> bool
    requires { place < length acts.now }
    ensures { result ≡ (trace_action_at (trace_actions_of_accesses acts.now) place).changes node.number }
{
    act_at(acts, place).changes_shown_state(node)
}

// Puts two places at the end of a list.
fn add(list: &mut Vec<RacingPair>, look: usize, change: usize) -> Result<(), OutOfMemoryError>
    requires looks { look < 2 ^ 32 }
    requires changes { change < 2 ^ 32 }
    ensures { OnOk result (list.new.items ≡ list.old.items ++ record { look = look; change = change } ∷ []) }
{
    list.push(RacingPair {
        look: look as u32,
        change: change as u32,
    })?;
    Ok(())
}

// Adds the places of a look of a node and of a change of what is shown to it, where they are near.
fn add_near(
    list: &mut Vec<RacingPair>,
    acts: &[EventAccess],
    look: usize,
    change: usize,
    node: NodeId,
) -> Result<(), OutOfMemoryError>
    requires look { look < length acts.now }
    requires change { change < length acts.now }
    requires apart { look ≢ change }
    requires few { length acts.now < 2 ^ 32 }
    requires looks { is_look_of_node (trace_action_at (trace_actions_of_accesses acts.now) look) node.number ≡ true }
    requires changes { (trace_action_at (trace_actions_of_accesses acts.now) change).changes node.number ≡ true }
    ensures { OnOk result (AddsRacingPairs acts.now (IsPairAtPlaces look change) list.old.items list.new.items) }
{
    if !are_near(acts, look, change) {
        return Ok(());
    }
    add(list, look, change)
}

// Adds the places of a look of a node and of an action before it that changes what is shown to the node, where they are near.
fn add_change(
    list: &mut Vec<RacingPair>,
    acts: &[EventAccess],
    look: usize,
    change: usize,
    node: NodeId,
) -> Result<(), OutOfMemoryError>
    requires order { change < look }
    requires within { look < length acts.now }
    requires few { length acts.now < 2 ^ 32 }
    requires looks { is_look_of_node (trace_action_at (trace_actions_of_accesses acts.now) look) node.number ≡ true }
    ensures { OnOk result (AddsRacingPairs acts.now (IsPairAtPlaces look change) list.old.items list.new.items) }
{
    if !changes(acts, change, node) {
        return Ok(());
    }
    add_near(list, acts, look, change, node)
}

// Adds the changes before an event of the node that are near to it, if that looks. The last look before it was shown what came before
// that.
fn add_changes(
    list: &mut Vec<RacingPair>,
    acts: &[EventAccess],
    look: usize,
    node: NodeId,
) -> Result<(), OutOfMemoryError>
    requires within { look < length acts.now }
    requires few { length acts.now < 2 ^ 32 }
    requires own { is_node_own_event (trace_action_at (trace_actions_of_accesses acts.now) look).cause.event node.number ≡ true }
    ensures { OnOk result (AddsRacingPairs acts.now (IsPairWithLookAtPlace look 0) list.old.items list.new.items) }
{
    if !is_look_of_node(acts, look, node) {
        return Ok(());
    }
    let mut place = look;
    'back: while place > 0 {
        place -= 1;
        add_change(list, acts, look, place, node)?;
        if is_look_of_node(acts, place, node) {
            return Ok(());
        }
    }
    Ok(())
}

// Whether two actions touch a common node, and the first changes what is shown to another.
fn hides(acts: &[EventAccess], place: usize, change: usize, node: NodeId) -> bool
    requires place { place < length acts.now }
    requires change { change < length acts.now }
    ensures { result ≡ ((trace_action_at (trace_actions_of_accesses acts.now) place).changes node.number
        && list_any (event_with_look_touches_node (trace_action_at (trace_actions_of_accesses acts.now) place).cause) (touched_nodes (trace_action_at (trace_actions_of_accesses acts.now) change).cause)) }
{
    let act = act_at(acts, place);
    let end = act_at(acts, change);
    act.changes_shown_state(node) && act.shares_node(&end)
}

// Adds the last look of a node, if it and a change of what is shown to it are a racing pair. No look before an earlier such
// change by the neighbour is in a racing pair with this one.
fn add_look(
    list: &mut Vec<RacingPair>,
    acts: &[EventAccess],
    change: usize,
    node: NodeId,
) -> Result<(), OutOfMemoryError>
    requires within { change < length acts.now }
    requires few { length acts.now < 2 ^ 32 }
    requires changes { (trace_action_at (trace_actions_of_accesses acts.now) change).changes node.number ≡ true }
    ensures { OnOk result (AddsRacingPairs acts.now (IsPairWithChangeAtPlace acts.now change node.number) list.old.items list.new.items) }
{
    let mut place = change;
    'back: while place > 0 {
        place -= 1;
        if is_look_of_node(acts, place, node) {
            return add_near(list, acts, place, change, node);
        }
        if hides(acts, place, change, node) {
            return Ok(());
        }
    }
    Ok(())
}

// Adds the last look of the neighbour on a side, if the side is one of some and the neighbour looked, where it is near to the change.
fn add_look_over(
    list: &mut Vec<RacingPair>,
    acts: &[EventAccess],
    change: usize,
    looked: &NodeSet,
    over: (NodeId, Side, bool),
) -> Result<(), OutOfMemoryError>
    requires within { change < length acts.now }
    requires few { length acts.now < 2 ^ 32 }
    requires looked { AreLookingNodesMarked acts.now change (is_node_flagged looked.now) }
    requires changes { (n : ℕ) → (over.2 && equals_optional_number (neighbour_number over.0.number over.1) n) ≡ true →
        (trace_action_at (trace_actions_of_accesses acts.now) change).changes n ≡ true }
    ensures { OnOk result (AddsRacingPairs acts.now (IsPairWithLookOverSide acts.now change over.0.number over.1 over.2) list.old.items list.new.items) }
{
    let (from, side, has) = over;
    match neighbour(from, side) {
        Some(node) => {
            if !both(has, looked.has(node)) {
                return Ok(());
            }
            add_look(list, acts, change, node)
        }
        None => Ok(()),
    }
}

// Adds the last look of each neighbour on the sides, if it looked at all, where it is near to the change.
#[tactic(auto, using(crate::proofs::Asking::four_sides))]
fn add_looks_beside(
    list: &mut Vec<RacingPair>,
    acts: &[EventAccess],
    change: usize,
    looked: &NodeSet,
    from: (NodeId, SideSet),
) -> Result<(), OutOfMemoryError>
    requires within { change < length acts.now }
    requires few { length acts.now < 2 ^ 32 }
    requires looked { AreLookingNodesMarked acts.now change (is_node_flagged looked.now) }
    requires changes { (n : ℕ) → has_side_towards_node from.1 from.0.number n ≡ true →
        (trace_action_at (trace_actions_of_accesses acts.now) change).changes n ≡ true }
    ensures { OnOk result (AddsRacingPairs acts.now (IsPairWithLookOverSides acts.now change from.0.number from.1) list.old.items list.new.items) }
{
    let (node, sides) = from;
    add_look_over(list, acts, change, looked, (node, Side::Right, sides.right))?;
    add_look_over(list, acts, change, looked, (node, Side::Down, sides.down))?;
    add_look_over(list, acts, change, looked, (node, Side::Left, sides.left))?;
    add_look_over(list, acts, change, looked, (node, Side::Up, sides.up))?;
    Ok(())
}

// Adds the racing pairs of an action with the looks and changes before it.
fn add_at(
    list: &mut Vec<RacingPair>,
    acts: &[EventAccess],
    place: usize,
    looked: &NodeSet,
) -> Result<(), OutOfMemoryError>
    requires within { place < length acts.now }
    requires few { length acts.now < 2 ^ 32 }
    requires looked { AreLookingNodesMarked acts.now place (is_node_flagged looked.now) }
    ensures { OnOk result (AddsRacingPairs acts.now (IsPairWithLaterAtPlace place) list.old.items list.new.items) }
{
    let act = act_at(acts, place);
    match act.cause.event {
        Event::Own(node) => {
            add_changes(list, acts, place, node)?;
            add_looks_beside(list, acts, place, looked, (node, act.first))
        }
        Event::Pass { writer, reader, .. } => {
            add_looks_beside(list, acts, place, looked, (writer, act.first))?;
            add_looks_beside(list, acts, place, looked, (reader, act.second))
        }
    }
}

/// The racing pairs of a list: the looks, with the changes of what is shown to them that keep their order with them only by
/// this (`IsRacingPair`). Each look could come before a change that is before it, or after one that is after it. The pairs are in the
/// order of the later of the two. Takes memory for these, and time linear in the list; and for each node that looks the time of
/// the list once more for each of its sides.
///
/// # Errors
/// `Memory` alone.
pub fn find_racing_pairs(
    alloc: Global,
    acts: &[EventAccess],
) -> Result<Vec<RacingPair>, OutOfMemoryError>
    requires few { length acts.now < 2 ^ 32 }
    ensures exact { IfOk result (λ list. (near : RacingPair) → Contains list.items near ↔ IsRacingLook acts.now near) }
{
    let mut list = Vec::new(alloc);
    let mut looked = NodeSet::none();
    'acts: for place in 0..acts.len() {
        add_at(&mut list, acts, place, &looked)?;
        let act = act_at(acts, place);
        mark_look(&mut looked, &act);
    }
    Ok(list)
}
