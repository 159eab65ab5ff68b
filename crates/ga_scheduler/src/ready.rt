//! The nodes that have an event, kept so that a node is looked at again only where a wait or a stop around it changed.

ghost use Rattle.std.specs.Prelude.{◌≡◌, ◌<◌, ◌≤◌, ◌↔◌, ℕ, true, false, Some, IfSome, IfNone, IsTrue};
ghost use Rattle.ga_grid.specs.Chip.{records_of_chip};
ghost use Rattle.ga_grid.specs.Grid.{neighbour_number};
ghost use Rattle.ga_scheduler.specs.inner.{is_number_in_set, IsReadinessCorrectInSet, HoldsExactlyReadyNodes, KeepsReadySetRight, IsReadySetRightAround, IsReadySetRefreshed, IsOnlyReadyNode, IsReadySetKnowledgeTrue, is_random_order};
ghost use Rattle.ga_scheduler.specs.Schedules.{next_scheduled_node};
ghost use Rattle.ga_races.specs.Orders.{first_node_from_that_passes_test};
ghost use Rattle.ga_scheduler.specs.Running.{IsQuiescent};

use crate::drawing::{Known, draw_node};
use crate::numbers::NumberSet;
use crate::schedule::Schedule;
use ga_event::next_event;
use ga_grid::{CHIP_NODE_COUNT, Chip, NodeId, neighbour};
use ga_lab::MadeEvent;
use ga_ports::Side;

// Looks whether a node has an event.
#[tactic(auto, using(ga_races::proofs::Ready::can_go_is, crate::proofs::Stepping::looked_kept))]
fn look(ready: &mut NumberSet, chip: &Chip, node: NodeId)
    ensures here { IsReadinessCorrectInSet (records_of_chip chip.now) ready.new node.number }
    ensures kept { KeepsReadySetRight (records_of_chip chip.now) ready.old ready.new }
{
    let is_in = next_event(chip, node).is_ok();
    ready.set_number_membership(node.number, is_in);
}

// Looks at the neighbour on a side, where there is one.
fn look_beside(ready: &mut NumberSet, chip: &Chip, node: NodeId, side: Side)
    ensures beside { (m : ℕ) → neighbour_number node.number side ≡ Some m → IsReadinessCorrectInSet (records_of_chip chip.now) ready.new m }
    ensures kept { KeepsReadySetRight (records_of_chip chip.now) ready.old ready.new }
{
    if let Some(other) = neighbour(node, side) {
        look(ready, chip, other);
    }
}

// Looks at a node and its neighbours.
#[inline(never)]
fn look_around(ready: &mut NumberSet, chip: &Chip, node: NodeId)
    ensures around { IsReadySetRightAround (records_of_chip chip.now) ready.new node.number }
    ensures kept { KeepsReadySetRight (records_of_chip chip.now) ready.old ready.new }
{
    look(ready, chip, node);
    look_beside(ready, chip, node, Side::Right);
    look_beside(ready, chip, node, Side::Down);
    look_beside(ready, chip, node, Side::Left);
    look_beside(ready, chip, node, Side::Up);
}

// The nodes that have an event.
pub(crate) fn ready_nodes(chip: &Chip) -> NumberSet
    ensures { HoldsExactlyReadyNodes (records_of_chip chip.now) result }
{
    let mut ready = NumberSet::none();
    for number in 0..CHIP_NODE_COUNT as u8 {
        look(&mut ready, chip, NodeId::new(number));
    }
    ready
}

/// Whether no node has an event.
pub fn is_quiescent(chip: &Chip) -> bool
    ensures { IsTrue result ↔ IsQuiescent (records_of_chip chip.now) }
{
    for number in 0..CHIP_NODE_COUNT as u8 {
        if next_event(chip, NodeId::new(number)).is_ok() {
            return false;
        }
    }
    true
}

// Looks at what an event that was made may have changed. Then nothing is known of the nodes any more.
#[inline(always)]
#[tactic(auto, using(crate::proofs::Stepping::around_stays))]
pub(crate) fn refresh(ready: &mut NumberSet, known: &mut Known, chip: &Chip, made: &MadeEvent)
    ensures around { IsReadySetRefreshed (records_of_chip chip.now) made.now ready.new }
    ensures kept { KeepsReadySetRight (records_of_chip chip.now) ready.old ready.new }
    ensures known { IsReadySetKnowledgeTrue ready.old known.old → IsReadySetKnowledgeTrue ready.new known.new }
{
    match made {
        MadeEvent::Own { node, .. } => {
            if chip.node(*node).own_event_refusal().is_none() {
                return;
            }
            known.forget_all_known_nodes();
            look_around(ready, chip, *node);
        }
        MadeEvent::Pass { writer, reader, .. } => {
            known.forget_all_known_nodes();
            look_around(ready, chip, *writer);
            look_around(ready, chip, *reader);
        }
    }
}

// The lowest node in the set from this one on.
#[tactic(auto, using(ga_races::proofs::Ready::within))]
pub(crate) fn lowest_number_from(ready: &NumberSet, first: NodeId) -> Option<NodeId>
    requires { (n : ℕ) → 144 ≤ n → n < 192 → is_number_in_set ready.now n ≡ false }
    ensures least { IfSome result (λ node. first.number ≤ node.number) }
    ensures is_in { IfSome result (λ node. is_number_in_set ready.now node.number ≡ true) }
    ensures before { IfSome result (λ node. (m : ℕ) → first.number ≤ m → m < node.number → is_number_in_set ready.now m ≡ false) }
    ensures none { IfNone result ((m : ℕ) → first.number ≤ m → m < 144 → is_number_in_set ready.now m ≡ false) }
{
    match ready.lowest_number_from(first.number) {
        Some(number) => Some(NodeId::new(number)),
        None => None,
    }
}

// The first node in the set, round the chip, where none from the turn on is in it. One that is found right before the turn is alone.
#[inline(never)]
fn first_before(ready: &NumberSet, alone: &mut Option<NodeId>, turn: NodeId) -> Option<NodeId>
    requires past { (n : ℕ) → 144 ≤ n → n < 192 → is_number_in_set ready.now n ≡ false }
    requires alone { IfSome alone.old (IsOnlyReadyNode ready.now) }
    requires ahead { (n : ℕ) → turn.number ≤ n → n < 144 → is_number_in_set ready.now n ≡ false }
    ensures first { result ≡ first_node_from_that_passes_test (is_number_in_set ready.now) turn.number 144 }
    ensures alone { IfSome alone.new (IsOnlyReadyNode ready.now) }
{
    match lowest_number_from(ready, NodeId::new(0)) {
        Some(node) => {
            if node.number + 1 == turn.number {
                *alone = Some(node);
                return Some(node);
            }
            Some(node)
        }
        None => None,
    }
}

// The first node in the set from the turn on, round the chip, where the node with the turn is not in it.
fn first_behind(ready: &NumberSet, alone: &mut Option<NodeId>, turn: NodeId) -> Option<NodeId>
    requires past { (n : ℕ) → 144 ≤ n → n < 192 → is_number_in_set ready.now n ≡ false }
    requires alone { IfSome alone.old (IsOnlyReadyNode ready.now) }
    ensures first { result ≡ first_node_from_that_passes_test (is_number_in_set ready.now) turn.number 144 }
    ensures alone { IfSome alone.new (IsOnlyReadyNode ready.now) }
{
    match lowest_number_from(ready, turn) {
        Some(node) => Some(node),
        None => first_before(ready, alone, turn),
    }
}

// The node, of those in the set, that makes the next event of a schedule; `draws` is whether it draws.
#[inline(always)]
pub(crate) fn next_from(
    ready: &NumberSet,
    known: &mut Known,
    schedule: &Schedule,
    draws: bool,
) -> Option<NodeId>
    requires past { (n : ℕ) → 144 ≤ n → n < 192 → is_number_in_set ready.now n ≡ false }
    requires known { IsReadySetKnowledgeTrue ready.now known.old }
    requires draws { draws ≡ is_random_order schedule.now.order }
    ensures chosen { result ≡ next_scheduled_node schedule.now (is_number_in_set ready.now) }
    ensures known { IsReadySetKnowledgeTrue ready.now known.new }
{
    if draws {
        draw_node(ready, known, schedule.word())
    } else {
        in_turn(ready, &mut known.alone, schedule.turn)
    }
}

// The first node in the set from the turn on, round the chip, where it may be known that one node is alone in the set.
#[inline(always)]
fn in_turn(ready: &NumberSet, alone: &mut Option<NodeId>, turn: NodeId) -> Option<NodeId>
    requires past { (n : ℕ) → 144 ≤ n → n < 192 → is_number_in_set ready.now n ≡ false }
    requires alone { IfSome alone.old (IsOnlyReadyNode ready.now) }
    ensures first { result ≡ first_node_from_that_passes_test (is_number_in_set ready.now) turn.number 144 }
    ensures alone { IfSome alone.new (IsOnlyReadyNode ready.now) }
{
    match *alone {
        Some(node) => Some(node),
        None => {
            if ready.is_number_in_set(turn.number) {
                Some(turn)
            } else {
                first_behind(ready, alone, turn)
            }
        }
    }
}
