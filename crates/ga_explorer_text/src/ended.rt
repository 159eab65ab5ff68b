//! Nodes that have ended.

ghost use Rattle.std.specs.Prelude.{◌≡◌, ◌<◌, ◌&&◌, not, ℕ, Bool, true, false, length, IfSome, IfNone};
ghost use Rattle.ga_grid.specs.Chip.{records_of_chip};
ghost use Rattle.ga_causal.specs.Dependence.{is_node_flagged};
ghost use Rattle.ga_explorer_text.specs.Ended.{awaits_only_ended_on_side, awaits_neighbour_on_side, awaits_any_neighbour, awaits_only_ended_nodes, has_node_ended, AreEndedNodes, is_not_live_node};

use ga_grid::{Chip, NodeId, neighbour};
use ga_node::Wait;
use ga_ports::Side;
use ga_races::awaits_side;

// Whether a node awaits no neighbour on a side but one that isn't among the live ones.
fn is_ended_on(chip: &Chip, live: &[bool; 144], node: NodeId, side: Side) -> bool
    ensures { result ≡ awaits_only_ended_on_side (records_of_chip chip.now) (is_not_live_node live.now) node.number side }
{
    if !awaits_side(&chip.node(node).wait(), side) {
        return true;
    }
    match neighbour(node, side) {
        Some(other) => !live[other.index()],
        None => true,
    }
}

// Whether a node awaits a neighbour on a side.
fn awaits_neighbour_on_side(chip: &Chip, node: NodeId, side: Side) -> bool
    ensures { result ≡ awaits_neighbour_on_side (records_of_chip chip.now) node.number side }
{
    match neighbour(node, side) {
        Some(_) => awaits_side(&chip.node(node).wait(), side),
        None => false,
    }
}

// Whether a node awaits a neighbour.
fn awaits_any_neighbour(chip: &Chip, node: NodeId) -> bool
    ensures { result ≡ awaits_any_neighbour (records_of_chip chip.now) node.number }
{
    let right = awaits_neighbour_on_side(chip, node, Side::Right);
    let down = awaits_neighbour_on_side(chip, node, Side::Down);
    let left = awaits_neighbour_on_side(chip, node, Side::Left);
    let up = awaits_neighbour_on_side(chip, node, Side::Up);
    right || (down || (left || up))
}

// Whether a node awaits neighbours, and none of the live ones.
fn awaits_only_ended_nodes(chip: &Chip, live: &[bool; 144], node: NodeId) -> bool
    ensures { result ≡ awaits_only_ended_nodes (records_of_chip chip.now) (is_not_live_node live.now) node.number }
{
    let right = is_ended_on(chip, live, node, Side::Right);
    let down = is_ended_on(chip, live, node, Side::Down);
    let left = is_ended_on(chip, live, node, Side::Left);
    let up = is_ended_on(chip, live, node, Side::Up);
    let any = awaits_any_neighbour(chip, node);
    any && (right && (down && (left && up)))
}

// Whether a node has ended if all but the live ones have.
#[tactic(auto, unfolding(crate::specs::Ended::has_node_ended))]
fn has_node_ended(chip: &Chip, live: &[bool; 144], node: NodeId) -> bool
    ensures { result ≡ has_node_ended (records_of_chip chip.now) (is_not_live_node live.now) node.number }
{
    match chip.node(node).wait() {
        Wait::Fetch(_) => true,
        Wait::Read(_) => awaits_only_ended_nodes(chip, live, node),
        Wait::Write(_) => false,
        Wait::Nothing => false,
    }
}

// A live node that has ended if all but the live ones have.
fn first_ended(chip: &Chip, live: &[bool; 144]) -> Option<NodeId>
    ensures live { IfSome result (λ node. is_node_flagged live.now node.number ≡ true) }
    ensures ended { IfSome result (λ node. has_node_ended (records_of_chip chip.now) (is_not_live_node live.now) node.number ≡ true) }
    ensures none { IfNone result ((n : ℕ) → n < 144 → is_node_flagged live.now n ≡ true →
        has_node_ended (records_of_chip chip.now) (is_not_live_node live.now) n ≡ false) }
{
    for number in 0..144u8 {
        let node = NodeId::new(number);
        if live[number as usize] && has_node_ended(chip, live, node) {
            return Some(node);
        }
    }
    None
}

/// The nodes that have not ended: a flag for each node. One that has waits for code, or to read from such nodes alone.
pub fn find_live_nodes(chip: &Chip) -> [bool; 144]
    ensures ended { AreEndedNodes (records_of_chip chip.now) (is_not_live_node result) }
    ensures size { length result ≡ 144 }
{
    let mut live = [true; 144];
    'ending: while let Some(node) = first_ended(chip, &live) {
        live[node.index()] = false;
    }
    live
}

/// The marked nodes that have ended.
pub fn find_ended_marked_nodes(marks: &[bool; 144], live: &[bool; 144]) -> [bool; 144]
    ensures { (n : ℕ) → n < 144 → is_node_flagged result n ≡ (is_node_flagged marks.now n && is_not_live_node live.now n) }
{
    let mut ended = [false; 144];
    'nodes: for number in 0..144u8 {
        ended[number as usize] = is_absent_or_ended(marks, live, NodeId::new(number));
    }
    ended
}

// Whether a marked node has ended.
fn is_absent_or_ended(marks: &[bool; 144], live: &[bool; 144], node: NodeId) -> bool
    ensures { result ≡ (is_node_flagged marks.now node.number && is_not_live_node live.now node.number) }
{
    marks[node.index()] && !live[node.index()]
}
