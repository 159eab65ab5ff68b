//! Deadlocked nodes.

ghost use Rattle.std.specs.Prelude.{◌≡◌, ◌<◌, ℕ, Bool, true, false, length, IfSome, IfNone};
ghost use Rattle.ga_grid.specs.Chip.{records_of_chip};
ghost use Rattle.ga_causal.specs.Dependence.{is_node_flagged};
ghost use Rattle.ga_races.specs.Acts.{AreDeadlocked, awaits_side, IsMarkedSubset};
ghost use Rattle.ga_races.specs.inner.{is_freed_over_side, is_freed, MarksHaltedNodes, HasNoFreedNode};

use ga_event::{is_waiting_to_read, is_waiting_to_write};
use ga_grid::{Chip, NodeId, neighbour};
use ga_node::Wait;
use ga_ports::Side;

/// Whether a node that waits so awaits the neighbour on this side: it writes the side, or reads a set that has it.
pub fn awaits_side(wait: &Wait, side: Side) -> bool
    ensures { result ≡ awaits_side wait.now side }
{
    let writes = is_waiting_to_write(wait, side);
    let reads = is_waiting_to_read(wait, side);
    writes || reads
}

// Whether the node awaits a neighbour on a side that may free it.
fn is_freed_over_side(chip: &Chip, marks: &[bool; 144], node: NodeId, side: Side) -> bool
    ensures { result ≡ is_freed_over_side (records_of_chip chip.now) (is_node_flagged marks.now) node.number side }
{
    let wait = chip.node(node).wait();
    let writes = is_waiting_to_write(&wait, side);
    let reads = is_waiting_to_read(&wait, side);
    if !writes && !reads {
        return false;
    }
    match neighbour(node, side) {
        None => false,
        Some(other) => {
            !marks[other.index()] || (writes && is_waiting_to_read(&chip.node(other).wait(), side))
        }
    }
}

// Whether the node awaits a neighbour that may free it, on any side.
fn is_freed(chip: &Chip, marks: &[bool; 144], node: NodeId) -> bool
    ensures { result ≡ is_freed (records_of_chip chip.now) (is_node_flagged marks.now) node.number }
{
    let right = is_freed_over_side(chip, marks, node, Side::Right);
    let down = is_freed_over_side(chip, marks, node, Side::Down);
    let left = is_freed_over_side(chip, marks, node, Side::Left);
    let up = is_freed_over_side(chip, marks, node, Side::Up);
    right || (down || (left || up))
}

// A marked node that is freed.
fn first_freed(chip: &Chip, marks: &[bool; 144]) -> Option<NodeId>
    ensures marked_nodes { IfSome result (λ node. is_node_flagged marks.now node.number ≡ true) }
    ensures freed { IfSome result (λ node. is_freed (records_of_chip chip.now) (is_node_flagged marks.now) node.number ≡ true) }
    ensures none { IfNone result ((n : ℕ) → n < 144 → is_node_flagged marks.now n ≡ true →
        is_freed (records_of_chip chip.now) (is_node_flagged marks.now) n ≡ false) }
{
    for number in 0..144u8 {
        let node = NodeId::new(number);
        if marks[number as usize] && is_freed(chip, marks, node) {
            return Some(node);
        }
    }
    None
}

// The nodes that wait or are stopped.
fn halted(chip: &Chip) -> [bool; 144]
    ensures marks { MarksHaltedNodes (records_of_chip chip.now) (is_node_flagged result) }
    ensures size { length result ≡ 144 }
{
    let mut marks = [false; 144];
    for number in 0..144u8 {
        marks[number as usize] = chip.node(NodeId::new(number)).own_event_refusal().is_some();
    }
    marks
}

// Takes out the nodes that are freed, one after another.
fn settled(chip: &Chip, mut marks: [bool; 144]) -> [bool; 144]
    requires { length marks ≡ 144 }
    ensures settled { HasNoFreedNode (records_of_chip chip.now) (is_node_flagged result) }
    ensures fewer { IsMarkedSubset (is_node_flagged result) (is_node_flagged marks) }
    ensures greatest { (others : ℕ → Bool) → AreDeadlocked (records_of_chip chip.now) others →
        IsMarkedSubset others (is_node_flagged marks) → IsMarkedSubset others (is_node_flagged result) }
    ensures size { length result ≡ 144 }
{
    'freeing: while let Some(node) = first_freed(chip, &marks) {
        marks[node.index()] = false;
    }
    marks
}

/// The deadlocked nodes, which stay as they are whatever further events are made: a flag for each node. Each waits or is
/// stopped, awaits none but these, and no two of them can transfer a word. There is no greater set of this kind. A node without
/// a flag may wait forever too: for one that runs forever and never answers.
pub fn find_deadlocked_nodes(chip: &Chip) -> [bool; 144]
    ensures stuck { AreDeadlocked (records_of_chip chip.now) (is_node_flagged result) }
    ensures greatest { (marks : ℕ → Bool) → AreDeadlocked (records_of_chip chip.now) marks → IsMarkedSubset marks (is_node_flagged result) }
{
    settled(chip, halted(chip))
}
