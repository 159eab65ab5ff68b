//! Wait cycles of deadlocked nodes, written line by line.

ghost use Rattle.ga_text.specs.Output.{WritesSomeText};
ghost use Rattle.std.specs.Prelude.{◌≡◌, ◌+◌, [], Some};
ghost use Rattle.ga_grid.specs.Grid.{optional_node_number};
ghost use Rattle.ga_grid.specs.Chip.{records_of_chip};
ghost use Rattle.ga_causal.specs.Dependence.{is_node_flagged};
ghost use Rattle.ga_explorer_text.specs.Waiting.{awaited_neighbour, single_of_four_options, only_awaited_neighbour, wait_cycle_node_names, wait_cycle_line, wait_cycle_text_at_node, wait_cycles_text};

use arrayvec::ArrayVec;
use ga_grid::{Chip, NodeId, neighbour};
use ga_ports::Side;
use ga_races::awaits_side;
use ga_text::{WriteResult, Writer, push_node, push_text};
use std::io::Write;

/// Room for a line: a name after a space for each node, and one more after the last that is followed.
const RING_ROOM: usize = b"ring".len() + 145 * b" 717".len() + b"\n".len();

/// The text of a line.
type RingLine = ArrayVec<u8, RING_ROOM>;

/// Says a line for each ring of marked nodes, each of which awaits the next alone.
pub(crate) fn write_wait_cycles<W: Write>(
    chip: &Chip,
    stuck: &[bool; 144],
    writer: &mut Writer<'_, W>,
) -> WriteResult
    ensures { WritesSomeText result (λ text. text ≡ wait_cycles_text (records_of_chip chip.now) (is_node_flagged stuck.now))
        W.contents writer.old writer.new }
{
    'nodes: for number in 0..144u8 {
        let line = line_of_ring(chip, stuck, NodeId::new(number));
        writer.write_blocks(line.as_slice())?;
    }
    Ok(())
}

/// The line of a ring at its node of the lowest number, where that is marked.
fn line_of_ring(chip: &Chip, stuck: &[bool; 144], node: NodeId) -> RingLine
    ensures { result.items ≡ wait_cycle_text_at_node (records_of_chip chip.now) (is_node_flagged stuck.now) node.number }
{
    if stuck[node.index()] {
        ring_from(chip, node)
    } else {
        ArrayVec::new()
    }
}

/// The line of the wait cycle that leads from a node back to it by nodes of greater numbers; empty if it doesn't.
fn ring_from(chip: &Chip, first: NodeId) -> RingLine
    ensures { result.items ≡ wait_cycle_line first.number (wait_cycle_node_names (records_of_chip chip.now) first.number 144 (only_awaited_neighbour (records_of_chip chip.now) first.number)) }
{
    let mut out = ArrayVec::new();
    push_text(&mut out, b"ring ");
    push_node(&mut out, first);
    let mut next = only_awaited_neighbour(chip, first);
    'ring: for _ in 0..144u8 {
        let Some(node) = next else {
            return ArrayVec::new();
        };
        if node.number == first.number {
            push_text(&mut out, b"\n");
            return out;
        }
        if node.number < first.number {
            return ArrayVec::new();
        }
        push_text(&mut out, b" ");
        push_node(&mut out, node);
        next = only_awaited_neighbour(chip, node);
    }
    ArrayVec::new()
}

/// The neighbour that a node awaits, where it awaits no other.
fn only_awaited_neighbour(chip: &Chip, node: NodeId) -> Option<NodeId>
    ensures { optional_node_number result ≡ only_awaited_neighbour (records_of_chip chip.now) node.number }
{
    let right = awaited_neighbour(chip, node, Side::Right);
    let down = awaited_neighbour(chip, node, Side::Down);
    let left = awaited_neighbour(chip, node, Side::Left);
    let up = awaited_neighbour(chip, node, Side::Up);
    single_of_four_options(right, down, left, up)
}

/// The one that is there of four, where no other is.
fn single_of_four_options(
    right: Option<NodeId>,
    down: Option<NodeId>,
    left: Option<NodeId>,
    up: Option<NodeId>,
) -> Option<NodeId>
    ensures { optional_node_number result ≡ single_of_four_options (optional_node_number right) (optional_node_number down) (optional_node_number left) (optional_node_number up) }
{
    match (right, down, left, up) {
        (Some(node), None, None, None) => Some(node),
        (None, Some(node), None, None) => Some(node),
        (None, None, Some(node), None) => Some(node),
        (None, None, None, Some(node)) => Some(node),
        _ => None,
    }
}

/// The neighbour on a side, where the node awaits it.
pub fn awaited_neighbour(chip: &Chip, node: NodeId, side: Side) -> Option<NodeId>
    ensures { optional_node_number result ≡ awaited_neighbour (records_of_chip chip.now) node.number side }
{
    if awaits_side(&chip.node(node).wait(), side) {
        neighbour(node, side)
    } else {
        None
    }
}
