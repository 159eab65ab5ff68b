//! Who waits for whom, written line by line.

ghost use Rattle.std.specs.Prelude.{◌≡◌, ◌++◌, ◌+◌, ◌≤◌, ◌&&◌, not, if◌then◌else◌, length};
ghost use Rattle.arrayvec.specs.ArrayVec.{array_vec_len};
ghost use Rattle.ga_grid.specs.Grid.{optional_node_number};
ghost use Rattle.ga_grid.specs.Chip.{records_of_chip};
ghost use Rattle.ga_causal.specs.Dependence.{is_node_flagged};
ghost use Rattle.ga_text.specs.Output.{WritesSomeText, WritesExactly};
ghost use Rattle.ga_explorer_text.specs.Waiting.{activity_name, node_activity_text, neighbour_activity_text, awaited_neighbour_text, waiting_node_line, waiting_node_text, waiting_non_idle_node_text, all_waiting_nodes_text, space_and_node_name_if_marked, non_idle_node_names, count_passing_nodes, idle_count_suffix, deadlocked_nodes_line, deadlocked_nodes_text, ended_nodes_line, idle_nodes_line, ended_and_idle_nodes_text};
ghost use Rattle.ga_explorer_text.specs.Telling.{IsWaitingNodesAnswer};

use super::ended::{find_ended_marked_nodes, find_live_nodes};
use super::ring_text::write_wait_cycles;
use arrayvec::ArrayVec;
use ga_grid::{Chip, NodeId, neighbour};
use ga_lab::Lab;
use ga_node::{Node, Wait};
use ga_ports::Side;
use ga_races::{awaits_side, find_deadlocked_nodes};
use ga_scheduler::find_idle_nodes;
use ga_text::{
    MAX_NUMBER_DIGITS, TextBuffer, WriteResult, Writer, push_node, push_number, push_text,
};
use std::io::Write;

/// The most bytes of what a node does.
const DOING_ROOM: usize = b"fetches".len();

/// The bytes of a node's name after a space.
const NAME_ROOM: usize = b" 717".len();

/// The most bytes of a neighbour: a space, the side, its name, a space and what it does.
const BESIDE_ROOM: usize = b" r".len() + NAME_ROOM + 1 + DOING_ROOM;

/// The bytes of all names.
const NAMES_ROOM: usize = 144 * NAME_ROOM;

/// The names of some nodes.
type Names = ArrayVec<u8, NAMES_ROOM>;

/// The most bytes of how many idle nodes there are.
const IDLE_ROOM: usize = b" and ".len() + MAX_NUMBER_DIGITS + b" idle".len();

/// The most bytes of the line of nodes that can never go on.
const STUCK_ROOM: usize = b"stuck".len() + NAMES_ROOM + IDLE_ROOM + b"\n".len();

/// The text of that line.
type StuckLine = ArrayVec<u8, STUCK_ROOM>;

/// The most bytes of the line with the number of idle nodes.
const IDLE_LINE_ROOM: usize = b"idle ".len() + MAX_NUMBER_DIGITS + b"\n".len();

/// The most bytes of the last lines.
const REST_ROOM: usize = b"ended".len() + NAMES_ROOM + b"\n".len() + IDLE_LINE_ROOM;

/// The text of those lines.
type RestLines = ArrayVec<u8, REST_ROOM>;

/// `who`: writes for each waiting node what it waits for, of whom, and what that node does; which nodes are deadlocked, the
/// wait cycles among them, which of them have ended; and how many nodes are idle, which aren't listed. Allocates nothing.
///
/// # Errors
/// A write failed.
pub fn write_waiting_nodes<W: Write>(lab: &Lab, writer: &mut Writer<'_, W>) -> WriteResult
    ensures { WritesSomeText result (IsWaitingNodesAnswer lab.now) W.contents writer.old writer.new }
{
    let chip = lab.chip();
    let stuck = find_deadlocked_nodes(chip);
    let ended = find_ended_marked_nodes(&stuck, &find_live_nodes(chip));
    let idle = find_idle_nodes(lab);
    say_waiting(chip, &idle, writer)?;
    writer.write_blocks(deadlocked_nodes_line(&stuck, &ended, &idle).as_slice())?;
    write_wait_cycles(chip, &stuck, writer)?;
    writer.write_blocks(rest_lines(&ended, &idle).as_slice())
}

/// Says the lines of the nodes that wait and are not idle.
fn say_waiting<W: Write>(chip: &Chip, idle: &[bool; 144], writer: &mut Writer<'_, W>) -> WriteResult
    ensures { WritesSomeText result (λ text. text ≡ all_waiting_nodes_text (records_of_chip chip.now) (is_node_flagged idle.now))
        W.contents writer.old writer.new }
{
    'nodes: for number in 0..144u8 {
        say_node(chip, idle, NodeId::new(number), writer)?;
    }
    Ok(())
}

/// Says the line of a node, where it waits and is not idle.
fn say_node<W: Write>(
    chip: &Chip,
    idle: &[bool; 144],
    node: NodeId,
    writer: &mut Writer<'_, W>,
) -> WriteResult
    ensures { WritesExactly result (waiting_non_idle_node_text (records_of_chip chip.now) (is_node_flagged idle.now) node.number) W.contents writer.old writer.new }
{
    writer.write_blocks(busy_line(chip, idle, node).as_slice())
}

/// The line of a node that waits, where it is not idle.
fn busy_line(chip: &Chip, idle: &[bool; 144], node: NodeId) -> TextBuffer
    ensures { result.items ≡ waiting_non_idle_node_text (records_of_chip chip.now) (is_node_flagged idle.now) node.number }
{
    if idle[node.index()] {
        ArrayVec::new()
    } else {
        waiting_line(chip, node)
    }
}

/// The line of a node that waits: what it does, and of each neighbour that it awaits the side, the name and what that one does.
fn waiting_line(chip: &Chip, node: NodeId) -> TextBuffer
    ensures { result.items ≡ waiting_node_text (records_of_chip chip.now) node.number }
{
    match chip.node(node).wait() {
        Wait::Nothing => ArrayVec::new(),
        Wait::Fetch(_) => awaiting_line(chip, node),
        Wait::Read(_) => awaiting_line(chip, node),
        Wait::Write(_) => awaiting_line(chip, node),
    }
}

fn awaiting_line(chip: &Chip, node: NodeId) -> TextBuffer
    ensures { result.items ≡ waiting_node_line (records_of_chip chip.now) node.number }
{
    let mut out = ArrayVec::new();
    push_node(&mut out, node);
    push_text(&mut out, b" ");
    push_does(&mut out, chip, node);
    push_awaited(&mut out, chip, node, Side::Right, b'r');
    push_awaited(&mut out, chip, node, Side::Down, b'd');
    push_awaited(&mut out, chip, node, Side::Left, b'l');
    push_awaited(&mut out, chip, node, Side::Up, b'u');
    push_text(&mut out, b"\n");
    out
}

/// Adds what a node does.
fn push_does(out: &mut TextBuffer, chip: &Chip, node: NodeId)
    requires { array_vec_len out.old + DOING_ROOM ≤ 256 }
    ensures text { out.new.items ≡ out.old.items ++ node_activity_text (records_of_chip chip.now) node.number }
    ensures len { array_vec_len out.new ≤ array_vec_len out.old + DOING_ROOM }
{
    let at = chip.node(node);
    push_doing(out, at.wait(), at.stop());
}

fn push_doing(out: &mut TextBuffer, wait: Wait, stop: u8)
    requires { array_vec_len out.old + DOING_ROOM ≤ 256 }
    ensures text { out.new.items ≡ out.old.items ++ activity_name wait stop }
    ensures len { array_vec_len out.new ≤ array_vec_len out.old + DOING_ROOM }
{
    match wait {
        Wait::Fetch(_) => push_text(out, b"fetches"),
        Wait::Read(_) => push_text(out, b"reads"),
        Wait::Write(_) => push_text(out, b"writes"),
        Wait::Nothing => push_text(
            out,
            if stop == 0 {
                b"runs".as_slice()
            } else {
                b"stopped".as_slice()
            },
        ),
    }
}

/// Adds the neighbour on a side, where the node awaits it.
fn push_awaited(out: &mut TextBuffer, chip: &Chip, node: NodeId, side: Side, letter: u8)
    requires { array_vec_len out.old + BESIDE_ROOM ≤ 256 }
    ensures text { out.new.items ≡ out.old.items ++ awaited_neighbour_text (records_of_chip chip.now) node.number side letter }
    ensures len { array_vec_len out.new ≤ array_vec_len out.old + BESIDE_ROOM }
{
    if awaits_side(&chip.node(node).wait(), side) {
        push_beside(out, chip, neighbour(node, side), letter);
    }
}

/// Adds a neighbour, where there is one.
fn push_beside(out: &mut TextBuffer, chip: &Chip, beside: Option<NodeId>, letter: u8)
    requires { array_vec_len out.old + BESIDE_ROOM ≤ 256 }
    ensures text { out.new.items ≡ out.old.items ++ neighbour_activity_text (records_of_chip chip.now) (optional_node_number beside) letter }
    ensures len { array_vec_len out.new ≤ array_vec_len out.old + BESIDE_ROOM }
{
    if let Some(other) = beside {
        push_text(out, &[b' ', letter, b' ']);
        push_node(out, other);
        push_text(out, b" ");
        push_does(out, chip, other);
    }
}

/// The line of the deadlocked nodes, where there are any that have not ended.
fn deadlocked_nodes_line(marks: &[bool; 144], ended: &[bool; 144], idle: &[bool; 144]) -> StuckLine
    ensures { result.items ≡ deadlocked_nodes_text (is_node_flagged marks.now) (is_node_flagged ended.now) (is_node_flagged idle.now) }
{
    line_of_names(
        non_idle_node_names(marks, ended).as_slice(),
        count_idle_marked_nodes(marks, idle),
    )
}

/// The line of these names and the number of idle nodes.
fn line_of_names(names: &[u8], idle: u8) -> StuckLine
    requires { length names.now ≤ NAMES_ROOM }
    ensures { result.items ≡ deadlocked_nodes_line names.now idle }
{
    let mut out = ArrayVec::new();
    if !names.is_empty() {
        push_text(&mut out, b"stuck");
        push_text(&mut out, names);
        push_idle(&mut out, idle);
        push_text(&mut out, b"\n");
    }
    out
}

/// Adds how many idle nodes are among those of a line, where some are.
fn push_idle(out: &mut StuckLine, idle: u8)
    requires { array_vec_len out.old + IDLE_ROOM ≤ STUCK_ROOM }
    ensures text { out.new.items ≡ out.old.items ++ idle_count_suffix idle }
    ensures len { array_vec_len out.new ≤ array_vec_len out.old + IDLE_ROOM }
{
    if idle > 0 {
        push_text(out, b" and ");
        push_number(out, u64::from(idle));
        push_text(out, b" idle");
    }
}

/// The names of the marked nodes that are not among the others, each after a space.
fn non_idle_node_names(marks: &[bool; 144], idle: &[bool; 144]) -> Names
    ensures { result.items ≡ non_idle_node_names (is_node_flagged marks.now) (is_node_flagged idle.now) }
{
    let mut out = ArrayVec::new();
    'nodes: for number in 0..144u8 {
        let node = NodeId::new(number);
        push_name_if(&mut out, node, is_busy(marks, idle, node));
    }
    out
}

/// Whether a node is marked and not idle.
fn is_busy(marks: &[bool; 144], idle: &[bool; 144], node: NodeId) -> bool
    ensures { result ≡ (is_node_flagged marks.now node.number && not (is_node_flagged idle.now node.number)) }
{
    marks[node.index()] && !idle[node.index()]
}

/// Adds a node's name after a space, if it is to be named.
fn push_name_if(out: &mut Names, node: NodeId, named: bool)
    requires { array_vec_len out.old + NAME_ROOM ≤ NAMES_ROOM }
    ensures text { out.new.items ≡ out.old.items ++ space_and_node_name_if_marked named node.number }
    ensures len { array_vec_len out.new ≤ array_vec_len out.old + NAME_ROOM }
{
    if named {
        push_text(out, b" ");
        push_node(out, node);
    }
}

/// How many of the marked nodes are idle.
pub fn count_idle_marked_nodes(marks: &[bool; 144], idle: &[bool; 144]) -> u8
    ensures { result ≡ count_passing_nodes (λ n. is_node_flagged marks.now n && is_node_flagged idle.now n) 144 }
{
    let mut count = 0;
    'nodes: for number in 0..144u8 {
        count += one_if(is_both(marks, idle, NodeId::new(number)));
    }
    count
}

/// Whether a node is marked and idle.
fn is_both(marks: &[bool; 144], idle: &[bool; 144], node: NodeId) -> bool
    ensures { result ≡ (is_node_flagged marks.now node.number && is_node_flagged idle.now node.number) }
{
    marks[node.index()] && idle[node.index()]
}

/// How many nodes are idle.
pub fn count_idle_nodes(idle: &[bool; 144]) -> u8
    ensures { result ≡ count_passing_nodes (is_node_flagged idle.now) 144 }
{
    let mut count = 0;
    'nodes: for number in 0..144u8 {
        count += one_if(is_idle(idle, NodeId::new(number)));
    }
    count
}

/// Whether a node is idle.
fn is_idle(idle: &[bool; 144], node: NodeId) -> bool
    ensures { result ≡ is_node_flagged idle.now node.number }
{
    idle[node.index()]
}

/// 1 where this holds, else 0.
fn one_if(holds: bool) -> u8
    ensures one { result ≡ (if holds then 1 else 0) }
    ensures few { result ≤ 1 }
{
    if holds { 1 } else { 0 }
}

/// The last lines: which nodes have ended, and how many are idle.
fn rest_lines(ended: &[bool; 144], idle: &[bool; 144]) -> RestLines
    ensures { result.items ≡ ended_and_idle_nodes_text (is_node_flagged ended.now) (is_node_flagged idle.now) }
{
    rest_of_names(
        non_idle_node_names(ended, idle).as_slice(),
        count_idle_nodes(idle),
    )
}

/// The line of these names, and that of the number of idle nodes.
fn rest_of_names(names: &[u8], idle: u8) -> RestLines
    requires { length names.now ≤ NAMES_ROOM }
    ensures { result.items ≡ ended_nodes_line names.now ++ idle_nodes_line idle }
{
    let mut out = ArrayVec::new();
    if !names.is_empty() {
        push_text(&mut out, b"ended");
        push_text(&mut out, names);
        push_text(&mut out, b"\n");
    }
    push_count(&mut out, idle);
    out
}

/// Adds the line with the number of idle nodes, where there are some.
fn push_count(out: &mut RestLines, idle: u8)
    requires { array_vec_len out.old + IDLE_LINE_ROOM ≤ REST_ROOM }
    ensures { out.new.items ≡ out.old.items ++ idle_nodes_line idle }
{
    if idle > 0 {
        push_text(out, b"idle ");
        push_number(out, u64::from(idle));
        push_text(out, b"\n");
    }
}
