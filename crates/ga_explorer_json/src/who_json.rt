//! Who waits for whom.

ghost use Rattle.std.specs.Prelude.{◌≡◌, ◌≤◌, ◌+◌, ◌++◌, map, IsTrue};
ghost use Rattle.arrayvec.specs.ArrayVec.{array_vec_len};
ghost use Rattle.ga_grid.specs.Grid.{optional_node_number};
ghost use Rattle.ga_grid.specs.Chip.{records_of_chip};
ghost use Rattle.ga_causal.specs.Dependence.{is_node_flagged};
ghost use Rattle.ga_text.specs.Output.{WritesSomeText, WritesExactly};
ghost use Rattle.ga_json.specs.Names.{is_field_name};
ghost use Rattle.ga_json.specs.Compact.{json_line};
ghost use Rattle.ga_json.specs.FieldValues.{field_value_json};
ghost use Rattle.ga_json.specs.Fields.{named_field_value, row_json};
ghost use Rattle.ga_explorer_text.specs.Waiting.{node_activity_text};
ghost use Rattle.ga_explorer_json.specs.Rows.{IsJsonLine};
ghost use Rattle.ga_explorer_json.specs.Who.{neighbour_json, neighbour_activity_json, awaited_neighbour_fields, node_activity_fields, waiting_node_json, is_node_waiting, has_waiting_node_row, waiting_node_rows, waiting_nodes_head_fields, waiting_nodes_json, IsWaitingNodesJson};

use crate::activity::activity_name;
use crate::row::push_fields;
use ga_explorer_text::{
    awaited_neighbour, count_idle_marked_nodes, count_idle_nodes, find_ended_marked_nodes,
    find_live_nodes,
};
use ga_grid::{Chip, NodeId};
use ga_json::{Field, MAX_FIELDS, RowCursor, RowFields, row_fields, write_report};
use ga_lab::Lab;
use ga_node::Wait;
use ga_ports::Side;
use ga_races::find_deadlocked_nodes;
use ga_scheduler::find_idle_nodes;
use ga_text::{WriteResult, Writer};
use std::io::Write;

/// A flag for each node.
type NodeFlags = [bool; 144];

/// `who`: writes for each node that waits or is deadlocked what it does, of whom it waits for something, and what that one does;
/// and how many nodes are idle, which aren't listed. Allocates nothing.
///
/// # Errors
/// A write failed.
pub fn write_waiting_nodes_json<W: Write>(lab: &Lab, writer: &mut Writer<'_, W>) -> WriteResult
    ensures { WritesSomeText result (IsJsonLine (IsWaitingNodesJson lab.now)) W.contents writer.old writer.new }
{
    let chip = lab.chip();
    let stuck = find_deadlocked_nodes(chip);
    let ended = find_ended_marked_nodes(&stuck, &find_live_nodes(chip));
    let idle = find_idle_nodes(lab);
    write_waiting(chip, &stuck, &ended, &idle, writer)
}

/// Writes how many nodes are idle, and a row for each other that waits or is deadlocked.
fn write_waiting<W: Write>(
    chip: &Chip,
    stuck: &NodeFlags,
    ended: &NodeFlags,
    idle: &NodeFlags,
    writer: &mut Writer<'_, W>,
) -> WriteResult
    ensures { WritesExactly result (json_line (waiting_nodes_json (records_of_chip chip.now) (is_node_flagged stuck.now) (is_node_flagged ended.now) (is_node_flagged idle.now)))
        W.contents writer.old writer.new }
{
    let head = waiting_nodes_head_fields(
        count_idle_nodes(idle),
        count_idle_marked_nodes(stuck, idle),
    );
    let mut rows = WaitRows {
        chip,
        stuck,
        ended,
        idle,
        number: 0,
    };
    write_report(&head, &mut rows, writer)
}

/// The nodes whose rows are not written yet: those from a number on.
#[derive(Drop)]
struct WaitRows<'l> {
    chip: &'l Chip,
    stuck: &'l NodeFlags,
    ended: &'l NodeFlags,
    idle: &'l NodeFlags,
    number: u8,
}

impl<'l> RowCursor<'l> for WaitRows<'l> {
    ghost use Rattle.std.specs.Prelude.{◌-◌};

    ghost left = { λ rows. waiting_node_rows (records_of_chip rows.chip.now) (is_node_flagged rows.stuck.now) (is_node_flagged rows.ended.now) (is_node_flagged rows.idle.now) rows.number (144 - rows.number) };

    fn next(&mut self) -> Option<RowFields<'l>> {
        'seeking: for number in self.number..144u8 {
            let node = NodeId::new(number);
            if has_waiting_node_row(self.chip, self.stuck, self.idle, node) {
                self.number = number + 1;
                let deadlocked = is_flagged(self.stuck, node);
                let ended = is_flagged(self.ended, node);
                return Some(waiting_row(self.chip, deadlocked, ended, node));
            }
        }
        None
    }
}

/// How many nodes are idle, and how many of the deadlocked ones.
fn waiting_nodes_head_fields(idle: u8, deadlocked: u8) -> [Field<'static>; 3]
    ensures { map named_field_value result ≡ waiting_nodes_head_fields idle deadlocked }
{
    [
        Field::text(b"command", b"who"),
        Field::number(b"idle", u64::from(idle)),
        Field::number(b"deadlocked_idle", u64::from(deadlocked)),
    ]
}

/// Whether a node is flagged.
fn is_flagged(flags: &NodeFlags, node: NodeId) -> bool
    ensures { result ≡ is_node_flagged flags.now node.number }
{
    flags[node.index()]
}

/// Whether a node has a row.
fn has_waiting_node_row(chip: &Chip, stuck: &NodeFlags, idle: &NodeFlags, node: NodeId) -> bool
    ensures { result ≡ has_waiting_node_row (records_of_chip chip.now) (is_node_flagged stuck.now) (is_node_flagged idle.now) node.number }
{
    let waits = is_node_waiting(chip.node(node).wait());
    let deadlocked = is_flagged(stuck, node);
    !is_flagged(idle, node) && (waits || deadlocked)
}

/// Whether a node waits.
fn is_node_waiting(wait: Wait) -> bool
    ensures { result ≡ is_node_waiting wait }
{
    match wait {
        Wait::Fetch(_) => true,
        Wait::Read(_) => true,
        Wait::Write(_) => true,
        Wait::Nothing => false,
    }
}

/// A node and what it does, and the same of each neighbour that it awaits.
fn waiting_row<'l>(chip: &Chip, deadlocked: bool, ended: bool, node: NodeId) -> RowFields<'l>
    ensures { row_json result.items ≡ waiting_node_json (records_of_chip chip.now) deadlocked ended node.number }
{
    let mut row = row_fields(&node_activity_fields(chip, deadlocked, ended, node));
    push_awaited(&mut row, chip, node, Side::Right, b"right", b"right_does");
    push_awaited(&mut row, chip, node, Side::Down, b"down", b"down_does");
    push_awaited(&mut row, chip, node, Side::Left, b"left", b"left_does");
    push_awaited(&mut row, chip, node, Side::Up, b"up", b"up_does");
    row
}

/// A node and what it does; whether it is deadlocked, and whether it is and has ended.
fn node_activity_fields(
    chip: &Chip,
    deadlocked: bool,
    ended: bool,
    node: NodeId,
) -> [Field<'static>; 4]
    ensures { map named_field_value result ≡ node_activity_fields (records_of_chip chip.now) deadlocked ended node.number }
{
    [
        Field::node(b"node", node),
        Field::text(b"does", activity_of(chip, node)),
        Field::flag(b"deadlocked", deadlocked),
        Field::flag(b"ended", ended),
    ]
}

/// Adds the neighbour that a node awaits on a side.
fn push_awaited<'l>(
    row: &mut RowFields<'l>,
    chip: &Chip,
    node: NodeId,
    side: Side,
    name: &'static [u8],
    does: &'static [u8],
)
    requires room { array_vec_len row.old + 2 ≤ MAX_FIELDS }
    requires name { IsTrue (is_field_name name.now) }
    requires does { IsTrue (is_field_name does.now) }
    ensures fields { map named_field_value row.new.items ≡ map named_field_value row.old.items ++ awaited_neighbour_fields (records_of_chip chip.now) node.number side name.now does.now }
    ensures len { array_vec_len row.new ≡ array_vec_len row.old + 2 }
{
    let neighbour = awaited_neighbour(chip, node, side);
    push_fields(
        row,
        &[
            neighbour_field(name, neighbour),
            neighbour_activity(does, chip, neighbour),
        ],
    );
}

/// A neighbour, if one is awaited.
fn neighbour_field(name: &'static [u8], neighbour: Option<NodeId>) -> Field<'static>
    requires { IsTrue (is_field_name name.now) }
    ensures name { result.name.now ≡ name.now }
    ensures value { field_value_json result.value ≡ neighbour_json (optional_node_number neighbour) }
{
    match neighbour {
        Some(node) => Field::node(name, node),
        None => Field::absent(name),
    }
}

/// What a neighbour does, if one is awaited.
fn neighbour_activity(name: &'static [u8], chip: &Chip, neighbour: Option<NodeId>) -> Field<'static>
    requires { IsTrue (is_field_name name.now) }
    ensures name { result.name.now ≡ name.now }
    ensures value { field_value_json result.value ≡ neighbour_activity_json (records_of_chip chip.now) (optional_node_number neighbour) }
{
    match neighbour {
        Some(node) => Field::text(name, activity_of(chip, node)),
        None => Field::absent(name),
    }
}

/// What a node does.
fn activity_of(chip: &Chip, node: NodeId) -> &'static [u8]
    ensures { result.now ≡ node_activity_text (records_of_chip chip.now) node.number }
{
    let at = chip.node(node);
    activity_name(at.wait(), at.stop())
}
