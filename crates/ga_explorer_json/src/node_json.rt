//! The state of a node.

ghost use Rattle.std.specs.Prelude.{◌≡◌, ◌<◌, map};
ghost use Rattle.ga_node.specs.Record.{record_of_node};
ghost use Rattle.ga_text.specs.Output.{WritesExactly};
ghost use Rattle.ga_json.specs.Compact.{json_line};
ghost use Rattle.ga_json.specs.Fields.{named_field_value, row_json};
ghost use Rattle.ga_explorer_json.specs.NodeState.{node_status_fields, node_register_fields, node_fields, stack_word_json, stack_rows, node_record_json, node_json};

use crate::activity::activity_name;
use crate::part::{json_number_unless_zero, part_word_fields};
use crate::row::push_fields;
use ga_event::NodePart;
use ga_grid::NodeId;
use ga_json::{Field, RowCursor, RowFields, row_fields, write_report};
use ga_lab::Lab;
use ga_node::{Node, NodePlace};
use ga_ports::Side;
use ga_races::awaits_side;
use ga_text::{WriteResult, Writer};
use ga_word::Word18;
use std::io::Write;

/// How many words the two stacks have.
const STACK_WORDS: u8 = 19;

/// `node NNN`: writes the node: what it does, its registers, and the words of its stacks. Allocates nothing.
///
/// # Errors
/// A write failed.
pub fn write_node_json<W: Write>(lab: &Lab, node: NodeId, writer: &mut Writer<'_, W>) -> WriteResult
    ensures { WritesExactly result (json_line (node_json lab.now node)) W.contents writer.old writer.new }
{
    write_node_record(node, lab.node(node), writer)
}

/// Writes a node.
fn write_node_record<W: Write>(node: NodeId, at: &Node, writer: &mut Writer<'_, W>) -> WriteResult
    ensures { WritesExactly result (json_line (node_record_json node (record_of_node at.now))) W.contents writer.old writer.new }
{
    let head = node_row(node, at);
    let mut rows = StackRows { node: at, place: 0 };
    write_report(head.as_slice(), &mut rows, writer)
}

/// The words of the stacks that are not written yet.
#[derive(Drop)]
struct StackRows<'l> {
    node: &'l Node,
    place: u8,
}

impl<'l> RowCursor<'l> for StackRows<'l> {
    ghost use Rattle.std.specs.Prelude.{◌-◌};

    ghost left = { λ rows. stack_rows (record_of_node rows.node.now) rows.place (19 - rows.place) };

    fn next(&mut self) -> Option<RowFields<'l>> {
        let place = self.place;
        if place >= STACK_WORDS {
            return None;
        }
        self.place = place + 1;
        Some(stack_row(self.node, place))
    }
}

/// A word of the stacks.
fn stack_row<'l>(node: &Node, place: u8) -> RowFields<'l>
    requires { place < STACK_WORDS }
    ensures { row_json result.items ≡ stack_word_json (record_of_node node.now) place }
{
    if place < 10 {
        let word = Word18::from_low_bits(node.word_of_data_stack(place));
        row_fields(&part_word_fields(NodePart::Data(place), word))
    } else {
        let place = place - 10;
        let word = Word18::from_low_bits(node.word_of_return_stack(place));
        row_fields(&part_word_fields(NodePart::Return(place), word))
    }
}

/// A node, what it does, and its registers.
fn node_row(node: NodeId, at: &Node) -> RowFields<'static>
    ensures { map named_field_value result.items ≡ node_fields node (record_of_node at.now) }
{
    let mut row = row_fields(&[Field::text(b"command", b"node"), Field::node(b"node", node)]);
    push_fields(&mut row, &node_status_fields(at));
    push_fields(&mut row, &node_register_fields(at));
    row
}

/// What a node does: on which sides it waits, and its stop.
fn node_status_fields(node: &Node) -> [Field<'static>; 6]
    ensures { map named_field_value result ≡ node_status_fields (record_of_node node.now) }
{
    let wait = node.wait();
    let stop = node.stop();
    [
        Field::text(b"does", activity_name(wait, stop)),
        Field::flag(b"at_right", awaits_side(&wait, Side::Right)),
        Field::flag(b"at_down", awaits_side(&wait, Side::Down)),
        Field::flag(b"at_left", awaits_side(&wait, Side::Left)),
        Field::flag(b"at_up", awaits_side(&wait, Side::Up)),
        json_number_unless_zero(b"stop", u32::from(stop)),
    ]
}

/// The registers of a node.
#[tactic(auto, unfolding(ga_node::specs::Record::record_of_node))]
fn node_register_fields(node: &Node) -> [Field<'static>; 7]
    ensures { map named_field_value result ≡ node_register_fields (record_of_node node.now) }
{
    [
        Field::number(b"p", u64::from(node.get(NodePlace::P))),
        Field::number(b"a", u64::from(node.get(NodePlace::A))),
        Field::number(b"b", u64::from(node.get(NodePlace::B))),
        Field::number(b"i", u64::from(node.get(NodePlace::I))),
        Field::number(b"slot", u64::from(node.get(NodePlace::Slot))),
        Field::number(b"carry", u64::from(node.get(NodePlace::Carry))),
        Field::number(b"io", u64::from(node.get(NodePlace::Io))),
    ]
}
