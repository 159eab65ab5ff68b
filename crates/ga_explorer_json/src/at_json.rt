//! The steps around one, each with the registers after it.

ghost use Rattle.std.specs.Prelude.{◌≡◌, ◌<◌, ◌≤◌, ◌+◌, ◌-◌, ◌++◌, map, option_map};
ghost use Rattle.arrayvec.specs.ArrayVec.{array_vec_len};
ghost use Rattle.ga_node.specs.Record.{record_of_node};
ghost use Rattle.ga_event.specs.Told.{count_steps};
ghost use Rattle.ga_lab.specs.Machine.{node_at_step};
ghost use Rattle.ga_text.specs.Output.{WritesExactly};
ghost use Rattle.ga_json.specs.Compact.{json_line};
ghost use Rattle.ga_json.specs.Fields.{named_field_value, row_json, json_object};
ghost use Rattle.ga_explorer_json.specs.inner.{fields_of_step_source};
ghost use Rattle.ga_explorer_json.specs.Around.{register_fields, step_fields, numbered_step_json, step_json_at, step_rows, steps_around_head_fields, steps_around_json, steps_around_answer_json};

use crate::event::push_action;
use crate::refusal::write_step_refusal;
use crate::row::push_fields;
use crate::source::{StepSource, source_fields, step_source};
use ga_debug_info::DebugInfo;
use ga_grid::NodeId;
use ga_json::{Field, RowCursor, RowFields, row_fields, write_report};
use ga_lab::{Lab, LabFault, MadeEvent, NodeWalk};
use ga_node::{Node, NodePlace};
use ga_text::{WriteResult, Writer};
use std::io::Write;

/// `at NNN K [N]`: writes the steps of a node up to N before and after one. Allocates nothing.
///
/// # Errors
/// A write failed.
pub fn write_steps_around_json<W: Write>(
    lab: &Lab,
    notes: &Option<DebugInfo>,
    node: NodeId,
    step: u32,
    around: u32,
    writer: &mut Writer<'_, W>,
) -> WriteResult
    ensures { WritesExactly result (json_line (steps_around_answer_json notes.now lab.now node step around)) W.contents writer.old writer.new }
{
    if lab.has_step((node, step)) {
        write_steps_around(lab, notes, node, step, around, writer)
    } else {
        write_step_refusal(b"at", LabFault::NoStep, node, lab.steps(node), writer)
    }
}

/// Writes the steps around one that exists.
fn write_steps_around<W: Write>(
    lab: &Lab,
    notes: &Option<DebugInfo>,
    node: NodeId,
    step: u32,
    around: u32,
    writer: &mut Writer<'_, W>,
) -> WriteResult
    requires { 0 < step }
    ensures { WritesExactly result (json_line (steps_around_json notes.now lab.now node step around)) W.contents writer.old writer.new }
{
    let head = steps_around_head_fields(node, step);
    let last = step.saturating_add(around).min(lab.steps(node));
    let mut rows = StepRows {
        lab,
        notes,
        node,
        near: lab.walk_node_from_step(node, last),
        place: (step - 1).saturating_sub(around),
    };
    write_report(&head, &mut rows, writer)
}

/// The steps that are not written yet: those from a place on, up to the step to which the node is walked back.
#[derive(Drop)]
struct StepRows<'l> {
    lab: &'l Lab,
    notes: &'l Option<DebugInfo>,
    node: NodeId,
    near: NodeWalk<'l>,
    place: u32,
    ghost stands: { near ≡ node_at_step lab.now node near.step },
}

impl<'l> RowCursor<'l> for StepRows<'l> {
    ghost use Rattle.std.specs.Prelude.{◌-◌};

    ghost left = { λ rows. step_rows rows.notes.now rows.lab.now rows.node rows.place (rows.near.step - rows.place) };

    fn next(&mut self) -> Option<RowFields<'l>> {
        let place = self.place;
        if place >= self.near.step() {
            return None;
        }
        let mut there = self.near.copy();
        there.walk_back_to(place + 1);
        self.place = place + 1;
        row_of_walk(self.lab, self.notes, self.node, place + 1, &there)
    }
}

/// A step of a node, which is walked back to it.
fn row_of_walk<'l>(
    lab: &'l Lab,
    notes: &'l Option<DebugInfo>,
    node: NodeId,
    step: u32,
    there: &NodeWalk<'l>,
) -> Option<RowFields<'l>>
    requires some { 0 < step }
    requires within { step ≤ count_steps node.number lab.now.kept }
    requires walk { there.now ≡ node_at_step lab.now node step }
    ensures { option_map (λ row. row_json row.items) result ≡ step_json_at notes.now lab.now node step }
{
    match lab.made_event_of_step(node, step - 1) {
        Some(made) => {
            let source = step_source(lab, notes, there, node, node, step);
            Some(step_row(step, made, there.node(), source))
        }
        None => None,
    }
}

/// A step: its number, what it did, the registers after it, and what the source has for it.
fn step_row<'l>(step: u32, made: MadeEvent, after: &Node, source: StepSource<'l>) -> RowFields<'l>
    ensures { row_json result.items ≡ json_object (step_fields step (record_of_node after.now) made ++ fields_of_step_source source.entry) }
{
    let mut row = row_fields(&[Field::number(b"step", u64::from(step))]);
    push_action(&mut row, made);
    push_fields(&mut row, &register_fields(after));
    push_fields(&mut row, &source_fields(source));
    row
}

/// T, S, R, A, B and P.
#[tactic(auto, unfolding(ga_node::specs::Record::record_of_node))]
fn register_fields(node: &Node) -> [Field<'static>; 6]
    ensures { map named_field_value result ≡ register_fields (record_of_node node.now) }
{
    [
        Field::number(b"t", u64::from(node.word_of_data_stack(0))),
        Field::number(b"s", u64::from(node.word_of_data_stack(1))),
        Field::number(b"r", u64::from(node.word_of_return_stack(0))),
        Field::number(b"a", u64::from(node.get(NodePlace::A))),
        Field::number(b"b", u64::from(node.get(NodePlace::B))),
        Field::number(b"p", u64::from(node.get(NodePlace::P))),
    ]
}

/// The node and the step.
fn steps_around_head_fields(node: NodeId, step: u32) -> [Field<'static>; 3]
    ensures { map named_field_value result ≡ steps_around_head_fields node step }
{
    [
        Field::text(b"command", b"at"),
        Field::node(b"node", node),
        Field::number(b"step", u64::from(step)),
    ]
}
