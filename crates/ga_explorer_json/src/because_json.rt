//! The steps at which a value decided where a node continued.

ghost use Rattle.std.specs.Prelude.{◌≡◌, ◌<◌, ◌≤◌, ◌+◌, ◌++◌, map};
ghost use Rattle.arrayvec.specs.ArrayVec.{array_vec_len};
ghost use Rattle.ga_event.specs.Told.{count_steps};
ghost use Rattle.ga_lab.specs.Machine.{node_at_step};
ghost use Rattle.ga_text.specs.Output.{WritesExactly};
ghost use Rattle.ga_explorer_text.specs.Whence.{word_of_value, register_a_after_making_step};
ghost use Rattle.ga_json.specs.Compact.{json_line};
ghost use Rattle.ga_json.specs.Fields.{named_field_value, row_json};
ghost use Rattle.ga_explorer_json.specs.Because.{tested_value_provenance_fields, branch_decision_fields, decision_json, decision_rows, decisions_head_fields, decisions_json, decisions_answer_json};

use crate::event::{MAX_ACTION_FIELDS, push_action};
use crate::part::part_word_fields;
use crate::refusal::write_step_refusal;
use crate::row::push_fields;
use crate::source::{SOURCE_FIELDS, source_fields, step_source};
use crate::source_value::{MAX_SOURCE_VALUE_FIELDS, push_source_value};
use crate::whence_json::walk_to;
use ga_debug_info::DebugInfo;
use ga_event::NodePart;
use ga_explorer_text::part_word_after_walk_back;
use ga_grid::NodeId;
use ga_json::{Field, MAX_FIELDS, RowCursor, RowFields, row_fields, write_report};
use ga_lab::{Lab, LabFault, NodeWalk};
use ga_provenance::{BranchDecision, BranchDecisions, PartValue};
use ga_text::{WriteResult, Writer};
use std::io::Write;

/// The most fields of a step that a value decided.
const MAX_DECIDED_STEP_FIELDS: usize = 1 + MAX_ACTION_FIELDS + 3 + SOURCE_FIELDS;

/// `because NNN K [N]`: writes the last steps of a node before one at which a value decided where it continued, the newest
/// first, each with the step that made the value. Allocates nothing.
///
/// # Errors
/// A write failed.
pub fn write_decisions_json<W: Write>(
    lab: &Lab,
    notes: &Option<DebugInfo>,
    node: NodeId,
    step: u32,
    most: u32,
    writer: &mut Writer<'_, W>,
) -> WriteResult
    ensures { WritesExactly result (json_line (decisions_answer_json notes.now lab.now node step most)) W.contents writer.old writer.new }
{
    if lab.has_step((node, step)) {
        write_decisions(lab, notes, node, step, most, writer)
    } else {
        write_step_refusal(b"because", LabFault::NoStep, node, lab.steps(node), writer)
    }
}

/// Writes those before a step that exists.
fn write_decisions<W: Write>(
    lab: &Lab,
    notes: &Option<DebugInfo>,
    node: NodeId,
    step: u32,
    most: u32,
    writer: &mut Writer<'_, W>,
) -> WriteResult
    requires { step ≤ count_steps node.number lab.now.kept }
    ensures { WritesExactly result (json_line (decisions_json notes.now lab.now node step most)) W.contents writer.old writer.new }
{
    let head = decisions_head_fields(node, step);
    let near = lab.walk_node_from_step(node, step);
    let decisions = BranchDecisions::before(lab, &near, node);
    let mut rows = DecisionRows {
        lab,
        notes,
        node,
        near,
        decisions,
        most,
    };
    write_report(&head, &mut rows, writer)
}

/// The decisions that are not written yet, how many of them are to be, and the node, walked back to the one before.
#[derive(Drop)]
struct DecisionRows<'l> {
    lab: &'l Lab,
    notes: &'l Option<DebugInfo>,
    node: NodeId,
    near: NodeWalk<'l>,
    decisions: BranchDecisions<'l>,
    most: u32,
    ghost stands: { near ≡ node_at_step lab.now node near.step },
    ghost same: { decisions ≡ node_at_step lab.now node decisions.step },
}

impl<'l> RowCursor<'l> for DecisionRows<'l> {
    ghost left = { λ rows. decision_rows rows.notes.now rows.lab.now rows.node rows.most rows.decisions.step };

    fn next(&mut self) -> Option<RowFields<'l>> {
        if self.most == 0 {
            return None;
        }
        self.most -= 1;
        match self.decisions.next() {
            Some(decision) => {
                let place = decision.step.min(self.lab.steps(self.node));
                let walk = walk_to(self.lab, &self.near, self.node, self.node, place);
                let row = decision_row(self.lab, self.notes, &walk, self.node, decision);
                self.near = walk;
                Some(row)
            }
            None => None,
        }
    }
}

/// The node and the step.
fn decisions_head_fields(node: NodeId, step: u32) -> [Field<'static>; 3]
    ensures { map named_field_value result ≡ decisions_head_fields node step }
{
    [
        Field::text(b"command", b"because"),
        Field::node(b"node", node),
        Field::number(b"step", u64::from(step)),
    ]
}

/// A step that a value decided, and the step that made the value.
fn decision_row<'l>(
    lab: &'l Lab,
    notes: &'l Option<DebugInfo>,
    walk: &NodeWalk<'l>,
    node: NodeId,
    decision: BranchDecision,
) -> RowFields<'l>
    requires { walk.now ≡ node_at_step lab.now node walk.now.step }
    ensures { row_json result.items ≡ decision_json notes.now lab.now node decision }
{
    let source = decision.source;
    let mut row = decided_step_row(lab, notes, walk, node, decision);
    push_decision_source(&mut row, lab, notes, walk, node, source);
    row
}

/// A step that a value decided: its number, what it did, what it tested, and what the source has for it.
fn decided_step_row<'l>(
    lab: &'l Lab,
    notes: &'l Option<DebugInfo>,
    walk: &NodeWalk<'l>,
    node: NodeId,
    decision: BranchDecision,
) -> RowFields<'l>
    requires { walk.now ≡ node_at_step lab.now node walk.now.step }
    ensures fields { map named_field_value result.items ≡ branch_decision_fields notes.now lab.now node decision }
    ensures len { array_vec_len result ≤ MAX_DECIDED_STEP_FIELDS }
{
    let mut row = row_fields(&[Field::number(b"step", u64::from(decision.step))]);
    push_action(&mut row, decision.made);
    push_fields(
        &mut row,
        &part_word_fields(decision.tested.part, decision.word),
    );
    let source = step_source(lab, notes, walk, node, node, decision.step);
    push_fields(&mut row, &source_fields(source));
    row
}

/// Adds the step that made the value that was tested, with its words. They are read from where a walk is, if that is of the same
/// node and not earlier, else from its newest step.
fn push_decision_source<'l, 'n>(
    row: &mut RowFields<'n>,
    lab: &'l Lab,
    notes: &'n Option<DebugInfo>,
    near: &NodeWalk<'l>,
    at: NodeId,
    source: PartValue,
)
    requires room { array_vec_len row.old + MAX_SOURCE_VALUE_FIELDS ≤ MAX_FIELDS }
    requires near { near.now ≡ node_at_step lab.now at near.now.step }
    ensures { map named_field_value row.new.items ≡ map named_field_value row.old.items
        ++ tested_value_provenance_fields notes.now lab.now source (word_of_value lab.now source) (register_a_after_making_step lab.now source) }
{
    let PartValue { node, step, part } = source;
    let place = step.min(lab.steps(node));
    let walk = walk_to(lab, near, at, node, place);
    let word = part_word_after_walk_back(lab, node, place, &walk, part);
    let a = part_word_after_walk_back(lab, node, place, &walk, NodePart::A);
    push_source_value(row, lab, notes, &walk, source, word, a);
}
