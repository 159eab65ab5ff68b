//! The steps whose values went into a value.

ghost use Rattle.std.specs.Prelude.{◌≡◌, ◌≤◌, ◌<◌, ◌+◌, ◌++◌, ◌^◌, length, map, IfSome};
ghost use Rattle.arrayvec.specs.ArrayVec.{array_vec_len};
ghost use Rattle.ga_event.specs.Told.{count_steps};
ghost use Rattle.ga_event.specs.Flow.{IsNodePartInRange};
ghost use Rattle.ga_lab.specs.Machine.{node_at_step};
ghost use Rattle.ga_text.specs.Output.{WritesSomeText, WritesExactly};
ghost use Rattle.ga_json.specs.Compact.{json_line};
ghost use Rattle.ga_json.specs.Fields.{named_field_value, row_json};
ghost use Rattle.ga_explorer_text.specs.Whence.{word_of_value, register_a_after_making_step, last_written_line_number};
ghost use Rattle.ga_explorer_json.specs.Rows.{IsJsonLine};
ghost use Rattle.ga_explorer_json.specs.Parts.{part_word_fields};
ghost use Rattle.ga_explorer_json.specs.Whence.{null_part_word_fields, step_action_fields, value_origin_fields, register_a_if_made_by_multiply_step, register_a_if_made_by_own_event, register_a_made_with_value, provenance_line_value_fields, provenance_line_json, provenance_line_rows, provenance_head_fields, next_provenance_line_number, provenance_lines_json, no_provenance_lines_json, IsQueriedValueJson, IsProvenanceJson};

use crate::event::{MAX_ACTION_FIELDS, push_action};
use crate::part::{json_number_unless_zero, optional_number, part_word_fields};
use crate::refusal::{write_lab_refusal, write_step_refusal};
use crate::row::{NoRows, push_fields};
use crate::source::{is_value_never_set, source_fields, step_source, value_source};
use ga_debug_info::DebugInfo;
use ga_event::NodePart;
use ga_explorer_text::{
    last_written_line_number, named_or_selected_part_value, part_word_after_walk_back,
    skip_provenance_lines,
};
use ga_grid::NodeId;
use ga_json::{Field, MAX_FIELDS, RowCursor, RowFields, row_fields, write_report};
use ga_lab::{Lab, LabFault, MadeEvent, NodeWalk};
use ga_node::OwnEventKind;
use ga_provenance::{PartValue, ProvenanceLine, find_provenance_lines_at};
use ga_text::{WriteResult, Writer};
use ga_word::Word18;
use std::alloc::Global;
use std::io::Write;

/// The code of `+*`.
const MULTIPLY_STEP: u8 = 16;

/// The query: a step of a node, and the first line that is written; and what the source says of the chip.
#[derive(Clone, Copy)]
struct LinesQuery<'n> {
    notes: &'n Option<DebugInfo>,
    node: NodeId,
    step: u32,
    first: u32,
}

/// `whence NNN K [VALUE] [from L]`: writes the steps whose values went into what a step made, or into the value of a part after
/// it, the nearest first, from line `first` on. Takes memory for the list of these lines.
///
/// # Errors
/// A write failed.
pub fn write_provenance_json<W: Write>(
    alloc: Global,
    lab: &Lab,
    notes: &Option<DebugInfo>,
    node: NodeId,
    step: u32,
    part: Option<NodePart>,
    first: u32,
    writer: &mut Writer<'_, W>,
) -> WriteResult
    requires { IfSome part IsNodePartInRange }
    ensures { WritesSomeText result (IsJsonLine (IsProvenanceJson notes.now lab.now node step part first)) W.contents writer.old writer.new }
{
    if !lab.has_step((node, step)) {
        let count = lab.steps(node);
        return write_step_refusal(b"whence", LabFault::NoStep, node, count, writer);
    }
    let near = lab.walk_node_from_step(node, step);
    let query = LinesQuery {
        notes,
        node,
        step,
        first,
    };
    match named_or_selected_part_value(lab, &near, node, part) {
        Some(value) => write_lines(alloc, lab, near, query, value, writer),
        None => write_no_lines(lab, &near, query, writer),
    }
}

/// Writes the lines of a value that is queried for the step to which its node is walked back.
fn write_lines<'l, W: Write>(
    alloc: Global,
    lab: &'l Lab,
    near: NodeWalk<'l>,
    query: LinesQuery<'_>,
    value: PartValue,
    writer: &mut Writer<'_, W>,
) -> WriteResult
    requires part { IsNodePartInRange value.part }
    requires near { near ≡ node_at_step lab.now query.node near.step }
    ensures { WritesSomeText result (IsJsonLine (IsQueriedValueJson query.entry.notes.now lab.now query.entry.node query.entry.step query.entry.first (Some value))) W.contents writer.old writer.new }
{
    let most = last_written_line_number(query.first);
    match find_provenance_lines_at(alloc, lab, &near, query.node, value, most) {
        Ok(found) => {
            let lines = found.lines.as_slice();
            write_listed_lines(lab, near, query, value, lines, found.is_whole, writer)
        }
        Err(_) => write_lab_refusal(b"whence", LabFault::Memory, writer),
    }
}

/// Writes those of some lines that are from one on.
fn write_listed_lines<'l, W: Write>(
    lab: &'l Lab,
    near: NodeWalk<'l>,
    query: LinesQuery<'_>,
    value: PartValue,
    lines: &[ProvenanceLine],
    is_whole: bool,
    writer: &mut Writer<'_, W>,
) -> WriteResult
    requires near { near ≡ node_at_step lab.now query.node near.step }
    requires most { length lines.now ≤ last_written_line_number query.first }
    ensures { WritesExactly result (json_line (provenance_lines_json query.entry.notes.now lab.now query.entry.node query.entry.step query.entry.first value lines.now is_whole)) W.contents writer.old writer.new }
{
    let word = word_of_value(lab, &near, query.node, value);
    let more = next_provenance_line_number(lines.len() as u64, is_whole);
    let head = query_row(lab, &near, query, &part_word_fields(value.part, word), more);
    let skipped = query.first.saturating_sub(1);
    let mut rows = LineRows {
        lab,
        notes: query.notes,
        near,
        at: query.node,
        number: skipped,
        rest: skip_provenance_lines(lines, skipped),
    };
    write_report(head.as_slice(), &mut rows, writer)
}

/// Writes the answer for a step that selects no value.
fn write_no_lines<'l, W: Write>(
    lab: &'l Lab,
    near: &NodeWalk<'l>,
    query: LinesQuery<'_>,
    writer: &mut Writer<'_, W>,
) -> WriteResult
    requires { near.now ≡ node_at_step lab.now query.node near.now.step }
    ensures { WritesExactly result (json_line (no_provenance_lines_json query.entry.notes.now lab.now query.entry.node query.entry.step query.entry.first)) W.contents writer.old writer.new }
{
    let head = query_row(lab, near, query, &null_part_word_fields(), None);
    write_report(head.as_slice(), &mut NoRows, writer)
}

/// The lines that are not written yet, how many come before, and a node that is walked back to a step of a line before.
#[derive(Drop)]
struct LineRows<'l, 'r> {
    lab: &'l Lab,
    notes: &'r Option<DebugInfo>,
    near: NodeWalk<'l>,
    at: NodeId,
    number: u32,
    rest: &'r [ProvenanceLine],
    ghost stands: { near ≡ node_at_step lab.now at near.step },
    ghost fits: { number + length rest.now < 2 ^ 32 },
}

impl<'l, 'r> RowCursor<'r> for LineRows<'l, 'r> {
    ghost left = { λ rows. provenance_line_rows rows.notes.now rows.lab.now rows.number rows.rest.now };

    fn next(&mut self) -> Option<RowFields<'r>> {
        match self.rest.split_first() {
            Some((line, rest)) => {
                let line = *line;
                let PartValue { node, step, part } = line.value;
                let place = step.min(self.lab.steps(node));
                let walk = walk_to(self.lab, &self.near, self.at, node, place);
                let word = part_word_after_walk_back(self.lab, node, place, &walk, part);
                let a = part_word_after_walk_back(self.lab, node, place, &walk, NodePart::A);
                let row = line_row(self.lab, self.notes, &walk, self.number + 1, line, word, a);
                self.near = walk;
                self.at = node;
                self.number += 1;
                self.rest = rest;
                Some(row)
            }
            None => None,
        }
    }
}

/// A node that is walked back to a step: from where a walk is, if that is of the same node and not earlier, else from its newest
/// step.
pub(crate) fn walk_to<'l>(
    lab: &'l Lab,
    near: &NodeWalk<'l>,
    at: NodeId,
    node: NodeId,
    step: u32,
) -> NodeWalk<'l>
    requires near { near.now ≡ node_at_step lab.now at near.now.step }
    requires within { step ≤ count_steps node.number lab.now.kept }
    ensures { result ≡ node_at_step lab.now node step }
{
    if at == node && step <= near.step() {
        let mut walk = near.copy();
        walk.walk_back_to(step);
        walk
    } else {
        lab.walk_node_from_step(node, step)
    }
}

/// The word of a value, read from where a walk is, if that is of the same node and not earlier.
pub(crate) fn word_of_value<'l>(
    lab: &'l Lab,
    near: &NodeWalk<'l>,
    at: NodeId,
    value: PartValue,
) -> Word18
    requires { near.now ≡ node_at_step lab.now at near.now.step }
    ensures { result ≡ word_of_value lab.now value }
{
    let PartValue { node, step, part } = value;
    let place = step.min(lab.steps(node));
    let walk = walk_to(lab, near, at, node, place);
    part_word_after_walk_back(lab, node, place, &walk, part)
}

/// The line from which to continue after `lines` lines.
fn next_provenance_line_number(lines: u64, is_whole: bool) -> Option<u64>
    requires { lines < 2 ^ 32 }
    ensures { result ≡ next_provenance_line_number lines is_whole }
{
    if is_whole { None } else { Some(lines + 1) }
}

/// The query with what its step did, the queried value, from which line to go on, and what the source has for the step.
fn query_row<'l, 'n>(
    lab: &'l Lab,
    near: &NodeWalk<'l>,
    query: LinesQuery<'n>,
    queried: &[Field<'n>; 3],
    more: Option<u64>,
) -> RowFields<'n>
    requires { near.now ≡ node_at_step lab.now query.node near.now.step }
    ensures { map named_field_value result.items ≡ provenance_head_fields query.entry.notes.now lab.now query.entry.node query.entry.step query.entry.first (map named_field_value queried.now) more }
{
    let LinesQuery {
        notes,
        node,
        step,
        first,
    } = query;
    let mut row = row_fields(&[
        Field::text(b"command", b"whence"),
        Field::node(b"node", node),
        Field::number(b"step", u64::from(step)),
    ]);
    push_step_action(&mut row, lab, node, step);
    push_fields(
        &mut row,
        &[
            Field::number(b"first", u64::from(first)),
            optional_number(b"more_from", more),
        ],
    );
    push_fields(&mut row, queried);
    let source = step_source(lab, notes, near, node, node, step);
    push_fields(&mut row, &source_fields(source));
    row
}

/// No part.
fn null_part_word_fields() -> [Field<'static>; 3]
    ensures { map named_field_value result ≡ null_part_word_fields }
{
    [
        Field::absent(b"part"),
        Field::absent(b"index"),
        Field::absent(b"value"),
    ]
}

/// A line with the words of its value, how many values its run has, whether nobody set it, and what the source has for it.
fn line_row<'l, 'r>(
    lab: &'l Lab,
    notes: &'r Option<DebugInfo>,
    walk: &NodeWalk<'l>,
    number: u32,
    line: ProvenanceLine,
    word: Word18,
    a: Word18,
) -> RowFields<'r>
    requires { walk.now ≡ node_at_step lab.now line.value.node walk.now.step }
    ensures { row_json result.items ≡ provenance_line_json notes.now lab.now number line word a }
{
    let value = line.value;
    let mut row = row_fields(&[
        Field::number(b"number", u64::from(number)),
        Field::number(b"user", u64::from(line.user)),
        Field::node(b"node", value.node),
        json_number_unless_zero(b"step", value.step),
    ]);
    push_made(&mut row, lab, value);
    push_fields(&mut row, &part_word_fields(value.part, word));
    push_fields(
        &mut row,
        &[
            optional_number(b"a", register_a_made_with_value(lab, value, a)),
            Field::number(b"count", u64::from(line.count)),
            Field::flag(b"never_set", is_value_never_set(notes, value)),
        ],
    );
    let source = value_source(lab, notes, walk, value.node, value);
    push_fields(&mut row, &source_fields(source));
    row
}

/// A after the step of a value, if that is T of a `+*`, which makes both.
pub(crate) fn register_a_made_with_value(lab: &Lab, value: PartValue, a: Word18) -> Option<u64>
    ensures { result ≡ register_a_made_with_value lab.now value a }
{
    if value.step == 0 {
        return None;
    }
    match lab.made_event_of_step(value.node, value.step - 1) {
        Some(MadeEvent::Own { kind, .. }) => register_a_if_made_by_own_event(kind, value.part, a),
        Some(MadeEvent::Pass { .. }) => None,
        None => None,
    }
}

/// A after an event of a node's own, if it is a `+*` and the part is T.
fn register_a_if_made_by_own_event(kind: OwnEventKind, part: NodePart, a: Word18) -> Option<u64>
    ensures { result ≡ register_a_if_made_by_own_event kind part a }
{
    match kind {
        OwnEventKind::Run(code) => register_a_if_made_by_multiply_step(code, part, a),
        OwnEventKind::Fetch => None,
        OwnEventKind::Wait => None,
        OwnEventKind::Stop(_) => None,
    }
}

/// A after an opcode, if it is `+*` and the part is T.
fn register_a_if_made_by_multiply_step(code: u8, part: NodePart, a: Word18) -> Option<u64>
    ensures { result ≡ register_a_if_made_by_multiply_step code part a }
{
    match part {
        NodePart::Data(k) => {
            if code == MULTIPLY_STEP && k == 0 {
                Some(u64::from(a.get()))
            } else {
                None
            }
        }
        _ => None,
    }
}

/// Adds what the step of a value did, or that the value was loaded.
fn push_made<'r>(row: &mut RowFields<'r>, lab: &Lab, value: PartValue)
    requires { array_vec_len row.old + MAX_ACTION_FIELDS ≤ MAX_FIELDS }
    ensures fields { map named_field_value row.new.items ≡ map named_field_value row.old.items ++ value_origin_fields lab.now value }
    ensures len { array_vec_len row.new ≤ array_vec_len row.old + MAX_ACTION_FIELDS }
{
    if value.step == 0 {
        push_fields(row, &[Field::text(b"what", b"load")]);
    } else {
        push_step_action(row, lab, value.node, value.step);
    }
}

/// Adds what a step did.
fn push_step_action<'r>(row: &mut RowFields<'r>, lab: &Lab, node: NodeId, step: u32)
    requires { array_vec_len row.old + MAX_ACTION_FIELDS ≤ MAX_FIELDS }
    ensures fields { map named_field_value row.new.items ≡ map named_field_value row.old.items ++ step_action_fields lab.now node step }
    ensures len { array_vec_len row.new ≤ array_vec_len row.old + MAX_ACTION_FIELDS }
{
    if let Some(made) = lab.made_event_of_step(node, step.saturating_sub(1)) {
        push_action(row, made);
    }
}
