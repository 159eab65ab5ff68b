//! What a rollback would remove.

ghost use Rattle.std.specs.Prelude.{◌≡◌, map};
ghost use Rattle.ga_text.specs.Output.{WritesSomeText, WritesExactly};
ghost use Rattle.ga_json.specs.Compact.{json_line};
ghost use Rattle.ga_json.specs.Fields.{named_field_value, row_json};
ghost use Rattle.ga_explorer_json.specs.Rows.{json_rows_of_items, IsJsonLine};
ghost use Rattle.ga_explorer_json.specs.Effects.{rollback_effect_json, rollback_effects_head_fields, listed_rollback_effects_json, IsRollbackEffectsJson};

use crate::refusal::write_step_refusal;
use crate::row::push_fields;
use crate::source::{source_fields, step_source};
use ga_debug_info::DebugInfo;
use ga_grid::NodeId;
use ga_json::{Field, RowCursor, RowFields, row_fields, write_report};
use ga_lab::Lab;
use ga_scheduler::{RollbackEffect, find_rollback_effects};
use ga_text::{WriteResult, Writer};
use std::alloc::Global;
use std::io::Write;

/// `effects NNN K`: writes what `rewind NNN K` would remove. Nothing is removed. Takes memory for the list of the nodes.
///
/// # Errors
/// A write failed.
pub fn write_rollback_effects_json<W: Write>(
    alloc: Global,
    lab: &mut Lab,
    notes: &Option<DebugInfo>,
    node: NodeId,
    step: u32,
    writer: &mut Writer<'_, W>,
) -> WriteResult
    ensures said { WritesSomeText result (IsJsonLine (IsRollbackEffectsJson notes.now lab.old node step)) W.contents writer.old writer.new }
    ensures same { lab.new ≡ lab.old }
{
    match find_rollback_effects(alloc, lab, node, step) {
        Ok(effects) => {
            let nodes = effects.nodes.as_slice();
            write_listed_effects(lab, notes, node, step, effects.events, nodes, writer)
        }
        Err(fault) => write_step_refusal(b"effects", fault, node, lab.steps(node), writer),
    }
}

/// Writes how many events would go, and what would go of each node.
fn write_listed_effects<W: Write>(
    lab: &Lab,
    notes: &Option<DebugInfo>,
    node: NodeId,
    step: u32,
    events: u32,
    effects: &[RollbackEffect],
    writer: &mut Writer<'_, W>,
) -> WriteResult
    ensures { WritesExactly result (json_line (listed_rollback_effects_json notes.now lab.now node step events effects.now)) W.contents writer.old writer.new }
{
    let head = rollback_effects_head_fields(node, step, events, effects.len());
    let mut rows = EffectRows {
        lab,
        notes,
        rest: effects,
    };
    write_report(&head, &mut rows, writer)
}

/// What would go of the nodes that are not written yet.
#[derive(Drop)]
struct EffectRows<'e> {
    lab: &'e Lab,
    notes: &'e Option<DebugInfo>,
    rest: &'e [RollbackEffect],
}

impl<'e> RowCursor<'e> for EffectRows<'e> {
    ghost left = { λ rows. json_rows_of_items (rollback_effect_json rows.notes.now rows.lab.now) rows.rest.now };

    fn next(&mut self) -> Option<RowFields<'e>> {
        match self.rest.split_first() {
            Some((effect, rest)) => {
                self.rest = rest;
                Some(effect_row(self.lab, self.notes, *effect))
            }
            None => None,
        }
    }
}

/// The step, how many events would go, and of how many nodes.
fn rollback_effects_head_fields(
    node: NodeId,
    step: u32,
    events: u32,
    nodes: usize,
) -> [Field<'static>; 5]
    ensures { map named_field_value result ≡ rollback_effects_head_fields node step events nodes }
{
    [
        Field::text(b"command", b"effects"),
        Field::node(b"node", node),
        Field::number(b"step", u64::from(step)),
        Field::number(b"events", u64::from(events)),
        Field::number(b"nodes", nodes as u64),
    ]
}

/// What would go of a node: its first step that would, how many would, and what the source has for that step.
fn effect_row<'e>(
    lab: &'e Lab,
    notes: &'e Option<DebugInfo>,
    effect: RollbackEffect,
) -> RowFields<'e>
    ensures { row_json result.items ≡ rollback_effect_json notes.now lab.now effect }
{
    let RollbackEffect { node, first, steps } = effect;
    let mut row = row_fields(&[
        Field::node(b"node", node),
        Field::number(b"first_step", u64::from(first)),
        Field::number(b"steps", u64::from(steps)),
    ]);
    let near = lab.walk_node_from_step(node, lab.steps(node));
    let source = step_source(lab, notes, &near, node, node, first);
    push_fields(&mut row, &source_fields(source));
    row
}
