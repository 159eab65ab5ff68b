//! What the source has for a step or a value, and whether a loaded value was given.

ghost use Rattle.std.specs.Prelude.{◌≡◌, ℕ, Option, None, false, map, drop, IsTrue};
ghost use Rattle.ga_lab.specs.Machine.{node_at_step};
ghost use Rattle.ga_grid.specs.declared.node_id.NodeId.{NodeId};
ghost use Rattle.ga_json.specs.Names.{is_field_name};
ghost use Rattle.ga_json.specs.Fields.{named_field_value};
ghost use Rattle.ga_explorer_text.specs.SourceSuffix.{slot_before_step};
ghost use Rattle.ga_explorer_json.specs.Source.{source_word, source_word_line_json, source_word_column_json, source_text_json, source_fields, step_source_fields, value_source_fields, is_value_never_set};
ghost use Rattle.ga_explorer_json.specs.inner.{fields_of_step_source};

use crate::whence_json::walk_to;
use ga_debug_info::{DebugInfo, SlotWord};
use ga_explorer_text::{
    cell_note_text, cell_of_node_part, load_place_of_node_part, slot_after_walk_back,
    slot_note_text,
};
use ga_grid::NodeId;
use ga_json::{Field, joined_text_field};
use ga_lab::{Lab, NodeWalk};
use ga_provenance::{PartValue, fetched_cell_at};

/// How many fields the source of a step has.
pub(crate) const SOURCE_FIELDS: usize = 3;

/// The slot of a fetch.
const FETCH: usize = 4;

/// The bytes before the address in the text of a cell.
const MARK_BYTES: usize = 3;

/// Whether a value was loaded that neither image nor source gave.
pub(crate) fn is_value_never_set(notes: &Option<DebugInfo>, value: PartValue) -> bool
    ensures { result ≡ is_value_never_set notes.now value }
{
    match notes {
        Some(notes) => {
            value.step == 0 && !notes.is_word_given(value.node, load_place_of_node_part(value.part))
        }
        None => false,
    }
}

/// The word of the source from which a slot of a cell comes.
fn source_word(
    notes: &Option<DebugInfo>,
    node: NodeId,
    cell: Option<u8>,
    slot: usize,
) -> Option<SlotWord>
    ensures { result ≡ source_word notes.now node cell slot }
{
    match notes {
        Some(notes) => match cell {
            Some(cell) => notes.slot_word(node, cell, slot),
            None => None,
        },
        None => None,
    }
}

/// What the source has for a slot of a cell.
#[derive(Clone, Copy)]
pub(crate) struct StepSource<'n> {
    /// The word of the source from which the slot comes.
    pub word: Option<SlotWord>,
    /// The text of the cell.
    pub cell: &'n [u8],
    /// The text of the slot, if the line of the cell is long.
    pub slot: &'n [u8],
}

/// The source of a step as fields: the line and the column of its word, and the text.
pub(crate) fn source_fields(source: StepSource<'_>) -> [Field<'_>; SOURCE_FIELDS]
    ensures { map named_field_value result ≡ fields_of_step_source source.entry }
{
    [
        line_field(b"line", source.word),
        column_field(b"column", source.word),
        text_field(b"source", source),
    ]
}

/// The line of a word of the source, with a name.
pub(crate) fn line_field(name: &'static [u8], word: Option<SlotWord>) -> Field<'static>
    requires { IsTrue (is_field_name name.now) }
    ensures { named_field_value result ≡ (name.now, source_word_line_json word) }
{
    match word {
        Some(word) => Field::number(name, u64::from(word.line)),
        None => Field::absent(name),
    }
}

/// The column of a word of the source, with a name.
pub(crate) fn column_field(name: &'static [u8], word: Option<SlotWord>) -> Field<'static>
    requires { IsTrue (is_field_name name.now) }
    ensures { named_field_value result ≡ (name.now, source_word_column_json word) }
{
    match word {
        Some(word) => Field::number(name, u64::from(word.column)),
        None => Field::absent(name),
    }
}

/// The text of a cell and of a slot of it, with a name.
pub(crate) fn text_field<'n>(name: &'static [u8], source: StepSource<'n>) -> Field<'n>
    requires { IsTrue (is_field_name name.now) }
    ensures { named_field_value result ≡ (name.now, source_text_json source.entry.cell.now source.entry.slot.now) }
{
    if source.cell.is_empty() {
        Field::absent(name)
    } else {
        joined_text_field(name, after_mark(source.cell), source.slot)
    }
}

/// The text of a cell after ` \ `.
fn after_mark(text: &[u8]) -> &[u8]
    ensures { result.now ≡ drop 3 text.now }
{
    let mark = text.len().min(MARK_BYTES);
    &text[mark..]
}

/// What the source has for a slot of a cell of a node.
fn cell_source<'n>(
    notes: &'n Option<DebugInfo>,
    node: NodeId,
    cell: Option<u8>,
    slot: usize,
) -> StepSource<'n>
    ensures { fields_of_step_source result ≡ source_fields notes.now node cell slot }
{
    StepSource {
        word: source_word(notes, node, cell, slot),
        cell: cell_note_text(notes, node, cell),
        slot: slot_note_text(notes, node, cell, slot),
    }
}

/// Whether the source says something of cells.
fn has_source(notes: &Option<DebugInfo>) -> bool
    ensures { result ≡ false → (node : NodeId) (cell : Option ℕ) (slot : ℕ) → source_fields notes.now node None 4 ≡ source_fields notes.now node cell slot }
{
    match notes {
        Some(notes) => !(notes.notes.is_empty() && notes.words.is_empty()),
        None => false,
    }
}

/// The slot that was next before a step.
fn slot_before_step<'l>(
    lab: &'l Lab,
    near: &NodeWalk<'l>,
    at: NodeId,
    node: NodeId,
    step: u32,
) -> usize
    requires { near.now ≡ node_at_step lab.now at near.now.step }
    ensures { result ≡ slot_before_step lab.now node step }
{
    let place = step.saturating_sub(1).min(lab.steps(node));
    let walk = walk_to(lab, near, at, node, place);
    slot_after_walk_back(lab, node, place, &walk) as usize
}

/// What the source has for a step: of the cell from which its instruction word was fetched, and the slot that it ran. A node is
/// walked back from where a walk is, if that is of the same node and not earlier, else from its newest step.
pub(crate) fn step_source<'l, 'n>(
    lab: &'l Lab,
    notes: &'n Option<DebugInfo>,
    near: &NodeWalk<'l>,
    at: NodeId,
    node: NodeId,
    step: u32,
) -> StepSource<'n>
    requires { near.now ≡ node_at_step lab.now at near.now.step }
    ensures { fields_of_step_source result ≡ step_source_fields notes.now lab.now node step }
{
    if !has_source(notes) {
        return cell_source(notes, node, None, FETCH);
    }
    let cell = fetched_cell_at(lab, near, at, node, step);
    let slot = slot_before_step(lab, near, at, node, step);
    cell_source(notes, node, cell, slot)
}

/// What the source has for a value: for the step that made it, or for the cell where it was loaded.
pub(crate) fn value_source<'l, 'n>(
    lab: &'l Lab,
    notes: &'n Option<DebugInfo>,
    near: &NodeWalk<'l>,
    at: NodeId,
    value: PartValue,
) -> StepSource<'n>
    requires { near.now ≡ node_at_step lab.now at near.now.step }
    ensures { fields_of_step_source result ≡ value_source_fields notes.now lab.now value }
{
    if value.step == 0 {
        cell_source(notes, value.node, cell_of_node_part(value.part), FETCH)
    } else {
        step_source(lab, notes, near, at, value.node, value.step)
    }
}
