//! The labels and the lines of a node's cells.

ghost use Rattle.std.specs.Prelude.{◌≡◌, ◌++◌, ◌/◌, ◌*◌, ◌%◌, position, option_map, string_bytes, OnOk};
ghost use Rattle.std.specs.Str.Lossy.{utf8_lossy};
ghost use Rattle.ga_debug_info.specs.Notes.{is_source_of_cell};
ghost use Rattle.ga_debug_info.specs.Source.{result_at_nearest_place};
ghost use Rattle.ga_dap_views.specs.Labels.{is_cell_of_label, is_label_at_cell, label_index_of_cell, label_of_cell, nearest_label, label_distance_text, cell_location_text, debug_info_of_cell, source_word_of_slot, source_line_of_slot, is_code_word_on_line, first_code_word_of_line};

use crate::spots::{SlotAddress, memory_cell_of_address};
use crate::texts::add_hex2;
use ga_debug_info::{CellSource, DebugInfo, DisplayedWord, LabelAddress, SlotWord};
use ga_grid::NodeId;
use std::alloc::{AllocError, Global};

fn is_cell_of_label(cell: u8, found: Option<u8>) -> bool
    ensures { result ≡ is_cell_of_label cell found }
{
    match found {
        Some(found) => found == cell,
        None => false,
    }
}

/// Whether a label of the node is at the cell.
fn is_label_at_cell(name: &LabelAddress, node: NodeId, cell: u8) -> bool
    ensures { result ≡ is_label_at_cell node cell name.now }
{
    name.node == node && is_cell_of_label(cell, memory_cell_of_address(name.address))
}

fn label_index_of_cell(names: &[LabelAddress], node: NodeId, cell: u8) -> Option<usize>
    ensures { result ≡ label_index_of_cell names.now node cell }
{
    names
        .iter()
        .position(|name| is_label_at_cell(name, node, cell))
}

/// The place of the label at a cell, or of the nearest before it in the same memory.
fn place_near(names: &[LabelAddress], node: NodeId, cell: u8) -> Option<usize>
    ensures { result ≡ result_at_nearest_place (label_index_of_cell names.now node) (cell / 64 * 64) (cell % 64) }
{
    let first = cell / 64 * 64;
    let mut behind = cell % 64;
    'looking: while behind > 0 {
        match label_index_of_cell(names, node, first + behind) {
            Some(place) => return Some(place),
            None => behind -= 1,
        }
    }
    label_index_of_cell(names, node, first)
}

/// The label at a cell.
pub(crate) fn label_of_cell(notes: &DebugInfo, node: NodeId, cell: u8) -> Option<&LabelAddress>
    ensures { option_map (λ name. name.now) result ≡ label_of_cell notes.now.names.items node cell }
{
    let place = label_index_of_cell(notes.names.as_slice(), node, cell)?;
    notes.names.get(place)
}

/// The label at a cell, or the nearest before it in the same memory.
fn nearest_label(notes: &DebugInfo, node: NodeId, cell: u8) -> Option<&LabelAddress>
    ensures { option_map (λ name. name.now) result ≡ nearest_label notes.now.names.items node cell }
{
    let place = place_near(notes.names.as_slice(), node, cell)?;
    notes.names.get(place)
}

/// Adds the distance of a cell after its label.
fn add_behind(text: &mut String, behind: u8) -> Result<(), AllocError>
    ensures { OnOk result (string_bytes text.new ≡ string_bytes text.old ++ label_distance_text behind) }
{
    if behind == 0 {
        return Ok(());
    }
    write!(text, "+{behind}")
}

/// Adds the text of a label.
pub(crate) fn add_label(
    alloc: Global,
    text: &mut String,
    name: &LabelAddress,
) -> Result<(), AllocError>
    ensures { OnOk result (string_bytes text.new ≡ string_bytes text.old ++ utf8_lossy name.now.text.items) }
{
    let label = String::from_utf8_lossy(alloc, name.text.as_slice())?;
    text.push_str(label.as_str())
}

/// Adds the name of a cell: its label and its distance after that, and else its address.
pub(crate) fn add_cell(
    alloc: Global,
    text: &mut String,
    notes: &DebugInfo,
    node: NodeId,
    cell: u8,
) -> Result<(), AllocError>
    ensures { OnOk result (string_bytes text.new ≡ string_bytes text.old ++ cell_location_text notes.now node cell) }
{
    match nearest_label(notes, node, cell) {
        None => add_hex2(text, cell),
        Some(name) => {
            add_label(alloc, text, name)?;
            add_behind(
                text,
                cell.saturating_sub(memory_cell_of_address(name.address).unwrap_or(cell)),
            )
        }
    }
}

/// The note of the source for a cell.
pub(crate) fn debug_info_of_cell(notes: &DebugInfo, node: NodeId, cell: u8) -> Option<&CellSource>
    ensures { option_map (λ note. note.now) result ≡ debug_info_of_cell notes.now node cell }
{
    let place = place_of_note(notes.notes.as_slice(), node, cell)?;
    notes.notes.get(place)
}

fn place_of_note(notes: &[CellSource], node: NodeId, cell: u8) -> Option<usize>
    ensures { result ≡ position (is_source_of_cell node cell) notes.now }
{
    notes
        .iter()
        .position(|note| note.node == node && note.cell == cell)
}

/// The word of the source from which a slot comes.
pub(crate) fn source_word_of_slot(
    notes: &DebugInfo,
    node: NodeId,
    spot: SlotAddress,
) -> Option<SlotWord>
    ensures { result ≡ source_word_of_slot notes.now node spot }
{
    notes.slot_word(node, spot.cell, usize::from(spot.slot))
}

/// The line of a slot in the source.
pub fn source_line_of_slot(notes: &DebugInfo, node: NodeId, spot: SlotAddress) -> Option<u32>
    ensures { result ≡ source_line_of_slot notes.now node spot }
{
    match source_word_of_slot(notes, node, spot) {
        Some(word) => Some(word.line),
        None => None,
    }
}

/// The first word of a line from which a slot of an instruction word of the node comes.
pub fn first_code_word_of_line(notes: &DebugInfo, node: NodeId, line: u32) -> Option<SlotWord>
    ensures { result ≡ first_code_word_of_line notes.now node line }
{
    let place = place_on_line(notes.words.as_slice(), node, line)?;
    match notes.words.get(place) {
        Some(told) => Some(told.word),
        None => None,
    }
}

fn place_on_line(words: &[DisplayedWord], node: NodeId, line: u32) -> Option<usize>
    ensures { result ≡ position (is_code_word_on_line node line) words.now }
{
    words
        .iter()
        .position(|told| is_code_word_on_line(told, node, line))
}

/// Whether a slot of an instruction word of the node comes from a word, and that is on the line.
fn is_code_word_on_line(told: &DisplayedWord, node: NodeId, line: u32) -> bool
    ensures { result ≡ is_code_word_on_line node line told.now }
{
    let word = told.word;
    word.is_code && word.node == node && word.line == line
}
