//! The frames of a node: its position, and its open calls.

ghost use Rattle.std.specs.Prelude.{◌≡◌, ◌<◌, ◌≤◌, ◌^◌, ◌+◌, ◌-◌, ◌++◌, ◌==◌, if◌then◌else◌, min, IfOk, OnOk, length, map, string_bytes};
ghost use Rattle.std.specs.List.{range_with_len, slice_get};
ghost use Rattle.serde_json.specs.Data.{array};
ghost use Rattle.serde_json.specs.View.{view, items_view};
ghost use Rattle.ga_dap_views.specs.Calls.{open_calls};
ghost use Rattle.ga_dap_views.specs.Frames.{source_object, frame_object_with_line, frame_object_without_source, frame_object_outside_memory, frame_location_text, frame_name, frame_object_in_memory, frame_object, slot_address_of_open_call, frame_slot_address, stack_frames_object, stack_trace_body};
ghost use Rattle.ga_dap_views.specs.Variables.{memory_reference, requested_index_range};

use crate::calls::{OpenCall, open_calls};
use crate::labels::{add_cell, source_word_of_slot};
use crate::numbers::{chip_address, frame_id};
use crate::spots::{SlotAddress, slot_address_after_steps};
use crate::texts::{add_node, address_text};
use ga_debug_info::{DebugInfo, SlotWord};
use ga_grid::NodeId;
use ga_lab::Lab;
use serde_json::{Value, json, push};
use std::alloc::{AllocError, Global};

/// The file of the source, as a client opens it.
#[derive(Clone, Copy)]
pub struct SourceFile<'f> {
    pub name: &'f str,
    pub path: &'f str,
}

/// The file of the source (Debug Adapter Protocol, "Source").
#[tactic(auto, unfolding(crate::specs::Frames::source_object))]
pub(crate) fn source_object(alloc: Global, file: SourceFile<'_>) -> Result<Value, AllocError>
    ensures { IfOk result (λ v. view v ≡ source_object file.entry) }
{
    let name = file.name;
    let path = file.path;
    json!(in alloc; {"name": name, "path": path})
}

#[tactic(auto, unfolding(crate::specs::Frames::frame_object_with_line))]
fn frame_object_with_line(
    alloc: Global,
    source: &Value,
    id: u64,
    name: &str,
    pointer: &str,
    word: SlotWord,
) -> Result<Value, AllocError>
    ensures { IfOk result (λ v. view v ≡ frame_object_with_line (view source.now) id name.now pointer.now word.line word.column) }
{
    let line = word.line;
    let column = word.column;
    json!(in alloc; {"column": column, "id": id, "instructionPointerReference": pointer, "line": line, "name": name, "source": source})
}

#[tactic(auto, unfolding(crate::specs::Frames::frame_object_without_source))]
fn frame_object_without_source(
    alloc: Global,
    id: u64,
    name: &str,
    pointer: &str,
) -> Result<Value, AllocError>
    ensures { IfOk result (λ v. view v ≡ frame_object_without_source id name.now pointer.now) }
{
    json!(in alloc; {"column": 0u64, "id": id, "instructionPointerReference": pointer, "line": 0u64, "name": name})
}

#[tactic(auto, unfolding(crate::specs::Frames::frame_object_outside_memory))]
fn frame_object_outside_memory(alloc: Global, id: u64, name: &str) -> Result<Value, AllocError>
    ensures { IfOk result (λ v. view v ≡ frame_object_outside_memory id name.now) }
{
    json!(in alloc; {"column": 0u64, "id": id, "line": 0u64, "name": name, "presentationHint": "subtle"})
}

/// Adds where in a node a slot is.
fn add_place(
    alloc: Global,
    text: &mut String,
    notes: &DebugInfo,
    node: NodeId,
    spot: Option<SlotAddress>,
) -> Result<(), AllocError>
    ensures { OnOk result (string_bytes text.new ≡ string_bytes text.old ++ frame_location_text notes.now node spot) }
{
    match spot {
        Some(spot) => add_cell(alloc, text, notes, node, spot.cell),
        None => text.push_str("outside its memory"),
    }
}

fn frame_name(
    alloc: Global,
    notes: &DebugInfo,
    node: NodeId,
    spot: Option<SlotAddress>,
) -> Result<String, AllocError>
    ensures { IfOk result (λ text. string_bytes text ≡ frame_name notes.now node spot) }
{
    let mut text = String::new(alloc);
    add_node(&mut text, node)?;
    text.push_str(" ")?;
    add_place(alloc, &mut text, notes, node, spot)?;
    Ok(text)
}

/// A frame at a cell, with the word of the source where one is.
fn frame_object_in_memory(
    alloc: Global,
    file: SourceFile<'_>,
    id: u64,
    name: &str,
    address: u32,
    word: Option<SlotWord>,
) -> Result<Value, AllocError>
    requires { address < 2 ^ 24 }
    ensures { IfOk result (λ v. view v ≡ frame_object_in_memory file.entry id name.now (memory_reference address) word) }
{
    let pointer = address_text(alloc, address)?;
    match word {
        None => frame_object_without_source(alloc, id, name, pointer.as_str()),
        Some(word) => {
            let source = source_object(alloc, file)?;
            frame_object_with_line(alloc, &source, id, name, pointer.as_str(), word)
        }
    }
}

/// A frame of a node.
fn frame_object(
    alloc: Global,
    file: SourceFile<'_>,
    notes: &DebugInfo,
    node: NodeId,
    level: u8,
    spot: Option<SlotAddress>,
) -> Result<Value, AllocError>
    requires { level < 16 }
    ensures { IfOk result (λ v. view v ≡ frame_object file.entry notes.now node level spot) }
{
    let name = frame_name(alloc, notes, node, spot)?;
    let id = frame_id(node, level);
    match spot {
        None => frame_object_outside_memory(alloc, id, name.as_str()),
        Some(spot) => {
            let word = source_word_of_slot(notes, node, spot);
            frame_object_in_memory(
                alloc,
                file,
                id,
                name.as_str(),
                chip_address(node, spot.cell),
                word,
            )
        }
    }
}

/// The position of a call, of those in a list.
fn slot_address_of_open_call(calls: &[OpenCall], place: u8) -> Option<SlotAddress>
    ensures { result ≡ slot_address_of_open_call (slice_get calls.now place) }
{
    match calls.get(usize::from(place)) {
        Some(call) => call.at,
        None => None,
    }
}

/// The position of the frame of a level.
fn frame_slot_address(lab: &Lab, node: NodeId, calls: &[OpenCall], level: u8) -> Option<SlotAddress>
    requires { calls.now ≡ open_calls lab.now node }
    ensures { result ≡ frame_slot_address lab.now node level }
{
    if level == 0 {
        return slot_address_after_steps(lab, node, lab.steps(node));
    }
    slot_address_of_open_call(calls, level - 1)
}

/// The frames from one level on and before another.
fn frames(
    alloc: Global,
    file: SourceFile<'_>,
    lab: &Lab,
    notes: &DebugInfo,
    node: NodeId,
    calls: &[OpenCall],
    first: u8,
    end: u8,
) -> Result<Vec<Value>, AllocError>
    requires calls { calls.now ≡ open_calls lab.now node }
    requires order { first ≤ end }
    requires few { end ≤ 16 }
    ensures { IfOk result (λ list. map view list.items
        ≡ map (λ k. frame_object file.entry notes.now node k (frame_slot_address lab.now node k)) (range_with_len first (end - first))) }
{
    let mut list = Vec::new(alloc);
    'levels: for level in first..end {
        let spot = frame_slot_address(lab, node, calls, level);
        let value = frame_object(alloc, file, notes, node, level, spot)?;
        push(&mut list, value)?;
    }
    Ok(list)
}

#[tactic(auto, unfolding(crate::specs::Frames::stack_frames_object))]
fn stack_frames_object(alloc: Global, frames: Vec<Value>, total: u64) -> Result<Value, AllocError>
    ensures { IfOk result (λ v. view v ≡ stack_frames_object (array (items_view frames.items)) total) }
{
    let frames = Value::Array(frames);
    json!(in alloc; {"stackFrames": frames, "totalFrames": total})
}

/// How many of the remaining frames are requested.
fn many_asked(left: u64, count: u64) -> u64
    ensures value { result ≡ (if count == 0 then left else min count left) }
    ensures within { result ≤ left }
{
    if count == 0 { left } else { count.min(left) }
}

/// The levels of the requested frames: the first, and the one after the last.
#[tactic(auto, using(crate::proofs::Lists::places_so))]
fn levels_asked(total: u64, start: u64, count: u64) -> (u8, u8)
    requires { total ≤ 16 }
    ensures places { range_with_len result.0 (result.1 - result.0) ≡ requested_index_range total start count }
    ensures order { result.0 ≤ result.1 }
    ensures within { result.1 ≤ total }
{
    let many = many_asked(total.saturating_sub(start), count);
    let first = start.min(total);
    let end = first + many;
    (first as u8, end as u8)
}

/// The body of the response to `stackTrace`, where these are the calls.
fn stack_body(
    alloc: Global,
    file: SourceFile<'_>,
    lab: &Lab,
    notes: &DebugInfo,
    node: NodeId,
    calls: &[OpenCall],
    start: u64,
    count: u64,
) -> Result<Value, AllocError>
    requires calls { calls.now ≡ open_calls lab.now node }
    requires few { length calls.now ≤ 9 }
    ensures { IfOk result (λ v. view v ≡ stack_trace_body file.entry notes.now lab.now node start count) }
{
    let total = calls.len() as u64 + 1;
    let levels = levels_asked(total, start, count);
    let list = frames(alloc, file, lab, notes, node, calls, levels.0, levels.1)?;
    stack_frames_object(alloc, list, total)
}

/// The body of the response to `stackTrace` (Debug Adapter Protocol, "StackTraceRequest") for a node: `count` frames from one
/// on, or all remaining if `count` is 0. Frame 0 is the node's position; the others are its open calls. Takes memory for the
/// response, and time linear in the number of steps that the node made since the oldest.
///
/// # Errors
/// An allocation failed.
pub fn stack_trace_body(
    alloc: Global,
    file: SourceFile<'_>,
    lab: &Lab,
    notes: &DebugInfo,
    node: NodeId,
    start: u64,
    count: u64,
) -> Result<Value, AllocError>
    ensures { IfOk result (λ v. view v ≡ stack_trace_body file.entry notes.now lab.now node start count) }
{
    let calls = open_calls(lab, node);
    stack_body(
        alloc,
        file,
        lab,
        notes,
        node,
        calls.as_slice(),
        start,
        count,
    )
}
