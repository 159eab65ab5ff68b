//! Breakpoints, and their places.

ghost use Rattle.std.specs.Prelude.{◌≡◌};
ghost use Rattle.ga_debug_info.specs.Notes.{slot_or_first_for_fetch};
ghost use Rattle.ga_dap_breakpoints.specs.Breakpoints.{slot_breakpoint, source_word_breakpoint, breakpoint_of_line, breakpoint_of_address};

use crate::back::WatchedAction;
use crate::condition::HitCondition;
use ga_dap_views::{SlotAddress, memory_cell_of_address};
use ga_debug_info::{DebugInfo, SlotWord};
use ga_grid::NodeId;
use ga_scheduler::ValueTest;

/// What a node is watched for.
#[derive(Clone, Copy, PartialEq, Eq, Debug)]
pub struct Breakpoint {
    /// The node.
    pub node: NodeId,
    /// What is watched: that the node comes to a slot, or writes a cell of its RAM.
    pub watched: WatchedAction,
    /// What must hold of the node after the step that did what is watched.
    pub condition: Option<ValueTest>,
    /// Which of the events that did what is watched end a run.
    pub hits: Option<HitCondition>,
}

/// A breakpoint on a line of the source.
#[derive(Clone, Copy, PartialEq, Eq, Debug)]
pub struct LineBreakpoint {
    /// The breakpoint: on the first slot of the line.
    pub breakpoint: Breakpoint,
    /// Its line, from 1 on: the requested one, or a later one.
    pub line: u32,
}

/// A breakpoint that a node hits by coming to a slot of a cell.
fn slot_breakpoint(node: NodeId, cell: u8, slot: u8) -> Breakpoint
    ensures { result ≡ slot_breakpoint node cell slot }
{
    Breakpoint {
        node,
        watched: WatchedAction::ArrivesAtSlot(SlotAddress { cell, slot }),
        condition: None,
        hits: None,
    }
}

/// The slot that a word begins.
fn slot_of(first: usize) -> u8
    ensures { result ≡ slot_or_first_for_fetch first }
{
    if first < 4 { first as u8 } else { 0 }
}

/// A breakpoint on the first slot of a word, with its line.
fn source_word_breakpoint(word: SlotWord) -> LineBreakpoint
    ensures { result ≡ source_word_breakpoint word }
{
    LineBreakpoint {
        breakpoint: slot_breakpoint(word.node, word.cell, slot_of(word.first)),
        line: word.line,
    }
}

/// The breakpoint of a line of the source (Debug Adapter Protocol, "SetBreakpointsRequest"): on the first slot of the line, or of the next line that has
/// code in a node, with that line; none where no line from there on has. Takes time by the words of the source.
pub fn breakpoint_of_line(notes: &DebugInfo, line: u32) -> Option<LineBreakpoint>
    ensures { result ≡ breakpoint_of_line notes.now line }
{
    match notes.find_first_slot_word_from_line(line) {
        Some(word) => Some(source_word_breakpoint(word)),
        None => None,
    }
}

/// The breakpoint of an address of a node, as of a label: on the first slot of its cell; none where the address names no cell of memory.
pub fn breakpoint_of_address(node: NodeId, address: u32) -> Option<Breakpoint>
    ensures { result ≡ breakpoint_of_address node address }
{
    match memory_cell_of_address(address) {
        Some(cell) => Some(slot_breakpoint(node, cell, 0)),
        None => None,
    }
}
