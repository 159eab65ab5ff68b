//! What the source has for cells and slots, at the end of the lines that name them.

ghost use Rattle.std.specs.Prelude.{◌≡◌, ◌≤◌};
ghost use Rattle.ga_node.specs.Record.{record_of_node};
ghost use Rattle.ga_event.specs.Told.{count_steps};
ghost use Rattle.ga_lab.specs.Machine.{node_at_step};
ghost use Rattle.ga_provenance.specs.Origins.{node_after_steps};
ghost use Rattle.ga_text.specs.Output.{WritesExactly};
ghost use Rattle.ga_explorer_text.specs.SourceSuffix.{cell_note_text, slot_note_text as noted_slot_of, source_suffix_line, cell_of_node_part, load_place_of_node_part, never_set_text, loaded_value_suffix_text};

use ga_debug_info::DebugInfo;
use ga_event::NodePart;
use ga_grid::NodeId;
use ga_lab::{Lab, NodeWalk};
use ga_node::{Node, NodePlace};
use ga_provenance::{PartValue, fetched_cell_at};
use ga_text::{WriteResult, Writer};
use std::io::Write;

/// The slot of a fetch.
const FETCH: usize = 4;

/// What the source says of a cell of a node; empty for an image.
pub fn cell_note_text(notes: &Option<DebugInfo>, node: NodeId, cell: Option<u8>) -> &[u8]
    ensures { result.now ≡ cell_note_text notes.now node cell }
{
    match notes {
        Some(notes) => notes.cell_text(node, cell),
        None => &[],
    }
}

/// What it says of a slot of the cell, if the line of the cell is long.
pub fn slot_note_text(
    notes: &Option<DebugInfo>,
    node: NodeId,
    cell: Option<u8>,
    slot: usize,
) -> &[u8]
    ensures { result.now ≡ noted_slot_of notes.now node cell slot }
{
    match notes {
        Some(notes) => {
            if notes.is_cell_text_truncated(node, cell) {
                notes.slot_text(node, cell, slot)
            } else {
                &[]
            }
        }
        None => &[],
    }
}

/// The cell that a part of a node is.
pub fn cell_of_node_part(part: NodePart) -> Option<u8>
    ensures { result ≡ cell_of_node_part part }
{
    match part {
        NodePart::Ram(cell) => Some(cell),
        NodePart::Rom(cell) => Some(128 + cell % 64),
        _ => None,
    }
}

/// The place by which a part is given: that of T represents all parts that only an image of format 2 gives.
pub fn load_place_of_node_part(part: NodePart) -> NodePlace
    ensures { result ≡ load_place_of_node_part part }
{
    match part {
        NodePart::A => NodePlace::A,
        NodePart::B => NodePlace::B,
        NodePart::P => NodePlace::P,
        NodePart::Ram(cell) => NodePlace::Ram(cell),
        NodePart::Rom(cell) => NodePlace::Rom(cell),
        _ => NodePlace::T,
    }
}

/// What follows a loaded value that neither image nor source gave.
fn never_set_text(notes: &Option<DebugInfo>, node: NodeId, part: NodePart) -> &'static [u8]
    ensures { result.now ≡ never_set_text notes.now node part }
{
    match notes {
        Some(notes) => {
            if notes.is_word_given(node, load_place_of_node_part(part)) {
                b""
            } else {
                b", never set"
            }
        }
        None => b"",
    }
}

/// The slot of a node.
#[tactic(auto, unfolding(ga_node::specs::Record::record_of_node))]
fn slot_of(node: &Node) -> u32
    ensures { result ≡ (record_of_node node.now).slot }
{
    node.get(NodePlace::Slot)
}

/// Says what the source says of a slot of a cell, and ends the line.
fn say_tail<W: Write>(
    notes: &Option<DebugInfo>,
    node: NodeId,
    cell: Option<u8>,
    slot: usize,
    writer: &mut Writer<'_, W>,
) -> WriteResult
    ensures { WritesExactly result (source_suffix_line notes.now node cell slot) W.contents writer.old writer.new }
{
    writer.write_blocks(cell_note_text(notes, node, cell))?;
    writer.write_blocks(slot_note_text(notes, node, cell, slot))?;
    writer.write_text(b"\n")
}

/// Says whether a loaded value was given, and what the source says of its cell, and ends the line.
fn say_loaded<W: Write>(
    notes: &Option<DebugInfo>,
    node: NodeId,
    part: NodePart,
    writer: &mut Writer<'_, W>,
) -> WriteResult
    ensures { WritesExactly result (loaded_value_suffix_text notes.now node part) W.contents writer.old writer.new }
{
    writer.write_blocks(never_set_text(notes, node, part))?;
    say_tail(notes, node, cell_of_node_part(part), FETCH, writer)
}

/// The slot of a node that is walked back to its first `place` steps.
pub fn slot_after_walk_back(lab: &Lab, node: NodeId, place: u32, walk: &NodeWalk<'_>) -> u32
    requires within { place ≤ count_steps node.number lab.now.kept }
    requires walk { walk.now ≡ node_at_step lab.now node place }
    ensures { result ≡ (node_after_steps lab.now node.number place).slot }
{
    slot_of(walk.node())
}

/// A lab, the debug info of its cells, and a node that is walked back to one of its steps, from which neighbouring steps are
/// found.
#[derive(Drop)]
pub(crate) struct StepContext<'l> {
    pub lab: &'l Lab,
    pub notes: &'l Option<DebugInfo>,
    pub node: NodeId,
    pub near: NodeWalk<'l>,
    ghost stands: { near ≡ node_at_step lab.now node near.step },
}

impl<'l> StepContext<'l> {
    ghost use Rattle.std.specs.Prelude.{◌≡◌, ◌≤◌, ℕ};
    ghost use Rattle.ga_event.specs.Told.{count_steps};
    ghost use Rattle.ga_lab.specs.Machine.{node_at_step};
    ghost use Rattle.ga_text.specs.Output.{WritesExactly};
    ghost use Rattle.ga_provenance.specs.Fetched.{fetched_cell as cell_fetched};
    ghost use Rattle.ga_provenance.specs.Origins.{node_after_steps};
    ghost use Rattle.ga_explorer_text.specs.SourceSuffix.{source_text_of_slot, slot_before_step, step_suffix_text, value_suffix_text};

    /// An outlook from a node that is walked back to its step.
    pub fn new(lab: &'l Lab, notes: &'l Option<DebugInfo>, node: NodeId, step: u32) -> Self
        requires { step ≤ count_steps node.number lab.now.kept }
        ensures lab { result.lab.now ≡ lab.now }
        ensures notes { result.notes.now ≡ notes.now }
        ensures node { result.node ≡ node }
        ensures near { result.near ≡ node_at_step lab.now node step }
    {
        StepContext {
            lab,
            notes,
            node,
            near: lab.walk_node_from_step(node, step),
        }
    }

    /// A copy, whose node is walked back independently.
    pub fn copy(&self) -> Self
        ensures lab { result.lab.now ≡ self.now.lab.now }
        ensures notes { result.notes.now ≡ self.now.notes.now }
    {
        StepContext {
            lab: self.lab,
            notes: self.notes,
            node: self.node,
            near: self.near.copy(),
        }
    }

    /// A node that is walked back to its first `place` steps: from here, if this is the same node and not earlier, else from its
    /// newest step.
    pub fn walk_back_to_step(&self, node: NodeId, place: u32) -> NodeWalk<'l>
        requires { place ≤ count_steps node.number self.now.lab.now.kept }
        ensures { result ≡ node_at_step self.now.lab.now node place }
    {
        if self.node == node && place <= self.near.step() {
            let mut walk = self.near.copy();
            walk.walk_back_to(place);
            walk
        } else {
            self.lab.walk_node_from_step(node, place)
        }
    }

    /// The slot that was next before a step.
    fn before_step(&self, node: NodeId, step: u32) -> usize
        ensures { result ≡ slot_before_step self.now.lab.now node step }
    {
        let place = step.saturating_sub(1).min(self.lab.steps(node));
        self.word_after_steps(node, place, NodePart::Slot).get() as usize
    }

    /// The slot that was next before a step, if the source has slots of the cell; else that before a fetch.
    fn step_slot(&self, node: NodeId, step: u32, cell: Option<u8>) -> usize
        ensures { source_text_of_slot self.now.notes.now node cell result ≡ source_text_of_slot self.now.notes.now node cell (slot_before_step self.now.lab.now node step) }
    {
        match self.notes {
            Some(notes) => {
                if notes.is_cell_text_truncated(node, cell) {
                    self.before_step(node, step)
                } else {
                    FETCH
                }
            }
            None => FETCH,
        }
    }

    /// The cell from which the instruction word of a step was fetched, where the source says something of cells.
    fn step_cell(&self, node: NodeId, step: u32) -> Option<u8>
        ensures { (slot : ℕ) → source_text_of_slot self.now.notes.now node result slot
            ≡ source_text_of_slot self.now.notes.now node (cell_fetched self.now.lab.now node step) slot }
    {
        match self.notes {
            Some(notes) => {
                if notes.is_empty() {
                    None
                } else {
                    fetched_cell_at(self.lab, &self.near, self.node, node, step)
                }
            }
            None => None,
        }
    }

    /// Ends a line about a step.
    ///
    /// # Errors
    /// A write failed.
    pub fn write_step_suffix<W: Write>(
        &self,
        node: NodeId,
        step: u32,
        writer: &mut Writer<'_, W>,
    ) -> WriteResult
        ensures { WritesExactly result (step_suffix_text self.now.notes.now self.now.lab.now node step) W.contents writer.old writer.new }
    {
        let cell = self.step_cell(node, step);
        let slot = self.step_slot(node, step, cell);
        say_tail(self.notes, node, cell, slot, writer)
    }

    /// Ends a line about the step to which the node is walked back.
    ///
    /// # Errors
    /// A write failed.
    pub fn write_current_step_suffix<W: Write>(&self, writer: &mut Writer<'_, W>) -> WriteResult
        ensures { WritesExactly result (step_suffix_text self.now.notes.now self.now.lab.now self.now.node self.now.near.step) W.contents writer.old writer.new }
    {
        self.write_step_suffix(self.node, self.near.step(), writer)
    }

    /// Ends a line about a value: that of the step that made it, or of the part where it was loaded.
    ///
    /// # Errors
    /// A write failed.
    pub fn write_value_suffix<W: Write>(
        &self,
        value: PartValue,
        writer: &mut Writer<'_, W>,
    ) -> WriteResult
        ensures { WritesExactly result (value_suffix_text self.now.notes.now self.now.lab.now value) W.contents writer.old writer.new }
    {
        if value.step == 0 {
            say_loaded(self.notes, value.node, value.part, writer)
        } else {
            self.write_step_suffix(value.node, value.step, writer)
        }
    }
}
