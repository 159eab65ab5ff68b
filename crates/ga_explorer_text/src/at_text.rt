//! The steps around one, each with the registers after it, written line by line.

ghost use Rattle.std.specs.Prelude.{◌≡◌, ◌<◌, ◌≤◌, ◌+◌, ◌-◌};
ghost use Rattle.ga_text.specs.Output.{WritesSomeText};
ghost use Rattle.ga_explorer_text.specs.Around.{steps_around_text};

use crate::passed_text::step_registers_line;
use crate::source_suffix::StepContext;
use arrayvec::ArrayVec;
use ga_debug_info::DebugInfo;
use ga_display::missing_step_refusal;
use ga_grid::NodeId;
use ga_lab::Lab;
use ga_text::{TextBuffer, WriteResult, Writer};
use std::io::Write;

/// `at NNN K [N]`: writes the steps of a node up to N before and after one. Allocates nothing.
///
/// # Errors
/// A write failed.
pub fn write_steps_around<W: Write>(
    lab: &Lab,
    notes: &Option<DebugInfo>,
    node: NodeId,
    step: u32,
    around: u32,
    writer: &mut Writer<'_, W>,
) -> WriteResult
    ensures { WritesSomeText result (λ text. text ≡ steps_around_text notes.now lab.now node step around) W.contents writer.old writer.new }
{
    if lab.has_step((node, step)) {
        let first = (step - 1).saturating_sub(around);
        let last = step.saturating_add(around).min(lab.steps(node));
        StepContext::new(lab, notes, node, last).say_places(first, writer)
    } else {
        writer.write_blocks(missing_step_refusal(node, lab.steps(node)).as_slice())
    }
}

impl<'l> StepContext<'l> {
    ghost use Rattle.std.specs.Prelude.{◌≡◌, ◌<◌, ◌≤◌, ◌-◌};
    ghost use Rattle.std.specs.List.{slice_get};
    ghost use Rattle.ga_lab.specs.Machine.{history_of_node};
    ghost use Rattle.ga_provenance.specs.Origins.{node_after_steps};
    ghost use Rattle.ga_text.specs.Output.{WritesSomeText, WritesExactly};
    ghost use Rattle.ga_explorer_text.specs.Around.{step_registers_text, numbered_step_text, numbered_steps_text};

    /// Says the steps from one place on, the first of which is at place 0, up to the step to which the node is walked back.
    fn say_places<W: Write>(&self, first: u32, writer: &mut Writer<'_, W>) -> WriteResult
        ensures { WritesSomeText result (λ text. text ≡ numbered_steps_text self.now.notes.now self.now.lab.now self.now.node first (self.now.near.step - first))
            W.contents writer.old writer.new }
    {
        let last = self.near.step();
        'places: for place in first..last {
            self.say_made(place + 1, writer)?;
        }
        Ok(())
    }

    /// Says a step that the node had made, from a copy of the walk.
    fn say_made<W: Write>(&self, step: u32, writer: &mut Writer<'_, W>) -> WriteResult
        requires some { 0 < step }
        requires made { step ≤ self.now.near.step }
        ensures { WritesExactly result (numbered_step_text self.now.notes.now self.now.lab.now self.now.node (step - 1)) W.contents writer.old writer.new }
    {
        let mut near = self.near.copy();
        near.walk_back_to(step);
        let there = StepContext {
            lab: self.lab,
            notes: self.notes,
            node: self.node,
            near,
        };
        writer.write_blocks(there.place_line().as_slice())?;
        there.write_current_step_suffix(writer)
    }

    /// The text of the step to which the node is walked back.
    fn place_line(&self) -> TextBuffer
        requires { 0 < self.now.near.step }
        ensures { result.items ≡ step_registers_text self.now.node self.now.near.step (slice_get (history_of_node self.now.lab.now self.now.node.number) (self.now.near.step - 1))
            (node_after_steps self.now.lab.now self.now.node.number self.now.near.step) }
    {
        let step = self.near.step();
        match self.lab.made_event_of_step(self.node, step - 1) {
            Some(made) => step_registers_line(self.node, step, made, self.near.node()),
            None => ArrayVec::new(),
        }
    }
}
