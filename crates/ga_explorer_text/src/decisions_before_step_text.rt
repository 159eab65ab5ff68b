//! The steps at which a value decided where a node continued, written line by line.

ghost use Rattle.std.specs.Prelude.{◌≡◌, ◌+◌, ◌-◌, ◌≤◌, ◌<◌, ◌^◌, ◌++◌};
ghost use Rattle.ga_text.specs.Output.{WritesSomeText};
ghost use Rattle.ga_explorer_text.specs.Because.{deciding_step_text, decisions_before_step_text};

use crate::deed_text::push_action;
use crate::part_text::push_named_word;
use crate::source_suffix::StepContext;
use arrayvec::ArrayVec;
use ga_debug_info::DebugInfo;
use ga_display::missing_step_refusal;
use ga_grid::NodeId;
use ga_lab::{Lab, MadeEvent};
use ga_provenance::{BranchDecision, BranchDecisions};
use ga_text::{TextBuffer, WriteResult, Writer, push_step, push_text};
use std::io::Write;

/// `because NNN K [N]`: writes the last steps of a node before one at which a value decided where it continued, the newest
/// first, each with the step that made the value; or `none`. Allocates nothing.
///
/// # Errors
/// A write failed.
pub fn write_decisions_answer<W: Write>(
    lab: &Lab,
    notes: &Option<DebugInfo>,
    node: NodeId,
    step: u32,
    most: u32,
    writer: &mut Writer<'_, W>,
) -> WriteResult
    ensures { WritesSomeText result (λ text. text ≡ decisions_before_step_text notes.now lab.now node step most) W.contents writer.old writer.new }
{
    if lab.has_step((node, step)) {
        StepContext::new(lab, notes, node, step).write_decisions(most, writer)
    } else {
        writer.write_blocks(missing_step_refusal(node, lab.steps(node)).as_slice())
    }
}

/// A step, what it did and what it tested.
fn decided_line(node: NodeId, decision: BranchDecision) -> TextBuffer
    ensures { result.items ≡ deciding_step_text node decision }
{
    let mut out = ArrayVec::new();
    push_step(&mut out, node, decision.step);
    push_text(&mut out, b" ");
    push_action(&mut out, decision.made, node);
    if let MadeEvent::Own { .. } = decision.made {
        push_named_word(&mut out, decision.tested.part, decision.word);
    }
    out
}

impl<'l> StepContext<'l> {
    ghost use Rattle.std.specs.Prelude.{◌≡◌, ◌-◌};
    ghost use Rattle.ga_text.specs.Output.{WritesSomeText, WritesExactly};
    ghost use Rattle.ga_provenance.specs.Origins.{IsMovedValue};
    ghost use Rattle.ga_provenance.specs.Deciding.{newest_decision};
    ghost use Rattle.ga_explorer_text.specs.Because.{branch_decision_text, decisions_text, decisions_or_none_text};
    ghost use Rattle.ga_lab.specs.Machine.{node_at_step};

    /// Writes those before the step to which the node is walked back, or `none`.
    fn write_decisions<W: Write>(&self, most: u32, writer: &mut Writer<'_, W>) -> WriteResult
        ensures { WritesSomeText result (λ text. text ≡ decisions_or_none_text self.now.notes.now self.now.lab.now self.now.node most (self.now.near.step - 1)
            (newest_decision self.now.lab.now self.now.node (self.now.near.step - 1))) W.contents writer.old writer.new }
    {
        let mut decisions = BranchDecisions::before(self.lab, &self.near, self.node);
        let Some(newest) = decisions.next() else {
            return writer.write_text(b"none\n");
        };
        if most == 0 {
            return Ok(());
        }
        self.say_decision(newest, writer)?;
        self.say_decisions(&mut decisions, most - 1, writer)
    }

    /// Says those that a search finds.
    fn say_decisions<W: Write>(
        &self,
        decisions: &mut BranchDecisions<'l>,
        most: u32,
        writer: &mut Writer<'_, W>,
    ) -> WriteResult
        requires { decisions.old ≡ node_at_step self.now.lab.now self.now.node decisions.old.step }
        ensures { WritesSomeText result (λ text. text ≡ decisions_text self.now.notes.now self.now.lab.now self.now.node most decisions.old.step)
            W.contents writer.old writer.new }
    {
        let mut left = most;
        'telling: while left > 0 {
            let Some(decision) = decisions.next() else {
                return Ok(());
            };
            self.say_decision(decision, writer)?;
            left -= 1;
        }
        Ok(())
    }

    /// Says a step with what it tested, and below it the step that made the value.
    fn say_decision<W: Write>(
        &self,
        decision: BranchDecision,
        writer: &mut Writer<'_, W>,
    ) -> WriteResult
        requires { IsMovedValue self.now.lab.now decision.source decision.tested }
        ensures { WritesExactly result (branch_decision_text self.now.notes.now self.now.lab.now self.now.node decision) W.contents writer.old writer.new }
    {
        let step = decision.step;
        let source = decision.source;
        let tested = decision.tested;
        writer.write_blocks(decided_line(self.node, decision).as_slice())?;
        self.write_step_suffix(self.node, step, writer)?;
        self.write_indented_value_line(source, tested, writer)
    }
}
