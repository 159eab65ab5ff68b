//! The provenance of a value, written line by line.

ghost use Rattle.std.specs.Prelude.{◌≡◌, drop, IfSome};
ghost use Rattle.ga_text.specs.Output.{WritesSomeText};
ghost use Rattle.ga_explorer_text.specs.Whence.{named_or_selected_part_value, IsValueOriginsAnswer};
ghost use Rattle.ga_event.specs.Flow.{IsNodePartInRange};
ghost use Rattle.ga_lab.specs.Machine.{node_at_step};
ghost use Rattle.ga_explorer_text.specs.inner.{is_step_of_first_line};

use crate::line_number::{
    has_queried_step_line, last_written_line_number, more_lines, using_line_number,
};
use crate::source_suffix::StepContext;
use crate::value_line::{head_line, indented_line, numbered_line, queried_line};
use ga_debug_info::DebugInfo;
use ga_display::{advised_refusal_text, missing_step_refusal};
use ga_event::NodePart;
use ga_grid::NodeId;
use ga_lab::{Lab, LabFault, NodeWalk};
use ga_provenance::{PartValue, ProvenanceLine, find_provenance_lines_at, queried_value_at_walk};
use ga_text::{WriteResult, Writer};
use std::alloc::Global;
use std::io::Write;

/// `whence NNN K [VALUE] [from L]`: writes the steps whose values went into what a step made, or into the value of a part after
/// it, the nearest first, from line `first` on. The node is walked back to the step once, and the rest is found from there.
///
/// # Errors
/// A write failed.
pub fn write_provenance_answer<W: Write>(
    alloc: Global,
    lab: &Lab,
    notes: &Option<DebugInfo>,
    node: NodeId,
    step: u32,
    part: Option<NodePart>,
    first: u32,
    writer: &mut Writer<'_, W>,
) -> WriteResult
    requires { IfSome part IsNodePartInRange }
    ensures { WritesSomeText result (IsValueOriginsAnswer notes.now lab.now node step part first) W.contents writer.old writer.new }
{
    if !lab.has_step((node, step)) {
        return writer.write_blocks(missing_step_refusal(node, lab.steps(node)).as_slice());
    }
    let here = StepContext::new(lab, notes, node, step);
    match named_or_selected_part_value(lab, &here.near, node, part) {
        Some(value) => here.say_asked(alloc, value, first, writer),
        None => here.say_head(writer),
    }
}

/// The value of a part of a node where it is walked back to, or the one that its step selects where no part is named.
pub fn named_or_selected_part_value(
    lab: &Lab,
    near: &NodeWalk<'_>,
    node: NodeId,
    part: Option<NodePart>,
) -> Option<PartValue>
    requires part { IfSome part IsNodePartInRange }
    requires near { near.now ≡ node_at_step lab.now node near.now.step }
    ensures value { result ≡ named_or_selected_part_value lab.now node near.now.step part }
    ensures part { IfSome result (λ value. IsNodePartInRange value.part) }
{
    match part {
        Some(part) => Some(PartValue {
            node,
            step: near.step(),
            part,
        }),
        None => queried_value_at_walk(lab, near, node),
    }
}

/// Whether the first of some lines is of this step.
fn is_step_of_first_line(step: u32, lines: &[ProvenanceLine]) -> bool
    ensures { result ≡ is_step_of_first_line step lines.now }
{
    match lines {
        [first, ..] => first.value.step == step,
        [] => false,
    }
}

/// The lines after the first `skipped`.
pub fn skip_provenance_lines(lines: &[ProvenanceLine], skipped: u32) -> &[ProvenanceLine]
    ensures { result.now ≡ drop skipped lines.now }
{
    let skipped = lines.len().min(skipped as usize);
    &lines[skipped..]
}

impl<'l> StepContext<'l> {
    ghost use Rattle.std.specs.Prelude.{◌≡◌, ◌+◌, ◌^◌, ◌<◌, not, Some, All, length};
    ghost use Rattle.ga_event.specs.Flow.{IsNodePartInRange};
    ghost use Rattle.ga_text.specs.Output.{WritesSomeText, WritesExactly};
    ghost use Rattle.ga_explorer_text.specs.Whence.{optional_queried_step_line, value_line_text, numbered_provenance_lines_text, provenance_lines_text_from, indented_value_text, queried_step_text, IsStepOrProvenanceAnswer};
    ghost use Rattle.ga_provenance.specs.Lines.{IsLineOfMovedValue};
    ghost use Rattle.ga_provenance.specs.Origins.{IsMovedValue};
    ghost use Rattle.ga_explorer_text.specs.inner.{is_step_of_first_line};

    /// Writes the lines of a value for the step to which its node is walked back.
    fn say_asked<W: Write>(
        &self,
        alloc: Global,
        value: PartValue,
        first: u32,
        writer: &mut Writer<'_, W>,
    ) -> WriteResult
        requires { IsNodePartInRange value.part }
        ensures { WritesSomeText result (λ text. IsStepOrProvenanceAnswer self.now.notes.now self.now.lab.now self.now.node self.now.near.step first (Some value) text)
            W.contents writer.old writer.new }
    {
        match find_provenance_lines_at(
            alloc,
            self.lab,
            &self.near,
            self.node,
            value,
            last_written_line_number(first),
        ) {
            Ok(found) => {
                let lines = found.lines.as_slice();
                self.say_found(value, first, lines, writer)?;
                let last = more_lines(lines.len() as u64, first, found.is_whole);
                writer.write_blocks(last.as_slice())
            }
            Err(_) => writer.write_text(advised_refusal_text(LabFault::Memory)),
        }
    }

    /// Says those of some lines that are written from line `first` on, and line 0 before the first.
    fn say_found<W: Write>(
        &self,
        value: PartValue,
        first: u32,
        lines: &[ProvenanceLine],
        writer: &mut Writer<'_, W>,
    ) -> WriteResult
        requires most { length lines.now < 2 ^ 32 }
        requires used { All (IsLineOfMovedValue self.now.lab.now) lines.now }
        ensures { WritesSomeText result (λ text. text ≡ provenance_lines_text_from self.now.notes.now self.now.lab.now self.now.node self.now.near.step first value (not (is_step_of_first_line self.now.near.step lines.now)) lines.now)
            W.contents writer.old writer.new }
    {
        let is_moved = !is_step_of_first_line(self.near.step(), lines);
        self.say_queried(value, has_queried_step_line(is_moved, first), writer)?;
        let skipped = first.saturating_sub(1);
        let written = skip_provenance_lines(lines, skipped);
        self.say_lines(is_moved, skipped, written, writer)
    }

    /// Says the step asked for, to which its node is walked back, with the queried value, if this is written.
    fn say_queried<W: Write>(
        &self,
        value: PartValue,
        is_written: bool,
        writer: &mut Writer<'_, W>,
    ) -> WriteResult
        ensures { WritesSomeText result (λ text. text ≡ optional_queried_step_line self.now.notes.now self.now.lab.now self.now.node self.now.near.step value is_written)
            W.contents writer.old writer.new }
    {
        if !is_written {
            return Ok(());
        }
        let word = self.words_of_value(value).word;
        let line = queried_line(self.lab, self.node, self.near.step(), value, word);
        writer.write_blocks(line.as_slice())?;
        self.write_current_step_suffix(writer)
    }

    /// Says the step asked for, to which its node is walked back.
    fn say_head<W: Write>(&self, writer: &mut Writer<'_, W>) -> WriteResult
        ensures { WritesSomeText result (λ text. text ≡ queried_step_text self.now.notes.now self.now.lab.now self.now.node self.now.near.step)
            W.contents writer.old writer.new }
    {
        writer.write_blocks(head_line(self.lab, self.node, self.near.step()).as_slice())?;
        self.write_current_step_suffix(writer)
    }

    /// Says some lines, of which `skipped` come before.
    fn say_lines<W: Write>(
        &self,
        is_moved: bool,
        skipped: u32,
        lines: &[ProvenanceLine],
        writer: &mut Writer<'_, W>,
    ) -> WriteResult
        requires most { skipped + length lines.now < 2 ^ 32 }
        requires used { All (IsLineOfMovedValue self.now.lab.now) lines.now }
        ensures { WritesSomeText result (λ text. text ≡ numbered_provenance_lines_text self.now.notes.now self.now.lab.now is_moved skipped lines.now) W.contents writer.old writer.new }
    {
        let mut here = self.copy();
        let mut number = skipped;
        'lines: for line in lines {
            here = self.context_of_value_use(here, line.value, line.used);
            number += 1;
            here.write_line(number, is_moved, *line, writer)?;
        }
        Ok(())
    }

    /// Says a line with its number.
    fn write_line<W: Write>(
        &self,
        number: u32,
        is_moved: bool,
        line: ProvenanceLine,
        writer: &mut Writer<'_, W>,
    ) -> WriteResult
        requires { IsLineOfMovedValue self.now.lab.now line }
        ensures { WritesExactly result (value_line_text self.now.notes.now self.now.lab.now is_moved number line) W.contents writer.old writer.new }
    {
        let words = self.words_of_value_at_its_use(line.value, line.used);
        let user = using_line_number(is_moved, number, line.user);
        writer.write_blocks(numbered_line(self.lab, number, user, line, words).as_slice())?;
        self.write_value_suffix(line.value, writer)
    }

    /// Says the line of a value without numbers, two blanks deeper.
    pub fn write_indented_value_line<W: Write>(
        &self,
        value: PartValue,
        used: PartValue,
        writer: &mut Writer<'_, W>,
    ) -> WriteResult
        requires { IsMovedValue self.now.lab.now value used }
        ensures { WritesExactly result (indented_value_text self.now.notes.now self.now.lab.now value) W.contents writer.old writer.new }
    {
        let words = self.words_of_value_at_its_use(value, used);
        writer.write_blocks(indented_line(self.lab, value, words).as_slice())?;
        self.write_value_suffix(value, writer)
    }
}
