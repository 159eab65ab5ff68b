//! What a rollback would remove, written line by line.

ghost use Rattle.std.specs.Prelude.{◌≡◌};
ghost use Rattle.ga_text.specs.Output.{WritesSomeText, WritesExactly};
ghost use Rattle.ga_explorer_text.specs.Effects.{rollback_effect_text, rollback_effect_summary_text, rollback_effects_head_line, rollback_effects_text, IsRollbackEffectsAnswer};

use crate::source_suffix::StepContext;
use arrayvec::ArrayVec;
use ga_debug_info::DebugInfo;
use ga_display::advised_step_refusal;
use ga_grid::NodeId;
use ga_lab::Lab;
use ga_scheduler::{RollbackEffect, RollbackEffects, find_rollback_effects};
use ga_text::{TextBuffer, WriteResult, Writer, push_number, push_step, push_text};
use std::alloc::Global;
use std::io::Write;

/// `effects NNN K`: writes what `rewind NNN K` would remove, with what the source has for the first such step of each node.
/// Nothing is removed. Takes memory for the list of these nodes. A node is walked back to its first such step only where the
/// entries of its steps don't determine the text.
///
/// # Errors
/// A write failed.
pub fn write_rollback_effects<W: Write>(
    alloc: Global,
    lab: &mut Lab,
    notes: &Option<DebugInfo>,
    node: NodeId,
    step: u32,
    writer: &mut Writer<'_, W>,
) -> WriteResult
    ensures said { WritesSomeText result (IsRollbackEffectsAnswer notes.now lab.old node step) W.contents writer.old writer.new }
    ensures same { lab.new ≡ lab.old }
{
    match find_rollback_effects(alloc, lab, node, step) {
        Ok(effects) => say_found(lab, notes, &effects, writer),
        Err(fault) => {
            let refusal = advised_step_refusal(fault, node, lab.steps(node));
            writer.write_blocks(refusal.as_slice())
        }
    }
}

/// Says how many events would go, then what would go of each node.
fn say_found<W: Write>(
    lab: &Lab,
    notes: &Option<DebugInfo>,
    effects: &RollbackEffects,
    writer: &mut Writer<'_, W>,
) -> WriteResult
    ensures { WritesSomeText result (λ text. text ≡ rollback_effects_text notes.now lab.now effects.now.events effects.now.nodes.items)
        W.contents writer.old writer.new }
{
    say_nodes(lab, notes, effects.events, effects.nodes.as_slice(), writer)
}

fn say_nodes<W: Write>(
    lab: &Lab,
    notes: &Option<DebugInfo>,
    events: u32,
    nodes: &[RollbackEffect],
    writer: &mut Writer<'_, W>,
) -> WriteResult
    ensures { WritesSomeText result (λ text. text ≡ rollback_effects_text notes.now lab.now events nodes.now)
        W.contents writer.old writer.new }
{
    writer.write_blocks(head_line(events, nodes.len()).as_slice())?;
    'nodes: for effect in nodes {
        say_effect(lab, notes, *effect, writer)?;
    }
    Ok(())
}

/// Says what would go of a node, and what the source has for its first step that would.
fn say_effect<W: Write>(
    lab: &Lab,
    notes: &Option<DebugInfo>,
    effect: RollbackEffect,
    writer: &mut Writer<'_, W>,
) -> WriteResult
    ensures { WritesExactly result (rollback_effect_text notes.now lab.now effect) W.contents writer.old writer.new }
{
    writer.write_blocks(rollback_effect_summary_text(effect).as_slice())?;
    let newest = lab.steps(effect.node);
    let context = StepContext::new(lab, notes, effect.node, newest);
    context.write_step_suffix(effect.node, effect.first, writer)
}

/// How many events would go, and of how many nodes.
fn head_line(events: u32, nodes: usize) -> TextBuffer
    ensures { result.items ≡ rollback_effects_head_line events nodes }
{
    let mut out = ArrayVec::new();
    push_text(&mut out, b"effects ");
    push_number(&mut out, u64::from(events));
    push_text(&mut out, b" ");
    push_number(&mut out, nodes as u64);
    push_text(&mut out, b"\n");
    out
}

/// What would go of a node, without the end of the line.
fn rollback_effect_summary_text(effect: RollbackEffect) -> TextBuffer
    ensures { result.items ≡ rollback_effect_summary_text effect }
{
    let mut out = ArrayVec::new();
    push_step(&mut out, effect.node, effect.first);
    push_text(&mut out, b" ");
    push_number(&mut out, u64::from(effect.steps));
    out
}
