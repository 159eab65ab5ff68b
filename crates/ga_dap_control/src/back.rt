//! The requests that go back.

ghost use Rattle.std.specs.Prelude.{◌≡◌, ◌++◌, length, string_bytes, slice_index_or, IfOk, OnOk};
ghost use Rattle.serde_json.specs.View.{view};
ghost use Rattle.ga_event.specs.Told.{count_steps};
ghost use Rattle.ga_dap_control.specs.Back.{requested_granularity, debuggee_after_step_back, debuggee_after_reverse_continue, AreStepCountsByNode, IsRollbackSummary, removed_steps_line, removed_steps_line_if_any, removed_steps_of_other_node_text, removed_steps_text_below, rollback_summary_first_line, rollback_summary_text};

use crate::moving::requested_granularity;
use ga_dap_breakpoints::{
    Breakpoint, Granularity, reverse_to_breakpoint, step_back, step_back_line,
};
use ga_dap_queries::{Debuggee, push_node_name};
use ga_grid::NodeId;
use ga_lab::Lab;
use serde_json::Value;
use std::alloc::{AllocError, Global};

/// What went where a node was gone back: how many steps of each node were kept before, and how many events went.
#[derive(Drop)]
pub struct RollbackSummary {
    pub node: NodeId,
    pub before: [u32; 144],
    pub removed: u32,
}

/// How many steps of each node are kept.
fn steps_kept(lab: &Lab) -> [u32; 144]
    ensures steps { AreStepCountsByNode lab.now result }
    ensures size { length result ≡ 144 }
{
    let mut steps = [0u32; 144];
    for number in 0..144u8 {
        let kept = lab.steps(NodeId::new(number));
        steps[number as usize] = kept;
    }
    steps
}

/// Rolls a node back by a line or a step.
fn step_by(program: &mut Debuggee, node: NodeId, grain: Granularity)
    ensures { program.new ≡ debuggee_after_step_back grain program.old node }
{
    match grain {
        Granularity::Instruction => {
            step_back(&mut program.lab, node);
        }
        Granularity::Line => step_line(program, node),
    }
}

/// Rolls a node back by a line.
fn step_line(program: &mut Debuggee, node: NodeId)
    ensures { program.new ≡ debuggee_after_step_back Granularity.Line program.old node }
{
    match &program.source {
        Some(notes) => {
            step_back_line(&mut program.lab, notes, node);
        }
        None => {
            step_back_line(&mut program.lab, &program.empty_debug_info, node);
        }
    }
}

/// Rolls a node back by a line or a step, and returns what was removed.
pub fn step_back_node(program: &mut Debuggee, node: NodeId, arguments: &Value) -> RollbackSummary
    ensures program { program.new ≡ debuggee_after_step_back (requested_granularity program.old (view arguments.now)) program.old node }
    ensures node { result.node ≡ node }
    ensures went { IsRollbackSummary program.old.lab program.new.lab result.before result.removed }
{
    let before = steps_kept(&program.lab);
    let kept = program.lab.counts().kept;
    let grain = requested_granularity(program, arguments);
    step_by(program, node, grain);
    let removed = kept.saturating_sub(program.lab.counts().kept);
    RollbackSummary {
        node,
        before,
        removed,
    }
}

/// Rolls a node back to the newest step that hit one of its breakpoints, and returns what was removed.
pub fn reverse_continue_node(
    program: &mut Debuggee,
    node: NodeId,
    points: &[Breakpoint],
) -> RollbackSummary
    ensures program { program.new ≡ debuggee_after_reverse_continue program.old node points.now }
    ensures node { result.node ≡ node }
    ensures went { IsRollbackSummary program.old.lab program.new.lab result.before result.removed }
{
    let before = steps_kept(&program.lab);
    let kept = program.lab.counts().kept;
    reverse_to_breakpoint(&mut program.lab, node, points);
    let removed = kept.saturating_sub(program.lab.counts().kept);
    RollbackSummary {
        node,
        before,
        removed,
    }
}

/// The line about the node that was rolled back.
fn rollback_summary_first_line(
    alloc: Global,
    lab: &Lab,
    gone: &RollbackSummary,
) -> Result<String, AllocError>
    ensures { IfOk result (λ text. string_bytes text ≡ rollback_summary_first_line gone.now.node gone.now.removed lab.now) }
{
    let kept = lab.counts().kept;
    let step = u64::from(lab.steps(gone.node)) + 1;
    let removed = gone.removed;
    let mut text = String::from_str(alloc, "rewind ")?;
    push_node_name(&mut text, gone.node)?;
    write!(text, " {step}: removed {removed} kept {kept}\n")?;
    Ok(text)
}

/// The lines that list what was removed.
pub fn rollback_summary_text(
    alloc: Global,
    lab: &Lab,
    gone: &RollbackSummary,
) -> Result<String, AllocError>
    ensures { IfOk result (λ text. string_bytes text ≡ rollback_summary_text gone.now.node gone.now.before gone.now.removed lab.now) }
{
    let mut text = rollback_summary_first_line(alloc, lab, gone)?;
    add_others(alloc, &mut text, lab, gone)?;
    Ok(text)
}

/// Adds a line for each other node of which steps went.
fn add_others(
    alloc: Global,
    text: &mut String,
    lab: &Lab,
    gone: &RollbackSummary,
) -> Result<(), AllocError>
    ensures { OnOk result (string_bytes text.new ≡ string_bytes text.old ++ removed_steps_text_below gone.now.node.number gone.now.before lab.now 144) }
{
    'nodes: for number in 0..144u8 {
        let node = NodeId::new(number);
        add_gone(alloc, text, lab, gone, node)?;
    }
    Ok(())
}

/// Adds the steps of a node that went, where it is another one and any did.
fn add_gone(
    alloc: Global,
    text: &mut String,
    lab: &Lab,
    gone: &RollbackSummary,
    node: NodeId,
) -> Result<(), AllocError>
    ensures { OnOk result (string_bytes text.new ≡ string_bytes text.old ++ removed_steps_of_other_node_text gone.now.node.number gone.now.before lab.now node.number) }
{
    if node.number == gone.node.number {
        return Ok(());
    }
    add_other(
        alloc,
        text,
        node,
        gone.before[node.index()],
        lab.steps(node),
    )
}

/// The line about another node.
fn removed_steps_line(
    alloc: Global,
    node: NodeId,
    first: u64,
    before: u32,
) -> Result<String, AllocError>
    ensures { IfOk result (λ text. string_bytes text ≡ removed_steps_line node.number first before) }
{
    let mut text = String::from_str(alloc, "  with it ")?;
    push_node_name(&mut text, node)?;
    write!(text, " {first} to {before}\n")?;
    Ok(text)
}

/// Adds the line about another node.
fn add_line(
    alloc: Global,
    text: &mut String,
    node: NodeId,
    first: u64,
    before: u32,
) -> Result<(), AllocError>
    ensures { OnOk result (string_bytes text.new ≡ string_bytes text.old ++ removed_steps_line node.number first before) }
{
    let line = removed_steps_line(alloc, node, first, before)?;
    text.push_str(line.as_str())?;
    Ok(())
}

/// Adds the steps of another node that went, where any did.
fn add_other(
    alloc: Global,
    text: &mut String,
    node: NodeId,
    before: u32,
    left: u32,
) -> Result<(), AllocError>
    ensures { OnOk result (string_bytes text.new ≡ string_bytes text.old ++ removed_steps_line_if_any node.number before left) }
{
    if before <= left {
        return Ok(());
    }
    let first = u64::from(left) + 1;
    add_line(alloc, text, node, first, before)
}
