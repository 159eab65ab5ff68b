//! The commands that change the machine.
ghost use Rattle.ga_event.specs.Told.{count_steps};
ghost use Rattle.ga_text.specs.Output.{WritesSomeText, WritesExactly};
ghost use Rattle.ga_display.specs.Texts.{worded_step_refusal_text};
ghost use Rattle.ga_console.specs.Replies.{IsCommandReply};
ghost use Rattle.ga_console.specs.declared.command.DebuggerCommand.TheVariants.{Step, Back, Rewind};

use ga_display::{RefusalWording, write_event, write_removed_events};
use ga_grid::NodeId;
use ga_lab::{Lab, LabFault};
use ga_text::{WriteResult, Writer};
use std::io::Write;

/// `step NNN`: makes the node's next event.
#[inline(always)]
pub fn write_step_reply<W: Write>(
    lab: &mut Lab,
    node: NodeId,
    wording: RefusalWording,
    writer: &mut Writer<'_, W>,
) -> WriteResult
    ensures { WritesSomeText result (λ text. IsCommandReply wording lab.old (Step node) text lab.new)
        W.contents writer.old writer.new }
{
    match lab.step_inlined(node) {
        Ok(made) => { write_event(writer, made) }
        Err(fault) => writer.write_text(wording.refusal_in_wording(fault)),
    }
}

/// `back`: takes the newest event back.
pub fn write_back_reply<W: Write>(
    lab: &mut Lab,
    wording: RefusalWording,
    writer: &mut Writer<'_, W>,
) -> WriteResult
    ensures { WritesSomeText result (λ text. IsCommandReply wording lab.old Back text lab.new)
        W.contents writer.old writer.new }
{
    match lab.undo() {
        Ok(()) => { write_removed_events(writer, 1, lab.counts().kept) }
        Err(fault) => writer.write_text(wording.refusal_in_wording(fault)),
    }
}

/// `rewind NNN K`: takes a step of the node back, with all that depends on it.
pub fn write_rewind_reply<W: Write>(
    lab: &mut Lab,
    node: NodeId,
    step: u32,
    wording: RefusalWording,
    writer: &mut Writer<'_, W>,
) -> WriteResult
    ensures { WritesSomeText result (λ text. IsCommandReply wording lab.old (Rewind node step) text lab.new)
        W.contents writer.old writer.new }
{
    match lab.rewind(node, step) {
        Ok(removed) => { write_removed_events(writer, removed, lab.counts().kept) }
        Err(fault) => write_step_refusal(fault, node, lab, wording, writer),
    }
}

/// Writes why a step of a node isn't taken back. In a function of its own, `rewind` is small enough to be inlined.
#[inline(never)]
fn write_step_refusal<W: Write>(
    fault: LabFault,
    node: NodeId,
    lab: &Lab,
    wording: RefusalWording,
    writer: &mut Writer<'_, W>,
) -> WriteResult
    ensures { WritesExactly result (worded_step_refusal_text wording node (count_steps node.number lab.now.kept) fault)
        W.contents writer.old writer.new }
{
    let refusal = wording.step_refusal(fault, node, lab.steps(node));
    writer.write_blocks(refusal.as_slice())
}
