//! The commands that read the machine and leave it as it is.
ghost use Rattle.ga_text.specs.Output.{WritesSomeText};
ghost use Rattle.std.specs.Prelude.{◌≡◌, ◌++◌, length, flat_map};
ghost use Rattle.ga_display.specs.Texts.{event_text, chain_header_text};
ghost use Rattle.ga_console.specs.Replies.{IsCommandReply, first_node_lacking_step, steps_text};
ghost use Rattle.ga_display.specs.declared.wording.RefusalWording.{RefusalWording as Worded};
ghost use Rattle.ga_console.specs.declared.command.DebuggerCommand.TheVariants.{Node, Memory, Trace, Why, Count, Dump};

use ga_display::{
    RefusalWording, write_chain_head, write_event, write_event_counts, write_memory_word,
    write_node, write_trace_head,
};
use ga_grid::NodeId;
use ga_image::print;
use ga_lab::{Lab, LabFault, MadeEvent};
use ga_text::{WriteResult, Writer};
use std::alloc::Global;
use std::io::Write;

/// `node NNN`: shows the node.
pub fn write_node_reply<W: Write>(
    lab: &Lab,
    node: NodeId,
    writer: &mut Writer<'_, W>,
) -> WriteResult
    ensures { (wording : Worded) → WritesSomeText result (λ text. IsCommandReply wording lab.now (Node node) text lab.now)
        W.contents writer.old writer.new }
{
    write_node(writer, node, lab.node(node))
}

/// `mem NNN HH`: shows the word at an address of the node's memory.
pub fn write_memory_reply<W: Write>(
    lab: &Lab,
    node: NodeId,
    address: u8,
    writer: &mut Writer<'_, W>,
) -> WriteResult
    ensures { (wording : Worded) → WritesSomeText result (λ text. IsCommandReply wording lab.now (Memory node address) text lab.now)
        W.contents writer.old writer.new }
{
    write_memory_word(writer, node, address, lab.memory(node, address))
}

/// `count`: shows how many events are kept, how many were made, and how many may be kept.
pub fn write_count_reply<W: Write>(lab: &Lab, writer: &mut Writer<'_, W>) -> WriteResult
    ensures { (wording : Worded) → WritesSomeText result (λ text. IsCommandReply wording lab.now Count text lab.now)
        W.contents writer.old writer.new }
{
    write_event_counts(writer, lab.counts())
}

/// `trace NNN`: shows the steps of the node, a line for each.
pub fn write_trace_reply<W: Write>(
    lab: &Lab,
    node: NodeId,
    wording: RefusalWording,
    writer: &mut Writer<'_, W>,
) -> WriteResult
    ensures { WritesSomeText result (λ text. IsCommandReply wording lab.now (Trace node) text lab.now)
        W.contents writer.old writer.new }
{
    match lab.history(node) {
        Ok(steps) => say_steps(node, steps.as_slice(), writer),
        Err(fault) => writer.write_text(wording.refusal_in_wording(fault)),
    }
}

/// Says how many steps there are, then each of them.
fn say_steps<W: Write>(node: NodeId, steps: &[MadeEvent], writer: &mut Writer<'_, W>) -> WriteResult
    ensures { WritesSomeText result (λ text. text ≡ steps_text node steps.now)
        W.contents writer.old writer.new }
{
    write_trace_head(writer, node, steps.len())?;
    'steps: for made in steps {
        write_event(writer, *made)?;
    }
    Ok(())
}

/// `why NNN K MMM J`: shows the chain of causes from the first step to the second, a line for each event.
pub fn write_why_reply<W: Write>(
    lab: &Lab,
    from: (NodeId, u32),
    to: (NodeId, u32),
    wording: RefusalWording,
    writer: &mut Writer<'_, W>,
) -> WriteResult
    ensures { WritesSomeText result (λ text. IsCommandReply wording lab.now (Why from.0 from.1 to.0 to.1) text lab.now)
        W.contents writer.old writer.new }
{
    match lab.find_chain_events(from, to) {
        Ok(None) => writer.write_text(b"independent\n"),
        Ok(Some(chain)) => say_chain(chain.as_slice(), writer),
        Err(fault) => {
            let node = first_node_lacking_step(lab, from, to.0);
            let refusal = wording.step_refusal(fault, node, lab.steps(node));
            writer.write_blocks(refusal.as_slice())
        }
    }
}

/// The node of the first step, unless the step exists; else the other node.
fn first_node_lacking_step(lab: &Lab, from: (NodeId, u32), to: NodeId) -> NodeId
    ensures { result ≡ first_node_lacking_step lab.now from.0 from.1 to }
{
    if lab.has_step(from) { to } else { from.0 }
}

/// Writes how many events a chain has, then the report of each.
fn say_chain<W: Write>(events: &[MadeEvent], writer: &mut Writer<'_, W>) -> WriteResult
    ensures { WritesSomeText result (λ text. text ≡ chain_header_text (length events.now) ++ flat_map event_text events.now)
        W.contents writer.old writer.new }
{
    write_chain_head(writer, events.len())?;
    'events: for made in events {
        write_event(writer, *made)?;
    }
    Ok(())
}

/// `dump`: shows the chip as an image.
pub fn write_dump_reply<W: Write>(
    alloc: Global,
    lab: &Lab,
    wording: RefusalWording,
    writer: &mut Writer<'_, W>,
) -> WriteResult
    ensures { WritesSomeText result (λ text. IsCommandReply wording lab.now Dump text lab.now)
        W.contents writer.old writer.new }
{
    match print(alloc, lab.chip()) {
        Ok(image) => writer.write_blocks(image.as_slice()),
        Err(_) => writer.write_text(wording.refusal_in_wording(LabFault::Memory)),
    }
}
