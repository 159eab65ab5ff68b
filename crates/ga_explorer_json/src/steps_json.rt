//! Steps, chains and images: what reads the history or the chip.

ghost use Rattle.std.specs.Prelude.{◌≡◌, map};
ghost use Rattle.ga_console.specs.Replies.{first_node_lacking_step};
ghost use Rattle.ga_text.specs.Output.{WritesSomeText, WritesExactly};
ghost use Rattle.ga_json.specs.Compact.{json_line};
ghost use Rattle.ga_json.specs.Fields.{named_field_value, row_json};
ghost use Rattle.ga_explorer_json.specs.Rows.{json_rows_of_items, IsJsonLine};
ghost use Rattle.ga_explorer_json.specs.Steps.{event_json, trace_head_fields, trace_json, IsTraceJson, chain_head_fields, chain_json, IsWhyJson, IsDumpJson};

use crate::event::push_made_event;
use crate::refusal::{write_lab_refusal, write_step_refusal};
use crate::text_json::write_text_answer;
use ga_grid::NodeId;
use ga_image::print;
use ga_json::{Field, RowCursor, RowFields, row_fields, write_report};
use ga_lab::{Lab, LabFault, MadeEvent};
use ga_text::{WriteResult, Writer};
use std::alloc::Global;
use std::io::Write;

/// `trace NNN`: writes the steps of the node, the oldest first.
///
/// # Errors
/// A write failed.
pub fn write_trace_json<W: Write>(
    lab: &Lab,
    node: NodeId,
    writer: &mut Writer<'_, W>,
) -> WriteResult
    ensures { WritesSomeText result (IsJsonLine (IsTraceJson lab.now node)) W.contents writer.old writer.new }
{
    match lab.history(node) {
        Ok(steps) => write_steps(node, steps.as_slice(), writer),
        Err(fault) => write_lab_refusal(b"trace", fault, writer),
    }
}

/// `why NNN K MMM J`: writes the events of the chain from the first step to the second, if one leads there.
///
/// # Errors
/// A write failed.
pub fn write_chain_json<W: Write>(
    lab: &Lab,
    from: (NodeId, u32),
    to: (NodeId, u32),
    writer: &mut Writer<'_, W>,
) -> WriteResult
    ensures { WritesSomeText result (IsJsonLine (IsWhyJson lab.now from.0 from.1 to.0 to.1)) W.contents writer.old writer.new }
{
    match lab.find_chain_events(from, to) {
        Ok(Some(chain)) => write_chain(true, chain.as_slice(), writer),
        Ok(None) => write_chain(false, &[], writer),
        Err(fault) => {
            let node = first_node_lacking_step(lab, from, to.0);
            write_step_refusal(b"why", fault, node, lab.steps(node), writer)
        }
    }
}

/// The node of the first step, unless the step exists; else the other node.
fn first_node_lacking_step(lab: &Lab, from: (NodeId, u32), to: NodeId) -> NodeId
    ensures { result ≡ first_node_lacking_step lab.now from.0 from.1 to }
{
    if lab.has_step(from) { to } else { from.0 }
}

/// `dump`: writes the chip as an image.
///
/// # Errors
/// A write failed.
pub fn write_dump_json<W: Write>(
    alloc: Global,
    lab: &Lab,
    writer: &mut Writer<'_, W>,
) -> WriteResult
    ensures { WritesSomeText result (IsJsonLine (IsDumpJson lab.now)) W.contents writer.old writer.new }
{
    match print(alloc, lab.chip()) {
        Ok(image) => write_text_answer(b"dump", image.as_slice(), writer),
        Err(_) => write_lab_refusal(b"dump", LabFault::Memory, writer),
    }
}

/// Writes the steps of a node.
fn write_steps<W: Write>(
    node: NodeId,
    steps: &[MadeEvent],
    writer: &mut Writer<'_, W>,
) -> WriteResult
    ensures { WritesExactly result (json_line (trace_json node steps.now)) W.contents writer.old writer.new }
{
    let head = trace_head_fields(node);
    write_report(&head, &mut EventRows { rest: steps }, writer)
}

/// Writes whether a chain leads there, and its events.
fn write_chain<W: Write>(
    leads: bool,
    events: &[MadeEvent],
    writer: &mut Writer<'_, W>,
) -> WriteResult
    ensures { WritesExactly result (json_line (chain_json leads events.now)) W.contents writer.old writer.new }
{
    let head = chain_head_fields(leads);
    write_report(&head, &mut EventRows { rest: events }, writer)
}

/// The events that are not written yet.
#[derive(Drop)]
struct EventRows<'e> {
    rest: &'e [MadeEvent],
}

impl<'e> RowCursor<'e> for EventRows<'e> {
    ghost left = { λ rows. json_rows_of_items event_json rows.rest.now };

    fn next(&mut self) -> Option<RowFields<'e>> {
        match self.rest.split_first() {
            Some((made, rest)) => {
                self.rest = rest;
                Some(event_row(*made))
            }
            None => None,
        }
    }
}

/// An event.
fn event_row(made: MadeEvent) -> RowFields<'static>
    ensures { row_json result.items ≡ event_json made }
{
    let mut row = row_fields(&[]);
    push_made_event(&mut row, made);
    row
}

/// The node.
fn trace_head_fields(node: NodeId) -> [Field<'static>; 2]
    ensures { map named_field_value result ≡ trace_head_fields node }
{
    [
        Field::text(b"command", b"trace"),
        Field::node(b"node", node),
    ]
}

/// Whether a chain leads there.
fn chain_head_fields(leads: bool) -> [Field<'static>; 2]
    ensures { map named_field_value result ≡ chain_head_fields leads }
{
    [
        Field::text(b"command", b"why"),
        Field::flag(b"leads", leads),
    ]
}
