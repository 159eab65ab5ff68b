//! Where a requested breakpoint is.

ghost use Rattle.std.specs.Prelude.{◌≡◌, ◌<◌, length, position, codes, option_map, option_and_then, Some, IfSome};
ghost use Rattle.serde_json.specs.View.{view};
ghost use Rattle.ga_dap_protocol.specs.Messages.{member_as_text};
ghost use Rattle.ga_dap_queries.specs.Disassembling.{signed_member_or_zero, wrapped_address_offset};
ghost use Rattle.ga_dap_control.specs.Placing.{requested_source_line, source_breakpoint_location, has_label_text, breakpoint_of_any_label, breakpoint_of_node_label, has_node_prefix, node_of_prefix, function_breakpoint, instruction_breakpoint_at, ram_write_breakpoint, location_without_line, IsBreakpointOfReference, IsBreakpointLocation};

use crate::configuration::BreakpointKind;
use ga_dap_breakpoints::{Breakpoint, WatchedAction, breakpoint_of_address, breakpoint_of_line};
use ga_dap_protocol::{member_as_number, member_as_text};
use ga_dap_queries::{
    Debuggee, parse_signed_member, resolve_memory_reference, wrapped_address_offset,
};
use ga_debug_info::{DebugInfo, LabelAddress};
use ga_grid::NodeId;
use ga_text::parse_node;
use serde_json::Value;

/// The place of a breakpoint, and its line in the source, if it is on one.
#[derive(Clone, Copy, PartialEq, Eq, Debug)]
pub struct BreakpointLocation {
    pub breakpoint: Breakpoint,
    pub line: Option<u32>,
}

/// The place of a requested breakpoint; none if there is no such place.
pub fn resolve_breakpoint_location(
    program: &Debuggee,
    family: BreakpointKind,
    asked: &Value,
) -> Option<BreakpointLocation>
    ensures { IsBreakpointLocation program.now family (view asked.now) result }
{
    match family {
        BreakpointKind::Source => source_breakpoint_location(program.source_debug_info(), asked),
        BreakpointKind::Function => found_at_label(program.source_debug_info(), asked),
        BreakpointKind::Instruction => found_at_address(program, asked),
        BreakpointKind::Data => found_cell(program, asked),
    }
}

fn requested_source_line(asked: &Value) -> Option<u32>
    ensures { result ≡ requested_source_line (view asked.now) }
{
    let line = member_as_number(asked, "line")?;
    u32::try_from(line).ok()
}

fn source_breakpoint_location(notes: &DebugInfo, asked: &Value) -> Option<BreakpointLocation>
    ensures { result ≡ source_breakpoint_location notes.now (view asked.now) }
{
    let found = breakpoint_of_line(notes, requested_source_line(asked)?)?;
    Some(BreakpointLocation {
        breakpoint: found.breakpoint,
        line: Some(found.line),
    })
}

/// The place of a breakpoint that is on no line.
fn location_without_line(point: Option<Breakpoint>) -> Option<BreakpointLocation>
    ensures { result ≡ option_map location_without_line point }
{
    match point {
        Some(breakpoint) => Some(BreakpointLocation {
            breakpoint,
            line: None,
        }),
        None => None,
    }
}

fn has_label_text(name: &LabelAddress, label: &[u8]) -> bool
    ensures { result ≡ has_label_text label.now name.now }
{
    name.text.as_slice() == label
}

/// The place in the list of the first node's label of this name.
fn label_place(names: &[LabelAddress], label: &[u8]) -> Option<usize>
    ensures { result ≡ position (has_label_text label.now) names.now }
{
    names.iter().position(|name| has_label_text(name, label))
}

/// A breakpoint at the label of the first node that has it.
fn breakpoint_of_any_label(names: &[LabelAddress], label: &[u8]) -> Option<Breakpoint>
    ensures { result ≡ breakpoint_of_any_label names.now label.now }
{
    let place = label_place(names, label)?;
    match names.get(place) {
        Some(name) => breakpoint_of_address(name.node, name.address),
        None => None,
    }
}

/// A breakpoint at the label of a node.
fn breakpoint_of_node_label(notes: &DebugInfo, node: NodeId, label: &[u8]) -> Option<Breakpoint>
    ensures { result ≡ breakpoint_of_node_label notes.now.names.items node label.now }
{
    match notes.label_address_of_node(node, label) {
        Some(address) => breakpoint_of_address(node, address),
        None => None,
    }
}

/// Whether a node may be named before a label.
fn has_node_prefix(text: &[u8]) -> bool
    ensures { result ≡ has_node_prefix text.now }
{
    text.len() > 3 && (text[3] == b':' || text[3] == b' ')
}

/// The node that is named before a label.
fn node_of_prefix(text: &[u8]) -> Option<NodeId>
    ensures value { result ≡ node_of_prefix text.now }
    ensures within { IfSome result (λ node. 3 < length text.now) }
{
    if has_node_prefix(text) {
        parse_node(&text[..3])
    } else {
        None
    }
}

/// A breakpoint at a label: `NNN LABEL`, `NNN:LABEL` or `LABEL`.
fn function_breakpoint(notes: &DebugInfo, text: &[u8]) -> Option<Breakpoint>
    ensures { result ≡ function_breakpoint notes.now.names.items text.now }
{
    match node_of_prefix(text) {
        Some(node) => {
            let (_, label) = text.split_at(4);
            breakpoint_of_node_label(notes, node, label)
        }
        None => breakpoint_of_any_label(notes.names.as_slice(), text),
    }
}

fn found_at_label(notes: &DebugInfo, asked: &Value) -> Option<BreakpointLocation>
    ensures { result ≡ option_map location_without_line (option_and_then (function_breakpoint notes.now.names.items) (member_as_text (codes "name") (view asked.now))) }
{
    match member_as_text(asked, "name") {
        Some(text) => location_without_line(function_breakpoint(notes, text.as_bytes())),
        None => None,
    }
}

/// A breakpoint a number of addresses after a cell.
fn instruction_breakpoint_at(on: u32, at: (NodeId, u8)) -> Option<Breakpoint>
    requires { on < 4096 }
    ensures { result ≡ instruction_breakpoint_at on at }
{
    let address = (u32::from(at.1) + on) % 4096;
    if address < 256 {
        breakpoint_of_address(at.0, address)
    } else {
        None
    }
}

/// A breakpoint a number of addresses after the cell of a memory reference.
fn behind_reference(reference: Option<&str>, on: u32) -> Option<Breakpoint>
    requires { on < 4096 }
    ensures { IsBreakpointOfReference (instruction_breakpoint_at on) (option_map (λ text. text.now) reference.entry) result }
{
    match reference {
        Some(text) => behind_text(text, on),
        None => None,
    }
}

fn behind_text(text: &str, on: u32) -> Option<Breakpoint>
    requires { on < 4096 }
    ensures { IsBreakpointOfReference (instruction_breakpoint_at on) (Some text.now) result }
{
    match resolve_memory_reference(text) {
        Some(at) => instruction_breakpoint_at(on, at),
        None => None,
    }
}

/// How many addresses after the reference the requested breakpoint is.
fn cells_given(asked: &Value) -> u32
    ensures value { result ≡ wrapped_address_offset (signed_member_or_zero (codes "offset") (view asked.now)) }
    ensures most { result < 4096 }
{
    wrapped_address_offset(parse_signed_member(asked, "offset"))
}

#[tactic(auto, using(crate::proofs::Referred::referred_so, crate::proofs::Referred::referred_on))]
fn found_at_address(program: &Debuggee, asked: &Value) -> Option<BreakpointLocation>
    ensures { IsBreakpointLocation program.now BreakpointKind.Instruction (view asked.now) result }
{
    let on = cells_given(asked);
    location_without_line(behind_reference(member_as_text(asked, "instructionReference"), on))
}

/// A breakpoint that is hit where a cell of RAM is written.
fn ram_write_breakpoint(at: (NodeId, u8)) -> Option<Breakpoint>
    ensures { result ≡ ram_write_breakpoint at }
{
    if at.1 < 128 {
        Some(Breakpoint {
            node: at.0,
            watched: WatchedAction::WritesWatchedCell(at.1),
            condition: None,
            hits: None,
        })
    } else {
        None
    }
}

/// A breakpoint that is hit where the cell of a reference to memory is written.
fn writes_referred(reference: Option<&str>) -> Option<Breakpoint>
    ensures { IsBreakpointOfReference ram_write_breakpoint (option_map (λ text. text.now) reference.entry) result }
{
    match reference {
        Some(text) => writes_text(text),
        None => None,
    }
}

fn writes_text(text: &str) -> Option<Breakpoint>
    ensures { IsBreakpointOfReference ram_write_breakpoint (Some text.now) result }
{
    match resolve_memory_reference(text) {
        Some(at) => ram_write_breakpoint(at),
        None => None,
    }
}

#[tactic(auto, using(crate::proofs::Referred::referred_so))]
fn found_cell(program: &Debuggee, asked: &Value) -> Option<BreakpointLocation>
    ensures { IsBreakpointLocation program.now BreakpointKind.Data (view asked.now) result }
{
    location_without_line(writes_referred(member_as_text(asked, "dataId")))
}
