//! `disassemble`.

ghost use Rattle.std.specs.Prelude.{◌≡◌, ◌≢◌, ◌<◌, ◌≤◌, ◌^◌, ℕ, Some, IfSome, IfNone, OnOk, OnErr};
ghost use Rattle.serde_json.specs.View.{view};
ghost use Rattle.ga_dap_queries.specs.Sending.{SendsMessage, Message};
ghost use Rattle.ga_dap_queries.specs.Disassembling.{SpellsHexadecimal, SpellsMemoryReference, IsMemoryReference, signed_member_or_zero, wrapped_address_offset, first_instruction_address, instruction_count_if_in_limit, DisassemblesWithinLimit, DisassemblesRequestedCount, DisassemblesMemory, DisassemblesReference, AnswersDisassemble};

use crate::debuggee::Debuggee;
use ga_dap_protocol::{ClientRequest, Outbox, member_as_number, member_as_text};
use ga_dap_views::{cell_at_chip_address, disassemble_response_body};
use ga_grid::NodeId;
use serde_json::Value;
use std::alloc::{AllocError, Global};

/// The maximum number of instructions in a response.
const MOST_INSTRUCTIONS: u64 = 4096;

/// The whole number of a member; 0 where it has none.
pub fn parse_signed_member(value: &Value, name: &str) -> i64
    ensures { result ≡ signed_member_or_zero name.now (view value.now) }
{
    value.get(name).and_then(Value::as_i64).unwrap_or(0)
}

/// The number that hexadecimal digits spell.
fn hexadecimal(digits: &str) -> Option<u64>
    ensures found { IfSome result (λ number. SpellsHexadecimal digits.now number) }
    ensures none { IfNone result ((number : ℕ) → number < 2 ^ 64 → SpellsHexadecimal digits.now number → ⊥) }
{
    match u64::from_str_radix(digits, 16) {
        Ok(number) => Some(number),
        Err(_) => None,
    }
}

/// The number that a reference to memory spells in hexadecimal digits.
fn address_asked(reference: &str) -> Option<u64>
    ensures found { IfSome result (λ address. SpellsMemoryReference reference.now address) }
    ensures none { IfNone result ((address : ℕ) → address < 2 ^ 64 → SpellsMemoryReference reference.now address → ⊥) }
{
    match reference.strip_prefix("0x") {
        Some(digits) => hexadecimal(digits),
        None => None,
    }
}

/// How many addresses on an offset leads, of the 4096 of a node.
pub fn wrapped_address_offset(offset: i64) -> u32
    ensures value { result ≡ wrapped_address_offset offset }
    ensures most { result < 4096 }
{
    offset.rem_euclid(4096).unsigned_abs() as u32
}

/// The address of the first requested instruction.
fn first_instruction_address(arguments: &Value, cell: u8) -> u32
    ensures value { result ≡ first_instruction_address (view arguments.now) cell }
    ensures most { result < 4096 }
{
    let behind = wrapped_address_offset(parse_signed_member(arguments, "offset"))
        + wrapped_address_offset(parse_signed_member(arguments, "instructionOffset"));
    (u32::from(cell) + behind) % 4096
}

/// The node and the cell of a reference to memory, where there are.
pub fn resolve_memory_reference(reference: &str) -> Option<(NodeId, u8)>
    ensures { IsMemoryReference reference.now result }
{
    match address_asked(reference) {
        Some(address) => cell_at_chip_address(address),
        None => None,
    }
}

/// `disassemble`.
pub fn respond_disassemble(
    alloc: Global,
    program: &Debuggee,
    request: &ClientRequest,
    out: &mut Outbox,
) -> Result<(), AllocError>
    ensures sent { OnOk result ((message : Message) × AnswersDisassemble program.now request.now message × SendsMessage out.old message out.new) }
    ensures err { OnErr result (out.new ≡ out.old) }
{
    match member_as_text(&request.arguments, "memoryReference") {
        None => out.refuse(request, "disassemble: there is no memoryReference"),
        Some(reference) => tell_referred(alloc, program, request, reference, out),
    }
}

/// The instructions from a reference to memory on.
fn tell_referred(
    alloc: Global,
    program: &Debuggee,
    request: &ClientRequest,
    reference: &str,
    out: &mut Outbox,
) -> Result<(), AllocError>
    ensures sent { OnOk result ((message : Message) × DisassemblesReference program.now request.now (Some reference.now) message × SendsMessage out.old message out.new) }
    ensures err { OnErr result (out.new ≡ out.old) }
{
    match resolve_memory_reference(reference) {
        None => out.refuse(request, "disassemble: no such memory"),
        Some(at) => tell_instructions_at(alloc, program, request, at, out),
    }
}

/// The instructions from a cell on.
fn tell_instructions_at(
    alloc: Global,
    program: &Debuggee,
    request: &ClientRequest,
    at: (NodeId, u8),
    out: &mut Outbox,
) -> Result<(), AllocError>
    ensures sent { OnOk result ((message : Message) × DisassemblesMemory program.now request.now (Some at) message × SendsMessage out.old message out.new) }
    ensures err { OnErr result (out.new ≡ out.old) }
{
    match member_as_number(&request.arguments, "instructionCount") {
        None => out.refuse(request, "disassemble: there is no instructionCount"),
        Some(count) => tell_counted(alloc, program, request, at, count, out),
    }
}

/// The number of instructions to send, if it is not too large.
fn instruction_count_if_in_limit(count: u64) -> Option<u32>
    ensures value { result ≡ instruction_count_if_in_limit count }
    ensures most { IfSome result (λ count. count ≤ 4096) }
{
    if count > MOST_INSTRUCTIONS {
        return None;
    }
    Some(count as u32)
}

/// Sends `count` instructions from a cell on, if they are not too many.
fn tell_counted(
    alloc: Global,
    program: &Debuggee,
    request: &ClientRequest,
    at: (NodeId, u8),
    count: u64,
    out: &mut Outbox,
) -> Result<(), AllocError>
    ensures sent { OnOk result ((message : Message) × DisassemblesRequestedCount program.now request.now at (Some count) message × SendsMessage out.old message out.new) }
    ensures err { OnErr result (out.new ≡ out.old) }
{
    match instruction_count_if_in_limit(count) {
        None => out.refuse(request, "disassemble: 4096 instructions at most"),
        Some(count) => tell_some(alloc, program, request, at, count, out),
    }
}

/// Sends `count` instructions from a cell on.
fn tell_some(
    alloc: Global,
    program: &Debuggee,
    request: &ClientRequest,
    at: (NodeId, u8),
    count: u32,
    out: &mut Outbox,
) -> Result<(), AllocError>
    requires { count ≤ 4096 }
    ensures sent { OnOk result ((message : Message) × DisassemblesWithinLimit program.now request.now at (Some count) message × SendsMessage out.old message out.new) }
    ensures err { OnErr result (out.new ≡ out.old) }
{
    let first = first_instruction_address(&request.arguments, at.1);
    let (lab, notes) = (&program.lab, program.source_debug_info());
    let body = disassemble_response_body(alloc, program.file(), lab, notes, at.0, first, count)?;
    out.respond(request, body)
}
