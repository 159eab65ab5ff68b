//! `dataBreakpointInfo`.

ghost use Rattle.std.specs.Prelude.{◌≡◌, ◌<◌, ◌^◌, ◌∷◌, [], Some, option_map, string_bytes, IfOk, OnOk, OnErr};
ghost use Rattle.serde_json.specs.View.{view};
ghost use Rattle.hex.specs.Hex.{encode_lower};
ghost use Rattle.ga_word.specs.Word.{hex_digits_of_word};
ghost use Rattle.ga_text.specs.Digits.{two_hex_digits_text};
ghost use Rattle.ga_dap_queries.specs.Evaluating.{cell_variable_in_brackets};
ghost use Rattle.ga_dap_views.specs.Variables.{memory_reference};
ghost use Rattle.ga_dap_views.specs.declared.scope.Scope.TheVariants.{Ram};
ghost use Rattle.ga_dap_views.specs.declared.variable.Variable.TheVariants.{Cell};
ghost use Rattle.ga_dap_queries.specs.Sending.{SendsMessage, Message};
ghost use Rattle.ga_dap_queries.specs.Watching.{data_breakpoint_info_object, no_data_breakpoint_info_object, cell_description, ram_cell_of_name, data_breakpoint_info_of_cell, data_breakpoint_info_in_scope, data_breakpoint_info_body, AnswersDataBreakpointInfo};

use crate::arguments::variables_reference_argument;
use crate::naming::push_node_name;
use ga_dap_protocol::{ClientRequest, Outbox, member_as_text};
use ga_dap_views::{Scope, chip_address};
use ga_grid::NodeId;
use ga_text::parse_hex_byte;
use serde_json::{Value, json};
use std::alloc::{AllocError, Global};

#[tactic(auto, unfolding(crate::specs::Watching::data_breakpoint_info_object))]
fn data_breakpoint_info_object(
    alloc: Global,
    id: &str,
    description: &str,
) -> Result<Value, AllocError>
    ensures { IfOk result (λ v. view v ≡ data_breakpoint_info_object id.now description.now) }
{
    json!(in alloc; {"accessTypes": ["write"], "canPersist": true, "dataId": id, "description": description})
}

#[tactic(auto, unfolding(crate::specs::Watching::no_data_breakpoint_info_object))]
fn no_data_breakpoint_info_object(alloc: Global) -> Result<Value, AllocError>
    ensures { IfOk result (λ v. view v ≡ no_data_breakpoint_info_object) }
{
    json!(in alloc; {"dataId": null, "description": "only cells of RAM are watched"})
}

/// Six hexadecimal digits.
fn six_digits(alloc: Global, high: u8, middle: u8, low: u8) -> Result<String, AllocError>
    ensures { IfOk result (λ text. string_bytes text ≡ encode_lower (high ∷ middle ∷ low ∷ [])) }
{
    let bytes = [high, middle, low];
    hex::encode(alloc, bytes.as_slice())
}

/// The six hexadecimal digits of an address of the chip.
#[tactic(auto, using(crate::proofs::Sent::six_digits))]
fn address_digits(alloc: Global, address: u32) -> Result<String, AllocError>
    requires { address < 2 ^ 24 }
    ensures { IfOk result (λ text. string_bytes text ≡ hex_digits_of_word address) }
{
    six_digits(
        alloc,
        (address / 65536) as u8,
        (address / 256 % 256) as u8,
        (address % 256) as u8,
    )
}

/// A reference to an address of the chip.
fn reference_text(alloc: Global, address: u32) -> Result<String, AllocError>
    requires { address < 2 ^ 24 }
    ensures { IfOk result (λ text. string_bytes text ≡ memory_reference address) }
{
    let digits = address_digits(alloc, address)?;
    let mut text = String::from_str(alloc, "0x")?;
    text.push_str(digits.as_str())?;
    Ok(text)
}

/// Two hexadecimal digits.
#[tactic(auto, unfolding(hex::specs::Hex::encode_with))]
fn two_digits(alloc: Global, byte: u8) -> Result<String, AllocError>
    ensures { IfOk result (λ text. string_bytes text ≡ two_hex_digits_text byte) }
{
    let bytes = [byte];
    hex::encode(alloc, bytes.as_slice())
}

/// A cell of a node.
fn cell_description(alloc: Global, node: NodeId, cell: u8) -> Result<String, AllocError>
    ensures { IfOk result (λ text. string_bytes text ≡ cell_description node cell) }
{
    let digits = two_digits(alloc, cell)?;
    let mut text = String::from_str(alloc, "node ")?;
    push_node_name(&mut text, node)?;
    text.push_str(", cell ")?;
    text.push_str(digits.as_str())?;
    Ok(text)
}

/// The cell of two hexadecimal digits in brackets.
fn cell_variable_in_brackets(text: &[u8]) -> Option<u8>
    ensures { option_map (λ cell. Cell cell) result ≡ cell_variable_in_brackets text.now }
{
    if text.len() == 4 && text[0] == b'[' && text[3] == b']' {
        parse_hex_byte(&text[1..3])
    } else {
        None
    }
}

/// The cell of RAM of a name.
fn ram_cell_of_name(text: &[u8]) -> Option<u8>
    ensures { result ≡ ram_cell_of_name text.now }
{
    match cell_variable_in_brackets(text) {
        Some(cell) => { if cell < 128 { Some(cell) } else { None } }
        None => None,
    }
}

/// What is sent about a cell of RAM.
fn data_breakpoint_info_of_cell(
    alloc: Global,
    node: NodeId,
    cell: Option<u8>,
) -> Result<Value, AllocError>
    ensures { IfOk result (λ v. view v ≡ data_breakpoint_info_of_cell node cell) }
{
    match cell {
        Some(cell) => watched_named(alloc, node, cell),
        None => no_data_breakpoint_info_object(alloc),
    }
}

fn watched_named(alloc: Global, node: NodeId, cell: u8) -> Result<Value, AllocError>
    ensures { IfOk result (λ v. view v ≡ data_breakpoint_info_of_cell node (Some cell)) }
{
    let id = reference_text(alloc, chip_address(node, cell))?;
    let description = cell_description(alloc, node, cell)?;
    data_breakpoint_info_object(alloc, id.as_str(), description.as_str())
}

/// What is sent about the variable of a name in the RAM of a node.
fn watched_in_ram(alloc: Global, node: NodeId, name: Option<&str>) -> Result<Value, AllocError>
    ensures { IfOk result (λ v. view v ≡ data_breakpoint_info_in_scope Ram node (option_map (λ text. text.now) name.entry)) }
{
    match name {
        Some(text) => data_breakpoint_info_of_cell(alloc, node, ram_cell_of_name(text.as_bytes())),
        None => no_data_breakpoint_info_object(alloc),
    }
}

/// What is sent about the variable of a name in a scope.
fn data_breakpoint_info_in_scope(
    alloc: Global,
    scope: Scope,
    node: NodeId,
    name: Option<&str>,
) -> Result<Value, AllocError>
    ensures { IfOk result (λ v. view v ≡ data_breakpoint_info_in_scope scope node (option_map (λ text. text.now) name.entry)) }
{
    match scope {
        Scope::Ram => watched_in_ram(alloc, node, name),
        Scope::Registers => no_data_breakpoint_info_object(alloc),
        Scope::DataStackScope => no_data_breakpoint_info_object(alloc),
        Scope::ReturnStackScope => no_data_breakpoint_info_object(alloc),
        Scope::Links => no_data_breakpoint_info_object(alloc),
        Scope::Rom => no_data_breakpoint_info_object(alloc),
    }
}

fn data_breakpoint_info_body(
    alloc: Global,
    at: Option<(NodeId, Scope)>,
    name: Option<&str>,
) -> Result<Value, AllocError>
    ensures { IfOk result (λ v. view v ≡ data_breakpoint_info_body at (option_map (λ text. text.now) name.entry)) }
{
    match at {
        Some(at) => data_breakpoint_info_in_scope(alloc, at.1, at.0, name),
        None => no_data_breakpoint_info_object(alloc),
    }
}

/// `dataBreakpointInfo`.
pub fn respond_data_breakpoint_info(
    alloc: Global,
    request: &ClientRequest,
    out: &mut Outbox,
) -> Result<(), AllocError>
    ensures sent { OnOk result ((message : Message) × AnswersDataBreakpointInfo request.now message × SendsMessage out.old message out.new) }
    ensures err { OnErr result (out.new ≡ out.old) }
{
    let at = variables_reference_argument(&request.arguments);
    let body = data_breakpoint_info_body(alloc, at, member_as_text(&request.arguments, "name"))?;
    out.respond(request, body)
}
