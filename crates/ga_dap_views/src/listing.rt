//! The scopes of a node, and the variables of a scope.

ghost use Rattle.std.specs.Prelude.{◌≡◌, true, false, ◌<◌, ◌+◌, ◌-◌, ◌^◌, ◌≤◌, ℕ, IfOk, map, length, string_bytes};
ghost use Rattle.std.specs.List.{range_with_len};
ghost use Rattle.serde_json.specs.View.{view};
ghost use Rattle.ga_dap_views.specs.Shown.{IsNodeVariable, scope_variable_at_index, variable_count};
ghost use Rattle.ga_dap_views.specs.Variables.{scope_name, scope_object, is_memory_scope, node_scope_object, all_scopes, scopes_body, variable_object, cell_object, variable_or_cell_object, variable_value_object, variables_body};

use crate::json::object_with;
use crate::numbers::{chip_address, variables_reference};
use crate::scope::Scope;
use crate::texts::address_text;
use crate::values::json_value_of_variable;
use crate::variable::{Variable, count_variables, find_variable_at_index, variable_name};
use ga_grid::NodeId;
use ga_lab::Lab;
use serde_json::{Value, json, push};
use std::alloc::{AllocError, Global};

/// The scopes, in order.
const SCOPES: [Scope; 6] = [
    Scope::Registers,
    Scope::DataStackScope,
    Scope::ReturnStackScope,
    Scope::Links,
    Scope::Ram,
    Scope::Rom,
];

fn name_of_scope(scope: Scope) -> &'static str
    ensures { result.now ≡ scope_name scope }
{
    match scope {
        Scope::Registers => "Registers",
        Scope::DataStackScope => "Data stack",
        Scope::ReturnStackScope => "Return stack",
        Scope::Links => "Links",
        Scope::Ram => "RAM",
        Scope::Rom => "ROM",
    }
}

/// A memory as a scope.
#[tactic(auto, unfolding(crate::specs::Variables::scope_object))]
fn memory_object(alloc: Global, cells: u8, name: &str, reference: u64) -> Result<Value, AllocError>
    ensures { IfOk result (λ v. view v ≡ scope_object true cells name.now reference) }
{
    json!(in alloc; {"expensive": true, "indexedVariables": u64::from(cells), "name": name, "variablesReference": reference})
}

/// A scope that is no memory.
#[tactic(auto, unfolding(crate::specs::Variables::scope_object))]
fn plain_scope(alloc: Global, name: &str, reference: u64) -> Result<Value, AllocError>
    ensures { IfOk result (λ v. (cells : ℕ) → view v ≡ scope_object false cells name.now reference) }
{
    json!(in alloc; {"expensive": false, "name": name, "variablesReference": reference})
}

/// A scope of a node.
fn scope(alloc: Global, node: NodeId, scope: Scope) -> Result<Value, AllocError>
    ensures { IfOk result (λ v. view v ≡ node_scope_object node.number scope) }
{
    let name = name_of_scope(scope);
    let reference = variables_reference(node, scope);
    match scope {
        Scope::Ram => memory_object(alloc, 64, name, reference),
        Scope::Rom => memory_object(alloc, 64, name, reference),
        _ => plain_scope(alloc, name, reference),
    }
}

/// The scopes of a node, in order.
#[tactic(auto, using(crate::proofs::Lists::take_step))]
fn all_of(alloc: Global, node: NodeId) -> Result<Vec<Value>, AllocError>
    ensures { IfOk result (λ list. map view list.items ≡ map (node_scope_object node.number) all_scopes) }
{
    let mut list = Vec::new(alloc);
    'scopes: for place in 0..6u8 {
        let value = scope(alloc, node, SCOPES[place as usize])?;
        push(&mut list, value)?;
    }
    Ok(list)
}

/// The body of the response to `scopes` (Debug Adapter Protocol, "ScopesRequest") for a frame of a node. Takes memory for the
/// response.
///
/// # Errors
/// An allocation failed.
pub fn make_scopes_body(alloc: Global, node: NodeId) -> Result<Value, AllocError>
    ensures { IfOk result (λ v. view v ≡ scopes_body node.number) }
{
    let list = all_of(alloc, node)?;
    object_with(alloc, "scopes", list)
}

/// A value that has no parts.
#[tactic(auto, unfolding(crate::specs::Variables::variable_object))]
fn plain_variable(alloc: Global, name: &str, value: &str) -> Result<Value, AllocError>
    ensures { IfOk result (λ v. view v ≡ variable_object name.now value.now) }
{
    json!(in alloc; {"name": name, "value": value, "variablesReference": 0u64})
}

/// A value at an address of the chip, by its text.
#[tactic(auto, unfolding(crate::specs::Variables::cell_object))]
fn cell_variable(alloc: Global, address: u32, name: &str, value: &str) -> Result<Value, AllocError>
    requires { address < 2 ^ 24 }
    ensures { IfOk result (λ v. view v ≡ cell_object address name.now value.now) }
{
    let reference = address_text(alloc, address)?;
    json!(in alloc; {"memoryReference": &reference, "name": name, "value": value, "variablesReference": 0u64})
}

/// A variable of a node.
fn variable(
    alloc: Global,
    lab: &Lab,
    stuck: bool,
    node: NodeId,
    variable: Variable,
) -> Result<Value, AllocError>
    requires { IsNodeVariable variable }
    ensures { IfOk result (λ v. view v ≡ variable_value_object lab.now stuck node.number variable) }
{
    let name = variable_name(alloc, variable)?;
    let value = json_value_of_variable(alloc, lab, stuck, node, variable)?;
    match variable {
        Variable::Cell(address) => {
            cell_variable(
                alloc,
                chip_address(node, address),
                name.as_str(),
                value.as_str(),
            )
        }
        _ => plain_variable(alloc, name.as_str(), value.as_str()),
    }
}

/// The variables of a scope from one place to another.
fn between(
    alloc: Global,
    lab: &Lab,
    stuck: bool,
    at: (NodeId, Scope),
    first: u8,
    end: u8,
) -> Result<Vec<Value>, AllocError>
    requires order { first ≤ end }
    requires within { end ≤ variable_count at.1 }
    ensures { IfOk result (λ list. map view list.items
        ≡ map (λ k. variable_value_object lab.now stuck at.0.number (scope_variable_at_index at.1 k)) (range_with_len first (end - first))) }
{
    let mut list = Vec::new(alloc);
    'places: for place in first..end {
        let value = variable(alloc, lab, stuck, at.0, find_variable_at_index(at.1, place))?;
        push(&mut list, value)?;
    }
    Ok(list)
}

/// The body of the response to `variables` (Debug Adapter Protocol, "VariablesRequest"): of a node's scope, `count` variables
/// from a place on, or all remaining if `count` is 0. `stuck` is whether the node is deadlocked. Takes memory for the response.
///
/// # Errors
/// An allocation failed.
pub fn make_variables_body(
    alloc: Global,
    lab: &Lab,
    stuck: bool,
    at: (NodeId, Scope),
    start: u64,
    count: u64,
) -> Result<Value, AllocError>
    ensures { IfOk result (λ v. view v ≡ variables_body lab.now stuck at.0.number at.1 start count) }
{
    let size = u64::from(count_variables(at.1));
    let left = size.saturating_sub(start);
    let many = if count == 0 { left } else { count.min(left) };
    let first = start.min(size);
    let list = between(alloc, lab, stuck, at, first as u8, (first + many) as u8)?;
    object_with(alloc, "variables", list)
}
