//! A register or a cell, asked for by its name.

ghost use Rattle.std.specs.Prelude.{◌≡◌, ◌≢◌, ◌<◌, ◌↔◌, ℕ, IsTrue, IfOk, IfSome, IfNone};
ghost use Rattle.serde_json.specs.View.{view};
ghost use Rattle.ga_dap_views.specs.declared.scope.Scope.TheVariants.{Registers};
ghost use Rattle.ga_dap_views.specs.Shown.{IsNodeVariable, scope_variable_at_index, variable_count, variable_name};
ghost use Rattle.ga_dap_queries.specs.Evaluating.{cell_variable_in_brackets, DenotesVariable, DenotesNoVariable, evaluate_result_object, evaluate_body};

use ga_dap_views::{
    Scope, Variable, count_variables, find_variable_at_index, json_value_of_variable, variable_name,
};
use ga_grid::NodeId;
use ga_lab::Lab;
use ga_text::parse_hex_byte;
use serde_json::{Value, json};
use std::alloc::{AllocError, Global};

/// Whether a variable has this name.
fn has_name(alloc: Global, one: Variable, name: &str) -> Result<bool, AllocError>
    requires { IsNodeVariable one }
    ensures { IfOk result (λ same. IsTrue same ↔ (variable_name one ≡ name.now)) }
{
    let own = variable_name(alloc, one)?;
    Ok(own.as_str() == name)
}

/// The register of a name, where there is one.
fn register_named(alloc: Global, name: &str) -> Result<Option<Variable>, AllocError>
    ensures found { IfOk result (λ found. IfSome found (λ one. variable_name one ≡ name.now)) }
    ensures valid { IfOk result (λ found. IfSome found IsNodeVariable) }
    ensures none { IfOk result (λ found. IfNone found
        ((k : ℕ) → k < variable_count Registers → variable_name (scope_variable_at_index Registers k) ≢ name.now)) }
{
    'registers: for place in 0..count_variables(Scope::Registers) {
        let one = find_variable_at_index(Scope::Registers, place);
        let same = has_name(alloc, one, name)?;
        if same {
            return Ok(Some(one));
        }
    }
    Ok(None)
}

/// The cell of two hexadecimal digits in brackets, where there is one.
fn cell_named(text: &[u8]) -> Option<Variable>
    ensures value { result ≡ cell_variable_in_brackets text.now }
    ensures valid { IfSome result IsNodeVariable }
{
    if text.len() == 4 && text[0] == b'[' && text[3] == b']' {
        let address = parse_hex_byte(&text[1..3])?;
        Some(Variable::Cell(address))
    } else {
        None
    }
}

/// What an expression asks for: a register by its name, as `variables` shows it, or a cell by two hexadecimal digits in brackets. Takes
/// memory for a name, and gives it back.
///
/// # Errors
/// Memory was refused.
pub fn parse_variable(alloc: Global, expression: &str) -> Result<Option<Variable>, AllocError>
    ensures found { IfOk result (λ found. IfSome found (DenotesVariable expression.now)) }
    ensures valid { IfOk result (λ found. IfSome found IsNodeVariable) }
    ensures none { IfOk result (λ found. IfNone found (DenotesNoVariable expression.now)) }
{
    match register_named(alloc, expression)? {
        Some(one) => Ok(Some(one)),
        None => Ok(cell_named(expression.as_bytes())),
    }
}

#[tactic(auto, unfolding(crate::specs::Evaluating::evaluate_result_object))]
fn answer(alloc: Global, value: &str) -> Result<Value, AllocError>
    ensures { IfOk result (λ v. view v ≡ evaluate_result_object value.now) }
{
    json!(in alloc; {"result": value, "variablesReference": 0u64})
}

/// The body of the response to `evaluate` (Debug Adapter Protocol, "EvaluateRequest") that asks for a variable of a frame's node. `stuck`
/// says whether the node can never go on. Takes memory for the response.
///
/// # Errors
/// Memory was refused.
pub fn make_evaluate_body(
    alloc: Global,
    lab: &Lab,
    stuck: bool,
    node: NodeId,
    variable: Variable,
) -> Result<Value, AllocError>
    requires { IsNodeVariable variable }
    ensures { IfOk result (λ v. view v ≡ evaluate_body lab.now stuck node.number variable) }
{
    let value = json_value_of_variable(alloc, lab, stuck, node, variable)?;
    answer(alloc, value.as_str())
}
