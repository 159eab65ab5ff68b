//! `evaluate`.

ghost use Rattle.std.specs.Prelude.{◌≡◌, []};
ghost use Rattle.serde_json.specs.View.{view};
ghost use Rattle.ga_text.specs.Lines.{Text};
ghost use Rattle.ga_dap_queries.specs.Sending.{SendsMessages, Messages};
ghost use Rattle.ga_dap_queries.specs.Evaluating.{DenotesNoVariable};
ghost use Rattle.ga_dap_views.specs.Shown.{IsNodeVariable};
ghost use Rattle.ga_dap.specs.Evaluating.{AnswersEvaluateRequest, EvaluatesExpressionInNode, EvaluatesCommand, EvaluatesCommandIfAllowed, AreVariableValueMessages, is_repl_request};
ghost use Rattle.ga_dap.specs.Telling.{is_change_command_done};
ghost use Rattle.ga_dap.specs.inner.Carrying.{SendsReplyOrLacksMemory};

use crate::back::refuse;
use crate::changes::emit_command_with_retry;
use crate::evaluating::{command_text, node_of_expression, value_body};
use crate::unanswered::NoResponse;
use ga_dap_protocol::{ClientRequest, Outbox, member_as_text};
use ga_dap_queries::{Debuggee, parse_variable, thread_flags_by_node};
use ga_dap_views::Variable;
use ga_explorer::{CommandClass, command_class_of_line, is_refusal_answer};
use ga_grid::NodeId;
use std::alloc::Global;

/// Whether a command of this class changes the machine and was carried out, by its answer.
fn is_change_command_done(class: Option<CommandClass>, answer: &[u8]) -> bool
    ensures { result ≡ is_change_command_done class answer.now }
{
    match class {
        Some(CommandClass::Change) => !is_refusal_answer(answer),
        Some(CommandClass::Query) => false,
        None => false,
    }
}

/// Whether a request may give commands: a client that only shows a value doesn't.
fn is_repl_request(request: &ClientRequest) -> bool
    ensures { result ≡ is_repl_request request.now }
{
    member_as_text(&request.arguments, "context").unwrap_or("repl") == "repl"
}

/// Shows a register or a cell.
fn show_value(
    alloc: Global,
    program: &Debuggee,
    request: &ClientRequest,
    node: NodeId,
    variable: Variable,
    out: &mut Outbox,
) -> Result<(), NoResponse>
    requires { IsNodeVariable variable }
    ensures { SendsReplyOrLacksMemory result (λ messages. AreVariableValueMessages program.now request.now node variable messages) (Unit {0}) out.old out.new }
{
    let Ok(body) = value_body(alloc, program, node, variable) else {
        return Err(NoResponse::Memory);
    };
    match out.respond(request, body) {
        Ok(()) => Ok(()),
        Err(_) => Err(NoResponse::Memory),
    }
}

/// Carries a command of exploring out.
fn obey(
    alloc: Global,
    program: &mut Debuggee,
    request: &ClientRequest,
    node: NodeId,
    line: &str,
    out: &mut Outbox,
) -> Result<(), NoResponse>
    requires { out.old.bytes ≡ [] }
    ensures { SendsReplyOrLacksMemory result (λ messages. EvaluatesCommand program.old request.now node line.now messages program.new) (program.new ≡ program.old) out.old out.new }
{
    let before = thread_flags_by_node(&program.lab, program.nodes.as_slice());
    let bytes = line.as_bytes();
    let class = command_class_of_line(bytes);
    match command_text(alloc, program, bytes) {
        Ok(Some(answer)) => {
            let text = answer.as_slice();
            let moved = is_change_command_done(class, text);
            emit_command_with_retry(alloc, program, &before, request, text, moved, node, out)
        }
        Ok(None) => refuse(request, "evaluate: disconnect ends the session", out),
        Err(NoResponse::Memory) => Err(NoResponse::Memory),
        Err(NoResponse::Untold) => Err(NoResponse::Untold),
    }
}

/// Carries a command of exploring out, where the client may give commands.
fn obey_if(
    alloc: Global,
    program: &mut Debuggee,
    request: &ClientRequest,
    node: NodeId,
    line: &str,
    out: &mut Outbox,
) -> Result<(), NoResponse>
    requires { out.old.bytes ≡ [] }
    ensures { SendsReplyOrLacksMemory result (λ messages. EvaluatesCommandIfAllowed (is_repl_request request.now) program.old request.now node line.now messages program.new) (program.new ≡ program.old) out.old out.new }
{
    if is_repl_request(request) {
        obey(alloc, program, request, node, line, out)
    } else {
        refuse(request, "evaluate: no register and no cell", out)
    }
}

/// `evaluate` of an expression in a node.
fn evaluate_in(
    alloc: Global,
    program: &mut Debuggee,
    request: &ClientRequest,
    node: NodeId,
    expression: &str,
    out: &mut Outbox,
) -> Result<(), NoResponse>
    requires { out.old.bytes ≡ [] }
    ensures { SendsReplyOrLacksMemory result (λ messages. EvaluatesExpressionInNode program.old request.now node expression.now messages program.new) (program.new ≡ program.old) out.old out.new }
{
    match parse_variable(alloc, expression) {
        Ok(Some(variable)) => show_value(alloc, program, request, node, variable, out),
        Ok(None) => obey_if(alloc, program, request, node, expression, out),
        Err(_) => Err(NoResponse::Memory),
    }
}

/// `evaluate`.
pub(crate) fn evaluate(
    alloc: Global,
    program: &mut Debuggee,
    request: &ClientRequest,
    out: &mut Outbox,
) -> Result<(), NoResponse>
    requires { out.old.bytes ≡ [] }
    ensures { SendsReplyOrLacksMemory result (λ messages. AnswersEvaluateRequest program.old request.now messages program.new) (program.new ≡ program.old) out.old out.new }
{
    let Some(expression) = member_as_text(&request.arguments, "expression") else {
        return refuse(request, "evaluate: there is no expression", out);
    };
    let node = node_of_expression(program, request);
    evaluate_in(alloc, program, request, node, expression.trim_ascii(), out)
}
