//! What `evaluate` is answered: registers, cells, and the commands of exploring.

ghost use Rattle.std.specs.Prelude.{◌≡◌, ◌≤◌, [], Bool, Ok, Err, Some, None, length, take, option_map, IfOk, Result, Option};
ghost use Rattle.std.specs.Str.{IsTrimAsciiEnd};
ghost use Rattle.std.specs.Str.Lossy.{utf8_lossy};
ghost use Rattle.ga_text.specs.Lines.{Bytes, Text};
ghost use Rattle.serde_json.specs.View.{view};
ghost use Rattle.ga_lab.specs.Machine.{chip_of_machine};
ghost use Rattle.ga_dap_views.specs.Shown.{IsNodeVariable};
ghost use Rattle.ga_dap_queries.specs.Evaluating.{evaluate_body};
ghost use Rattle.ga_dap_queries.specs.Readings.{TellsIfNodeIsDeadlocked};
ghost use Rattle.ga_dap.specs.Evaluating.{IsEvaluationNode, ExecutesConsoleCommand, answer_text_object};
ghost use Rattle.ga_dap.specs.inner.Carrying.{no_response_reason_of_command_class};
ghost use Rattle.ga_explorer.specs.Classes.{command_class_of_line};

use crate::unanswered::NoResponse;
use ga_console::LineAction;
use ga_dap_protocol::ClientRequest;
use ga_dap_queries::{
    Debuggee, first_node_with_thread, frame_argument, is_deadlocked, make_evaluate_body,
};
use ga_dap_views::Variable;
use ga_explorer::{CommandClass, answer_explorer_line, command_class_of_line};
use ga_grid::NodeId;
use ga_text::{OUTPUT_CAPACITY, Writer};
use serde_json::{Value, json};
use std::alloc::{AllocError, Global};

/// The most bytes of a line that are looked at: one more than a line may have.
const LOOKED_AT: usize = 201;

/// The node of an expression: that of the frame, otherwise the first that has something to show.
pub(crate) fn node_of_expression(program: &Debuggee, request: &ClientRequest) -> NodeId
    ensures { IsEvaluationNode program.now request.now result }
{
    match frame_argument(&request.arguments) {
        Some(node) => node,
        None => first_node_with_thread(&program.lab, program.nodes.as_slice()),
    }
}

/// The value of a register or a cell of a node.
pub(crate) fn value_body(
    alloc: Global,
    program: &Debuggee,
    node: NodeId,
    variable: Variable,
) -> Result<Value, AllocError>
    requires { IsNodeVariable variable }
    ensures { IfOk result (λ v. (stuck : Bool) × TellsIfNodeIsDeadlocked (chip_of_machine program.now.lab) node.number stuck × (view v ≡ evaluate_body program.now.lab stuck node.number variable)) }
{
    let stuck = is_deadlocked(program.lab.chip(), node);
    make_evaluate_body(alloc, &program.lab, stuck, node, variable)
}

/// The first bytes of a line, as many as are looked at.
#[tactic(auto, using(std::proofs::lemmas::List::take_all))]
fn front_of_line(line: &[u8]) -> &[u8]
    ensures { result.now ≡ take LOOKED_AT line.now }
{
    if line.len() <= LOOKED_AT {
        line
    } else {
        line.split_at(LOOKED_AT).0
    }
}

/// Why a command has no answer, if an allocation failed after it was carried out: only a query changed nothing.
fn no_response_to(line: &[u8]) -> NoResponse
    ensures { result ≡ no_response_reason_of_command_class (command_class_of_line line.now) }
{
    match command_class_of_line(line) {
        Some(CommandClass::Change) => NoResponse::Untold,
        Some(CommandClass::Query) => NoResponse::Memory,
        None => NoResponse::Memory,
    }
}

/// Carries out a command of exploring. It is answered by a text, or would end the session. Room for a short answer is taken before.
///
/// # Errors
/// An allocation failed, before anything changed or after a change.
pub(crate) fn command_text(
    alloc: Global,
    program: &mut Debuggee,
    line: &[u8],
) -> Result<Option<Vec<u8>>, NoResponse>
    ensures told { IfOk result (λ told. ExecutesConsoleCommand program.old line.now program.new (option_map (λ text. text.items) told)) }
    ensures unmoved { result ≡ Err NoResponse.Memory → program.new ≡ program.old }
{
    let mut answer = Vec::new(alloc);
    let Ok(()) = answer.reserve(OUTPUT_CAPACITY) else {
        return Err(NoResponse::Memory);
    };
    let mut said = Writer::new(&mut answer);
    match answer_explorer_line(
        alloc,
        &mut program.lab,
        &program.source,
        front_of_line(line),
        &mut said,
    ) {
        Ok(LineAction::Answered) => match said.flush() {
            Ok(()) => Ok(Some(answer)),
            Err(_) => Err(no_response_to(line)),
        },
        Ok(LineAction::Refused) => Ok(None),
        Ok(LineAction::Quit) => Ok(None),
        Err(_) => Err(no_response_to(line)),
    }
}

/// A text as it is shown: what is not UTF-8 replaced.
#[tactic(auto, unfolding(crate::specs::Evaluating::answer_text_object))]
fn answer_body(alloc: Global, text: &str) -> Result<Value, AllocError>
    ensures { IfOk result (λ v. view v ≡ answer_text_object text.now) }
{
    json!(in alloc; {"result": text, "variablesReference": 0u64})
}

/// The body that has a text as its result, without the blanks at its end.
pub(crate) fn text_body(alloc: Global, text: &[u8]) -> Result<Value, AllocError>
    ensures { IfOk result (λ v. (shown : Text) × IsTrimAsciiEnd text.now shown × (view v ≡ answer_text_object (utf8_lossy shown))) }
{
    let text = String::from_utf8_lossy(alloc, text.trim_ascii_end())?;
    answer_body(alloc, text.as_str())
}
