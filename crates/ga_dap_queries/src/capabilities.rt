//! What this debugger can do.

ghost use Rattle.std.specs.Prelude.{◌≡◌, option_map, IfOk, OnOk, OnErr};
ghost use Rattle.serde_json.specs.View.{view};
ghost use Rattle.ga_dap_queries.specs.Sending.{SendsMessage, Message, success_response};
ghost use Rattle.ga_dap_queries.specs.Capabilities.{AnswersInitialize, debugger_capabilities, exception_filter_object, exception_breakpoint_filters, counts_lines_from_one, names_files_by_path, unsupported_client_option};

use crate::arguments::parse_boolean_member;
use ga_dap_protocol::{ClientRequest, Outbox, member_as_text};
use serde_json::{Value, json};
use std::alloc::{AllocError, Global};

#[tactic(auto, unfolding(crate::specs::Capabilities::exception_filter_object))]
fn exception_filter_object(alloc: Global, filter: &str, label: &str) -> Result<Value, AllocError>
    ensures { IfOk result (λ v. view v ≡ exception_filter_object filter.now label.now) }
{
    json!(in alloc; {"default": true, "filter": filter, "label": label})
}

/// The faults that can end a run.
fn exception_breakpoint_filters(alloc: Global) -> Result<Value, AllocError>
    ensures { IfOk result (λ v. view v ≡ exception_breakpoint_filters) }
{
    let stop = exception_filter_object(alloc, "stop", "A node stops")?;
    let stuck = exception_filter_object(alloc, "stuck", "A node can never go on")?;
    let broken = exception_filter_object(alloc, "broken", "An expectation is broken")?;
    json!(in alloc; [stop, stuck, broken])
}

/// What this debugger can do (Debug Adapter Protocol, "Capabilities"), beside its filters.
#[tactic(auto, unfolding(crate::specs::Capabilities::debugger_capabilities))]
fn capabilities(alloc: Global, exception_breakpoint_filters: Value) -> Result<Value, AllocError>
    ensures { IfOk result (λ v. view v ≡ debugger_capabilities (view exception_breakpoint_filters)) }
{
    json!(in alloc; {
        "exceptionBreakpointFilters": exception_breakpoint_filters,
        "supportsConditionalBreakpoints": true,
        "supportsConfigurationDoneRequest": true,
        "supportsDataBreakpoints": true,
        "supportsDisassembleRequest": true,
        "supportsEvaluateForHovers": true,
        "supportsExceptionInfoRequest": true,
        "supportsFunctionBreakpoints": true,
        "supportsHitConditionalBreakpoints": true,
        "supportsInstructionBreakpoints": true,
        "supportsStepBack": true,
        "supportsSteppingGranularity": true,
        "supportsTerminateRequest": true
    })
}

/// Whether lines or columns are counted from 1 on, as the client would have it.
fn counts_lines_from_one(arguments: &Value, name: &str) -> bool
    ensures { result ≡ counts_lines_from_one name.now (view arguments.now) }
{
    parse_boolean_member(arguments, name).unwrap_or(true)
}

/// Whether files are named by their paths.
fn names_files_by_path(arguments: &Value) -> bool
    ensures { result ≡ names_files_by_path (view arguments.now) }
{
    match member_as_text(arguments, "pathFormat") {
        Some(format) => format == "path",
        None => true,
    }
}

/// What the client does otherwise than this debugger.
fn unsupported_client_option(arguments: &Value) -> Option<&'static str>
    ensures { option_map (λ why. why.now) result ≡ unsupported_client_option (view arguments.now) }
{
    if !counts_lines_from_one(arguments, "linesStartAt1") {
        return Some("initialize: lines are counted from 1 on");
    }
    if !counts_lines_from_one(arguments, "columnsStartAt1") {
        return Some("initialize: columns are counted from 1 on");
    }
    if !names_files_by_path(arguments) {
        return Some("initialize: files are named by paths");
    }
    None
}

/// Sends what this debugger can do.
fn tell_capabilities(
    alloc: Global,
    request: &ClientRequest,
    out: &mut Outbox,
) -> Result<(), AllocError>
    ensures sent { OnOk result (SendsMessage out.old (success_response request.now (debugger_capabilities exception_breakpoint_filters)) out.new) }
    ensures err { OnErr result (out.new ≡ out.old) }
{
    let exception_breakpoint_filters = exception_breakpoint_filters(alloc)?;
    let body = capabilities(alloc, exception_breakpoint_filters)?;
    out.respond(request, body)
}

/// `initialize`.
pub fn respond_initialize(
    alloc: Global,
    request: &ClientRequest,
    out: &mut Outbox,
) -> Result<(), AllocError>
    ensures sent { OnOk result ((message : Message) × AnswersInitialize request.now message × SendsMessage out.old message out.new) }
    ensures err { OnErr result (out.new ≡ out.old) }
{
    match unsupported_client_option(&request.arguments) {
        Some(why) => out.refuse(request, why),
        None => tell_capabilities(alloc, request, out),
    }
}
