//! The requests that read.

ghost use Rattle.std.specs.Prelude.{◌≡◌, if◌then◌else◌, codes, option_map, IfOk, OnOk, OnErr};
ghost use Rattle.serde_json.specs.View.{view};
ghost use Rattle.ga_dap_queries.specs.Sending.{SendsMessage, Message};
ghost use Rattle.ga_dap_views.specs.Variables.{is_memory_scope};
ghost use Rattle.ga_dap_queries.specs.Readings.{matches_variables_filter, empty_variables_body, filtered_variables_body, IsVariablesResponse, AnswersThreads, AnswersStackTrace, AnswersScopes, AnswersVariables, AnswersExceptionInfo};

use crate::arguments::{
    frame_argument, number_member_or_default, thread_argument, variables_reference_argument,
};
use crate::debuggee::Debuggee;
use crate::exceptions::make_exception_info_body;
use crate::stuck::is_deadlocked;
use ga_dap_protocol::{ClientRequest, Outbox, member_as_text};
use ga_dap_views::{
    Scope, make_scopes_body, make_threads_body, make_variables_body, stack_trace_body,
};
use ga_grid::NodeId;
use ga_lab::Lab;
use serde_json::{Value, json};
use std::alloc::{AllocError, Global};

/// `threads`.
#[tactic(auto, using(crate::proofs::Sent::ok_then, crate::proofs::Sent::answers_so))]
pub fn respond_threads(
    alloc: Global,
    program: &Debuggee,
    request: &ClientRequest,
    out: &mut Outbox,
) -> Result<(), AllocError>
    ensures sent { OnOk result ((message : Message) × AnswersThreads program.now request.now message × SendsMessage out.old message out.new) }
    ensures err { OnErr result (out.new ≡ out.old) }
{
    let body = make_threads_body(alloc, &program.lab, program.nodes.as_slice())?;
    out.respond(request, body)
}

/// `stackTrace`.
pub fn respond_stack_trace(
    alloc: Global,
    program: &Debuggee,
    request: &ClientRequest,
    out: &mut Outbox,
) -> Result<(), AllocError>
    ensures sent { OnOk result ((message : Message) × AnswersStackTrace program.now request.now message × SendsMessage out.old message out.new) }
    ensures err { OnErr result (out.new ≡ out.old) }
{
    match thread_argument(&request.arguments) {
        None => out.refuse(request, "stackTrace: no such thread"),
        Some(node) => {
            let start = number_member_or_default(&request.arguments, "startFrame", 0);
            let count = number_member_or_default(&request.arguments, "levels", 0);
            let (lab, notes) = (&program.lab, program.source_debug_info());
            let body = stack_trace_body(alloc, program.file(), lab, notes, node, start, count)?;
            out.respond(request, body)
        }
    }
}

/// `scopes`.
pub fn respond_scopes(
    alloc: Global,
    request: &ClientRequest,
    out: &mut Outbox,
) -> Result<(), AllocError>
    ensures sent { OnOk result ((message : Message) × AnswersScopes request.now message × SendsMessage out.old message out.new) }
    ensures err { OnErr result (out.new ≡ out.old) }
{
    match frame_argument(&request.arguments) {
        None => out.refuse(request, "scopes: no such frame"),
        Some(node) => {
            let body = make_scopes_body(alloc, node)?;
            out.respond(request, body)
        }
    }
}

/// `variables`.
pub fn respond_variables(
    alloc: Global,
    program: &Debuggee,
    request: &ClientRequest,
    out: &mut Outbox,
) -> Result<(), AllocError>
    ensures sent { OnOk result ((message : Message) × AnswersVariables program.now request.now message × SendsMessage out.old message out.new) }
    ensures err { OnErr result (out.new ≡ out.old) }
{
    match variables_reference_argument(&request.arguments) {
        None => out.refuse(request, "variables: no such reference"),
        Some(at) => tell_variables_at(alloc, program, request, at, out),
    }
}

/// Whether the filter selects the variables of the scope: those of a memory are indexed, all others named.
fn matches_variables_filter(of: Scope, filter: Option<&str>) -> bool
    ensures { result ≡ matches_variables_filter of (option_map (λ text. text.now) filter.entry) }
{
    match filter {
        Some(filter) => filter != left_out(of),
        None => true,
    }
}

/// The filter that leaves the variables of a scope out.
fn left_out(of: Scope) -> &'static str
    ensures { result.now ≡ (if is_memory_scope of then codes "named" else codes "indexed") }
{
    match of {
        Scope::Ram => "named",
        Scope::Rom => "named",
        Scope::Registers => "indexed",
        Scope::DataStackScope => "indexed",
        Scope::ReturnStackScope => "indexed",
        Scope::Links => "indexed",
    }
}

#[tactic(auto, unfolding(crate::specs::Readings::empty_variables_body))]
fn empty_variables_body(alloc: Global) -> Result<Value, AllocError>
    ensures { IfOk result (λ v. view v ≡ empty_variables_body) }
{
    json!(in alloc; {"variables": []})
}

/// The variables of a scope that the request selects.
fn filtered_variables_body(
    alloc: Global,
    lab: &Lab,
    asked: bool,
    stuck: bool,
    at: (NodeId, Scope),
    start: u64,
    count: u64,
) -> Result<Value, AllocError>
    ensures { IfOk result (λ v. view v ≡ filtered_variables_body asked lab.now stuck at.0.number at.1 start count) }
{
    if asked {
        make_variables_body(alloc, lab, stuck, at, start, count)
    } else {
        empty_variables_body(alloc)
    }
}

/// The variables of a scope.
fn tell_variables_at(
    alloc: Global,
    program: &Debuggee,
    request: &ClientRequest,
    at: (NodeId, Scope),
    out: &mut Outbox,
) -> Result<(), AllocError>
    ensures sent { OnOk result ((message : Message) × IsVariablesResponse program.now request.now at message × SendsMessage out.old message out.new) }
    ensures err { OnErr result (out.new ≡ out.old) }
{
    let start = number_member_or_default(&request.arguments, "start", 0);
    let count = number_member_or_default(&request.arguments, "count", 0);
    let stuck = is_deadlocked(program.lab.chip(), at.0);
    let asked = matches_variables_filter(at.1, member_as_text(&request.arguments, "filter"));
    let body = filtered_variables_body(alloc, &program.lab, asked, stuck, at, start, count)?;
    out.respond(request, body)
}

/// `exceptionInfo`.
pub fn respond_exception_info(
    alloc: Global,
    program: &Debuggee,
    request: &ClientRequest,
    out: &mut Outbox,
) -> Result<(), AllocError>
    ensures sent { OnOk result ((message : Message) × AnswersExceptionInfo program.now request.now message × SendsMessage out.old message out.new) }
    ensures err { OnErr result (out.new ≡ out.old) }
{
    match thread_argument(&request.arguments) {
        None => out.refuse(request, "exceptionInfo: no such thread"),
        Some(node) => {
            let stuck = is_deadlocked(program.lab.chip(), node);
            let body = make_exception_info_body(alloc, &program.lab, stuck, node)?;
            out.respond(request, body)
        }
    }
}
