//! What was launched, and the requests of it that make no event and take none back.

ghost use Rattle.std.specs.Prelude.{◌≡◌, codes, OnOk, OnErr};
ghost use Rattle.ga_dap_control.specs.Breakpoints.{SetsExceptionFilters, SetsLineBreakpoints, ReplacesBreakpoints};
ghost use Rattle.ga_dap_control.specs.Requests.{ChangesConfiguration, AnswersImmediateRequest};
ghost use Rattle.ga_dap_queries.specs.Sending.{SendsMessage, SendsMessages, Messages, refused_response};

use crate::breakpoints::{replace_breakpoints, set_exception_filters, set_line_breakpoints};
use crate::configuration::{BreakpointKind, Configuration};
use crate::configuring::respond_configuration_done;
use crate::execution::Execution;
use crate::moving::{DapStepKind, begin_continue, begin_step, respond_pause};
use ga_dap_protocol::{ClientRequest, Outbox};
use ga_dap_queries::{
    Debuggee, RequestName, respond_data_breakpoint_info, respond_disassemble,
    respond_exception_info, respond_scopes, respond_stack_trace, respond_threads,
    respond_variables,
};
use std::alloc::{AllocError, Global};

/// What was launched, what the client set of it, and its run.
#[derive(Drop)]
pub struct LaunchedSession {
    pub program: Debuggee,
    pub settings: Configuration,
    pub execution: Execution,
}

/// `setBreakpoints`. Hits are counted anew.
#[tactic(auto, using(crate::proofs::Answered::sets_so))]
fn set_lines_of(
    alloc: Global,
    launched: &mut LaunchedSession,
    request: &ClientRequest,
    out: &mut Outbox,
) -> Result<(), AllocError>
    ensures sent { OnOk result ((messages : Messages) × ChangesConfiguration (SetsLineBreakpoints launched.old.program launched.old.settings request.now) launched.old messages launched.new × SendsMessages out.old messages out.new) }
    ensures kept { OnErr result (launched.new ≡ launched.old) }
{
    let settings = &mut launched.settings;
    set_line_breakpoints(alloc, &launched.program, settings, request, out)?;
    launched.execution.tally = None;
    Ok(())
}

/// Sets the breakpoints on no line that a request asks for. Hits are counted anew.
fn set_points_of(
    alloc: Global,
    launched: &mut LaunchedSession,
    family: BreakpointKind,
    request: &ClientRequest,
    out: &mut Outbox,
) -> Result<(), AllocError>
    ensures sent { OnOk result ((messages : Messages) × ChangesConfiguration (ReplacesBreakpoints launched.old.program family launched.old.settings request.now) launched.old messages launched.new × SendsMessages out.old messages out.new) }
    ensures kept { OnErr result (launched.new ≡ launched.old) }
{
    let settings = &mut launched.settings;
    replace_breakpoints(alloc, &launched.program, settings, family, request, out)?;
    launched.execution.tally = None;
    Ok(())
}

/// `setExceptionBreakpoints`. Hits are counted anew.
#[tactic(auto, using(crate::proofs::Answered::sets_so))]
fn set_filters_of(
    launched: &mut LaunchedSession,
    request: &ClientRequest,
    out: &mut Outbox,
) -> Result<(), AllocError>
    ensures sent { OnOk result ((messages : Messages) × ChangesConfiguration (SetsExceptionFilters launched.old.settings request.now) launched.old messages launched.new × SendsMessages out.old messages out.new) }
    ensures kept { OnErr result (launched.new ≡ launched.old) }
{
    set_exception_filters(&mut launched.settings, request, out)?;
    launched.execution.tally = None;
    Ok(())
}

/// Answers a request that makes no event and takes none back.
pub fn answer_immediate_request(
    alloc: Global,
    launched: &mut LaunchedSession,
    command: RequestName,
    request: &ClientRequest,
    out: &mut Outbox,
) -> Result<(), AllocError>
    ensures sent { OnOk result ((messages : Messages) × AnswersImmediateRequest command launched.old request.now messages launched.new × SendsMessages out.old messages out.new) }
    ensures kept { OnErr result (launched.new ≡ launched.old) }
{
    match command {
        RequestName::SetBreakpoints => set_lines_of(alloc, launched, request, out),
        RequestName::SetFunctionBreakpoints => {
            set_points_of(alloc, launched, BreakpointKind::Function, request, out)
        }
        RequestName::SetInstructionBreakpoints => {
            set_points_of(alloc, launched, BreakpointKind::Instruction, request, out)
        }
        RequestName::SetDataBreakpoints => {
            set_points_of(alloc, launched, BreakpointKind::Data, request, out)
        }
        RequestName::DataBreakpointInfo => respond_data_breakpoint_info(alloc, request, out),
        RequestName::SetExceptionBreakpoints => set_filters_of(launched, request, out),
        RequestName::ConfigurationDone => respond_configuration_done(
            alloc,
            &launched.program,
            &mut launched.execution,
            request,
            out,
        ),
        RequestName::Threads => respond_threads(alloc, &launched.program, request, out),
        RequestName::StackTrace => respond_stack_trace(alloc, &launched.program, request, out),
        RequestName::Scopes => respond_scopes(alloc, request, out),
        RequestName::Variables => respond_variables(alloc, &launched.program, request, out),
        RequestName::ExceptionInfo => respond_exception_info(
            alloc,
            &launched.program,
            request,
            out,
        ),
        RequestName::Disassemble => respond_disassemble(alloc, &launched.program, request, out),
        RequestName::Continue => begin_continue(alloc, &mut launched.execution, request, out),
        RequestName::Next => begin_step(
            &launched.program,
            &mut launched.execution,
            request,
            DapStepKind::Over,
            out,
        ),
        RequestName::StepIn => begin_step(
            &launched.program,
            &mut launched.execution,
            request,
            DapStepKind::In,
            out,
        ),
        RequestName::StepOut => begin_step(
            &launched.program,
            &mut launched.execution,
            request,
            DapStepKind::Out,
            out,
        ),
        RequestName::Pause => respond_pause(
            alloc,
            &launched.program,
            &mut launched.execution,
            request,
            out,
        ),
        RequestName::Initialize => refuse_unknown(request, out),
        RequestName::Launch => refuse_unknown(request, out),
        RequestName::StepBack => refuse_unknown(request, out),
        RequestName::ReverseContinue => refuse_unknown(request, out),
        RequestName::Evaluate => refuse_unknown(request, out),
        RequestName::Terminate => refuse_unknown(request, out),
        RequestName::Disconnect => refuse_unknown(request, out),
    }
}

/// Refuses a request that is answered nowhere.
fn refuse_unknown(request: &ClientRequest, out: &mut Outbox) -> Result<(), AllocError>
    ensures sent { OnOk result (SendsMessage out.old (refused_response request.now (codes "no such request")) out.new) }
    ensures err { OnErr result (out.new ≡ out.old) }
{
    out.refuse(request, "no such request")
}
