//! The requests that begin a run, and `pause`.

ghost use Rattle.std.specs.Prelude.{◌≡◌, ◌==◌, Option, unwrap_or, IfOk, OnOk, OnErr};
ghost use Rattle.serde_json.specs.View.{view};
ghost use Rattle.ga_grid.specs.Chip.{node_record_at};
ghost use Rattle.ga_grid.specs.declared.node_id.NodeId.{NodeId as ANode};
ghost use Rattle.ga_lab.specs.Machine.{chip_of_machine};
ghost use Rattle.ga_dap_queries.specs.Arguments.{IsThreadArgument};
ghost use Rattle.ga_dap_control.specs.Back.{requested_granularity};
ghost use Rattle.ga_dap_queries.specs.Sending.{SendsMessage, SendsMessages, Message, Messages, bare_success_response};
ghost use Rattle.ga_dap_control.specs.Moving.{continue_body, execution_with_goal, no_such_thread_text, node_stopped_text, requested_step_move, BeginsStep, BeginsStepOfNode, BeginsStepMove, ArePauseMessages, PausesIfRunning, AnswersPause, AnswersContinue};

use crate::configuring::first_of;
use crate::execution::{Execution, RunGoal};
use ga_dap_breakpoints::{Granularity, StepMove};
use ga_dap_protocol::{ClientRequest, Outbox, member_as_text};
use ga_dap_queries::{Debuggee, emit_stopped_event, thread_argument};
use ga_grid::NodeId;
use ga_lab::Lab;
use serde_json::{Value, json};
use std::alloc::{AllocError, Global};

#[tactic(auto, unfolding(crate::specs::Moving::continue_body))]
fn continue_body(alloc: Global) -> Result<Value, AllocError>
    ensures { IfOk result (λ v. view v ≡ continue_body) }
{
    json!(in alloc; {"allThreadsContinued": true})
}

/// `continue`.
#[tactic(auto, using(ga_dap_queries::proofs::Sent::sent_one))]
pub fn begin_continue(
    alloc: Global,
    execution: &mut Execution,
    request: &ClientRequest,
    out: &mut Outbox,
) -> Result<(), AllocError>
    ensures sent { OnOk result ((messages : Messages) × AnswersContinue execution.old request.now messages execution.new × SendsMessages out.old messages out.new) }
    ensures kept { OnErr result (execution.new ≡ execution.old) }
{
    let body = continue_body(alloc)?;
    out.respond(request, body)?;
    execution.goal = Some(RunGoal::Continue);
    execution.tally = None;
    Ok(())
}

/// The granularity of one step: lines if the source has them.
pub fn requested_granularity(program: &Debuggee, arguments: &Value) -> Granularity
    ensures { result ≡ requested_granularity program.now (view arguments.now) }
{
    if program.source.is_none() {
        return Granularity::Instruction;
    }
    match member_as_text(arguments, "granularity") {
        None => Granularity::Line,
        Some(name) => {
            if name == "instruction" {
                Granularity::Instruction
            } else {
                Granularity::Line
            }
        }
    }
}

/// A request that moves one node.
#[derive(Clone, Copy, PartialEq, Eq, Debug)]
pub enum DapStepKind {
    /// `next`: over the calls that it makes.
    Over,
    /// `stepIn`.
    In,
    /// `stepOut`: back from a call.
    Out,
}

/// The message if the request names no such thread.
fn no_thread(kind: DapStepKind) -> &'static str
    ensures { result.now ≡ no_such_thread_text kind }
{
    match kind {
        DapStepKind::Over => "next: no such thread",
        DapStepKind::In => "stepIn: no such thread",
        DapStepKind::Out => "stepOut: no such thread",
    }
}

/// The message if the node is stopped.
fn node_stopped(kind: DapStepKind) -> &'static str
    ensures { result.now ≡ node_stopped_text kind }
{
    match kind {
        DapStepKind::Over => "next: the node is stopped",
        DapStepKind::In => "stepIn: the node is stopped",
        DapStepKind::Out => "stepOut: the node is stopped",
    }
}

/// The move of a node; none where it is in no call from which it could come back.
fn requested_step_move(
    program: &Debuggee,
    kind: DapStepKind,
    node: NodeId,
    arguments: &Value,
) -> Option<StepMove>
    ensures { result ≡ requested_step_move program.now kind node (view arguments.now) }
{
    match kind {
        DapStepKind::Over => Some(StepMove::next(
            &program.lab,
            node,
            requested_granularity(program, arguments),
        )),
        DapStepKind::In => Some(StepMove::step_in(
            &program.lab,
            node,
            requested_granularity(program, arguments),
        )),
        DapStepKind::Out => StepMove::step_out(&program.lab, node),
    }
}

/// `next`, `stepIn` and `stepOut`.
pub fn begin_step(
    program: &Debuggee,
    execution: &mut Execution,
    request: &ClientRequest,
    kind: DapStepKind,
    out: &mut Outbox,
) -> Result<(), AllocError>
    ensures sent { OnOk result ((message : Message) × BeginsStep program.now kind execution.old request.now message execution.new × SendsMessage out.old message out.new) }
    ensures kept { OnErr result (execution.new ≡ execution.old) }
{
    match thread_argument(&request.arguments) {
        None => out.refuse(request, no_thread(kind)),
        Some(node) => begin_step_of(program, execution, request, kind, node, out),
    }
}

/// Whether a node isn't stopped.
fn can_step(lab: &Lab, node: NodeId) -> bool
    ensures { result ≡ ((node_record_at (chip_of_machine lab.now) node.number).stop == 0) }
{
    lab.node(node).stop() == 0
}

/// `next`, `stepIn` and `stepOut` of a node.
fn begin_step_of(
    program: &Debuggee,
    execution: &mut Execution,
    request: &ClientRequest,
    kind: DapStepKind,
    node: NodeId,
    out: &mut Outbox,
) -> Result<(), AllocError>
    ensures sent { OnOk result ((message : Message) × BeginsStepOfNode program.now kind execution.old request.now node message execution.new × SendsMessage out.old message out.new) }
    ensures kept { OnErr result (execution.new ≡ execution.old) }
{
    if can_step(&program.lab, node) {
        let stepping = requested_step_move(program, kind, node, &request.arguments);
        begin_stepping(execution, request, stepping, out)
    } else {
        out.refuse(request, node_stopped(kind))
    }
}

/// Begins a move, where there is one.
fn begin_stepping(
    execution: &mut Execution,
    request: &ClientRequest,
    stepping: Option<StepMove>,
    out: &mut Outbox,
) -> Result<(), AllocError>
    ensures sent { OnOk result ((message : Message) × BeginsStepMove execution.old request.now stepping message execution.new × SendsMessage out.old message out.new) }
    ensures kept { OnErr result (execution.new ≡ execution.old) }
{
    match stepping {
        Some(stepping) => begin(execution, request, stepping, out),
        None => out.refuse(request, "stepOut: the node is in no call that is kept"),
    }
}

/// Begins a move.
fn begin(
    execution: &mut Execution,
    request: &ClientRequest,
    stepping: StepMove,
    out: &mut Outbox,
) -> Result<(), AllocError>
    ensures sent { OnOk result (SendsMessage out.old (bare_success_response request.now) out.new × (execution.new ≡ execution_with_goal execution.old (RunGoal.Step stepping))) }
    ensures kept { OnErr result (execution.new ≡ execution.old) }
{
    out.acknowledge(request)?;
    execution.goal = Some(RunGoal::Step(stepping));
    execution.tally = None;
    Ok(())
}

/// The node of the requested thread, else another.
fn node_or(arguments: &Value, first: NodeId) -> NodeId
    ensures { (asked : Option ANode) × IsThreadArgument (view arguments.now) asked × (result ≡ unwrap_or asked first) }
{
    match thread_argument(arguments) {
        Some(node) => node,
        None => first,
    }
}

/// Reports that a run ended.
fn tell_paused(
    alloc: Global,
    program: &Debuggee,
    request: &ClientRequest,
    out: &mut Outbox,
) -> Result<(), AllocError>
    ensures { OnOk result ((messages : Messages) × ArePauseMessages program.now request.now messages × SendsMessages out.old messages out.new) }
{
    out.acknowledge(request)?;
    let first = first_of(program);
    let node = node_or(&request.arguments, first);
    emit_stopped_event(alloc, "pause", "pause", node, out)
}

/// Reports that no run is in progress any longer.
fn tell_pause(
    alloc: Global,
    program: &Debuggee,
    goal: Option<RunGoal>,
    request: &ClientRequest,
    out: &mut Outbox,
) -> Result<(), AllocError>
    ensures { OnOk result ((messages : Messages) × PausesIfRunning program.now request.now goal messages × SendsMessages out.old messages out.new) }
{
    match goal {
        None => out.acknowledge(request),
        Some(_) => tell_paused(alloc, program, request, out),
    }
}

/// `pause`: ends the run under way.
pub fn respond_pause(
    alloc: Global,
    program: &Debuggee,
    execution: &mut Execution,
    request: &ClientRequest,
    out: &mut Outbox,
) -> Result<(), AllocError>
    ensures sent { OnOk result ((messages : Messages) × AnswersPause program.now execution.old request.now messages execution.new × SendsMessages out.old messages out.new) }
    ensures kept { OnErr result (execution.new ≡ execution.old) }
{
    tell_pause(alloc, program, execution.goal, request, out)?;
    execution.goal = None;
    Ok(())
}
