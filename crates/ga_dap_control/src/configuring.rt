//! `configurationDone`.

ghost use Rattle.std.specs.Prelude.{◌≡◌, OnOk, OnErr};
ghost use Rattle.ga_dap_queries.specs.Sending.{SendsMessages, Messages};
ghost use Rattle.ga_causal.specs.Dependence.{is_node_flagged};
ghost use Rattle.ga_dap_queries.specs.Events.{IsFirstThreadNode};
ghost use Rattle.ga_dap_control.specs.Configuring.{AreNodesWithThreads, response_and_thread_messages, StopsOnEntryOrRuns, AnswersConfigurationDone, CompletesConfigurationUnlessDone, CompletesConfiguration};

use crate::execution::{Execution, RunGoal};
use ga_dap_protocol::{ClientRequest, Outbox};
use ga_dap_queries::{
    Debuggee, emit_stopped_event, emit_thread_changes, first_node_with_thread, thread_flags_by_node,
};
use ga_grid::NodeId;
use std::alloc::{AllocError, Global};

/// The first node that has something to show; 000 where none has.
pub(crate) fn first_of(program: &Debuggee) -> NodeId
    ensures { IsFirstThreadNode program.now.lab program.now.nodes.items result.number }
{
    first_node_with_thread(&program.lab, program.nodes.as_slice())
}

/// The nodes that have something to show.
fn shown_of(program: &Debuggee) -> [bool; 144]
    ensures { AreNodesWithThreads program.now (is_node_flagged result) }
{
    thread_flags_by_node(&program.lab, program.nodes.as_slice())
}

/// `configurationDone`: sends the threads; the chip is then stopped at load or runs.
pub fn respond_configuration_done(
    alloc: Global,
    program: &Debuggee,
    execution: &mut Execution,
    request: &ClientRequest,
    out: &mut Outbox,
) -> Result<(), AllocError>
    ensures sent { OnOk result ((messages : Messages) × AnswersConfigurationDone program.now execution.old request.now messages execution.new × SendsMessages out.old messages out.new) }
    ensures kept { OnErr result (execution.new ≡ execution.old) }
{
    let done = execution.is_configured;
    configure_if(alloc, program, execution, request, done, out)
}

/// `configurationDone`: refused where it is done, and else carried out.
fn configure_if(
    alloc: Global,
    program: &Debuggee,
    execution: &mut Execution,
    request: &ClientRequest,
    done: bool,
    out: &mut Outbox,
) -> Result<(), AllocError>
    ensures sent { OnOk result ((messages : Messages) × CompletesConfigurationUnlessDone done program.now execution.old request.now messages execution.new × SendsMessages out.old messages out.new) }
    ensures kept { OnErr result (execution.new ≡ execution.old) }
{
    if done {
        out.refuse(request, "configurationDone: it is done")
    } else {
        configure_once(alloc, program, execution, request, out)
    }
}

/// Answers `configurationDone`, and sends the threads.
fn tell_threads_started(
    alloc: Global,
    request: &ClientRequest,
    now: &[bool; 144],
    out: &mut Outbox,
) -> Result<(), AllocError>
    ensures { OnOk result (SendsMessages out.old (response_and_thread_messages request.now (is_node_flagged now.now)) out.new) }
{
    out.acknowledge(request)?;
    emit_thread_changes(alloc, &[false; 144], now, out)
}

/// `configurationDone` for the first time: sends the threads; the chip is then stopped at load or runs.
fn configure_once(
    alloc: Global,
    program: &Debuggee,
    execution: &mut Execution,
    request: &ClientRequest,
    out: &mut Outbox,
) -> Result<(), AllocError>
    ensures sent { OnOk result ((messages : Messages) × CompletesConfiguration program.now execution.old request.now messages execution.new × SendsMessages out.old messages out.new) }
    ensures kept { OnErr result (execution.new ≡ execution.old) }
{
    let now = shown_of(program);
    tell_threads_started(alloc, request, &now, out)?;
    let stops = execution.stops_on_entry;
    begin_so(alloc, program, execution, stops, out)
}

/// The chip is stopped at load, or runs.
fn begin_so(
    alloc: Global,
    program: &Debuggee,
    execution: &mut Execution,
    stops: bool,
    out: &mut Outbox,
) -> Result<(), AllocError>
    ensures sent { OnOk result ((messages : Messages) × StopsOnEntryOrRuns stops program.now execution.old messages execution.new × SendsMessages out.old messages out.new) }
    ensures kept { OnErr result (execution.new ≡ execution.old) }
{
    if stops {
        let first = first_of(program);
        emit_stopped_event(alloc, "entry", "at load", first, out)?;
        execution.is_configured = true;
        Ok(())
    } else {
        execution.goal = Some(RunGoal::Continue);
        execution.tally = None;
        execution.is_configured = true;
        Ok(())
    }
}
