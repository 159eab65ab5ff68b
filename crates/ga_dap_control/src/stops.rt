//! What is sent to a client when a run ended.

ghost use Rattle.std.specs.Prelude.{◌≡◌, ◌++◌, Some, codes, string_bytes, IfOk, OnOk, OnErr};
ghost use Rattle.serde_json.specs.View.{view};
ghost use Rattle.ga_text.specs.Lines.{Text};
ghost use Rattle.ga_dap_protocol.specs.Messages.{member_as_text};
ghost use Rattle.ga_dap_queries.specs.Sending.{SendsMessage, Message};
ghost use Rattle.ga_dap_control.specs.Stopping.{breakpoint_hit_message, broken_expectation_text, broken_expectation_message, hit_breakpoint_ids, lab_fault_text, exception_stop_message, stop_reason_message, IsStopReasonMessage};

use crate::configuration::Configuration;
use crate::configuring::first_of;
use crate::stop_reason::StopReason;
use ga_dap_protocol::{Outbox, member_as_text};
use ga_dap_queries::{Debuggee, emit_breakpoint_hit, emit_stopped_event, make_exception_info_body};
use ga_grid::NodeId;
use ga_lab::{LabFault, MadeEvent};
use serde_json::Value;
use std::alloc::{AllocError, Global};

fn words_of(why: LabFault) -> &'static str
    ensures { result.now ≡ lab_fault_text why }
{
    match why {
        LabFault::Full => "full: as many events are kept as may be",
        LabFault::Memory => "memory was refused to the next event",
        LabFault::EventNumbersSpent => "spent: as many events were made as can be counted",
        LabFault::Waiting => "the node waits",
        LabFault::Stopped => "the node is stopped",
        LabFault::Empty => "nothing is kept",
        LabFault::NoStep => "there is no such step",
    }
}

/// The description of `exceptionInfo`, followed by a text.
fn text_behind(alloc: Global, info: &Value, behind: &str) -> Result<String, AllocError>
    ensures { IfOk result (λ text. (does : Text) → member_as_text (codes "description") (view info.now) ≡ Some does → string_bytes text ≡ does ++ behind.now) }
{
    let mut text = String::new(alloc);
    if let Some(does) = member_as_text(info, "description") {
        text.push_str(does)?;
    }
    text.push_str(behind)?;
    Ok(text)
}

/// Reports a node that can't continue, and why.
fn tell_fault(
    alloc: Global,
    program: &Debuggee,
    node: NodeId,
    behind: &str,
    out: &mut Outbox,
) -> Result<(), AllocError>
    ensures sent { OnOk result (SendsMessage out.old (exception_stop_message program.now node.number behind.now) out.new) }
    ensures err { OnErr result (out.new ≡ out.old) }
{
    let info = make_exception_info_body(alloc, &program.lab, false, node)?;
    let text = text_behind(alloc, &info, behind)?;
    emit_stopped_event(alloc, "exception", text.as_str(), node, out)
}

/// What is reported of the broken expectation of a line.
fn broken_expectation_text(alloc: Global, line: u32) -> Result<String, AllocError>
    ensures { IfOk result (λ text. string_bytes text ≡ broken_expectation_text line) }
{
    format!(in alloc; "the expectation of line {line} is broken")
}

/// Reports that what a node did broke the expectation of a line.
fn tell_broken(alloc: Global, node: NodeId, line: u32, out: &mut Outbox) -> Result<(), AllocError>
    ensures sent { OnOk result (SendsMessage out.old (broken_expectation_message node.number line) out.new) }
    ensures err { OnErr result (out.new ≡ out.old) }
{
    let text = broken_expectation_text(alloc, line)?;
    emit_stopped_event(alloc, "exception", text.as_str(), node, out)
}

/// Reports the breakpoints that this event hit.
fn tell_hits(
    alloc: Global,
    program: &Debuggee,
    settings: &Configuration,
    reason: &str,
    description: &str,
    node: NodeId,
    made: &MadeEvent,
    out: &mut Outbox,
) -> Result<(), AllocError>
    ensures sent { OnOk result (SendsMessage out.old (breakpoint_hit_message reason.now description.now node.number (hit_breakpoint_ids made.now program.now.lab settings.now.points.placed.items)) out.new) }
    ensures err { OnErr result (out.new ≡ out.old) }
{
    let ids = settings
        .points
        .hit_breakpoint_ids(alloc, &program.lab, made)?;
    emit_breakpoint_hit(alloc, reason, description, node, ids.as_slice(), out)
}

/// `stopped_message` where a run ended for this reason.
#[tactic(auto, using(ga_dap_queries::proofs::Sent::ok_then))]
pub fn emit_run_end(
    alloc: Global,
    program: &Debuggee,
    settings: &Configuration,
    stop: StopReason,
    out: &mut Outbox,
) -> Result<(), AllocError>
    ensures sent { OnOk result ((message : Message) × IsStopReasonMessage program.now settings.now stop message × SendsMessage out.old message out.new) }
    ensures err { OnErr result (out.new ≡ out.old) }
{
    let first = first_of(program);
    tell_stop_at(alloc, program, settings, stop, first, out)
}

/// `stopped_message` where a run ended for this reason, and this is the first node that has something to show.
fn tell_stop_at(
    alloc: Global,
    program: &Debuggee,
    settings: &Configuration,
    stop: StopReason,
    first: NodeId,
    out: &mut Outbox,
) -> Result<(), AllocError>
    ensures sent { OnOk result (SendsMessage out.old (stop_reason_message program.now settings.now.points.placed.items first.number stop) out.new) }
    ensures err { OnErr result (out.new ≡ out.old) }
{
    match stop {
        StopReason::StepCompleted(node) => emit_stopped_event(alloc, "step", "step", node, out),
        StopReason::Breakpoint { node, made } => {
            let why = "breakpoint";
            tell_hits(alloc, program, settings, why, why, node, &made, out)
        }
        StopReason::WatchedCellWritten { node, made } => {
            let (reason, why) = ("data breakpoint", "a watched cell was written");
            tell_hits(alloc, program, settings, reason, why, node, &made, out)
        }
        StopReason::Stopped(node) => tell_fault(alloc, program, node, "", out),
        StopReason::Stuck(node) => tell_fault(alloc, program, node, ", and can never go on", out),
        StopReason::BrokeExpectation { node, line } => tell_broken(alloc, node, line, out),
        StopReason::Quiet => emit_stopped_event(
            alloc,
            "pause",
            "quiet: no node has an event",
            first,
            out,
        ),
        StopReason::Refused(why) => emit_stopped_event(alloc, "pause", words_of(why), first, out),
    }
}
