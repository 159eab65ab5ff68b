//! The messages about a change of the machine. If an allocation fails for them, they are sent once more.

ghost use Rattle.std.specs.Prelude.{◌≡◌, [], codes, OnOk};
ghost use Rattle.ga_causal.specs.Dependence.{is_node_flagged};
ghost use Rattle.ga_dap_queries.specs.Sending.{SendsMessage, SendsMessages, Messages};
ghost use Rattle.ga_dap_control.specs.Back.{rollback_summary_text};
ghost use Rattle.ga_dap.specs.Evaluating.{AreCommandAnswerAndChangeMessages};
ghost use Rattle.ga_dap.specs.Launches.{output_message};
ghost use Rattle.ga_dap.specs.Telling.{AreThreadChangeMessages, AreStoppedMessages, AreRunEndMessages, AreRunSliceMessages, AreMoveBackMessages, AreMachineChangeMessages};
ghost use Rattle.ga_dap.specs.inner.Carrying.{SendsReplyOrLacksMemory};

use crate::evaluating::text_body;
use crate::unanswered::NoResponse;
use ga_dap_control::{
    Configuration, RollbackSummary, StopReason, emit_run_end, rollback_summary_text,
};
use ga_dap_protocol::{ClientRequest, Outbox};
use ga_dap_queries::{
    Debuggee, emit_output, emit_stopped_event, emit_thread_changes, thread_flags_by_node,
};
use ga_grid::NodeId;
use std::alloc::{AllocError, Global};

/// Sends which threads started and exited.
#[tactic(auto, using(ga_dap_queries::proofs::Sent::ok_then, crate::proofs::Known::shown_so))]
fn tell_threads(
    alloc: Global,
    program: &Debuggee,
    before: &[bool; 144],
    out: &mut Outbox,
) -> Result<(), AllocError>
    ensures { OnOk result ((messages : Messages) × AreThreadChangeMessages (is_node_flagged before.now) program.now messages × SendsMessages out.old messages out.new) }
{
    let now = thread_flags_by_node(&program.lab, program.nodes.as_slice());
    emit_thread_changes(alloc, before, &now, out)
}

/// Sends which threads started and exited, and that the chip is stopped.
fn tell_standing(
    alloc: Global,
    program: &Debuggee,
    before: &[bool; 144],
    reason: &str,
    description: &str,
    node: NodeId,
    out: &mut Outbox,
) -> Result<(), AllocError>
    ensures { OnOk result ((messages : Messages) × AreStoppedMessages (is_node_flagged before.now) program.now reason.now description.now node messages × SendsMessages out.old messages out.new) }
{
    tell_threads(alloc, program, before, out)?;
    emit_stopped_event(alloc, reason, description, node, out)
}

/// Sends why a run ended, if it did.
fn tell_end(
    alloc: Global,
    program: &Debuggee,
    settings: &Configuration,
    stop: Option<StopReason>,
    out: &mut Outbox,
) -> Result<(), AllocError>
    ensures { OnOk result ((messages : Messages) × AreRunEndMessages program.now settings.now stop messages × SendsMessages out.old messages out.new) }
{
    match stop {
        Some(why) => emit_run_end(alloc, program, settings, why, out),
        None => Ok(()),
    }
}

fn tell_slice(
    alloc: Global,
    program: &Debuggee,
    settings: &Configuration,
    before: &[bool; 144],
    stop: Option<StopReason>,
    out: &mut Outbox,
) -> Result<(), AllocError>
    ensures { OnOk result ((messages : Messages) × AreRunSliceMessages (is_node_flagged before.now) program.now settings.now stop messages × SendsMessages out.old messages out.new) }
{
    tell_threads(alloc, program, before, out)?;
    tell_end(alloc, program, settings, stop, out)
}

/// Sends the messages of a slice of a run.
pub(crate) fn emit_slice_with_retry(
    alloc: Global,
    program: &Debuggee,
    settings: &Configuration,
    before: &[bool; 144],
    stop: &Option<StopReason>,
    out: &mut Outbox,
) -> Result<(), NoResponse>
    requires { out.old.bytes ≡ [] }
    ensures { SendsReplyOrLacksMemory result (λ messages. AreRunSliceMessages (is_node_flagged before.now) program.now settings.now stop.now messages) ⊥ out.old out.new }
{
    let seq = out.seq();
    match tell_slice(alloc, program, settings, before, *stop, out) {
        Ok(()) => return Ok(()),
        Err(_) => {}
    }
    out.discard_unsent(seq);
    match tell_slice(alloc, program, settings, before, *stop, out) {
        Ok(()) => Ok(()),
        Err(_) => Err(NoResponse::Untold),
    }
}

/// Sends to the console what was removed.
fn tell_gone(
    alloc: Global,
    program: &Debuggee,
    gone: &RollbackSummary,
    out: &mut Outbox,
) -> Result<(), AllocError>
    ensures { OnOk result (SendsMessage out.old (output_message (codes "console") (rollback_summary_text gone.now.node gone.now.before gone.now.removed program.now.lab)) out.new) }
{
    let text = rollback_summary_text(alloc, &program.lab, gone)?;
    emit_output(alloc, "console", text.as_str(), out)
}

fn tell_back(
    alloc: Global,
    program: &Debuggee,
    before: &[bool; 144],
    request: &ClientRequest,
    gone: &RollbackSummary,
    reason: &str,
    out: &mut Outbox,
) -> Result<(), AllocError>
    ensures { OnOk result ((messages : Messages) × AreMoveBackMessages (is_node_flagged before.now) program.now request.now gone.now.node (rollback_summary_text gone.now.node gone.now.before gone.now.removed program.now.lab) reason.now messages × SendsMessages out.old messages out.new) }
{
    out.acknowledge(request)?;
    tell_gone(alloc, program, gone, out)?;
    tell_standing(alloc, program, before, reason, "gone back", gone.node, out)
}

/// Sends the messages of a move back that a request made.
pub(crate) fn emit_rollback_with_retry(
    alloc: Global,
    program: &Debuggee,
    before: &[bool; 144],
    request: &ClientRequest,
    gone: &RollbackSummary,
    reason: &str,
    out: &mut Outbox,
) -> Result<(), NoResponse>
    requires { out.old.bytes ≡ [] }
    ensures { SendsReplyOrLacksMemory result (λ messages. AreMoveBackMessages (is_node_flagged before.now) program.now request.now gone.now.node (rollback_summary_text gone.now.node gone.now.before gone.now.removed program.now.lab) reason.now messages) ⊥ out.old out.new }
{
    let seq = out.seq();
    match tell_back(alloc, program, before, request, gone, reason, out) {
        Ok(()) => return Ok(()),
        Err(_) => {}
    }
    out.discard_unsent(seq);
    match tell_back(alloc, program, before, request, gone, reason, out) {
        Ok(()) => Ok(()),
        Err(_) => Err(NoResponse::Untold),
    }
}

/// Sends the messages of a command that moved the machine, or didn't.
fn tell_moved(
    alloc: Global,
    program: &Debuggee,
    before: &[bool; 144],
    moved: bool,
    node: NodeId,
    out: &mut Outbox,
) -> Result<(), AllocError>
    ensures { OnOk result ((messages : Messages) × AreMachineChangeMessages moved (is_node_flagged before.now) program.now node messages × SendsMessages out.old messages out.new) }
{
    if moved {
        tell_standing(alloc, program, before, "goto", "by a command", node, out)
    } else {
        Ok(())
    }
}

fn tell_command(
    alloc: Global,
    program: &Debuggee,
    before: &[bool; 144],
    request: &ClientRequest,
    answer: &[u8],
    moved: bool,
    node: NodeId,
    out: &mut Outbox,
) -> Result<(), AllocError>
    ensures { OnOk result ((messages : Messages) × AreCommandAnswerAndChangeMessages request.now answer.now moved (is_node_flagged before.now) program.now node messages × SendsMessages out.old messages out.new) }
{
    let body = text_body(alloc, answer)?;
    out.respond(request, body)?;
    tell_moved(alloc, program, before, moved, node, out)
}

/// Sends the answer to a command of exploring.
pub(crate) fn emit_command_with_retry(
    alloc: Global,
    program: &Debuggee,
    before: &[bool; 144],
    request: &ClientRequest,
    answer: &[u8],
    moved: bool,
    node: NodeId,
    out: &mut Outbox,
) -> Result<(), NoResponse>
    requires { out.old.bytes ≡ [] }
    ensures { SendsReplyOrLacksMemory result (λ messages. AreCommandAnswerAndChangeMessages request.now answer.now moved (is_node_flagged before.now) program.now node messages) ⊥ out.old out.new }
{
    let seq = out.seq();
    match tell_command(alloc, program, before, request, answer, moved, node, out) {
        Ok(()) => return Ok(()),
        Err(_) => {}
    }
    out.discard_unsent(seq);
    match tell_command(alloc, program, before, request, answer, moved, node, out) {
        Ok(()) => Ok(()),
        Err(_) => Err(NoResponse::Untold),
    }
}
