//! The requests that go back: `stepBack` and `reverseContinue`.

ghost use Rattle.std.specs.Prelude.{◌≡◌, [], ◌∷◌, codes};
ghost use Rattle.ga_dap.specs.Going.{AnswersStepBack, AnswersReverseContinue, reverse_stop_reason};
ghost use Rattle.ga_dap.specs.inner.Carrying.{SendsReplyOrLacksMemory};
ghost use Rattle.ga_dap_queries.specs.Sending.{refused_response};

use crate::changes::emit_rollback_with_retry;
use crate::unanswered::NoResponse;
use ga_dap_control::{Configuration, reverse_continue_node, step_back_node};
use ga_dap_protocol::{ClientRequest, Outbox};
use ga_dap_queries::{Debuggee, thread_argument, thread_flags_by_node};
use ga_grid::NodeId;
use std::alloc::Global;

/// Refuses a request.
pub(crate) fn refuse(request: &ClientRequest, why: &str, out: &mut Outbox) -> Result<(), NoResponse>
    ensures { SendsReplyOrLacksMemory result (λ messages. messages ≡ refused_response request.now why.now ∷ []) (Unit {0}) out.old out.new }
{
    match out.refuse(request, why) {
        Ok(()) => Ok(()),
        Err(_) => Err(NoResponse::Memory),
    }
}

/// `stepBack`.
pub(crate) fn step_back(
    alloc: Global,
    program: &mut Debuggee,
    request: &ClientRequest,
    out: &mut Outbox,
) -> Result<(), NoResponse>
    requires { out.old.bytes ≡ [] }
    ensures { SendsReplyOrLacksMemory result (λ messages. AnswersStepBack program.old request.now messages program.new) (program.new ≡ program.old) out.old out.new }
{
    let Some(node) = thread_argument(&request.arguments) else {
        return refuse(request, "stepBack: no such thread", out);
    };
    let before = thread_flags_by_node(&program.lab, program.nodes.as_slice());
    let gone = step_back_node(program, node, &request.arguments);
    emit_rollback_with_retry(alloc, program, &before, request, &gone, "step", out)
}

/// Why a node that was rolled back is stopped there.
fn reverse_stop_reason(program: &Debuggee, node: NodeId) -> &'static str
    ensures { result.now ≡ reverse_stop_reason program.now node }
{
    if program.lab.steps(node) == 0 {
        "entry"
    } else {
        "breakpoint"
    }
}

/// `reverseContinue`.
pub(crate) fn reverse(
    alloc: Global,
    program: &mut Debuggee,
    settings: &Configuration,
    request: &ClientRequest,
    out: &mut Outbox,
) -> Result<(), NoResponse>
    requires { out.old.bytes ≡ [] }
    ensures { SendsReplyOrLacksMemory result (λ messages. AnswersReverseContinue settings.now program.old request.now messages program.new) (program.new ≡ program.old) out.old out.new }
{
    let Some(node) = thread_argument(&request.arguments) else {
        return refuse(request, "reverseContinue: no such thread", out);
    };
    let before = thread_flags_by_node(&program.lab, program.nodes.as_slice());
    let gone = reverse_continue_node(program, node, settings.points.points.as_slice());
    let reason = reverse_stop_reason(program, node);
    emit_rollback_with_retry(alloc, program, &before, request, &gone, reason, out)
}
