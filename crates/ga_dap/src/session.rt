//! A session: what was launched, and the requests of the client.

ghost use Rattle.std.specs.Prelude.{◌≡◌, ◌&&◌, [], ◌∷◌, Option, Some, None, codes, is_some, option_map, OnOk, OnErr};
ghost use Rattle.ga_dap_control.specs.Requests.{AnswersImmediateRequest};
ghost use Rattle.ga_dap_control.specs.Watched.{AreOptionalExpectationsKnown};
ghost use Rattle.ga_dap_queries.specs.Sending.{SendsMessages, bare_success_response};
ghost use Rattle.ga_dap.specs.Answering.{AnswersRequest, AnswersKnownRequest, AnswersRequestWhileLaunched, PerformsRequest, AnswersRequestIfLaunched, ChangesLaunchedProgramOnly, AnswersInitializeRequest, AnswersDisconnectRequest, AnswersTerminateRequest, program_with_run_ended, needs_stopped_chip, begins_run, request_refusal_reason};
ghost use Rattle.ga_dap.specs.Client.{has_session_active_run, new_session};
ghost use Rattle.ga_dap.specs.Going.{MakesRunSlice};
ghost use Rattle.ga_dap.specs.Launches.{AnswersLaunchRequest, bare_event_message};
ghost use Rattle.ga_dap.specs.inner.Carrying.{SendsReplyOrLacksMemory};

use crate::back::{refuse, reverse, step_back};
use crate::changes::emit_slice_with_retry;
use crate::console::evaluate;
use crate::launching::launch_program;
use crate::sources::ProgramFiles;
use crate::unanswered::NoResponse;
use ga_dap_control::{
    Execution, LaunchedSession, WatchedExpectations, answer_immediate_request, make_event_slice,
};
use ga_dap_protocol::{ClientRequest, Outbox};
use ga_dap_queries::{RequestName, parse_request_name, respond_initialize, thread_flags_by_node};
use std::alloc::{AllocError, Global};

/// A session.
#[derive(Drop)]
pub(crate) struct Session {
    pub launched: Option<LaunchedSession>,
    /// Whether the client ended the session.
    pub is_over: bool,
}

impl Session {
    /// A session in which nothing is launched.
    pub fn new() -> Self
        ensures { result ≡ new_session }
    {
        Session {
            launched: None,
            is_over: false,
        }
    }

    /// Whether a run is under way.
    pub fn has_session_active_run(&self) -> bool
        ensures { result ≡ has_session_active_run self.now }
    {
        match &self.launched {
            Some(launched) => launched.execution.goal.is_some(),
            None => false,
        }
    }

    /// Answers a request.
    #[tactic(auto, using(crate::proofs::Known::carries_so))]
    pub fn answer<S: ProgramFiles>(
        &mut self,
        alloc: Global,
        sources: &mut S,
        request: &ClientRequest,
        out: &mut Outbox,
    ) -> Result<(), NoResponse>
        requires { out.old.bytes ≡ [] }
        ensures { SendsReplyOrLacksMemory result (λ messages. AnswersRequest S.gives sources.old self.old request.now messages sources.new self.new) (self.new ≡ self.old) out.old out.new }
    {
        match parse_request_name(request.command.as_str()) {
            Some(command) => self.answer_known(alloc, command, sources, request, out),
            None => refuse(request, "no such request", out),
        }
    }

    /// Answers a request that is known.
    fn answer_known<S: ProgramFiles>(
        &mut self,
        alloc: Global,
        command: RequestName,
        sources: &mut S,
        request: &ClientRequest,
        out: &mut Outbox,
    ) -> Result<(), NoResponse>
        requires { out.old.bytes ≡ [] }
        ensures { SendsReplyOrLacksMemory result (λ messages. AnswersKnownRequest S.gives sources.old self.old command request.now messages sources.new self.new) (self.new ≡ self.old) out.old out.new }
    {
        match command {
            RequestName::Initialize => self.initialize(alloc, request, out),
            RequestName::Launch => self.launch(alloc, sources, request, out),
            RequestName::Disconnect => self.disconnect(request, out),
            RequestName::Terminate => self.terminate(request, out),
            _ => self.answer_launched(alloc, command, request, out),
        }
    }

    /// `initialize`.
    fn initialize(
        &mut self,
        alloc: Global,
        request: &ClientRequest,
        out: &mut Outbox,
    ) -> Result<(), NoResponse>
        ensures { SendsReplyOrLacksMemory result (λ messages. AnswersInitializeRequest self.old request.now messages self.new) (self.new ≡ self.old) out.old out.new }
    {
        match respond_initialize(alloc, request, out) {
            Ok(()) => Ok(()),
            Err(_) => Err(NoResponse::Memory),
        }
    }

    /// `launch`.
    fn launch<S: ProgramFiles>(
        &mut self,
        alloc: Global,
        sources: &mut S,
        request: &ClientRequest,
        out: &mut Outbox,
    ) -> Result<(), NoResponse>
        ensures { SendsReplyOrLacksMemory result (λ messages. ChangesLaunchedProgramOnly (λ m l. AnswersLaunchRequest S.gives sources.old self.old.launched request.now m sources.new l) self.old messages self.new) (self.new ≡ self.old) out.old out.new }
    {
        match &self.launched {
            Some(_) => refuse(request, "launch: a program is launched already", out),
            None => match launch_program(alloc, sources, request, out) {
                Ok(launched) => {
                    self.launched = launched;
                    Ok(())
                }
                Err(_) => Err(NoResponse::Memory),
            },
        }
    }

    /// `disconnect`: the session ends.
    fn disconnect(&mut self, request: &ClientRequest, out: &mut Outbox) -> Result<(), NoResponse>
        ensures { SendsReplyOrLacksMemory result (λ messages. AnswersDisconnectRequest self.old request.now messages self.new) (self.new ≡ self.old) out.old out.new }
    {
        match out.acknowledge(request) {
            Ok(()) => {
                self.is_over = true;
                Ok(())
            }
            Err(_) => Err(NoResponse::Memory),
        }
    }

    /// `terminate`: the run ends.
    fn terminate(&mut self, request: &ClientRequest, out: &mut Outbox) -> Result<(), NoResponse>
        ensures { SendsReplyOrLacksMemory result (λ messages. AnswersTerminateRequest self.old request.now messages self.new) (self.new ≡ self.old) out.old out.new }
    {
        match tell_terminated(request, out) {
            Ok(()) => {
                end_run(&mut self.launched);
                Ok(())
            }
            Err(_) => Err(NoResponse::Memory),
        }
    }

    /// Answers a request that needs a program.
    fn answer_launched(
        &mut self,
        alloc: Global,
        command: RequestName,
        request: &ClientRequest,
        out: &mut Outbox,
    ) -> Result<(), NoResponse>
        requires { out.old.bytes ≡ [] }
        ensures { SendsReplyOrLacksMemory result (λ messages. ChangesLaunchedProgramOnly (AnswersRequestIfLaunched command self.old.launched request.now) self.old messages self.new) (self.new ≡ self.old) out.old out.new }
    {
        match &mut self.launched {
            Some(launched) => answer_by(alloc, launched, command, request, out),
            None => refuse(request, "nothing is launched", out),
        }
    }
}

/// Sends that the run ended.
fn tell_terminated(request: &ClientRequest, out: &mut Outbox) -> Result<(), AllocError>
    ensures { OnOk result (SendsMessages out.old (bare_success_response request.now ∷ bare_event_message (codes "terminated") ∷ []) out.new) }
{
    out.acknowledge(request)?;
    out.add_bare_event("terminated")
}

/// Ends the run under way.
fn end_run(launched: &mut Option<LaunchedSession>)
    ensures { launched.new ≡ program_with_run_ended launched.old }
{
    match launched {
        Some(launched) => launched.execution.goal = None,
        None => {}
    }
}

/// Whether a request needs a stopped chip.
fn needs_stopped_chip(command: RequestName) -> bool
    ensures { result ≡ needs_stopped_chip command }
{
    match command {
        RequestName::Continue => true,
        RequestName::Next => true,
        RequestName::StepIn => true,
        RequestName::StepOut => true,
        RequestName::StepBack => true,
        RequestName::ReverseContinue => true,
        RequestName::Evaluate => true,
        _ => false,
    }
}

/// Whether a request begins a run.
fn begins_run(command: RequestName) -> bool
    ensures { result ≡ begins_run command }
{
    match command {
        RequestName::Continue => true,
        RequestName::Next => true,
        RequestName::StepIn => true,
        RequestName::StepOut => true,
        _ => false,
    }
}

/// Why a request that needs a program is not carried out now; none where it is.
fn request_refusal_reason(command: RequestName, execution: &Execution) -> Option<&'static str>
    ensures { option_map (λ why. why.now) result ≡ request_refusal_reason command execution.now }
{
    if execution.goal.is_some() && needs_stopped_chip(command) {
        return Some("the chip runs");
    }
    if !execution.is_configured && begins_run(command) {
        return Some("configurationDone comes first");
    }
    None
}

/// Answers a request that needs a program.
fn answer_by(
    alloc: Global,
    launched: &mut LaunchedSession,
    command: RequestName,
    request: &ClientRequest,
    out: &mut Outbox,
) -> Result<(), NoResponse>
    requires { out.old.bytes ≡ [] }
    ensures { SendsReplyOrLacksMemory result (λ messages. AnswersRequestWhileLaunched command launched.old request.now messages launched.new) (launched.new ≡ launched.old) out.old out.new }
{
    match request_refusal_reason(command, &launched.execution) {
        Some(why) => refuse(request, why, out),
        None => answer_standing(alloc, launched, command, request, out),
    }
}

/// Answers a request that needs a program, if the chip is stopped or the request doesn't need that.
fn answer_standing(
    alloc: Global,
    launched: &mut LaunchedSession,
    command: RequestName,
    request: &ClientRequest,
    out: &mut Outbox,
) -> Result<(), NoResponse>
    requires { out.old.bytes ≡ [] }
    ensures { SendsReplyOrLacksMemory result (λ messages. PerformsRequest command launched.old request.now messages launched.new) (launched.new ≡ launched.old) out.old out.new }
{
    match command {
        RequestName::StepBack => step_back(alloc, &mut launched.program, request, out),
        RequestName::ReverseContinue => reverse(
            alloc,
            &mut launched.program,
            &launched.settings,
            request,
            out,
        ),
        RequestName::Evaluate => evaluate(alloc, &mut launched.program, request, out),
        _ => in_place(alloc, launched, command, request, out),
    }
}

/// Answers a request that makes no event and takes none back.
fn in_place(
    alloc: Global,
    launched: &mut LaunchedSession,
    command: RequestName,
    request: &ClientRequest,
    out: &mut Outbox,
) -> Result<(), NoResponse>
    ensures { SendsReplyOrLacksMemory result (λ messages. AnswersImmediateRequest command launched.old request.now messages launched.new) (launched.new ≡ launched.old) out.old out.new }
{
    match answer_immediate_request(alloc, launched, command, request, out) {
        Ok(()) => Ok(()),
        Err(_) => Err(NoResponse::Memory),
    }
}

/// Makes a slice of the run in progress, and sends its result.
pub(crate) fn go_on_launched(
    alloc: Global,
    launched: &mut LaunchedSession,
    watched: &mut Option<WatchedExpectations>,
    out: &mut Outbox,
) -> Result<(), NoResponse>
    requires sent { out.old.bytes ≡ [] }
    requires known { AreOptionalExpectationsKnown launched.old.program launched.old.settings watched.old }
    ensures known { AreOptionalExpectationsKnown launched.new.program launched.new.settings watched.new }
    ensures sends { SendsReplyOrLacksMemory result (λ messages. MakesRunSlice launched.old messages launched.new) (Unit {0}) out.old out.new }
{
    let before = thread_flags_by_node(&launched.program.lab, launched.program.nodes.as_slice());
    let stop = make_event_slice(
        alloc,
        &mut launched.program,
        &launched.settings,
        &mut launched.execution,
        watched,
    );
    let (program, settings) = (&launched.program, &launched.settings);
    emit_slice_with_retry(alloc, program, settings, &before, &stop, out)
}
