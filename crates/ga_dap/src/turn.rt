//! One turn of a session: a request is answered, or the run in progress continues.

ghost use Rattle.std.specs.Prelude.{◌≡◌, ◌++◌, [], Some, true, IfOk, IfErr, OnOk, OnErr, List, ℕ};
ghost use Rattle.ga_text.specs.Lines.{Bytes};
ghost use Rattle.ga_dap_protocol.specs.Inbox.{IsNextMessage};
ghost use Rattle.ga_dap_protocol.specs.Messages.{HoldsNoRequest};
ghost use Rattle.ga_dap_queries.specs.Sending.{SendsMessages};
ghost use Rattle.ga_dap.specs.Client.{IsRequestReadDue, IsRequestInContent, has_session_active_run, invalid_request_output, out_of_memory_messages, request_error_text, empty_outbox_content};
ghost use Rattle.ga_dap.specs.inner.Knowing.{AreExpectationsOfSessionKnown};
ghost use Rattle.ga_dap.specs.inner.Turning.{AnswersRequestOrEnds, DeclinesRequestOrEndsSession, AnswersContentOrEnds, TakesMessageOrEnds, ContinuesRunOrEnds, MakesTurnOrEnds, server_state_of_parts};

use crate::serving::SessionEnd;
use crate::session::{Session, go_on_launched};
use crate::sources::{PendingInput, ProgramFiles};
use crate::unanswered::NoResponse;
use ga_dap_control::WatchedExpectations;
use ga_dap_protocol::{ClientRequest, Inbox, NextMessage, Outbox, RequestError, read_request};
use ga_dap_queries::emit_output;
use std::alloc::{AllocError, Global};
use std::io::Read;

/// Whether a session continues.
#[derive(Drop)]
pub(crate) enum Progress {
    On,
    End(SessionEnd),
}

/// Takes the next message, and once more where memory was refused to it.
fn next_message<R: Read>(inbox: &mut Inbox, reader: &mut R) -> Result<NextMessage, AllocError>
    ensures next { (left : List ℕ) → R.remaining reader.old ≡ Some left → IfOk result (λ next.
        (rest : List ℕ) × (R.remaining reader.new ≡ Some rest) × IsNextMessage (inbox.old ++ left) next (inbox.new ++ rest)) }
    ensures refused { (left : List ℕ) → R.remaining reader.old ≡ Some left → OnErr result
        ((rest : List ℕ) × (R.remaining reader.new ≡ Some rest) × (inbox.old ++ left ≡ inbox.new ++ rest)) }
{
    match inbox.next(reader) {
        Ok(next) => Ok(next),
        Err(_) => inbox.next(reader),
    }
}

/// The request that a content part is; read once more where memory was refused to it.
fn request_in(alloc: Global, content: &[u8]) -> Result<ClientRequest, RequestError>
    ensures ok { IfOk result (λ r. IsRequestInContent content.now r) }
    ensures err { IfErr result (λ why. HoldsNoRequest content.now why) }
{
    match read_request(alloc, content) {
        Ok(request) => Ok(request),
        Err(RequestError::Memory) => read_request(alloc, content),
        Err(why) => Err(why),
    }
}

/// The text about a message that is no request.
fn request_error_text(why: RequestError) -> &'static str
    ensures { result.now ≡ request_error_text why }
{
    match why {
        RequestError::Memory => "out of memory",
        RequestError::Json => "a message is no JSON",
        RequestError::WrongType => "a message is no request",
        RequestError::Seq => "a request has no `seq`",
        RequestError::MissingCommand => "a request has no `command`",
    }
}

/// Sends that a message is no request.
fn tell_no_request(alloc: Global, why: RequestError, out: &mut Outbox) -> Result<(), AllocError>
    ensures sent { OnOk result (SendsMessages out.old (invalid_request_output why) out.new) }
    ensures err { OnErr result (out.new ≡ out.old) }
{
    let words = request_error_text(why);
    let text = format!(in alloc; "ga144: {words}\n")?;
    emit_output(alloc, "stderr", text.as_str(), out)
}

/// Sends that a message is no request, and once more if an allocation failed for that.
fn decline(alloc: Global, why: RequestError, out: &mut Outbox) -> Progress
    ensures { DeclinesRequestOrEndsSession why out.old result out.new }
{
    match tell_no_request(alloc, why, out) {
        Ok(()) => return Progress::On,
        Err(_) => {}
    }
    match tell_no_request(alloc, why, out) {
        Ok(()) => Progress::On,
        Err(_) => Progress::End(SessionEnd::Memory),
    }
}

/// The refusal of a request for which an allocation failed, after the message of this number.
#[tactic(auto, using(crate::proofs::Known::sent_again, ga_dap_queries::proofs::Sent::sent_one))]
fn refusal_of(alloc: Global, request: &ClientRequest, seq: u64) -> Result<Outbox, AllocError>
    ensures { IfOk result (λ out. SendsMessages (empty_outbox_content seq) (out_of_memory_messages request.now) out) }
{
    let mut out = Outbox::new(alloc);
    out.discard_unsent(seq);
    out.refuse(request, "out of memory")?;
    Ok(out)
}

/// The refusal of a request for want of memory, made once more where memory was refused to it.
fn refusal_for(alloc: Global, request: &ClientRequest, seq: u64) -> Result<Outbox, AllocError>
    ensures { IfOk result (λ out. SendsMessages (empty_outbox_content seq) (out_of_memory_messages request.now) out) }
{
    match refusal_of(alloc, request, seq) {
        Ok(refusal) => Ok(refusal),
        Err(_) => refusal_of(alloc, request, seq),
    }
}

/// Answers a request, or refuses it if there is no memory for its answer. The refusal is built first, so that it can be sent
/// then.
fn answer<S: ProgramFiles>(
    alloc: Global,
    session: &mut Session,
    sources: &mut S,
    request: &ClientRequest,
    out: &mut Outbox,
) -> Progress
    requires { out.old.bytes ≡ [] }
    ensures { AnswersRequestOrEnds S.gives sources.old session.old request.now out.old result out.new sources.new session.new }
{
    let seq = out.seq();
    let Ok(refusal) = refusal_for(alloc, request, seq) else {
        return Progress::End(SessionEnd::Memory);
    };
    match session.answer(alloc, sources, request, out) {
        Ok(()) => Progress::On,
        Err(NoResponse::Untold) => Progress::End(SessionEnd::Memory),
        Err(NoResponse::Memory) => {
            *out = refusal;
            Progress::On
        }
    }
}

/// Answers the request that a content part is.
fn answer_content<S: ProgramFiles>(
    alloc: Global,
    session: &mut Session,
    sources: &mut S,
    content: &[u8],
    out: &mut Outbox,
) -> Progress
    requires { out.old.bytes ≡ [] }
    ensures { AnswersContentOrEnds S.gives sources.old session.old content.now out.old result out.new sources.new session.new }
{
    match request_in(alloc, content) {
        Ok(request) => answer(alloc, session, sources, &request, out),
        Err(RequestError::Memory) => Progress::End(SessionEnd::Memory),
        Err(RequestError::Json) => decline(alloc, RequestError::Json, out),
        Err(RequestError::WrongType) => decline(alloc, RequestError::WrongType, out),
        Err(RequestError::Seq) => decline(alloc, RequestError::Seq, out),
        Err(RequestError::MissingCommand) => decline(alloc, RequestError::MissingCommand, out),
    }
}

/// Takes the next message and answers it.
#[tactic(auto, using(crate::proofs::Turned::takes_so))]
fn take<S: ProgramFiles, R: Read>(
    alloc: Global,
    session: &mut Session,
    sources: &mut S,
    inbox: &mut Inbox,
    reader: &mut R,
    out: &mut Outbox,
) -> Progress
    requires { out.old.bytes ≡ [] }
    ensures { (left : Bytes) → R.remaining reader.old ≡ Some left →
        (rest : Bytes) × (R.remaining reader.new ≡ Some rest)
        × TakesMessageOrEnds S.gives sources.old session.old (inbox.old ++ left) out.old result out.new sources.new session.new (inbox.new ++ rest) }
{
    match next_message(inbox, reader) {
        Ok(NextMessage::Message(content)) => answer_content(
            alloc,
            session,
            sources,
            content.as_slice(),
            out,
        ),
        Ok(NextMessage::End) => Progress::End(SessionEnd::Done),
        Ok(NextMessage::Failed) => Progress::End(SessionEnd::StreamFault),
        Ok(NextMessage::NoMessage(why)) => Progress::End(SessionEnd::BrokenFrame(why)),
        Err(_) => Progress::End(SessionEnd::Memory),
    }
}

/// Continues the run in progress, if there is one.
fn go_on(
    alloc: Global,
    session: &mut Session,
    watched: &mut Option<WatchedExpectations>,
    out: &mut Outbox,
) -> Progress
    requires running { has_session_active_run session.old ≡ true }
    requires sent { out.old.bytes ≡ [] }
    requires known { AreExpectationsOfSessionKnown session.old watched.old }
    ensures known { AreExpectationsOfSessionKnown session.new watched.new }
    ensures continues { ContinuesRunOrEnds session.old out.old result out.new session.new }
{
    match &mut session.launched {
        Some(launched) => match go_on_launched(alloc, launched, watched, out) {
            Ok(()) => Progress::On,
            Err(_) => Progress::End(SessionEnd::Memory),
        },
        None => Progress::End(SessionEnd::Memory),
    }
}

/// Whether it is time for a request: no run is in progress, or what was read shows one, or more has come.
fn is_time<A: PendingInput>(session: &Session, inbox: &Inbox, arrivals: &mut A) -> bool
    ensures { IsRequestReadDue A.tells (has_session_active_run session.now) inbox.now arrivals.old result arrivals.new }
{
    if !session.has_session_active_run() {
        return true;
    }
    if inbox.has_next() {
        return true;
    }
    arrivals.have_requests_come()
}

/// One turn of a session. `watched` is what is known of the expectations that the run in progress watches, since the last request.
#[tactic(auto, using(crate::proofs::Turned::turned_so, crate::proofs::Turned::gone_on_so))]
pub(crate) fn turn<S: ProgramFiles, A: PendingInput, R: Read>(
    alloc: Global,
    session: &mut Session,
    sources: &mut S,
    arrivals: &mut A,
    inbox: &mut Inbox,
    reader: &mut R,
    watched: &mut Option<WatchedExpectations>,
    out: &mut Outbox,
) -> Progress
    requires sent { out.old.bytes ≡ [] }
    requires known { AreExpectationsOfSessionKnown session.old watched.old }
    ensures known { AreExpectationsOfSessionKnown session.new watched.new }
    ensures turn { (left : Bytes) → R.remaining reader.old ≡ Some left →
        (rest : Bytes) × (R.remaining reader.new ≡ Some rest)
        × MakesTurnOrEnds S.gives A.tells (server_state_of_parts sources.old arrivals.old session.old out.old.seq inbox.old left) result out.new.bytes
        (server_state_of_parts sources.new arrivals.new session.new out.new.seq inbox.new rest) }
{
    if is_time(session, inbox, arrivals) {
        // A request may change the machine, or what is watched.
        *watched = None;
        take(alloc, session, sources, inbox, reader, out)
    } else {
        go_on(alloc, session, watched, out)
    }
}
