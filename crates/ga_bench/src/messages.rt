//! A request of an editor, taken from an input, and what answers it.
//!
//! Which growths there are, in their order: the room for a block of the input; the content part; those of its JSON; the command and
//! the arguments of the request. Then, for each of the five messages: those of its value; its text; its frame; and the room for it
//! in what is to be written.

use crate::refused::RunOutcome;
use ga_dap_protocol::{ClientRequest, Inbox, NextMessage, Outbox, RequestError, read_request};
use serde_json::Value;
use std::alloc::{AllocError, Global};

const REQUEST: &[u8] =
    b"Content-Length: 73\r\n\r\n{\"arguments\":{\"threadId\":1000},\"command\":\"next\",\"seq\":1,\"type\":\"request\"}";

const ANSWERS: &[u8] =
    b"Content-Length: 91\r\n\r\n{\"body\":\"a body\",\"command\":\"next\",\"request_seq\":1,\"seq\":1,\"success\":true,\"type\":\"response\"}Content-Length: 75\r\n\r\n{\"command\":\"next\",\"request_seq\":1,\"seq\":2,\"success\":true,\"type\":\"response\"}Content-Length: 141\r\n\r\n{\"body\":{\"error\":{\"format\":\"no node\",\"id\":1}},\"command\":\"next\",\"message\":\"no node\",\"request_seq\":1,\"seq\":3,\"success\":false,\"type\":\"response\"}Content-Length: 58\r\n\r\n{\"body\":\"a body\",\"event\":\"stopped\",\"seq\":4,\"type\":\"event\"}Content-Length: 46\r\n\r\n{\"event\":\"initialized\",\"seq\":5,\"type\":\"event\"}";

/// A request that is read and answered in each way.
pub fn run_client_requests(alloc: Global) -> RunOutcome {
    let mut inbox = Inbox::new(alloc);
    let mut reader = REQUEST;
    let (taken, first) = match inbox.next(&mut reader) {
        Ok(next) => (next, RunOutcome::Answered),
        Err(_) => match inbox.next(&mut reader) {
            Ok(next) => (next, RunOutcome::Refused("message")),
            Err(_) => return RunOutcome::Wrong("two refusals"),
        },
    };
    let NextMessage::Message(content) = taken else {
        return RunOutcome::Wrong("no message");
    };
    let (request, second) = match read_request(alloc, &content) {
        Ok(request) => (request, RunOutcome::Answered),
        Err(RequestError::Memory) => match read_request(alloc, &content) {
            Ok(request) => (request, RunOutcome::Refused("request")),
            Err(_) => return RunOutcome::Wrong("two refusals"),
        },
        Err(_) => return RunOutcome::Wrong("no request"),
    };
    let mut outbox = Outbox::new(alloc);
    let third = answered(alloc, &request, &mut outbox);
    if outbox.bytes() == ANSWERS {
        first.combine_outcomes(second).combine_outcomes(third)
    } else {
        RunOutcome::Wrong("other answers")
    }
}

/// The ways to answer.
#[derive(Clone, Copy)]
enum Way {
    Respond,
    Acknowledge,
    Refuse,
    Tell,
    TellAlone,
}

/// Answers in each way.
fn answered(alloc: Global, request: &ClientRequest, outbox: &mut Outbox) -> RunOutcome {
    let ways = [
        Way::Respond,
        Way::Acknowledge,
        Way::Refuse,
        Way::Tell,
        Way::TellAlone,
    ];
    let mut outcome = RunOutcome::Answered;
    for way in ways {
        outcome = outcome.combine_outcomes(sent(alloc, request, outbox, way));
    }
    outcome
}

/// Answers in one way. A refusal adds nothing, and is requested again.
fn sent(alloc: Global, request: &ClientRequest, outbox: &mut Outbox, way: Way) -> RunOutcome {
    let before = outbox.bytes().len();
    if sent_once(alloc, request, outbox, way).is_ok() {
        return RunOutcome::Answered;
    }
    if outbox.bytes().len() != before {
        return RunOutcome::Wrong("half a message");
    }
    if sent_once(alloc, request, outbox, way).is_err() {
        return RunOutcome::Wrong("two refusals");
    }
    RunOutcome::Refused("answer")
}

fn sent_once(
    alloc: Global,
    request: &ClientRequest,
    outbox: &mut Outbox,
    way: Way,
) -> Result<(), AllocError> {
    match way {
        Way::Respond => outbox.respond(request, body(alloc)?),
        Way::Acknowledge => outbox.acknowledge(request),
        Way::Refuse => outbox.refuse(request, "no node"),
        Way::Tell => outbox.add_event("stopped", body(alloc)?),
        Way::TellAlone => outbox.add_bare_event("initialized"),
    }
}

fn body(alloc: Global) -> Result<Value, AllocError> {
    let text = String::from_str(alloc, "a body")?;
    Ok(Value::String(text))
}
