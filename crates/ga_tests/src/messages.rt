//! Requests, read from content parts, and messages that are written, byte for byte.

use crate::common::{assert_each_display_text, assert_equal_values};
use ga_dap_protocol::{
    ClientRequest, Inbox, NextMessage, Outbox, RequestError, member_as_number, member_as_text,
    read_request,
};
use serde_json::{Value, json};
use std::alloc::{AllocError, Global};
use std::process::Abort;
use std::test::Fail;

/// Why each content part is no request.
const REFUSED: &[(&[u8], RequestError)] = &[
    (b"", RequestError::Json),
    (b"{", RequestError::Json),
    (b"{}{}", RequestError::Json),
    (
        b"{\"type\":\"request\",\"seq\":1,\"command\":\"\xff\"}",
        RequestError::Json,
    ),
    (b"[]", RequestError::WrongType),
    (b"null", RequestError::WrongType),
    (
        b"{\"seq\":1,\"command\":\"threads\"}",
        RequestError::WrongType,
    ),
    (
        b"{\"seq\":1,\"type\":\"event\",\"event\":\"stopped\"}",
        RequestError::WrongType,
    ),
    (
        b"{\"type\":\"request\",\"command\":\"threads\"}",
        RequestError::Seq,
    ),
    (
        b"{\"seq\":-1,\"type\":\"request\",\"command\":\"threads\"}",
        RequestError::Seq,
    ),
    (
        b"{\"seq\":\"1\",\"type\":\"request\",\"command\":\"threads\"}",
        RequestError::Seq,
    ),
    (
        b"{\"seq\":1.5,\"type\":\"request\",\"command\":\"threads\"}",
        RequestError::Seq,
    ),
    (
        b"{\"seq\":1,\"type\":\"request\"}",
        RequestError::MissingCommand,
    ),
    (
        b"{\"seq\":1,\"type\":\"request\",\"command\":7}",
        RequestError::MissingCommand,
    ),
];

fn assert_refused(rt: &impl Abort, alloc: Global, content: &[u8], wanted: RequestError) {
    let got = read_request(alloc, content).err();
    assert_eq!(rt; got, Some(wanted), "at {content:?}");
}

#[test]
fn what_is_no_request_is_refused(rt: HostRuntime) {
    for (content, wanted) in REFUSED {
        assert_refused(&rt, rt.alloc(), content, *wanted);
    }
}

#[test]
fn requests_are_read(rt: HostRuntime) -> Result<(), Fail> {
    let content =
        b"{\n  \"arguments\": {\"threadId\": 1701, \"granularity\": \"instruction\"},\n  \"command\": \"next\", \"seq\": 0, \"type\": \"request\" }";
    let request = read_request(rt.alloc(), content)?;
    assert_equal_values(&rt, &request.seq, &0);
    assert_eq!(rt; request.command.as_str(), "next");
    assert_equal_values(
        &rt,
        &member_as_number(&request.arguments, "threadId"),
        &Some(1701),
    );
    assert_equal_values(
        &rt,
        &member_as_text(&request.arguments, "granularity"),
        &Some("instruction"),
    );
    assert_equal_values(&rt, &member_as_text(&request.arguments, "threadId"), &None);
    assert_equal_values(&rt, &member_as_number(&request.arguments, "frameId"), &None);
    let bare = read_request(
        rt.alloc(),
        b"{\"seq\":18446744073709551615,\"type\":\"request\",\"command\":\"\"}",
    )?;
    assert_equal_values(&rt, &bare.seq, &u64::MAX);
    assert!(rt; bare.arguments.is_null());
    Ok(())
}

/// The text of each cause.
#[test]
fn causes_are_said(rt: HostRuntime) -> Result<(), Fail> {
    let causes = [
        (RequestError::Memory, "out of memory"),
        (RequestError::Json, "a message is no JSON"),
        (RequestError::WrongType, "a message is no request"),
        (RequestError::Seq, "a request has no `seq`"),
        (RequestError::MissingCommand, "a request has no `command`"),
    ];
    assert_each_display_text(&rt, rt.alloc(), &causes)
}

fn threads(alloc: Global) -> Result<ClientRequest, AllocError> {
    Ok(ClientRequest {
        seq: 7,
        command: String::from_str(alloc, "threads")?,
        arguments: Value::Null,
    })
}

/// Asserts what is to be written, and forgets it.
fn assert_sent(rt: &impl Abort, outbox: &mut Outbox, wanted: &str) {
    assert_eq!(rt; outbox.bytes(), wanted.as_bytes());
    outbox.clear();
}

#[test]
fn responses_are_written(rt: HostRuntime) -> Result<(), Fail> {
    let request = threads(rt.alloc())?;
    let mut outbox = Outbox::new(rt.alloc());
    let body = json!(in rt.alloc(); {"threads": []})?;
    outbox.respond(&request, body)?;
    assert_sent(
        &rt,
        &mut outbox,
        "Content-Length: 100\r\n\r\n{\"body\":{\"threads\":[]},\"command\":\"threads\",\"request_seq\":7,\"seq\":1,\"success\":true,\"type\":\"response\"}",
    );
    outbox.acknowledge(&request)?;
    assert_sent(
        &rt,
        &mut outbox,
        "Content-Length: 78\r\n\r\n{\"command\":\"threads\",\"request_seq\":7,\"seq\":2,\"success\":true,\"type\":\"response\"}",
    );
    outbox.refuse(&request, "no node \"018\"")?;
    assert_sent(
        &rt,
        &mut outbox,
        "Content-Length: 160\r\n\r\n{\"body\":{\"error\":{\"format\":\"no node \\\"018\\\"\",\"id\":1}},\"command\":\"threads\",\"message\":\"no node \\\"018\\\"\",\"request_seq\":7,\"seq\":3,\"success\":false,\"type\":\"response\"}",
    );
    Ok(())
}

#[test]
fn events_are_written(rt: HostRuntime) -> Result<(), Fail> {
    let mut outbox = Outbox::new(rt.alloc());
    outbox.add_bare_event("initialized")?;
    assert_sent(
        &rt,
        &mut outbox,
        "Content-Length: 46\r\n\r\n{\"event\":\"initialized\",\"seq\":1,\"type\":\"event\"}",
    );
    let body = json!(in rt.alloc(); {"reason": "step", "threadId": 1000u64})?;
    outbox.add_event("stopped", body)?;
    assert_sent(
        &rt,
        &mut outbox,
        "Content-Length: 83\r\n\r\n{\"body\":{\"reason\":\"step\",\"threadId\":1000},\"event\":\"stopped\",\"seq\":2,\"type\":\"event\"}",
    );
    Ok(())
}

/// What is written comes back as the same messages, and as values.
#[test]
fn what_is_written_is_read_back(rt: HostRuntime) -> Result<(), Fail> {
    let request = threads(rt.alloc())?;
    let mut outbox = Outbox::new(rt.alloc());
    outbox.add_bare_event("initialized")?;
    let body = json!(in rt.alloc(); {"text": "a\n\u{1F600} \\ \""})?;
    outbox.respond(&request, body)?;
    let mut inbox = Inbox::new(rt.alloc());
    let mut reader = outbox.bytes();
    let mut seqs = 0u64;
    for _ in 0..2 {
        let NextMessage::Message(content) = inbox.next(&mut reader)? else {
            return Ok(());
        };
        let value = Value::from_slice(rt.alloc(), &content)?;
        let seq = member_as_number(&value, "seq").unwrap_or(0);
        seqs = seqs.saturating_add(seq);
        assert!(rt; read_request(rt.alloc(), &content).is_err());
        if let Some(body) = value.get("body") {
            assert_eq!(rt; member_as_text(body, "text"), Some("a\n\u{1F600} \\ \""));
        }
    }
    assert_eq!(rt; seqs, 3);
    assert!(rt; matches!(inbox.next(&mut reader)?, NextMessage::End));
    Ok(())
}
