//! Messages to be written, framed, and numbered from 1 on.

ghost use Rattle.std.specs.Prelude.{◌≡◌, string_bytes, IfOk};
ghost use Rattle.serde_json.specs.View.{view};
ghost use Rattle.ga_dap_protocol.specs.Messages.{response_message, bare_response, error_response, dap_event_message as event_with, bare_event};

use crate::framing::push_frame;
use crate::request::ClientRequest;
use serde_json::{Value, json};
use std::alloc::{AllocError, Global};
use std::marker::Model;

/// Messages that are to be written, with the number of the last. Each call that adds one takes memory for its value, its text and its frame.
#[derive(Drop)]
pub struct Outbox {
    alloc: Global,
    bytes: Vec<u8>,
    seq: u64,
}

impl Model for Outbox {
    ghost use Rattle.ga_dap_protocol.specs.Sent.{OutboxContent};

    ghost Value = { OutboxContent };

    ghost view = { λ o. record { bytes = o.bytes.items; seq = o.seq } };
}

impl Outbox {
    ghost use Rattle.std.specs.Prelude.{◌≡◌, [], string_bytes, OnOk, OnErr};
    ghost use Rattle.serde_json.specs.View.{view};
    ghost use Rattle.ga_dap_protocol.specs.Messages.{response_message, bare_response, error_response, dap_event_message as event_with, bare_event};
    ghost use Rattle.ga_dap_protocol.specs.Sent.{next_message_number, AddsMessage};

    /// An outbox with nothing to be written.
    pub fn new(alloc: Global) -> Self
        ensures { result ≡ record { bytes = []; seq = 0 } }
    {
        Outbox {
            alloc,
            bytes: Vec::new(alloc),
            seq: 0,
        }
    }

    /// What is to be written.
    pub fn bytes(&self) -> &[u8]
        ensures { result.now ≡ self.now.bytes }
    {
        self.bytes.as_slice()
    }

    /// Forgets what was written.
    pub fn clear(&mut self)
        ensures { self.new ≡ record { bytes = []; seq = self.old.seq } }
    {
        self.bytes.clear();
    }

    /// The number of the last message; 0 before the first.
    pub fn seq(&self) -> u64
        ensures { result ≡ self.now.seq }
    {
        self.seq
    }

    /// Forgets what is to be written: the last message is again the one of this number.
    pub fn discard_unsent(&mut self, seq: u64)
        ensures { self.new ≡ record { bytes = []; seq = seq } }
    {
        self.bytes.clear();
        self.seq = seq;
    }

    /// The number of the next message.
    fn next_message_number(&self) -> u64
        ensures { result ≡ next_message_number self.now.seq }
    {
        self.seq.wrapping_add(1)
    }

    /// Adds a message with this number.
    fn push(&mut self, seq: u64, message: Value) -> Result<(), AllocError>
        ensures sent { OnOk result (AddsMessage self.old seq (view message) self.new) }
        ensures err { OnErr result (self.new ≡ self.old) }
    {
        let text = message.to_string(self.alloc)?;
        push_frame(self.alloc, &mut self.bytes, text.as_bytes())?;
        self.seq = seq;
        Ok(())
    }

    /// Adds the response to a request that was carried out.
    ///
    /// # Errors
    /// An allocation failed; nothing is added.
    pub fn respond(&mut self, request: &ClientRequest, body: Value) -> Result<(), AllocError>
        ensures sent { OnOk result (AddsMessage self.old (next_message_number self.old.seq)
            (response_message (next_message_number self.old.seq) request.now.seq (string_bytes request.now.command) (view body)) self.new) }
        ensures err { OnErr result (self.new ≡ self.old) }
    {
        let seq = self.next_message_number();
        let message = response_of(self.alloc, seq, request, body)?;
        self.push(seq, message)
    }

    /// Adds the response without a body to a request that was carried out.
    ///
    /// # Errors
    /// An allocation failed; nothing is added.
    pub fn acknowledge(&mut self, request: &ClientRequest) -> Result<(), AllocError>
        ensures sent { OnOk result (AddsMessage self.old (next_message_number self.old.seq)
            (bare_response (next_message_number self.old.seq) request.now.seq (string_bytes request.now.command)) self.new) }
        ensures err { OnErr result (self.new ≡ self.old) }
    {
        let seq = self.next_message_number();
        let message = bare_response_of(self.alloc, seq, request)?;
        self.push(seq, message)
    }

    /// Adds the response to a request that was refused, and why.
    ///
    /// # Errors
    /// An allocation failed; nothing is added.
    pub fn refuse(&mut self, request: &ClientRequest, why: &str) -> Result<(), AllocError>
        ensures sent { OnOk result (AddsMessage self.old (next_message_number self.old.seq)
            (error_response (next_message_number self.old.seq) request.now.seq (string_bytes request.now.command) why.now) self.new) }
        ensures err { OnErr result (self.new ≡ self.old) }
    {
        let seq = self.next_message_number();
        let message = error_response_of(self.alloc, seq, request, why)?;
        self.push(seq, message)
    }

    /// Adds an event.
    ///
    /// # Errors
    /// An allocation failed; nothing is added.
    pub fn add_event(&mut self, event: &str, body: Value) -> Result<(), AllocError>
        ensures sent { OnOk result (AddsMessage self.old (next_message_number self.old.seq)
            (event_with (next_message_number self.old.seq) event.now (view body)) self.new) }
        ensures err { OnErr result (self.new ≡ self.old) }
    {
        let seq = self.next_message_number();
        let message = event_of(self.alloc, seq, event, body)?;
        self.push(seq, message)
    }

    /// Adds an event without a body.
    ///
    /// # Errors
    /// An allocation failed; nothing is added.
    pub fn add_bare_event(&mut self, event: &str) -> Result<(), AllocError>
        ensures sent { OnOk result (AddsMessage self.old (next_message_number self.old.seq)
            (bare_event (next_message_number self.old.seq) event.now) self.new) }
        ensures err { OnErr result (self.new ≡ self.old) }
    {
        let seq = self.next_message_number();
        let message = bare_event_of(self.alloc, seq, event)?;
        self.push(seq, message)
    }
}

#[tactic(auto, unfolding(crate::specs::Messages::response_message))]
fn response_of(
    alloc: Global,
    seq: u64,
    request: &ClientRequest,
    body: Value,
) -> Result<Value, AllocError>
    ensures { IfOk result (λ v. view v ≡ response_message seq request.now.seq (string_bytes request.now.command) (view body)) }
{
    json!(in alloc; {
        "seq": seq,
        "type": "response",
        "request_seq": request.seq,
        "success": true,
        "command": request.command.as_str(),
        "body": body
    })
}

#[tactic(auto, unfolding(crate::specs::Messages::bare_response))]
fn bare_response_of(alloc: Global, seq: u64, request: &ClientRequest) -> Result<Value, AllocError>
    ensures { IfOk result (λ v. view v ≡ bare_response seq request.now.seq (string_bytes request.now.command)) }
{
    json!(in alloc; {
        "seq": seq,
        "type": "response",
        "request_seq": request.seq,
        "success": true,
        "command": request.command.as_str()
    })
}

#[tactic(auto, unfolding(crate::specs::Messages::error_response))]
fn error_response_of(
    alloc: Global,
    seq: u64,
    request: &ClientRequest,
    why: &str,
) -> Result<Value, AllocError>
    ensures { IfOk result (λ v. view v ≡ error_response seq request.now.seq (string_bytes request.now.command) why.now) }
{
    json!(in alloc; {
        "seq": seq,
        "type": "response",
        "request_seq": request.seq,
        "success": false,
        "command": request.command.as_str(),
        "message": why,
        "body": {"error": {"id": 1u64, "format": why}}
    })
}

#[tactic(auto, unfolding(crate::specs::Messages::dap_event_message))]
fn event_of(alloc: Global, seq: u64, event: &str, body: Value) -> Result<Value, AllocError>
    ensures { IfOk result (λ v. view v ≡ event_with seq event.now (view body)) }
{
    json!(in alloc; {
        "seq": seq,
        "type": "event",
        "event": event,
        "body": body
    })
}

#[tactic(auto, unfolding(crate::specs::Messages::bare_event))]
fn bare_event_of(alloc: Global, seq: u64, event: &str) -> Result<Value, AllocError>
    ensures { IfOk result (λ v. view v ≡ bare_event seq event.now) }
{
    json!(in alloc; {"seq": seq, "type": "event", "event": event})
}
