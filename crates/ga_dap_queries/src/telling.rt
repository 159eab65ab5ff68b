//! The events that a client is sent.

ghost use Rattle.std.specs.Prelude.{◌≡◌, ◌<◌, ℕ, codes, length, map, IfOk, OnOk, OnErr};
ghost use Rattle.serde_json.specs.View.{view};
ghost use Rattle.ga_causal.specs.Dependence.{is_node_flagged};
ghost use Rattle.ga_dap_views.specs.Json.{json_whole_number};
ghost use Rattle.ga_dap_views.specs.Threads.{has_thread};
ghost use Rattle.ga_dap_queries.specs.Sending.{SendsMessage, SendsMessages, event_message};
ghost use Rattle.ga_dap_queries.specs.Events.{output_event_body, thread_event_body, thread_event_reason, stopped_event_body, breakpoint_stopped_object, stopped_body_with_breakpoints, thread_change_messages, thread_change_messages_below, IsFirstThreadNode};

use ga_dap_protocol::Outbox;
use ga_dap_views::{has_thread, thread_id};
use ga_grid::NodeId;
use ga_lab::Lab;
use serde_json::{Value, json, push};
use std::alloc::{AllocError, Global};

#[tactic(auto, unfolding(crate::specs::Events::output_event_body))]
fn output_event_body(alloc: Global, category: &str, text: &str) -> Result<Value, AllocError>
    ensures { IfOk result (λ v. view v ≡ output_event_body category.now text.now) }
{
    json!(in alloc; {"category": category, "output": text})
}

/// `output` (Debug Adapter Protocol, "OutputEvent").
pub fn emit_output(
    alloc: Global,
    category: &str,
    text: &str,
    out: &mut Outbox,
) -> Result<(), AllocError>
    ensures sent { OnOk result (SendsMessage out.old (event_message (codes "output") (output_event_body category.now text.now)) out.new) }
    ensures err { OnErr result (out.new ≡ out.old) }
{
    let body = output_event_body(alloc, category, text)?;
    out.add_event("output", body)
}

fn thread_event_reason(started: bool) -> &'static str
    ensures { result.now ≡ thread_event_reason started }
{
    if started { "started" } else { "exited" }
}

#[tactic(auto, unfolding(crate::specs::Events::thread_event_body))]
fn thread_event_body(alloc: Global, reason: &str, node: NodeId) -> Result<Value, AllocError>
    ensures { IfOk result (λ v. view v ≡ thread_event_body reason.now node.number) }
{
    json!(in alloc; {"reason": reason, "threadId": thread_id(node)})
}

/// `thread` (Debug Adapter Protocol, "ThreadEvent").
pub fn emit_thread_event(
    alloc: Global,
    started: bool,
    node: NodeId,
    out: &mut Outbox,
) -> Result<(), AllocError>
    ensures sent { OnOk result (SendsMessage out.old (event_message (codes "thread") (thread_event_body (thread_event_reason started) node.number)) out.new) }
    ensures err { OnErr result (out.new ≡ out.old) }
{
    let body = thread_event_body(alloc, thread_event_reason(started), node)?;
    out.add_event("thread", body)
}

/// The nodes that have something to show.
pub fn thread_flags_by_node(lab: &Lab, programs: &[NodeId]) -> [bool; 144]
    ensures marks { (n : ℕ) → n < 144 → is_node_flagged result n ≡ has_thread lab.now programs.now n }
    ensures size { length result ≡ 144 }
{
    let mut nodes = [false; 144];
    for number in 0..144u8 {
        let is_shown = has_thread(lab, programs, NodeId::new(number));
        nodes[number as usize] = is_shown;
    }
    nodes
}

/// Sends the nodes that have something to show and had not, and the other way round.
#[tactic(auto, using(crate::proofs::Sent::none_changed, crate::proofs::Sent::next_changed))]
pub fn emit_thread_changes(
    alloc: Global,
    before: &[bool; 144],
    now: &[bool; 144],
    out: &mut Outbox,
) -> Result<(), AllocError>
    ensures { OnOk result (SendsMessages out.old (thread_change_messages_below (is_node_flagged before.now) (is_node_flagged now.now) 144) out.new) }
{
    'nodes: for number in 0..144u8 {
        let node = NodeId::new(number);
        let (was, is) = (is_marked(before, node), is_marked(now, node));
        tell_if_changed(alloc, was, is, node, out)?;
    }
    Ok(())
}

/// The mark of a node.
fn is_marked(marks: &[bool; 144], node: NodeId) -> bool
    ensures { result ≡ is_node_flagged marks.now node.number }
{
    marks[node.index()]
}

/// Sends a node that has something to show and had not, or the other way round.
fn tell_if_changed(
    alloc: Global,
    before: bool,
    now: bool,
    node: NodeId,
    out: &mut Outbox,
) -> Result<(), AllocError>
    ensures sent { OnOk result (SendsMessages out.old (thread_change_messages before now node.number) out.new) }
{
    match (before, now) {
        (false, true) => emit_thread_event(alloc, true, node, out),
        (true, false) => emit_thread_event(alloc, false, node, out),
        (false, false) => Ok(()),
        (true, true) => Ok(()),
    }
}

/// The first node that has something to show; 000 where none has.
pub fn first_node_with_thread(lab: &Lab, programs: &[NodeId]) -> NodeId
    ensures { IsFirstThreadNode lab.now programs.now result.number }
{
    'nodes: for number in 0..144u8 {
        let node = NodeId::new(number);
        if has_thread(lab, programs, node) {
            return node;
        }
    }
    NodeId::new(0)
}

#[tactic(auto, unfolding(crate::specs::Events::stopped_event_body))]
fn stopped_event_body(
    alloc: Global,
    reason: &str,
    description: &str,
    node: NodeId,
) -> Result<Value, AllocError>
    ensures { IfOk result (λ v. view v ≡ stopped_event_body reason.now description.now node.number) }
{
    json!(in alloc; {
        "allThreadsStopped": true,
        "description": description,
        "reason": reason,
        "text": description,
        "threadId": thread_id(node)
    })
}

/// `stopped` (Debug Adapter Protocol, "StoppedEvent"): the chip is stopped.
pub fn emit_stopped_event(
    alloc: Global,
    reason: &str,
    description: &str,
    node: NodeId,
    out: &mut Outbox,
) -> Result<(), AllocError>
    ensures sent { OnOk result (SendsMessage out.old (event_message (codes "stopped") (stopped_event_body reason.now description.now node.number)) out.new) }
    ensures err { OnErr result (out.new ≡ out.old) }
{
    let body = stopped_event_body(alloc, reason, description, node)?;
    out.add_event("stopped", body)
}

/// The numbers of some breakpoints.
#[tactic(auto, using(std::proofs::lemmas::List::map_push))]
fn numbers_of(alloc: Global, ids: &[u64]) -> Result<Vec<Value>, AllocError>
    ensures { IfOk result (λ list. map view list.items ≡ map json_whole_number ids.now) }
{
    let mut list = Vec::new(alloc);
    'ids: for id in ids {
        push(&mut list, Value::from(*id))?;
    }
    Ok(list)
}

#[tactic(auto, unfolding(crate::specs::Events::breakpoint_stopped_object))]
fn breakpoint_stopped_object(
    alloc: Global,
    reason: &str,
    description: &str,
    node: NodeId,
    ids: Value,
) -> Result<Value, AllocError>
    ensures { IfOk result (λ v. view v ≡ breakpoint_stopped_object reason.now description.now node.number (view ids)) }
{
    json!(in alloc; {
        "allThreadsStopped": true,
        "description": description,
        "hitBreakpointIds": ids,
        "reason": reason,
        "text": description,
        "threadId": thread_id(node)
    })
}

fn stopped_body_with_breakpoints(
    alloc: Global,
    reason: &str,
    description: &str,
    node: NodeId,
    ids: &[u64],
) -> Result<Value, AllocError>
    ensures { IfOk result (λ v. view v ≡ stopped_body_with_breakpoints reason.now description.now node.number ids.now) }
{
    let numbers = numbers_of(alloc, ids)?;
    breakpoint_stopped_object(alloc, reason, description, node, Value::Array(numbers))
}

/// `stopped` at breakpoints (Debug Adapter Protocol, "StoppedEvent"): the chip is stopped.
pub fn emit_breakpoint_hit(
    alloc: Global,
    reason: &str,
    description: &str,
    node: NodeId,
    ids: &[u64],
    out: &mut Outbox,
) -> Result<(), AllocError>
    ensures sent { OnOk result (SendsMessage out.old (event_message (codes "stopped") (stopped_body_with_breakpoints reason.now description.now node.number ids.now)) out.new) }
    ensures err { OnErr result (out.new ≡ out.old) }
{
    let body = stopped_body_with_breakpoints(alloc, reason, description, node, ids)?;
    out.add_event("stopped", body)
}
