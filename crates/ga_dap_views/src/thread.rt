//! The threads: nodes that have something to show.

ghost use Rattle.std.specs.Prelude.{◌≡◌, ◌++◌, ◌∷◌, [], IfOk, OnOk, map, filter};
ghost use Rattle.serde_json.specs.View.{view};
ghost use Rattle.ga_ports.specs.Address.{address_target};
ghost use Rattle.ga_node.specs.Record.{record_of_node};
ghost use Rattle.ga_dap_views.specs.Json.{json_array_of_mapped_items, json_object_of_member};
ghost use Rattle.ga_dap_views.specs.Threads.{named_thread_object, node_thread_object, has_thread, is_target_in_memory, is_among_nodes, nodes_with_threads, threads_body};

use crate::doing::thread_title;
use crate::json::object_with;
use crate::numbers::thread_id;
use ga_grid::NodeId;
use ga_lab::Lab;
use ga_node::{Node, NodePlace};
use ga_ports::{AddressTarget, classify_address};
use serde_json::{Value, json, push};
use std::alloc::{AllocError, Global};

/// A thread of this name.
#[tactic(auto, unfolding(crate::specs::Threads::named_thread_object))]
fn thread_object(alloc: Global, node: NodeId, name: &str) -> Result<Value, AllocError>
    ensures { IfOk result (λ v. view v ≡ named_thread_object node.number name.now) }
{
    json!(in alloc; {"id": thread_id(node), "name": name})
}

/// The thread of a node.
fn thread(alloc: Global, lab: &Lab, node: NodeId) -> Result<Value, AllocError>
    ensures { IfOk result (λ v. view v ≡ node_thread_object lab.now node.number) }
{
    let name = thread_title(alloc, "", lab, node)?;
    thread_object(alloc, node, name.as_str())
}

/// Whether a node's P names a cell of memory.
#[tactic(auto, unfolding(ga_node::specs::Record::record_of_node))]
fn is_target_in_memory(node: &Node) -> bool
    ensures { result ≡ is_target_in_memory (address_target (record_of_node node.now).p) }
{
    match classify_address(node.get(NodePlace::P)) {
        AddressTarget::Ram(_) => true,
        AddressTarget::Rom(_) => true,
        _ => false,
    }
}

fn is_among(nodes: &[NodeId], node: NodeId) -> bool
    ensures { result ≡ is_among_nodes nodes.now node.number }
{
    nodes.iter().any(|one| one.number == node.number)
}

/// Whether a node has something to show: a program in the source, more than the event by which it came to wait, or a P that names a
/// cell of memory. `programs` are the nodes that have a program in the source. Takes no memory.
pub fn has_thread(lab: &Lab, programs: &[NodeId], node: NodeId) -> bool
    ensures { result ≡ has_thread lab.now programs.now node.number }
{
    is_among(programs, node) || lab.steps(node) > 1 || is_target_in_memory(lab.node(node))
}

/// Adds the thread of a node, where that has something to show.
fn add_thread(
    list: &mut Vec<Value>,
    alloc: Global,
    lab: &Lab,
    programs: &[NodeId],
    node: NodeId,
) -> Result<(), AllocError>
    ensures { OnOk result (map view list.new.items ≡ map view list.old.items
        ++ map (node_thread_object lab.now) (filter (has_thread lab.now programs.now) (node.number ∷ []))) }
{
    if !has_thread(lab, programs, node) {
        return Ok(());
    }
    let value = thread(alloc, lab, node)?;
    push(list, value)
}

/// The threads of the nodes that have something to show.
fn shown(alloc: Global, lab: &Lab, programs: &[NodeId]) -> Result<Vec<Value>, AllocError>
    ensures { IfOk result (λ list. map view list.items ≡ map (node_thread_object lab.now) (nodes_with_threads lab.now programs.now 144)) }
{
    let mut list = Vec::new(alloc);
    'nodes: for number in 0..144u8 {
        add_thread(&mut list, alloc, lab, programs, NodeId::new(number))?;
    }
    Ok(list)
}

/// The body of the response to `threads` (Debug Adapter Protocol, "ThreadsRequest"). `programs` are the nodes that have a
/// program in the source. Takes memory for the response, and time linear in the number of nodes.
///
/// # Errors
/// An allocation failed.
pub fn make_threads_body(alloc: Global, lab: &Lab, programs: &[NodeId]) -> Result<Value, AllocError>
    ensures { IfOk result (λ v. view v ≡ threads_body lab.now programs.now) }
{
    let list = shown(alloc, lab, programs)?;
    object_with(alloc, "threads", list)
}
