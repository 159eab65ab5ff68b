//! Why a node can't go on.

ghost use Rattle.std.specs.Prelude.{◌≡◌, IfOk};
ghost use Rattle.serde_json.specs.View.{view};
ghost use Rattle.ga_dap_queries.specs.Readings.{exception_filter_of_node, exception_object, exception_info_body};

use ga_dap_views::thread_title;
use ga_grid::NodeId;
use ga_lab::Lab;
use serde_json::{Value, json};
use std::alloc::{AllocError, Global};

fn filter_of(stop: u8, stuck: bool) -> &'static str
    ensures { result.now ≡ exception_filter_of_node stop stuck }
{
    if stop != 0 {
        "stop"
    } else if stuck {
        "stuck"
    } else {
        "none"
    }
}

#[tactic(auto, unfolding(crate::specs::Readings::exception_object))]
fn described(alloc: Global, id: &str, description: &str) -> Result<Value, AllocError>
    ensures { IfOk result (λ v. view v ≡ exception_object id.now description.now) }
{
    json!(in alloc; {"breakMode": "always", "description": description, "exceptionId": id})
}

/// The body of the response to `exceptionInfo` (Debug Adapter Protocol, "ExceptionInfoRequest"): the filter for the node,
/// `none` if neither holds, and what it does. `stuck` is whether the node is deadlocked. Allocates the response.
///
/// # Errors
/// Allocation failed.
pub fn make_exception_info_body(
    alloc: Global,
    lab: &Lab,
    stuck: bool,
    node: NodeId,
) -> Result<Value, AllocError>
    ensures { IfOk result (λ v. view v ≡ exception_info_body lab.now stuck node.number) }
{
    let description = thread_title(alloc, "node ", lab, node)?;
    described(
        alloc,
        filter_of(lab.node(node).stop(), stuck),
        description.as_str(),
    )
}
