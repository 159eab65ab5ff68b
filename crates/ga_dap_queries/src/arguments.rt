//! What the arguments of a request ask for.

ghost use Rattle.std.specs.Prelude.{◌≡◌, ◌≢◌, ◌<◌, ℕ, map, IfSome, IfNone};
ghost use Rattle.serde_json.specs.View.{view};
ghost use Rattle.serde_json.specs.Find.{as_array};
ghost use Rattle.ga_dap_views.specs.Numbers.{frame_id};
ghost use Rattle.ga_dap_queries.specs.Arguments.{IsThreadArgument, IsFrameArgument, IsVariablesReferenceArgument, parse_boolean_member, member_list_values, items_or_empty, number_member_or_default};

use ga_dap_protocol::member_as_number;
use ga_dap_views::{Scope, node_of_frame, node_of_thread, resolve_variables_reference};
use ga_grid::NodeId;
use serde_json::Value;

/// The flag of a member.
pub fn parse_boolean_member(value: &Value, name: &str) -> Option<bool>
    ensures { result ≡ parse_boolean_member name.now (view value.now) }
{
    value.get(name).and_then(Value::as_bool)
}

/// The values of a member that is a list; none where it is no list.
pub fn member_list_values<'v>(value: &'v Value, name: &str) -> &'v [Value]
    ensures { map view result.now ≡ member_list_values name.now (view value.now) }
{
    match value.get(name) {
        Some(member) => values_of_items(member),
        None => &[],
    }
}

/// The values of a list; none where it is no list.
#[tactic(auto, using(crate::proofs::Listed::listed))]
fn values_of_items(value: &Value) -> &[Value]
    ensures { map view result.now ≡ items_or_empty (as_array (view value.now)) }
{
    match value.as_array() {
        Some(list) => list.as_slice(),
        None => &[],
    }
}

/// The number of a member, and another where it has none.
pub fn number_member_or_default(value: &Value, name: &str, other: u64) -> u64
    ensures { result ≡ number_member_or_default name.now other (view value.now) }
{
    member_as_number(value, name).unwrap_or(other)
}

/// The node of the requested thread.
pub fn thread_argument(arguments: &Value) -> Option<NodeId>
    ensures { IsThreadArgument (view arguments.now) result }
{
    match member_as_number(arguments, "threadId") {
        Some(thread) => node_of_thread(thread),
        None => None,
    }
}

/// The node of the requested frame.
pub fn frame_argument(arguments: &Value) -> Option<NodeId>
    ensures { IsFrameArgument (view arguments.now) result }
{
    match member_as_number(arguments, "frameId") {
        Some(frame) => node_framed(frame),
        None => None,
    }
}

/// The node of a frame.
fn node_framed(frame: u64) -> Option<NodeId>
    ensures found { IfSome result (λ node. (level : ℕ) × (level < 16) × (frame_id node.number level ≡ frame)) }
    ensures none { IfNone result ((n level : ℕ) → n < 144 → level < 16 → frame_id n level ≢ frame) }
{
    match node_of_frame(frame) {
        Some((node, _)) => Some(node),
        None => None,
    }
}

/// The node and the scope of the requested variables.
pub fn variables_reference_argument(arguments: &Value) -> Option<(NodeId, Scope)>
    ensures { IsVariablesReferenceArgument (view arguments.now) result }
{
    match member_as_number(arguments, "variablesReference") {
        Some(reference) => resolve_variables_reference(reference),
        None => None,
    }
}
