//! Where the values come from that an event leaves: of a node after an event, and of a chip after a list of events.

mod choice;
mod flows;
mod part;
mod sought;

ghost use Rattle.std.specs.Prelude.{◌≡◌, ◌∷◌, []};
ghost use Rattle.ga_event.specs.Flow.{From, flow_of_stored_flow};

use arrayvec::ArrayVec;
pub use choice::DecidingTestOrTarget;
pub use flows::{
    flow_after_send, flow_after_take, flow_by_test_or_target, flow_of_own_event,
    next_action_of_running_node,
};
pub use part::NodePart;

/// Where the value of a part comes from that an event leaves.
#[derive(Drop)]
pub enum ValueFlow {
    /// The value is the one of this part before the event.
    CopiedFromPart(NodePart),
    /// The value is computed from the values of these parts before and from nothing else, given what decides the event. The word from
    /// outside is never among them.
    ComputedFromParts(ArrayVec<NodePart, 3>),
}

/// Computed from nothing but what decides the event.
pub(crate) fn from_none() -> ValueFlow
    ensures { flow_of_stored_flow result ≡ From [] }
{
    ValueFlow::ComputedFromParts(ArrayVec::new())
}

/// Computed from one part.
pub(crate) fn from_one(part: NodePart) -> ValueFlow
    ensures { flow_of_stored_flow result ≡ From (part ∷ []) }
{
    let mut parts = ArrayVec::new();
    parts.push(part);
    ValueFlow::ComputedFromParts(parts)
}

/// Computed from two parts.
pub(crate) fn from_two(first: NodePart, second: NodePart) -> ValueFlow
    ensures { flow_of_stored_flow result ≡ From (first ∷ second ∷ []) }
{
    let mut parts = ArrayVec::new();
    parts.push(first);
    parts.push(second);
    ValueFlow::ComputedFromParts(parts)
}

/// Computed from three parts.
pub(crate) fn from_three(first: NodePart, second: NodePart, third: NodePart) -> ValueFlow
    ensures { flow_of_stored_flow result ≡ From (first ∷ second ∷ third ∷ []) }
{
    let mut parts = ArrayVec::new();
    parts.push(first);
    parts.push(second);
    parts.push(third);
    ValueFlow::ComputedFromParts(parts)
}
