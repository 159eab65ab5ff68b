//! The rules of dependence between two events.

ghost use Rattle.std.specs.Prelude.{◌≡◌};
ghost use Rattle.std.specs.List.{list_any};
ghost use Rattle.ga_grid.specs.Grid.{neighbour_number};
ghost use Rattle.ga_event.specs.Touches.{touches, event_nodes, neighbours_of_node, looked_at_nodes};
ghost use Rattle.ga_causal.specs.inner.{is_optional_node_marked};
ghost use Rattle.ga_causal.specs.Dependence.{is_transfer_event, dependence_rule};

use ga_event::{Event, EventWithLook, touches};
use ga_grid::{NodeId, neighbour};
use ga_ports::Side;

/// Whether the two events touch a common node.
fn is_touched(earlier: &Event, later: &Event) -> bool
    ensures { result ≡ list_any (touches earlier.now) (event_nodes later.now) }
{
    match *later {
        Event::Own(node) => touches(*earlier, node),
        Event::Pass { writer, reader, .. } => {
            touches(*earlier, writer) || touches(*earlier, reader)
        }
    }
}

/// Whether the event touches the neighbour on a side of a node.
fn touches_beside(earlier: &Event, node: NodeId, side: Side) -> bool
    ensures { result ≡ is_optional_node_marked (touches earlier.now) (neighbour_number node.number side) }
{
    match neighbour(node, side) {
        Some(other) => touches(*earlier, other),
        None => false,
    }
}

/// Whether the event touches a neighbour of a node.
#[tactic(auto, using(crate::proofs::OldestEventPlaces::any_neighbours))]
fn touches_a_neighbour(earlier: &Event, node: NodeId) -> bool
    ensures { result ≡ list_any (touches earlier.now) (neighbours_of_node node.number) }
{
    let right = touches_beside(earlier, node, Side::Right);
    let down = touches_beside(earlier, node, Side::Down);
    let left = touches_beside(earlier, node, Side::Left);
    let up = touches_beside(earlier, node, Side::Up);
    right || down || left || up
}

/// Whether the later event looks at a node that the earlier one touches.
fn is_looked_at(earlier: &Event, later: &EventWithLook) -> bool
    ensures { result ≡ list_any (touches earlier.now) (looked_at_nodes later.now.event later.now.look) }
{
    match later.event {
        Event::Own(node) => later.look && touches_a_neighbour(earlier, node),
        Event::Pass { .. } => false,
    }
}

fn is_pass(event: &Event) -> bool
    ensures { result ≡ is_transfer_event event.now }
{
    matches!(*event, Event::Pass { .. })
}

/// The rule by which the later event depends directly on the earlier one, or 0.
#[tactic(auto, using(crate::proofs::OldestEventPlaces::meets_parts))]
pub(crate) fn rule(earlier: &EventWithLook, later: &EventWithLook) -> u8
    ensures { result ≡ dependence_rule earlier.now later.now }
{
    if is_touched(&earlier.event, &later.event) {
        if is_pass(&earlier.event) || is_pass(&later.event) {
            2
        } else {
            1
        }
    } else if is_looked_at(&earlier.event, later) {
        3
    } else {
        0
    }
}
