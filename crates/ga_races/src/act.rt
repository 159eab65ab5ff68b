//! Actions: events as they were made, with what they changed of what neighbours are shown.

ghost use Rattle.std.specs.Prelude.{◌≡◌, ◌&&◌, ◌||◌};
ghost use Rattle.std.specs.List.{list_any};
ghost use Rattle.ga_grid.specs.Grid.{neighbour_number};
ghost use Rattle.ga_event.specs.Apply.{equals_optional_number};
ghost use Rattle.ga_causal.specs.Dependence.{event_with_look_touches_node, touched_nodes};
ghost use Rattle.ga_races.specs.Acts.{has_side_towards_node, trace_action_of_event_access};
ghost use Rattle.ga_races.specs.HappensBefore.{are_dependent_actions, is_look_changed_by};

use ga_event::{Event, EventWithLook, touches};
use ga_grid::{NodeId, neighbour};
use ga_ports::Side;

/// Sides of a node.
#[derive(Clone, Copy, PartialEq, Eq, Debug)]
pub struct SideSet {
    /// Whether side right is one of the sides.
    pub right: bool,
    /// Whether side down is one of the sides.
    pub down: bool,
    /// Whether side left is one of the sides.
    pub left: bool,
    /// Whether side up is one of the sides.
    pub up: bool,
}

/// An event as it was made: with whether it looked, and with the sides on which it changed what its nodes show there.
#[derive(Clone, Copy, PartialEq, Eq, Debug)]
pub struct EventAccess {
    /// The event, with whether it looked.
    pub cause: EventWithLook,
    /// The sides on which the node of the event changed what it shows; of a pass those of the writer.
    pub first: SideSet,
    /// The sides on which the reader of a pass changed what it shows.
    pub second: SideSet,
}

// Whether a side, if it is one of some, leads from the first node to the second.
fn leads_over(from: NodeId, side: Side, has: bool, to: NodeId) -> bool
    ensures { result ≡ (has && equals_optional_number (neighbour_number from.number side) to.number) }
{
    match neighbour(from, side) {
        Some(other) => has && other.number == to.number,
        None => false,
    }
}

impl SideSet {
    /// Whether one of the sides leads from the first node to the second.
    pub fn leads_between(&self, from: NodeId, to: NodeId) -> bool
        ensures { result ≡ has_side_towards_node self.now from.number to.number }
    {
        leads_over(from, Side::Right, self.right, to)
            || leads_over(from, Side::Down, self.down, to)
            || leads_over(from, Side::Left, self.left, to)
            || leads_over(from, Side::Up, self.up, to)
    }
}

impl EventAccess {
    /// Whether the event changed what is shown to the node.
    pub fn changes_shown_state(&self, node: NodeId) -> bool
        ensures { result ≡ (trace_action_of_event_access self.now).changes node.number }
    {
        match self.cause.event {
            Event::Own(own) => self.first.leads_between(own, node),
            Event::Pass { writer, reader, .. } => {
                self.first.leads_between(writer, node) || self.second.leads_between(reader, node)
            }
        }
    }

    // Whether the event changed what is shown to one of the nodes that another event touches.
    fn changes_some(&self, event: &EventWithLook) -> bool
        ensures { result ≡ list_any (trace_action_of_event_access self.now).changes (touched_nodes event.now) }
    {
        match event.event {
            Event::Own(node) => self.changes_shown_state(node),
            Event::Pass { writer, reader, .. } => self.changes_shown_state(writer)
                || self.changes_shown_state(reader),
        }
    }

    // Whether two events touch a common node.
    fn has_common_node(&self, event: &EventWithLook) -> bool
        ensures { result ≡ list_any (event_with_look_touches_node self.now.cause) (touched_nodes event.now) }
    {
        match event.event {
            Event::Own(node) => touches(self.cause.event, node),
            Event::Pass { writer, reader, .. } => {
                touches(self.cause.event, writer) || touches(self.cause.event, reader)
            }
        }
    }

    // Whether the event is a look, and the other changes what is shown to it.
    fn is_look_changed_by(&self, other: &EventAccess) -> bool
        ensures { result ≡ is_look_changed_by (trace_action_of_event_access self.now) (trace_action_of_event_access other.now) }
    {
        self.cause.look && other.changes_some(&self.cause)
    }

    /// Whether two events keep their order in each order of a list in which they are neighbours.
    pub fn keeps_order_with_event(&self, other: &EventAccess) -> bool
        ensures { result ≡ are_dependent_actions (trace_action_of_event_access self.now) (trace_action_of_event_access other.now) }
    {
        self.has_common_node(&other.cause)
            || self.is_look_changed_by(other)
            || other.is_look_changed_by(self)
    }

    /// Whether two events touch a common node.
    pub fn shares_node(&self, other: &EventAccess) -> bool
        ensures { result ≡ list_any (event_with_look_touches_node self.now.cause) (touched_nodes other.now.cause) }
    {
        self.has_common_node(&other.cause)
    }
}
