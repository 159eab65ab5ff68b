//! Sets of nodes, as events touch and see them.

ghost use Rattle.std.specs.Prelude.{◌≡◌, ℕ, false, ◌||◌, ◌==◌};
ghost use Rattle.std.specs.List.{list_any};
ghost use Rattle.ga_grid.specs.Grid.{neighbour_number};
ghost use Rattle.ga_event.specs.Touches.{neighbours_of_node, observes_marked_node};
ghost use Rattle.ga_causal.specs.Dependence.{touched_nodes, event_with_look_touches_node, is_node_flagged};
ghost use Rattle.ga_causal.specs.inner.{is_optional_node_marked};
ghost use Rattle.ga_causal.specs.Equivalence.{event_observes_node};

use ga_event::{Event, EventWithLook};
use ga_grid::{CHIP_NODE_COUNT, NodeId, neighbour};
use ga_ports::Side;
use std::marker::Model;

/// Some nodes, by a flag for each of the chip.
#[derive(Drop)]
pub struct NodeSet {
    flags: [bool; 144],
}

impl Model for NodeSet {
    ghost use Rattle.std.specs.Prelude.{◌≡◌, Bool, List, length};

    ghost Value = { List Bool };

    ghost view = { λ m. m.flags };

    ghost invariant = { λ m. length m.flags ≡ 144 };
}

impl NodeSet {
    /// The set of no nodes.
    pub fn none() -> Self
        ensures { (n : ℕ) → is_node_flagged result n ≡ false }
    {
        NodeSet {
            flags: [false; CHIP_NODE_COUNT],
        }
    }

    /// Whether the node is one of the set.
    pub fn has(&self, node: NodeId) -> bool
        ensures { result ≡ is_node_flagged self.now node.number }
    {
        self.flags[node.index()]
    }

    /// Whether the event touches a node of the set.
    pub fn is_touched_by(&self, event: &EventWithLook) -> bool
        ensures { result ≡ list_any (is_node_flagged self.now) (touched_nodes event.now) }
    {
        match event.event {
            Event::Own(node) => self.has(node),
            Event::Pass { writer, reader, .. } => self.has(writer) || self.has(reader),
        }
    }

    /// Whether the event touches a node of the set, or looks at one.
    #[tactic(auto, unfolding(ga_event::specs::Touches::nodes_observed_by_event))]
    pub fn observed_by(&self, event: &EventWithLook) -> bool
        ensures { result ≡ observes_marked_node (is_node_flagged self.now) event.now }
    {
        match event.event {
            Event::Own(node) => self.has(node) || (event.look && self.has_beside(node)),
            Event::Pass { writer, reader, .. } => self.has(writer) || self.has(reader),
        }
    }

    /// Adds the nodes that an event touches.
    pub fn add_touched_nodes(&mut self, event: &EventWithLook)
        ensures { (n : ℕ) → is_node_flagged self.new n ≡ (is_node_flagged self.old n || event_with_look_touches_node event.now n) }
    {
        match event.event {
            Event::Own(node) => self.add(node),
            Event::Pass { writer, reader, .. } => {
                self.add(writer);
                self.add(reader);
            }
        }
    }

    /// Adds the nodes that an event touches or looks at.
    #[tactic(auto, unfolding(ga_event::specs::Touches::nodes_observed_by_event))]
    pub fn add_observed_nodes(&mut self, event: &EventWithLook)
        ensures { (n : ℕ) → is_node_flagged self.new n ≡ (is_node_flagged self.old n || event_observes_node event.now n) }
    {
        match event.event {
            Event::Own(node) => {
                self.add(node);
                if event.look {
                    self.add_beside(node);
                }
            }
            Event::Pass { writer, reader, .. } => {
                self.add(writer);
                self.add(reader);
            }
        }
    }

    // Whether a neighbour of the node is one of the set.
    #[tactic(auto, using(crate::proofs::OldestEventPlaces::any_neighbours))]
    fn has_beside(&self, node: NodeId) -> bool
        ensures { result ≡ list_any (is_node_flagged self.now) (neighbours_of_node node.number) }
    {
        let right = self.has_on(node, Side::Right);
        let down = self.has_on(node, Side::Down);
        let left = self.has_on(node, Side::Left);
        let up = self.has_on(node, Side::Up);
        right || down || left || up
    }

    // Whether the neighbour on a side is one of the set.
    fn has_on(&self, node: NodeId, side: Side) -> bool
        ensures { result ≡ is_optional_node_marked (is_node_flagged self.now) (neighbour_number node.number side) }
    {
        match neighbour(node, side) {
            Some(other) => self.has(other),
            None => false,
        }
    }

    // Adds a node.
    fn add(&mut self, node: NodeId)
        ensures { (n : ℕ) → is_node_flagged self.new n ≡ (is_node_flagged self.old n || node.number == n) }
    {
        self.flags[node.index()] = true;
    }

    // Adds the neighbours of a node.
    #[tactic(auto, using(crate::proofs::OldestEventPlaces::four_sides, crate::proofs::OldestEventPlaces::any_neighbours))]
    fn add_beside(&mut self, node: NodeId)
        ensures { (n : ℕ) → is_node_flagged self.new n ≡ (is_node_flagged self.old n || list_any (λ m. m == n) (neighbours_of_node node.number)) }
    {
        self.add_on(node, Side::Right);
        self.add_on(node, Side::Down);
        self.add_on(node, Side::Left);
        self.add_on(node, Side::Up);
    }

    // Adds the neighbour on a side, where there is one.
    fn add_on(&mut self, node: NodeId, side: Side)
        ensures { (n : ℕ) → is_node_flagged self.new n ≡ (is_node_flagged self.old n || is_optional_node_marked (λ m. m == n) (neighbour_number node.number side)) }
    {
        if let Some(other) = neighbour(node, side) {
            self.add(other);
        }
    }
}
