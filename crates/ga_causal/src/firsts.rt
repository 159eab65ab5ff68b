//! Of each node the oldest event that touches it, among those that depend on one of a list.

ghost use Rattle.std.specs.Prelude.{◌≡◌, ◌<◌, ◌≤◌, ◌≢◌, ◌==◌, ◌+◌, ℕ, length, min, if◌then◌else◌};
ghost use Rattle.ga_grid.specs.Grid.{neighbour_number};
ghost use Rattle.ga_event.specs.Touches.{neighbours_of_node, nodes_observed_by_event};
ghost use Rattle.ga_causal.specs.Dependence.{event_with_look_touches_node};
ghost use Rattle.ga_causal.specs.inner.{oldest_place_of_node, least, least_of_place_and_node_place, AreOldestEventPlaces};

use ga_event::{Event, EventWithLook};
use ga_grid::{CHIP_NODE_COUNT, NodeId, neighbour};
use ga_ports::Side;
use std::marker::Model;

/// For each node the place of the oldest noted event that touches it, or the number that means none.
#[derive(Drop)]
pub(crate) struct Firsts {
    places: [u32; 144],
    none: u32,
}

impl Model for Firsts {
    ghost use Rattle.std.specs.Prelude.{◌≡◌, ℕ, List, length};
    ghost use Rattle.ga_causal.specs.inner.{OldestEventPlaces};

    ghost Value = { OldestEventPlaces };

    ghost view = { λ f. record { places = f.places; none = f.none } };

    ghost invariant = { λ f. length f.places ≡ 144 };
}

impl Firsts {
    fn new(none: u32) -> Self
        ensures places { (n : ℕ) → oldest_place_of_node result n ≡ none }
        ensures none { result.none ≡ none }
    {
        Firsts {
            places: [none; CHIP_NODE_COUNT],
            none,
        }
    }

    /// Notes the events below `to` that depend on the one at `from`.
    pub(crate) fn of(events: &[EventWithLook], from: u32, to: u32) -> Self
        requires order { from < to }
        requires within { to < length events.now }
        ensures firsts { AreOldestEventPlaces events.now from to to (oldest_place_of_node result) }
        ensures none { result.none ≡ to }
    {
        let mut firsts = Firsts::new(to);
        firsts.note(&events[from as usize], from);
        for place in from + 1..to {
            let event = &events[place as usize];
            if firsts.oldest(event) < to {
                firsts.note(event, place);
            }
        }
        firsts
    }

    /// The oldest place noted at the nodes that the event sees.
    #[tactic(auto, unfolding(ga_event::specs::Touches::nodes_observed_by_event))]
    pub(crate) fn oldest(&self, event: &EventWithLook) -> u32
        ensures { result ≡ least (oldest_place_of_node self.now) self.now.none (nodes_observed_by_event event.now) }
    {
        match event.event {
            Event::Own(node) => {
                let looked = if event.look {
                    self.oldest_beside(node)
                } else {
                    self.none
                };
                self.places[node.index()].min(looked)
            }
            Event::Pass { writer, reader, .. } => {
                self.places[writer.index()].min(self.places[reader.index()].min(self.none))
            }
        }
    }

    // The oldest place noted at the neighbours of a node.
    #[tactic(auto, using(crate::proofs::OldestEventPlaces::least_neighbours))]
    fn oldest_beside(&self, node: NodeId) -> u32
        ensures { result ≡ least (oldest_place_of_node self.now) self.now.none (neighbours_of_node node.number) }
    {
        let up = self.with_beside(node, Side::Up, self.none);
        let left = self.with_beside(node, Side::Left, up);
        let down = self.with_beside(node, Side::Down, left);
        self.with_beside(node, Side::Right, down)
    }

    // The older of a place and the one at the neighbour on a side.
    fn with_beside(&self, node: NodeId, side: Side, place: u32) -> u32
        ensures { result ≡ least_of_place_and_node_place (oldest_place_of_node self.now) (neighbour_number node.number side) place }
    {
        match neighbour(node, side) {
            Some(other) => self.places[other.index()].min(place),
            None => place,
        }
    }

    fn note(&mut self, event: &EventWithLook, place: u32)
        ensures places { (n : ℕ) → oldest_place_of_node self.new n
            ≡ (if event_with_look_touches_node event.now n then min (oldest_place_of_node self.old n) place else oldest_place_of_node self.old n) }
        ensures none { self.new.none ≡ self.old.none }
    {
        match event.event {
            Event::Own(node) => self.note_at(node.index(), place),
            Event::Pass { writer, reader, .. } => {
                self.note_at(writer.index(), place);
                self.note_at(reader.index(), place);
            }
        }
    }

    fn note_at(&mut self, node: usize, place: u32)
        requires { node < 144 }
        ensures places { (n : ℕ) → oldest_place_of_node self.new n
            ≡ (if node == n then min (oldest_place_of_node self.old n) place else oldest_place_of_node self.old n) }
        ensures none { self.new.none ≡ self.old.none }
    {
        self.places[node] = self.places[node].min(place);
    }
}
