//! Nodes that work by themselves, which a picture leaves out.

ghost use Rattle.std.specs.Prelude.{◌≡◌, ◌↔◌, ◌<◌, ◌+◌, ◌&&◌, ◌||◌, ◌++◌, ◌∷◌, [], ℕ, Bool, List, true, false, length, slice_index, slice_set, IsTrue, IfOk};
ghost use Rattle.std.specs.List.{All, list_any};
ghost use Rattle.ga_grid.specs.Grid.{neighbour_number};
ghost use Rattle.ga_event.specs.Touches.{neighbours_of_node};
ghost use Rattle.ga_causal.specs.Dependence.{event_with_look_touches_node, is_node_flagged};
ghost use Rattle.ga_causal.specs.inner.{is_optional_node_marked};
ghost use Rattle.ga_picture.specs.Items.{acting_node_of_event, picture_items};
ghost use Rattle.ga_picture.specs.Drawing.{IsIndependentNode, independent_nodes_with_counts};
ghost use Rattle.ga_picture.specs.inner.{AreEventFactsKnownBetween, ArePlainEventsByReadyNodes, picture_facts_of_events, IsActivityOfItems, HasNodeStepsWithinBound, HasJoinedWorkingNode, RequiresTransferNodeLines, is_look_item, is_independent_by_activity, works_independently, works_joined_to_others};

use crate::item::{EventFacts, PictureItem, acting_node_of_event, is_pass, picture_item_at};
use crate::view::PictureView;
use ga_causal::{NodeSet, OutOfMemoryError};
use ga_grid::{CHIP_NODE_COUNT, NodeId, neighbour};
use ga_ports::Side;
use std::alloc::Global;

/// An independent node, which has no line.
#[derive(Clone, Copy, PartialEq, Eq)]
pub struct IndependentNode {
    /// The node.
    pub node: NodeId,
    /// How many of its steps are left out for that.
    pub steps: u32,
}

/// What the events of each node are like, without those that are left out.
#[derive(Drop)]
pub(crate) struct NodeActivity {
    /// How many events a node makes.
    steps: [u32; 144],
    /// Whether an event touches a node.
    touched: NodeSet,
    /// Whether a node has to be drawn for an event.
    held: NodeSet,
    /// Whether a node looks by an event.
    looking: NodeSet,
}

/// What the events from one place on and up to another are like.
pub(crate) fn tally_of(
    facts: EventFacts<'_>,
    view: PictureView,
    from: usize,
    to: usize,
) -> NodeActivity
    requires { AreEventFactsKnownBetween facts from to }
    ensures { (ready : ℕ → Bool) → ArePlainEventsByReadyNodes ready facts.entry →
        IsActivityOfItems (picture_items (picture_facts_of_events facts.entry ready) view from to) result }
{
    let mut tally = NodeActivity::new();
    'events: for place in from..to {
        tally.add(&picture_item_at(facts, view, place));
    }
    tally
}

impl NodeActivity {
    /// The tally before any event has come.
    fn new() -> Self
        ensures none { IsActivityOfItems [] result }
        ensures few { HasNodeStepsWithinBound result 0 }
    {
        NodeActivity {
            steps: [0; CHIP_NODE_COUNT],
            touched: NodeSet::none(),
            held: NodeSet::none(),
            looking: NodeSet::none(),
        }
    }

    /// Takes one more event in.
    fn add(&mut self, item: &PictureItem)
        requires { HasNodeStepsWithinBound self.old 4294967294 }
        ensures more { (items : List PictureItem) → IsActivityOfItems items self.old → IsActivityOfItems (items ++ item.now ∷ []) self.new }
        ensures few { (bound : ℕ) → HasNodeStepsWithinBound self.old bound → HasNodeStepsWithinBound self.new (bound + 1) }
    {
        if !item.out {
            self.count(item);
        }
    }

    /// Takes one more event in that isn't left out.
    fn count(&mut self, item: &PictureItem)
        requires { HasNodeStepsWithinBound self.old 4294967294 }
        ensures steps { self.new.steps ≡ slice_set self.old.steps (acting_node_of_event item.now.cause.event) (slice_index self.old.steps (acting_node_of_event item.now.cause.event) + 1) }
        ensures touched { (n : ℕ) → is_node_flagged self.new.touched n ≡ (is_node_flagged self.old.touched n || event_with_look_touches_node item.now.cause n) }
        ensures held { (n : ℕ) → is_node_flagged self.new.held n ≡ (is_node_flagged self.old.held n || (event_with_look_touches_node item.now.cause n && item.now.holds)) }
        ensures looking { (n : ℕ) → is_node_flagged self.new.looking n ≡ (is_node_flagged self.old.looking n || (event_with_look_touches_node item.now.cause n && is_look_item item.now)) }
    {
        self.steps[acting_node_of_event(item.cause.event).index()] += 1;
        self.touched.add_touched_nodes(&item.cause);
        if item.holds {
            self.held.add_touched_nodes(&item.cause);
        }
        if !is_pass(item.cause.event) && item.cause.look {
            self.looking.add_touched_nodes(&item.cause);
        }
    }

    /// The nodes that work by themselves, beside nodes of which that can't be said.
    pub(crate) fn independent_nodes(&self) -> [bool; 144]
        ensures { (items : List PictureItem) → IsActivityOfItems items self.now → All RequiresTransferNodeLines items →
            (n : ℕ) → IsTrue (is_node_flagged result n) ↔ IsIndependentNode items n }
    {
        if self.has_joined() {
            self.loose_nodes()
        } else {
            [false; CHIP_NODE_COUNT]
        }
    }

    /// The nodes with events that nothing holds or joins to others.
    fn loose_nodes(&self) -> [bool; 144]
        ensures size { length result ≡ 144 }
        ensures exact { (n : ℕ) → n < 144 → is_node_flagged result n ≡ works_independently self.now n }
    {
        let mut loose = [false; CHIP_NODE_COUNT];
        'nodes: for number in 0..CHIP_NODE_COUNT as u8 {
            loose[number as usize] = self.works_independently(NodeId::new(number));
        }
        loose
    }

    /// Whether there is a node with events that something holds or joins to others.
    fn has_joined(&self) -> bool
        ensures some { result ≡ true → HasJoinedWorkingNode self.now }
        ensures none { result ≡ false → (n : ℕ) → n < 144 → works_joined_to_others self.now n ≡ false }
    {
        'nodes: for number in 0..CHIP_NODE_COUNT as u8 {
            if self.works_joined_to_others(NodeId::new(number)) {
                return true;
            }
        }
        false
    }

    /// Whether a node has events, and nothing holds it or joins it to others.
    fn works_independently(&self, node: NodeId) -> bool
        ensures { result ≡ works_independently self.now node.number }
    {
        self.touched.has(node) && self.is_independent_by_marks(node)
    }

    /// Whether a node has events, and something holds it or joins it to others.
    fn works_joined_to_others(&self, node: NodeId) -> bool
        ensures { result ≡ works_joined_to_others self.now node.number }
    {
        self.touched.has(node) && !self.is_independent_by_marks(node)
    }

    /// Whether no event holds the node, and no look joins it to another.
    fn is_independent_by_marks(&self, node: NodeId) -> bool
        ensures { result ≡ is_independent_by_activity self.now node.number }
    {
        let looks_at = self.looking.has(node) && has_beside(&self.touched, node);
        !self.held.has(node) && (!looks_at && !has_beside(&self.looking, node))
    }

    /// The marked nodes, each with its steps.
    pub(crate) fn told(
        &self,
        alloc: Global,
        alone: &[bool; 144],
    ) -> Result<Vec<IndependentNode>, OutOfMemoryError>
        ensures { (items : List PictureItem) → IsActivityOfItems items self.now →
            IfOk result (λ told. told.items ≡ independent_nodes_with_counts items (is_node_flagged alone.now)) }
    {
        let mut told = Vec::new(alloc);
        'nodes: for number in 0..CHIP_NODE_COUNT as u8 {
            if alone[number as usize] {
                told.push(IndependentNode {
                    node: NodeId::new(number),
                    steps: self.steps[number as usize],
                })?;
            }
        }
        Ok(told)
    }
}

/// Whether a neighbour of a node is one of these nodes.
#[tactic(auto, using(ga_causal::proofs::OldestEventPlaces::any_neighbours))]
fn has_beside(nodes: &NodeSet, node: NodeId) -> bool
    ensures { result ≡ list_any (is_node_flagged nodes.now) (neighbours_of_node node.number) }
{
    let right = has_on(nodes, node, Side::Right);
    let down = has_on(nodes, node, Side::Down);
    let left = has_on(nodes, node, Side::Left);
    let up = has_on(nodes, node, Side::Up);
    right || down || left || up
}

/// Whether the neighbour on a side is one of these nodes.
fn has_on(nodes: &NodeSet, node: NodeId, side: Side) -> bool
    ensures { result ≡ is_optional_node_marked (is_node_flagged nodes.now) (neighbour_number node.number side) }
{
    match neighbour(node, side) {
        Some(other) => nodes.has(other),
        None => false,
    }
}
