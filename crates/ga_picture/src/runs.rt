//! Runs of events of a node, which may be drawn as one mark.

ghost use Rattle.std.specs.Prelude.{◌≡◌, ◌<◌, ◌+◌, ◌^◌, ℕ, if◌then◌else◌, length, slice_index, slice_set, IfOk};
ghost use Rattle.std.specs.List.{All};
ghost use Rattle.ga_causal.specs.Equivalence.{event_observes_node};
ghost use Rattle.ga_picture.specs.declared.shade.Shade.{Shade};
ghost use Rattle.ga_picture.specs.Items.{run_length_with_event, run_event_count_after, is_same_shade, IsOwnEventIfPlain};
ghost use Rattle.ga_picture.specs.inner.{run_length_in_shade, HasOneRunPerNode, AreRunsWithinBound};

use crate::item::{PictureItem, acting_node_of_event};
use crate::shade::Shade;
use ga_causal::{NodeSet, OutOfMemoryError};
use ga_grid::{CHIP_NODE_COUNT, NodeId};
use std::alloc::Global;

/// The run of each node that reaches up to the event gone past last: how many events it has, and in which colour.
#[derive(Drop)]
pub(crate) struct Runs {
    counts: [u32; 144],
    shades: [Shade; 144],
}

impl Runs {
    /// The runs before any event has come.
    pub(crate) fn new() -> Self
        ensures sizes { HasOneRunPerNode result }
        ensures none { AreRunsWithinBound result 0 }
    {
        Runs {
            counts: [0; CHIP_NODE_COUNT],
            shades: [Shade::Black; CHIP_NODE_COUNT],
        }
    }

    /// How many events the run of this node has in this colour.
    pub(crate) fn count(&self, node: NodeId, shade: Shade) -> u32
        requires { HasOneRunPerNode self.now }
        ensures { result ≡ run_length_in_shade self.now node.number shade }
    {
        if is_same(self.shades[node.index()], shade) {
            self.counts[node.index()]
        } else {
            0
        }
    }

    /// Processes an event: it is one more of its run, or ends the runs of the nodes that it touches or looks at.
    #[tactic(auto, using(crate::proofs::Running::with_added, crate::proofs::Running::within_added, crate::proofs::Running::with_ended))]
    pub(crate) fn pass(&mut self, item: &PictureItem)
        requires sizes { HasOneRunPerNode self.old }
        requires few { AreRunsWithinBound self.old 4294967294 }
        requires simple { IsOwnEventIfPlain item.now }
        ensures sizes { HasOneRunPerNode self.new }
        ensures counts { (n : ℕ) (shade : Shade) → n < 144 → run_length_in_shade self.new n shade ≡ run_length_with_event n shade item.now (run_length_in_shade self.old n shade) }
        ensures within { (bound : ℕ) → AreRunsWithinBound self.old bound → AreRunsWithinBound self.new (bound + 1) }
    {
        if item.plain {
            self.add(acting_node_of_event(item.cause.event), item.shade);
        } else {
            self.end(item);
        }
    }

    /// Adds an event to the run of a node in this colour.
    fn add(&mut self, node: NodeId, shade: Shade)
        requires sizes { HasOneRunPerNode self.old }
        requires few { AreRunsWithinBound self.old 4294967294 }
        ensures sizes { HasOneRunPerNode self.new }
        ensures counts { self.new.counts ≡ slice_set self.old.counts node.number (run_length_in_shade self.old node.number shade + 1) }
        ensures shades { self.new.shades ≡ slice_set self.old.shades node.number shade }
    {
        let count = self.count(node, shade);
        self.counts[node.index()] = count + 1;
        self.shades[node.index()] = shade;
    }

    /// Ends the runs of the nodes that an event touches or looks at.
    fn end(&mut self, item: &PictureItem)
        requires { HasOneRunPerNode self.old }
        ensures sizes { HasOneRunPerNode self.new }
        ensures counts { (n : ℕ) → n < 144 →
            slice_index self.new.counts n ≡ (if event_observes_node item.now.cause n then 0 else slice_index self.old.counts n) }
        ensures shades { self.new.shades ≡ self.old.shades }
        ensures within { (bound : ℕ) → AreRunsWithinBound self.old bound → AreRunsWithinBound self.new bound }
    {
        let mut seen = NodeSet::none();
        seen.add_observed_nodes(&item.cause);
        'nodes: for number in 0..CHIP_NODE_COUNT as u8 {
            if seen.has(NodeId::new(number)) {
                self.counts[number as usize] = 0;
            }
        }
    }
}

/// Whether two colours are one.
fn is_same(one: Shade, other: Shade) -> bool
    ensures { result ≡ is_same_shade one other }
{
    match (one, other) {
        (Shade::Black, Shade::Black) => true,
        (Shade::Grey, Shade::Grey) => true,
        (Shade::Red, Shade::Red) => true,
        _ => false,
    }
}

/// For each event, the number of later events in its run.
pub(crate) fn runs_behind(
    alloc: Global,
    items: &[PictureItem],
) -> Result<Vec<u32>, OutOfMemoryError>
    requires few { length items.now < 2 ^ 32 }
    requires simple { All IsOwnEventIfPlain items.now }
    ensures size { IfOk result (λ counts. length counts.items ≡ length items.now) }
    ensures exact { IfOk result (λ counts. (place : ℕ) → place < length items.now →
        slice_index counts.items place ≡ run_event_count_after items.now place) }
{
    let mut runs = Runs::new();
    let mut counts = vec![in alloc; 0; items.len()]?;
    'items: for back in 0..items.len() {
        let at = items.len() - 1 - back;
        let item = items[at];
        counts[at] = runs.count(acting_node_of_event(item.cause.event), item.shade);
        runs.pass(&item);
    }
    Ok(counts)
}
