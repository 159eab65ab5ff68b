//! Marked nodes, and the events that depend on one of a list.

ghost use Rattle.std.specs.Prelude.{◌≡◌, ◌↔◌, ◌<◌, ◌^◌, ℕ, false, length, slice_index_or, IfOk, IsTrue};
ghost use Rattle.ga_event.specs.Touches.{observes_marked_node};
ghost use Rattle.ga_causal.specs.Dependence.{event_with_look_touches_node, is_node_flagged, marked_nodes_after_event, dependent_flags, DependsOn};

use crate::nodes::NodeSet;
use ga_event::EventWithLook;
use ga_grid::OutOfMemoryError;
use std::alloc::Global;
use std::marker::Model;

/// The nodes that an event and those that depend on it touch.
#[derive(Drop)]
pub struct MarkedNodes {
    nodes: NodeSet,
}

impl Model for MarkedNodes {
    ghost use Rattle.std.specs.Prelude.{Bool, List};

    ghost Value = { List Bool };

    ghost view = { λ m. m.nodes };
}

impl MarkedNodes {
    /// The nodes that this event touches.
    pub fn new(event: EventWithLook) -> Self
        ensures { is_node_flagged result ≡ event_with_look_touches_node event }
    {
        let mut nodes = NodeSet::none();
        nodes.add_touched_nodes(&event);
        MarkedNodes { nodes }
    }

    /// Returns whether the event depends on one that was added before: it touches a marked node, or is a look at one. If so the
    /// nodes that it touches are marked.
    pub fn take(&mut self, event: EventWithLook) -> bool
        ensures answer { result ≡ observes_marked_node (is_node_flagged self.old) event }
        ensures marks { is_node_flagged self.new ≡ marked_nodes_after_event (is_node_flagged self.old) event }
    {
        let is_met = self.nodes.observed_by(&event);
        if is_met {
            self.nodes.add_touched_nodes(&event);
        }
        is_met
    }
}

/// Of each event of the list, whether it depends on the one at the place, from 0 on. Reads each event once.
pub fn find_dependents(
    alloc: Global,
    events: &[EventWithLook],
    place: u32,
) -> Result<Vec<bool>, OutOfMemoryError>
    requires { place < length events.now }
    ensures flags { IfOk result (λ flags. flags.items ≡ dependent_flags events.now place) }
    ensures exact { IfOk result (λ flags.
        (j : ℕ) → j < length events.now → (IsTrue (slice_index_or flags.items j false) ↔ DependsOn events.now place j)) }
{
    let start = place as usize;
    let mut flags = Vec::with_capacity(alloc, events.len())?;
    for _i in 0..start {
        flags.push(false)?;
    }
    flags.push(true)?;
    let mut marks = MarkedNodes::new(events[start]);
    for event in &events[start + 1..] {
        flags.push(marks.take(*event))?;
    }
    Ok(flags)
}
