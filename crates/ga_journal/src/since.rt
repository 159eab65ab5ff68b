//! The events of the history from a step on.

use ga_event::EventWithLook;

/// The events of the history from a node's step on, in order, each with whether it looked; how many events come before them;
/// and how many of those are steps of another node.
#[derive(Debug, Drop)]
pub struct EventsFromStep {
    pub causes: Vec<EventWithLook>,
    pub before: u32,
    pub steps: u32,
}
