//! Events of the chip: which event a node makes next, what an event does to a chip, its undo, and from where each word comes
//! that it leaves.
#![tactic(auto)]

mod back;
mod event;
mod flow;
mod forward;
pub mod laws;
mod made;
mod next;

pub use back::{restore_node_values, undo_event_on_chip};
pub use event::{
    Effect, Event, EventWithLook, OwnEventKindWithLook, event_with_look_from_effect, touches,
};
pub use flow::{
    DecidingTestOrTarget, NodePart, ValueFlow, flow_after_send, flow_after_take,
    flow_by_test_or_target, flow_of_own_event, next_action_of_running_node,
};
pub use forward::{
    apply, apply_own_event, apply_pass, event_with_look_on_chip, is_waiting_to_read,
    is_waiting_to_write, neighbour_states,
};
pub use made::MadeEvent;
pub use next::{is_node_running, next_event};
