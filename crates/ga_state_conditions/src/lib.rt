//! Conditions of a run, looked at after the events of a search of states: whether an event after which one holds can come in any
//! interleaving, and whether a node can come to make no further step.
#![tactic(auto)]

mod asked;
mod condition;
mod event;
mod finding;
pub mod laws;
mod session;

pub use asked::{ConditionFault, StateConditions, parse_state_conditions};
pub use condition::StateCondition;
pub use finding::{ReachedEvent, find_reached_event};
pub use session::find_session_reaching_event;
