//! Which events of a list depend on which, chains of dependence, and the laws on which taking back rests.
#![tactic(auto)]

mod chain;
mod firsts;
pub mod laws;
mod marks;
mod nodes;
mod rule;
mod step;

pub use chain::{Chain, ChainLink, find_chain, find_chain_after_skipped_events, is_chain};
pub use ga_event::EventWithLook;
pub use ga_grid::OutOfMemoryError;
pub use marks::{MarkedNodes, find_dependents};
pub use nodes::NodeSet;
pub use step::position_of_step;
