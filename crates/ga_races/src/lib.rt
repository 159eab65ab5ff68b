//! What of a list of events depends on the order in which nodes happened to run, and which nodes are deadlocked.
#![tactic(auto)]

mod act;
mod deadlock;
pub mod laws;
mod links;
mod racing_pairs;
mod same;

pub use act::{EventAccess, SideSet};
pub use deadlock::{awaits_side, find_deadlocked_nodes};
pub use links::are_neighbours;
pub use racing_pairs::{RacingPair, find_racing_pairs};
pub use same::are_equal_nodes;
