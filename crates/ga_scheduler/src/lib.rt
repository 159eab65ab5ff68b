//! Exploring a lab: its events in an order, up to a condition.
#![tactic(auto)]

mod condition;
mod drawing;
mod edges;
mod effects;
mod event_tests;
mod idle;
pub mod laws;
mod numbers;
mod oldest;
mod ready;
mod reverse_search;
mod running;
mod schedule;
mod value_test;
mod watch;
mod watched;
mod watching;
mod words;

pub use condition::Condition;
pub use effects::{RollbackEffect, RollbackEffects, find_rollback_effects};
pub use event_tests::{
    is_about_to_fetch_at, is_address_of_ram_cell, is_node_stop_event, is_node_wait_event,
    is_step_of_node, is_stop_event, passes_matching_word, stores_in_cell,
};
pub use idle::find_idle_nodes;
pub use oldest::{earlier_place, find_oldest_matching_event};
pub use ready::is_quiescent;
pub use reverse_search::{
    back_to_place, find_newest_matching_event, is_step_of_optional_node, undo_until_condition,
};
pub use running::{RunEnd, RunResult, run_schedule};
pub use schedule::{Schedule, ScheduleOrder};
pub use value_test::{Comparison, NodeValue, ValueTest};
pub use watch::StopCondition;
pub use watched::{WatchedRun, WatchedRunEnd, has_newest_event_stored_in_cell, run_watched};
pub use watching::{MAX_CONDITIONS, conditions_before_never};
pub use words::telling::{count_transfers, count_transfers_after, is_transfer_over_link};
pub use words::{Transfer, TransferIter};
