//! What requests of the Debug Adapter Protocol do to a program that was launched: breakpoints, runs, and moves back.
#![tactic(auto)]

mod back;
mod breakpoints;
mod configuration;
mod configuring;
mod deadlocks;
mod execution;
mod finding;
mod launched;
mod moving;
mod placing;
mod requested_breakpoint;
mod stop_reason;
mod stops;
mod watched;

pub use back::{RollbackSummary, reverse_continue_node, rollback_summary_text, step_back_node};
pub use configuration::{BreakpointKind, BreakpointSet, Configuration, PlacedBreakpoint};
pub use execution::{Execution, RunGoal, make_event_slice};
pub use launched::{LaunchedSession, answer_immediate_request};
pub use stop_reason::StopReason;
pub use stops::emit_run_end;
pub use watched::WatchedExpectations;
