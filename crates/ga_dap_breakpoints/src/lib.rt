//! The moves of an editor: breakpoints, `continue` and the steps of one node, each in slices, and the requests that go back.
#![tactic(auto)]

mod back;
mod breakpoint;
mod condition;
mod going;
mod halts;
mod hits;
pub mod laws;
mod lines;
mod moves;
mod parsing;
mod reversing;
mod stepping;
mod words;

pub use back::{WatchedAction, reaches_slot, roll_back_past_steps, step_back};
pub use breakpoint::{Breakpoint, LineBreakpoint, breakpoint_of_address, breakpoint_of_line};
pub use condition::HitCondition;
pub use going::{HaltReason, MoveResult, make_continue_slice};
pub use halts::HaltConditions;
pub use hits::{HitTally, MAX_COUNTED_BREAKPOINTS};
pub use lines::step_back_line;
pub use moves::make_step_slice;
pub use parsing::parse_hit_condition;
pub use reversing::{count_hits_in_history, is_event_hit_meeting_condition, reverse_to_breakpoint};
pub use stepping::{Granularity, StepMove};
