//! What a session of exploring answers, as JSON: an object on a line for each answer.
#![tactic(auto)]

mod activity;
mod answers;
mod at_json;
mod because_json;
mod bytes;
mod changes_json;
mod effects_json;
mod event;
mod expected_json;
pub mod laws;
mod node_json;
mod noted_refusal;
mod part;
mod races_json;
mod readings_json;
mod refusal;
mod responder;
mod row;
mod run_json;
mod session;
mod source;
mod source_value;
mod steps_json;
mod text_json;
mod whence_json;
mod who_json;
mod words_json;
mod writes_json;

pub use at_json::write_steps_around_json;
pub use because_json::write_decisions_json;
pub use changes_json::{write_rewind_json, write_step_json, write_undo_json};
pub use effects_json::write_rollback_effects_json;
pub use expected_json::write_expectations_json;
pub use node_json::write_node_json;
pub use races_json::write_races_json;
pub use readings_json::{write_event_counts_json, write_memory_json};
pub use session::explore_json;
pub use steps_json::{write_chain_json, write_dump_json, write_trace_json};
pub use whence_json::write_provenance_json;
pub use who_json::write_waiting_nodes_json;
pub use words_json::write_link_words_json;
pub use writes_json::write_cell_writes_json;
