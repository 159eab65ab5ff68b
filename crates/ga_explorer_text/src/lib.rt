//! What a session of exploring answers to its commands: texts over a lab.
#![tactic(auto)]

mod at_text;
mod back_text;
mod chip_text;
mod decisions_before_step_text;
mod deed_text;
mod ended;
mod expectations_text;
mod line_number;
mod link_fault_text;
mod observation_text;
mod part_text;
mod passed_text;
mod races_text;
mod ring_text;
mod rollback_effects_text;
mod run_text;
mod saved_text;
mod source_suffix;
mod value_line;
mod value_words;
mod whence_text;
mod who_text;
mod words_text;
mod writes_text;

pub use at_text::write_steps_around;
pub use back_text::write_back_until_result;
pub use chip_text::chip_overview;
pub use decisions_before_step_text::write_decisions_answer;
pub use ended::{find_ended_marked_nodes, find_live_nodes};
pub use expectations_text::{expectation_line_start, write_expectations};
pub use line_number::last_written_line_number;
pub use link_fault_text::{LINK_FAULT_ROOM, push_link_fault};
pub use observation_text::{OBSERVATION_ROOM, push_observation, sides_of};
pub use races_text::write_races;
pub use ring_text::awaited_neighbour;
pub use rollback_effects_text::write_rollback_effects;
pub use run_text::run_result_text;
pub use saved_text::write_saved_session;
pub use source_suffix::{
    cell_note_text, cell_of_node_part, load_place_of_node_part, slot_after_walk_back,
    slot_note_text,
};
pub use value_words::part_word_after_walk_back;
pub use whence_text::{
    named_or_selected_part_value, skip_provenance_lines, write_provenance_answer,
};
pub use who_text::{count_idle_marked_nodes, count_idle_nodes, write_waiting_nodes};
pub use words_text::write_link_words;
pub use writes_text::write_cell_writes;
