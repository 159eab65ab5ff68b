//! How events, nodes, counts and refusals are written.
#![tactic(auto)]

mod event;
mod fault_text;
mod node_text;
mod wording;
mod writing;

pub use event::{push_event_text, refusal_text};
pub use fault_text::write_image_fault;
pub use node_text::{write_memory_word, write_node};
pub use wording::{
    RefusalWording, advised_refusal_text, advised_step_refusal, missing_step_refusal,
    refusal_advice_text,
};
pub use writing::{
    write_chain_head, write_event, write_event_counts, write_removed_events, write_trace_head,
};
