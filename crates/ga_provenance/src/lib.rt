//! Provenance of a value: the steps whose values went into it, through stacks, memories, registers and links, down to the load.
#![tactic(auto)]

mod asked;
mod deciding;
mod kept;
mod known;
mod later;
pub mod laws;
mod lines;
mod moving;
mod origin;
mod source_search;
mod trail;
mod value;
mod value_sources;
mod writes;

pub use asked::{queried_value, queried_value_at_walk};
pub use deciding::{BranchDecision, BranchDecisions};
pub use later::part_word_by_later_steps;
pub use lines::{ProvenanceLine, ProvenanceLines, find_provenance_lines_at};
pub use origin::{fetched_cell_at, origin_of_value};
pub use value::PartValue;
pub use writes::{CellWrite, CellWrites};
