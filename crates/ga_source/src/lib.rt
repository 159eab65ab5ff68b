//! Programs as texts, assembled into a chip.
//!
//! The requests of each node are packed into groups (an instruction word and the literals after it), and groups are loaded into
//! the node's memory.
#![tactic(auto)]

mod group;
pub mod laws;
mod loading;
mod node_start;
mod numbered_words;
mod packing;
mod program;
mod reading;
mod recovery;
mod stores;

pub use ga_parser::{
    AssemblyItem, AssemblyRequest, ExpectationLine, InitialRegisters, Label, LocatedRequest,
    NumberRange, Operand, RegisterValue, SourceFault, SourceFaultCause, SpellingHint, Token,
    TokenKind, expectation_lines, hint_for_word, source_words, source_words_without_copies,
    strip_byte_order_mark,
};
pub use group::CellGroup;
pub use numbered_words::{
    assemble_by_word_number, fault_on_line_of_word, faults_on_lines_of_words, line_of_numbered_word,
};
pub use program::{AssembledChip, Program, assemble_source_text, assemble_words};
pub use recovery::{RecoveredPrograms, faults_or_first_fault, find_all_faults, recover_programs};
pub use stores::{StoreOverCode, find_stores_over_code};
