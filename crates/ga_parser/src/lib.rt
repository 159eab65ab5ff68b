//! Source read: arrayForth's opcode names, control words, numbers and names, and what they ask for.
//!
//! A text is scanned into words, and the words of each node become a list of requests.
#![tactic(auto)]

mod constants;
mod controls;
mod draft;
mod expectations;
mod fault;
mod groups;
mod hint;
mod hint_words;
mod item;
mod labels;
mod nearness;
mod number;
mod recovery;
mod refusing;
mod scan;
mod vocabulary;

pub use draft::{address_with_carry_bit, read_requests_of_node_words};
pub use expectations::{ExpectationLine, expectation_lines};
pub use fault::{NumberRange, SourceFault, SourceFaultCause, source_fault_at};
pub use hint::{SpellingHint, hint_for_word};
pub use item::{
    AssemblyItem, AssemblyRequest, InitialRegisters, LocatedRequest, NodeRequests, Operand,
    RegisterValue,
};
pub use labels::Label;
pub use nearness::is_within_one_edit;
pub use number::parse_port;
pub use recovery::{RecoveredRequests, recover_requests};
pub use scan::{
    Token, TokenKind, source_words, source_words_without_copies, strip_byte_order_mark,
    tokens_through_first_fault,
};
pub use vocabulary::{Directive, Register, parse_directive};
