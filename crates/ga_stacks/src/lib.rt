//! The circular stacks of a node: registers over a ring of eight cells, read as lists of ten and of nine words.
#![tactic(auto)]

mod data;
mod place;
mod returns;

pub use data::DataStack;
pub use place::{OverwrittenPlaces, StackPlace, UNUSED_STACK_WORD};
pub use returns::ReturnStack;
