//! Chip images: a text that gives the words with which the nodes of a chip are loaded. docs/REFERENCE.md, "Images", describes
//! both formats line by line; `parse` reads either, `print` writes the second.
#![tactic(auto)]

mod fault;
mod field;
mod field_text;
mod given;
mod image;
pub mod laws;
mod line;
mod parser;
mod printing;

pub use fault::{ImageFault, ImageFaultCause};
pub use given::{GivenRange, GivenWords, given_words};
pub use image::parse;
pub use parser::MAX_IMAGE_LINE_BYTES;
pub use printing::print;
