//! Source and images over streams: an image assembled of source, a listing of its cells, and source of the same memories and
//! registers written of an image.
#![tactic(auto)]

mod assembling;
mod assembly_json;
mod comment;
mod disassembly;
mod fault_lines;
pub mod laws;
mod listing;
mod number_text;
mod program_listing;
mod reading;

pub use assembling::assemble_source;
pub use assembly_json::assemble_source_in_format;
pub use disassembly::disassemble_image;
pub use listing::list_source;
