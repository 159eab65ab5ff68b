//! The debug info of a chip: the line and the label of each cell, and the word of each slot; and the messages about source on
//! standard error.
#![tactic(auto)]

mod building;
mod causes;
mod editor_artifact;
mod faults;
mod given;
mod label;
mod line;
mod notes;
mod unrepresented;
mod wording;

pub use building::debug_info_of_source;
pub use causes::{push_fault, push_faults};
pub use editor_artifact::{
    StrayEditorCharacter, find_stray_character_in_image, find_stray_character_in_source,
    report_stray_character,
};
pub use faults::{
    format_faults, report_faults, report_input_too_long, report_out_of_memory,
    report_stores_over_code,
};
pub use line::SourceLineCursor;
pub use notes::{CellSource, DebugInfo, LabelAddress, label_address};
pub use unrepresented::report_unrepresented_fields;
pub use wording::{DisplayedWord, SlotWord};
