//! Answers as JSON: named fields, and the writer of one object for each answer.
#![tactic(auto)]

mod cursor;
mod diagnostics;
mod field;
mod fields;
mod format;
pub mod laws;
mod optional_fields;
mod report;
mod strings;

pub use cursor::RowCursor;
pub use diagnostics::write_diagnostics;
pub use field::{Field, FieldValue, MAX_FIELDS, RowFields, row_fields};
pub use format::ReportFormat;
pub use optional_fields::{joined_text_field, optional_number_field, text_field};
pub use report::{write_object, write_report};
