//! How an answer is written.

/// How an answer is written.
#[derive(Clone, Copy)]
pub enum ReportFormat<'a> {
    /// As lines of text.
    Text,
    /// As JSON objects that name this file, one a line.
    Json(&'a [u8]),
}
