//! What a person asks of a search.

use ga_json::ReportFormat;

/// How far to search, and how to answer.
#[derive(Clone, Copy)]
pub struct CheckRequest<'a> {
    /// The maximum number of states.
    pub most: u32,
    /// The maximum number of seconds, if the search is to be stopped then. The caller stops it; the text names it.
    pub seconds: u32,
    /// Whether the program is expected to have one end. A session has no answer to that.
    pub same: bool,
    /// How the answer is written. A session is always lines of text.
    pub format: ReportFormat<'a>,
}
