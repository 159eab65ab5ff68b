//! Why a request is not answered.

/// Why a request is not answered.
#[derive(Clone, Copy, PartialEq, Eq, Debug)]
pub(crate) enum NoResponse {
    /// Memory was refused before anything changed.
    Memory,
    /// An allocation failed for what is to be reported of a change.
    Untold,
}
