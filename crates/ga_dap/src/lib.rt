//! The session of an editor: a server of the Debug Adapter Protocol, from the bytes that are read to the bytes that are written.
#![tactic(auto)]

mod back;
mod changes;
mod console;
mod evaluating;
mod launching;
mod opening;
mod serving;
mod session;
mod sources;
mod turn;
mod unanswered;

pub use serving::{SessionEnd, serve_client};
pub use sources::{PendingInput, ProgramFiles, SourceError};
