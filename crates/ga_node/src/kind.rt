//! What an event of a node was, and why there is none.

use std::fmt;
use thiserror::Error;

/// What an event of a node's own was.
#[derive(Clone, Copy, PartialEq, Eq, Debug)]
pub enum OwnEventKind {
    /// The word at P became the instruction word.
    Fetch,
    /// The opcode with this code was carried out.
    Run(u8),
    /// The node now waits at a port.
    Wait,
    /// The node is stopped: 1 for a write to several ports, 2 for an address that names nothing.
    Stop(u8),
}

/// A kind as a session prints it: `fetch`, `run` with the opcode's code in two hexadecimal digits, `wait`, `stop` with its
/// number.
impl fmt::Display for OwnEventKind {
    fn fmt<W: fmt::Write>(&self, f: &mut fmt::Formatter<W>) -> fmt::Result {
        match self {
            OwnEventKind::Fetch => write!(f, "fetch"),
            OwnEventKind::Run(code) => write!(f, "run {code:02x}"),
            OwnEventKind::Wait => write!(f, "wait"),
            OwnEventKind::Stop(number) => write!(f, "stop {number}"),
        }
    }
}

/// Why an event can't be made.
#[derive(Clone, Copy, PartialEq, Eq, Debug, Error)]
pub enum EventRefusal {
    /// The node waits (1).
    #[error("the node waits")]
    Waiting,
    /// The node is stopped (2).
    #[error("the node is stopped")]
    Stopped,
    /// The two ends of a transfer don't match (8). No event of a node's own is refused so.
    #[error("the ends of the transfer don't match")]
    Unmatched,
}
