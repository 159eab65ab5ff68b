//! Calls, their answers, and the receipts and log entries of them.

use ga_grid::NodeId;
use ga_lab::MadeEvent;
use thiserror::Error;

/// A call of a worker.
#[derive(Clone, Copy, PartialEq, Eq, Debug)]
pub enum Call {
    /// Make a step of a node.
    Step(NodeId),
    /// Take this step of a node back, counted from 1, with all that depends on it.
    Rewind(NodeId, u32),
}

/// What a call answered.
#[derive(Clone, Copy, PartialEq, Eq, Debug)]
pub enum CallAnswer {
    /// The event that the step made.
    Made(MadeEvent),
    /// The number of removed events.
    Removed(u32),
    /// The lab refused the call, which changed nothing: 1, 2, 3, 6 or 7. It is logged.
    Refused(u8),
}

/// A call in the log.
#[derive(Clone, Copy, PartialEq, Eq, Debug)]
pub struct LogEntry {
    /// The number of the worker that made the call.
    pub worker: u32,
    /// The call.
    pub call: Call,
    /// What the call answered.
    pub answer: CallAnswer,
}

/// What a worker keeps of a call that it made.
#[derive(Clone, Copy, PartialEq, Eq, Debug)]
pub struct CallReceipt {
    /// How many entries the log had before this call's.
    pub place: u64,
    /// The call.
    pub call: Call,
    /// What the call answered.
    pub answer: CallAnswer,
}

impl CallReceipt {
    ghost use Rattle.std.specs.Prelude.{◌≡◌, ◌↔◌, IsTrue};

    /// What the log keeps of the call, made by this worker.
    pub(crate) fn entry(&self, worker: u32) -> LogEntry
        ensures { result ≡ record { worker = worker; call = self.now.call; answer = self.now.answer } }
    {
        LogEntry {
            worker,
            call: self.call,
            answer: self.answer,
        }
    }

    /// Whether two receipts are the same. The contract of the derived comparison covers their parts only.
    pub(crate) fn is_equal_to(&self, other: &CallReceipt) -> bool
        ensures { IsTrue result ↔ (self.now ≡ other.now) }
    {
        *self == *other
    }
}

/// Why a shared chip was not opened, or a call of a worker not made.
#[derive(Clone, Copy, PartialEq, Eq, Debug, Error)]
pub enum SharedLabFault {
    /// Out of memory (4). Nothing was logged.
    #[error("out of memory")]
    Memory,
}
