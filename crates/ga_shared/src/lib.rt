//! A chip that several workers share under one lock, and the log of their calls.
#![tactic(auto)]

mod call;
mod closing;
mod copies;
mod locked;
mod racing;
mod shared;
mod workers;

pub use call::{Call, CallAnswer, CallReceipt, LogEntry, SharedLabFault};
pub use closing::{CloseFault, UnsharedLab, receipts_match_log};
pub use locked::{LockedLab, WorkerSeat};
pub use racing::{WorkerRaceFault, race};
pub use shared::SharedLab;
pub use workers::{CallHooks, NoEffectCallHooks, make_worker_calls};
