//! A wait and a stop that are set aside.

use crate::wait::Wait;

/// A node's wait and stop, set aside while old values are written to it: in between it may have both, such as the wait before a
/// stop.
#[derive(Clone, Copy, PartialEq, Eq, Debug)]
pub struct SuspendedStatus {
    /// The wait that is set aside.
    pub wait: Wait,
    /// The number of the stop that is set aside, 0 for none.
    pub stop: u8,
}
