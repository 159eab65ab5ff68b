//! Messages of the Debug Adapter Protocol: how they are framed ("Base protocol"), read as JSON (RFC 8259), and written.
#![tactic(auto)]

mod broken;
mod framing;
mod inbox;
pub mod laws;
mod outbox;
mod request;

pub use broken::FrameError;
pub use framing::{CONTENT_LIMIT, FramePrefix, parse_frame_prefix, push_frame};
pub use inbox::{Inbox, NextMessage};
pub use outbox::Outbox;
pub use request::{ClientRequest, RequestError, member_as_number, member_as_text, read_request};
