//! The base protocol: a header part with the number of bytes of the content part, and the content part.

ghost use Rattle.std.specs.Prelude.{◌≡◌, ◌≢◌, ◌≤◌, ◌<◌, ◌+◌, ◌++◌, ◌↔◌, [], length, take, drop, min, slice_index, IsTrue, IfSome, IfNone, OnOk, OnErr};
ghost use Rattle.std.specs.List.{All};
ghost use Rattle.ga_dap_protocol.specs.Framing.{IsOnePrefixOfOther, IsDigit, IsFramePrefix, HasHeaderDigits, content_limit, content_length_digit_limit, content_length_field, framed_message, decimal_value_of_digits};

use crate::broken::FrameError;
use std::alloc::{AllocError, Global};

/// The most bytes of a content part, 128 KiB. Its values take up to 130 times as much memory as its text.
pub const CONTENT_LIMIT: usize = 131_072;

/// The field's name, and the separator before its value.
const FIELD: &[u8; 16] = b"Content-Length: ";

/// The end of the field, and that of the header part.
const HEADER_END: &[u8; 4] = b"\r\n\r\n";

/// The most digits of a length.
const DIGIT_LIMIT: usize = 7;

/// The front of some bytes.
#[derive(Clone, Copy, PartialEq, Eq, Debug)]
pub enum FramePrefix {
    /// A whole message, up to `end`, with its content part from `start` on.
    Message { start: usize, end: usize },
    /// The beginning of a message.
    PartialMessage,
    /// No message, whatever comes.
    NoMessage(FrameError),
}

/// Whether one of two texts is the beginning of the other.
fn agree(bytes: &[u8], text: &[u8]) -> bool
    ensures { IsTrue result ↔ IsOnePrefixOfOther bytes.now text.now }
{
    let count = bytes.len().min(text.len());
    bytes[..count] == text[..count]
}

/// The number of digits at the front, at most one more than a length may have.
fn digits_in(bytes: &[u8]) -> usize
    ensures within { result ≤ length bytes.now }
    ensures most { result ≤ content_length_digit_limit + 1 }
    ensures digits { All IsDigit (take result bytes.now) }
    ensures all { result < content_length_digit_limit + 1 → result < length bytes.now → IsDigit (slice_index bytes.now result) → ⊥ }
{
    let mut count = 0;
    for byte in bytes {
        if count > DIGIT_LIMIT || !byte.is_ascii_digit() {
            return count;
        }
        count += 1;
    }
    count
}

/// The number of some digits, if a content part may have this length.
fn length_of(digits: &[u8]) -> Option<usize>
    requires { All IsDigit digits.now }
    ensures value { IfSome result (λ n. n ≡ decimal_value_of_digits 0 digits.now) }
    ensures within { IfSome result (λ n. n ≤ content_limit) }
    ensures past { IfNone result (content_limit < decimal_value_of_digits 0 digits.now) }
{
    let mut number = 0usize;
    for byte in digits {
        number = 10 * number + usize::from(*byte - b'0');
        if number > CONTENT_LIMIT {
            return None;
        }
    }
    Some(number)
}

/// Returns the front of some bytes. Takes no memory, and time by the header alone.
pub fn parse_frame_prefix(bytes: &[u8]) -> FramePrefix
    ensures { IsFramePrefix bytes.now result }
{
    if !agree(bytes, FIELD) {
        return FramePrefix::NoMessage(FrameError::WrongHeaderField);
    }
    if bytes.len() < FIELD.len() {
        return FramePrefix::PartialMessage;
    }
    front_behind(bytes)
}

/// The digits after the field's name, at most one more than a length may have, and the rest after them.
fn value_behind(bytes: &[u8]) -> (&[u8], &[u8])
    requires long { 16 ≤ length bytes.now }
    requires name { take 16 bytes.now ≡ content_length_field }
    ensures reads { HasHeaderDigits bytes.now result.0.now result.1.now }
    ensures most { length result.0.now ≤ content_length_digit_limit + 1 }
    ensures all { length result.0.now < content_length_digit_limit + 1 → 0 < length result.1.now → IsDigit (slice_index result.1.now 0) → ⊥ }
{
    let (_, behind) = bytes.split_at(16);
    let count = digits_in(behind);
    behind.split_at(count)
}

/// The front of bytes that begin with the field's name.
fn front_behind(bytes: &[u8]) -> FramePrefix
    requires long { 16 ≤ length bytes.now }
    requires name { take 16 bytes.now ≡ content_length_field }
    ensures { IsFramePrefix bytes.now result }
{
    let (digits, rest) = value_behind(bytes);
    let Some(number) = length_of(digits) else {
        return FramePrefix::NoMessage(FrameError::TooLong);
    };
    if digits.len() > DIGIT_LIMIT {
        return FramePrefix::NoMessage(FrameError::TooManyDigits);
    }
    if digits.is_empty() {
        return without_digit(rest);
    }
    if !agree(rest, HEADER_END) {
        return FramePrefix::NoMessage(FrameError::MissingHeaderEnd);
    }
    if rest.len() < HEADER_END.len() + number {
        return FramePrefix::PartialMessage;
    }
    let start = FIELD.len() + digits.len() + HEADER_END.len();
    FramePrefix::Message {
        start,
        end: start + number,
    }
}

/// The front of bytes in which no digit follows the field's name.
fn without_digit(rest: &[u8]) -> FramePrefix
    requires { 0 < length rest.now → IsDigit (slice_index rest.now 0) → ⊥ }
    ensures { IsFramePrefix (content_length_field ++ rest.now) result }
{
    if rest.is_empty() {
        FramePrefix::PartialMessage
    } else {
        FramePrefix::NoMessage(FrameError::NoDigit)
    }
}

/// Adds the message with this content part. Takes memory for it twice, once temporarily.
///
/// # Errors
/// An allocation failed; nothing is added.
#[tactic(auto, unfolding(crate::specs::Framing::framed_message))]
pub fn push_frame(alloc: Global, out: &mut Vec<u8>, content: &[u8]) -> Result<(), AllocError>
    ensures ok { OnOk result (out.new.items ≡ out.old.items ++ framed_message content.now) }
    ensures err { OnErr result (out.new.items ≡ out.old.items) }
{
    let mut buffer = itoa::Buffer::new();
    let mut frame = Vec::new(alloc);
    frame.extend_from_slice(FIELD)?;
    frame.extend_from_slice(buffer.format(content.len()).as_bytes())?;
    frame.extend_from_slice(HEADER_END)?;
    frame.extend_from_slice(content)?;
    out.extend_from_slice(frame.as_slice())
}
