//! Why an input holds no further message.

use thiserror::Error;

/// What is wrong with a frame. No message can be found after it.
#[derive(Clone, Copy, PartialEq, Eq, Debug, Error)]
pub enum FrameError {
    /// The header does not begin with the field `Content-Length`, a colon and a blank.
    #[error("the header does not begin with `Content-Length: `")]
    WrongHeaderField,
    /// No digit follows the field's name.
    #[error("`Content-Length` is no number")]
    NoDigit,
    /// The content would have more than 131072 bytes.
    #[error("`Content-Length` is more than 131072")]
    TooLong,
    /// The length has more than seven digits.
    #[error("`Content-Length` has more than seven digits")]
    TooManyDigits,
    /// The digits are not followed by the end of the header.
    #[error("the header does not end behind `Content-Length`")]
    MissingHeaderEnd,
    /// The input ended within a message.
    #[error("the input ends within a message")]
    CutShort,
}
