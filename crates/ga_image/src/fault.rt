//! Why a text is no image.

ghost use Rattle.std.specs.Prelude.{◌≡◌};
ghost use Rattle.ga_image.specs.FirstFault.{image_cause_number, image_cause_word};

use thiserror::Error;

/// What is wrong with a line, or with the text as a whole.
#[derive(Clone, Copy, PartialEq, Eq, Debug, Error)]
pub enum ImageFaultCause {
    /// The first line is not the header.
    #[error("the first line is not the header")]
    WrongHeader,
    /// The line has none of the forms, or is not allowed here.
    #[error("the line has none of the forms, or may not stand here")]
    InvalidLine,
    /// No node has this row and column.
    #[error("no node has this row and column")]
    UnknownNode,
    /// A number is too great for its place.
    #[error("a number is too great for its place")]
    WordOutOfRange,
    /// The node, field or cell was given before.
    #[error("the node, field or cell was given before")]
    RepeatedNodeOrField,
    /// A memory cell is past the last one.
    #[error("a memory cell is past the last one")]
    Place,
    /// The text ends before its line `end`.
    #[error("the text ends before its line `end`")]
    Truncated,
    /// The line has more than 200 bytes.
    #[error("the line has more than 200 bytes")]
    LineTooLong,
    /// Out of memory.
    #[error("out of memory")]
    Memory,
    /// The wait, the stop and the slot of the block before are inconsistent.
    #[error("the wait, the stop and the slot of the block before can't stand together")]
    State,
}

impl ImageFaultCause {
    /// The number by which the cause is reported.
    pub fn number(self) -> u8
        ensures { result ≡ image_cause_number self }
    {
        match self {
            ImageFaultCause::WrongHeader => 11,
            ImageFaultCause::InvalidLine => 12,
            ImageFaultCause::UnknownNode => 13,
            ImageFaultCause::WordOutOfRange => 14,
            ImageFaultCause::RepeatedNodeOrField => 15,
            ImageFaultCause::Place => 16,
            ImageFaultCause::Truncated => 17,
            ImageFaultCause::LineTooLong => 18,
            ImageFaultCause::Memory => 19,
            ImageFaultCause::State => 20,
        }
    }

    /// The word by which the cause is reported.
    pub fn word(self) -> &'static str
        ensures { result.now ≡ image_cause_word self }
    {
        match self {
            ImageFaultCause::WrongHeader => "header",
            ImageFaultCause::InvalidLine => "line",
            ImageFaultCause::UnknownNode => "node",
            ImageFaultCause::WordOutOfRange => "word",
            ImageFaultCause::RepeatedNodeOrField => "repeated",
            ImageFaultCause::Place => "place",
            ImageFaultCause::Truncated => "truncated",
            ImageFaultCause::LineTooLong => "long",
            ImageFaultCause::Memory => "memory",
            ImageFaultCause::State => "state",
        }
    }
}

/// The first fault of a text.
#[derive(Clone, Copy, PartialEq, Eq, Debug, Error)]
#[error("line {line}: {cause}")]
pub struct ImageFault {
    /// The number of the faulty line, counted from 1; one more than the number of lines where the text is truncated,
    /// and 0 where memory was refused.
    pub line: u32,
    /// What is wrong.
    pub cause: ImageFaultCause,
}
