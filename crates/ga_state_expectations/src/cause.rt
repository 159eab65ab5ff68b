//! What is wrong with a line that says what is expected.

use ga_state_conditions::ConditionFault;
use std::alloc::AllocError;
use thiserror::Error;

/// What is wrong with the words after `expect`.
#[derive(Clone, Copy, PartialEq, Eq, Debug, Error)]
pub enum ExpectationFaultCause {
    /// There is no expectation, or none of the named node.
    #[error("nothing is expected")]
    NoExpectation,
    /// The first word is `every` or `one`, and the others aren't those of `every order ends` or `one end`.
    #[error("no such expectation of the program")]
    NoSuchChipExpectation,
    /// No node is named, and none has begun.
    #[error("no node has begun")]
    NoNode,
    /// The name has no node.
    #[error("no such node")]
    NoSuchNode,
    /// No value has this name.
    #[error("no such value")]
    NoSuchValue,
    /// The number of steps of a node, which isn't kept at an end.
    #[error("an end counts no steps")]
    CountsSteps,
    /// The value is compared with no sign, or another.
    #[error("no such comparison")]
    NoSuchComparison,
    /// The number is missing.
    #[error("a number is missing")]
    NoNumber,
    /// What is compared is neither a number nor a port nor a label of the node.
    #[error("no such number")]
    NoSuchNumber,
    /// The number isn't one of a word.
    #[error("number out of range")]
    OutOfRange,
    /// The side is missing.
    #[error("a side is missing")]
    NoSide,
    /// No side has this name.
    #[error("no such side")]
    NoSuchSide,
    /// More sides than one to write to, or more than four to read from.
    #[error("too many sides")]
    TooManySides,
    /// What is awaited isn't code.
    #[error("no code is awaited")]
    AwaitedNotCode,
    /// No stop has this number.
    #[error("no such stop")]
    NoSuchStop,
    /// The words after `pass` aren't two names and `=`.
    #[error("no words over a link")]
    NotLink,
    /// The nodes have no link.
    #[error("not neighbours")]
    NotNeighbours,
    /// No word follows the `=`.
    #[error("no words are given")]
    NoLinkWords,
    /// More words over a link than 64.
    #[error("too many words")]
    TooManyLinkWords,
    /// A word comes after `..`.
    #[error("words after the end")]
    WordsAfterEnd,
    /// What should never be, has this fault.
    #[error("no conditions")]
    NeverConditionFault(ConditionFault),
}

/// A line that says what is expected, and what is wrong with it.
#[derive(Clone, Copy, PartialEq, Eq, Debug)]
pub struct ExpectationFault {
    /// The line's number, from 1 on.
    pub line: u32,
    /// What is wrong.
    pub cause: ExpectationFaultCause,
}

/// Why the lines of a source give no expectations.
#[derive(Drop)]
pub enum ExpectationsError {
    /// Out of memory.
    Memory,
    /// Some lines are wrong: the fault of each, in the order of lines.
    FaultyLines(Vec<ExpectationFault>),
}

impl From<AllocError> for ExpectationsError {
    ghost use Rattle.std.specs.Prelude.{◌≡◌};
    ghost use Rattle.ga_state_expectations.specs.declared.cause.ExpectationsError.TheVariants.{Memory};

    ghost from_gives = { λ _ why. why ≡ Memory };

    fn from(_refused: AllocError) -> Self {
        ExpectationsError::Memory
    }
}
