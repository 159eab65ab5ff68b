//! Why a text is no program.

ghost use Rattle.std.specs.Prelude.{◌≡◌};

use std::alloc::{AllocError, AllocFailed};
use thiserror::Error;

/// The numbers that a place takes.
#[derive(Clone, Copy, PartialEq, Eq, Debug)]
pub enum NumberRange {
    /// A word of 18 bits, with or without a sign.
    Word,
    /// An address with its carry bit.
    P,
    /// An address.
    B,
    /// The address of a cell of RAM or ROM.
    Cell,
}

/// What is wrong.
#[derive(Clone, Copy, PartialEq, Eq, Debug, Error)]
pub enum SourceFaultCause<'s> {
    #[error("no memory")]
    Memory,
    #[error("the line has more than 200 bytes")]
    LongLine,
    #[error("a comment without its )")]
    OpenComment,
    #[error("no node has begun")]
    NoNodeBegun,
    #[error("no such node")]
    NoSuchNode,
    #[error("the node has a program already")]
    NodeTwice,
    /// No opcode, control word, number or port has this name, and no label of the node.
    #[error("what is this")]
    UnknownWord(&'s [u8]),
    #[error("the name is taken")]
    NameTaken,
    #[error("a name or a value is missing")]
    MissingNameOrValue,
    #[error("no number from -131072 to 262143 before constant")]
    NoNumber,
    #[error("the label stands twice")]
    LabelTwice,
    #[error("the register is given twice")]
    RegisterTwice,
    #[error("nothing is open that this closes")]
    UnmatchedControlWord,
    #[error("this is never closed")]
    UnclosedControlWord,
    /// A word that says a number, or a label that has an address, which the place doesn't take.
    #[error("number out of range")]
    OperandOutOfRange(&'s [u8], NumberRange),
    /// A cell that a line gave already: 00 to 3f of RAM, 80 to bf of ROM.
    #[error("cell {cell:03x} given before on line {line} (org {cell} is {cell:03x})")]
    CellTwice { cell: u32, line: u32 },
    /// The address at which no memory is.
    #[error("{0:03x} is past the end of RAM or ROM")]
    PastMemoryEnd(u32),
    /// The address of the jump's cell, and the one that it can't lead to.
    #[error("{target:03x} is out of reach of a jump in {cell:03x}")]
    JumpOutOfReach { cell: u32, target: u32 },
    /// The address of the cell of `unext`.
    #[error("the loop of unext in {0:03x} is longer than its cell")]
    UnextOutOfReach(u32),
}

/// A fault of a text, and its line from 1 on; 0 where memory was refused.
#[derive(Clone, Copy, PartialEq, Eq, Debug)]
pub struct SourceFault<'s> {
    pub line: u32,
    pub cause: SourceFaultCause<'s>,
}

impl<'s> From<AllocError> for SourceFault<'s> {
    ghost use Rattle.std.specs.Prelude.{◌≡◌};
    ghost use Rattle.ga_parser.specs.declared.fault.SourceFaultCause.TheVariants.{Memory};

    ghost from_gives = { λ _ fault. fault.cause ≡ Memory };

    fn from(_refused: AllocError) -> Self {
        source_fault_at(0, SourceFaultCause::Memory)
    }
}

impl<'s, T: Drop> From<AllocFailed<T>> for SourceFault<'s> {
    ghost use Rattle.std.specs.Prelude.{◌≡◌};
    ghost use Rattle.ga_parser.specs.declared.fault.SourceFaultCause.TheVariants.{Memory};

    ghost from_gives = { λ _ fault. fault.cause ≡ Memory };

    fn from(_refused: AllocFailed<T>) -> Self {
        source_fault_at(0, SourceFaultCause::Memory)
    }
}

/// A fault at a line.
pub fn source_fault_at(line: u32, cause: SourceFaultCause<'_>) -> SourceFault<'_>
    ensures line { result.line ≡ line }
    ensures cause { result.cause ≡ cause.entry }
{
    SourceFault { line, cause }
}
