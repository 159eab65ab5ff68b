//! The places of a stack, and the old values of those that a change overwrites.

use arrayvec::ArrayVec;

/// The number of cells of a ring.
pub(crate) const CELLS: u8 = 8;

/// What each word of a stack is before anything is pushed.
pub const UNUSED_STACK_WORD: u32 = 0x15555;

/// A register, a cell or the pointer of a stack.
#[derive(Clone, Copy, PartialEq, Eq, Debug, Default)]
pub enum StackPlace {
    /// The number of the newest cell, 0 to 7.
    #[default]
    Pointer,
    /// T or R.
    Top,
    /// S, of a data stack alone.
    Second,
    /// A cell of the ring, 0 to 7.
    Cell(u8),
}

/// The places that a change overwrote, each once, with their old values.
pub type OverwrittenPlaces = ArrayVec<(StackPlace, u32), 4>;
