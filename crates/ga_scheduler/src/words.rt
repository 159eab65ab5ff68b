//! The words that went over a link.

ghost use Rattle.std.specs.Prelude.{◌≤◌};

use ga_grid::NodeId;
use ga_word::Word18;

pub(crate) mod telling;

/// A word that went over a link.
#[derive(Clone, Copy, PartialEq, Eq, Debug)]
pub struct Transfer {
    /// Which of the words over this link, from 1 on.
    pub number: u32,
    /// The step of the writer.
    pub writer_step: u32,
    /// The step of the reader.
    pub reader_step: u32,
    /// The word.
    pub word: Word18,
}

/// The words transferred from one node to another, listed one after another. All calls take the same lab, from which nothing is
/// removed meanwhile.
#[derive(Clone, Copy, PartialEq, Eq, Debug)]
pub struct TransferIter {
    writer: NodeId,
    reader: NodeId,
    // Whether the reader's steps are read, or the writer's; how many were, and how many words were among them.
    by_reader: bool,
    place: u32,
    before: u32,
    ghost fits: { before ≤ place },
}
