//! What comes next in a node.

use ga_slots::Op;

/// What comes next in a node, by its slot. Where the node runs, its next own event carries this out; a node that waits or is
/// stopped has none now.
#[derive(Clone, Copy, PartialEq, Eq, Debug)]
pub enum NextAction {
    /// The word at P becomes the instruction word.
    Fetch,
    /// The opcode in the slot.
    Run(Op),
}
