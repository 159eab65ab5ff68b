//! The chip: a node for each number.

ghost use Rattle.std.specs.Prelude.{◌≡◌, ◌<◌, ◌^◌};
ghost use Rattle.std.specs.Borrow.{sem};
ghost use Rattle.ga_grid.specs.Grid.{linked_side_value, initial_p_of_node};

use crate::link::neighbour;
use crate::node_id::{CHIP_NODE_COUNT, NodeId};
use ga_node::Node;
use ga_ports::Side;
use std::alloc::{AllocError, AllocFailed, Global};
use std::marker::Model;
use thiserror::Error;

/// Out of memory.
#[derive(Clone, Copy, Debug, PartialEq, Eq, Error)]
#[error("no memory")]
pub struct OutOfMemoryError;

impl From<AllocError> for OutOfMemoryError {
    fn from(_refused: AllocError) -> Self {
        OutOfMemoryError
    }
}

impl<T: Drop> From<AllocFailed<T>> for OutOfMemoryError {
    fn from(_refused: AllocFailed<T>) -> Self {
        OutOfMemoryError
    }
}

/// The 144 nodes. A contract sees the list of what the nodes hold.
#[derive(Drop)]
pub struct Chip {
    nodes: Vec<Node>,
}

impl Model for Chip {
    ghost use Rattle.std.specs.Prelude.{◌≡◌, List, length};
    ghost use Rattle.ga_node.specs.Record.{NodeState};

    ghost Value = { List NodeState };

    ghost view = { λ c. c.nodes.items };

    ghost invariant = { λ c. length c.nodes.items ≡ 144 };
}

// The number of a side where the node has a neighbour there, else 0.
fn linked(node: NodeId, side: Side) -> u32
    ensures { result ≡ linked_side_value node.number side }
{
    if neighbour(node, side).is_some() {
        side.bit_in_set() as u32
    } else {
        0
    }
}

/// P of a node at load: the address that names the ports of all sides on which it has a neighbour.
pub fn initial_p(node: NodeId) -> u32
    ensures value { result ≡ initial_p_of_node node.number }
    ensures in_range { result < 2 ^ 10 }
{
    let sides = linked(node, Side::Right)
        + linked(node, Side::Down)
        + linked(node, Side::Left)
        + linked(node, Side::Up);
    0x155 ^ (16 * sides)
}

impl Chip {
    ghost use Rattle.std.specs.Prelude.{◌≡◌, length, slice_set, IfOk};
    ghost use Rattle.ga_grid.specs.Chip.{node_at, LendsNode};
    ghost use Rattle.ga_grid.specs.Grid.{default_chip};

    /// The chip at load: each node at its defaults, with P the address of the ports of all sides on which it has a neighbour.
    ///
    /// # Errors
    /// [`Memory`] alone, where memory was refused.
    pub fn new(alloc: Global) -> Result<Self, OutOfMemoryError>
        ensures { IfOk result (λ chip. chip ≡ default_chip) }
    {
        let mut nodes = Vec::with_capacity(alloc, CHIP_NODE_COUNT)?;
        for number in 0..CHIP_NODE_COUNT as u8 {
            nodes.push(Node::new(initial_p(NodeId::new(number))))?;
        }
        Ok(Chip { nodes })
    }

    /// The node at this number.
    #[inline(always)]
    pub fn node(&self, node: NodeId) -> &Node
        ensures value { result.now ≡ node_at self.now node.number }
        ensures size { length self.now ≡ 144 }
    {
        &self.nodes[node.index()]
    }

    /// The node at this number, to be changed.
    #[inline(always)]
    pub fn node_mut(&mut self, node: NodeId) -> &mut Node
        ensures* writes_back { sem 𝓛 (LendsNode self.entry node.number result) }
        ensures value { result.now ≡ node_at self.old node.number }
        ensures size { length self.old ≡ 144 }
    {
        &mut self.nodes[node.index()]
    }
}
