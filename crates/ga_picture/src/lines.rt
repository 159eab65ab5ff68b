//! The lines of the nodes, and which nodes are to have one.

ghost use Rattle.std.specs.Prelude.{IfOk, ◌≡◌, ◌<◌, ℕ, true, false, length};
ghost use Rattle.ga_causal.specs.Dependence.{is_node_flagged, event_with_look_touches_node};
ghost use Rattle.ga_picture.specs.inner.{AreLinesOfNodes};
ghost use Rattle.ga_picture.specs.Drawing.{IsNodeOfDrawnEvent};
ghost use Rattle.ga_picture.specs.Items.{picture_item_at_index};

use crate::item::PictureItem;
use ga_causal::{NodeSet, OutOfMemoryError};
use ga_grid::{CHIP_NODE_COUNT, NodeId};
use std::alloc::Global;

/// The nodes that have lines, and of each such node the index of its line.
#[derive(Drop)]
pub(crate) struct Lines {
    pub(crate) nodes: Vec<NodeId>,
    pub(crate) columns: [u8; 144],
}

/// A line for each node that is used, by their numbers.
pub(crate) fn lines_of(alloc: Global, used: &NodeSet) -> Result<Lines, OutOfMemoryError>
    ensures { IfOk result (λ lines. AreLinesOfNodes (is_node_flagged used.now) lines.nodes.items lines.columns 144) }
{
    let mut nodes = Vec::new(alloc);
    let mut columns = [0; CHIP_NODE_COUNT];
    'nodes: for number in 0..CHIP_NODE_COUNT as u8 {
        let node = NodeId::new(number);
        if used.has(node) {
            columns[number as usize] = nodes.as_slice().len() as u8;
            nodes.push(node)?;
        }
    }
    Ok(Lines { nodes, columns })
}

/// The nodes that the events touch that are not left out.
pub(crate) fn touched_by(items: &[PictureItem]) -> NodeSet
    ensures needed { (n : ℕ) → is_node_flagged result n ≡ true → IsNodeOfDrawnEvent items.now n }
    ensures all { (n place : ℕ) → place < length items.now → (picture_item_at_index items.now place).out ≡ false →
        event_with_look_touches_node (picture_item_at_index items.now place).cause n ≡ true → is_node_flagged result n ≡ true }
{
    let mut touched = NodeSet::none();
    'items: for item in items {
        if !item.out {
            touched.add_touched_nodes(&item.cause);
        }
    }
    touched
}
