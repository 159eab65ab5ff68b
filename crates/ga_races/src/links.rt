//! Which nodes have a link.

ghost use Rattle.std.specs.Prelude.{◌≡◌};
ghost use Rattle.ga_races.specs.HappensBefore.{are_neighbours};

use crate::act::SideSet;
use ga_grid::NodeId;

/// Whether two nodes are neighbours, so that words can go between them.
pub fn are_neighbours(node: NodeId, other: NodeId) -> bool
    ensures { result ≡ are_neighbours node.number other.number }
{
    let sides = SideSet {
        right: true,
        down: true,
        left: true,
        up: true,
    };
    sides.leads_between(node, other)
}
