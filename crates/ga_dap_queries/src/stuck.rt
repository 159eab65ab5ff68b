//! Whether a node can never go on.

ghost use Rattle.ga_grid.specs.Chip.{records_of_chip};
ghost use Rattle.ga_dap_queries.specs.Readings.{TellsIfNodeIsDeadlocked};

use ga_grid::{Chip, NodeId};
use ga_races::find_deadlocked_nodes;

/// Whether a node can never go on.
pub fn is_deadlocked(chip: &Chip, node: NodeId) -> bool
    ensures { TellsIfNodeIsDeadlocked (records_of_chip chip.now) node.number result }
{
    find_deadlocked_nodes(chip)[node.index()]
}
