//! The links between neighbours.

ghost use Rattle.std.specs.Prelude.{◌≡◌, ◌≢◌, ◌<◌, Some, IfSome, option_map};
ghost use Rattle.ga_grid.specs.Grid.{next_or_previous_grid_index, neighbour_number, optional_node_number, node_id};

use crate::node_id::NodeId;
use ga_ports::Side;

// The next or the previous place, where there are `size` places; none past the ends.
fn step(place: u8, size: u8, is_forward: bool) -> Option<u8>
    requires { place < size }
    ensures { result ≡ next_or_previous_grid_index place size is_forward }
{
    if !is_forward {
        place.checked_sub(1)
    } else if place + 1 < size {
        Some(place + 1)
    } else {
        None
    }
}

// The number of the node at the other end of the link on this side.
fn number_beside(number: u8, side: Side) -> Option<u8>
    requires { number < 144 }
    ensures value { result ≡ neighbour_number number side }
    ensures in_range { IfSome result (λ other. other < 144) }
    ensures back { IfSome result (λ other. neighbour_number other side ≡ Some number) }
    ensures other { IfSome result (λ other. other ≢ number) }
{
    let row = number / 18;
    let column = number % 18;
    let other = match side {
        Side::Right => 18 * row + step(column, 18, column % 2 == 0)?,
        Side::Left => 18 * row + step(column, 18, column % 2 == 1)?,
        Side::Down => 18 * step(row, 8, row % 2 == 0)? + column,
        Side::Up => 18 * step(row, 8, row % 2 == 1)? + column,
    };
    Some(other)
}

/// The node at the other end of the link on this side, or none at the edge of the grid. Both ends of a link have the same
/// side (DB002, links).
pub fn neighbour(node: NodeId, side: Side) -> Option<NodeId>
    ensures value { optional_node_number result ≡ neighbour_number node.number side }
    ensures node { result ≡ option_map node_id (neighbour_number node.number side) }
    ensures back { IfSome result (λ other. neighbour_number other.number side ≡ Some node.number) }
    ensures other { IfSome result (λ other. other.number ≢ node.number) }
{
    let number = number_beside(node.number, side)?;
    Some(NodeId { number })
}
