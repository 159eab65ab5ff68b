//! Links between neighbours, by a table.

ghost use Rattle.std.specs.Prelude.{◌≡◌, ◌<◌, true, Some, IfSome};
ghost use Rattle.ga_grid.specs.Grid.{neighbour_number, optional_node_number};
ghost use Rattle.ga_rollback.specs.inner.{is_table_link, table_place_of_side};

use ga_grid::NodeId;
use ga_ports::Side;

/// For each node the nodes to its right, down, left and up of it, and 144 where the grid ends.
static BESIDE: [u8; 576] = [
    1, 18, 144, 144, 0, 19, 2, 144, 3, 20, 1, 144, 2, 21, 4, 144, 5, 22, 3, 144, 4, 23, 6, 144, 7,
    24, 5, 144, 6, 25, 8, 144, 9, 26, 7, 144, 8, 27, 10, 144, 11, 28, 9, 144, 10, 29, 12, 144, 13,
    30, 11, 144, 12, 31, 14, 144, 15, 32, 13, 144, 14, 33, 16, 144, 17, 34, 15, 144, 16, 35, 144,
    144, 19, 0, 144, 36, 18, 1, 20, 37, 21, 2, 19, 38, 20, 3, 22, 39, 23, 4, 21, 40, 22, 5, 24, 41,
    25, 6, 23, 42, 24, 7, 26, 43, 27, 8, 25, 44, 26, 9, 28, 45, 29, 10, 27, 46, 28, 11, 30, 47, 31,
    12, 29, 48, 30, 13, 32, 49, 33, 14, 31, 50, 32, 15, 34, 51, 35, 16, 33, 52, 34, 17, 144, 53,
    37, 54, 144, 18, 36, 55, 38, 19, 39, 56, 37, 20, 38, 57, 40, 21, 41, 58, 39, 22, 40, 59, 42,
    23, 43, 60, 41, 24, 42, 61, 44, 25, 45, 62, 43, 26, 44, 63, 46, 27, 47, 64, 45, 28, 46, 65, 48,
    29, 49, 66, 47, 30, 48, 67, 50, 31, 51, 68, 49, 32, 50, 69, 52, 33, 53, 70, 51, 34, 52, 71,
    144, 35, 55, 36, 144, 72, 54, 37, 56, 73, 57, 38, 55, 74, 56, 39, 58, 75, 59, 40, 57, 76, 58,
    41, 60, 77, 61, 42, 59, 78, 60, 43, 62, 79, 63, 44, 61, 80, 62, 45, 64, 81, 65, 46, 63, 82, 64,
    47, 66, 83, 67, 48, 65, 84, 66, 49, 68, 85, 69, 50, 67, 86, 68, 51, 70, 87, 71, 52, 69, 88, 70,
    53, 144, 89, 73, 90, 144, 54, 72, 91, 74, 55, 75, 92, 73, 56, 74, 93, 76, 57, 77, 94, 75, 58,
    76, 95, 78, 59, 79, 96, 77, 60, 78, 97, 80, 61, 81, 98, 79, 62, 80, 99, 82, 63, 83, 100, 81,
    64, 82, 101, 84, 65, 85, 102, 83, 66, 84, 103, 86, 67, 87, 104, 85, 68, 86, 105, 88, 69, 89,
    106, 87, 70, 88, 107, 144, 71, 91, 72, 144, 108, 90, 73, 92, 109, 93, 74, 91, 110, 92, 75, 94,
    111, 95, 76, 93, 112, 94, 77, 96, 113, 97, 78, 95, 114, 96, 79, 98, 115, 99, 80, 97, 116, 98,
    81, 100, 117, 101, 82, 99, 118, 100, 83, 102, 119, 103, 84, 101, 120, 102, 85, 104, 121, 105,
    86, 103, 122, 104, 87, 106, 123, 107, 88, 105, 124, 106, 89, 144, 125, 109, 126, 144, 90, 108,
    127, 110, 91, 111, 128, 109, 92, 110, 129, 112, 93, 113, 130, 111, 94, 112, 131, 114, 95, 115,
    132, 113, 96, 114, 133, 116, 97, 117, 134, 115, 98, 116, 135, 118, 99, 119, 136, 117, 100, 118,
    137, 120, 101, 121, 138, 119, 102, 120, 139, 122, 103, 123, 140, 121, 104, 122, 141, 124, 105,
    125, 142, 123, 106, 124, 143, 144, 107, 127, 108, 144, 144, 126, 109, 128, 144, 129, 110, 127,
    144, 128, 111, 130, 144, 131, 112, 129, 144, 130, 113, 132, 144, 133, 114, 131, 144, 132, 115,
    134, 144, 135, 116, 133, 144, 134, 117, 136, 144, 137, 118, 135, 144, 136, 119, 138, 144, 139,
    120, 137, 144, 138, 121, 140, 144, 141, 122, 139, 144, 140, 123, 142, 144, 143, 124, 141, 144,
    142, 125, 144, 144,
];

/// The place of the neighbour on this side among the four of a node in the table.
#[inline(always)]
fn table_place_of_side(side: Side) -> usize
    ensures value { result ≡ table_place_of_side side }
    ensures within { result < 4 }
{
    match side {
        Side::Right => 0,
        Side::Down => 1,
        Side::Left => 2,
        Side::Up => 3,
    }
}

/// The number of the node at the other end of the link on this side, or 144.
#[tactic(auto, using(crate::proofs::Linked::link_of))]
#[inline(always)]
fn number_beside(node: NodeId, side: Side) -> u8
    ensures { is_table_link node.number side result (neighbour_number node.number side) ≡ true }
{
    let at = 4 * node.index();
    let place = table_place_of_side(side);
    BESIDE[at + place]
}

/// The node at the other end of the link on this side, as [`ga_grid::neighbour`] returns it, read from the table.
#[tactic(auto, using(crate::proofs::Linked::some_beside, crate::proofs::Linked::none_beside))]
#[inline(always)]
pub(crate) fn node_beside(node: NodeId, side: Side) -> Option<NodeId>
    ensures value { optional_node_number result ≡ neighbour_number node.number side }
    ensures back { IfSome result (λ other. neighbour_number other.number side ≡ Some node.number) }
{
    let number = number_beside(node, side);
    if number < 144 {
        Some(NodeId::new(number))
    } else {
        None
    }
}
