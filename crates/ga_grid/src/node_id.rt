//! The numbers and the names of the nodes.

ghost use Rattle.std.specs.Prelude.{◌<◌};

use std::fmt;

/// How many nodes the chip has.
pub const CHIP_NODE_COUNT: usize = 144;

/// A node of the grid, by its number: 18 for each row before its own, and its column.
#[derive(Clone, Copy, PartialEq, Eq, Debug)]
pub struct NodeId {
    /// 18 for each row before the node's own, plus its column: 0 to 143.
    pub number: u8,
    pub ghost in_range: { number < 144 },
}

impl NodeId {
    ghost use Rattle.std.specs.Prelude.{◌≡◌, ◌≢◌, ◌<◌, ℕ, Some, IfSome, IfNone, option_map};
    ghost use Rattle.ga_grid.specs.Grid.{decimal_name_of_node, node_number_of_name, optional_node_number, node_id};

    /// The node with this number.
    #[inline(always)]
    pub fn new(number: u8) -> Self
        requires { number < 144 }
        ensures { result.number ≡ number }
    {
        NodeId { number }
    }

    /// The node that is named by 100 times its row plus its column, where there is one.
    pub fn from_decimal_name(decimal_name: u32) -> Option<Self>
        ensures value { optional_node_number result ≡ node_number_of_name decimal_name }
        ensures node { result ≡ option_map node_id (node_number_of_name decimal_name) }
        ensures named { IfSome result (λ node. decimal_name_of_node node.number ≡ decimal_name) }
        ensures none { IfNone result ((n : ℕ) → n < 144 → decimal_name_of_node n ≢ decimal_name) }
    {
        let row = decimal_name / 100;
        let column = decimal_name % 100;
        if row < 8 && column < 18 {
            let number = (18 * row + column) as u8;
            Some(NodeId { number })
        } else {
            None
        }
    }

    /// The node's name: 100 times its row plus its column.
    pub fn decimal_name(self) -> u32
        ensures value { result ≡ decimal_name_of_node self.number }
        ensures back { node_number_of_name result ≡ Some self.number }
    {
        let number = self.number as u32;
        100 * (number / 18) + number % 18
    }

    /// The node's number as an index.
    #[inline(always)]
    pub fn index(self) -> usize
        ensures value { result ≡ self.number }
        ensures in_range { result < 144 }
    {
        self.number as usize
    }
}

/// The node's name: its row and its column in three decimal digits.
impl fmt::Display for NodeId {
    fn fmt<W: fmt::Write>(&self, f: &mut fmt::Formatter<W>) -> fmt::Result {
        let name = self.decimal_name();
        write!(f, "{name:03}")
    }
}
