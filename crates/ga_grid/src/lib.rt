//! The grid: the numbers of the 144 nodes, the links between neighbours, and the chip that holds the nodes.
#![tactic(auto)]

mod chip;
mod link;
mod name;
mod node_id;

pub use chip::{Chip, OutOfMemoryError, initial_p};
pub use link::neighbour;
pub use name::{decimal_digit, parse_decimal_name};
pub use node_id::{CHIP_NODE_COUNT, NodeId};
