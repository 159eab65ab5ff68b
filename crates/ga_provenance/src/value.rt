//! Values, each by its node, step and part.

use ga_event::NodePart;
use ga_grid::NodeId;

/// The value of a part of a node right after a step of it, or at load for step 0.
#[derive(Clone, Copy, PartialEq, Eq, Debug)]
pub struct PartValue {
    /// The node.
    pub node: NodeId,
    /// How many steps it had made.
    pub step: u32,
    /// The part.
    pub part: NodePart,
}

/// T of node 000 at load, with which room for values begins.
impl Default for PartValue {
    fn default() -> Self {
        PartValue {
            node: NodeId::new(0),
            step: 0,
            part: NodePart::default(),
        }
    }
}

impl PartValue {
    ghost use Rattle.std.specs.Prelude.{◌≡◌};
    ghost use Rattle.ga_provenance.specs.Sources.{is_same_value};

    /// Whether the two are of one part after one step.
    pub fn is_equal_to(self, other: PartValue) -> bool
        ensures { result ≡ is_same_value self other }
    {
        self.node.number == other.node.number
            && self.step == other.step
            && self.part.is_same_node_part(other.part)
    }
}
