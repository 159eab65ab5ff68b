//! The pending nodes of a rollback.

use ga_grid::NodeId;
use std::marker::Model;

/// A flag for each pending node, and a window that contains all of them, so that not every flag is read.
#[derive(Drop)]
pub(crate) struct PendingNodes {
    flags: [bool; 144],
    // The least node that may wait, and one past the greatest.
    first: u8,
    past: u8,
}

impl Model for PendingNodes {
    ghost use Rattle.std.specs.Prelude.{Bool, List};
    ghost use Rattle.ga_journal.specs.inner.Histories.{AreSetFlagsInWindow};

    ghost Value = { List Bool };

    ghost view = { λ w. w.flags };

    ghost invariant = { λ w. AreSetFlagsInWindow w.flags w.first w.past };
}

impl PendingNodes {
    ghost use Rattle.std.specs.Prelude.{◌≡◌, ◌<◌, ℕ, length, true, false, slice_index_or, slice_set, IfSome, IfNone};

    /// No node waits.
    pub fn none() -> Self
        ensures size { length result ≡ 144 }
        ensures none { (n : ℕ) → slice_index_or result n false ≡ false }
    {
        PendingNodes {
            flags: [false; 144],
            first: 144,
            past: 0,
        }
    }

    /// The node waits from now on.
    #[inline(always)]
    pub fn add(&mut self, node: NodeId)
        ensures { self.new ≡ slice_set self.old node.number true }
    {
        self.flags[node.index()] = true;
        self.first = self.first.min(node.number);
        self.past = self.past.max(node.number + 1);
    }

    /// The least node that waits.
    #[inline(always)]
    fn least(&self) -> Option<NodeId>
        ensures some { IfSome result (λ node. slice_index_or self.now node.number false ≡ true) }
        ensures below { IfSome result (λ node. (n : ℕ) → n < node.number → slice_index_or self.now n false ≡ false) }
        ensures none { IfNone result ((n : ℕ) → slice_index_or self.now n false ≡ false) }
    {
        'nodes: for n in self.first..self.past {
            if self.flags[n as usize] {
                return Some(NodeId::new(n));
            }
        }
        None
    }

    /// Takes one of the nodes that wait out.
    #[inline(always)]
    pub fn pop(&mut self) -> Option<NodeId>
        ensures some { IfSome result (λ node. slice_index_or self.old node.number false ≡ true) }
        ensures taken { IfSome result (λ node. self.new ≡ slice_set self.old node.number false) }
        ensures none { IfNone result ((n : ℕ) → slice_index_or self.old n false ≡ false) }
        ensures same { IfNone result (self.new ≡ self.old) }
    {
        match self.least() {
            Some(node) => {
                self.flags[node.index()] = false;
                self.first = node.number + 1;
                Some(node)
            }
            None => {
                self.first = 144;
                self.past = 0;
                None
            }
        }
    }
}
