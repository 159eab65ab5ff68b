//! How many entries of each node were visited.

use ga_grid::NodeId;
use std::marker::Model;

/// How many entries of each node were visited, from its last one on, and a window that contains all nodes with some, so that
/// not every count is read.
#[derive(Drop)]
pub struct VisitedEntries {
    counts: [u32; 144],
    // The least node that may have visited entries, and one past the greatest.
    first: u8,
    past: u8,
}

impl Model for VisitedEntries {
    ghost use Rattle.std.specs.Prelude.{ℕ, List};
    ghost use Rattle.ga_rollback.specs.inner.{AreNonzeroCountsInWindow};

    ghost Value = { List ℕ };

    ghost view = { λ s. s.counts };

    ghost invariant = { λ s. AreNonzeroCountsInWindow s.counts s.first s.past };
}

impl VisitedEntries {
    ghost use Rattle.std.specs.Prelude.{◌≡◌, ◌+◌, ◌<◌, ◌≤◌, ◌^◌, ℕ, length, slice_index, slice_set};

    /// No visited entry of any node.
    pub(crate) fn none() -> Self
        ensures size { length result ≡ 144 }
        ensures zero { (n : ℕ) → slice_index result n ≡ 0 }
    {
        VisitedEntries {
            counts: [0; 144],
            first: 144,
            past: 0,
        }
    }

    /// How many entries of a node were visited.
    #[inline(always)]
    pub fn count(&self, node: NodeId) -> u32
        ensures { result ≡ slice_index self.now node.number }
    {
        self.counts[node.index()]
    }

    /// Counts one more entry of a node as visited.
    #[inline(always)]
    pub(crate) fn add(&mut self, node: NodeId)
        requires { slice_index self.old node.number + 1 < 2 ^ 32 }
        ensures { self.new ≡ slice_set self.old node.number (slice_index self.old node.number + 1) }
    {
        if self.counts[node.index()] == 0 {
            self.first = self.first.min(node.number);
            self.past = self.past.max(node.number + 1);
        }
        self.counts[node.index()] += 1;
    }

    /// A node below which none has visited entries.
    #[inline(always)]
    pub fn first(&self) -> u8
        ensures { (n : ℕ) → n < result → slice_index self.now n ≡ 0 }
    {
        self.first
    }

    /// One past the nodes that have visited entries.
    #[inline(always)]
    pub fn past(&self) -> u8
        ensures fits { result ≤ 144 }
        ensures beyond { (n : ℕ) → result ≤ n → slice_index self.now n ≡ 0 }
    {
        self.past
    }
}
