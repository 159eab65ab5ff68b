//! A node walked back along its history.

use super::History;
use ga_node::{GatheredOldValues, Node};

/// The number of entries from which on a walk back is faster if it gathers their values first.
const FAR: usize = 512;

impl History {
    ghost use Rattle.std.specs.Prelude.{◌≡◌, ◌≤◌, length, take, drop};
    ghost use Rattle.ga_journal.specs.Walked.{node_before_entries, CanRestoreEntries};

    /// Writes the values of the entries from the position `to` on and below `from` back to a node, those of the last entry
    /// first.
    pub fn walk_node_back(&self, node: &mut Node, from: usize, to: usize)
        requires order { to ≤ from }
        requires within { from ≤ length self.now.items }
        requires can { CanRestoreEntries node.old (drop to (take from self.now.items)) }
        ensures { node.new ≡ node_before_entries node.old (drop to (take from self.now.items)) }
    {
        if from - to < FAR {
            self.walk_near(node, from, to);
        } else {
            self.walk_far(node, from, to);
        }
    }

    // Writes the values of the entries from the position `to` on and below `from` back to a node, entry by entry.
    fn walk_near(&self, node: &mut Node, from: usize, to: usize)
        requires order { to ≤ from }
        requires within { from ≤ length self.now.items }
        requires can { CanRestoreEntries node.old (drop to (take from self.now.items)) }
        ensures { node.new ≡ node_before_entries node.old (drop to (take from self.now.items)) }
    {
        let mut aside = node.suspend_status();
        for entry in self.entries[to..from].iter().rev() {
            node.write_back(&mut aside, &entry.saved);
        }
        node.resume_status(aside);
    }

    // Writes the values of the entries from the position `to` on and below `from` back to a node, of each place the oldest value alone.
    fn walk_far(&self, node: &mut Node, from: usize, to: usize)
        requires order { to ≤ from }
        requires within { from ≤ length self.now.items }
        requires can { CanRestoreEntries node.old (drop to (take from self.now.items)) }
        ensures { node.new ≡ node_before_entries node.old (drop to (take from self.now.items)) }
    {
        let mut gathered = GatheredOldValues::new();
        for entry in self.entries[to..from].iter().rev() {
            gathered.add(&entry.saved);
        }
        let mut aside = node.suspend_status();
        gathered.write_back(node, &mut aside);
        node.resume_status(aside);
    }
}
