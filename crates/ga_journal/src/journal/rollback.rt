//! The calls that a rollback makes: marks, the pending nodes, and undone entries, each in one tick.

use super::Journal;
use crate::ticks::Ticks;
use ga_grid::{Chip, NodeId};

impl Journal {
    ghost use Rattle.std.specs.Prelude.{◌≡◌, ◌<◌, ◌+◌, ◌^◌, ℕ, Some, length, true, false, IfSome, IfNone};
    ghost use Rattle.ga_journal.specs.Histories.{no_rollback_work, history};
    ghost use Rattle.ga_journal.specs.Marks.{HasValidMarks, mark_of_node, entries_to_remove, is_node_pending, numbers_of_position, pass_partner_at_position, entry_counts_event_at, journal_with_tick, journal_with_lowered_mark, journal_with_raised_mark, journal_with_dequeued_node, CanRestoreLastEntry, IsLastEntryRestored};
    ghost use Rattle.ga_journal.specs.Looks.{IsLookToRemove, HasNoLookToRemove, IsFailedLookSearch};

    /// The ticks that were counted.
    pub fn ticks(&self) -> &Ticks
        ensures { result.now ≡ self.now.ticks }
    {
        &self.ticks
    }

    /// Counts ticks from 0 on again.
    pub(crate) fn reset_ticks(&mut self)
        ensures { self.new ≡ record self.old { ticks = no_rollback_work } }
    {
        self.ticks = Ticks::new();
    }

    /// The node and the position of the other entry of a pass; none for an entry of another kind. Positions count from 0.
    /// One tick.
    pub fn find_pass_partner(&mut self, node: NodeId, at: u32) -> Option<(NodeId, u32)>
        requires there { at < length (history self.old.histories node.number) }
        requires fits { self.old.ticks.count + 1 < 2 ^ 64 }
        ensures value { numbers_of_position result ≡ pass_partner_at_position self.old.histories node.number at }
        ensures ticks { self.new ≡ journal_with_tick self.old }
    {
        self.ticks.raise();
        self.histories.partner(node, at)
    }

    /// How many of a node's entries are to stay.
    pub fn mark_of_node(&self, node: NodeId) -> u32
        ensures value { result ≡ mark_of_node self.now node.number }
        ensures sound { HasValidMarks self.now }
    {
        self.histories.count(node) - self.going[node.index()]
    }

    /// How many of a node's entries are to go, at the end of its history.
    #[inline(always)]
    pub fn entries_to_remove(&self, node: NodeId) -> u32
        ensures value { result ≡ entries_to_remove self.now node.number }
        ensures sound { HasValidMarks self.now }
    {
        self.going[node.index()]
    }

    /// The position of the newest look of `looker` that is to stay so far, where it came after an entry of `node` that is
    /// to go: then it saw what is to go. One tick, counted as one in vain where it finds none; no tick where no entry of `looker`
    /// is a look.
    pub fn find_look_to_remove(&mut self, node: NodeId, looker: NodeId) -> Option<u32>
        requires { self.old.ticks.count + 1 < 2 ^ 64 }
        ensures some { IfSome result (λ at.
            IsLookToRemove self.old node.number looker.number at × (self.new ≡ journal_with_tick self.old)) }
        ensures none { IfNone result (
            HasNoLookToRemove self.old node.number looker.number × IsFailedLookSearch self.old looker.number self.new) }
    {
        if !self.histories.has_looked(looker) {
            return None;
        }
        let stay = self.mark_of_node(looker);
        let gone = self.mark_of_node(node);
        match self.histories.look_after((looker, stay), (node, gone)) {
            Some(at) => {
                self.ticks.raise();
                Some(at)
            }
            None => {
                self.ticks.raise_in_vain();
                None
            }
        }
    }

    /// Lowers a node's mark: only its first `to` entries are to stay. The node waits from then on. One tick.
    pub fn lower_mark(&mut self, node: NodeId, to: u32)
        requires smaller { to < mark_of_node self.old node.number }
        requires fits { self.old.ticks.count + 1 < 2 ^ 64 }
        ensures { self.new ≡ journal_with_lowered_mark self.old node.number to }
    {
        self.ticks.raise();
        let entries = self.histories.count(node);
        self.going[node.index()] = entries - to;
        self.waiting.add(node);
    }

    /// Raises a node's mark by one: the first of its entries to be removed is to stay again. Returns whether that entry counts
    /// an event, as an own event's entry does, and of a pass the writer's. One tick.
    pub fn raise_mark(&mut self, node: NodeId) -> bool
        requires going { mark_of_node self.old node.number < length (history self.old.histories node.number) }
        requires fits { self.old.ticks.count + 1 < 2 ^ 64 }
        ensures counted { Some result ≡ entry_counts_event_at self.old.histories node.number (mark_of_node self.old node.number) }
        ensures journal_with_raised_mark { self.new ≡ journal_with_raised_mark self.old node.number }
    {
        self.ticks.raise();
        let at = self.mark_of_node(node);
        self.going[node.index()] -= 1;
        self.histories.entry_counts_event(node, at)
    }

    /// Takes one of the nodes that wait out, in one tick. None, and no tick, where none waits.
    pub fn dequeue_node(&mut self) -> Option<NodeId>
        requires { self.old.ticks.count + 1 < 2 ^ 64 }
        ensures some { IfSome result (λ node.
            (is_node_pending self.old node.number ≡ true) × (self.new ≡ journal_with_dequeued_node self.old node.number)) }
        ensures none { IfNone result (((n : ℕ) → is_node_pending self.old n ≡ false) × (self.new ≡ self.old)) }
    {
        let node = self.waiting.pop()?;
        self.ticks.raise();
        Some(node)
    }

    /// Writes the values of a node's last entry back to the chip, and drops the entry. `kept` falls with an own event, and
    /// with the second entry of a pass. One tick.
    pub fn restore_last_entry(&mut self, chip: &mut Chip, node: NodeId)
        requires going { mark_of_node self.old node.number < length (history self.old.histories node.number) }
        requires sound { CanRestoreLastEntry self.old chip.old node.number }
        requires fits { self.old.ticks.count + 1 < 2 ^ 64 }
        ensures { IsLastEntryRestored self.old chip.old node.number self.new chip.new }
    {
        self.ticks.raise();
        let act = self.histories.undo_last_entry(chip, node);
        self.going[node.index()] -= 1;
        if !self.histories.has_pass_partner(&act) {
            self.kept -= 1;
        }
    }
}
