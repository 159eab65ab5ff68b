//! The other entry of a pass.

ghost use Rattle.std.specs.Prelude.{◌≡◌};
ghost use Rattle.ga_journal.specs.Marks.{pass_partner_of_entry, numbers_of_position, entry_counts_event};

use super::Histories;
use crate::entry::EntryRole;
use ga_grid::NodeId;

/// The node and the position that an act names.
fn named_by(act: &EntryRole) -> Option<(NodeId, u32)>
    ensures { numbers_of_position result ≡ pass_partner_of_entry act.now }
{
    match act {
        EntryRole::Own(_) => None,
        EntryRole::SentWord { to, at, .. } => Some((*to, *at)),
        EntryRole::TookWord { from, at, .. } => Some((*from, *at)),
    }
}

/// Whether an event is counted by an act.
fn counts(act: &EntryRole) -> bool
    ensures { result ≡ entry_counts_event act.now }
{
    match act {
        EntryRole::Own(_) => true,
        EntryRole::SentWord { .. } => true,
        EntryRole::TookWord { .. } => false,
    }
}

impl Histories {
    ghost use Rattle.std.specs.Prelude.{◌≡◌, ◌<◌, ℕ, Some, length, nat_lt, slice_index};
    ghost use Rattle.ga_journal.specs.inner.Histories.{entry_lists_of_histories};
    ghost use Rattle.ga_journal.specs.Histories.{history};
    ghost use Rattle.ga_journal.specs.Marks.{pass_partner_of_entry, numbers_of_position, pass_partner_at_position, entry_counts_event_at};
    ghost use Rattle.ga_journal.specs.inner.Marks.{has_pass_partner};

    /// The other entry of the pass of the entry at a position.
    pub(crate) fn partner(&self, node: NodeId, at: u32) -> Option<(NodeId, u32)>
        requires there { at < length (history (entry_lists_of_histories self.now) node.number) }
        ensures { numbers_of_position result ≡ pass_partner_at_position (entry_lists_of_histories self.now) node.number at }
    {
        let history = self.at(node);
        named_by(&history.entry_without_old_values(at as usize).act)
    }

    /// Whether an event is counted by the entry at a position.
    pub(crate) fn entry_counts_event(&self, node: NodeId, at: u32) -> bool
        requires there { at < length (history (entry_lists_of_histories self.now) node.number) }
        ensures { Some result ≡ entry_counts_event_at (entry_lists_of_histories self.now) node.number at }
    {
        let history = self.at(node);
        counts(&history.entry_without_old_values(at as usize).act)
    }

    /// Whether a node's history is longer than a number.
    fn is_past(&self, node: NodeId, at: u32) -> bool
        ensures { result ≡ nat_lt at (length (history (entry_lists_of_histories self.now) node.number)) }
    {
        let history = self.at(node);
        (at as usize) < history.len()
    }

    /// Whether the other entry of the pass that an act names is there.
    pub(crate) fn has_pass_partner(&self, act: &EntryRole) -> bool
        ensures { result ≡ has_pass_partner (entry_lists_of_histories self.now) act.now }
    {
        match act {
            EntryRole::Own(_) => false,
            EntryRole::SentWord { to, at, .. } => self.is_past(*to, *at),
            EntryRole::TookWord { from, at, .. } => self.is_past(*from, *at),
        }
    }
}
