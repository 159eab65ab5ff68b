//! The calls that read the events of the history. No tick counts the entries that they read.

use super::Journal;
use crate::fault::JournalFault;
use crate::since::EventsFromStep;
use ga_event::{Event, EventWithLook, MadeEvent};
use ga_grid::NodeId;
use ga_node::{Node, NodePlace};

impl Journal {
    ghost use Rattle.std.specs.Prelude.{◌≡◌, ◌<◌, ◌≤◌, ◌+◌, ◌^◌, ◌↔◌, length, map, take, drop, Some, option_map, IfOk, IfErr, IsNone};
    ghost use Rattle.ga_event.specs.declared.event.EventWithLook.{EventWithLook};
    ghost use Rattle.ga_event.specs.declared.made.MadeEvent.{MadeEvent};
    ghost use Rattle.std.specs.List.{slice_get, All};
    ghost use Rattle.std.specs.List.Sorted.{IsStrictlyIncreasing};
    ghost use Rattle.ga_journal.specs.Histories.{history};
    ghost use Rattle.ga_journal.specs.Walked.{node_before_entries, CanRestoreEntries, overwritten_value};
    ghost use Rattle.ga_journal.specs.Events.{kept_events_with_outcomes, journal_events_with_looks, journal_events};
    ghost use Rattle.ga_event.specs.Told.{count_steps, made_events_of_node, made_event_at_place};
    ghost use Rattle.ga_journal.specs.Logs.{AreHistoriesOfSomeLog, AreEventsSinceStep};

    /// The events of the history that touch a node, in order, each with its step numbers and outcome.
    ///
    /// # Errors
    /// `Memory` alone.
    pub(crate) fn history(&self, node: NodeId) -> Result<Vec<MadeEvent>, JournalFault>
        requires { AreHistoriesOfSomeLog self.now.histories self.now.made }
        ensures ok { IfOk result (λ list. list.items ≡ made_events_of_node (kept_events_with_outcomes self.now) node.number) }
        ensures err { IfErr result (λ fault. fault ≡ JournalFault.Memory) }
    {
        self.histories.mades(node)
    }

    /// The event at a place of those that touch a node, from 0 on; none past their end.
    pub(crate) fn made_event_of_step(&self, node: NodeId, place: u32) -> Option<MadeEvent>
        requires { AreHistoriesOfSomeLog self.now.histories self.now.made }
        ensures { result ≡ slice_get (made_events_of_node (kept_events_with_outcomes self.now) node.number) place }
    {
        self.histories.made_of(node, place)
    }

    /// What a place of a node held before its step, the one at a position from 0 on; none where the step left it, or past the node's
    /// steps.
    pub(crate) fn overwritten_value(&self, node: NodeId, at: u32, what: NodePlace) -> Option<u32>
        ensures { result ≡ overwritten_value (history self.now.histories node.number) at what }
    {
        self.histories.at(node).overwritten_value(at as usize, what)
    }

    /// Writes back to a node what its entries from the position `to` on and below `from` overwrote, those of the last entry
    /// first: to the node as it was after `from` of its steps, so that it is as it was after `to` of them.
    pub(crate) fn walk_node_back(&self, node: NodeId, now: &mut Node, from: u32, to: u32)
        requires order { to ≤ from }
        requires within { from ≤ length (history self.now.histories node.number) }
        requires can { CanRestoreEntries now.old (drop to (take from (history self.now.histories node.number))) }
        ensures { now.new ≡ node_before_entries now.old (drop to (take from (history self.now.histories node.number))) }
    {
        let history = self.histories.at(node);
        history.walk_node_back(now, from as usize, to as usize);
    }

    // The event at a place of the history, from 0 on, as a cause and as made; none past the end.
    #[inline]
    fn recalled(&self, place: u32) -> Option<(EventWithLook, MadeEvent)>
        requires { AreHistoriesOfSomeLog self.now.histories self.now.made }
        ensures event { option_map (λ (told : EventWithLook × MadeEvent). told.0.event) result ≡ slice_get (journal_events self.now) place }
        ensures made { option_map (λ (told : EventWithLook × MadeEvent). told.1) result ≡ made_event_at_place (kept_events_with_outcomes self.now) place }
        ensures past { IsNone result ↔ (length (kept_events_with_outcomes self.now) ≤ place) }
    {
        if place < self.kept {
            let back_by = self.kept - place;
            Some(self.histories.recall(self.top, self.hint, back_by))
        } else {
            None
        }
    }

    /// The event at a place of the history, from 0 on; none past the end. Walks back from the newest.
    pub(crate) fn event_at(&self, place: u32) -> Option<Event>
        requires { AreHistoriesOfSomeLog self.now.histories self.now.made }
        ensures value { result ≡ slice_get (journal_events self.now) place }
        ensures past { IsNone result ↔ (length (kept_events_with_outcomes self.now) ≤ place) }
    {
        let (cause, _) = self.recalled(place)?;
        Some(cause.event)
    }

    /// The event at a place of the history, from 0 on, with its step numbers and outcome; none past the end. Walks back from
    /// the newest.
    pub(crate) fn made_event_at(&self, place: u32) -> Option<MadeEvent>
        requires { AreHistoriesOfSomeLog self.now.histories self.now.made }
        ensures value { result ≡ made_event_at_place (kept_events_with_outcomes self.now) place }
        ensures past { IsNone result ↔ (length (kept_events_with_outcomes self.now) ≤ place) }
    {
        let (_, made) = self.recalled(place)?;
        Some(made)
    }

    /// The events at these places of the history, each above the one before, with their step numbers and outcomes. Walks back
    /// once, from the newest to the first of them, and takes memory only for the returned list.
    ///
    /// # Errors
    /// `Memory` alone.
    pub(crate) fn made_events_at(&self, places: &[u32]) -> Result<Vec<MadeEvent>, JournalFault>
        requires whole { AreHistoriesOfSomeLog self.now.histories self.now.made }
        requires rise { IsStrictlyIncreasing places.now }
        requires within { All (λ place. place < length (kept_events_with_outcomes self.now)) places.now }
        ensures ok { IfOk result (λ list. map Some list.items ≡ map (made_event_at_place (kept_events_with_outcomes self.now)) places.now) }
        ensures err { IfErr result (λ fault. fault ≡ JournalFault.Memory) }
    {
        self.histories
            .recall_all(self.top, self.hint, self.kept, places)
    }

    /// The events of the history in order, each with whether it looked.
    ///
    /// # Errors
    /// `Memory` alone.
    pub(crate) fn causes(&self) -> Result<Vec<EventWithLook>, JournalFault>
        requires { AreHistoriesOfSomeLog self.now.histories self.now.made }
        ensures ok { IfOk result (λ list. list.items ≡ journal_events_with_looks self.now) }
        ensures err { IfErr result (λ fault. fault ≡ JournalFault.Memory) }
    {
        self.histories.all_causes(self.top, self.hint, self.kept)
    }

    /// The events of the history from a node's step on, and the number of those before them. Walks back from the newest down to
    /// the step, and takes memory only for the events that it passes.
    ///
    /// # Errors
    /// `Memory` alone.
    pub(crate) fn events_with_looks_since_step(
        &self,
        from: (NodeId, u32),
        other: NodeId,
    ) -> Result<EventsFromStep, JournalFault>
        requires whole { AreHistoriesOfSomeLog self.now.histories self.now.made }
        requires counted { 0 < from.1 }
        requires stands { from.1 ≤ count_steps from.0.number (journal_events self.now) }
        ensures ok { IfOk result (λ since. AreEventsSinceStep (journal_events_with_looks self.now) from.0.number from.1 other.number
            since.causes.items since.before since.steps) }
        ensures short { IfOk result (λ since. since.before + length since.causes.items < 2 ^ 32) }
        ensures err { IfErr result (λ fault. fault ≡ JournalFault.Memory) }
    {
        self.histories
            .walk_down(self.top, self.hint, self.kept, from, other)
    }
}
