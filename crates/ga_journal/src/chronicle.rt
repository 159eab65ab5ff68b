//! A journal whose events are also read as a list.

use crate::fault::JournalFault;
use crate::journal::{BackwardEvents, Journal};
use crate::since::EventsFromStep;
use ga_event::{Event, EventWithLook, MadeEvent};
use ga_grid::NodeId;
use ga_node::{Node, NodePlace};

/// A journal whose events are also read as a list. These calls read entries that no tick counts; code that gets a reference to
/// the journal only, as a rollback does, can neither make them nor reset the count.
#[derive(Drop)]
pub struct OrderedJournal {
    pub journal: Journal,
}

impl OrderedJournal {
    ghost use Rattle.std.specs.Prelude.{◌≡◌, ◌<◌, ◌≤◌, ◌+◌, ◌^◌, ◌↔◌, length, map, take, drop, Some, IfOk, IfErr, IsNone};
    ghost use Rattle.std.specs.List.{slice_get, All};
    ghost use Rattle.std.specs.List.Sorted.{IsStrictlyIncreasing};
    ghost use Rattle.ga_journal.specs.Histories.{no_rollback_work, history, backward_events_model_at};
    ghost use Rattle.ga_journal.specs.Walked.{node_before_entries, CanRestoreEntries, overwritten_value};
    ghost use Rattle.ga_journal.specs.Events.{kept_events_with_outcomes, journal_events_with_looks, journal_events};
    ghost use Rattle.ga_event.specs.Told.{count_steps, made_events_of_node, made_event_at_place};
    ghost use Rattle.ga_journal.specs.Logs.{AreEventsSinceStep, AreHistoriesOfSomeLog};

    /// The events of the history that touch a node, in order, each with its step numbers and outcome.
    ///
    /// # Errors
    /// `Memory` alone.
    pub fn history(&self, node: NodeId) -> Result<Vec<MadeEvent>, JournalFault>
        requires { AreHistoriesOfSomeLog self.now.journal.histories self.now.journal.made }
        ensures ok { IfOk result (λ list. list.items ≡ made_events_of_node (kept_events_with_outcomes self.now.journal) node.number) }
        ensures err { IfErr result (λ fault. fault ≡ JournalFault.Memory) }
    {
        self.journal.history(node)
    }

    /// The event at a place of those of the history that touch a node, from 0 on; none past their end.
    pub fn made_event_of_step(&self, node: NodeId, place: u32) -> Option<MadeEvent>
        requires { AreHistoriesOfSomeLog self.now.journal.histories self.now.journal.made }
        ensures { result ≡ slice_get (made_events_of_node (kept_events_with_outcomes self.now.journal) node.number) place }
    {
        self.journal.made_event_of_step(node, place)
    }

    /// What a place of a node held before its step, the one at a position from 0 on: P, A, B, the wait or a cell of RAM. None where the
    /// step left it, past the node's steps, and for each other place. It reads one entry.
    pub fn overwritten_value(&self, node: NodeId, at: u32, what: NodePlace) -> Option<u32>
        ensures { result ≡ overwritten_value (history self.now.journal.histories node.number) at what }
    {
        self.journal.overwritten_value(node, at, what)
    }

    /// Writes back to a node what its entries from the position `to` on and below `from` overwrote, those of the last entry
    /// first: to the node as it was after `from` of its steps, so that it is as it was after `to` of them.
    pub fn walk_node_back(&self, node: NodeId, now: &mut Node, from: u32, to: u32)
        requires order { to ≤ from }
        requires within { from ≤ length (history self.now.journal.histories node.number) }
        requires can { CanRestoreEntries now.old (drop to (take from (history self.now.journal.histories node.number))) }
        ensures { now.new ≡ node_before_entries now.old (drop to (take from (history self.now.journal.histories node.number))) }
    {
        self.journal.walk_node_back(node, now, from, to);
    }

    /// The event at a place of the history, from 0 on; none past the end. Walks back from the newest.
    pub fn event_at(&self, place: u32) -> Option<Event>
        requires { AreHistoriesOfSomeLog self.now.journal.histories self.now.journal.made }
        ensures value { result ≡ slice_get (journal_events self.now.journal) place }
        ensures past { IsNone result ↔ (length (kept_events_with_outcomes self.now.journal) ≤ place) }
    {
        self.journal.event_at(place)
    }

    /// The event at a place of the history, from 0 on, with its step numbers and outcome; none past the end. Walks back from
    /// the newest.
    pub fn made_event_at(&self, place: u32) -> Option<MadeEvent>
        requires { AreHistoriesOfSomeLog self.now.journal.histories self.now.journal.made }
        ensures value { result ≡ made_event_at_place (kept_events_with_outcomes self.now.journal) place }
        ensures past { IsNone result ↔ (length (kept_events_with_outcomes self.now.journal) ≤ place) }
    {
        self.journal.made_event_at(place)
    }

    /// The events at these places of the history, each above the one before, with their step numbers and outcomes. Walks back
    /// once, from the newest to the first of them, and takes memory only for the returned list.
    ///
    /// # Errors
    /// `Memory` alone.
    pub fn made_events_at(&self, places: &[u32]) -> Result<Vec<MadeEvent>, JournalFault>
        requires whole { AreHistoriesOfSomeLog self.now.journal.histories self.now.journal.made }
        requires rise { IsStrictlyIncreasing places.now }
        requires within { All (λ place. place < length (kept_events_with_outcomes self.now.journal)) places.now }
        ensures ok { IfOk result (λ list. map Some list.items ≡ map (made_event_at_place (kept_events_with_outcomes self.now.journal)) places.now) }
        ensures err { IfErr result (λ fault. fault ≡ JournalFault.Memory) }
    {
        self.journal.made_events_at(places)
    }

    /// A reader of the history from the newest event back, which has read none yet.
    pub fn backward_reader(&self) -> BackwardEvents<'_>
        requires { AreHistoriesOfSomeLog self.now.journal.histories self.now.journal.made }
        ensures { result ≡ backward_events_model_at self.now.journal (length (kept_events_with_outcomes self.now.journal)) }
    {
        self.journal.backward_reader()
    }

    /// The events of the history in order, each with whether it looked.
    ///
    /// # Errors
    /// `Memory` alone.
    pub fn causes(&self) -> Result<Vec<EventWithLook>, JournalFault>
        requires { AreHistoriesOfSomeLog self.now.journal.histories self.now.journal.made }
        ensures ok { IfOk result (λ list. list.items ≡ journal_events_with_looks self.now.journal) }
        ensures err { IfErr result (λ fault. fault ≡ JournalFault.Memory) }
    {
        self.journal.causes()
    }

    /// The events of the history from a node's step on, and the number of those before them. Walks back from the newest down to
    /// the step, and takes memory only for the events that it passes.
    ///
    /// # Errors
    /// `Memory` alone.
    pub fn events_with_looks_since_step(
        &self,
        from: (NodeId, u32),
        other: NodeId,
    ) -> Result<EventsFromStep, JournalFault>
        requires whole { AreHistoriesOfSomeLog self.now.journal.histories self.now.journal.made }
        requires counted { 0 < from.1 }
        requires stands { from.1 ≤ count_steps from.0.number (journal_events self.now.journal) }
        ensures ok { IfOk result (λ since. AreEventsSinceStep (journal_events_with_looks self.now.journal) from.0.number from.1 other.number
            since.causes.items since.before since.steps) }
        ensures short { IfOk result (λ since. since.before + length since.causes.items < 2 ^ 32) }
        ensures err { IfErr result (λ fault. fault ≡ JournalFault.Memory) }
    {
        self.journal.events_with_looks_since_step(from, other)
    }

    /// Counts ticks from 0 on again.
    pub fn reset_ticks(&mut self)
        ensures { self.new.journal ≡ record self.old.journal { ticks = no_rollback_work } }
    {
        self.journal.reset_ticks();
    }
}
