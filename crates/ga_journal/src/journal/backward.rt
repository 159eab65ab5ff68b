//! The events of the history, read one by one from the newest back.

use super::Journal;
use ga_event::MadeEvent;
use ga_grid::NodeId;
use std::marker::Model;

/// A reader of a journal's history, one event at a time from the newest back. A contract sees the journal, and how many of the
/// events are not read yet.
#[derive(Drop)]
pub struct BackwardEvents<'j> {
    journal: &'j Journal,
    // How many of the first entries of each node are not read yet.
    lengths: [u32; 144],
    // A number above the stamps of the entries that are not read yet.
    top: u64,
    hint: NodeId,
    place: u32,
}

impl<'j> Model for BackwardEvents<'j> {
    ghost use Rattle.ga_journal.specs.Histories.{BackwardEventsModel, backward_events_model_at};
    ghost use Rattle.ga_journal.specs.inner.Histories.{AreUnreadEntries};

    ghost Value = { BackwardEventsModel };

    ghost view = { λ b. backward_events_model_at b.journal.now b.place };

    ghost invariant = { λ b. AreUnreadEntries b.journal.now b.lengths b.top b.place };
}

impl<'j> BackwardEvents<'j> {
    ghost use Rattle.std.specs.Prelude.{◌≡◌, ◌-◌, ◌≤◌, ◌↔◌, length, take, Some, IfSome, IsNone};
    ghost use Rattle.ga_event.specs.Told.{count_steps, made_event_at_place};
    ghost use Rattle.ga_journal.specs.Events.{kept_events_with_outcomes, journal_events};
    ghost use Rattle.ga_journal.specs.Histories.{backward_events_model_at};

    /// The number of events that are not read yet: the place of the one that was read last.
    pub fn place(&self) -> u32
        ensures value { result ≡ self.now.place }
        ensures within { result ≤ length (kept_events_with_outcomes self.now.book) }
    {
        self.place
    }

    /// The number of steps of a node that are not read yet.
    pub fn steps(&self, node: NodeId) -> u32
        ensures { result ≡ count_steps node.number (take self.now.place (journal_events self.now.book)) }
    {
        self.lengths[node.index()]
    }

    /// Reads the newest event that is not read yet, and returns it as made; none if all are read.
    pub fn back(&mut self) -> Option<MadeEvent>
        ensures some { IfSome result (λ made. made_event_at_place (kept_events_with_outcomes self.old.book) (self.old.place - 1) ≡ Some made) }
        ensures none { IsNone result ↔ (self.old.place ≡ 0) }
        ensures left { self.new ≡ backward_events_model_at self.old.book (self.old.place - 1) }
    {
        if self.place == 0 {
            return None;
        }
        let journal = self.journal;
        let (_, made) = journal
            .histories
            .back(&mut self.lengths, &mut self.top, &mut self.hint);
        self.place -= 1;
        Some(made)
    }
}

impl Journal {
    ghost use Rattle.std.specs.Prelude.{◌≡◌, length};
    ghost use Rattle.ga_journal.specs.Events.{kept_events_with_outcomes};
    ghost use Rattle.ga_journal.specs.Logs.{AreHistoriesOfSomeLog};
    ghost use Rattle.ga_journal.specs.Histories.{backward_events_model_at};

    /// A reader of the history, which has read no event yet.
    pub(crate) fn backward_reader(&self) -> BackwardEvents<'_>
        requires { AreHistoriesOfSomeLog self.now.histories self.now.made }
        ensures { result ≡ backward_events_model_at self.now (length (kept_events_with_outcomes self.now)) }
    {
        BackwardEvents {
            journal: self,
            lengths: self.histories.lengths_of(),
            top: self.top,
            hint: self.hint,
            place: self.kept,
        }
    }
}
