//! Walks back over the history, from the newest event on, without removing anything.

ghost use Rattle.std.specs.Prelude.{◌≡◌, ◌++◌, ◌∷◌, [], false, OnOk, IfErr};

use super::Histories;
use super::bounds::{Firsts, newest};
use crate::entry::{EntryRole, Head};
use crate::fault::JournalFault;
use crate::since::EventsFromStep;
use ga_event::{Event, EventWithLook, MadeEvent, OwnEventKindWithLook};
use ga_grid::{CHIP_NODE_COUNT, NodeId};
use ga_ports::Side;
use ga_word::Word18;
use std::alloc::Global;

// The number of causes for which memory is reserved at first, so that a short walk allocates once.
const FIRST_ROOM: usize = 64;

/// A node's own event, as a cause and as made.
#[inline(always)]
fn own(node: NodeId, step: u32, deed: OwnEventKindWithLook) -> (EventWithLook, MadeEvent)
    ensures { result ≡ (record { event = Event.Own node; look = deed.look }, MadeEvent.Own node step deed.kind) }
{
    let OwnEventKindWithLook { kind, look } = deed;
    let event = Event::Own(node);
    (
        EventWithLook { event, look },
        MadeEvent::Own { node, step, kind },
    )
}

/// A pass, which looks at nothing, as a cause and as made.
#[inline(always)]
pub(super) fn passed(
    ends: (NodeId, NodeId),
    steps: (u32, u32),
    side: Side,
    word: Word18,
) -> (EventWithLook, MadeEvent)
    ensures { result ≡ (
      record { event = Event.Pass ends.0 ends.1 side; look = false },
      MadeEvent.Pass ends.0 steps.0 ends.1 steps.1 word,
    ) }
{
    let (writer, reader) = ends;
    let (writer_step, reader_step) = steps;
    let event = Event::Pass {
        writer,
        reader,
        side,
    };
    let made = MadeEvent::Pass {
        writer,
        writer_step,
        reader,
        reader_step,
        word,
    };
    (EventWithLook { event, look: false }, made)
}

impl Histories {
    ghost use Rattle.std.specs.Prelude.{◌≡◌, ◌-◌, ◌<◌, ◌≤◌, ◌^◌, ℕ, List, length, drop, slice_index, false, IfOk, IfErr, ◌+◌, [], ◌∷◌, ◌++◌, OnOk};
    ghost use Rattle.ga_journal.specs.inner.Histories.{entry_lists_of_histories, stamp_bound_of_history, cut, events_with_looks_oldest_first, AreCutHistoriesOfLog, AreCutsWithinHistories, IsCutOneEntryShorter, IsNewestLogEventAsMade, AreCutHistoriesOfOlderEvents, AreMadeEventsAtPlaces};
    ghost use Rattle.ga_journal.specs.Histories.{history};
    ghost use Rattle.ga_journal.specs.Logs.{StampedEvent, AreHistoriesOfLog, AreEventsSinceStep};
    ghost use Rattle.std.specs.List.{All};
    ghost use Rattle.std.specs.List.Sorted.{IsStrictlyIncreasing};

    /// How many entries each node has.
    pub(crate) fn lengths_of(&self) -> [u32; 144]
        requires fits { (n : ℕ) → length (history (entry_lists_of_histories self.now) n) < 2 ^ 32 }
        ensures lengths { (n : ℕ) → n < 144 → slice_index result n ≡ length (history (entry_lists_of_histories self.now) n) }
        ensures all { length result ≡ 144 }
        ensures nodes { length self.now ≡ 144 }
    {
        prove!(self.nodes.as_slice().len() == CHIP_NODE_COUNT);
        let mut lengths = [0u32; 144];
        for number in 0..144u8 {
            lengths[number as usize] = self.count(NodeId::new(number));
        }
        lengths
    }

    /// Returns the head of the last of a node's first entries, and makes them one fewer.
    #[inline(always)]
    fn back_at(&self, lengths: &mut [u32; 144], node: NodeId) -> Head
        requires fits { AreCutsWithinHistories (entry_lists_of_histories self.now) lengths.old }
        requires some { 0 < stamp_bound_of_history (history (cut (entry_lists_of_histories self.now) lengths.old) node.number) }
        ensures { IsCutOneEntryShorter (entry_lists_of_histories self.now) lengths.old node.number lengths.new result }
    {
        let history = self.at(node);
        let at = node.index();
        let len = lengths[at] - 1;
        lengths[at] = len;
        history.entry_without_old_values(len as usize)
    }

    /// Walks back over the newest event so far, and returns it.
    pub(crate) fn back(
        &self,
        lengths: &mut [u32; 144],
        top: &mut u64,
        hint: &mut NodeId,
    ) -> (EventWithLook, MadeEvent)
        requires { (log : List StampedEvent) × (0 < length log)
            × AreCutHistoriesOfLog (entry_lists_of_histories self.now) lengths.old top.old log }
        ensures first { (log : List StampedEvent) →
            AreCutHistoriesOfLog (entry_lists_of_histories self.now) lengths.old top.old log → IsNewestLogEventAsMade log result.0 result.1 }
        ensures left { (log : List StampedEvent) →
            AreCutHistoriesOfLog (entry_lists_of_histories self.now) lengths.old top.old log →
            AreCutHistoriesOfOlderEvents (entry_lists_of_histories self.now) lengths.new top.new log }
        ensures size { length lengths.new ≡ 144 }
    {
        let firsts = Firsts {
            histories: self,
            lengths,
        };
        let node = newest(&firsts, *top, *hint);
        let step = lengths[node.index()];
        let entry = self.back_at(lengths, node);
        *top = entry.stamp;
        *hint = entry.before;
        let Head { act, .. } = entry;
        match act {
            EntryRole::Own(deed) => own(node, step, deed),
            EntryRole::SentWord { to, side, word, .. } => {
                let reader_step = lengths[to.index()];
                let _other = self.back_at(lengths, to);
                passed((node, to), (step, reader_step), side, word)
            }
            EntryRole::TookWord {
                from,
                side,
                word,
                ..
            } => {
                let writer_step = lengths[from.index()];
                let _other = self.back_at(lengths, from);
                passed((from, node), (writer_step, step), side, word)
            }
        }
    }

    /// Walks back over `count` events, and returns the last of them.
    fn back_over(
        &self,
        lengths: &mut [u32; 144],
        top: &mut u64,
        hint: &mut NodeId,
        count: u32,
    ) -> (EventWithLook, MadeEvent)
        requires some { 0 < count }
        requires walk { (log : List StampedEvent) × (count ≤ length log)
            × AreCutHistoriesOfLog (entry_lists_of_histories self.now) lengths.old top.old log }
        ensures first { (log : List StampedEvent) → count ≤ length log →
            AreCutHistoriesOfLog (entry_lists_of_histories self.now) lengths.old top.old log →
            IsNewestLogEventAsMade (drop (count - 1) log) result.0 result.1 }
        ensures left { (log : List StampedEvent) → count ≤ length log →
            AreCutHistoriesOfLog (entry_lists_of_histories self.now) lengths.old top.old log →
            AreCutHistoriesOfLog (entry_lists_of_histories self.now) lengths.new top.new (drop count log) }
        ensures size { length lengths.new ≡ 144 }
    {
        for _ in 1..count {
            self.back(lengths, top, hint);
        }
        self.back(lengths, top, hint)
    }

    /// The event number `back_by` from the newest one on, counted from 1.
    pub(crate) fn recall(&self, top: u64, hint: NodeId, back_by: u32) -> (EventWithLook, MadeEvent)
        requires fits { (n : ℕ) → length (history (entry_lists_of_histories self.now) n) < 2 ^ 32 }
        requires some { 0 < back_by }
        requires walk { (log : List StampedEvent) × (back_by ≤ length log)
            × AreHistoriesOfLog log (entry_lists_of_histories self.now) top }
        ensures { (log : List StampedEvent) → back_by ≤ length log →
            AreHistoriesOfLog log (entry_lists_of_histories self.now) top →
            IsNewestLogEventAsMade (drop (back_by - 1) log) result.0 result.1 }
    {
        let mut lengths = self.lengths_of();
        let mut top = top;
        let mut hint = hint;
        self.back_over(&mut lengths, &mut top, &mut hint, back_by)
    }

    /// The events at these places of a log of this length, the oldest at place 0, in one walk back.
    pub(crate) fn recall_all(
        &self,
        top: u64,
        hint: NodeId,
        kept: u32,
        places: &[u32],
    ) -> Result<Vec<MadeEvent>, JournalFault>
        requires fits { (n : ℕ) → length (history (entry_lists_of_histories self.now) n) < 2 ^ 32 }
        requires walk { (log : List StampedEvent) × (kept ≡ length log) × AreHistoriesOfLog log (entry_lists_of_histories self.now) top }
        requires rise { IsStrictlyIncreasing places.now }
        requires within { All (λ place. place < kept) places.now }
        ensures ok { IfOk result (λ list. (log : List StampedEvent) → kept ≡ length log →
            AreHistoriesOfLog log (entry_lists_of_histories self.now) top → AreMadeEventsAtPlaces log places.now list.items) }
        ensures err { IfErr result (λ fault. fault ≡ JournalFault.Memory) }
    {
        let mut list = Vec::new(self.alloc());
        if list.reserve(places.len()).is_err() {
            return Err(JournalFault::Memory);
        }
        let mut lengths = self.lengths_of();
        let mut top = top;
        let mut hint = hint;
        let mut left = kept;
        let mut at = places.len();
        while at > 0 {
            at -= 1;
            let place = places[at];
            let (_, made) = self.back_over(&mut lengths, &mut top, &mut hint, left - place);
            list.push_reserved(made);
            left = place;
        }
        list.reverse();
        Ok(list)
    }

    /// The events of a log of this length, in order, each with whether it looked.
    pub(crate) fn all_causes(
        &self,
        top: u64,
        hint: NodeId,
        kept: u32,
    ) -> Result<Vec<EventWithLook>, JournalFault>
        requires fits { (n : ℕ) → length (history (entry_lists_of_histories self.now) n) < 2 ^ 32 }
        requires walk { (log : List StampedEvent) × (kept ≡ length log) × AreHistoriesOfLog log (entry_lists_of_histories self.now) top }
        ensures ok { IfOk result (λ list. (log : List StampedEvent) → kept ≡ length log →
            AreHistoriesOfLog log (entry_lists_of_histories self.now) top → list.items ≡ events_with_looks_oldest_first log) }
        ensures err { IfErr result (λ fault. fault ≡ JournalFault.Memory) }
    {
        let mut list = Vec::new(self.alloc());
        if list.reserve(kept as usize).is_err() {
            return Err(JournalFault::Memory);
        }
        let mut lengths = self.lengths_of();
        let mut top = top;
        let mut hint = hint;
        for _ in 0..kept {
            let (cause, _) = self.back(&mut lengths, &mut top, &mut hint);
            list.push_reserved(cause);
        }
        list.reverse();
        Ok(list)
    }

    /// Walks back over a log of this length, down to a step that exists, and returns the events that it passed.
    pub(crate) fn walk_down(
        &self,
        top: u64,
        hint: NodeId,
        kept: u32,
        from: (NodeId, u32),
        other: NodeId,
    ) -> Result<EventsFromStep, JournalFault>
        requires fits { (n : ℕ) → length (history (entry_lists_of_histories self.now) n) < 2 ^ 32 }
        requires walk { (log : List StampedEvent) × (kept ≡ length log) × AreHistoriesOfLog log (entry_lists_of_histories self.now) top }
        requires counted { 0 < from.1 }
        requires stands { from.1 ≤ length (history (entry_lists_of_histories self.now) from.0.number) }
        ensures ok { IfOk result (λ since. (log : List StampedEvent) → kept ≡ length log →
            AreHistoriesOfLog log (entry_lists_of_histories self.now) top →
            AreEventsSinceStep (events_with_looks_oldest_first log) from.0.number from.1 other.number since.causes.items since.before since.steps) }
        ensures short { IfOk result (λ since. since.before + length since.causes.items ≡ kept) }
        ensures err { IfErr result (λ fault. fault ≡ JournalFault.Memory) }
    {
        let at = from.0.index();
        let mut causes = Vec::new(self.alloc());
        if causes.reserve(FIRST_ROOM).is_err() {
            return Err(JournalFault::Memory);
        }
        let mut lengths = self.lengths_of();
        let mut top = top;
        let mut hint = hint;
        let mut before = kept;
        while lengths[at] >= from.1 {
            let (cause, _) = self.back(&mut lengths, &mut top, &mut hint);
            if causes.push(cause).is_err() {
                return Err(JournalFault::Memory);
            }
            before -= 1;
        }
        causes.reverse();
        let steps = lengths[other.index()];
        Ok(EventsFromStep {
            causes,
            before,
            steps,
        })
    }
}
