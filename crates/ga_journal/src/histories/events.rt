//! Events that are added to the histories, and taken out of them.

ghost use Rattle.std.specs.Prelude.{◌≡◌};
ghost use Rattle.ga_event.specs.Undo.{effect_of_own_event};

use super::Histories;
use super::recall::passed;
use crate::entry::{EntryRole, Pass, Role, Taken};
use ga_event::{Effect, Event, MadeEvent, OwnEventKindWithLook, apply_pass};
use ga_grid::{Chip, NodeId};
use ga_node::Saved;
use ga_ports::Side;
use ga_word::Word18;

/// A node that the event touches.
#[inline(always)]
pub(crate) fn node_of(event: Event) -> NodeId {
    match event {
        Event::Own(node) => node,
        Event::Pass { writer, .. } => writer,
    }
}

/// What a node's own event did, with the old values.
fn effect_of(deed: OwnEventKindWithLook, saved: Saved) -> Effect
    ensures { result ≡ effect_of_own_event deed saved }
{
    if deed.look {
        Effect::Look(deed.kind, saved)
    } else {
        Effect::Own(deed.kind, saved)
    }
}

/// A pass from the first of the nodes to the other, with what it did: the old values of both.
#[inline(always)]
fn pass_with(
    ends: (NodeId, NodeId),
    side: Side,
    word: Word18,
    saved: (Saved, Saved),
) -> (Event, Effect)
    ensures { result ≡ (Event.Pass ends.0 ends.1 side, Effect.Pass word saved.0 saved.1) }
{
    let (writer, reader) = ends;
    let (sent, taken) = saved;
    let event = Event::Pass {
        writer,
        reader,
        side,
    };
    let effect = Effect::Pass {
        word,
        writer: sent,
        reader: taken,
    };
    (event, effect)
}

impl Histories {
    ghost use Rattle.std.specs.Prelude.{◌≡◌, ◌≢◌, ◌+◌, ◌<◌, ◌^◌, List, ◌∷◌, [], ◌++◌, ℕ, length, slice_set, true, None};
    ghost use Rattle.ga_node.specs.Record.{record_of_node};
    ghost use Rattle.ga_node.specs.Table.{refusal_of_own_event};
    ghost use Rattle.ga_grid.specs.Chip.{records_of_chip, node_record_at, node_at};
    ghost use Rattle.ga_event.specs.Apply.{event_refusal, is_transfer_ready};
    ghost use Rattle.ga_event.specs.Undo.{IsEffectOfEventKind, effect_of_own_event};
    ghost use Rattle.ga_journal.specs.Histories.{new_entry_record, has_entry_capacity, has_pass_capacity, HasEventCapacity, history, histories_with_entry, histories_with_event};
    ghost use Rattle.ga_journal.specs.inner.Histories.{entry_record_of_taken, entry_lists_of_histories, capacities_of_histories, stamp_bound_of_history, IsNodeOfNewestEntry, IsNewestEventUndoneInHistories};
    ghost use Rattle.ga_journal.specs.Logs.{StampedEvent, AreHistoriesOfLog, AreHistoriesOfSomeLog};
    ghost use Rattle.ga_journal.specs.Popped.{IsNewestLogEvent, HasUndoableNewestEvent};
    ghost use Rattle.ga_journal.specs.inner.Stored.{entry_role_of_pass_end};
    ghost use Rattle.ga_journal.specs.inner.Ends.{CanWriteBackLastEntry, IsLastEntryWrittenBack, IsEventMadeInHistories};

    /// Adds an own event to one history.
    #[inline(always)]
    fn push_own_entry(
        &mut self,
        node: NodeId,
        stamp: u64,
        deed: OwnEventKindWithLook,
        saved: Saved,
        before: NodeId,
    )
        requires room { has_entry_capacity (capacities_of_histories self.old) node.number }
        requires fits { length (history (entry_lists_of_histories self.old) node.number) + 1 < 2 ^ 32 }
        ensures after { entry_lists_of_histories self.new
            ≡ histories_with_entry (entry_lists_of_histories self.old) node.number (new_entry_record stamp (EntryRole.Own deed) saved) }
        ensures size { length self.new ≡ 144 }
    {
        let history = self.at_mut(node);
        history.push_own_entry(stamp, deed, saved, before);
    }

    /// Adds an end of a pass to one history.
    fn push_end(
        &mut self,
        node: NodeId,
        stamp: u64,
        role: Role,
        pass: Pass,
        saved: Saved,
        before: NodeId,
    )
        requires room { has_pass_capacity (capacities_of_histories self.old) node.number }
        requires fits { length (history (entry_lists_of_histories self.old) node.number) < 2 ^ 32 }
        ensures after { entry_lists_of_histories self.new
            ≡ histories_with_entry (entry_lists_of_histories self.old) node.number (new_entry_record stamp (entry_role_of_pass_end role pass) saved) }
        ensures others { (n : ℕ) → n ≢ node.number →
            has_pass_capacity (capacities_of_histories self.old) n → has_pass_capacity (capacities_of_histories self.new) n }
        ensures size { length self.new ≡ 144 }
    {
        let history = self.at_mut(node);
        history.push_pass_entry(stamp, role, pass, saved, before);
    }

    /// Takes the last entry of a history out.
    #[inline(always)]
    fn take_last(&mut self, node: NodeId) -> Taken
        requires { 0 < stamp_bound_of_history (history (entry_lists_of_histories self.old) node.number) }
        ensures last { history (entry_lists_of_histories self.old) node.number
            ≡ history (entry_lists_of_histories self.new) node.number ++ entry_record_of_taken result ∷ [] }
        ensures others { entry_lists_of_histories self.new
            ≡ slice_set (entry_lists_of_histories self.old) node.number (history (entry_lists_of_histories self.new) node.number) }
        ensures size { length self.new ≡ 144 }
    {
        let history = self.at_mut(node);
        history.pop()
    }

    /// Writes the values of a node's last entry back, and takes the entry out.
    #[inline(always)]
    pub(crate) fn undo_last_entry(&mut self, chip: &mut Chip, node: NodeId) -> EntryRole
        requires some { 0 < stamp_bound_of_history (history (entry_lists_of_histories self.old) node.number) }
        requires can { CanWriteBackLastEntry (history (entry_lists_of_histories self.old) node.number) chip.old node.number }
        ensures back { IsLastEntryWrittenBack (history (entry_lists_of_histories self.old) node.number) chip.old node.number
            (history (entry_lists_of_histories self.new) node.number) chip.new result }
        ensures others { entry_lists_of_histories self.new
            ≡ slice_set (entry_lists_of_histories self.old) node.number (history (entry_lists_of_histories self.new) node.number) }
        ensures size { length self.new ≡ 144 }
    {
        let history = self.at_mut(node);
        history.undo_last_entry(chip, node)
    }

    /// Takes the newest event out, in which the node had a part.
    pub(crate) fn take_event(&mut self, node: NodeId) -> (Event, Effect)
        requires topmost { IsNodeOfNewestEntry (entry_lists_of_histories self.old) node.number }
        requires whole { (made : ℕ) × AreHistoriesOfSomeLog (entry_lists_of_histories self.old) made }
        ensures size { length self.new ≡ 144 }
        ensures newest { (log : List StampedEvent) (made : ℕ) → AreHistoriesOfLog log (entry_lists_of_histories self.old) made →
            IsNewestLogEvent log result.0 result.1 (entry_lists_of_histories self.new) }
    {
        let Taken { act, saved, .. } = self.take_last(node);
        match act {
            EntryRole::Own(deed) => (Event::Own(node), effect_of(deed, saved)),
            EntryRole::SentWord { to, side, word, .. } => {
                let other = self.take_last(to);
                pass_with((node, to), side, word, (saved, other.saved))
            }
            EntryRole::TookWord {
                from,
                side,
                word,
                ..
            } => {
                let other = self.take_last(from);
                pass_with((from, node), side, word, (other.saved, saved))
            }
        }
    }

    /// Adds the two entries of a pass.
    fn push_pass_entry(
        &mut self,
        stamp: u64,
        ends: (NodeId, NodeId),
        side: Side,
        word: Word18,
        saved: (Saved, Saved),
        before: NodeId,
    )
        requires room { HasEventCapacity (capacities_of_histories self.old) (Event.Pass ends.0 ends.1 side) }
        requires two { ends.0.number ≢ ends.1.number }
        requires fits { (n : ℕ) → length (history (entry_lists_of_histories self.old) n) < 2 ^ 32 }
        ensures after { entry_lists_of_histories self.new ≡ histories_with_event (entry_lists_of_histories self.old) stamp
            (Event.Pass ends.0 ends.1 side) (Effect.Pass word saved.0 saved.1) }
        ensures size { length self.new ≡ 144 }
    {
        let (writer, reader) = ends;
        let (sent, taken) = saved;
        let here = Pass {
            partner: reader,
            side,
            at: self.count(reader),
            looked: 0,
            word,
        };
        let there = Pass {
            partner: writer,
            side,
            at: self.count(writer),
            looked: 0,
            word,
        };
        self.push_end(writer, stamp, Role::Writer, here, sent, before);
        self.push_end(reader, stamp, Role::Reader, there, taken, before);
    }

    /// Adds the entries of an event.
    #[inline(always)]
    pub(crate) fn push_event(&mut self, stamp: u64, event: Event, effect: Effect, before: NodeId)
        requires room { HasEventCapacity (capacities_of_histories self.old) event }
        requires of_kind { IsEffectOfEventKind event effect }
        requires fits { (n : ℕ) → length (history (entry_lists_of_histories self.old) n) + 1 < 2 ^ 32 }
        ensures after { entry_lists_of_histories self.new ≡ histories_with_event (entry_lists_of_histories self.old) stamp event effect }
        ensures size { length self.new ≡ 144 }
    {
        match event {
            Event::Own(node) => match effect {
                Effect::Own(kind, saved) => {
                    let deed = OwnEventKindWithLook { kind, look: false };
                    self.push_own_entry(node, stamp, deed, saved, before);
                }
                Effect::Look(kind, saved) => {
                    let deed = OwnEventKindWithLook { kind, look: true };
                    self.push_own_entry(node, stamp, deed, saved, before);
                }
                Effect::Pass { .. } => unreachable!(),
            },
            Event::Pass {
                writer,
                reader,
                side,
            } => match effect {
                Effect::Own(..) => unreachable!(),
                Effect::Look(..) => unreachable!(),
                Effect::Pass {
                    word,
                    writer: sent,
                    reader: taken,
                } => self.push_pass_entry(
                    stamp,
                    (writer, reader),
                    side,
                    word,
                    (sent, taken),
                    before,
                ),
            },
        }
    }

    /// Makes an own event on the chip, with its entry.
    #[inline(always)]
    fn make_own_event(
        &mut self,
        chip: &mut Chip,
        node: NodeId,
        stamp: u64,
        before: NodeId,
    ) -> MadeEvent
        requires ready { refusal_of_own_event (record_of_node (node_at chip.old node.number)) ≡ None }
        requires room { has_entry_capacity (capacities_of_histories self.old) node.number }
        requires fits { length (history (entry_lists_of_histories self.old) node.number) + 1 < 2 ^ 32 }
        ensures added { IsEventMadeInHistories (entry_lists_of_histories self.old) chip.old stamp (Event.Own node) result
            (entry_lists_of_histories self.new) chip.new }
        ensures size { length self.new ≡ 144 }
    {
        let step = self.count(node) + 1;
        let history = self.at_mut(node);
        let deed = history.make_own_event(chip, node, stamp, before);
        MadeEvent::Own {
            node,
            step,
            kind: deed.kind,
        }
    }

    /// Makes a pass on the chip, with its two entries.
    fn make_pass(
        &mut self,
        chip: &mut Chip,
        ends: (NodeId, NodeId),
        side: Side,
        stamp: u64,
        before: NodeId,
    ) -> MadeEvent
        requires open { is_transfer_ready ends.0.number ends.1.number side
            (node_record_at (records_of_chip chip.old) ends.0.number).wait
            (node_record_at (records_of_chip chip.old) ends.1.number).wait ≡ true }
        requires room { HasEventCapacity (capacities_of_histories self.old) (Event.Pass ends.0 ends.1 side) }
        requires fits { (n : ℕ) → length (history (entry_lists_of_histories self.old) n) + 1 < 2 ^ 32 }
        ensures added { IsEventMadeInHistories (entry_lists_of_histories self.old) chip.old stamp
            (Event.Pass ends.0 ends.1 side) result (entry_lists_of_histories self.new) chip.new }
        ensures size { length self.new ≡ 144 }
    {
        let (writer, reader) = ends;
        let steps = (self.count(writer) + 1, self.count(reader) + 1);
        let mut sent = Saved::new();
        let mut taken = Saved::new();
        let word = apply_pass(chip, writer, reader, side, &mut sent, &mut taken);
        self.push_pass_entry(stamp, ends, side, word, (sent, taken), before);
        let (_, made) = passed(ends, steps, side, word);
        made
    }

    /// Makes an event on the chip, with its entries.
    #[inline(always)]
    pub(crate) fn make_event(
        &mut self,
        chip: &mut Chip,
        event: Event,
        stamp: u64,
        before: NodeId,
    ) -> MadeEvent
        requires can { event_refusal (records_of_chip chip.old) event ≡ None }
        requires room { HasEventCapacity (capacities_of_histories self.old) event }
        requires fits { (n : ℕ) → length (history (entry_lists_of_histories self.old) n) + 1 < 2 ^ 32 }
        ensures added { IsEventMadeInHistories (entry_lists_of_histories self.old) chip.old stamp event result
            (entry_lists_of_histories self.new) chip.new }
        ensures size { length self.new ≡ 144 }
    {
        match event {
            Event::Own(node) => self.make_own_event(chip, node, stamp, before),
            Event::Pass {
                writer,
                reader,
                side,
            } => self.make_pass(chip, (writer, reader), side, stamp, before),
        }
    }

    /// Takes the newest event back on the chip, in which the node had a part, and its entries out.
    pub(crate) fn undo_event(&mut self, chip: &mut Chip, node: NodeId) -> Event
        requires topmost { IsNodeOfNewestEntry (entry_lists_of_histories self.old) node.number }
        requires back { (made : ℕ) × HasUndoableNewestEvent chip.old (entry_lists_of_histories self.old) made }
        ensures size { length self.new ≡ 144 }
        ensures state_after_undo { IsNewestEventUndoneInHistories (entry_lists_of_histories self.old) chip.old result (entry_lists_of_histories self.new) chip.new }
    {
        match self.undo_last_entry(chip, node) {
            EntryRole::Own(_) => Event::Own(node),
            EntryRole::SentWord { to, side, .. } => {
                let _ = self.undo_last_entry(chip, to);
                Event::Pass {
                    writer: node,
                    reader: to,
                    side,
                }
            }
            EntryRole::TookWord { from, side, .. } => {
                let _ = self.undo_last_entry(chip, from);
                Event::Pass {
                    writer: from,
                    reader: node,
                    side,
                }
            }
        }
    }
}
