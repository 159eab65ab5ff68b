//! The history of one node.

ghost use Rattle.std.specs.Prelude.{◌≡◌, ◌+◌, ◌<◌, ◌≤◌, ◌^◌, length};
ghost use Rattle.ga_journal.specs.inner.Stored.{part_of_own_outcome, entry_role_of_part, newest_look_end_before, newest_look_end_after, count_passes_of_part, NamesPassBelow, IsPassOfPartDropped};

use crate::entry::{Entry, EntryRole, Head, Part, Pass, Role, Taken};
use crate::fault::JournalFault;
use ga_event::{OwnEventKindWithLook, apply_own_event, restore_node_values};
use ga_grid::{Chip, NodeId};
use ga_node::{Node, OwnEventKind, Saved};
use std::alloc::Global;
use std::marker::Model;

mod overwritten_value;
mod walking;

/// This number of entries takes more than 128 KiB: C's memory gives a list of that size pages of its own, which grow without a
/// copy.
const MAPPED: usize = 2816;

/// The entries of one node, the oldest first. The passes among them are in a list of their own, so that an own event takes no
/// more memory than it needs.
#[derive(Drop)]
pub(crate) struct History {
    entries: Vec<Entry>,
    // One past the position of the newest look, 0 for none. It is next to the other fields that an own event reads.
    looked: u32,
    passes: Vec<Pass>,
}

impl Model for History {
    ghost use Rattle.ga_journal.specs.inner.Histories.{HeldNodeHistory};

    ghost Value = { HeldNodeHistory };

    ghost use Rattle.ga_journal.specs.inner.Stored.{held_history_of_vecs, IsStoredNodeHistory};

    ghost view = { λ h. held_history_of_vecs h.entries h.passes };

    ghost invariant = { λ h. IsStoredNodeHistory h.entries.items h.passes.items h.looked };
}

/// A node's part in an event, with the pass at a place of the list.
#[inline(always)]
fn act_of(passes: &Vec<Pass>, part: Part, place: u32) -> EntryRole
    requires { NamesPassBelow part place (length passes.now.items) }
    ensures { result ≡ entry_role_of_part passes.now.items part place }
{
    match part {
        Part::Own(kind) => EntryRole::Own(OwnEventKindWithLook { kind, look: false }),
        Part::Look(kind) => EntryRole::Own(OwnEventKindWithLook { kind, look: true }),
        Part::Passed(role) => {
            let Pass {
                partner,
                side,
                at,
                word,
                ..
            } = passes[place as usize];
            match role {
                Role::Writer => EntryRole::SentWord {
                    to: partner,
                    side,
                    at,
                    word,
                },
                Role::Reader => EntryRole::TookWord {
                    from: partner,
                    side,
                    at,
                    word,
                },
            }
        }
    }
}

/// One past the position of the newest look before an entry, whose pass, if it is an end of one, is at a place of the list.
#[inline(always)]
fn looked_before(passes: &Vec<Pass>, part: Part, place: u32) -> u32
    requires { NamesPassBelow part place (length passes.now.items) }
    ensures { result ≡ newest_look_end_before passes.now.items part place }
{
    match part {
        Part::Own(_) => place,
        Part::Look(_) => place,
        Part::Passed(_) => passes[place as usize].looked,
    }
}

/// The part of a node in its own event.
#[inline(always)]
fn part_of(deed: OwnEventKindWithLook) -> Part
    ensures { result ≡ part_of_own_outcome deed }
{
    if deed.look {
        Part::Look(deed.kind)
    } else {
        Part::Own(deed.kind)
    }
}

/// One past the position of the newest look after an entry at this position.
#[inline(always)]
fn looked_with(looked: u32, at: usize, part: Part) -> u32
    requires { at + 1 < 2 ^ 32 }
    ensures { result ≡ newest_look_end_after looked at part }
{
    match part {
        Part::Own(_) => looked,
        Part::Look(_) => at as u32 + 1,
        Part::Passed(_) => looked,
    }
}

/// Where a node's own event at this position is a look, it is the newest one from now on.
#[inline(always)]
fn note_look(looked: &mut u32, at: usize, deed: OwnEventKindWithLook)
    requires { at + 1 < 2 ^ 32 }
    ensures { looked.new ≡ newest_look_end_after looked.old at (part_of_own_outcome deed) }
{
    if deed.look {
        *looked = at as u32 + 1;
    }
}

/// Takes the last pass out, where the part is an end of one.
#[inline(always)]
fn drop_pass(passes: &mut Vec<Pass>, part: Part)
    requires { count_passes_of_part part ≤ length passes.old.items }
    ensures { IsPassOfPartDropped part passes.old.items passes.new.items }
{
    match part {
        Part::Own(_) => {}
        Part::Look(_) => {}
        Part::Passed(_) => {
            let _ = passes.pop();
        }
    }
}

impl History {
    ghost use Rattle.std.specs.Prelude.{◌≡◌, ◌+◌, ◌<◌, ◌^◌, ◌++◌, ◌∷◌, [], length, IsTrue, OnOk, OnErr, IfErr, IfSome, IfNone, None, take, drop};
    ghost use Rattle.std.specs.Bool.{OnTrue, OnFalse};
    ghost use Rattle.ga_journal.specs.Walked.{node_before_entries, CanRestoreEntries};
    ghost use Rattle.ga_node.specs.Record.{record_of_node};
    ghost use Rattle.ga_node.specs.Table.{refusal_of_own_event};
    ghost use Rattle.ga_grid.specs.Chip.{node_at};
    ghost use Rattle.ga_journal.specs.Histories.{new_entry_record};
    ghost use Rattle.ga_journal.specs.inner.Histories.{entry_record_of_taken, stamp_bound_of_history, IsPastNewestLook};
    ghost use Rattle.ga_journal.specs.inner.Stored.{entry_role_of_pass_end};
    ghost use Rattle.ga_journal.specs.inner.Ends.{IsHeadOfEntryAt, IsOwnEventMadeInHistory, CanWriteBackLastEntry, IsLastEntryWrittenBack};
    ghost use Rattle.ga_journal.specs.Looks.{HasLookEntry, HasNoLookEntry, IsNewestLookBeforeMark};

    /// A history without an entry.
    #[inline(always)]
    pub fn new(alloc: Global) -> Self
        ensures { result.items ≡ [] }
    {
        History {
            entries: Vec::new(alloc),
            passes: Vec::new(alloc),
            looked: 0,
        }
    }

    /// How many entries the history has.
    #[inline(always)]
    pub fn len(&self) -> usize
        ensures { result ≡ length self.now.items }
    {
        self.entries.as_slice().len()
    }

    /// The last entry's stamp, and the node that it hints at.
    #[tactic(auto, using(crate::proofs::Storing::none_bound, crate::proofs::Storing::last_bound))]
    #[inline(always)]
    pub fn last_entry_stamp(&self) -> Option<(u64, NodeId)>
        ensures some { IfSome result (λ last. last.0 + 1 ≡ stamp_bound_of_history self.now.items) }
        ensures none { IfNone result (stamp_bound_of_history self.now.items ≡ 0) }
    {
        match self.entries.last() {
            None => None,
            Some(entry) => Some((entry.stamp, entry.before)),
        }
    }

    /// The entry at a position, without its overwritten values.
    #[inline(always)]
    pub fn entry_without_old_values(&self, at: usize) -> Head
        requires { at < length self.now.items }
        ensures { IsHeadOfEntryAt self.now.items at result }
    {
        let entry = &self.entries[at];
        Head {
            stamp: entry.stamp,
            act: act_of(&self.passes, entry.part, entry.place),
            before: entry.before,
        }
    }

    /// Whether some entry is a look.
    #[inline(always)]
    pub fn has_looked(&self) -> bool
        ensures yes { OnTrue result (HasLookEntry self.now.items) }
        ensures no { OnFalse result (HasNoLookEntry self.now.items (length self.now.items)) }
    {
        self.looked != 0
    }

    /// One past the position of the newest look among the first entries, 0 where none is a look.
    fn looked_by(&self, mark: u32) -> u32
        requires { mark ≤ length self.now.items }
        ensures { IsPastNewestLook self.now.items mark result }
    {
        let at = mark as usize;
        if at == self.len() {
            return self.looked;
        }
        let entry = &self.entries[at];
        looked_before(&self.passes, entry.part, entry.place)
    }

    /// The position of the newest look among the first entries.
    #[tactic(auto, using(crate::proofs::Looking::past_none, crate::proofs::Looking::past_some))]
    pub fn newest_look(&self, mark: u32) -> Option<u32>
        requires { mark ≤ length self.now.items }
        ensures some { IfSome result (λ at. IsNewestLookBeforeMark self.now.items mark at) }
        ensures none { IfNone result (HasNoLookEntry self.now.items mark) }
    {
        let looked = self.looked_by(mark);
        if looked == 0 { None } else { Some(looked - 1) }
    }

    /// Makes the growth for an own event.
    #[inline(always)]
    pub fn reserve_own_entry(&mut self) -> Result<(), JournalFault>
        ensures same { self.new.items ≡ self.old.items }
        ensures room { OnOk result (IsTrue self.new.room.entry) }
        ensures full { OnErr result (¬ IsTrue self.old.room.entry) }
        ensures err { IfErr result (λ fault. fault ≡ JournalFault.Memory) }
    {
        if self.entries.len() < self.entries.capacity() {
            return Ok(());
        }
        self.grow_entries()
    }

    // Makes the growth for an own event where there is no room: from 16 entries to memory of its own, and then fourfold.
    #[inline(never)]
    fn grow_entries(&mut self) -> Result<(), JournalFault>
        requires { ¬ IsTrue self.old.room.entry }
        ensures same { self.new.items ≡ self.old.items }
        ensures room { OnOk result (IsTrue self.new.room.entry) }
        ensures err { IfErr result (λ fault. fault ≡ JournalFault.Memory) }
    {
        let now = self.entries.len();
        let more = if now > 0 && now < MAPPED {
            MAPPED
        } else {
            now.saturating_mul(3).saturating_add(16)
        };
        match self.entries.reserve(more) {
            Ok(()) => Ok(()),
            Err(_) => Err(JournalFault::Memory),
        }
    }

    /// Makes the growths for an end of a pass.
    pub fn reserve_pass_entry(&mut self) -> Result<(), JournalFault>
        ensures same { self.new.items ≡ self.old.items }
        ensures room { OnOk result (IsTrue self.new.room.entry) }
        ensures pass { OnOk result (IsTrue self.new.room.pass) }
        ensures full { OnErr result (¬ (IsTrue self.old.room.entry × IsTrue self.old.room.pass)) }
        ensures err { IfErr result (λ fault. fault ≡ JournalFault.Memory) }
    {
        if self.entries.reserve(1).is_err() || self.passes.reserve(1).is_err() {
            return Err(JournalFault::Memory);
        }
        Ok(())
    }

    /// Adds an own event.
    #[inline(always)]
    pub fn push_own_entry(
        &mut self,
        stamp: u64,
        deed: OwnEventKindWithLook,
        saved: Saved,
        before: NodeId,
    )
        requires room { IsTrue self.old.room.entry }
        requires fits { length self.old.items + 1 < 2 ^ 32 }
        ensures { self.new.items ≡ self.old.items ++ new_entry_record stamp (EntryRole.Own deed) saved ∷ [] }
    {
        let place = self.looked;
        let part = part_of(deed);
        self.looked = looked_with(place, self.entries.as_slice().len(), part);
        self.entries.push_reserved(Entry {
            stamp,
            place,
            part,
            before,
            saved,
        });
    }

    /// Adds an end of a pass, with the position of the newest look.
    pub fn push_pass_entry(
        &mut self,
        stamp: u64,
        role: Role,
        pass: Pass,
        saved: Saved,
        before: NodeId,
    )
        requires room { IsTrue self.old.room.entry }
        requires pass_room { IsTrue self.old.room.pass }
        requires fits { length self.old.items < 2 ^ 32 }
        ensures { self.new.items ≡ self.old.items ++ new_entry_record stamp (entry_role_of_pass_end role pass) saved ∷ [] }
    {
        let place = self.passes.as_slice().len() as u32;
        self.passes.push_reserved(Pass {
            looked: self.looked,
            ..pass
        });
        self.entries.push_reserved(Entry {
            stamp,
            place,
            part: Part::Passed(role),
            before,
            saved,
        });
    }

    /// Makes an own event of the node on the chip, whose overwritten values go straight into its entry.
    #[inline(always)]
    pub fn make_own_event(
        &mut self,
        chip: &mut Chip,
        node: NodeId,
        stamp: u64,
        before: NodeId,
    ) -> OwnEventKindWithLook
        requires ready { refusal_of_own_event (record_of_node (node_at chip.old node.number)) ≡ None }
        requires room { IsTrue self.old.room.entry }
        requires fits { length self.old.items + 1 < 2 ^ 32 }
        ensures { IsOwnEventMadeInHistory self.old.items chip.old node stamp result self.new.items chip.new }
    {
        self.entries.push_reserved(Entry {
            stamp,
            place: self.looked,
            part: Part::Own(OwnEventKind::Fetch),
            before,
            saved: Saved::new(),
        });
        let last = self.entries.as_slice().len() - 1;
        let entry = &mut self.entries[last];
        let deed = apply_own_event(chip, node, &mut entry.saved);
        let part = part_of(deed);
        entry.part = part;
        note_look(&mut self.looked, last, deed);
        deed
    }

    /// Takes the last entry out.
    #[inline(always)]
    pub fn pop(&mut self) -> Taken
        requires { 0 < stamp_bound_of_history self.old.items }
        ensures { self.old.items ≡ self.new.items ++ entry_record_of_taken result ∷ [] }
    {
        match self.entries.pop() {
            None => unreachable!(),
            Some(entry) => {
                let Entry {
                    stamp,
                    place,
                    part,
                    saved,
                    ..
                } = entry;
                let act = act_of(&self.passes, part, place);
                self.looked = looked_before(&self.passes, part, place);
                drop_pass(&mut self.passes, part);
                Taken { stamp, act, saved }
            }
        }
    }

    /// Writes the values of the last entry back to its node, and takes the entry out.
    #[inline(always)]
    pub fn undo_last_entry(&mut self, chip: &mut Chip, node: NodeId) -> EntryRole
        requires some { 0 < stamp_bound_of_history self.old.items }
        requires can { CanWriteBackLastEntry self.old.items chip.old node.number }
        ensures { IsLastEntryWrittenBack self.old.items chip.old node.number self.new.items chip.new result }
    {
        let last = self.entries.as_slice().len() - 1;
        let entry = &self.entries[last];
        restore_node_values(chip, node, &entry.saved);
        let part = entry.part;
        let place = entry.place;
        let _ = self.entries.pop();
        let act = act_of(&self.passes, part, place);
        self.looked = looked_before(&self.passes, part, place);
        drop_pass(&mut self.passes, part);
        act
    }
}
