//! Changes of one register, stack or cell, each with the values that it overwrote.

ghost use Rattle.std.specs.Prelude.{◌≡◌, ◌+◌, ◌≤◌, ◌++◌, length};
ghost use Rattle.ga_stacks.specs.Stack.{AreStackValuesInRange};
ghost use Rattle.ga_node.specs.inner.Saving.{data_stack_as_node_values, return_stack_as_node_values};

use super::Node;
use crate::place::NodePlace;
use crate::saved::Saved;
use crate::wait::Wait;
use ga_stacks::OverwrittenPlaces;
use ga_word::Word18;

/// Adds the values that a change of the data stack overwrote.
#[tactic(auto, using(crate::proofs::Saving::word_in, crate::proofs::Saving::data_place_in))]
#[inline(always)]
fn save_data(saved: &mut Saved, overwritten: &OverwrittenPlaces)
    requires fit { AreStackValuesInRange 2 overwritten.now.items }
    requires room { length saved.old + length overwritten.now.items ≤ 6 }
    ensures { saved.new ≡ saved.old ++ data_stack_as_node_values overwritten.now.items }
{
    for (place, old) in overwritten.iter() {
        saved.add(NodePlace::of_data(*place), *old);
    }
}

/// Adds the values that a change of the return stack overwrote.
#[tactic(auto, using(crate::proofs::Saving::word_in, crate::proofs::Saving::return_place_in))]
#[inline(always)]
fn save_return(saved: &mut Saved, overwritten: &OverwrittenPlaces)
    requires fit { AreStackValuesInRange 1 overwritten.now.items }
    requires room { length saved.old + length overwritten.now.items ≤ 6 }
    ensures { saved.new ≡ saved.old ++ return_stack_as_node_values overwritten.now.items }
{
    for (place, old) in overwritten.iter() {
        saved.add(NodePlace::of_return(*place), *old);
    }
}

impl Node {
    ghost use Rattle.std.specs.Prelude.{◌≡◌, ◌+◌, ◌<◌, ◌≤◌, ◌^◌, [], ◌∷◌, length};
    ghost use Rattle.ga_node.specs.State.{HasAtMostOneStatus};
    ghost use Rattle.ga_node.specs.Record.{record_of_node};
    ghost use Rattle.ga_node.specs.Changes.{node_after_changes, node_after_change, PushData, PopData, SetTop, PopThenSetTop, PushReturn, PopReturn, SetTopReturn, SetP, SetA, SetB, SetI, SetIo, SetCarry, SetRam, AdvanceSlot, SkipRestOfWord, ReturnToFirstSlot, SetWait, SetStop};
    ghost use Rattle.ga_node.specs.inner.Saving.{SavesOldValues};
    ghost use Rattle.ga_node.specs.Ready.{IsRunning};

    /// P gets an address.
    #[tactic(auto, unfolding(crate::specs::Record::record_of_node))]
    #[inline(always)]
    pub(super) fn set_p(&mut self, saved: &mut Saved, p: u32)
        requires in_range { p < 2 ^ 10 }
        requires room { length saved.old < 6 }
        ensures change { record_of_node self.new ≡ node_after_change (SetP p) (record_of_node self.old) }
        ensures saves { SavesOldValues (SetP p ∷ []) self.old saved.old self.new saved.new }
        ensures count { length saved.new ≡ length saved.old + 1 }
    {
        saved.add(NodePlace::P, self.p);
        self.p = p;
    }

    /// A gets a word.
    #[tactic(auto, unfolding(crate::specs::Record::record_of_node))]
    #[inline(always)]
    pub(super) fn set_a(&mut self, saved: &mut Saved, a: Word18)
        requires room { length saved.old < 6 }
        ensures change { record_of_node self.new ≡ node_after_change (SetA a) (record_of_node self.old) }
        ensures saves { SavesOldValues (SetA a ∷ []) self.old saved.old self.new saved.new }
        ensures count { length saved.new ≡ length saved.old + 1 }
    {
        saved.add(NodePlace::A, self.a.get());
        self.a = a;
    }

    /// B gets an address.
    #[tactic(auto, unfolding(crate::specs::Record::record_of_node))]
    #[inline(always)]
    pub(super) fn set_b(&mut self, saved: &mut Saved, b: u32)
        requires in_range { b < 2 ^ 9 }
        requires room { length saved.old < 6 }
        ensures change { record_of_node self.new ≡ node_after_change (SetB b) (record_of_node self.old) }
        ensures saves { SavesOldValues (SetB b ∷ []) self.old saved.old self.new saved.new }
        ensures count { length saved.new ≡ length saved.old + 1 }
    {
        saved.add(NodePlace::B, self.b);
        self.b = b;
    }

    /// The instruction word is another.
    #[tactic(auto, unfolding(crate::specs::Record::record_of_node))]
    #[inline(always)]
    pub(super) fn set_i(&mut self, saved: &mut Saved, i: Word18)
        requires room { length saved.old < 6 }
        ensures change { record_of_node self.new ≡ node_after_change (SetI i) (record_of_node self.old) }
        ensures saves { SavesOldValues (SetI i ∷ []) self.old saved.old self.new saved.new }
        ensures count { length saved.new ≡ length saved.old + 1 }
    {
        saved.add(NodePlace::I, self.i.get());
        self.i = i;
    }

    /// The carry is written.
    #[tactic(auto, unfolding(crate::specs::Record::record_of_node))]
    #[inline(always)]
    pub(super) fn set_carry(&mut self, saved: &mut Saved, carry: bool)
        requires room { length saved.old < 6 }
        ensures change { record_of_node self.new ≡ node_after_change (SetCarry carry) (record_of_node self.old) }
        ensures saves { SavesOldValues (SetCarry carry ∷ []) self.old saved.old self.new saved.new }
        ensures count { length saved.new ≡ length saved.old + 1 }
    {
        saved.add(NodePlace::Carry, self.carry as u32);
        self.carry = carry;
    }

    /// The next slot comes, or a fetch after the last.
    #[tactic(auto, unfolding(crate::specs::Record::record_of_node))]
    #[inline(always)]
    pub(super) fn go_on(&mut self, saved: &mut Saved)
        requires room { length saved.old < 6 }
        ensures change { record_of_node self.new ≡ node_after_change AdvanceSlot (record_of_node self.old) }
        ensures saves { SavesOldValues (AdvanceSlot ∷ []) self.old saved.old self.new saved.new }
        ensures count { length saved.new ≡ length saved.old + 1 }
    {
        saved.add(NodePlace::Slot, self.slot as u32);
        self.slot += (self.slot < 4) as u8;
    }

    /// Advances to the next slot, or to a fetch after the last, where six places may be saved already.
    #[tactic(auto, unfolding(crate::specs::Record::record_of_node))]
    #[inline(always)]
    pub(super) fn go_on_seventh(&mut self, saved: &mut Saved)
        requires room { length saved.old < 7 }
        ensures change { record_of_node self.new ≡ node_after_change AdvanceSlot (record_of_node self.old) }
        ensures saves { SavesOldValues (AdvanceSlot ∷ []) self.old saved.old self.new saved.new }
        ensures count { length saved.new ≡ length saved.old + 1 }
    {
        saved.push(NodePlace::Slot, self.slot as u32);
        self.slot += (self.slot < 4) as u8;
    }

    /// The rest of the word is passed over.
    #[tactic(auto, unfolding(crate::specs::Record::record_of_node))]
    #[inline(always)]
    pub(super) fn skip(&mut self, saved: &mut Saved)
        requires room { length saved.old < 6 }
        ensures change { record_of_node self.new ≡ node_after_change SkipRestOfWord (record_of_node self.old) }
        ensures saves { SavesOldValues (SkipRestOfWord ∷ []) self.old saved.old self.new saved.new }
        ensures count { length saved.new ≡ length saved.old + 1 }
    {
        saved.add(NodePlace::Slot, self.slot as u32);
        self.slot = 4;
    }

    /// P gets an address, and the rest of the word is passed over.
    #[tactic(auto, unfolding(crate::specs::Record::record_of_node))]
    #[inline(always)]
    pub(super) fn leave(&mut self, saved: &mut Saved, p: u32)
        requires in_range { p < 2 ^ 10 }
        requires room { length saved.old + 2 ≤ 6 }
        ensures change { record_of_node self.new ≡ node_after_changes (SetP p ∷ SkipRestOfWord ∷ []) (record_of_node self.old) }
        ensures saves { SavesOldValues (SetP p ∷ SkipRestOfWord ∷ []) self.old saved.old self.new saved.new }
        ensures count { length saved.new ≡ length saved.old + 2 }
    {
        saved.add(NodePlace::P, self.p);
        saved.add(NodePlace::Slot, self.slot as u32);
        self.p = p;
        self.slot = 4;
    }

    /// The word and P are others, and the first slot comes.
    #[tactic(auto, unfolding(crate::specs::Record::record_of_node))]
    #[inline(always)]
    pub(super) fn begin(&mut self, saved: &mut Saved, i: Word18, p: u32)
        requires in_range { p < 2 ^ 10 }
        requires room { length saved.old + 3 ≤ 6 }
        ensures change { record_of_node self.new ≡ node_after_changes (SetI i ∷ SetP p ∷ ReturnToFirstSlot ∷ []) (record_of_node self.old) }
        ensures saves { SavesOldValues (SetI i ∷ SetP p ∷ ReturnToFirstSlot ∷ []) self.old saved.old self.new saved.new }
    {
        saved.add(NodePlace::I, self.i.get());
        saved.add(NodePlace::P, self.p);
        saved.add(NodePlace::Slot, self.slot as u32);
        self.i = i;
        self.p = p;
        self.slot = 0;
    }

    /// The first slot comes.
    #[tactic(auto, unfolding(crate::specs::Record::record_of_node))]
    #[inline(always)]
    pub(super) fn start_again(&mut self, saved: &mut Saved)
        requires room { length saved.old < 6 }
        ensures change { record_of_node self.new ≡ node_after_change ReturnToFirstSlot (record_of_node self.old) }
        ensures saves { SavesOldValues (ReturnToFirstSlot ∷ []) self.old saved.old self.new saved.new }
        ensures count { length saved.new ≡ length saved.old + 1 }
    {
        saved.add(NodePlace::Slot, self.slot as u32);
        self.slot = 0;
    }

    /// A word is pushed on the data stack.
    #[tactic(auto, unfolding(crate::specs::Record::record_of_node))]
    #[inline(always)]
    pub(super) fn push_data(&mut self, saved: &mut Saved, word: Word18)
        requires room { length saved.old + 4 ≤ 6 }
        ensures change { record_of_node self.new ≡ node_after_change (PushData word) (record_of_node self.old) }
        ensures saves { SavesOldValues (PushData word ∷ []) self.old saved.old self.new saved.new }
        ensures count { length saved.new ≡ length saved.old + 4 }
    {
        save_data(saved, &self.data.push(word));
    }

    /// The data stack is popped.
    #[tactic(auto, unfolding(crate::specs::Record::record_of_node))]
    #[inline(always)]
    pub(super) fn pop_data(&mut self, saved: &mut Saved)
        requires room { length saved.old + 3 ≤ 6 }
        ensures change { record_of_node self.new ≡ node_after_change PopData (record_of_node self.old) }
        ensures saves { SavesOldValues (PopData ∷ []) self.old saved.old self.new saved.new }
        ensures count { length saved.new ≡ length saved.old + 3 }
    {
        save_data(saved, &self.data.pop());
    }

    /// T gets a word.
    #[tactic(auto, unfolding(crate::specs::Record::record_of_node))]
    #[inline(always)]
    pub(super) fn set_top(&mut self, saved: &mut Saved, word: Word18)
        requires room { length saved.old < 6 }
        ensures change { record_of_node self.new ≡ node_after_change (SetTop word) (record_of_node self.old) }
        ensures saves { SavesOldValues (SetTop word ∷ []) self.old saved.old self.new saved.new }
        ensures count { length saved.new ≡ length saved.old + 1 }
    {
        save_data(saved, &self.data.replace_top(word));
    }

    /// The data stack is popped, and then T gets a word. T's old value is saved once.
    #[tactic(auto, unfolding(crate::specs::Record::record_of_node))]
    #[inline(always)]
    pub(super) fn pop_to(&mut self, saved: &mut Saved, word: Word18)
        requires room { length saved.old + 3 ≤ 6 }
        ensures change { record_of_node self.new ≡ node_after_change (PopThenSetTop word) (record_of_node self.old) }
        ensures saves { SavesOldValues (PopThenSetTop word ∷ []) self.old saved.old self.new saved.new }
        ensures count { length saved.new ≡ length saved.old + 3 }
    {
        let popped = self.data.pop();
        let _top = self.data.replace_top(word);
        save_data(saved, &popped);
    }

    /// A word is pushed on the return stack.
    #[tactic(auto, unfolding(crate::specs::Record::record_of_node))]
    #[inline(always)]
    pub(super) fn push_return(&mut self, saved: &mut Saved, word: Word18)
        requires room { length saved.old + 3 ≤ 6 }
        ensures change { record_of_node self.new ≡ node_after_change (PushReturn word) (record_of_node self.old) }
        ensures saves { SavesOldValues (PushReturn word ∷ []) self.old saved.old self.new saved.new }
        ensures count { length saved.new ≡ length saved.old + 3 }
    {
        save_return(saved, &self.returns.push(word));
    }

    /// The return stack is popped.
    #[tactic(auto, unfolding(crate::specs::Record::record_of_node))]
    #[inline(always)]
    pub(super) fn pop_return(&mut self, saved: &mut Saved)
        requires room { length saved.old + 2 ≤ 6 }
        ensures change { record_of_node self.new ≡ node_after_change PopReturn (record_of_node self.old) }
        ensures saves { SavesOldValues (PopReturn ∷ []) self.old saved.old self.new saved.new }
        ensures count { length saved.new ≡ length saved.old + 2 }
    {
        save_return(saved, &self.returns.pop());
    }

    /// R gets a word.
    #[tactic(auto, unfolding(crate::specs::Record::record_of_node))]
    #[inline(always)]
    pub(super) fn set_top_return(&mut self, saved: &mut Saved, word: Word18)
        requires room { length saved.old < 6 }
        ensures change { record_of_node self.new ≡ node_after_change (SetTopReturn word) (record_of_node self.old) }
        ensures saves { SavesOldValues (SetTopReturn word ∷ []) self.old saved.old self.new saved.new }
        ensures count { length saved.new ≡ length saved.old + 1 }
    {
        save_return(saved, &self.returns.replace_top(word));
    }

    /// The wait ends.
    #[tactic(auto, unfolding(crate::specs::Record::record_of_node))]
    #[inline(always)]
    pub(super) fn end_wait(&mut self, saved: &mut Saved)
        requires room { length saved.old < 6 }
        ensures change { record_of_node self.new ≡ node_after_change (SetWait Wait.Nothing) (record_of_node self.old) }
        ensures saves { SavesOldValues (SetWait Wait.Nothing ∷ []) self.old saved.old self.new saved.new }
        ensures count { length saved.new ≡ length saved.old + 1 }
        ensures apart { HasAtMostOneStatus self.old }
    {
        saved.add(NodePlace::Wait, self.wait.code());
        self.wait = Wait::Nothing;
    }

    /// A cell of RAM gets a word.
    #[tactic(auto, unfolding(crate::specs::Record::record_of_node))]
    #[inline(always)]
    pub(super) fn set_ram(&mut self, saved: &mut Saved, k: u8, word: Word18)
        requires cell { k < 64 }
        requires room { length saved.old < 6 }
        ensures change { record_of_node self.new ≡ node_after_change (SetRam k word) (record_of_node self.old) }
        ensures saves { SavesOldValues (SetRam k word ∷ []) self.old saved.old self.new saved.new }
        ensures count { length saved.new ≡ length saved.old + 1 }
    {
        saved.add(NodePlace::Ram(k), self.ram[k as usize].get());
        self.ram[k as usize] = word;
    }

    /// `io` gets a word.
    #[tactic(auto, unfolding(crate::specs::Record::record_of_node))]
    #[inline(always)]
    pub(super) fn set_io(&mut self, saved: &mut Saved, word: Word18)
        requires room { length saved.old < 6 }
        ensures change { record_of_node self.new ≡ node_after_change (SetIo word) (record_of_node self.old) }
        ensures saves { SavesOldValues (SetIo word ∷ []) self.old saved.old self.new saved.new }
        ensures count { length saved.new ≡ length saved.old + 1 }
    {
        saved.add(NodePlace::Io, self.io.get());
        self.io = word;
    }
}
