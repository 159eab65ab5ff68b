//! The return stack.

ghost use Rattle.std.specs.Prelude.{◌≡◌, ◌<◌, ◌≤◌, ◌+◌, ◌%◌, [], ◌∷◌, slice_index, length};
ghost use Rattle.ga_stacks.specs.declared.place.StackPlace.TheVariants.{Pointer, Top, Cell};
ghost use Rattle.ga_stacks.specs.Ring.{initial_stack_ring, words_of_stack, words_after_push, return_stack_after_pop, words_with_top};
ghost use Rattle.ga_stacks.specs.Stack.{stack_word_at_place, stack_places_with_values, stack_with_word, stack_with_restored_words, HasStackPlace, FitsStackPlace, AreStackValuesInRange, AreSavedPlacesDistinct};

use crate::place::{CELLS, OverwrittenPlaces, StackPlace, UNUSED_STACK_WORD};
use arrayvec::ArrayVec;
use ga_word::Word18;
use std::marker::Model;

/// The return stack: R over a ring of eight cells (DB001, stacks).
#[derive(Drop)]
pub struct ReturnStack {
    top: Word18,
    cells: [Word18; 8],
    pointer: u8,
}

impl Model for ReturnStack {
    ghost use Rattle.std.specs.Prelude.{ℕ, ◌<◌, List, [], ◌∷◌};
    ghost use Rattle.ga_stacks.specs.Ring.{StackRing};

    ghost Value = { StackRing };

    ghost view = { λ s. record { registers = s.top ∷ []; cells = s.cells; pointer = s.pointer } };

    ghost invariant = { λ s. s.pointer < 8 };
}

impl ReturnStack {
    /// A stack with 015555 in each of its words.
    pub fn new() -> Self
        ensures { result ≡ initial_stack_ring 1 }
    {
        let word = Word18::from_low_bits(UNUSED_STACK_WORD);
        ReturnStack {
            top: word,
            cells: [word; 8],
            pointer: 0,
        }
    }

    /// A copy of the stack.
    pub fn copy(&self) -> Self
        ensures { result ≡ self.now }
    {
        ReturnStack {
            top: self.top,
            cells: self.cells,
            pointer: self.pointer,
        }
    }

    /// The stack that is this list of words, the top first.
    pub fn from_words(words: [Word18; 9]) -> Self
        ensures { words_of_stack result ≡ words }
    {
        let [top, a, b, c, d, e, f, g, h] = words;
        ReturnStack {
            top,
            cells: [a, b, c, d, e, f, g, h],
            pointer: 0,
        }
    }

    /// R, the top word.
    pub fn top(&self) -> Word18
        ensures { result ≡ slice_index (words_of_stack self.now) 0 }
    {
        self.top
    }

    /// The word at a place of the list, 0 for the top.
    pub fn at(&self, place: u8) -> Word18
        requires { place < 9 }
        ensures word { result ≡ slice_index (words_of_stack self.now) place }
        ensures size { 1 ≤ place → length (words_of_stack self.now) ≡ 9 }
        ensures registers { length self.now.registers ≡ 1 }
    {
        match place {
            0 => self.top,
            _ => self.cells[((self.pointer + place - 1) % CELLS) as usize],
        }
    }

    /// Puts a word on top; the oldest word is lost.
    pub fn push(&mut self, word: Word18) -> OverwrittenPlaces
        ensures words_after_push { words_of_stack self.new ≡ words_after_push word (words_of_stack self.old) }
        ensures state_after_undo { stack_with_restored_words self.new result.items ≡ self.old }
        ensures overwritten { result.items ≡ stack_places_with_values self.old (Pointer ∷ Cell ((self.old.pointer + 7) % 8) ∷ Top ∷ []) }
        ensures fit { AreStackValuesInRange 1 result.items }
        ensures once { AreSavedPlacesDistinct result.items }
        ensures count { length result.items ≤ 3 }
    {
        let pointer = (self.pointer + 7) % CELLS;
        let mut saved = ArrayVec::new();
        saved.push((StackPlace::Pointer, u32::from(self.pointer)));
        saved.push((
            StackPlace::Cell(pointer),
            self.cells[pointer as usize].get(),
        ));
        saved.push((StackPlace::Top, self.top.get()));
        self.pointer = pointer;
        self.cells[pointer as usize] = self.top;
        self.top = word;
        saved
    }

    /// Takes the top word away; the word that was second is also the new last one.
    pub fn pop(&mut self) -> OverwrittenPlaces
        ensures words_after_pop { words_of_stack self.new ≡ return_stack_after_pop (words_of_stack self.old) }
        ensures state_after_undo { stack_with_restored_words self.new result.items ≡ self.old }
        ensures overwritten { result.items ≡ stack_places_with_values self.old (Pointer ∷ Top ∷ []) }
        ensures fit { AreStackValuesInRange 1 result.items }
        ensures once { AreSavedPlacesDistinct result.items }
        ensures count { length result.items ≤ 2 }
    {
        let mut saved = ArrayVec::new();
        saved.push((StackPlace::Pointer, u32::from(self.pointer)));
        saved.push((StackPlace::Top, self.top.get()));
        self.top = self.cells[self.pointer as usize];
        self.pointer = (self.pointer + 1) % CELLS;
        saved
    }

    /// Replaces the top by another word.
    pub fn replace_top(&mut self, word: Word18) -> OverwrittenPlaces
        ensures words_with_top { words_of_stack self.new ≡ words_with_top word (words_of_stack self.old) }
        ensures state_after_undo { stack_with_restored_words self.new result.items ≡ self.old }
        ensures overwritten { result.items ≡ stack_places_with_values self.old (Top ∷ []) }
        ensures fit { AreStackValuesInRange 1 result.items }
        ensures once { AreSavedPlacesDistinct result.items }
        ensures count { length result.items ≤ 1 }
    {
        let old = std::mem::replace(&mut self.top, word);
        let mut saved = ArrayVec::new();
        saved.push((StackPlace::Top, old.get()));
        saved
    }

    /// Returns the value of a register, a cell or the pointer.
    pub fn get(&self, place: StackPlace) -> u32
        requires { HasStackPlace 1 place }
        ensures value { result ≡ stack_word_at_place self.now place }
        ensures in_range { FitsStackPlace place result }
    {
        match place {
            StackPlace::Top => self.top.get(),
            StackPlace::Second => unreachable!(),
            StackPlace::Cell(k) => self.cells[k as usize].get(),
            StackPlace::Pointer => u32::from(self.pointer),
        }
    }

    /// Writes a register, a cell or the pointer.
    pub fn set(&mut self, place: StackPlace, value: u32)
        requires place { HasStackPlace 1 place }
        requires in_range { FitsStackPlace place value }
        ensures { self.new ≡ stack_with_word self.old place value }
    {
        match place {
            StackPlace::Top => self.top = Word18::from_low_bits(value),
            StackPlace::Second => unreachable!(),
            StackPlace::Cell(k) => self.cells[k as usize] = Word18::from_low_bits(value),
            StackPlace::Pointer => self.pointer = value as u8,
        }
    }
}
