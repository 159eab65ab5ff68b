//! The data stack.

ghost use Rattle.std.specs.Prelude.{◌≡◌, ◌<◌, ◌≤◌, ◌+◌, ◌%◌, [], ◌∷◌, slice_index, length};
ghost use Rattle.ga_stacks.specs.declared.place.StackPlace.TheVariants.{Pointer, Top, Second, Cell};
ghost use Rattle.ga_stacks.specs.Ring.{initial_stack_ring, words_of_stack, words_after_push, data_stack_after_pop, words_with_top};
ghost use Rattle.ga_stacks.specs.Stack.{stack_word_at_place, stack_places_with_values, stack_with_word, stack_with_restored_words, HasStackPlace, FitsStackPlace, AreStackValuesInRange, AreSavedPlacesDistinct};

use crate::place::{CELLS, OverwrittenPlaces, StackPlace, UNUSED_STACK_WORD};
use arrayvec::ArrayVec;
use ga_word::Word18;
use std::marker::Model;

/// The data stack: T and S over a ring of eight cells (DB001, stacks).
#[derive(Drop)]
pub struct DataStack {
    top: Word18,
    second: Word18,
    cells: [Word18; 8],
    pointer: u8,
}

impl Model for DataStack {
    ghost use Rattle.std.specs.Prelude.{ℕ, ◌<◌, List, [], ◌∷◌};
    ghost use Rattle.ga_stacks.specs.Ring.{StackRing};

    ghost Value = { StackRing };

    ghost view = { λ s. record { registers = s.top ∷ s.second ∷ []; cells = s.cells; pointer = s.pointer } };

    ghost invariant = { λ s. s.pointer < 8 };
}

impl DataStack {
    /// A stack with 015555 in each of its words.
    pub fn new() -> Self
        ensures { result ≡ initial_stack_ring 2 }
    {
        let word = Word18::from_low_bits(UNUSED_STACK_WORD);
        DataStack {
            top: word,
            second: word,
            cells: [word; 8],
            pointer: 0,
        }
    }

    /// A copy of the stack.
    pub fn copy(&self) -> Self
        ensures { result ≡ self.now }
    {
        DataStack {
            top: self.top,
            second: self.second,
            cells: self.cells,
            pointer: self.pointer,
        }
    }

    /// The stack that is this list of words, the top first.
    pub fn from_words(words: [Word18; 10]) -> Self
        ensures { words_of_stack result ≡ words }
    {
        let [top, second, a, b, c, d, e, f, g, h] = words;
        DataStack {
            top,
            second,
            cells: [a, b, c, d, e, f, g, h],
            pointer: 0,
        }
    }

    /// T, the top word.
    pub fn top(&self) -> Word18
        ensures { result ≡ slice_index (words_of_stack self.now) 0 }
    {
        self.top
    }

    /// S, the word below the top.
    pub fn second(&self) -> Word18
        ensures { result ≡ slice_index (words_of_stack self.now) 1 }
    {
        self.second
    }

    /// The word at a place of the list, 0 for the top.
    pub fn at(&self, place: u8) -> Word18
        requires { place < 10 }
        ensures word { result ≡ slice_index (words_of_stack self.now) place }
        ensures size { 2 ≤ place → length (words_of_stack self.now) ≡ 10 }
        ensures registers { length self.now.registers ≡ 2 }
    {
        match place {
            0 => self.top,
            1 => self.second,
            _ => self.cells[((self.pointer + place - 2) % CELLS) as usize],
        }
    }

    /// Puts a word on top; the oldest word is lost.
    pub fn push(&mut self, word: Word18) -> OverwrittenPlaces
        ensures words_after_push { words_of_stack self.new ≡ words_after_push word (words_of_stack self.old) }
        ensures state_after_undo { stack_with_restored_words self.new result.items ≡ self.old }
        ensures overwritten { result.items ≡ stack_places_with_values self.old (Pointer ∷ Cell ((self.old.pointer + 7) % 8) ∷ Second ∷ Top ∷ []) }
        ensures fit { AreStackValuesInRange 2 result.items }
        ensures once { AreSavedPlacesDistinct result.items }
        ensures count { length result.items ≤ 4 }
    {
        let pointer = (self.pointer + 7) % CELLS;
        let mut saved = ArrayVec::new();
        saved.push((StackPlace::Pointer, u32::from(self.pointer)));
        saved.push((
            StackPlace::Cell(pointer),
            self.cells[pointer as usize].get(),
        ));
        saved.push((StackPlace::Second, self.second.get()));
        saved.push((StackPlace::Top, self.top.get()));
        self.pointer = pointer;
        self.cells[pointer as usize] = self.second;
        self.second = self.top;
        self.top = word;
        saved
    }

    /// Takes the top word away; the word that was third is also the new last one.
    pub fn pop(&mut self) -> OverwrittenPlaces
        ensures words_after_pop { words_of_stack self.new ≡ data_stack_after_pop (words_of_stack self.old) }
        ensures state_after_undo { stack_with_restored_words self.new result.items ≡ self.old }
        ensures overwritten { result.items ≡ stack_places_with_values self.old (Pointer ∷ Second ∷ Top ∷ []) }
        ensures fit { AreStackValuesInRange 2 result.items }
        ensures once { AreSavedPlacesDistinct result.items }
        ensures count { length result.items ≤ 3 }
    {
        let mut saved = ArrayVec::new();
        saved.push((StackPlace::Pointer, u32::from(self.pointer)));
        saved.push((StackPlace::Second, self.second.get()));
        saved.push((StackPlace::Top, self.top.get()));
        self.top = self.second;
        self.second = self.cells[self.pointer as usize];
        self.pointer = (self.pointer + 1) % CELLS;
        saved
    }

    /// Replaces the top by another word.
    pub fn replace_top(&mut self, word: Word18) -> OverwrittenPlaces
        ensures words_with_top { words_of_stack self.new ≡ words_with_top word (words_of_stack self.old) }
        ensures state_after_undo { stack_with_restored_words self.new result.items ≡ self.old }
        ensures overwritten { result.items ≡ stack_places_with_values self.old (Top ∷ []) }
        ensures fit { AreStackValuesInRange 2 result.items }
        ensures once { AreSavedPlacesDistinct result.items }
        ensures count { length result.items ≤ 1 }
    {
        let old = std::mem::replace(&mut self.top, word);
        let mut saved = ArrayVec::new();
        saved.push((StackPlace::Top, old.get()));
        saved
    }

    /// Returns the value of a register, a cell or the pointer.
    pub fn get(&self, place: StackPlace) -> u32
        requires { HasStackPlace 2 place }
        ensures value { result ≡ stack_word_at_place self.now place }
        ensures in_range { FitsStackPlace place result }
    {
        match place {
            StackPlace::Top => self.top.get(),
            StackPlace::Second => self.second.get(),
            StackPlace::Cell(k) => self.cells[k as usize].get(),
            StackPlace::Pointer => u32::from(self.pointer),
        }
    }

    /// Writes a register, a cell or the pointer.
    pub fn set(&mut self, place: StackPlace, value: u32)
        requires place { HasStackPlace 2 place }
        requires in_range { FitsStackPlace place value }
        ensures { self.new ≡ stack_with_word self.old place value }
    {
        match place {
            StackPlace::Top => self.top = Word18::from_low_bits(value),
            StackPlace::Second => self.second = Word18::from_low_bits(value),
            StackPlace::Cell(k) => self.cells[k as usize] = Word18::from_low_bits(value),
            StackPlace::Pointer => self.pointer = value as u8,
        }
    }
}
