//! The values that an event overwrote, each with its place in one word of 32 bits.

ghost use Rattle.std.specs.Prelude.{◌≡◌, ◌+◌, ◌-◌, ◌<◌, ◌≤◌, ◌^◌, ◌*◌, ◌/◌, ◌%◌, length};
ghost use Rattle.std.specs.Bool.{OnTrue, OnFalse};
ghost use Rattle.ga_node.specs.State.{IsNodePlace};
ghost use Rattle.ga_node.specs.inner.Packed.{code_of_node_place, node_place_of_kind_and_code, packed, unpacked_place_value, free_bits_of_packed_word as free_bits_of, spare, words_with_free_bits, ArePackedWords, AreAtMostSevenPackedWords};

use crate::place::NodePlace;
use arrayvec::ArrayVec;
use std::fmt;
use std::marker::Model;

/// The places that an event overwrote, with their old values: at most seven. A contract sees the list of pairs; here each
/// pair is packed into one word, of which six bits are free: those of six words hold a seventh.
#[derive(Drop)]
pub struct Saved {
    words: ArrayVec<u32, 6>,
}

impl Model for Saved {
    ghost use Rattle.std.specs.Prelude.{List, ℕ, map};
    ghost use Rattle.ga_node.specs.declared.place.NodePlace.{NodePlace};
    ghost use Rattle.ga_node.specs.inner.Packed.{unpacked_place_value, whole, AreAtMostSevenPackedWords};

    ghost Value = { List (NodePlace × ℕ) };

    ghost view = { λ s. map unpacked_place_value (whole s.words.items) };

    ghost invariant = { λ s. AreAtMostSevenPackedWords s.words.items };
}

impl Saved {
    ghost use Rattle.std.specs.Prelude.{◌≡◌, ◌<◌, ◌≤◌, ◌^◌, ◌++◌, ◌∷◌, [], length, take, Some};
    ghost use Rattle.std.specs.Bool.{OnTrue, OnFalse};
    ghost use Rattle.std.specs.List.{slice_get};
    ghost use Rattle.ga_node.specs.State.{IsNodePlace};
    ghost use Rattle.ga_node.specs.inner.Packed.{unpacked_place_value, IsPackedWord};

    /// A list with no pair.
    #[inline(always)]
    pub fn new() -> Self
        ensures { result ≡ [] }
    {
        Saved {
            words: ArrayVec::new(),
        }
    }

    /// How many pairs the list has.
    #[inline(always)]
    pub fn len(&self) -> usize
        ensures value { result ≡ length self.now }
        ensures within { result ≤ 7 }
    {
        if self.is_full() { 7 } else { self.words.len() }
    }

    /// Whether the list has seven pairs, by the free bits of the sixth word.
    #[tactic(auto, using(std::proofs::lemmas::Bool::ne_eqb, crate::proofs::Packing::some_spare, crate::proofs::Packing::no_spare, crate::proofs::Packing::count_none, crate::proofs::Packing::count_one, crate::proofs::Packing::few_pairs))]
    #[inline(always)]
    pub(crate) fn is_full(&self) -> bool
        ensures yes { OnTrue result (length self.now ≡ 7) }
        ensures no { OnFalse result (length self.now < 7) }
    {
        self.words.len() == 6 && self.words[5] / 0x40000 % 64 > 0
    }

    /// How many of the first six pairs the list has.
    #[tactic(auto, using(crate::proofs::Packing::first_six))]
    #[inline(always)]
    pub(crate) fn six(&self) -> usize
        ensures { result ≡ length (take 6 self.now) }
    {
        self.words.len()
    }

    /// One of the first six places, with its old value.
    #[inline(always)]
    pub(crate) fn six_at(&self, i: usize) -> (NodePlace, u32)
        requires { i < length (take 6 self.now) }
        ensures { slice_get (take 6 self.now) i ≡ Some result }
    {
        unpack(self.words[i])
    }

    /// Adds a place and its old value, where there are fewer than six.
    #[tactic(auto, using(crate::proofs::Packing::packed_word, crate::proofs::Packing::few_words, crate::proofs::Packing::kept_push, crate::proofs::Packing::pairs_push))]
    #[inline(always)]
    pub(crate) fn add(&mut self, place: NodePlace, value: u32)
        requires place { IsNodePlace place }
        requires in_range { value < 2 ^ 18 }
        requires room { length self.old < 6 }
        ensures { self.new ≡ self.old ++ (place, value) ∷ [] }
    {
        self.words.push(pack(place, value));
    }

    /// Adds a place and its old value.
    #[tactic(auto, using(crate::proofs::Packing::packed_word, crate::proofs::Packing::count_none, crate::proofs::Packing::full_free, crate::proofs::Packing::kept_spread, crate::proofs::Packing::pairs_spread))]
    #[inline(always)]
    pub fn push(&mut self, place: NodePlace, value: u32)
        requires place { IsNodePlace place }
        requires in_range { value < 2 ^ 18 }
        requires room { length self.old < 7 }
        ensures { self.new ≡ self.old ++ (place, value) ∷ [] }
    {
        if self.words.len() < 6 {
            self.add(place, value);
        } else {
            self.words = spread(&self.words, pack(place, value));
        }
    }

    /// One of the places, with its old value.
    #[inline(always)]
    pub fn at(&self, i: usize) -> (NodePlace, u32)
        requires { i < length self.now }
        ensures { slice_get self.now i ≡ Some result }
    {
        unpack(self.word(i))
    }

    /// The word of one of the pairs.
    #[inline(always)]
    pub(crate) fn word(&self, i: usize) -> u32
        requires { i < length self.now }
        ensures pair { slice_get self.now i ≡ Some (unpacked_place_value result) }
        ensures word { IsPackedWord result }
    {
        if i < self.words.len() {
            return self.words[i];
        }
        let mut spare: u64 = 0;
        for k in 0..6 {
            spare = spare * 64 + (self.words[5 - k] / 0x40000 % 64) as u64;
        }
        (spare - 0x100000000) as u32
    }
}

impl fmt::Debug for Saved {
    fn fmt<W: fmt::Write>(&self, f: &mut fmt::Formatter<W>) -> fmt::Result {
        let mut list = f.debug_list();
        for k in 0..self.len() {
            list.entry(&self.at(k));
        }
        list.finish()
    }
}

/// The word of a place and a value: a number for each place, six free bits, and the value.
#[inline(always)]
fn pack(at: NodePlace, value: u32) -> u32
    requires place { IsNodePlace at }
    requires in_range { value < 2 ^ 18 }
    ensures value { result ≡ packed at value }
    ensures within { result < 249 * 2 ^ 24 }
{
    let code = match at {
        NodePlace::T => 0,
        NodePlace::S => 8,
        NodePlace::DataPointer => 16,
        NodePlace::R => 24,
        NodePlace::ReturnPointer => 32,
        NodePlace::A => 40,
        NodePlace::B => 48,
        NodePlace::P => 56,
        NodePlace::Ram(cell) => 64 + cell as u32,
        NodePlace::Rom(cell) => 128 + cell as u32,
        NodePlace::DataCell(cell) => 192 + cell as u32,
        NodePlace::ReturnCell(cell) => 200 + cell as u32,
        NodePlace::I => 208,
        NodePlace::Slot => 216,
        NodePlace::Io => 224,
        NodePlace::Carry => 232,
        NodePlace::Wait => 240,
        NodePlace::Stop => 248,
    };
    code * 0x1000000 + value
}

/// The cell of a word's place in RAM or ROM.
#[inline(always)]
fn cell(word: u32) -> u8
    ensures { result ≡ word / 2 ^ 24 % 64 }
{
    (word / 0x1000000 % 64) as u8
}

/// The place of a word. Each of its 32 kinds has an arm, so that one jump leads there, and a cell is taken out only where
/// the place has one.
#[inline(always)]
fn place(word: u32) -> NodePlace
    ensures { result ≡ node_place_of_kind_and_code (word / 2 ^ 27) (word / 2 ^ 24) }
{
    match word / 0x8000000 {
        0 => NodePlace::T,
        1 => NodePlace::S,
        2 => NodePlace::DataPointer,
        3 => NodePlace::R,
        4 => NodePlace::ReturnPointer,
        5 => NodePlace::A,
        6 => NodePlace::B,
        7 => NodePlace::P,
        8 => NodePlace::Ram(cell(word)),
        9 => NodePlace::Ram(cell(word)),
        10 => NodePlace::Ram(cell(word)),
        11 => NodePlace::Ram(cell(word)),
        12 => NodePlace::Ram(cell(word)),
        13 => NodePlace::Ram(cell(word)),
        14 => NodePlace::Ram(cell(word)),
        15 => NodePlace::Ram(cell(word)),
        16 => NodePlace::Rom(cell(word)),
        17 => NodePlace::Rom(cell(word)),
        18 => NodePlace::Rom(cell(word)),
        19 => NodePlace::Rom(cell(word)),
        20 => NodePlace::Rom(cell(word)),
        21 => NodePlace::Rom(cell(word)),
        22 => NodePlace::Rom(cell(word)),
        23 => NodePlace::Rom(cell(word)),
        24 => NodePlace::DataCell((word / 0x1000000 % 8) as u8),
        25 => NodePlace::ReturnCell((word / 0x1000000 % 8) as u8),
        26 => NodePlace::I,
        27 => NodePlace::Slot,
        28 => NodePlace::Io,
        29 => NodePlace::Carry,
        30 => NodePlace::Wait,
        _ => NodePlace::Stop,
    }
}

/// The place and the value of a word.
#[inline(always)]
pub(crate) fn unpack(word: u32) -> (NodePlace, u32)
    ensures { result ≡ unpacked_place_value word }
{
    (place(word), word % 0x40000)
}

/// The six words with a seventh in their free bits, with bit 32 set, since there is a seventh.
#[tactic(auto, using(std::proofs::Common::append_assoc, std::proofs::lemmas::List::drop_all, crate::proofs::Packing::with_spare_past, crate::proofs::Packing::words_at))]
#[inline(never)]
fn spread(words: &ArrayVec<u32, 6>, word: u32) -> ArrayVec<u32, 6>
    requires { ArePackedWords words.now.items }
    ensures { result.items ≡ words_with_free_bits words.now.items (2 ^ 32 + word) }
{
    let mut rest = 0x100000000 + word as u64;
    let mut spread = ArrayVec::new();
    for old in words.iter() {
        spread.push(*old + (rest % 64) as u32 * 0x40000);
        rest /= 64;
    }
    spread
}
