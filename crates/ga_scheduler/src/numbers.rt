//! Sets of small numbers.

ghost use Rattle.std.specs.Prelude.{◌≡◌, ◌≢◌, ◌<◌, ◌≤◌, ℕ, true, false, IfSome, IfNone, length};
ghost use Rattle.std.specs.Int.{bit_at};

/// A set of numbers below 192.
#[derive(Clone, Copy, PartialEq, Eq, Debug)]
pub(crate) struct NumberSet {
    words: [u64; 3],
    ghost size: { length words ≡ 3 },
}

// The lowest place from this one on at which the word has a 1.
#[tactic(auto, using(crate::proofs::Sets::none_above, crate::proofs::Sets::lowest_is))]
fn lowest(word: u64, from: u32) -> Option<u32>
    requires { from < 64 }
    ensures least { IfSome result (λ place. from ≤ place) }
    ensures in_range { IfSome result (λ place. place < 64) }
    ensures one { IfSome result (λ place. bit_at word place ≡ 1) }
    ensures before { IfSome result (λ place. (i : ℕ) → from ≤ i → i < place → bit_at word i ≡ 0) }
    ensures none { IfNone result ((i : ℕ) → from ≤ i → i < 64 → bit_at word i ≡ 0) }
{
    let rest = word & (u64::MAX << from);
    if rest == 0 {
        None
    } else {
        Some(rest.trailing_zeros())
    }
}

// The word with a 1 at a place, or with a 0.
fn with_bit(word: u64, place: u32, is_one: bool) -> u64
    requires { place < 64 }
    ensures one { is_one ≡ true → bit_at result place ≡ 1 }
    ensures zero { is_one ≡ false → bit_at result place ≡ 0 }
    ensures others { (i : ℕ) → i < 64 → i ≢ place → bit_at result i ≡ bit_at word i }
{
    let bit = 1u64 << place;
    if is_one { word | bit } else { word & !bit }
}

impl NumberSet {
    ghost use Rattle.std.specs.Prelude.{◌≡◌, ◌≢◌, ◌<◌, ◌≤◌, ℕ, true, false, IfSome, IfNone};
    ghost use Rattle.ga_scheduler.specs.inner.{is_number_in_set};

    /// The set of nothing.
    #[tactic(auto, using(crate::proofs::Sets::has_no_bit))]
    pub fn none() -> Self
        ensures { (n : ℕ) → n < 192 → is_number_in_set result n ≡ false }
    {
        NumberSet { words: [0; 3] }
    }

    /// Puts a number in, or takes it out.
    pub fn set_number_membership(&mut self, number: u8, is_in: bool)
        requires { number < 192 }
        ensures same { is_number_in_set self.new number ≡ is_in }
        ensures others { (n : ℕ) → n < 192 → n ≢ number → is_number_in_set self.new n ≡ is_number_in_set self.old n }
    {
        let index = (number / 64) as usize;
        let place = u32::from(number % 64);
        self.words[index] = with_bit(self.words[index], place, is_in);
    }

    /// Whether a number is in the set.
    #[tactic(auto, unfolding(crate::specs::inner::is_number_in_set))]
    pub fn is_number_in_set(&self, number: u8) -> bool
        requires { number < 192 }
        ensures { result ≡ is_number_in_set self.now number }
    {
        let word = self.words[(number / 64) as usize];
        (word >> (number % 64)) % 2 == 1
    }

    /// The lowest number in the set from this one on.
    pub fn lowest_number_from(&self, first: u8) -> Option<u8>
        requires { first < 192 }
        ensures least { IfSome result (λ n. first ≤ n) }
        ensures in_range { IfSome result (λ n. n < 192) }
        ensures is_in { IfSome result (λ n. is_number_in_set self.now n ≡ true) }
        ensures before { IfSome result (λ n. (m : ℕ) → first ≤ m → m < n → is_number_in_set self.now m ≡ false) }
        ensures none { IfNone result ((m : ℕ) → first ≤ m → m < 192 → is_number_in_set self.now m ≡ false) }
    {
        let start = first / 64;
        let mut from = u32::from(first % 64);
        for index in start..3 {
            match lowest(self.words[index as usize], from) {
                Some(place) => return Some(64 * index + place as u8),
                None => from = 0,
            }
        }
        None
    }
}
