//! Words of 18 bits: arithmetic modulo 2 ^ 18, and their text of six hexadecimal digits.
#![tactic(auto)]

ghost use Rattle.std.specs.Prelude.{◌≡◌, ◌+◌, ◌*◌, ◌%◌, ◌^◌, ◌<◌, ◌↔◌, nat_le, IsSome, IfSome};
ghost use Rattle.ga_word.specs.Word.{word_modulus, carry_value, signed_word_value, doubled_word, halved_word, multiply_step_sum, multiply_step_t, multiply_step_a, hex_digits_of_word, six_hex_digits_value};

use std::fmt;
use std::marker::Model;

/// How many words there are.
const WORDS: u32 = 1 << 18;

/// The weight of a word's highest bit.
const SIGN: u32 = 1 << 17;

/// A word of 18 bits, which contracts see as a whole number.
#[derive(Clone, Copy, PartialEq, Eq, Debug)]
pub struct Word18 {
    bits: u32,
}

impl Model for Word18 {
    ghost use Rattle.std.specs.Prelude.{ℕ, ◌<◌};
    ghost use Rattle.ga_word.specs.Word.{word_modulus};

    ghost Value = { ℕ };

    ghost view = { λ w. w.bits };

    ghost invariant = { λ w. w.bits < word_modulus };

    ghost inverse = { λ n. record { bits = n } };
}

impl Word18 {
    /// The word of a number, where it is small enough.
    pub fn new(value: u32) -> Option<Self>
        ensures valid { IsSome result ↔ (value < word_modulus) }
        ensures value { IfSome result (λ w. w ≡ value) }
    {
        if value < WORDS {
            Some(Word18 { bits: value })
        } else {
            None
        }
    }

    /// The lowest 18 bits of a number.
    pub fn from_low_bits(value: u32) -> Self
        ensures { result ≡ value % word_modulus }
    {
        Word18 {
            bits: value % WORDS,
        }
    }

    /// The word as a number below 2^18.
    pub fn get(self) -> u32
        ensures value { result ≡ self }
        ensures in_range { result < word_modulus }
    {
        self.bits
    }

    /// The sum modulo 2^18.
    pub fn add(self, other: Self) -> Self
        ensures { result ≡ (self + other) % word_modulus }
    {
        Word18::from_low_bits(self.bits + other.bits)
    }

    /// The sum with a carry, and whether it passes the greatest word.
    pub fn add_carry(self, other: Self, carry: bool) -> (Self, bool)
        ensures sum { result.0 ≡ (self + other + carry_value carry) % word_modulus }
        ensures carry { result.1 ≡ nat_le word_modulus (self + other + carry_value carry) }
    {
        let sum = self.bits + other.bits + u32::from(carry);
        (Word18::from_low_bits(sum), sum >= WORDS)
    }

    /// The value of the word in two's complement: -2^17 to 2^17 - 1.
    pub fn to_signed_value(self) -> i32
        ensures { result ≡ signed_word_value self }
    {
        if self.bits < SIGN {
            self.bits as i32
        } else {
            self.bits as i32 - WORDS as i32
        }
    }

    /// Twice the word.
    pub fn shl(self) -> Self
        ensures { result ≡ doubled_word self }
    {
        Word18::from_low_bits(self.bits << 1)
    }

    /// Half the word, with its highest bit kept.
    pub fn shr(self) -> Self
        ensures { result ≡ halved_word self }
    {
        Word18 {
            bits: (self.bits >> 1) + (self.bits >> 17 << 17),
        }
    }

    /// T and A after a multiply step, which is this project's own choice: T is half the sum of signed T and, where A is odd,
    /// signed S, rounded down; A is shifted right by one, with the sum's lowest bit in front.
    pub fn mul_step(t: Self, s: Self, a: Self) -> (Self, Self)
        ensures high { result.0 ≡ multiply_step_t (multiply_step_sum t s a) }
        ensures low { result.1 ≡ multiply_step_a (multiply_step_sum t s a) a }
    {
        let sum = t.to_signed_value()
            + if a.bits % 2 == 1 {
                s.to_signed_value()
            } else {
                0
            };
        let high = sum.div_euclid(2).rem_euclid(WORDS as i32) as u32;
        let low = (a.bits >> 1) + (sum.rem_euclid(2) as u32) * SIGN;
        (Word18 { bits: high }, Word18 { bits: low })
    }

    /// The word as six hexadecimal digits in lower case.
    pub fn to_hex_digits(self) -> [u8; 6]
        ensures { result ≡ hex_digits_of_word self }
    {
        let bytes = [
            (self.bits / 65536) as u8,
            (self.bits / 256 % 256) as u8,
            (self.bits % 256) as u8,
        ];
        let mut text = [0; 6];
        let _ = hex::encode_to_slice(&bytes, &mut text);
        text
    }

    /// The number of exactly six hexadecimal digits in either case. It may be past the greatest word.
    pub fn parse_six_hex_digits(text: &[u8]) -> Option<u32>
        ensures value { result ≡ six_hex_digits_value text.now }
        ensures in_range { IfSome result (λ number. number < 2 ^ 24) }
    {
        let mut bytes = [0u8; 3];
        let Ok(()) = hex::decode_to_slice(text, &mut bytes) else {
            return None;
        };
        let [high, middle, low] = bytes;
        Some(u32::from(high) * 65536 + u32::from(middle) * 256 + u32::from(low))
    }
}

/// A word is shown as six hexadecimal digits in lower case.
impl fmt::Display for Word18 {
    fn fmt<W: fmt::Write>(&self, f: &mut fmt::Formatter<W>) -> fmt::Result {
        let bits = self.bits;
        write!(f, "{bits:06x}")
    }
}
