//! Words that say a number: digits, ports and sets of ports.

ghost use Rattle.std.specs.Prelude.{◌≡◌, ◌<◌, ◌≤◌, ◌^◌, min, IfSome, option_map};
ghost use Rattle.std.specs.Char.{digit_value};
ghost use Rattle.std.specs.Option.{option_map_or, SomeIff};
ghost use Rattle.ga_parser.specs.declared.number.Number.TheVariants.{Nothing};
ghost use Rattle.ga_parser.specs.Vocabulary.{value_of_digits, unsigned_number, number_in_word_range, negative_number_in_range, signed_number, named_port_set, named_port_address, number_spelled_by_word};

use ga_ports::parse_side_set;

/// What a word says of a number.
#[derive(Clone, Copy, PartialEq, Eq)]
pub(crate) enum Number {
    Of(u32),
    OutOfRange,
    Nothing,
}

/// The greatest number that is distinguished; every greater one is represented by it.
const GREATEST: u32 = 0x100_0000;

/// The value of a digit of a base.
fn digit(byte: u8, base: u32) -> Option<u32>
    requires least { 2 ≤ base }
    requires most { base ≤ 16 }
    ensures { SomeIff result (digit_value byte < base) (digit_value byte) }
{
    char::from(byte).to_digit(base)
}

/// The number of some digits of a base, where there are only such.
#[tactic(auto, using(crate::proofs::Numbers::no_digits))]
pub(crate) fn digits(text: &[u8], base: u32) -> Option<u32>
    requires least { 2 ≤ base }
    requires most { base ≤ 16 }
    ensures { result ≡ option_map (λ number. min number (2 ^ 24)) (value_of_digits base text.now) }
{
    if text.is_empty() {
        return None;
    }
    let mut number = 0u32;
    for byte in text {
        let digit = digit(*byte, base)?;
        number = (number * base + digit).min(GREATEST);
    }
    Some(number)
}

/// A number as it is written, where the word is one.
fn plain(text: &[u8]) -> Option<u32>
    ensures { result ≡ option_map (λ number. min number (2 ^ 24)) (unsigned_number text.now) }
{
    match text.strip_prefix(b"0x") {
        Some(rest) => digits(rest, 16),
        None => digits(text, 10),
    }
}

/// A number of this size.
fn number_in_word_range(size: u32) -> Number
    ensures { result ≡ number_in_word_range size }
{
    if size < 0x4_0000 {
        Number::Of(size)
    } else {
        Number::OutOfRange
    }
}

/// A number of this size below 0.
fn negative_number_in_range(size: u32) -> Number
    ensures { result ≡ negative_number_in_range size }
{
    if size <= 0x2_0000 {
        Number::Of((0x4_0000 - size) % 0x4_0000)
    } else {
        Number::OutOfRange
    }
}

/// The number of digits after a `-`.
fn negative(text: &[u8]) -> Number
    ensures { result ≡ option_map_or negative_number_in_range (unsigned_number text.now) Nothing }
{
    match plain(text) {
        Some(size) => negative_number_in_range(size),
        None => Number::Nothing,
    }
}

/// What digits say of a number.
fn positive(text: &[u8]) -> Number
    ensures { result ≡ option_map_or number_in_word_range (unsigned_number text.now) Nothing }
{
    match plain(text) {
        Some(size) => number_in_word_range(size),
        None => Number::Nothing,
    }
}

/// The number of digits, after a `-` or without.
fn numeral(text: &[u8]) -> Number
    ensures { result ≡ signed_number text.now }
{
    match text.strip_prefix(b"-") {
        Some(rest) => negative(rest),
        None => positive(text),
    }
}

/// The number of a word modulo 2^18.
pub(crate) fn number_of(text: &[u8]) -> Number
    ensures { result ≡ number_spelled_by_word text.now }
{
    match parse_port(text) {
        Some(address) => Number::Of(address),
        None => numeral(text),
    }
}

/// The address of a port (`right`, `down`, `left`, `up`, `io`) or of a set of ports (`r---`, `rdlu` and so on).
pub fn parse_port(text: &[u8]) -> Option<u32>
    ensures { result ≡ named_port_address text.now }
{
    if text == b"right".as_slice() {
        Some(0x1d5)
    } else if text == b"down".as_slice() {
        Some(0x115)
    } else if text == b"left".as_slice() {
        Some(0x175)
    } else if text == b"up".as_slice() {
        Some(0x145)
    } else if text == b"io".as_slice() {
        Some(0x15d)
    } else {
        named_port_addresses(text)
    }
}

/// The address of a set of ports.
fn named_port_addresses(text: &[u8]) -> Option<u32>
    ensures { result ≡ named_port_set text.now }
{
    let set = parse_side_set(text)?;
    if set == 0 {
        None
    } else {
        Some(0x155 ^ (16 * set))
    }
}
