//! Numbers of conditions.

ghost use Rattle.std.specs.Prelude.{◌≡◌};
ghost use Rattle.ga_conditions.specs.Numbers.{parsed_hex_word, parse_hex_digit, append_hex_digit, parse_hex_number, parse_unsigned_number, word_of_negated_number, parse_signed_number, parse_operand_without_label, parsed_operand};

use ga_debug_info::{LabelAddress, label_address};
use ga_grid::NodeId;
use ga_parser::parse_port;
use ga_text::{parse_hex_byte, parse_number};
use ga_word::Word18;

/// A word as answers have it: six hexadecimal digits, in either case.
#[tactic(auto, unfolding(crate::specs::Numbers::parsed_hex_word))]
pub fn parse_hex_word(text: &[u8]) -> Option<Word18>
    ensures { result ≡ parsed_hex_word text.now }
{
    match text {
        [a, b, c, d, e, f] => {
            let high = parse_hex_byte(&[*a, *b])?;
            let middle = parse_hex_byte(&[*c, *d])?;
            let low = parse_hex_byte(&[*e, *f])?;
            Word18::new(65536 * u32::from(high) + 256 * u32::from(middle) + u32::from(low))
        }
        _ => None,
    }
}

fn hex_digit(byte: u8) -> Option<u32>
    ensures { result ≡ parse_hex_digit byte }
{
    if byte >= b'0' && byte <= b'9' {
        Some(u32::from(byte) - 48)
    } else if byte >= b'a' && byte <= b'f' {
        Some(u32::from(byte) - 87)
    } else if byte >= b'A' && byte <= b'F' {
        Some(u32::from(byte) - 55)
    } else {
        None
    }
}

// A number with one hexadecimal digit more, if it is below 2^32.
fn append_hex_digit(number: u32, byte: u8) -> Option<u32>
    ensures { result ≡ append_hex_digit number byte }
{
    let digit = hex_digit(byte)?;
    number.checked_mul(16)?.checked_add(digit)
}

// The number of hexadecimal digits, below 2^32.
fn hex_number(text: &[u8]) -> Option<u32>
    ensures { result ≡ parse_hex_number text.now }
{
    let (first, rest) = text.split_first()?;
    let mut number = hex_digit(*first)?;
    'digits: for byte in rest {
        number = append_hex_digit(number, *byte)?;
    }
    Some(number)
}

// Hexadecimal digits after `0x`, or decimal ones without leading zeros.
fn size(text: &[u8]) -> Option<u32>
    ensures { result ≡ parse_unsigned_number text.now }
{
    match text.strip_prefix(b"0x") {
        Some(digits) => hex_number(digits),
        None => parse_number(text),
    }
}

// A number below 0, modulo 2^18.
fn word_of_negated_number(size: u32) -> Option<u32>
    ensures { result ≡ word_of_negated_number size }
{
    if size <= 0x2_0000 {
        Some((0x4_0000 - size) % 0x4_0000)
    } else {
        None
    }
}

// A number, after `-` or without.
fn plain_number(text: &[u8]) -> Option<u32>
    ensures { result ≡ parse_signed_number text.now }
{
    match text.strip_prefix(b"-") {
        Some(digits) => word_of_negated_number(size(digits)?),
        None => size(text),
    }
}

// A number, or a word as answers have it, or the address of a port.
fn plain_operand(text: &[u8]) -> Option<u32>
    ensures { result ≡ parse_operand_without_label text.now }
{
    if let Some(number) = plain_number(text) {
        return Some(number);
    }
    match parse_hex_word(text) {
        Some(word) => Some(word.get()),
        None => parse_port(text),
    }
}

/// A number, a word as answers have it, the address of a port, or else that of a label of the node.
pub fn parse_operand(names: &[LabelAddress], node: NodeId, text: &[u8]) -> Option<u32>
    ensures { result ≡ parsed_operand names.now node text.now }
{
    match plain_operand(text) {
        Some(number) => Some(number),
        None => label_address(names, node, text),
    }
}
