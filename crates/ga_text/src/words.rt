//! The words of a line: where one ends, and the node, the number or the byte that it names.

ghost use Rattle.std.specs.Prelude.{◌≡◌, ◌+◌, ◌*◌, ◌<◌, [], ◌∷◌, option_map};
ghost use Rattle.ga_grid.specs.Grid.{node_number_of_name as node_numbered, node_id, decimal_digit};
ghost use Rattle.ga_text.specs.Digits.{hex_byte_value};
ghost use Rattle.ga_text.specs.Parsing.{split_at_space, parse_node, parse_number, number_with_decimal_digit};

use ga_grid::{NodeId, decimal_digit};

/// The text before the first space, and the text after it.
#[tactic(auto, using(crate::proofs::Taking::at_space, crate::proofs::Taking::no_space))]
pub fn split_at_space(text: &[u8]) -> Option<(&[u8], &[u8])>
    ensures { option_map (λ parts. (parts.0.now, parts.1.now)) result ≡ split_at_space text.now }
{
    for (i, byte) in text.iter().enumerate() {
        if *byte == b' ' {
            return Some((text.split_at(i).0, text.split_at(i + 1).1));
        }
    }
    None
}

/// The node that is named by three decimal digits: its row, and two of its column.
#[tactic(auto, unfolding(crate::specs::Parsing::parse_node, ga_grid::specs::Grid::parse_decimal_name))]
pub fn parse_node(word: &[u8]) -> Option<NodeId>
    ensures { result ≡ parse_node word.now }
{
    match word {
        [row, tens, ones] => parse_node_digits(*row, *tens, *ones),
        _ => None,
    }
}

/// The node of three decimal digits: one of its row, and two of its column.
#[tactic(auto, unfolding(crate::specs::Parsing::parse_node, ga_grid::specs::Grid::parse_decimal_name))]
#[inline(always)]
pub fn parse_node_digits(row: u8, tens: u8, ones: u8) -> Option<NodeId>
    ensures { result ≡ parse_node (row ∷ tens ∷ ones ∷ []) }
{
    let row = decimal_digit(row)?;
    let tens = decimal_digit(tens)?;
    let ones = decimal_digit(ones)?;
    node_at(row, 10 * tens + ones)
}

/// The node of a row and a column, where there is one.
#[inline(always)]
fn node_at(row: u32, column: u32) -> Option<NodeId>
    requires { column < 100 }
    ensures { result ≡ option_map node_id (node_numbered (100 * row + column)) }
{
    if row < 8 && column < 18 {
        Some(NodeId::new((18 * row + column) as u8))
    } else {
        None
    }
}

/// A decimal number below 2^32 without leading zeros.
pub fn parse_number(word: &[u8]) -> Option<u32>
    ensures { result ≡ parse_number word.now }
{
    let (first, rest) = word.split_first()?;
    let mut number = decimal_digit(*first)?;
    'digits: for byte in rest {
        number = number_with_decimal_digit(number, *byte)?;
    }
    Some(number)
}

/// A number with one digit more, where it had no leading zero and fits.
fn number_with_decimal_digit(number: u32, byte: u8) -> Option<u32>
    ensures { result ≡ number_with_decimal_digit number byte }
{
    if number == 0 {
        return None;
    }
    let digit = decimal_digit(byte)?;
    number.checked_mul(10)?.checked_add(digit)
}

/// A number of exactly two hexadecimal digits in either case.
pub fn parse_hex_byte(text: &[u8]) -> Option<u8>
    ensures { result ≡ hex_byte_value text.now }
{
    let mut byte = [0];
    let Ok(()) = hex::decode_to_slice(text, &mut byte) else {
        return None;
    };
    Some(byte[0])
}
