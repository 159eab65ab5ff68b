//! Comparisons of a value that a node holds with a number, as text.

ghost use Rattle.std.specs.Prelude.{◌≡◌};
ghost use Rattle.ga_conditions.specs.Tests.{node_value_of_one_letter, node_value_of_two_letters, node_value_in_brackets, node_value_of_keyword, parsed_node_value, parsed_comparison, parsed_value_test};

use crate::numbers::parse_operand;
use ga_debug_info::LabelAddress;
use ga_grid::NodeId;
use ga_scheduler::{Comparison, NodeValue, ValueTest};
use ga_text::{parse_hex_byte, split_at_space};

// The register of one letter.
fn node_value_of_one_letter(letter: u8) -> Option<NodeValue>
    ensures { result ≡ node_value_of_one_letter letter }
{
    match letter {
        b't' => Some(NodeValue::DataWord(0)),
        b's' => Some(NodeValue::DataWord(1)),
        b'r' => Some(NodeValue::ReturnWord(0)),
        b'p' => Some(NodeValue::P),
        b'a' => Some(NodeValue::A),
        b'b' => Some(NodeValue::B),
        b'i' => Some(NodeValue::I),
        _ => None,
    }
}

// A word of a stack by its place, or `io`.
fn node_value_of_two_letters(stack: u8, place: u8) -> Option<NodeValue>
    ensures { result ≡ node_value_of_two_letters stack place }
{
    if stack == b'd' && place >= b'2' && place <= b'9' {
        Some(NodeValue::DataWord(place - b'0'))
    } else if stack == b'r' && place >= b'1' && place <= b'8' {
        Some(NodeValue::ReturnWord(place - b'0'))
    } else if stack == b'i' && place == b'o' {
        Some(NodeValue::Io)
    } else {
        None
    }
}

// The cell of two hexadecimal digits in brackets.
fn node_value_in_brackets(text: &[u8]) -> Option<NodeValue>
    ensures { result ≡ node_value_in_brackets text.now }
{
    if text.len() == 4 && text[0] == b'[' && text[3] == b']' {
        let address = parse_hex_byte(&text[1..3])?;
        Some(NodeValue::Cell(address))
    } else {
        None
    }
}

// The value of a longer name.
fn node_value_of_keyword(text: &[u8]) -> Option<NodeValue>
    ensures { result ≡ node_value_of_keyword text.now }
{
    if text == b"slot".as_slice() {
        Some(NodeValue::Slot)
    } else if text == b"carry".as_slice() {
        Some(NodeValue::Carry)
    } else if text == b"step".as_slice() {
        Some(NodeValue::StepCountValue)
    } else {
        node_value_in_brackets(text)
    }
}

/// The value with this name: `t s r p a b i`, `d2` to `d9`, `r1` to `r8`, `io`, `slot`, `carry`, `step` or a cell `[HH]`.
#[tactic(auto, unfolding(crate::specs::Tests::parsed_node_value))]
pub fn parse_node_value(text: &[u8]) -> Option<NodeValue>
    ensures { result ≡ parsed_node_value text.now }
{
    match text {
        [letter] => node_value_of_one_letter(*letter),
        [stack, place] => node_value_of_two_letters(*stack, *place),
        _ => node_value_of_keyword(text),
    }
}

/// The comparison with this sign: `=` or `==`, `!=`, `<`, `<=`, `>` or `>=`.
pub fn parse_comparison(text: &[u8]) -> Option<Comparison>
    ensures { result ≡ parsed_comparison text.now }
{
    if text == b"=".as_slice() || text == b"==".as_slice() {
        Some(Comparison::Equal)
    } else if text == b"!=".as_slice() {
        Some(Comparison::Unequal)
    } else if text == b"<".as_slice() {
        Some(Comparison::Less)
    } else if text == b"<=".as_slice() {
        Some(Comparison::AtMost)
    } else if text == b">".as_slice() {
        Some(Comparison::More)
    } else if text == b">=".as_slice() {
        Some(Comparison::AtLeast)
    } else {
        None
    }
}

/// The test of a value of the node, `VALUE OP NUMBER` with a space between; none if it has another form. The number may be a label of the
/// node, and need not be possible ([`ValueTest::is_test_number_in_range`]).
#[tactic(auto, unfolding(crate::specs::Tests::parsed_value_test))]
pub fn parse_value_test(names: &[LabelAddress], node: NodeId, text: &[u8]) -> Option<ValueTest>
    ensures { result ≡ parsed_value_test names.now node text.now }
{
    let (value, rest) = split_at_space(text)?;
    let (sign, number) = split_at_space(rest)?;
    let value = parse_node_value(value)?;
    let comparison = parse_comparison(sign)?;
    let number = parse_operand(names, node, number)?;
    Some(ValueTest {
        value,
        comparison,
        number,
    })
}
