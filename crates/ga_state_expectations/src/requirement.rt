//! What is required of a node, as text.

ghost use Rattle.std.specs.Prelude.{◌≡◌, ◌<◌};
ghost use Rattle.ga_ports.specs.Address.{has_side};
ghost use Rattle.ga_state_expectations.specs.Spelling.{split_first_word, is_text_without_words, parsed_side_name, side_set_with_side, parsed_sides, parsed_writes_requirement, parsed_awaits_requirement, parsed_stops_requirement, requirement_of_value_test, requirement_of_number_text, requirement_of_comparison_text, parse_requirement_words, parsed_requirement};

use crate::cause::ExpectationFaultCause;
use crate::expectation::{NodeRequirement, is_step_count};
use ga_conditions::{parse_comparison, parse_node_value, parse_operand};
use ga_debug_info::LabelAddress;
use ga_grid::NodeId;
use ga_ports::{PortSet, Side};
use ga_scheduler::{Comparison, NodeValue, ValueTest};
use ga_text::split_at_space;

/// The maximum number of sides that are named.
const MAX_SIDES: usize = 4;

/// The first word of a text, and those after it.
pub(crate) fn split_first_word(text: &[u8]) -> (&[u8], &[u8])
    ensures { (result.0.now, result.1.now) ≡ split_first_word text.now }
{
    match split_at_space(text) {
        Some(parts) => parts,
        None => (text, &[]),
    }
}

/// Whether a text has no words.
pub(crate) fn is_text_without_words(text: &[u8]) -> bool
    ensures { result ≡ is_text_without_words text.now }
{
    text.is_empty()
}

/// The side of this name.
fn parse_side(word: &[u8]) -> Option<Side>
    ensures { result ≡ parsed_side_name word.now }
{
    if word == b"right".as_slice() {
        Some(Side::Right)
    } else if word == b"down".as_slice() {
        Some(Side::Down)
    } else if word == b"left".as_slice() {
        Some(Side::Left)
    } else if word == b"up".as_slice() {
        Some(Side::Up)
    } else {
        None
    }
}

/// Whether a set of sides, or of none, has the side.
fn has_side(sides: u8, side: Side) -> bool
    ensures { result ≡ has_side sides side }
{
    match side {
        Side::Right => sides / 8 % 2 == 1,
        Side::Down => sides / 4 % 2 == 1,
        Side::Left => sides / 2 % 2 == 1,
        Side::Up => sides % 2 == 1,
    }
}

/// A set of sides, or of none, with one more.
fn side_set_with_side(sides: u8, side: Side) -> u8
    requires { sides < 16 }
    ensures value { result ≡ side_set_with_side sides side }
    ensures in_range { (0 < result) × (result < 16) }
{
    if has_side(sides, side) {
        sides
    } else {
        sides + side.bit_in_set()
    }
}

/// The sides that a text names.
fn parse_sides(text: &[u8]) -> Result<PortSet, ExpectationFaultCause>
    ensures { result ≡ parsed_sides text.now }
{
    if is_text_without_words(text) {
        return Err(ExpectationFaultCause::NoSide);
    }
    let mut sides = 0;
    let mut left = text;
    'words: for _place in 0..MAX_SIDES {
        let (word, rest) = split_first_word(left);
        match parse_side(word) {
            Some(side) => sides = side_set_with_side(sides, side),
            None => return Err(ExpectationFaultCause::NoSuchSide),
        }
        if is_text_without_words(rest) {
            return Ok(PortSet::from_bits(sides));
        }
        left = rest;
    }
    Err(ExpectationFaultCause::TooManySides)
}

/// `SIDE` after `writes`.
fn parse_write(text: &[u8]) -> Result<NodeRequirement, ExpectationFaultCause>
    ensures { result ≡ parsed_writes_requirement text.now }
{
    if is_text_without_words(text) {
        return Err(ExpectationFaultCause::NoSide);
    }
    let (word, rest) = split_first_word(text);
    if !is_text_without_words(rest) {
        return Err(ExpectationFaultCause::TooManySides);
    }
    match parse_side(word) {
        Some(side) => Ok(NodeRequirement::WritesToSide(side)),
        None => Err(ExpectationFaultCause::NoSuchSide),
    }
}

/// `code` after `awaits`.
fn parse_wait(text: &[u8]) -> Result<NodeRequirement, ExpectationFaultCause>
    ensures { result ≡ parsed_awaits_requirement text.now }
{
    if text == b"code".as_slice() {
        Ok(NodeRequirement::AwaitsCode)
    } else {
        Err(ExpectationFaultCause::AwaitedNotCode)
    }
}

/// `N` after `stops`.
fn parse_stop(text: &[u8]) -> Result<NodeRequirement, ExpectationFaultCause>
    ensures { result ≡ parsed_stops_requirement text.now }
{
    if text == b"1".as_slice() {
        Ok(NodeRequirement::Stopped(1))
    } else if text == b"2".as_slice() {
        Ok(NodeRequirement::Stopped(2))
    } else if text == b"3".as_slice() {
        Ok(NodeRequirement::Stopped(3))
    } else {
        Err(ExpectationFaultCause::NoSuchStop)
    }
}

/// The test, if its number is a word.
fn requirement_of_value_test(test: ValueTest) -> Result<NodeRequirement, ExpectationFaultCause>
    ensures { result ≡ requirement_of_value_test test }
{
    if test.is_test_number_in_range() {
        Ok(NodeRequirement::PassesValueTest(test))
    } else {
        Err(ExpectationFaultCause::OutOfRange)
    }
}

/// `NUMBER` after a value and a sign.
fn parse_number(
    names: &[LabelAddress],
    node: NodeId,
    value: NodeValue,
    comparison: Option<Comparison>,
    text: &[u8],
) -> Result<NodeRequirement, ExpectationFaultCause>
    ensures { result ≡ requirement_of_number_text names.now node value comparison text.now }
{
    let Some(comparison) = comparison else {
        return Err(ExpectationFaultCause::NoSuchComparison);
    };
    if is_text_without_words(text) {
        return Err(ExpectationFaultCause::NoNumber);
    }
    match parse_operand(names, node, text) {
        Some(number) => requirement_of_value_test(ValueTest {
            value,
            comparison,
            number,
        }),
        None => Err(ExpectationFaultCause::NoSuchNumber),
    }
}

/// `OP NUMBER` after a value, which isn't the number of steps.
fn parse_comparison_after(
    names: &[LabelAddress],
    node: NodeId,
    value: Option<NodeValue>,
    text: &[u8],
) -> Result<NodeRequirement, ExpectationFaultCause>
    ensures { result ≡ requirement_of_comparison_text names.now node value text.now }
{
    let Some(value) = value else {
        return Err(ExpectationFaultCause::NoSuchValue);
    };
    if is_step_count(value) {
        return Err(ExpectationFaultCause::CountsSteps);
    }
    let (sign, number) = split_first_word(text);
    parse_number(names, node, value, parse_comparison(sign), number)
}

/// What is required by a first word and the others.
fn parse_words(
    names: &[LabelAddress],
    node: NodeId,
    word: &[u8],
    text: &[u8],
) -> Result<NodeRequirement, ExpectationFaultCause>
    ensures { result ≡ parse_requirement_words names.now node word.now text.now }
{
    if word == b"reads".as_slice() {
        match parse_sides(text) {
            Ok(sides) => Ok(NodeRequirement::ReadsFromSides(sides)),
            Err(cause) => Err(cause),
        }
    } else if word == b"writes".as_slice() {
        parse_write(text)
    } else if word == b"awaits".as_slice() {
        parse_wait(text)
    } else if word == b"stops".as_slice() {
        parse_stop(text)
    } else {
        parse_comparison_after(names, node, parse_node_value(word), text)
    }
}

/// What a text requires of a node, with the labels of a program.
#[tactic(auto, unfolding(crate::specs::Spelling::parsed_requirement))]
pub(crate) fn parse_requirement(
    names: &[LabelAddress],
    node: NodeId,
    text: &[u8],
) -> Result<NodeRequirement, ExpectationFaultCause>
    ensures { result ≡ parsed_requirement names.now node text.now }
{
    if is_text_without_words(text) {
        return Err(ExpectationFaultCause::NoExpectation);
    }
    let (word, rest) = split_first_word(text);
    parse_words(names, node, word, rest)
}
