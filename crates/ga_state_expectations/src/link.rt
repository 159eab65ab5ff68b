//! What is expected of the words over a link, as text.

ghost use Rattle.std.specs.Prelude.{◌≡◌, codes, bytes_eq};
ghost use Rattle.ga_state_expectations.specs.Spelling.{valid_word_or_fault_cause, parsed_link_word, mark_link_words_open, parsed_link_words_within, link_expectation_without_words, parsed_link_words, link_expectation_between, parse_link_expectation_words, parsed_link_expectation};

use crate::cause::ExpectationFaultCause;
use crate::requirement::{is_text_without_words, split_first_word};
use arrayvec::ArrayVec;
use ga_conditions::parse_operand;
use ga_debug_info::LabelAddress;
use ga_grid::NodeId;
use ga_races::are_neighbours;
use ga_state_links::{LinkExpectation, MAX_LINK_WORDS};
use ga_text::parse_node;

/// The number of words that there are.
const WORDS: u32 = 1 << 18;

/// The number, if there is one and it is one of a word.
fn valid_word_or_fault_cause(number: Option<u32>) -> Result<u32, ExpectationFaultCause>
    ensures { result ≡ valid_word_or_fault_cause number }
{
    match number {
        Some(number) => {
            if number < WORDS {
                Ok(number)
            } else {
                Err(ExpectationFaultCause::OutOfRange)
            }
        }
        None => Err(ExpectationFaultCause::NoSuchNumber),
    }
}

/// The word that a text names, with the labels of the node that gives it.
fn parse_link_word(
    names: &[LabelAddress],
    giver: NodeId,
    word: &[u8],
) -> Result<u32, ExpectationFaultCause>
    ensures { result ≡ parsed_link_word names.now giver word.now }
{
    valid_word_or_fault_cause(parse_operand(names, giver, word))
}

/// Whether the word says that others may come.
fn is_open_end(word: &[u8]) -> bool
    ensures { result ≡ bytes_eq word.now (codes "..") }
{
    word == b"..".as_slice()
}

/// The expectation with `..`, after which these words come.
fn mark_link_words_open(
    expected: LinkExpectation,
    rest: &[u8],
) -> Result<LinkExpectation, ExpectationFaultCause>
    ensures { result ≡ mark_link_words_open expected rest.now }
{
    if is_text_without_words(rest) {
        Ok(LinkExpectation {
            is_open: true,
            ..expected
        })
    } else {
        Err(ExpectationFaultCause::WordsAfterEnd)
    }
}

/// An expectation of no words.
fn link_expectation_without_words(from: NodeId, to: NodeId) -> LinkExpectation
    ensures { result ≡ link_expectation_without_words from to }
{
    LinkExpectation {
        from,
        to,
        words: ArrayVec::new(),
        is_open: false,
    }
}

/// The expectation with the words that a text names.
fn parse_words_within(
    names: &[LabelAddress],
    from: NodeId,
    to: NodeId,
    text: &[u8],
) -> Result<LinkExpectation, ExpectationFaultCause>
    ensures { result ≡ parsed_link_words_within names.now 64 (link_expectation_without_words from to) text.now }
{
    let mut expected = link_expectation_without_words(from, to);
    let mut left = text;
    'words: for _place in 0..MAX_LINK_WORDS {
        let (word, rest) = split_first_word(left);
        if is_open_end(word) {
            return mark_link_words_open(expected, rest);
        }
        match parse_link_word(names, expected.from, word) {
            Ok(number) => expected.words.push(number),
            Err(cause) => return Err(cause),
        }
        if is_text_without_words(rest) {
            return Ok(expected);
        }
        left = rest;
    }
    let (word, rest) = split_first_word(left);
    if is_open_end(word) {
        mark_link_words_open(expected, rest)
    } else {
        Err(ExpectationFaultCause::TooManyLinkWords)
    }
}

/// `NUMBER ..` after two nodes and `=`.
fn parse_link_words(
    names: &[LabelAddress],
    from: NodeId,
    to: NodeId,
    text: &[u8],
) -> Result<LinkExpectation, ExpectationFaultCause>
    ensures { result ≡ parsed_link_words names.now from to text.now }
{
    if is_text_without_words(text) {
        return Err(ExpectationFaultCause::NoLinkWords);
    }
    parse_words_within(names, from, to, text)
}

/// The same after what two names name.
fn parse_between(
    names: &[LabelAddress],
    from: Option<NodeId>,
    to: Option<NodeId>,
    text: &[u8],
) -> Result<LinkExpectation, ExpectationFaultCause>
    ensures { result ≡ link_expectation_between names.now from to text.now }
{
    let Some(from) = from else {
        return Err(ExpectationFaultCause::NoSuchNode);
    };
    let Some(to) = to else {
        return Err(ExpectationFaultCause::NoSuchNode);
    };
    if are_neighbours(from, to) {
        parse_link_words(names, from, to, text)
    } else {
        Err(ExpectationFaultCause::NotNeighbours)
    }
}

/// The same after two names and a sign.
fn parse_link_of_words(
    names: &[LabelAddress],
    from: &[u8],
    to: &[u8],
    sign: &[u8],
    text: &[u8],
) -> Result<LinkExpectation, ExpectationFaultCause>
    ensures { result ≡ parse_link_expectation_words names.now from.now to.now sign.now text.now }
{
    if sign == b"=".as_slice() {
        parse_between(names, parse_node(from), parse_node(to), text)
    } else {
        Err(ExpectationFaultCause::NotLink)
    }
}

/// `NNN MMM = NUMBER ..`, with the labels of a program: words that pass over a link, and `..` last if others may come after them.
#[tactic(auto, unfolding(crate::specs::Spelling::parsed_link_expectation))]
pub(crate) fn parse_link(
    names: &[LabelAddress],
    text: &[u8],
) -> Result<LinkExpectation, ExpectationFaultCause>
    ensures { result ≡ parsed_link_expectation names.now text.now }
{
    let (from, rest) = split_first_word(text);
    let (to, rest) = split_first_word(rest);
    let (sign, words) = split_first_word(rest);
    parse_link_of_words(names, from, to, sign, words)
}
