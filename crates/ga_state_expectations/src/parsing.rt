//! What a line of source expects of a program, as text.

ghost use Rattle.std.specs.Prelude.{◌≡◌};
ghost use Rattle.ga_conditions.specs.Conditions.{labels_of_debug_info};
ghost use Rattle.ga_state_conditions.specs.Asked.{parsed_state_conditions};
ghost use Rattle.ga_state_expectations.specs.Spelling.{parsed_node_expectation, never_expectation, parsed_link_expectation, expectation_of_passed_words, parsed_whole_chip_expectation, is_whole_chip_keyword, begins_with_digit, parse_expectation_words, parsed_expectation};

use crate::cause::ExpectationFaultCause;
use crate::expectation::NodeExpectation;
use crate::link::parse_link;
use crate::requirement::{is_text_without_words, parse_requirement, split_first_word};
use crate::source::Expectation;
use ga_debug_info::{DebugInfo, LabelAddress};
use ga_grid::NodeId;
use ga_state_conditions::parse_state_conditions;
use ga_text::parse_node;

/// The labels of a program, where there is source.
fn labels_of(notes: &Option<DebugInfo>) -> &[LabelAddress]
    ensures { result.now ≡ labels_of_debug_info notes.now }
{
    match notes {
        Some(notes) => notes.names.as_slice(),
        None => &[],
    }
}

/// What is expected of a node, if there is one.
fn parse_node_expectation(
    notes: &Option<DebugInfo>,
    node: Option<NodeId>,
    cause: ExpectationFaultCause,
    text: &[u8],
) -> Result<Expectation, ExpectationFaultCause>
    ensures { result ≡ parsed_node_expectation notes.now node cause text.now }
{
    let Some(node) = node else {
        return Err(cause);
    };
    match parse_requirement(labels_of(notes), node, text) {
        Ok(requirement) => Ok(Expectation::NodeAtEveryEnd(NodeExpectation { node, requirement })),
        Err(cause) => Err(cause),
    }
}

/// `COND or COND ..` after `never`.
fn parse_never(notes: &Option<DebugInfo>, text: &[u8]) -> Result<Expectation, ExpectationFaultCause>
    ensures { result ≡ never_expectation (parsed_state_conditions notes.now text.now) }
{
    match parse_state_conditions(notes, text) {
        Ok(conditions) => Ok(Expectation::Never(conditions)),
        Err(fault) => Err(ExpectationFaultCause::NeverConditionFault(fault)),
    }
}

/// `NNN MMM = NUMBER ..` after `pass`.
fn parse_passes(
    notes: &Option<DebugInfo>,
    text: &[u8],
) -> Result<Expectation, ExpectationFaultCause>
    ensures { result ≡ expectation_of_passed_words (parsed_link_expectation (labels_of_debug_info notes.now) text.now) }
{
    match parse_link(labels_of(notes), text) {
        Ok(expected) => Ok(Expectation::LinkPassesWords(expected)),
        Err(cause) => Err(cause),
    }
}

/// `every order ends` and `one end`.
fn parse_whole_expectation(text: &[u8]) -> Result<Expectation, ExpectationFaultCause>
    ensures { result ≡ parsed_whole_chip_expectation text.now }
{
    if text == b"every order ends".as_slice() {
        Ok(Expectation::EveryOrderEnds)
    } else if text == b"one end".as_slice() {
        Ok(Expectation::OneEnd)
    } else {
        Err(ExpectationFaultCause::NoSuchChipExpectation)
    }
}

/// Whether the word is that of an expectation of all nodes together.
pub(crate) fn is_whole_chip_keyword(word: &[u8]) -> bool
    ensures { result ≡ is_whole_chip_keyword word.now }
{
    word == b"every".as_slice() || word == b"one".as_slice()
}

/// Whether the word begins with a digit, as a node's name and no value does.
pub(crate) fn begins_with_digit(word: &[u8]) -> bool
    ensures { result ≡ begins_with_digit word.now }
{
    match word {
        [byte, ..] => *byte >= b'0' && *byte <= b'9',
        [] => false,
    }
}

/// What is expected, by the first word of a text and the others; the node is that of the line's program.
fn parse_words(
    notes: &Option<DebugInfo>,
    node: Option<NodeId>,
    text: &[u8],
    word: &[u8],
    rest: &[u8],
) -> Result<Expectation, ExpectationFaultCause>
    ensures { result ≡ parse_expectation_words notes.now node text.now word.now rest.now }
{
    if word == b"never".as_slice() {
        parse_never(notes, rest)
    } else if word == b"pass".as_slice() {
        parse_passes(notes, rest)
    } else if is_whole_chip_keyword(word) {
        parse_whole_expectation(text)
    } else if begins_with_digit(word) {
        parse_node_expectation(
            notes,
            parse_node(word),
            ExpectationFaultCause::NoSuchNode,
            rest,
        )
    } else {
        parse_node_expectation(notes, node, ExpectationFaultCause::NoNode, text)
    }
}

/// What the words after `expect` say, of this node if they name no other.
///
/// # Errors
/// What is wrong with them.
#[tactic(auto, unfolding(crate::specs::Spelling::parsed_expectation))]
pub fn parse_expectation(
    notes: &Option<DebugInfo>,
    node: Option<NodeId>,
    text: &[u8],
) -> Result<Expectation, ExpectationFaultCause>
    ensures { result ≡ parsed_expectation notes.now node text.now }
{
    if is_text_without_words(text) {
        return Err(ExpectationFaultCause::NoExpectation);
    }
    let (word, rest) = split_first_word(text);
    parse_words(notes, node, text, word, rest)
}
