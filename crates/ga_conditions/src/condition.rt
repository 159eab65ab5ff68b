//! One condition of a run or of a search back, as text.

ghost use Rattle.std.specs.Prelude.{◌≡◌};
ghost use Rattle.ga_conditions.specs.Conditions.{parsed_run_condition, parse_keyword_condition, condition_by_keyword, parse_test_condition, value_test_if_in_range, parse_step_condition, parse_pass_condition, parse_link_condition, parse_word_condition, labels_of_debug_info, parse_memory_condition, parse_node_and_address, p_equals_condition, parse_change_condition, parse_cell_write_condition, parse_address_or_label, parse_label_or_line, parse_line_address, source_line_address, parse_equal_word, parse_operand_word};

use crate::numbers::{parse_hex_word, parse_operand};
use crate::tests_of_values::{parse_comparison, parse_value_test};
use ga_debug_info::{DebugInfo, LabelAddress, label_address};
use ga_grid::NodeId;
use ga_scheduler::{Comparison, Condition, NodeValue, ValueTest};
use ga_text::{parse_hex_byte, parse_node, parse_number, split_at_space};
use ga_word::Word18;

/// The condition that a text spells, or none.
pub fn parse_run_condition(notes: &Option<DebugInfo>, text: &[u8]) -> Option<Condition>
    ensures { result ≡ parsed_run_condition notes.now text.now }
{
    match split_at_space(text) {
        Some((name, rest)) => condition_by_keyword(notes, name, rest),
        None => parse_keyword_condition(text),
    }
}

#[tactic(auto, unfolding(crate::specs::Conditions::parse_keyword_condition))]
fn parse_keyword_condition(name: &[u8]) -> Option<Condition>
    ensures { result ≡ parse_keyword_condition name.now }
{
    match name {
        b"stop" => Some(Condition::AnyNodeStops),
        _ => None,
    }
}

#[tactic(auto, unfolding(crate::specs::Conditions::condition_by_keyword))]
fn condition_by_keyword(notes: &Option<DebugInfo>, name: &[u8], rest: &[u8]) -> Option<Condition>
    ensures { result ≡ condition_by_keyword notes.now name.now rest.now }
{
    if name == b"stop".as_slice() {
        Some(Condition::GivenNodeStops(parse_node(rest)?))
    } else if name == b"wait".as_slice() {
        Some(Condition::GivenNodeWaits(parse_node(rest)?))
    } else if name == b"step".as_slice() {
        steps_of(rest)
    } else if name == b"pass".as_slice() {
        passes_of(rest)
    } else if name == b"mem".as_slice() {
        holds_of(notes, rest)
    } else if name == b"p".as_slice() {
        let (node, address) = parse_node_and_address(notes, rest)?;
        Some(p_equals_condition(node, address))
    } else if name == b"reach".as_slice() {
        let (node, address) = parse_node_and_address(notes, rest)?;
        Some(Condition::ReachesAddress { node, address })
    } else if name == b"change".as_slice() {
        changes_of(notes, rest)
    } else {
        tested(notes, parse_node(name)?, rest)
    }
}

/// The labels of a program, where there is source.
fn names(notes: &Option<DebugInfo>) -> &[LabelAddress]
    ensures { result.now ≡ labels_of_debug_info notes.now }
{
    match notes {
        Some(notes) => notes.names.as_slice(),
        None => &[],
    }
}

/// The test, if its number is a word or counts steps.
fn possible(test: ValueTest) -> Option<ValueTest>
    ensures { result ≡ value_test_if_in_range test }
{
    if test.is_test_number_in_range() {
        Some(test)
    } else {
        None
    }
}

/// `VALUE OP NUMBER` of a node
#[tactic(auto, unfolding(crate::specs::Conditions::parse_test_condition))]
fn tested(notes: &Option<DebugInfo>, node: NodeId, text: &[u8]) -> Option<Condition>
    ensures { result ≡ parse_test_condition notes.now node text.now }
{
    let test = possible(parse_value_test(names(notes), node, text)?)?;
    Some(Condition::HoldsPlaceValue { node, test })
}

/// P of the node is this address.
fn p_equals_condition(node: NodeId, address: u32) -> Condition
    ensures { result ≡ p_equals_condition node address }
{
    Condition::HoldsPlaceValue {
        node,
        test: ValueTest {
            value: NodeValue::P,
            comparison: Comparison::Equal,
            number: address,
        },
    }
}

/// `NNN K`
#[tactic(auto, unfolding(crate::specs::Conditions::parse_step_condition))]
fn steps_of(text: &[u8]) -> Option<Condition>
    ensures { result ≡ parse_step_condition text.now }
{
    let (node, step) = split_at_space(text)?;
    Some(Condition::MakesNumberedStep {
        node: parse_node(node)?,
        step: parse_number(step)?,
    })
}

/// `NNN MMM OP NUMBER` or `NNN MMM J`
#[tactic(auto, unfolding(crate::specs::Conditions::parse_pass_condition))]
fn passes_of(text: &[u8]) -> Option<Condition>
    ensures { result ≡ parse_pass_condition text.now }
{
    let (writer, rest) = split_at_space(text)?;
    let (reader, rest) = split_at_space(rest)?;
    passed_of(parse_node(writer)?, parse_node(reader)?, rest)
}

/// `OP NUMBER` or `J`
fn passed_of(writer: NodeId, reader: NodeId, text: &[u8]) -> Option<Condition>
    ensures { result ≡ parse_link_condition writer reader text.now }
{
    match split_at_space(text) {
        Some((sign, word)) => compared(writer, reader, sign, word),
        None => Some(Condition::PassesNthWord {
            writer,
            reader,
            number: parse_number(text)?,
        }),
    }
}

/// `OP NUMBER` of a word that passes
#[tactic(auto, unfolding(crate::specs::Conditions::parse_word_condition))]
fn compared(writer: NodeId, reader: NodeId, sign: &[u8], word: &[u8]) -> Option<Condition>
    ensures { result ≡ parse_word_condition writer reader sign.now word.now }
{
    Some(Condition::PassesWord {
        writer,
        reader,
        comparison: parse_comparison(sign)?,
        word: word_of(&[], reader, word)?,
    })
}

/// `NNN HH = NUMBER`
#[tactic(auto, unfolding(crate::specs::Conditions::parse_memory_condition))]
fn holds_of(notes: &Option<DebugInfo>, text: &[u8]) -> Option<Condition>
    ensures { result ≡ parse_memory_condition notes.now text.now }
{
    let (node, rest) = split_at_space(text)?;
    let (address, rest) = split_at_space(rest)?;
    let node = parse_node(node)?;
    let address = parse_hex_byte(address)?;
    let word = word_equal(names(notes), node, rest)?;
    Some(Condition::HoldsPlaceValue {
        node,
        test: ValueTest {
            value: NodeValue::Cell(address),
            comparison: Comparison::Equal,
            number: word.get(),
        },
    })
}

/// `NNN X`
#[tactic(auto, unfolding(crate::specs::Conditions::parse_node_and_address))]
fn parse_node_and_address(notes: &Option<DebugInfo>, text: &[u8]) -> Option<(NodeId, u32)>
    ensures { result ≡ parse_node_and_address notes.now text.now }
{
    let (node, address) = split_at_space(text)?;
    let node = parse_node(node)?;
    let address = label_address_of_node(notes, node, address)?;
    Some((node, address))
}

/// `NNN HH` or `NNN HH = NUMBER`
#[tactic(auto, unfolding(crate::specs::Conditions::parse_change_condition))]
fn changes_of(notes: &Option<DebugInfo>, text: &[u8]) -> Option<Condition>
    ensures { result ≡ parse_change_condition notes.now text.now }
{
    let (node, rest) = split_at_space(text)?;
    written_of(names(notes), parse_node(node)?, rest)
}

/// `HH` or `HH = NUMBER`
fn written_of(names: &[LabelAddress], node: NodeId, text: &[u8]) -> Option<Condition>
    ensures { result ≡ parse_cell_write_condition names.now node text.now }
{
    match split_at_space(text) {
        Some((address, rest)) => {
            let address = parse_hex_byte(address)?;
            let word = word_equal(names, node, rest)?;
            Some(Condition::WritesRamCell {
                node,
                address,
                word: Some(word),
            })
        }
        None => {
            let address = parse_hex_byte(text)?;
            Some(Condition::WritesRamCell {
                node,
                address,
                word: None,
            })
        }
    }
}

/// An address, or else a label of the node or `line N`, which only source gives.
fn label_address_of_node(notes: &Option<DebugInfo>, node: NodeId, text: &[u8]) -> Option<u32>
    ensures { result ≡ parse_address_or_label notes.now node text.now }
{
    match parse_hex_word(text) {
        Some(word) => Some(word.get()),
        None => noted_of(notes, node, text),
    }
}

/// A label, or `line N`.
fn noted_of(notes: &Option<DebugInfo>, node: NodeId, text: &[u8]) -> Option<u32>
    ensures { result ≡ parse_label_or_line notes.now node text.now }
{
    match split_at_space(text) {
        Some((name, line)) => line_of(notes, node, name, line),
        None => label_address(names(notes), node, text),
    }
}

/// `line N`: the address of the first instruction word of the node that this line begins.
#[tactic(auto, unfolding(crate::specs::Conditions::parse_line_address))]
fn line_of(notes: &Option<DebugInfo>, node: NodeId, name: &[u8], line: &[u8]) -> Option<u32>
    ensures { result ≡ parse_line_address notes.now node name.now line.now }
{
    match name {
        b"line" => begun_by(notes, node, parse_number(line)?),
        _ => None,
    }
}

/// The address of the first instruction word of the node that a line begins.
fn begun_by(notes: &Option<DebugInfo>, node: NodeId, line: u32) -> Option<u32>
    ensures { result ≡ source_line_address notes.now node line }
{
    match notes {
        Some(notes) => notes.line_address(node, line),
        None => None,
    }
}

/// A number that is a word.
fn word_of(names: &[LabelAddress], node: NodeId, text: &[u8]) -> Option<Word18>
    ensures { result ≡ parse_operand_word names.now node text.now }
{
    Word18::new(parse_operand(names, node, text)?)
}

/// `= NUMBER`
#[tactic(auto, unfolding(crate::specs::Conditions::parse_equal_word))]
fn word_equal(names: &[LabelAddress], node: NodeId, text: &[u8]) -> Option<Word18>
    ensures { result ≡ parse_equal_word names.now node text.now }
{
    let (sign, word) = split_at_space(text)?;
    match sign {
        b"=" => word_of(names, node, word),
        _ => None,
    }
}
