//! The arguments of commands, as lines have them.

ghost use Rattle.std.specs.Prelude.{◌≡◌};
ghost use Rattle.ga_explorer.specs.Reading.{parse_node_and_step, parse_two_nodes, parse_node_and_cell, parse_node_and_steps, parse_node_and_value, parse_step_and_value, parse_value_and_line, parse_from_line_number, parse_line_number, parse_step_and_count};

use crate::named_value::parse_part_value;
use ga_console::StepSelector;
use ga_grid::NodeId;
use ga_scheduler::NodeValue;
use ga_text::{parse_hex_byte, parse_node, parse_number, split_at_space};

/// How many further steps are written if no number is given, and how many at most.
const FEW_STEPS: u32 = 3;

const MOST_STEPS: u32 = 99;

/// `NNN K`
#[tactic(auto, unfolding(crate::specs::Reading::parse_node_and_step))]
pub(crate) fn parse_node_and_step(text: &[u8]) -> Option<(NodeId, StepSelector)>
    ensures { result ≡ parse_node_and_step text.now }
{
    let (node, step) = split_at_space(text)?;
    Some((parse_node(node)?, StepSelector::parse(step)?))
}

/// `NNN MMM`
#[tactic(auto, unfolding(crate::specs::Reading::parse_two_nodes))]
pub(crate) fn parse_two_nodes(text: &[u8]) -> Option<(NodeId, NodeId)>
    ensures { result ≡ parse_two_nodes text.now }
{
    let (first, second) = split_at_space(text)?;
    Some((parse_node(first)?, parse_node(second)?))
}

/// `NNN HH`
#[tactic(auto, unfolding(crate::specs::Reading::parse_node_and_cell))]
pub(crate) fn parse_node_and_cell(text: &[u8]) -> Option<(NodeId, u8)>
    ensures { result ≡ parse_node_and_cell text.now }
{
    let (node, address) = split_at_space(text)?;
    Some((parse_node(node)?, parse_hex_byte(address)?))
}

/// `NNN K` or `NNN K N`
#[tactic(auto, unfolding(crate::specs::Reading::parse_node_and_steps))]
pub(crate) fn parse_node_and_steps(text: &[u8]) -> Option<(NodeId, StepSelector, u32)>
    ensures { result ≡ parse_node_and_steps text.now }
{
    let (node, rest) = split_at_space(text)?;
    let node = parse_node(node)?;
    let (which, many) = parse_step_and_count(rest)?;
    Some((node, which, many))
}

/// `NNN K [VALUE] [from L]`
#[tactic(auto, unfolding(crate::specs::Reading::parse_node_and_value))]
pub(crate) fn parse_node_and_value(
    text: &[u8],
) -> Option<(NodeId, StepSelector, Option<NodeValue>, u32)>
    ensures { result ≡ parse_node_and_value text.now }
{
    let (node, rest) = split_at_space(text)?;
    let node = parse_node(node)?;
    let (which, value, first) = parse_step_and_value(rest)?;
    Some((node, which, value, first))
}

/// `K [VALUE] [from L]`: a step, a value after it, and the number of the first line that is written.
fn parse_step_and_value(text: &[u8]) -> Option<(StepSelector, Option<NodeValue>, u32)>
    ensures { result ≡ parse_step_and_value text.now }
{
    match split_at_space(text) {
        Some((step, rest)) => {
            let which = StepSelector::parse(step)?;
            let (value, first) = parse_value_and_line(rest)?;
            Some((which, value, first))
        }
        None => Some((StepSelector::parse(text)?, None, 1)),
    }
}

/// `VALUE`, `from L` or `VALUE from L`.
fn parse_value_and_line(text: &[u8]) -> Option<(Option<NodeValue>, u32)>
    ensures { result ≡ parse_value_and_line text.now }
{
    match split_at_space(text) {
        Some((first, rest)) => {
            if first == b"from".as_slice() {
                Some((None, parse_line_number(rest)?))
            } else {
                let value = parse_part_value(first)?;
                Some((Some(value), parse_from_line_number(rest)?))
            }
        }
        None => Some((Some(parse_part_value(text)?), 1)),
    }
}

/// `from L`
fn parse_from_line_number(text: &[u8]) -> Option<u32>
    ensures { result ≡ parse_from_line_number text.now }
{
    let (from, number) = split_at_space(text)?;
    if from == b"from".as_slice() {
        parse_line_number(number)
    } else {
        None
    }
}

/// The number of a line, from 1 on.
fn parse_line_number(text: &[u8]) -> Option<u32>
    ensures { result ≡ parse_line_number text.now }
{
    let number = parse_number(text)?;
    if number == 0 { None } else { Some(number) }
}

/// `K` or `K N`: a step, and how many further steps are written.
fn parse_step_and_count(text: &[u8]) -> Option<(StepSelector, u32)>
    ensures { result ≡ parse_step_and_count text.now }
{
    match split_at_space(text) {
        Some((step, many)) => {
            let which = StepSelector::parse(step)?;
            let many = parse_number(many)?;
            if many <= MOST_STEPS {
                Some((which, many))
            } else {
                None
            }
        }
        None => Some((StepSelector::parse(text)?, FEW_STEPS)),
    }
}
