//! What the lines of a source expect.

ghost use Rattle.std.specs.Prelude.{◌≡◌, ◌++◌, map, flat_map, position, Ok, Err, IfOk, OnOk, MatchResult};
ghost use Rattle.ga_text.specs.Digits.{name_of_node};
ghost use Rattle.ga_state_expectations.specs.Spelling.{split_first_word, parsed_expectation};
ghost use Rattle.ga_state_expectations.specs.Lines.{expectation_lines_of_source, source_expectations, names_expectation_subject, applies_to_nodes_of_own_program, is_expectation_faulty_for_node, expectation_parse_fault_cause, first_faulty_node_cause, line_expectation_fault_cause, expectation_faults_of_line, expectation_faults_of_lines, text_after_node_name, line_expectation_content, line_expectation_if_parsed, line_expectations_for_node, line_expectations, expectations_of_source_lines, expectations_or_faults_of_lines, known_expectations, expects_nothing, HoldsForExpectationFaults};

use crate::cause::{ExpectationFault, ExpectationFaultCause, ExpectationsError};
use crate::parsing::{begins_with_digit, is_whole_chip_keyword, parse_expectation};
use crate::requirement::split_first_word;
use crate::source::{Expectation, LineExpectation};
use arrayvec::ArrayVec;
use ga_debug_info::DebugInfo;
use ga_grid::NodeId;
use ga_source::ExpectationLine;
use ga_text::{NODE_NAME_BYTES, push_node};
use std::alloc::{AllocError, Global};

/// Whether a text says itself of what it speaks: a node, or all of them.
fn names_expectation_subject(text: &[u8]) -> bool
    ensures { result ≡ names_expectation_subject text.now }
{
    let (word, _) = split_first_word(text);
    word == b"never".as_slice()
        || word == b"pass".as_slice()
        || is_whole_chip_keyword(word)
        || begins_with_digit(word)
}

/// Whether a line speaks of each node in whose program it is.
fn applies_to_nodes_of_own_program(line: &ExpectationLine) -> bool
    ensures { result ≡ applies_to_nodes_of_own_program line.now }
{
    !line.nodes.is_empty() && !names_expectation_subject(line.text.as_slice())
}

/// What is wrong with an expectation.
fn expectation_parse_fault_cause(
    parsed: Result<Expectation, ExpectationFaultCause>,
) -> Option<ExpectationFaultCause>
    ensures { result ≡ expectation_parse_fault_cause parsed }
{
    match parsed {
        Ok(_) => None,
        Err(cause) => Some(cause),
    }
}

/// Whether a text says nothing of a node.
fn is_expectation_faulty_for_node(notes: &Option<DebugInfo>, text: &[u8], node: NodeId) -> bool
    ensures { result ≡ is_expectation_faulty_for_node notes.now text.now node }
{
    expectation_parse_fault_cause(parse_expectation(notes, Some(node), text)).is_some()
}

/// The place of the first node of which a text says nothing.
fn faulty_place(notes: &Option<DebugInfo>, text: &[u8], nodes: &[NodeId]) -> Option<usize>
    ensures { result ≡ position (is_expectation_faulty_for_node notes.now text.now) nodes.now }
{
    nodes
        .iter()
        .position(|node| is_expectation_faulty_for_node(notes, text, *node))
}

/// What is wrong with what a text says of some nodes: of the first of which it says nothing.
fn find_cause(
    notes: &Option<DebugInfo>,
    text: &[u8],
    nodes: &[NodeId],
) -> Option<ExpectationFaultCause>
    ensures { result ≡ first_faulty_node_cause notes.now text.now nodes.now }
{
    let place = faulty_place(notes, text, nodes)?;
    match nodes.get(place) {
        Some(node) => expectation_parse_fault_cause(parse_expectation(notes, Some(*node), text)),
        None => None,
    }
}

/// What is wrong with a line.
fn find_line_cause(
    notes: &Option<DebugInfo>,
    line: &ExpectationLine,
) -> Option<ExpectationFaultCause>
    ensures { result ≡ line_expectation_fault_cause notes.now line.now }
{
    if applies_to_nodes_of_own_program(line) {
        find_cause(notes, line.text.as_slice(), line.nodes.as_slice())
    } else {
        expectation_parse_fault_cause(parse_expectation(notes, None, line.text.as_slice()))
    }
}

/// Adds the fault of a line, if it has one.
fn add_fault(
    notes: &Option<DebugInfo>,
    faults: &mut Vec<ExpectationFault>,
    line: &ExpectationLine,
) -> Result<(), AllocError>
    ensures { OnOk result (faults.new.items ≡ faults.old.items ++ expectation_faults_of_line notes.now line.now) }
{
    if let Some(cause) = find_line_cause(notes, line) {
        faults.push(ExpectationFault {
            line: line.line,
            cause,
        })?;
    }
    Ok(())
}

/// The fault of each line that has one.
fn find_faults(
    alloc: Global,
    notes: &Option<DebugInfo>,
    lines: &[ExpectationLine],
) -> Result<Vec<ExpectationFault>, AllocError>
    ensures { IfOk result (λ faults. faults.items ≡ expectation_faults_of_lines notes.now lines.now) }
{
    let mut faults = Vec::new(alloc);
    for line in lines {
        add_fault(notes, &mut faults, line)?;
    }
    Ok(faults)
}

/// A copy of a text.
fn copy_of(alloc: Global, text: &[u8]) -> Result<Vec<u8>, AllocError>
    ensures { IfOk result (λ copy. copy.items ≡ text.now) }
{
    let mut copy = Vec::new(alloc);
    copy.extend_from_slice(text)?;
    Ok(copy)
}

/// A text with the name of a node in front.
fn text_after_node_name(alloc: Global, node: NodeId, text: &[u8]) -> Result<Vec<u8>, AllocError>
    ensures { IfOk result (λ named. named.items ≡ text_after_node_name node text.now) }
{
    let mut name: ArrayVec<u8, NODE_NAME_BYTES> = ArrayVec::new();
    push_node(&mut name, node);
    let mut named = copy_of(alloc, name.as_slice())?;
    named.push(b' ')?;
    named.extend_from_slice(text)?;
    Ok(named)
}

/// Adds an expectation, if there is one.
fn add_parsed(
    expectations: &mut Vec<LineExpectation>,
    line: u32,
    text: Vec<u8>,
    parsed: Result<Expectation, ExpectationFaultCause>,
) -> Result<(), AllocError>
    ensures { OnOk result (map line_expectation_content expectations.new.items ≡ map line_expectation_content expectations.old.items ++ line_expectation_if_parsed line text.items parsed) }
{
    if let Ok(expectation) = parsed {
        expectations.push(LineExpectation {
            line,
            text,
            expectation,
        })?;
    }
    Ok(())
}

/// Adds what a line expects of a node of its program.
fn add_of_node(
    alloc: Global,
    notes: &Option<DebugInfo>,
    expectations: &mut Vec<LineExpectation>,
    line: &ExpectationLine,
    node: NodeId,
) -> Result<(), AllocError>
    ensures { OnOk result (map line_expectation_content expectations.new.items ≡ map line_expectation_content expectations.old.items ++ line_expectations_for_node notes.now line.now node) }
{
    let text = text_after_node_name(alloc, node, line.text.as_slice())?;
    let parsed = parse_expectation(notes, Some(node), line.text.as_slice());
    add_parsed(expectations, line.line, text, parsed)
}

/// Adds what a line expects of each of these nodes.
fn add_of_nodes(
    alloc: Global,
    notes: &Option<DebugInfo>,
    expectations: &mut Vec<LineExpectation>,
    line: &ExpectationLine,
    nodes: &[NodeId],
) -> Result<(), AllocError>
    ensures { OnOk result (map line_expectation_content expectations.new.items ≡ map line_expectation_content expectations.old.items ++ flat_map (line_expectations_for_node notes.now line.now) nodes.now) }
{
    for node in nodes {
        add_of_node(alloc, notes, expectations, line, *node)?;
    }
    Ok(())
}

/// Adds what a line expects.
fn add_line(
    alloc: Global,
    notes: &Option<DebugInfo>,
    expectations: &mut Vec<LineExpectation>,
    line: &ExpectationLine,
) -> Result<(), AllocError>
    ensures { OnOk result (map line_expectation_content expectations.new.items ≡ map line_expectation_content expectations.old.items ++ line_expectations notes.now line.now) }
{
    if applies_to_nodes_of_own_program(line) {
        return add_of_nodes(alloc, notes, expectations, line, line.nodes.as_slice());
    }
    let text = copy_of(alloc, line.text.as_slice())?;
    let parsed = parse_expectation(notes, None, line.text.as_slice());
    add_parsed(expectations, line.line, text, parsed)
}

/// What each line expects, as far as it says it.
fn collect_expectations(
    alloc: Global,
    notes: &Option<DebugInfo>,
    lines: &[ExpectationLine],
) -> Result<Vec<LineExpectation>, AllocError>
    ensures { IfOk result (λ all. map line_expectation_content all.items ≡ expectations_of_source_lines notes.now lines.now) }
{
    let mut expectations = Vec::new(alloc);
    for line in lines {
        add_line(alloc, notes, &mut expectations, line)?;
    }
    Ok(expectations)
}

/// What lines of a source expect.
///
/// # Errors
/// The fault of each line that has one; or out of memory.
fn parse_lines(
    alloc: Global,
    notes: &Option<DebugInfo>,
    lines: &[ExpectationLine],
) -> Result<Vec<LineExpectation>, ExpectationsError>
    ensures { MatchResult result (λ all. expectations_or_faults_of_lines notes.now lines.now ≡ Ok (map line_expectation_content all.items))
        (λ why. HoldsForExpectationFaults why (λ faults. expectations_or_faults_of_lines notes.now lines.now ≡ Err faults)) }
{
    let faults = find_faults(alloc, notes, lines)?;
    if !faults.is_empty() {
        return Err(ExpectationsError::FaultyLines(faults));
    }
    let all = collect_expectations(alloc, notes, lines)?;
    Ok(all)
}

/// The lines of the source that say what is expected, where there is source.
fn expectation_lines_of_source(notes: &Option<DebugInfo>) -> &[ExpectationLine]
    ensures { result.now ≡ expectation_lines_of_source notes.now }
{
    match notes {
        Some(notes) => notes.expectations.as_slice(),
        None => &[],
    }
}

/// What the lines of a source expect: of each node in whose program a line is, unless the line names another node or speaks of all. In the
/// order of lines, and of the nodes of a program. Takes time linear in the lines and the labels that they name.
///
/// # Errors
/// The fault of each line that has one, in their order; or out of memory.
pub fn parse_expectations(
    alloc: Global,
    notes: &Option<DebugInfo>,
) -> Result<Vec<LineExpectation>, ExpectationsError>
    ensures { MatchResult result (λ all. source_expectations notes.now ≡ Ok (map line_expectation_content all.items))
        (λ why. HoldsForExpectationFaults why (λ faults. source_expectations notes.now ≡ Err faults)) }
{
    parse_lines(alloc, notes, expectation_lines_of_source(notes))
}

/// What a source expects, as [`parse_expectations`] gives it; nothing if a line of it has a fault.
///
/// # Errors
/// Out of memory.
pub fn known_expectations(
    alloc: Global,
    notes: &Option<DebugInfo>,
) -> Result<Vec<LineExpectation>, AllocError>
    ensures { IfOk result (λ all. map line_expectation_content all.items ≡ known_expectations notes.now) }
{
    match parse_expectations(alloc, notes) {
        Ok(all) => Ok(all),
        Err(ExpectationsError::Memory) => Err(AllocError),
        Err(ExpectationsError::FaultyLines(_)) => Ok(Vec::new(alloc)),
    }
}

/// Whether a source expects nothing.
pub fn expects_nothing(notes: &Option<DebugInfo>) -> bool
    ensures { result ≡ expects_nothing notes.now }
{
    expectation_lines_of_source(notes).is_empty()
}
