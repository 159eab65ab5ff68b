//! The lines of a source that say what is expected of its program.

ghost use Rattle.std.specs.Prelude.{◌≡◌, ◌≤◌, ◌++◌, ℕ, length, drop, map, flat_map, option_map, IfOk, OnOk};
ghost use Rattle.ga_grid.specs.Grid.{node_id};
ghost use Rattle.ga_parser.specs.Expectations.{nodes_of_name, is_node_name as is_name_in, nodes_after_word, no_node_group, node_group_after_word, node_group_before_line, nodes_before_line, expectation_text as text_of_words, expectation_content, expectation_of_tokens, expectations_of_resolution, expectation_lines as lines_of_source};
ghost use Rattle.ga_parser.specs.Plain.{named_node_number};
ghost use Rattle.ga_parser.specs.Saying.{source_lines, token_contents, tokens_of_line_with_expectation};
ghost use Rattle.ga_parser.specs.inner.Expecting.{node_group_of_parser, words_from, space_and_resolved_word};
ghost use Rattle.ga_parser.specs.inner.Grouping.{node_naming_of_parser};
ghost use Rattle.ga_parser.specs.inner.Placing.{placed, placed_all};
ghost use Rattle.ga_parser.specs.inner.Resolving.{known_names_of_parser, resolution_of_parser};

use super::constants::{Resolving, resolve_constants};
use super::groups::{Naming, begins, is_further_node_name, node_naming_after_word};
use super::scan::{
    Token, begins_expectation, scan_all_of_line, scanned_words, stripped_source_line,
};
use ga_grid::{NodeId, parse_decimal_name};
use ga_text::first_line;
use std::alloc::{AllocError, Global};

/// A line of source that says what is expected of the program.
#[derive(Drop)]
pub struct ExpectationLine {
    /// The line's number, from 1 on.
    pub line: u32,
    /// The nodes whose program the line is in: those that the last `node` before it names, none before the first.
    pub nodes: Vec<NodeId>,
    /// The words after `expect`, a blank between two, without comments; names of constants as their numbers.
    pub text: Vec<u8>,
}

/// What comes before a word, and the nodes that the words after the last `node` name.
#[derive(Drop)]
pub(crate) struct NamedGroup<'s> {
    pub naming: Naming<'s>,
    pub nodes: Vec<NodeId>,
}

/// The node of a name of three digits.
fn node_named(text: &[u8]) -> Option<NodeId>
    ensures { result ≡ option_map node_id (named_node_number text.now) }
{
    NodeId::from_decimal_name(parse_decimal_name(text)?)
}

/// Adds the node of a name, if there is one.
fn add_named(nodes: &mut Vec<NodeId>, text: &[u8]) -> Result<(), AllocError>
    ensures { OnOk result (nodes.new.items ≡ nodes.old.items ++ nodes_of_name text.now) }
{
    if let Some(node) = node_named(text) {
        nodes.push(node)?;
    }
    Ok(())
}

/// Whether a word names a node: it comes after `node`, or is a further name.
fn is_node_name(naming: Naming<'_>, word: &Token<'_>) -> bool
    ensures { result ≡ is_name_in (node_naming_of_parser naming.entry) (placed word.now) }
{
    match naming {
        Naming::Nothing => false,
        Naming::Node(_) => true,
        Naming::Name(node) => is_further_node_name(node, word),
    }
}

impl<'s> NamedGroup<'s> {
    ghost use Rattle.std.specs.Prelude.{◌≡◌, OnOk};
    ghost use Rattle.ga_parser.specs.Expectations.{nodes_after_word, node_group_after_word, no_node_group};
    ghost use Rattle.ga_parser.specs.inner.Expecting.{node_group_of_parser};
    ghost use Rattle.ga_parser.specs.inner.Placing.{placed};

    fn new(alloc: Global) -> Self
        ensures { node_group_of_parser result ≡ no_node_group }
    {
        NamedGroup {
            naming: Naming::Nothing,
            nodes: Vec::new(alloc),
        }
    }

    /// Takes the node that a word names.
    fn name(&mut self, word: Token<'s>) -> Result<(), AllocError>
        ensures naming { self.new.naming ≡ self.old.naming }
        ensures nodes { OnOk result (self.new.nodes.items ≡ nodes_after_word (node_group_of_parser self.old) (placed word.entry)) }
    {
        if begins(&word) {
            self.nodes.clear();
            return Ok(());
        }
        if is_node_name(self.naming, &word) {
            return add_named(&mut self.nodes, word.text);
        }
        Ok(())
    }

    /// Takes a word.
    fn take(&mut self, word: Token<'s>) -> Result<(), AllocError>
        ensures { OnOk result (node_group_of_parser self.new ≡ node_group_after_word (node_group_of_parser self.old) (placed word.entry)) }
    {
        self.name(word)?;
        self.naming = node_naming_after_word(self.naming, word);
        Ok(())
    }
}

/// Takes the words from an index on that are before a line, and returns the index of the next.
fn take_before<'s>(
    group: &mut NamedGroup<'s>,
    words: &[Token<'s>],
    from: usize,
    line: u32,
) -> Result<usize, AllocError>
    requires { from ≤ length words.now }
    ensures group { OnOk result (node_group_of_parser group.new ≡ node_group_before_line line (node_group_of_parser group.old) (placed_all (drop from words.now))) }
    ensures left { IfOk result (λ next. placed_all (drop next words.now) ≡ words_from line (placed_all (drop from words.now))) }
    ensures within { IfOk result (λ next. next ≤ length words.now) }
{
    for at in from..words.len() {
        let word = words[at];
        if word.line >= line {
            return Ok(at);
        }
        group.take(word)?;
    }
    Ok(words.len())
}

/// Adds words, each after a blank, constants as their numbers.
fn push_spaced<'s>(
    text: &mut Vec<u8>,
    resolved: &Resolving<'s>,
    words: &[Token<'s>],
) -> Result<(), AllocError>
    ensures { OnOk result (text.new.items ≡ text.old.items ++ flat_map (space_and_resolved_word (known_names_of_parser resolved.now)) words.now) }
{
    for word in words {
        text.push(b' ')?;
        text.extend_from_slice(resolved.resolved_word_text(word.text))?;
    }
    Ok(())
}

/// The words after `expect`, a blank between two, constants as their numbers.
#[tactic(auto, using(crate::proofs::Expecting::short_text))]
fn expectation_text<'s>(
    alloc: Global,
    resolved: &Resolving<'s>,
    words: &[Token<'s>],
) -> Result<Vec<u8>, AllocError>
    ensures { IfOk result (λ text. text.items ≡ text_of_words (known_names_of_parser resolved.now) (token_contents words.now)) }
{
    let mut text = Vec::new(alloc);
    let [_, first, rest @ ..] = words else {
        return Ok(text);
    };
    text.extend_from_slice(resolved.resolved_word_text(first.text))?;
    push_spaced(&mut text, resolved, rest)?;
    Ok(text)
}

/// Adds the expectation of a line, if it is one, after the words from an index on that are before the line. Returns the index of the
/// next word.
fn add_line<'s>(
    alloc: Global,
    all: &mut Vec<ExpectationLine>,
    resolved: &Resolving<'s>,
    group: &mut NamedGroup<'s>,
    from: usize,
    line: u32,
    text: &'s [u8],
) -> Result<usize, AllocError>
    requires { from ≤ length resolved.now.words.items }
    ensures lines { OnOk result (map expectation_content all.new.items ≡ map expectation_content all.old.items
        ++ expectation_of_tokens (known_names_of_parser resolved.now) (node_group_before_line line (node_group_of_parser group.old) (placed_all (drop from resolved.now.words.items))).nodes line (tokens_of_line_with_expectation line text.now)) }
    ensures left { IfOk result (λ next. (later : ℕ) → line ≤ later → node_group_before_line later (node_group_of_parser group.new) (placed_all (drop next resolved.now.words.items))
        ≡ node_group_before_line later (node_group_of_parser group.old) (placed_all (drop from resolved.now.words.items))) }
    ensures within { IfOk result (λ next. next ≤ length resolved.now.words.items) }
{
    let mut said = Vec::new(alloc);
    let is_whole = scan_all_of_line(&mut said, line, text)?;
    if !is_whole || !begins_expectation(said.as_slice()) {
        return Ok(from);
    }
    let next = take_before(group, resolved.words.as_slice(), from, line)?;
    all.push(ExpectationLine {
        line,
        nodes: Vec::from_slice(alloc, group.nodes.as_slice())?,
        text: expectation_text(alloc, resolved, said.as_slice())?,
    })?;
    Ok(next)
}

/// The expectations of a source whose constants and words are these.
fn read_lines<'s>(
    alloc: Global,
    resolved: &Resolving<'s>,
    source: &'s [u8],
) -> Result<Vec<ExpectationLine>, AllocError>
    ensures { IfOk result (λ lines. map expectation_content lines.items ≡ expectations_of_resolution (resolution_of_parser resolved.now) (source_lines source.now)) }
{
    let mut all = Vec::new(alloc);
    let mut group = NamedGroup::new(alloc);
    let mut next = 0;
    let mut rest = source;
    let mut line = 1u32;
    while !rest.is_empty() {
        let (whole, behind) = first_line(rest);
        let text = stripped_source_line(line, whole);
        if text == b"end".as_slice() {
            return Ok(all);
        }
        next = add_line(alloc, &mut all, resolved, &mut group, next, line, text)?;
        rest = behind;
        line = line.saturating_add(1);
    }
    Ok(all)
}

/// The lines of a source, up to its end or to a line `end`, that begin with `expect` and have no fault. Takes time linear in the source
/// and in what it returns.
///
/// # Errors
/// Allocation failed.
pub fn expectation_lines(alloc: Global, source: &[u8]) -> Result<Vec<ExpectationLine>, AllocError>
    ensures { IfOk result (λ lines. map expectation_content lines.items ≡ lines_of_source source.now) }
{
    let scanned = scanned_words(alloc, source)?;
    let resolved = resolve_constants(alloc, scanned.as_slice())?;
    Ok(read_lines(alloc, &resolved, source)?)
}
