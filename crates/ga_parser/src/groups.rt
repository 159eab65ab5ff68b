//! Words in which each node has a `node` of its own.

ghost use Rattle.std.specs.Prelude.{◌≡◌, ◌++◌, IfOk, OnOk};
ghost use Rattle.ga_parser.specs.Groups.{expand_node_groups as grouped_by, begins_node as begins_by, is_further_node_name as is_further_by, node_naming_after_word as begun_by, words_after_names as behind_names_in, words_before_next_node as body_words, words_inserted_before_name};
ghost use Rattle.ga_parser.specs.Groups.NodeNamingProgress.{Nothing};
ghost use Rattle.ga_parser.specs.inner.Placing.{placed, placed_all};
ghost use Rattle.ga_parser.specs.inner.Grouping.{node_naming_of_parser};

use super::scan::{Token, TokenKind};
use ga_grid::parse_decimal_name;
use std::alloc::{AllocError, Global};

/// What comes before a word.
#[derive(Clone, Copy)]
pub(crate) enum Naming<'s> {
    /// Neither `node` nor a name.
    Nothing,
    /// This `node`.
    Node(Token<'s>),
    /// A name on the line of this `node`.
    Name(Token<'s>),
}

/// Whether the word is `node`.
pub(crate) fn begins(word: &Token<'_>) -> bool
    ensures { result ≡ begins_by (placed word.now) }
{
    word.text == b"node".as_slice()
}

/// Whether a word after a name is a name too: three digits on the line of `node`.
pub(crate) fn is_further_node_name(node: Token<'_>, word: &Token<'_>) -> bool
    ensures { result ≡ is_further_by (placed node.entry) (placed word.now) }
{
    word.kind == TokenKind::Word
        && word.line == node.line
        && parse_decimal_name(word.text).is_some()
}

/// What comes before the next word.
pub(crate) fn node_naming_after_word<'s>(begun: Naming<'s>, word: Token<'s>) -> Naming<'s>
    ensures { node_naming_of_parser result ≡ begun_by (node_naming_of_parser begun.entry) (placed word.entry) }
{
    if begins(&word) {
        return Naming::Node(word);
    }
    match begun {
        Naming::Nothing => Naming::Nothing,
        Naming::Node(node) => Naming::Name(node),
        Naming::Name(node) => {
            if is_further_node_name(node, &word) {
                Naming::Name(node)
            } else {
                Naming::Nothing
            }
        }
    }
}

/// The words after further names.
fn words_after_names<'a, 's>(node: Token<'s>, words: &'a [Token<'s>]) -> &'a [Token<'s>]
    ensures { placed_all result.now ≡ behind_names_in (placed node.entry) (placed_all words.now) }
{
    for (i, word) in words.iter().enumerate() {
        if !is_further_node_name(node, word) {
            return words.split_at(i).1;
        }
    }
    &[]
}

/// The words before the next `node`.
fn words_before_next_node<'a, 's>(words: &'a [Token<'s>]) -> &'a [Token<'s>]
    ensures { placed_all result.now ≡ body_words (placed_all words.now) }
{
    for (i, word) in words.iter().enumerate() {
        if begins(word) {
            return words.split_at(i).0;
        }
    }
    words
}

/// Adds what comes before a further name: the program, if the words are to be whole, and `node`.
fn push_before<'s>(
    all: &mut Vec<Token<'s>>,
    is_whole: bool,
    begun: Naming<'s>,
    word: &Token<'s>,
    rest: &[Token<'s>],
) -> Result<(), AllocError>
    ensures { OnOk result (placed_all all.new.items ≡ placed_all all.old.items ++ words_inserted_before_name is_whole (node_naming_of_parser begun.entry) (placed word.now) (placed_all rest.now)) }
{
    let Naming::Name(node) = begun else {
        return Ok(());
    };
    if !is_further_node_name(node, word) {
        return Ok(());
    }
    if is_whole {
        all.extend_from_slice(words_before_next_node(words_after_names(node, rest)))?;
    }
    all.push(node)?;
    Ok(())
}

/// The words with a `node` before each name of a node. If they are to be whole, the program of several nodes comes after each name,
/// otherwise after the last alone.
pub(crate) fn expand_node_groups<'s>(
    alloc: Global,
    words: &[Token<'s>],
    is_whole: bool,
) -> Result<Vec<Token<'s>>, AllocError>
    ensures { IfOk result (λ all. placed_all all.items ≡ grouped_by is_whole Nothing (placed_all words.now)) }
{
    let mut all = Vec::new(alloc);
    let mut begun = Naming::Nothing;
    for (i, word) in words.iter().enumerate() {
        push_before(&mut all, is_whole, begun, word, words.split_at(i + 1).1)?;
        all.push(*word)?;
        begun = node_naming_after_word(begun, *word);
    }
    Ok(all)
}
