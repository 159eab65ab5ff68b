//! Where a node begins among words of which some are at fault.

ghost use Rattle.std.specs.Prelude.{◌≡◌, ◌≤◌, ◌<◌, length, drop, IfOk, IfErr};
ghost use Rattle.ga_grid.specs.Grid.{optional_node_number};
ghost use Rattle.ga_parser.specs.Saying.{token_content, token_contents, is_word_token};
ghost use Rattle.ga_source.specs.Recovery.{is_node_token, node_of_token, misplaced_word_fault as misplaced_at};
ghost use Rattle.ga_source.specs.inner.{head_of, words_left_if_no_node_begins, SkipsToNextNode, BeginsNewNode};

use super::program::{body_length, is_node_keyword, node_named};
use ga_grid::NodeId;
use ga_parser::{SourceFault, SourceFaultCause, Token, TokenKind};

/// Whether a program begins with the word.
fn begins(word: &Token<'_>) -> bool
    ensures { result ≡ is_node_token (token_content word.now) }
{
    word.kind == TokenKind::Word && is_node_keyword(word.text)
}

/// The node that a word names.
fn node_of(name: Token<'_>) -> Option<NodeId>
    ensures { optional_node_number result ≡ node_of_token (token_content name.entry) }
{
    match name.kind {
        TokenKind::Word => node_named(name.text),
        TokenKind::LongLine
        | TokenKind::OpenComment
        | TokenKind::NoNumber
        | TokenKind::MissingNameOrValue
        | TokenKind::NameTaken => None,
    }
}

/// The fault of a word that can't be in its place, or else of its line.
fn misplaced_word_fault<'s>(word: Token<'s>, cause: SourceFaultCause<'s>) -> SourceFault<'s>
    ensures { result ≡ misplaced_at (token_content word.entry) cause.entry }
{
    let cause = match word.kind {
        TokenKind::Word => cause,
        TokenKind::LongLine => SourceFaultCause::LongLine,
        TokenKind::OpenComment => SourceFaultCause::OpenComment,
        TokenKind::NoNumber => SourceFaultCause::NoNumber,
        TokenKind::MissingNameOrValue => SourceFaultCause::MissingNameOrValue,
        TokenKind::NameTaken => SourceFaultCause::NameTaken,
    };
    SourceFault {
        line: word.line,
        cause,
    }
}

/// The node that begins with the first of these words.
///
/// # Errors
/// The fault, if none begins.
#[tactic(auto, using(crate::proofs::Recovering::no_begin, crate::proofs::Recovering::no_name, crate::proofs::Recovering::bad_name, crate::proofs::Recovering::begun_again, crate::proofs::Recovering::is_begun))]
pub(crate) fn node_begun<'s>(begun: &[bool], words: &[Token<'s>]) -> Result<NodeId, SourceFault<'s>>
    requires some { 0 < length words.now }
    requires size { length begun.now ≡ 144 }
    ensures begun { IfOk result (λ id. BeginsNewNode begun.now (token_contents words.now) id.number) }
    ensures refused { IfErr result (SkipsToNextNode begun.now (token_contents words.now)) }
{
    let first = words[0];
    if !begins(&first) {
        return Err(misplaced_word_fault(first, SourceFaultCause::NoNodeBegun));
    }
    if words.len() < 2 {
        return Err(misplaced_word_fault(first, SourceFaultCause::MissingNameOrValue));
    }
    let name = words[1];
    let Some(node) = node_of(name) else {
        return Err(misplaced_word_fault(name, SourceFaultCause::NoSuchNode));
    };
    if begun[node.index()] {
        return Err(misplaced_word_fault(name, SourceFaultCause::NodeTwice));
    }
    Ok(node)
}

/// The number of words with which a node begins: `node` and its name, or a word in the place of `node`.
#[tactic(auto, using(crate::proofs::Recovering::head_two, crate::proofs::Recovering::head_one, crate::proofs::Recovering::head_last))]
fn head_length(words: &[Token<'_>]) -> usize
    requires { 0 < length words.now }
    ensures count { result ≡ head_of (token_contents words.now) }
    ensures some { 0 < result }
    ensures in_range { result ≤ length words.now }
{
    if words.len() < 2 {
        return 1;
    }
    if begins(&words[0]) { 2 } else { 1 }
}

/// Whether the word is no fault.
fn is_whole(word: &Token<'_>) -> bool
    ensures { result ≡ is_word_token (token_content word.now) }
{
    word.kind == TokenKind::Word
}

/// The number of words up to the next `node`, if no node begins with the first: the name after a `node` is one of them. A fault of a line
/// or of a constant is skipped alone.
pub(crate) fn skipped_length(words: &[Token<'_>]) -> usize
    requires { 0 < length words.now }
    ensures some { 0 < result }
    ensures in_range { result ≤ length words.now }
    ensures left { token_contents (drop result words.now) ≡ words_left_if_no_node_begins (token_contents words.now) }
{
    if !is_whole(&words[0]) {
        return 1;
    }
    let head = head_length(words);
    let (_, rest) = words.split_at(head);
    body_length(rest) + head
}
