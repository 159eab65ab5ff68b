//! A text as words.

ghost use Rattle.std.specs.Prelude.{◌≡◌, ◌<◌, ◌+◌, ◌-◌, [], ◌∷◌, ◌++◌, length, IsOkAnd, IsErrAnd, IfOk, OnOk};
ghost use Rattle.std.specs.List.{list_all};
ghost use Rattle.ga_parser.specs.Saying.{is_blank as is_blank_byte, parts_ended_by_bytes, is_comment_end as closes_comment, strip_byte_order_mark as without_mark, stripped_source_line as bare_line, line_without_carriage_return as without_end, tokens_of_line_with_expectation, begins_expectation as begins_by, tokens_of_line, is_word_token, is_word_kind, tokens_of_lines, source_lines, tokens_through_first_fault as up_to_fault_in, token_content, token_contents, columns_of_line_with_expectation, columns_of_line, columns_of_lines, token_columns};
ghost use Rattle.ga_parser.specs.Words.{source_tokens, source_columns, source_tokens_without_copies};
ghost use Rattle.ga_parser.specs.declared.scan.TokenKind.TheVariants.{Word, LongLine, OpenComment, NoNumber, MissingNameOrValue, NameTaken};
ghost use Rattle.ga_parser.specs.declared.fault.SourceFaultCause.TheVariants.{LongLine as TooLong, OpenComment as LeftOpen, NoNumber as NumberLeftOut, MissingNameOrValue as NameLeftOut, NameTaken as IsTaken};

use super::constants::resolve;
use super::fault::{SourceFault, SourceFaultCause, source_fault_at};
use super::groups::expand_node_groups;
use ga_text::first_line;
use std::alloc::{AllocError, Global};

/// A word of the source, or what is wrong with a line, and the line's number from 1 on.
#[derive(Clone, Copy)]
pub struct Token<'s> {
    pub line: u32,
    /// The column of the word's first byte, in bytes from 1 on, after a byte order mark; 1 if the line is at fault.
    pub column: u32,
    /// The text of the word, empty where the line is at fault.
    pub text: &'s [u8],
    pub kind: TokenKind,
}

/// What a line says here.
#[derive(Clone, Copy, PartialEq, Eq)]
pub enum TokenKind {
    Word,
    /// The line is too long.
    LongLine,
    /// A comment is left open.
    OpenComment,
    /// No number in range is before `constant`.
    NoNumber,
    /// A name is missing.
    MissingNameOrValue,
    /// The name of a constant is taken.
    NameTaken,
}

impl<'s> Token<'s> {
    /// The word.
    ///
    /// # Errors
    /// The line's fault.
    pub fn word(self) -> Result<&'s [u8], SourceFault<'s>>
        ensures told { IfOk result (λ text. text.now ≡ self.entry.text.now) }
        ensures word { self.entry.kind ≡ Word → IsOkAnd result (λ text. text.now ≡ self.entry.text.now) }
        ensures long { self.entry.kind ≡ LongLine → IsErrAnd result (λ fault. (fault.line ≡ self.entry.line) × (fault.cause ≡ TooLong)) }
        ensures open { self.entry.kind ≡ OpenComment → IsErrAnd result (λ fault. (fault.line ≡ self.entry.line) × (fault.cause ≡ LeftOpen)) }
        ensures no_number { self.entry.kind ≡ NoNumber → IsErrAnd result (λ fault. (fault.line ≡ self.entry.line) × (fault.cause ≡ NumberLeftOut)) }
        ensures missing { self.entry.kind ≡ MissingNameOrValue → IsErrAnd result (λ fault. (fault.line ≡ self.entry.line) × (fault.cause ≡ NameLeftOut)) }
        ensures taken { self.entry.kind ≡ NameTaken → IsErrAnd result (λ fault. (fault.line ≡ self.entry.line) × (fault.cause ≡ IsTaken)) }
    {
        match self.kind {
            TokenKind::Word => Ok(self.text),
            TokenKind::LongLine => Err(source_fault_at(self.line, SourceFaultCause::LongLine)),
            TokenKind::OpenComment => Err(source_fault_at(
                self.line,
                SourceFaultCause::OpenComment,
            )),
            TokenKind::NoNumber => Err(source_fault_at(self.line, SourceFaultCause::NoNumber)),
            TokenKind::MissingNameOrValue => Err(source_fault_at(
                self.line,
                SourceFaultCause::MissingNameOrValue,
            )),
            TokenKind::NameTaken => Err(source_fault_at(self.line, SourceFaultCause::NameTaken)),
        }
    }
}

/// How many bytes a line may have.
const LONGEST: usize = 200;

fn is_blank(byte: u8) -> bool
    ensures { result ≡ is_blank_byte byte }
{
    byte == b' ' || byte == b'\t'
}

/// Whether a word closes a comment.
fn is_comment_end(word: &[u8]) -> bool
    ensures { result ≡ closes_comment word.now }
{
    if let [.., b')'] = word { true } else { false }
}

/// The part before the first blank or tab, and the part after it.
#[tactic(auto, using(crate::proofs::Scanning::at_end, crate::proofs::Scanning::no_end))]
fn first_part(text: &[u8]) -> (&[u8], &[u8])
    requires { 0 < length text.now }
    ensures splits { parts_ended_by_bytes is_blank_byte text.now ≡ result.0.now ∷ parts_ended_by_bytes is_blank_byte result.1.now }
    ensures left { length result.1.now ≡ length text.now - (length result.0.now + 1) }
    ensures shorter { length result.1.now < length text.now }
{
    for (i, byte) in text.iter().enumerate() {
        if is_blank(*byte) {
            return (text.split_at(i).0, text.split_at(i + 1).1);
        }
    }
    (text, &[])
}

/// Adds all words of a line, also of an expectation, and then its fault where it has one. True where it has none.
pub(crate) fn scan_all_of_line<'s>(
    tokens: &mut Vec<Token<'s>>,
    line: u32,
    text: &'s [u8],
) -> Result<bool, AllocError>
    ensures says { OnOk result (token_contents tokens.new.items ≡ token_contents tokens.old.items ++ tokens_of_line_with_expectation line text.now) }
    ensures columns { OnOk result (token_columns tokens.new.items ≡ token_columns tokens.old.items ++ columns_of_line_with_expectation text.now) }
    ensures whole { IfOk result (λ whole. whole ≡ list_all is_word_token (tokens_of_line_with_expectation line text.now)) }
{
    if text.len() > LONGEST {
        push(tokens, line, 1, &[], TokenKind::LongLine)?;
        return Ok(false);
    }
    let mut is_open = false;
    let mut rest = text;
    while !rest.is_empty() {
        let (part, behind) = first_part(rest);
        let column = (text.len() - rest.len()) as u32 + 1;
        if is_open {
            is_open = !is_comment_end(part);
        } else if part == b"\\".as_slice() {
            return Ok(true);
        } else if part == b"(".as_slice() {
            is_open = true;
        } else if !part.is_empty() {
            push(tokens, line, column, part, TokenKind::Word)?;
        }
        rest = behind;
    }
    if is_open {
        push(tokens, line, 1, &[], TokenKind::OpenComment)?;
        return Ok(false);
    }
    Ok(true)
}

/// Whether a line with these words is an expectation.
pub(crate) fn begins_expectation(words: &[Token<'_>]) -> bool
    ensures { result ≡ begins_by (token_contents words.now) }
{
    match words {
        [first, ..] => first.text == b"expect".as_slice(),
        [] => false,
    }
}

/// Adds the words of a line, and then its fault where it has one; of an expectation the fault alone.
fn scan_line<'s>(tokens: &mut Vec<Token<'s>>, line: u32, text: &'s [u8]) -> Result<(), AllocError>
    ensures says { OnOk result (token_contents tokens.new.items ≡ token_contents tokens.old.items ++ tokens_of_line line text.now) }
    ensures columns { OnOk result (token_columns tokens.new.items ≡ token_columns tokens.old.items ++ columns_of_line line text.now) }
{
    let before = tokens.len();
    let is_whole = scan_all_of_line(tokens, line, text)?;
    if !begins_expectation(tokens.as_slice().split_at(before).1) {
        return Ok(());
    }
    tokens.truncate(before);
    if is_whole {
        return Ok(());
    }
    push(tokens, line, 1, &[], TokenKind::OpenComment)?;
    Ok(())
}

/// Adds a word or a fault.
fn push<'s>(
    tokens: &mut Vec<Token<'s>>,
    line: u32,
    column: u32,
    text: &'s [u8],
    kind: TokenKind,
) -> Result<(), AllocError>
    ensures says { OnOk result (token_contents tokens.new.items ≡ token_contents tokens.old.items ++ record { line = line; text = text.now; kind = kind } ∷ []) }
    ensures column { OnOk result (token_columns tokens.new.items ≡ token_columns tokens.old.items ++ column ∷ []) }
{
    tokens.push(Token {
        line,
        column,
        text,
        kind,
    })?;
    Ok(())
}

/// A line without the byte order mark with which the first line of a text may begin. Lines count from 1.
pub fn strip_byte_order_mark(line: u32, text: &[u8]) -> &[u8]
    ensures { result.now ≡ without_mark line text.now }
{
    match text {
        [0xef, 0xbb, 0xbf, rest @ ..] if line == 1 => rest,
        _ => text,
    }
}

/// A line without the carriage return at its end.
fn line_without_carriage_return(text: &[u8]) -> &[u8]
    ensures { result.now ≡ without_end text.now }
{
    match text {
        [rest @ .., b'\r'] => rest,
        _ => text,
    }
}

/// A line without what some editors write before or after it.
pub(crate) fn stripped_source_line(line: u32, text: &[u8]) -> &[u8]
    ensures { result.now ≡ bare_line line text.now }
{
    line_without_carriage_return(strip_byte_order_mark(line, text))
}

/// The words of a text as they are written, up to its end or to a line `end`. What follows a line with a fault is read too.
pub(crate) fn scanned_words(alloc: Global, source: &[u8]) -> Result<Vec<Token<'_>>, AllocError>
    ensures says { IfOk result (λ words. token_contents words.items ≡ tokens_of_lines 1 (source_lines source.now)) }
    ensures columns { IfOk result (λ words. token_columns words.items ≡ columns_of_lines 1 (source_lines source.now)) }
{
    let mut words = Vec::new(alloc);
    let mut rest = source;
    let mut line = 1u32;
    while !rest.is_empty() {
        let (whole, behind) = first_line(rest);
        let first = stripped_source_line(line, whole);
        if first == b"end".as_slice() {
            return Ok(words);
        }
        scan_line(&mut words, line, first)?;
        rest = behind;
        line = line.saturating_add(1);
    }
    Ok(words)
}

/// The words of a text, up to its end or to a line `end`. What follows a line with a fault is read too. The names of constants are read
/// as their numbers, and each node has a `node` of its own, with the whole program of several nodes.
///
/// # Errors
/// Allocation failed.
pub fn source_words(alloc: Global, source: &[u8]) -> Result<Vec<Token<'_>>, AllocError>
    ensures says { IfOk result (λ words. token_contents words.items ≡ source_tokens source.now) }
    ensures columns { IfOk result (λ words. token_columns words.items ≡ source_columns source.now) }
{
    let scanned = scanned_words(alloc, source)?;
    let resolved = resolve(alloc, scanned.as_slice())?;
    Ok(expand_node_groups(alloc, resolved.as_slice(), true)?)
}

/// The words of `source_words`, but with the program of several nodes after the last of their names alone: so each fault is found once.
///
/// # Errors
/// Allocation failed.
pub fn source_words_without_copies(
    alloc: Global,
    source: &[u8],
) -> Result<Vec<Token<'_>>, AllocError>
    ensures { IfOk result (λ words. token_contents words.items ≡ source_tokens_without_copies source.now) }
{
    let scanned = scanned_words(alloc, source)?;
    let resolved = resolve(alloc, scanned.as_slice())?;
    Ok(expand_node_groups(alloc, resolved.as_slice(), false)?)
}

/// Whether the word is no fault.
fn is_whole(word: &Token<'_>) -> bool
    ensures { result ≡ is_word_token (token_content word.now) }
{
    word.kind == TokenKind::Word
}

/// The words up to the first fault of a line or of a constant, with that one.
pub fn tokens_through_first_fault<'a, 's>(words: &'a [Token<'s>]) -> &'a [Token<'s>]
    ensures { token_contents result.now ≡ up_to_fault_in (token_contents words.now) }
{
    for (i, word) in words.iter().enumerate() {
        if !is_whole(word) {
            return words.split_at(i + 1).0;
        }
    }
    words
}
