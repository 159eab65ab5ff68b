//! Words with their numbers in place of their lines, and faults at the lines of their words.

ghost use Rattle.std.specs.Prelude.{◌≡◌, ℕ, List, IfOk, IfErr};
ghost use Rattle.ga_parser.specs.declared.fault.SourceFaultCause.TheVariants.{Memory};
ghost use Rattle.ga_parser.specs.Saying.{token_contents};
ghost use Rattle.ga_parser.specs.Words.{source_tokens};
ghost use Rattle.ga_source.specs.Made.{IsPlainSource};
ghost use Rattle.ga_source.specs.Recovery.{token_with_line, tokens_with_word_numbers, IsAssemblyOfWords, line_of_numbered_word, fault_at_line_of_word, faults_at_lines_of_words};

use super::program::{AssembledChip, assemble_words};
use ga_parser::{SourceFault, SourceFaultCause, Token};
use std::alloc::{AllocError, Global};

/// The words with their numbers, from 1 on, in place of their lines.
pub(crate) fn number_words<'s>(
    alloc: Global,
    words: &[Token<'s>],
) -> Result<Vec<Token<'s>>, AllocError>
    ensures { IfOk result (λ all. all.items ≡ tokens_with_word_numbers 1 words.now) }
{
    let mut all = Vec::new(alloc);
    let mut number = 1u32;
    for word in words {
        all.push(with_number(word, number))?;
        number = number.saturating_add(1);
    }
    Ok(all)
}

/// A word with its number in place of its line.
fn with_number<'s>(word: &Token<'s>, number: u32) -> Token<'s>
    ensures { result ≡ token_with_line word.now number }
{
    Token {
        line: number,
        column: word.column,
        text: word.text,
        kind: word.kind,
    }
}

/// The chip of words, with the numbers of words in place of lines.
///
/// # Errors
/// A fault of the first node that has one: the first of its words, or else of its names, or else of its cells.
#[tactic(auto, using(crate::proofs::Refusing::numbered_words))]
pub fn assemble_by_word_number<'s>(
    alloc: Global,
    words: &[Token<'s>],
) -> Result<AssembledChip<'s>, SourceFault<'s>>
    ensures assembled { IfOk result (IsAssemblyOfWords (tokens_with_word_numbers 1 words.now)) }

    // All words of a source of plain words that give each cell once are refused only if memory runs out.
    ensures refused { IfErr result (λ fault. (source : List ℕ) → token_contents words.now ≡ source_tokens source → IsPlainSource source → fault.cause ≡ Memory) }
{
    let numbered = number_words(alloc, words)?;
    assemble_words(alloc, numbered.as_slice())
}

/// The line of the word with a number, 0 if there is none.
pub fn line_of_numbered_word(words: &[Token<'_>], number: u32) -> u32
    ensures { result ≡ line_of_numbered_word words.now number }
{
    match words.get((number as usize).saturating_sub(1)) {
        Some(word) => word.line,
        None => 0,
    }
}

/// A fault at the number of a word, at that word's line.
pub fn fault_on_line_of_word<'s>(words: &[Token<'_>], fault: SourceFault<'s>) -> SourceFault<'s>
    ensures { result ≡ fault_at_line_of_word words.now fault.entry }
{
    let line = line_of_numbered_word(words, fault.line);
    let cause = match fault.cause {
        SourceFaultCause::CellTwice { cell, line } => SourceFaultCause::CellTwice {
            cell,
            line: line_of_numbered_word(words, line),
        },
        cause => cause,
    };
    SourceFault { line, cause }
}

/// The faults at the lines of their words, without those that are equal to the one before.
///
/// # Errors
/// Out of memory.
pub fn faults_on_lines_of_words<'s>(
    alloc: Global,
    words: &[Token<'_>],
    faults: &[SourceFault<'s>],
) -> Result<Vec<SourceFault<'s>>, AllocError>
    ensures { IfOk result (λ all. all.items ≡ faults_at_lines_of_words words.now faults.now) }
{
    let mut all = Vec::new(alloc);
    for fault in faults {
        all.push(fault_on_line_of_word(words, *fault))?;
    }
    all.dedup();
    Ok(all)
}
