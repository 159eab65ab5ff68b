//! Words without the definitions of constants, which are read as their numbers.

ghost use Rattle.std.specs.Prelude.{◌≡◌, IfOk};
ghost use Rattle.ga_parser.specs.Constants.{is_number_before_constant as defines_by, begins_label as begins_label_in, resolution_of_words, tokens_without_definitions, fault_replacing_word as constant_fault_token, number_text_or_word as or_word_in};
ghost use Rattle.ga_parser.specs.inner.Placing.{placed, placed_all};
ghost use Rattle.ga_parser.specs.inner.Resolving.{resolution_of_parser};

use super::draft::text_at;
use super::labels::Labels;
use super::number::{Number, number_of};
use super::scan::{Token, TokenKind};
use super::vocabulary::is_reserved_word;
use std::alloc::{AllocError, Global};

/// What the next word is.
#[derive(Clone, Copy)]
pub(crate) enum Awaited<'s> {
    Any,
    /// The word `constant` after this number.
    Constant(Token<'s>),
    /// The name after this number and the word `constant`.
    Name(Token<'s>, Token<'s>),
}

/// What was read so far.
#[derive(Drop)]
pub(crate) struct Resolving<'s> {
    pub words: Vec<Token<'s>>,
    /// The names of constants and labels.
    pub names: Labels<'s>,
    /// What each name is read as: the number of a constant, nothing for a label.
    pub numbers: Vec<&'s [u8]>,
    pub awaited: Awaited<'s>,
}

/// Whether a constant is defined: its number is the word, and the next word is `constant`.
fn is_number_before_constant(word: Token<'_>, next: &[u8]) -> bool
    ensures { result ≡ defines_by (placed word.entry) next.now }
{
    word.kind == TokenKind::Word && next == b"constant".as_slice()
}

/// Whether the next word is a label's name.
fn begins_label(word: Token<'_>) -> bool
    ensures { result ≡ begins_label_in (placed word.entry) }
{
    word.text == b":".as_slice()
}

/// A fault in the place of a word.
fn fault_replacing_word<'s>(kind: TokenKind, word: Token<'s>) -> Token<'s>
    ensures { placed result ≡ constant_fault_token kind (placed word.entry) }
{
    Token {
        line: word.line,
        column: word.column,
        text: &[],
        kind,
    }
}

impl<'s> Resolving<'s> {
    ghost use Rattle.std.specs.Prelude.{◌≡◌, option_map, OnOk};
    ghost use Rattle.ga_parser.specs.Constants.{initial_resolution, resolve_next_word, resolved_word_text as read_as_in, constant_number_text as named_number, resolution_with_defined_name, is_free_name as is_free_in, constant_definition_fault as definition_fault_in, add_constant_definition as define_in, resolution_with_passed_word, end_resolution, resolution_with_token};
    ghost use Rattle.ga_parser.specs.inner.Placing.{placed};
    ghost use Rattle.ga_parser.specs.inner.Resolving.{resolution_of_parser, known_names_of_parser};

    fn new(alloc: Global) -> Self
        ensures { resolution_of_parser result ≡ initial_resolution }
    {
        Resolving {
            words: Vec::new(alloc),
            names: Labels::new(alloc),
            numbers: Vec::new(alloc),
            awaited: Awaited::Any,
        }
    }

    /// What a word is read as: a constant as its number.
    pub(crate) fn resolved_word_text(&self, word: &'s [u8]) -> &'s [u8]
        ensures { result.now ≡ read_as_in (known_names_of_parser self.now) word.now }
    {
        match self.names.find(word) {
            Some(name) => number_text_or_word(self.constant_number_text(name), word),
            None => word,
        }
    }

    /// What the name with a number is read as, nothing for a label.
    fn constant_number_text(&self, name: usize) -> &'s [u8]
        ensures { result.now ≡ named_number (known_names_of_parser self.now) name }
    {
        match self.numbers.get(name) {
            Some(number) => number,
            None => &[],
        }
    }

    /// Adds a word.
    fn push(&mut self, word: Token<'s>) -> Result<(), AllocError>
        ensures { OnOk result (resolution_of_parser self.new ≡ resolution_with_token (resolution_of_parser self.old) (placed word.entry)) }
    {
        self.words.push(word)?;
        Ok(())
    }

    /// Adds a name, unless it is there.
    fn add(&mut self, line: u32, name: &'s [u8], number: &'s [u8]) -> Result<(), AllocError>
        ensures { OnOk result (resolution_of_parser self.new ≡ resolution_with_defined_name (resolution_of_parser self.old) line name.now number.now) }
    {
        if self.names.find(name).is_some() {
            return Ok(());
        }
        self.names.named(line, name)?;
        self.numbers.push(number)?;
        Ok(())
    }

    /// Whether a constant may have this name.
    fn is_free_name(&self, name: &'s [u8]) -> bool
        ensures { result ≡ is_free_in (known_names_of_parser self.now) name.now }
    {
        !is_reserved_word(name) && self.names.find(name).is_none()
    }

    /// What is wrong with the definition of a constant, if something is.
    fn constant_definition_fault(&self, number: Token<'s>, name: Token<'s>) -> Option<Token<'s>>
        ensures { option_map placed result ≡ definition_fault_in (known_names_of_parser self.now) (placed number.entry) (placed name.entry) }
    {
        let text = self.resolved_word_text(number.text);
        match number_of(text) {
            Number::Of(_) => {
                if self.is_free_name(name.text) {
                    None
                } else {
                    Some(fault_replacing_word(TokenKind::NameTaken, name))
                }
            }
            Number::OutOfRange | Number::Nothing => Some(fault_replacing_word(
                TokenKind::NoNumber,
                number,
            )),
        }
    }

    /// Defines a constant, or adds the fault of its definition.
    fn add_constant_definition(
        &mut self,
        number: Token<'s>,
        word: Token<'s>,
        name: Token<'s>,
    ) -> Result<(), AllocError>
        ensures { OnOk result (resolution_of_parser self.new ≡ define_in (resolution_of_parser self.old) (placed number.entry) (placed word.entry) (placed name.entry)) }
    {
        if name.kind != TokenKind::Word {
            self.push(fault_replacing_word(TokenKind::MissingNameOrValue, word))?;
            return self.push(name);
        }
        match self.constant_definition_fault(number, name) {
            Some(fault) => self.push(fault),
            None => {
                let text = self.resolved_word_text(number.text);
                self.add(name.line, name.text, text)
            }
        }
    }

    /// Takes a word that is no part of a definition.
    fn pass(&mut self, word: Token<'s>, next: &'s [u8]) -> Result<(), AllocError>
        ensures { OnOk result (resolution_of_parser self.new ≡ resolution_with_passed_word (resolution_of_parser self.old) (placed word.entry) next.now) }
    {
        let text = self.resolved_word_text(word.text);
        self.push(Token {
            line: word.line,
            column: word.column,
            text,
            kind: word.kind,
        })?;
        if begins_label(word) {
            self.add(word.line, next, &[])?;
        }
        Ok(())
    }

    /// Takes a word.
    fn take(&mut self, word: Token<'s>, next: &'s [u8]) -> Result<(), AllocError>
        ensures { OnOk result (resolution_of_parser self.new ≡ resolve_next_word (resolution_of_parser self.old) (placed word.entry) next.now) }
    {
        let awaited = self.awaited;
        self.awaited = Awaited::Any;
        match awaited {
            Awaited::Any => {
                if is_number_before_constant(word, next) {
                    self.awaited = Awaited::Constant(word);
                    Ok(())
                } else {
                    self.pass(word, next)
                }
            }
            Awaited::Constant(number) => {
                self.awaited = Awaited::Name(number, word);
                Ok(())
            }
            Awaited::Name(number, constant) => self.add_constant_definition(number, constant, word),
        }
    }

    /// Adds the fault of a definition without a name.
    fn end(&mut self) -> Result<(), AllocError>
        ensures { OnOk result (resolution_of_parser self.new ≡ end_resolution (resolution_of_parser self.old)) }
    {
        match self.awaited {
            Awaited::Name(_, constant) => self.push(fault_replacing_word(
                TokenKind::MissingNameOrValue,
                constant,
            )),
            Awaited::Any | Awaited::Constant(_) => Ok(()),
        }
    }
}

/// The number, or the word where there is none.
fn number_text_or_word<'s>(number: &'s [u8], word: &'s [u8]) -> &'s [u8]
    ensures { result.now ≡ or_word_in number.now word.now }
{
    if number.is_empty() { word } else { number }
}

/// The words without the definitions of constants, which are read as their numbers from there on; and all constants.
pub(crate) fn resolve_constants<'s>(
    alloc: Global,
    words: &[Token<'s>],
) -> Result<Resolving<'s>, AllocError>
    ensures { IfOk result (λ all. resolution_of_parser all ≡ resolution_of_words (placed_all words.now)) }
{
    let mut all = Resolving::new(alloc);
    for (i, word) in words.iter().enumerate() {
        all.take(*word, text_at(words, i + 1))?;
    }
    all.end()?;
    Ok(all)
}

/// The words without the definitions of constants, which are read as their numbers from there on.
pub(crate) fn resolve<'s>(alloc: Global, words: &[Token<'s>]) -> Result<Vec<Token<'s>>, AllocError>
    ensures { IfOk result (λ all. placed_all all.items ≡ tokens_without_definitions (placed_all words.now)) }
{
    let all = resolve_constants(alloc, words)?;
    Ok(all.words)
}
