//! What to write in place of a word that says nothing.

ghost use Rattle.std.specs.List.{list_all};
ghost use Rattle.std.specs.Prelude.{◌≡◌, ◌≤◌, true, [], ◌++◌, ℕ, List, length, map, option_map, IfSome};
ghost use Rattle.ga_parser.specs.Vocabulary.{find_in_table};
ghost use Rattle.ga_parser.specs.Hints.{foreign_spelling, find_probable_word, first_probable_name, is_probable_misspelling, digits_after_dollar, name_after_colon, word_before_final_byte, number_before_comma, local_spelling, hint_for_word, hint_text, IsShortHint};
ghost use Rattle.ga_parser.specs.inner.Hinting.{row_of, name_of_known_word, has_short_hint, is_short_name};

use super::hint_words::{ForeignWord, KnownWord, foreign_words, known_source_words};
use super::nearness::{is_same_ignoring_case, is_within_one_edit};
use super::number::{digits, number_of};
use super::vocabulary::is_number;

/// What to write instead of a word: three texts, one after another.
#[derive(Clone, Copy, PartialEq, Eq, Debug)]
pub struct SpellingHint<'s> {
    pub before: &'static [u8],
    pub word: &'s [u8],
    pub behind: &'static [u8],
}

/// What says a word of another Forth here.
#[tactic(auto, unfolding(crate::specs::Hints::foreign_spelling))]
fn foreign_spelling(word: &[u8]) -> Option<&'static [u8]>
    ensures text { option_map (λ text. text.now) result ≡ foreign_spelling word.now }
    ensures short { IfSome result (λ text. length text.now ≤ 64) }
{
    said_here(foreign_words(), word)
}

#[tactic(auto, using(crate::proofs::Hinting::row_here, crate::proofs::Hinting::row_behind, crate::proofs::Hinting::short_row, std::proofs::lemmas::List::drop_all))]
fn said_here(rows: &'static [ForeignWord], word: &[u8]) -> Option<&'static [u8]>
    requires { list_all has_short_hint rows.now ≡ true }
    ensures text { option_map (λ text. text.now) result ≡ find_in_table (map row_of rows.now) word.now }
    ensures short { IfSome result (λ text. length text.now ≤ 64) }
{
    'rows: for row in rows {
        if word == row.word {
            return Some(row.here);
        }
    }
    None
}

/// The first word of source that was meant.
#[tactic(auto, unfolding(crate::specs::Hints::find_probable_word))]
fn find_probable_word(word: &[u8]) -> Option<&'static [u8]>
    ensures text { option_map (λ text. text.now) result ≡ find_probable_word word.now }
    ensures short { IfSome result (λ text. length text.now ≤ 64) }
{
    meant_among(known_source_words(), word)
}

#[tactic(auto, using(crate::proofs::Hinting::meant_here, crate::proofs::Hinting::meant_behind, crate::proofs::Hinting::short_name, std::proofs::lemmas::List::drop_all), unfolding(crate::specs::Hints::first_probable_name))]
fn meant_among(names: &'static [KnownWord], word: &[u8]) -> Option<&'static [u8]>
    requires { list_all is_short_name names.now ≡ true }
    ensures text { option_map (λ text. text.now) result ≡ first_probable_name word.now (map name_of_known_word names.now) }
    ensures short { IfSome result (λ text. length text.now ≤ 64) }
{
    'names: for known in names {
        if is_probable_misspelling(word, known.name) {
            return Some(known.name);
        }
    }
    None
}

/// Whether a name was meant by a word: they differ in upper case alone, or, where the name has four letters or more, in one letter.
fn is_probable_misspelling(word: &[u8], name: &[u8]) -> bool
    ensures { result ≡ is_probable_misspelling word.now name.now }
{
    is_same_ignoring_case(word, name) || name.len() > 3 && is_within_one_edit(word, name)
}

/// The digits of a hexadecimal number after a `$`.
fn digits_after_dollar(word: &[u8]) -> Option<&[u8]>
    ensures text { option_map (λ text. text.now) result ≡ digits_after_dollar word.now }
    ensures short { IfSome result (λ text. length text.now ≤ length word.now) }
{
    let rest = word.strip_prefix(b"$")?;
    match digits(rest, 16) {
        Some(_) => Some(rest),
        None => None,
    }
}

/// The part before the byte with which a word ends.
fn word_before_final_byte(end: u8, word: &[u8]) -> Option<&[u8]>
    ensures text { option_map (λ text. text.now) result ≡ word_before_final_byte end word.now }
    ensures short { IfSome result (λ text. length text.now ≤ length word.now) }
{
    match word {
        [rest @ .., last] if *last == end && !rest.is_empty() => Some(rest),
        _ => None,
    }
}

/// The part after the colon with which a word begins.
fn name_after_colon(word: &[u8]) -> Option<&[u8]>
    ensures text { option_map (λ text. text.now) result ≡ name_after_colon word.now }
    ensures short { IfSome result (λ text. length text.now ≤ length word.now) }
{
    match word {
        [b':', rest @ ..] if !rest.is_empty() => Some(rest),
        _ => None,
    }
}

/// The number in front of the comma with which a word ends.
fn number_before_comma(word: &[u8]) -> Option<&[u8]>
    ensures text { option_map (λ text. text.now) result ≡ number_before_comma word.now }
    ensures short { IfSome result (λ text. length text.now ≤ length word.now) }
{
    let rest = word_before_final_byte(b',', word)?;
    if is_number(number_of(rest)) {
        Some(rest)
    } else {
        None
    }
}

/// A word that was spelled as elsewhere, or without a blank, as it is spelled here.
#[tactic(auto, using(crate::proofs::Hinting::text_alone), unfolding(crate::specs::Hints::local_spelling))]
fn local_spelling(word: &[u8]) -> Option<SpellingHint<'_>>
    ensures text { option_map hint_text result ≡ local_spelling word.now }
    ensures short { IfSome result (IsShortHint word.now) }
{
    if let Some(text) = foreign_spelling(word) {
        return Some(hinted(text, b"", b""));
    }
    if let Some(digits) = digits_after_dollar(word) {
        return Some(hinted(b"0x", digits, b""));
    }
    if let Some(name) = word_before_final_byte(b';', word) {
        return Some(hinted(b"", name, b" ;"));
    }
    if let Some(name) = word_before_final_byte(b':', word) {
        return Some(hinted(b": ", name, b""));
    }
    if let Some(name) = name_after_colon(word) {
        return Some(hinted(b": ", name, b""));
    }
    if let Some(number) = number_before_comma(word) {
        return Some(hinted(b"", number, b" ,"));
    }
    None
}

fn hinted<'s>(before: &'static [u8], word: &'s [u8], behind: &'static [u8]) -> SpellingHint<'s>
    requires before { length before.now ≤ 64 }
    requires behind { length behind.now ≤ 64 }
    ensures text { hint_text result ≡ before.entry.now ++ (word.entry.now ++ behind.entry.now) }
    ensures short { (text : List ℕ) → length word.entry.now ≤ length text → IsShortHint text result }
{
    SpellingHint {
        before,
        word,
        behind,
    }
}

/// What to write in place of a word that says nothing: how it is spelled here, or else the word that was meant, with a `?`.
#[tactic(auto, unfolding(crate::specs::Hints::hint_for_word))]
pub fn hint_for_word(word: &[u8]) -> Option<SpellingHint<'_>>
    ensures text { option_map hint_text result ≡ hint_for_word word.now }
    ensures short { IfSome result (IsShortHint word.now) }
{
    if let Some(hint) = local_spelling(word) {
        return Some(hint);
    }
    match find_probable_word(word) {
        Some(name) => Some(hinted(name, b"", b"?")),
        None => None,
    }
}
