//! The lines of a source.

ghost use Rattle.std.specs.Prelude.{◌≡◌, [], drop, slice_index_or};
ghost use Rattle.ga_parser.specs.Saying.{source_lines};
ghost use Rattle.ga_debug_info.specs.Source.{source_line_without_mark, trimmed_source_line, is_long_line};
ghost use Rattle.ga_debug_info.specs.Notes.{source_text_from_column};

use ga_source::strip_byte_order_mark;
use std::marker::Model;

/// The maximum number of bytes of a line that is shown whole.
const LONGEST_WHOLE_LINE: usize = 40;

/// Whether a line is shown from a word on.
pub(crate) fn is_long(text: &[u8]) -> bool
    ensures { result ≡ is_long_line text.now }
{
    text.len() > LONGEST_WHOLE_LINE
}

/// The lines of a source. One that doesn't stand before the line that was asked for last is looked for from there on.
#[derive(Drop)]
pub struct SourceLineCursor<'s> {
    source: &'s [u8],
    /// How many lines stand before the rest.
    before: u32,
    rest: &'s [u8],
}

impl<'s> Model for SourceLineCursor<'s> {
    ghost use Rattle.std.specs.Prelude.{◌≡◌, ℕ, List, drop};
    ghost use Rattle.ga_parser.specs.Saying.{source_lines};

    ghost Value = { List ℕ };

    ghost view = { λ l. l.source.now };

    ghost invariant = { λ l. source_lines l.rest.now ≡ drop l.before (source_lines l.source.now) };
}

impl<'s> SourceLineCursor<'s> {
    /// The lines of this source.
    pub fn new(source: &'s [u8]) -> Self
        ensures { result ≡ source.now }
    {
        SourceLineCursor {
            source,
            before: 0,
            rest: source,
        }
    }

    /// A line by its number from 1 on, without blanks around it, and the first without a byte order mark; empty where there is
    /// none.
    pub fn line(&mut self, number: u32) -> &'s [u8]
        ensures line { result.now ≡ trimmed_source_line self.old number }
        ensures same { self.new ≡ self.old }
    {
        self.bare(number).trim_ascii()
    }

    /// A line by its number from a column on, without surrounding blanks. Columns are counted in bytes from 1 on, after a byte
    /// order mark.
    pub fn line_from_column(&mut self, number: u32, column: u32) -> &'s [u8]
        ensures line { result.now ≡ source_text_from_column self.old number column }
        ensures same { self.new ≡ self.old }
    {
        past(self.bare(number), column.saturating_sub(1)).trim_ascii()
    }

    /// A line by its number, unchanged; the first without a byte order mark.
    #[tactic(auto, using(crate::proofs::LineLemmas::line_found))]
    fn bare(&mut self, number: u32) -> &'s [u8]
        ensures line { result.now ≡ source_line_without_mark self.old number }
        ensures same { self.new ≡ self.old }
    {
        let before = number.saturating_sub(1);
        self.rest = behind(self.source, self.before, self.rest, before);
        self.before = before;
        let (first, _) = first_line(self.rest);
        strip_byte_order_mark(number, first)
    }
}

/// The part after the first `count` bytes.
#[tactic(auto, using(crate::proofs::LineLemmas::all_past))]
fn past(text: &[u8], count: u32) -> &[u8]
    ensures { result.now ≡ drop count text.now }
{
    let count = count as usize;
    if count < text.len() {
        text.split_at(count).1
    } else {
        &[]
    }
}

/// The first line, and the text after it.
#[tactic(auto, using(crate::proofs::LineLemmas::first_found, crate::proofs::LineLemmas::rest_found, crate::proofs::LineLemmas::no_first, crate::proofs::LineLemmas::no_rest))]
fn first_line(text: &[u8]) -> (&[u8], &[u8])
    ensures line { result.0.now ≡ slice_index_or (source_lines text.now) 0 [] }
    ensures rest { source_lines result.1.now ≡ drop 1 (source_lines text.now) }
{
    if text.is_empty() {
        return (text, text);
    }
    ga_text::first_line(text)
}

/// The text after the first `wanted` lines of a source, given the `rest` after the first `before`.
fn behind<'s>(source: &'s [u8], before: u32, rest: &'s [u8], wanted: u32) -> &'s [u8]
    requires { source_lines rest.now ≡ drop before (source_lines source.now) }
    ensures { source_lines result.now ≡ drop wanted (source_lines source.now) }
{
    if wanted < before {
        behind_lines(source, wanted)
    } else {
        behind_lines(rest, wanted - before)
    }
}

/// The text after the first `count` lines.
#[tactic(auto, using(crate::proofs::LineLemmas::none_left))]
fn behind_lines(text: &[u8], count: u32) -> &[u8]
    ensures { source_lines result.now ≡ drop count (source_lines text.now) }
{
    let mut rest = text;
    let mut left = count;
    while left > 0 && !rest.is_empty() {
        rest = first_line(rest).1;
        left -= 1;
    }
    rest
}
