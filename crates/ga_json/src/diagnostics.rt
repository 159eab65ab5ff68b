//! The objects of what standard error has of a source: warnings, and why it is refused.

ghost use Rattle.std.specs.Prelude.{◌≡◌, option_map};
ghost use Rattle.ga_text.specs.Output.{WritesExactly};
ghost use Rattle.ga_json.specs.Compact.{json_line};
ghost use Rattle.ga_json.specs.Diagnostics.{text_after_word, text_without_leading_word, is_colon, text_without_last_colon, parse_line_number_and_text, diagnostic_line_and_reason, diagnostic_answer_word, diagnostic_object, diagnostics_json};

use crate::field::Field;
use crate::optional_fields::{optional_number_field, text_field};
use crate::report::write_object;
use ga_text::{WriteResult, Writer, first_line, parse_number, split_at_space};
use std::io::Write;

/// Writes an object for each line of standard error about the source of a file, or of a refusal of its program.
///
/// # Errors
/// A write failed.
pub fn write_diagnostics<W: Write>(
    file: &[u8],
    text: &[u8],
    writer: &mut Writer<'_, W>,
) -> WriteResult
    ensures { WritesExactly result (diagnostics_json file.now text.now) W.contents writer.old writer.new }
{
    let mut rest = text;
    'lines: while !rest.is_empty() {
        let (line, after) = first_line(rest);
        write_diagnostic(file, line, writer)?;
        rest = after;
    }
    Ok(())
}

/// Writes the object of a line.
///
/// # Errors
/// A write failed.
fn write_diagnostic<W: Write>(file: &[u8], line: &[u8], writer: &mut Writer<'_, W>) -> WriteResult
    ensures { WritesExactly result (json_line (diagnostic_object file.now line.now)) W.contents writer.old writer.new }
{
    let (number, reason) = diagnostic_line_and_reason(line);
    write_object(
        &[
            Field::text(b"answer", diagnostic_answer_word(reason)),
            text_field(b"file", file),
            optional_number_field(b"line", number),
            text_field(b"text", text_without_leading_word(b"warning:", reason)),
        ],
        writer,
    )
}

/// What a reason is: a warning, or that of a refusal.
fn diagnostic_answer_word(reason: &[u8]) -> &'static [u8]
    ensures { result.now ≡ diagnostic_answer_word reason.now }
{
    match text_after_word(b"warning:", reason) {
        Some(_) => b"warning",
        None => b"refused",
    }
}

/// The number of the source's line, if a line names one, and the reason.
fn diagnostic_line_and_reason(line: &[u8]) -> (Option<u64>, &[u8])
    ensures number { result.0 ≡ (diagnostic_line_and_reason line.now).0 }
    ensures reason { result.1.now ≡ (diagnostic_line_and_reason line.now).1 }
{
    let text = text_without_leading_word(b"ga144:", line);
    match parse_line_number_and_text(text) {
        Some((number, reason)) => (Some(u64::from(number)), reason),
        None => (None, text),
    }
}

/// A text without this word, if it begins with it.
fn text_without_leading_word<'a>(word: &[u8], text: &'a [u8]) -> &'a [u8]
    ensures { result.now ≡ text_without_leading_word word.now text.now }
{
    match text_after_word(word, text) {
        Some(rest) => rest,
        None => text,
    }
}

/// The number of a line of the source, and the text after it.
fn parse_line_number_and_text(text: &[u8]) -> Option<(u32, &[u8])>
    ensures { option_map (λ parts. (parts.0, parts.1.now)) result ≡ parse_line_number_and_text text.now }
{
    let (numeral, reason) = split_at_space(text_after_word(b"line", text)?)?;
    let number = parse_number(text_without_last_colon(numeral))?;
    Some((number, reason))
}

/// The text after the first word, if that is this one.
fn text_after_word<'a>(word: &[u8], text: &'a [u8]) -> Option<&'a [u8]>
    ensures { option_map (λ rest. rest.now) result ≡ text_after_word word.now text.now }
{
    let (first, rest) = split_at_space(text)?;
    if first == word { Some(rest) } else { None }
}

/// A word without a colon at its end.
fn text_without_last_colon(word: &[u8]) -> &[u8]
    ensures { result.now ≡ text_without_last_colon word.now }
{
    if is_colon(word.last()) {
        word.split_at(word.len() - 1).0
    } else {
        word
    }
}

/// Whether there is a byte, and it is a colon.
fn is_colon(byte: Option<&u8>) -> bool
    ensures { result ≡ is_colon (option_map (λ it. it.now) byte.entry) }
{
    match byte {
        Some(byte) => *byte == b':',
        None => false,
    }
}
