//! What editors write into a text, where it has no place.

ghost use Rattle.std.specs.Prelude.{◌≡◌, ◌≤◌, ◌++◌, true, false, [], length, codes, decimal};
ghost use Rattle.ga_text.specs.Lines.{Bytes};
ghost use Rattle.ga_text.specs.Output.{IsTextWrittenOrTruncated};
ghost use Rattle.ga_debug_info.specs.Edited.{first_carriage_return, first_hiding_end_line, begins_with_hiding_end_line as hides_by, stray_character_in_image, stray_character_in_source, byte_order_mark_report, stray_character_report};

use super::faults::tell;
use ga_text::{TextBuffer, WriteResult, push_number, push_text};
use std::io::Write;

/// What an editor wrote into a text where it has no place.
#[derive(Clone, Copy, PartialEq, Eq, Debug)]
pub enum StrayEditorCharacter {
    /// A byte order mark before an image.
    ByteOrderMark,
    /// A carriage return at the end of this line, counted from 1.
    CarriageReturn(u32),
    /// A carriage return after the word of this line, which should be `end`.
    CarriageReturnAfterEndWord(u32),
}

/// The first line that ends with a carriage return.
#[tactic(auto, using(crate::proofs::EditedLemmas::return_more, crate::proofs::EditedLemmas::return_none, std::proofs::lemmas::List::drop_all))]
fn return_in(image: &[u8]) -> Option<StrayEditorCharacter>
    ensures { result ≡ first_carriage_return 1 false image.now }
{
    let mut line = 1u32;
    let mut is_return = false;
    for byte in image {
        let is_line_feed = *byte == b'\n';
        if is_return && is_line_feed {
            return Some(StrayEditorCharacter::CarriageReturn(line));
        }
        if is_line_feed {
            line = line.saturating_add(1);
        }
        is_return = *byte == b'\r';
    }
    None
}

/// What an editor wrote into an image: a byte order mark before it, or else the first carriage return at a line's end.
pub fn find_stray_character_in_image(image: &[u8]) -> Option<StrayEditorCharacter>
    ensures { result ≡ stray_character_in_image image.now }
{
    if image.starts_with(b"\xef\xbb\xbf".as_slice()) {
        return Some(StrayEditorCharacter::ByteOrderMark);
    }
    return_in(image)
}

/// The first line `end` with a carriage return that is followed by other lines.
#[tactic(auto, using(crate::proofs::EditedLemmas::hidden_more, crate::proofs::EditedLemmas::hidden_none, std::proofs::lemmas::List::drop_all))]
fn hidden_in(source: &[u8]) -> Option<StrayEditorCharacter>
    ensures { result ≡ first_hiding_end_line 1 true source.now }
{
    let mut line = 1u32;
    let mut is_start = true;
    for (i, byte) in source.iter().enumerate() {
        if is_start && begins_with_hiding_end_line(source.split_at(i).1) {
            return Some(StrayEditorCharacter::CarriageReturnAfterEndWord(line));
        }
        is_start = *byte == b'\n';
        if is_start {
            line = line.saturating_add(1);
        }
    }
    None
}

/// What an editor wrote into source so that the commands after it are not read: a byte order mark before an image, which is
/// then source, or a carriage return after a line `end` that is followed by other lines.
pub fn find_stray_character_in_source(source: &[u8]) -> Option<StrayEditorCharacter>
    ensures { result ≡ stray_character_in_source source.now }
{
    if source.starts_with(b"\xef\xbb\xbfga144".as_slice()) {
        return Some(StrayEditorCharacter::ByteOrderMark);
    }
    hidden_in(source)
}

/// Whether a text begins with a line `end` with a carriage return, and other lines than `end` follow it.
fn begins_with_hiding_end_line(text: &[u8]) -> bool
    ensures { result ≡ hides_by text.now }
{
    text.starts_with(b"end\r\n".as_slice())
        && text != b"end\r\n".as_slice()
        && text != b"end\r\nend".as_slice()
        && text != b"end\r\nend\n".as_slice()
}

/// The text about a carriage return after a line.
fn line_told(line: u32, behind: &[u8]) -> TextBuffer
    requires { length behind.now ≤ 100 }
    ensures { result.items ≡ codes "ga144: line " ++ decimal line ++ behind.now }
{
    let mut text = TextBuffer::new();
    push_text(&mut text, b"ga144: line ");
    push_number(&mut text, u64::from(line));
    push_text(&mut text, behind);
    text
}

/// Reports a byte order mark.
fn tell_mark<E: Write>(errors: &mut E) -> WriteResult
    ensures { (before : Bytes) → E.contents errors.old ≡ Some before → IsTextWrittenOrTruncated result (E.contents errors.new) before byte_order_mark_report [] }
{
    tell(
        errors,
        b"ga144: a byte order mark stands before the image; leave it out\n",
    )
}

/// Reports what an editor wrote into a text, if it did.
pub fn report_stray_character<E: Write>(
    errors: &mut E,
    edited: Option<StrayEditorCharacter>,
) -> WriteResult
    ensures { (before : Bytes) → E.contents errors.old ≡ Some before → IsTextWrittenOrTruncated result (E.contents errors.new) before (stray_character_report edited) [] }
{
    match edited {
        Some(StrayEditorCharacter::ByteOrderMark) => tell_mark(errors),
        Some(StrayEditorCharacter::CarriageReturn(line)) => {
            let text = line_told(
                line,
                b": a carriage return ends the line; end it with a line feed alone\n",
            );
            tell(errors, text.as_slice())
        }
        Some(StrayEditorCharacter::CarriageReturnAfterEndWord(line)) => {
            let text = line_told(
                line,
                b": a carriage return ends the line end; end it with a line feed alone\n",
            );
            tell(errors, text.as_slice())
        }
        None => tell(errors, b""),
    }
}
