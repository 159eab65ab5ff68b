//! An image or source in a file that is read before standard input.

ghost use Rattle.std.specs.Prelude.{◌≡◌, OnOk};
ghost use Rattle.ga_explorer.specs.Front.{contains_end_line, has_end_line, ends_with_bare_end_line, is_image_lacking_end_line, has_whole_lines, end_line_completion, text_with_end_line};

use crate::opening::is_image;
use std::alloc::AllocError;

/// Whether a text is an image without a line `end`, so that no command can follow it.
pub fn is_image_lacking_end_line(text: &[u8]) -> bool
    ensures { result ≡ is_image_lacking_end_line text.now }
{
    is_image(text) && !contains_end_line(text) && !ends_with_bare_end_line(text)
}

/// Ends an image or source so that commands can follow it: adds the line `end` to source that has none, and the line feed of the last
/// line. A text of whole lines, one of which is `end`, is unchanged.
///
/// # Errors
/// Allocation failed. The text is unchanged.
pub fn complete_end_line(text: &mut Vec<u8>) -> Result<(), AllocError>
    ensures ok { OnOk result (text.new.items ≡ text_with_end_line text.old.items) }
{
    text.extend_from_slice(end_line_completion(text.as_slice()))
}

/// What a text needs so that commands can follow it.
fn end_line_completion(text: &[u8]) -> &'static [u8]
    ensures { result.now ≡ end_line_completion text.now }
{
    let is_whole = has_whole_lines(text);
    if contains_end_line(text) || ends_with_bare_end_line(text) {
        if is_whole { b"" } else { b"\n" }
    } else if is_whole {
        b"end\n"
    } else {
        b"\nend\n"
    }
}

/// Whether the last line of a text, if it has one, has its line feed.
fn has_whole_lines(text: &[u8]) -> bool
    ensures { result ≡ has_whole_lines text.now }
{
    text.is_empty() || text.ends_with(b"\n".as_slice())
}

/// Whether a text ends in a line `end` that has no line feed.
fn ends_with_bare_end_line(text: &[u8]) -> bool
    ensures { result ≡ ends_with_bare_end_line text.now }
{
    text == b"end".as_slice() || text.ends_with(b"\nend".as_slice())
}

/// Whether a text has a line `end` with its line feed.
fn contains_end_line(text: &[u8]) -> bool
    ensures { result ≡ contains_end_line text.now }
{
    text.starts_with(b"end\n".as_slice()) || has_end_line(text)
}

/// Whether a line `end` with its line feed follows another line of a text.
#[tactic(auto, unfolding(crate::specs::Front::has_end_line))]
fn has_end_line(text: &[u8]) -> bool
    ensures { result ≡ has_end_line text.now }
{
    let mut rest = text;
    'bytes: while let Some((_, more)) = rest.split_first() {
        if rest.starts_with(b"\nend\n".as_slice()) {
            return true;
        }
        rest = more;
    }
    false
}
