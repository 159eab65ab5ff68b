//! The numbers of the lines of `whence`.

ghost use Rattle.std.specs.Prelude.{◌≡◌, ◌+◌, ◌^◌, ◌<◌, ◌≤◌, ◌++◌};
ghost use Rattle.arrayvec.specs.ArrayVec.{array_vec_len};
ghost use Rattle.ga_explorer_text.specs.Whence.{using_line_suffix, value_line_numbers_text, value_run_count_text, using_line_number, has_queried_step_line, last_written_line_number, more_provenance_lines_text};

use arrayvec::ArrayVec;
use ga_text::{MAX_NUMBER_DIGITS, TextBuffer, push_number, push_text};

/// How many lines of values an answer has at most.
const MAX_LINES: u32 = 100;

/// The most bytes of the number of the line that used a value.
const MAX_USER_BYTES: usize = 1 + MAX_NUMBER_DIGITS;

/// The most bytes of the numbers of a line.
pub(crate) const MAX_LINE_NUMBER_BYTES: usize = MAX_NUMBER_DIGITS + MAX_USER_BYTES + 1;

/// The most bytes of how many values a run has.
pub(crate) const MAX_RUN_COUNT_BYTES: usize = 2 + MAX_NUMBER_DIGITS;

/// The number of the last line that is written, from line `first` on.
pub fn last_written_line_number(first: u32) -> u32
    ensures { result ≡ last_written_line_number first }
{
    first.saturating_sub(1).saturating_add(MAX_LINES)
}

/// Whether line 0 is written.
pub(crate) fn has_queried_step_line(is_moved: bool, first: u32) -> bool
    ensures { result ≡ has_queried_step_line is_moved first }
{
    is_moved && first == 1
}

/// The number of the line that used the value of a line, where one did.
pub(crate) fn using_line_number(is_moved: bool, number: u32, user: u32) -> Option<u32>
    ensures { result ≡ using_line_number is_moved number user }
{
    if is_moved || number > 1 {
        Some(user)
    } else {
        None
    }
}

/// The text after the lines: from where to go on, if these are not all, or that there are none.
pub(crate) fn more_lines(lines: u64, first: u32, is_whole: bool) -> TextBuffer
    requires { lines < 2 ^ 32 }
    ensures { result.items ≡ more_provenance_lines_text lines first is_whole }
{
    let mut out = ArrayVec::new();
    if is_whole {
        if lines < u64::from(first) {
            push_text(&mut out, b"none\n");
        }
    } else {
        push_text(&mut out, b"more from ");
        push_number(&mut out, lines + 1);
        push_text(&mut out, b"\n");
    }
    out
}

/// Adds the number of a line, and that of the line that used its value, if any did.
pub(crate) fn push_line_number(out: &mut TextBuffer, number: u32, user: Option<u32>)
    requires { array_vec_len out.old + MAX_LINE_NUMBER_BYTES ≤ 256 }
    ensures text { out.new.items ≡ out.old.items ++ value_line_numbers_text number user }
    ensures len { array_vec_len out.new ≤ array_vec_len out.old + MAX_LINE_NUMBER_BYTES }
{
    push_number(out, u64::from(number));
    push_user(out, user);
    push_text(out, b" ");
}

/// Adds the number of the line that used a value.
fn push_user(out: &mut TextBuffer, user: Option<u32>)
    requires { array_vec_len out.old + MAX_USER_BYTES ≤ 256 }
    ensures text { out.new.items ≡ out.old.items ++ using_line_suffix user }
    ensures len { array_vec_len out.new ≤ array_vec_len out.old + MAX_USER_BYTES }
{
    if let Some(user) = user {
        push_text(out, b">");
        push_number(out, u64::from(user));
    }
}

/// Adds how many values a run has, if more than one.
pub(crate) fn push_run_count(out: &mut TextBuffer, count: u32)
    requires { array_vec_len out.old + MAX_RUN_COUNT_BYTES ≤ 256 }
    ensures { out.new.items ≡ out.old.items ++ value_run_count_text count }
{
    if count > 1 {
        push_text(out, b" x");
        push_number(out, u64::from(count));
    }
}
