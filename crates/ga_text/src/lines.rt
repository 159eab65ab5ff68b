//! Lines of a text, and of the input.
ghost use Rattle.std.specs.Prelude.{◌≡◌, ◌+◌, ◌≤◌, ◌<◌, ◌∷◌, ◌++◌, Some, length, take, Ok};
ghost use Rattle.ga_text.specs.Lines.{Bytes, lines_of_text};
ghost use Rattle.ga_text.specs.Input.{IsWithinInputLimit, ReadsLine};
ghost use Rattle.ga_text.specs.Output.{WritesNothing};

use super::input::{InputBuffer, ReadStatus};
use super::output::{WriteError, Writer};
use arrayvec::ArrayVec;
use std::io::{Read, Write};

/// A line, or the first 201 bytes of one that is too long.
pub type LineBuffer = ArrayVec<u8, 201>;

/// How a line ended.
#[derive(Clone, Copy, PartialEq, Eq)]
pub enum LineEnd {
    /// The line ended by a line feed.
    EndedByFeed,
    /// The input ended. The line may be empty: then there is none.
    Last,
    /// The line exceeds the limit of the input.
    PastLimit,
    /// A read failed within the line.
    ReadFailed,
}

/// Reads the next line, without its line feed. What is pending is written before each read of more.
///
/// # Errors
/// A write of pending output failed.
pub fn read_line<R: Read, W: Write>(
    input: &mut InputBuffer,
    reader: &mut R,
    writer: &mut Writer<'_, W>,
    line: &mut LineBuffer,
) -> Result<LineEnd, WriteError>
    requires { IsWithinInputLimit input.old }
    ensures reads { (left : Bytes) → R.remaining reader.old ≡ Some left →
        (rest : Bytes) × (R.remaining reader.new ≡ Some rest)
        × ReadsLine input.old left line.new.items input.new rest result }
    ensures said { WritesNothing result W.contents writer.old writer.new }
    ensures within { IsWithinInputLimit input.new }
    ensures goes_on { result ≡ Ok LineEnd.EndedByFeed → input.old.taken < input.new.taken }
{
    line.clear();
    'parts: loop {
        if input.read_buffered_line(line) {
            return Ok(LineEnd::EndedByFeed);
        }
        writer.flush()?;
        match input.fill(reader) {
            ReadStatus::HasBytes => {}
            ReadStatus::End => return Ok(LineEnd::Last),
            ReadStatus::PastLimit => return Ok(LineEnd::PastLimit),
            ReadStatus::Failed => return Ok(LineEnd::ReadFailed),
        }
    }
}

/// Adds bytes to a line, as far as there is room.
pub fn append_bounded_bytes(line: &mut LineBuffer, bytes: &[u8])
    ensures { line.new.items ≡ take 201 (line.old.items ++ bytes.now) }
{
    let count = line.remaining_capacity().min(bytes.len());
    let _fits = line.try_extend_from_slice(&bytes[..count]);
}

/// The first line, without its line feed, and the text after it.
#[tactic(auto, using(crate::proofs::Numbers::at_feed, crate::proofs::Numbers::no_feed))]
pub fn first_line(text: &[u8]) -> (&[u8], &[u8])
    requires { 0 < length text.now }
    ensures splits { lines_of_text text.now ≡ result.0.now ∷ lines_of_text result.1.now }
    ensures shorter { length result.1.now < length text.now }
{
    for (i, byte) in text.iter().enumerate() {
        if *byte == b'\n' {
            return (text.split_at(i).0, text.split_at(i + 1).1);
        }
    }
    (text, &[])
}
