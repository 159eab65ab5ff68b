//! The image part of a session.
ghost use Rattle.std.specs.Prelude.{◌≡◌, ◌<◌, ◌++◌, [], length, Some, Ok, IfOk, OnErr, IsTrue, ◌↔◌};
ghost use Rattle.ga_text.specs.Lines.{Bytes, line_with_line_feed};
ghost use Rattle.ga_text.specs.Input.{IsWithinInputLimit, input_block_size};
ghost use Rattle.ga_text.specs.Image.{ReadsImage, image_end_line};

use super::input::{InputBuffer, ReadStatus};
use std::alloc::AllocError;
use std::io::Read;

/// Where the reading of an image stopped.
#[derive(Clone, Copy, PartialEq, Eq)]
pub enum ImageReadEnd {
    /// After the image's line `end`.
    EndLine,
    /// The input ended.
    EndOfInput,
    /// The input exceeds its limit.
    PastLimit,
    /// A read failed.
    Failed,
}

/// Reads an image up to its first line `end`. If an allocation fails, the reading cannot be continued.
pub fn read_image<R: Read>(
    input: &mut InputBuffer,
    reader: &mut R,
    text: &mut Vec<u8>,
) -> Result<ImageReadEnd, AllocError>
    requires within { IsWithinInputLimit input.old }
    requires empty { text.old.items ≡ [] }
    ensures reads { IfOk result (λ stop. (left : Bytes) → R.remaining reader.old ≡ Some left →
        (rest : Bytes) × (R.remaining reader.new ≡ Some rest)
        × ReadsImage input.old left text.new.items input.new rest stop) }
    ensures err { OnErr result ((left : Bytes) → R.remaining reader.old ≡ Some left →
        (read : Bytes) × (rest : Bytes) × (R.remaining reader.new ≡ Some rest)
        × (input.old.bytes ++ left ≡ read ++ rest)) }
    ensures behind { result ≡ Ok ImageReadEnd.EndLine → length input.new.bytes < input_block_size }
    ensures within { IsWithinInputLimit input.new }
{
    let mut start = 0;
    'parts: loop {
        if input.take_text(text)? {
            if is_end_line(&text[start..]) {
                return Ok(ImageReadEnd::EndLine);
            }
            start = text.len();
        } else {
            match input.fill(reader) {
                ReadStatus::HasBytes => {}
                ReadStatus::End => return Ok(ImageReadEnd::EndOfInput),
                ReadStatus::PastLimit => return Ok(ImageReadEnd::PastLimit),
                ReadStatus::Failed => return Ok(ImageReadEnd::Failed),
            }
        }
    }
}

fn is_end_line(line: &[u8]) -> bool
    ensures { IsTrue result ↔ (line.now ≡ line_with_line_feed image_end_line) }
{
    line == b"end\n".as_slice()
}
