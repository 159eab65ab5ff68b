//! An input that is read whole before anything is made of it: source, or an image without commands.
ghost use Rattle.std.specs.Prelude.{◌≡◌, ◌++◌, Some};
ghost use Rattle.ga_text.specs.Lines.{Bytes};
ghost use Rattle.ga_text.specs.Output.{ReadsWholeInput};

use super::image::{ImageReadEnd, read_image};
use super::input::InputBuffer;
use std::alloc::Global;
use std::io::Read;

/// The result of reading a whole input.
#[derive(Drop)]
pub enum WholeInputResult {
    /// The text up to its first line `end`, or to the end of the input.
    Whole(Vec<u8>),
    /// The input exceeds its limit. The text is what is within it.
    TooLong(Vec<u8>),
    /// A read failed.
    ReadFailed,
    /// Out of memory.
    NoMemory,
}

/// Reads an input up to its first line `end`, or to its end.
pub fn read_whole_input<R: Read>(alloc: Global, reader: &mut R) -> WholeInputResult
    // For a reader whose bytes contracts see: the bytes read of them, and the result for these.
    ensures { (left : Bytes) → R.remaining reader.old ≡ Some left →
        (read rest : Bytes) × (left ≡ read ++ rest) × (R.remaining reader.new ≡ Some rest) × ReadsWholeInput read rest result }
{
    let mut input = InputBuffer::new();
    let mut text = Vec::new(alloc);
    match read_image(&mut input, reader, &mut text) {
        Err(_) => WholeInputResult::NoMemory,
        Ok(ImageReadEnd::Failed) => WholeInputResult::ReadFailed,
        Ok(ImageReadEnd::PastLimit) => WholeInputResult::TooLong(text),
        Ok(ImageReadEnd::EndOfInput) => WholeInputResult::Whole(text),
        Ok(ImageReadEnd::EndLine) => WholeInputResult::Whole(text),
    }
}
