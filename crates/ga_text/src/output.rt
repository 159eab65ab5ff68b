//! The output to a stream, buffered before it is written.
ghost use Rattle.std.specs.Prelude.{◌≡◌, ◌++◌, ◌+◌, ◌≤◌, length, ℕ, List, [], OnOk};
ghost use Rattle.ga_text.specs.Lines.{Bytes};
ghost use Rattle.ga_text.specs.Output.{IsTextWrittenOrPending, IsTextWrittenOrTruncated, WritesExactly, WritesNothing, ready_line_text};

use arrayvec::ArrayVec;
use std::io::Write;
use thiserror::Error;

/// A write failed, or took none of the bytes that it was offered.
#[derive(Clone, Copy, PartialEq, Eq, Debug, Error)]
#[error("a write failed")]
pub struct WriteError;

/// The result of writing to the output.
pub type WriteResult = Result<(), WriteError>;

/// The bytes of a long text that are buffered at once.
const BLOCK: usize = 4096;

/// How many bytes are dropped at once.
const CLEARED: usize = 1024;

/// The number of bytes of the buffer.
pub const OUTPUT_CAPACITY: usize = 65536;

/// A stream, with the output to it that is not written yet.
#[derive(Drop)]
pub struct Writer<'w, W: Write> {
    /// The output that is not written yet.
    pub pending: ArrayVec<u8, OUTPUT_CAPACITY>,
    /// The stream to which the output is written.
    pub stream: &'w mut W,
}

impl<'w, W: Write> Writer<'w, W> {
    /// A writer without output.
    pub fn new(stream: &'w mut W) -> Self
        ensures same { result.stream.ghost_name ≡ stream.entry.ghost_name }
        ensures stream { result.stream.now ≡ stream.old }
        ensures nothing { result.pending.items ≡ [] }
    {
        Writer {
            pending: ArrayVec::new(),
            stream,
        }
    }

    /// A writer with `ready` as its output.
    pub fn writer_with_ready_line(stream: &'w mut W) -> Self
        ensures same { result.stream.ghost_name ≡ stream.entry.ghost_name }
        ensures stream { result.stream.now ≡ stream.old }
        ensures said { result.pending.items ≡ ready_line_text }
    {
        let mut pending = ArrayVec::new();
        let _fits = pending.try_extend_from_slice(b"ready\n");
        Writer { pending, stream }
    }

    /// Adds a text to the output. What is pending is written first, if there is no room for both.
    ///
    /// # Errors
    /// A write failed.
    pub fn write_text(&mut self, text: &[u8]) -> WriteResult
        requires { length text.now ≤ OUTPUT_CAPACITY }
        ensures { WritesExactly result text.now W.contents self.old self.new }
    {
        self.make_room(text.len())?;
        let _fits = self.pending.try_extend_from_slice(text);
        Ok(())
    }

    /// Adds a text of any length to the output, block by block.
    ///
    /// # Errors
    /// A write failed.
    pub fn write_blocks(&mut self, text: &[u8]) -> WriteResult
        ensures { WritesExactly result text.now W.contents self.old self.new }
    {
        let mut rest = text;
        'pieces: while !rest.is_empty() {
            let (block, after) = rest.split_at(rest.len().min(BLOCK));
            self.write_text(block)?;
            rest = after;
        }
        Ok(())
    }

    /// Writes what is pending, if there is no room for `count` bytes more.
    ///
    /// # Errors
    /// A write failed.
    #[inline(always)]
    pub fn make_room(&mut self, count: usize) -> WriteResult
        requires { count ≤ OUTPUT_CAPACITY }
        ensures said { WritesNothing result W.contents self.old self.new }
        ensures room { OnOk result (length self.new.pending.items + count ≤ OUTPUT_CAPACITY) }
    {
        if self.pending.remaining_capacity() >= count {
            return Ok(());
        }
        self.flush()
    }

    /// Writes all that is pending, and hands it on.
    ///
    /// # Errors
    /// A write failed.
    pub fn flush(&mut self) -> WriteResult
        ensures said { WritesNothing result W.contents self.old self.new }
        ensures sent { OnOk result (self.new.pending.items ≡ []) }
    {
        if self.pending.is_empty() {
            return Ok(());
        }
        write_all(self.stream, self.pending.as_slice())?;
        forget(&mut self.pending);
        Ok(())
    }
}

/// Drops what is pending, in blocks that the C library fills by wide stores.
fn forget(pending: &mut ArrayVec<u8, OUTPUT_CAPACITY>)
    ensures { pending.new.items ≡ [] }
{
    'blocks: while !pending.is_empty() {
        let left = pending.len().saturating_sub(CLEARED);
        pending.truncate(left);
    }
}

/// Writes the whole text and hands it on. A write that takes nothing has failed, and after a failed one nothing is written.
///
/// # Errors
/// A write failed.
pub fn write_all<W: Write>(writer: &mut W, text: &[u8]) -> WriteResult
    ensures { (before said : Bytes) → IsTextWrittenOrPending (W.contents writer.old) before said text.now →
        IsTextWrittenOrTruncated result (W.contents writer.new) before said [] }
{
    let mut rest = text;
    'bytes: while !rest.is_empty() {
        match writer.write(rest) {
            Ok(0) => return Err(WriteError),
            Ok(count) => rest = rest.split_at(count).1,
            Err(_) => return Err(WriteError),
        }
    }
    match writer.flush() {
        Ok(()) => Ok(()),
        Err(_) => Err(WriteError),
    }
}
