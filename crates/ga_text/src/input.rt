//! The input, block by block, up to its limit.
ghost use Rattle.std.specs.Prelude.{◌≡◌, ◌+◌, ◌≤◌, ◌<◌, ◌++◌, ◌∷◌, true, [], length, take, drop, slice_index, Some, IfSome, IfNone, IfOk, OnErr};
ghost use Rattle.ga_text.specs.Lines.{Bytes, HasNoLineFeed};
ghost use Rattle.ga_text.specs.Input.{UnreadInput, IsWithinInputLimit, input_block_size};
ghost use Rattle.ga_text.specs.inner.{ReadsMoreInput, HasReadBytes, TakesLinePart, line_with_optional_feed};

use super::lines::{LineBuffer, append_bounded_bytes};
use std::alloc::AllocError;
use std::io::Read;
use std::marker::Model;

/// How many bytes are read at once, at most.
const BLOCK: usize = 65536;

/// The most bytes that an input has.
const INPUT_LIMIT: u32 = 16_777_216;

/// What was read and is not taken yet.
#[derive(Drop)]
pub struct InputBuffer {
    block: [u8; BLOCK],
    start: usize,
    end: usize,
    taken: u32,
}

/// The result of a read of more.
#[derive(Clone, Copy, PartialEq, Eq)]
pub enum ReadStatus {
    /// There are bytes to take.
    HasBytes,
    /// The input ended.
    End,
    /// The input exceeds its limit.
    PastLimit,
    /// The read failed.
    Failed,
}

impl Model for InputBuffer {
    ghost use Rattle.std.specs.Prelude.{◌+◌, ◌-◌, ◌≤◌, slice_range};
    ghost use Rattle.ga_text.specs.Input.{UnreadInput, input_limit};

    ghost Value = { UnreadInput };

    ghost view = { λ u. record { bytes = slice_range u.block u.start u.end; taken = u.taken } };

    ghost invariant = { λ u. (u.start ≤ u.end) × (u.end ≤ 65536) × (u.taken + (u.end - u.start) ≤ input_limit) };
}

impl InputBuffer {
    /// An input of which nothing was read.
    pub fn new() -> Self
        ensures { result ≡ record { bytes = []; taken = 0 } }
    {
        InputBuffer {
            block: [0; BLOCK],
            start: 0,
            end: 0,
            taken: 0,
        }
    }

    /// Reads more, by one read, if all that was read is taken. At the limit it checks only whether the input ends there.
    pub(crate) fn fill<R: Read>(&mut self, reader: &mut R) -> ReadStatus
        requires { self.old.bytes ≡ [] }
        ensures fills { (input : Bytes) → R.remaining reader.old ≡ Some input →
            (rest : Bytes) × (R.remaining reader.new ≡ Some rest)
            × ReadsMoreInput self.old.taken input self.new.bytes rest result }
        ensures filled { HasReadBytes self.new.bytes result }
        ensures taken { self.new.taken ≡ self.old.taken }
        ensures within { IsWithinInputLimit self.new }
    {
        self.start = 0;
        self.end = 0;
        if self.taken == INPUT_LIMIT {
            let mut one = [0u8; 1];
            return match reader.read(&mut one) {
                Ok(0) => ReadStatus::End,
                Ok(_) => ReadStatus::PastLimit,
                Err(_) => ReadStatus::Failed,
            };
        }
        let room = (INPUT_LIMIT - self.taken) as usize;
        let most = if room < BLOCK { room } else { BLOCK };
        match reader.read(&mut self.block[..most]) {
            Ok(0) => ReadStatus::End,
            Ok(count) => {
                self.end = count;
                ReadStatus::HasBytes
            }
            Err(_) => ReadStatus::Failed,
        }
    }

    /// What was read and is not taken yet.
    #[inline(always)]
    pub fn unread_bytes(&self) -> &[u8]
        ensures { result.now ≡ self.now.bytes }
    {
        &self.block[self.start..self.end]
    }

    /// Takes `count` bytes and the line feed after them.
    #[inline(always)]
    pub fn skip(&mut self, count: usize)
        requires within { count + 1 ≤ length self.old.bytes }
        requires short { count ≤ 200 }
        ensures bytes { self.new.bytes ≡ drop (count + 1) self.old.bytes }
        ensures taken { self.new.taken ≡ self.old.taken + count + 1 }
        ensures within { IsWithinInputLimit self.new }
    {
        self.start += count + 1;
        self.taken += count as u32 + 1;
    }

    /// Takes what was read, up to a line feed, and keeps at most 201 bytes of the line. Returns whether a line feed was taken.
    pub(crate) fn read_buffered_line(&mut self, line: &mut LineBuffer) -> bool
        ensures takes { (part : Bytes) × TakesLinePart self.old part self.new result
            × (line.new.items ≡ take 201 (line.old.items ++ part)) }
        ensures within { IsWithinInputLimit self.new }
    {
        let ahead = &self.block[self.start..self.end];
        match find_line_feed(ahead) {
            Some(count) => {
                append_bounded_bytes(line, &ahead[..count]);
                self.start += count + 1;
                self.taken += count as u32 + 1;
                true
            }
            None => {
                append_bounded_bytes(line, ahead);
                self.taken += ahead.len() as u32;
                self.start = self.end;
                false
            }
        }
    }

    /// Takes what was read, up to a line feed and with it, and adds it to a text. True where a line feed was taken.
    pub(crate) fn take_text(&mut self, text: &mut Vec<u8>) -> Result<bool, AllocError>
        ensures takes { IfOk result (λ fed. (part : Bytes) × TakesLinePart self.old part self.new fed
            × (text.new.items ≡ text.old.items ++ line_with_optional_feed part fed)) }
        ensures behind { IfOk result (λ fed. fed ≡ true → length self.new.bytes < input_block_size) }
        ensures err { OnErr result ((self.new ≡ self.old) × (text.new.items ≡ text.old.items)) }
        ensures within { IsWithinInputLimit self.new }
    {
        let ahead = &self.block[self.start..self.end];
        match find_line_feed(ahead) {
            Some(count) => {
                text.extend_from_slice(&ahead[..count + 1])?;
                self.start += count + 1;
                self.taken += count as u32 + 1;
                Ok(true)
            }
            None => {
                text.extend_from_slice(ahead)?;
                self.taken += ahead.len() as u32;
                self.start = self.end;
                Ok(false)
            }
        }
    }
}

/// The position of the first line feed.
#[tactic(auto, using(crate::proofs::Taking::no_feed))]
pub fn find_line_feed(bytes: &[u8]) -> Option<usize>
    ensures found { IfSome result (λ count. (count < length bytes.now)
        × HasNoLineFeed (take count bytes.now) × (slice_index bytes.now count ≡ 10)) }
    ensures none { IfNone result (HasNoLineFeed bytes.now) }
{
    for count in 0..bytes.len() {
        let byte = bytes[count];
        if byte == b'\n' {
            return Some(count);
        }
    }
    None
}
