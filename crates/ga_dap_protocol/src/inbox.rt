//! The input: what was read and is not taken yet.

use crate::broken::FrameError;
use crate::framing::{FramePrefix, parse_frame_prefix};
use std::alloc::{AllocError, Global};
use std::io::Read;
use std::marker::Model;

/// How many bytes are read at once, at most.
const BLOCK: usize = 65536;

/// What comes next of an input.
#[derive(Drop)]
pub enum NextMessage {
    /// The content part of a message.
    Message(Vec<u8>),
    /// The input ended between messages.
    End,
    /// No further message, and why.
    NoMessage(FrameError),
    /// A read failed.
    Failed,
}

/// The result of one read.
#[derive(Clone, Copy, PartialEq, Eq)]
enum Fill {
    More,
    End,
    Failed,
}

/// What was read and is not taken yet. A contract sees these bytes: less than a message and a block.
#[derive(Drop)]
pub struct Inbox {
    alloc: Global,
    bytes: Vec<u8>,
}

impl Model for Inbox {
    ghost use Rattle.std.specs.Prelude.{ℕ, List};

    ghost Value = { List ℕ };

    ghost view = { λ i. i.bytes.items };
}

impl Inbox {
    ghost use Rattle.std.specs.Prelude.{◌≡◌, ◌≤◌, ◌+◌, ◌++◌, ℕ, List, [], length, take, drop, Some, Ok, IfOk, OnErr, IsTrue, is_ok, ◌↔◌, if◌then◌else◌};
    ghost use Rattle.ga_dap_protocol.specs.Framing.{IsMessagePrefix};
    ghost use Rattle.ga_dap_protocol.specs.Inbox.{IsNextMessage};

    /// An input of which nothing was read.
    pub fn new(alloc: Global) -> Self
        ensures { result ≡ [] }
    {
        Inbox {
            alloc,
            bytes: Vec::new(alloc),
        }
    }

    /// Whether `next` needs no read to return the next message, or that there is none. Takes no memory, and time by the header
    /// alone.
    pub fn has_next(&self) -> bool
        ensures { IsTrue result ↔ (IsMessagePrefix self.now → ⊥) }
    {
        match parse_frame_prefix(self.bytes.as_slice()) {
            FramePrefix::Message { .. } => true,
            FramePrefix::PartialMessage => false,
            FramePrefix::NoMessage(_) => true,
        }
    }

    /// Reads more, by one read.
    fn fill<R: Read>(&mut self, reader: &mut R) -> Result<Fill, AllocError>
        ensures reads { (left : List ℕ) → R.remaining reader.old ≡ Some left →
            (rest : List ℕ) × (R.remaining reader.new ≡ Some rest) × (self.old ++ left ≡ self.new ++ rest) }
        ensures ended { (left : List ℕ) → R.remaining reader.old ≡ Some left → result ≡ Ok Fill.End → left ≡ [] }
        ensures same { result ≡ Ok Fill.End → self.new ≡ self.old }
    {
        self.bytes.reserve(BLOCK)?;
        let mut block = [0; BLOCK];
        match reader.read(&mut block) {
            Ok(0) => Ok(Fill::End),
            Ok(count) => {
                self.bytes.extend_from_slice(&block[..count])?;
                Ok(Fill::More)
            }
            Err(_) => Ok(Fill::Failed),
        }
    }

    /// Takes the first bytes, up to `end`, and gives them from `start` on.
    fn take(&mut self, start: usize, end: usize) -> Result<Vec<u8>, AllocError>
        requires within { end ≤ length self.old }
        requires order { start ≤ end }
        ensures content { IfOk result (λ content. content.items ≡ drop start (take end self.old)) }
        ensures rest { self.new ≡ (if is_ok result then drop end self.old else self.old) }
    {
        let (message, rest) = self.bytes.as_slice().split_at(end);
        let (_, inner) = message.split_at(start);
        let left = rest.len();
        let content = Vec::from_slice(self.alloc, inner)?;
        self.bytes.rotate_left(end);
        self.bytes.truncate(left);
        Ok(content)
    }

    /// What comes where the input ended.
    fn ended(&self) -> NextMessage
        requires { IsMessagePrefix self.now }
        ensures { IsNextMessage self.now result self.now }
    {
        if self.bytes.is_empty() {
            NextMessage::End
        } else {
            NextMessage::NoMessage(FrameError::CutShort)
        }
    }

    /// Takes the next message, and reads as long as it isn't whole. Takes memory for the content part and for what is read,
    /// some 3 MB at most. Also returns `Failed` if 2^64 reads brought no message.
    ///
    /// # Errors
    /// An allocation failed. Nothing is lost: a further call continues.
    pub fn next<R: Read>(&mut self, reader: &mut R) -> Result<NextMessage, AllocError>
        ensures next { (left : List ℕ) → R.remaining reader.old ≡ Some left → IfOk result (λ next.
            (rest : List ℕ) × (R.remaining reader.new ≡ Some rest) × IsNextMessage (self.old ++ left) next (self.new ++ rest)) }
        ensures refused { (left : List ℕ) → R.remaining reader.old ≡ Some left → OnErr result
            ((rest : List ℕ) × (R.remaining reader.new ≡ Some rest) × (self.old ++ left ≡ self.new ++ rest)) }
    {
        'reads: for _ in 0..u64::MAX {
            match parse_frame_prefix(self.bytes.as_slice()) {
                FramePrefix::Message { start, end } => {
                    let content = self.take(start, end)?;
                    return Ok(NextMessage::Message(content));
                }
                FramePrefix::NoMessage(why) => return Ok(NextMessage::NoMessage(why)),
                FramePrefix::PartialMessage => match self.fill(reader)? {
                    Fill::More => {}
                    Fill::Failed => return Ok(NextMessage::Failed),
                    Fill::End => return Ok(self.ended()),
                },
            }
        }
        Ok(NextMessage::Failed)
    }
}
