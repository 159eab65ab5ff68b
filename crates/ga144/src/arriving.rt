//! Standard input as it comes: a thread reads it, block by block, so that a session can ask whether more has come. Blocks are handed over by
//! value, and take no memory.

use crossbeam_channel::{Receiver, Sender, bounded};
use ga_dap::PendingInput;
use std::alloc::{AllocError, Global};
use std::io::{Read, Stdin};
use std::sync::Wait;
use std::thread::Threads;
use std::{io, thread};

/// How many bytes a block has at most.
const BLOCK: usize = 4096;

/// How many blocks wait at most.
const WAITING: usize = 16;

/// What one read gave.
#[derive(Clone, Copy)]
enum Part {
    /// `count` bytes; none at the end.
    Bytes { count: usize, bytes: [u8; BLOCK] },
    /// The read failed.
    Failed,
}

/// What comes of an input.
#[derive(Drop)]
pub struct BackgroundReader<R> {
    rt: R,
    parts: Receiver<Part, Global>,
    /// The bytes of the last part, and how many of them were taken.
    bytes: [u8; BLOCK],
    count: usize,
    taken: usize,
}

/// Whether more of it has come.
#[derive(Drop)]
pub struct InputProbe {
    parts: Receiver<Part, Global>,
}

/// Begins to read an input.
///
/// # Errors
/// Memory or a thread was refused.
pub fn spawn_reader<R: Threads + Wait + Copy + Send + 'static>(
    rt: R,
    alloc: Global,
    input: Stdin,
) -> Result<(BackgroundReader<R>, InputProbe), AllocError> {
    let (to, from) = bounded(alloc, WAITING)?;
    let parts = from.clone()?;
    match thread::spawn(&rt, move || hand_over(&rt, input, to)) {
        Ok(_) => {}
        Err(_) => return Err(AllocError),
    }
    let arriving = BackgroundReader {
        rt,
        parts: from,
        bytes: [0; BLOCK],
        count: 0,
        taken: 0,
    };
    Ok((arriving, InputProbe { parts }))
}

/// Reads an input to its end, and hands over what comes.
fn hand_over<R: Wait>(rt: &R, input: Stdin, to: Sender<Part, Global>) {
    let mut input = input;
    for _ in 0..u64::MAX {
        let (part, is_last) = next_part(&mut input);
        if to.send(rt, part).is_err() || is_last {
            return;
        }
    }
}

/// The result of the next read, and whether none follows it.
fn next_part<R: Read>(input: &mut R) -> (Part, bool) {
    let mut bytes = [0; BLOCK];
    match input.read(&mut bytes) {
        Ok(count) => (Part::Bytes { count, bytes }, count == 0),
        Err(_) => (Part::Failed, true),
    }
}

impl<R: Wait> Read for BackgroundReader<R> {
    fn read(&mut self, buf: &mut [u8]) -> io::Result<usize> {
        if self.taken >= self.count {
            match self.parts.recv(&self.rt) {
                Ok(Part::Bytes { count, bytes }) => {
                    self.bytes = bytes;
                    self.count = count;
                    self.taken = 0;
                }
                Ok(Part::Failed) => return Err(io::ErrorKind::Other.into()),
                Err(_) => return Ok(0),
            }
        }
        let end = self.count.min(BLOCK);
        let start = self.taken.min(end);
        let left = &self.bytes[start..end];
        let count = left.len().min(buf.len());
        buf[..count].copy_from_slice(&left[..count]);
        self.taken = start + count;
        Ok(count)
    }
}

impl PendingInput for InputProbe {
    // When input comes can't be specified here.
    ghost tells = { λ host told after. Unit {0} };

    fn have_requests_come(&mut self) -> bool {
        !self.parts.is_empty()
    }
}
