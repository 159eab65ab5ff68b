//! A race of workers on the chip of an image.
ghost use Rattle.ga_text.specs.Output.{WritesText, ReadsAndWrites};
ghost use Rattle.std.specs.Prelude.{◌≡◌, ◌<◌, ◌≤◌, ◌*◌, ℕ, map, length, Some, IfOk, IfSome, All, vec_len, slice_get};
ghost use Rattle.ga_grid.specs.Chip.{records_of_chip};
ghost use Rattle.ga_console.specs.Race.{worker_calls, worker_race_report_text, IsRaceOfWorkers, WritesWorkerRaceReport};
ghost use Rattle.ga_console.specs.inner.Run.{WritesWorkerRaceAfterImage, WritesTextWithStatus};

use super::run::{Status, write_image_refusal};
use ga_grid::{Chip, NodeId};
use ga_image::{ImageFaultCause, parse};
use ga_shared::{Call, NoEffectCallHooks, UnsharedLab, race};
use ga_text::{
    TextBuffer, WholeInputResult, WriteError, push_number, push_text, read_whole_input, write_all,
};
use std::alloc::{AllocError, Global};
use std::io::{Read, Write};
use std::sync::Wait;
use std::thread::Threads;

/// Reads an image up to its first line `end`, lets each of 1 to 16 workers make `calls` steps of the node with its number, each
/// on a thread of its own, and writes how many calls and events were made and how many are kept, of at most `limit`.
pub fn write_worker_race_report<T: Threads + Wait + Sync, R: Read, W: Write>(
    rt: &T,
    alloc: Global,
    reader: &mut R,
    writer: &mut W,
    workers: u32,
    calls: u32,
    limit: u32,
) -> Status
    requires { (1 ≤ workers) × (workers ≤ 16) }
    // Where the streams show their bytes: what was read, and what was written for it by the status.
    ensures { ReadsAndWrites (λ read rest text. WritesWorkerRaceReport limit workers calls read rest text result)
        (R.remaining reader.old) (R.remaining reader.new) (W.contents writer.old) (W.contents writer.new) }
{
    match read_whole_input(alloc, reader) {
        WholeInputResult::Whole(image) => run_image(
            rt, alloc, writer, image, workers, calls, limit,
        ),
        // No image that is accepted is so long.
        WholeInputResult::TooLong(image) => run_image(
            rt, alloc, writer, image, workers, calls, limit,
        ),
        WholeInputResult::ReadFailed => Status::StreamFault,
        WholeInputResult::NoMemory => Status::NotFinished,
    }
}

/// Races on the chip of an image, or refuses the image. Want of memory is a race that is not finished.
fn run_image<T: Threads + Wait + Sync, W: Write>(
    rt: &T,
    alloc: Global,
    writer: &mut W,
    image: Vec<u8>,
    workers: u32,
    calls: u32,
    limit: u32,
) -> Status
    requires { (1 ≤ workers) × (workers ≤ 16) }
    ensures { WritesText (λ text. WritesWorkerRaceAfterImage limit workers calls image.items text result) (W.contents writer.old) (W.contents writer.new) }
{
    match parse(alloc, image.as_slice()) {
        Ok(chip) => match race_on(rt, alloc, chip, workers, calls, limit) {
            Some(closed) => report(writer, &closed),
            None => Status::NotFinished,
        },
        Err(fault) => {
            if fault.cause == ImageFaultCause::Memory {
                return Status::NotFinished;
            }
            write_image_refusal(writer, fault)
        }
    }
}

/// The race on a chip, if it is finished.
fn race_on<T: Threads + Wait + Sync>(
    rt: &T,
    alloc: Global,
    chip: Chip,
    workers: u32,
    calls: u32,
    limit: u32,
) -> Option<UnsharedLab>
    requires { (1 ≤ workers) × (workers ≤ 16) }
    ensures { IfSome result (λ closed. (length closed.log.items ≡ workers * calls)
        × IsRaceOfWorkers (records_of_chip chip) limit workers calls closed.lab) }
{
    let Ok(lists) = lists_of(alloc, workers, calls) else {
        return None;
    };
    match race(rt, alloc, chip, limit, lists, &NoEffectCallHooks) {
        Ok(closed) => Some(closed),
        Err(_) => None,
    }
}

/// A list of calls for each worker: a number of steps of the node with its number.
fn lists_of(alloc: Global, workers: u32, calls: u32) -> Result<Vec<Vec<Call>>, AllocError>
    requires { workers ≤ 16 }
    ensures count { IfOk result (λ lists. vec_len lists ≡ workers) }
    ensures lists { IfOk result (λ lists. (w : ℕ) → w < workers →
        slice_get (map (λ l. l.items) lists.items) w ≡ Some (worker_calls w calls)) }
    ensures short { IfOk result (λ lists. All (λ l. vec_len l ≡ calls) lists.items) }
{
    let mut lists = Vec::with_capacity(alloc, workers as usize)?;
    for worker in 0..workers {
        lists.push(list_of(alloc, worker, calls)?)?;
    }
    Ok(lists)
}

/// A list of calls: a number of steps of the node with this number.
fn list_of(alloc: Global, worker: u32, calls: u32) -> Result<Vec<Call>, AllocError>
    requires { worker < 16 }
    ensures list { IfOk result (λ list. list.items ≡ worker_calls worker calls) }
    ensures count { IfOk result (λ list. vec_len list ≡ calls) }
{
    let node = NodeId::new(worker as u8);
    let mut list = Vec::with_capacity(alloc, calls as usize)?;
    for _call in 0..calls {
        list.push(Call::Step(node))?;
    }
    Ok(list)
}

/// Writes the three lines of a race.
fn report<W: Write>(writer: &mut W, closed: &UnsharedLab) -> Status
    ensures { WritesText (λ text. WritesTextWithStatus (worker_race_report_text (length closed.now.log.items) closed.now.lab.made (length closed.now.lab.kept)) text result)
        (W.contents writer.old) (W.contents writer.new) }
{
    let mut text = TextBuffer::new();
    put_report(&mut text, closed);
    match write_all(writer, text.as_slice()) {
        Ok(()) => Status::Done,
        Err(WriteError) => Status::StreamFault,
    }
}

/// Puts the three lines of a race.
fn put_report(out: &mut TextBuffer, closed: &UnsharedLab)
    ensures { out.new.items
        ≡ worker_race_report_text (length closed.now.log.items) closed.now.lab.made (length closed.now.lab.kept) }
{
    let counts = closed.lab.counts();
    out.clear();
    push_text(out, b"calls ");
    push_number(out, closed.log.as_slice().len() as u64);
    push_text(out, b"\nmade ");
    push_number(out, counts.made);
    push_text(out, b"\nkept ");
    push_number(out, u64::from(counts.kept));
    push_text(out, b"\n");
}
