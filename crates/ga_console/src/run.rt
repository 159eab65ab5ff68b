//! A whole session.
ghost use Rattle.ga_text.specs.Output.{WritesText, ReadsAndWrites, ReadsAheadAndWrites};
ghost use Rattle.std.specs.Prelude.{◌≡◌, IfOk, IfErr};
ghost use Rattle.ga_text.specs.Input.{IsWithinInputLimit};
ghost use Rattle.ga_console.specs.Run.{WritesSession, WritesSessionOfResponder, WritesImageRefusal, IsOpenedOnImage, IsFaultOfImage, status_of_commands_end as status_that};
ghost use Rattle.ga_console.specs.inner.Run.{WritesSessionAfterImage};

use super::commands::{CommandsEnd, serve_commands};
use super::responder::Responder;
use ga_display::write_image_fault;
use ga_image::{ImageFault, ImageFaultCause, parse};
use ga_lab::Lab;
use ga_text::{ImageReadEnd, InputBuffer, TextBuffer, WriteError, Writer, read_image, write_all};
use std::alloc::Global;
use std::io::{Read, Write};

/// The fault of an image for which memory was wanting.
const NO_MEMORY: ImageFault = ImageFault {
    line: 0,
    cause: ImageFaultCause::Memory,
};

/// How a session or a race ended, and the exit status of the program.
#[derive(Clone, Copy, Debug, PartialEq, Eq)]
pub enum Status {
    /// A session was answered to the end of the input or to `quit`, or a race was reported (0).
    Done,
    /// The image was refused, or memory was wanting before a session's `ready` (1).
    ImageRefused,
    /// A read or a write failed, or a session's commands went past the input's bound (2).
    StreamFault,
    /// A race was not finished: memory was wanting, a thread was refused, or the log disagreed (4). No session ends so.
    NotFinished,
    /// A command was refused, and the session ends at the first refused one (7).
    CommandRefused,
}

/// Reads an image and then commands, and answers them. The history has at most `limit` events.
///
/// The image extends to its first line `end`. A refused one gets its refusal, which ends the session; otherwise `ready` is
/// written and one answer for each command line, up to `quit` or the end of the input. Answers are buffered, and written before
/// the session waits for more input. A line has up to 200 bytes, an input up to 16777216. If a read fails, the lines read whole
/// before it are answered; after a failed write nothing more is written.
pub fn session<R: Read, W: Write>(
    alloc: Global,
    reader: &mut R,
    writer: &mut W,
    limit: u32,
) -> Status
    // Where the streams show their bytes: what was read, and what was written for it by the status.
    ensures { ReadsAndWrites (λ read rest text. WritesSession limit read rest text result)
        (R.remaining reader.old) (R.remaining reader.new) (W.contents writer.old) (W.contents writer.new) }
{
    session_with_responder::<Lab, R, W>(alloc, reader, writer, limit)
}

/// A session as `session` is, whose lines are answered by a responder that begins on the image's chip.
pub fn session_with_responder<S: Responder, R: Read, W: Write>(
    alloc: Global,
    reader: &mut R,
    writer: &mut W,
    limit: u32,
) -> Status
    ensures { ReadsAndWrites (λ read rest text. WritesSessionOfResponder S.answers S.refuses S.begin limit read rest text result)
        (R.remaining reader.old) (R.remaining reader.new) (W.contents writer.old) (W.contents writer.new) }
{
    let mut input = InputBuffer::new();
    let mut image = Vec::new(alloc);
    match read_image(&mut input, reader, &mut image) {
        Err(_) => write_image_refusal(writer, NO_MEMORY),
        Ok(ImageReadEnd::Failed) => Status::StreamFault,
        // No image that is accepted is so long.
        Ok(ImageReadEnd::PastLimit) => after_image::<S, R, W>(
            alloc, &mut input, reader, writer, image, limit,
        ),
        Ok(ImageReadEnd::EndOfInput) => after_image::<S, R, W>(
            alloc, &mut input, reader, writer, image, limit,
        ),
        Ok(ImageReadEnd::EndLine) => after_image::<S, R, W>(
            alloc, &mut input, reader, writer, image, limit,
        ),
    }
}

/// Serves the commands after an accepted image, or refuses it.
fn after_image<S: Responder, R: Read, W: Write>(
    alloc: Global,
    input: &mut InputBuffer,
    reader: &mut R,
    writer: &mut W,
    image: Vec<u8>,
    limit: u32,
) -> Status
    requires { IsWithinInputLimit input.old }
    ensures { ReadsAheadAndWrites input.old.bytes (λ read rest text. WritesSessionAfterImage S.answers S.refuses S.begin limit image.items input.old.taken input.old.bytes read rest text result)
        (R.remaining reader.old) (R.remaining reader.new) (W.contents writer.old) (W.contents writer.new) }
{
    match open_lab_from_image(alloc, image, limit) {
        Ok(lab) => {
            let mut session = S::open(lab);
            let mut said = Writer::writer_with_ready_line(writer);
            status_of_commands_end(serve_commands(alloc, input, reader, &mut said, &mut session))
        }
        Err(fault) => write_image_refusal(writer, fault),
    }
}

/// A lab that has the image's chip as its load.
///
/// # Errors
/// The image's first fault, or want of memory.
pub fn open_lab_from_image(alloc: Global, image: Vec<u8>, limit: u32) -> Result<Lab, ImageFault>
    ensures ok { IfOk result (λ lab. IsOpenedOnImage image.items limit lab) }
    ensures err { IfErr result (λ fault. IsFaultOfImage image.items fault) }
{
    let chip = parse(alloc, image.as_slice())?;
    match Lab::new(alloc, chip, limit) {
        Ok(lab) => Ok(lab),
        Err(_) => Err(NO_MEMORY),
    }
}

/// Writes the text of a refused image.
pub fn write_image_refusal<W: Write>(writer: &mut W, fault: ImageFault) -> Status
    ensures { WritesText (λ text. WritesImageRefusal fault text result) (W.contents writer.old) (W.contents writer.new) }
{
    let mut text = TextBuffer::new();
    write_image_fault(&mut text, fault);
    match write_all(writer, text.as_slice()) {
        Ok(()) => Status::ImageRefused,
        Err(WriteError) => Status::StreamFault,
    }
}

/// The status of a session whose commands were served so.
pub fn status_of_commands_end(ending: Result<CommandsEnd, WriteError>) -> Status
    ensures { result ≡ status_that ending }
{
    match ending {
        Ok(CommandsEnd::InputEnded) => Status::Done,
        Ok(CommandsEnd::Quit) => Status::Done,
        Ok(CommandsEnd::Refused(_)) => Status::CommandRefused,
        Ok(CommandsEnd::PastLimit(_)) => Status::StreamFault,
        Ok(CommandsEnd::ReadFailed) => Status::StreamFault,
        Err(WriteError) => Status::StreamFault,
    }
}
