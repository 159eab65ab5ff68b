//! A whole session whose answers are dropped.
ghost use Rattle.ga_text.specs.Output.{WritesText, ReadsAndWrites, ReadsAheadAndWrites};
ghost use Rattle.std.specs.Prelude.{◌-◌};
ghost use Rattle.ga_text.specs.Input.{IsWithinInputLimit, input_limit};
ghost use Rattle.ga_explorer.specs.Opening.{optional_image_text};
ghost use Rattle.ga_picture.specs.Following.{IsSilentSessionResult, WritesPictureRefusal};
ghost use Rattle.ga_picture.specs.inner.{ExecutesCommandsSilently, YieldsStateOrMemoryRefusal};

use super::silent::SilentSession;
use ga_console::{Status, serve_commands, status_of_commands_end};
use ga_display::refusal_text;
use ga_explorer::{Explorer, open_lab};
use ga_lab::LabFault;
use ga_text::{InputBuffer, Writer, write_all};
use std::alloc::Global;
use std::io::{Read, Write};

/// Reads an image or source and then commands, as a session of exploring does, and executes them without an answer, up to
/// `quit` or the end of the input. Returns the state after them. If that isn't reached, it writes why, and returns the status:
/// a refused image gets its refusal, and so does a command that ran out of memory; a fault in source is written to `errors`; if
/// a read fails, or the commands exceed the input's bound, nothing can be drawn.
///
/// # Errors
/// The status of a session that ends so.
pub fn run_silent_session<R: Read, W: Write, E: Write>(
    alloc: Global,
    reader: &mut R,
    writer: &mut W,
    errors: &mut E,
    chip: Option<Vec<u8>>,
    limit: u32,
) -> Result<Explorer, Status>
    ensures { ReadsAndWrites (λ read rest text. IsSilentSessionResult (optional_image_text chip) limit read rest text result)
        (R.remaining reader.old) (R.remaining reader.new) (W.contents writer.old) (W.contents writer.new) }
{
    let mut input = InputBuffer::new();
    match open_lab(alloc, &mut input, reader, writer, errors, chip, limit) {
        Ok(begun) => follow(alloc, &mut input, reader, writer, begun),
        Err(status) => Err(status),
    }
}

/// Follows commands.
fn follow<R: Read, W: Write>(
    alloc: Global,
    input: &mut InputBuffer,
    reader: &mut R,
    writer: &mut W,
    explorer: Explorer,
) -> Result<Explorer, Status>
    requires { IsWithinInputLimit input.old }
    ensures { ReadsAheadAndWrites input.old.bytes (λ read rest text. ExecutesCommandsSilently (input_limit - input.old.taken) explorer read rest text result)
        (R.remaining reader.old) (R.remaining reader.new) (W.contents writer.old) (W.contents writer.new) }
{
    let mut session = SilentSession {
        explorer,
        short: false,
    };
    let mut said = Writer::new(writer);
    let ending = serve_commands(alloc, input, reader, &mut said, &mut session);
    match status_of_commands_end(ending) {
        Status::Done => reached(writer, session),
        _ => Err(Status::StreamFault),
    }
}

/// What was reached, or the refusal for want of memory.
fn reached<W: Write>(writer: &mut W, session: SilentSession) -> Result<Explorer, Status>
    ensures { WritesText (λ text. YieldsStateOrMemoryRefusal session.explorer session.short text result) (W.contents writer.old) (W.contents writer.new) }
{
    if session.short {
        return Err(write_refusal(writer, LabFault::Memory));
    }
    Ok(session.explorer)
}

/// Writes a refusal.
pub(crate) fn write_refusal<W: Write>(writer: &mut W, fault: LabFault) -> Status
    ensures { WritesText (λ text. WritesPictureRefusal fault text result) (W.contents writer.old) (W.contents writer.new) }
{
    match write_all(writer, refusal_text(fault)) {
        Ok(()) => Status::ImageRefused,
        Err(_) => Status::StreamFault,
    }
}
