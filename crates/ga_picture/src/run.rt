//! A whole session that ends with a picture.
ghost use Rattle.ga_text.specs.Output.{WritesText, ReadsAndWrites};
ghost use Rattle.ga_explorer.specs.Opening.{optional_image_text};
ghost use Rattle.ga_picture.specs.Following.{WritesSessionPicture, WritesPictureOrRefusal, IsPictureOutput};

use super::follow::{run_silent_session, write_refusal};
use super::view::{PictureView, picture_svg_text};
use ga_console::Status;
use ga_lab::Lab;
use ga_text::write_all;
use std::alloc::Global;
use std::io::{Read, Write};

/// Reads an image or source and then commands, as a session of exploring does, and executes them without an answer. At the end
/// of the input, or at `quit`, it writes a picture of the history. A refused image gets its refusal, and so does a view of a
/// step that doesn't exist, and a picture or command that ran out of memory. A fault in source is written to `errors`. The
/// history has at most `limit` events.
pub fn draw_session<R: Read, W: Write, E: Write>(
    alloc: Global,
    reader: &mut R,
    writer: &mut W,
    errors: &mut E,
    view: PictureView,
    chip: Option<Vec<u8>>,
    limit: u32,
) -> Status
    // Where the streams show their bytes: what was read, and what was written for it by the status.
    ensures { ReadsAndWrites (λ read rest text. WritesSessionPicture (optional_image_text chip) limit view read rest text result)
        (R.remaining reader.old) (R.remaining reader.new) (W.contents writer.old) (W.contents writer.new) }
{
    match run_silent_session(alloc, reader, writer, errors, chip, limit) {
        Ok(explorer) => write_picture(writer, &mut explorer.into_lab(), view),
        Err(status) => status,
    }
}

/// Writes the picture of a lab's kept events, or why there is none.
fn write_picture<W: Write>(writer: &mut W, lab: &mut Lab, view: PictureView) -> Status
    ensures { WritesText (λ text. WritesPictureOrRefusal lab.old view text result) (W.contents writer.old) (W.contents writer.new) }
{
    match picture_svg_text(lab, view) {
        Ok(text) => write_out(writer, text.as_bytes()),
        Err(fault) => write_refusal(writer, fault),
    }
}

/// Writes a picture.
fn write_out<W: Write>(writer: &mut W, picture: &[u8]) -> Status
    ensures { WritesText (λ text. IsPictureOutput picture.now text result) (W.contents writer.old) (W.contents writer.new) }
{
    match write_all(writer, picture) {
        Ok(()) => Status::Done,
        Err(_) => Status::StreamFault,
    }
}
