//! The front of a session: an image or source is read, and opened.
ghost use Rattle.std.specs.Prelude.{◌≡◌, ◌++◌, [], Some};
ghost use Rattle.ga_text.specs.Lines.{Bytes};
ghost use Rattle.ga_text.specs.Input.{IsWithinInputLimit};
ghost use Rattle.ga_explorer.specs.Opening.{IsSessionOpenResult, optional_image_text};
ghost use Rattle.ga_explorer.specs.inner.{IsExplorerOpenResult};

use crate::explorer::Explorer;
use crate::opening::{NO_MEMORY, OpenError, is_read_as_image, open_text};
use ga_console::{Status, write_image_refusal};
use ga_debug_info::report_input_too_long;
use ga_text::{ImageReadEnd, InputBuffer, read_image};
use std::alloc::Global;
use std::io::{Read, Write};

/// Reads an image or source up to its first line `end`, and opens a lab that has its chip as its load, to be explored. A text whose first line
/// begins with `ga144` is an image, and any other is source. Where an image is given for the `chip`, the load is that one's, and the text is
/// its source. A refused image gets its refusal on `writer`; source gets a line on `errors`, as `ga144 asm` writes it.
///
/// # Errors
/// The status of a session that ends so.
pub fn open_lab<R: Read, W: Write, E: Write>(
    alloc: Global,
    input: &mut InputBuffer,
    reader: &mut R,
    writer: &mut W,
    errors: &mut E,
    chip: Option<Vec<u8>>,
    limit: u32,
) -> Result<Explorer, Status>
    requires fresh { input.old ≡ record { bytes = []; taken = 0 } }
    ensures begun { (left before : Bytes) →
        R.remaining reader.old ≡ Some left → W.contents writer.old ≡ Some before →
        (rest text : Bytes) × (R.remaining reader.new ≡ Some rest) × (W.contents writer.new ≡ Some (before ++ text))
        × IsSessionOpenResult (optional_image_text chip) limit left input.new rest text result }
    ensures within { IsWithinInputLimit input.new }
{
    let mut text = Vec::new(alloc);
    match read_image(input, reader, &mut text) {
        Err(_) => Err(write_image_refusal(writer, NO_MEMORY)),
        Ok(ImageReadEnd::Failed) => Err(Status::StreamFault),
        Ok(ImageReadEnd::PastLimit) => {
            // No image that is accepted is so long.
            if is_read_as_image(&chip, text.as_slice()) {
                return open_or_refuse(alloc, writer, errors, text, chip, limit);
            }
            let _written = report_input_too_long(errors);
            Err(Status::ImageRefused)
        }
        Ok(ImageReadEnd::EndOfInput) => open_or_refuse(alloc, writer, errors, text, chip, limit),
        Ok(ImageReadEnd::EndLine) => open_or_refuse(alloc, writer, errors, text, chip, limit),
    }
}

/// Opens a lab on an image or source, or refuses it.
fn open_or_refuse<W: Write, E: Write>(
    alloc: Global,
    writer: &mut W,
    errors: &mut E,
    text: Vec<u8>,
    chip: Option<Vec<u8>>,
    limit: u32,
) -> Result<Explorer, Status>
    ensures { (before : Bytes) → W.contents writer.old ≡ Some before →
        (written : Bytes) × (W.contents writer.new ≡ Some (before ++ written)) × IsExplorerOpenResult (optional_image_text chip) limit text.items written result }
{
    match open_text(alloc, errors, text, chip, limit) {
        Ok(begun) => Ok(begun),
        Err(OpenError::Image(fault)) => Err(write_image_refusal(writer, fault)),
        Err(OpenError::Source) => Err(Status::ImageRefused),
    }
}
