//! A program is read and opened; why it isn't is written in the requested format.

ghost use Rattle.std.specs.Prelude.{◌≡◌, ◌++◌, [], Some};
ghost use Rattle.ga_text.specs.Lines.{Bytes};
ghost use Rattle.ga_text.specs.Input.{IsWithinInputLimit};
ghost use Rattle.ga_text.specs.Output.{IsTextWrittenOrTruncated, IsSameStream, WritesExactly, WritesText};
ghost use Rattle.ga_explorer.specs.Opening.{optional_image_text};
ghost use Rattle.ga_check_report.specs.Opened.{IsWrittenWithStatus, IsJsonSessionOpenResult};
ghost use Rattle.ga_check_report.specs.inner.{IsProgramOpenResult, refusal_reason_lines};
ghost use Rattle.ga_json.specs.Diagnostics.{diagnostics_json};
ghost use Rattle.ga_json.specs.declared.format.ReportFormat.TheVariants.{Json};

use ga_console::Status;
use ga_explorer::{Explorer, open_lab};
use ga_json::{ReportFormat, write_diagnostics};
use ga_text::{InputBuffer, WriteResult, Writer, write_all};
use std::alloc::Global;
use std::io::{Read, Write};

/// What standard error has where no memory is left.
const NO_MEMORY: &[u8] = b"ga144: no memory\n";

/// Reads an image or source up to its first line `end`, and opens a lab that has its chip as its load. Where that is refused, the reason is
/// written as the format has it; the fault of a source is written to `errors` in either.
///
/// # Errors
/// The status of a program that ends so.
pub(crate) fn open_program<R: Read, W: Write, E: Write>(
    alloc: Global,
    input: &mut InputBuffer,
    reader: &mut R,
    writer: &mut W,
    errors: &mut E,
    format: ReportFormat<'_>,
    limit: u32,
) -> Result<Explorer, Status>
    requires fresh { input.old ≡ record { bytes = []; taken = 0 } }
    ensures begun { (left before : Bytes) →
        R.remaining reader.old ≡ Some left → W.contents writer.old ≡ Some before →
        (rest text : Bytes) × (R.remaining reader.new ≡ Some rest) × (W.contents writer.new ≡ Some (before ++ text))
        × IsProgramOpenResult format.entry limit left input.new rest text result }
{
    match format {
        ReportFormat::Text => open_lab(alloc, input, reader, writer, errors, None, limit),
        ReportFormat::Json(file) => {
            open_lab_with_json_refusals(alloc, input, reader, writer, errors, file, None, limit)
        }
    }
}

/// Reads an image or source up to its first line `end`, and opens a lab as `ga_explorer::open_lab` does. Where that is refused, an object is
/// written for each line of the reason, with the name of the file; the fault of a source is written to `errors`, too.
///
/// # Errors
/// The status of a program that ends so.
pub fn open_lab_with_json_refusals<R: Read, W: Write, E: Write>(
    alloc: Global,
    input: &mut InputBuffer,
    reader: &mut R,
    writer: &mut W,
    errors: &mut E,
    file: &[u8],
    chip: Option<Vec<u8>>,
    limit: u32,
) -> Result<Explorer, Status>
    requires fresh { input.old ≡ record { bytes = []; taken = 0 } }
    ensures begun { (left before : Bytes) →
        R.remaining reader.old ≡ Some left → W.contents writer.old ≡ Some before →
        (rest text : Bytes) × (R.remaining reader.new ≡ Some rest) × (W.contents writer.new ≡ Some (before ++ text))
        × IsJsonSessionOpenResult (optional_image_text chip) file.now limit left input.new rest text result }
    ensures within { IsWithinInputLimit input.new }
{
    let mut reason = Vec::new(alloc);
    let mut told = Vec::new(alloc);
    let opened = open_lab(alloc, input, reader, &mut reason, &mut told, chip, limit);
    let _written = write_all(errors, told.as_slice());
    match opened {
        Ok(begun) => Ok(begun),
        Err(status) => {
            let lines = refusal_reason_lines(errors, status, reason.as_slice(), told.as_slice());
            Err(tell_unopened(file, reason.as_slice(), lines, status, writer))
        }
    }
}

/// What standard error has of a program that isn't opened. If no memory was left for the reason, standard error has that, too.
fn refusal_reason_lines<'a, E: Write>(
    errors: &mut E,
    status: Status,
    reason: &[u8],
    told: &'a [u8],
) -> &'a [u8]
    ensures { result.now ≡ refusal_reason_lines status reason.now told.entry.now }
{
    if status == Status::ImageRefused && reason.is_empty() && told.is_empty() {
        let _written = write_all(errors, NO_MEMORY);
        NO_MEMORY
    } else {
        told
    }
}

/// Writes an object for each line of a reason, and of the warnings; and returns this status, or that a write failed.
fn tell_unopened<W: Write>(
    file: &[u8],
    reason: &[u8],
    told: &[u8],
    status: Status,
    writer: &mut W,
) -> Status
    ensures { WritesText (λ text. IsWrittenWithStatus (diagnostics_json file.now reason.now ++ diagnostics_json file.now told.now) status text result)
        (W.contents writer.old) (W.contents writer.new) }
{
    let mut out = Writer::new(writer);
    let said = write_reasons(file, reason, told, &mut out);
    status_sent(said, status, &mut out)
}

/// Writes what is pending, and answers a status, or that a write failed.
fn status_sent<W: Write>(said: WriteResult, status: Status, writer: &mut Writer<'_, W>) -> Status
    ensures same { IsSameStream writer.old writer.new }
    ensures written { (before whole : Bytes) → IsTextWrittenOrTruncated said (W.contents writer.old.stream.now) before whole writer.old.pending.items →
        (text : Bytes) × (W.contents writer.new.stream.now ≡ Some (before ++ text)) × IsWrittenWithStatus whole status text result }
{
    match said {
        Ok(()) => match writer.flush() {
            Ok(()) => status,
            Err(_) => Status::StreamFault,
        },
        Err(_) => Status::StreamFault,
    }
}

/// Writes an object for each line of a reason, and of the warnings.
///
/// # Errors
/// A write failed.
fn write_reasons<W: Write>(
    file: &[u8],
    reason: &[u8],
    told: &[u8],
    writer: &mut Writer<'_, W>,
) -> WriteResult
    ensures { WritesExactly result (diagnostics_json file.now reason.now ++ diagnostics_json file.now told.now) W.contents writer.old writer.new }
{
    write_diagnostics(file, reason, writer)?;
    write_diagnostics(file, told, writer)
}
