//! Source in, objects about its image or its faults out.
ghost use Rattle.ga_text.specs.Output.{IsTextWrittenOrTruncated, IsSameStream, ReadsAndWrites, WritesExactly, WritesText};
ghost use Rattle.std.specs.Prelude.{◌≡◌, ◌++◌, Some};
ghost use Rattle.ga_text.specs.Lines.{Bytes};
ghost use Rattle.ga_json.specs.Compact.{json_line};
ghost use Rattle.ga_json.specs.Diagnostics.{diagnostics_json};
ghost use Rattle.ga_console.specs.inner.Run.{WritesTextWithStatus};
ghost use Rattle.ga_asm_text.specs.SourceJson.{image_json_object, image_and_warnings_json, WritesAssemblyJson, WritesAssemblyInFormat};
ghost use Rattle.ga_asm_text.specs.inner.{WritesAssemblyJsonAfterRead, WritesRefusalText};

use super::assembling::{AssembledImage, SourceAssembly, assemble_image, assemble_source};
use super::listing::refused;
use ga_console::Status;
use ga_json::{Field, ReportFormat, text_field, write_diagnostics, write_object};
use ga_text::{WholeInputResult, WriteResult, Writer, read_whole_input, write_all};
use std::alloc::Global;
use std::io::{Read, Write};

/// What standard error has where no memory is left.
const NO_MEMORY: &[u8] = b"ga144: no memory\n";

/// What standard error has of a source of more bytes than are read.
const TOO_LONG: &[u8] = b"ga144: the source has more than 16777216 bytes\n";

/// Reads source as [`assemble_source`] does, and writes what comes of it in this format: as JSON an object for the image and one for each
/// warning, or one for each line that `errors` gets about a source without an image.
pub fn assemble_source_in_format<R: Read, W: Write, E: Write>(
    alloc: Global,
    reader: &mut R,
    writer: &mut W,
    errors: &mut E,
    format: ReportFormat<'_>,
) -> Status
    // Where the streams show their bytes: what was read, and what was written for it by the status.
    ensures { ReadsAndWrites (λ read rest text. WritesAssemblyInFormat format.entry read rest text result)
        (R.remaining reader.old) (R.remaining reader.new) (W.contents writer.old) (W.contents writer.new) }
{
    match format {
        ReportFormat::Text => assemble_source(alloc, reader, writer, errors),
        ReportFormat::Json(file) => assemble_objects(alloc, reader, writer, errors, file),
    }
}

/// The same as JSON.
fn assemble_objects<R: Read, W: Write, E: Write>(
    alloc: Global,
    reader: &mut R,
    writer: &mut W,
    errors: &mut E,
    file: &[u8],
) -> Status
    ensures { ReadsAndWrites (λ read rest text. WritesAssemblyJson file.now read rest text result)
        (R.remaining reader.old) (R.remaining reader.new) (W.contents writer.old) (W.contents writer.new) }
{
    match read_whole_input(alloc, reader) {
        WholeInputResult::Whole(source) => tell_source(
            alloc,
            file,
            source.as_slice(),
            writer,
            errors,
        ),
        WholeInputResult::TooLong(_) => tell_refused(file, TOO_LONG, writer, errors),
        WholeInputResult::ReadFailed => Status::StreamFault,
        WholeInputResult::NoMemory => tell_refused(file, NO_MEMORY, writer, errors),
    }
}

/// Writes the objects about a source.
fn tell_source<W: Write, E: Write>(
    alloc: Global,
    file: &[u8],
    source: &[u8],
    writer: &mut W,
    errors: &mut E,
) -> Status
    ensures { WritesText (λ text. WritesAssemblyJsonAfterRead file.now source.now text result) (W.contents writer.old) (W.contents writer.new) }
{
    match assemble_image(alloc, source) {
        SourceAssembly::Image(image) => tell_image(file, &image, writer, errors),
        SourceAssembly::Faulty(lines) => tell_refused(file, lines.as_slice(), writer, errors),
        SourceAssembly::NoMemory => tell_refused(file, NO_MEMORY, writer, errors),
    }
}

/// Writes the lines about a source without an image to `errors`, and an object for each.
fn tell_refused<W: Write, E: Write>(
    file: &[u8],
    lines: &[u8],
    writer: &mut W,
    errors: &mut E,
) -> Status
    ensures { WritesText (λ text. WritesRefusalText (diagnostics_json file.now lines.now) text result) (W.contents writer.old) (W.contents writer.new) }
{
    let _written = write_all(errors, lines);
    let mut out = Writer::new(writer);
    let said = write_diagnostics(file, lines, &mut out);
    refused(finish(said, &mut out))
}

/// Writes the warnings about a source to `errors`, and the objects about its image.
fn tell_image<W: Write, E: Write>(
    file: &[u8],
    image: &AssembledImage,
    writer: &mut W,
    errors: &mut E,
) -> Status
    ensures { WritesText (λ text. WritesTextWithStatus (image_and_warnings_json file.now image.now.nodes image.now.image.items image.now.warnings.items) text result)
        (W.contents writer.old) (W.contents writer.new) }
{
    let _written = write_all(errors, image.warnings.as_slice());
    let mut out = Writer::new(writer);
    let said = write_image(file, image, &mut out);
    finish(said, &mut out)
}

/// Writes what is pending, and answers that all is written, or that a write failed.
fn finish<W: Write>(said: WriteResult, writer: &mut Writer<'_, W>) -> Status
    ensures same { IsSameStream writer.old writer.new }
    ensures written { (before whole : Bytes) → IsTextWrittenOrTruncated said (W.contents writer.old.stream.now) before whole writer.old.pending.items →
        (text : Bytes) × (W.contents writer.new.stream.now ≡ Some (before ++ text)) × WritesTextWithStatus whole text result }
{
    match said {
        Ok(()) => match writer.flush() {
            Ok(()) => Status::Done,
            Err(_) => Status::StreamFault,
        },
        Err(_) => Status::StreamFault,
    }
}

/// Writes an object for an image, and one for each warning.
///
/// # Errors
/// A write failed.
fn write_image<W: Write>(
    file: &[u8],
    image: &AssembledImage,
    writer: &mut Writer<'_, W>,
) -> WriteResult
    ensures { WritesExactly result (image_and_warnings_json file.now image.now.nodes image.now.image.items image.now.warnings.items) W.contents writer.old writer.new }
{
    write_image_object(file, image, writer)?;
    write_diagnostics(file, image.warnings.as_slice(), writer)
}

/// Writes an object for an image.
///
/// # Errors
/// A write failed.
fn write_image_object<W: Write>(
    file: &[u8],
    image: &AssembledImage,
    writer: &mut Writer<'_, W>,
) -> WriteResult
    ensures { WritesExactly result (json_line (image_json_object file.now image.now.nodes image.now.image.items)) W.contents writer.old writer.new }
{
    write_object(
        &[
            Field::text(b"answer", b"image"),
            text_field(b"file", file),
            Field::number(b"nodes", image.nodes),
            text_field(b"text", image.image.as_slice()),
        ],
        writer,
    )
}
