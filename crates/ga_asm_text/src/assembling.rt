//! Source in, the image of its chip out.
ghost use Rattle.ga_text.specs.Output.{ReadsAndWrites};
ghost use Rattle.std.specs.Prelude.{◌≡◌, ◌++◌, Some, IfOk, IfSome};
ghost use Rattle.ga_text.specs.Lines.{Bytes};
ghost use Rattle.ga_console.specs.inner.Run.{WritesTextWithStatus};
ghost use Rattle.ga_asm_text.specs.Source.{IsAssembledImage, WritesAssembly};
ghost use Rattle.ga_asm_text.specs.SourceJson.{store_warnings_text};
ghost use Rattle.ga_asm_text.specs.inner.{IsSourceAssembly};

use super::reading::read_source;
use ga_console::Status;
use ga_debug_info::{format_faults, report_out_of_memory, report_stores_over_code};
use ga_image::print;
use ga_source::{AssembledChip, assemble_source_text};
use ga_state_expectations::{
    ExpectationsError, check_source_expectations, format_expectation_faults,
};
use ga_text::{WriteError, write_all};
use std::alloc::{AllocError, Global};
use std::io::{Read, Write};

/// Reads source up to its end or to its first line `end`, and writes the image of its chip, in format 2. Source that has a fault
/// gets a line on `errors` and no image; so does source of more than 16777216 bytes, and want of memory. Stores over code get a
/// line there too, and come with the image.
pub fn assemble_source<R: Read, W: Write, E: Write>(
    alloc: Global,
    reader: &mut R,
    writer: &mut W,
    errors: &mut E,
) -> Status
    // Where the streams show their bytes: what was read, and what was written for it by the status.
    ensures { ReadsAndWrites (λ read rest text. WritesAssembly read rest text result)
        (R.remaining reader.old) (R.remaining reader.new) (W.contents writer.old) (W.contents writer.new) }
{
    match read_source(alloc, reader, errors) {
        Ok(source) => match image_of(alloc, errors, source) {
            Some(image) => write_text_with_status(writer, image),
            None => Status::ImageRefused,
        },
        Err(status) => status,
    }
}

/// Writes a text.
pub fn write_text_with_status<W: Write>(writer: &mut W, text: Vec<u8>) -> Status
    ensures { (before : Bytes) → W.contents writer.old ≡ Some before →
        (sent : Bytes) × (W.contents writer.new ≡ Some (before ++ sent)) × WritesTextWithStatus text.items sent result }
{
    match write_all(writer, text.as_slice()) {
        Ok(()) => Status::Done,
        Err(WriteError) => Status::StreamFault,
    }
}

/// The image of a source, and on `errors` its stores over code; or none, and why is written there.
fn image_of<E: Write>(alloc: Global, errors: &mut E, source: Vec<u8>) -> Option<Vec<u8>>
    ensures { IfSome result (λ image. IsAssembledImage source.items image.items) }
{
    match assemble_image(alloc, source.as_slice()) {
        SourceAssembly::Image(
            AssembledImage {
                image,
                warnings,
                ..
            },
        ) => {
            let _written = write_all(errors, warnings.as_slice());
            Some(image)
        }
        SourceAssembly::Faulty(lines) => {
            let _written = write_all(errors, lines.as_slice());
            None
        }
        SourceAssembly::NoMemory => {
            let _written = report_out_of_memory(errors);
            None
        }
    }
}

/// The image of a source.
#[derive(Drop)]
pub(crate) struct AssembledImage {
    pub(crate) image: Vec<u8>,
    /// The number of nodes that have a program.
    pub(crate) nodes: u64,
    /// The lines of standard error about stores over code.
    pub(crate) warnings: Vec<u8>,
}

/// What comes of a source.
#[derive(Drop)]
pub(crate) enum SourceAssembly {
    Image(AssembledImage),
    /// It has faults; these are the lines of standard error about them.
    Faulty(Vec<u8>),
    NoMemory,
}

/// Assembles a source whose lines `expect` have no fault.
pub(crate) fn assemble_image(alloc: Global, source: &[u8]) -> SourceAssembly
    ensures { IsSourceAssembly source.now result }
{
    match check_source_expectations(alloc, source) {
        Ok(()) => assemble_programs(alloc, source),
        Err(ExpectationsError::Memory) => SourceAssembly::NoMemory,
        Err(ExpectationsError::FaultyLines(faults)) => {
            match format_expectation_faults(alloc, b"ga144: ", faults.as_slice()) {
                Ok(lines) => SourceAssembly::Faulty(lines),
                Err(_) => SourceAssembly::NoMemory,
            }
        }
    }
}

/// Assembles the programs of a source.
fn assemble_programs(alloc: Global, source: &[u8]) -> SourceAssembly
    ensures { IsSourceAssembly source.now result }
{
    match assemble_source_text(alloc, source) {
        Ok(assembled) => {
            if let Ok(image) = print(alloc, &assembled.chip) {
                if let Ok(warnings) = warnings_of(alloc, &assembled) {
                    return SourceAssembly::Image(AssembledImage {
                        image,
                        nodes: assembled.programs.len() as u64,
                        warnings,
                    });
                }
            }
            SourceAssembly::NoMemory
        }
        Err(fault) => match format_faults(alloc, b"ga144: ", source, fault) {
            Ok(lines) => SourceAssembly::Faulty(lines),
            Err(_) => SourceAssembly::NoMemory,
        },
    }
}

/// The lines of standard error about the stores over code of a source.
///
/// # Errors
/// Out of memory.
fn warnings_of(alloc: Global, assembled: &AssembledChip<'_>) -> Result<Vec<u8>, AllocError>
    ensures { IfOk result (λ warnings. warnings.items ≡ store_warnings_text assembled.now.programs.items) }
{
    let mut warnings = Vec::new(alloc);
    match report_stores_over_code(alloc, &mut warnings, assembled)? {
        Ok(()) => Ok(warnings),
        Err(WriteError) => Err(AllocError),
    }
}
