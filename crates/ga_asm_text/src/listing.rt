//! Source in, a listing of its cells out.

ghost use Rattle.ga_text.specs.Output.{ReadsAndWrites};
ghost use Rattle.std.specs.Prelude.{◌≡◌, ◌++◌, Some, IfOk, IfSome};
ghost use Rattle.ga_text.specs.Lines.{Bytes};
ghost use Rattle.ga_asm_text.specs.inner.{WritesListingAfterRead, IsListingOutcome, status_with_listing_fault, status_after_listing, fault_lines_left};
ghost use Rattle.ga_parser.specs.declared.fault.SourceFaultCause.TheVariants.{Memory};
ghost use Rattle.ga_source.specs.Made.{IsPlainSource};
ghost use Rattle.ga_source.specs.Recovery.{faults_at_lines_of_words};
ghost use Rattle.ga_debug_info.specs.Faults.{reported_faults_text, error_prefix};
ghost use Rattle.ga_asm_text.specs.Source.{WritesListing, HasTextPartsInOrder};

use super::assembling::write_text_with_status;
use super::fault_lines::FaultLines;
use super::program_listing::push_listed_program;
use super::reading::read_source;
use ga_console::Status;
use ga_debug_info::{push_faults, report_out_of_memory};
use ga_source::{
    AssembledChip, RecoveredPrograms, SourceFault, SourceFaultCause, Token,
    assemble_by_word_number, faults_on_lines_of_words, faults_or_first_fault, recover_programs,
    source_words, source_words_without_copies,
};
use ga_state_expectations::{check_source_expectations, report_expectations_error};
use ga_text::write_all;
use std::alloc::{AllocError, Global};
use std::io::{Read, Write};

/// Reads source up to its end or to its first line `end`, and writes for each cell its address, its word, what it holds, and
/// the line that asks for it. Source with faults is listed without the faulty words and cells, with each fault at its word, and `errors`
/// has the lines that `asm` writes there.
pub fn list_source<R: Read, W: Write, E: Write>(
    alloc: Global,
    reader: &mut R,
    writer: &mut W,
    errors: &mut E,
) -> Status
    // Where the streams show their bytes: what was read, and what was written for it by the status.
    ensures { ReadsAndWrites (λ read rest text. WritesListing read rest text result)
        (R.remaining reader.old) (R.remaining reader.new) (W.contents writer.old) (W.contents writer.new) }
{
    match read_source(alloc, reader, errors) {
        Ok(source) => match accepted_listing(alloc, errors, source.as_slice()) {
            Some(listed) => write_listed(writer, errors, listed),
            None => Status::ImageRefused,
        },
        Err(status) => status,
    }
}

/// The listing of a source; or none, and what is wrong with what it expects of its programs is written to `errors`, or that memory ran out.
fn accepted_listing<E: Write>(alloc: Global, errors: &mut E, source: &[u8]) -> Option<Listed>
    ensures { IfSome result (λ listed. IsListingOutcome source.now listed.is_faulty listed.text.items) }
{
    if let Err(why) = check_source_expectations(alloc, source) {
        let _written = report_expectations_error(alloc, errors, &why);
        return None;
    }
    match listing_of(alloc, source) {
        Ok(listed) => Some(listed),
        Err(_) => {
            let _written = report_out_of_memory(errors);
            None
        }
    }
}

/// Writes a listing, and the lines of its faults to `errors`.
fn write_listed<W: Write, E: Write>(writer: &mut W, errors: &mut E, listed: Listed) -> Status
    ensures { (before source : Bytes) → W.contents writer.old ≡ Some before → IsListingOutcome source listed.is_faulty listed.text.items →
        (text : Bytes) × (W.contents writer.new ≡ Some (before ++ text)) × WritesListingAfterRead source text result }
{
    let Listed {
        text,
        report,
        is_faulty,
    } = listed;
    if is_faulty {
        let _written = write_all(errors, report.as_slice());
    }
    let written = write_text_with_status(writer, text);
    status_behind(written, is_faulty)
}

/// The status after a listing, with a fault or without.
fn status_behind(written: Status, is_faulty: bool) -> Status
    ensures { result ≡ status_after_listing written is_faulty }
{
    if is_faulty { refused(written) } else { written }
}

/// The status after a listing with a fault.
pub(crate) fn refused(written: Status) -> Status
    ensures { result ≡ status_with_listing_fault written }
{
    match written {
        Status::Done => Status::ImageRefused,
        status => status,
    }
}

/// A listing, and the lines of the faults of its source.
#[derive(Drop)]
struct Listed {
    text: Vec<u8>,
    report: Vec<u8>,
    is_faulty: bool,
}

/// The listing of a source.
///
/// # Errors
/// Out of memory.
fn listing_of(alloc: Global, source: &[u8]) -> Result<Listed, SourceFault<'_>>
    ensures { IfOk result (λ listed. IsListingOutcome source.now listed.is_faulty listed.text.items) }
{
    let words = source_words(alloc, source)?;
    let all = words.as_slice();
    match assemble_by_word_number(alloc, all) {
        Ok(assembled) => {
            let lines = FaultLines::new(source, all, Vec::new(alloc));
            let text = listing(alloc, &assembled, lines)?;
            Ok(Listed {
                text,
                report: Vec::new(alloc),
                is_faulty: false,
            })
        }
        Err(fault) => faulty_listing(alloc, source, fault),
    }
}

/// The listing of a source whose words have this fault, at the number of a word.
///
/// # Errors
/// Out of memory.
fn faulty_listing<'s>(
    alloc: Global,
    source: &'s [u8],
    fault: SourceFault<'s>,
) -> Result<Listed, SourceFault<'s>>
    requires { IsPlainSource source.now → fault.cause ≡ Memory }
    ensures { IfOk result (λ listed. IsListingOutcome source.now listed.is_faulty listed.text.items) }
{
    if fault.cause == SourceFaultCause::Memory {
        return Err(fault);
    }
    let all = source_words_without_copies(alloc, source)?;
    let words = all.as_slice();
    let RecoveredPrograms { assembled, faults } = recover_programs(alloc, words)?;
    let faults = faults_or_first_fault(faults, fault)?;
    let report = report_of(alloc, words, faults.as_slice())?;
    let lines = FaultLines::new(source, words, faults);
    let text = listing(alloc, &assembled, lines)?;
    Ok(Listed {
        text,
        report,
        is_faulty: true,
    })
}

/// The lines of faults at the numbers of words, as `asm` writes them.
fn report_of(
    alloc: Global,
    words: &[Token<'_>],
    faults: &[SourceFault<'_>],
) -> Result<Vec<u8>, AllocError>
    ensures { IfOk result (λ report. report.items ≡ reported_faults_text error_prefix (faults_at_lines_of_words words.now faults.now)) }
{
    let faults = faults_on_lines_of_words(alloc, words, faults)?;
    let mut report = Vec::new(alloc);
    push_faults(&mut report, b"ga144: ", faults.as_slice())?;
    Ok(report)
}

/// The listing of a chip, and of faults.
#[tactic(auto, using(crate::proofs::FaultListing::tells_same, crate::proofs::FaultListing::tells_both, crate::proofs::FaultListing::all_told))]
fn listing(
    alloc: Global,
    assembled: &AssembledChip<'_>,
    mut lines: FaultLines<'_, '_>,
) -> Result<Vec<u8>, AllocError>
    ensures { IfOk result (λ text. HasTextPartsInOrder (fault_lines_left lines.entry) text.items) }
{
    let mut text = Vec::new(alloc);
    for program in &assembled.programs {
        push_listed_program(&mut text, &assembled.chip, program, &mut lines)?;
    }
    lines.push_rest(&mut text)?;
    Ok(text)
}
