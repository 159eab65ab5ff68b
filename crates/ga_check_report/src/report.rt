//! The ends of a program, and the text about them.

ghost use Rattle.std.specs.Prelude.{◌≡◌, ◌≤◌, ◌<◌, ◌⊎◌, ◌++◌, true, false, Some, length, OnOk, IfErr};
ghost use Rattle.std.specs.List.{list_any};
ghost use Rattle.ga_text.specs.Lines.{Bytes};
ghost use Rattle.ga_text.specs.Output.{IsTextWrittenOrTruncated, IsSameStream, WritesExactly, WritesText, ReadsAndWrites};
ghost use Rattle.ga_lab.specs.Machine.{chip_of_machine};
ghost use Rattle.ga_explorer_text.specs.Saved.{saved_session_text};
ghost use Rattle.ga_console.specs.declared.run.Status.TheVariants.{ImageRefused};
ghost use Rattle.ga_state_ends.specs.Ends.{AreEndsOfChip, is_unclean};
ghost use Rattle.ga_lab.specs.declared.fault.LabFault.TheVariants.{Memory, Full};
ghost use Rattle.ga_check_report.specs.Settled.{check_start_state};
ghost use Rattle.ga_check_report.specs.EndTexts.{no_such_end_kind_text};
ghost use Rattle.ga_check_report.specs.Answers.{refusal_answer, ends_answer, ends_answer_in_format};
ghost use Rattle.ga_check_report.specs.Checking.{WritesEndsReport, IsCheckOutcome, IsWrittenWithVerdictOrFails, HasReachedEndOfNumberedKind, end_kinds_verdict, ends_verdict, missing_end_kind_verdict};
ghost use Rattle.ga_check_report.specs.declared.report.Verdict.TheVariants.{SessionWritten, FailedWithStatus};

use crate::ends_json::write_ends_json;
use crate::ends_text::{is_fully_explored, write_ends, write_no_kind};
use crate::making::make_all;
use crate::opening::open_program;
use crate::request::CheckRequest;
use crate::same_end::{verdict_with_single_end_outcome, write_same};
use crate::settling::settle_idle_nodes;
use ga_console::Status;
use ga_display::refusal_text;
use ga_explorer_text::write_saved_session;
use ga_json::{ReportFormat, write_diagnostics};
use ga_lab::{Lab, LabFault};
use ga_state_ends::{EndKind, FoundEnds, find_ends};
use ga_state_search::SearchControl;
use ga_text::{InputBuffer, WriteResult, Writer};
use std::alloc::Global;
use std::io::{Read, Write};

/// What came of the search for the ends of a program.
#[derive(Clone, Copy, PartialEq, Eq, Debug)]
pub enum Verdict {
    /// At each end each node runs on or is clean; or no event comes after which a condition holds; or each expectation holds. If one end is
    /// expected, there is one.
    Clean,
    /// At some end a node makes no further step and doesn't rest cleanly; or there is an event after which a condition holds; or an expectation is
    /// broken; or one end is expected, and two were found.
    Unclean,
    /// A bound was met, and each end that was found is clean, or the requested end wasn't found, or no expectation is broken.
    Unknown,
    /// The session of a kind of end or of an expectation was written.
    SessionWritten,
    /// Nothing was found out, or a write failed.
    FailedWithStatus(Status),
}

/// Reads an image or source, as `explore` does, and nothing after its line `end`. Writes the kinds of its ends, whatever the order in which its
/// nodes run, and with `request.same` whether there is one end; or, if a kind is named by its number, from 1 on, the lines `step NNN` that
/// lead to the first of its ends. Stores at most `request.most` states; a session has at most `limit` events. With `settles` each node whose
/// first event is to wait for code makes it before all else, in the order of their numbers; a session has these steps first. The fault of a
/// source is written to `errors`, a refused image and out of memory to `writer`. While it searches, `watch` has the number of states, and stops it.
pub fn check_ends<R: Read, W: Write, E: Write>(
    alloc: Global,
    reader: &mut R,
    writer: &mut W,
    errors: &mut E,
    request: CheckRequest<'_>,
    limit: u32,
    settles: bool,
    asked: u32,
    watch: &SearchControl,
) -> Verdict
    // Where the streams show their bytes: what was read, and what was written for it by the verdict.
    ensures { ReadsAndWrites (λ read rest text. IsCheckOutcome request.entry limit settles asked read rest text result)
        (R.remaining reader.old) (R.remaining reader.new) (W.contents writer.old) (W.contents writer.new) }
{
    let mut input = InputBuffer::new();
    match open_program(
        alloc,
        &mut input,
        reader,
        writer,
        errors,
        request.format,
        limit,
    ) {
        Ok(begun) => tell_settled(
            alloc,
            &mut begun.into_lab(),
            request,
            settles,
            asked,
            watch,
            writer,
        ),
        Err(status) => Verdict::FailedWithStatus(status),
    }
}

/// Writes the ends of a lab's chip, or the session of one, after the waits of its idle nodes if requested.
fn tell_settled<W: Write>(
    alloc: Global,
    lab: &mut Lab,
    request: CheckRequest<'_>,
    settles: bool,
    asked: u32,
    watch: &SearchControl,
    writer: &mut W,
) -> Verdict
    ensures { WritesText (λ text. WritesEndsReport request.entry asked (check_start_state settles lab.old) text result)
        (W.contents writer.old) (W.contents writer.new) }
{
    match settle_idle_nodes(lab, settles) {
        Ok(()) => tell_ends(alloc, lab, request, asked, watch, writer),
        Err(_) => tell_refused(request.format, LabFault::Memory, writer),
    }
}

/// Writes the ends of a lab's chip, or the session of one.
pub(crate) fn tell_ends<W: Write>(
    alloc: Global,
    lab: &mut Lab,
    request: CheckRequest<'_>,
    asked: u32,
    watch: &SearchControl,
    writer: &mut W,
) -> Verdict
    ensures { WritesText (λ text. WritesEndsReport request.entry asked lab.old text result) (W.contents writer.old) (W.contents writer.new) }
{
    match find_ends(alloc, lab.chip(), request.most, watch) {
        Ok(found) => tell_found(alloc, lab, &found, request, asked, writer),
        Err(_) => tell_refused(request.format, LabFault::Memory, writer),
    }
}

/// Writes the ends that were found, or the session of one.
fn tell_found<W: Write>(
    alloc: Global,
    lab: &mut Lab,
    found: &FoundEnds,
    request: CheckRequest<'_>,
    asked: u32,
    writer: &mut W,
) -> Verdict
    requires { AreEndsOfChip (chip_of_machine lab.old) found.now }
    ensures { WritesText (λ text. WritesEndsReport request.entry asked lab.old text result) (W.contents writer.old) (W.contents writer.new) }
{
    if asked == 0 {
        tell_all(request, found, writer)
    } else if has_kind(found, asked) {
        tell_session(alloc, lab, found, request, asked, writer)
    } else {
        tell_none(asked, found, writer)
    }
}

/// Whether a kind of end has this number.
fn has_kind(found: &FoundEnds, asked: u32) -> bool
    ensures there { result ≡ true → asked ≤ length found.now.kinds }
    ensures missing { result ≡ false → length found.now.kinds < asked }
{
    asked as usize <= found.kinds().len()
}

/// Writes the session of the kind of end with this number.
fn tell_session<W: Write>(
    alloc: Global,
    lab: &mut Lab,
    found: &FoundEnds,
    request: CheckRequest<'_>,
    asked: u32,
    writer: &mut W,
) -> Verdict
    requires asked { 1 ≤ asked }
    requires within { asked ≤ length found.now.kinds }
    requires ends { AreEndsOfChip (chip_of_machine lab.old) found.now }
    ensures { WritesText (λ text. WritesEndsReport request.entry asked lab.old text result) (W.contents writer.old) (W.contents writer.new) }
{
    match lead_to(alloc, lab, found, asked) {
        Ok(()) => tell_saved_as(Verdict::SessionWritten, lab, writer),
        Err(LabFault::Full) => tell_refused(request.format, LabFault::Full, writer),
        Err(_) => tell_refused(request.format, LabFault::Memory, writer),
    }
}

/// Makes the events that lead to the first end of the kind that has this number.
///
/// # Errors
/// [`LabFault::Full`] or [`LabFault::Memory`]; some of the events may be kept then.
fn lead_to(alloc: Global, lab: &mut Lab, found: &FoundEnds, asked: u32) -> Result<(), LabFault>
    requires asked { 1 ≤ asked }
    requires within { asked ≤ length found.now.kinds }
    requires ends { AreEndsOfChip (chip_of_machine lab.old) found.now }
    ensures led { OnOk result (HasReachedEndOfNumberedKind found.now asked lab.old lab.new) }
    ensures faults { IfErr result (λ why. (why ≡ Full) ⊎ (why ≡ Memory)) }
{
    match found.path_from_initial_state(alloc, found.kinds()[asked as usize - 1].state) {
        Ok(events) => make_all(lab, events.as_slice()),
        Err(_) => Err(LabFault::Memory),
    }
}

/// Writes the kinds of end.
fn tell_all<W: Write>(request: CheckRequest<'_>, found: &FoundEnds, writer: &mut W) -> Verdict
    ensures { WritesText (λ text. IsWrittenWithVerdictOrFails (ends_answer request.entry found.now) (ends_verdict request.entry found.now) text result)
        (W.contents writer.old) (W.contents writer.new) }
{
    let mut out = Writer::new(writer);
    let said = write_answer(request, found, &mut out);
    sent(said, ends_verdict(request, found), &mut out)
}

/// Writes the kinds of end, and whether the program has one end, if `--same` asks for it.
///
/// # Errors
/// A write failed.
fn write_answer<W: Write>(
    request: CheckRequest<'_>,
    found: &FoundEnds,
    writer: &mut Writer<'_, W>,
) -> WriteResult
    ensures { WritesExactly result (ends_answer request.entry found.now) W.contents writer.old writer.new }
{
    write_kinds(request, found, writer)?;
    write_same(request, found, writer)
}

/// Writes the kinds of end in the requested format.
///
/// # Errors
/// A write failed.
fn write_kinds<W: Write>(
    request: CheckRequest<'_>,
    found: &FoundEnds,
    writer: &mut Writer<'_, W>,
) -> WriteResult
    ensures { WritesExactly result (ends_answer_in_format request.entry.format request.entry found.now) W.contents writer.old writer.new }
{
    match request.format {
        ReportFormat::Text => write_ends(request, found, writer),
        ReportFormat::Json(file) => write_ends_json(file, found, writer),
    }
}

/// Writes that there is no kind of end of this number.
fn tell_none<W: Write>(asked: u32, found: &FoundEnds, writer: &mut W) -> Verdict
    ensures { WritesText (λ text. IsWrittenWithVerdictOrFails (no_such_end_kind_text asked found.now) (missing_end_kind_verdict found.now) text result)
        (W.contents writer.old) (W.contents writer.new) }
{
    let mut out = Writer::new(writer);
    let said = write_no_kind(asked, found, &mut out);
    sent(said, missing_end_kind_verdict(found), &mut out)
}

/// Writes the session that leads to the current state of a lab, and returns this verdict.
pub(crate) fn tell_saved_as<W: Write>(verdict: Verdict, lab: &Lab, writer: &mut W) -> Verdict
    ensures { WritesText (λ text. IsWrittenWithVerdictOrFails (saved_session_text lab.now) verdict text result) (W.contents writer.old) (W.contents writer.new) }
{
    let mut out = Writer::new(writer);
    let said = write_saved_session(lab, &mut out);
    sent(said, verdict, &mut out)
}

/// Writes why nothing else is written.
pub(crate) fn tell_refused<W: Write>(
    format: ReportFormat<'_>,
    fault: LabFault,
    writer: &mut W,
) -> Verdict
    ensures { WritesText (λ text. IsWrittenWithVerdictOrFails (refusal_answer format.entry fault) (FailedWithStatus ImageRefused) text result)
        (W.contents writer.old) (W.contents writer.new) }
{
    let mut out = Writer::new(writer);
    let said = write_refusal(format, fault, &mut out);
    sent(
        said,
        Verdict::FailedWithStatus(Status::ImageRefused),
        &mut out,
    )
}

/// Writes a refusal in the requested format.
///
/// # Errors
/// A write failed.
fn write_refusal<W: Write>(
    format: ReportFormat<'_>,
    fault: LabFault,
    writer: &mut Writer<'_, W>,
) -> WriteResult
    ensures { WritesExactly result (refusal_answer format.entry fault) W.contents writer.old writer.new }
{
    let text = refusal_text(fault);
    match format {
        ReportFormat::Text => writer.write_text(text),
        ReportFormat::Json(file) => write_diagnostics(file, text, writer),
    }
}

/// Writes what is pending, and answers a verdict, or that a write failed.
pub(crate) fn sent<W: Write>(
    said: WriteResult,
    verdict: Verdict,
    writer: &mut Writer<'_, W>,
) -> Verdict
    ensures same { IsSameStream writer.old writer.new }
    ensures written { (before whole : Bytes) → IsTextWrittenOrTruncated said (W.contents writer.old.stream.now) before whole writer.old.pending.items →
        (text : Bytes) × (W.contents writer.new.stream.now ≡ Some (before ++ text)) × IsWrittenWithVerdictOrFails whole verdict text result }
{
    match said {
        Ok(()) => match writer.flush() {
            Ok(()) => verdict,
            Err(_) => Verdict::FailedWithStatus(Status::StreamFault),
        },
        Err(_) => Verdict::FailedWithStatus(Status::StreamFault),
    }
}

/// The verdict about the kinds of end, and about one end, if `--same` asks for it.
fn ends_verdict(request: CheckRequest<'_>, found: &FoundEnds) -> Verdict
    ensures { result ≡ ends_verdict request.entry found.now }
{
    verdict_with_single_end_outcome(request.same, found, end_kinds_verdict(found))
}

/// Whether an end that isn't clean was found, or there is none, or there may be others.
fn end_kinds_verdict(found: &FoundEnds) -> Verdict
    ensures { result ≡ end_kinds_verdict found.now }
{
    if has_unclean(found.kinds()) {
        Verdict::Unclean
    } else if is_fully_explored(found) {
        Verdict::Clean
    } else {
        Verdict::Unknown
    }
}

/// Whether one of these kinds isn't clean.
fn has_unclean(kinds: &[EndKind]) -> bool
    ensures { result ≡ list_any is_unclean kinds.now }
{
    kinds.iter().any(|kind| kind.is_unclean())
}

/// The verdict where no kind of end has the number in question.
fn missing_end_kind_verdict(found: &FoundEnds) -> Verdict
    ensures { result ≡ missing_end_kind_verdict found.now }
{
    if is_fully_explored(found) {
        Verdict::FailedWithStatus(Status::ImageRefused)
    } else {
        Verdict::Unknown
    }
}
