//! The expectations of a program, and the text about them.

ghost use Rattle.std.specs.Prelude.{◌≡◌, ◌≤◌, ◌-◌, List, Some, slice_get, slice_index_or, length};
ghost use Rattle.ga_node.specs.Record.{NodeRecord};
ghost use Rattle.ga_text.specs.Output.{WritesExactly, WritesText, ReadsAndWrites};
ghost use Rattle.ga_lab.specs.Machine.{MachineState, chip_of_machine};
ghost use Rattle.ga_console.specs.declared.run.Status.TheVariants.{ImageRefused};
ghost use Rattle.ga_state_ends.specs.Ends.{AreEndsOfChip};
ghost use Rattle.ga_check_report.specs.declared.outcome.ExpectationOutcome.TheVariants.{Unknown};
ghost use Rattle.ga_check_report.specs.declared.report.Verdict.TheVariants.{FailedWithStatus};
ghost use Rattle.ga_check_report.specs.Checking.{IsWrittenWithVerdictOrFails};
ghost use Rattle.ga_check_report.specs.Answers.{expectations_answer, expectations_answer_in_format};
ghost use Rattle.ga_check_report.specs.ExpectationTexts.{expectations_lines_text, expectations_text, no_such_expectation_text, optional_search_stop_text};
ghost use Rattle.ga_check_report.specs.Outcomes.{AreExpectationOutcomes, expectations_verdict};
ghost use Rattle.ga_check_report.specs.Expected.{WritesReportForDebugInfo, WritesExpectationsReport, WritesProgramCheckReport, IsProgramCheckOutcome};
ghost use Rattle.ga_check_report.specs.Settled.{check_start_state};
ghost use Rattle.ga_check_report.specs.inner.{WritesExpectationOutcomes};

use crate::breach_decisions::{decide_breaches, decision_at, write_decided_line};
use crate::breach_session::tell_one;
use crate::ends_text::{is_fully_explored, stopped_line};
use crate::expectations_json::write_expectations_json;
use crate::judging::judge_all;
use crate::opening::open_program;
use crate::outcome::{ExpectationOutcome, OutcomeParts};
use crate::outcome_text::{expectations_header, no_such_expectation_text};
use crate::report::{Verdict, sent, tell_ends, tell_refused};
use crate::request::CheckRequest;
use crate::same_end::{expectations_verdict, write_expectations_answer};
use crate::settling::settle_idle_nodes;
use ga_console::Status;
use ga_explorer::Explorer;
use ga_json::ReportFormat;
use ga_lab::{Lab, LabFault};
use ga_state_ends::{EndDecision, FoundEnds, find_ends};
use ga_state_expectations::{ExpectationsError, LineExpectation, parse_expectations};
use ga_state_search::SearchControl;
use ga_text::{InputBuffer, WriteResult, Writer};
use std::alloc::Global;
use std::io::{Read, Write};

/// Reads an image or source as [`crate::check_ends`] does. Writes of each expectation of the source whether it holds in every order; or, if one is
/// named by its number, from 1 on, the lines `step NNN` that lead to what breaks it. Without expectations it does what [`crate::check_ends`] does.
/// The verdict is `Clean` where each holds, `Unclean` where one is broken. With `request.same` one end is expected, too.
pub fn check_expectations_or_ends<R: Read, W: Write, E: Write>(
    alloc: Global,
    reader: &mut R,
    writer: &mut W,
    errors: &mut E,
    request: CheckRequest<'_>,
    limit: u32,
    settles: bool,
    asked: u32,
    watch: &SearchControl,
) -> Verdict
    // If the streams report their bytes: what was read, and what was written for it by the verdict.
    ensures { ReadsAndWrites (λ read rest text. IsProgramCheckOutcome request.entry limit settles asked read rest text result)
        (R.remaining reader.old) (R.remaining reader.new) (W.contents writer.old) (W.contents writer.new) }
{
    let mut input = InputBuffer::new();
    match open_program(
        alloc,
        &mut input,
        reader,
        writer,
        errors,
        request.format,
        limit,
    ) {
        Ok(begun) => answer_expectations(alloc, begun, request, settles, asked, watch, writer),
        Err(status) => Verdict::FailedWithStatus(status),
    }
}

/// Writes what is known of the expectations of a source.
fn answer_expectations<W: Write>(
    alloc: Global,
    begun: Explorer,
    request: CheckRequest<'_>,
    settles: bool,
    asked: u32,
    watch: &SearchControl,
    writer: &mut W,
) -> Verdict
    ensures { WritesText (λ text. WritesReportForDebugInfo begun.notes request.entry asked (check_start_state settles begun.lab) text result) (W.contents writer.old) (W.contents writer.new) }
{
    match parse_expectations(alloc, begun.notes()) {
        Ok(expectations) => settle_and_judge(
            alloc,
            &mut begun.into_lab(),
            request,
            settles,
            expectations.as_slice(),
            asked,
            watch,
            writer,
        ),
        Err(ExpectationsError::Memory) => tell_refused(request.format, LabFault::Memory, writer),
        Err(ExpectationsError::FaultyLines(_)) => Verdict::FailedWithStatus(Status::ImageRefused),
    }
}

/// Writes what is known of the expectations of a lab's program, from where its idle nodes wait if they are to.
fn settle_and_judge<W: Write>(
    alloc: Global,
    lab: &mut Lab,
    request: CheckRequest<'_>,
    settles: bool,
    expectations: &[LineExpectation],
    asked: u32,
    watch: &SearchControl,
    writer: &mut W,
) -> Verdict
    ensures { WritesText (λ text. WritesProgramCheckReport request.entry expectations.now asked (check_start_state settles lab.old) text result)
        (W.contents writer.old) (W.contents writer.new) }
{
    match settle_idle_nodes(lab, settles) {
        Ok(()) => tell_program(alloc, lab, request, expectations, asked, watch, writer),
        Err(_) => tell_refused(request.format, LabFault::Memory, writer),
    }
}

/// Writes what is known of the expectations of a lab's program; without any what its ends are.
fn tell_program<W: Write>(
    alloc: Global,
    lab: &mut Lab,
    request: CheckRequest<'_>,
    expectations: &[LineExpectation],
    asked: u32,
    watch: &SearchControl,
    writer: &mut W,
) -> Verdict
    ensures { WritesText (λ text. WritesProgramCheckReport request.entry expectations.now asked lab.old text result) (W.contents writer.old) (W.contents writer.new) }
{
    let count = expectations.len();
    if count == 0 {
        tell_ends(alloc, lab, request, asked, watch, writer)
    } else {
        search_and_judge(alloc, lab, request, expectations, asked, watch, writer)
    }
}

/// Searches the states of a lab's chip, and writes what is known of the expectations.
fn search_and_judge<W: Write>(
    alloc: Global,
    lab: &mut Lab,
    request: CheckRequest<'_>,
    expectations: &[LineExpectation],
    asked: u32,
    watch: &SearchControl,
    writer: &mut W,
) -> Verdict
    ensures { WritesText (λ text. WritesExpectationsReport request.entry expectations.now asked lab.old text result) (W.contents writer.old) (W.contents writer.new) }
{
    match find_ends(alloc, lab.chip(), request.most, watch) {
        Ok(mut found) => {
            tell_expectations(alloc, lab, &mut found, request, expectations, asked, writer)
        }
        Err(_) => tell_refused(request.format, LabFault::Memory, writer),
    }
}

/// Writes what is known of the expectations, or the session of one.
fn tell_expectations<W: Write>(
    alloc: Global,
    lab: &mut Lab,
    found: &mut FoundEnds,
    request: CheckRequest<'_>,
    expectations: &[LineExpectation],
    asked: u32,
    writer: &mut W,
) -> Verdict
    requires { AreEndsOfChip (chip_of_machine lab.old) found.old }
    ensures { WritesText (λ text. WritesExpectationsReport request.entry expectations.now asked lab.old text result) (W.contents writer.old) (W.contents writer.new) }
{
    if asked == 0 {
        tell_each(alloc, lab, found, request, expectations, writer)
    } else if asked as usize <= expectations.len() {
        tell_one(
            alloc,
            lab,
            found,
            expectation_at(expectations, asked),
            request,
            asked,
            writer,
        )
    } else {
        tell_missing(expectations.len(), asked, writer)
    }
}

/// The expectation with this number, from 1 on.
fn expectation_at(expectations: &[LineExpectation], asked: u32) -> &LineExpectation
    requires asked { 1 ≤ asked }
    requires within { asked ≤ length expectations.now }
    ensures { slice_get expectations.now (asked - 1) ≡ Some result.now }
{
    &expectations[asked as usize - 1]
}

// ---- each expectation

/// Writes what is known of each expectation.
fn tell_each<W: Write>(
    alloc: Global,
    lab: &mut Lab,
    found: &mut FoundEnds,
    request: CheckRequest<'_>,
    expectations: &[LineExpectation],
    writer: &mut W,
) -> Verdict
    requires { AreEndsOfChip (chip_of_machine lab.old) found.old }
    ensures { WritesText (λ text. WritesExpectationsReport request.entry expectations.now 0 lab.old text result) (W.contents writer.old) (W.contents writer.new) }
{
    let _parts: Option<OutcomeParts> = None;
    match judge_all(alloc, lab, found, expectations) {
        Ok(outcomes) => decide_and_tell(
            alloc,
            found,
            request,
            expectations,
            outcomes.as_slice(),
            writer,
        ),
        Err(LabFault::Full) => tell_refused(request.format, LabFault::Full, writer),
        Err(_) => tell_refused(request.format, LabFault::Memory, writer),
    }
}

/// Writes the expectations with what is known of them, and what decides that they are broken.
fn decide_and_tell<W: Write>(
    alloc: Global,
    found: &mut FoundEnds,
    request: CheckRequest<'_>,
    expectations: &[LineExpectation],
    outcomes: &[ExpectationOutcome],
    writer: &mut W,
) -> Verdict
    requires ends { (load : List NodeRecord) × AreEndsOfChip load found.old }
    requires known { (s : MachineState) × AreExpectationOutcomes s found.old expectations.now outcomes.now }
    ensures { WritesText (λ text. WritesExpectationOutcomes request.entry found.old expectations.now outcomes.now text result) (W.contents writer.old) (W.contents writer.new) }
{
    match decide_breaches(alloc, found, expectations, outcomes) {
        Ok(decisions) => tell_outcomes(
            request,
            found,
            expectations,
            outcomes,
            decisions.as_slice(),
            writer,
        ),
        Err(_) => tell_refused(request.format, LabFault::Memory, writer),
    }
}

/// Writes the expectations with what is known of them, and what is pending.
fn tell_outcomes<W: Write>(
    request: CheckRequest<'_>,
    found: &FoundEnds,
    expectations: &[LineExpectation],
    outcomes: &[ExpectationOutcome],
    decisions: &[Option<EndDecision>],
    writer: &mut W,
) -> Verdict
    ensures { WritesText (λ text. IsWrittenWithVerdictOrFails (expectations_answer request.entry found.now expectations.now outcomes.now decisions.now) (expectations_verdict request.entry found.now outcomes.now) text result)
        (W.contents writer.old) (W.contents writer.new) }
{
    let mut out = Writer::new(writer);
    let said = write_expectations_answer(
        request,
        found,
        expectations,
        outcomes,
        decisions,
        &mut out,
    );
    sent(
        said,
        expectations_verdict(request, found, outcomes),
        &mut out,
    )
}

/// Writes the expectations with what is known of them, in the requested format.
///
/// # Errors
/// A write failed.
pub(crate) fn write_expectations<W: Write>(
    request: CheckRequest<'_>,
    found: &FoundEnds,
    expectations: &[LineExpectation],
    outcomes: &[ExpectationOutcome],
    decisions: &[Option<EndDecision>],
    writer: &mut Writer<'_, W>,
) -> WriteResult
    ensures { WritesExactly result (expectations_answer_in_format request.entry.format request.entry found.now expectations.now outcomes.now decisions.now) W.contents writer.old writer.new }
{
    match request.format {
        ReportFormat::Text => {
            write_expectations_text(request, found, expectations, outcomes, decisions, writer)
        }
        ReportFormat::Json(file) => {
            write_expectations_json(file, found, expectations, outcomes, decisions, writer)
        }
    }
}

/// Writes the numbers of states and of expectations, the lines of each, and which bound was met.
///
/// # Errors
/// A write failed.
fn write_expectations_text<W: Write>(
    request: CheckRequest<'_>,
    found: &FoundEnds,
    expectations: &[LineExpectation],
    outcomes: &[ExpectationOutcome],
    decisions: &[Option<EndDecision>],
    writer: &mut Writer<'_, W>,
) -> WriteResult
    ensures { WritesExactly result (expectations_text request.entry found.now expectations.now outcomes.now decisions.now) W.contents writer.old writer.new }
{
    let whole = is_fully_explored(found);
    let header = expectations_header(whole, found.count_states(), expectations.len());
    writer.write_blocks(header.as_slice())?;
    write_lines(whole, expectations, outcomes, decisions, writer)?;
    write_stop(request, found, writer)
}

/// Writes the line of each expectation, and what decides that it is broken.
///
/// # Errors
/// A write failed.
fn write_lines<W: Write>(
    whole: bool,
    expectations: &[LineExpectation],
    outcomes: &[ExpectationOutcome],
    decisions: &[Option<EndDecision>],
    writer: &mut Writer<'_, W>,
) -> WriteResult
    ensures { WritesExactly result (expectations_lines_text whole outcomes.now decisions.now 0 expectations.now) W.contents writer.old writer.new }
{
    'expectations: for place in 0..expectations.len() {
        let outcome = outcome_at(outcomes, place);
        let decision = decision_at(decisions, place);
        write_decided_line(
            whole,
            place + 1,
            &expectations[place],
            outcome,
            decision,
            writer,
        )?;
    }
    Ok(())
}

/// The outcome at a place.
pub(crate) fn outcome_at(outcomes: &[ExpectationOutcome], place: usize) -> ExpectationOutcome
    ensures { result ≡ slice_index_or outcomes.now place Unknown }
{
    match outcomes.get(place) {
        Some(outcome) => *outcome,
        None => ExpectationOutcome::Unknown,
    }
}

/// Writes which bound was met, if one was.
///
/// # Errors
/// A write failed.
fn write_stop<W: Write>(
    request: CheckRequest<'_>,
    found: &FoundEnds,
    writer: &mut Writer<'_, W>,
) -> WriteResult
    ensures { WritesExactly result (optional_search_stop_text request.entry found.now.fault) W.contents writer.old writer.new }
{
    match found.fault() {
        None => writer.write_text(b""),
        Some(fault) => writer.write_blocks(stopped_line(request, fault).as_slice()),
    }
}

/// Writes that there are fewer expectations.
fn tell_missing<W: Write>(expectations: usize, asked: u32, writer: &mut W) -> Verdict
    ensures { WritesText (λ text. IsWrittenWithVerdictOrFails (no_such_expectation_text asked expectations) (FailedWithStatus ImageRefused) text result)
        (W.contents writer.old) (W.contents writer.new) }
{
    let mut out = Writer::new(writer);
    let said = out.write_blocks(no_such_expectation_text(asked, expectations).as_slice());
    sent(
        said,
        Verdict::FailedWithStatus(Status::ImageRefused),
        &mut out,
    )
}
