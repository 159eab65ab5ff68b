//! What `--same` adds to an answer: whether the program has one end.

ghost use Rattle.std.specs.Prelude.{◌≡◌, ◌++◌, codes, map};
ghost use Rattle.ga_text.specs.Output.{WritesExactly};
ghost use Rattle.ga_json.specs.Compact.{json_line};
ghost use Rattle.ga_json.specs.Fields.{named_field_value, json_object};
ghost use Rattle.ga_check_report.specs.Answers.{expectations_answer};
ghost use Rattle.ga_check_report.specs.Outcomes.{expectations_verdict};
ghost use Rattle.ga_check_report.specs.SameEnd.{single_end_expectation_outcome, single_end_outcome_line, single_end_outcome_fields, single_end_outcome_answer, same_end_answer, verdict_weakened_by_unknown, verdict_with_outcome, verdict_with_single_end_outcome};

use crate::ends_text::is_fully_explored;
use crate::expectation_json::outcome_keyword;
use crate::expected::write_expectations;
use crate::outcome::{Breach, ExpectationOutcome, outcomes_verdict};
use crate::outcome_text::outcome_text;
use crate::report::Verdict;
use crate::request::CheckRequest;
use ga_json::{Field, ReportFormat, RowFields, row_fields, text_field, write_object};
use ga_state_ends::{EndDecision, FoundEnds};
use ga_state_expectations::LineExpectation;
use ga_text::{WriteResult, Writer};
use std::io::Write;

/// What a search shows of the expectation that the program has one end.
pub(crate) fn single_end_expectation_outcome(found: &FoundEnds) -> ExpectationOutcome
    ensures { result ≡ single_end_expectation_outcome found.now }
{
    let ends = found.count_ends();
    if 1 < ends {
        ExpectationOutcome::Broken(Breach::SeveralEnds(ends))
    } else if is_fully_explored(found) {
        ExpectationOutcome::Holds
    } else {
        ExpectationOutcome::Unknown
    }
}

/// Writes whether the program has one end, if `--same` asks for it.
///
/// # Errors
/// A write failed.
pub(crate) fn write_same<W: Write>(
    request: CheckRequest<'_>,
    found: &FoundEnds,
    writer: &mut Writer<'_, W>,
) -> WriteResult
    ensures { WritesExactly result (same_end_answer request.entry found.now) W.contents writer.old writer.new }
{
    if request.same {
        write_one_end(request.format, found, writer)
    } else {
        writer.write_text(b"")
    }
}

/// Writes whether the program has one end.
///
/// # Errors
/// A write failed.
fn write_one_end<W: Write>(
    format: ReportFormat<'_>,
    found: &FoundEnds,
    writer: &mut Writer<'_, W>,
) -> WriteResult
    ensures { WritesExactly result (single_end_outcome_answer format.entry found.now) W.contents writer.old writer.new }
{
    match format {
        ReportFormat::Text => write_one_end_line(found, writer),
        ReportFormat::Json(file) => write_one_end_object(file, found, writer),
    }
}

/// Writes the line of the expectation that the program has one end.
///
/// # Errors
/// A write failed.
fn write_one_end_line<W: Write>(found: &FoundEnds, writer: &mut Writer<'_, W>) -> WriteResult
    ensures { WritesExactly result (single_end_outcome_line found.now) W.contents writer.old writer.new }
{
    let known = outcome_text(
        is_fully_explored(found),
        0,
        single_end_expectation_outcome(found),
    );
    writer.write_text(b"one end")?;
    writer.write_blocks(known.as_slice())
}

/// Writes the object of that expectation.
///
/// # Errors
/// A write failed.
fn write_one_end_object<W: Write>(
    file: &[u8],
    found: &FoundEnds,
    writer: &mut Writer<'_, W>,
) -> WriteResult
    ensures { WritesExactly result (json_line (json_object (single_end_outcome_fields file.now found.now))) W.contents writer.old writer.new }
{
    let fields = single_end_outcome_fields(file, found);
    write_object(fields.as_slice(), writer)
}

/// The fields of that object.
fn single_end_outcome_fields<'a>(file: &'a [u8], found: &FoundEnds) -> RowFields<'a>
    ensures { map named_field_value result.items ≡ single_end_outcome_fields file.now found.now }
{
    let word = outcome_keyword(single_end_expectation_outcome(found));
    row_fields(&[
        Field::text(b"answer", b"same"),
        text_field(b"file", file),
        Field::text(b"outcome", word),
        Field::number(b"ends", found.count_ends() as u64),
    ])
}

/// Writes the expectations with what is known of them, and whether the program has one end, if `--same` asks for it.
///
/// # Errors
/// A write failed.
pub(crate) fn write_expectations_answer<W: Write>(
    request: CheckRequest<'_>,
    found: &FoundEnds,
    expectations: &[LineExpectation],
    outcomes: &[ExpectationOutcome],
    decisions: &[Option<EndDecision>],
    writer: &mut Writer<'_, W>,
) -> WriteResult
    ensures { WritesExactly result (expectations_answer request.entry found.now expectations.now outcomes.now decisions.now) W.contents writer.old writer.new }
{
    write_expectations(request, found, expectations, outcomes, decisions, writer)?;
    write_same(request, found, writer)
}

/// The verdict about expectations, and about one end, if `--same` asks for it.
pub(crate) fn expectations_verdict(
    request: CheckRequest<'_>,
    found: &FoundEnds,
    outcomes: &[ExpectationOutcome],
) -> Verdict
    ensures { result ≡ expectations_verdict request.entry found.now outcomes.now }
{
    verdict_with_single_end_outcome(request.same, found, outcomes_verdict(outcomes))
}

/// A verdict, and that about one end, if `--same` asks for it.
pub(crate) fn verdict_with_single_end_outcome(
    same: bool,
    found: &FoundEnds,
    verdict: Verdict,
) -> Verdict
    ensures { result ≡ verdict_with_single_end_outcome same found.now verdict }
{
    if same {
        verdict_with_outcome(single_end_expectation_outcome(found), verdict)
    } else {
        verdict
    }
}

/// The verdict about an expectation more.
fn verdict_with_outcome(outcome: ExpectationOutcome, verdict: Verdict) -> Verdict
    ensures { result ≡ verdict_with_outcome outcome verdict }
{
    match outcome {
        ExpectationOutcome::Holds => verdict,
        ExpectationOutcome::Broken(_) => Verdict::Unclean,
        ExpectationOutcome::Unknown => verdict_weakened_by_unknown(verdict),
    }
}

/// A verdict where something isn't known either.
fn verdict_weakened_by_unknown(verdict: Verdict) -> Verdict
    ensures { result ≡ verdict_weakened_by_unknown verdict }
{
    match verdict {
        Verdict::Clean => Verdict::Unknown,
        other => other,
    }
}
