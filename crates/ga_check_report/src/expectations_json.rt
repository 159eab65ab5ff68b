//! The objects of the expectations of a program.

ghost use Rattle.std.specs.Prelude.{◌≡◌, map};
ghost use Rattle.ga_text.specs.Output.{WritesExactly};
ghost use Rattle.ga_json.specs.Compact.{json_line};
ghost use Rattle.ga_json.specs.Fields.{named_field_value, json_object};
ghost use Rattle.ga_check_report.specs.ExpectationJson.{expectation_object, expectation_objects, expectations_head_fields, expectations_json};

use crate::breach_decisions::{decision_at, write_decided_objects};
use crate::expectation_json::write_expectation_object;
use crate::expected::outcome_at;
use crate::json_fields::search_result_fields;
use crate::outcome::ExpectationOutcome;
use ga_json::{Field, RowFields, write_object};
use ga_state_ends::{EndDecision, FoundEnds};
use ga_state_expectations::LineExpectation;
use ga_text::{WriteResult, Writer};
use std::io::Write;

/// Writes the object of the search, and then those of each expectation.
///
/// # Errors
/// A write failed.
pub(crate) fn write_expectations_json<W: Write>(
    file: &[u8],
    found: &FoundEnds,
    expectations: &[LineExpectation],
    outcomes: &[ExpectationOutcome],
    decisions: &[Option<EndDecision>],
    writer: &mut Writer<'_, W>,
) -> WriteResult
    ensures { WritesExactly result (expectations_json file.now found.now expectations.now outcomes.now decisions.now) W.contents writer.old writer.new }
{
    write_expectations_head(file, found, expectations.len(), writer)?;
    write_objects(file, expectations, outcomes, decisions, writer)
}

/// Writes the object of the search.
///
/// # Errors
/// A write failed.
fn write_expectations_head<W: Write>(
    file: &[u8],
    found: &FoundEnds,
    count: usize,
    writer: &mut Writer<'_, W>,
) -> WriteResult
    ensures { WritesExactly result (json_line (json_object (expectations_head_fields file.now found.now count))) W.contents writer.old writer.new }
{
    let fields = expectations_head_fields(file, found, count as u64);
    write_object(fields.as_slice(), writer)
}

/// The fields of that object.
fn expectations_head_fields<'a>(file: &'a [u8], found: &FoundEnds, count: u64) -> RowFields<'a>
    ensures { map named_field_value result.items ≡ expectations_head_fields file.now found.now count }
{
    let mut fields = search_result_fields(b"expectations", file, found);
    let _fits = fields.try_extend_from_slice(&[Field::number(b"expectations", count)]);
    fields
}

/// Writes the objects of each expectation, and of what decides that it is broken.
///
/// # Errors
/// A write failed.
fn write_objects<W: Write>(
    file: &[u8],
    expectations: &[LineExpectation],
    outcomes: &[ExpectationOutcome],
    decisions: &[Option<EndDecision>],
    writer: &mut Writer<'_, W>,
) -> WriteResult
    ensures { WritesExactly result (expectation_objects file.now outcomes.now decisions.now 0 expectations.now) W.contents writer.old writer.new }
{
    'expectations: for place in 0..expectations.len() {
        let outcome = outcome_at(outcomes, place);
        let decision = decision_at(decisions, place);
        write_decided_objects(
            file,
            place + 1,
            &expectations[place],
            outcome,
            decision,
            writer,
        )?;
    }
    Ok(())
}

/// Writes the object of the expectation with this number.
///
/// # Errors
/// A write failed.
pub(crate) fn write_one<W: Write>(
    file: &[u8],
    number: usize,
    one: &LineExpectation,
    outcome: ExpectationOutcome,
    writer: &mut Writer<'_, W>,
) -> WriteResult
    ensures { WritesExactly result (json_line (expectation_object file.now number one.now.line one.now.text.items outcome)) W.contents writer.old writer.new }
{
    write_expectation_object(file, number, one.line, one.text.as_slice(), outcome, writer)
}
