//! The object of an expectation, and what is known of it.

ghost use Rattle.std.specs.Prelude.{◌≡◌, ◌≤◌, ◌++◌, codes, map};
ghost use Rattle.arrayvec.specs.ArrayVec.{array_vec_len};
ghost use Rattle.ga_text.specs.Output.{WritesExactly};
ghost use Rattle.ga_json.specs.Compact.{json_line};
ghost use Rattle.ga_json.specs.Fields.{named_field_value};
ghost use Rattle.ga_check_report.specs.JsonValues.{optional_text_json};
ghost use Rattle.ga_check_report.specs.ExpectationJson.{outcome_keyword, breach_keyword, outcome_breach_keyword, breach_session_number, outcome_session_number, observation_keyword, listed_sides, side_list_text, observation_detail_fields, breach_detail_fields, outcome_detail_fields, expectation_fields, expectation_object};

use crate::json_fields::{MAX_DETAILS, event_fields};
use crate::link_fault::{link_fault_fields, link_fault_keyword};
use crate::outcome::{Breach, ExpectationOutcome};
use arrayvec::ArrayVec;
use ga_explorer_text::sides_of;
use ga_json::{Field, RowFields, optional_number_field, row_fields, text_field, write_object};
use ga_ports::{PortSet, Side};
use ga_state_expectations::NodeObservation;
use ga_text::{WriteResult, Writer};
use std::io::Write;

/// The words that name what is known of an expectation.
pub(crate) fn outcome_keyword(outcome: ExpectationOutcome) -> &'static [u8]
    ensures { result.now ≡ outcome_keyword outcome }
{
    match outcome {
        ExpectationOutcome::Holds => b"holds",
        ExpectationOutcome::Broken(_) => b"broken",
        ExpectationOutcome::Unknown => b"unknown",
    }
}

/// What breaks an expectation, in a word.
fn breach_keyword(breach: Breach) -> &'static [u8]
    ensures { result.now ≡ breach_keyword breach }
{
    match breach {
        Breach::Unmet { observation, .. } => observation_keyword(observation),
        Breach::Reached(_) => b"event",
        Breach::OverLink { fault, .. } => link_fault_keyword(fault),
        Breach::Endless => b"endless",
        Breach::SeveralEnds(_) => b"ends",
    }
}

/// What a node holds or does, in a word.
pub fn observation_keyword(observation: NodeObservation) -> &'static [u8]
    ensures { result.now ≡ observation_keyword observation }
{
    match observation {
        NodeObservation::Is(_) => b"value",
        NodeObservation::Runs => b"runs",
        NodeObservation::AwaitsCode => b"awaits code",
        NodeObservation::Reads(_) => b"reads",
        NodeObservation::Writes(_) => b"writes",
        NodeObservation::Stopped(_) => b"stop",
    }
}

/// What breaks an expectation, in a word, if it is broken.
fn cause_field<'a>(outcome: ExpectationOutcome) -> Field<'a>
    ensures { named_field_value result ≡ (codes "because", optional_text_json (outcome_breach_keyword outcome)) }
{
    match outcome {
        ExpectationOutcome::Holds => Field::absent(b"because"),
        ExpectationOutcome::Broken(breach) => Field::text(b"because", breach_keyword(breach)),
        ExpectationOutcome::Unknown => Field::absent(b"because"),
    }
}

/// The number of the session that leads to what breaks the expectation of this number, if one does.
fn outcome_session_number(number: u64, outcome: ExpectationOutcome) -> Option<u64>
    ensures { result ≡ outcome_session_number number outcome }
{
    match outcome {
        ExpectationOutcome::Holds => None,
        ExpectationOutcome::Broken(breach) => breach_session_number(number, breach),
        ExpectationOutcome::Unknown => None,
    }
}

fn breach_session_number(number: u64, breach: Breach) -> Option<u64>
    ensures { result ≡ breach_session_number number breach }
{
    match breach {
        Breach::Unmet { .. } => Some(number),
        Breach::Reached(_) => Some(number),
        Breach::OverLink { .. } => Some(number),
        Breach::Endless => None,
        Breach::SeveralEnds(_) => None,
    }
}

/// Sides with a blank between two.
fn side_list_text(sides: PortSet) -> &'static [u8]
    ensures { result.now ≡ side_list_text sides }
{
    listed_sides(
        sides.has(Side::Right),
        sides.has(Side::Down),
        sides.has(Side::Left),
        sides.has(Side::Up),
    )
}

/// Those of the sides right, down, left and up that are meant.
fn listed_sides(right: bool, down: bool, left: bool, up: bool) -> &'static [u8]
    ensures { result.now ≡ listed_sides right down left up }
{
    match (right, down, left, up) {
        (false, false, false, false) => b"",
        (false, false, false, true) => b"up",
        (false, false, true, false) => b"left",
        (false, false, true, true) => b"left up",
        (false, true, false, false) => b"down",
        (false, true, false, true) => b"down up",
        (false, true, true, false) => b"down left",
        (false, true, true, true) => b"down left up",
        (true, false, false, false) => b"right",
        (true, false, false, true) => b"right up",
        (true, false, true, false) => b"right left",
        (true, false, true, true) => b"right left up",
        (true, true, false, false) => b"right down",
        (true, true, false, true) => b"right down up",
        (true, true, true, false) => b"right down left",
        (true, true, true, true) => b"right down left up",
    }
}

/// The fields of what breaks an expectation, if it is broken.
fn outcome_fields<'a>(outcome: ExpectationOutcome) -> RowFields<'a>
    ensures details { map named_field_value result.items ≡ outcome_detail_fields outcome }
    ensures few { array_vec_len result ≤ MAX_DETAILS }
{
    match outcome {
        ExpectationOutcome::Holds => ArrayVec::new(),
        ExpectationOutcome::Broken(breach) => breach_fields(breach),
        ExpectationOutcome::Unknown => ArrayVec::new(),
    }
}

fn breach_fields<'a>(breach: Breach) -> RowFields<'a>
    ensures details { map named_field_value result.items ≡ breach_detail_fields breach }
    ensures few { array_vec_len result ≤ MAX_DETAILS }
{
    match breach {
        Breach::Unmet { observation, .. } => observation_fields(observation),
        Breach::Reached(made) => event_fields(made),
        Breach::OverLink { place, fault } => link_fault_fields(place, fault),
        Breach::Endless => ArrayVec::new(),
        Breach::SeveralEnds(ends) => row_fields(&[Field::number(b"ends", ends as u64)]),
    }
}

/// What a node holds or does, or on which sides it waits.
pub fn observation_fields<'a>(observation: NodeObservation) -> RowFields<'a>
    ensures details { map named_field_value result.items ≡ observation_detail_fields observation }
    ensures few { array_vec_len result ≤ MAX_DETAILS }
{
    match observation {
        NodeObservation::Is(word) => row_fields(&[Field::word(b"value", word)]),
        NodeObservation::Runs => ArrayVec::new(),
        NodeObservation::AwaitsCode => ArrayVec::new(),
        NodeObservation::Reads(sides) => {
            row_fields(&[Field::text(b"sides", side_list_text(sides))])
        }
        NodeObservation::Writes(side) => {
            row_fields(&[Field::text(b"sides", side_list_text(sides_of(side)))])
        }
        NodeObservation::Stopped(stop) => row_fields(&[Field::number(b"stop", u64::from(stop))]),
    }
}

/// Writes the object of the expectation with this number, in this line with these words.
///
/// # Errors
/// A write failed.
pub(crate) fn write_expectation_object<'a, W: Write>(
    file: &'a [u8],
    number: usize,
    line: u32,
    words: &'a [u8],
    outcome: ExpectationOutcome,
    writer: &mut Writer<'_, W>,
) -> WriteResult
    ensures { WritesExactly result (json_line (expectation_object file.now number line words.now outcome)) W.contents writer.old writer.new }
{
    let fields = object_fields(file, number as u64, line, words, &outcome);
    write_object(fields.as_slice(), writer)
}

/// The fields of the object of an expectation.
fn object_fields<'a>(
    file: &'a [u8],
    number: u64,
    line: u32,
    words: &'a [u8],
    outcome: &ExpectationOutcome,
) -> RowFields<'a>
    ensures { map named_field_value result.items ≡ expectation_fields file.now number line words.now outcome.now ++ outcome_detail_fields outcome.now }
{
    let mut fields = expectation_fields(file, number, line, words, outcome);
    let details = outcome_fields(*outcome);
    let _fits = fields.try_extend_from_slice(details.as_slice());
    fields
}

/// The fields that the object of an expectation always has.
fn expectation_fields<'a>(
    file: &'a [u8],
    number: u64,
    line: u32,
    words: &'a [u8],
    outcome: &ExpectationOutcome,
) -> RowFields<'a>
    ensures front { map named_field_value result.items ≡ expectation_fields file.now number line words.now outcome.now }
    ensures few { array_vec_len result ≤ 8 }
{
    let word = outcome_keyword(*outcome);
    let cause = cause_field(*outcome);
    let session = outcome_session_number(number, *outcome);
    row_fields(&[
        Field::text(b"answer", b"expectation"),
        text_field(b"file", file),
        Field::number(b"number", number),
        Field::number(b"line", u64::from(line)),
        text_field(b"text", words),
        Field::text(b"outcome", word),
        cause,
        optional_number_field(b"session", session),
    ])
}
