//! The objects of the ends of a program.

ghost use Rattle.std.specs.Prelude.{◌≡◌, ◌++◌, true, false, codes, map};
ghost use Rattle.ga_text.specs.Output.{WritesExactly};
ghost use Rattle.ga_json.specs.Compact.{json_line};
ghost use Rattle.ga_json.specs.Fields.{named_field_value, json_object};
ghost use Rattle.ga_check_report.specs.JsonValues.{optional_text_json};
ghost use Rattle.ga_check_report.specs.EventJson.{event_detail_fields};
ghost use Rattle.ga_check_report.specs.EndJson.{end_kind_fields, end_kind_object, decision_json_fields, decision_json_object, decision_json_objects_text, end_kind_and_decision_objects, end_kinds_objects, endless_path_place_keyword, known_endless_path_place_keyword, ends_head_fields, ends_json};

use crate::ends_text::is_fully_explored;
use crate::json_fields::{event_fields, search_result_fields};
use crate::node_rows::NodeRows;
use ga_event::MadeEvent;
use ga_json::{Field, RowFields, row_fields, text_field, write_object, write_report};
use ga_state_ends::{EndDecision, EndKind, FoundEnds};
use ga_text::{WriteResult, Writer};
use std::io::Write;

/// Writes the object of the search, and then those of each kind of end.
///
/// # Errors
/// A write failed.
pub(crate) fn write_ends_json<W: Write>(
    file: &[u8],
    found: &FoundEnds,
    writer: &mut Writer<'_, W>,
) -> WriteResult
    ensures { WritesExactly result (ends_json file.now found.now) W.contents writer.old writer.new }
{
    write_ends_head(file, found, writer)?;
    write_kinds_objects(file, found.kinds(), found, writer)
}

/// Writes the object of the search.
///
/// # Errors
/// A write failed.
fn write_ends_head<W: Write>(
    file: &[u8],
    found: &FoundEnds,
    writer: &mut Writer<'_, W>,
) -> WriteResult
    ensures { WritesExactly result (json_line (json_object (ends_head_fields file.now found.now))) W.contents writer.old writer.new }
{
    let fields = ends_head_fields(file, found);
    write_object(fields.as_slice(), writer)
}

/// The fields of that object.
fn ends_head_fields<'a>(file: &'a [u8], found: &FoundEnds) -> RowFields<'a>
    ensures { map named_field_value result.items ≡ ends_head_fields file.now found.now }
{
    let mut fields = search_result_fields(b"ends", file, found);
    let endless = endless_field(found);
    let _fits = fields.try_extend_from_slice(&[
        Field::number(b"kinds", found.kinds().len() as u64),
        endless,
    ]);
    fields
}

/// Whether some order never ends, if it is known.
fn endless_field<'a>(found: &FoundEnds) -> Field<'a>
    ensures { named_field_value result ≡ (codes "endless", optional_text_json (known_endless_path_place_keyword found.now.fault found.now.has_cycle_before found.now.has_cycle)) }
{
    if is_fully_explored(found) {
        Field::text(
            b"endless",
            endless_path_place_keyword(found.has_endless_path_before_end(), !found.always_ends()),
        )
    } else {
        Field::absent(b"endless")
    }
}

/// Whether some order never ends, in a word.
fn endless_path_place_keyword(before: bool, cycle: bool) -> &'static [u8]
    ensures { result.now ≡ endless_path_place_keyword before cycle }
{
    if before {
        b"before"
    } else if cycle {
        b"at an end"
    } else {
        b"none"
    }
}

/// Writes the objects of these kinds of end, numbered from 1 on, and of what decides of each, as was found.
///
/// # Errors
/// A write failed.
fn write_kinds_objects<W: Write>(
    file: &[u8],
    kinds: &[EndKind],
    found: &FoundEnds,
    writer: &mut Writer<'_, W>,
) -> WriteResult
    ensures { WritesExactly result (end_kinds_objects file.now found.now.decisions 0 kinds.now) W.contents writer.old writer.new }
{
    'kinds: for place in 0..kinds.len() {
        write_kind_objects(
            file,
            place as u64 + 1,
            &kinds[place],
            found.decision(place),
            writer,
        )?;
    }
    Ok(())
}

/// Writes the object of a kind of end, which has this number, and those of what decides that it isn't clean.
///
/// # Errors
/// A write failed.
fn write_kind_objects<W: Write>(
    file: &[u8],
    number: u64,
    kind: &EndKind,
    decision: Option<EndDecision>,
    writer: &mut Writer<'_, W>,
) -> WriteResult
    ensures { WritesExactly result (end_kind_and_decision_objects file.now number kind.now decision) W.contents writer.old writer.new }
{
    write_end_object(file, number, kind, writer)?;
    write_decision_objects(file, number, decision, writer)
}

/// Writes the object of a kind of end, which has this number.
///
/// # Errors
/// A write failed.
fn write_end_object<W: Write>(
    file: &[u8],
    number: u64,
    kind: &EndKind,
    writer: &mut Writer<'_, W>,
) -> WriteResult
    ensures { WritesExactly result (json_line (end_kind_object file.now number kind.now)) W.contents writer.old writer.new }
{
    let fields = end_kind_fields(file, number, kind);
    let mut rows = NodeRows::new(kind);
    write_report(fields.as_slice(), &mut rows, writer)
}

/// The fields of that object before its rows.
fn end_kind_fields<'a>(file: &'a [u8], number: u64, kind: &EndKind) -> RowFields<'a>
    ensures { map named_field_value result.items ≡ end_kind_fields file.now number kind.now }
{
    let clean = !kind.is_unclean();
    row_fields(&[
        Field::text(b"answer", b"end"),
        text_field(b"file", file),
        Field::number(b"number", number),
        Field::flag(b"clean", clean),
        Field::number(b"ways", u64::from(kind.ends)),
    ])
}

/// Writes the objects of what decides, if something does: the event that is taken, and the other.
///
/// # Errors
/// A write failed.
pub(crate) fn write_decision_objects<W: Write>(
    file: &[u8],
    number: u64,
    decision: Option<EndDecision>,
    writer: &mut Writer<'_, W>,
) -> WriteResult
    ensures { WritesExactly result (decision_json_objects_text file.now number decision) W.contents writer.old writer.new }
{
    match decision {
        Some(both) => write_both_events(file, number, both.0, both.1, writer),
        None => Ok(()),
    }
}

/// Writes the object of the event that is taken, and that of the other.
///
/// # Errors
/// A write failed.
fn write_both_events<W: Write>(
    file: &[u8],
    number: u64,
    taken: MadeEvent,
    other: MadeEvent,
    writer: &mut Writer<'_, W>,
) -> WriteResult
    ensures { WritesExactly result (json_line (decision_json_object file.now number true taken) ++ json_line (decision_json_object file.now number false other))
        W.contents writer.old writer.new }
{
    write_decision_object(file, number, true, taken, writer)?;
    write_decision_object(file, number, false, other, writer)
}

/// Writes the object of an event of what decides.
///
/// # Errors
/// A write failed.
fn write_decision_object<W: Write>(
    file: &[u8],
    number: u64,
    is_taken: bool,
    made: MadeEvent,
    writer: &mut Writer<'_, W>,
) -> WriteResult
    ensures { WritesExactly result (json_line (decision_json_object file.now number is_taken made)) W.contents writer.old writer.new }
{
    let fields = decision_json_fields(file, number, is_taken, made);
    write_object(fields.as_slice(), writer)
}

/// The fields of that object.
fn decision_json_fields<'a>(
    file: &'a [u8],
    number: u64,
    is_taken: bool,
    made: MadeEvent,
) -> RowFields<'a>
    ensures { map named_field_value result.items ≡ decision_json_fields file.now number is_taken ++ event_detail_fields made }
{
    let mut fields = row_fields(&[
        Field::text(b"answer", b"decision"),
        text_field(b"file", file),
        Field::number(b"number", number),
        Field::flag(b"taken", is_taken),
    ]);
    let details = event_fields(made);
    let _fits = fields.try_extend_from_slice(details.as_slice());
    fields
}
