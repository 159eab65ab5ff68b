//! The objects about an event after which a condition holds.

ghost use Rattle.std.specs.Prelude.{◌≡◌, ◌+◌, ◌++◌, codes, map};
ghost use Rattle.ga_text.specs.Output.{WritesExactly};
ghost use Rattle.ga_json.specs.Values.{string};
ghost use Rattle.ga_json.specs.Fields.{named_field_value};
ghost use Rattle.ga_check_report.specs.EventJson.{event_detail_fields};
ghost use Rattle.ga_check_report.specs.NeverJson.{unreached_event_outcome_keyword, unreached_event_fields, unreached_event_json, reached_event_fields, reached_event_json};

use crate::ends_text::is_fully_explored;
use crate::json_fields::{event_fields, search_result_fields};
use ga_json::{Field, RowFields, row_fields, text_field, write_object};
use ga_lab::MadeEvent;
use ga_state_ends::FoundEnds;
use ga_text::{WriteResult, Writer};
use std::io::Write;

/// Writes that no such event was found.
///
/// # Errors
/// A write failed.
pub(crate) fn write_unreached_json<W: Write>(
    file: &[u8],
    found: &FoundEnds,
    writer: &mut Writer<'_, W>,
) -> WriteResult
    ensures { WritesExactly result (unreached_event_json file.now found.now) W.contents writer.old writer.new }
{
    let fields = unreached_event_fields(file, found);
    write_object(fields.as_slice(), writer)
}

/// The fields of that object.
fn unreached_event_fields<'a>(file: &'a [u8], found: &FoundEnds) -> RowFields<'a>
    ensures { map named_field_value result.items ≡ unreached_event_fields file.now found.now }
{
    let mut fields = search_result_fields(b"never", file, found);
    let outcome = unreached_field(found);
    let _fits = fields.try_extend_from_slice(&[outcome]);
    fields
}

/// What is known where no such event was found.
fn unreached_field<'a>(found: &FoundEnds) -> Field<'a>
    ensures { named_field_value result ≡ (codes "outcome", string (unreached_event_outcome_keyword found.now)) }
{
    if is_fully_explored(found) {
        Field::text(b"outcome", b"holds")
    } else {
        Field::text(b"outcome", b"unknown")
    }
}

/// Writes the event after which the condition at this place holds, and the number of events.
///
/// # Errors
/// A write failed.
pub(crate) fn write_reached_json<W: Write>(
    file: &[u8],
    events: u32,
    which: u8,
    made: MadeEvent,
    writer: &mut Writer<'_, W>,
) -> WriteResult
    ensures { WritesExactly result (reached_event_json file.now events which made) W.contents writer.old writer.new }
{
    let fields = reached_event_fields(file, events, which, made);
    write_object(fields.as_slice(), writer)
}

/// The fields of that object.
fn reached_event_fields<'a>(
    file: &'a [u8],
    events: u32,
    which: u8,
    made: MadeEvent,
) -> RowFields<'a>
    ensures { map named_field_value result.items ≡ reached_event_fields file.now events (which + 1) ++ event_detail_fields made }
{
    let mut fields = row_fields(&[
        Field::text(b"answer", b"never"),
        text_field(b"file", file),
        Field::text(b"outcome", b"broken"),
        Field::number(b"condition", u64::from(which) + 1),
        Field::number(b"events", u64::from(events)),
    ]);
    let details = event_fields(made);
    let _fits = fields.try_extend_from_slice(details.as_slice());
    fields
}
