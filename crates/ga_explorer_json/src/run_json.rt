//! The end of a run.

ghost use Rattle.std.specs.Prelude.{◌≡◌, ◌≤◌, ◌+◌, ◌++◌, map};
ghost use Rattle.arrayvec.specs.ArrayVec.{array_vec_len};
ghost use Rattle.ga_text.specs.Output.{WritesExactly};
ghost use Rattle.ga_json.specs.Compact.{json_line};
ghost use Rattle.ga_json.specs.Fields.{named_field_value, row_json};
ghost use Rattle.ga_scheduler.specs.declared.running.RunEnd.TheVariants.{Refused};
ghost use Rattle.ga_explorer_json.specs.Changes.{held_condition_fields, run_end_fields, run_json};

use crate::event::push_made_event;
use crate::refusal::{lab_fault_hint, lab_fault_keyword};
use crate::row::push_fields;
use ga_json::{Field, MAX_FIELDS, RowFields, row_fields, write_object};
use ga_lab::LabFault;
use ga_scheduler::{RunEnd, RunResult};
use ga_text::{WriteResult, Writer};
use std::io::Write;

/// Writes how many events a run made, and why no more.
///
/// # Errors
/// A write failed.
pub(crate) fn write_run_json<W: Write>(
    command: &[u8],
    ran: &RunResult,
    writer: &mut Writer<'_, W>,
) -> WriteResult
    ensures { WritesExactly result (json_line (run_json command.now ran.now.events ran.now.end)) W.contents writer.old writer.new }
{
    write_object(run_row(command, ran.events, ran.end).as_slice(), writer)
}

/// How many events a run made, and why no more.
fn run_row<'a>(command: &'a [u8], events: u64, end: RunEnd) -> RowFields<'a>
    ensures { row_json result.items ≡ run_json command.now events end }
{
    let mut row = row_fields(&[
        Field::text(b"command", command),
        Field::number(b"events", events),
    ]);
    push_run_end(&mut row, end);
    row
}

/// Adds why a run ended.
fn push_run_end(row: &mut RowFields<'_>, end: RunEnd)
    requires { array_vec_len row.old + 8 ≤ MAX_FIELDS }
    ensures { map named_field_value row.new.items ≡ map named_field_value row.old.items ++ run_end_fields end }
{
    match end {
        RunEnd::ConditionHeld { made, which } => {
            push_fields(row, &held_condition_fields(which));
            push_made_event(row, made);
        }
        RunEnd::MadeRequestedEvents => push_fields(row, &[Field::text(b"end", b"made")]),
        RunEnd::Quiet => push_fields(row, &[Field::text(b"end", b"quiet")]),
        RunEnd::Refused(why) => push_fields(row, &refused_fields(why)),
    }
}

/// The word and the hint of the refusal that ended a run.
fn refused_fields(why: LabFault) -> [Field<'static>; 2]
    ensures { map named_field_value result ≡ run_end_fields (Refused why) }
{
    [
        Field::text(b"end", lab_fault_keyword(why)),
        Field::text(b"hint", lab_fault_hint(why)),
    ]
}

/// Which condition held, from 1 on.
fn held_condition_fields(which: u8) -> [Field<'static>; 2]
    ensures { map named_field_value result ≡ held_condition_fields which }
{
    [
        Field::text(b"end", b"reached"),
        Field::number(b"condition", u64::from(which) + 1),
    ]
}
