//! The commands that change the machine.

ghost use Rattle.std.specs.Prelude.{◌≡◌, codes, length};
ghost use Rattle.ga_event.specs.Told.{count_steps};
ghost use Rattle.ga_lab.specs.Machine.{undo_answer, rewind_answer, state_after_undo, state_after_rewind};
ghost use Rattle.ga_text.specs.Output.{WritesSomeText, WritesExactly};
ghost use Rattle.ga_json.specs.Compact.{json_line};
ghost use Rattle.ga_json.specs.Fields.{row_json};
ghost use Rattle.ga_explorer_json.specs.Rows.{IsJsonLine};
ghost use Rattle.ga_explorer_json.specs.Changes.{step_answer_json, IsStepJson, removal_counts_json, undo_json, rewind_json, expecting_refusal_json, change_result_json};

use crate::bytes::hint_of_refusal;
use crate::event::push_made_event;
use crate::part::optional_number;
use crate::refusal::{write_lab_refusal, write_refusal, write_step_refusal};
use crate::run_json::write_run_json;
use ga_event::MadeEvent;
use ga_explorer::{ChangeResult, ExpectingRefusal, expecting_refusal_text};
use ga_grid::NodeId;
use ga_json::{Field, RowFields, row_fields, write_object};
use ga_lab::{Lab, LabFault};
use ga_text::{WriteResult, Writer};
use std::io::Write;

/// `step NNN`: makes the node's next event, and writes it.
///
/// # Errors
/// A write failed.
pub fn write_step_json<W: Write>(
    lab: &mut Lab,
    node: NodeId,
    writer: &mut Writer<'_, W>,
) -> WriteResult
    ensures { WritesSomeText result (IsJsonLine (IsStepJson lab.old node lab.new)) W.contents writer.old writer.new }
{
    match lab.step(node) {
        Ok(made) => write_object(step_row(made).as_slice(), writer),
        Err(fault) => write_lab_refusal(b"step", fault, writer),
    }
}

/// `back`: undoes the newest event, and writes how many events are kept.
///
/// # Errors
/// A write failed.
pub fn write_undo_json<W: Write>(lab: &mut Lab, writer: &mut Writer<'_, W>) -> WriteResult
    ensures said { WritesExactly result (json_line (undo_json (undo_answer lab.old) (length lab.new.kept))) W.contents writer.old writer.new }
    ensures state { lab.new ≡ state_after_undo lab.old }
{
    match lab.undo() {
        Ok(()) => write_removed_events(b"back", Some(1), lab.counts().kept, writer),
        Err(fault) => write_lab_refusal(b"back", fault, writer),
    }
}

/// `rewind NNN K`: removes a step of the node with all that depends on it, and writes how many events were removed.
///
/// # Errors
/// A write failed.
pub fn write_rewind_json<W: Write>(
    lab: &mut Lab,
    node: NodeId,
    step: u32,
    writer: &mut Writer<'_, W>,
) -> WriteResult
    ensures said { WritesExactly result (json_line (rewind_json node (count_steps node.number lab.old.kept) (rewind_answer lab.old node.number step) (length lab.new.kept))) W.contents writer.old writer.new }
    ensures state { lab.new ≡ state_after_rewind lab.old node.number step }
{
    match lab.rewind(node, step) {
        Ok(removed) => {
            write_removed_events(
                b"rewind",
                Some(u64::from(removed)),
                lab.counts().kept,
                writer,
            )
        }
        Err(fault) => write_step_refusal(b"rewind", fault, node, lab.steps(node), writer),
    }
}

/// A change of exploring: writes what it came to.
///
/// # Errors
/// A write failed.
pub(crate) fn write_change_result_json<W: Write>(
    command: &[u8],
    came: ChangeResult,
    writer: &mut Writer<'_, W>,
) -> WriteResult
    ensures { WritesExactly result (json_line (change_result_json command.now came)) W.contents writer.old writer.new }
{
    match came {
        ChangeResult::RunEnded { ran, conditions: _ } => write_run_json(command, &ran, writer),
        ChangeResult::EventsRemoved { removed, kept } => match removed {
            Some(removed) => {
                write_removed_events(command, Some(u64::from(removed)), kept, writer)
            }
            None => write_removed_events(command, None, kept, writer),
        },
        ChangeResult::Refused(why) => write_expecting_refusal(command, why, writer),
    }
}

/// Writes why a change with `broken` among its conditions did nothing.
fn write_expecting_refusal<W: Write>(
    command: &[u8],
    why: ExpectingRefusal,
    writer: &mut Writer<'_, W>,
) -> WriteResult
    ensures { WritesExactly result (json_line (expecting_refusal_json command.now why)) W.contents writer.old writer.new }
{
    match why {
        ExpectingRefusal::NothingExpected => {
            let hint = hint_of_refusal(expecting_refusal_text(why));
            write_refusal(command, 35, b"noexpect", hint, writer)
        }
        ExpectingRefusal::Memory => write_lab_refusal(command, LabFault::Memory, writer),
    }
}

/// An event that was made by `step`.
fn step_row(made: MadeEvent) -> RowFields<'static>
    ensures { row_json result.items ≡ step_answer_json (Ok made) }
{
    let mut row = row_fields(&[Field::text(b"command", b"step")]);
    push_made_event(&mut row, made);
    row
}

/// Writes how many events a command removed, if some, and how many are kept.
fn write_removed_events<W: Write>(
    command: &[u8],
    removed: Option<u64>,
    kept: u32,
    writer: &mut Writer<'_, W>,
) -> WriteResult
    ensures { WritesExactly result (json_line (removal_counts_json command.now removed kept)) W.contents writer.old writer.new }
{
    write_object(&removed_fields(command, removed, kept), writer)
}

/// How many events a command removed, if some, and how many are kept.
fn removed_fields<'a>(command: &'a [u8], removed: Option<u64>, kept: u32) -> [Field<'a>; 3]
    ensures { row_json result ≡ removal_counts_json command.now removed kept }
{
    [
        Field::text(b"command", command),
        optional_number(b"removed", removed),
        Field::number(b"kept", u64::from(kept)),
    ]
}
