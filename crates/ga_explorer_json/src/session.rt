//! A whole session of exploring with JSON objects.

ghost use Rattle.std.specs.Prelude.{◌≡◌, ◌-◌, ◌++◌, Some};
ghost use Rattle.ga_text.specs.Lines.{Bytes};
ghost use Rattle.ga_text.specs.Input.{IsWithinInputLimit, input_limit};
ghost use Rattle.ga_text.specs.Output.{IsSameStream, IsTextWrittenOrPending, ReadsAndWrites, WritesExactly};
ghost use Rattle.ga_json.specs.Compact.{json_line};
ghost use Rattle.ga_json.specs.Fields.{row_json};
ghost use Rattle.ga_console.specs.Session.{ServesCommandsWithLimitRefusal, IsWholeOrPrefixOnWriteError};
ghost use Rattle.ga_explorer.specs.Opening.{optional_image_text, explorer_state};
ghost use Rattle.ga_explorer_json.specs.Session.{session_ready_json, long_input_refusal_line, AnswersJsonAndContinues, AnswersJsonAndEndsSession, RunsJsonExplorer};

use crate::responder::JsonExplorer;
use ga_check_report::open_lab_with_json_refusals;
use ga_console::{CommandsEnd, Status, serve_commands_with_limit_refusal};
use ga_explorer::report_session_end_status;
use ga_json::{Field, write_object};
use ga_text::{InputBuffer, WriteError, WriteResult, Writer};
use std::alloc::Global;
use std::io::{Read, Write};

/// Reads an image or source and then commands, as `ga_explorer::explore` does, and answers each line with a JSON object on a line. No prompt
/// is written. Objects of a refused program have the name of its `file`.
pub fn explore_json<R: Read, W: Write, E: Write>(
    alloc: Global,
    reader: &mut R,
    writer: &mut W,
    errors: &mut E,
    file: &[u8],
    chip: Option<Vec<u8>>,
    limit: u32,
    is_strict: bool,
) -> Status
    // Where the streams show their bytes: what was read, and what was written for it by the status.
    ensures { ReadsAndWrites (λ read rest text. RunsJsonExplorer is_strict file.now (optional_image_text chip) limit read rest text result)
        (R.remaining reader.old) (R.remaining reader.new) (W.contents writer.old) (W.contents writer.new) }
{
    let mut input = InputBuffer::new();
    match open_lab_with_json_refusals(
        alloc, &mut input, reader, writer, errors, file, chip, limit,
    ) {
        Ok(begun) => {
            let mut said = Writer::new(writer);
            let mut session = JsonExplorer::new(begun, is_strict);
            let ending = serve_objects(alloc, &mut input, reader, &mut said, &mut session);
            report_session_end_status(errors, ending, is_strict, &session.refusal)
        }
        Err(status) => status,
    }
}

/// Writes that the session begins, and answers the command lines one by one, until the input ends or a strict session has a command refused.
///
/// # Errors
/// A write failed.
fn serve_objects<R: Read, W: Write>(
    alloc: Global,
    input: &mut InputBuffer,
    reader: &mut R,
    writer: &mut Writer<'_, W>,
    session: &mut JsonExplorer,
) -> Result<CommandsEnd, WriteError>
    requires { IsWithinInputLimit input.old }
    ensures same { IsSameStream writer.old writer.new }
    ensures serves { (left before said : Bytes) → R.remaining reader.old ≡ Some left →
        IsTextWrittenOrPending (W.contents writer.old.stream.now) before said writer.old.pending.items →
        (read rest text sent : Bytes)
        × (input.old.bytes ++ left ≡ read ++ rest) × (R.remaining reader.new ≡ Some rest)
        × (W.contents writer.new.stream.now ≡ Some (before ++ sent))
        × ServesCommandsWithLimitRefusal long_input_refusal_line (AnswersJsonAndContinues session.old.is_strict) (AnswersJsonAndEndsSession session.old.is_strict)
        (input_limit - input.old.taken) (explorer_state session.old.lab session.old.notes) read rest text (explorer_state session.new.lab session.new.notes) result
        × IsWholeOrPrefixOnWriteError result (said ++ (json_line session_ready_json ++ text)) sent }
{
    write_ready(writer)?;
    serve_commands_with_limit_refusal(limit_refusal(), alloc, input, reader, writer, session)
}

/// Writes that the session begins.
///
/// # Errors
/// A write failed.
fn write_ready<W: Write>(writer: &mut Writer<'_, W>) -> WriteResult
    ensures { WritesExactly result (json_line session_ready_json) W.contents writer.old writer.new }
{
    write_object(&ready_fields(), writer)
}

/// What begins a session.
fn ready_fields() -> [Field<'static>; 1]
    ensures { row_json result ≡ session_ready_json }
{
    [Field::text(b"answer", b"ready")]
}

/// The object for an input past its bound.
fn limit_refusal() -> &'static [u8]
    ensures { result.now ≡ long_input_refusal_line }
{
    b"{\"command\":null,\"refused\":33,\"why\":\"input\"}\n"
}
