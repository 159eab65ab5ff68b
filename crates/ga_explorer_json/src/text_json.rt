//! Answers that are texts, and refused lines that spell no command.

ghost use Rattle.std.specs.Prelude.{◌≡◌, ◌++◌, [], Some};
ghost use Rattle.ga_text.specs.Output.{WritesExactly};
ghost use Rattle.ga_json.specs.Compact.{json_line};
ghost use Rattle.ga_json.specs.Fields.{row_json};
ghost use Rattle.ga_explorer.specs.Commands.{text_query_name, text_query_text};
ghost use Rattle.ga_explorer_json.specs.Texts.{text_answer_json, line_refusal_json, long_line_refusal_json, syntax_refusal_of_line, syntax_refusal_json};

use crate::bytes::hint_of_refusal;
use ga_display::RefusalWording;
use ga_explorer::{TextQuery, command_suggestion};
use ga_json::{Field, text_field, write_object};
use ga_lab::Lab;
use ga_text::{WriteResult, Writer};
use std::alloc::Global;
use std::io::Write;

/// Writes the text of a query, after its name. Takes memory for a long text.
///
/// # Errors
/// A write failed, or there was no memory for the text.
pub(crate) fn write_query_text<W: Write>(
    alloc: Global,
    lab: &Lab,
    query: TextQuery,
    writer: &mut Writer<'_, W>,
) -> WriteResult
    ensures { WritesExactly result (json_line (text_answer_json (text_query_name query) (text_query_text lab.now query))) W.contents writer.old writer.new }
{
    let mut long = Vec::new(alloc);
    let mut held = Writer::new(&mut long);
    query.write_text(lab, &mut held)?;
    held.flush()?;
    write_text_answer(query.name(), held.stream.as_slice(), writer)
}

/// Writes an answer that is a text, after the name of the command.
///
/// # Errors
/// A write failed.
pub(crate) fn write_text_answer<W: Write>(
    command: &[u8],
    text: &[u8],
    writer: &mut Writer<'_, W>,
) -> WriteResult
    ensures { WritesExactly result (json_line (text_answer_json command.now text.now)) W.contents writer.old writer.new }
{
    write_object(&text_answer_fields(command, text), writer)
}

/// The name of a command, and the text of its answer.
fn text_answer_fields<'a>(command: &'a [u8], text: &'a [u8]) -> [Field<'a>; 2]
    ensures { row_json result ≡ text_answer_json command.now text.now }
{
    [text_field(b"command", command), text_field(b"text", text)]
}

/// Writes the number, the word and the hint of the refusal of a line that spells no command.
///
/// # Errors
/// A write failed.
fn write_line_refusal<W: Write>(
    code: u64,
    why: &[u8],
    hint: &[u8],
    writer: &mut Writer<'_, W>,
) -> WriteResult
    ensures { WritesExactly result (json_line (line_refusal_json code why.now hint.now)) W.contents writer.old writer.new }
{
    write_object(&line_refusal_fields(code, why, hint), writer)
}

/// No command, and the number, the word and the hint of a refusal.
fn line_refusal_fields<'a>(code: u64, why: &'a [u8], hint: &'a [u8]) -> [Field<'a>; 4]
    ensures { row_json result ≡ line_refusal_json code why.now hint.now }
{
    [
        Field::absent(b"command"),
        Field::number(b"refused", code),
        Field::text(b"why", why),
        Field::text(b"hint", hint),
    ]
}

/// Writes that a line has more than 200 bytes.
///
/// # Errors
/// A write failed.
pub(crate) fn write_long_line_json<W: Write>(writer: &mut Writer<'_, W>) -> WriteResult
    ensures { WritesExactly result (json_line long_line_refusal_json) W.contents writer.old writer.new }
{
    write_line_refusal(
        32,
        b"long",
        hint_of_refusal(RefusalWording::Advised.long_line_refusal()),
        writer,
    )
}

/// Writes that a line spells no command, and what to write in its place.
///
/// # Errors
/// A write failed.
pub(crate) fn write_syntax_json<W: Write>(line: &[u8], writer: &mut Writer<'_, W>) -> WriteResult
    ensures { WritesExactly result (json_line (syntax_refusal_of_line line.now)) W.contents writer.old writer.new }
{
    write_syntax_refusal(command_suggestion(line), writer)
}

/// Writes that a line spells no command, and what is the case or what to write in its place.
///
/// # Errors
/// A write failed.
pub(crate) fn write_syntax_refusal<W: Write>(
    hint: &'static [u8],
    writer: &mut Writer<'_, W>,
) -> WriteResult
    ensures { WritesExactly result (json_line (syntax_refusal_json hint.now)) W.contents writer.old writer.new }
{
    write_line_refusal(31, b"syntax", hint, writer)
}
