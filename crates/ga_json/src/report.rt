//! Writes an answer as one JSON object on a line.

ghost use Rattle.std.specs.Prelude.{◌≡◌, ◌++◌, false};
ghost use Rattle.ga_text.specs.Output.{WritesExactly};
ghost use Rattle.ga_json.specs.Compact.{json_line};
ghost use Rattle.ga_json.specs.Fields.{row_json, report_json};
ghost use Rattle.ga_json.specs.inner.{json_fields_text, text_before_rows, text_before_row};

use crate::cursor::RowCursor;
use crate::field::Field;
use crate::fields::write_fields;
use ga_text::{WriteResult, Writer};
use std::io::Write;

/// Writes an object of these fields and a line feed. Takes no memory.
///
/// # Errors
/// A write failed.
pub fn write_object<W: Write>(fields: &[Field<'_>], writer: &mut Writer<'_, W>) -> WriteResult
    ensures { WritesExactly result (json_line (row_json fields.now)) W.contents writer.old writer.new }
{
    write_between(b"{", fields, b"}\n", writer)
}

/// Writes an object of the fields of a head and an array of rows, and a line feed. Takes no memory.
///
/// # Errors
/// A write failed.
pub fn write_report<'a, R: RowCursor<'a>, W: Write>(
    head: &[Field<'_>],
    rows: &mut R,
    writer: &mut Writer<'_, W>,
) -> WriteResult
    ensures { WritesExactly result (json_line (report_json head.now (R.left rows.old))) W.contents writer.old writer.new }
{
    write_between(b"{", head, text_before_rows(head), writer)?;
    let mut later = false;
    'rows: while let Some(row) = rows.next() {
        write_between(text_before_row(later), row.as_slice(), b"}", writer)?;
        later = true;
    }
    writer.write_text(b"]}\n")
}

/// What begins the array of rows, after the fields of a head.
fn text_before_rows(head: &[Field<'_>]) -> &'static [u8]
    ensures { result.now ≡ text_before_rows head.now }
{
    if head.is_empty() {
        b"\"rows\":["
    } else {
        b",\"rows\":["
    }
}

/// What begins a row.
fn text_before_row(later: bool) -> &'static [u8]
    ensures { result.now ≡ text_before_row later }
{
    if later { b",{" } else { b"{" }
}

/// Writes fields, with a text before them and one after them.
fn write_between<W: Write>(
    before: &[u8],
    fields: &[Field<'_>],
    after: &[u8],
    writer: &mut Writer<'_, W>,
) -> WriteResult
    ensures { WritesExactly result (before.now ++ (json_fields_text false fields.now ++ after.now)) W.contents writer.old writer.new }
{
    writer.write_blocks(before)?;
    write_fields(fields, writer)?;
    writer.write_blocks(after)
}
