//! Writes a string, with its escapes (RFC 8259, section 7).

ghost use Rattle.std.specs.Prelude.{◌≡◌, ◌≤◌, ◌<◌, ◌+◌, ◌++◌};
ghost use Rattle.arrayvec.specs.ArrayVec.{array_vec_len};
ghost use Rattle.ga_text.specs.Output.{WritesExactly};
ghost use Rattle.ga_json.specs.Compact.{control_character_text, escaped_byte_text, escaped_text, quoted_text};

use arrayvec::ArrayVec;
use ga_text::{WriteResult, Writer, push_hex_byte, push_text};
use std::io::Write;

/// The most bytes of an escaped byte, as in `\u0000`.
const ESCAPE_ROOM: usize = 6;

/// Writes a text between quotation marks.
///
/// # Errors
/// A write failed.
pub fn write_json_string<W: Write>(text: &[u8], writer: &mut Writer<'_, W>) -> WriteResult
    ensures { WritesExactly result (quoted_text text.now) W.contents writer.old writer.new }
{
    writer.write_text(b"\"")?;
    write_escaped(text, writer)?;
    writer.write_text(b"\"")
}

/// Writes a text in two parts between quotation marks.
///
/// # Errors
/// A write failed.
pub fn write_joined_string<W: Write>(
    front: &[u8],
    rest: &[u8],
    writer: &mut Writer<'_, W>,
) -> WriteResult
    ensures { WritesExactly result (quoted_text (front.now ++ rest.now)) W.contents writer.old writer.new }
{
    writer.write_text(b"\"")?;
    write_escaped(front, writer)?;
    write_escaped(rest, writer)?;
    writer.write_text(b"\"")
}

/// Writes a text with escapes.
fn write_escaped<W: Write>(text: &[u8], writer: &mut Writer<'_, W>) -> WriteResult
    ensures { WritesExactly result (escaped_text text.now) W.contents writer.old writer.new }
{
    'bytes: for byte in text {
        writer.make_room(ESCAPE_ROOM)?;
        push_escaped(&mut writer.pending, *byte);
    }
    Ok(())
}

/// Adds a byte of a text, escaped if it is a quotation mark, a reverse solidus or a control character.
fn push_escaped<const ROOM: usize>(out: &mut ArrayVec<u8, ROOM>, byte: u8)
    requires { array_vec_len out.old + ESCAPE_ROOM ≤ ROOM }
    ensures { out.new.items ≡ out.old.items ++ escaped_byte_text byte }
{
    match byte {
        b'"' => push_text(out, b"\\\""),
        b'\\' => push_text(out, b"\\\\"),
        32.. => push_text(out, &[byte]),
        _ => push_control(out, byte),
    }
}

/// Adds a control character, escaped.
fn push_control<const ROOM: usize>(out: &mut ArrayVec<u8, ROOM>, byte: u8)
    requires { array_vec_len out.old + ESCAPE_ROOM ≤ ROOM }
    ensures { out.new.items ≡ out.old.items ++ control_character_text byte }
{
    match byte {
        8 => push_text(out, b"\\b"),
        9 => push_text(out, b"\\t"),
        10 => push_text(out, b"\\n"),
        12 => push_text(out, b"\\f"),
        13 => push_text(out, b"\\r"),
        _ => {
            push_text(out, b"\\u00");
            push_hex_byte(out, byte);
        }
    }
}
