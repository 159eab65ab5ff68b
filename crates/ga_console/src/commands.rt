//! The command part of a session.
ghost use Rattle.std.specs.Prelude.{◌≡◌, ◌-◌, ◌++◌, Some};
ghost use Rattle.ga_text.specs.Lines.{Bytes};
ghost use Rattle.ga_text.specs.Input.{IsWithinInputLimit, input_limit};
ghost use Rattle.ga_text.specs.Output.{IsTextWrittenOrPending, IsTextWrittenOrTruncated, IsSameStream};
ghost use Rattle.ga_console.specs.Session.{ServesCommands, ServesCommandsWithLimitRefusal, IsWholeOrPrefixOnWriteError};
ghost use Rattle.ga_console.specs.inner.Run.{commands_end_after_line_action};

use super::fast_path::{CommandAtTextStart, parse_command_at_text_start};
use super::responder::{LineAction, Responder};
use ga_text::{InputBuffer, LineBuffer, LineEnd, WriteError, Writer, read_line};
use std::alloc::Global;
use std::io::{Read, Write};

/// How the command part ended.
#[derive(Clone, Copy, PartialEq, Eq)]
pub enum CommandsEnd {
    /// The input ended.
    InputEnded,
    /// A line `quit` came.
    Quit,
    /// The line of this number, counted from 1, was refused, and that ends the session.
    Refused(u32),
    /// The input went past its bound, in the line of this number, counted from 1.
    PastLimit(u32),
    /// A read failed.
    ReadFailed,
}

/// Answers the command lines one by one, until the input ends, and writes the answers.
///
/// # Errors
/// A write failed.
pub fn serve_commands<S: Responder, R: Read, W: Write>(
    alloc: Global,
    input: &mut InputBuffer,
    reader: &mut R,
    writer: &mut Writer<'_, W>,
    session: &mut S,
) -> Result<CommandsEnd, WriteError>
    requires { IsWithinInputLimit input.old }
    ensures same { IsSameStream writer.old writer.new }
    ensures serves { (left before said : Bytes) → R.remaining reader.old ≡ Some left →
        IsTextWrittenOrPending (W.contents writer.old.stream.now) before said writer.old.pending.items →
        (read rest text sent : Bytes)
        × (input.old.bytes ++ left ≡ read ++ rest) × (R.remaining reader.new ≡ Some rest)
        × (W.contents writer.new.stream.now ≡ Some (before ++ sent))
        × ServesCommands S.answers S.refuses (input_limit - input.old.taken) session.old read rest text session.new result
        × IsWholeOrPrefixOnWriteError result (said ++ text) sent }
{
    serve_commands_with_limit_refusal(b"no 33 input\n", alloc, input, reader, writer, session)
}

/// The same, with this refusal of an input past its bound.
///
/// # Errors
/// A write failed.
pub fn serve_commands_with_limit_refusal<S: Responder, R: Read, W: Write>(
    limit_refusal: &[u8],
    alloc: Global,
    input: &mut InputBuffer,
    reader: &mut R,
    writer: &mut Writer<'_, W>,
    session: &mut S,
) -> Result<CommandsEnd, WriteError>
    requires { IsWithinInputLimit input.old }
    ensures same { IsSameStream writer.old writer.new }
    ensures serves { (left before said : Bytes) → R.remaining reader.old ≡ Some left →
        IsTextWrittenOrPending (W.contents writer.old.stream.now) before said writer.old.pending.items →
        (read rest text sent : Bytes)
        × (input.old.bytes ++ left ≡ read ++ rest) × (R.remaining reader.new ≡ Some rest)
        × (W.contents writer.new.stream.now ≡ Some (before ++ sent))
        × ServesCommandsWithLimitRefusal limit_refusal.now S.answers S.refuses (input_limit - input.old.taken) session.old read rest text session.new result
        × IsWholeOrPrefixOnWriteError result (said ++ text) sent }
{
    let ending = answer_lines(limit_refusal, alloc, input, reader, writer, session)?;
    writer.flush()?;
    Ok(ending)
}

/// Answers the command lines one by one, until the input ends. Some of the answers may be pending then.
fn answer_lines<S: Responder, R: Read, W: Write>(
    limit_refusal: &[u8],
    alloc: Global,
    input: &mut InputBuffer,
    reader: &mut R,
    writer: &mut Writer<'_, W>,
    session: &mut S,
) -> Result<CommandsEnd, WriteError>
    requires { IsWithinInputLimit input.old }
    ensures same { IsSameStream writer.old writer.new }
    ensures serves { (left before said : Bytes) → R.remaining reader.old ≡ Some left →
        IsTextWrittenOrPending (W.contents writer.old.stream.now) before said writer.old.pending.items →
        (read rest text : Bytes)
        × (input.old.bytes ++ left ≡ read ++ rest) × (R.remaining reader.new ≡ Some rest)
        × ServesCommandsWithLimitRefusal limit_refusal.now S.answers S.refuses (input_limit - input.old.taken) session.old read rest text session.new result
        × IsTextWrittenOrTruncated result (W.contents writer.new.stream.now) before (said ++ text) writer.new.pending.items }
{
    let mut line = LineBuffer::new();
    let mut number = 0;
    'lines: loop {
        number += 1;
        let text = input.unread_bytes();
        match parse_command_at_text_start(text) {
            CommandAtTextStart::SpelledCommand(command, count) => {
                input.skip(count);
                let turn = session.obey_debugger_command(alloc, command, writer)?;
                match commands_end_after_line_action(turn, number) {
                    Some(ending) => return Ok(ending),
                    None => continue 'lines,
                }
            }
            CommandAtTextStart::OtherWholeLine(size) => {
                let turn = session.answer(alloc, &text[..size], writer)?;
                input.skip(size);
                match commands_end_after_line_action(turn, number) {
                    Some(ending) => return Ok(ending),
                    None => continue 'lines,
                }
            }
            CommandAtTextStart::NoWholeLine => {}
        }
        match read_line(input, reader, writer, &mut line)? {
            LineEnd::EndedByFeed => {
                let turn = session.answer(alloc, line.as_slice(), writer)?;
                match commands_end_after_line_action(turn, number) {
                    Some(ending) => return Ok(ending),
                    None => {}
                }
            }
            LineEnd::Last => {
                if line.is_empty() {
                    return Ok(CommandsEnd::InputEnded);
                }
                let turn = session.answer(alloc, line.as_slice(), writer)?;
                return match commands_end_after_line_action(turn, number) {
                    Some(ending) => Ok(ending),
                    None => Ok(CommandsEnd::InputEnded),
                };
            }
            LineEnd::PastLimit => {
                writer.write_blocks(limit_refusal)?;
                return Ok(CommandsEnd::PastLimit(number));
            }
            LineEnd::ReadFailed => return Ok(CommandsEnd::ReadFailed),
        }
    }
}

/// The end of the command part at a line of this number that was answered so, if it is one.
#[inline(always)]
fn commands_end_after_line_action(turn: LineAction, number: u32) -> Option<CommandsEnd>
    ensures { result ≡ commands_end_after_line_action turn number }
{
    match turn {
        LineAction::Answered => None,
        LineAction::Refused => Some(CommandsEnd::Refused(number)),
        LineAction::Quit => Some(CommandsEnd::Quit),
    }
}
