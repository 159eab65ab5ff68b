//! A whole session of exploring.
ghost use Rattle.ga_text.specs.Output.{ReadsAndWrites};
ghost use Rattle.ga_explorer.specs.Opening.{optional_image_text};
ghost use Rattle.ga_explorer.specs.Session.{RunsExplorer};

use crate::beginning::open_lab;
use crate::prompting::{PromptedExplorer, serve_explorer};
use crate::strict::{StrictExplorer, report_session_end_status};
use ga_console::Status;
use ga_text::{InputBuffer, Writer};
use std::alloc::Global;
use std::io::{Read, Write};

/// Reads an image or source and then commands, and answers them as `ga_console::session` does. It has the debugger's commands
/// and those of exploring. The history has at most `limit` events. Source with a fault ends the session: `errors` gets the
/// fault, as from `ga144 asm`, and there is no answer. If an image is given for the `chip`, what is read first is its source. If
/// `is_prompted`, as at a terminal, a prompt is written before each command is read. If `is_strict`, the session ends at the first
/// refused command, which is written to `errors` with the number of its line, counted from 1 after the image or source.
pub fn serve_explorer_session<R: Read, W: Write, E: Write>(
    alloc: Global,
    reader: &mut R,
    writer: &mut W,
    errors: &mut E,
    chip: Option<Vec<u8>>,
    limit: u32,
    is_prompted: bool,
    is_strict: bool,
) -> Status
    // Where the streams show their bytes: what was read, and what was written for it by the status.
    ensures { ReadsAndWrites (λ read rest text. RunsExplorer is_prompted is_strict (optional_image_text chip) limit read rest text result)
        (R.remaining reader.old) (R.remaining reader.new) (W.contents writer.old) (W.contents writer.new) }
{
    let mut input = InputBuffer::new();
    match open_lab(alloc, &mut input, reader, writer, errors, chip, limit) {
        Ok(begun) => {
            let mut said = Writer::writer_with_ready_line(writer);
            let mut session = PromptedExplorer {
                explorer: StrictExplorer::new(begun, is_strict),
                is_prompted,
            };
            let ending = serve_explorer(alloc, &mut input, reader, &mut said, &mut session);
            report_session_end_status(errors, ending, is_strict, &session.explorer.refusal)
        }
        Err(status) => status,
    }
}
