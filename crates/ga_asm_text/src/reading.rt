//! Source that is read whole.
ghost use Rattle.std.specs.Prelude.{◌≡◌, ◌++◌, Some, IfOk, IfErr};
ghost use Rattle.ga_text.specs.Lines.{Bytes};
ghost use Rattle.ga_text.specs.Output.{IsWholeImageText};
ghost use Rattle.ga_asm_text.specs.inner.{IsUnreadSourceStatus};

use ga_console::Status;
use ga_debug_info::{report_input_too_long, report_out_of_memory};
use ga_text::{WholeInputResult, read_whole_input};
use std::alloc::Global;
use std::io::{Read, Write};

/// Reads source up to its first line `end`, or to its end. If it can't be read whole, the reason is written to `errors`, and
/// the result is the status to end with.
pub(crate) fn read_source<R: Read, E: Write>(
    alloc: Global,
    reader: &mut R,
    errors: &mut E,
) -> Result<Vec<u8>, Status>
    ensures { (left : Bytes) → R.remaining reader.old ≡ Some left →
        (read rest : Bytes) × (left ≡ read ++ rest) × (R.remaining reader.new ≡ Some rest)
        × IfOk result (λ source. IsWholeImageText read rest source.items) × IfErr result (IsUnreadSourceStatus read) }
{
    match read_whole_input(alloc, reader) {
        WholeInputResult::Whole(source) => Ok(source),
        WholeInputResult::TooLong(_) => {
            let _written = report_input_too_long(errors);
            Err(Status::ImageRefused)
        }
        WholeInputResult::ReadFailed => Err(Status::StreamFault),
        WholeInputResult::NoMemory => {
            let _written = report_out_of_memory(errors);
            Err(Status::ImageRefused)
        }
    }
}
