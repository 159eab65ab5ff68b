//! A whole session: requests are read and answered, and runs go on between them.

ghost use Rattle.std.specs.Prelude.{◌≡◌, ◌++◌, [], Some, OnOk};
ghost use Rattle.ga_text.specs.Lines.{Bytes};
ghost use Rattle.ga_text.specs.Output.{IsTextWrittenOrPending, IsTextWrittenOrTruncated};
ghost use Rattle.ga_dap.specs.Client.{ServesClient};

use crate::session::Session;
use crate::sources::{PendingInput, ProgramFiles};
use crate::turn::{Progress, turn};
use ga_dap_control::WatchedExpectations;
use ga_dap_protocol::{FrameError, Inbox, Outbox};
use ga_text::{WriteError, write_all};
use std::alloc::Global;
use std::io::{Read, Write};

/// How a session ended.
#[derive(Clone, Copy, PartialEq, Eq, Debug)]
pub enum SessionEnd {
    /// The session ended by `disconnect`, or by the end of the input.
    Done,
    /// An allocation failed for the next message, for the refusal of a request before it began, or for what had to be reported
    /// of a change.
    Memory,
    /// The session ended by something that is no message: no message can be found after it.
    BrokenFrame(FrameError),
    /// A stream failed.
    StreamFault,
}

/// Writes what is to be written.
fn send<W: Write>(writer: &mut W, out: &mut Outbox) -> Result<(), WriteError>
    ensures said { (before said : Bytes) → IsTextWrittenOrPending (W.contents writer.old) before said out.old.bytes →
        IsTextWrittenOrTruncated result (W.contents writer.new) before said [] }
    ensures sent { OnOk result (out.new ≡ record { bytes = []; seq = out.old.seq }) }
{
    write_all(writer, out.bytes())?;
    out.clear();
    Ok(())
}

/// Serves a client of the Debug Adapter Protocol: reads requests, answers each, and continues the run in progress, a slice at a
/// time, while no request has come. Allocates one message at a time, the history and the source. A request whose allocation
/// fails is refused and changes nothing.
pub fn serve_client<S: ProgramFiles, A: PendingInput, R: Read, W: Write>(
    alloc: Global,
    sources: &mut S,
    arrivals: &mut A,
    reader: &mut R,
    writer: &mut W,
) -> SessionEnd
    // Where the streams show their bytes: what was read, and what was written for it, for whatever the host has and says.
    ensures { (left before : Bytes) →
        R.remaining reader.old ≡ Some left → W.contents writer.old ≡ Some before →
        (rest written : Bytes) × (R.remaining reader.new ≡ Some rest) × (W.contents writer.new ≡ Some (before ++ written))
        × ServesClient S.gives A.tells sources.old arrivals.old left rest written result }
{
    let mut inbox = Inbox::new(alloc);
    let mut out = Outbox::new(alloc);
    let mut session = Session::new();
    let mut watched: Option<WatchedExpectations> = None;
    'serving: for _ in 0..u64::MAX {
        if session.is_over {
            return SessionEnd::Done;
        }
        match turn(
            alloc,
            &mut session,
            sources,
            arrivals,
            &mut inbox,
            reader,
            &mut watched,
            &mut out,
        ) {
            Progress::On => {}
            Progress::End(end) => return end,
        }
        match send(writer, &mut out) {
            Ok(()) => {}
            Err(_) => return SessionEnd::StreamFault,
        }
    }
    SessionEnd::StreamFault
}
