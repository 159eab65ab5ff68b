//! `ga144 dap`: a session of an editor over the standard streams.

use crate::files::{MAX_FILE_BYTES, read_file};
use ga_dap::{PendingInput, ProgramFiles, SessionEnd, SourceError, serve_client};
use std::alloc::Global;
use std::io::{ErrorKind, Read};
use std::process::ExitCode;

/// The files of the system.
#[derive(Drop)]
struct Files<'r> {
    rt: &'r HostRuntime,
}

impl ProgramFiles for Files<'_> {
    // The content of a file can't be specified here.
    ghost gives = { λ host path given after. Unit {0} };

    fn read(&mut self, _: Global, path: &str) -> Result<Vec<u8>, SourceError> {
        match read_file(self.rt, path) {
            Ok(text) => {
                if text.len() as u64 > MAX_FILE_BYTES {
                    return Err(SourceError::FileTooLong);
                }
                Ok(text)
            }
            Err(why) => Err(cause_of(why.kind())),
        }
    }
}

fn cause_of(kind: ErrorKind) -> SourceError {
    match kind {
        ErrorKind::OutOfMemory => SourceError::Memory,
        ErrorKind::NotFound => SourceError::MissingFile,
        ErrorKind::IsADirectory => SourceError::PathIsFolder,
        _ => SourceError::UnreadableFile,
    }
}

/// Reports that there is no memory.
pub fn report_adapter_out_of_memory(rt: &HostRuntime) -> ExitCode {
    let _ = eprintln!(rt; "ga144: out of memory");
    ExitCode::from(1)
}

/// Serves an editor, and says how that ended.
pub fn serve_editor<R: Read, A: PendingInput>(
    rt: &HostRuntime,
    reader: &mut R,
    arrivals: &mut A,
) -> ExitCode {
    let mut sources = Files { rt };
    let mut writer = rt.stdout();
    match serve_client(rt.alloc(), &mut sources, arrivals, reader, &mut writer) {
        SessionEnd::Done => ExitCode::from(0),
        SessionEnd::Memory => report_adapter_out_of_memory(rt),
        SessionEnd::BrokenFrame(why) => {
            let _ = eprintln!(rt; "ga144: {why}");
            ExitCode::from(2)
        }
        SessionEnd::StreamFault => {
            let _ = eprintln!(rt; "ga144: stream fault");
            ExitCode::from(2)
        }
    }
}
