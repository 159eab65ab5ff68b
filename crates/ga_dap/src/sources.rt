//! What a session asks of the program that serves it.

ghost use Rattle.std.specs.Prelude.{◌≡◌, Bool, Result, Ok, Err, IfOk, IfErr};
ghost use Rattle.ga_text.specs.Lines.{Bytes};
ghost use Rattle.ga_dap.specs.declared.sources.SourceError.{SourceError as WhyUnread};
ghost use Rattle.ga_dap.specs.Launches.{source_error_text};

use std::alloc::{AllocError, Global};
use thiserror::Error;

/// Why a file is not read.
#[derive(Clone, Copy, PartialEq, Eq, Debug, Error)]
pub enum SourceError {
    /// Memory was refused.
    #[error("out of memory")]
    Memory,
    /// No file has this path.
    #[error("no such file")]
    MissingFile,
    /// The path is that of a folder.
    #[error("a folder")]
    PathIsFolder,
    /// The file has more than 16777216 bytes.
    #[error("more than 16777216 bytes")]
    FileTooLong,
    /// The file can't be read.
    #[error("it can't be read")]
    UnreadableFile,
}

/// The text about a file that is not read.
pub(crate) fn source_error_text(why: SourceError) -> &'static str
    ensures { result.now ≡ source_error_text why }
{
    match why {
        SourceError::Memory => "out of memory",
        SourceError::MissingFile => "no such file",
        SourceError::PathIsFolder => "a folder",
        SourceError::FileTooLong => "more than 16777216 bytes",
        SourceError::UnreadableFile => "it can't be read",
    }
}

/// Files, by their paths.
pub trait ProgramFiles {
    // The host before, a path, the file's bytes or why there are none, and the host after.
    ghost gives: { Self → Bytes → Result Bytes WhyUnread → Self → Type 0 };

    /// The bytes of a file.
    ///
    /// # Errors
    /// Why it is not read.
    fn read(&mut self, alloc: Global, path: &str) -> Result<Vec<u8>, SourceError>
        ensures text { IfOk result (λ text. gives self.old path.now (Ok text.items) self.new) }
        ensures refused { IfErr result (λ why. gives self.old path.now (Err why) self.new) };
}

/// Whether more of the client's requests have come.
pub trait PendingInput {
    // The host before, what it says, and the host after.
    ghost tells: { Self → Bool → Self → Type 0 };

    /// Whether a read would not wait.
    fn have_requests_come(&mut self) -> bool
        ensures { tells self.old result self.new };
}
