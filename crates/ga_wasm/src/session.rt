//! A whole session of exploring as one call: the bytes of an image and its commands in, the answers out.

ghost use Rattle.std.specs.Prelude.{◌≡◌, ◌++◌, ◌∷◌, [], None, codes, false, length, take};
ghost use Rattle.ga_text.specs.Lines.{Bytes};
ghost use Rattle.ga_console.specs.declared.run.Status.{Status as Ended};
ghost use Rattle.ga_explorer.specs.Session.{RunsExplorer};
ghost use Rattle.ga_explorer_json.specs.Session.{RunsJsonExplorer};
ghost use Rattle.ga_wasm.specs.inner.{number_of_exit_status};

use crate::buffer::{put_front, streams};
use ga_console::Status;
use ga_explorer::serve_explorer_session;
use ga_explorer_json::explore_json;
use std::alloc::Global;

/// Answers a session that is given whole, as far as there is room for the answers, and returns how many bytes they have. The
/// first byte of `ended`, if it has room, is how it ended, as the program's exit status: 2 if memory was exhausted for the
/// answers, so that they end before the session does.
#[unsafe(no_mangle)]
pub extern "C" fn ga_session(
    alloc: Global,
    input: &[u8],
    output: &mut [u8],
    ended: &mut [u8],
    limit: u32,
) -> usize
    ensures { (read rest text : Bytes) × (status : Ended) × (input.now ≡ read ++ rest)
        × RunsExplorer false false None limit read rest text status
        × (result ≡ length text) × (take result output.new ≡ take (length output.old) text)
        × (take 1 ended.new ≡ take (length ended.old) (number_of_exit_status status ∷ [])) }
{
    let (mut reader, mut answers, mut errors) = streams(alloc, input);
    let status = serve_explorer_session(
        alloc,
        &mut reader,
        &mut answers,
        &mut errors,
        None,
        limit,
        false,
        false,
    );
    put_front(ended, &[number(status)]);
    put_front(output, answers.as_slice())
}

/// Answers a session that is given whole with JSON objects, a line each, otherwise as `ga_session` does. Objects of a refused image or
/// source have the file `-`.
#[unsafe(no_mangle)]
pub extern "C" fn ga_session_json(
    alloc: Global,
    input: &[u8],
    output: &mut [u8],
    ended: &mut [u8],
    limit: u32,
) -> usize
    ensures { (read rest text : Bytes) × (status : Ended) × (input.now ≡ read ++ rest)
        × RunsJsonExplorer false (codes "-") None limit read rest text status
        × (result ≡ length text) × (take result output.new ≡ take (length output.old) text)
        × (take 1 ended.new ≡ take (length ended.old) (number_of_exit_status status ∷ [])) }
{
    let (mut reader, mut answers, mut errors) = streams(alloc, input);
    let status = explore_json(
        alloc,
        &mut reader,
        &mut answers,
        &mut errors,
        b"-",
        None,
        limit,
        false,
    );
    put_front(ended, &[number(status)]);
    put_front(output, answers.as_slice())
}

/// The exit status of a session that ended so.
fn number(status: Status) -> u8
    ensures { result ≡ number_of_exit_status status }
{
    match status {
        Status::Done => 0,
        Status::ImageRefused => 1,
        Status::StreamFault => 2,
        Status::NotFinished => 4,
        Status::CommandRefused => 7,
    }
}
