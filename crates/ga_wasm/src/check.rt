//! How a program can end, as one call.

ghost use Rattle.std.specs.Prelude.{◌≡◌, ◌++◌, length, take, false};
ghost use Rattle.ga_text.specs.Lines.{Bytes};
ghost use Rattle.ga_check_report.specs.Expected.{IsProgramCheckOutcome};
ghost use Rattle.ga_check_report.specs.declared.report.Verdict.{Verdict as Found};
ghost use Rattle.ga_json.specs.declared.format.ReportFormat.TheVariants.{Text as AsText};

use crate::buffer::{put_front, streams};
use ga_check_report::{CheckRequest, ReportFormat, check_expectations_or_ends};
use ga_state_search::SearchControl;
use std::alloc::Global;

/// The expectations of a program, an image or source, or else its kinds of ends, in whatever order its nodes run, of at most `most` stored
/// states. If `asked` isn't 0, the lines `step NNN` that lead to what breaks the expectation of this number, or to the first end of that kind,
/// of at most `limit` events. As far as there is room for them; returns how many bytes they have.
#[unsafe(no_mangle)]
pub extern "C" fn ga_check(
    alloc: Global,
    input: &[u8],
    output: &mut [u8],
    most: u32,
    limit: u32,
    asked: u32,
) -> usize
    ensures { (read rest text : Bytes) × (found : Found) × (input.now ≡ read ++ rest)
        × IsProgramCheckOutcome (record { most = most; seconds = 0; same = false; format = AsText }) limit false asked read rest text found
        × (result ≡ length text) × (take result output.new ≡ take (length output.old) text) }
{
    let (mut reader, mut answer, mut errors) = streams(alloc, input);
    let request = CheckRequest {
        most,
        seconds: 0,
        same: false,
        format: ReportFormat::Text,
    };
    let watch = SearchControl::new();
    let _verdict = check_expectations_or_ends(
        alloc,
        &mut reader,
        &mut answer,
        &mut errors,
        request,
        limit,
        false,
        asked,
        &watch,
    );
    put_front(output, answer.as_slice())
}
