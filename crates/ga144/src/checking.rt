//! `ga144 check`: the search for the ends of a program, beside a clock that stops it and reports how far it is.

use crate::files::TextBeforeStdin;
use ga_check_report::{
    CheckRequest, ConditionFault, ReportFormat, Verdict, check_ends, check_expectations_or_ends,
    check_never_conditions,
};
use ga_state_search::SearchControl;
use std::sync::atomic::{AtomicBool, Ordering};
use std::thread::{Threads, join};
use std::time::{Duration, Instant};
use std::{io, thread};

/// The maximum number of events of a session.
const SESSION_LIMIT: u32 = 100_000_000;

/// The number of milliseconds between two looks at the clock.
const TICK: u64 = 20;

/// The number of looks between two progress lines.
const TICKS: u64 = 50;

/// How far to search, whether the idle nodes come to rest first, the number of the kind of end or of the expectation whose session is wanted,
/// if it isn't 0, and whether the progress is reported.
#[derive(Clone, Copy)]
pub struct CheckOptions<'a> {
    /// The maximum number of states.
    pub most: u32,
    /// The maximum number of seconds, or 0.
    pub seconds: u32,
    /// Whether the answer is JSON objects in place of text.
    pub json: bool,
    pub settled: bool,
    pub asked: u32,
    /// The conditions that are looked for in place of ends, if any.
    pub never: Option<&'a str>,
    /// Whether the ends are printed in place of expectations.
    pub ends: bool,
    /// Whether the program is expected to have one end.
    pub same: bool,
    pub progress: bool,
}

/// The result of a search for the ends of the program in a file of this name, or for conditions, or the fault of these.
/// The search is stopped after as many seconds as the options have, if it isn't 0. Without a second thread the clock starts after the search.
pub fn find_verdict<T: Threads + Sync>(
    threads: &T,
    rt: &HostRuntime,
    work: CheckOptions<'_>,
    name: &str,
    front: &TextBeforeStdin,
) -> Result<Verdict, ConditionFault> {
    let watch = SearchControl::new();
    if !work.progress && work.seconds == 0 {
        return search(rt, work, name, front, &watch);
    }
    let is_done = AtomicBool::new(false);
    let (verdict, _told) = join(
        threads,
        || {
            let verdict = search(rt, work, name, front, &watch);
            is_done.store(true, Ordering::SeqCst);
            verdict
        },
        || attend(rt, work, &watch, &is_done),
    );
    verdict
}

/// Writes the expectations or the ends of the program that is read, or what is looked for.
fn search(
    rt: &HostRuntime,
    work: CheckOptions<'_>,
    name: &str,
    front: &TextBeforeStdin,
    watch: &SearchControl,
) -> Result<Verdict, ConditionFault> {
    let mut reader = front.reader(rt);
    let (mut writer, mut errors) = (rt.stdout(), rt.stderr());
    let alloc = rt.alloc();
    let (input, output, told) = (&mut reader, &mut writer, &mut errors);
    let request = CheckRequest {
        most: work.most,
        seconds: work.seconds,
        same: work.same,
        format: choose_report_format(work.json, name),
    };
    let (limit, settles, asked) = (SESSION_LIMIT, work.settled, work.asked);
    match work.never {
        Some(conditions) => check_never_conditions(
            alloc,
            input,
            output,
            told,
            request,
            limit,
            settles,
            conditions.as_bytes(),
            asked != 0,
            watch,
        ),
        None => {
            if work.ends {
                Ok(check_ends(
                    alloc, input, output, told, request, limit, settles, asked, watch,
                ))
            } else {
                Ok(check_expectations_or_ends(
                    alloc, input, output, told, request, limit, settles, asked, watch,
                ))
            }
        }
    }
}

/// Text, or JSON objects that name a file.
pub fn choose_report_format<'a>(json: bool, name: &'a str) -> ReportFormat<'a> {
    if json {
        ReportFormat::Json(name.as_bytes())
    } else {
        ReportFormat::Text
    }
}

/// Looks at the clock until the search is done: stops it when its time is over, and reports each second how many states there are, if it is to.
fn attend(rt: &HostRuntime, work: CheckOptions<'_>, watch: &SearchControl, is_done: &AtomicBool) {
    let begun = Instant::now(rt);
    for tick in 1..u64::MAX {
        thread::sleep(rt, Duration::from_millis(TICK));
        if is_done.load(Ordering::SeqCst) {
            return;
        }
        if is_over(rt, work.seconds, &begun, tick) {
            watch.is_stopped.store(true, Ordering::SeqCst);
        }
        let states = watch.states.load(Ordering::SeqCst);
        if work.progress && tick % TICKS == 0 && states > 0 {
            let _ = eprintln!(rt; "ga144: {states} states so far");
        }
    }
}

/// Whether the search has taken its time: by the clock, or, if there is none, by the number of looks.
fn is_over(rt: &HostRuntime, seconds: u32, begun: &io::Result<Instant>, tick: u64) -> bool {
    let limit = u64::from(seconds);
    if limit == 0 {
        return false;
    }
    match begun {
        Ok(begun) => match begun.elapsed(rt) {
            Ok(passed) => passed.as_secs() >= limit,
            Err(_) => tick / TICKS >= limit,
        },
        Err(_) => tick / TICKS >= limit,
    }
}
