//! `ga144 debug`: a session with a GA144 over standard input and output. `ga144 explore`: one that runs up to a condition.
//! `ga144 race`: workers that race for its nodes. `ga144 check`: its ends in every order of its nodes. `ga144 draw`: a session's picture.
//! `ga144 dap`: a session of an editor.
//! `ga144 asm`, `ga144 list`, `ga144 dis`: source made into an image, listed, and made of an image. Where a file is named, it is read
//! before standard input.
#![tactic(auto)]

mod adapter;
mod arriving;
mod checking;
mod files;

ghost use Rattle.std.specs.Prelude.{IfOk};
ghost use Rattle.ga_console.specs.Settings.{AreSettingsInRange};

use adapter::{report_adapter_out_of_memory, serve_editor};
use arriving::spawn_reader;
use checking::{CheckOptions, choose_report_format, find_verdict};
use files::{read_chip_file, read_text_before_stdin};
use ga_asm_text::{assemble_source_in_format, disassemble_image, list_source};
use ga_check_report::{ConditionFault, Verdict};
use ga_console::{
    CommandLineFault, Settings, Status, parse_command_line, session, write_worker_race_report,
};
use ga_explorer::{CommandUsage, serve_explorer_session};
use ga_explorer_json::explore_json;
use ga_picture::{PictureView, draw_session};
use std::env;
use std::io::IsTerminal;
use std::process::ExitCode;
use std::thread::Threads;

fn main(rt: HostRuntime) -> ExitCode {
    match settings(&rt) {
        Ok(Settings::Debug { limit }) => debug(&rt, limit),
        Ok(
            Settings::Race {
                workers,
                calls,
                limit,
            },
        ) => {
            let mut reader = rt.stdin();
            let mut writer = rt.stdout();
            let status = write_worker_race_report(
                &rt,
                rt.alloc(),
                &mut reader,
                &mut writer,
                workers,
                calls,
                limit,
            );
            exit(&rt, status)
        }
        Ok(
            Settings::Check {
                most,
                seconds,
                settled,
                session,
                never,
                ends,
                same,
                json,
                progress,
                files,
            },
        ) => {
            let work = CheckOptions {
                most,
                seconds: seconds.unwrap_or(0),
                json,
                settled,
                asked: session.unwrap_or(0),
                never: never.as_ref().map(|text| text.as_str()),
                ends,
                same,
                progress,
            };
            ExitCode::from(check_files(&rt, &rt, work, files.as_slice()))
        }
        Ok(Settings::Dap) => match spawn_reader(rt, rt.alloc(), rt.stdin()) {
            Ok((mut reader, mut arrivals)) => serve_editor(&rt, &mut reader, &mut arrivals),
            Err(_) => report_adapter_out_of_memory(&rt),
        },
        Ok(
            Settings::Explore {
                limit,
                strict,
                json,
                chip,
                file,
            },
        ) => {
            let work = if json {
                Work::ExploreJson { limit, strict }
            } else {
                Work::Explore { limit, strict }
            };
            served(&rt, work, &chip, &file)
        }
        Ok(Settings::Assemble { json, file }) => {
            served(&rt, Work::Assemble { json }, &None, &file)
        }
        Ok(Settings::List { file }) => served(&rt, Work::List, &None, &file),
        Ok(Settings::Disassemble { file }) => served(&rt, Work::Disassemble, &None, &file),
        Ok(
            Settings::Draw {
                limit,
                cause,
                rewind,
                from,
                to,
                all,
                only,
                fold,
                races,
                chip,
                file,
            },
        ) => {
            let view = PictureView {
                cause,
                rewind,
                from: from - 1,
                to,
                all,
                only,
                fold,
                races,
            };
            served(&rt, Work::Draw { view, limit }, &chip, &file)
        }
        Err(CommandLineFault::Refused(why)) => refused(&rt, why.as_str()),
        Err(CommandLineFault::Memory) => refused(&rt, ""),
        Err(CommandLineFault::Help(text)) => help(&rt, text.as_str()),
    }
}

/// What the words of the command line ask for.
fn settings(rt: &HostRuntime) -> Result<Settings, CommandLineFault>
    ensures { IfOk result AreSettingsInRange }
{
    let Ok(words) = env::args(rt) else {
        return Err(CommandLineFault::Memory);
    };
    let Ok(words) = words.collect::<Vec<String>>(rt.alloc()) else {
        return Err(CommandLineFault::Memory);
    };
    let Ok(texts) = words
        .iter()
        .map(|word| word.as_str())
        .collect::<Vec<&str>>(rt.alloc())
    else {
        return Err(CommandLineFault::Memory);
    };
    parse_command_line(rt.alloc(), texts.as_slice())
}

/// Serves a session over the standard streams.
fn debug(rt: &HostRuntime, limit: u32) -> ExitCode {
    let mut reader = rt.stdin();
    let mut writer = rt.stdout();
    exit(rt, session(rt.alloc(), &mut reader, &mut writer, limit))
}

/// What is done with a file, if one is named, followed by standard input.
#[derive(Clone, Copy)]
enum Work {
    Explore { limit: u32, strict: bool },
    ExploreJson { limit: u32, strict: bool },
    Assemble { json: bool },
    List,
    Disassemble,
    Draw { view: PictureView, limit: u32 },
}

/// Reads a file, if one is named, followed by standard input, and does the work; on the chip of another file, if one is named.
fn served(rt: &HostRuntime, work: Work, chip: &Option<String>, file: &Option<String>) -> ExitCode {
    let named = file.as_ref().map(|name| name.as_str());
    let front = match read_text_before_stdin(rt, named) {
        Ok(front) => front,
        Err(status) => return ExitCode::from(status),
    };
    let chip = match read_chip_file(rt, chip) {
        Ok(chip) => chip,
        Err(status) => return ExitCode::from(status),
    };
    let mut reader = front.reader(rt);
    let (mut writer, mut errors) = (rt.stdout(), rt.stderr());
    let alloc = rt.alloc();
    let (input, output, told) = (&mut reader, &mut writer, &mut errors);
    let status = match work {
        Work::Explore { limit, strict } => serve_explorer_session(
            alloc,
            input,
            output,
            told,
            chip,
            limit,
            is_at_terminal(rt),
            strict,
        ),
        Work::ExploreJson { limit, strict } => explore_json(
            alloc,
            input,
            output,
            told,
            name_or_dash(named).as_bytes(),
            chip,
            limit,
            strict,
        ),
        Work::Assemble { json } => {
            assemble_source_in_format(
                alloc,
                input,
                output,
                told,
                choose_report_format(json, name_or_dash(named)),
            )
        }
        Work::List => list_source(alloc, input, output, told),
        Work::Disassemble => disassemble_image(alloc, input, output, told),
        Work::Draw { view, limit } => {
            draw_session(alloc, input, output, told, view, chip, limit)
        }
    };
    exit(rt, status)
}

/// The name of a file as JSON objects have it: `-` for standard input.
fn name_or_dash<'a>(file: Option<&'a str>) -> &'a str {
    file.unwrap_or("-")
}

/// Whether both standard input and standard output are a terminal, so that a person types the commands.
fn is_at_terminal(rt: &HostRuntime) -> bool {
    rt.stdin().is_terminal() && rt.stdout().is_terminal()
}

/// Checks the program of each file, or that of standard input if none is named. Returns the exit status.
fn check_files<T: Threads + Sync>(
    threads: &T,
    rt: &HostRuntime,
    work: CheckOptions<'_>,
    files: &[String],
) -> u8 {
    match files {
        [] => check_file(threads, rt, work, None),
        [file] => check_file(threads, rt, work, named_file(file.as_str())),
        _ => check_each(threads, rt, work, files),
    }
}

/// The name of a file, unless it means standard input.
fn named_file(name: &str) -> Option<&str> {
    if name == "-" { None } else { Some(name) }
}

/// Checks the program of each file, and writes the name of the file before the answer, unless that is JSON, which has it. Returns the worst
/// exit status.
fn check_each<T: Threads + Sync>(
    threads: &T,
    rt: &HostRuntime,
    work: CheckOptions<'_>,
    files: &[String],
) -> u8 {
    let mut worst = 0;
    for file in files {
        let name = file.as_str();
        if !work.json && println!(rt; "{name}:").is_err() {
            return status_of(rt, Status::StreamFault);
        }
        worst = worse_status(worst, check_file(threads, rt, work, named_file(name)));
    }
    worst
}

/// The worse of two exit statuses: a refused file, then what is broken, then what isn't known. Of two files that are refused that of the first.
fn worse_status(first: u8, second: u8) -> u8 {
    if badness(second) > badness(first) {
        second
    } else {
        first
    }
}

fn badness(status: u8) -> u8 {
    match status {
        0 => 0,
        6 => 1,
        5 => 2,
        _ => 3,
    }
}

/// Reads a file, if one is named, or standard input, and prints the expectations or the ends of its program. Returns the exit status.
fn check_file<T: Threads + Sync>(
    threads: &T,
    rt: &HostRuntime,
    work: CheckOptions<'_>,
    file: Option<&str>,
) -> u8 {
    let front = match read_text_before_stdin(rt, file) {
        Ok(front) => front,
        Err(status) => return status,
    };
    match find_verdict(threads, rt, work, name_or_dash(file), &front) {
        Ok(verdict) => status_of_verdict(rt, verdict),
        Err(fault) => refuse_conditions(rt, work.never.unwrap_or(""), fault),
    }
}

/// Reports that a text spells no conditions of states, in the form of clap's errors.
fn refuse_conditions(rt: &HostRuntime, given: &str, fault: ConditionFault) -> u8 {
    let why = match fault {
        ConditionFault::Syntax => {
            "COND is NNN VALUE OP N, pass NNN MMM OP N, stop, stop NNN, wait NNN, stuck NNN, mem NNN HH = N, \
            p NNN X, reach NNN X, change NNN HH [= N], or COND or COND"
        }
        ConditionFault::CountsSteps => {
            "a state counts no steps; step NNN K and NNN step OP N are conditions of explore alone"
        }
        ConditionFault::CountsWords => {
            "a state counts no words; give the word, as pass NNN MMM OP N does"
        }
        ConditionFault::TooManyConditions => "at most 8 conditions",
    };
    let _ = eprint!(rt;
        "ga144: command line refused\nerror: invalid value '{given}' for '--never <COND>': {why}\n\n\
        For more information, try '--help'.\n"
    );
    3
}

/// The exit status of a verdict.
fn status_of_verdict(rt: &HostRuntime, verdict: Verdict) -> u8 {
    match verdict {
        Verdict::Clean => 0,
        Verdict::SessionWritten => 0,
        Verdict::Unclean => 5,
        Verdict::Unknown => 6,
        Verdict::FailedWithStatus(status) => status_of(rt, status),
    }
}

/// Writes the requested help. That of `explore` has a line in the place of the commands that a session lists.
fn help(rt: &HostRuntime, text: &str) -> ExitCode {
    let written = match text.split_once("{commands}\n") {
        Some((above, below)) => print!(rt; "{above}{}{below}", CommandUsage),
        None => print!(rt; "{text}"),
    };
    match written {
        Ok(_) => exit(rt, Status::Done),
        Err(_) => exit(rt, Status::StreamFault),
    }
}

/// Ends a program that ended so.
fn exit(rt: &HostRuntime, status: Status) -> ExitCode {
    ExitCode::from(status_of(rt, status))
}

/// The exit status of a program that ended so; writes its line on standard error.
fn status_of(rt: &HostRuntime, status: Status) -> u8 {
    match status {
        Status::Done => 0,
        Status::ImageRefused => 1,
        Status::StreamFault => {
            let _ = eprintln!(rt; "ga144: stream fault");
            2
        }
        Status::NotFinished => {
            let _ = eprintln!(rt; "ga144: race not finished");
            4
        }
        Status::CommandRefused => 7,
    }
}

/// Reports that the command line is refused, and why.
fn refused(rt: &HostRuntime, why: &str) -> ExitCode {
    let _ = eprint!(rt; "ga144: command line refused\n{why}");
    ExitCode::from(3)
}
