//! `launch`: a program is opened, or the response has the reason why none is.

ghost use Rattle.std.specs.Prelude.{◌≡◌, [], ◌∷◌, ◌++◌, None, Some, Ok, Err, Result, codes, string_bytes, IfOk, OnOk, OnErr};
ghost use Rattle.serde_json.specs.View.{view};
ghost use Rattle.ga_text.specs.Lines.{Bytes, Text};
ghost use Rattle.ga_dap_queries.specs.Launching.{parse_history_limit, parse_schedule};
ghost use Rattle.ga_dap.specs.declared.sources.SourceError.{SourceError as WhyUnread};
ghost use Rattle.ga_dap.specs.Launches.{AreWarningMessages, LaunchesText, ReadsAndLaunchesFile, LaunchesWithArguments, LaunchesFirstProgram, launch_messages, launch_error_message, bare_event_message};
ghost use Rattle.ga_dap_queries.specs.Sending.{SendsMessage, SendsMessages, Messages, refused_response};

use crate::opening::{LaunchError, OpenedProgram, open_program};
use crate::sources::{ProgramFiles, SourceError, source_error_text};
use ga_dap_control::{Configuration, Execution, LaunchedSession};
use ga_dap_protocol::{ClientRequest, Outbox, member_as_text};
use ga_dap_queries::{emit_output, parse_history_limit, parse_schedule, stops_on_entry};
use ga_scheduler::Schedule;
use std::alloc::{AllocError, Global};

/// Refuses to launch anything.
fn refuse_launch(
    request: &ClientRequest,
    why: &str,
    out: &mut Outbox,
) -> Result<Option<LaunchedSession>, AllocError>
    ensures { IfOk result (λ new. (new ≡ None) × SendsMessage out.old (refused_response request.now why.now) out.new) }
{
    out.refuse(request, why)?;
    Ok(None)
}

/// Refuses to launch a file.
fn refuse_file(
    alloc: Global,
    request: &ClientRequest,
    path: &str,
    why: &str,
    out: &mut Outbox,
) -> Result<Option<LaunchedSession>, AllocError>
    ensures { IfOk result (λ new. (new ≡ None) × SendsMessage out.old (launch_error_message request.now path.now why.now) out.new) }
{
    let why = format!(in alloc; "launch: {path}: {why}")?;
    out.refuse(request, why.as_str())?;
    Ok(None)
}

/// Sends the warnings about source, if there are any.
fn tell_warnings(alloc: Global, warnings: &str, out: &mut Outbox) -> Result<(), AllocError>
    ensures { OnOk result ((messages : Messages) × AreWarningMessages messages × SendsMessages out.old messages out.new) }
{
    if warnings.is_empty() {
        Ok(())
    } else {
        emit_output(alloc, "stderr", warnings, out)
    }
}

/// Sends that a program is launched, and the warnings about its source.
fn tell_launched(
    alloc: Global,
    warnings: &str,
    request: &ClientRequest,
    out: &mut Outbox,
) -> Result<(), AllocError>
    ensures { OnOk result ((warned : Messages) × AreWarningMessages warned × SendsMessages out.old (launch_messages request.now warned) out.new) }
{
    out.acknowledge(request)?;
    tell_warnings(alloc, warnings, out)?;
    out.add_bare_event("initialized")
}

/// What is launched of a file's text.
fn launched_text(
    alloc: Global,
    request: &ClientRequest,
    path: &str,
    text: Vec<u8>,
    limit: u32,
    schedule: Schedule,
    out: &mut Outbox,
) -> Result<Option<LaunchedSession>, AllocError>
    ensures { IfOk result (λ new. (messages : Messages) × LaunchesText text.items path.now limit schedule request.now messages new × SendsMessages out.old messages out.new) }
{
    match open_program(alloc, path, text, limit) {
        Ok(opened) => {
            let OpenedProgram { program, warnings } = opened;
            tell_launched(alloc, warnings.as_str(), request, out)?;
            let execution = Execution {
                schedule,
                goal: None,
                tally: None,
                is_configured: false,
                stops_on_entry: stops_on_entry(&request.arguments),
                reported: [false; 144],
            };
            let settings = Configuration::new(alloc);
            Ok(Some(LaunchedSession {
                program,
                settings,
                execution,
            }))
        }
        Err(LaunchError::SourceFault(why)) => refuse_file(alloc, request, path, why.as_str(), out),
        Err(LaunchError::Memory) => Err(AllocError),
    }
}

/// What is launched of a file.
fn launched_file<S: ProgramFiles>(
    alloc: Global,
    sources: &mut S,
    request: &ClientRequest,
    path: &str,
    limit: u32,
    schedule: Schedule,
    out: &mut Outbox,
) -> Result<Option<LaunchedSession>, AllocError>
    ensures { IfOk result (λ new. (messages : Messages) × ReadsAndLaunchesFile S.gives sources.old request.now path.now limit schedule messages sources.new new × SendsMessages out.old messages out.new) }
{
    match sources.read(alloc, path) {
        Ok(text) => launched_text(alloc, request, path, text, limit, schedule, out),
        Err(why) => refuse_file(alloc, request, path, source_error_text(why), out),
    }
}

/// The program launched for a path, with this limit of its history, in the requested order.
fn launched_limit<S: ProgramFiles>(
    alloc: Global,
    sources: &mut S,
    request: &ClientRequest,
    path: &str,
    limit: u32,
    out: &mut Outbox,
) -> Result<Option<LaunchedSession>, AllocError>
    ensures { IfOk result (λ new. (messages : Messages) × LaunchesWithArguments S.gives sources.old request.now (Some path.now) (Some limit) (parse_schedule (view request.now.arguments)) messages sources.new new × SendsMessages out.old messages out.new) }
{
    match parse_schedule(&request.arguments) {
        None => refuse_launch(
            request,
            "launch: the order is rounds, greedy, or random with a seed of 0 to 4294967295",
            out,
        ),
        Some(schedule) => launched_file(alloc, sources, request, path, limit, schedule, out),
    }
}

/// The program launched for a path, by the arguments.
fn launched_path<S: ProgramFiles>(
    alloc: Global,
    sources: &mut S,
    request: &ClientRequest,
    path: &str,
    out: &mut Outbox,
) -> Result<Option<LaunchedSession>, AllocError>
    ensures { IfOk result (λ new. (messages : Messages) × LaunchesWithArguments S.gives sources.old request.now (Some path.now) (parse_history_limit (view request.now.arguments)) (parse_schedule (view request.now.arguments)) messages sources.new new × SendsMessages out.old messages out.new) }
{
    match parse_history_limit(&request.arguments) {
        None => refuse_launch(request, "launch: the limit is 1 to 100000000", out),
        Some(limit) => launched_limit(alloc, sources, request, path, limit, out),
    }
}

/// `launch`, where nothing is launched yet: what is launched then.
///
/// # Errors
/// Memory was refused.
pub(crate) fn launch_program<S: ProgramFiles>(
    alloc: Global,
    sources: &mut S,
    request: &ClientRequest,
    out: &mut Outbox,
) -> Result<Option<LaunchedSession>, AllocError>
    ensures { IfOk result (λ new. (messages : Messages) × LaunchesFirstProgram S.gives sources.old request.now messages sources.new new × SendsMessages out.old messages out.new) }
{
    match member_as_text(&request.arguments, "program") {
        None => refuse_launch(request, "launch: there is no program", out),
        Some(path) => launched_path(alloc, sources, request, path, out),
    }
}
