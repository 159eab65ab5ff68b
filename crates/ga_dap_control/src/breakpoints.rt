//! The requests that set breakpoints.

ghost use Rattle.std.specs.Prelude.{◌≡◌, [], codes, map, length, replicate, IfOk, OnOk, OnErr};
ghost use Rattle.std.specs.List.{list_all, list_any};
ghost use Rattle.serde_json.specs.View.{view};
ghost use Rattle.serde_json.specs.declared.value.Value.{Value as AValue};
ghost use Rattle.ga_dap_control.specs.Placing.{PlacesBreakpoints};
ghost use Rattle.ga_dap_control.specs.Breakpoints.{breakpoints_of_other_kinds, breakpoints_body, other_file_breakpoint_object, is_program_file, is_json_string_equal_to, is_exception_filter_name, AreBreakpointsSet, SetsExceptionFiltersIfKnown, SetsExceptionFilters, SetsLineBreakpoints, ReplacesBreakpoints};
ghost use Rattle.ga_dap_control.specs.inner.{placement_of_progress};
ghost use Rattle.ga_dap_queries.specs.Arguments.{member_list_values};
ghost use Rattle.ga_dap_queries.specs.Sending.{SendsMessage, Message, success_response};

use crate::configuration::{
    BreakpointKind, BreakpointSet, Configuration, PlacedBreakpoint, breakpoints_of,
};
use crate::placing::{PlacementProgress, place_all};
use ga_dap_protocol::{ClientRequest, Outbox, member_as_text};
use ga_dap_queries::{Debuggee, member_list_values};
use serde_json::{Map, Value, json, push, put};
use std::alloc::{AllocError, Global};

/// Whether a request speaks of the program's own file.
fn is_program_file(program: &Debuggee, arguments: &Value) -> bool
    ensures { result ≡ is_program_file program.now (view arguments.now) }
{
    let Some(source) = arguments.get("source") else {
        return false;
    };
    match member_as_text(source, "path") {
        Some(path) => path == program.path.as_str(),
        None => false,
    }
}

/// A breakpoint in another file.
#[tactic(auto, unfolding(crate::specs::Breakpoints::other_file_breakpoint_object))]
fn other_file_breakpoint_object(alloc: Global) -> Result<Value, AllocError>
    ensures { IfOk result (λ v. view v ≡ other_file_breakpoint_object) }
{
    json!(in alloc; {"message": "the program is another file", "verified": false})
}

/// What is sent for each breakpoint if the request names another file.
#[tactic(auto, using(std::proofs::lemmas::List::map_push, std::proofs::lemmas::List::replicate_more))]
fn place_nowhere(alloc: Global, count: usize) -> Result<Vec<Value>, AllocError>
    ensures { IfOk result (λ list. map view list.items ≡ replicate count other_file_breakpoint_object) }
{
    let mut list = Vec::new(alloc);
    'asked: for _place in 0..count {
        let told = other_file_breakpoint_object(alloc)?;
        push(&mut list, told)?;
    }
    Ok(list)
}

fn breakpoints_body(alloc: Global, list: Vec<Value>) -> Result<Value, AllocError>
    ensures { IfOk result (λ v. view v ≡ breakpoints_body (map view list.items)) }
{
    let mut map = Map::new(alloc);
    put(&mut map, alloc, "breakpoints", Value::Array(list))?;
    Ok(Value::Object(map))
}

/// `setBreakpoints`: the breakpoints on lines of the file are replaced.
pub fn set_line_breakpoints(
    alloc: Global,
    program: &Debuggee,
    settings: &mut Configuration,
    request: &ClientRequest,
    out: &mut Outbox,
) -> Result<(), AllocError>
    ensures sent { OnOk result ((message : Message) × SetsLineBreakpoints program.now settings.old request.now message settings.new × SendsMessage out.old message out.new) }
    ensures kept { OnErr result (settings.new ≡ settings.old) }
{
    if is_program_file(program, &request.arguments) {
        replace_breakpoints(
            alloc,
            program,
            settings,
            BreakpointKind::Source,
            request,
            out,
        )
    } else {
        tell_nowhere(alloc, request, out)
    }
}

/// The number of requested breakpoints.
#[tactic(auto, using(crate::proofs::Placed::counted))]
fn count_asked(arguments: &Value) -> usize
    ensures { result ≡ length (member_list_values (codes "breakpoints") (view arguments.now)) }
{
    member_list_values(arguments, "breakpoints").len()
}

/// Reports that no breakpoint can be in another file.
fn tell_nowhere(alloc: Global, request: &ClientRequest, out: &mut Outbox) -> Result<(), AllocError>
    ensures sent { OnOk result (SendsMessage out.old (success_response request.now (breakpoints_body (replicate (length (member_list_values (codes "breakpoints") (view request.now.arguments))) other_file_breakpoint_object))) out.new) }
    ensures err { OnErr result (out.new ≡ out.old) }
{
    let count = count_asked(&request.arguments);
    let list = place_nowhere(alloc, count)?;
    let body = breakpoints_body(alloc, list)?;
    out.respond(request, body)
}

/// No breakpoint is placed yet after those that other requests set.
fn placing_new(alloc: Global, placed: Vec<PlacedBreakpoint>, next: u64) -> PlacementProgress
    ensures { placement_of_progress result ≡ record { told = []; placed = placed.items; next = next } }
{
    PlacementProgress {
        told: Vec::new(alloc),
        placed,
        next,
    }
}

/// The response for each requested breakpoint.
#[tactic(auto, using(crate::proofs::Placed::placed_so))]
fn placing_of(
    alloc: Global,
    program: &Debuggee,
    settings: &Configuration,
    family: BreakpointKind,
    request: &ClientRequest,
) -> Result<PlacementProgress, AllocError>
    ensures { IfOk result (λ placing. PlacesBreakpoints program.now family (member_list_values (codes "breakpoints") (view request.now.arguments)) (breakpoints_of_other_kinds family settings.now) (placement_of_progress placing)) }
{
    let placed = settings.points.breakpoints_of_other_kinds(alloc, family)?;
    let mut placing = placing_new(alloc, placed, settings.points.next_id);
    let asked = member_list_values(&request.arguments, "breakpoints");
    place_all(alloc, program, family, asked, &mut placing)?;
    Ok(placing)
}

/// Sets the breakpoints that were placed, and reports each.
fn set_placing(
    alloc: Global,
    placing: PlacementProgress,
    settings: &mut Configuration,
    request: &ClientRequest,
    out: &mut Outbox,
) -> Result<(), AllocError>
    ensures sent { OnOk result ((message : Message) × (message ≡ success_response request.now (breakpoints_body (placement_of_progress placing).told)) × AreBreakpointsSet (placement_of_progress placing) settings.old settings.new × SendsMessage out.old message out.new) }
    ensures kept { OnErr result (settings.new ≡ settings.old) }
{
    let points = breakpoints_of(alloc, placing.placed.as_slice())?;
    let PlacementProgress { told, placed, next } = placing;
    let body = breakpoints_body(alloc, told)?;
    out.respond(request, body)?;
    settings.points = BreakpointSet {
        points,
        placed,
        next_id: next,
    };
    Ok(())
}

/// Replaces the breakpoints of one request by the requested ones.
#[tactic(auto, using(ga_dap_queries::proofs::Sent::ok_then))]
pub fn replace_breakpoints(
    alloc: Global,
    program: &Debuggee,
    settings: &mut Configuration,
    family: BreakpointKind,
    request: &ClientRequest,
    out: &mut Outbox,
) -> Result<(), AllocError>
    ensures sent { OnOk result ((message : Message) × ReplacesBreakpoints program.now family settings.old request.now message settings.new × SendsMessage out.old message out.new) }
    ensures kept { OnErr result (settings.new ≡ settings.old) }
{
    let placing = placing_of(alloc, program, settings, family, request)?;
    set_placing(alloc, placing, settings, request, out)
}

/// Whether an item is a text, this one.
fn is_json_string_equal_to(item: &Value, name: &str) -> bool
    ensures { result ≡ is_json_string_equal_to name.now (view item.now) }
{
    match item.as_str() {
        Some(text) => text == name,
        None => false,
    }
}

/// Whether an item is the name of a filter.
fn is_exception_filter_name(item: &Value) -> bool
    ensures { result ≡ is_exception_filter_name (view item.now) }
{
    is_json_string_equal_to(item, "stop")
        || is_json_string_equal_to(item, "stuck")
        || is_json_string_equal_to(item, "broken")
}

fn each_is_filter(items: &[Value]) -> bool
    ensures { result ≡ list_all (λ (item : AValue). is_exception_filter_name (view item)) items.now }
{
    items.iter().all(|item| is_exception_filter_name(item))
}

/// Whether each item is the name of a filter.
fn are_filters(items: &[Value]) -> bool
    ensures { result ≡ list_all is_exception_filter_name (map view items.now) }
{
    each_is_filter(items)
}

fn one_is_text(items: &[Value], name: &str) -> bool
    ensures { result ≡ list_any (λ (item : AValue). is_json_string_equal_to name.now (view item)) items.now }
{
    items.iter().any(|item| is_json_string_equal_to(item, name))
}

fn has_filter(items: &[Value], name: &str) -> bool
    ensures { result ≡ list_any (is_json_string_equal_to name.now) (map view items.now) }
{
    one_is_text(items, name)
}

/// Sets the requested filters, if each item is the name of one.
fn set_filters_if(
    settings: &mut Configuration,
    filters: &[Value],
    known: bool,
    request: &ClientRequest,
    out: &mut Outbox,
) -> Result<(), AllocError>
    ensures sent { OnOk result ((message : Message) × SetsExceptionFiltersIfKnown known (map view filters.now) settings.old request.now message settings.new × SendsMessage out.old message out.new) }
    ensures kept { OnErr result (settings.new ≡ settings.old) }
{
    if known {
        let stops = has_filter(filters, "stop");
        let stuck = has_filter(filters, "stuck");
        let broken = has_filter(filters, "broken");
        out.acknowledge(request)?;
        settings.stops = stops;
        settings.stuck = stuck;
        settings.broken = broken;
        Ok(())
    } else {
        out.refuse(
            request,
            "setExceptionBreakpoints: the filters are stop, stuck and broken",
        )
    }
}

/// `setExceptionBreakpoints`.
#[tactic(auto, using(ga_dap_queries::proofs::Sent::ok_then, crate::proofs::Placed::filters_so))]
pub fn set_exception_filters(
    settings: &mut Configuration,
    request: &ClientRequest,
    out: &mut Outbox,
) -> Result<(), AllocError>
    ensures sent { OnOk result ((message : Message) × SetsExceptionFilters settings.old request.now message settings.new × SendsMessage out.old message out.new) }
    ensures kept { OnErr result (settings.new ≡ settings.old) }
{
    let filters = member_list_values(&request.arguments, "filters");
    let known = are_filters(filters);
    set_filters_if(settings, filters, known, request, out)
}
