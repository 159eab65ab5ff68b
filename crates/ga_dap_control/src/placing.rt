//! The breakpoints of a request, one after another.

ghost use Rattle.std.specs.Prelude.{◌≡◌, ◌+◌, ◌%◌, ◌^◌, ◌++◌, ◌∷◌, [], map, string_bytes, Option, Some, IfOk, OnOk};
ghost use Rattle.serde_json.specs.View.{view};
ghost use Rattle.ga_dap_control.specs.declared.finding.BreakpointLocation.{BreakpointLocation as APlace};
ghost use Rattle.ga_dap_control.specs.Placing.{BreakpointPlacement, IsBreakpointLocation, unverified_breakpoint_object, verified_breakpoint_object, verified_line_breakpoint_object, breakpoint_object_with_line_if_any, breakpoint_object, placed_breakpoint_or_empty, placement_after_breakpoint, PlacesBreakpoint, PlacesBreakpoints};
ghost use Rattle.ga_dap_control.specs.inner.{placement_of_progress};

use crate::configuration::{BreakpointKind, PlacedBreakpoint};
use crate::finding::{BreakpointLocation, resolve_breakpoint_location};
use crate::requested_breakpoint::{PlacementError, placement_error_text, requested_breakpoint};
use ga_dap_breakpoints::Breakpoint;
use ga_dap_queries::Debuggee;
use serde_json::{Value, json, push};
use std::alloc::{AllocError, Global};

/// What came of the breakpoints of a request so far.
#[derive(Drop)]
pub struct PlacementProgress {
    /// What is sent for each breakpoint.
    pub told: Vec<Value>,
    /// The breakpoints that are set.
    pub placed: Vec<PlacedBreakpoint>,
    /// The number of the next breakpoint.
    pub next: u64,
}

#[tactic(auto, unfolding(crate::specs::Placing::unverified_breakpoint_object))]
fn unverified(alloc: Global, id: u64, why: &str) -> Result<Value, AllocError>
    ensures { IfOk result (λ v. view v ≡ unverified_breakpoint_object id why.now) }
{
    json!(in alloc; {"id": id, "message": why, "verified": false})
}

#[tactic(auto, unfolding(crate::specs::Placing::verified_breakpoint_object))]
fn verified(alloc: Global, id: u64) -> Result<Value, AllocError>
    ensures { IfOk result (λ v. view v ≡ verified_breakpoint_object id) }
{
    json!(in alloc; {"id": id, "verified": true})
}

#[tactic(auto, unfolding(crate::specs::Placing::verified_line_breakpoint_object))]
fn verified_on_line(
    alloc: Global,
    name: &str,
    path: &str,
    id: u64,
    line: u32,
) -> Result<Value, AllocError>
    ensures { IfOk result (λ v. view v ≡ verified_line_breakpoint_object name.now path.now id line) }
{
    json!(in alloc; {"id": id, "line": line, "source": {"name": name, "path": path}, "verified": true})
}

fn breakpoint_object_with_line_if_any(
    alloc: Global,
    program: &Debuggee,
    id: u64,
    line: Option<u32>,
) -> Result<Value, AllocError>
    ensures { IfOk result (λ v. view v ≡ breakpoint_object_with_line_if_any program.now id line) }
{
    match line {
        Some(line) => {
            verified_on_line(
                alloc,
                program.name.as_str(),
                program.path.as_str(),
                id,
                line,
            )
        }
        None => verified(alloc, id),
    }
}

/// What is sent for a breakpoint.
fn breakpoint_object(
    alloc: Global,
    program: &Debuggee,
    family: BreakpointKind,
    id: u64,
    found: Result<BreakpointLocation, PlacementError>,
) -> Result<Value, AllocError>
    ensures { IfOk result (λ v. view v ≡ breakpoint_object program.now family id found) }
{
    match found {
        Ok(found) => breakpoint_object_with_line_if_any(alloc, program, id, found.line),
        Err(why) => unverified(alloc, id, placement_error_text(family, why)),
    }
}

/// Adds a breakpoint that was found.
fn add_found(
    placed: &mut Vec<PlacedBreakpoint>,
    family: BreakpointKind,
    id: u64,
    found: Result<BreakpointLocation, PlacementError>,
) -> Result<(), AllocError>
    ensures { OnOk result (placed.new.items ≡ placed.old.items ++ placed_breakpoint_or_empty family id found) }
{
    match found {
        Ok(found) => add_one(placed, family, id, found.breakpoint),
        Err(_) => Ok(()),
    }
}

fn add_one(
    placed: &mut Vec<PlacedBreakpoint>,
    family: BreakpointKind,
    id: u64,
    breakpoint: Breakpoint,
) -> Result<(), AllocError>
    ensures { OnOk result (placed.new.items ≡ placed.old.items ++ record { breakpoint = breakpoint; family = family; id = id } ∷ []) }
{
    placed.push(PlacedBreakpoint {
        breakpoint,
        family,
        id,
    })?;
    Ok(())
}

/// Sets a breakpoint at the place that was found, and reports it.
fn place_found(
    alloc: Global,
    program: &Debuggee,
    family: BreakpointKind,
    found: Result<BreakpointLocation, PlacementError>,
    placing: &mut PlacementProgress,
) -> Result<(), AllocError>
    ensures { OnOk result (placement_of_progress placing.new ≡ placement_after_breakpoint program.now family found (placement_of_progress placing.old)) }
{
    let id = placing.next;
    let told = breakpoint_object(alloc, program, family, id, found)?;
    push(&mut placing.told, told)?;
    add_found(&mut placing.placed, family, id, found)?;
    placing.next = id.wrapping_add(1);
    Ok(())
}

/// Sets a requested breakpoint if it has a place, and reports it.
fn place_one(
    alloc: Global,
    program: &Debuggee,
    family: BreakpointKind,
    asked: &Value,
    placing: &mut PlacementProgress,
) -> Result<(), AllocError>
    ensures { OnOk result (PlacesBreakpoint program.now family (view asked.now) (placement_of_progress placing.old) (placement_of_progress placing.new)) }
{
    let found = resolve_breakpoint_location(program, family, asked);
    let names = program.source_debug_info().names.as_slice();
    let asked = requested_breakpoint(names, found, placing.placed.len(), asked);
    place_found(alloc, program, family, asked, placing)
}

/// Sets each requested breakpoint that has a place, and reports it.
#[tactic(auto, using(crate::proofs::Placed::places_on, crate::proofs::Placed::behind_one))]
pub(crate) fn place_all(
    alloc: Global,
    program: &Debuggee,
    family: BreakpointKind,
    asked: &[Value],
    placing: &mut PlacementProgress,
) -> Result<(), AllocError>
    ensures { OnOk result (PlacesBreakpoints program.now family (map view asked.now) (placement_of_progress placing.old) (placement_of_progress placing.new)) }
{
    'asked: for one in asked {
        place_one(alloc, program, family, one, placing)?;
    }
    Ok(())
}
