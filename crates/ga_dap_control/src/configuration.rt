//! What the client set: breakpoints, and which faults end a run.

ghost use Rattle.std.specs.Prelude.{◌≡◌, map, IfOk};
ghost use Rattle.ga_dap_control.specs.declared.configuration.PlacedBreakpoint.{PlacedBreakpoint as ASetBy};
ghost use Rattle.ga_dap_control.specs.Breakpoints.{breakpoint_kind_number, is_other_breakpoint_kind};
ghost use Rattle.ga_dap_control.specs.Stopping.{is_placed_breakpoint_hit};

use ga_dap_breakpoints::{Breakpoint, HaltConditions, HitTally, is_event_hit_meeting_condition};
use ga_lab::{Lab, MadeEvent};
use ga_state_expectations::LineExpectation;
use std::alloc::{AllocError, Global};

/// Which request set a breakpoint.
#[derive(Clone, Copy, PartialEq, Eq, Debug)]
pub enum BreakpointKind {
    /// `setBreakpoints`.
    Source,
    /// `setFunctionBreakpoints`.
    Function,
    /// `setInstructionBreakpoints`.
    Instruction,
    /// `setDataBreakpoints`.
    Data,
}

/// A breakpoint, with the request that set it, and the number by which the client knows it.
#[derive(Clone, Copy, PartialEq, Eq, Debug)]
pub struct PlacedBreakpoint {
    pub breakpoint: Breakpoint,
    pub family: BreakpointKind,
    pub id: u64,
}

/// The breakpoints that are set.
#[derive(Drop)]
pub struct BreakpointSet {
    pub points: Vec<Breakpoint>,
    /// The breakpoints that are set, with who set them.
    pub placed: Vec<PlacedBreakpoint>,
    /// The number of the next breakpoint.
    pub next_id: u64,
}

/// What the client set.
#[derive(Drop)]
pub struct Configuration {
    /// The breakpoints.
    pub points: BreakpointSet,
    /// Filter `stop`: a node that stops ends a run.
    pub stops: bool,
    /// Filter `stuck`: a node that can never go on ends a run.
    pub stuck: bool,
    /// Filter `broken`: an event that breaks an expectation of the source ends a run.
    pub broken: bool,
}

fn breakpoint_kind_number(family: BreakpointKind) -> u8
    ensures { result ≡ breakpoint_kind_number family }
{
    match family {
        BreakpointKind::Source => 0,
        BreakpointKind::Function => 1,
        BreakpointKind::Instruction => 2,
        BreakpointKind::Data => 3,
    }
}

/// Whether another request set a breakpoint.
fn is_other_breakpoint_kind(family: BreakpointKind, one: PlacedBreakpoint) -> bool
    ensures { result ≡ is_other_breakpoint_kind family one }
{
    breakpoint_kind_number(one.family) != breakpoint_kind_number(family)
}

/// The breakpoints of a list, without who set them.
pub(crate) fn breakpoints_of(
    alloc: Global,
    placed: &[PlacedBreakpoint],
) -> Result<Vec<Breakpoint>, AllocError>
    ensures { IfOk result (λ list. list.items ≡ map (λ (one : ASetBy). one.breakpoint) placed.now) }
{
    let mut list = Vec::new(alloc);
    'placed: for one in placed {
        list.push(one.breakpoint)?;
    }
    Ok(list)
}

/// Whether this event, the newest, hit a breakpoint and satisfied its hit condition.
#[tactic(auto, unfolding(crate::specs::Stopping::is_placed_breakpoint_hit))]
fn is_placed_breakpoint_hit(lab: &Lab, made: &MadeEvent, one: PlacedBreakpoint) -> bool
    ensures { result ≡ is_placed_breakpoint_hit made.now lab.now one }
{
    is_event_hit_meeting_condition(lab, made, &one.breakpoint)
}

/// The numbers of some breakpoints.
fn ids_of(alloc: Global, placed: &[PlacedBreakpoint]) -> Result<Vec<u64>, AllocError>
    ensures { IfOk result (λ list. list.items ≡ map (λ (one : ASetBy). one.id) placed.now) }
{
    let mut list = Vec::new(alloc);
    'placed: for one in placed {
        list.push(one.id)?;
    }
    Ok(list)
}

impl BreakpointSet {
    ghost use Rattle.std.specs.Prelude.{◌≡◌, [], filter, IfOk};
    ghost use Rattle.std.specs.List.{slice_get};
    ghost use Rattle.ga_dap_control.specs.Breakpoints.{is_other_breakpoint_kind};
    ghost use Rattle.ga_dap_control.specs.Stopping.{is_placed_breakpoint_hit, hit_breakpoint_ids};

    /// No breakpoints.
    pub fn none(alloc: Global) -> Self
        ensures points { result.points.items ≡ [] }
        ensures placed { result.placed.items ≡ [] }
        ensures next { result.next_id ≡ 1 }
    {
        BreakpointSet {
            points: Vec::new(alloc),
            placed: Vec::new(alloc),
            next_id: 1,
        }
    }

    /// The breakpoints that other requests set.
    pub fn breakpoints_of_other_kinds(
        &self,
        alloc: Global,
        family: BreakpointKind,
    ) -> Result<Vec<PlacedBreakpoint>, AllocError>
        ensures { IfOk result (λ list. list.items ≡ filter (is_other_breakpoint_kind family) self.now.placed.items) }
    {
        let mut list = Vec::new(alloc);
        'placed: for one in &self.placed {
            if is_other_breakpoint_kind(family, *one) {
                list.push(*one)?;
            }
        }
        Ok(list)
    }

    /// The breakpoints that the newest event hits, by their hit conditions.
    fn hits(
        &self,
        alloc: Global,
        lab: &Lab,
        made: &MadeEvent,
    ) -> Result<Vec<PlacedBreakpoint>, AllocError>
        ensures { IfOk result (λ list. list.items ≡ filter (is_placed_breakpoint_hit made.now lab.now) self.now.placed.items) }
    {
        let mut list = Vec::new(alloc);
        'placed: for one in &self.placed {
            if is_placed_breakpoint_hit(lab, made, *one) {
                list.push(*one)?;
            }
        }
        Ok(list)
    }

    /// The numbers of the breakpoints that the newest event hits, by their hit conditions.
    pub fn hit_breakpoint_ids(
        &self,
        alloc: Global,
        lab: &Lab,
        made: &MadeEvent,
    ) -> Result<Vec<u64>, AllocError>
        ensures { IfOk result (λ ids. ids.items ≡ hit_breakpoint_ids made.now lab.now self.now.placed.items) }
    {
        let hits = self.hits(alloc, lab, made)?;
        ids_of(alloc, hits.as_slice())
    }

    /// The breakpoint at a place.
    pub fn breakpoint_at_index(&self, place: usize) -> Option<Breakpoint>
        ensures { result ≡ slice_get self.now.points.items place }
    {
        match self.points.get(place) {
            Some(point) => Some(*point),
            None => None,
        }
    }
}

impl Configuration {
    ghost use Rattle.std.specs.Prelude.{◌≡◌, [], true};

    /// What is set before the client sets anything: no breakpoint, and each fault ends a run.
    pub fn new(alloc: Global) -> Self
        ensures points { result.points.points.items ≡ [] }
        ensures placed { result.points.placed.items ≡ [] }
        ensures next { result.points.next_id ≡ 1 }
        ensures stops { result.stops ≡ true }
        ensures stuck { result.stuck ≡ true }
        ensures broken { result.broken ≡ true }
    {
        Configuration {
            points: BreakpointSet::none(alloc),
            stops: true,
            stuck: true,
            broken: true,
        }
    }

    /// What ends a run early, where these expectations are watched and each breakpoint was hit so often.
    pub fn halt_conditions_with_tally<'b>(
        &'b self,
        expectations: &'b [LineExpectation],
        tally: HitTally,
    ) -> HaltConditions<'b>
        ensures expectations { result.expectations.now ≡ expectations.now }
        ensures points { result.breakpoints.now ≡ self.now.points.points.items }
        ensures stops { result.stops ≡ self.now.stops }
        ensures hits { result.tally ≡ tally }
    {
        HaltConditions {
            breakpoints: self.points.points.as_slice(),
            expectations,
            stops: self.stops,
            tally,
        }
    }
}
