//! A requested breakpoint with its condition and its hit condition, or why it is not set.

ghost use Rattle.std.specs.Prelude.{◌≡◌, codes, Some};
ghost use Rattle.serde_json.specs.View.{view};
ghost use Rattle.ga_dap_protocol.specs.Messages.{member_as_text};
ghost use Rattle.ga_dap_breakpoints.specs.Saying.{parse_hit_condition};
ghost use Rattle.ga_conditions.specs.Tests.{parsed_value_test};
ghost use Rattle.ga_dap_control.specs.Placing.{is_member_not_text, location_with_parsed_condition, location_with_condition, location_with_parsed_hit_condition, location_with_hit_condition, location_with_conditions, requested_breakpoint, no_location_text, placement_error_text};

use crate::configuration::BreakpointKind;
use crate::finding::BreakpointLocation;
use ga_conditions::parse_value_test;
use ga_dap_breakpoints::{Breakpoint, MAX_COUNTED_BREAKPOINTS, parse_hit_condition};
use ga_dap_protocol::member_as_text;
use ga_debug_info::LabelAddress;
use ga_scheduler::ValueTest;
use serde_json::Value;

/// Why a requested breakpoint is not set.
#[derive(Clone, Copy, PartialEq, Eq, Debug)]
pub enum PlacementError {
    /// There is no such place.
    NoSuchPlace,
    /// The breakpoint's condition can't be read.
    UnreadableCondition,
    /// The breakpoint's condition has a number that no word is.
    ConditionOutOfRange,
    /// The breakpoint's hit condition can't be read.
    UnreadableHitCondition,
    /// Hits are counted of as many breakpoints already as may be.
    TooManyCountedBreakpoints,
}

/// Why there is no such place as the request names.
fn unfound(family: BreakpointKind) -> &'static str
    ensures { result.now ≡ no_location_text family }
{
    match family {
        BreakpointKind::Source => "no code stands on this line or behind it",
        BreakpointKind::Function => "no node has this label",
        BreakpointKind::Instruction => "no such memory",
        BreakpointKind::Data => "no such cell of RAM",
    }
}

/// Why a breakpoint is not set.
pub fn placement_error_text(family: BreakpointKind, why: PlacementError) -> &'static str
    ensures { result.now ≡ placement_error_text family why }
{
    match why {
        PlacementError::NoSuchPlace => unfound(family),
        PlacementError::UnreadableCondition =>
            "condition: a register or [HH], then = != < <= > or >=, then a number, port or label",
        PlacementError::ConditionOutOfRange =>
            "condition: the number is past 0x3ffff, the last word",
        PlacementError::UnreadableHitCondition => "hitCondition: N, >= N or % N, from 1 on",
        PlacementError::TooManyCountedBreakpoints =>
            "hitCondition: hits are counted of 64 breakpoints at most",
    }
}

/// Whether a member is there, and is neither text nor null.
fn is_member_not_text(asked: &Value, name: &str) -> bool
    ensures { result ≡ is_member_not_text name.now (view asked.now) }
{
    match asked.get(name) {
        Some(given) => !given.is_string() && !given.is_null(),
        None => false,
    }
}

/// A breakpoint at a place, with this condition.
fn with_test(place: BreakpointLocation, test: ValueTest) -> BreakpointLocation
    ensures { result ≡ record place { breakpoint = record place.breakpoint { condition = Some test } } }
{
    BreakpointLocation {
        breakpoint: Breakpoint {
            condition: Some(test),
            ..place.breakpoint
        },
        ..place
    }
}

/// A breakpoint at a place, with the condition that a text says.
fn location_with_parsed_condition(
    names: &[LabelAddress],
    place: BreakpointLocation,
    text: &[u8],
) -> Result<BreakpointLocation, PlacementError>
    ensures { result ≡ location_with_parsed_condition place (parsed_value_test names.now place.breakpoint.node text.now) }
{
    match parse_value_test(names, place.breakpoint.node, text) {
        Some(test) => {
            if test.is_test_number_in_range() {
                Ok(with_test(place, test))
            } else {
                Err(PlacementError::ConditionOutOfRange)
            }
        }
        None => Err(PlacementError::UnreadableCondition),
    }
}

/// A breakpoint at a place, with the requested condition, if there is one.
fn location_with_condition(
    names: &[LabelAddress],
    place: BreakpointLocation,
    asked: &Value,
) -> Result<BreakpointLocation, PlacementError>
    ensures { result ≡ location_with_condition names.now place (is_member_not_text (codes "condition") (view asked.now)) (member_as_text (codes "condition") (view asked.now)) }
{
    if is_member_not_text(asked, "condition") {
        return Err(PlacementError::UnreadableCondition);
    }
    match member_as_text(asked, "condition") {
        Some(text) => location_with_parsed_condition(names, place, text.as_bytes()),
        None => Ok(place),
    }
}

/// A breakpoint at a place, with the hit condition of a text, given the number of breakpoints before it.
fn location_with_parsed_hit_condition(
    place: BreakpointLocation,
    before: usize,
    text: &[u8],
) -> Result<BreakpointLocation, PlacementError>
    ensures { result ≡ location_with_parsed_hit_condition place before (parse_hit_condition text.now) }
{
    match parse_hit_condition(text) {
        Some(hits) => {
            if before < MAX_COUNTED_BREAKPOINTS {
                Ok(BreakpointLocation {
                    breakpoint: Breakpoint {
                        hits: Some(hits),
                        ..place.breakpoint
                    },
                    ..place
                })
            } else {
                Err(PlacementError::TooManyCountedBreakpoints)
            }
        }
        None => Err(PlacementError::UnreadableHitCondition),
    }
}

/// A breakpoint at a place, with its hit condition, if any.
fn location_with_hit_condition(
    place: BreakpointLocation,
    before: usize,
    asked: &Value,
) -> Result<BreakpointLocation, PlacementError>
    ensures { result ≡ location_with_hit_condition place before (is_member_not_text (codes "hitCondition") (view asked.now)) (member_as_text (codes "hitCondition") (view asked.now)) }
{
    if is_member_not_text(asked, "hitCondition") {
        return Err(PlacementError::UnreadableHitCondition);
    }
    match member_as_text(asked, "hitCondition") {
        Some(text) => location_with_parsed_hit_condition(place, before, text.as_bytes()),
        None => Ok(place),
    }
}

/// The requested breakpoint at a place, if its condition and its hit condition can be parsed.
fn location_with_conditions(
    names: &[LabelAddress],
    place: BreakpointLocation,
    before: usize,
    asked: &Value,
) -> Result<BreakpointLocation, PlacementError>
    ensures { result ≡ location_with_conditions names.now place before (view asked.now) }
{
    match location_with_condition(names, place, asked) {
        Ok(place) => location_with_hit_condition(place, before, asked),
        Err(why) => Err(why),
    }
}

/// The requested breakpoint, given the labels of the program and the number of breakpoints before it; else why it is not set.
pub fn requested_breakpoint(
    names: &[LabelAddress],
    found: Option<BreakpointLocation>,
    before: usize,
    asked: &Value,
) -> Result<BreakpointLocation, PlacementError>
    ensures { result ≡ requested_breakpoint names.now found before (view asked.now) }
{
    match found {
        Some(place) => location_with_conditions(names, place, before, asked),
        None => Err(PlacementError::NoSuchPlace),
    }
}
