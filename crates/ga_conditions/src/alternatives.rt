//! Some conditions with `or` between them, as text.

ghost use Rattle.std.specs.Prelude.{◌≡◌, ◌≤◌, length, drop, if◌then◌else◌, IsTrue, Some, None, option_map};
ghost use Rattle.ga_conditions.specs.Conditions.{text_after_or_keyword, split_at_or_keyword, split_first_condition, parsed_condition, parsed_run_conditions, never_holding_conditions, parsed_until_conditions};

use crate::condition::parse_run_condition;
use ga_debug_info::DebugInfo;
use ga_scheduler::{Condition, MAX_CONDITIONS};
use ga_text::split_at_space;

/// As many conditions as a run watches at most: the given ones, and then ones that never hold.
pub type RunConditions = [Condition; MAX_CONDITIONS];

/// The conditions where none is given: each holds never.
pub fn never_holding_conditions() -> RunConditions
    ensures size { length result ≡ 8 }
    ensures value { result ≡ never_holding_conditions }
{
    [Condition::Never; MAX_CONDITIONS]
}

/// Whether a text begins with ` or `.
#[tactic(auto, unfolding(crate::specs::Conditions::text_after_or_keyword))]
fn begins_or(text: &[u8]) -> bool
    ensures rest { text_after_or_keyword text.now ≡ (if result then Some (drop 4 text.now) else None) }
    ensures long { IsTrue result → 4 ≤ length text.now }
{
    match text {
        [b' ', b'o', b'r', b' ', ..] => true,
        _ => false,
    }
}

/// What comes before the first ` or `, and what follows it.
fn split_at_or_keyword(text: &[u8]) -> Option<(&[u8], &[u8])>
    ensures { option_map (λ parts. (parts.0.now, parts.1.now)) result ≡ split_at_or_keyword text.now }
{
    for place in 0..text.len() {
        let (before, rest) = text.split_at(place);
        if begins_or(rest) {
            return Some((before, rest.split_at(4).1));
        }
    }
    None
}

/// The first condition's text, and that of the others where there are some.
pub fn split_first_condition(text: &[u8]) -> (&[u8], Option<&[u8]>)
    ensures first { result.0.now ≡ (split_first_condition text.now).0 }
    ensures others { option_map (λ others. others.now) result.1 ≡ (split_first_condition text.now).1 }
{
    match split_at_or_keyword(text) {
        Some((first, others)) => (first, Some(others)),
        None => (text, None),
    }
}

/// The condition that a text spells, of a run or of a search back; or none.
#[tactic(auto, unfolding(crate::specs::Conditions::parsed_condition))]
fn parse_condition(notes: &Option<DebugInfo>, text: &[u8]) -> Option<Condition>
    ensures { result ≡ parsed_condition notes.now text.now }
{
    if text == b"broken".as_slice() {
        Some(Condition::Broken)
    } else {
        parse_run_condition(notes, text)
    }
}

/// The conditions of a text, at most as many as a run watches; or none.
pub fn parse_conditions(notes: &Option<DebugInfo>, text: &[u8]) -> Option<RunConditions>
    ensures { result ≡ parsed_run_conditions notes.now text.now }
{
    let mut conditions = never_holding_conditions();
    let mut left = text;
    for place in 0..MAX_CONDITIONS {
        let (first, others) = split_first_condition(left);
        conditions[place] = parse_condition(notes, first)?;
        left = match others {
            Some(others) => others,
            None => return Some(conditions),
        };
    }
    None
}

/// `until` and the conditions that follow it.
#[tactic(auto, unfolding(crate::specs::Conditions::parsed_until_conditions))]
pub fn parse_until_conditions(notes: &Option<DebugInfo>, text: &[u8]) -> Option<RunConditions>
    ensures { result ≡ parsed_until_conditions notes.now text.now }
{
    let (name, rest) = split_at_space(text)?;
    match name {
        b"until" => parse_conditions(notes, rest),
        _ => None,
    }
}
