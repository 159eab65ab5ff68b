//! The event that broke an expectation: the oldest in the history that violates it.

ghost use Rattle.std.specs.Prelude.{◌≡◌, ◌<◌, ◌≤◌, ◌+◌, length, if◌then◌else◌, Some, None, IfSome};
ghost use Rattle.ga_state_expectations.specs.Breaking.{later_place, is_last_place, oldest_event_of_never_condition, oldest_event_of_never, oldest_unexpected_transfer, oldest_violation, place_if_considered, newest_breach};
ghost use Rattle.ga_scheduler.specs.Words.{transfers_over_link_by_event};

use crate::source::{Expectation, LineExpectation};
use crate::violations::is_unexpected_transfer;
use ga_grid::NodeId;
use ga_lab::{Lab, MadeEvent};
use ga_scheduler::{
    count_transfers, earlier_place, find_oldest_matching_event, is_step_of_optional_node,
    is_transfer_over_link,
};
use ga_state_conditions::StateCondition;
use ga_state_links::LinkExpectation;

/// The later of two places, of which there may be none.
pub(crate) fn later_place(place: Option<u32>, other: Option<u32>) -> Option<u32>
    ensures { result ≡ later_place place other }
{
    match place {
        Some(place) => match other {
            Some(other) => Some(place.max(other)),
            None => Some(place),
        },
        None => other,
    }
}

/// The place of the oldest event after which a condition held that should never. That a node is stuck is seen from no one event.
fn oldest_event_of_never_condition(lab: &Lab, condition: &StateCondition) -> Option<u32>
    ensures { result ≡ oldest_event_of_never_condition condition.now lab.now }
{
    match condition {
        StateCondition::HoldsAfterEvent(condition) => find_oldest_matching_event(
            lab,
            &[*condition],
        ),
        StateCondition::NodeIsStuck(_) => None,
    }
}

/// The place of the oldest event after which one of the conditions held that should never.
#[tactic(auto, using(crate::proofs::Breaches::one_condition_more, crate::proofs::Breaches::no_condition_more))]
pub(crate) fn oldest_event_of_never(lab: &Lab, conditions: &[StateCondition]) -> Option<u32>
    ensures { result ≡ oldest_event_of_never conditions.now lab.now }
{
    let mut oldest = None;
    'conditions: for condition in conditions {
        oldest = earlier_place(oldest, oldest_event_of_never_condition(lab, condition));
    }
    oldest
}

/// How many words had passed over the link before an event, given how many had with it.
fn words_before(words: u32, expected: &LinkExpectation, made: &MadeEvent) -> u32
    requires { transfers_over_link_by_event expected.now.from.number expected.now.to.number made.now ≤ words }
    ensures { result + transfers_over_link_by_event expected.now.from.number expected.now.to.number made.now ≡ words }
{
    if is_transfer_over_link(made, expected.from, expected.to) {
        words - 1
    } else {
        words
    }
}

/// The place, if the event there violates an expectation.
fn place_if(is_unexpected: bool, place: u32) -> Option<u32>
    ensures { result ≡ (if is_unexpected then Some place else None) }
{
    if is_unexpected { Some(place) } else { None }
}

/// The place of the oldest event that transferred a word over the link that isn't allowed.
fn oldest_unexpected_transfer(lab: &Lab, expected: &LinkExpectation) -> Option<u32>
    ensures { result ≡ oldest_unexpected_transfer expected.now lab.now (length lab.now.kept) }
{
    // It is called for its contract only: the history can be replayed.
    lab.chip();
    let mut events = lab.backward_reader();
    let mut words = count_transfers(lab, expected.from, expected.to);
    let mut place = lab.counts().kept;
    let mut oldest = None;
    while place > 0 {
        let Some(made) = events.back() else {
            return oldest;
        };
        let here = place_if(is_unexpected_transfer(expected, words, &made), place - 1);
        oldest = earlier_place(here, oldest);
        words = words_before(words, expected, &made);
        place -= 1;
    }
    oldest
}

/// The place of the oldest event that violates the expectation: that broke it.
pub(crate) fn oldest_violation(lab: &Lab, expectation: &Expectation) -> Option<u32>
    ensures { result ≡ oldest_violation expectation.now lab.now }
{
    match expectation {
        Expectation::NodeAtEveryEnd(_) => None,
        Expectation::Never(conditions) => oldest_event_of_never(lab, conditions.as_slice()),
        Expectation::LinkPassesWords(expected) => oldest_unexpected_transfer(lab, expected),
        Expectation::EveryOrderEnds => None,
        Expectation::OneEnd => None,
    }
}

/// Whether a place is that of the newest event.
pub(crate) fn is_last_place(lab: &Lab, place: Option<u32>) -> bool
    ensures { result ≡ is_last_place place (length lab.now.kept) }
{
    match place {
        Some(place) => u64::from(lab.counts().kept) == u64::from(place) + 1,
        None => false,
    }
}

/// A place, if the event there is considered: each one is, or each step of a node.
fn place_if_considered(lab: &Lab, only: Option<NodeId>, place: Option<u32>) -> Option<u32>
    ensures value { result ≡ place_if_considered only lab.now place }
    ensures within { IfSome result (λ place. place < length lab.now.kept) }
{
    let place = place?;
    let made = lab.made_event_at(place)?;
    if is_step_of_optional_node(only, &made) {
        Some(place)
    } else {
        None
    }
}

/// The place of the newest event that is considered and broke one of the expectations.
#[tactic(auto, using(crate::proofs::Breaches::one_line_more, crate::proofs::Breaches::no_line_more, crate::proofs::Breaches::later_within))]
pub(crate) fn newest_breach(
    lab: &Lab,
    expectations: &[LineExpectation],
    only: Option<NodeId>,
) -> Option<u32>
    ensures value { result ≡ newest_breach expectations.now only lab.now }
    ensures within { IfSome result (λ place. place < length lab.now.kept) }
{
    let mut newest = None;
    'lines: for one in expectations {
        let broken = place_if_considered(lab, only, oldest_violation(lab, &one.expectation));
        newest = later_place(newest, broken);
    }
    newest
}
