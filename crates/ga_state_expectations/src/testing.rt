//! Whether conditions hold after an event, where expectations are known.

ghost use Rattle.std.specs.Prelude.{◌≡◌, ◌≤◌, length, true, false, IsSome};
ghost use Rattle.ga_scheduler.specs.Watched.{IsReportOfNewestEvent};
ghost use Rattle.ga_state_expectations.specs.Breaking.{oldest_violation, breaks_expectation, breaks_one_expectation, line_broken_by_newest_event, condition_holds_given_breach, first_condition_given_breach};
ghost use Rattle.ga_state_expectations.specs.Knowledge.{expectation_link_words, AreLinkWordCounts, AreKnownBroken};
ghost use Rattle.ga_state_expectations.specs.inner.{IsBrokenEarlier, AreBrokenEarlier};

use crate::breaking::{is_last_place, oldest_violation};
use crate::source::{Expectation, LineExpectation};
use crate::violations::violates_expectation;
use ga_lab::{Lab, MadeEvent};
use ga_scheduler::Condition;

/// Whether the newest event broke the expectation.
fn breaks_expectation(expectation: &Expectation, lab: &Lab) -> bool
    ensures { result ≡ breaks_expectation expectation.now lab.now }
{
    is_last_place(lab, oldest_violation(lab, expectation))
}

/// The line of the first expectation that the newest event broke. The time is linear in the number of events, for each expectation.
pub fn line_broken_by_newest_event(lab: &Lab, expectations: &[LineExpectation]) -> Option<u32>
    ensures { result ≡ line_broken_by_newest_event expectations.now lab.now }
{
    'lines: for one in expectations {
        if breaks_expectation(&one.expectation, lab) {
            return Some(one.line);
        }
    }
    None
}

/// Whether an event of the history violates the expectation, as far as that is known; and whether the newest event broke it. If it is known that an earlier
/// event did, nothing is searched.
#[tactic(auto, using(crate::proofs::NewestBreach::unviolated_unbroken, crate::proofs::NewestBreach::violated_some))]
fn test_expectation(
    expectation: &Expectation,
    words: u32,
    is_known: bool,
    made: &MadeEvent,
    lab: &Lab,
) -> (bool, bool)
    requires newest { IsReportOfNewestEvent lab.now made.now }
    requires words { words ≡ expectation_link_words expectation.now lab.now }
    requires earlier { is_known ≡ true → IsBrokenEarlier expectation.now lab.now }
    ensures known { result.0 ≡ true → IsSome (oldest_violation expectation.now lab.now) }
    ensures breaks { result.1 ≡ breaks_expectation expectation.now lab.now }
{
    if is_known {
        return (true, false);
    }
    if !violates_expectation(expectation, words, made, lab) {
        return (false, false);
    }
    (true, breaks_expectation(expectation, lab))
}

/// Whether the newest event broke one of the expectations, with the number of words that passed over the link of each. Those that it violates are
/// flagged, so that the history is searched once for each.
pub(crate) fn breaks_one_expectation(
    expectations: &[LineExpectation],
    words: &[u32],
    broken: &mut [bool],
    made: &MadeEvent,
    lab: &Lab,
) -> bool
    requires newest { IsReportOfNewestEvent lab.now made.now }
    requires size { length words.now ≡ length expectations.now }
    requires flags { length broken.old ≡ length expectations.now }
    requires words { AreLinkWordCounts expectations.now lab.now words.now }
    requires earlier { AreBrokenEarlier expectations.now lab.now broken.old }
    ensures answer { result ≡ breaks_one_expectation expectations.now lab.now }
    ensures flags { length broken.new ≡ length expectations.now }
    ensures known { AreKnownBroken expectations.now lab.now broken.new }
    ensures earlier { result ≡ false → AreBrokenEarlier expectations.now lab.now broken.new }
{
    'lines: for (place, one) in expectations.iter().enumerate() {
        let (is_known, breaks) = test_expectation(
            &one.expectation,
            words[place],
            broken[place],
            made,
            lab,
        );
        broken[place] = is_known;
        if breaks {
            return true;
        }
    }
    false
}

/// Whether the condition holds right after the newest event, which broke an expectation or none.
fn condition_holds_given_breach(
    condition: &Condition,
    breaks: bool,
    made: &MadeEvent,
    lab: &Lab,
) -> bool
    requires { IsReportOfNewestEvent lab.now made.now }
    ensures { result ≡ condition_holds_given_breach breaks condition.now made.now lab.now }
{
    match condition {
        Condition::Broken => breaks,
        _ => condition.holds_after_newest_event(made, lab),
    }
}

/// The place of the first of the conditions that holds right after the newest event, which broke an expectation or none.
pub(crate) fn first_condition_given_breach(
    until: &[Condition],
    breaks: bool,
    made: &MadeEvent,
    lab: &Lab,
) -> Option<u8>
    requires few { length until.now ≤ 8 }
    requires newest { IsReportOfNewestEvent lab.now made.now }
    ensures { result ≡ first_condition_given_breach breaks until.now made.now lab.now }
{
    'conditions: for (place, condition) in until.iter().enumerate() {
        if condition_holds_given_breach(condition, breaks, made, lab) {
            return Some(place as u8);
        }
    }
    None
}
