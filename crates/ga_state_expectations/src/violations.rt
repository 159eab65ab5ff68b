//! Whether an event violates an expectation.

ghost use Rattle.std.specs.Prelude.{◌≡◌};
ghost use Rattle.ga_scheduler.specs.Watched.{IsReportOfNewestEvent};
ghost use Rattle.ga_state_expectations.specs.Violations.{is_unexpected_word, is_unexpected_transfer, never_condition_holds, one_never_condition_holds, violates_expectation};
ghost use Rattle.ga_state_expectations.specs.Knowledge.{expectation_link_words};

use crate::source::Expectation;
use ga_lab::{Lab, MadeEvent};
use ga_state_conditions::StateCondition;
use ga_state_links::LinkExpectation;

/// Whether a word that passes over the link after this number of others isn't allowed.
pub(crate) fn is_unexpected_word(expected: &LinkExpectation, before: u32, word: u32) -> bool
    ensures { result ≡ is_unexpected_word expected.now before word }
{
    match expected.words.as_slice().get(before as usize) {
        Some(wanted) => *wanted != word,
        None => !expected.is_open,
    }
}

/// Whether the event transfers a word over the link that isn't allowed: the one with this number, from 1 on.
pub(crate) fn is_unexpected_transfer(
    expected: &LinkExpectation,
    number: u32,
    made: &MadeEvent,
) -> bool
    ensures { result ≡ is_unexpected_transfer expected.now number made.now }
{
    match made {
        MadeEvent::Own { .. } => false,
        MadeEvent::Pass {
            writer,
            reader,
            word,
            ..
        } => {
            writer.number == expected.from.number
                && reader.number == expected.to.number
                && is_unexpected_word(expected, number.saturating_sub(1), word.get())
        }
    }
}

/// Whether a condition that should never hold, holds right after the newest event. That a node is stuck is seen from no one event.
fn never_condition_holds(condition: &StateCondition, made: &MadeEvent, lab: &Lab) -> bool
    requires { IsReportOfNewestEvent lab.now made.now }
    ensures { result ≡ never_condition_holds condition.now made.now lab.now }
{
    match condition {
        StateCondition::HoldsAfterEvent(condition) => condition.holds_after_newest_event(made, lab),
        StateCondition::NodeIsStuck(_) => false,
    }
}

/// Whether one of the conditions that should never hold does.
fn one_never_condition_holds(conditions: &[StateCondition], made: &MadeEvent, lab: &Lab) -> bool
    requires { IsReportOfNewestEvent lab.now made.now }
    ensures { result ≡ one_never_condition_holds conditions.now made.now lab.now }
{
    conditions
        .iter()
        .any(|condition| never_condition_holds(condition, made, lab))
}

/// Whether the newest event violates the expectation. With it, `words` words passed over the expectation's link.
pub(crate) fn violates_expectation(
    expectation: &Expectation,
    words: u32,
    made: &MadeEvent,
    lab: &Lab,
) -> bool
    requires newest { IsReportOfNewestEvent lab.now made.now }
    requires words { words ≡ expectation_link_words expectation.now lab.now }
    ensures { result ≡ violates_expectation expectation.now made.now lab.now }
{
    match expectation {
        Expectation::NodeAtEveryEnd(_) => false,
        Expectation::Never(conditions) => {
            one_never_condition_holds(conditions.as_slice(), made, lab)
        }
        Expectation::LinkPassesWords(expected) => is_unexpected_transfer(expected, words, made),
        Expectation::EveryOrderEnds => false,
        Expectation::OneEnd => false,
    }
}
