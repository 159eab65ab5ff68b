//! The status of an expectation in a session: over its history and the chip now.

ghost use Rattle.std.specs.Prelude.{◌≡◌, None};
ghost use Rattle.ga_causal.specs.Dependence.{is_node_flagged};
ghost use Rattle.ga_event.specs.Told.{made_event_at_place};
ghost use Rattle.ga_lab.specs.Machine.{machine_events_with_outcomes};
ghost use Rattle.ga_state_expectations.specs.Statuses.{held_if_quiet, node_status, node_if_stuck, first_stuck_node, stuck_status, never_status, fault_of_unexpected_word, first_link_fault, optional_link_fault_status, link_status_without_fault, link_status, expectation_status};
ghost use Rattle.ga_scheduler.specs.Words.{link_transfers};

use crate::breaking::oldest_event_of_never;
use crate::expectation::NodeExpectation;
use crate::observation::{NodeObservation, observation_for_requirement};
use crate::source::Expectation;
use crate::violations::is_unexpected_word;
use ga_grid::NodeId;
use ga_lab::{Lab, MadeEvent};
use ga_scheduler::TransferIter;
use ga_state_conditions::StateCondition;
use ga_state_links::{LinkExpectation, LinkFault};

/// What breaks an expectation in a session.
#[derive(Clone, Copy, PartialEq, Eq, Debug)]
pub enum SessionBreach {
    /// No event is possible, and the node has this.
    Unmet(NodeObservation),
    /// The first event after which one of the conditions held.
    Reached(MadeEvent),
    /// The node is deadlocked.
    Stuck(NodeId),
    /// A word over a link that isn't the expected one, or never comes; and the number of words that came before it.
    OverLink { place: u32, fault: LinkFault },
}

/// The status of an expectation.
#[derive(Clone, Copy, PartialEq, Eq, Debug)]
pub enum ExpectationStatus {
    /// Nothing that may still come can break it.
    Held,
    /// This broke it, and nothing that may still come changes this.
    Broken(SessionBreach),
    /// It depends on what comes, or on other orders.
    Pending,
}

/// It is held if no event is possible.
fn held_if_quiet(is_quiet: bool) -> ExpectationStatus
    ensures { result ≡ held_if_quiet is_quiet }
{
    if is_quiet {
        ExpectationStatus::Held
    } else {
        ExpectationStatus::Pending
    }
}

/// The status of the expectation of a node at each end.
fn node_status(lab: &Lab, is_quiet: bool, expected: &NodeExpectation) -> ExpectationStatus
    ensures { result ≡ node_status is_quiet expected.now lab.now }
{
    if !is_quiet {
        return ExpectationStatus::Pending;
    }
    let node = lab.node(expected.node);
    if expected.is_satisfied_by_node(node) {
        ExpectationStatus::Held
    } else {
        ExpectationStatus::Broken(SessionBreach::Unmet(observation_for_requirement(
            &expected.requirement,
            node,
        )))
    }
}

/// The node that should never be stuck, if it is deadlocked.
fn stuck_node(stuck: &[bool; 144], condition: &StateCondition) -> Option<NodeId>
    ensures { result ≡ node_if_stuck (is_node_flagged stuck.now) condition.now None }
{
    match condition {
        StateCondition::HoldsAfterEvent(_) => None,
        StateCondition::NodeIsStuck(node) => {
            if stuck[node.index()] {
                Some(*node)
            } else {
                None
            }
        }
    }
}

/// The first node that should never be stuck, and is deadlocked.
#[tactic(auto, using(crate::proofs::StuckNodes::found_here, crate::proofs::StuckNodes::none_here, crate::proofs::StuckNodes::no_more))]
fn first_stuck_node(stuck: &[bool; 144], conditions: &[StateCondition]) -> Option<NodeId>
    ensures { result ≡ first_stuck_node (is_node_flagged stuck.now) conditions.now }
{
    for condition in conditions {
        if let Some(node) = stuck_node(stuck, condition) {
            return Some(node);
        }
    }
    None
}

/// The status of conditions that should never hold, and after no event did.
fn stuck_status(
    stuck: &[bool; 144],
    is_quiet: bool,
    conditions: &[StateCondition],
) -> ExpectationStatus
    ensures { result ≡ stuck_status (is_node_flagged stuck.now) is_quiet conditions.now }
{
    match first_stuck_node(stuck, conditions) {
        Some(node) => ExpectationStatus::Broken(SessionBreach::Stuck(node)),
        None => held_if_quiet(is_quiet),
    }
}

/// The status of conditions that should never hold.
fn never_status(
    lab: &Lab,
    stuck: &[bool; 144],
    is_quiet: bool,
    conditions: &[StateCondition],
) -> ExpectationStatus
    ensures { result ≡ never_status (is_node_flagged stuck.now) is_quiet conditions.now lab.now }
{
    let Some(place) = oldest_event_of_never(lab, conditions) else {
        return stuck_status(stuck, is_quiet, conditions);
    };
    match lab.made_event_at(place) {
        Some(made) => ExpectationStatus::Broken(SessionBreach::Reached(made)),
        None => ExpectationStatus::Pending,
    }
}

/// How a word breaks the expectation that isn't allowed after this number of others.
fn fault_of_unexpected_word(expected: &LinkExpectation, before: u32, word: u32) -> LinkFault
    ensures { result ≡ fault_of_unexpected_word expected.now before word }
{
    if (before as usize) < expected.words.len() {
        LinkFault::OtherWord(word)
    } else {
        LinkFault::ExtraWord(word)
    }
}

/// The status of the words over a link of which none isn't allowed.
fn link_status_without_fault(
    expected: &LinkExpectation,
    is_quiet: bool,
    words: u32,
) -> ExpectationStatus
    ensures { result ≡ link_status_without_fault expected.now is_quiet words }
{
    if (words as usize) < expected.words.len() {
        if is_quiet {
            ExpectationStatus::Broken(SessionBreach::OverLink {
                place: words,
                fault: LinkFault::MissingWord,
            })
        } else {
            ExpectationStatus::Pending
        }
    } else if expected.is_open {
        ExpectationStatus::Held
    } else {
        held_if_quiet(is_quiet)
    }
}

/// The status of the words over a link.
fn link_status(lab: &Lab, is_quiet: bool, expected: &LinkExpectation) -> ExpectationStatus
    ensures { result ≡ link_status is_quiet expected.now lab.now }
{
    // No more words than the steps of the node that gives them, so they can be counted.
    let steps = lab.steps(expected.from);
    prove!(steps <= u32::MAX);
    let mut words = TransferIter::new(expected.from, expected.to);
    let mut place = 0u32;
    'words: while let Some(sent) = words.next(lab) {
        let word = sent.word.get();
        if is_unexpected_word(expected, place, word) {
            return ExpectationStatus::Broken(SessionBreach::OverLink {
                place,
                fault: fault_of_unexpected_word(expected, place, word),
            });
        }
        place += 1;
    }
    link_status_without_fault(expected, is_quiet, place)
}

/// The status of an expectation, where these nodes are deadlocked and an event is possible or none is. Allocates nothing. Takes time linear in the number of
/// events, for each condition that should never hold; or in the number of steps of one end of a link.
pub fn expectation_status(
    lab: &Lab,
    stuck: &[bool; 144],
    is_quiet: bool,
    expectation: &Expectation,
) -> ExpectationStatus
    ensures { result ≡ expectation_status (is_node_flagged stuck.now) is_quiet expectation.now lab.now }
{
    match expectation {
        Expectation::NodeAtEveryEnd(expected) => node_status(lab, is_quiet, expected),
        Expectation::Never(conditions) => {
            never_status(lab, stuck, is_quiet, conditions.as_slice())
        }
        Expectation::LinkPassesWords(expected) => link_status(lab, is_quiet, expected),
        Expectation::EveryOrderEnds => ExpectationStatus::Pending,
        Expectation::OneEnd => ExpectationStatus::Pending,
    }
}
