//! What a search shows of an expectation.

ghost use Rattle.std.specs.Prelude.{◌≡◌};
ghost use Rattle.std.specs.List.{list_any};
ghost use Rattle.ga_check_report.specs.Outcomes.{is_outcome_broken, is_outcome_unknown, outcomes_verdict};

use crate::report::Verdict;
use ga_lab::MadeEvent;
use ga_state_expectations::NodeObservation;
use ga_state_links::LinkFault;

/// What breaks an expectation.
#[derive(Clone, Copy, PartialEq, Eq, Debug)]
pub(crate) enum Breach {
    /// A state of an end, and what the node has there.
    Unmet {
        state: u32,
        observation: NodeObservation,
    },
    /// An event after which one of the conditions holds.
    Reached(MadeEvent),
    /// A word over a link that isn't the expected one, or never comes; and the number of words that come before it.
    OverLink {
        place: u32,
        fault: LinkFault,
    },
    /// Some order never ends.
    Endless,
    /// The program has this number of ends, two or more.
    SeveralEnds(usize),
}

/// What is known of an expectation.
#[derive(Clone, Copy, PartialEq, Eq, Debug)]
pub(crate) enum ExpectationOutcome {
    /// It holds in every order.
    Holds,
    /// It doesn't in some order.
    Broken(Breach),
    /// A bound was met before either was found.
    Unknown,
}

/// The types within an outcome: where outcomes are in a `Vec`, this kit's borrow checker has to meet them in the function.
pub(crate) type OutcomeParts = (Breach, NodeObservation, MadeEvent, LinkFault);

/// Whether the expectation doesn't hold in some order.
fn is_outcome_broken(outcome: ExpectationOutcome) -> bool
    ensures { result ≡ is_outcome_broken outcome }
{
    match outcome {
        ExpectationOutcome::Holds => false,
        ExpectationOutcome::Broken(_) => true,
        ExpectationOutcome::Unknown => false,
    }
}

/// Whether it isn't known.
pub(crate) fn is_outcome_unknown(outcome: ExpectationOutcome) -> bool
    ensures { result ≡ is_outcome_unknown outcome }
{
    match outcome {
        ExpectationOutcome::Holds => false,
        ExpectationOutcome::Broken(_) => false,
        ExpectationOutcome::Unknown => true,
    }
}

/// Whether one of the expectations doesn't hold in some order.
fn has_broken(outcomes: &[ExpectationOutcome]) -> bool
    ensures { result ≡ list_any is_outcome_broken outcomes.now }
{
    outcomes.iter().any(|outcome| is_outcome_broken(*outcome))
}

/// Whether one of them isn't known.
fn has_unknown(outcomes: &[ExpectationOutcome]) -> bool
    ensures { result ≡ list_any is_outcome_unknown outcomes.now }
{
    outcomes.iter().any(|outcome| is_outcome_unknown(*outcome))
}

/// Whether an expectation is broken; or else one isn't known; or each holds.
pub(crate) fn outcomes_verdict(outcomes: &[ExpectationOutcome]) -> Verdict
    ensures { result ≡ outcomes_verdict outcomes.now }
{
    if has_broken(outcomes) {
        Verdict::Unclean
    } else if has_unknown(outcomes) {
        Verdict::Unknown
    } else {
        Verdict::Clean
    }
}
