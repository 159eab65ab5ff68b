//! What is known of expectations during a run, so that each event is tested without a search of the history.

ghost use Rattle.std.specs.Prelude.{◌≡◌, ◌+◌, ℕ, false, length, slice_index_or, IfOk};
ghost use Rattle.ga_state_expectations.specs.Knowledge.{expectation_link_words, AreLinkWordCounts};
ghost use Rattle.ga_state_expectations.specs.inner.{WereLinkWordCounts, event_link_words};

use crate::source::{Expectation, LineExpectation};
use crate::testing::breaks_one_expectation;
use ga_lab::{Lab, MadeEvent};
use ga_scheduler::{count_transfers, count_transfers_after};
use std::alloc::{AllocError, Global};

/// What is known of some expectations after an event: with it the next event is tested without a search of the history.
#[derive(Drop)]
pub struct ExpectationKnowledge {
    /// The number of words that passed over the link of each expectation; 0 for an expectation of no link.
    pub words: Vec<u32>,
    /// Of each expectation, whether it is known to be broken.
    pub broken: Vec<bool>,
}

/// The number of words that passed over the expectation's link.
fn count_link_words(lab: &Lab, expectation: &Expectation) -> u32
    ensures { result ≡ expectation_link_words expectation.now lab.now }
{
    match expectation {
        Expectation::NodeAtEveryEnd(_) => 0,
        Expectation::Never(_) => 0,
        Expectation::LinkPassesWords(expected) => count_transfers(lab, expected.from, expected.to),
        Expectation::EveryOrderEnds => 0,
        Expectation::OneEnd => 0,
    }
}

/// The number of words that passed over the link of each expectation.
fn count_all_link_words(
    alloc: Global,
    lab: &Lab,
    expectations: &[LineExpectation],
) -> Result<Vec<u32>, AllocError>
    ensures size { IfOk result (λ words. length words.items ≡ length expectations.now) }
    ensures words { IfOk result (λ words. AreLinkWordCounts expectations.now lab.now words.items) }
{
    let mut words = Vec::new(alloc);
    'lines: for one in expectations {
        words.push(count_link_words(lab, &one.expectation))?;
    }
    Ok(words)
}

/// The number of words that passed over the expectation's link right after the newest event, given how many had before.
fn link_words_after(words: u32, expectation: &Expectation, made: &MadeEvent, lab: &Lab) -> u32
    requires { expectation_link_words expectation.now lab.now ≡ words + event_link_words expectation.now made.now }
    ensures { result ≡ expectation_link_words expectation.now lab.now }
{
    match expectation {
        Expectation::NodeAtEveryEnd(_) => words,
        Expectation::Never(_) => words,
        Expectation::LinkPassesWords(expected) => {
            count_transfers_after(lab, words, made, expected.from, expected.to)
        }
        Expectation::EveryOrderEnds => words,
        Expectation::OneEnd => words,
    }
}

/// Counts the word that the newest event carried.
fn count_event(words: &mut [u32], expectations: &[LineExpectation], made: &MadeEvent, lab: &Lab)
    requires size { length words.old ≡ length expectations.now }
    requires words { WereLinkWordCounts expectations.now lab.now made.now words.old }
    ensures size { length words.new ≡ length expectations.now }
    ensures words { AreLinkWordCounts expectations.now lab.now words.new }
{
    if let MadeEvent::Own { .. } = made {
        return;
    }
    'lines: for (place, one) in expectations.iter().enumerate() {
        words[place] = link_words_after(words[place], &one.expectation, made, lab);
    }
}

/// A flag for each expectation: none is known to be broken.
fn none_broken(alloc: Global, expectations: &[LineExpectation]) -> Result<Vec<bool>, AllocError>
    ensures flags { IfOk result (λ broken. length broken.items ≡ length expectations.now) }
    ensures none { IfOk result (λ broken. (k : ℕ) → slice_index_or broken.items k false ≡ false) }
{
    Ok(vec![in alloc; false; expectations.len()]?)
}

impl ExpectationKnowledge {
    ghost use Rattle.std.specs.Prelude.{◌≡◌, IfOk};
    ghost use Rattle.ga_lab.specs.Machine.{MachineState};
    ghost use Rattle.ga_scheduler.specs.Watched.{IsReportOfNewestEvent, IsRunStep};
    ghost use Rattle.ga_state_expectations.specs.Breaking.{breaks_one_expectation};
    ghost use Rattle.ga_state_expectations.specs.Knowledge.{IsExpectationKnowledge};

    /// What is known of the expectations at the beginning of a run. Takes memory for a number and a flag for each. The time is
    /// linear in the number of steps of one end of each link.
    ///
    /// # Errors
    /// Out of memory.
    pub fn at_begin_of_run(
        alloc: Global,
        lab: &Lab,
        expectations: &[LineExpectation],
    ) -> Result<Self, AllocError>
        ensures { IfOk result (IsExpectationKnowledge expectations.now lab.now) }
    {
        let words = count_all_link_words(alloc, lab, expectations)?;
        let broken = none_broken(alloc, expectations)?;
        Ok(ExpectationKnowledge { words, broken })
    }

    /// Whether the newest event broke one of the expectations, of which this was known before it; then it is known after it. The
    /// time is linear in the number of expectations; and in that of the events in the history, once for each expectation that an
    /// event violates.
    pub fn breaks_one_expectation(
        &mut self,
        expectations: &[LineExpectation],
        made: &MadeEvent,
        lab: &Lab,
    ) -> bool
        requires newest { IsReportOfNewestEvent lab.now made.now }
        requires known { (before : MachineState) × IsExpectationKnowledge expectations.now before self.old × IsRunStep before lab.now made.now }
        ensures answer { result ≡ breaks_one_expectation expectations.now lab.now }
        ensures known { IsExpectationKnowledge expectations.now lab.now self.new }
    {
        count_event(self.words.as_mut_slice(), expectations, made, lab);
        breaks_one_expectation(
            expectations,
            self.words.as_slice(),
            self.broken.as_mut_slice(),
            made,
            lab,
        )
    }
}
