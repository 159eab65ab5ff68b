//! Runs that end at an event which breaks an expectation.

ghost use Rattle.std.specs.Prelude.{◌≡◌, ◌≤◌, length, IfOk, OnErr};
ghost use Rattle.ga_scheduler.specs.Running.{scheduled_machine, run_after_events, CanMakeNextEvents};
ghost use Rattle.ga_scheduler.specs.Backward.{machine_after_back_until, event_count_removed_by_back_until};
ghost use Rattle.ga_state_expectations.specs.Breaking.{is_broken_asked, has_broken_among, newest_event_expecting};
ghost use Rattle.ga_state_expectations.specs.Runs.{HasExpectingRunEnded};
ghost use Rattle.ga_state_expectations.specs.inner.{run_end_of_watched_run};

use crate::breaking::{later_place, newest_breach};
use crate::knowledge::ExpectationKnowledge;
use crate::source::LineExpectation;
use crate::testing::first_condition_given_breach;
use ga_grid::NodeId;
use ga_lab::{Lab, MadeEvent};
use ga_scheduler::{
    Condition, RunEnd, RunResult, Schedule, StopCondition, WatchedRunEnd, back_to_place,
    find_newest_matching_event, run_watched,
};
use std::alloc::{AllocError, Global};

/// Whether a condition is `broken`.
fn is_broken_asked(condition: &Condition) -> bool
    ensures { result ≡ is_broken_asked condition.now }
{
    matches!(condition, Condition::Broken)
}

/// Whether `broken` is among the conditions.
pub fn has_broken_among(until: &[Condition]) -> bool
    ensures { result ≡ has_broken_among until.now }
{
    until.iter().any(|condition| is_broken_asked(condition))
}

/// Conditions where expectations are known, and which of them is the first that held after the newest event.
#[derive(Clone, Copy)]
struct AwaitedConditions<'e> {
    until: &'e [Condition],
    expectations: &'e [LineExpectation],
    held: Option<u8>,
}

/// Tests conditions where expectations are known.
#[derive(Drop)]
struct ExpectationTest<'e> {
    awaited: AwaitedConditions<'e>,
    known: ExpectationKnowledge,
    ghost few: { length awaited.until.now ≤ 8 },
}

impl<'e> StopCondition for ExpectationTest<'e> {
    ghost use Rattle.std.specs.Prelude.{is_some};
    ghost use Rattle.ga_state_expectations.specs.Breaking.{first_condition_expecting};
    ghost use Rattle.ga_state_expectations.specs.Knowledge.{IsExpectationKnowledge};

    type State = AwaitedConditions<'e>;

    ghost state = { λ test. test.awaited };

    ghost ends = { λ awaited told s. is_some (first_condition_expecting awaited.expectations.now awaited.until.now told s) };

    ghost seen = { λ awaited told s. record awaited { held = first_condition_expecting awaited.expectations.now awaited.until.now told s } };

    ghost remembers = { λ test s. IsExpectationKnowledge test.awaited.expectations.now s test.known };

    fn ends_run_after_event(&mut self, made: &MadeEvent, lab: &Lab) -> bool {
        let breaks = self
            .known
            .breaks_one_expectation(self.awaited.expectations, made, lab);
        self.awaited.held = first_condition_given_breach(self.awaited.until, breaks, made, lab);
        self.awaited.held.is_some()
    }
}

/// Why a run ended, by how it did with a watch and the first condition that held after its newest event.
fn run_end_of_watched_run(end: WatchedRunEnd, held: Option<u8>) -> RunEnd
    ensures { result ≡ run_end_of_watched_run held end }
{
    match end {
        WatchedRunEnd::EndedByWatch(made) => RunEnd::ConditionHeld {
            made,
            which: held.unwrap_or(0),
        },
        WatchedRunEnd::Made => RunEnd::MadeRequestedEvents,
        WatchedRunEnd::Quiet => RunEnd::Quiet,
        WatchedRunEnd::Refused(why) => RunEnd::Refused(why),
    }
}

/// Makes events in the order of a schedule: at most `most`, up to the first after which one of the conditions holds, where these expectations are known,
/// and returns the next schedule. `broken` holds after the event that broke an expectation, and after no later one that violates it. Takes memory for a
/// number and a flag for each expectation. The time is linear in the number of events made, for each expectation; and in that of the events in the history,
/// once for each expectation that an event violates.
///
/// # Errors
/// Out of memory; then no event was made.
pub fn run_expecting(
    alloc: Global,
    lab: &mut Lab,
    schedule: Schedule,
    most: u64,
    until: &[Condition],
    expectations: &[LineExpectation],
) -> Result<RunResult, AllocError>
    requires { length until.now ≤ 8 }
    ensures state { IfOk result (λ ran. scheduled_machine lab.new ran.schedule ≡ run_after_events (scheduled_machine lab.old schedule) ran.events) }
    ensures made { IfOk result (λ ran. CanMakeNextEvents (scheduled_machine lab.old schedule) ran.events) }
    ensures most { IfOk result (λ ran. ran.events ≤ most) }
    ensures end { IfOk result (λ ran. HasExpectingRunEnded expectations.now until.now (scheduled_machine lab.old schedule) most ran.events ran.end) }
    ensures same { OnErr result (lab.new ≡ lab.old) }
{
    let known = ExpectationKnowledge::at_begin_of_run(alloc, lab, expectations)?;
    let awaited = AwaitedConditions {
        until,
        expectations,
        held: None,
    };
    let mut test = ExpectationTest { awaited, known };
    let run = run_watched(lab, schedule, None, most, &mut test);
    Ok(RunResult {
        events: run.events,
        end: run_end_of_watched_run(run.end, test.awaited.held),
        schedule: run.schedule,
    })
}

/// Undoes the history from the newest event on, up to the newest one after which one of the conditions held or that broke one of the expectations, and that
/// one too. Or, for one node, rolls back the newest such step. Returns the number of removed events; none if there is no such event, and then nothing
/// changes. Allocates nothing. The time is linear in the number of events, for each condition and each expectation.
pub fn back_until_expecting(
    lab: &mut Lab,
    until: &[Condition],
    expectations: &[LineExpectation],
    only: Option<NodeId>,
) -> Option<u32>
    ensures state { lab.new ≡ machine_after_back_until only lab.old (newest_event_expecting expectations.now until.now only lab.old) }
    ensures gone { result ≡ event_count_removed_by_back_until only lab.old (newest_event_expecting expectations.now until.now only lab.old) }
{
    let held = find_newest_matching_event(lab, until, only);
    let broken = newest_breach(lab, expectations, only);
    let place = later_place(held, broken)?;
    back_to_place(lab, place, only)
}
