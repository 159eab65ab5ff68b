//! Events in the order of a schedule.

ghost use Rattle.std.specs.Prelude.{◌≡◌, ◌≤◌, ◌+◌, ℕ, length, Ok, Err, IfOk, IfErr, IfSome, IsSome, IsOk, OnOk, OnErr, Some, None, ◌⊎◌, ◌<◌, ◌^◌};
ghost use Rattle.ga_event.specs.Apply.{replay};
ghost use Rattle.ga_lab.specs.Machine.{chip_of_machine, step_answer, state_after_step};
ghost use Rattle.ga_scheduler.specs.Words.{transfers_over_link_by_event, link_transfer_count};
ghost use Rattle.ga_scheduler.specs.inner.{HoldsExactlyReadyNodes, IsReadySetKnowledgeTrue, is_random_order, AreLinkCountsKnown, newest_event_report, NeedsCoverConditions, IsRunEndByNextEventAtLatest, event_count_at_end};
ghost use Rattle.ga_scheduler.specs.Schedules.{schedule_after_event};
ghost use Rattle.ga_scheduler.specs.Running.{scheduled_machine, next_run_event, run_after_next_event, condition_held_after_next_event, run_after_events, CanMakeNextEvents, IsStepRefusedFor, HasRunEnded};

use crate::condition::Condition;
use crate::drawing::Known;
use crate::numbers::NumberSet;
use crate::ready::{next_from, ready_nodes, refresh};
use crate::schedule::Schedule;
use crate::watching::{LinkCounts, Needs, count_all, first_holding_condition, needs_of};
use ga_grid::NodeId;
use ga_lab::{Lab, LabFault, MadeEvent};

/// Why no more events were made.
#[derive(Clone, Copy, PartialEq, Eq, Debug)]
pub enum RunEnd {
    /// A condition holds right after this event, and none held after one before. Of those that hold it is the first, at this place
    /// of their list.
    ConditionHeld { made: MadeEvent, which: u8 },
    /// All requested events were made.
    MadeRequestedEvents,
    /// No node of the chip has an event.
    Quiet,
    /// [`Lab::step`] refused the next event: `Full`, `EventNumbersSpent` or `Memory`.
    Refused(LabFault),
}

/// The number of events, why the run ended, and the next schedule.
#[derive(Clone, Copy, PartialEq, Eq, Debug)]
pub struct RunResult {
    /// How many events were made.
    pub events: u64,
    /// Why no more events were made.
    pub end: RunEnd,
    /// The schedule after the last event, with which a further run continues.
    pub schedule: Schedule,
}

// A node's next event: by a step inlined here, or by a call of it.
#[inline(always)]
fn step_once(lab: &mut Lab, node: NodeId, is_here: bool) -> Result<MadeEvent, LabFault>
    ensures answer { (result ≡ step_answer lab.old node) ⊎ ((result ≡ Err LabFault.Memory) × IsOk (step_answer lab.old node)) }
    ensures ok { OnOk result (lab.new ≡ state_after_step lab.old node) }
    ensures err { OnErr result (lab.new ≡ lab.old) }
{
    if is_here {
        lab.step_inlined(node)
    } else {
        lab.step(node)
    }
}

// Makes this node's next event, by a step inlined here or by a call of it, and considers what that may have changed.
#[inline(always)]
pub(crate) fn make(
    lab: &mut Lab,
    ready: &mut NumberSet,
    known: &mut Known,
    schedule: &mut Schedule,
    node: NodeId,
    is_here: bool,
    draws: bool,
) -> Result<MadeEvent, LabFault>
    requires ready { HoldsExactlyReadyNodes (chip_of_machine lab.old) ready.old }
    requires known { IsReadySetKnowledgeTrue ready.old known.old }
    requires replays { IsSome (replay lab.old.load lab.old.kept) }
    requires draws { draws ≡ is_random_order schedule.old.order }
    ensures ok { IfOk result (λ made. step_answer lab.old node ≡ Ok made) }
    ensures state { OnOk result (lab.new ≡ state_after_step lab.old node) }
    ensures schedule { OnOk result (schedule.new ≡ schedule_after_event schedule.old node) }
    ensures ready { OnOk result (HoldsExactlyReadyNodes (chip_of_machine lab.new) ready.new) }
    ensures known { OnOk result (IsReadySetKnowledgeTrue ready.new known.new) }
    ensures words { IfOk result (λ made. (writer reader : ℕ) →
        link_transfer_count lab.new writer reader ≡ link_transfer_count lab.old writer reader + transfers_over_link_by_event writer reader made) }
    ensures newest { IfOk result (λ made. newest_event_report lab.new ≡ Some made) }
    ensures replays { OnOk result (IsSome (replay lab.new.load lab.new.kept)) }
    ensures draws { draws ≡ is_random_order schedule.new.order }
    ensures refused { IfErr result (λ why. IsStepRefusedFor why (step_answer lab.old node)) }
    ensures same { OnErr result (lab.new ≡ lab.old) }
    ensures stays { OnErr result (schedule.new ≡ schedule.old) }
{
    match step_once(lab, node, is_here) {
        Ok(made) => {
            *schedule = schedule.schedule_after_event(node, draws);
            refresh(ready, known, lab.chip(), &made);
            Ok(made)
        }
        Err(why) => Err(why),
    }
}

// A run is over.
#[derive(Clone, Copy)]
struct Over;

// Makes the next event of the schedule, if nothing halts it. If the run ends with it, or before it, returns its end: so the
// report is kept only then. A node that runs continues here, any other in a function of its own.
#[inline(always)]
fn advance(
    lab: &mut Lab,
    ready: &mut NumberSet,
    known: &mut Known,
    schedule: &mut Schedule,
    until: &[Condition],
    needs: &Needs,
    words: &mut LinkCounts,
    end: &mut RunEnd,
    draws: bool,
) -> Result<(), Over>
    requires ready { HoldsExactlyReadyNodes (chip_of_machine lab.old) ready.old }
    requires known { IsReadySetKnowledgeTrue ready.old known.old }
    requires replays { IsSome (replay lab.old.load lab.old.kept) }
    requires draws { draws ≡ is_random_order schedule.old.order }
    requires needed { NeedsCoverConditions needs.now until.now }
    requires most { length until.now ≤ 8 }
    requires size { length words.old ≡ 8 }
    requires counted { AreLinkCountsKnown until.now lab.old words.old }
    ensures made { OnOk result (IsSome (next_run_event (scheduled_machine lab.old schedule.old))) }
    ensures unmet { OnOk result (condition_held_after_next_event until.now (scheduled_machine lab.old schedule.old) ≡ None) }
    ensures moved { OnOk result (scheduled_machine lab.new schedule.new ≡ run_after_next_event (scheduled_machine lab.old schedule.old)) }
    ensures ready { OnOk result (HoldsExactlyReadyNodes (chip_of_machine lab.new) ready.new) }
    ensures known { OnOk result (IsReadySetKnowledgeTrue ready.new known.new) }
    ensures replays { OnOk result (IsSome (replay lab.new.load lab.new.kept)) }
    ensures draws { draws ≡ is_random_order schedule.new.order }
    ensures size { OnOk result (length words.new ≡ 8) }
    ensures counted { OnOk result (AreLinkCountsKnown until.now lab.new words.new) }
    ensures over { OnErr result (IsRunEndByNextEventAtLatest until.now (scheduled_machine lab.old schedule.old) (scheduled_machine lab.new schedule.new) end.new) }
{
    match next_from(ready, known, schedule, draws) {
        Some(node) => {
            if lab.node(node).own_event_refusal().is_none() {
                match make(lab, ready, known, schedule, node, true, draws) {
                    Ok(made) => {
                        if let Some(which) = first_holding_condition(
                            until, needs, words, &made, lab,
                        ) {
                            *end = RunEnd::ConditionHeld { made, which };
                            return Err(Over);
                        }
                        Ok(())
                    }
                    Err(why) => {
                        *end = RunEnd::Refused(why);
                        Err(Over)
                    }
                }
            } else {
                match make(lab, ready, known, schedule, node, false, draws) {
                    Ok(made) => {
                        if let Some(which) = first_holding_condition(
                            until, needs, words, &made, lab,
                        ) {
                            *end = RunEnd::ConditionHeld { made, which };
                            return Err(Over);
                        }
                        Ok(())
                    }
                    Err(why) => {
                        *end = RunEnd::Refused(why);
                        Err(Over)
                    }
                }
            }
        }
        None => {
            *end = RunEnd::Quiet;
            Err(Over)
        }
    }
}

// How many events there were at the end of a run: one more than were made before, where it ended right after an event.
fn event_count_at_end(before: u64, end: RunEnd) -> u64
    requires { before + 1 < 2 ^ 64 }
    ensures { result ≡ event_count_at_end before end }
{
    match end {
        RunEnd::ConditionHeld { .. } => before + 1,
        RunEnd::MadeRequestedEvents => before,
        RunEnd::Quiet => before,
        RunEnd::Refused(_) => before,
    }
}

/// Makes events in the order of a schedule: at most `most`, up to the first after which one of the conditions holds, and
/// returns the next schedule. The time is linear in the number of events, and independent of how many nodes wait; a condition
/// that counts words reads the steps of one end once before.
pub fn run_schedule(
    lab: &mut Lab,
    mut schedule: Schedule,
    most: u64,
    until: &[Condition],
) -> RunResult
    requires { length until.now ≤ 8 }
    ensures state { scheduled_machine lab.new result.schedule ≡ run_after_events (scheduled_machine lab.old schedule) result.events }
    ensures made { CanMakeNextEvents (scheduled_machine lab.old schedule) result.events }
    ensures most { result.events ≤ most }
    ensures end { HasRunEnded (scheduled_machine lab.old schedule) most until.now result.events result.end }
{
    let mut ready = ready_nodes(lab.chip());
    let mut known = Known::no_known_nodes();
    let draws = schedule.draws();
    let needs = needs_of(until);
    let mut words = count_all(until, lab);
    let mut events = 0;
    let mut end = RunEnd::MadeRequestedEvents;
    while events < most {
        match advance(
            lab,
            &mut ready,
            &mut known,
            &mut schedule,
            until,
            &needs,
            &mut words,
            &mut end,
            draws,
        ) {
            Ok(()) => events += 1,
            Err(Over) => {
                let events = event_count_at_end(events, end);
                return RunResult {
                    events,
                    end,
                    schedule,
                };
            }
        }
    }
    let end = RunEnd::MadeRequestedEvents;
    RunResult {
        events,
        end,
        schedule,
    }
}
