//! Laws of the definitions, each the contract of a function that does nothing.

ghost use Rattle.std.specs.Prelude.{◌≡◌, ◌<◌, ◌≤◌, ◌+◌, ◌-◌, ◌↔◌, ℕ, false, List, length, Option, Some, None, IsSome};
ghost use Rattle.ga_grid.specs.declared.node_id.NodeId.{NodeId};
ghost use Rattle.ga_event.specs.Told.{made_event_at_place};
ghost use Rattle.ga_causal.specs.Dependence.{position_of_step};
ghost use Rattle.ga_lab.specs.Machine.{MachineState, initial_state, machine_events_with_looks, machine_events_with_outcomes, earlier_state};
ghost use Rattle.ga_event.specs.declared.made.MadeEvent.{MadeEvent};
ghost use Rattle.ga_scheduler.specs.Words.{link_transfer_count, transfers_over_link_by_event};
ghost use Rattle.ga_scheduler.specs.Oldest.{find_oldest_matching_event, IsOldestMatchingEvent};
ghost use Rattle.ga_scheduler.specs.Backward.{has_condition_held_at, find_newest_matching_event, IsNewestMatchingEvent, event_count_removed_by_back_until, step_number_of_event, machine_after_undos};
ghost use Rattle.ga_scheduler.specs.Running.{ScheduledMachine, run_after_events, HasNoConditionHeld, HasRunEnded};
ghost use Rattle.ga_scheduler.specs.declared.condition.Condition.{Condition};
ghost use Rattle.ga_scheduler.specs.declared.running.RunEnd.{RunEnd};
ghost use Rattle.ga_scheduler.specs.declared.watched.WatchedRunEnd.{WatchedRunEnd};
ghost use Rattle.ga_scheduler.specs.Watched.{IsRunStep, run_after_events_with_precedence, make_run_watch, watch_state_after_events, HasNoWatchEnd, HasWatchedRunEnded};

use crate::watch::StopCondition;

/// Two runs, the second by the schedule that the first hands back, are one run by the schedule of the first: where no condition held in
/// the first, the second ends as the one does.
#[tactic(auto, using(crate::proofs::Events::after_after, crate::proofs::Events::ended_later))]
pub fn run_slices_compose()
    ensures events { (r : ScheduledMachine) (first second : ℕ) → run_after_events (run_after_events r first) second ≡ run_after_events r (first + second) }
    ensures end { (r : ScheduledMachine) (until : List Condition) (first most second : ℕ) (end : RunEnd) → HasNoConditionHeld until r first →
        HasRunEnded (run_after_events r first) most until second end → HasRunEnded r (first + most) until (first + second) end }
{}

/// Two watched runs, the second by the schedule that the first returns and with the watch as it then is, are one: if the watch
/// did not end the first, the second ends as the one does. If no node has precedence, such a run makes the events of a run in
/// the order of its schedule.
pub fn watched_slices_are_one_run<W: StopCondition>()
    ensures events { (node : Option NodeId) (r : ScheduledMachine) (first second : ℕ) →
        run_after_events_with_precedence node (run_after_events_with_precedence node r first) second ≡ run_after_events_with_precedence node r (first + second) }
    ensures watch { (node : Option NodeId) (w : W.State) (r : ScheduledMachine) (first second : ℕ) →
        let by = make_run_watch node W.ends W.seen in
        watch_state_after_events by (watch_state_after_events by w r first) (run_after_events_with_precedence node r first) second ≡ watch_state_after_events by w r (first + second) }
    ensures end { (node : Option NodeId) (w : W.State) (r : ScheduledMachine) (first most second : ℕ) (end : WatchedRunEnd) →
        let by = make_run_watch node W.ends W.seen in
        HasNoWatchEnd by w r first → HasWatchedRunEnded by (watch_state_after_events by w r first) (run_after_events_with_precedence node r first) most second end →
        HasWatchedRunEnded by w r (first + most) (first + second) end }
    ensures order { (r : ScheduledMachine) (events : ℕ) → run_after_events_with_precedence None r events ≡ run_after_events r events }
{}

/// The result of a search backwards is the newest event after which one of the conditions held, of those that are considered;
/// without a result there is none.
pub fn back_until_finds_newest()
    ensures some { (until : List Condition) (only : Option NodeId) (s : MachineState) (place : ℕ) → find_newest_matching_event until only s ≡ Some place →
        IsNewestMatchingEvent until only s (length s.kept) place }
    ensures none { (until : List Condition) (only : Option NodeId) (s : MachineState) → find_newest_matching_event until only s ≡ None →
        (place : ℕ) → place < length s.kept → has_condition_held_at until only s place ≡ false }
{}

/// The step of a node that going back takes is the event that is found, so that its rollback isn't refused. Some events go just where there
/// is one to be found.
#[tactic(auto, using(crate::proofs::Backing::found_placed, crate::proofs::Backing::found_some))]
pub fn back_until_undoes_match()
    ensures step { (until : List Condition) (node : NodeId) (s : MachineState) (place : ℕ) → find_newest_matching_event until (Some node) s ≡ Some place →
        position_of_step (machine_events_with_looks s) node.number (step_number_of_event node.number (made_event_at_place (machine_events_with_outcomes s) place)) ≡ Some place }
    ensures some { (until : List Condition) (only : Option NodeId) (s : MachineState) →
        IsSome (event_count_removed_by_back_until only s (find_newest_matching_event until only s)) ↔ IsSome (find_newest_matching_event until only s) }
{}

/// Going back to a place is as many undos as there are kept events from it on.
#[tactic(auto, using(crate::proofs::Backing::undone_from))]
pub fn undos_reach_position()
    ensures { (s : MachineState) (place : ℕ) → place ≤ length s.kept → machine_after_undos (length s.kept - place) s ≡ earlier_state s place }
{}

/// The result of a search for the oldest event is the oldest after which one of the conditions held; without a result there is none.
#[tactic(auto, using(crate::proofs::OldestLaws::some_oldest, crate::proofs::OldestLaws::none_oldest))]
pub fn oldest_event_is_found()
    ensures some { (until : List Condition) (s : MachineState) (place : ℕ) → find_oldest_matching_event until s ≡ Some place → IsOldestMatchingEvent until s place }
    ensures none { (until : List Condition) (s : MachineState) → find_oldest_matching_event until s ≡ None →
        (place : ℕ) → place < length s.kept → has_condition_held_at until None s place ≡ false }
{}

/// A step of a run adds the words that its event carried over a link to those in the history.
#[tactic(auto, using(crate::proofs::WordCounts::run_step_counts))]
pub fn run_steps_count_words()
    ensures { (old new : MachineState) (made : MadeEvent) → IsRunStep old new made → (writer reader : ℕ) →
        link_transfer_count new writer reader ≡ link_transfer_count old writer reader + transfers_over_link_by_event writer reader made }
{}
