//! The run under way.

ghost use Rattle.std.specs.Prelude.{◌≡◌, ◌≤◌, Some, None, is_some};
ghost use Rattle.ga_scheduler.specs.Running.{scheduled_machine};
ghost use Rattle.ga_scheduler.specs.Watched.{run_after_events_with_precedence};
ghost use Rattle.ga_dap_breakpoints.specs.Going.{IsMoveResult, tally_after_events, step_plan};
ghost use Rattle.ga_dap_breakpoints.specs.Stepping.{move_after_events};
ghost use Rattle.ga_state_expectations.specs.Knowledge.{IsExpectationKnowledge};
ghost use Rattle.ga_dap_control.specs.Slices.{slice_event_limit, hit_tally_before_slice, ContinuesForSlice, StepsForSlice, AdvancesRunByGoal, MakesSliceIfRunning, MakesEventSlice, MakesSliceExpecting, MakesSliceGivenDeadlocked, execution_after_stop};
ghost use Rattle.ga_dap_control.specs.Watched.{AreOptionalExpectationsKnown};

use crate::configuration::Configuration;
use crate::deadlocks::{keep_reported, newly_stuck, stuck_of, unreported};
use crate::stop_reason::{StopReason, slice_stop_reason};
use crate::watched::{WatchedExpectations, expectations_before_slice};
use ga_dap_breakpoints::{
    HitTally, MoveResult, StepMove, count_hits_in_history, make_continue_slice, make_step_slice,
};
use ga_dap_queries::Debuggee;
use ga_debug_info::DebugInfo;
use ga_grid::NodeId;
use ga_lab::{Lab, LabFault};
use ga_scheduler::Schedule;
use ga_state_expectations::{ExpectationKnowledge, LineExpectation};
use std::alloc::Global;

/// How many events are made before the client is listened to again.
pub const MAX_SLICE_EVENTS: u64 = 4096;

/// What a run is for.
#[derive(Clone, Copy, PartialEq, Eq, Debug)]
pub enum RunGoal {
    /// `continue`.
    Continue,
    /// `next`, `stepIn`, `stepOut`.
    Step(StepMove),
}

/// The next schedule, and the run in progress.
#[derive(Clone, Copy)]
pub struct Execution {
    /// The next schedule.
    pub schedule: Schedule,
    /// The goal of the run in progress; none if the chip is stopped.
    pub goal: Option<RunGoal>,
    /// How often each breakpoint was hit, while a run is under way and none was set since.
    pub tally: Option<HitTally>,
    /// Whether the client ended the configuration.
    pub is_configured: bool,
    /// Whether the chip is stopped at load until the client continues.
    pub stops_on_entry: bool,
    /// The nodes that were deadlocked when a deadlock was last reported to the client, as far as they still are.
    pub reported: [bool; 144],
}

/// How often each breakpoint was hit before a slice: as the slice before left it, or as the kept events say.
fn hit_tally_before_slice(lab: &Lab, settings: &Configuration, tally: Option<HitTally>) -> HitTally
    ensures { result ≡ hit_tally_before_slice lab.now settings.now tally }
{
    match tally {
        Some(tally) => tally,
        None => count_hits_in_history(lab, settings.points.points.as_slice()),
    }
}

/// Makes a slice of the events of `continue`.
fn go_on_slice(
    program: &mut Debuggee,
    settings: &Configuration,
    execution: &mut Execution,
    expectations: &[LineExpectation],
    known: ExpectationKnowledge,
) -> MoveResult
    requires { IsExpectationKnowledge expectations.now program.old.lab known }
    ensures slice { ContinuesForSlice expectations.now program.old settings.now execution.old program.new execution.new result }
    ensures known { IsExpectationKnowledge expectations.now program.new.lab result.known }
{
    let tally = hit_tally_before_slice(&program.lab, settings, execution.tally);
    let halts = settings.halt_conditions_with_tally(expectations, tally);
    let went = make_continue_slice(
        &mut program.lab,
        execution.schedule,
        halts,
        known,
        MAX_SLICE_EVENTS,
    );
    execution.schedule = went.schedule;
    execution.tally = Some(went.tally);
    went
}

/// Makes a slice of the events of a step of one node, by what the source says.
fn step_by(
    lab: &mut Lab,
    notes: &DebugInfo,
    settings: &Configuration,
    execution: &mut Execution,
    stepping: StepMove,
    expectations: &[LineExpectation],
    known: ExpectationKnowledge,
) -> MoveResult
    requires { IsExpectationKnowledge expectations.now lab.old known }
    ensures known { IsExpectationKnowledge expectations.now lab.new result.known }
    ensures state { scheduled_machine lab.new result.schedule ≡ run_after_events_with_precedence (Some stepping.node) (scheduled_machine lab.old execution.old.schedule) result.events }
    ensures most { result.events ≤ slice_event_limit }
    ensures hits { result.tally ≡ tally_after_events (Some stepping.node) settings.now.points.points.items (hit_tally_before_slice lab.old settings.now execution.old.tally) (scheduled_machine lab.old execution.old.schedule) result.events }
    ensures end { IsMoveResult (step_plan notes.now settings.now.points.points.items expectations.now (hit_tally_before_slice lab.old settings.now execution.old.tally) settings.now.stops stepping (scheduled_machine lab.old execution.old.schedule)) (scheduled_machine lab.old execution.old.schedule) slice_event_limit result.events result.halt }
    ensures next { execution.new ≡ record execution.old { schedule = result.schedule; tally = Some result.tally; goal = Some (RunGoal.Step (move_after_events stepping (scheduled_machine lab.old execution.old.schedule) result.events)) } }
{
    let mut by = stepping;
    let tally = hit_tally_before_slice(lab, settings, execution.tally);
    let halts = settings.halt_conditions_with_tally(expectations, tally);
    let went = make_step_slice(
        lab,
        execution.schedule,
        &mut by,
        notes,
        halts,
        known,
        MAX_SLICE_EVENTS,
    );
    execution.schedule = went.schedule;
    execution.tally = Some(went.tally);
    execution.goal = Some(RunGoal::Step(by));
    went
}

/// Makes a slice of the events of a step of one node.
fn step_slice(
    program: &mut Debuggee,
    settings: &Configuration,
    execution: &mut Execution,
    stepping: StepMove,
    expectations: &[LineExpectation],
    known: ExpectationKnowledge,
) -> MoveResult
    requires { IsExpectationKnowledge expectations.now program.old.lab known }
    ensures slice { StepsForSlice stepping expectations.now program.old settings.now execution.old program.new execution.new result }
    ensures known { IsExpectationKnowledge expectations.now program.new.lab result.known }
{
    let lab = &mut program.lab;
    match &program.source {
        Some(notes) => step_by(
            lab,
            notes,
            settings,
            execution,
            stepping,
            expectations,
            known,
        ),
        None => step_by(
            lab,
            &program.empty_debug_info,
            settings,
            execution,
            stepping,
            expectations,
            known,
        ),
    }
}

/// Makes a slice of the events of a run.
fn advance(
    program: &mut Debuggee,
    settings: &Configuration,
    execution: &mut Execution,
    goal: RunGoal,
    expectations: &[LineExpectation],
    known: ExpectationKnowledge,
) -> MoveResult
    requires { IsExpectationKnowledge expectations.now program.old.lab known }
    ensures slice { AdvancesRunByGoal goal expectations.now program.old settings.now execution.old program.new execution.new result }
    ensures known { IsExpectationKnowledge expectations.now program.new.lab result.known }
{
    match goal {
        RunGoal::Continue => go_on_slice(program, settings, execution, expectations, known),
        RunGoal::Step(stepping) => {
            step_slice(program, settings, execution, stepping, expectations, known)
        }
    }
}

/// Makes a slice of the events of the run under way, and returns why it ended, where it did. `watched` is what the slice before left, or none: then it takes
/// memory for the expectations of the source, if the filter is on.
pub fn make_event_slice(
    alloc: Global,
    program: &mut Debuggee,
    settings: &Configuration,
    execution: &mut Execution,
    watched: &mut Option<WatchedExpectations>,
) -> Option<StopReason>
    requires { AreOptionalExpectationsKnown program.old settings.now watched.old }
    ensures slice { MakesEventSlice (is_some watched.old) program.old settings.now execution.old program.new execution.new result }
    ensures known { AreOptionalExpectationsKnown program.new settings.now watched.new }
{
    let goal = execution.goal?;
    make_slice_of(alloc, program, settings, execution, goal, watched)
}

/// Makes a slice of the events of a run that is under way for this, and returns why it ended, where it did.
fn make_slice_of(
    alloc: Global,
    program: &mut Debuggee,
    settings: &Configuration,
    execution: &mut Execution,
    goal: RunGoal,
    watched: &mut Option<WatchedExpectations>,
) -> Option<StopReason>
    requires { AreOptionalExpectationsKnown program.old settings.now watched.old }
    ensures slice { MakesSliceIfRunning (Some goal) (is_some watched.old) program.old settings.now execution.old program.new execution.new result }
    ensures known { AreOptionalExpectationsKnown program.new settings.now watched.new }
{
    let before = stuck_of(program);
    match unreported(program, settings, execution, &before) {
        Some(node) => Some(report(execution, node, &before)),
        None => make_events(alloc, program, settings, execution, goal, &before, watched),
    }
}

/// Ends a run before it makes an event, since a node is deadlocked that wasn't reported to the client.
fn report(execution: &mut Execution, node: NodeId, stuck: &[bool; 144]) -> StopReason
    ensures reason { result ≡ StopReason.Stuck node }
    ensures next { execution.new ≡ record execution.old { goal = None; reported = stuck.now } }
{
    execution.goal = None;
    execution.reported = *stuck;
    StopReason::Stuck(node)
}

/// Ends a run before it makes an event, since no memory was left for the expectations of the source.
fn refuse_slice(execution: &mut Execution) -> StopReason
    ensures reason { result ≡ StopReason.Refused LabFault.Memory }
    ensures next { execution.new ≡ record execution.old { goal = None } }
{
    execution.goal = None;
    StopReason::Refused(LabFault::Memory)
}

/// Makes the events of a slice, before which these nodes are stuck, and returns why the run ended, where it did.
fn make_events(
    alloc: Global,
    program: &mut Debuggee,
    settings: &Configuration,
    execution: &mut Execution,
    goal: RunGoal,
    before: &[bool; 144],
    watched: &mut Option<WatchedExpectations>,
) -> Option<StopReason>
    requires { AreOptionalExpectationsKnown program.old settings.now watched.old }
    ensures slice { MakesSliceGivenDeadlocked goal (is_some watched.old) before.now program.old settings.now execution.old program.new execution.new result }
    ensures known { AreOptionalExpectationsKnown program.new settings.now watched.new }
{
    match expectations_before_slice(alloc, program, settings, watched.take()) {
        Ok(expected) => {
            let WatchedExpectations {
                expectations,
                known,
            } = expected;
            let (stop, known) = make_events_expecting(
                program,
                settings,
                execution,
                goal,
                before,
                expectations.as_slice(),
                known,
            );
            *watched = Some(WatchedExpectations {
                expectations,
                known,
            });
            stop
        }
        Err(_) => Some(refuse_slice(execution)),
    }
}

/// Makes the events of a slice, before which these nodes are stuck, and with which these expectations are watched. Returns why the run ended, where it did,
/// and what is then known of the expectations.
fn make_events_expecting(
    program: &mut Debuggee,
    settings: &Configuration,
    execution: &mut Execution,
    goal: RunGoal,
    before: &[bool; 144],
    expectations: &[LineExpectation],
    known: ExpectationKnowledge,
) -> (Option<StopReason>, ExpectationKnowledge)
    requires { IsExpectationKnowledge expectations.now program.old.lab known }
    ensures slice { MakesSliceExpecting goal before.now expectations.now program.old settings.now execution.old program.new execution.new result.0 }
    ensures program { program.new ≡ record program.old { lab = program.new.lab } }
    ensures known { IsExpectationKnowledge expectations.now program.new.lab result.1 }
{
    let went = advance(program, settings, execution, goal, expectations, known);
    let now = stuck_of(program);
    let stuck = newly_stuck(program, before, &now);
    let stop = slice_stop_reason(settings, goal, stuck, went.halt);
    keep_reported(execution, settings.stuck, &stop, before, &now);
    end_for(execution, stop);
    (stop, went.known)
}

/// Ends a run, where there is a reason to.
fn end_for(execution: &mut Execution, stop: Option<StopReason>)
    ensures { execution.new ≡ execution_after_stop execution.old stop }
{
    match stop {
        Some(_) => execution.goal = None,
        None => {}
    }
}
