//! How a move ends, and `continue`.

ghost use Rattle.std.specs.Prelude.{◌≡◌, ◌≤◌, None};
ghost use Rattle.ga_scheduler.specs.Running.{scheduled_machine, run_after_events};
ghost use Rattle.ga_dap_breakpoints.specs.Going.{IsMoveResult, tally_after_events, continue_plan};
ghost use Rattle.ga_dap_breakpoints.specs.inner.Halting.{halt_reason_without_hit, halt_reason_of_event, halt_reason_of_run};
ghost use Rattle.ga_state_expectations.specs.Knowledge.{IsExpectationKnowledge};

use crate::halts::{HaltConditions, HaltMonitor, is_move_ending_stop};
use crate::hits::HitTally;
use ga_grid::{CHIP_NODE_COUNT, NodeId};
use ga_lab::{Lab, LabFault, MadeEvent};
use ga_scheduler::{Schedule, WatchedRun, WatchedRunEnd, run_watched};
use ga_state_expectations::{ExpectationKnowledge, LineExpectation, line_broken_by_newest_event};

/// Why a move ended, or a slice of it.
#[derive(Clone, Copy, PartialEq, Eq, Debug)]
pub enum HaltReason {
    /// This event hit the breakpoint at this place of the list, the first of those that it hit.
    HitBreakpoint { made: MadeEvent, which: usize },
    /// This event was a stop, and hit no breakpoint.
    NodeStopped(MadeEvent),
    /// This event broke the expectation of this line, the first of those that it broke. It hit no breakpoint and is no stop that ends the move.
    BrokeExpectation { made: MadeEvent, line: u32 },
    /// This event completed the move. It hit no breakpoint, is no stop that ends the move, and broke no expectation.
    CompletedMove(MadeEvent),
    /// All requested events were made: the move can be continued.
    SliceEnded,
    /// No node of the chip has an event.
    Quiet,
    /// [`Lab::step`] refused the next event: `Full`, `EventNumbersSpent` or `Memory`.
    Refused(LabFault),
}

/// The number of events, why the move ended, and the next schedule.
#[derive(Drop)]
pub struct MoveResult {
    /// How many events were made.
    pub events: u64,
    /// Why no more events were made.
    pub halt: HaltReason,
    /// The schedule after the last event, with which a further move continues.
    pub schedule: Schedule,
    /// How often each breakpoint was hit: a further move counts on.
    pub tally: HitTally,
    /// What is known of the expectations after the last event, for a further move.
    pub known: ExpectationKnowledge,
}

/// Why a move ended by the newest event, as far as no breakpoint was hit and it is no stop that ends the move.
fn halt_reason_without_hit(
    expectations: &[LineExpectation],
    made: MadeEvent,
    lab: &Lab,
) -> HaltReason
    ensures { result ≡ halt_reason_without_hit expectations.now made lab.now }
{
    match line_broken_by_newest_event(lab, expectations) {
        Some(line) => HaltReason::BrokeExpectation { made, line },
        None => HaltReason::CompletedMove(made),
    }
}

/// Why a move ended by the newest event.
fn halt_reason_of_event(
    halts: &HaltConditions<'_>,
    node: Option<NodeId>,
    made: MadeEvent,
    lab: &Lab,
) -> HaltReason
    ensures { result ≡ halt_reason_of_event halts.now.tally.hit halts.now.stops halts.now.expectations.now node made lab.now }
{
    if let Some(which) = halts.tally.hit {
        return HaltReason::HitBreakpoint { made, which };
    }
    if is_move_ending_stop(halts.stops, node, &made) {
        HaltReason::NodeStopped(made)
    } else {
        halt_reason_without_hit(halts.expectations, made, lab)
    }
}

/// Why a move ended, by how its run did.
fn halt_reason_of_run(
    halts: &HaltConditions<'_>,
    node: Option<NodeId>,
    end: WatchedRunEnd,
    lab: &Lab,
) -> HaltReason
    ensures { result ≡ halt_reason_of_run halts.now.tally.hit halts.now.stops halts.now.expectations.now node end lab.now }
{
    match end {
        WatchedRunEnd::EndedByWatch(made) => halt_reason_of_event(halts, node, made, lab),
        WatchedRunEnd::Made => HaltReason::SliceEnded,
        WatchedRunEnd::Quiet => HaltReason::Quiet,
        WatchedRunEnd::Refused(why) => HaltReason::Refused(why),
    }
}

/// How a move went by a run that was watched so.
pub(crate) fn move_result(
    run: WatchedRun,
    watch: HaltMonitor<'_>,
    node: Option<NodeId>,
    lab: &Lab,
) -> MoveResult
    ensures events { result.events ≡ run.events }
    ensures halt { result.halt ≡ halt_reason_of_run watch.entry.halts.tally.hit watch.entry.halts.stops watch.entry.halts.expectations.now node run.end lab.now }
    ensures schedule { result.schedule ≡ run.schedule }
    ensures tally { result.tally ≡ watch.entry.halts.tally }
    ensures known { result.known ≡ watch.entry.known }
{
    let HaltMonitor { halts, known, .. } = watch;
    MoveResult {
        events: run.events,
        halt: halt_reason_of_run(&halts, node, run.end, lab),
        schedule: run.schedule,
        tally: halts.tally,
        known,
    }
}

/// `continue` (Debug Adapter Protocol, "ContinueRequest"): a slice of at most `most` events in the order of the schedule, until
/// one hits a breakpoint, is a stop if stops end it, or breaks an expectation. The returned schedule continues a slice that was
/// cut, with what is then known of the expectations. The time is linear in the number of events, in that of breakpoints and in
/// that of expectations; in addition, for each node that arrives at the slot number of a breakpoint, once in a slice, in how long
/// it is within its word, and once for each expectation that an event violates in the number of events in the history.
pub fn make_continue_slice(
    lab: &mut Lab,
    schedule: Schedule,
    halts: HaltConditions<'_>,
    known: ExpectationKnowledge,
    most: u64,
) -> MoveResult
    requires { IsExpectationKnowledge halts.expectations.now lab.old known }
    ensures known { IsExpectationKnowledge halts.entry.expectations.now lab.new result.known }
    ensures state { scheduled_machine lab.new result.schedule ≡ run_after_events (scheduled_machine lab.old schedule) result.events }
    ensures hits { result.tally ≡ tally_after_events None halts.entry.breakpoints.now halts.entry.tally (scheduled_machine lab.old schedule) result.events }
    ensures most { result.events ≤ most }
    ensures end { IsMoveResult (continue_plan halts.entry.breakpoints.now halts.entry.expectations.now halts.entry.tally halts.entry.stops (scheduled_machine lab.old schedule)) (scheduled_machine lab.old schedule) most result.events result.halt }
{
    // It is called for its contract only: the history can be replayed.
    lab.chip();
    let mut watch = HaltMonitor {
        halts,
        cells: [None; CHIP_NODE_COUNT],
        known,
    };
    let run = run_watched(lab, schedule, None, most, &mut watch);
    move_result(run, watch, None, lab)
}
