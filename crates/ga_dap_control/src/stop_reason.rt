//! Why a run ended.

ghost use Rattle.std.specs.Prelude.{◌≡◌};
ghost use Rattle.ga_dap_control.specs.Slices.{is_deadlock_stop, stop_reason_of_breakpoint_at_index, stop_reason_of_breakpoint_if_any, stop_reason_of_move_end, event_node, slice_stop_reason, deadlock_or_other_stop_reason};

use crate::configuration::Configuration;
use crate::execution::RunGoal;
use ga_dap_breakpoints::{Breakpoint, HaltReason, WatchedAction};
use ga_grid::NodeId;
use ga_lab::{LabFault, MadeEvent};

/// Why a run ended.
#[derive(Clone, Copy, PartialEq, Eq, Debug)]
pub enum StopReason {
    /// The step of this node was made.
    StepCompleted(NodeId),
    /// A node came to a breakpoint by what was made.
    Breakpoint { node: NodeId, made: MadeEvent },
    /// A node wrote a watched cell by what was made.
    WatchedCellWritten { node: NodeId, made: MadeEvent },
    /// The node stopped.
    Stopped(NodeId),
    /// The node can never go on.
    Stuck(NodeId),
    /// What this node did broke the expectation of this line.
    BrokeExpectation { node: NodeId, line: u32 },
    /// No node has an event.
    Quiet,
    /// The lab refused the next event.
    Refused(LabFault),
}

/// The node of what was made, of a pass its reader.
fn node_of(made: MadeEvent) -> NodeId
    ensures { result ≡ event_node made }
{
    match made {
        MadeEvent::Own { node, .. } => node,
        MadeEvent::Pass { reader, .. } => reader,
    }
}

/// Why a run stops by what was made, which hit a breakpoint.
fn stop_reason_of_breakpoint_if_any(point: Option<Breakpoint>, made: MadeEvent) -> StopReason
    ensures { result ≡ stop_reason_of_breakpoint_if_any point made }
{
    match point {
        None => StopReason::StepCompleted(node_of(made)),
        Some(point) => match point.watched {
            WatchedAction::ArrivesAtSlot(_) => StopReason::Breakpoint {
                node: point.node,
                made,
            },
            WatchedAction::WritesWatchedCell(_) => StopReason::WatchedCellWritten {
                node: point.node,
                made,
            },
        },
    }
}

/// Why a run stops by what was made, which hit the breakpoint at a place, and none before it.
fn stop_reason_of_breakpoint_at_index(
    settings: &Configuration,
    made: MadeEvent,
    place: usize,
) -> StopReason
    ensures { result ≡ stop_reason_of_breakpoint_at_index settings.now made place }
{
    stop_reason_of_breakpoint_if_any(settings.points.breakpoint_at_index(place), made)
}

fn stop_reason_of_move_end(goal: RunGoal, made: MadeEvent) -> StopReason
    ensures { result ≡ stop_reason_of_move_end goal made }
{
    match goal {
        RunGoal::Step(stepping) => StopReason::StepCompleted(stepping.node),
        RunGoal::Continue => StopReason::StepCompleted(node_of(made)),
    }
}

/// Why a run ends: a node came to be stuck, where that ends it; else another reason.
fn deadlock_or_other_stop_reason(
    asked: bool,
    stuck: Option<NodeId>,
    other: Option<StopReason>,
) -> Option<StopReason>
    ensures { result ≡ deadlock_or_other_stop_reason asked stuck other }
{
    if !asked {
        return other;
    }
    match stuck {
        Some(node) => Some(StopReason::Stuck(node)),
        None => other,
    }
}

/// Why a run ended after a slice with this result; none if it continues.
pub(crate) fn slice_stop_reason(
    settings: &Configuration,
    goal: RunGoal,
    stuck: Option<NodeId>,
    halt: HaltReason,
) -> Option<StopReason>
    ensures { result ≡ slice_stop_reason settings.now goal stuck halt }
{
    match halt {
        HaltReason::HitBreakpoint { made, which } => Some(stop_reason_of_breakpoint_at_index(
            settings, made, which,
        )),
        HaltReason::NodeStopped(made) => Some(StopReason::Stopped(node_of(made))),
        HaltReason::BrokeExpectation { made, line } => Some(StopReason::BrokeExpectation {
            node: node_of(made),
            line,
        }),
        HaltReason::CompletedMove(made) => deadlock_or_other_stop_reason(
            settings.stuck,
            stuck,
            Some(stop_reason_of_move_end(goal, made)),
        ),
        HaltReason::Refused(why) => Some(StopReason::Refused(why)),
        HaltReason::SliceEnded => deadlock_or_other_stop_reason(settings.stuck, stuck, None),
        HaltReason::Quiet => deadlock_or_other_stop_reason(
            settings.stuck,
            stuck,
            Some(StopReason::Quiet),
        ),
    }
}

/// Whether a run ended since a node is stuck.
pub(crate) fn is_deadlock_stop(stop: &Option<StopReason>) -> bool
    ensures { result ≡ is_deadlock_stop stop.now }
{
    match stop {
        None => false,
        Some(StopReason::Stuck(_)) => true,
        Some(StopReason::StepCompleted(_)) => false,
        Some(StopReason::Breakpoint { .. }) => false,
        Some(StopReason::WatchedCellWritten { .. }) => false,
        Some(StopReason::Stopped(_)) => false,
        Some(StopReason::BrokeExpectation { .. }) => false,
        Some(StopReason::Quiet) => false,
        Some(StopReason::Refused(_)) => false,
    }
}
