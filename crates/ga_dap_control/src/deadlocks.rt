//! The deadlocked nodes, and which of them were reported to the client.

ghost use Rattle.std.specs.Prelude.{◌≡◌, Option};
ghost use Rattle.ga_lab.specs.Machine.{chip_of_machine};
ghost use Rattle.ga_grid.specs.declared.node_id.NodeId.{NodeId as ANode};
ghost use Rattle.ga_causal.specs.Dependence.{is_node_flagged};
ghost use Rattle.ga_dap_control.specs.Slices.{IsGreatestDeadlock, IsFirstNewlyDeadlocked, is_newly_deadlocked_by_flags, is_newly_deadlocked, deadlocked_node_if_filter_set, reported_deadlocks};

use crate::configuration::Configuration;
use crate::execution::Execution;
use crate::stop_reason::{StopReason, is_deadlock_stop};
use ga_dap_queries::Debuggee;
use ga_dap_views::has_thread;
use ga_grid::NodeId;
use ga_races::find_deadlocked_nodes;

/// Whether a node that has something to show, and isn't stopped, can never go on and is not among those known.
fn is_newly_deadlocked(program: &Debuggee, known: bool, now: bool, node: NodeId) -> bool
    ensures { result ≡ is_newly_deadlocked_by_flags known now program.now node.number }
{
    let lab = &program.lab;
    now && !known && has_thread(lab, program.nodes.as_slice(), node) && lab.node(node).stop() == 0
}

/// Whether a node that has something to show, and isn't stopped, can never go on and is not among those known, by marks of the nodes.
fn is_newly_marked(program: &Debuggee, known: &[bool; 144], now: &[bool; 144], node: NodeId) -> bool
    ensures { result ≡ is_newly_deadlocked (is_node_flagged known.now) (is_node_flagged now.now) program.now node.number }
{
    is_newly_deadlocked(program, known[node.index()], now[node.index()], node)
}

/// The first node that has something to show, isn't stopped, and can never go on but is not among those known.
pub(crate) fn newly_stuck(
    program: &Debuggee,
    known: &[bool; 144],
    now: &[bool; 144],
) -> Option<NodeId>
    ensures { IsFirstNewlyDeadlocked (is_node_flagged known.now) (is_node_flagged now.now) program.now result }
{
    'nodes: for number in 0..144u8 {
        let node = NodeId::new(number);
        if is_newly_marked(program, known, now, node) {
            return Some(node);
        }
    }
    None
}

/// The nodes that can never go on.
pub(crate) fn stuck_of(program: &Debuggee) -> [bool; 144]
    ensures { IsGreatestDeadlock (chip_of_machine program.now.lab) (is_node_flagged result) }
{
    find_deadlocked_nodes(program.lab.chip())
}

/// The deadlocked node to report to the client, if the filter is on.
pub(crate) fn unreported(
    program: &Debuggee,
    settings: &Configuration,
    execution: &Execution,
    now: &[bool; 144],
) -> Option<NodeId>
    ensures { (stuck : Option ANode) × IsFirstNewlyDeadlocked (is_node_flagged execution.now.reported) (is_node_flagged now.now) program.now stuck × (result ≡ deadlocked_node_if_filter_set settings.now.stuck stuck) }
{
    let stuck = newly_stuck(program, &execution.reported, now);
    if settings.stuck { stuck } else { None }
}

/// Stores which deadlocked nodes were reported to the client, after a slice: if one was, all that are deadlocked then; none if
/// the filter is off.
pub(crate) fn keep_reported(
    execution: &mut Execution,
    asked: bool,
    stop: &Option<StopReason>,
    before: &[bool; 144],
    now: &[bool; 144],
)
    ensures { execution.new ≡ record execution.old { reported = reported_deadlocks asked stop.now before.now now.now } }
{
    if !asked {
        execution.reported = [false; 144];
    } else if is_deadlock_stop(stop) {
        execution.reported = *now;
    } else {
        execution.reported = *before;
    }
}
