//! Steps of one node.

ghost use Rattle.std.specs.Prelude.{◌≡◌, ◌==◌, ◌-◌, ◌<◌, map, IfSome};
ghost use Rattle.std.specs.List.{range_with_len};
ghost use Rattle.ga_event.specs.Told.{count_steps};
ghost use Rattle.ga_dap_breakpoints.specs.Stepping.{is_open_call_at, newest_open_call_entry_index};

use ga_dap_views::{is_call_step, step_pushing_return_entry};
use ga_grid::NodeId;
use ga_lab::Lab;

/// The granularity of a step (Debug Adapter Protocol, "SteppingGranularity").
#[derive(Clone, Copy, PartialEq, Eq, Debug)]
pub enum Granularity {
    /// To the node's next step.
    Instruction,
    /// To the beginning of a line of its source: another line, or the same one after a jump.
    Line,
}

/// A move of a node that is under way. It is kept from one slice of it to the next.
#[derive(Clone, Copy, PartialEq, Eq, Debug)]
pub struct StepMove {
    /// The node.
    pub node: NodeId,
    /// The granularity of the move.
    pub grain: Granularity,
    /// Whether the calls that the node makes are stepped over.
    pub over: bool,
    /// The place on the return stack, from 0 on, of the entry of the call from which the node is to return first.
    pub call: Option<usize>,
    /// How many steps of the node were in the history when the move began: a line continues after a call that the node made
    /// since.
    pub began: u32,
}

/// Whether the entry at a place of the return stack of a node is that of a call.
fn is_open_call_at(lab: &Lab, node: NodeId, place: u8) -> bool
    requires { place < 9 }
    ensures { result ≡ is_open_call_at lab.now node place }
{
    let step = step_pushing_return_entry(lab, node, lab.steps(node), place);
    is_call_step(lab, node, step)
}

/// The place of the newest call from which a node did not come back.
fn newest_open_call_entry_index(lab: &Lab, node: NodeId) -> Option<usize>
    ensures { result ≡ newest_open_call_entry_index lab.now node }
{
    (0..9).position(|place| is_open_call_at(lab, node, place))
}

impl StepMove {
    ghost use Rattle.std.specs.Prelude.{◌≡◌};
    ghost use Rattle.ga_dap_breakpoints.specs.Stepping.{step_in, step_over, step_out_from_call, step_out};

    /// `stepIn` (Debug Adapter Protocol, "StepInRequest").
    pub fn step_in(lab: &Lab, node: NodeId, grain: Granularity) -> Self
        ensures { result ≡ step_in lab.now node grain }
    {
        StepMove {
            node,
            grain,
            over: false,
            call: None,
            began: lab.steps(node),
        }
    }

    /// `next` (Debug Adapter Protocol, "NextRequest"): a move of a node over the calls that it makes.
    pub fn next(lab: &Lab, node: NodeId, grain: Granularity) -> Self
        ensures { result ≡ step_over lab.now node grain }
    {
        StepMove {
            node,
            grain,
            over: true,
            call: None,
            began: lab.steps(node),
        }
    }

    /// A move that returns from a call, by the place of its entry.
    fn step_out_from_call(lab: &Lab, node: NodeId, newest: usize) -> Self
        ensures { result ≡ step_out_from_call lab.now node newest }
    {
        StepMove {
            node,
            grain: Granularity::Instruction,
            over: false,
            call: Some(newest),
            began: lab.steps(node),
        }
    }

    /// `stepOut` (Debug Adapter Protocol, "StepOutRequest"): to where the node came back from the newest call that is open; none where no call is. Takes
    /// time by how many steps the node made since that call, or since the load.
    pub fn step_out(lab: &Lab, node: NodeId) -> Option<Self>
        ensures { result ≡ step_out lab.now node }
    {
        match newest_open_call_entry_index(lab, node) {
            Some(newest) => Some(StepMove::step_out_from_call(lab, node, newest)),
            None => None,
        }
    }
}
