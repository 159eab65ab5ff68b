//! Which neighbours of a node ever waited to write to it: no other can give it a word after any rollback.

ghost use Rattle.std.specs.Prelude.{◌≡◌, ◌+◌, ◌<◌, ℕ, true, false, Some, None};
ghost use Rattle.ga_node.specs.State.{wait_of_code, IsWaitCode};
ghost use Rattle.ga_event.specs.Apply.{waits_to_read_side};
ghost use Rattle.ga_grid.specs.Chip.{node_record_at};
ghost use Rattle.ga_event.specs.Told.{count_steps};
ghost use Rattle.ga_grid.specs.Grid.{neighbour_number};
ghost use Rattle.ga_lab.specs.Machine.{chip_of_machine, state_after_rewind, has_step};
ghost use Rattle.ga_race_detector.specs.Races.{alternative_word};
ghost use Rattle.ga_race_detector.specs.inner.Writers.{is_side_flagged_for_writer, IsNeverOfferedOverSide, AreUnflaggedSidesSilent};

use ga_event::{is_waiting_to_read, is_waiting_to_write};
use ga_grid::{NodeId, neighbour};
use ga_lab::Lab;
use ga_node::NodePlace;
use ga_ports::{PortSet, Side};

/// A flag for each side of a node.
#[derive(Clone, Copy, PartialEq, Eq, Debug)]
pub(crate) struct Writers {
    right: bool,
    down: bool,
    left: bool,
    up: bool,
}

impl Writers {
    /// Whether two sides have a flag.
    pub(crate) fn are_two(&self) -> bool {
        (self.right && (self.down || self.left || self.up))
            || (self.down && (self.left || self.up))
            || (self.left && self.up)
    }

    /// The flag of a side.
    pub(crate) fn at(&self, side: Side) -> bool
        ensures { result ≡ is_side_flagged_for_writer self.now side }
    {
        match side {
            Side::Right => self.right,
            Side::Down => self.down,
            Side::Left => self.left,
            Side::Up => self.up,
        }
    }
}

// Whether the node waits to write over the side, or did at load or after some of its steps.
fn has_written(lab: &Lab, node: NodeId, side: Side) -> bool
    ensures { result ≡ false → (n k : ℕ) → neighbour_number n side ≡ Some node.number → alternative_word (chip_of_machine (state_after_rewind lab.now n k)) n side ≡ None }
{
    let _stands = lab.node(node);
    let mut walk = lab.walk_node_from_step(node, lab.steps(node));
    let mut waits = is_waiting_to_write(&walk.node().wait(), side);
    'back: while !waits && walk.step() > 0 {
        walk.back();
        waits = is_waiting_to_write(&walk.node().wait(), side);
    }
    waits
}

// Whether the neighbour on a side of the node waits to write to it, or did at load or after some of its steps.
fn is_written(lab: &Lab, node: NodeId, side: Side) -> bool
    ensures { result ≡ false → IsNeverOfferedOverSide lab.now node.number side }
{
    match neighbour(node, side) {
        Some(other) => has_written(lab, other, side),
        None => false,
    }
}

/// On which sides of the node a neighbour ever waited to write to it, at load or after some of its steps: over no other side a
/// rollback leaves a word offered to it. Takes no memory, and time linear in the number of steps of the neighbours that never
/// did.
pub(crate) fn writers_of(lab: &Lab, node: NodeId) -> Writers
    ensures { AreUnflaggedSidesSilent lab.now node.number result }
{
    Writers {
        right: is_written(lab, node, Side::Right),
        down: is_written(lab, node, Side::Down),
        left: is_written(lab, node, Side::Left),
        up: is_written(lab, node, Side::Up),
    }
}

/// Whether a node whose wait has this number waits to read a set that has the side.
pub(crate) fn reads_by(code: u32, side: Side) -> bool
    requires { IsWaitCode code }
    ensures { result ≡ waits_to_read_side (wait_of_code code) side }
{
    if code == 0 || code >= 48 {
        return false;
    }
    let sides = if code < 32 { code - 16 } else { code - 32 };
    PortSet::from_bits(sides as u8).has(side)
}

// Whether the node waited to read over the side right before its step, by a copy of the node walked back.
fn read_then(lab: &Lab, node: NodeId, step: u32, side: Side) -> bool
    requires { has_step lab.now node.number step ≡ true }
    ensures { result ≡ waits_to_read_side (node_record_at (chip_of_machine (state_after_rewind lab.now node.number step)) node.number).wait side }
{
    let _stands = lab.node(node);
    match lab.peek(node, step - 1) {
        Some(then) => is_waiting_to_read(&then.wait(), side),
        None => false,
    }
}

// Whether the node waited to read over the side right before its step, by the old wait in the step's entry, if it is there.
#[tactic(auto, using(crate::proofs::Silent::waited, ga_lab::proofs::Called::runs_of))]
fn reads_before(lab: &Lab, node: NodeId, step: u32, side: Side) -> bool
    requires { has_step lab.now node.number step ≡ true }
    ensures { result ≡ waits_to_read_side (node_record_at (chip_of_machine (state_after_rewind lab.now node.number step)) node.number).wait side }
{
    let _stands = lab.node(node);
    match lab.overwritten_value(node, step - 1, NodePlace::Wait) {
        Some(code) => reads_by(code, side),
        None => read_then(lab, node, step, side),
    }
}

/// Whether a rollback of the node's step may leave a word offered over the side; if false, it leaves none. True if the
/// neighbour ever waited to write there, and the node waited for a word there right before the step.
#[tactic(auto, using(crate::proofs::Silent::unread))]
pub(crate) fn may_come(lab: &Lab, writers: &Writers, node: NodeId, step: u32, side: Side) -> bool
    requires silent { AreUnflaggedSidesSilent lab.now node.number writers.now }
    requires stands { has_step lab.now node.number step ≡ true }
    ensures none { result ≡ false → alternative_word (chip_of_machine (state_after_rewind lab.now node.number step)) node.number side ≡ None }
    ensures reads { result ≡ true → waits_to_read_side (node_record_at (chip_of_machine (state_after_rewind lab.now node.number step)) node.number).wait side ≡ true }
{
    if !writers.at(side) {
        return false;
    }
    reads_before(lab, node, step, side)
}
