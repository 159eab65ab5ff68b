//! How many steps of a node and of its neighbours a rollback of a step would leave.

ghost use Rattle.std.specs.Prelude.{◌≡◌, ◌<◌, ◌≤◌, ◌-◌, ◌^◌, ℕ, List, length, slice_index, Some, IfOk, IfErr};
ghost use Rattle.ga_grid.specs.Grid.{neighbour_number};
ghost use Rattle.ga_event.specs.declared.event.EventWithLook.{EventWithLook};
ghost use Rattle.ga_causal.specs.Steps.{count_touching_events};
ghost use Rattle.ga_race_detector.specs.inner.Glances.{kept_steps_of_neighbour, side_steps_left_list, IsStepsLeftAround, AreStepsLeftNearby};

use crate::left::{Depths, StepsLeft, with_step};
use ga_event::EventWithLook;
use ga_grid::{NodeId, neighbour};
use ga_lab::LabFault;
use ga_ports::Side;
use std::alloc::Global;

/// How many steps of a node and of each of its neighbours a rollback of a step would leave.
#[derive(Clone, Copy, PartialEq, Eq, Debug)]
pub(crate) struct Around {
    /// How many steps of the node would be left.
    pub(crate) node: u32,
    right: u32,
    down: u32,
    left: u32,
    up: u32,
}

/// How many steps of a node and of each of its neighbours would be left, for a rollback of each step of one node.
#[derive(Drop)]
pub(crate) struct StepsLeftNearby {
    node: Vec<u32>,
    right: Vec<u32>,
    down: Vec<u32>,
    left: Vec<u32>,
    up: Vec<u32>,
}

impl Around {
    /// How many steps of the neighbour on the side would be left.
    pub(crate) fn over(&self, side: Side) -> u32
        ensures { result ≡ kept_steps_of_neighbour self.now side }
    {
        match side {
            Side::Right => self.right,
            Side::Down => self.down,
            Side::Left => self.left,
            Side::Up => self.up,
        }
    }
}

// The number that a list has for a step of a node.
fn number_of(list: &[u32], step: u32) -> u32
    requires { 0 < step }
    ensures { result ≡ slice_index list.now (step - 1) }
{
    let place = (step - 1) as usize;
    if place < list.len() { list[place] } else { 0 }
}

// The neighbour on a side, or the node itself where nobody is there.
fn beside_or(node: NodeId, side: Side) -> NodeId
    ensures { (m : ℕ) → neighbour_number node.number side ≡ Some m → result.number ≡ m }
{
    match neighbour(node, side) {
        Some(other) => other,
        None => node,
    }
}

// How many steps of a node and its neighbours would be left, for the events so far. On a side without a neighbour, the node
// itself takes its place.
#[derive(Drop)]
struct Sweep {
    here: StepsLeft,
    right: StepsLeft,
    down: StepsLeft,
    left: StepsLeft,
    up: StepsLeft,
}

impl Sweep {
    ghost use Rattle.std.specs.Prelude.{◌≡◌, OnOk, IfOk, IfErr};
    ghost use Rattle.ga_ports.specs.declared.side.Side.{Side};
    ghost use Rattle.ga_race_detector.specs.inner.Writers.{IsStepsLeftUpdated, IsListPaddedWith};
    ghost use Rattle.ga_race_detector.specs.inner.Glances.{sweep_steps_left_on_side, side_steps_left_list, IsEmptySweep, IsEventAddedToSweep, HasRoomInStepCounts};

    // What is known of a node and its neighbours where there was no event.
    fn none(alloc: Global, node: NodeId) -> Self
        ensures { IsEmptySweep node result }
    {
        let right = beside_or(node, Side::Right);
        let down = beside_or(node, Side::Down);
        let left = beside_or(node, Side::Left);
        let up = beside_or(node, Side::Up);
        Sweep {
            here: StepsLeft::none(alloc, node),
            right: StepsLeft::none(alloc, right),
            down: StepsLeft::none(alloc, down),
            left: StepsLeft::none(alloc, left),
            up: StepsLeft::none(alloc, up),
        }
    }

    // Takes in an event for the node and for the sides right and down.
    #[inline(always)]
    fn take_first(&mut self, cause: &EventWithLook, depth: u32) -> Result<(), LabFault>
        requires { HasRoomInStepCounts self.old }
        ensures here { OnOk result (IsStepsLeftUpdated self.old.here self.new.here cause.now depth) }
        ensures right { OnOk result (IsStepsLeftUpdated self.old.right self.new.right cause.now depth) }
        ensures down { OnOk result (IsStepsLeftUpdated self.old.down self.new.down cause.now depth) }
        ensures left { OnOk result (self.new.left ≡ self.old.left) }
        ensures up { OnOk result (self.new.up ≡ self.old.up) }
        ensures err { IfErr result (λ why. why ≡ LabFault.Memory) }
    {
        self.here.take(cause, depth)?;
        self.right.take(cause, depth)?;
        self.down.take(cause, depth)
    }

    // Adds an event of this depth for the node and all its sides.
    #[inline(always)]
    fn take(&mut self, cause: &EventWithLook, depth: u32) -> Result<(), LabFault>
        requires { HasRoomInStepCounts self.old }
        ensures ok { OnOk result (IsEventAddedToSweep self.old self.new cause.now depth) }
        ensures err { IfErr result (λ why. why ≡ LabFault.Memory) }
    {
        self.take_first(cause, depth)?;
        self.left.take(cause, depth)?;
        self.up.take(cause, depth)
    }

    // The lists after the last event, where the node whose steps are rolled back made `made` steps.
    fn end(self, made: u32) -> Result<StepsLeftNearby, LabFault>
        ensures here { IfOk result (λ lists. IsListPaddedWith self.here.list.items lists.node.items made self.here.count) }
        ensures beside { IfOk result (λ lists. (side : Side) →
            IsListPaddedWith (sweep_steps_left_on_side self side).list.items (side_steps_left_list lists side) made (sweep_steps_left_on_side self side).count) }
        ensures err { IfErr result (λ why. why ≡ LabFault.Memory) }
    {
        let Sweep {
            here,
            right,
            down,
            left,
            up,
        } = self;
        let node = here.end(made)?;
        let right = right.end(made)?;
        let down = down.end(made)?;
        let left = left.end(made)?;
        let up = up.end(made)?;
        Ok(StepsLeftNearby {
            node,
            right,
            down,
            left,
            up,
        })
    }
}

impl StepsLeftNearby {
    /// How many steps of `node` and its neighbours would be left, for a rollback of each step of `from`. Takes memory linear in
    /// the number of these steps, and time linear in the number of events.
    ///
    /// # Errors
    /// `Memory` alone.
    pub(crate) fn of(
        alloc: Global,
        causes: &[EventWithLook],
        from: NodeId,
        node: NodeId,
    ) -> Result<Self, LabFault>
        requires few { length causes.now < 2 ^ 32 }
        ensures left { IfOk result (λ lists. AreStepsLeftNearby causes.now from.number node.number lists) }
        ensures err { IfErr result (λ why. why ≡ LabFault.Memory) }
    {
        let mut sweep = Sweep::none(alloc, node);
        let mut depths = Depths::none();
        let mut made = 0u32;
        'causes: for cause in causes {
            let depth = depths.of(cause, from, made);
            depths.put(cause, depth);
            sweep.take(cause, depth)?;
            made = with_step(made, cause, from);
        }
        sweep.end(made)
    }

    // The list of how many steps of the neighbour on a side would be left.
    fn over(&self, side: Side) -> &[u32]
        ensures { result.now ≡ side_steps_left_list self.now side }
    {
        match side {
            Side::Right => self.right.as_slice(),
            Side::Down => self.down.as_slice(),
            Side::Left => self.left.as_slice(),
            Side::Up => self.up.as_slice(),
        }
    }

    // How many steps of the neighbour on a side a rollback of this step would leave.
    fn number_over(&self, side: Side, step: u32) -> u32
        requires { 0 < step }
        ensures { result ≡ slice_index (side_steps_left_list self.now side) (step - 1) }
    {
        let list = self.over(side);
        number_of(list, step)
    }

    /// How many steps of the node and of its neighbours a rollback of this step would leave.
    #[tactic(auto, using(crate::proofs::Lefts::around_at, crate::proofs::Lefts::by_sides))]
    pub(crate) fn at(&self, step: u32) -> Around
        requires { 0 < step }
        ensures { (causes : List EventWithLook) (from node : ℕ) → AreStepsLeftNearby causes from node self.now → step ≤ count_touching_events from causes →
            IsStepsLeftAround causes from step node result }
    {
        let list = self.node.as_slice();
        let node = number_of(list, step);
        let right = self.number_over(Side::Right, step);
        let down = self.number_over(Side::Down, step);
        let left = self.number_over(Side::Left, step);
        let up = self.number_over(Side::Up, step);
        Around {
            node,
            right,
            down,
            left,
            up,
        }
    }
}
