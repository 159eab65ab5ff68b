//! How many steps of a node a rollback of a step of another would leave: for each of these steps, by one pass over the history.

ghost use Rattle.std.specs.Prelude.{◌≡◌, ◌<◌, ◌+◌, [], ◌^◌, ℕ, length, if◌then◌else◌, Some, IfOk, OnOk, IfErr};
ghost use Rattle.ga_causal.specs.Dependence.{event_with_look_touches_node};
ghost use Rattle.ga_grid.specs.Grid.{neighbour_number};
ghost use Rattle.ga_race_detector.specs.inner.Writers.{AreStepsLeftByRollbacks, AreStepsLeftByFirstRollbacks, IsListPaddedWith};

use crate::adding::add;
use crate::writers::Writers;
use ga_event::{Event, EventWithLook, touches};
use ga_grid::{CHIP_NODE_COUNT, NodeId, neighbour};
use ga_lab::LabFault;
use ga_ports::Side;
use std::alloc::Global;
use std::marker::Model;

/// The depth of the newest event of each node: on how many of the first steps of one node it depends.
#[derive(Drop)]
pub(crate) struct Depths {
    steps: [u32; 144],
}

impl Model for Depths {
    ghost use Rattle.std.specs.Prelude.{◌≡◌, ℕ, List, length};

    ghost Value = { List ℕ };

    ghost view = { λ d. d.steps };

    ghost invariant = { λ d. length d.steps ≡ 144 };
}

impl Depths {
    ghost use Rattle.std.specs.Prelude.{◌≡◌, ◌<◌, ◌+◌, ◌==◌, ◌^◌, ℕ, slice_index, if◌then◌else◌};
    ghost use Rattle.ga_grid.specs.Grid.{neighbour_number};
    ghost use Rattle.ga_event.specs.Touches.{neighbours_of_node, nodes_observed_by_event};
    ghost use Rattle.ga_causal.specs.Dependence.{event_with_look_touches_node};
    ghost use Rattle.ga_race_detector.specs.inner.Writers.{greatest_of_node_numbers, max_with_optional_node_number, event_depth};

    /// The numbers where nothing was made: 0 for each node.
    pub(crate) fn none() -> Self
        ensures { (n : ℕ) → slice_index result n ≡ 0 }
    {
        Depths {
            steps: [0; CHIP_NODE_COUNT],
        }
    }

    // On how many steps of the one node the newest event of a node depends.
    fn at(&self, node: NodeId) -> u32
        ensures { result ≡ slice_index self.now node.number }
    {
        self.steps[node.index()]
    }

    /// On how many steps of `node` an event depends, or which it is, where `made` of them were made before it.
    #[inline(always)]
    pub(crate) fn of(&self, cause: &EventWithLook, node: NodeId, made: u32) -> u32
        requires { made + 1 < 2 ^ 32 }
        ensures { result ≡ event_depth (slice_index self.now) node.number made cause.now }
    {
        if touches(cause.event, node) {
            made + 1
        } else {
            self.greatest(cause)
        }
    }

    // The greatest of the numbers of the nodes that an event sees.
    #[tactic(auto, unfolding(ga_event::specs::Touches::nodes_observed_by_event))]
    fn greatest(&self, cause: &EventWithLook) -> u32
        ensures { result ≡ greatest_of_node_numbers (slice_index self.now) (nodes_observed_by_event cause.now) }
    {
        match cause.event {
            Event::Own(node) => {
                let looked = if cause.look {
                    self.greatest_beside(node)
                } else {
                    0
                };
                self.at(node).max(looked)
            }
            Event::Pass { writer, reader, .. } => self.at(writer).max(self.at(reader).max(0)),
        }
    }

    // The greatest of the numbers of the neighbours of a node.
    #[tactic(auto, using(crate::proofs::Depths::greatest_beside))]
    fn greatest_beside(&self, node: NodeId) -> u32
        ensures { result ≡ greatest_of_node_numbers (slice_index self.now) (neighbours_of_node node.number) }
    {
        let up = self.greater_over(node, Side::Up, 0);
        let left = self.greater_over(node, Side::Left, up);
        let down = self.greater_over(node, Side::Down, left);
        self.greater_over(node, Side::Right, down)
    }

    // The greater of a number and that of the neighbour on a side.
    fn greater_over(&self, node: NodeId, side: Side, number: u32) -> u32
        ensures { result ≡ max_with_optional_node_number (slice_index self.now) (neighbour_number node.number side) number }
    {
        match neighbour(node, side) {
            Some(other) => self.at(other).max(number),
            None => number,
        }
    }

    /// Puts a number to the nodes that an event touches.
    #[inline(always)]
    pub(crate) fn put(&mut self, cause: &EventWithLook, steps: u32)
        ensures { (n : ℕ) → slice_index self.new n ≡ (if event_with_look_touches_node cause.now n then steps else slice_index self.old n) }
    {
        match cause.event {
            Event::Own(node) => self.put_at(node.index(), steps),
            Event::Pass { writer, reader, .. } => {
                self.put_at(writer.index(), steps);
                self.put_at(reader.index(), steps);
            }
        }
    }

    // Puts a number to a node.
    fn put_at(&mut self, node: usize, steps: u32)
        requires { node < 144 }
        ensures { (n : ℕ) → slice_index self.new n ≡ (if node == n then steps else slice_index self.old n) }
    {
        self.steps[node] = steps;
    }
}

/// The number of steps of a node after an event: one more if the event touches the node.
#[inline(always)]
pub(crate) fn with_step(steps: u32, cause: &EventWithLook, node: NodeId) -> u32
    requires { steps + 1 < 2 ^ 32 }
    ensures { result ≡ steps + (if event_with_look_touches_node cause.now node.number then 1 else 0) }
{
    if touches(cause.event, node) {
        steps + 1
    } else {
        steps
    }
}

// Fills a list up to a length with a number.
fn fill(list: &mut Vec<u32>, to: u32, number: u32) -> Result<(), LabFault>
    ensures ok { OnOk result (IsListPaddedWith list.old.items list.new.items to number) }
    ensures err { IfErr result (λ why. why ≡ LabFault.Memory) }
{
    'fill: for _place in list.len()..to as usize {
        add(list, number)?;
    }
    Ok(())
}

/// How many steps of one node a rollback of each of the first steps of another would leave, for the events so far.
#[derive(Drop)]
pub(crate) struct StepsLeft {
    node: NodeId,
    count: u32,
    list: Vec<u32>,
}

impl StepsLeft {
    ghost use Rattle.std.specs.Prelude.{◌≡◌, ◌<◌, ◌+◌, [], ◌^◌, OnOk, IfOk, IfErr};
    ghost use Rattle.ga_race_detector.specs.inner.Writers.{IsListPaddedWith, IsStepsLeftUpdated};

    /// What is known of a node where there was no event: no step of it, and an empty list.
    pub(crate) fn none(alloc: Global, node: NodeId) -> Self
        ensures node { result.node ≡ node }
        ensures count { result.count ≡ 0 }
        ensures list { result.list.items ≡ [] }
    {
        StepsLeft {
            node,
            count: 0,
            list: Vec::new(alloc),
        }
    }

    /// Adds an event, which depends on the first `depth` steps of the node whose steps are rolled back.
    ///
    /// # Errors
    /// `Memory` alone.
    #[inline(always)]
    #[tactic(auto, using(crate::proofs::Lefts::passed_by, crate::proofs::Lefts::taken_by))]
    pub(crate) fn take(&mut self, cause: &EventWithLook, depth: u32) -> Result<(), LabFault>
        requires { self.old.count + 1 < 2 ^ 32 }
        ensures ok { OnOk result (IsStepsLeftUpdated self.old self.new cause.now depth) }
        ensures err { IfErr result (λ why. why ≡ LabFault.Memory) }
    {
        if !touches(cause.event, self.node) {
            return Ok(());
        }
        fill(&mut self.list, depth, self.count)?;
        self.count += 1;
        Ok(())
    }

    /// The list after the last event, where the node whose steps are rolled back made `made` steps.
    ///
    /// # Errors
    /// `Memory` alone.
    pub(crate) fn end(self, made: u32) -> Result<Vec<u32>, LabFault>
        ensures ok { IfOk result (λ list. IsListPaddedWith self.list.items list.items made self.count) }
        ensures err { IfErr result (λ why. why ≡ LabFault.Memory) }
    {
        let StepsLeft { count, list, .. } = self;
        let mut list = list;
        fill(&mut list, made, count)?;
        Ok(list)
    }
}

/// How many steps of another node a rollback of each step of a node would leave. Takes memory linear in the number of these
/// steps, and time linear in the number of events.
///
/// # Errors
/// `Memory` alone.
pub(crate) fn steps_left(
    alloc: Global,
    causes: &[EventWithLook],
    node: NodeId,
    other: NodeId,
) -> Result<Vec<u32>, LabFault>
    requires few { length causes.now < 2 ^ 32 }
    ensures left { IfOk result (λ left. AreStepsLeftByRollbacks causes.now node.number other.number left.items) }
    ensures err { IfErr result (λ why. why ≡ LabFault.Memory) }
{
    let mut left = StepsLeft::none(alloc, other);
    let mut depths = Depths::none();
    let mut made = 0u32;
    'causes: for cause in causes {
        let depth = depths.of(cause, node, made);
        depths.put(cause, depth);
        left.take(cause, depth)?;
        made = with_step(made, cause, node);
    }
    left.end(made)
}

// How many steps of the neighbour on a side a rollback of each step of a node would leave, if requested; else an empty list.
fn steps_over(
    alloc: Global,
    causes: &[EventWithLook],
    node: NodeId,
    side: Side,
    is_asked: bool,
) -> Result<Vec<u32>, LabFault>
    requires few { length causes.now < 2 ^ 32 }
    ensures left { IfOk result (λ left. (m : ℕ) → neighbour_number node.number side ≡ Some m → AreStepsLeftByFirstRollbacks causes.now node.number m left.items) }
    ensures err { IfErr result (λ why. why ≡ LabFault.Memory) }
{
    match neighbour(node, side) {
        Some(other) if is_asked => steps_left(alloc, causes, node, other),
        _ => Ok(Vec::new(alloc)),
    }
}

/// How many steps of some neighbours of a node, by their sides, a rollback of each step of the node would leave.
#[derive(Drop)]
pub(crate) struct LeftBeside {
    right: Vec<u32>,
    down: Vec<u32>,
    left: Vec<u32>,
    up: Vec<u32>,
}

impl LeftBeside {
    ghost use Rattle.std.specs.Prelude.{◌≡◌, ◌<◌, ◌^◌, ℕ, List, length, Some, IfOk, IfErr, IfSome};
    ghost use Rattle.ga_grid.specs.Grid.{neighbour_number};
    ghost use Rattle.ga_event.specs.declared.event.EventWithLook.{EventWithLook};
    ghost use Rattle.ga_causal.specs.Dependence.{events_after_rewind};
    ghost use Rattle.ga_causal.specs.Steps.{count_touching_events};
    ghost use Rattle.ga_race_detector.specs.inner.Writers.{neighbour_steps_left_list, AreNeighbourStepsLeft};

    /// How many steps of each neighbour that ever waited to write to the node a rollback of each step of the node would leave.
    /// Of none, if these neighbours are fewer than two. Takes memory linear in the number of these steps, and for each
    /// neighbour time linear in the number of events.
    ///
    /// # Errors
    /// `Memory` alone.
    pub(crate) fn of(
        alloc: Global,
        causes: &[EventWithLook],
        node: NodeId,
        writers: &Writers,
    ) -> Result<Self, LabFault>
        requires few { length causes.now < 2 ^ 32 }
        ensures left { IfOk result (λ beside. AreNeighbourStepsLeft causes.now node.number beside) }
        ensures err { IfErr result (λ why. why ≡ LabFault.Memory) }
    {
        let are_two = writers.are_two();
        Ok(LeftBeside {
            right: steps_over(
                alloc,
                causes,
                node,
                Side::Right,
                are_two && writers.at(Side::Right),
            )?,
            down: steps_over(
                alloc,
                causes,
                node,
                Side::Down,
                are_two && writers.at(Side::Down),
            )?,
            left: steps_over(
                alloc,
                causes,
                node,
                Side::Left,
                are_two && writers.at(Side::Left),
            )?,
            up: steps_over(
                alloc,
                causes,
                node,
                Side::Up,
                are_two && writers.at(Side::Up),
            )?,
        })
    }

    // The list of how many steps of the neighbour on a side would be left.
    fn over(&self, side: Side) -> &[u32]
        ensures { result.now ≡ neighbour_steps_left_list self.now side }
    {
        match side {
            Side::Right => self.right.as_slice(),
            Side::Down => self.down.as_slice(),
            Side::Left => self.left.as_slice(),
            Side::Up => self.up.as_slice(),
        }
    }

    /// How many steps of the neighbour on the side a rollback of the step would leave, if it is known.
    pub(crate) fn at(&self, side: Side, step: u32) -> Option<u32>
        requires { 0 < step }
        ensures { IfSome result (λ many. (causes : List EventWithLook) (n m : ℕ) → AreNeighbourStepsLeft causes n self.now → neighbour_number n side ≡ Some m →
            many ≡ count_touching_events m (events_after_rewind causes n step)) }
    {
        let list = self.over(side);
        let place = (step - 1) as usize;
        if place < list.len() {
            Some(list[place])
        } else {
            None
        }
    }
}
