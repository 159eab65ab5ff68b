//! A node of a lab that is walked back through its steps.

use super::Lab;
use ga_grid::{Chip, NodeId};
use ga_journal::OrderedJournal;
use ga_node::{Node, NodePlace};
use std::marker::Model;

/// A copy of a node as it was right after one of its steps, which is walked back step by step. Nothing of the lab is undone. A
/// contract sees the lab's machine, the node, and how many steps it had made.
#[derive(Drop)]
pub struct NodeWalk<'l> {
    chip: &'l Chip,
    chronicle: &'l OrderedJournal,
    id: NodeId,
    step: u32,
    node: Node,
}

impl<'l> Model for NodeWalk<'l> {
    ghost use Rattle.ga_lab.specs.Machine.{NodeAtStep};
    ghost use Rattle.ga_lab.specs.inner.Walking.{walked_node_at_step, IsNodeWalk};

    ghost Value = { NodeAtStep };

    ghost view = { λ w. walked_node_at_step w.chip.now w.chronicle.now.journal w.id w.step };

    ghost invariant = { λ w. IsNodeWalk w.chip.now w.chronicle.now.journal w.id w.step w.node };
}

impl<'l> NodeWalk<'l> {
    ghost use Rattle.std.specs.Prelude.{◌≡◌, ◌<◌, ◌≤◌, ◌-◌, ℕ, take};
    ghost use Rattle.ga_node.specs.Record.{record_of_node};
    ghost use Rattle.ga_grid.specs.Chip.{node_record_at};
    ghost use Rattle.ga_event.specs.Told.{count_steps};
    ghost use Rattle.ga_lab.specs.Machine.{chip_of_machine, earlier_state};

    /// The number of steps that the node had made at this point of the walk.
    pub fn step(&self) -> u32
        ensures value { result ≡ self.now.step }
        ensures within { result ≤ count_steps self.now.node.number self.now.machine.kept }
    {
        self.step
    }

    /// The node as it was at this point of the walk: at each place of the history at which it had made this number of steps, it
    /// is the node to which replaying the events before the place leads.
    pub fn node(&self) -> &Node
        ensures { (place : ℕ) → count_steps self.now.node.number (take place self.now.machine.kept) ≡ self.now.step
            → record_of_node result.now ≡ node_record_at (chip_of_machine (earlier_state self.now.machine place)) self.now.node.number }
    {
        &self.node
    }

    /// A copy of the walk, which is walked back independently. Takes no memory.
    pub fn copy(&self) -> NodeWalk<'l>
        ensures { result ≡ self.now }
    {
        NodeWalk {
            chip: self.chip,
            chronicle: self.chronicle,
            id: self.id,
            step: self.step,
            node: self.node.copy(),
        }
    }

    /// Walks back by a step. Takes no memory, and the same time whatever the history is.
    pub fn back(&mut self)
        requires { 0 < self.old.step }
        ensures { self.new ≡ record self.old { step = self.old.step - 1 } }
    {
        self.walk_back_to(self.step - 1);
    }

    /// Walks back to an earlier step. Takes no memory, and time linear in the number of steps between.
    pub fn walk_back_to(&mut self, step: u32)
        requires { step ≤ self.old.step }
        ensures { self.new ≡ record self.old { step = step } }
    {
        self.chronicle
            .walk_node_back(self.id, &mut self.node, self.step, step);
        self.step = step;
    }
}

impl Lab {
    ghost use Rattle.std.specs.Prelude.{◌≡◌, ◌<◌, ◌≤◌, ◌+◌, ℕ, take, IfSome, IfNone};
    ghost use Rattle.ga_grid.specs.Chip.{node_record_at};
    ghost use Rattle.ga_event.specs.Told.{count_steps};
    ghost use Rattle.ga_node.specs.State.{IsPlaceValueInRange};
    ghost use Rattle.ga_lab.specs.Machine.{chip_of_machine, earlier_state, node_at_step};
    ghost use Rattle.ga_lab.specs.Holding.{HoldsPlaceValue};

    /// A node as it was right after its step, or at load for step 0, to be walked back from there. Takes no memory, and time by how
    /// many steps the node made since.
    pub fn walk_node_from_step(&self, node: NodeId, step: u32) -> NodeWalk<'_>
        requires { step ≤ count_steps node.number self.now.kept }
        ensures { result ≡ node_at_step self.now node step }
    {
        let mut copy = self.chip.node(node).copy();
        let steps = self.chronicle.journal.count_steps(node);
        self.chronicle.walk_node_back(node, &mut copy, steps, step);
        NodeWalk {
            chip: &self.chip,
            chronicle: &self.chronicle,
            id: node,
            step,
            node: copy,
        }
    }

    /// The value of a place of a node right before its step, the one at a position from 0 on, if the step wrote there: T, S, R,
    /// P, I, A, B, the slot, the number of the wait, or a cell of RAM. It is read from the step's entry, without a walk. None if the step didn't
    /// write there, past the node's steps, and for each other place. Takes no memory, and the same time whatever the history
    /// is.
    pub fn overwritten_value(&self, node: NodeId, at: u32, what: NodePlace) -> Option<u32>
        ensures value { IfSome result (λ old. (place : ℕ) → count_steps node.number (take place self.now.kept) ≡ at
            → HoldsPlaceValue (node_record_at (chip_of_machine (earlier_state self.now place)) node.number) what old) }
        ensures in_range { IfSome result (λ old. IsPlaceValueInRange what old) }
        ensures within { IfSome result (λ old. at < count_steps node.number self.now.kept) }
        ensures left { IfNone result ((before behind value : ℕ) → count_steps node.number (take before self.now.kept) ≡ at
            → count_steps node.number (take behind self.now.kept) ≡ at + 1
            → HoldsPlaceValue (node_record_at (chip_of_machine (earlier_state self.now behind)) node.number) what value
            → HoldsPlaceValue (node_record_at (chip_of_machine (earlier_state self.now before)) node.number) what value) }
    {
        self.chip.node(node).has_valid_list_sizes();
        self.chronicle.overwritten_value(node, at, what)
    }
}
