//! The history of a lab, read one event at a time from the newest back.

use super::Lab;
use ga_event::MadeEvent;
use ga_grid::{Chip, NodeId};
use std::marker::Model;

/// A reader of a lab's history, one event at a time from the newest back. Nothing of the lab is undone. A contract sees the
/// lab's machine, and how many events of the history are not read yet.
#[derive(Drop)]
pub struct BackwardReader<'l> {
    chip: &'l Chip,
    walk: ga_journal::BackwardEvents<'l>,
}

impl<'l> Model for BackwardReader<'l> {
    ghost use Rattle.ga_lab.specs.Machine.{BackwardState};
    ghost use Rattle.ga_lab.specs.inner.LabInvariant.{IsLab};
    ghost use Rattle.ga_lab.specs.inner.Walking.{backward_state_of_journal};

    ghost Value = { BackwardState };

    ghost view = { λ b. backward_state_of_journal b.chip.now b.walk };

    ghost invariant = { λ b. IsLab b.chip.now b.walk.book };
}

impl<'l> BackwardReader<'l> {
    ghost use Rattle.std.specs.Prelude.{◌≡◌, ◌-◌, ◌≤◌, ◌↔◌, length, take, IsNone};
    ghost use Rattle.ga_event.specs.Told.{count_steps};
    ghost use Rattle.ga_lab.specs.Machine.{made_event_before};

    /// The number of events that are not read yet: the place of the one that was read last.
    pub fn place(&self) -> u32
        ensures value { result ≡ self.now.place }
        ensures within { result ≤ length self.now.machine.kept }
    {
        self.walk.place()
    }

    /// The number of steps of a node in the events that are not read yet.
    pub fn steps(&self, node: NodeId) -> u32
        ensures { result ≡ count_steps node.number (take self.now.place self.now.machine.kept) }
    {
        self.walk.steps(node)
    }

    /// Reads the event right before the place, which becomes the place, and returns it as made; none if no event is left. Takes
    /// no memory, and the same time whatever the history is.
    pub fn back(&mut self) -> Option<MadeEvent>
        ensures told { result ≡ made_event_before self.old.machine self.old.place }
        ensures none { IsNone result ↔ (self.old.place ≡ 0) }
        ensures left { self.new ≡ record self.old { place = self.old.place - 1 } }
    {
        self.walk.back()
    }
}

impl Lab {
    ghost use Rattle.std.specs.Prelude.{◌≡◌, length};
    ghost use Rattle.ga_lab.specs.Machine.{backward_state};

    /// A reader of the history, one event at a time from the newest back. Takes no memory.
    pub fn backward_reader(&self) -> BackwardReader<'_>
        ensures { result ≡ backward_state self.now (length self.now.kept) }
    {
        BackwardReader {
            chip: &self.chip,
            walk: self.chronicle.backward_reader(),
        }
    }
}
