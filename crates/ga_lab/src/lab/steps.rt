//! Queries of a lab by the steps of one node.

use super::Lab;
use crate::fault::LabFault;
use ga_event::MadeEvent;
use ga_grid::NodeId;
use ga_rollback::{RollbackFault, RollbackForecast, forecast_rollback};

impl Lab {
    ghost use Rattle.std.specs.Prelude.{◌≡◌, ◌↔◌, ◌+◌, ℕ, false, length, slice_index, Ok, Err, IfOk, IfErr};
    ghost use Rattle.std.specs.List.{slice_get};
    ghost use Rattle.ga_event.specs.Told.{count_steps};
    ghost use Rattle.ga_lab.specs.Machine.{history_of_node, rewind_answer, state_after_rewind, has_step};

    /// The number of steps of a node in the history.
    pub fn steps(&self, node: NodeId) -> u32
        ensures steps { result ≡ count_steps node.number self.now.kept }
        ensures told { result ≡ length (history_of_node self.now node.number) }
    {
        self.chronicle.journal.count_steps(node)
    }

    /// A node's step as made, the first of which is at place 0; none past its steps. Takes no memory, and the same time
    /// whatever the history is.
    #[tactic(auto, using(crate::proofs::Replays::told_tied))]
    pub fn made_event_of_step(&self, node: NodeId, place: u32) -> Option<MadeEvent>
        ensures { result ≡ slice_get (history_of_node self.now node.number) place }
    {
        self.chronicle.made_event_of_step(node, place)
    }

    /// What `rewind` would remove: the number of events, and the number of steps of each node. Nothing is removed. Takes no
    /// memory, and time linear in the number of steps that would be removed, whatever the rest of the history is.
    ///
    /// # Errors
    /// `NoStep`, where the node has no such step.
    pub fn forecast_rollback(
        &mut self,
        node: NodeId,
        step: u32,
    ) -> Result<RollbackForecast, LabFault>
        ensures answer { IfOk result (λ going. rewind_answer self.old node.number step ≡ Ok going.events) }
        ensures steps { IfOk result (λ going. (m : ℕ) → slice_index going.steps m
            + count_steps m (state_after_rewind self.old node.number step).kept ≡ count_steps m self.old.kept) }
        ensures err { IfErr result (λ why. rewind_answer self.old node.number step ≡ Err why) }
        ensures same { self.new ≡ self.old }
        ensures refused { (result ≡ Err LabFault.NoStep) ↔ (has_step self.old node.number step ≡ false) }
    {
        // So few that the ticks can't overflow.
        let kept = self.chronicle.journal.kept();
        prove!(kept <= u32::MAX);
        self.chronicle.reset_ticks();
        match forecast_rollback(&mut self.chronicle.journal, node, step) {
            Ok(going) => Ok(going),
            Err(RollbackFault::NoStep) => Err(LabFault::NoStep),
        }
    }
}
