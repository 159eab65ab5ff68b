//! The history of a lab with its causes, as one list.

use super::Lab;
use crate::fault::LabFault;
use ga_event::EventWithLook;

impl Lab {
    ghost use Rattle.std.specs.Prelude.{◌≡◌, ℕ, IfOk, IfErr, is_some, length};
    ghost use Rattle.ga_causal.specs.Dependence.{position_of_step};
    ghost use Rattle.ga_lab.specs.Machine.{machine_events_with_looks, has_step};

    /// The events of the history in order, each with whether it looked at the neighbours of its node. A step exists exactly if
    /// it has a place in this list.
    ///
    /// # Errors
    /// `Memory` alone.
    pub fn causes(&self) -> Result<Vec<EventWithLook>, LabFault>
        ensures ok { IfOk result (λ list. list.items ≡ machine_events_with_looks self.now) }
        ensures err { IfErr result (λ why. why ≡ LabFault.Memory) }
        ensures size { length (machine_events_with_looks self.now) ≡ length self.now.kept }
        ensures places { (n k : ℕ) → is_some (position_of_step (machine_events_with_looks self.now) n k) ≡ has_step self.now n k }
    {
        match self.chronicle.causes() {
            Ok(list) => Ok(list),
            Err(_) => Err(LabFault::Memory),
        }
    }
}
