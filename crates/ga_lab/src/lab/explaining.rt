//! A chain of causes, as the events of its links.

use super::Lab;
use crate::fault::LabFault;
use ga_causal::Chain;
use ga_event::MadeEvent;
use ga_grid::NodeId;

impl Lab {
    ghost use Rattle.std.specs.Prelude.{◌≡◌, ◌⊎◌, ◌↔◌, ◌&&◌, false, List, map, Some, None, Ok, Err, IfOk, IfErr, IsOk, MatchOption};
    ghost use Rattle.ga_causal.specs.declared.chain.ChainLink.{ChainLink};
    ghost use Rattle.ga_causal.specs.Chains.{IsChain};
    ghost use Rattle.ga_event.specs.Told.{made_event_at_place};
    ghost use Rattle.ga_lab.specs.Machine.{machine_events_with_outcomes, machine_events_with_looks, has_step, why_answer};

    /// The chain that `why` returns, as events: of each link, in their order, what `made_event_at` returns for its place. None if the
    /// second step does not depend on the first. Walks back twice to the first step, however long the chain is, and takes
    /// memory linear in the number of events after that step.
    ///
    /// # Errors
    /// `NoStep`, where a node has no such step; then `Memory`.
    pub fn find_chain_events(
        &self,
        from: (NodeId, u32),
        to: (NodeId, u32),
    ) -> Result<Option<Vec<MadeEvent>>, LabFault>
        ensures ok { let answer = why_answer self.now from.0.number from.1 to.0.number to.1 in
            IfOk result (λ told. MatchOption told (answer ≡ Ok None) (λ list. (links : List ChainLink) × (answer ≡ Ok (Some links))
            × (map Some list.items ≡ map (λ link. made_event_at_place (machine_events_with_outcomes self.now) link.place) links))) }
        ensures err { let answer = why_answer self.now from.0.number from.1 to.0.number to.1 in
            IfErr result (λ why. (answer ≡ Err why) ⊎ ((why ≡ LabFault.Memory) × IsOk answer)) }
        ensures refused { (result ≡ Err LabFault.NoStep)
            ↔ ((has_step self.now from.0.number from.1 && has_step self.now to.0.number to.1) ≡ false) }
    {
        match self.why(from, to) {
            Ok(Some(chain)) => match self.tell(&chain) {
                Ok(list) => Ok(Some(list)),
                Err(why) => Err(why),
            },
            Ok(None) => Ok(None),
            Err(why) => Err(why),
        }
    }

    // The events of the links of a chain, in one walk.
    fn tell(&self, chain: &Chain) -> Result<Vec<MadeEvent>, LabFault>
        requires { IsChain (machine_events_with_looks self.now) chain.now }
        ensures ok { IfOk result (λ list.
            map Some list.items ≡ map (λ link. made_event_at_place (machine_events_with_outcomes self.now) link.place) chain.now) }
        ensures err { IfErr result (λ why. why ≡ LabFault.Memory) }
    {
        match chain.places() {
            Ok(places) => match self.chronicle.made_events_at(places.as_slice()) {
                Ok(list) => Ok(list),
                Err(_) => Err(LabFault::Memory),
            },
            Err(_) => Err(LabFault::Memory),
        }
    }
}
