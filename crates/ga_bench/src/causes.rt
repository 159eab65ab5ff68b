//! A chain of causes between two events of a list.

use crate::refused::RunOutcome;
use ga_causal::{ChainLink, EventWithLook, find_chain};
use ga_event::Event;
use ga_grid::{NodeId, OutOfMemoryError};
use std::alloc::Global;

/// The chain between two events of one node, which depends on the first by rule 1.
pub fn run_chain_query(alloc: Global) -> RunOutcome {
    match chain(alloc) {
        Ok(outcome) => outcome,
        Err(OutOfMemoryError) => match chain(alloc) {
            Ok(outcome) => RunOutcome::Refused("chain").combine_outcomes(outcome),
            Err(OutOfMemoryError) => RunOutcome::Wrong("refused again"),
        },
    }
}

fn chain(alloc: Global) -> Result<RunOutcome, OutOfMemoryError> {
    let cause = EventWithLook {
        event: Event::Own(NodeId::new(0)),
        look: false,
    };
    let wanted = [
        ChainLink { place: 0, rule: 0 },
        ChainLink { place: 1, rule: 1 },
    ];
    match find_chain(alloc, &[cause, cause], 0, 1)? {
        Some(chain) if chain.links() == wanted.as_slice() => Ok(RunOutcome::Answered),
        _ => Ok(RunOutcome::Wrong("another chain")),
    }
}
