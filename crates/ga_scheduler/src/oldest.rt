//! The oldest event in the history after which a condition held.

ghost use Rattle.std.specs.Prelude.{◌≡◌, length, if◌then◌else◌, Some, None};
ghost use Rattle.ga_scheduler.specs.Oldest.{earlier_place, oldest_holding_event, find_oldest_matching_event};

use crate::condition::Condition;
use crate::reverse_search::{held, node_of};
use ga_lab::Lab;

/// The earlier of two places, of which there may be none.
pub fn earlier_place(place: Option<u32>, other: Option<u32>) -> Option<u32>
    ensures { result ≡ earlier_place place other }
{
    match place {
        Some(place) => match other {
            Some(other) => Some(place.min(other)),
            None => Some(place),
        },
        None => other,
    }
}

/// The place, if the condition held there.
fn place_if(held: bool, place: u32) -> Option<u32>
    ensures { result ≡ (if held then Some place else None) }
{
    if held { Some(place) } else { None }
}

/// The place of the oldest event after which the condition held.
fn find_oldest_holding_event(lab: &Lab, until: &Condition) -> Option<u32>
    ensures { result ≡ oldest_holding_event until.now lab.now (length lab.now.kept) }
{
    // It is called for its contract only: the history can be replayed.
    lab.chip();
    let node = node_of(until);
    let mut events = lab.backward_reader();
    let mut walk = lab.walk_node_from_step(node, lab.steps(node));
    let mut words = until.count(lab);
    let mut place = lab.counts().kept;
    let mut oldest = None;
    while place > 0 {
        walk.walk_back_to(events.steps(node));
        let Some(made) = events.back() else {
            return oldest;
        };
        let here = place_if(held(until, &made, &events, &walk, words), place - 1);
        oldest = earlier_place(here, oldest);
        words = until.count_back(words, &made);
        place -= 1;
    }
    oldest
}

/// The place of the oldest event in the history after which one of the conditions held. Allocates nothing. The time is linear in the number of events, for
/// each condition.
#[tactic(auto, using(crate::proofs::OldestEvents::one_condition_more, crate::proofs::OldestEvents::no_condition_more))]
pub fn find_oldest_matching_event(lab: &Lab, until: &[Condition]) -> Option<u32>
    ensures { result ≡ find_oldest_matching_event until.now lab.now }
{
    let mut oldest = None;
    'conditions: for condition in until {
        oldest = earlier_place(oldest, find_oldest_holding_event(lab, condition));
    }
    oldest
}
