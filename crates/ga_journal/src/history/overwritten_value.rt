//! What an event overwrote, by its entry in a node's history.

ghost use Rattle.std.specs.Prelude.{◌≡◌, None};
ghost use Rattle.ga_journal.specs.Walked.{old_value_or_previous, old_value_of_place};

use super::History;
use ga_node::{NodePlace, Saved};

/// The old value of a place, if this is the wanted place `what`.
fn over(what: NodePlace, place: NodePlace, old: u32) -> Option<u32>
    ensures { result ≡ old_value_or_previous what place old None }
{
    match (what, place) {
        (NodePlace::T, NodePlace::T) => Some(old),
        (NodePlace::S, NodePlace::S) => Some(old),
        (NodePlace::R, NodePlace::R) => Some(old),
        (NodePlace::P, NodePlace::P) => Some(old),
        (NodePlace::I, NodePlace::I) => Some(old),
        (NodePlace::A, NodePlace::A) => Some(old),
        (NodePlace::B, NodePlace::B) => Some(old),
        (NodePlace::Slot, NodePlace::Slot) => Some(old),
        (NodePlace::Wait, NodePlace::Wait) => Some(old),
        (NodePlace::Ram(cell), NodePlace::Ram(other)) => {
            if cell == other { Some(old) } else { None }
        }
        _ => None,
    }
}

/// The old value of the wanted place among the old values of an entry.
fn old_value_of_place(what: NodePlace, saved: &Saved) -> Option<u32>
    ensures { result ≡ old_value_of_place what saved.now }
{
    for k in 0..saved.len() {
        let (place, old) = saved.at(k);
        if let Some(value) = over(what, place, old) {
            return Some(value);
        }
    }
    None
}

impl History {
    ghost use Rattle.std.specs.Prelude.{◌≡◌, ◌<◌, length};
    ghost use Rattle.ga_journal.specs.Walked.{overwritten_value};

    /// What a place held before the event of the entry at a position; none where the event left it, or past the entries.
    #[tactic(auto, using(std::proofs::lemmas::Option::slice_get_past, crate::proofs::Storing::pasts_at))]
    pub fn overwritten_value(&self, at: usize, what: NodePlace) -> Option<u32>
        ensures { result ≡ overwritten_value self.now.items at what }
    {
        if at >= self.entries.len() {
            return None;
        }
        let entry = &self.entries[at];
        old_value_of_place(what, &entry.saved)
    }
}
