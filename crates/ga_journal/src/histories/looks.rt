//! Looks that saw what is to go.

use super::Histories;
use ga_grid::NodeId;

impl Histories {
    ghost use Rattle.std.specs.Prelude.{◌≡◌, ◌<◌, ◌≤◌, ◌^◌, ℕ, length, IfSome, IfNone};
    ghost use Rattle.std.specs.Bool.{OnTrue, OnFalse};
    ghost use Rattle.ga_journal.specs.inner.Histories.{entry_lists_of_histories, HaveRisingStamps};
    ghost use Rattle.ga_journal.specs.Histories.{history};
    ghost use Rattle.ga_journal.specs.Looks.{HasLookEntry, HasNoLookEntry, IsLookAfterEntry, HasNoLaterLook};

    /// Whether some entry of a node is a look.
    pub(crate) fn has_looked(&self, node: NodeId) -> bool
        ensures yes { OnTrue result (HasLookEntry (history (entry_lists_of_histories self.now) node.number)) }
        ensures no { OnFalse result (
            let entries = history (entry_lists_of_histories self.now) node.number in HasNoLookEntry entries (length entries)) }
    {
        let history = self.at(node);
        history.has_looked()
    }

    /// The position of the newest look among the first entries of the looker, where it came after the entry at a position of
    /// another node.
    pub(crate) fn look_after(&self, looker: (NodeId, u32), gone: (NodeId, u32)) -> Option<u32>
        requires rise { (top : ℕ) × HaveRisingStamps (entry_lists_of_histories self.now) top }
        requires within { looker.1 ≤ length (history (entry_lists_of_histories self.now) looker.0.number) }
        ensures some { IfSome result (λ at.
            IsLookAfterEntry (history (entry_lists_of_histories self.now) looker.0.number) looker.1
            (history (entry_lists_of_histories self.now) gone.0.number) gone.1 at) }
        ensures none { IfNone result (
            HasNoLaterLook (history (entry_lists_of_histories self.now) looker.0.number) looker.1
            (history (entry_lists_of_histories self.now) gone.0.number) gone.1) }
    {
        let (node, place) = gone;
        let others = self.at(node);
        if place as usize >= others.len() {
            return None;
        }
        let stamp = others.entry_without_old_values(place as usize).stamp;
        let (node, mark) = looker;
        let history = self.at(node);
        let at = history.newest_look(mark)?;
        if history.entry_without_old_values(at as usize).stamp > stamp {
            Some(at)
        } else {
            None
        }
    }
}
