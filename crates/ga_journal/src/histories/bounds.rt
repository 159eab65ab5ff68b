//! Which node had a part in the newest event.

ghost use Rattle.std.specs.Prelude.{◌≡◌, ◌≤◌, List, length};
ghost use Rattle.ga_journal.specs.Histories.{EntryRecord, history};
ghost use Rattle.ga_journal.specs.inner.Histories.{entry_lists_of_histories, HaveRisingStamps, stamp_bound_of_history, IsNodeWithLatestStamp, cut, AreCutsWithinHistories};

use super::Histories;
use ga_grid::NodeId;

/// Histories in which the newest entry can be searched for.
pub(crate) trait Bounds {
    // The histories as they are seen.
    ghost seen: { Self → List (List EntryRecord) };

    /// The least number above a history's stamps.
    fn bound(&self, node: NodeId, top: u64) -> u64
        requires rise { HaveRisingStamps (seen self.now) top }
        ensures value { result ≡ stamp_bound_of_history (history (seen self.now) node.number) }
        ensures within { result ≤ top }
        ensures nodes { length (seen self.now) ≡ 144 };
}

impl Bounds for Histories {
    ghost seen = { entry_lists_of_histories };

    #[inline(always)]
    fn bound(&self, node: NodeId, top: u64) -> u64 {
        let history = self.at(node);
        match history.last_entry_stamp() {
            None => 0,
            Some(last) => last.0 + 1,
        }
    }
}

/// The first entries of each history, as many as `lengths` has for it.
#[derive(Clone, Copy)]
pub(super) struct Firsts<'a> {
    pub histories: &'a Histories,
    pub lengths: &'a [u32; 144],
    ghost size: { length lengths.now ≡ 144 },
    ghost fits: { AreCutsWithinHistories (entry_lists_of_histories histories.now) lengths.now },
}

impl<'a> Bounds for Firsts<'a> {
    ghost seen = { λ firsts. cut (entry_lists_of_histories firsts.histories.now) firsts.lengths.now };

    #[inline(always)]
    fn bound(&self, node: NodeId, top: u64) -> u64 {
        let history = self.histories.at(node);
        let len = self.lengths[node.index()] as usize;
        if len == 0 {
            return 0;
        }
        history.entry_without_old_values(len - 1).stamp + 1
    }
}

/// The node whose last entry has the greatest stamp of all.
#[tactic(auto, using(std::proofs::lemmas::Bool::cases_lt, crate::proofs::Cutting::bound_past))]
#[inline(never)]
fn scan<B: Bounds>(histories: &B, top: u64) -> NodeId
    requires rise { HaveRisingStamps (B.seen histories.now) top }
    ensures { IsNodeWithLatestStamp (B.seen histories.now) result.number }
{
    let mut best = NodeId::new(0);
    let mut greatest = histories.bound(best, top);
    for number in 1..144u8 {
        let node = NodeId::new(number);
        let here = histories.bound(node, top);
        if here > greatest {
            greatest = here;
            best = node;
        }
    }
    best
}

/// A node that had a part in the newest event, if there is one. If the hint's last stamp is directly below the top, no other
/// node is read.
#[tactic(auto, using(crate::proofs::Heads::bound_le))]
#[inline(always)]
pub(crate) fn newest<B: Bounds>(histories: &B, top: u64, hint: NodeId) -> NodeId
    requires rise { HaveRisingStamps (B.seen histories.now) top }
    ensures { IsNodeWithLatestStamp (B.seen histories.now) result.number }
{
    if histories.bound(hint, top) == top {
        return hint;
    }
    scan(histories, top)
}
