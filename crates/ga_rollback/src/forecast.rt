//! What a rollback would take, without taking it.

ghost use Rattle.std.specs.Prelude.{◌≡◌, ◌+◌, ◌*◌, ◌^◌, ◌<◌, ◌≤◌, ◌⊎◌, ◌↔◌, ℕ, length, slice_index, IfOk, OnErr, Err};
ghost use Rattle.std.specs.List.{sum_by};
ghost use Rattle.ga_event.specs.Told.{count_steps};
ghost use Rattle.ga_journal.specs.Histories.{history};
ghost use Rattle.ga_journal.specs.Events.{journal_events};
ghost use Rattle.ga_journal.specs.Logs.{AreHistoriesOfSomeLog};
ghost use Rattle.ga_journal.specs.Marks.{HasValidMarks, HasNoRollbackUnderWay, mark_of_node, entries_to_remove, entry_counts_event_at, journal_with_raised_mark, count_entries};
ghost use Rattle.ga_journal.specs.inner.Marks.{to_go};
ghost use Rattle.ga_rollback.specs.Rewound.{IsRollbackForecast};
ghost use Rattle.ga_rollback.specs.inner.{count_events_of_histories, count_events_of_entry, AreSomeMarksRaised};

use crate::rollback::{RollbackFault, mark};
use crate::visited::VisitedEntries;
use ga_grid::NodeId;
use ga_journal::Journal;

/// What a rollback would remove: the number of events, and the number of steps of each node.
#[derive(Drop)]
pub struct RollbackForecast {
    /// How many events a rollback would take.
    pub events: u32,
    /// How many steps of each node a rollback would take.
    pub steps: VisitedEntries,
}

/// Returns what `rewind` would remove. Nothing is removed: the journal is as before, except for its ticks. No memory is taken.
/// The work is counted in ticks, at most nine for each step that would be removed, whatever the rest of the history is.
///
/// # Errors
/// `NoStep`, where the node has no such step.
pub fn forecast_rollback(
    journal: &mut Journal,
    node: NodeId,
    step: u32,
) -> Result<RollbackForecast, RollbackFault>
    requires rest { HasNoRollbackUnderWay journal.old }
    requires whole { AreHistoriesOfSomeLog journal.old.histories journal.old.made }
    requires fits { journal.old.ticks.count + 40 * count_entries journal.old + 8 < 2 ^ 64 }
    ensures ok { IfOk result (λ going. IsRollbackForecast journal.old node.number step going.events going.steps) }
    ensures same { journal.new ≡ record journal.old { ticks = journal.new.ticks } }
    ensures tick_counted { IfOk result (λ going.
        journal.new.ticks.count ≤ journal.old.ticks.count + 9 * sum_by (λ (x : ℕ). x) going.steps) }

    // `NoStep`, exactly if the step is 0 or past the node's steps
    ensures refused { (result ≡ Err RollbackFault.NoStep)
        ↔ ((step ≡ 0) ⊎ (count_steps node.number (journal_events journal.old) < step)) }
    ensures journal { OnErr result (journal.new ≡ journal.old) }
{
    let steps = journal.mark_of_node(node);
    if step == 0 || steps < step {
        return Err(RollbackFault::NoStep);
    }
    // So few that their number can't overflow.
    let kept = journal.kept();
    prove!(kept <= u32::MAX);
    let mut going = VisitedEntries::none();
    mark(journal, node, step - 1, &mut going);
    let events = release(journal, &going);
    Ok(RollbackForecast {
        events,
        steps: going,
    })
}

/// Raises all marks up to the ends of the histories, and returns how many events have an entry that was to be removed.
fn release(journal: &mut Journal, going: &VisitedEntries) -> u32
    requires going { (m : ℕ) → slice_index going.now m ≡ entries_to_remove journal.old m }
    requires sound { HasValidMarks journal.old }
    requires few { count_events_of_histories journal.old.histories < 2 ^ 32 }
    requires fits { journal.old.ticks.count + to_go journal.old < 2 ^ 64 }
    ensures done { AreSomeMarksRaised journal.old journal.new result }
    ensures none { (m : ℕ) → entries_to_remove journal.new m ≡ 0 }
{
    let mut events = 0;
    'nodes: for n in going.first()..going.past() {
        let node = NodeId::new(n);
        'marks: while journal.entries_to_remove(node) > 0 {
            events = let_stay(journal, node, events);
        }
    }
    events
}

/// Raises a node's mark by one entry, and counts the event of that entry where it is counted by it.
fn let_stay(journal: &mut Journal, node: NodeId, events: u32) -> u32
    requires going { mark_of_node journal.old node.number < length (history journal.old.histories node.number) }
    requires few { events + count_events_of_entry (entry_counts_event_at journal.old.histories node.number (mark_of_node journal.old node.number)) < 2 ^ 32 }
    requires fits { journal.old.ticks.count + 1 < 2 ^ 64 }
    ensures counted { result
        ≡ events + count_events_of_entry (entry_counts_event_at journal.old.histories node.number (mark_of_node journal.old node.number)) }
    ensures journal_with_raised_mark { journal.new ≡ journal_with_raised_mark journal.old node.number }
{
    if journal.raise_mark(node) {
        events + 1
    } else {
        events
    }
}
