//! Events up to the first one that a watch selects.

ghost use Rattle.std.specs.Prelude.{◌≡◌, ◌≤◌, ◌%◌, Ok, Some, None, IfOk, IfErr, IfSome, IsSome, OnOk, OnErr};
ghost use Rattle.ga_event.specs.Apply.{replay};
ghost use Rattle.ga_lab.specs.Machine.{chip_of_machine};
ghost use Rattle.ga_scheduler.specs.declared.condition.Condition.TheVariants.{WritesRamCell};
ghost use Rattle.ga_scheduler.specs.Conditions.{holds_after_made_event};
ghost use Rattle.ga_scheduler.specs.inner.{HoldsExactlyReadyNodes, IsReadySetKnowledgeTrue, is_random_order};
ghost use Rattle.ga_scheduler.specs.Running.{scheduled_machine};
ghost use Rattle.ga_scheduler.specs.Watched.{IsReportOfNewestEvent, IsRunStep, next_node_with_precedence, next_event_with_precedence, run_after_event_with_precedence, run_after_events_with_precedence, CanMakeNextPrecedenceEvents, make_run_watch, watch_state_after_events, IsPrecedenceRunEndWithoutNextEvent, IsWatchEndAtNewestEvent, HasWatchedRunEnded};

use crate::drawing::Known;
use crate::edges::writes;
use crate::numbers::NumberSet;
use crate::ready::{next_from, ready_nodes};
use crate::running::make;
use crate::schedule::Schedule;
use crate::watch::StopCondition;
use ga_grid::NodeId;
use ga_lab::{Lab, LabFault, MadeEvent};

/// Why no more events were made.
#[derive(Clone, Copy, PartialEq, Eq, Debug)]
pub enum WatchedRunEnd {
    /// The watch ended the run after this event, and after none before.
    EndedByWatch(MadeEvent),
    /// All requested events were made.
    Made,
    /// No node of the chip has an event.
    Quiet,
    /// [`Lab::step`] refused the next event: `Full`, `EventNumbersSpent` or `Memory`.
    Refused(LabFault),
}

/// The number of events, why the run ended, and the next schedule.
#[derive(Clone, Copy, PartialEq, Eq, Debug)]
pub struct WatchedRun {
    /// How many events were made.
    pub events: u64,
    /// Why no more events were made.
    pub end: WatchedRunEnd,
    /// The schedule after the last event, with which a further run continues.
    pub schedule: Schedule,
}

// The node that makes the next event: the one that has precedence, if it has an event, otherwise the one of the schedule.
#[inline(always)]
fn next_first(
    ready: &NumberSet,
    known: &mut Known,
    first: Option<NodeId>,
    schedule: &Schedule,
    lab: &Lab,
    draws: bool,
) -> Option<NodeId>
    requires ready { HoldsExactlyReadyNodes (chip_of_machine lab.now) ready.now }
    requires known { IsReadySetKnowledgeTrue ready.now known.old }
    requires draws { draws ≡ is_random_order schedule.now.order }
    ensures chosen { result ≡ next_node_with_precedence first (scheduled_machine lab.now schedule.now) }
    ensures known { IsReadySetKnowledgeTrue ready.now known.new }
{
    match first {
        Some(node) => {
            if ready.is_number_in_set(node.number) {
                Some(node)
            } else {
                next_from(ready, known, schedule, draws)
            }
        }
        None => next_from(ready, known, schedule, draws),
    }
}

// Makes the next event of the run, where nothing halts it.
#[inline(always)]
fn go(
    lab: &mut Lab,
    ready: &mut NumberSet,
    known: &mut Known,
    first: Option<NodeId>,
    schedule: &mut Schedule,
    draws: bool,
) -> Result<MadeEvent, WatchedRunEnd>
    requires ready { HoldsExactlyReadyNodes (chip_of_machine lab.old) ready.old }
    requires known { IsReadySetKnowledgeTrue ready.old known.old }
    requires replays { IsSome (replay lab.old.load lab.old.kept) }
    requires draws { draws ≡ is_random_order schedule.old.order }
    ensures told { IfOk result (λ made. next_event_with_precedence first (scheduled_machine lab.old schedule.old) ≡ Some made) }
    ensures moved { OnOk result (scheduled_machine lab.new schedule.new ≡ run_after_event_with_precedence first (scheduled_machine lab.old schedule.old)) }
    ensures ready { OnOk result (HoldsExactlyReadyNodes (chip_of_machine lab.new) ready.new) }
    ensures known { OnOk result (IsReadySetKnowledgeTrue ready.new known.new) }
    ensures draws { draws ≡ is_random_order schedule.new.order }
    ensures step { IfOk result (IsRunStep lab.old lab.new) }
    ensures newest { IfOk result (λ made. IsReportOfNewestEvent lab.new made) }
    ensures replays { OnOk result (IsSome (replay lab.new.load lab.new.kept)) }
    ensures halted { IfErr result (IsPrecedenceRunEndWithoutNextEvent first (scheduled_machine lab.old schedule.old)) }
    ensures same { OnErr result (lab.new ≡ lab.old) }
    ensures stays { OnErr result (schedule.new ≡ schedule.old) }
{
    match next_first(ready, known, first, schedule, lab, draws) {
        Some(node) => match make(lab, ready, known, schedule, node, true, draws) {
            Ok(made) => Ok(made),
            Err(why) => Err(WatchedRunEnd::Refused(why)),
        },
        None => Err(WatchedRunEnd::Quiet),
    }
}

/// Makes events in the order of a schedule, at most `most`, up to the first after which a watch ends the run, and returns the
/// next schedule. If the watch didn't end it, a further run by this schedule, with the watch as it then is, continues this one.
/// A node may have precedence: it makes each event that it has, and others make theirs only while it has none.
pub fn run_watched<W: StopCondition>(
    lab: &mut Lab,
    mut schedule: Schedule,
    first: Option<NodeId>,
    most: u64,
    watch: &mut W,
) -> WatchedRun
    requires { W.remembers watch.old lab.old }
    ensures state { scheduled_machine lab.new result.schedule ≡ run_after_events_with_precedence first (scheduled_machine lab.old schedule) result.events }
    ensures made { CanMakeNextPrecedenceEvents first (scheduled_machine lab.old schedule) result.events }
    ensures watch { W.state watch.new ≡ watch_state_after_events (make_run_watch first W.ends W.seen) (W.state watch.old) (scheduled_machine lab.old schedule) result.events }
    ensures most { result.events ≤ most }
    ensures newest { IsWatchEndAtNewestEvent lab.new result.end }
    ensures remembers { W.remembers watch.new lab.new }
    ensures end { HasWatchedRunEnded (make_run_watch first W.ends W.seen) (W.state watch.old) (scheduled_machine lab.old schedule) most result.events result.end }
{
    let mut ready = ready_nodes(lab.chip());
    let mut known = Known::no_known_nodes();
    let draws = schedule.draws();
    let mut events = 0;
    while events < most {
        match go(lab, &mut ready, &mut known, first, &mut schedule, draws) {
            Ok(made) => {
                events += 1;
                if watch.ends_run_after_event(&made, lab) {
                    let end = WatchedRunEnd::EndedByWatch(made);
                    return WatchedRun {
                        events,
                        end,
                        schedule,
                    };
                }
            }
            Err(end) => {
                return WatchedRun {
                    events,
                    end,
                    schedule,
                };
            }
        }
    }
    let end = WatchedRunEnd::Made;
    WatchedRun {
        events,
        end,
        schedule,
    }
}

/// Whether the newest event of a lab stored in a cell of RAM of a node, which the low six bits of an address name.
pub fn has_newest_event_stored_in_cell(
    lab: &Lab,
    made: &MadeEvent,
    node: NodeId,
    address: u8,
) -> bool
    requires { IsReportOfNewestEvent lab.now made.now }
    ensures { result ≡ holds_after_made_event (WritesRamCell node (address % 64) None) made.now lab.now }
{
    writes(made, lab, node, address % 64, None)
}
