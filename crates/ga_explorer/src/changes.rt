//! The changes of exploring: what each does to the machine, and what it comes to.

ghost use Rattle.std.specs.Prelude.{◌≡◌};
ghost use Rattle.ga_text.specs.Output.{WritesExactly};
ghost use Rattle.ga_explorer.specs.Changes.{change_name, change_result_text, IsChangeResult};
ghost use Rattle.ga_explorer.specs.Opening.{explorer_state};

use crate::expecting::{
    ExpectingRefusal, expecting_refusal_text, go_back_with_expectations, run_with_expectations,
};
use ga_conditions::RunConditions;
use ga_debug_info::DebugInfo;
use ga_explorer_text::{run_result_text, write_back_until_result};
use ga_grid::NodeId;
use ga_lab::Lab;
use ga_scheduler::{RunResult, Schedule, conditions_before_never};
use ga_text::{WriteResult, Writer};
use std::alloc::Global;
use std::io::Write;

/// A command of exploring that changes the machine.
#[derive(Clone, Copy, PartialEq, Eq)]
pub enum Change {
    /// `run`: makes events in the order of a schedule, at most `most`, up to one after which a condition holds.
    Run {
        schedule: Schedule,
        most: u32,
        until: RunConditions,
    },
    /// `back until`: undoes the history up to the newest event after which a condition held; for a node, rolls back its newest
    /// such step.
    BackUntil {
        only: Option<NodeId>,
        until: RunConditions,
    },
}

/// What a change came to.
#[derive(Clone, Copy, PartialEq, Eq)]
pub enum ChangeResult {
    /// A run that had this many conditions ended.
    RunEnded { ran: RunResult, conditions: usize },
    /// This many events were removed, if some were, and this many are kept.
    EventsRemoved { removed: Option<u32>, kept: u32 },
    /// Nothing was done.
    Refused(ExpectingRefusal),
}

impl Change {
    /// The word with which a line spells it.
    pub fn name(self) -> &'static [u8]
        ensures { result.now ≡ change_name self }
    {
        match self {
            Change::Run { .. } => b"run",
            Change::BackUntil { .. } => b"back",
        }
    }

    /// Carries it out. Takes memory for the expectations of the source if `broken` is among its conditions.
    pub fn carry_out(self, alloc: Global, lab: &mut Lab, notes: &Option<DebugInfo>) -> ChangeResult
        ensures { IsChangeResult (explorer_state lab.old notes.now) self result lab.new }
    {
        match self {
            Change::Run {
                schedule,
                most,
                until,
            } => {
                let watched = conditions_before_never(&until);
                match run_with_expectations(alloc, lab, notes, schedule, most, watched) {
                    Ok(ran) => ChangeResult::RunEnded {
                        ran,
                        conditions: watched.len(),
                    },
                    Err(why) => ChangeResult::Refused(why),
                }
            }
            Change::BackUntil { only, until } => {
                let watched = conditions_before_never(&until);
                match go_back_with_expectations(alloc, lab, notes, watched, only) {
                    Ok(removed) => ChangeResult::EventsRemoved {
                        removed,
                        kept: lab.counts().kept,
                    },
                    Err(why) => ChangeResult::Refused(why),
                }
            }
        }
    }
}

/// Writes what a change came to.
///
/// # Errors
/// A write failed.
pub(crate) fn write_change_result<W: Write>(
    came: ChangeResult,
    writer: &mut Writer<'_, W>,
) -> WriteResult
    ensures { WritesExactly result (change_result_text came) W.contents writer.old writer.new }
{
    match came {
        ChangeResult::RunEnded { ran, conditions } => {
            writer.write_blocks(run_result_text(&ran, conditions).as_slice())
        }
        ChangeResult::EventsRemoved { removed, kept } => {
            write_back_until_result(removed, kept, writer)
        }
        ChangeResult::Refused(why) => writer.write_blocks(expecting_refusal_text(why)),
    }
}
