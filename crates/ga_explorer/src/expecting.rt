//! Runs and searches back, with `broken` among their conditions or without.

ghost use Rattle.std.specs.Prelude.{◌≡◌, ◌≤◌, length, IfOk, IfErr, OnErr};
ghost use Rattle.ga_explorer.specs.Expecting.{IsRunOf, IsRunRefused, IsBackOf, expecting_refusal_text};

use ga_debug_info::DebugInfo;
use ga_display::advised_refusal_text;
use ga_grid::NodeId;
use ga_lab::{Lab, LabFault};
use ga_scheduler::{Condition, RunResult, Schedule, run_schedule, undo_until_condition};
use ga_state_expectations::{
    back_until_expecting, expects_nothing, has_broken_among, known_expectations, run_expecting,
};
use std::alloc::{AllocError, Global};

/// Why a command with `broken` among its conditions did nothing.
#[derive(Clone, Copy, PartialEq, Eq, Debug)]
pub enum ExpectingRefusal {
    /// The source says nothing of what is expected.
    NothingExpected,
    /// Out of memory.
    Memory,
}

impl From<AllocError> for ExpectingRefusal {
    ghost use Rattle.std.specs.Prelude.{◌≡◌};
    ghost use Rattle.ga_explorer.specs.declared.expecting.ExpectingRefusal.TheVariants.{Memory};

    ghost from_gives = { λ _ why. why ≡ Memory };

    fn from(_refused: AllocError) -> Self {
        ExpectingRefusal::Memory
    }
}

/// The line of a refusal.
pub fn expecting_refusal_text(why: ExpectingRefusal) -> &'static [u8]
    ensures { result.now ≡ expecting_refusal_text why }
{
    match why {
        ExpectingRefusal::NothingExpected => {
            b"no 35 noexpect: the source has no line expect; write one, as expect 001 t = 3\n"
        }
        ExpectingRefusal::Memory => advised_refusal_text(LabFault::Memory),
    }
}

/// Makes the events of a `run`. If `broken` is among the conditions, takes memory for the expectations of the source.
///
/// # Errors
/// `broken` is among the conditions and the source expects nothing, or out of memory; then no event was made.
pub(crate) fn run_with_expectations(
    alloc: Global,
    lab: &mut Lab,
    notes: &Option<DebugInfo>,
    schedule: Schedule,
    most: u32,
    until: &[Condition],
) -> Result<RunResult, ExpectingRefusal>
    requires { length until.now ≤ 8 }
    ensures ran { IfOk result (λ ran. IsRunOf notes.now lab.old schedule most until.now ran lab.new) }
    ensures refused { IfErr result (IsRunRefused notes.now until.now) }
    ensures same { OnErr result (lab.new ≡ lab.old) }
{
    if !has_broken_among(until) {
        return Ok(run_schedule(lab, schedule, u64::from(most), until));
    }
    if expects_nothing(notes) {
        return Err(ExpectingRefusal::NothingExpected);
    }
    let expectations = known_expectations(alloc, notes)?;
    let ran = run_expecting(
        alloc,
        lab,
        schedule,
        u64::from(most),
        until,
        expectations.as_slice(),
    )?;
    Ok(ran)
}

/// Removes the events of a `back until`, and returns their number; none if there is no such event. If `broken` is among the conditions, takes memory for the
/// expectations of the source.
///
/// # Errors
/// `broken` is among the conditions and the source expects nothing, or out of memory; then no event is removed.
pub(crate) fn go_back_with_expectations(
    alloc: Global,
    lab: &mut Lab,
    notes: &Option<DebugInfo>,
    until: &[Condition],
    only: Option<NodeId>,
) -> Result<Option<u32>, ExpectingRefusal>
    ensures gone { IfOk result (λ gone. IsBackOf notes.now lab.old until.now only gone lab.new) }
    ensures refused { IfErr result (IsRunRefused notes.now until.now) }
    ensures same { OnErr result (lab.new ≡ lab.old) }
{
    if !has_broken_among(until) {
        return Ok(undo_until_condition(lab, until, only));
    }
    if expects_nothing(notes) {
        return Err(ExpectingRefusal::NothingExpected);
    }
    let expectations = known_expectations(alloc, notes)?;
    Ok(back_until_expecting(lab, until, expectations.as_slice(), only))
}
