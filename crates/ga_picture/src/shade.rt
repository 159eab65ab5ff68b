//! The colours of the events.

ghost use Rattle.std.specs.Prelude.{◌≡◌, ◌↔◌, ◌<◌, ℕ, true, false, length, Option, Some, IfOk, IfSome, IsTrue, slice_index_or};
ghost use Rattle.ga_picture.specs.Drawing.{AreShadesOfEvents, IsRemovedByRollback, IsCauseOfStep};
ghost use Rattle.ga_causal.specs.Dependence.{DependsOn};

use ga_causal::{EventWithLook, NodeSet, OutOfMemoryError, find_dependents};
use std::alloc::Global;

/// How an event is emphasized. In print each colour has its weight too.
#[derive(Clone, Copy, PartialEq, Eq)]
pub enum Shade {
    /// As any event; with `--cause`, one of the causes.
    Black,
    /// The requested step doesn't depend on the event.
    Grey,
    /// A rollback takes the event.
    Red,
}

/// The colour of each event: red where it depends on the event at `rewind`, which a rollback would take with it; grey where
/// the one at `cause` doesn't depend on it; else black. Walks over the events once for each of the two that is given.
pub fn find_event_shades(
    alloc: Global,
    events: &[EventWithLook],
    cause: Option<u32>,
    rewind: Option<u32>,
) -> Result<Vec<Shade>, OutOfMemoryError>
    requires cause { IfSome cause (λ place. place < length events.now) }
    requires rewind { IfSome rewind (λ place. place < length events.now) }
    ensures { IfOk result (λ shades. AreShadesOfEvents events.now cause rewind shades.items) }
{
    let leads = leading(alloc, events, cause)?;
    let goes = going(alloc, events, rewind)?;
    let mut shades = Vec::with_capacity(alloc, events.len())?;
    'events: for place in 0..events.len() {
        shades.push(shade_for(goes[place], leads[place]))?;
    }
    Ok(shades)
}

/// Of each event, whether the one at the place depends on it; without a place all count as such.
fn leading(
    alloc: Global,
    events: &[EventWithLook],
    cause: Option<u32>,
) -> Result<Vec<bool>, OutOfMemoryError>
    requires { IfSome cause (λ place. place < length events.now) }
    ensures size { IfOk result (λ flags. length flags.items ≡ length events.now) }
    ensures exact { IfOk result (λ flags.
        (j : ℕ) → j < length events.now → (IsTrue (slice_index_or flags.items j false) ↔ IsCauseOfStep events.now cause j)) }
{
    match cause {
        Some(place) => find_causes(alloc, events, place),
        None => Ok(vec![in alloc; true; events.len()]?),
    }
}

/// Of each event, whether it depends on the one at the place; without a place none does.
fn going(
    alloc: Global,
    events: &[EventWithLook],
    rewind: Option<u32>,
) -> Result<Vec<bool>, OutOfMemoryError>
    requires { IfSome rewind (λ place. place < length events.now) }
    ensures size { IfOk result (λ flags. length flags.items ≡ length events.now) }
    ensures exact { IfOk result (λ flags.
        (j : ℕ) → j < length events.now → (IsTrue (slice_index_or flags.items j false) ↔ IsRemovedByRollback events.now rewind j)) }
{
    match rewind {
        Some(place) => find_dependents(alloc, events, place),
        None => Ok(vec![in alloc; false; events.len()]?),
    }
}

/// The colour of an event that is removed, or is a cause of the requested step.
fn shade_for(goes: bool, leads: bool) -> Shade
    ensures red { goes ≡ true → result ≡ Shade.Red }
    ensures black { goes ≡ false → leads ≡ true → result ≡ Shade.Black }
    ensures grey { goes ≡ false → leads ≡ false → result ≡ Shade.Grey }
{
    if goes {
        Shade::Red
    } else if leads {
        Shade::Black
    } else {
        Shade::Grey
    }
}

/// Of each event of the list, whether the one at the place depends on it. Places count from 0. Walks once back over the events
/// before the place.
pub fn find_causes(
    alloc: Global,
    events: &[EventWithLook],
    place: u32,
) -> Result<Vec<bool>, OutOfMemoryError>
    requires { place < length events.now }
    ensures size { IfOk result (λ flags. length flags.items ≡ length events.now) }
    ensures exact { IfOk result (λ flags.
        (j : ℕ) → j < length events.now → (IsTrue (slice_index_or flags.items j false) ↔ DependsOn events.now j place)) }
{
    let last = place as usize;
    let mut flags = vec![in alloc; false; events.len()]?;
    let mut wanted = NodeSet::none();
    flags[last] = true;
    wanted.add_observed_nodes(&events[last]);
    'events: for back in 0..last {
        let at = last - 1 - back;
        let event = &events[at];
        if wanted.is_touched_by(event) {
            flags[at] = true;
            wanted.add_observed_nodes(event);
        }
    }
    Ok(flags)
}
