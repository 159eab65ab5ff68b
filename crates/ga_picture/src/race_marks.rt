//! Marks of races, and the content of their groups.

ghost use Rattle.std.specs.Prelude.{◌≡◌, ◌+◌, ◌==◌, ◌++◌, ◌<◌, ◌^◌, length, IfOk, OnOk};
ghost use Rattle.ga_picture.specs.Picture.{step_of_race, row_index_of_event_from, race_mark_at_row, race_mark_of_step, all_race_marks};

use crate::placing::{Drawing, DrawnShape, PictureRow};
use crate::text::{x_of, y_of};
use ga_causal::{EventWithLook, OutOfMemoryError, position_of_step};
use ga_grid::NodeId;
use ga_race_detector::{LookRace, Race};
use ga_word::Word18;
use std::alloc::{AllocError, Global};

/// A step that could have come out otherwise.
#[derive(Clone, Copy, PartialEq, Eq)]
pub enum RacingStep {
    /// A pass whose reader could have taken another word.
    Pass(Race),
    /// A look that could have read another word.
    Look(LookRace),
}

/// The mark of a step that could have come out otherwise.
#[derive(Clone, Copy, PartialEq, Eq)]
pub struct RaceMark {
    /// The index of the mark's row.
    pub row: usize,
    /// The step, and how it could have come out.
    pub what: RacingStep,
}

/// The rows of a picture of some events, of which `start` of the oldest are left out.
#[derive(Clone, Copy)]
pub(crate) struct VisibleRows<'k> {
    pub(crate) events: &'k [EventWithLook],
    pub(crate) start: u32,
    pub(crate) rows: &'k [PictureRow],
}

/// A mark for each of these passes and looks whose event has a row.
#[tactic(auto, using(crate::proofs::Laid::marked_next, crate::proofs::Laid::marked_all))]
pub(crate) fn all_race_marks(
    alloc: Global,
    shown: VisibleRows<'_>,
    races: &[Race],
    readings: &[LookRace],
) -> Result<Vec<RaceMark>, OutOfMemoryError>
    requires { length shown.events.now < 2 ^ 32 }
    ensures { IfOk result (λ marks. marks.items ≡ all_race_marks shown.entry.events.now shown.entry.start shown.entry.rows.now races.now readings.now) }
{
    let mut marks = Vec::new(alloc);
    'races: for race in races {
        add(&mut marks, shown, RacingStep::Pass(*race))?;
    }
    'readings: for reading in readings {
        add(&mut marks, shown, RacingStep::Look(*reading))?;
    }
    Ok(marks)
}

/// Adds the mark of a step, where its event has a row.
fn add(
    marks: &mut Vec<RaceMark>,
    shown: VisibleRows<'_>,
    what: RacingStep,
) -> Result<(), OutOfMemoryError>
    requires { length shown.events.now < 2 ^ 32 }
    ensures { OnOk result (marks.new.items ≡ marks.old.items
        ++ race_mark_of_step shown.entry.events.now shown.entry.start shown.entry.rows.now what) }
{
    let (node, step) = step_of_race(&what);
    match position_of_step(shown.events, node, step) {
        Some(place) => add_at(marks, what, row_of(shown.rows, shown.start, place)),
        None => Ok(()),
    }
}

/// Adds the mark of a step at a row, where there is one.
fn add_at(
    marks: &mut Vec<RaceMark>,
    what: RacingStep,
    row: Option<usize>,
) -> Result<(), OutOfMemoryError>
    ensures { OnOk result (marks.new.items ≡ marks.old.items ++ race_mark_at_row what row) }
{
    if let Some(row) = row {
        marks.push(RaceMark { row, what })?;
    }
    Ok(())
}

/// The step that could have come out otherwise.
fn step_of_race(what: &RacingStep) -> (NodeId, u32)
    ensures { result ≡ step_of_race what.now }
{
    match what {
        RacingStep::Pass(race) => (race.reader, race.step),
        RacingStep::Look(reading) => (reading.node, reading.step),
    }
}

/// The index of the row of the event at a place, where it has one.
#[tactic(auto, using(crate::proofs::Laid::row_next, crate::proofs::Laid::row_none))]
fn row_of(rows: &[PictureRow], start: u32, place: u32) -> Option<usize>
    ensures { result ≡ row_index_of_event_from rows.now start place 0 }
{
    'rows: for at in 0..rows.len() {
        let row = rows[at];
        if is_at(row, start, place) {
            return Some(at);
        }
    }
    None
}

/// Whether a row is that of the event at a place.
fn is_at(row: PictureRow, start: u32, place: u32) -> bool
    ensures { result ≡ (row.place + start == place) }
{
    u64::from(row.place) + u64::from(start) == u64::from(place)
}

/// The distance from a circle to the other word, and to the one after it.
const NEXT: u32 = 9;

const BEHIND: u32 = 66;

/// Adds a ring round a step that could have come out otherwise, with its title and the other word.
pub(crate) fn push_race(
    text: &mut String,
    drawing: &Drawing,
    mark: &RaceMark,
) -> Result<(), AllocError> {
    let Some(row) = drawing.rows.get(mark.row) else {
        return Ok(());
    };
    let at = (line_of(row), y_of(mark.row));
    push_title(text, &mark.what)?;
    push_ring(text, at)?;
    push_label(text, at, &mark.what)
}

/// Adds what `races` prints of a race.
fn push_title(text: &mut String, what: &RacingStep) -> Result<(), AllocError> {
    match what {
        RacingStep::Pass(race) => push_pass_title(text, race),
        RacingStep::Look(reading) => push_look_title(text, reading),
    }
}

/// Adds the other word.
fn push_label(text: &mut String, at: (u32, u64), what: &RacingStep) -> Result<(), AllocError> {
    match what {
        RacingStep::Pass(race) => push_word(text, at, race.reader, race.other, race.offered),
        RacingStep::Look(reading) => {
            push_word(text, at, reading.node, reading.neighbour, reading.other)
        }
    }
}

/// The line of a row's event, from the left: for a pass the reader's.
fn line_of(row: &PictureRow) -> u32 {
    match row.shape {
        DrawnShape::Mark { line, .. } => x_of(line),
        DrawnShape::Arrow { to, .. } => x_of(to),
    }
}

/// Adds a ring.
fn push_ring(text: &mut String, at: (u32, u64)) -> Result<(), AllocError> {
    let (x, y) = at;
    write!(text, "<circle cx='{x}' cy='{y}' r='7'/>")
}

/// Adds another word below the circle, left or right of it by the names of the node and of the neighbour from which it comes:
/// next to it if both are in one row of the chip, further away otherwise.
fn push_word(
    text: &mut String,
    at: (u32, u64),
    node: NodeId,
    neighbour: NodeId,
    word: Word18,
) -> Result<(), AllocError> {
    let (x, y) = at;
    let (base, word) = (y.saturating_add(12), word.get());
    let apart = if node.number / 18 == neighbour.number / 18 {
        NEXT
    } else {
        BEHIND
    };
    if neighbour.number < node.number {
        let end = x.saturating_sub(apart);
        write!(
            text,
            "<text class='e' x='{end}' y='{base}'>or {word:06x}</text>"
        )
    } else {
        let start = x.saturating_add(apart);
        write!(text, "<text x='{start}' y='{base}'>or {word:06x}</text>")
    }
}

/// Adds a step, as the title has it.
fn push_step(text: &mut String, node: NodeId, step: u32) -> Result<(), AllocError> {
    let name = node.decimal_name();
    write!(text, "{name:03} {step}")
}

/// Adds what `races` prints of a pass.
fn push_pass_title(text: &mut String, race: &Race) -> Result<(), AllocError> {
    let (writer, other) = (race.writer.decimal_name(), race.other.decimal_name());
    let (word, offered) = (race.word.get(), race.offered.get());
    text.push_str("<title>")?;
    push_step(text, race.reader, race.step)?;
    write!(
        text,
        " takes {word:06x} from {writer:03}, or {offered:06x} from {other:03}: rewind "
    )?;
    push_step(text, race.reader, race.step)?;
    write!(text, ", step {other:03}</title>")
}

/// Adds what `races` prints of a look.
fn push_look_title(text: &mut String, reading: &LookRace) -> Result<(), AllocError> {
    let (word, other, name) = (
        reading.word.get(),
        reading.other.get(),
        reading.node.decimal_name(),
    );
    text.push_str("<title>")?;
    push_step(text, reading.node, reading.step)?;
    write!(text, " reads {word:06x}, or {other:06x} ")?;
    text.push_str(if reading.is_look_first {
        "behind "
    } else {
        "before "
    })?;
    push_step(text, reading.neighbour, reading.change)?;
    text.push_str(": rewind ")?;
    if reading.is_look_first {
        push_step(text, reading.node, reading.step)?;
    } else {
        push_step(text, reading.neighbour, reading.change)?;
    }
    write!(text, ", step {name:03}</title>")
}
