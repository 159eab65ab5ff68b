//! A picture as text in SVG: a group for each event, and of each node when it runs and when it waits.

ghost use Rattle.std.specs.Prelude.{◌≡◌, IfOk, string_bytes};
ghost use Rattle.ga_picture.specs.Drawing.{shade_of_shape};
ghost use Rattle.ga_picture.specs.Picture.{IsSvgPicture, IsSvgGroup, AreSvgGroups, shade_group_tag, race_group_tag, race_group_tags};
ghost use Rattle.ga_picture.specs.inner.{BeginsSvgText};

use crate::marks::push_event;
use crate::placing::{Drawing, DrawnShape};
use crate::race_marks::{RaceMark, push_race};
use crate::shade::Shade;
use ga_event::MadeEvent;
use ga_grid::NodeId;
use ga_node::OwnEventKind;
use std::alloc::{AllocError, Global};

/// The widths left of the first line and right of the last one, and between two lines.
const MARGIN: u32 = 70;

const BETWEEN: u32 = 120;

/// The heights above the first event and below the last one, and between two events.
const HEAD: u64 = 52;

const ROW: u64 = 18;

/// The bytes that are taken at once for what is drawn of an event, which is rarely more.
const EVENT_ROOM: usize = 512;

/// The look of the classes: `k` black, `g` grey, `r` red, `c` of races. Red is heavier too, so that it is visible in print.
/// Each text has a white rim, and so can be read over lines.
const STYLE: &str = "<style>
text{font:11px ui-monospace,Menlo,Consolas,'DejaVu Sans Mono',monospace;fill:#111;paint-order:stroke;stroke:#fff;stroke-width:3px}
line,path,circle{stroke:#111;fill:none;stroke-width:1.2}
.n{font-weight:bold;font-size:13px;text-anchor:middle}
.l{stroke:#ddd}
.t{stroke:#999}
.w{stroke:#666;stroke-dasharray:1 4;stroke-linecap:round;stroke-width:2}
.d{stroke-dasharray:5 3}
.m{text-anchor:middle}
.e{text-anchor:end}
.f{fill:#111}
.o{fill:#fff}
.g text{fill:#767676}
.g line,.g path,.g circle{stroke:#aaa}
.g .f{fill:#aaa}
.r text{fill:#b84300;font-weight:bold}
.r line,.r path,.r circle{stroke:#d55e00;stroke-width:2.8}
.r .f{fill:#d55e00}
.c text{fill:#7a35a8;font-size:9px}
.c circle{stroke:#7a35a8;stroke-width:2}
</style>
";

/// The text of a picture: a head, a group for each row in order and for each mark, and a foot. Of the events that are looked at
/// their reports are given, in order; where there is none a shape has no title and no label.
///
/// # Errors
/// Memory was refused.
pub fn format_svg(
    alloc: Global,
    drawing: &Drawing,
    marks: &[RaceMark],
    mades: &[MadeEvent],
) -> Result<String, AllocError>
    ensures { IfOk result (λ text. IsSvgPicture drawing.now.rows.items marks.now (string_bytes text)) }
{
    let mut text = events(alloc, drawing, mades)?;
    let races = races(alloc, drawing, marks)?;
    text.push_str(races.as_str())?;
    text.push_str("</svg>\n")?;
    Ok(text)
}

/// The head, and a group for each row.
fn events(alloc: Global, drawing: &Drawing, mades: &[MadeEvent]) -> Result<String, AllocError>
    ensures { IfOk result (λ text. BeginsSvgText drawing.now.rows.items (string_bytes text)) }
{
    let mut text = head(alloc, drawing, mades)?;
    'rows: for at in 0..drawing.rows.len() {
        let row = drawing.rows[at];
        let group = group(alloc, drawing, at, row.shape, mades.get(row.place as usize))?;
        text.push_str(group.as_str())?;
    }
    Ok(text)
}

/// A group for each mark.
fn races(alloc: Global, drawing: &Drawing, marks: &[RaceMark]) -> Result<String, AllocError>
    ensures { IfOk result (λ text. AreSvgGroups (race_group_tags marks.now) (string_bytes text)) }
{
    let mut text = String::new(alloc);
    'marks: for mark in marks {
        let group = race_group(alloc, drawing, mark)?;
        text.push_str(group.as_str())?;
    }
    Ok(text)
}

/// What is drawn of one event: a group of the class of its colour.
fn group(
    alloc: Global,
    drawing: &Drawing,
    row: usize,
    shape: DrawnShape,
    made: Option<&MadeEvent>,
) -> Result<String, AllocError>
    ensures { IfOk result (λ text. IsSvgGroup (shade_group_tag (shade_of_shape shape)) (string_bytes text)) }
{
    let mut text = String::with_capacity(alloc, EVENT_ROOM)?;
    text.push_str(class(shape.shade()))?;
    let mut body = String::with_capacity(alloc, EVENT_ROOM)?;
    push_event(&mut body, drawing, y_of(row), shape, made)?;
    text.push_str(body.as_str())?;
    text.push_str("</g>\n")?;
    Ok(text)
}

/// What is drawn of a step that could have come out otherwise.
fn race_group(alloc: Global, drawing: &Drawing, mark: &RaceMark) -> Result<String, AllocError>
    ensures { IfOk result (λ text. IsSvgGroup race_group_tag (string_bytes text)) }
{
    let mut text = String::new(alloc);
    text.push_str("<g class='c'>")?;
    let mut body = String::new(alloc);
    push_race(&mut body, drawing, mark)?;
    text.push_str(body.as_str())?;
    text.push_str("</g>\n")?;
    Ok(text)
}

/// Begins a group of this colour.
fn class(shade: Shade) -> &'static str
    ensures { result.now ≡ shade_group_tag shade }
{
    match shade {
        Shade::Black => "<g class='k'>",
        Shade::Grey => "<g class='g'>",
        Shade::Red => "<g class='r'>",
    }
}

/// The distance of a line from the left.
pub(crate) fn x_of(line: u8) -> u32 {
    MARGIN + BETWEEN * u32::from(line)
}

/// The distance of a row from the top.
pub(crate) fn y_of(row: usize) -> u64 {
    (row as u64).saturating_mul(ROW).saturating_add(HEAD)
}

/// The part before the events: the size, the classes, each node's name and thin line, when it runs and waits, and the foot.
fn head(alloc: Global, drawing: &Drawing, mades: &[MadeEvent]) -> Result<String, AllocError> {
    let mut text = String::new(alloc);
    let width = x_of(drawing.lines.len().min(144) as u8).saturating_add(20);
    let height = y_of(drawing.rows.len());
    let whole = y_of(
        drawing
            .rows
            .len()
            .saturating_add(drawing.independent_nodes.len()),
    );
    write!(
        text,
        "<svg xmlns='http://www.w3.org/2000/svg' viewBox='0 0 {width} {whole}' width='{width}' height='{whole}'>\n"
    )?;
    text.push_str(STYLE)?;
    text.push_str("<rect width='100%' height='100%' fill='#fff'/>\n")?;
    for (line, node) in drawing.lines.iter().take(144).enumerate() {
        push_name(&mut text, x_of(line as u8), *node, height)?;
    }
    push_tracks(alloc, &mut text, drawing, mades)?;
    push_foot(&mut text, drawing)?;
    Ok(text)
}

/// Adds a line for each independent node.
fn push_foot(text: &mut String, drawing: &Drawing) -> Result<(), AllocError> {
    for (at, lone) in drawing.independent_nodes.iter().enumerate() {
        let y = y_of(drawing.rows.len().saturating_add(at)).saturating_add(4);
        let (name, steps) = (lone.node.decimal_name(), lone.steps);
        let word = if steps == 1 { "step" } else { "steps" };
        write!(
            text,
            "<text x='10' y='{y}'>by itself: {name:03}, {steps} {word}</text>\n"
        )?;
    }
    Ok(())
}

/// Adds a node's name and its thin line.
fn push_name(text: &mut String, x: u32, node: NodeId, height: u64) -> Result<(), AllocError> {
    let name = node.decimal_name();
    let bottom = height.saturating_sub(12);
    write!(text, "<text class='n' x='{x}' y='24'>{name:03}</text>")?;
    write!(
        text,
        "<line class='l' x1='{x}' y1='32' x2='{x}' y2='{bottom}'/>\n"
    )
}

/// Adds when each node runs and when it waits.
fn push_tracks(
    alloc: Global,
    text: &mut String,
    drawing: &Drawing,
    mades: &[MadeEvent],
) -> Result<(), AllocError> {
    let mut tracks = Tracks::new(alloc, drawing.lines.len())?;
    for (at, row) in drawing.rows.iter().enumerate() {
        match row.shape {
            DrawnShape::Mark { line, .. } => {
                let waits = matches!(
                    mades.get(row.place as usize),
                    Some(MadeEvent::Own {
                        kind: OwnEventKind::Wait,
                        ..
                    })
                );
                tracks.own(text, line, y_of(at), waits)?;
            }
            DrawnShape::Arrow { from, to, .. } => {
                tracks.passed(text, from, y_of(at))?;
                tracks.passed(text, to, y_of(at))?;
            }
        }
    }
    tracks.end(text, y_of(drawing.rows.len()).saturating_sub(12))
}

/// Where the picture of the events begins.
const TOP: u64 = 36;

/// The state of a node from a height of the picture on.
#[derive(Clone, Copy)]
struct Track {
    since: Option<u64>,
    last: u64,
    waits: bool,
}

/// The state of the nodes, one for each line.
#[derive(Drop)]
struct Tracks {
    tracks: Vec<Track>,
}

impl Tracks {
    /// The state of the nodes before any has had an event.
    fn new(alloc: Global, lines: usize) -> Result<Self, AllocError> {
        let mut tracks = Vec::new(alloc);
        for _line in 0..lines {
            tracks.push(Track {
                since: None,
                last: 0,
                waits: false,
            })?;
        }
        Ok(Tracks { tracks })
    }

    /// An own event of a node, which may begin to wait by it.
    fn own(&mut self, text: &mut String, line: u8, y: u64, waits: bool) -> Result<(), AllocError> {
        if let Some(track) = self.tracks.get_mut(line as usize) {
            let since = track.since.unwrap_or(y);
            if waits {
                push_run(text, x_of(line), since, y)?;
                track.since = Some(y);
                track.waits = true;
            } else {
                track.since = Some(since);
            }
            track.last = y;
        }
        Ok(())
    }

    /// A pass in which a node has a part: its wait ends, which began above the picture where no event of it came before.
    fn passed(&mut self, text: &mut String, line: u8, y: u64) -> Result<(), AllocError> {
        if let Some(track) = self.tracks.get_mut(line as usize) {
            push_wait(text, x_of(line), track.since.unwrap_or(TOP), y)?;
            track.since = Some(y);
            track.waits = false;
            track.last = y;
        }
        Ok(())
    }

    /// The end of the picture: a node that waits continues to wait.
    fn end(&self, text: &mut String, bottom: u64) -> Result<(), AllocError> {
        for (line, track) in self.tracks.iter().take(144).enumerate() {
            let x = x_of(line as u8);
            if let Some(since) = track.since {
                if track.waits {
                    push_wait(text, x, since, bottom)?;
                } else {
                    push_run(text, x, since, track.last)?;
                }
            }
        }
        Ok(())
    }
}

/// Adds a line from one height to another, unless these are the same.
fn push_run(text: &mut String, x: u32, from: u64, to: u64) -> Result<(), AllocError> {
    if from == to {
        return Ok(());
    }
    write!(text, "<path class='t' d='M{x} {from}V{to}'/>\n")
}

/// Adds a dotted line from one height to another.
fn push_wait(text: &mut String, x: u32, from: u64, to: u64) -> Result<(), AllocError> {
    write!(text, "<path class='w' d='M{x} {from}V{to}'/>\n")
}
