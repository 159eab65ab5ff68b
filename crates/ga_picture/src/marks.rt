//! The content of an event's group: its title, its mark or arrow, and its label.

use crate::placing::{Drawing, DrawnShape};
use crate::text::x_of;
use ga_event::MadeEvent;
use ga_grid::{NodeId, neighbour};
use ga_node::OwnEventKind;
use ga_ports::Side;
use ga_slots::Op;
use ga_word::Word18;
use std::alloc::AllocError;

/// Adds the drawing of an event at a height, after a title that describes it.
pub(crate) fn push_event(
    text: &mut String,
    drawing: &Drawing,
    y: u64,
    shape: DrawnShape,
    made: Option<&MadeEvent>,
) -> Result<(), AllocError> {
    match shape {
        DrawnShape::Mark {
            line,
            look,
            steps,
            ..
        } => {
            if steps > 1 {
                push_many(text, (x_of(line), y), steps, made)
            } else {
                push_own(text, drawing, (x_of(line), y), look, made)
            }
        }
        DrawnShape::Arrow { from, to, .. } => push_pass(text, x_of(from), x_of(to), y, made),
    }
}

/// Adds an own event at a place.
fn push_own(
    text: &mut String,
    drawing: &Drawing,
    at: (u32, u64),
    look: bool,
    made: Option<&MadeEvent>,
) -> Result<(), AllocError> {
    let (x, y) = at;
    match made {
        Some(MadeEvent::Own { node, step, kind }) => {
            push_own_title(text, made, *kind)?;
            if look {
                push_looks(text, drawing, x, y, *node)?;
            }
            push_mark(text, x, y, *kind)?;
            // Above the dashed lines of a look.
            let base = if look {
                y.saturating_sub(4)
            } else {
                y.saturating_add(4)
            };
            push_label(text, x, base, *step, *kind)
        }
        _ => push_mark(text, x, y, OwnEventKind::Run(0)),
    }
}

/// Adds a box for `steps` own events of a node, of which the first is described.
fn push_many(
    text: &mut String,
    at: (u32, u64),
    steps: u32,
    made: Option<&MadeEvent>,
) -> Result<(), AllocError> {
    let (x, y) = at;
    let Some(MadeEvent::Own { node, step, .. }) = made else {
        return push_box(text, x, y);
    };
    let name = node.decimal_name();
    let last = step.saturating_add(steps.saturating_sub(1));
    let (left, base) = (x.saturating_add(10), y.saturating_add(4));
    write!(
        text,
        "<title>{name:03} {step} to {last}, {steps} steps</title>"
    )?;
    push_box(text, x, y)?;
    write!(
        text,
        "<text x='{left}' y='{base}'>{step} to {last}: {steps}</text>"
    )
}

/// Adds a box.
fn push_box(text: &mut String, x: u32, y: u64) -> Result<(), AllocError> {
    write!(text, "<path class='f' d='M{x} {y}m-3 -6h6v12h-6z'/>")
}

/// Adds a pass from one line to another.
fn push_pass(
    text: &mut String,
    from: u32,
    to: u32,
    y: u64,
    made: Option<&MadeEvent>,
) -> Result<(), AllocError> {
    match made {
        Some(
            MadeEvent::Pass {
                writer_step,
                reader_step,
                word,
                ..
            },
        ) => {
            push_title(text, made)?;
            push_arrow(text, from, to, y)?;
            push_word(text, from / 2 + to / 2, y, *word)?;
            if from < to {
                push_ends(text, (from, *writer_step), (to, *reader_step), y)
            } else {
                push_ends(text, (to, *reader_step), (from, *writer_step), y)
            }
        }
        _ => push_arrow(text, from, to, y),
    }
}

/// What an own event was, in a word: an opcode by its name.
fn word_of(kind: OwnEventKind) -> &'static str {
    match kind {
        OwnEventKind::Fetch => "fetch",
        OwnEventKind::Run(code) => Op::from_code(code % 32).name(),
        OwnEventKind::Wait => "wait",
        OwnEventKind::Stop(_) => "stop",
    }
}

/// Adds the text of an own event as a session prints it, with the opcode's name.
fn push_own_title(
    text: &mut String,
    made: Option<&MadeEvent>,
    kind: OwnEventKind,
) -> Result<(), AllocError> {
    match (made, kind) {
        (Some(made), OwnEventKind::Run(_)) => {
            let word = word_of(kind);
            write!(text, "<title>{made} {word}</title>")
        }
        _ => push_title(text, made),
    }
}

/// Adds the text of an event as a session prints it.
fn push_title(text: &mut String, made: Option<&MadeEvent>) -> Result<(), AllocError> {
    match made {
        Some(made) => write!(text, "<title>{made}</title>"),
        None => Ok(()),
    }
}

/// Adds the mark of an own event: a ring for a fetch, a dot for an opcode, a bar for a wait, a cross for a stop.
fn push_mark(text: &mut String, x: u32, y: u64, kind: OwnEventKind) -> Result<(), AllocError> {
    match kind {
        OwnEventKind::Fetch => write!(text, "<circle class='o' cx='{x}' cy='{y}' r='3.4'/>"),
        OwnEventKind::Run(_) => write!(text, "<circle class='f' cx='{x}' cy='{y}' r='3'/>"),
        OwnEventKind::Wait => write!(text, "<path d='M{x} {y}m-6 0h12'/>"),
        OwnEventKind::Stop(_) => write!(text, "<path d='M{x} {y}m-5 -5l10 10m-10 0l10 -10'/>"),
    }
}

/// Adds the number of a step with what it was, right of a mark, on a base line.
fn push_label(
    text: &mut String,
    x: u32,
    base: u64,
    step: u32,
    kind: OwnEventKind,
) -> Result<(), AllocError> {
    let left = x.saturating_add(10);
    let word = word_of(kind);
    match kind {
        OwnEventKind::Stop(number) => write!(
            text,
            "<text x='{left}' y='{base}'>{step} stop {number}</text>"
        ),
        _ => write!(text, "<text x='{left}' y='{base}'>{step} {word}</text>"),
    }
}

/// Adds dashed lines to the lines of the neighbours.
fn push_looks(
    text: &mut String,
    drawing: &Drawing,
    x: u32,
    y: u64,
    node: NodeId,
) -> Result<(), AllocError> {
    push_look(text, drawing, x, y, neighbour(node, Side::Right))?;
    push_look(text, drawing, x, y, neighbour(node, Side::Down))?;
    push_look(text, drawing, x, y, neighbour(node, Side::Left))?;
    push_look(text, drawing, x, y, neighbour(node, Side::Up))
}

/// Adds a dashed line to the line of a node, where it has one.
fn push_look(
    text: &mut String,
    drawing: &Drawing,
    x: u32,
    y: u64,
    other: Option<NodeId>,
) -> Result<(), AllocError> {
    let Some(other) = other else {
        return Ok(());
    };
    for (line, node) in drawing.lines.iter().take(144).enumerate() {
        if node.number == other.number {
            let to = x_of(line as u8);
            write!(text, "<path class='d' d='M{x} {y}H{to}'/>")?;
        }
    }
    Ok(())
}

/// Adds an arrow from one line to another.
fn push_arrow(text: &mut String, from: u32, to: u32, y: u64) -> Result<(), AllocError> {
    if from < to {
        write!(
            text,
            "<path d='M{from} {y}H{to}'/><path class='f' d='M{to} {y}l-8 -4v8z'/>"
        )
    } else {
        write!(
            text,
            "<path d='M{from} {y}H{to}'/><path class='f' d='M{to} {y}l8 -4v8z'/>"
        )
    }
}

/// Adds the word of a pass above its arrow.
fn push_word(text: &mut String, middle: u32, y: u64, word: Word18) -> Result<(), AllocError> {
    let above = y.saturating_sub(4);
    let word = word.get();
    write!(
        text,
        "<text class='m' x='{middle}' y='{above}'>{word:06x}</text>"
    )
}

/// Adds the numbers of two steps at the ends of an arrow, the left one first.
fn push_ends(
    text: &mut String,
    left: (u32, u32),
    right: (u32, u32),
    y: u64,
) -> Result<(), AllocError> {
    let below = y.saturating_add(4);
    let (start, end) = (left.0.saturating_sub(8), right.0.saturating_add(10));
    let (first, second) = (left.1, right.1);
    write!(
        text,
        "<text class='e' x='{start}' y='{below}'>{first}</text>"
    )?;
    write!(text, "<text x='{end}' y='{below}'>{second}</text>")
}
