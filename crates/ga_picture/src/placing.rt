//! What is drawn where.

ghost use Rattle.std.specs.Prelude.{◌==◌, ◌&&◌, ◌||◌, not, ◌≡◌, ◌<◌, ◌^◌, ℕ, true, false, List, length, slice_index, IfOk, ◌+◌};
ghost use Rattle.std.specs.List.{All};
ghost use Rattle.ga_grid.specs.declared.node_id.NodeId.{NodeId};
ghost use Rattle.ga_picture.specs.Drawing.{IsDrawingOfItems, IsShapeOfEvent, IsLineOfNode, shade_of_shape, event_count_of_shape};
ghost use Rattle.ga_picture.specs.Items.{folded_event_count, IsOwnEventIfPlain};
ghost use Rattle.ga_causal.specs.Dependence.{event_with_look_touches_node, is_transfer_event};

use crate::independent::IndependentNode;
use crate::item::{PictureItem, acting_node_of_event};
use crate::lines::{Lines, lines_of, touched_by};
use crate::runs::{Runs, runs_behind};
use crate::shade::Shade;
use ga_causal::OutOfMemoryError;
use ga_event::Event;
use ga_grid::NodeId;
use std::alloc::Global;

/// What is drawn of an event, on lines that are named by their index from the left, 0 for the first.
#[derive(Clone, Copy, PartialEq, Eq)]
pub enum DrawnShape {
    /// `steps` own events of a node, one or a run of them: a mark on its line. A look also has dashed lines to the lines of the
    /// node's neighbours.
    Mark {
        line: u8,
        look: bool,
        steps: u32,
        shade: Shade,
    },
    /// A pass: an arrow from the line of its writer to that of its reader.
    Arrow {
        from: u8,
        to: u8,
        shade: Shade,
    },
}

impl DrawnShape {
    /// In which colour a shape is drawn.
    pub fn shade(&self) -> Shade
        ensures { result ≡ shade_of_shape self.now }
    {
        match self {
            DrawnShape::Mark { shade, .. } => *shade,
            DrawnShape::Arrow { shade, .. } => *shade,
        }
    }
}

/// What is drawn at one height.
#[derive(Clone, Copy, PartialEq, Eq)]
pub struct PictureRow {
    /// The place of its event among those that are looked at, of many the first.
    pub place: u32,
    /// What is drawn.
    pub shape: DrawnShape,
}

/// A picture of some events.
#[derive(Drop)]
pub struct Drawing {
    /// The nodes that have lines, from left to right.
    pub lines: Vec<NodeId>,
    /// What is drawn, from top to bottom.
    pub rows: Vec<PictureRow>,
    /// The nodes that work by themselves, which have no lines.
    pub independent_nodes: Vec<IndependentNode>,
}

/// Lays out the events that are not left out: each has a row, but a run of at least `fold` events of a node has one together,
/// at its first. 0 means no such number. Takes over which nodes are independent.
///
/// # Errors
/// `Memory`, also for more than 2^32 - 1 events, which no lab keeps.
pub fn lay_out_drawing(
    alloc: Global,
    items: &[PictureItem],
    independent_nodes: Vec<IndependentNode>,
    fold: u32,
) -> Result<Drawing, OutOfMemoryError>
    requires simple { All IsOwnEventIfPlain items.now }
    ensures drawn { IfOk result (λ drawing. IsDrawingOfItems items.now fold drawing) }
    ensures told { IfOk result (λ drawing. drawing.independent_nodes.items ≡ independent_nodes.items) }
{
    if items.len() > u32::MAX as usize {
        return Err(OutOfMemoryError);
    }
    let Lines { nodes, columns } = lines_of(alloc, &touched_by(items))?;
    let behind = runs_behind(alloc, items)?;
    let mut runs = Runs::new();
    let mut rows = Vec::new(alloc);
    'items: for place in 0..items.len() {
        let item = items[place];
        let before = runs.count(acting_node_of_event(item.cause.event), item.shade);
        let steps = folded_event_count(&item, before, behind[place], fold);
        if has_event_own_row(&item, steps, before) {
            rows.push(PictureRow {
                place: place as u32,
                shape: shape_of(&item, steps, &columns),
            })?;
        }
        runs.pass(&item);
    }
    Ok(Drawing {
        lines: nodes,
        rows,
        independent_nodes,
    })
}

/// Whether an event has a row: one drawn together with `steps` events, with `before` of its run before it.
fn has_event_own_row(item: &PictureItem, steps: u32, before: u32) -> bool
    ensures { result ≡ (not item.now.out && ((steps == 1) || (before == 0))) }
{
    !item.out && (steps == 1 || before == 0)
}

/// How many events are drawn together with this one, which has `before` events of its run before and `behind` after it.
fn folded_event_count(item: &PictureItem, before: u32, behind: u32, fold: u32) -> u32
    requires { before + behind + 1 < 2 ^ 32 }
    ensures { result ≡ folded_event_count item.now before behind fold }
{
    let run = before + behind + 1;
    if item.plain && (fold != 0 && run >= fold) {
        run
    } else {
        1
    }
}

/// What is drawn of an event, or of a run that it begins.
fn shape_of(item: &PictureItem, steps: u32, columns: &[u8; 144]) -> DrawnShape
    ensures drawn { (lines : List NodeId) →
        ((n : ℕ) → event_with_look_touches_node item.now.cause n ≡ true → IsLineOfNode lines (slice_index columns.now n) n) → IsShapeOfEvent item.now.cause lines result }
    ensures shaded { shade_of_shape result ≡ item.now.shade }
    ensures steps { is_transfer_event item.now.cause.event ≡ false → event_count_of_shape result ≡ steps }
    ensures one { is_transfer_event item.now.cause.event ≡ true → event_count_of_shape result ≡ 1 }
{
    match item.cause.event {
        Event::Own(node) => DrawnShape::Mark {
            line: columns[node.index()],
            look: item.cause.look,
            steps,
            shade: item.shade,
        },
        Event::Pass { writer, reader, .. } => DrawnShape::Arrow {
            from: columns[writer.index()],
            to: columns[reader.index()],
            shade: item.shade,
        },
    }
}
