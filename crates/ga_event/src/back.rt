//! The undo of events.

ghost use Rattle.std.specs.Prelude.{◌≡◌};
ghost use Rattle.ga_grid.specs.Chip.{node_at};
ghost use Rattle.ga_event.specs.Undo.{chip_with_restored_node, chip_after_undo, CanRestoreNode, CanUndoEvent};

use crate::event::{Effect, Event};
use ga_grid::{Chip, NodeId};
use ga_node::Saved;

/// Writes the old values of one node back.
#[inline]
pub fn restore_node_values(chip: &mut Chip, node: NodeId, saved: &Saved)
    requires { CanRestoreNode (node_at chip.old node.number) saved.now }
    ensures { chip.new ≡ chip_with_restored_node chip.old node.number saved.now }
{
    chip.node_mut(node).restore(saved);
}

/// Takes an event back: the touched nodes become what they were before it, and all others stay as they are.
#[inline]
pub fn undo_event_on_chip(chip: &mut Chip, event: Event, effect: &Effect)
    requires { CanUndoEvent chip.old event effect.now }
    ensures { chip.new ≡ chip_after_undo chip.old event effect.now }
{
    match effect {
        Effect::Own(_, saved) => match event {
            Event::Own(node) => restore_node_values(chip, node, saved),
            Event::Pass { .. } => unreachable!(),
        },
        Effect::Look(_, saved) => match event {
            Event::Own(node) => restore_node_values(chip, node, saved),
            Event::Pass { .. } => unreachable!(),
        },
        Effect::Pass {
            writer: sent,
            reader: taken,
            ..
        } => match event {
            Event::Own(_) => unreachable!(),
            Event::Pass { writer, reader, .. } => {
                restore_node_values(chip, reader, taken);
                restore_node_values(chip, writer, sent);
            }
        },
    }
}
