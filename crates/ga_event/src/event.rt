//! Events and their effects.

ghost use Rattle.std.specs.Prelude.{◌≡◌};
ghost use Rattle.ga_event.specs.Touches.{touches};
ghost use Rattle.ga_event.specs.Undo.{event_with_look_from_effect};

use ga_grid::NodeId;
use ga_node::{OwnEventKind, Saved};
use ga_ports::Side;
use ga_word::Word18;

/// One event of the chip.
#[derive(Clone, Copy, PartialEq, Eq, Debug)]
pub enum Event {
    /// A fetch, an opcode, a posted wait or a stop of one node.
    Own(NodeId),
    /// The transfer of a word over the link on a side, between two nodes that wait for it.
    Pass {
        /// The node that gives its T.
        writer: NodeId,
        /// The node that takes the word.
        reader: NodeId,
        /// The side of both on which the link is.
        side: Side,
    },
}

/// An event, with whether it is a look: an own event that reads `io` or fetches from it, and so depends on what the
/// neighbours of its node wait for. It touches none of them. No pass is a look.
#[derive(Clone, Copy, PartialEq, Eq, Debug)]
pub struct EventWithLook {
    /// The event.
    pub event: Event,
    /// Whether it is a look.
    pub look: bool,
}

/// What a node's own event was, and whether it looked at the neighbours: an [`Effect`] without the old values.
#[derive(Clone, Copy, PartialEq, Eq, Debug)]
pub struct OwnEventKindWithLook {
    /// What the event was.
    pub kind: OwnEventKind,
    /// Whether it looked.
    pub look: bool,
}

/// What an event did, with the old values of the places that it overwrote.
#[derive(Debug, Drop)]
pub enum Effect {
    /// The kind of a node's own event that didn't look at the neighbours.
    Own(OwnEventKind, Saved),
    /// The kind of a node's own event that looked at all neighbours: it read `io` or fetched from it.
    Look(OwnEventKind, Saved),
    /// The transferred word, and the old values of its two nodes.
    Pass {
        /// The word.
        word: Word18,
        /// The old values of the writer.
        writer: Saved,
        /// The old values of the reader.
        reader: Saved,
    },
}

/// An event with this effect, with whether it looked.
#[inline]
pub fn event_with_look_from_effect(event: Event, effect: &Effect) -> EventWithLook
    ensures { result ≡ event_with_look_from_effect event effect.now }
{
    let look = match effect {
        Effect::Own(..) => false,
        Effect::Look(..) => true,
        Effect::Pass { .. } => false,
    };
    EventWithLook { event, look }
}

/// Whether the event touches the node.
#[inline]
pub fn touches(event: Event, node: NodeId) -> bool
    ensures { result ≡ touches event node.number }
{
    match event {
        Event::Own(at) => at.number == node.number,
        Event::Pass { writer, reader, .. } => {
            writer.number == node.number || reader.number == node.number
        }
    }
}
