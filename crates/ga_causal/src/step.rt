//! The places of the steps in a list of events.

ghost use Rattle.std.specs.Prelude.{◌≡◌, ◌<◌, ◌^◌, length, IfSome};
ghost use Rattle.ga_causal.specs.Dependence.{position_of_step};

use ga_event::{EventWithLook, touches};
use ga_grid::NodeId;

/// The place of a node's step: of the event that is number `step` of those that touch the node, counted from 1. None if there
/// is none.
pub fn position_of_step(events: &[EventWithLook], node: NodeId, step: u32) -> Option<u32>
    requires { length events.now < 2 ^ 32 }
    ensures value { result ≡ position_of_step events.now node.number step }
    ensures within { IfSome result (λ place. place < length events.now) }
{
    if step == 0 {
        return None;
    }
    let mut left = step - 1;
    'events: for (place, event) in events.iter().enumerate() {
        if touches(event.event, node) {
            if left == 0 {
                return Some(place as u32);
            }
            left -= 1;
        }
    }
    None
}
