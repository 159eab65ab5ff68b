//! What depends on a step, and on what it depends, as one call.

ghost use Rattle.std.specs.Prelude.{◌≡◌, ◌⊎◌, ℕ, List, length, take, IfSome};
ghost use Rattle.ga_grid.specs.Chip.{records_of_chip};
ghost use Rattle.ga_wasm.specs.inner.{AreShadeBytes, MakesNextEventOfNode, MakesNextEventsOfNodes, byte_of_shade};

use crate::buffer::put_front;
use ga_event::{EventWithLook, apply, event_with_look_on_chip, next_event};
use ga_grid::{CHIP_NODE_COUNT, Chip, NodeId};
use ga_image::parse;
use ga_picture::{Shade, find_event_shades};
use std::alloc::Global;

/// Makes the events that the nodes with these numbers make one after another on the chip of an image, and writes a byte for
/// each, by its relation to the event at `place`, which counts from 0: 2 if it depends on that, 1 if that depends on it,
/// otherwise 0. Writes as many as there is room for; returns how many there are. 0 if there are none: the image is refused, a
/// number is no node's, a node has no event, the place is after them all, or an allocation failed.
#[unsafe(no_mangle)]
pub extern "C" fn ga_shades(
    alloc: Global,
    image: &[u8],
    nodes: &[u8],
    place: u32,
    output: &mut [u8],
) -> usize
    ensures { (result ≡ 0) ⊎ ((codes : List ℕ) × AreShadeBytes image.now nodes.now place codes
        × (result ≡ length codes) × (take result output.new ≡ take (length output.old) codes)) }
{
    match codes(alloc, image, nodes, place) {
        Some(codes) => put_front(output, codes.as_slice()),
        None => 0,
    }
}

/// The relation of each event to the one at the place.
fn codes(alloc: Global, image: &[u8], nodes: &[u8], place: u32) -> Option<Vec<u8>>
    ensures { IfSome result (λ codes. AreShadeBytes image.now nodes.now place codes.items) }
{
    let Ok(mut chip) = parse(alloc, image) else {
        return None;
    };
    let causes = make_all(alloc, &mut chip, nodes)?;
    let events = causes.as_slice();
    if place as usize >= events.len() {
        return None;
    }
    let Ok(shaded) = find_event_shades(alloc, events, Some(place), Some(place)) else {
        return None;
    };
    let shades = shaded.as_slice();
    shades.iter().map(|shade| code(*shade)).collect(alloc).ok()
}

/// The byte of a colour.
fn code(shade: Shade) -> u8
    ensures { result ≡ byte_of_shade shade }
{
    match shade {
        Shade::Grey => 0,
        Shade::Black => 1,
        Shade::Red => 2,
    }
}

/// Lets the nodes with these numbers make their next events, in order. None where a number is no node's, a node has no event,
/// or memory is refused.
fn make_all(alloc: Global, chip: &mut Chip, nodes: &[u8]) -> Option<Vec<EventWithLook>>
    ensures { IfSome result (λ causes. MakesNextEventsOfNodes (records_of_chip chip.old) nodes.now causes.items (records_of_chip chip.new)) }
{
    let mut causes = Vec::new(alloc);
    'steps: for at in 0..nodes.len() {
        let cause = make(chip, nodes[at])?;
        let Ok(()) = causes.push(cause) else {
            return None;
        };
    }
    Some(causes)
}

/// Lets a node make its next event.
fn make(chip: &mut Chip, number: u8) -> Option<EventWithLook>
    ensures { IfSome result (λ cause. MakesNextEventOfNode (records_of_chip chip.old) number cause (records_of_chip chip.new)) }
{
    if number as usize >= CHIP_NODE_COUNT {
        return None;
    }
    let node = NodeId::new(number);
    match next_event(chip, node) {
        Ok(event) => {
            let cause = event_with_look_on_chip(chip, event);
            match apply(chip, event) {
                Ok(_effect) => Some(cause),
                Err(_) => None,
            }
        }
        Err(_) => None,
    }
}
