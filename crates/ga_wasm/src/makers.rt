//! Which nodes made the events that a session keeps, as one call.

ghost use Rattle.std.specs.Prelude.{◌≡◌, ◌++◌, ◌⊎◌, ℕ, List, None, Ok, IfSome, length, take};
ghost use Rattle.ga_text.specs.Lines.{Bytes};
ghost use Rattle.ga_explorer.specs.Opening.{ExplorerState};
ghost use Rattle.ga_picture.specs.Following.{IsSilentSessionResult};
ghost use Rattle.ga_wasm.specs.inner.{node_number_of_event, node_numbers_of_events};

use crate::buffer::{put_front, streams};
use ga_event::{Event, EventWithLook};
use ga_lab::Lab;
use ga_picture::run_silent_session;
use std::alloc::Global;

/// Executes a session that is given whole, and writes for each event in the history at its end, in order, the number of the
/// node that made it, of a pass that of the writer: a byte each, as many as there is room for. Returns how many there are; 0 if
/// there are none, or the end isn't reached: the image or source is refused, the input is too long, or an allocation failed.
#[unsafe(no_mangle)]
pub extern "C" fn ga_kept(alloc: Global, input: &[u8], output: &mut [u8], limit: u32) -> usize
    ensures { (result ≡ 0) ⊎ ((read rest text : Bytes) × (last : ExplorerState) × (input.now ≡ read ++ rest)
        × IsSilentSessionResult None limit read rest text (Ok last) × (nodes : List ℕ) × (nodes ≡ node_numbers_of_events last.lab)
        × (result ≡ length nodes) × (take result output.new ≡ take (length output.old) nodes)) }
{
    let (mut reader, mut refusal, mut errors) = streams(alloc, input);
    match run_silent_session(alloc, &mut reader, &mut refusal, &mut errors, None, limit) {
        Ok(explorer) => tell(alloc, explorer.lab(), output),
        Err(_) => 0,
    }
}

/// Writes the nodes that made the events of a lab's history.
fn tell(alloc: Global, lab: &Lab, output: &mut [u8]) -> usize
    ensures { (result ≡ 0) ⊎ ((nodes : List ℕ) × (nodes ≡ node_numbers_of_events lab.now)
        × (result ≡ length nodes) × (take result output.new ≡ take (length output.old) nodes)) }
{
    match makers(alloc, lab) {
        Some(nodes) => put_front(output, nodes.as_slice()),
        None => 0,
    }
}

/// The nodes that made a lab's kept events.
fn makers(alloc: Global, lab: &Lab) -> Option<Vec<u8>>
    ensures { IfSome result (λ nodes. nodes.items ≡ node_numbers_of_events lab.now) }
{
    match lab.causes() {
        Ok(causes) => {
            let events = causes.as_slice();
            events.iter().map(|cause| maker(*cause)).collect(alloc).ok()
        }
        Err(_) => None,
    }
}

/// The node whose step makes an event.
fn maker(cause: EventWithLook) -> u8
    ensures { result ≡ node_number_of_event cause }
{
    match cause.event {
        Event::Own(node) => node.number,
        Event::Pass { writer, .. } => writer.number,
    }
}
