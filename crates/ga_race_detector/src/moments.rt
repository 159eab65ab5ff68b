//! The state before each event of the history.

ghost use Rattle.std.specs.Prelude.{◌≡◌, ◌<◌, length, slice_index_or, IfOk, IfErr};
ghost use Rattle.ga_race_detector.specs.inner.Glances.{event_node_or_writer, event_node_or_reader, zero_step_counts};

use crate::adding::add;
use ga_event::Event;
use ga_grid::NodeId;
use ga_lab::LabFault;
use ga_word::Word18;
use std::alloc::Global;

/// How many steps the nodes of an event had made before it, and what it reads in `io` if it looks.
#[derive(Clone, Copy, PartialEq, Eq, Debug)]
pub(crate) struct StepCounts {
    /// How many steps the node of the event had made, of a pass its writer.
    pub(crate) first: u32,
    /// How many steps the node of the event had made, of a pass its reader.
    pub(crate) last: u32,
    /// The word that the event reads in `io`; 0 where it doesn't look.
    pub(crate) word: Word18,
}

/// The node of an event, of a pass its writer.
pub(crate) fn event_node_or_writer(event: Event) -> NodeId
    ensures { result ≡ event_node_or_writer event }
{
    match event {
        Event::Own(node) => node,
        Event::Pass { writer, .. } => writer,
    }
}

/// The node of an event, of a pass its reader.
pub(crate) fn event_node_or_reader(event: Event) -> NodeId
    ensures { result ≡ event_node_or_reader event }
{
    match event {
        Event::Own(node) => node,
        Event::Pass { reader, .. } => reader,
    }
}

/// The moment of an event.
pub(crate) fn moment_at(moments: &[StepCounts], place: usize) -> StepCounts
    requires { place < length moments.now }
    ensures { result ≡ slice_index_or moments.now place zero_step_counts }
{
    moments[place]
}

/// A moment for each event, with nothing known yet.
///
/// # Errors
/// `Memory` alone.
pub(crate) fn no_moments(alloc: Global, many: usize) -> Result<Vec<StepCounts>, LabFault>
    ensures size { IfOk result (λ list. length list.items ≡ many) }
    ensures err { IfErr result (λ why. why ≡ LabFault.Memory) }
{
    let mut list = match Vec::with_capacity(alloc, many) {
        Ok(list) => list,
        Err(_) => return Err(LabFault::Memory),
    };
    'many: for _place in 0..many {
        add(
            &mut list,
            StepCounts {
                first: 0,
                last: 0,
                word: Word18::from_low_bits(0),
            },
        )?;
    }
    Ok(list)
}
