//! The values from which a value was made.

ghost use Rattle.std.specs.Prelude.{◌≡◌, ◌≤◌, ◌-◌, All, IfSome, map, option_to_list};
ghost use Rattle.ga_event.specs.Flow.{IsNodePartInRange, CopiedFromPart};
ghost use Rattle.ga_lab.specs.Machine.{node_at_step};
ghost use Rattle.ga_provenance.specs.Origins.{value_made_by_step};
ghost use Rattle.ga_provenance.specs.Sources.{source_of_sent_word, source_values_of_flow, value_sources};
ghost use Rattle.ga_provenance.specs.inner.{HasValuePartInRange};

use crate::origin::flow_by_trail;
use crate::trail::CachedWalk;
use crate::value::PartValue;
use arrayvec::ArrayVec;
use ga_event::{MadeEvent, NodePart, ValueFlow};
use ga_grid::NodeId;
use ga_lab::Lab;

// What a word came from that an event carried: T of the writer before.
pub(crate) fn source_of_sent_word(made: Option<MadeEvent>) -> Option<PartValue>
    ensures value { result ≡ source_of_sent_word made }
    ensures part { IfSome result (λ value. IsNodePartInRange value.part) }
{
    match made {
        Some(
            MadeEvent::Pass {
                writer,
                writer_step,
                ..
            },
        ) => Some(PartValue {
            node: writer,
            step: writer_step.saturating_sub(1),
            part: NodePart::T,
        }),
        Some(MadeEvent::Own { .. }) => None,
        None => None,
    }
}

// The value from which one was moved or read, by its part before.
fn source_in(node: NodeId, step: u32, told: Option<MadeEvent>, from: NodePart) -> Option<PartValue>
    ensures { option_to_list result ≡ source_values_of_flow node step told (CopiedFromPart from) }
{
    match from {
        NodePart::OutsideWord => source_of_sent_word(told),
        _ => Some(PartValue {
            node,
            step,
            part: from,
        }),
    }
}

// A list of a value, or of none.
fn list_of(value: Option<PartValue>) -> ArrayVec<PartValue, 3>
    ensures { result.items ≡ option_to_list value }
{
    let mut values = ArrayVec::new();
    if let Some(value) = value {
        values.push(value);
    }
    values
}

// The values of some parts of a node after a number of its steps.
fn values_of_parts(node: NodeId, step: u32, parts: ArrayVec<NodePart, 3>) -> ArrayVec<PartValue, 3>
    ensures { result.items ≡ map (value_made_by_step node step) parts.items }
{
    let mut values = ArrayVec::new();
    'parts: for part in parts.as_slice() {
        let part = *part;
        values.push(PartValue { node, step, part });
    }
    values
}

/// The values from which a value was made, where its step read them, by a trail of its node that has not come past that step.
pub(crate) fn sources_by_trail(
    lab: &Lab,
    trail: &mut CachedWalk<'_>,
    value: PartValue,
) -> ArrayVec<PartValue, 3>
    requires part { IsNodePartInRange value.part }
    requires trail { trail.old ≡ node_at_step lab.now value.node trail.old.step }
    requires order { value.step - 1 ≤ trail.old.step }
    ensures values { result.items ≡ value_sources lab.now value }
    ensures parts { All HasValuePartInRange result.items }
    ensures trail { trail.new ≡ node_at_step lab.now value.node trail.new.step }
{
    let PartValue { node, step, part } = value;
    if step == 0 {
        return ArrayVec::new();
    }
    let place = step - 1;
    match flow_by_trail(lab, trail, node, place, part) {
        ValueFlow::CopiedFromPart(from) => {
            let told = lab.made_event_of_step(node, place);
            list_of(source_in(node, place, told, from))
        }
        ValueFlow::ComputedFromParts(parts) => values_of_parts(node, place, parts),
    }
}
