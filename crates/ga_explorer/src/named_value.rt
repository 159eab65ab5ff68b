//! The part of a node that a command names.

ghost use Rattle.std.specs.Prelude.{◌≡◌, option_and_then, IfSome};
ghost use Rattle.ga_event.specs.Flow.{IsNodePartInRange};
ghost use Rattle.ga_explorer.specs.Reading.{part_of_node_value, parse_part_value};

use ga_conditions::parse_node_value;
use ga_event::NodePart;
use ga_scheduler::NodeValue;

/// The value with this name, if it is a part of a node: all but the number of steps are.
pub(crate) fn parse_part_value(word: &[u8]) -> Option<NodeValue>
    ensures { result ≡ parse_part_value word.now }
{
    match parse_node_value(word) {
        Some(NodeValue::StepCountValue) => None,
        other => other,
    }
}

/// The part of a node that has this value; none for the number of its steps.
fn part_of_node_value(value: NodeValue) -> Option<NodePart>
    ensures value { result ≡ part_of_node_value value }
    ensures part { IfSome result IsNodePartInRange }
{
    let part = match value {
        NodeValue::StepCountValue => return None,
        NodeValue::P => NodePart::P,
        NodeValue::A => NodePart::A,
        NodeValue::B => NodePart::B,
        NodeValue::I => NodePart::I,
        NodeValue::Slot => NodePart::Slot,
        NodeValue::Carry => NodePart::Carry,
        NodeValue::Io => NodePart::Io,
        NodeValue::DataWord(place) => NodePart::Data(place % 10),
        NodeValue::ReturnWord(place) => NodePart::Return(place % 9),
        NodeValue::Cell(address) => {
            if address < 128 {
                NodePart::Ram(address % 64)
            } else {
                NodePart::Rom(address % 64)
            }
        }
    };
    Some(part)
}

/// The part of a node that is named, if one is.
pub fn part_of_value(value: Option<NodeValue>) -> Option<NodePart>
    ensures value { result ≡ option_and_then part_of_node_value value }
    ensures part { IfSome result IsNodePartInRange }
{
    match value {
        Some(value) => part_of_node_value(value),
        None => None,
    }
}
