//! What a node holds or does on a chip on which an expectation isn't met.

ghost use Rattle.std.specs.Prelude.{◌≡◌};
ghost use Rattle.ga_node.specs.Record.{record_of_node};
ghost use Rattle.ga_state_expectations.specs.Observations.{observation_of_wait, observed_node_activity, observation_for_requirement};

use crate::expectation::NodeRequirement;
use crate::node_value::node_value;
use ga_node::{Node, Wait};
use ga_ports::{PortSet, Side};
use ga_word::Word18;

/// What a node holds or does at one moment.
#[derive(Clone, Copy, PartialEq, Eq, Debug)]
pub enum NodeObservation {
    /// A value of it is this word.
    Is(Word18),
    /// It neither waits nor is stopped.
    Runs,
    /// It waits for code.
    AwaitsCode,
    /// It waits to read a word from these sides.
    Reads(PortSet),
    /// It waits to write a word to this side.
    Writes(Side),
    /// It is stopped, by the stop of this number.
    Stopped(u8),
}

/// What a node does that waits so and isn't stopped.
fn observation_of_wait(wait: Wait) -> NodeObservation
    ensures { result ≡ observation_of_wait wait }
{
    match wait {
        Wait::Nothing => NodeObservation::Runs,
        Wait::Fetch(_) => NodeObservation::AwaitsCode,
        Wait::Read(sides) => NodeObservation::Reads(sides),
        Wait::Write(side) => NodeObservation::Writes(side),
    }
}

/// What a node does.
fn observed_node_activity(node: &Node) -> NodeObservation
    ensures { result ≡ observed_node_activity (record_of_node node.now) }
{
    let stop = node.stop();
    if stop == 0 {
        observation_of_wait(node.wait())
    } else {
        NodeObservation::Stopped(stop)
    }
}

/// What a node has of what is required: the value that is tested, or else what it does.
pub fn observation_for_requirement(requirement: &NodeRequirement, node: &Node) -> NodeObservation
    ensures { result ≡ observation_for_requirement requirement.now (record_of_node node.now) }
{
    match requirement {
        NodeRequirement::PassesValueTest(test) => {
            NodeObservation::Is(Word18::from_low_bits(node_value(node, test.value)))
        }
        NodeRequirement::ReadsFromSides(_) => observed_node_activity(node),
        NodeRequirement::WritesToSide(_) => observed_node_activity(node),
        NodeRequirement::AwaitsCode => observed_node_activity(node),
        NodeRequirement::Stopped(_) => observed_node_activity(node),
    }
}
