//! What is expected of a node.

ghost use Rattle.std.specs.Prelude.{◌≡◌};
ghost use Rattle.ga_node.specs.Record.{record_of_node};
ghost use Rattle.ga_grid.specs.Chip.{records_of_chip};
ghost use Rattle.ga_scheduler.specs.Values.{is_step_count_value};
ghost use Rattle.ga_state_expectations.specs.Expectations.{awaits_word_from_sides, waits_for_code, is_stopped_with_number, node_passes_value_test, meets_requirement, is_expectation_satisfied_by_node, meets_expectation_on_chip};

use ga_event::is_waiting_to_write;
use ga_grid::{Chip, NodeId};
use ga_node::{Node, Wait};
use ga_ports::{PortSet, Side};
use ga_scheduler::{NodeValue, ValueTest};

/// What is required of a node at one moment.
#[derive(Clone, Copy, PartialEq, Eq, Debug)]
pub enum NodeRequirement {
    /// One of its values passes the test. No node meets a test of the number of steps, which isn't kept at an end.
    PassesValueTest(ValueTest),
    /// It waits to read a word from exactly these sides.
    ReadsFromSides(PortSet),
    /// It waits to write a word to this side.
    WritesToSide(Side),
    /// It waits for code.
    AwaitsCode,
    /// It is stopped, by the stop of this number. No node is by that of number 0.
    Stopped(u8),
}

/// What is required of a node at each end of a program.
#[derive(Clone, Copy, PartialEq, Eq, Debug)]
pub struct NodeExpectation {
    /// The node.
    pub node: NodeId,
    /// What is required of it.
    pub requirement: NodeRequirement,
}

/// Whether a node that waits so waits to read a word from exactly these sides.
fn awaits_word_from_sides(wait: Wait, sides: PortSet) -> bool
    ensures { result ≡ awaits_word_from_sides wait sides }
{
    match wait {
        Wait::Nothing => false,
        Wait::Fetch(_) => false,
        Wait::Read(awaited) => awaited.get() == sides.get(),
        Wait::Write(_) => false,
    }
}

/// Whether a node that waits so waits for code.
fn waits_for_code(wait: Wait) -> bool
    ensures { result ≡ waits_for_code wait }
{
    match wait {
        Wait::Nothing => false,
        Wait::Fetch(_) => true,
        Wait::Read(_) => false,
        Wait::Write(_) => false,
    }
}

/// Whether the number is that of a stop, and the node's.
fn is_stopped_with_number(stop: u8, number: u8) -> bool
    ensures { result ≡ is_stopped_with_number stop number }
{
    number != 0 && stop == number
}

/// Whether a value of the node passes the test, which is of no number of steps.
fn node_passes_value_test(node: &Node, test: &ValueTest) -> bool
    ensures { result ≡ node_passes_value_test (record_of_node node.now) test.now }
{
    !is_step_count(test.value) && test.is_value_test_passed(node, 0)
}

/// Whether the value is the number of steps.
pub(crate) fn is_step_count(value: NodeValue) -> bool
    ensures { result ≡ is_step_count_value value }
{
    value == NodeValue::StepCountValue
}

impl NodeRequirement {
    /// Whether the node has what is required.
    pub fn is_met_by_node(&self, node: &Node) -> bool
        ensures { result ≡ meets_requirement self.now (record_of_node node.now) }
    {
        match self {
            NodeRequirement::PassesValueTest(test) => node_passes_value_test(node, test),
            NodeRequirement::ReadsFromSides(sides) => awaits_word_from_sides(node.wait(), *sides),
            NodeRequirement::WritesToSide(side) => is_waiting_to_write(&node.wait(), *side),
            NodeRequirement::AwaitsCode => waits_for_code(node.wait()),
            NodeRequirement::Stopped(number) => is_stopped_with_number(node.stop(), *number),
        }
    }
}

impl NodeExpectation {
    /// Whether a node that is as this one satisfies the expectation.
    pub fn is_satisfied_by_node(&self, node: &Node) -> bool
        ensures { result ≡ is_expectation_satisfied_by_node self.now (record_of_node node.now) }
    {
        self.requirement.is_met_by_node(node)
    }

    /// Whether its node satisfies the expectation on the chip.
    pub fn meets_expectation_on_chip(&self, chip: &Chip) -> bool
        ensures { result ≡ meets_expectation_on_chip self.now (records_of_chip chip.now) }
    {
        self.is_satisfied_by_node(chip.node(self.node))
    }
}
