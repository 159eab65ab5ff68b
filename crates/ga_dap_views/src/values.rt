//! The values of what a node holds, as a person reads them.

ghost use Rattle.std.specs.Prelude.{◌≡◌, ◌≤◌, IfOk, string_bytes};
ghost use Rattle.ga_node.specs.Record.{record_of_node};
ghost use Rattle.ga_grid.specs.Grid.{neighbour_number};
ghost use Rattle.ga_lab.specs.Machine.{chip_of_machine};
ghost use Rattle.ga_dap_views.specs.Shown.{IsNodeVariable};
ghost use Rattle.ga_dap_views.specs.Variables.{next_slot_number_text, neighbour_text, deadlock_text, variable_value_text};

use crate::doing::{node_activity, thread_title};
use crate::texts::{text_with_number, word_text};
use crate::variable::Variable;
use ga_grid::{NodeId, neighbour};
use ga_lab::Lab;
use ga_node::NodePlace;
use ga_ports::Side;
use std::alloc::{AllocError, Global};

fn slot_text(alloc: Global, slot: u32) -> Result<String, AllocError>
    ensures { IfOk result (λ text. string_bytes text ≡ next_slot_number_text slot) }
{
    if slot == 4 {
        String::from_str(alloc, "4, a fetch is due")
    } else {
        text_with_number(alloc, "", slot)
    }
}

/// The neighbour on a side and what it does, where there is one.
fn neighbour_text(alloc: Global, lab: &Lab, node: NodeId, side: Side) -> Result<String, AllocError>
    ensures { IfOk result (λ text. string_bytes text ≡ neighbour_text (chip_of_machine lab.now) (neighbour_number node.number side)) }
{
    match neighbour(node, side) {
        None => String::from_str(alloc, "none"),
        Some(other) => thread_title(alloc, "", lab, other),
    }
}

fn words_of_stuck(stuck: bool) -> &'static str
    ensures { result.now ≡ deadlock_text stuck }
{
    if stuck { "can never go on" } else { "no" }
}

/// The value of a variable of a node.
#[tactic(auto, unfolding(ga_node::specs::Record::record_of_node))]
pub fn json_value_of_variable(
    alloc: Global,
    lab: &Lab,
    stuck: bool,
    node: NodeId,
    variable: Variable,
) -> Result<String, AllocError>
    requires { IsNodeVariable variable }
    ensures { IfOk result (λ text. string_bytes text ≡ variable_value_text lab.now stuck node.number variable) }
{
    let at = lab.node(node);
    match variable {
        Variable::NodeStatus => node_activity(alloc, at),
        Variable::Step => text_with_number(alloc, "", lab.steps(node)),
        Variable::P => word_text(alloc, at.get(NodePlace::P)),
        Variable::A => word_text(alloc, at.get(NodePlace::A)),
        Variable::B => word_text(alloc, at.get(NodePlace::B)),
        Variable::I => word_text(alloc, at.get(NodePlace::I)),
        Variable::Slot => slot_text(alloc, at.get(NodePlace::Slot)),
        Variable::Carry => text_with_number(alloc, "", at.get(NodePlace::Carry)),
        Variable::Io => word_text(alloc, at.get(NodePlace::Io)),
        Variable::DataWord(place) => word_text(alloc, at.word_of_data_stack(place)),
        Variable::ReturnWord(place) => word_text(alloc, at.word_of_return_stack(place)),
        Variable::Cell(address) => word_text(alloc, lab.memory(node, address).get()),
        Variable::Neighbour(side) => neighbour_text(alloc, lab, node, side),
        Variable::Stuck => String::from_str(alloc, words_of_stuck(stuck)),
    }
}
