//! What a scope has.

ghost use Rattle.std.specs.Prelude.{◌≡◌, ◌<◌, ◌++◌, IfOk, string_bytes};
ghost use Rattle.ga_dap_views.specs.Shown.{IsNodeVariable, scope_variable_at_index, variable_count, variable_name};

use crate::doing::side_name;
use crate::scope::Scope;
use crate::texts::{cell_name, text_with_number};
use ga_ports::Side;
use std::alloc::{AllocError, Global};

/// One thing that a node holds, which a client is shown by a name and a value (Debug Adapter Protocol, "Variable").
#[derive(Clone, Copy, PartialEq, Eq, Debug)]
pub enum Variable {
    /// What the node does.
    NodeStatus,
    /// The number of steps of the node in the history.
    Step,
    /// The register P.
    P,
    /// The register A.
    A,
    /// The register B.
    B,
    /// The instruction word.
    I,
    /// The slot that comes next.
    Slot,
    /// The carry.
    Carry,
    /// The word written to `io`.
    Io,
    /// A word of the data stack, 0 to 9 from the top on.
    DataWord(u8),
    /// A word of the return stack, 0 to 8 from the top on.
    ReturnWord(u8),
    /// The word at an address of memory: RAM below 128.
    Cell(u8),
    /// The neighbour on a side.
    Neighbour(Side),
    /// Whether the node is deadlocked.
    Stuck,
}

/// The registers, in order.
const REGISTERS: [Variable; 12] = [
    Variable::NodeStatus,
    Variable::Step,
    Variable::P,
    Variable::DataWord(0),
    Variable::DataWord(1),
    Variable::ReturnWord(0),
    Variable::A,
    Variable::B,
    Variable::I,
    Variable::Slot,
    Variable::Carry,
    Variable::Io,
];

/// The links, in order.
const LINKS: [Variable; 5] = [
    Variable::Neighbour(Side::Right),
    Variable::Neighbour(Side::Down),
    Variable::Neighbour(Side::Left),
    Variable::Neighbour(Side::Up),
    Variable::Stuck,
];

/// How many variables a scope has.
pub fn count_variables(scope: Scope) -> u8
    ensures { result ≡ variable_count scope }
{
    match scope {
        Scope::Registers => 12,
        Scope::DataStackScope => 10,
        Scope::ReturnStackScope => 9,
        Scope::Links => 5,
        Scope::Ram => 64,
        Scope::Rom => 64,
    }
}

/// A scope's variable at a place.
pub fn find_variable_at_index(scope: Scope, place: u8) -> Variable
    requires { place < variable_count scope }
    ensures value { result ≡ scope_variable_at_index scope place }
    ensures valid { IsNodeVariable result }
{
    match scope {
        Scope::Registers => REGISTERS[place as usize],
        Scope::DataStackScope => Variable::DataWord(place),
        Scope::ReturnStackScope => Variable::ReturnWord(place),
        Scope::Links => LINKS[place as usize],
        Scope::Ram => Variable::Cell(place),
        Scope::Rom => Variable::Cell(128 + place),
    }
}

/// The name of a variable.
pub fn variable_name(alloc: Global, variable: Variable) -> Result<String, AllocError>
    requires { IsNodeVariable variable }
    ensures { IfOk result (λ text. string_bytes text ≡ variable_name variable) }
{
    match variable {
        Variable::NodeStatus => String::from_str(alloc, "state"),
        Variable::Step => String::from_str(alloc, "step"),
        Variable::P => String::from_str(alloc, "p"),
        Variable::A => String::from_str(alloc, "a"),
        Variable::B => String::from_str(alloc, "b"),
        Variable::I => String::from_str(alloc, "i"),
        Variable::Slot => String::from_str(alloc, "slot"),
        Variable::Carry => String::from_str(alloc, "carry"),
        Variable::Io => String::from_str(alloc, "io"),
        Variable::DataWord(0) => String::from_str(alloc, "t"),
        Variable::DataWord(1) => String::from_str(alloc, "s"),
        Variable::DataWord(place) => text_with_number(alloc, "d", u32::from(place)),
        Variable::ReturnWord(0) => String::from_str(alloc, "r"),
        Variable::ReturnWord(place) => text_with_number(alloc, "r", u32::from(place)),
        Variable::Cell(address) => cell_name(alloc, address),
        Variable::Neighbour(side) => String::from_str(alloc, side_name(side)),
        Variable::Stuck => String::from_str(alloc, "stuck"),
    }
}
