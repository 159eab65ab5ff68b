//! What a node waits for.

ghost use Rattle.std.specs.Prelude.{◌≡◌};
ghost use Rattle.ga_node.specs.State.{wait_code, wait_of_code, IsWaitCode};

use ga_ports::{PortSet, Side};

/// What a node waits for.
#[derive(Clone, Copy, PartialEq, Eq, Debug)]
pub enum Wait {
    /// The node runs, or is stopped.
    Nothing,
    /// An instruction word from one of these ports.
    Fetch(PortSet),
    /// A word for the data stack from one of these ports.
    Read(PortSet),
    /// That a neighbour takes T over this port.
    Write(Side),
}

/// Who reads: a fetch, or an opcode for the stack.
#[derive(Clone, Copy, PartialEq, Eq, Debug)]
pub enum ReadKind {
    /// A fetch, for the instruction word.
    Instruction,
    /// An opcode, for the data stack.
    Stack,
}

impl Wait {
    /// The wait of a number.
    pub(crate) fn from_code(code: u32) -> Wait
        requires { IsWaitCode code }
        ensures { result ≡ wait_of_code code }
    {
        if code == 0 {
            return Wait::Nothing;
        }
        if code < 32 {
            return Wait::Fetch(PortSet::from_bits((code - 16) as u8));
        }
        if code < 48 {
            return Wait::Read(PortSet::from_bits((code - 32) as u8));
        }
        Wait::Write(match code - 48 {
            8 => Side::Right,
            4 => Side::Down,
            2 => Side::Left,
            _ => Side::Up,
        })
    }

    /// The wait as a number.
    pub fn code(&self) -> u32
        ensures value { result ≡ wait_code self.now }
        ensures back { wait_of_code result ≡ self.now }
        ensures valid { IsWaitCode result }
    {
        match self {
            Wait::Nothing => 0,
            Wait::Fetch(sides) => 16 + u32::from(sides.get()),
            Wait::Read(sides) => 32 + u32::from(sides.get()),
            Wait::Write(side) => 48 + u32::from(side.bit_in_set()),
        }
    }
}
