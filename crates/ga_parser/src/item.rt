//! What the words of a node ask for.

use super::labels::Label;
use ga_slots::Op;

/// A number, or the address of a label by the label's number.
#[derive(Clone, Copy, PartialEq, Eq)]
pub enum Operand {
    Number(u32),
    Label(usize),
}

/// The content of a slot or of a cell.
#[derive(Clone, Copy)]
pub enum AssemblyItem {
    /// An opcode without an address.
    Opcode(Op),
    /// `@p`, and its value in a later cell.
    Literal(Operand),
    /// An opcode with the address of an earlier label.
    JumpToEarlierLabel(Op, usize),
    /// An opcode with the address of a later label.
    JumpToLaterLabel(Op, usize),
    /// A cell of data.
    Cell(Operand),
}

impl Default for AssemblyItem {
    fn default() -> Self {
        AssemblyItem::Opcode(Op::Nop)
    }
}

/// A request of the source.
#[derive(Clone, Copy)]
pub enum AssemblyRequest {
    /// An item in the next place where it fits.
    PlaceItem(AssemblyItem),
    /// `unext` to this label.
    Unext(usize),
    /// The label is the address of the next cell.
    MarkLabel(usize),
    /// The next item is in a new cell.
    BeginNewCell,
    /// The next cell is the one at this address.
    GoToAddress(u32),
    /// Bit 9 of the next cell's address, and so of those after it.
    Carry(bool),
}

/// A request and its line.
#[derive(Clone, Copy)]
pub struct LocatedRequest {
    pub line: u32,
    pub request: AssemblyRequest,
}

/// A register's value at load, and the line that gives it; line 0 where none does.
#[derive(Clone, Copy, PartialEq, Eq)]
pub struct RegisterValue {
    pub line: u32,
    pub value: Operand,
}

/// What the source gives a node's registers at load.
#[derive(Clone, Copy, PartialEq, Eq)]
pub struct InitialRegisters {
    pub p: Option<RegisterValue>,
    pub a: Option<RegisterValue>,
    pub b: Option<RegisterValue>,
}

/// What the words of a node ask for.
#[derive(Drop)]
pub struct NodeRequests<'s> {
    pub asked: Vec<LocatedRequest>,
    /// The labels by their numbers; the name is empty where a control word made the label.
    pub names: Vec<Label<'s>>,
    pub registers: InitialRegisters,
}
