//! A place in the cells of a node, and the items of a cell.

ghost use Rattle.std.specs.Prelude.{◌≡◌, slice_index};
ghost use Rattle.ga_source.specs.Reading.{is_data_cell};

use arrayvec::ArrayVec;
use ga_parser::AssemblyItem;

/// A slot of a cell, with P after the cell and its literals so far, unless an opcode moved it.
#[derive(Clone, Copy, PartialEq, Eq)]
pub(crate) struct PackingSpot {
    pub at: u32,
    pub slot: u8,
    pub p: u32,
    /// Whether an opcode before it in the cell moves P itself.
    pub is_p_moved: bool,
}

/// The items of one instruction word with its address, or one cell of data.
#[derive(Drop)]
pub struct CellGroup {
    pub address: u32,
    pub items: ArrayVec<AssemblyItem, 4>,
    /// The line of each item.
    pub lines: ArrayVec<u32, 4>,
    /// The line of an `unext` whose loop didn't begin in this cell, or has a literal.
    pub broken: Option<u32>,
}

impl CellGroup {
    /// The line of the first item; a group that is packed has one.
    pub fn line(&self) -> u32
        ensures { result ≡ slice_index self.now.lines.items 0 }
    {
        self.line_of(0)
    }

    /// The line of an item, 0 where there is none.
    pub(crate) fn line_of(&self, item: usize) -> u32
        ensures { result ≡ slice_index self.now.lines.items item }
    {
        self.lines.get(item).copied().unwrap_or(0)
    }

    /// Whether it is a cell of data.
    pub(crate) fn is_data(&self) -> bool
        ensures { result ≡ is_data_cell self.now.items.items }
    {
        if let [AssemblyItem::Cell(_)] = self.items.as_slice() {
            true
        } else {
            false
        }
    }
}
