//! The chip at a glance.

ghost use Rattle.std.specs.Prelude.{◌≡◌, ◌+◌, ◌*◌, ◌-◌, ◌<◌, ◌≤◌, ◌++◌, ◌∷◌, []};
ghost use Rattle.arrayvec.specs.ArrayVec.{array_vec_len};
ghost use Rattle.ga_explorer_text.specs.Texts.{chip_text, chip_row_text, node_symbol_text, node_symbols_text, single_side_letter, activity_symbol};

use arrayvec::ArrayVec;
use ga_grid::NodeId;
use ga_lab::Lab;
use ga_node::Wait;
use ga_text::{push_decimal_digit, push_text};

/// The bytes of a node.
const CELL_ROOM: usize = 3;

/// How many nodes a row has.
const COLUMNS: u8 = 18;

/// The bytes of a row: its number, its nodes and the end of the line.
const ROW_ROOM: usize = 1 + 18 * CELL_ROOM + 1;

/// The bytes of all rows.
const CHIP_ROOM: usize = 8 * ROW_ROOM;

/// The text of all rows.
pub type ChipText = ArrayVec<u8, CHIP_ROOM>;

/// What each node does, row by row, the upmost first.
pub fn chip_overview(lab: &Lab) -> ChipText
    ensures { result.items ≡ chip_text lab.now }
{
    let mut out = ArrayVec::new();
    let mut row = 8u8;
    'rows: while row > 0 {
        row -= 1;
        push_row(&mut out, lab, row);
    }
    out
}

/// Adds a row: its number and its nodes.
fn push_row(out: &mut ChipText, lab: &Lab, row: u8)
    requires row { row < 8 }
    requires room { array_vec_len out.old + ROW_ROOM ≤ CHIP_ROOM }
    ensures text { out.new.items ≡ out.old.items ++ chip_row_text lab.now row }
    ensures len { array_vec_len out.new ≡ array_vec_len out.old + ROW_ROOM }
{
    push_decimal_digit(out, row);
    push_cells(out, lab, COLUMNS * row);
    push_text(out, b"\n");
}

/// Adds the nodes of a row, by the number of its first.
fn push_cells(out: &mut ChipText, lab: &Lab, first: u8)
    requires first { first ≤ 126 }
    requires room { array_vec_len out.old + 54 ≤ CHIP_ROOM }
    ensures text { out.new.items ≡ out.old.items ++ node_symbols_text lab.now first 18 }
    ensures len { array_vec_len out.new ≡ array_vec_len out.old + 54 }
{
    let mut column = 0u8;
    'cells: while column < COLUMNS {
        push_cell(out, lab, first + column);
        column += 1;
    }
}

/// Adds what a node does, where it made a step.
fn push_cell(out: &mut ChipText, lab: &Lab, number: u8)
    requires number { number < 144 }
    requires room { array_vec_len out.old + CELL_ROOM ≤ CHIP_ROOM }
    ensures text { out.new.items ≡ out.old.items ++ node_symbol_text lab.now number }
    ensures len { array_vec_len out.new ≡ array_vec_len out.old + CELL_ROOM }
{
    let node = NodeId::new(number);
    match lab.peek(node, 1) {
        None => push_text(out, b"  ."),
        Some(_) => {
            let at = lab.node(node);
            push_doing(out, at.wait(), at.stop());
        }
    }
}

/// Adds what a node does: it waits, runs or is stopped.
fn push_doing(out: &mut ChipText, wait: Wait, stop: u8)
    requires room { array_vec_len out.old + CELL_ROOM ≤ CHIP_ROOM }
    ensures text { out.new.items ≡ out.old.items ++ activity_symbol wait stop }
    ensures len { array_vec_len out.new ≡ array_vec_len out.old + CELL_ROOM }
{
    match wait {
        Wait::Fetch(sides) => push_text(out, &[b' ', b'@', letter(sides.get())]),
        Wait::Read(sides) => push_text(out, &[b' ', b'?', letter(sides.get())]),
        Wait::Write(side) => push_text(out, &[b' ', b'!', letter(side.bit_in_set())]),
        Wait::Nothing => push_text(out, if stop == 0 { b"  *" } else { b"  x" }),
    }
}

/// The letter of a set's side, where it has one alone.
fn letter(sides: u8) -> u8
    ensures { result ∷ [] ≡ single_side_letter sides }
{
    match sides {
        8 => b'r',
        4 => b'd',
        2 => b'l',
        1 => b'u',
        _ => b'+',
    }
}
