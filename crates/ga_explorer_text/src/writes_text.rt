//! The steps that wrote a cell, written line by line.

ghost use Rattle.std.specs.Prelude.{◌≡◌, ◌<◌, Some};
ghost use Rattle.ga_text.specs.Output.{WritesSomeText};
ghost use Rattle.ga_event.specs.Told.{count_steps};
ghost use Rattle.ga_explorer_text.specs.Writing.{cell_write_text, cell_writes_lines, cell_writes_answer_text};

use crate::deed_text::push_action;
use arrayvec::ArrayVec;
use ga_grid::NodeId;
use ga_lab::Lab;
use ga_provenance::{CellWrite, CellWrites};
use ga_text::{TextBuffer, WriteResult, Writer, push_spaced_word, push_step, push_text};
use std::io::Write;

/// `writes NNN HH`: writes the steps of a node that wrote at an address of its memory, the newest first. Allocates nothing.
///
/// # Errors
/// A write failed.
pub fn write_cell_writes<W: Write>(
    lab: &Lab,
    node: NodeId,
    address: u8,
    writer: &mut Writer<'_, W>,
) -> WriteResult
    ensures { WritesSomeText result (λ text. text ≡ cell_writes_answer_text lab.now node address) W.contents writer.old writer.new }
{
    if address < 128 {
        say_cell(lab, node, address % 64, writer)
    } else {
        Ok(())
    }
}

/// Says the steps that wrote a cell of RAM.
fn say_cell<W: Write>(lab: &Lab, node: NodeId, cell: u8, writer: &mut Writer<'_, W>) -> WriteResult
    requires { cell < 64 }
    ensures { WritesSomeText result (λ text. text ≡ cell_writes_lines lab.now node cell (count_steps node.number lab.now.kept))
        W.contents writer.old writer.new }
{
    let mut writes = CellWrites::new(lab, node, cell);
    'going: while let Some(written) = writes.next() {
        writer.write_blocks(written_line(node, written).as_slice())?;
    }
    Ok(())
}

/// A step that wrote: its number, the opcode's name, and the word.
fn written_line(node: NodeId, written: CellWrite) -> TextBuffer
    ensures { result.items ≡ cell_write_text node (Some written) }
{
    let CellWrite { step, made, word } = written;
    let mut out = ArrayVec::new();
    push_step(&mut out, node, step);
    push_text(&mut out, b" ");
    push_action(&mut out, made, node);
    push_spaced_word(&mut out, word);
    push_text(&mut out, b"\n");
    out
}
