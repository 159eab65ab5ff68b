//! The steps that wrote a cell.

ghost use Rattle.std.specs.Prelude.{◌≡◌, map};
ghost use Rattle.ga_text.specs.Output.{WritesExactly};
ghost use Rattle.ga_json.specs.Compact.{json_line};
ghost use Rattle.ga_json.specs.Fields.{named_field_value, row_json};
ghost use Rattle.ga_explorer_json.specs.Writes.{cell_write_json, cell_write_rows, cell_writes_head_fields, cell_writes_answer_json};

use crate::event::push_action;
use crate::row::{NoRows, push_fields};
use ga_grid::NodeId;
use ga_json::{Field, RowCursor, RowFields, row_fields, write_report};
use ga_lab::Lab;
use ga_provenance::{CellWrite, CellWrites};
use ga_text::{WriteResult, Writer};
use std::io::Write;

/// `writes NNN HH`: writes the steps of a node that wrote at an address of its memory, the newest first. Allocates nothing.
///
/// # Errors
/// A write failed.
pub fn write_cell_writes_json<W: Write>(
    lab: &Lab,
    node: NodeId,
    address: u8,
    writer: &mut Writer<'_, W>,
) -> WriteResult
    ensures { WritesExactly result (json_line (cell_writes_answer_json lab.now node address)) W.contents writer.old writer.new }
{
    let head = cell_writes_head_fields(node, address);
    if address < 128 {
        let mut rows = CellWriteRows {
            writes: CellWrites::new(lab, node, address % 64),
        };
        write_report(&head, &mut rows, writer)
    } else {
        write_report(&head, &mut NoRows, writer)
    }
}

/// The steps that wrote a cell and are not written yet.
#[derive(Drop)]
struct CellWriteRows<'l> {
    writes: CellWrites<'l>,
}

impl<'l> RowCursor<'l> for CellWriteRows<'l> {
    ghost left = { λ rows. cell_write_rows rows.writes.machine rows.writes.node.number rows.writes.cell rows.writes.step };

    fn next(&mut self) -> Option<RowFields<'l>> {
        match self.writes.next() {
            Some(written) => Some(cell_write_row(written)),
            None => None,
        }
    }
}

/// The node and the address.
fn cell_writes_head_fields(node: NodeId, address: u8) -> [Field<'static>; 3]
    ensures { map named_field_value result ≡ cell_writes_head_fields node address }
{
    [
        Field::text(b"command", b"writes"),
        Field::node(b"node", node),
        Field::number(b"address", u64::from(address)),
    ]
}

/// A step that wrote: its number, what it did, and the word in the cell after it.
fn cell_write_row(written: CellWrite) -> RowFields<'static>
    ensures { row_json result.items ≡ cell_write_json written }
{
    let CellWrite { step, made, word } = written;
    let mut row = row_fields(&[Field::number(b"step", u64::from(step))]);
    push_action(&mut row, made);
    push_fields(&mut row, &[Field::word(b"value", word)]);
    row
}
