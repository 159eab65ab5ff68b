//! The transferred words of a link.

ghost use Rattle.std.specs.Prelude.{◌≡◌, map};
ghost use Rattle.ga_text.specs.Output.{WritesExactly};
ghost use Rattle.ga_scheduler.specs.Words.{unlisted_transfers};
ghost use Rattle.ga_json.specs.Compact.{json_line};
ghost use Rattle.ga_json.specs.Fields.{named_field_value, row_json};
ghost use Rattle.ga_explorer_json.specs.Rows.{json_rows_of_items};
ghost use Rattle.ga_explorer_json.specs.Words.{transfer_json, link_words_head_fields, transfers_json, link_words_answer_json};

use crate::refusal::write_refusal;
use ga_grid::NodeId;
use ga_json::{Field, RowCursor, RowFields, row_fields, write_report};
use ga_lab::Lab;
use ga_races::are_neighbours;
use ga_scheduler::{Transfer, TransferIter, count_transfers};
use ga_text::{WriteResult, Writer};
use std::io::Write;

/// `words NNN MMM`: writes the words transferred from one node to another. Allocates nothing.
///
/// # Errors
/// A write failed.
pub fn write_link_words_json<W: Write>(
    lab: &Lab,
    from: NodeId,
    to: NodeId,
    writer: &mut Writer<'_, W>,
) -> WriteResult
    ensures { WritesExactly result (json_line (link_words_answer_json lab.now from to)) W.contents writer.old writer.new }
{
    if are_neighbours(from, to) {
        write_transfers(lab, from, to, writer)
    } else {
        write_refusal(
            b"words",
            34,
            b"nolink",
            b"only neighbours pass words",
            writer,
        )
    }
}

/// Writes how many words of a link are kept, and each of them.
fn write_transfers<W: Write>(
    lab: &Lab,
    from: NodeId,
    to: NodeId,
    writer: &mut Writer<'_, W>,
) -> WriteResult
    ensures { WritesExactly result (json_line (transfers_json lab.now from to)) W.contents writer.old writer.new }
{
    let head = link_words_head_fields(from, to, count_transfers(lab, from, to));
    let mut rows = TransferRows {
        lab,
        words: TransferIter::new(from, to),
    };
    write_report(&head, &mut rows, writer)
}

/// The words of a link that are not written yet.
#[derive(Drop)]
struct TransferRows<'l> {
    lab: &'l Lab,
    words: TransferIter,
}

impl<'l> RowCursor<'l> for TransferRows<'l> {
    ghost left = { λ rows. json_rows_of_items transfer_json (unlisted_transfers rows.lab.now rows.words) };

    fn next(&mut self) -> Option<RowFields<'l>> {
        match self.words.next(self.lab) {
            Some(sent) => Some(transfer_row(sent)),
            None => None,
        }
    }
}

/// The link, and how many words of it are kept.
fn link_words_head_fields(from: NodeId, to: NodeId, count: u32) -> [Field<'static>; 4]
    ensures { map named_field_value result ≡ link_words_head_fields from to count }
{
    [
        Field::text(b"command", b"words"),
        Field::node(b"from", from),
        Field::node(b"to", to),
        Field::number(b"count", u64::from(count)),
    ]
}

/// A word: its number, the steps of both ends and itself.
fn transfer_row(sent: Transfer) -> RowFields<'static>
    ensures { row_json result.items ≡ transfer_json sent }
{
    row_fields(&[
        Field::number(b"number", u64::from(sent.number)),
        Field::number(b"from_step", u64::from(sent.writer_step)),
        Field::number(b"to_step", u64::from(sent.reader_step)),
        Field::word(b"word", sent.word),
    ])
}
