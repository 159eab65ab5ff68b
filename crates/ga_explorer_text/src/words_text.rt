//! The transferred words of a link, written line by line.

ghost use Rattle.std.specs.Prelude.{◌≡◌};
ghost use Rattle.ga_text.specs.Output.{WritesSomeText, WritesExactly};
ghost use Rattle.ga_explorer_text.specs.Texts.{transfer_line_text, link_words_head_line, transfers_text, link_words_text};

use arrayvec::ArrayVec;
use ga_grid::NodeId;
use ga_lab::Lab;
use ga_races::are_neighbours;
use ga_scheduler::{Transfer, TransferIter, count_transfers};
use ga_text::{
    TextBuffer, WriteResult, Writer, push_node, push_number, push_spaced_word, push_step, push_text,
};
use std::io::Write;

/// `words NNN MMM`: writes the words transferred from one node to another. Allocates nothing.
///
/// # Errors
/// A write failed.
pub fn write_link_words<W: Write>(
    lab: &Lab,
    from: NodeId,
    to: NodeId,
    writer: &mut Writer<'_, W>,
) -> WriteResult
    ensures { WritesSomeText result (λ text. text ≡ link_words_text lab.now from to) W.contents writer.old writer.new }
{
    if are_neighbours(from, to) {
        say_linked(lab, from, to, writer)
    } else {
        writer.write_text(b"no 34 nolink: only neighbours pass words\n")
    }
}

/// Says how many words of a link are kept, then each of them.
fn say_linked<W: Write>(
    lab: &Lab,
    from: NodeId,
    to: NodeId,
    writer: &mut Writer<'_, W>,
) -> WriteResult
    ensures { WritesSomeText result (λ text. text ≡ transfers_text lab.now from to)
        W.contents writer.old writer.new }
{
    let count = count_transfers(lab, from, to);
    writer.write_blocks(head_line(from, to, count).as_slice())?;
    let mut words = TransferIter::new(from, to);
    'telling: for _ in 0..count {
        let Some(sent) = words.next(lab) else {
            return Ok(());
        };
        say_sent(from, to, &sent, writer)?;
    }
    Ok(())
}

/// Says a word of a link.
fn say_sent<W: Write>(
    from: NodeId,
    to: NodeId,
    sent: &Transfer,
    writer: &mut Writer<'_, W>,
) -> WriteResult
    ensures { WritesExactly result (transfer_line_text from to sent.now) W.contents writer.old writer.new }
{
    writer.write_blocks(sent_line(from, to, sent).as_slice())
}

/// The link, and how many words of it are kept.
fn head_line(from: NodeId, to: NodeId, count: u32) -> TextBuffer
    ensures { result.items ≡ link_words_head_line from to count }
{
    let mut out = ArrayVec::new();
    push_text(&mut out, b"words ");
    push_node(&mut out, from);
    push_text(&mut out, b" ");
    push_node(&mut out, to);
    push_text(&mut out, b" ");
    push_number(&mut out, u64::from(count));
    push_text(&mut out, b"\n");
    out
}

/// A word: its number, the steps of both ends and itself.
fn sent_line(from: NodeId, to: NodeId, sent: &Transfer) -> TextBuffer
    ensures { result.items ≡ transfer_line_text from to sent.now }
{
    let mut out = ArrayVec::new();
    push_number(&mut out, u64::from(sent.number));
    push_text(&mut out, b" ");
    push_step(&mut out, from, sent.writer_step);
    push_text(&mut out, b" ");
    push_step(&mut out, to, sent.reader_step);
    push_spaced_word(&mut out, sent.word);
    push_text(&mut out, b"\n");
    out
}
