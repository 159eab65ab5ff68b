//! The commands that read a word or the counts.

ghost use Rattle.std.specs.Prelude.{◌≡◌};
ghost use Rattle.ga_text.specs.Output.{WritesExactly};
ghost use Rattle.ga_json.specs.Compact.{json_line};
ghost use Rattle.ga_json.specs.Fields.{row_json};
ghost use Rattle.ga_explorer_json.specs.Readings.{address_word_json, memory_word_json, event_counts_json, history_counts_json};

use ga_grid::NodeId;
use ga_json::{Field, write_object};
use ga_lab::{EventCountsAndLimit, Lab};
use ga_text::{WriteResult, Writer};
use ga_word::Word18;
use std::io::Write;

/// `mem NNN HH`: writes the word at an address of the node's memory.
///
/// # Errors
/// A write failed.
pub fn write_memory_json<W: Write>(
    lab: &Lab,
    node: NodeId,
    address: u8,
    writer: &mut Writer<'_, W>,
) -> WriteResult
    ensures { WritesExactly result (json_line (memory_word_json lab.now node address)) W.contents writer.old writer.new }
{
    let word = lab.memory(node, address);
    write_object(&memory_fields(node, address, word), writer)
}

/// `count`: writes how many events are kept, how many were made, and how many may be kept.
///
/// # Errors
/// A write failed.
pub fn write_event_counts_json<W: Write>(lab: &Lab, writer: &mut Writer<'_, W>) -> WriteResult
    ensures { WritesExactly result (json_line (history_counts_json lab.now)) W.contents writer.old writer.new }
{
    let counts = lab.counts();
    write_object(&count_fields(counts), writer)
}

/// An address of a node's memory, and the word there.
fn memory_fields(node: NodeId, address: u8, word: Word18) -> [Field<'static>; 4]
    ensures { row_json result ≡ address_word_json node address word }
{
    [
        Field::text(b"command", b"mem"),
        Field::node(b"node", node),
        Field::number(b"address", u64::from(address)),
        Field::word(b"word", word),
    ]
}

/// How many events are kept, how many were made, and how many may be kept.
fn count_fields(counts: EventCountsAndLimit) -> [Field<'static>; 4]
    ensures { row_json result ≡ event_counts_json counts.kept counts.made counts.limit }
{
    [
        Field::text(b"command", b"count"),
        Field::number(b"kept", u64::from(counts.kept)),
        Field::number(b"made", counts.made),
        Field::number(b"limit", u64::from(counts.limit)),
    ]
}
