//! The texts of answers, written to the output.
ghost use Rattle.std.specs.Prelude.{◌≡◌, ◌+◌, ◌≤◌, ◌++◌};
ghost use Rattle.arrayvec.specs.ArrayVec.{array_vec_len};
ghost use Rattle.ga_text.specs.Lines.{Bytes};
ghost use Rattle.ga_text.specs.Output.{WritesExactly};
ghost use Rattle.ga_display.specs.Texts.{event_text, removed_events_text, event_counts_text, trace_header_text, chain_header_text};

use super::event::push_event_text;
use arrayvec::ArrayVec;
use ga_grid::NodeId;
use ga_lab::{EventCountsAndLimit, MadeEvent};
use ga_text::{MAX_LINE_BYTES, WriteResult, Writer, push_node_and_space, push_number, push_text};
use std::io::Write;

/// Writes how many events were removed and how many are kept, as `write_text` does.
///
/// # Errors
/// A write failed.
pub fn write_removed_events<W: Write>(
    writer: &mut Writer<'_, W>,
    removed: u32,
    kept: u32,
) -> WriteResult
    ensures { WritesExactly result (removed_events_text removed kept) W.contents writer.old writer.new }
{
    writer.make_room(MAX_LINE_BYTES)?;
    push_removed(&mut writer.pending, removed, kept);
    Ok(())
}

/// Adds how many events were removed, and how many are kept.
fn push_removed<const ROOM: usize>(out: &mut ArrayVec<u8, ROOM>, removed: u32, kept: u32)
    requires { array_vec_len out.old + MAX_LINE_BYTES ≤ ROOM }
    ensures { out.new.items ≡ out.old.items ++ removed_events_text removed kept }
{
    push_text(out, b"removed ");
    push_number(out, u64::from(removed));
    push_text(out, b" kept ");
    push_number(out, u64::from(kept));
    push_text(out, b"\n");
}

/// Writes the text of an event, as `write_text` does.
///
/// # Errors
/// A write failed.
#[inline(always)]
pub fn write_event<W: Write>(writer: &mut Writer<'_, W>, made: MadeEvent) -> WriteResult
    ensures { WritesExactly result (event_text made) W.contents writer.old writer.new }
{
    writer.make_room(MAX_LINE_BYTES)?;
    push_event_text(&mut writer.pending, made);
    Ok(())
}

/// Writes how many events are kept, were ever made and may be kept, as `write_text` does.
///
/// # Errors
/// A write failed.
pub fn write_event_counts<W: Write>(
    writer: &mut Writer<'_, W>,
    counts: EventCountsAndLimit,
) -> WriteResult
    ensures { WritesExactly result (event_counts_text counts.kept counts.made counts.limit) W.contents writer.old writer.new }
{
    writer.make_room(MAX_LINE_BYTES)?;
    let out = &mut writer.pending;
    push_text(out, b"kept ");
    push_number(out, u64::from(counts.kept));
    push_text(out, b" made ");
    push_number(out, counts.made);
    push_text(out, b" limit ");
    push_number(out, u64::from(counts.limit));
    push_text(out, b"\n");
    Ok(())
}

/// Writes the line before `count` steps of a node, as `write_text` does.
///
/// # Errors
/// A write failed.
pub fn write_trace_head<W: Write>(
    writer: &mut Writer<'_, W>,
    node: NodeId,
    count: usize,
) -> WriteResult
    ensures { WritesExactly result (trace_header_text node count) W.contents writer.old writer.new }
{
    writer.make_room(MAX_LINE_BYTES)?;
    let out = &mut writer.pending;
    push_text(out, b"trace ");
    push_node_and_space(out, node);
    push_number(out, count as u64);
    push_text(out, b"\n");
    Ok(())
}

/// Writes the line before a chain of `count` events, as `write_text` does.
///
/// # Errors
/// A write failed.
pub fn write_chain_head<W: Write>(writer: &mut Writer<'_, W>, count: usize) -> WriteResult
    ensures { WritesExactly result (chain_header_text count) W.contents writer.old writer.new }
{
    writer.make_room(MAX_LINE_BYTES)?;
    let out = &mut writer.pending;
    push_text(out, b"chain ");
    push_number(out, count as u64);
    push_text(out, b"\n");
    Ok(())
}
