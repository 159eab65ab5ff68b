//! How many events `back until` removed.

ghost use Rattle.ga_text.specs.Output.{WritesExactly};
ghost use Rattle.ga_explorer_text.specs.Texts.{back_until_result_text};

use ga_display::write_removed_events;
use ga_text::{WriteResult, Writer};
use std::io::Write;

/// `back until COND`, `back NNN until COND`: says how many events were removed and how many are kept, or that none was.
///
/// # Errors
/// A write failed.
pub fn write_back_until_result<W: Write>(
    removed: Option<u32>,
    kept: u32,
    writer: &mut Writer<'_, W>,
) -> WriteResult
    ensures { WritesExactly result (back_until_result_text removed kept) W.contents writer.old writer.new }
{
    match removed {
        Some(removed) => write_removed_events(writer, removed, kept),
        None => writer.write_text(b"none\n"),
    }
}
