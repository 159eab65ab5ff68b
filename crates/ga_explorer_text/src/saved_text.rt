//! The kept events as lines that make them again.

ghost use Rattle.std.specs.Prelude.{◌≡◌, flat_map};
ghost use Rattle.std.specs.List.{slice_get};
ghost use Rattle.ga_lab.specs.Machine.{own_or_writing_node};
ghost use Rattle.ga_text.specs.Output.{WritesSomeText, WritesExactly};
ghost use Rattle.ga_explorer_text.specs.Saved.{step_command_line, text_with_line_feed, saved_session_text};
ghost use Rattle.ga_explorer_text.specs.inner.{acting_node_of_made_event, optional_event_line, line_of_event_with_look};

use arrayvec::ArrayVec;
use ga_event::{Event, EventWithLook};
use ga_grid::NodeId;
use ga_lab::{Lab, MadeEvent};
use ga_text::{TextBuffer, WriteResult, Writer, push_node, push_text};
use std::io::Write;

/// `save`: says a line `step NNN` for each kept event. Takes memory for the list of the events, and time by how many they are; where
/// that is wanting it walks back to each of them from the newest.
///
/// # Errors
/// A write failed.
pub fn write_saved_session<W: Write>(lab: &Lab, writer: &mut Writer<'_, W>) -> WriteResult
    ensures { WritesExactly result (saved_session_text lab.now) W.contents writer.old writer.new }
{
    // So the kept events are those that are listed.
    let _chip = lab.chip();
    match lab.causes() {
        Ok(causes) => say_listed(causes.as_slice(), writer),
        Err(_) => say_unlisted(lab, writer),
    }
}

/// Says the lines of these events.
fn say_listed<W: Write>(causes: &[EventWithLook], writer: &mut Writer<'_, W>) -> WriteResult
    ensures { WritesSomeText result (λ text. text ≡ flat_map line_of_event_with_look causes.now)
        W.contents writer.old writer.new }
{
    'causes: for cause in causes {
        say_event(cause.event, writer)?;
    }
    Ok(())
}

/// Says the line of an event.
fn say_event<W: Write>(event: Event, writer: &mut Writer<'_, W>) -> WriteResult
    ensures { WritesExactly result (text_with_line_feed (step_command_line (own_or_writing_node event))) W.contents writer.old writer.new }
{
    writer.write_blocks(step_command_line(own_or_writing_node(event)).as_slice())
}

/// The node that makes the event: of a pass the writer.
fn own_or_writing_node(event: Event) -> NodeId
    ensures { result ≡ own_or_writing_node event }
{
    match event {
        Event::Own(node) => node,
        Event::Pass { writer, .. } => writer,
    }
}

/// Writes the lines of the history, each of whose events is looked up separately.
fn say_unlisted<W: Write>(lab: &Lab, writer: &mut Writer<'_, W>) -> WriteResult
    ensures { WritesSomeText result (λ text. text ≡ saved_session_text lab.now)
        W.contents writer.old writer.new }
{
    'places: for place in 0..lab.counts().kept {
        say_step(lab, place, writer)?;
    }
    Ok(())
}

/// Says the line of the event at a place.
fn say_step<W: Write>(lab: &Lab, place: u32, writer: &mut Writer<'_, W>) -> WriteResult
    ensures { WritesSomeText result (λ text. text ≡ optional_event_line (slice_get lab.now.kept place))
        W.contents writer.old writer.new }
{
    // So the history is the one that is written.
    let _chip = lab.chip();
    match lab.made_event_at(place) {
        Some(made) => writer.write_blocks(step_command_line(actor(&made)).as_slice()),
        None => Ok(()),
    }
}

/// The node whose step makes the event: of a pass the writer.
fn actor(made: &MadeEvent) -> NodeId
    ensures { result ≡ acting_node_of_made_event made.now }
{
    match made {
        MadeEvent::Own { node, .. } => *node,
        MadeEvent::Pass { writer, .. } => *writer,
    }
}

/// `step NNN`
fn step_command_line(node: NodeId) -> TextBuffer
    ensures { result.items ≡ text_with_line_feed (step_command_line node) }
{
    let mut out = ArrayVec::new();
    push_text(&mut out, b"step ");
    push_node(&mut out, node);
    push_text(&mut out, b"\n");
    out
}
