//! Races, written line by line.

ghost use Rattle.std.specs.Prelude.{◌≡◌, ◌≤◌, ◌+◌, ◌++◌, flat_map, codes};
ghost use Rattle.arrayvec.specs.ArrayVec.{array_vec_len};
ghost use Rattle.ga_word.specs.Word.{hex_digits_of_word};
ghost use Rattle.ga_text.specs.Output.{WritesSomeText, WritesExactly};
ghost use Rattle.ga_text.specs.Digits.{name_of_node};
ghost use Rattle.ga_race_detector.specs.Readings.{step_removed_for_look};
ghost use Rattle.ga_explorer_text.specs.Races.{race_text, look_race_text, look_before_or_behind_text, races_head_line, race_lines_text, races_last_line, listed_races_text, IsRacesAnswer};

use arrayvec::ArrayVec;
use ga_display::advised_refusal_text;
use ga_grid::NodeId;
use ga_lab::Lab;
use ga_race_detector::{LookRace, Race, Races, find_races};
use ga_text::{
    NODE_NAME_BYTES, TextBuffer, WORD_DIGITS, WriteResult, Writer, push_node, push_number,
    push_step, push_text, push_word,
};
use ga_word::Word18;
use std::alloc::Global;
use std::io::Write;

/// The most bytes of a word and the node that it comes from.
const FROM_ROOM: usize = WORD_DIGITS + b" from ".len() + NODE_NAME_BYTES;

/// `races` or `races NNN`: writes the races of all nodes or of one, and what holds of other interleavings. Nothing is removed.
///
/// # Errors
/// A write failed.
pub fn write_races<W: Write>(
    alloc: Global,
    lab: &mut Lab,
    only: Option<NodeId>,
    writer: &mut Writer<'_, W>,
) -> WriteResult
    ensures said { WritesSomeText result (IsRacesAnswer lab.old only) W.contents writer.old writer.new }
    ensures same { lab.new ≡ lab.old }
{
    match find_races(alloc, lab, only) {
        Ok(races) => say_found(only, &races, writer),
        Err(fault) => writer.write_text(advised_refusal_text(fault)),
    }
}

/// Says the lines of these, and the last one.
fn say_found<W: Write>(
    only: Option<NodeId>,
    races: &Races,
    writer: &mut Writer<'_, W>,
) -> WriteResult
    ensures { WritesSomeText result (λ text. text ≡ listed_races_text only races.now.list.items races.now.readings.items races.now.looks races.now.quiet)
        W.contents writer.old writer.new }
{
    let list = races.list.as_slice();
    let readings = races.readings.as_slice();
    let count = list.len() as u64 + readings.len() as u64;
    say_list(list, count, writer)?;
    let last = races_last_line(only, list, races.looks, races.quiet);
    say_rest(readings, last, writer)
}

/// Writes that `count` lines of steps follow, then each of these passes.
fn say_list<W: Write>(races: &[Race], count: u64, writer: &mut Writer<'_, W>) -> WriteResult
    ensures { WritesSomeText result (λ text. text ≡ race_lines_text races.now count)
        W.contents writer.old writer.new }
{
    writer.write_blocks(head_line(count).as_slice())?;
    'races: for race in races {
        say_race(*race, writer)?;
    }
    Ok(())
}

/// Says each of these, and the last line.
fn say_rest<W: Write>(
    readings: &[LookRace],
    last: &'static [u8],
    writer: &mut Writer<'_, W>,
) -> WriteResult
    ensures { WritesSomeText result (λ text. text ≡ flat_map look_race_text readings.now ++ last.now)
        W.contents writer.old writer.new }
{
    'readings: for reading in readings {
        say_reading(*reading, writer)?;
    }
    writer.write_blocks(last)
}

/// Says a look that could have read otherwise.
fn say_reading<W: Write>(reading: LookRace, writer: &mut Writer<'_, W>) -> WriteResult
    ensures { WritesExactly result (look_race_text reading) W.contents writer.old writer.new }
{
    writer.write_blocks(reading_line(reading).as_slice())
}

/// Says a pass whose reader could have taken another word.
fn say_race<W: Write>(race: Race, writer: &mut Writer<'_, W>) -> WriteResult
    ensures { WritesExactly result (race_text race) W.contents writer.old writer.new }
{
    writer.write_blocks(race_line(race).as_slice())
}

/// How many lines of steps follow.
fn head_line(count: u64) -> TextBuffer
    ensures { result.items ≡ races_head_line count }
{
    let mut out = ArrayVec::new();
    push_text(&mut out, b"races ");
    push_number(&mut out, count);
    push_text(&mut out, b"\n");
    out
}

/// A look with the word that it read, another that it could have read, the change before or after which it would have read
/// that, and the commands that lead there.
fn reading_line(reading: LookRace) -> TextBuffer
    ensures { result.items ≡ look_race_text reading }
{
    let (node, step) = step_removed_for_look(&reading);
    let mut out = ArrayVec::new();
    push_step(&mut out, reading.node, reading.step);
    push_text(&mut out, b" reads ");
    push_word(&mut out, reading.word);
    push_text(&mut out, b", or ");
    push_word(&mut out, reading.other);
    push_text(&mut out, side_of(reading.is_look_first));
    push_step(&mut out, reading.neighbour, reading.change);
    push_text(&mut out, b": rewind ");
    push_step(&mut out, node, step);
    push_text(&mut out, b", step ");
    push_node(&mut out, reading.node);
    push_text(&mut out, b"\n");
    out
}

/// On which side of the change a look would have read the other word.
fn side_of(is_look_first: bool) -> &'static [u8; 8]
    ensures { result.now ≡ look_before_or_behind_text is_look_first }
{
    if is_look_first {
        b" behind "
    } else {
        b" before "
    }
}

/// The step that is taken back for a look to read the other word.
fn step_removed_for_look(reading: &LookRace) -> (NodeId, u32)
    ensures { result ≡ step_removed_for_look reading.now }
{
    if reading.is_look_first {
        (reading.node, reading.step)
    } else {
        (reading.neighbour, reading.change)
    }
}

/// A step with its word, another that it could have taken, and the commands that make it take that.
fn race_line(race: Race) -> TextBuffer
    ensures { result.items ≡ race_text race }
{
    let mut out = ArrayVec::new();
    push_step(&mut out, race.reader, race.step);
    push_text(&mut out, b" takes ");
    push_from(&mut out, race.word, race.writer);
    push_text(&mut out, b", or ");
    push_from(&mut out, race.offered, race.other);
    push_text(&mut out, b": rewind ");
    push_step(&mut out, race.reader, race.step);
    push_text(&mut out, b", step ");
    push_node(&mut out, race.other);
    push_text(&mut out, b"\n");
    out
}

/// Adds a word and the node that it comes from.
fn push_from(out: &mut TextBuffer, word: Word18, node: NodeId)
    requires { array_vec_len out.old + FROM_ROOM ≤ 256 }
    ensures text { out.new.items ≡ out.old.items ++ (hex_digits_of_word word ++ codes " from " ++ name_of_node node) }
    ensures len { array_vec_len out.new ≤ array_vec_len out.old + FROM_ROOM }
{
    push_word(out, word);
    push_text(out, b" from ");
    push_node(out, node);
}

/// What holds of other orders.
fn races_last_line(only: Option<NodeId>, races: &[Race], looks: bool, quiet: bool) -> &'static [u8]
    ensures { result.now ≡ races_last_line only races.now looks quiet }
{
    if looks {
        b"looks are kept or come next: there may be other races\n"
    } else if only.is_some() || !races.is_empty() {
        b""
    } else if quiet {
        b"every order ends on this chip\n"
    } else {
        b"no other order, as long as no node makes more steps\n"
    }
}
