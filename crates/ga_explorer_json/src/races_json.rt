//! Steps that could have come out otherwise.

ghost use Rattle.std.specs.Prelude.{◌≡◌, codes, map};
ghost use Rattle.ga_text.specs.Output.{WritesSomeText, WritesExactly};
ghost use Rattle.ga_race_detector.specs.Readings.{step_removed_for_look};
ghost use Rattle.ga_json.specs.Compact.{json_line};
ghost use Rattle.ga_json.specs.FieldValues.{field_value_json};
ghost use Rattle.ga_json.specs.Fields.{named_field_value, row_json};
ghost use Rattle.ga_explorer_json.specs.Rows.{IsJsonLine};
ghost use Rattle.ga_explorer_json.specs.Races.{race_json, look_race_json, race_rows, optional_node_json, races_head_fields, listed_races_json, IsRacesJson};

use crate::refusal::write_lab_refusal;
use ga_grid::NodeId;
use ga_json::{Field, RowCursor, RowFields, row_fields, write_report};
use ga_lab::Lab;
use ga_race_detector::{LookRace, Race, Races, find_races};
use ga_text::{WriteResult, Writer};
use std::alloc::Global;
use std::io::Write;

/// `races` or `races NNN`: writes the races of all nodes or of one. Nothing is removed.
///
/// # Errors
/// A write failed.
pub fn write_races_json<W: Write>(
    alloc: Global,
    lab: &mut Lab,
    only: Option<NodeId>,
    writer: &mut Writer<'_, W>,
) -> WriteResult
    ensures said { WritesSomeText result (IsJsonLine (IsRacesJson lab.old only)) W.contents writer.old writer.new }
    ensures same { lab.new ≡ lab.old }
{
    match find_races(alloc, lab, only) {
        Ok(races) => write_listed_races(only, &races, writer),
        Err(fault) => write_lab_refusal(b"races", fault, writer),
    }
}

/// Writes how many races there are, what bears on others, and each of them.
fn write_listed_races<W: Write>(
    only: Option<NodeId>,
    races: &Races,
    writer: &mut Writer<'_, W>,
) -> WriteResult
    ensures { WritesExactly result (json_line (listed_races_json only races.now.list.items races.now.readings.items races.now.looks races.now.quiet))
        W.contents writer.old writer.new }
{
    let mut rows = RaceRows {
        races: races.list.as_slice(),
        readings: races.readings.as_slice(),
    };
    let count = rows.races.len() as u64 + rows.readings.len() as u64;
    let head = races_head_fields(only, count, races.looks, races.quiet);
    write_report(&head, &mut rows, writer)
}

/// The races that are not written yet.
#[derive(Drop)]
struct RaceRows<'r> {
    races: &'r [Race],
    readings: &'r [LookRace],
}

impl<'r> RowCursor<'r> for RaceRows<'r> {
    ghost left = { λ rows. race_rows rows.races.now rows.readings.now };

    fn next(&mut self) -> Option<RowFields<'r>> {
        match self.races.split_first() {
            Some((race, rest)) => {
                self.races = rest;
                Some(race_row(*race))
            }
            None => match self.readings.split_first() {
                Some((reading, rest)) => {
                    self.readings = rest;
                    Some(look_race_row(*reading))
                }
                None => None,
            },
        }
    }
}

/// The named node, how many rows there are, and what bears on other races.
fn races_head_fields(
    only: Option<NodeId>,
    count: u64,
    looks: bool,
    quiet: bool,
) -> [Field<'static>; 5]
    ensures { map named_field_value result ≡ races_head_fields only count looks quiet }
{
    [
        Field::text(b"command", b"races"),
        node_field(only),
        Field::number(b"count", count),
        Field::flag(b"looks", looks),
        Field::flag(b"quiet", quiet),
    ]
}

/// The named node, if one was.
fn node_field(only: Option<NodeId>) -> Field<'static>
    ensures name { result.name.now ≡ codes "node" }
    ensures value { field_value_json result.value ≡ optional_node_json only }
{
    match only {
        Some(node) => Field::node(b"node", node),
        None => Field::absent(b"node"),
    }
}

/// A step with its word, another that it could have taken, and the commands that make it take that.
fn race_row(race: Race) -> RowFields<'static>
    ensures { row_json result.items ≡ race_json race }
{
    row_fields(&[
        Field::text(b"what", b"pass"),
        Field::node(b"node", race.reader),
        Field::number(b"step", u64::from(race.step)),
        Field::word(b"word", race.word),
        Field::node(b"from", race.writer),
        Field::word(b"other_word", race.offered),
        Field::node(b"other_from", race.other),
        Field::node(b"rewind_node", race.reader),
        Field::number(b"rewind_step", u64::from(race.step)),
        Field::node(b"then_node", race.other),
    ])
}

/// A look with the word that it read, another that it could have read, the change on the other side of which it would have read
/// that, and the commands that lead there.
fn look_race_row(reading: LookRace) -> RowFields<'static>
    ensures { row_json result.items ≡ look_race_json reading }
{
    let (node, step) = step_removed_for_look(&reading);
    row_fields(&[
        Field::text(b"what", b"look"),
        Field::node(b"node", reading.node),
        Field::number(b"step", u64::from(reading.step)),
        Field::word(b"word", reading.word),
        Field::word(b"other_word", reading.other),
        Field::node(b"neighbour", reading.neighbour),
        Field::number(b"neighbour_step", u64::from(reading.change)),
        Field::flag(b"look_first", reading.is_look_first),
        Field::node(b"rewind_node", node),
        Field::number(b"rewind_step", u64::from(step)),
        Field::node(b"then_node", reading.node),
    ])
}

/// The step that is taken back for a look to read the other word.
fn step_removed_for_look(reading: &LookRace) -> (NodeId, u32)
    ensures { result ≡ step_removed_for_look reading.now }
{
    if reading.is_look_first {
        (reading.node, reading.step)
    } else {
        (reading.neighbour, reading.change)
    }
}
