//! Looks that could have read another word.

ghost use Rattle.std.specs.Prelude.{◌≡◌, ◌<◌, ◌+◌, ◌^◌, ℕ, List, length, take, Contains, Some, IsSome, IfSome, IfOk, OnOk, IfErr, None, slice_index_or};
ghost use Rattle.std.specs.List.{All};
ghost use Rattle.ga_grid.specs.Grid.{neighbour_number};
ghost use Rattle.ga_grid.specs.Chip.{node_record_at};
ghost use Rattle.ga_event.specs.Apply.{shown_wait_state, shown_neighbour_state, neighbour_states};
ghost use Rattle.ga_event.specs.Told.{count_steps};
ghost use Rattle.ga_event.specs.declared.event.EventWithLook.{EventWithLook};
ghost use Rattle.ga_races.specs.declared.racing_pairs.RacingPair.{RacingPair};
ghost use Rattle.ga_lab.specs.Machine.{chip_of_machine, machine_events_with_looks, earlier_state, state_after_rewind};
ghost use Rattle.ga_race_detector.specs.declared.look_changes.LookChange.{LookChange};
ghost use Rattle.ga_race_detector.specs.Races.{has_look_event};
ghost use Rattle.ga_race_detector.specs.Readings.{IsRealizableLookRace, IsReportedLookRace, HasAllNearLookRaces};
ghost use Rattle.ga_race_detector.specs.inner.Glances.{IsLookRaceAtPositions, IsStepsLeftAround, AreStepsLeftNearby, rollback_step_of_look_change, IsLookChangeAtPositions, IsRequestedLookChange, AreStepsKeptByLookRollback, IsRemovedStepMade, AreKnownStepsLeftCorrect, IsOtherReadWord, AreAllLookRacesFound};

use crate::acts::{kept_accesses, shown_by};
use crate::adding::add;
use crate::around::{Around, StepsLeftNearby};
use crate::look_changes::{LookChange, glance_at, glances_of};
use ga_event::{EventWithLook, is_waiting_to_read, is_waiting_to_write};
use ga_grid::{NodeId, neighbour};
use ga_lab::{Lab, LabFault, MadeEvent};
use ga_node::{NeighbourState, NodePlace, SeenNeighbours, Wait};
use ga_ports::Side;
use ga_races::find_racing_pairs;
use ga_word::Word18;
use std::alloc::Global;

/// A look of a node, and another word that it could have read: after a rollback of the one step, the node looks again, and
/// reads this.
#[derive(Clone, Copy, PartialEq, Eq, Debug)]
pub struct LookRace {
    /// The node that looked.
    pub node: NodeId,
    /// The step by which the node looked.
    pub step: u32,
    /// The word that the node read in `io`.
    pub word: Word18,
    /// A neighbour, which changed what it shows to the node.
    pub neighbour: NodeId,
    /// The step by which the neighbour changed what it shows.
    pub change: u32,
    /// Whether the look came before the change. Then the rollback is of the look, else of the change.
    pub is_look_first: bool,
    /// The other word that the look could have read.
    pub other: Word18,
}

// What a node that waits so shows on a side.
fn shown_wait_state(wait: &Wait, side: Side) -> NeighbourState
    ensures { result ≡ shown_wait_state wait.now side }
{
    if is_waiting_to_read(wait, side) {
        NeighbourState::Reading
    } else if is_waiting_to_write(wait, side) {
        NeighbourState::Writing
    } else {
        NeighbourState::Idle
    }
}

// What a node showed on a side after `steps` of its steps, by the old wait that the next step overwrote, if it did.
#[tactic(auto, using(crate::proofs::Silent::steps_take))]
fn shown_before(lab: &Lab, node: NodeId, steps: u32, side: Side) -> NeighbourState
    ensures { (place : ℕ) → count_steps node.number (take place lab.now.kept) ≡ steps →
        result ≡ shown_wait_state (node_record_at (chip_of_machine (earlier_state lab.now place)) node.number).wait side }
{
    let now = lab.node(node);
    match lab.overwritten_value(node, steps, NodePlace::Wait) {
        Some(code) => shown_by(code, side),
        None => match lab.peek(node, steps) {
            Some(then) => shown_wait_state(&then.wait(), side),
            None => shown_wait_state(&now.wait(), side),
        },
    }
}

// What a node showed on a side after `steps` of its steps: if its next step is its own, it waits for nothing.
fn shown_at(lab: &Lab, node: NodeId, steps: u32, side: Side) -> NeighbourState
    ensures { (place : ℕ) → count_steps node.number (take place lab.now.kept) ≡ steps →
        result ≡ shown_wait_state (node_record_at (chip_of_machine (earlier_state lab.now place)) node.number).wait side }
{
    let now = lab.node(node);
    let _many = lab.steps(node);
    match lab.made_event_of_step(node, steps) {
        Some(MadeEvent::Own { .. }) => NeighbourState::Idle,
        Some(MadeEvent::Pass { .. }) => shown_before(lab, node, steps, side),
        None => shown_wait_state(&now.wait(), side),
    }
}

// The state of the neighbour on a side of the node, if these steps of each neighbour were left.
fn beside_behind(lab: &Lab, around: &Around, node: NodeId, side: Side) -> NeighbourState
    ensures { (b k : ℕ) → IsStepsLeftAround (machine_events_with_looks lab.now) b k node.number around.now →
        result ≡ shown_neighbour_state (chip_of_machine (state_after_rewind lab.now b k)) side (neighbour_number node.number side) }
{
    let _stands = lab.node(node);
    match neighbour(node, side) {
        Some(other) => shown_at(lab, other, around.over(side), side),
        None => NeighbourState::Nobody,
    }
}

// The states of the neighbours on each side of the node, if these steps of each neighbour were left.
#[tactic(auto, unfolding(ga_event::specs::Apply::neighbour_states))]
fn seen_behind(lab: &Lab, around: &Around, node: NodeId) -> SeenNeighbours
    ensures { (b k : ℕ) → IsStepsLeftAround (machine_events_with_looks lab.now) b k node.number around.now →
        result ≡ neighbour_states (chip_of_machine (state_after_rewind lab.now b k)) node.number }
{
    SeenNeighbours {
        right: beside_behind(lab, around, node, Side::Right),
        down: beside_behind(lab, around, node, Side::Down),
        left: beside_behind(lab, around, node, Side::Left),
        up: beside_behind(lab, around, node, Side::Up),
    }
}

// The word that a look would read after a rollback of its step or of the change, if that leaves all steps of its node before
// it: then the look comes next.
fn other_io_word(lab: &Lab, glance: &LookChange, around: &Around) -> Option<Word18>
    requires glance { (near : RacingPair) × IsLookChangeAtPositions lab.now near glance.now }
    requires around { AreStepsKeptByLookRollback (machine_events_with_looks lab.now) glance.now around.now }
    ensures is { IfSome result (λ word. IsOtherReadWord lab.now glance.now word) }
    ensures some { count_steps glance.now.node.number (state_after_rewind lab.now (rollback_step_of_look_change glance.now).0.number (rollback_step_of_look_change glance.now).1).kept + 1 ≡ glance.now.step →
        IsSome result }
{
    let _stands = lab.node(glance.node);
    if around.node >= glance.step || glance.step - around.node != 1 {
        return None;
    }
    Some(seen_behind(lab, around, glance.node).io_word())
}

// A look and a change, as they are reported, if the look reads another word.
fn reading_of(lab: &Lab, glance: &LookChange, around: &Around) -> Option<LookRace>
    requires glance { (near : RacingPair) × IsLookChangeAtPositions lab.now near glance.now }
    requires around { AreStepsKeptByLookRollback (machine_events_with_looks lab.now) glance.now around.now }
    ensures told { IfSome result (λ reading. IsRealizableLookRace lab.now reading) }
    ensures node { IfSome result (λ reading. reading.node ≡ glance.now.node) }
    ensures found { (near : RacingPair) (reading : LookRace) → IsLookChangeAtPositions lab.now near glance.now → IsRealizableLookRace lab.now reading →
        IsLookRaceAtPositions lab.now near reading → result ≡ Some reading }
{
    let _stands = lab.node(glance.node);
    let other = other_io_word(lab, glance, around)?;
    if other.get() == glance.word.get() {
        return None;
    }
    Some(LookRace {
        node: glance.node,
        step: glance.step,
        word: glance.word,
        neighbour: glance.neighbour,
        change: glance.change,
        is_look_first: glance.is_look_first,
        other,
    })
}

// Adds the reading of a look and a change to a list, if the look reads another word.
fn add_reading(
    list: &mut Vec<LookRace>,
    lab: &Lab,
    glance: &LookChange,
    around: &Around,
    only: Option<NodeId>,
) -> Result<(), LabFault>
    requires glance { IsRequestedLookChange lab.now only glance.now }
    requires around { AreStepsKeptByLookRollback (machine_events_with_looks lab.now) glance.now around.now }
    requires told { All (IsReportedLookRace lab.now only) list.old.items }
    ensures told { OnOk result (All (IsReportedLookRace lab.now only) list.new.items) }
    ensures kept { OnOk result ((reading : LookRace) → Contains list.old.items reading → Contains list.new.items reading) }
    ensures found { OnOk result ((near : RacingPair) (reading : LookRace) → IsLookChangeAtPositions lab.now near glance.now → IsReportedLookRace lab.now only reading →
        IsLookRaceAtPositions lab.now near reading → Contains list.new.items reading) }
    ensures err { IfErr result (λ why. why ≡ LabFault.Memory) }
{
    match reading_of(lab, glance, around) {
        Some(reading) => add(list, reading),
        None => Ok(()),
    }
}

// A list for `many` looks, without any known numbers.
fn none_known(alloc: Global, many: usize) -> Result<Vec<Option<Around>>, LabFault>
    ensures size { IfOk result (λ known. length known.items ≡ many) }
    ensures none { IfOk result (λ known. All (λ around. around ≡ None) known.items) }
    ensures err { IfErr result (λ why. why ≡ LabFault.Memory) }
{
    let mut known = match Vec::with_capacity(alloc, many) {
        Ok(known) => known,
        Err(_) => return Err(LabFault::Memory),
    };
    'many: for _place in 0..many {
        add(&mut known, None)?;
    }
    Ok(known)
}

// Stores how many steps around a look would be left, if these lists, of another look, are of the same nodes.
fn note(
    known: &mut Vec<Option<Around>>,
    lists: &StepsLeftNearby,
    of: &LookChange,
    other: &LookChange,
    at: usize,
)
    requires within { at < length known.old.items }
    requires first { 0 < (rollback_step_of_look_change other.now).1 }
    ensures size { length known.new.items ≡ length known.old.items }
    ensures known { (causes : List EventWithLook) (glances : List LookChange) → AreStepsLeftNearby causes (rollback_step_of_look_change of.now).0.number of.now.node.number lists.now →
        IsRemovedStepMade causes other.now → at < length glances → other.now ≡ slice_index_or glances at other.now →
        AreKnownStepsLeftCorrect causes glances known.old.items → AreKnownStepsLeftCorrect causes glances known.new.items }
{
    if other.is_related(of) {
        let step = other.taken().1;
        let around = lists.at(step);
        known[at] = Some(around);
    }
}

// How many steps around a look would be left. If that isn't known yet, it becomes known for each look from its place on with
// the same two nodes, by passes over the events for all of these.
fn around_of(
    alloc: Global,
    causes: &[EventWithLook],
    glances: &[LookChange],
    known: &mut Vec<Option<Around>>,
    place: usize,
) -> Result<Around, LabFault>
    requires few { length causes.now < 2 ^ 32 }
    requires steps { All (IsRemovedStepMade causes.now) glances.now }
    requires within { place < length glances.now }
    requires size { length known.old.items ≡ length glances.now }
    requires known { AreKnownStepsLeftCorrect causes.now glances.now known.old.items }
    ensures around { IfOk result (λ around. (glance : LookChange) → glance ≡ slice_index_or glances.now place glance → AreStepsKeptByLookRollback causes.now glance around) }
    ensures size { OnOk result (length known.new.items ≡ length glances.now) }
    ensures known { OnOk result (AreKnownStepsLeftCorrect causes.now glances.now known.new.items) }
    ensures err { IfErr result (λ why. why ≡ LabFault.Memory) }
{
    if let Some(around) = known[place] {
        return Ok(around);
    }
    let of = glance_at(glances, place);
    let taken = of.taken();
    let lists = StepsLeftNearby::of(alloc, causes, taken.0, of.node)?;
    'others: for at in place..glances.len() {
        let other = glance_at(glances, at);
        note(known, &lists, &of, &other, at);
    }
    Ok(lists.at(taken.1))
}

// The readings of some looks and changes, in order.
fn readings_of(
    alloc: Global,
    lab: &Lab,
    causes: &[EventWithLook],
    glances: &[LookChange],
    only: Option<NodeId>,
) -> Result<Vec<LookRace>, LabFault>
    requires all { causes.now ≡ machine_events_with_looks lab.now }
    requires few { length causes.now < 2 ^ 32 }
    requires glances { All (IsRequestedLookChange lab.now only) glances.now }
    ensures told { IfOk result (λ list. All (IsReportedLookRace lab.now only) list.items) }
    ensures found { IfOk result (λ list. AreAllLookRacesFound lab.now only glances.now list.items) }
    ensures err { IfErr result (λ why. why ≡ LabFault.Memory) }
{
    let _stands = lab.node(NodeId::new(0));
    let mut known = none_known(alloc, glances.len())?;
    let mut list = Vec::new(alloc);
    'glances: for place in 0..glances.len() {
        let glance = glance_at(glances, place);
        let around = around_of(alloc, causes, glances, &mut known, place)?;
        add_reading(&mut list, lab, &glance, &around, only)?;
    }
    Ok(list)
}

/// The looks of a node, or of all, that could have read another word: each with a change before or after it, with nothing
/// between that would keep their order. Nothing is removed. Takes memory temporarily for a list of all events of the history
/// and for some numbers of each, and time linear in these; and again by these, and by what is reported, for each node that
/// looks and each of its neighbours that changes what it shows to that. If no event looks there is none, and nothing is done.
///
/// # Errors
/// `Memory` alone.
pub(crate) fn find_look_races(
    alloc: Global,
    lab: &Lab,
    causes: &[EventWithLook],
    looks: bool,
    only: Option<NodeId>,
) -> Result<Vec<LookRace>, LabFault>
    requires all { causes.now ≡ machine_events_with_looks lab.now }
    requires few { length causes.now < 2 ^ 32 }
    requires looks { looks ≡ has_look_event causes.now }
    ensures told { IfOk result (λ list. All (IsReportedLookRace lab.now only) list.items) }
    ensures found { IfOk result (λ list. HasAllNearLookRaces lab.now only list.items) }
    ensures err { IfErr result (λ why. why ≡ LabFault.Memory) }
{
    if !looks {
        return Ok(Vec::new(alloc));
    }
    let _stands = lab.node(NodeId::new(0));
    let acts = kept_accesses(alloc, lab, causes)?;
    let nears = match find_racing_pairs(alloc, acts.list.as_slice()) {
        Ok(nears) => nears,
        Err(_) => return Err(LabFault::Memory),
    };
    let events = (causes, acts.moments.as_slice());
    let glances = glances_of(alloc, lab, events, nears.as_slice(), only)?;
    readings_of(alloc, lab, causes, glances.as_slice(), only)
}
