//! Looks with the changes that race with them, as they are reported, except for the other word.

ghost use Rattle.std.specs.Prelude.{◌≡◌, ◌<◌, ◌+◌, ◌^◌, ℕ, true, false, length, take, Contains, Some, IsSome, IfSome, slice_index_or, IfOk, OnOk, IfErr};
ghost use Rattle.std.specs.List.{All};
ghost use Rattle.ga_event.specs.Apply.{replay};
ghost use Rattle.ga_event.specs.Told.{count_steps};
ghost use Rattle.ga_causal.specs.Dependence.{event_at};
ghost use Rattle.ga_lab.specs.Machine.{MachineState, chip_of_machine, machine_events_with_looks};
ghost use Rattle.ga_race_detector.specs.declared.readings.LookRace.{LookRace};
ghost use Rattle.ga_race_detector.specs.Readings.{IsReportedLookRace};
ghost use Rattle.ga_race_detector.specs.inner.Glances.{AreEventStepCounts, AreEventsStepCounts, IsLookRaceAtPositions, neighbour_node_of_event, rollback_step_of_look_change, IsLookChangeAtPositions, IsRequestedLookChange, IsRacingPairListed, AreReportedPairsListed, HaveSameRollbackNodes};

use crate::adding::add;
use crate::moments::{StepCounts, moment_at};
use ga_event::{Event, EventWithLook};
use ga_grid::NodeId;
use ga_lab::{Lab, LabFault};
use ga_races::{RacingPair, are_neighbours};
use ga_word::Word18;
use std::alloc::Global;

/// A look and a change of what is shown to it.
#[derive(Clone, Copy, PartialEq, Eq, Debug)]
pub(crate) struct LookChange {
    /// The node that looked.
    pub(crate) node: NodeId,
    /// The step by which the node looked.
    pub(crate) step: u32,
    /// The word that the node read.
    pub(crate) word: Word18,
    /// The neighbour that changed what it shows.
    pub(crate) neighbour: NodeId,
    /// The step by which the neighbour changed this.
    pub(crate) change: u32,
    /// Whether the look came first.
    pub(crate) is_look_first: bool,
}

impl LookChange {
    /// The step that a rollback removes for the look to read another word: its own if it came first, else the change.
    pub(crate) fn taken(&self) -> (NodeId, u32)
        ensures { result ≡ rollback_step_of_look_change self.now }
    {
        if self.is_look_first {
            (self.node, self.step)
        } else {
            (self.neighbour, self.change)
        }
    }

    /// Whether both looks are of one node, and the removed steps for both are of one node.
    pub(crate) fn is_related(&self, other: &LookChange) -> bool
        ensures { result ≡ true → HaveSameRollbackNodes self.now other.now }
    {
        self.node.number == other.node.number && self.taken().0.number == other.taken().0.number
    }
}

// The node of a look.
fn looking(cause: &EventWithLook) -> Option<NodeId>
    ensures node { IfSome result (λ node. cause.now ≡ record { event = Event.Own node; look = true }) }
    ensures found { (node : NodeId) → cause.now ≡ record { event = Event.Own node; look = true } → result ≡ Some node }
{
    match cause.event {
        Event::Own(node) => { if cause.look { Some(node) } else { None } }
        Event::Pass { .. } => None,
    }
}

// The node of an event that is a neighbour of another.
fn neighbour_node_of_event(event: Event, node: NodeId) -> NodeId
    ensures { result ≡ neighbour_node_of_event event node.number }
{
    match event {
        Event::Own(own) => own,
        Event::Pass { writer, reader, .. } => {
            if are_neighbours(node, writer) {
                writer
            } else {
                reader
            }
        }
    }
}

// The number of steps that the node of an event which is a neighbour of another had made before the event.
fn steps_beside(cause: &EventWithLook, moment: &StepCounts, node: NodeId) -> u32
    ensures { (s : MachineState) (p : ℕ) → AreEventStepCounts s p cause.now moment.now →
        result ≡ count_steps (neighbour_node_of_event cause.now.event node.number).number (take p s.kept) }
{
    match cause.event {
        Event::Own(_) => moment.first,
        Event::Pass { writer, .. } => {
            if are_neighbours(node, writer) {
                moment.first
            } else {
                moment.last
            }
        }
    }
}

// The look and the change at these places.
fn glance_of(
    lab: &Lab,
    causes: &[EventWithLook],
    moments: &[StepCounts],
    near: RacingPair,
) -> Option<LookChange>
    requires all { causes.now ≡ machine_events_with_looks lab.now }
    requires moments { AreEventsStepCounts lab.now causes.now moments.now }
    requires few { length causes.now < 2 ^ 32 }
    requires look { near.look < length causes.now }
    requires change { near.change < length causes.now }
    ensures is { IfSome result (λ glance. IsLookChangeAtPositions lab.now near glance) }
    ensures found { (node : NodeId) → event_at (machine_events_with_looks lab.now) near.look ≡ record { event = Event.Own node; look = true } → IsSome result }
    ensures led { replay lab.now.load lab.now.kept ≡ Some (chip_of_machine lab.now) }
{
    let _stands = lab.node(NodeId::new(0));
    let look = causes[near.look as usize];
    let change = causes[near.change as usize];
    let at = moment_at(moments, near.look as usize);
    let by = moment_at(moments, near.change as usize);
    let node = looking(&look)?;
    let before = steps_beside(&change, &by, node);
    Some(LookChange {
        node,
        step: at.first + 1,
        word: at.word,
        neighbour: neighbour_node_of_event(change.event, node),
        change: before + 1,
        is_look_first: near.look < near.change,
    })
}

/// The look and change at a place of a list.
pub(crate) fn glance_at(glances: &[LookChange], place: usize) -> LookChange
    requires { place < length glances.now }
    ensures { result ≡ slice_index_or glances.now place result }
{
    glances[place]
}

// Whether a node is the requested one, or all were requested.
fn is_asked(only: Option<NodeId>, node: NodeId) -> bool
    ensures asked { result ≡ true → IfSome only (λ it. node ≡ it) }
    ensures other { result ≡ false → IfSome only (λ it. node ≡ it) → ⊥ }
{
    match only {
        Some(it) => it.number == node.number,
        None => true,
    }
}

// Adds the look and the change at these places, if the node that looked was requested.
fn add_near(
    list: &mut Vec<LookChange>,
    lab: &Lab,
    events: (&[EventWithLook], &[StepCounts]),
    near: RacingPair,
    only: Option<NodeId>,
) -> Result<(), LabFault>
    requires all { events.0.now ≡ machine_events_with_looks lab.now }
    requires moments { AreEventsStepCounts lab.now events.0.now events.1.now }
    requires few { length events.0.now < 2 ^ 32 }
    requires told { All (IsRequestedLookChange lab.now only) list.old.items }
    ensures told { OnOk result (All (IsRequestedLookChange lab.now only) list.new.items) }
    ensures kept { OnOk result ((glance : LookChange) → Contains list.old.items glance → Contains list.new.items glance) }
    ensures found { OnOk result ((reading : LookRace) → IsReportedLookRace lab.now only reading → IsLookRaceAtPositions lab.now near reading → IsRacingPairListed lab.now near list.new.items) }
    ensures err { IfErr result (λ why. why ≡ LabFault.Memory) }
{
    let (causes, moments) = events;
    if near.look as usize >= causes.len() || near.change as usize >= causes.len() {
        return Ok(());
    }
    match glance_of(lab, causes, moments, near) {
        Some(glance) if is_asked(only, glance.node) => add(list, glance),
        _ => Ok(()),
    }
}

/// The looks of a node, or of all, with the changes near to them, in the order of `nears`. Takes memory and time by these.
///
/// # Errors
/// `Memory` alone.
pub(crate) fn glances_of(
    alloc: Global,
    lab: &Lab,
    events: (&[EventWithLook], &[StepCounts]),
    nears: &[RacingPair],
    only: Option<NodeId>,
) -> Result<Vec<LookChange>, LabFault>
    requires all { events.0.now ≡ machine_events_with_looks lab.now }
    requires moments { AreEventsStepCounts lab.now events.0.now events.1.now }
    requires few { length events.0.now < 2 ^ 32 }
    ensures told { IfOk result (λ list. All (IsRequestedLookChange lab.now only) list.items) }
    ensures found { IfOk result (λ list. AreReportedPairsListed lab.now only nears.now list.items) }
    ensures err { IfErr result (λ why. why ≡ LabFault.Memory) }
{
    let mut list = Vec::new(alloc);
    'nears: for near in nears {
        add_near(&mut list, lab, events, *near, only)?;
    }
    Ok(list)
}
