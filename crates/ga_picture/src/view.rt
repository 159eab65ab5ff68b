//! The picture of a lab's kept events.

ghost use Rattle.std.specs.Prelude.{ℕ, Bool, ◌≡◌, ◌↔◌, ◌⊎◌, ◌<◌, ◌≤◌, ◌^◌, false, length, None, Err, IfOk, IfErr, IfSome, min, string_bytes};
ghost use Rattle.std.specs.List.{All};
ghost use Rattle.ga_grid.specs.Chip.{records_of_chip};
ghost use Rattle.ga_causal.specs.Dependence.{is_node_flagged};
ghost use Rattle.ga_causal.specs.Steps.{count_touching_events};
ghost use Rattle.ga_lab.specs.Machine.{machine_events_with_looks};
ghost use Rattle.ga_race_detector.specs.Races.{requested_races};
ghost use Rattle.ga_race_detector.specs.Readings.{IsReportedLookRace, HasAllNearLookRaces};
ghost use Rattle.ga_picture.specs.Picture.{IsPicture, IsPictureText, AreRaceMarks, is_node_ready, has_requested_steps, has_optional_step, event_position_of_step, optional_step_position};
ghost use Rattle.ga_picture.specs.Items.{picture_items};
ghost use Rattle.ga_picture.specs.inner.{AreItemsOfEvents, AreEventFactsKnownBetween, AreItemsAndIndependentNodes, ArePlainEventsByReadyNodes, picture_facts_of_events};

use crate::independent::{IndependentNode, tally_of};
use crate::item::{EventFacts, PictureItem, items, plain_events};
use crate::placing::{Drawing, PictureRow, lay_out_drawing};
use crate::race_marks::{RaceMark, VisibleRows, all_race_marks};
use crate::shade::find_event_shades;
use crate::text::format_svg;
use ga_causal::{EventWithLook, OutOfMemoryError, position_of_step};
use ga_console::StepSelector;
use ga_event::{Event, touches};
use ga_grid::{CHIP_NODE_COUNT, Chip, NodeId};
use ga_lab::{Lab, LabFault, MadeEvent};
use ga_race_detector::{Races, find_races};
use ga_scheduler::find_idle_nodes;
use std::alloc::Global;

/// A step: its node, and its number, counted from 1, or the last.
pub type PictureStep = (NodeId, StepSelector);

/// What a picture is to show of the kept events.
#[derive(Clone, Copy, PartialEq, Eq)]
pub struct PictureView {
    /// The step whose causes are highlighted.
    pub cause: Option<PictureStep>,
    /// The step of which all is marked that a rollback would take.
    pub rewind: Option<PictureStep>,
    /// How many of the oldest events are left out.
    pub from: u32,
    /// How many of the oldest events are looked at: the last of these is the last one drawn.
    pub to: u32,
    /// Whether idle nodes and those that work by themselves have lines too.
    pub all: bool,
    /// Whether events are left out that are neither causes of the first step nor removed with the second, if one is given.
    pub only: bool,
    /// From how many events on a run of fetches and opcodes of a node is drawn as one; 0 for none.
    pub fold: u32,
    /// Whether steps that could have come out otherwise are marked.
    pub races: bool,
}

/// The picture of the kept events of a lab. Takes memory and time by how many events are kept, not by how many are drawn.
///
/// # Errors
/// `NoStep`, where a node has no such step; then `Memory`.
pub fn draw_lab_history(lab: &Lab, view: PictureView) -> Result<Drawing, LabFault>
    ensures ok { IfOk result (λ drawing. IsPicture lab.now view drawing) }
    ensures refused { (result ≡ Err LabFault.NoStep) ↔ (has_requested_steps lab.now view ≡ false) }
    ensures err { IfErr result (λ why. (why ≡ LabFault.NoStep) ⊎ (why ≡ LabFault.Memory)) }
{
    if !has_requested_steps(lab, view) {
        return Err(LabFault::NoStep);
    }
    match drawn(lab, view) {
        Ok(drawing) => Ok(drawing),
        Err(_) => Err(LabFault::Memory),
    }
}

/// The picture of the kept events of a lab, as text in SVG.
///
/// # Errors
/// `NoStep`, where a node has no such step; then `Memory`.
pub fn picture_svg_text(lab: &mut Lab, view: PictureView) -> Result<String, LabFault>
    ensures ok { IfOk result (λ text. IsPictureText lab.old view (string_bytes text)) }
    ensures refused { (result ≡ Err LabFault.NoStep) ↔ (has_requested_steps lab.old view ≡ false) }
    ensures err { IfErr result (λ why. (why ≡ LabFault.NoStep) ⊎ (why ≡ LabFault.Memory)) }
    ensures same { lab.new ≡ lab.old }
{
    if !has_requested_steps(lab, view) {
        return Err(LabFault::NoStep);
    }
    match written(lab, view) {
        Ok(text) => Ok(text),
        Err(_) => Err(LabFault::Memory),
    }
}

/// Whether the requested steps exist.
fn has_requested_steps(lab: &Lab, view: PictureView) -> bool
    ensures { result ≡ has_requested_steps lab.now view }
{
    stands(lab, view.cause) && stands(lab, view.rewind)
}

/// Whether a step exists, if one is given.
fn stands(lab: &Lab, step: Option<PictureStep>) -> bool
    ensures { result ≡ has_optional_step lab.now step }
{
    match step {
        Some((node, which)) => lab.has_step((node, which.resolve(lab, node))),
        None => true,
    }
}

/// The picture of the kept events of a lab.
fn drawn(lab: &Lab, view: PictureView) -> Result<Drawing, OutOfMemoryError>
    ensures { IfOk result (λ drawing. IsPicture lab.now view drawing) }
{
    let causes = kept_causes(lab)?;
    let alloc = *causes.allocator();
    let idle = find_idle_nodes(lab);
    let ready = ready_nodes(lab.chip());
    let Listed {
        items,
        independent_nodes,
    } = picture_items(alloc, causes.as_slice(), &idle, ready, view)?;
    lay_out_drawing(alloc, items.as_slice(), independent_nodes, view.fold)
}

/// The kept events, so few that a place has room in 32 bits.
fn kept_causes(lab: &Lab) -> Result<Vec<EventWithLook>, OutOfMemoryError>
    ensures kept { IfOk result (λ causes. causes.items ≡ machine_events_with_looks lab.now) }
    ensures few { IfOk result (λ causes. length causes.items < 2 ^ 32) }
{
    let kept = lab.counts().kept;
    prove!(kept <= u32::MAX);
    match lab.causes() {
        Ok(causes) => Ok(causes),
        Err(_) => Err(OutOfMemoryError),
    }
}

/// The nodes that neither wait nor are stopped.
fn ready_nodes(chip: &Chip) -> [bool; 144]
    ensures { (n : ℕ) → n < 144 → is_node_flagged result n ≡ is_node_ready (records_of_chip chip.now) n }
{
    let mut ready = [false; 144];
    'nodes: for number in 0..144u8 {
        ready[number as usize] = chip.node(NodeId::new(number)).own_event_refusal().is_none();
    }
    ready
}

/// The text of the picture of a lab's kept events.
fn written(lab: &mut Lab, view: PictureView) -> Result<String, OutOfMemoryError>
    ensures ok { IfOk result (λ text. IsPictureText lab.old view (string_bytes text)) }
    ensures same { lab.new ≡ lab.old }
{
    let drawing = drawn(lab, view)?;
    let marks = race_marks(lab, drawing.rows.as_slice(), view)?;
    let causes = kept_causes(lab)?;
    let alloc = *causes.allocator();
    let (from, to) = span(causes.len(), view);
    let Ok(mades) = reports(alloc, lab, causes.as_slice(), from, to) else {
        return Err(OutOfMemoryError);
    };
    match format_svg(alloc, &drawing, marks.as_slice(), mades.as_slice()) {
        Ok(text) => Ok(text),
        Err(_) => Err(OutOfMemoryError),
    }
}

/// The marks of the races, if requested.
fn race_marks(
    lab: &mut Lab,
    rows: &[PictureRow],
    view: PictureView,
) -> Result<Vec<RaceMark>, OutOfMemoryError>
    ensures ok { IfOk result (λ marks. AreRaceMarks lab.old view rows.now marks.items) }
    ensures same { lab.new ≡ lab.old }
{
    let causes = kept_causes(lab)?;
    let alloc = *causes.allocator();
    if !view.races {
        return Ok(Vec::new(alloc));
    }
    let races = found_races(alloc, lab)?;
    let shown = VisibleRows {
        events: causes.as_slice(),
        start: span(causes.len(), view).0 as u32,
        rows,
    };
    all_race_marks(
        alloc,
        shown,
        races.list.as_slice(),
        races.readings.as_slice(),
    )
}

/// The passes and looks that could have come out otherwise.
fn found_races(alloc: Global, lab: &mut Lab) -> Result<Races, OutOfMemoryError>
    ensures list { IfOk result (λ races. races.list.items ≡ requested_races lab.old None) }
    ensures readings { IfOk result (λ races. All (IsReportedLookRace lab.old None) races.readings.items) }
    ensures none_missed { IfOk result (λ races. HasAllNearLookRaces lab.old None races.readings.items) }
    ensures same { lab.new ≡ lab.old }
{
    match find_races(alloc, lab, None) {
        Ok(races) => Ok(races),
        Err(_) => Err(OutOfMemoryError),
    }
}

/// Events as the picture takes them, and the nodes that are left out, since they work by themselves.
#[derive(Drop)]
struct Listed {
    items: Vec<PictureItem>,
    independent_nodes: Vec<IndependentNode>,
}

/// These events as the picture takes them.
fn picture_items(
    alloc: Global,
    events: &[EventWithLook],
    idle: &[bool; 144],
    ready: [bool; 144],
    view: PictureView,
) -> Result<Listed, OutOfMemoryError>
    requires { length events.now < 2 ^ 32 }
    ensures { IfOk result (λ listed. AreItemsOfEvents events.now (is_node_flagged ready) (is_node_flagged idle.now) view listed.items.items listed.independent_nodes.items) }
{
    let cause = place(events, view.cause);
    let rewind = place(events, view.rewind);
    let shades = find_event_shades(alloc, events, cause, rewind)?;
    let plain = plain_events(alloc, events, ready)?;
    let facts = EventFacts {
        events,
        shades: shades.as_slice(),
        plain: plain.as_slice(),
        idle,
        cause,
        rewind,
    };
    let (from, to) = span(events.len(), view);
    listed_between(alloc, facts, view, from, to)
}

/// The events from one place on and up to another.
fn listed_between(
    alloc: Global,
    facts: EventFacts<'_>,
    view: PictureView,
    from: usize,
    to: usize,
) -> Result<Listed, OutOfMemoryError>
    requires { AreEventFactsKnownBetween facts from to }
    ensures { (ready : ℕ → Bool) → ArePlainEventsByReadyNodes ready facts.entry →
        IfOk result (λ listed. AreItemsAndIndependentNodes (picture_items (picture_facts_of_events facts.entry ready) view from to) listed.items.items listed.independent_nodes.items) }
{
    let tally = tally_of(facts, view, from, to);
    let alone = tally.independent_nodes();
    let items = items(alloc, facts, &alone, view, from, to)?;
    let independent_nodes = tally.told(alloc, &alone)?;
    Ok(Listed {
        items,
        independent_nodes,
    })
}

/// The first and the last event to draw, of `count`.
fn span(count: usize, view: PictureView) -> (usize, usize)
    ensures end { result.1 ≡ min count view.to }
    ensures start { result.0 ≡ min result.1 view.from }
    ensures order { result.0 ≤ result.1 }
    ensures within { result.1 ≤ count }
{
    let to = count.min(view.to as usize);
    (to.min(view.from as usize), to)
}

/// The place of a step, where one is given.
fn place(events: &[EventWithLook], step: Option<PictureStep>) -> Option<u32>
    requires { length events.now < 2 ^ 32 }
    ensures value { result ≡ optional_step_position events.now step }
    ensures within { IfSome result (λ place. place < length events.now) }
{
    match step {
        Some((node, which)) => place_of(events, node, which),
        None => None,
    }
}

/// The place of a step of the node.
fn place_of(events: &[EventWithLook], node: NodeId, which: StepSelector) -> Option<u32>
    requires { length events.now < 2 ^ 32 }
    ensures value { result ≡ event_position_of_step events.now node which }
    ensures within { IfSome result (λ place. place < length events.now) }
{
    match which {
        StepSelector::Number(step) => position_of_step(events, node, step),
        StepSelector::Last => position_of_step(events, node, count_touching(events, node) as u32),
    }
}

/// The number of events that touch a node.
fn count_touching(events: &[EventWithLook], node: NodeId) -> usize
    ensures value { result ≡ count_touching_events node.number events.now }
    ensures within { result ≤ length events.now }
{
    events
        .iter()
        .filter(|event| touches(event.event, node))
        .count()
}

/// The events of the history from one place on, in order, as reports: each is the next one of the node that made the event, of
/// a pass its writer's. Ends at an event without a report.
///
/// # Errors
/// `Memory` alone.
fn reports(
    alloc: Global,
    lab: &Lab,
    events: &[EventWithLook],
    from: usize,
    to: usize,
) -> Result<Vec<MadeEvent>, LabFault> {
    let mut told = Vec::new(alloc);
    for number in 0..CHIP_NODE_COUNT as u8 {
        let history = lab.history(NodeId::new(number))?;
        if told.push(history).is_err() {
            return Err(LabFault::Memory);
        }
    }
    let mut steps = [0u32; CHIP_NODE_COUNT];
    let mut reports = Vec::new(alloc);
    for (place, event) in events.iter().take(to).enumerate() {
        let (node, step) = next_step(&mut steps, event.event);
        if place >= from {
            let Some(history) = told.get(node.index()) else {
                return Ok(reports);
            };
            let Some(made) = history.get(step as usize) else {
                return Ok(reports);
            };
            if reports.push(*made).is_err() {
                return Err(LabFault::Memory);
            }
        }
    }
    Ok(reports)
}

/// Counts the steps of an event, and returns its node, of a pass its writer, and how many steps that node had before.
fn next_step(steps: &mut [u32; 144], event: Event) -> (NodeId, u32) {
    match event {
        Event::Own(node) => (node, count(steps, node)),
        Event::Pass { writer, reader, .. } => {
            count(steps, reader);
            (writer, count(steps, writer))
        }
    }
}

/// Counts a step of a node, and returns how many it had before.
fn count(steps: &mut [u32; 144], node: NodeId) -> u32 {
    let before = steps[node.index()];
    steps[node.index()] = before.saturating_add(1);
    before
}
