//! Steps that could have come out otherwise.

ghost use Rattle.std.specs.Prelude.{◌≡◌, ◌<◌, ◌^◌, length, ◌++◌, [], ℕ, true, false, is_none, Some, IfSome, IfOk, OnOk, IfErr};
ghost use Rattle.ga_grid.specs.Chip.{records_of_chip};
ghost use Rattle.ga_lab.specs.Machine.{MachineState, chip_of_machine, machine_events_with_looks, has_step};
ghost use Rattle.std.specs.List.{All};
ghost use Rattle.ga_race_detector.specs.Readings.{IsReportedLookRace, HasAllNearLookRaces};
ghost use Rattle.ga_race_detector.specs.inner.Writers.{IsNeighbourKnowledgeTrue};
ghost use Rattle.ga_race_detector.specs.Races.{race_with_offer, races_on_side, races_of_pass, races_of_event, races_of_node, races_of_nodes_below, requested_races, has_look_event, is_next_event_look, has_next_look_event, has_made_or_next_look, first_ready_node};

use crate::adding::add;
use crate::alternatives::{alternative_word, offered_behind};
use crate::left::LeftBeside;
use crate::readings::{LookRace, find_look_races};
use crate::writers::{Writers, may_come, writers_of};
use ga_event::{EventWithLook, next_event};
use ga_grid::{Chip, NodeId, neighbour};
use ga_lab::{Lab, LabFault, MadeEvent};
use ga_ports::Side;
use ga_word::Word18;
use std::alloc::Global;

/// A step by which a node took a word, and another word that it could have taken: after a rollback of the step, the other
/// neighbour waits to write to the node, and a step of that one makes the other pass.
#[derive(Clone, Copy, PartialEq, Eq, Debug)]
pub struct Race {
    /// The node that took the word.
    pub reader: NodeId,
    /// The step by which the reader took the word.
    pub step: u32,
    /// Who wrote the word that the reader took.
    pub writer: NodeId,
    /// The word that the reader took.
    pub word: Word18,
    /// The neighbour that would write another word to the reader.
    pub other: NodeId,
    /// The word that the other neighbour would write.
    pub offered: Word18,
}

/// The steps of a session that could have come out otherwise, and what bears on whether these are all.
#[derive(Debug, Drop)]
pub struct Races {
    /// The races in the order of the nodes' numbers, of a node in that of its steps, of a step in the order right, down, left, up.
    pub list: Vec<Race>,
    /// The looks that could have read another word, in the order of the later of the look and the change.
    pub readings: Vec<LookRace>,
    /// Whether an event of the history looks, or one that comes next: then there may be other races than those listed.
    pub looks: bool,
    /// Whether no node of the chip has an event.
    pub quiet: bool,
}

// A step by which a node took a word.
#[derive(Clone, Copy, PartialEq, Eq, Debug)]
struct Taken {
    reader: NodeId,
    step: u32,
    writer: NodeId,
    word: Word18,
}

// Which neighbours ever waited to write to a node, and how many of their steps a rollback of each of its steps would leave.
#[derive(Drop)]
struct Besides {
    writers: Writers,
    left: LeftBeside,
}

// Adds the race of a step that took a word, of the word that this neighbour would give, where that isn't the writer.
#[tactic(auto, using(std::proofs::lemmas::Result::on_ok_weaker, crate::proofs::Racing::added))]
fn add_from(
    list: &mut Vec<Race>,
    taken: &Taken,
    other: NodeId,
    offer: Option<u32>,
) -> Result<(), LabFault>
    requires { IfSome offer (λ word. word < 2 ^ 18) }
    ensures ok { OnOk result (list.new.items ≡ list.old.items
        ++ race_with_offer taken.now.reader taken.now.step taken.now.writer taken.now.word (Some other.number) offer) }
    ensures err { IfErr result (λ why. why ≡ LabFault.Memory) }
{
    match offer {
        Some(offer) if other.number != taken.writer.number => add(
            list,
            Race {
                reader: taken.reader,
                step: taken.step,
                writer: taken.writer,
                word: taken.word,
                other,
                offered: Word18::from_low_bits(offer),
            },
        ),
        _ => Ok(()),
    }
}

// Adds the race over a side of a step that took a word, unless the side is the writer's: over this nothing else came.
#[tactic(auto, using(crate::proofs::Racing::own_side))]
fn add_over(
    list: &mut Vec<Race>,
    lab: &mut Lab,
    beside: &Besides,
    taken: &Taken,
    side: Side,
) -> Result<(), LabFault>
    requires beside { IsNeighbourKnowledgeTrue lab.old taken.now.reader.number beside.now }
    requires stands { has_step lab.old taken.now.reader.number taken.now.step ≡ true }
    ensures ok { OnOk result (list.new.items ≡ list.old.items
        ++ races_on_side lab.old taken.now.reader taken.now.step taken.now.writer taken.now.word side) }
    ensures err { IfErr result (λ why. why ≡ LabFault.Memory) }
    ensures same { lab.new ≡ lab.old }
{
    if !may_come(lab, &beside.writers, taken.reader, taken.step, side) {
        return Ok(());
    }
    match neighbour(taken.reader, side) {
        Some(other) => {
            if other.number == taken.writer.number {
                return Ok(());
            }
            match beside.left.at(side, taken.step) {
                Some(many) => {
                    let offer = offered_behind(
                        lab,
                        (taken.reader, taken.step),
                        side,
                        (other, many),
                    );
                    add_from(list, taken, other, offer)
                }
                None => match alternative_word(lab, taken.reader, taken.step, side) {
                    Ok(offer) => add_from(list, taken, other, offer),
                    Err(_) => Ok(()),
                },
            }
        }
        None => Ok(()),
    }
}

// Adds the races over all sides of a step that took a word.
fn add_around(
    list: &mut Vec<Race>,
    lab: &mut Lab,
    beside: &Besides,
    taken: &Taken,
) -> Result<(), LabFault>
    requires beside { IsNeighbourKnowledgeTrue lab.old taken.now.reader.number beside.now }
    requires stands { has_step lab.old taken.now.reader.number taken.now.step ≡ true }
    ensures ok { OnOk result (list.new.items ≡ list.old.items
        ++ races_of_pass lab.old taken.now.reader taken.now.step taken.now.writer taken.now.word) }
    ensures err { IfErr result (λ why. why ≡ LabFault.Memory) }
    ensures same { lab.new ≡ lab.old }
{
    add_over(list, lab, beside, taken, Side::Right)?;
    add_over(list, lab, beside, taken, Side::Down)?;
    add_over(list, lab, beside, taken, Side::Left)?;
    add_over(list, lab, beside, taken, Side::Up)?;
    Ok(())
}

// Adds the races of a step of the node, by the step as made.
fn add_told(
    list: &mut Vec<Race>,
    lab: &mut Lab,
    beside: &Besides,
    node: NodeId,
    step: u32,
    made: &MadeEvent,
) -> Result<(), LabFault>
    requires beside { IsNeighbourKnowledgeTrue lab.old node.number beside.now }
    requires stands { has_step lab.old node.number step ≡ true }
    ensures ok { OnOk result (list.new.items ≡ list.old.items ++ races_of_event lab.old node step (Some made.now)) }
    ensures err { IfErr result (λ why. why ≡ LabFault.Memory) }
    ensures same { lab.new ≡ lab.old }
{
    match made {
        MadeEvent::Pass {
            writer,
            reader,
            word,
            ..
        } if reader.number == node.number => {
            let taken = Taken {
                reader: node,
                step,
                writer: *writer,
                word: *word,
            };
            add_around(list, lab, beside, &taken)
        }
        _ => Ok(()),
    }
}

// Whether by this step the node took a word: else it has no race.
fn takes(made: &MadeEvent, node: NodeId) -> bool
    ensures { result ≡ false → (s : MachineState) (step : ℕ) → races_of_event s node step (Some made.now) ≡ [] }
{
    match made {
        MadeEvent::Pass { reader, .. } => reader.number == node.number,
        _ => false,
    }
}

// Whether the node took a word by some step.
fn takes_some(lab: &Lab, node: NodeId) -> bool
    ensures { result ≡ false → races_of_node lab.now node ≡ [] }
{
    let steps = lab.steps(node);
    'steps: for place in 0..steps {
        match lab.made_event_of_step(node, place) {
            Some(made) => {
                if takes(&made, node) {
                    return true;
                }
            }
            None => return true,
        }
    }
    false
}

// Which neighbours ever waited to write to the node, and how many of their steps a rollback of each of its steps would leave.
fn besides_of(
    alloc: Global,
    lab: &Lab,
    causes: &[EventWithLook],
    node: NodeId,
) -> Result<Besides, LabFault>
    requires all { causes.now ≡ machine_events_with_looks lab.now }
    requires few { length causes.now < 2 ^ 32 }
    ensures ok { IfOk result (λ beside. IsNeighbourKnowledgeTrue lab.now node.number beside) }
    ensures err { IfErr result (λ why. why ≡ LabFault.Memory) }
{
    let writers = writers_of(lab, node);
    let left = LeftBeside::of(alloc, causes, node, &writers)?;
    Ok(Besides { writers, left })
}

// Adds the races of a node.
fn add_node(
    alloc: Global,
    list: &mut Vec<Race>,
    lab: &mut Lab,
    causes: &[EventWithLook],
    node: NodeId,
) -> Result<(), LabFault>
    requires all { causes.now ≡ machine_events_with_looks lab.old }
    requires few { length causes.now < 2 ^ 32 }
    ensures ok { OnOk result (list.new.items ≡ list.old.items ++ races_of_node lab.old node) }
    ensures err { IfErr result (λ why. why ≡ LabFault.Memory) }
    ensures same { lab.new ≡ lab.old }
{
    if !takes_some(lab, node) {
        return Ok(());
    }
    let steps = lab.steps(node);
    let beside = besides_of(alloc, lab, causes, node)?;
    'steps: for place in 0..steps {
        match lab.made_event_of_step(node, place) {
            Some(made) => add_told(list, lab, &beside, node, place + 1, &made)?,
            None => return Ok(()),
        }
    }
    Ok(())
}

// The races of all nodes.
fn add_nodes(
    alloc: Global,
    list: &mut Vec<Race>,
    lab: &mut Lab,
    causes: &[EventWithLook],
) -> Result<(), LabFault>
    requires all { causes.now ≡ machine_events_with_looks lab.old }
    requires few { length causes.now < 2 ^ 32 }
    ensures ok { OnOk result (list.new.items ≡ list.old.items ++ races_of_nodes_below lab.old 144) }
    ensures err { IfErr result (λ why. why ≡ LabFault.Memory) }
    ensures same { lab.new ≡ lab.old }
{
    'nodes: for number in 0..144u8 {
        add_node(alloc, list, lab, causes, NodeId::new(number))?;
    }
    Ok(())
}

// Whether one of the events looks.
fn has_look_event(causes: &[EventWithLook]) -> bool
    ensures { result ≡ has_look_event causes.now }
{
    'causes: for cause in causes {
        if cause.look {
            return true;
        }
    }
    false
}

// Whether the next event of the node is one of its own that looks.
fn is_next_event_look(chip: &Chip, node: NodeId) -> bool
    ensures { result ≡ is_next_event_look (records_of_chip chip.now) node.number }
{
    let at = chip.node(node);
    at.own_event_refusal().is_none() && at.reads_io_next()
}

// Whether some node has a next event that is one of its own and looks.
fn has_next_look_event(chip: &Chip) -> bool
    ensures { result ≡ has_next_look_event (records_of_chip chip.now) 144 }
{
    let mut looks = false;
    'nodes: for number in 0..144u8 {
        looks = is_next_event_look(chip, NodeId::new(number)) || looks;
    }
    looks
}

// Whether no node has an event.
fn is_quiet(chip: &Chip) -> bool
    ensures { result ≡ is_none (first_ready_node (records_of_chip chip.now)) }
{
    'nodes: for number in 0..144u8 {
        if next_event(chip, NodeId::new(number)).is_ok() {
            return false;
        }
    }
    true
}

// The events of the history in order.
fn kept_causes(lab: &Lab) -> Result<Vec<EventWithLook>, LabFault>
    ensures ok { IfOk result (λ list. list.items ≡ machine_events_with_looks lab.now) }
    ensures few { IfOk result (λ list. length list.items < 2 ^ 32) }
    ensures err { IfErr result (λ why. why ≡ LabFault.Memory) }
{
    let kept = lab.counts().kept;
    prove!(kept <= u32::MAX);
    match lab.causes() {
        Ok(list) => Ok(list),
        Err(why) => Err(why),
    }
}

// The steps of a node, or of all, by which it took a word where another neighbour could have given it one.
fn find_taken(
    alloc: Global,
    lab: &mut Lab,
    causes: &[EventWithLook],
    only: Option<NodeId>,
) -> Result<Vec<Race>, LabFault>
    requires all { causes.now ≡ machine_events_with_looks lab.old }
    requires few { length causes.now < 2 ^ 32 }
    ensures list { IfOk result (λ list. list.items ≡ requested_races lab.old only) }
    ensures err { IfErr result (λ why. why ≡ LabFault.Memory) }
    ensures same { lab.new ≡ lab.old }
{
    let mut list = Vec::new(alloc);
    match only {
        Some(node) => add_node(alloc, &mut list, lab, causes, node)?,
        None => add_nodes(alloc, &mut list, lab, causes)?,
    }
    Ok(list)
}

/// The steps of a node, or of all, by which it took a word where another neighbour could have given it one. Nothing is removed.
/// Takes memory for the list, and temporarily for a list of all events of the history and four numbers for each step of a node;
/// and time linear in the number of these events, and again so for each neighbour of a node that ever waited to write to it,
/// where there are two. If events look, also memory for some numbers of each event and five of each step of a node, and time
/// linear in the number of events for each node that looks and again for each of its neighbours.
///
/// # Errors
/// `Memory` alone.
pub fn find_races(alloc: Global, lab: &mut Lab, only: Option<NodeId>) -> Result<Races, LabFault>
    ensures list { IfOk result (λ races. races.list.items ≡ requested_races lab.old only) }
    ensures readings { IfOk result (λ races. All (IsReportedLookRace lab.old only) races.readings.items) }
    ensures none_missed { IfOk result (λ races. HasAllNearLookRaces lab.old only races.readings.items) }
    ensures looks { IfOk result (λ races. races.looks ≡ has_made_or_next_look (machine_events_with_looks lab.old) (chip_of_machine lab.old)) }
    ensures quiet { IfOk result (λ races. races.quiet ≡ is_none (first_ready_node (chip_of_machine lab.old))) }
    ensures err { IfErr result (λ why. why ≡ LabFault.Memory) }
    ensures same { lab.new ≡ lab.old }
{
    let causes = kept_causes(lab)?;
    let list = find_taken(alloc, lab, causes.as_slice(), only)?;
    let looks = has_look_event(causes.as_slice());
    let readings = find_look_races(alloc, lab, causes.as_slice(), looks, only)?;
    Ok(Races {
        list,
        readings,
        looks: looks || has_next_look_event(lab.chip()),
        quiet: is_quiet(lab.chip()),
    })
}
