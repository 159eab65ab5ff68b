//! The history of a lab, each event with its changes of what neighbours are shown.

ghost use Rattle.std.specs.Prelude.{◌≡◌, ◌≢◌, ◌<◌, ◌+◌, ℕ, true, Some, take, slice_index, length, IfOk, IfErr};
ghost use Rattle.ga_node.specs.Io.{io_word};
ghost use Rattle.ga_node.specs.State.{wait_of_code, IsWaitCode};
ghost use Rattle.ga_grid.specs.Grid.{neighbour_number};
ghost use Rattle.ga_ports.specs.declared.side.Side.{Side};
ghost use Rattle.ga_grid.specs.Chip.{node_record_at};
ghost use Rattle.ga_event.specs.Apply.{waits_to_write_side, shown_wait_state, shown_neighbour_state, neighbour_states, replay};
ghost use Rattle.ga_event.specs.Told.{count_steps};
ghost use Rattle.ga_races.specs.HappensBefore.{events_with_looks_of_trace_actions, trace_actions_of_events};
ghost use Rattle.ga_races.specs.Acts.{trace_actions_of_accesses};
ghost use Rattle.ga_races.specs.inner.{shown_state_number, is_shown_state_changed, sides_of_changed_shown_state, AreActionListsAlike};
ghost use Rattle.ga_lab.specs.Machine.{MachineState, chip_of_machine, machine_events_with_looks, earlier_state};
ghost use Rattle.ga_race_detector.specs.inner.Glances.{HadWaitAndSteps, AllNodesHadWaitsAndSteps, IsEventAtPosition, IsAccessOfEventAtPosition, AreEventStepCounts, AreEventsStepCounts};

use crate::adding::add;
use crate::moments::{StepCounts, event_node_or_reader, event_node_or_writer, no_moments};
use crate::writers::reads_by;
use ga_event::{Event, EventWithLook};
use ga_grid::{NodeId, neighbour};
use ga_lab::{Lab, LabFault};
use ga_node::{NeighbourState, NodePlace, SeenNeighbours};
use ga_ports::Side;
use ga_races::{EventAccess, SideSet};
use ga_word::Word18;
use std::alloc::Global;

/// The events of the history in order.
#[derive(Drop)]
pub(crate) struct KeptAccesses {
    /// The events of the history in order, each with its changes of what the neighbours of its nodes are shown.
    pub(crate) list: Vec<EventAccess>,
    /// The state before each event of the history.
    pub(crate) moments: Vec<StepCounts>,
}

// Of each node the number of its wait, and how many steps it had made, after a number of the events of the history.
#[derive(Drop)]
struct Behind {
    waits: [u32; 144],
    steps: [u32; 144],
}

// An empty set of sides.
fn no_sides() -> SideSet {
    SideSet {
        right: false,
        down: false,
        left: false,
        up: false,
    }
}

// Whether a node whose wait has this number waits to write the side.
fn writes_by(wait: u32, side: Side) -> bool
    requires { IsWaitCode wait }
    ensures { result ≡ waits_to_write_side (wait_of_code wait) side }
{
    match side {
        Side::Right => wait == 56,
        Side::Down => wait == 52,
        Side::Left => wait == 50,
        Side::Up => wait == 49,
    }
}

// What a node whose wait has this number shows on a side: 0 nothing, 1 that it waits to read there, 2 that it waits to write.
fn shown(wait: u32, side: Side) -> u8
    requires { IsWaitCode wait }
    ensures { result ≡ shown_state_number (shown_wait_state (wait_of_code wait) side) }
{
    if reads_by(wait, side) {
        1
    } else if writes_by(wait, side) {
        2
    } else {
        0
    }
}

/// What a node whose wait has this number shows on a side.
pub(crate) fn shown_by(code: u32, side: Side) -> NeighbourState
    requires { IsWaitCode code }
    ensures { result ≡ shown_wait_state (wait_of_code code) side }
{
    if reads_by(code, side) {
        NeighbourState::Reading
    } else if writes_by(code, side) {
        NeighbourState::Writing
    } else {
        NeighbourState::Idle
    }
}

// Whether a node shows something else on a side with the one number of its wait than with the other.
fn is_shown_state_changed(before: u32, behind: u32, side: Side) -> bool
    requires before { IsWaitCode before }
    requires behind { IsWaitCode behind }
    ensures { result ≡ is_shown_state_changed (wait_of_code before) (wait_of_code behind) side }
{
    shown(before, side) != shown(behind, side)
}

// On which sides a node shows something else with the one number of its wait than with the other.
fn differ(before: u32, behind: u32) -> SideSet
    requires before { IsWaitCode before }
    requires behind { IsWaitCode behind }
    ensures { result ≡ sides_of_changed_shown_state (wait_of_code before) (wait_of_code behind) }
{
    SideSet {
        right: is_shown_state_changed(before, behind, Side::Right),
        down: is_shown_state_changed(before, behind, Side::Down),
        left: is_shown_state_changed(before, behind, Side::Left),
        up: is_shown_state_changed(before, behind, Side::Up),
    }
}

// The number of the wait of a node before its step at this position; `behind` is that after the step.
fn wait_before(lab: &Lab, node: NodeId, at: u32, behind: u32) -> u32
    requires { IsWaitCode behind }
    ensures valid { IsWaitCode result }
    ensures value { (p q : ℕ) → count_steps node.number (take p lab.now.kept) ≡ at → count_steps node.number (take q lab.now.kept) ≡ at + 1 →
        (node_record_at (chip_of_machine (earlier_state lab.now q)) node.number).wait ≡ wait_of_code behind →
        (node_record_at (chip_of_machine (earlier_state lab.now p)) node.number).wait ≡ wait_of_code result }
{
    match lab.overwritten_value(node, at, NodePlace::Wait) {
        Some(before) => before,
        None => behind,
    }
}

// The number of the current wait of a node.
fn wait_now(lab: &Lab, node: NodeId) -> u32
    ensures value { wait_of_code result ≡ (node_record_at (chip_of_machine lab.now) node.number).wait }
    ensures valid { IsWaitCode result }
{
    let at = lab.node(node);
    at.wait().code()
}

impl Behind {
    // The current wait and the steps of each node of the lab.
    fn of(lab: &Lab) -> Self
        ensures { (p : ℕ) → take p lab.now.kept ≡ lab.now.kept → AllNodesHadWaitsAndSteps lab.now p result.waits result.steps }
    {
        let mut waits = [0u32; 144];
        let mut steps = [0u32; 144];
        'nodes: for number in 0..144u8 {
            let node = NodeId::new(number);
            let at = node.index();
            let wait = wait_now(lab, node);
            let step = lab.steps(node);
            waits[at] = wait;
            steps[at] = step;
        }
        Behind { waits, steps }
    }

    // The number of the wait of a node.
    fn wait_at(&self, node: NodeId) -> u32
        ensures { result ≡ slice_index self.now.waits node.number }
    {
        self.waits[node.index()]
    }

    // How many steps a node had made.
    fn steps_at(&self, node: NodeId) -> u32
        ensures { result ≡ slice_index self.now.steps node.number }
    {
        self.steps[node.index()]
    }

    // Puts another wait and another number of steps to a node.
    fn put(&mut self, node: NodeId, wait: u32, step: u32)
        ensures wait { slice_index self.new.waits node.number ≡ wait }
        ensures step { slice_index self.new.steps node.number ≡ step }
        ensures waits { (m : ℕ) → m ≢ node.number → slice_index self.new.waits m ≡ slice_index self.old.waits m }
        ensures others { (m : ℕ) → m ≢ node.number → slice_index self.new.steps m ≡ slice_index self.old.steps m }
    {
        let at = node.index();
        self.waits[at] = wait;
        self.steps[at] = step;
    }

    // The state of a node's neighbour on a side.
    fn beside(&self, node: NodeId, side: Side) -> NeighbourState
        requires { (m : ℕ) → m < 144 → IsWaitCode (slice_index self.now.waits m) }
        ensures { (s : MachineState) (p : ℕ) → AllNodesHadWaitsAndSteps s p self.now.waits self.now.steps →
            result ≡ shown_neighbour_state (chip_of_machine (earlier_state s p)) side (neighbour_number node.number side) }
    {
        match neighbour(node, side) {
            Some(other) => shown_by(self.wait_at(other), side),
            None => NeighbourState::Nobody,
        }
    }

    // The states of a node's neighbours on each side.
    #[tactic(auto, unfolding(ga_event::specs::Apply::neighbour_states))]
    fn seen(&self, node: NodeId) -> SeenNeighbours
        requires { (m : ℕ) → m < 144 → IsWaitCode (slice_index self.now.waits m) }
        ensures { (s : MachineState) (p : ℕ) → AllNodesHadWaitsAndSteps s p self.now.waits self.now.steps → result ≡ neighbour_states (chip_of_machine (earlier_state s p)) node.number }
    {
        SeenNeighbours {
            right: self.beside(node, Side::Right),
            down: self.beside(node, Side::Down),
            left: self.beside(node, Side::Left),
            up: self.beside(node, Side::Up),
        }
    }

    // The word that a node reads in `io`, if it looks.
    fn word(&self, node: NodeId, look: bool) -> Word18
        requires { (m : ℕ) → m < 144 → IsWaitCode (slice_index self.now.waits m) }
        ensures { look ≡ true → (s : MachineState) (p : ℕ) → AllNodesHadWaitsAndSteps s p self.now.waits self.now.steps →
            result ≡ io_word (neighbour_states (chip_of_machine (earlier_state s p)) node.number) }
    {
        if !look {
            return Word18::from_low_bits(0);
        }
        self.seen(node).io_word()
    }

    // How many steps the nodes of an event had made before it, and the word that it reads in `io` if it looks.
    fn moment(&self, cause: &EventWithLook) -> StepCounts
        requires { (m : ℕ) → m < 144 → IsWaitCode (slice_index self.now.waits m) }
        ensures { (s : MachineState) (p : ℕ) → AllNodesHadWaitsAndSteps s p self.now.waits self.now.steps → AreEventStepCounts s p cause.now result }
    {
        let node = event_node_or_writer(cause.event);
        let other = event_node_or_reader(cause.event);
        let first = self.steps_at(node);
        let last = self.steps_at(other);
        let word = self.word(node, cause.look);
        StepCounts { first, last, word }
    }

    // Walks back over the last step of a node, and returns on which sides it changed what the node shows.
    #[tactic(auto, using(crate::proofs::Acting::stood_before))]
    fn back(&mut self, lab: &Lab, node: NodeId) -> SideSet
        requires steps { 0 < slice_index self.old.steps node.number }
        requires valid { IsWaitCode (slice_index self.old.waits node.number) }
        ensures here { (p q : ℕ) →
            HadWaitAndSteps lab.now node.number q (slice_index self.old.waits node.number) (slice_index self.old.steps node.number) →
            count_steps node.number (take q lab.now.kept) ≡ count_steps node.number (take p lab.now.kept) + 1 →
            HadWaitAndSteps lab.now node.number p (slice_index self.new.waits node.number) (slice_index self.new.steps node.number) }
        ensures sides { result ≡ sides_of_changed_shown_state (wait_of_code (slice_index self.new.waits node.number)) (wait_of_code (slice_index self.old.waits node.number)) }
        ensures waits { (m : ℕ) → m ≢ node.number → slice_index self.new.waits m ≡ slice_index self.old.waits m }
        ensures others { (m : ℕ) → m ≢ node.number → slice_index self.new.steps m ≡ slice_index self.old.steps m }
    {
        let behind = self.wait_at(node);
        let had = self.steps_at(node);
        let step = had - 1;
        let before = wait_before(lab, node, step, behind);
        self.put(node, before, step);
        differ(before, behind)
    }

    // Walks back over the last event, which is this one, an own event of the node.
    fn back_own(&mut self, lab: &Lab, cause: EventWithLook, node: NodeId) -> EventAccess
        requires own { cause.event ≡ Event.Own node }
        requires replays { replay lab.now.load lab.now.kept ≡ Some (chip_of_machine lab.now) }
        requires stood { (p : ℕ) × IsEventAtPosition lab.now p cause × AllNodesHadWaitsAndSteps lab.now (p + 1) self.old.waits self.old.steps }
        ensures cause { result.cause ≡ cause }
        ensures stood { (p : ℕ) → IsEventAtPosition lab.now p cause → AllNodesHadWaitsAndSteps lab.now (p + 1) self.old.waits self.old.steps →
            AllNodesHadWaitsAndSteps lab.now p self.new.waits self.new.steps }
        ensures changes { (p : ℕ) → IsEventAtPosition lab.now p cause → AllNodesHadWaitsAndSteps lab.now (p + 1) self.old.waits self.old.steps → IsAccessOfEventAtPosition lab.now p result }
    {
        let first = self.back(lab, node);
        EventAccess {
            cause,
            first,
            second: no_sides(),
        }
    }

    // Walks back over the last event, which is this one, a pass from the writer to the reader.
    fn back_pass(
        &mut self,
        lab: &Lab,
        cause: EventWithLook,
        writer: NodeId,
        reader: NodeId,
    ) -> EventAccess
        requires pass { (side : Side) × (cause.event ≡ Event.Pass writer reader side) }
        requires replays { replay lab.now.load lab.now.kept ≡ Some (chip_of_machine lab.now) }
        requires stood { (p : ℕ) × IsEventAtPosition lab.now p cause × AllNodesHadWaitsAndSteps lab.now (p + 1) self.old.waits self.old.steps }
        ensures cause { result.cause ≡ cause }
        ensures stood { (p : ℕ) → IsEventAtPosition lab.now p cause → AllNodesHadWaitsAndSteps lab.now (p + 1) self.old.waits self.old.steps →
            AllNodesHadWaitsAndSteps lab.now p self.new.waits self.new.steps }
        ensures changes { (p : ℕ) → IsEventAtPosition lab.now p cause → AllNodesHadWaitsAndSteps lab.now (p + 1) self.old.waits self.old.steps → IsAccessOfEventAtPosition lab.now p result }
    {
        let first = self.back(lab, writer);
        let second = self.back(lab, reader);
        EventAccess {
            cause,
            first,
            second,
        }
    }

    // Walks back over the last event, which is this one, and returns it with its changes of what neighbours are shown.
    fn back_by(&mut self, lab: &Lab, cause: EventWithLook) -> EventAccess
        requires replays { replay lab.now.load lab.now.kept ≡ Some (chip_of_machine lab.now) }
        requires stood { (p : ℕ) × IsEventAtPosition lab.now p cause × AllNodesHadWaitsAndSteps lab.now (p + 1) self.old.waits self.old.steps }
        ensures cause { result.cause ≡ cause }
        ensures stood { (p : ℕ) → IsEventAtPosition lab.now p cause → AllNodesHadWaitsAndSteps lab.now (p + 1) self.old.waits self.old.steps →
            AllNodesHadWaitsAndSteps lab.now p self.new.waits self.new.steps }
        ensures changes { (p : ℕ) → IsEventAtPosition lab.now p cause → AllNodesHadWaitsAndSteps lab.now (p + 1) self.old.waits self.old.steps → IsAccessOfEventAtPosition lab.now p result }
    {
        match cause.event {
            Event::Own(node) => self.back_own(lab, cause, node),
            Event::Pass { writer, reader, .. } => self.back_pass(lab, cause, writer, reader),
        }
    }
}

// The event, with no sides yet on which it changed what is shown.
fn plain(cause: &EventWithLook) -> EventAccess
    ensures { result.cause ≡ cause.now }
{
    EventAccess {
        cause: *cause,
        first: no_sides(),
        second: no_sides(),
    }
}

// The events, each with no sides yet on which it changed what is shown.
#[tactic(auto, using(crate::proofs::Acting::plain_more, std::proofs::lemmas::List::take_all))]
fn plain_acts(alloc: Global, causes: &[EventWithLook]) -> Result<Vec<EventAccess>, LabFault>
    ensures causes { IfOk result (λ acts. events_with_looks_of_trace_actions (trace_actions_of_accesses acts.items) ≡ causes.now) }
    ensures err { IfErr result (λ why. why ≡ LabFault.Memory) }
{
    let mut acts = match Vec::with_capacity(alloc, causes.len()) {
        Ok(acts) => acts,
        Err(_) => return Err(LabFault::Memory),
    };
    'causes: for cause in causes {
        let act = plain(cause);
        add(&mut acts, act)?;
    }
    Ok(acts)
}

/// The events of the history in order, each with its changes of what the neighbours of its nodes are shown, and with the state
/// before it. Takes memory and time linear in their number.
///
/// # Errors
/// `Memory` alone.
pub(crate) fn kept_accesses(
    alloc: Global,
    lab: &Lab,
    causes: &[EventWithLook],
) -> Result<KeptAccesses, LabFault>
    requires all { causes.now ≡ machine_events_with_looks lab.now }
    ensures size { IfOk result (λ acts. length acts.list.items ≡ length causes.now) }
    ensures alike { IfOk result (λ acts. AreActionListsAlike (trace_actions_of_accesses acts.list.items) (trace_actions_of_events lab.now.load lab.now.kept)) }
    ensures moments { IfOk result (λ acts. AreEventsStepCounts lab.now causes.now acts.moments.items) }
    ensures err { IfErr result (λ why. why ≡ LabFault.Memory) }
{
    let _stands = lab.node(NodeId::new(0));
    let mut acts = plain_acts(alloc, causes)?;
    let mut moments = no_moments(alloc, causes.len())?;
    let mut behind = Behind::of(lab);
    let mut place = acts.len();
    'back: while place > 0 {
        place -= 1;
        let cause = causes[place];
        let act = behind.back_by(lab, cause);
        let moment = behind.moment(&cause);
        acts[place] = act;
        moments[place] = moment;
    }
    Ok(KeptAccesses {
        list: acts,
        moments,
    })
}
