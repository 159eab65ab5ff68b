//! The steps at which a value decided where a node continued.

ghost use Rattle.std.specs.Prelude.{◌≡◌, ◌≤◌, ◌+◌, ◌^◌, ◌<◌, true, Some, IfSome, option_map};
ghost use Rattle.ga_node.specs.Record.{record_of_node};
ghost use Rattle.ga_event.specs.Told.{count_steps};
ghost use Rattle.ga_lab.specs.Machine.{node_at_step};
ghost use Rattle.ga_event.specs.Flow.{IsNodePartInRange, node_part_value};
ghost use Rattle.ga_provenance.specs.Origins.{origin_of_value};
ghost use Rattle.ga_provenance.specs.Deciding.{part_tested_by_opcode, port_code_source_at, brings_port_code_at, has_port_code, tested_opcode_part, part_tested_by_event, step_decision, branch_decision_at};
ghost use Rattle.ga_provenance.specs.inner.{IsDecidingPart, IsMadeOwnEventOfKind, IsTrailNotPastStep};

use crate::origin::{flow_by_trail, kept_step, origin_behind, trail_near};
use crate::trail::CachedWalk;
use crate::value::PartValue;
use crate::value_sources::source_of_sent_word;
use ga_event::{MadeEvent, NodePart, ValueFlow};
use ga_grid::NodeId;
use ga_lab::{Lab, NodeWalk};
use ga_node::{Node, NodePlace, OwnEventKind};
use ga_slots::Op;
use ga_word::Word18;
use std::marker::Model;

/// A step at which a value decided where its node continued.
#[derive(Clone, Copy, PartialEq, Eq, Debug)]
pub struct BranchDecision {
    /// The number of the step.
    pub step: u32,
    /// The step as made.
    pub made: MadeEvent,
    /// The value: R or T before the step, or the instruction word that names where to; of an instruction word that the step took, T of
    /// the writer.
    pub tested: PartValue,
    /// The word of the value that decided the step.
    pub word: Word18,
    /// The step that made the value, or that it was loaded.
    pub source: PartValue,
}

// The part before it that an opcode tests, or that it makes P of.
#[inline(always)]
fn part_tested_by_opcode(op: Op) -> Option<NodePart>
    ensures value { result ≡ part_tested_by_opcode op }
    ensures part { IfSome result IsDecidingPart }
{
    match op {
        Op::Return | Op::Execute | Op::Unext | Op::Next => Some(NodePart::R),
        Op::If | Op::MinusIf => Some(NodePart::T),
        _ => None,
    }
}

// The word in a part that is tested.
#[tactic(auto, unfolding(ga_node::specs::Record::record_of_node))]
fn word_in(node: &Node, part: NodePart) -> u32
    requires { IsDecidingPart part }
    ensures value { result ≡ node_part_value 0 (record_of_node node.now) part }
    ensures fits { result < 2 ^ 18 }
{
    match part {
        NodePart::Data(_) => node.word_of_data_stack(0),
        NodePart::Return(_) => node.word_of_return_stack(0),
        _ => node.get(NodePlace::I),
    }
}

// The T from which an instruction word came over a port by the step at a place.
fn code_by_trail(
    lab: &Lab,
    trail: &mut CachedWalk<'_>,
    node: NodeId,
    place: u32,
) -> Option<PartValue>
    requires trail { IsTrailNotPastStep lab.now node trail.old place }
    ensures value { result ≡ port_code_source_at lab.now node.number place }
    ensures part { IfSome result (λ value. IsNodePartInRange value.part) }
    ensures trail { trail.new ≡ node_at_step lab.now node trail.new.step }
    ensures order { place ≤ trail.new.step }
{
    match flow_by_trail(lab, trail, node, place, NodePart::I) {
        ValueFlow::CopiedFromPart(NodePart::OutsideWord) => source_of_sent_word(
            lab.made_event_of_step(node, place),
        ),
        ValueFlow::CopiedFromPart(_) => None,
        ValueFlow::ComputedFromParts(_) => None,
    }
}

// Whether the step at a place brought an instruction word over a port: false if it brought another; none if it left the word
// that was there.
#[inline(always)]
fn brings_port_code<'l>(
    lab: &'l Lab,
    trail: &CachedWalk<'l>,
    node: NodeId,
    place: u32,
) -> Option<bool>
    requires trail { trail.now ≡ node_at_step lab.now node trail.now.step }
    requires within { place ≤ count_steps node.number lab.now.kept }
    ensures { result ≡ brings_port_code_at lab.now node.number place }
{
    match lab.made_event_of_step(node, place) {
        Some(made) => match made {
            MadeEvent::Own { kind, .. } => match kind {
                OwnEventKind::Fetch => Some(false),
                OwnEventKind::Run(_) => None,
                OwnEventKind::Wait => None,
                OwnEventKind::Stop(_) => None,
            },
            MadeEvent::Pass { .. } => taken(lab, trail, node, place),
        },
        None => None,
    }
}

// True where the step at a place, a pass, brought its node an instruction word; none where it brought none.
fn taken<'l>(lab: &'l Lab, trail: &CachedWalk<'l>, node: NodeId, place: u32) -> Option<bool>
    requires trail { trail.now ≡ node_at_step lab.now node trail.now.step }
    requires within { place ≤ count_steps node.number lab.now.kept }
    ensures { result ≡ option_map (λ value. true) (port_code_source_at lab.now node.number place) }
{
    let mut before = trail_near(lab, trail.walk(), node, node, place);
    match code_by_trail(lab, &mut before, node, place) {
        Some(_) => Some(true),
        None => None,
    }
}

// Whether the instruction word in I right before the step at a place came over a port.
fn has_port_code<'l>(lab: &'l Lab, trail: &CachedWalk<'l>, node: NodeId, place: u32) -> bool
    requires trail { trail.now ≡ node_at_step lab.now node trail.now.step }
    requires within { place ≤ count_steps node.number lab.now.kept }
    ensures { result ≡ has_port_code lab.now node.number place }
{
    let mut step = place;
    'going: while step > 0 {
        step -= 1;
        if let Some(came) = brings_port_code(lab, trail, node, step) {
            return came;
        }
    }
    false
}

// The part by which the opcode was decided that the step at a place ran.
#[inline(always)]
fn tested_opcode_part<'l>(
    lab: &'l Lab,
    trail: &CachedWalk<'l>,
    node: NodeId,
    place: u32,
    op: Op,
) -> Option<NodePart>
    requires trail { trail.now ≡ node_at_step lab.now node trail.now.step }
    requires within { place ≤ count_steps node.number lab.now.kept }
    ensures value { result ≡ tested_opcode_part lab.now node place op }
    ensures part { IfSome result IsDecidingPart }
{
    match op {
        Op::Jump | Op::Call => {
            if has_port_code(lab, trail, node, place) {
                Some(NodePart::I)
            } else {
                None
            }
        }
        _ => part_tested_by_opcode(op),
    }
}

// The part by which an own event was decided, which the step at a place was.
#[inline(always)]
fn part_tested_by_event<'l>(
    lab: &'l Lab,
    trail: &CachedWalk<'l>,
    node: NodeId,
    place: u32,
    kind: OwnEventKind,
) -> Option<NodePart>
    requires trail { trail.now ≡ node_at_step lab.now node trail.now.step }
    requires within { place ≤ count_steps node.number lab.now.kept }
    ensures value { result ≡ part_tested_by_event lab.now node place kind }
    ensures part { IfSome result IsDecidingPart }
{
    match kind {
        OwnEventKind::Run(code) => tested_opcode_part(
            lab,
            trail,
            node,
            place,
            Op::from_code(code % 32),
        ),
        OwnEventKind::Fetch => None,
        OwnEventKind::Wait => None,
        OwnEventKind::Stop(_) => None,
    }
}

// The step that made a value, found by a trail of a node, which is not walked on.
fn source_of<'l>(lab: &'l Lab, trail: &CachedWalk<'l>, node: NodeId, value: PartValue) -> PartValue
    requires part { IsNodePartInRange value.part }
    requires trail { trail.now ≡ node_at_step lab.now node trail.now.step }
    ensures { result ≡ origin_of_value lab.now value }
{
    let step = kept_step(lab, value);
    let mut from = trail_near(lab, trail.walk(), node, value.node, step);
    origin_behind(lab, &mut from, value.node, step, value.part)
}

// The decision of the step at a place, an own event which the word in this part decided. Walks its node back to right before
// it.
#[inline(never)]
fn own_decision<'l>(
    lab: &'l Lab,
    trail: &mut CachedWalk<'l>,
    node: NodeId,
    place: u32,
    made: MadeEvent,
    kind: OwnEventKind,
    part: NodePart,
) -> BranchDecision
    requires trail { IsTrailNotPastStep lab.now node trail.old place }
    requires within { place + 1 ≤ count_steps node.number lab.now.kept }
    requires fits { place + 1 < 2 ^ 32 }
    requires told { IsMadeOwnEventOfKind kind made }
    requires part { IsDecidingPart part }
    requires tested { part_tested_by_event lab.now node place kind ≡ Some part }
    ensures value { Some result ≡ step_decision lab.now node place made }
    ensures trail { trail.new ≡ node_at_step lab.now node trail.new.step }
    ensures order { place ≤ trail.new.step }
{
    trail.walk_back_to(place);
    let word = Word18::from_low_bits(word_in(trail.walk().node(), part));
    let step = place;
    let tested = PartValue { node, step, part };
    BranchDecision {
        step: place + 1,
        made,
        tested,
        word,
        source: source_of(lab, trail, node, tested),
    }
}

// The step at a place, where a value decided it.
fn branch_decision_at<'l>(
    lab: &'l Lab,
    trail: &mut CachedWalk<'l>,
    node: NodeId,
    place: u32,
) -> Option<BranchDecision>
    requires trail { IsTrailNotPastStep lab.now node trail.old place }
    requires within { place + 1 ≤ count_steps node.number lab.now.kept }
    requires fits { place + 1 < 2 ^ 32 }
    ensures value { result ≡ branch_decision_at lab.now node place }
    ensures trail { trail.new ≡ node_at_step lab.now node trail.new.step }
    ensures order { place ≤ trail.new.step }
{
    match lab.made_event_of_step(node, place) {
        Some(made) => match made {
            MadeEvent::Own { kind, .. } => {
                let part = part_tested_by_event(lab, trail, node, place, kind)?;
                Some(own_decision(lab, trail, node, place, made, kind, part))
            }
            // An instruction word that came over a port.
            MadeEvent::Pass { word, .. } => {
                let tested = code_by_trail(lab, trail, node, place)?;
                Some(BranchDecision {
                    step: place + 1,
                    made,
                    tested,
                    word,
                    source: source_of(lab, trail, node, tested),
                })
            }
        },
        None => None,
    }
}

/// The steps of a node at which a value decided where it continued, the newest first: those that test T or R, as `if` and
/// `next`; those that take P from R, `;` and `ex`; those that took an instruction word over a port; and a `jump` or `call` in
/// such a word. A contract sees the machine, the node, and how many steps are still to be searched.
#[derive(Drop)]
pub struct BranchDecisions<'l> {
    lab: &'l Lab,
    node: NodeId,
    trail: CachedWalk<'l>,
    step: u32,
}

impl<'l> Model for BranchDecisions<'l> {
    ghost use Rattle.ga_lab.specs.Machine.{NodeAtStep, node_at_step};
    ghost use Rattle.ga_provenance.specs.inner.{IsDecisionSearchState};

    ghost Value = { NodeAtStep };

    ghost view = { λ d. node_at_step d.lab.now d.node d.step };

    ghost invariant = { λ d. IsDecisionSearchState d.lab.now d.node d.trail d.step };
}

impl<'l> BranchDecisions<'l> {
    ghost use Rattle.std.specs.Prelude.{◌≡◌, ◌<◌, ◌≤◌, ◌+◌, ◌-◌, IfSome};
    ghost use Rattle.ga_lab.specs.Machine.{node_at_step};
    ghost use Rattle.ga_provenance.specs.Deciding.{branch_decision_at, newest_decision};

    /// All before the step to which a node is walked back.
    pub fn before(lab: &'l Lab, near: &NodeWalk<'l>, node: NodeId) -> Self
        requires { near.now ≡ node_at_step lab.now node near.now.step }
        ensures { result ≡ node_at_step lab.now node (near.now.step - 1) }
    {
        BranchDecisions {
            lab,
            node,
            trail: CachedWalk::new(lab, node, near.copy()),
            step: near.step().saturating_sub(1),
        }
    }

    /// Searches back for the newest step that a value decided, and returns it; none if there is none. Takes no memory, and time
    /// linear in the number of steps that it passes, and in the number of those between the step and the one that made the
    /// value. The node is walked back to the step if that was an own event, and no further.
    pub fn next(&mut self) -> Option<BranchDecision>
        ensures value { result ≡ newest_decision self.old.machine self.old.node self.old.step }
        ensures step { IfSome result (λ decision. self.new.step + 1 ≡ decision.step) }
        ensures same { self.new ≡ node_at_step self.old.machine self.old.node self.new.step }
    {
        'going: while self.left() > 0 {
            if let Some(decision) = self.back() {
                return Some(decision);
            }
        }
        None
    }

    // How many steps are still to be looked at.
    fn left(&self) -> u32
        ensures { result ≡ self.now.step }
    {
        self.step
    }

    // Searches one step further back, and returns it if a value decided it.
    fn back(&mut self) -> Option<BranchDecision>
        requires { 0 < self.old.step }
        ensures value { result ≡ branch_decision_at self.old.machine self.old.node self.new.step }
        ensures step { self.new.step + 1 ≡ self.old.step }
        ensures same { self.new ≡ node_at_step self.old.machine self.old.node self.new.step }
    {
        let place = self.step - 1;
        self.step = place;
        branch_decision_at(self.lab, &mut self.trail, self.node, place)
    }
}
