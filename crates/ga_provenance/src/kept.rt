//! The words of a node that are tracked while it is followed back: a register that addresses, or a cell of RAM; and the
//! registers, as they were after the node's steps.

ghost use Rattle.std.specs.Prelude.{◌≡◌, ◌<◌, ◌≤◌, ◌+◌, ◌^◌, ◌&&◌};
ghost use Rattle.std.specs.List.{slice_get};
ghost use Rattle.ga_event.specs.Told.{count_steps};
ghost use Rattle.ga_lab.specs.Machine.{history_of_node, node_at_step};
ghost use Rattle.ga_provenance.specs.Origins.{node_after_steps};
ghost use Rattle.ga_provenance.specs.inner.{tracked_place_in_node, tracked_word_in_node, may_opcode_write_tracked_place, is_unchanged_by_step, HasMachineAllNodes, AreRegistersAfterSteps};
ghost use Rattle.ga_node.specs.Record.{record_of_node};

use ga_event::MadeEvent;
use ga_grid::NodeId;
use ga_lab::{Lab, NodeWalk};
use ga_node::{Node, NodePlace, OwnEventKind};

/// A register that addresses, or a cell of RAM.
#[derive(Clone, Copy, PartialEq, Eq, Debug)]
pub(crate) enum TrackedPlace {
    /// The register A.
    A,
    /// The register B.
    B,
    /// A cell of RAM, 0 to 63.
    Ram(u8),
}

impl TrackedPlace {
    /// The place in a node of a tracked word.
    fn place(self) -> NodePlace
        ensures { result ≡ tracked_place_in_node self }
    {
        match self {
            TrackedPlace::A => NodePlace::A,
            TrackedPlace::B => NodePlace::B,
            TrackedPlace::Ram(cell) => NodePlace::Ram(cell),
        }
    }

    /// Whether the opcode with this code may write the register or the cell: A by `@+`, `!+`, `+*` and `a!`, B by `b!`, a cell by a store.
    #[inline(always)]
    fn is_written_by(self, code: u8) -> bool
        ensures { result ≡ may_opcode_write_tracked_place self code }
    {
        match self {
            TrackedPlace::A => code == 9 || code == 13 || code == 16 || code == 31,
            TrackedPlace::B => code == 30,
            TrackedPlace::Ram(_) => code / 4 == 3,
        }
    }

    /// Whether a step, as made, left the register or the cell as it was, whatever the node's values were.
    #[inline(always)]
    pub fn is_unchanged_by_step(self, told: &Option<MadeEvent>) -> bool
        ensures { result ≡ is_unchanged_by_step self told.now }
    {
        match told {
            Some(MadeEvent::Own { kind, .. }) => match kind {
                OwnEventKind::Run(code) => !self.is_written_by(*code),
                _ => true,
            },
            _ => false,
        }
    }
}

/// Whether a step, as made, left both A and B as they were, whatever the node's values were.
#[inline(always)]
pub(crate) fn both_rest(told: &Option<MadeEvent>) -> bool
    ensures { result ≡ (is_unchanged_by_step TrackedPlace.A told.now && is_unchanged_by_step TrackedPlace.B told.now) }
{
    match told {
        Some(MadeEvent::Own { kind, .. }) => match kind {
            OwnEventKind::Run(code) => !TrackedPlace::A.is_written_by(*code)
                && !TrackedPlace::B.is_written_by(*code),
            _ => true,
        },
        _ => false,
    }
}

/// The tracked word of a node right before the step at a place, if it is `word` after it, by the step's entry.
pub(crate) fn word_before(lab: &Lab, node: NodeId, at: u32, kept: TrackedPlace, word: u32) -> u32
    requires within { at + 1 ≤ count_steps node.number lab.now.kept }
    requires behind { tracked_word_in_node kept (node_after_steps lab.now node.number (at + 1)) ≡ word }
    requires fits { word < 2 ^ 18 }
    ensures value { tracked_word_in_node kept (node_after_steps lab.now node.number at) ≡ result }
    ensures fits { result < 2 ^ 18 }
{
    match lab.overwritten_value(node, at, kept.place()) {
        Some(old) => old,
        None => word,
    }
}

/// The tracked word of a node right before the step at a place: the same as after it if the step as made determines so, else by
/// its entry.
#[inline(always)]
#[tactic(auto, using(crate::proofs::Resting::word_rests))]
pub(crate) fn value_after(
    lab: &Lab,
    node: NodeId,
    at: u32,
    told: &Option<MadeEvent>,
    kept: TrackedPlace,
    word: u32,
) -> u32
    requires told { told.now ≡ slice_get (history_of_node lab.now node.number) at }
    requires within { at + 1 ≤ count_steps node.number lab.now.kept }
    requires whole { HasMachineAllNodes lab.now }
    requires behind { tracked_word_in_node kept (node_after_steps lab.now node.number (at + 1)) ≡ word }
    requires fits { word < 2 ^ 18 }
    ensures value { tracked_word_in_node kept (node_after_steps lab.now node.number at) ≡ result }
    ensures fits { result < 2 ^ 18 }
{
    if kept.is_unchanged_by_step(told) {
        word
    } else {
        word_before(lab, node, at, kept, word)
    }
}

/// A and B of a node.
#[derive(Clone, Copy, PartialEq, Eq, Debug)]
pub(crate) struct Registers {
    pub a: u32,
    pub b: u32,
}

#[tactic(auto, unfolding(ga_node::specs::Record::record_of_node))]
fn a_of(node: &Node) -> u32
    ensures value { result ≡ (record_of_node node.now).a }
    ensures fits { result < 2 ^ 18 }
{
    node.get(NodePlace::A)
}

#[tactic(auto, unfolding(ga_node::specs::Record::record_of_node))]
fn b_of(node: &Node) -> u32
    ensures value { result ≡ (record_of_node node.now).b }
    ensures fits { result < 2 ^ 18 }
{
    node.get(NodePlace::B)
}

/// A and B of a node where it is walked back to.
pub(crate) fn registers_in(lab: &Lab, node: NodeId, walk: &NodeWalk<'_>) -> Registers
    requires { walk.now ≡ node_at_step lab.now node walk.now.step }
    ensures { AreRegistersAfterSteps lab.now node.number walk.now.step result }
{
    // These are called only for their contracts: that the chip has all its nodes, and that the node has this number of steps.
    lab.chip().node(node);
    walk.step();
    let there = walk.node();
    Registers {
        a: a_of(there),
        b: b_of(there),
    }
}

/// A and B of a node right before the step at a place, by the step's entry.
#[inline(never)]
fn registers_kept(lab: &Lab, node: NodeId, at: u32, behind: Registers) -> Registers
    requires { AreRegistersAfterSteps lab.now node.number (at + 1) behind }
    ensures { AreRegistersAfterSteps lab.now node.number at result }
{
    Registers {
        a: word_before(lab, node, at, TrackedPlace::A, behind.a),
        b: word_before(lab, node, at, TrackedPlace::B, behind.b),
    }
}

/// A and B of a node right before the step at a place, by the step as made, or else by its entry.
#[inline(always)]
pub(crate) fn registers_before(
    lab: &Lab,
    node: NodeId,
    at: u32,
    told: &Option<MadeEvent>,
    behind: Registers,
) -> Registers
    requires told { told.now ≡ slice_get (history_of_node lab.now node.number) at }
    requires held { AreRegistersAfterSteps lab.now node.number (at + 1) behind }
    ensures { AreRegistersAfterSteps lab.now node.number at result }
{
    if both_rest(told) {
        behind
    } else {
        registers_kept(lab, node, at, behind)
    }
}

/// A and B of a node after `to` of its steps, from those after `from` of them.
pub(crate) fn registers_at(
    lab: &Lab,
    node: NodeId,
    behind: Registers,
    from: u32,
    to: u32,
) -> Registers
    requires order { to ≤ from }
    requires held { AreRegistersAfterSteps lab.now node.number from behind }
    ensures { AreRegistersAfterSteps lab.now node.number to result }
{
    let mut registers = behind;
    let mut step = from;
    'going: while step > to {
        step -= 1;
        let told = lab.made_event_of_step(node, step);
        registers = registers_before(lab, node, step, &told, registers);
    }
    registers
}
