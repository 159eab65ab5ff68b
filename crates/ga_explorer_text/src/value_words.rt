//! The words of values, read from nodes that are walked back.

ghost use Rattle.std.specs.Prelude.{◌≡◌, ◌≤◌, ◌<◌, ◌-◌, ◌^◌, slice_index};
ghost use Rattle.std.specs.List.{slice_get};
ghost use Rattle.ga_node.specs.Record.{record_of_node};
ghost use Rattle.ga_event.specs.Flow.{node_part_value};
ghost use Rattle.ga_event.specs.Told.{count_steps};
ghost use Rattle.ga_lab.specs.Machine.{history_of_node, node_at_step};
ghost use Rattle.ga_provenance.specs.Origins.{is_made_with_a_or_carry, node_after_steps};
ghost use Rattle.ga_explorer_text.specs.inner.{is_transferred_part, has_only_transferred_word};

use crate::source_suffix::StepContext;
use ga_event::NodePart;
use ga_grid::NodeId;
use ga_lab::{Lab, MadeEvent, NodeWalk};
use ga_node::{Node, NodePlace, OwnEventKind};
use ga_provenance::{PartValue, part_word_by_later_steps};
use ga_word::Word18;

/// The code of `+*`.
pub(crate) const MULTIPLY_STEP: u8 = 16;

/// The code of `+`.
const PLUS: u8 = 20;

/// The word of a value, and A of its node after its step.
#[derive(Clone, Copy, PartialEq, Eq, Debug)]
pub(crate) struct ValueWords {
    pub word: Word18,
    pub a: Word18,
}

/// The word at a place of the data stack, 0 for T; 0 where there is none.
#[tactic(auto, unfolding(ga_node::specs::Record::record_of_node))]
fn data_word(node: &Node, place: u8) -> u32
    ensures value { result ≡ slice_index (record_of_node node.now).d place }
    ensures fits { result < 2 ^ 18 }
{
    node.has_valid_list_sizes();
    if place < 10 {
        node.word_of_data_stack(place)
    } else {
        0
    }
}

/// The word at a place of the return stack, 0 for R; 0 where there is none.
#[tactic(auto, unfolding(ga_node::specs::Record::record_of_node))]
fn return_word(node: &Node, place: u8) -> u32
    ensures value { result ≡ slice_index (record_of_node node.now).r place }
    ensures fits { result < 2 ^ 18 }
{
    node.has_valid_list_sizes();
    if place < 9 {
        node.word_of_return_stack(place)
    } else {
        0
    }
}

/// The word in a cell of RAM; 0 where there is none.
#[tactic(auto, unfolding(ga_node::specs::Record::record_of_node))]
fn ram_word(node: &Node, cell: u8) -> u32
    ensures value { result ≡ slice_index (record_of_node node.now).ram cell }
    ensures fits { result < 2 ^ 18 }
{
    node.has_valid_list_sizes();
    if cell < 64 {
        node.get(NodePlace::Ram(cell))
    } else {
        0
    }
}

/// The word in a cell of ROM; 0 where there is none.
#[tactic(auto, unfolding(ga_node::specs::Record::record_of_node))]
fn rom_word(node: &Node, cell: u8) -> u32
    ensures value { result ≡ slice_index (record_of_node node.now).rom cell }
    ensures fits { result < 2 ^ 18 }
{
    node.has_valid_list_sizes();
    if cell < 64 {
        node.get(NodePlace::Rom(cell))
    } else {
        0
    }
}

/// The word in a part of a node.
#[tactic(auto, unfolding(ga_node::specs::Record::record_of_node))]
fn part_word(node: &Node, part: NodePart) -> u32
    ensures value { result ≡ node_part_value 0 (record_of_node node.now) part }
    ensures fits { result < 2 ^ 18 }
{
    match part {
        NodePart::Data(place) => data_word(node, place),
        NodePart::Return(place) => return_word(node, place),
        NodePart::Ram(cell) => ram_word(node, cell),
        NodePart::Rom(cell) => rom_word(node, cell),
        NodePart::A => node.get(NodePlace::A),
        NodePart::B => node.get(NodePlace::B),
        NodePart::P => node.get(NodePlace::P),
        NodePart::I => node.get(NodePlace::I),
        NodePart::Io => node.get(NodePlace::Io),
        NodePart::Carry => node.get(NodePlace::Carry),
        NodePart::Slot => node.get(NodePlace::Slot),
        NodePart::Wait => node.get(NodePlace::Wait),
        NodePart::Stop => node.get(NodePlace::Stop),
        NodePart::OutsideWord => 0,
    }
}

/// The word in a part of a node that is walked back to its first `place` steps.
pub fn part_word_after_walk_back(
    lab: &Lab,
    node: NodeId,
    place: u32,
    walk: &NodeWalk<'_>,
    part: NodePart,
) -> Word18
    requires within { place ≤ count_steps node.number lab.now.kept }
    requires walk { walk.now ≡ node_at_step lab.now node place }
    ensures { result ≡ node_part_value 0 (node_after_steps lab.now node.number place) part }
{
    Word18::from_low_bits(part_word(walk.node(), part))
}

/// Whether the line of a value has no word but the transferred one.
fn has_only_transferred_word(lab: &Lab, value: PartValue) -> bool
    ensures { result ≡ has_only_transferred_word lab.now value }
{
    if value.step == 0 {
        return false;
    }
    match lab.made_event_of_step(value.node, value.step - 1) {
        Some(MadeEvent::Pass { .. }) => is_transferred_part(value.part),
        Some(MadeEvent::Own { .. }) => false,
        None => false,
    }
}

/// Whether a part gets the transferred word.
fn is_transferred_part(part: NodePart) -> bool
    ensures { result ≡ is_transferred_part part }
{
    match part {
        NodePart::Data(place) => place == 0,
        NodePart::I => true,
        _ => false,
    }
}

/// Whether the step of a value, as made, may have made T with A or the carry.
fn is_made_with_a_or_carry(lab: &Lab, value: PartValue) -> bool
    ensures { result ≡ is_made_with_a_or_carry (slice_get (history_of_node lab.now value.node.number) (value.step - 1)) }
{
    match lab.made_event_of_step(value.node, value.step.saturating_sub(1)) {
        Some(MadeEvent::Own { kind, .. }) => match kind {
            OwnEventKind::Run(code) => code == MULTIPLY_STEP || code == PLUS,
            _ => false,
        },
        Some(MadeEvent::Pass { .. }) => false,
        None => false,
    }
}

impl<'l> StepContext<'l> {
    ghost use Rattle.std.specs.Prelude.{◌≡◌, ◌≤◌, ◌-◌, false};
    ghost use Rattle.std.specs.List.{slice_get};
    ghost use Rattle.ga_event.specs.Flow.{IsNodePartInRange};
    ghost use Rattle.ga_lab.specs.Machine.{history_of_node};
    ghost use Rattle.ga_provenance.specs.Origins.{is_made_with_a_or_carry, origin_of_value, IsMovedValue};
    ghost use Rattle.ga_explorer_text.specs.Whence.{word_of_value, register_a_after_making_step, value_with_word_text, value_origin_text};

    /// The context of a step of a node, or of its last one.
    fn context_of(&self, node: NodeId, step: u32) -> StepContext<'l>
        ensures lab { result.lab.now ≡ self.now.lab.now }
        ensures notes { result.notes.now ≡ self.now.notes.now }
    {
        let place = step.min(self.lab.steps(node));
        StepContext {
            lab: self.lab,
            notes: self.notes,
            node,
            near: self.walk_back_to_step(node, place),
        }
    }

    /// The context of an earlier step of its node.
    fn walked_back_to(self, step: u32) -> StepContext<'l>
        requires { step ≤ self.near.step }
        ensures lab { result.lab.now ≡ self.entry.lab.now }
        ensures notes { result.notes.now ≡ self.entry.notes.now }
    {
        let StepContext {
            lab,
            notes,
            node,
            mut near,
        } = self;
        near.walk_back_to(step);
        StepContext {
            lab,
            notes,
            node,
            near,
        }
    }

    /// Whether the words of a value's line are read from entries of steps, so that no node is walked back for them. It decides only
    /// how long the line takes.
    fn has_words_by_later_steps(&self, value: PartValue, used: PartValue) -> bool {
        if is_made_with_a_or_carry(self.lab, value) {
            let PartValue { node, step, part } = value;
            part_word_by_later_steps(self.lab, node, step, part).is_some()
                && part_word_by_later_steps(self.lab, node, step, NodePart::A).is_some()
        } else {
            let PartValue { node, step, part } = used;
            part_word_by_later_steps(self.lab, node, step, part).is_some()
        }
    }

    /// The context of where a value was used, if the node must be walked back there for a word of its line: by the context of the
    /// line before, if that is of the same node and not earlier, else from here. For any other line the context of the line before.
    pub fn context_of_value_use(
        &self,
        last: StepContext<'l>,
        value: PartValue,
        used: PartValue,
    ) -> StepContext<'l>
        requires lab { last.lab.now ≡ self.now.lab.now }
        requires notes { last.notes.now ≡ self.now.notes.now }
        ensures lab { result.lab.now ≡ self.now.lab.now }
        ensures notes { result.notes.now ≡ self.now.notes.now }
    {
        let PartValue { node, step, .. } = used;
        if has_only_transferred_word(self.lab, value)
            || self.has_words_by_later_steps(value, used)
        {
            last
        } else if last.node == node && step <= last.near.step() {
            last.walked_back_to(step)
        } else {
            self.context_of(node, step)
        }
    }

    /// The word in a part of a node after some of its steps: by the entries of the next few steps if one of these overwrote it, else
    /// the node is walked back.
    pub(crate) fn word_after_steps(&self, node: NodeId, place: u32, part: NodePart) -> Word18
        requires { place ≤ count_steps node.number self.now.lab.now.kept }
        ensures { result ≡ node_part_value 0 (node_after_steps self.now.lab.now node.number place) part }
    {
        match part_word_by_later_steps(self.lab, node, place, part) {
            Some(word) => word,
            None => {
                let walk = self.walk_back_to_step(node, place);
                part_word_after_walk_back(self.lab, node, place, &walk, part)
            }
        }
    }

    /// Reads the words of a value.
    pub fn words_of_value(&self, value: PartValue) -> ValueWords
        ensures word { result.word ≡ word_of_value self.now.lab.now value }
        ensures a { result.a ≡ register_a_after_making_step self.now.lab.now value }
    {
        let PartValue { node, step, part } = value;
        let place = step.min(self.lab.steps(node));
        ValueWords {
            word: self.word_after_steps(node, place, part),
            a: self.word_after_steps(node, place, NodePart::A),
        }
    }

    /// The word of a value that was only moved since the step that made it, unless this may have made T with it.
    fn word_of_use(&self, used: PartValue) -> Word18
        requires part { IsNodePartInRange used.part }
        requires apart { is_made_with_a_or_carry (slice_get (history_of_node self.now.lab.now used.node.number) ((origin_of_value self.now.lab.now used).step - 1)) ≡ false }
        ensures { result ≡ word_of_value self.now.lab.now (origin_of_value self.now.lab.now used) }
    {
        let PartValue { node, step, part } = used;
        let steps = self.lab.steps(node);
        // These are called only for their contracts: that the chip has all its nodes, and a node all its words.
        self.lab.chip().node(node);
        self.lab
            .walk_node_from_step(node, steps)
            .node()
            .has_valid_list_sizes();
        self.word_after_steps(node, step.min(steps), part)
    }

    /// The words of the line of a value that was used there: it has the same word there, unless its step may have made T with it.
    pub fn words_of_value_at_its_use(&self, value: PartValue, used: PartValue) -> ValueWords
        requires { IsMovedValue self.now.lab.now value used }
        ensures { value_with_word_text self.now.lab.now value result.word result.a ≡ value_origin_text self.now.lab.now value }
    {
        let none = Word18::from_low_bits(0);
        if has_only_transferred_word(self.lab, value) {
            ValueWords {
                word: none,
                a: none,
            }
        } else if is_made_with_a_or_carry(self.lab, value) {
            self.words_of_value(value)
        } else {
            ValueWords {
                word: self.word_of_use(used),
                a: none,
            }
        }
    }
}
