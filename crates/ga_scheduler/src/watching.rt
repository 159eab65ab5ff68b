//! Some conditions at once; and what an own event needs so that one of them can hold right after it. Most events lack it, and that is seen
//! by a few comparisons, whatever the conditions are.

ghost use Rattle.std.specs.Prelude.{◌≡◌, ◌≤◌, length, Some};
ghost use Rattle.ga_scheduler.specs.Conditions.{first_holding_condition, conditions_before_never};
ghost use Rattle.ga_scheduler.specs.inner.{AreLinkCountsKnown, WereLinkCountsKnownBeforeEvent, newest_event_report, NeedsCoverConditions};

use crate::condition::Condition;
use ga_grid::NodeId;
use ga_lab::{Lab, MadeEvent};
use ga_node::{NodePlace, OwnEventKind};

// The opcodes that store are this one and the three after it: `!p`, `!+`, `!b`, `!`.
const STORE_P: u8 = 0x0c;

const STORES: u32 = 4;

// The number of opcodes that a byte can encode.
const ALL: u32 = 256;

// The slot where a fetch is due, and one that no node has.
const FETCH_DUE: u32 = 4;

const NO_SLOT: u32 = 5;

/// What an own event needs so that one of some conditions can hold right after it: to be a wait or a stop, or one of these.
#[derive(Clone, Copy)]
pub(crate) struct Needs {
    // To be one of this number of opcodes from `!p` on; if these are all, a fetch does too.
    opcodes: u32,
    // Any event after which this slot of its node is next.
    slot: u32,
}

impl Needs {
    ghost use Rattle.std.specs.Prelude.{◌≡◌, ◌≤◌, ◌&&◌, not, true};
    ghost use Rattle.ga_grid.specs.Chip.{node_record_at};
    ghost use Rattle.ga_lab.specs.Machine.{chip_of_machine};
    ghost use Rattle.ga_scheduler.specs.inner.{is_needed_opcode, is_needed_slot_next, event_lacks_needs, NeedsCoverCondition};

    // These needs, and what this condition needs.
    fn with(self, condition: &Condition) -> Self
        ensures covers { NeedsCoverCondition result condition.now }
        ensures opcodes { self.opcodes ≤ result.opcodes }
        ensures fetches { self.slot ≡ 4 → result.slot ≡ 4 }
    {
        match condition {
            Condition::ReachesAddress { .. } => Needs {
                slot: FETCH_DUE,
                ..self
            },
            Condition::WritesRamCell { .. } => self.with_opcodes(STORES),
            Condition::MakesNumberedStep { .. } => self.with_opcodes(ALL),
            Condition::HoldsPlaceValue { .. } => self.with_opcodes(ALL),
            _ => self,
        }
    }

    // These needs, and this number of opcodes from `!p` on.
    fn with_opcodes(self, opcodes: u32) -> Self
        ensures asked { opcodes ≤ result.opcodes }
        ensures opcodes { self.opcodes ≤ result.opcodes }
        ensures fetches { result.slot ≡ self.slot }
    {
        if self.opcodes < opcodes {
            Needs { opcodes, ..self }
        } else {
            self
        }
    }

    // Whether a code is one of the opcodes that are needed.
    #[inline(always)]
    fn has_opcode(&self, code: u8) -> bool
        ensures { result ≡ is_needed_opcode self.now.opcodes code }
    {
        u32::from(code.wrapping_sub(STORE_P)) < self.opcodes
    }

    // Whether the slot that is needed is next in the node.
    #[inline(always)]
    #[tactic(auto, unfolding(ga_node::specs::Record::record_of_node))]
    fn is_needed_slot_next(&self, lab: &Lab, node: NodeId) -> bool
        ensures { result ≡ is_needed_slot_next self.now (node_record_at (chip_of_machine lab.now) node.number) }
    {
        lab.node(node).get(NodePlace::Slot) == self.slot
    }

    // Whether the node's newest event, an opcode with this code, lacks what is needed.
    #[inline(always)]
    fn lacks_opcode(&self, lab: &Lab, node: NodeId, code: u8) -> bool
        ensures { result ≡ (not (is_needed_opcode self.now.opcodes code) && not (is_needed_slot_next self.now (node_record_at (chip_of_machine lab.now) node.number))) }
    {
        !self.has_opcode(code) && !self.is_needed_slot_next(lab, node)
    }

    // Whether the node's newest event, of any kind, lacks what is needed.
    #[inline(never)]
    fn lacks_any(&self, lab: &Lab, node: NodeId, kind: OwnEventKind) -> bool
        ensures { result ≡ event_lacks_needs self.now (node_record_at (chip_of_machine lab.now) node.number) kind }
    {
        match kind {
            OwnEventKind::Run(code) => self.lacks_opcode(lab, node, code),
            OwnEventKind::Fetch => self.opcodes < ALL && !self.is_needed_slot_next(lab, node),
            OwnEventKind::Wait => false,
            OwnEventKind::Stop(_) => false,
        }
    }

    /// Whether the newest event, of this kind and the node's own, lacks what it needs.
    #[inline(always)]
    pub(crate) fn lacks(&self, lab: &Lab, node: NodeId, kind: OwnEventKind) -> bool
        ensures { result ≡ event_lacks_needs self.now (node_record_at (chip_of_machine lab.now) node.number) kind }
    {
        match kind {
            OwnEventKind::Run(code) => self.lacks_opcode(lab, node, code),
            _ => self.lacks_any(lab, node, kind),
        }
    }
}

// What an own event needs so that one of these conditions can hold.
pub(crate) fn needs_of(until: &[Condition]) -> Needs
    ensures { NeedsCoverConditions result until.now }
{
    let mut needs = Needs {
        opcodes: 0,
        slot: NO_SLOT,
    };
    for condition in until {
        needs = needs.with(condition);
    }
    needs
}

/// The maximum number of conditions of a run.
pub const MAX_CONDITIONS: usize = 8;

/// How many words are kept of the link that each of some conditions counts.
pub(crate) type LinkCounts = [u32; MAX_CONDITIONS];

/// The conditions before the first one that holds never.
#[tactic(auto, using(std::proofs::lemmas::Option::slice_get_read, crate::proofs::Needing::asked_before, crate::proofs::Needing::none_more, crate::proofs::Needing::all_asked))]
pub fn conditions_before_never(until: &[Condition]) -> &[Condition]
    ensures asked { result.now ≡ conditions_before_never until.now }
    ensures most { length result.now ≤ length until.now }
{
    for (place, condition) in until.iter().enumerate() {
        if condition.never_holds() {
            return until.split_at(place).0;
        }
    }
    until
}

// How many words are kept of the link that each of some conditions counts.
pub(crate) fn count_all(until: &[Condition], lab: &Lab) -> LinkCounts
    requires { length until.now ≤ 8 }
    ensures size { length result ≡ 8 }
    ensures counted { AreLinkCountsKnown until.now lab.now result }
{
    let mut words = [0; MAX_CONDITIONS];
    for (place, condition) in until.iter().enumerate() {
        words[place] = condition.count(lab);
    }
    words
}

// How many words of the link that each of some conditions counts are in the history just after a pass, given how many were
// before.
fn count_on(until: &[Condition], words: &mut LinkCounts, made: &MadeEvent, lab: &Lab)
    requires most { length until.now ≤ 8 }
    requires size { length words.old ≡ 8 }
    requires counted { WereLinkCountsKnownBeforeEvent until.now lab.now made.now words.old }
    ensures size { length words.new ≡ 8 }
    ensures counted { AreLinkCountsKnown until.now lab.now words.new }
{
    for (place, condition) in until.iter().enumerate() {
        words[place] = condition.count_on(words[place], made, lab);
    }
}

// The place of the first of some conditions that holds just after the newest event, given how many words of their links are in
// the history.
#[inline(never)]
fn first_asked(until: &[Condition], words: &LinkCounts, made: &MadeEvent, lab: &Lab) -> Option<u8>
    requires most { length until.now ≤ 8 }
    requires size { length words.now ≡ 8 }
    requires counted { AreLinkCountsKnown until.now lab.now words.now }
    requires newest { newest_event_report lab.now ≡ Some made.now }
    ensures { result ≡ first_holding_condition until.now made.now lab.now }
{
    for (place, condition) in until.iter().enumerate() {
        if condition.holds_after_made_event(made, lab, words[place]) {
            return Some(place as u8);
        }
    }
    None
}

// The place of the first of some conditions that holds just after the newest event, whose report is copied here: so it needn't
// be in memory if there are no conditions.
#[inline(always)]
fn first_seen(until: &[Condition], words: &LinkCounts, made: &MadeEvent, lab: &Lab) -> Option<u8>
    requires most { length until.now ≤ 8 }
    requires size { length words.now ≡ 8 }
    requires counted { AreLinkCountsKnown until.now lab.now words.now }
    requires newest { newest_event_report lab.now ≡ Some made.now }
    ensures { result ≡ first_holding_condition until.now made.now lab.now }
{
    let seen = *made;
    first_asked(until, words, &seen, lab)
}

// The place of the first of some conditions that holds just after the newest event, given how many words were in the history
// before it, and what an event needs.
#[inline(always)]
#[tactic(auto, using(crate::proofs::Needing::none_of_none, crate::proofs::Needing::counted_of_none))]
pub(crate) fn first_holding_condition(
    until: &[Condition],
    needs: &Needs,
    words: &mut LinkCounts,
    made: &MadeEvent,
    lab: &Lab,
) -> Option<u8>
    requires needed { NeedsCoverConditions needs.now until.now }
    requires most { length until.now ≤ 8 }
    requires size { length words.old ≡ 8 }
    requires counted { WereLinkCountsKnownBeforeEvent until.now lab.now made.now words.old }
    requires newest { newest_event_report lab.now ≡ Some made.now }
    ensures first { result ≡ first_holding_condition until.now made.now lab.now }
    ensures size { length words.new ≡ 8 }
    ensures counted { AreLinkCountsKnown until.now lab.now words.new }
{
    if until.is_empty() {
        return None;
    }
    first_among(until, needs, words, made, lab)
}

// The place of the first of some conditions that holds right after the newest event, where there are conditions. It is apart, since what it
// needs of memory is made ready where it begins.
#[inline(always)]
#[tactic(auto, using(crate::proofs::Needing::none_held_lacking, crate::proofs::WordCounts::none_counted))]
fn first_among(
    until: &[Condition],
    needs: &Needs,
    words: &mut LinkCounts,
    made: &MadeEvent,
    lab: &Lab,
) -> Option<u8>
    requires needed { NeedsCoverConditions needs.now until.now }
    requires most { length until.now ≤ 8 }
    requires size { length words.old ≡ 8 }
    requires counted { WereLinkCountsKnownBeforeEvent until.now lab.now made.now words.old }
    requires newest { newest_event_report lab.now ≡ Some made.now }
    ensures first { result ≡ first_holding_condition until.now made.now lab.now }
    ensures size { length words.new ≡ 8 }
    ensures counted { AreLinkCountsKnown until.now lab.now words.new }
{
    match made {
        // It carries no word.
        MadeEvent::Own { node, kind, .. } => {
            if needs.lacks(lab, *node, *kind) {
                None
            } else {
                first_seen(until, words, made, lab)
            }
        }
        MadeEvent::Pass { .. } => {
            let seen = *made;
            count_on(until, words, &seen, lab);
            first_asked(until, words, &seen, lab)
        }
    }
}
