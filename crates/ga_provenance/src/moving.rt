//! The part from which a step moved a value, if the step as made determines it, whatever the node's values were.

ghost use Rattle.std.specs.Prelude.{◌≡◌, ◌<◌, IfSome};
ghost use Rattle.ga_event.specs.Flow.{IsNodePartInRange};
ghost use Rattle.ga_provenance.specs.inner.{data_stack_effect_of_opcode, return_effect_of_opcode, pushed_source_part, data_part_before_pop, data_word_source_part, return_part_before_pop, part_moved_to_return_place, source_part_of_a, source_part_unless_stored, source_part_by_opcode, source_part_by_fetch, source_of_part_after_wait_or_stop, store_target, opcode_stores_outside_part, event_stores_outside_part, source_part_by_event};

use crate::kept::Registers;
use ga_event::{MadeEvent, NodePart};
use ga_node::OwnEventKind;
use ga_ports::{AddressTarget, classify_address};
use ga_slots::Op;

/// What an opcode does to the words of a stack.
#[derive(Clone, Copy, PartialEq, Eq, Debug)]
pub(crate) enum StackEffect {
    /// Each keeps its place.
    Stays,
    /// The top gets another word, the others keep their places.
    Replaces,
    /// A word is pushed.
    Pushes,
    /// The top is popped, and the last gets a copy of another.
    Pops,
    /// The top two become one word.
    Combines,
    /// A test decides.
    Unsure,
}

// What an opcode does to the data stack.
#[inline(always)]
fn data_stack_effect_of_opcode(op: Op) -> StackEffect
    ensures { result ≡ data_stack_effect_of_opcode op }
{
    match op {
        Op::Return | Op::Execute | Op::Jump | Op::Call => StackEffect::Stays,
        Op::Unext | Op::Next | Op::If | Op::MinusIf => StackEffect::Stays,
        Op::FetchP | Op::FetchPlus | Op::FetchB | Op::Fetch => StackEffect::Pushes,
        Op::StoreP | Op::StorePlus | Op::StoreB | Op::Store => StackEffect::Pops,
        Op::MultiplyStep | Op::TwoStar | Op::TwoSlash | Op::Invert => StackEffect::Replaces,
        Op::Plus | Op::And | Op::Or => StackEffect::Combines,
        Op::Dup | Op::Pop | Op::Over | Op::A => StackEffect::Pushes,
        Op::Nop => StackEffect::Stays,
        Op::Drop | Op::Push | Op::BStore | Op::AStore => StackEffect::Pops,
    }
}

// What an opcode does to the return stack.
#[inline(always)]
fn return_effect_of_opcode(op: Op) -> StackEffect
    ensures { result ≡ return_effect_of_opcode op }
{
    match op {
        Op::Return | Op::Pop => StackEffect::Pops,
        Op::Execute => StackEffect::Replaces,
        Op::Call | Op::Push => StackEffect::Pushes,
        Op::Unext | Op::Next => StackEffect::Unsure,
        _ => StackEffect::Stays,
    }
}

// The part whose word an opcode pushes on either stack. What it reads is that of none.
#[inline(always)]
fn pushed(op: Op) -> Option<NodePart>
    ensures value { result ≡ pushed_source_part op }
    ensures part { IfSome result (λ from. IsNodePartInRange from) }
{
    match op {
        Op::Dup | Op::Push => Some(NodePart::T),
        Op::Over => Some(NodePart::S),
        Op::Pop => Some(NodePart::R),
        Op::A => Some(NodePart::A),
        Op::Call => Some(NodePart::P),
        _ => None,
    }
}

// The place of a word of the data stack before a pop.
#[inline(always)]
fn data_part_before_pop(place: u8) -> NodePart
    requires { place < 10 }
    ensures value { result ≡ data_part_before_pop place }
    ensures part { IsNodePartInRange result }
{
    if place == 9 {
        NodePart::Data(2)
    } else {
        NodePart::Data(place + 1)
    }
}

// The part whose word an opcode leaves at a place of the data stack.
#[inline(always)]
fn data_word_source_part(op: Op, place: u8) -> Option<NodePart>
    requires { place < 10 }
    ensures value { result ≡ data_word_source_part op place }
    ensures part { IfSome result (λ from. IsNodePartInRange from) }
{
    match data_stack_effect_of_opcode(op) {
        StackEffect::Stays => Some(NodePart::Data(place)),
        StackEffect::Replaces => {
            if place == 0 {
                None
            } else {
                Some(NodePart::Data(place))
            }
        }
        StackEffect::Pushes => {
            if place == 0 {
                pushed(op)
            } else {
                Some(NodePart::Data(place - 1))
            }
        }
        StackEffect::Pops => Some(data_part_before_pop(place)),
        StackEffect::Combines => {
            if place == 0 {
                None
            } else {
                Some(data_part_before_pop(place))
            }
        }
        StackEffect::Unsure => None,
    }
}

// The place of a word of the return stack before a pop.
#[inline(always)]
fn return_part_before_pop(place: u8) -> NodePart
    requires { place < 9 }
    ensures value { result ≡ return_part_before_pop place }
    ensures part { IsNodePartInRange result }
{
    if place == 8 {
        NodePart::Return(1)
    } else {
        NodePart::Return(place + 1)
    }
}

// The part whose word an opcode leaves at a place of the return stack.
#[inline(always)]
fn part_moved_to_return_place(op: Op, place: u8) -> Option<NodePart>
    requires { place < 9 }
    ensures value { result ≡ part_moved_to_return_place op place }
    ensures part { IfSome result (λ from. IsNodePartInRange from) }
{
    match return_effect_of_opcode(op) {
        StackEffect::Stays => Some(NodePart::Return(place)),
        StackEffect::Replaces => {
            if place == 0 {
                None
            } else {
                Some(NodePart::Return(place))
            }
        }
        StackEffect::Pushes => {
            if place == 0 {
                pushed(op)
            } else {
                Some(NodePart::Return(place - 1))
            }
        }
        StackEffect::Pops => Some(return_part_before_pop(place)),
        StackEffect::Combines => None,
        StackEffect::Unsure => None,
    }
}

// The part whose word an opcode leaves in A.
#[inline(always)]
fn source_part_of_a(op: Op) -> Option<NodePart>
    ensures value { result ≡ source_part_of_a op }
    ensures part { IfSome result (λ from. IsNodePartInRange from) }
{
    match op {
        Op::FetchPlus | Op::StorePlus | Op::MultiplyStep => None,
        Op::AStore => Some(NodePart::T),
        _ => Some(NodePart::A),
    }
}

// What a store may write stays under every other opcode.
#[inline(always)]
fn source_part_unless_stored(op: Op, part: NodePart) -> Option<NodePart>
    requires { IsNodePartInRange part }
    ensures value { result ≡ source_part_unless_stored op part }
    ensures part { IfSome result (λ from. IsNodePartInRange from) }
{
    match op {
        Op::StoreP | Op::StorePlus | Op::StoreB | Op::Store => None,
        _ => Some(part),
    }
}

// The part whose value an opcode leaves in a part. None for P and the slot, which nearly every step makes anew, nor for the
// wait, the stop and the word from outside.
#[inline(always)]
fn source_part_by_opcode(op: Op, part: NodePart) -> Option<NodePart>
    requires { IsNodePartInRange part }
    ensures value { result ≡ source_part_by_opcode op part }
    ensures part { IfSome result (λ from. IsNodePartInRange from) }
{
    match part {
        NodePart::Data(place) => data_word_source_part(op, place),
        NodePart::Return(place) => part_moved_to_return_place(op, place),
        NodePart::Ram(_) | NodePart::Io => source_part_unless_stored(op, part),
        NodePart::Rom(_) | NodePart::I => Some(part),
        NodePart::A => source_part_of_a(op),
        NodePart::B => { if op == Op::BStore { None } else { Some(part) } }
        NodePart::Carry => { if op == Op::Plus { None } else { Some(part) } }
        NodePart::P | NodePart::Slot | NodePart::Wait | NodePart::Stop | NodePart::OutsideWord =>
            None,
    }
}

// The part whose value a fetch leaves in a part. None for P, I and the slot, which a fetch makes anew, nor for the wait, the
// stop and the word from outside.
#[inline(always)]
fn source_part_by_fetch(part: NodePart) -> Option<NodePart>
    requires { IsNodePartInRange part }
    ensures value { result ≡ source_part_by_fetch part }
    ensures part { IfSome result (λ from. IsNodePartInRange from) }
{
    match part {
        NodePart::P
        | NodePart::I
        | NodePart::Slot
        | NodePart::Wait
        | NodePart::Stop
        | NodePart::OutsideWord => None,
        _ => Some(part),
    }
}

// The part whose value a wait or a stop, which replaces the whole event, leaves in a part.
#[inline(always)]
fn source_of_part_after_wait_or_stop(part: NodePart) -> Option<NodePart>
    requires { IsNodePartInRange part }
    ensures value { result ≡ source_of_part_after_wait_or_stop part }
    ensures part { IfSome result (λ from. IsNodePartInRange from) }
{
    match part {
        NodePart::Wait | NodePart::Stop | NodePart::OutsideWord => None,
        _ => Some(part),
    }
}

// What the address of a store by A or B names, of the opcode with this code.
#[inline(always)]
fn store_target(code: u8, before: Registers) -> Option<AddressTarget>
    ensures { result ≡ store_target code before }
{
    match code {
        13 | 15 => Some(classify_address(before.a)),
        14 => Some(classify_address(before.b)),
        _ => None,
    }
}

// Whether an opcode with this code is a store by A or B that leaves a cell as it was, where these hold this before it.
#[inline(never)]
fn opcode_stores_outside_part(code: u8, before: Registers, part: NodePart) -> bool
    ensures { result ≡ opcode_stores_outside_part code before part }
{
    match part {
        NodePart::Ram(cell) => match store_target(code, before) {
            Some(AddressTarget::Ram(other)) => other != cell,
            Some(_) => true,
            None => false,
        },
        _ => false,
    }
}

/// Whether a step, as made, ran a store by A or B that leaves a cell as it was, where A and B were these before it.
#[inline(always)]
pub(crate) fn event_stores_outside_part(
    told: &Option<MadeEvent>,
    before: Registers,
    part: NodePart,
) -> bool
    ensures { result ≡ event_stores_outside_part told.now before part }
{
    match told {
        Some(
            MadeEvent::Own {
                kind: OwnEventKind::Run(code),
                ..
            },
        ) => opcode_stores_outside_part(*code, before, part),
        _ => false,
    }
}

/// The part from which a step moved a value to this one, if the step as made determines it whatever the node's values were.
#[inline(always)]
pub(crate) fn source_part_by_event(told: &Option<MadeEvent>, part: NodePart) -> Option<NodePart>
    requires { IsNodePartInRange part }
    ensures value { result ≡ source_part_by_event told.now part }
    ensures part { IfSome result (λ from. IsNodePartInRange from) }
{
    match told {
        Some(MadeEvent::Own { kind, .. }) => match kind {
            OwnEventKind::Run(code) => {
                if *code < 32 {
                    source_part_by_opcode(Op::from_code(*code), part)
                } else {
                    None
                }
            }
            OwnEventKind::Fetch => source_part_by_fetch(part),
            OwnEventKind::Wait | OwnEventKind::Stop(_) => source_of_part_after_wait_or_stop(part),
        },
        _ => None,
    }
}

/// The place of the data stack from which a step moved a word to this one, if the step as made determines it.
#[inline(always)]
pub(crate) fn data_place(told: &Option<MadeEvent>, place: u8) -> Option<u8>
    requires { place < 10 }
    ensures value { IfSome result (λ from. source_part_by_event told.now (NodePart.Data place) ≡ Some (NodePart.Data from)) }
    ensures within { IfSome result (λ from. from < 10) }
{
    match source_part_by_event(told, NodePart::Data(place)) {
        Some(NodePart::Data(from)) => Some(from),
        _ => None,
    }
}
