//! The calls from which a node did not come back.

ghost use Rattle.std.specs.Prelude.{◌≡◌, ◌<◌, ◌≤◌, ◌+◌, ◌-◌, ◌==◌, ◌&&◌, ◌++◌, Bool, length, map, IfSome, IfNone};
ghost use Rattle.arrayvec.specs.ArrayVec.{array_vec_len};
ghost use Rattle.ga_node.specs.Table.{register_r};
ghost use Rattle.ga_lab.specs.Machine.{node_at_step};
ghost use Rattle.ga_provenance.specs.Origins.{node_after_steps};
ghost use Rattle.ga_dap_views.specs.Calls.{open_call, open_calls};
ghost use Rattle.ga_dap_views.specs.inner.{count_down_return_stack_effect, return_stack_effect_of_opcode, return_stack_effect_of_step, is_call_return_stack_effect, new_call_entry_at_window_start, IsCallWindowBeforeStep};

use crate::spots::{SlotAddress, slot_address_of_walked_back_node};
use arrayvec::ArrayVec;
use ga_grid::NodeId;
use ga_lab::{Lab, MadeEvent, NodeWalk};
use ga_node::OwnEventKind;
use ga_slots::Op;

/// How many places the return stack has.
pub(crate) const RETURN_PLACES: usize = 9;

/// A call from which a node did not come back.
#[derive(Clone, Copy, Default)]
pub struct OpenCall {
    /// The number of the call's step.
    pub step: u32,
    /// The node's position before the call's step; none if its code was in no memory.
    pub at: Option<SlotAddress>,
}

/// What a step does to the entries of the return stack.
#[derive(Clone, Copy)]
pub(crate) enum ReturnStackEffect {
    /// Each entry keeps its place.
    Stays,
    /// A call puts an entry on top.
    Calls,
    /// Another word comes on top.
    Pushes,
    /// The top is removed.
    Pops,
    /// Another word replaces the top.
    Replaces,
}

/// Entries of the return stack that are followed back: `left` of them, from a place on.
#[derive(Clone, Copy)]
struct Window {
    place: u8,
    left: u8,
}

/// What an opcode does to the entries of the return stack; none where R decides it.
fn shift_of(op: Op) -> Option<ReturnStackEffect>
    ensures sure { IfSome result (λ shift. (last : Bool) → shift ≡ return_stack_effect_of_opcode op last) }
    ensures unsure { IfNone result ((last : Bool) → count_down_return_stack_effect last ≡ return_stack_effect_of_opcode op last) }
{
    match op {
        Op::Return | Op::Pop => Some(ReturnStackEffect::Pops),
        Op::Execute => Some(ReturnStackEffect::Replaces),
        Op::Call => Some(ReturnStackEffect::Calls),
        Op::Push => Some(ReturnStackEffect::Pushes),
        Op::Unext | Op::Next => None,
        _ => Some(ReturnStackEffect::Stays),
    }
}

/// Whether R was 0 right before the step at a place. The node is walked back there.
fn counts_out(walk: &mut NodeWalk<'_>, at: u32) -> bool
    requires order { at ≤ walk.old.step }
    ensures value { result ≡ (register_r (node_after_steps walk.old.machine walk.old.node.number at) == 0) }
    ensures walk { walk.new ≡ node_at_step walk.old.machine walk.old.node at }
{
    // Called for its contract: the node has the walk's number of steps.
    walk.step();
    walk.walk_back_to(at);
    walk.node().word_of_return_stack(0) == 0
}

/// What the step at a place does to the entries of the return stack. The node is walked back there only where R decides it.
pub(crate) fn return_stack_effect(
    lab: &Lab,
    walk: &mut NodeWalk<'_>,
    node: NodeId,
    at: u32,
) -> ReturnStackEffect
    requires walk { walk.old ≡ node_at_step lab.now node walk.old.step }
    requires order { at ≤ walk.old.step }
    ensures shift { result ≡ return_stack_effect_of_step lab.now node.number at }
    ensures walk { walk.new ≡ node_at_step lab.now node walk.new.step }
    ensures order { at ≤ walk.new.step }
{
    let Some(
        MadeEvent::Own {
            kind: OwnEventKind::Run(code),
            ..
        },
    ) = lab.made_event_of_step(node, at)
    else {
        return ReturnStackEffect::Stays;
    };
    match shift_of(Op::from_code(code % 32)) {
        Some(shift) => shift,
        None => {
            if counts_out(walk, at) {
                ReturnStackEffect::Pops
            } else {
                ReturnStackEffect::Replaces
            }
        }
    }
}

/// The places of a window's entries before a step that put one on top, which is none of them.
fn before_push(window: Window) -> Window
    requires some { 0 < window.left }
    requires within { window.place + window.left ≤ 9 }
    ensures within { result.place + result.left ≤ 9 }
    ensures room { length (new_call_entry_at_window_start ReturnStackEffect.Calls window.place 0) + result.left ≤ window.left }
    ensures calls { IsCallWindowBeforeStep ReturnStackEffect.Calls window result }
    ensures pushes { IsCallWindowBeforeStep ReturnStackEffect.Pushes window result }
{
    let Window { place, left } = window;
    if place == 0 {
        Window {
            place: 0,
            left: left - 1,
        }
    } else {
        Window {
            place: place - 1,
            left,
        }
    }
}

/// The places of a window's entries before a step that removed the top.
fn before_pop(window: Window) -> Window
    requires some { 0 < window.left }
    requires within { window.place + window.left ≤ 9 }
    ensures within { result.place + result.left ≤ 9 }
    ensures room { result.left ≤ window.left }
    ensures before { IsCallWindowBeforeStep ReturnStackEffect.Pops window result }
{
    let Window { place, left } = window;
    if place + left == 9 {
        Window {
            place: place + 1,
            left: left - 1,
        }
    } else {
        Window {
            place: place + 1,
            left,
        }
    }
}

/// The places of a window's entries before a step that replaced the top.
fn before_exchange(window: Window) -> Window
    requires some { 0 < window.left }
    requires within { window.place + window.left ≤ 9 }
    ensures within { result.place + result.left ≤ 9 }
    ensures room { result.left ≤ window.left }
    ensures before { IsCallWindowBeforeStep ReturnStackEffect.Replaces window result }
{
    let Window { place, left } = window;
    if place == 0 {
        Window {
            place: 1,
            left: left - 1,
        }
    } else {
        window
    }
}

/// The places of a window's entries before a step with this effect on them.
fn window_before(window: Window, shift: ReturnStackEffect) -> Window
    requires some { 0 < window.left }
    requires within { window.place + window.left ≤ 9 }
    ensures within { result.place + result.left ≤ 9 }
    ensures room { length (new_call_entry_at_window_start shift window.place 0) + result.left ≤ window.left }
    ensures before { IsCallWindowBeforeStep shift window result }
{
    match shift {
        ReturnStackEffect::Stays => window,
        ReturnStackEffect::Calls => before_push(window),
        ReturnStackEffect::Pushes => before_push(window),
        ReturnStackEffect::Pops => before_pop(window),
        ReturnStackEffect::Replaces => before_exchange(window),
    }
}

/// Whether a step put a call's entry at the first place of a window.
fn puts_call(window: Window, shift: ReturnStackEffect) -> bool
    ensures { result ≡ (is_call_return_stack_effect shift && window.place == 0) }
{
    match shift {
        ReturnStackEffect::Calls => window.place == 0,
        _ => false,
    }
}

/// Adds the call that a step is, where its entry is the first of a window. The node is walked back to right before it.
fn add_call(
    lab: &Lab,
    walk: &mut NodeWalk<'_>,
    node: NodeId,
    window: Window,
    shift: ReturnStackEffect,
    step: u32,
    calls: &mut ArrayVec<OpenCall, RETURN_PLACES>,
)
    requires walk { walk.old ≡ node_at_step lab.now node walk.old.step }
    requires order { step - 1 ≤ walk.old.step }
    requires some { 0 < step }
    requires room { array_vec_len calls.old < 9 }
    ensures calls { calls.new.items ≡ calls.old.items ++ map (open_call lab.now node) (new_call_entry_at_window_start shift window.place step) }
    ensures len { array_vec_len calls.new ≡ array_vec_len calls.old + length (new_call_entry_at_window_start shift window.place 0) }
    ensures walk { walk.new ≡ node_at_step lab.now node walk.new.step }
    ensures order { step - 1 ≤ walk.new.step }
{
    if !puts_call(window, shift) {
        return;
    }
    let at = slot_address_of_walked_back_node(lab, walk, node, step - 1);
    calls.push(OpenCall { step, at });
}

/// The open calls of a node, the newest first: those whose return addresses are on its return stack. Takes no memory, and time
/// linear in the number of steps that the node made since the oldest.
pub fn open_calls(lab: &Lab, node: NodeId) -> ArrayVec<OpenCall, RETURN_PLACES>
    ensures { result.items ≡ open_calls lab.now node }
{
    let mut calls = ArrayVec::new();
    let mut step = lab.steps(node);
    let mut walk = lab.walk_node_from_step(node, step);
    let mut window = Window { place: 0, left: 9 };
    'going: while step > 0 {
        if window.left == 0 {
            return calls;
        }
        let shift = return_stack_effect(lab, &mut walk, node, step - 1);
        add_call(lab, &mut walk, node, window, shift, step, &mut calls);
        window = window_before(window, shift);
        step -= 1;
    }
    calls
}
