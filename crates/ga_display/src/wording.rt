//! How refusals are worded.
ghost use Rattle.std.specs.Prelude.{◌≡◌, ◌≤◌, length};
ghost use Rattle.ga_display.specs.Texts.{refusal_advice_text, advised_refusal_text, advised_step_refusal_text, missing_step_text, step_or_steps_word, worded_long_line_refusal, worded_refusal_text, worded_step_refusal_text};

use crate::event::refusal_text;
use arrayvec::ArrayVec;
use ga_grid::NodeId;
use ga_lab::LabFault;
use ga_text::{MAX_LINE_BYTES, TextBuffer, push_node, push_number, push_text};

/// How a session words its refusals.
#[derive(Clone, Copy, PartialEq, Eq, Debug)]
pub enum RefusalWording {
    /// By number and word alone, as the debugger does.
    Brief,
    /// Also with what to do, as exploring does.
    Advised,
}

impl RefusalWording {
    /// The text of a refused call.
    #[inline(always)]
    pub fn refusal_in_wording(self, fault: LabFault) -> &'static [u8]
        ensures text { result.now ≡ worded_refusal_text self fault }
        ensures len { length result.now ≤ MAX_LINE_BYTES }
    {
        match self {
            RefusalWording::Brief => refusal_text(fault),
            RefusalWording::Advised => advised_refusal_text(fault),
        }
    }

    /// The refusal of a line of more than 200 bytes.
    pub fn long_line_refusal(self) -> &'static [u8]
        ensures text { result.now ≡ worded_long_line_refusal self }
        ensures len { length result.now ≤ MAX_LINE_BYTES }
    {
        match self {
            RefusalWording::Brief => b"no 32 long\n",
            RefusalWording::Advised => b"no 32 long: a command has at most 200 bytes\n",
        }
    }

    /// The text of a refused call about a step of a node that has `count` steps.
    pub fn step_refusal(self, fault: LabFault, node: NodeId, count: u32) -> TextBuffer
        ensures { result.items ≡ worded_step_refusal_text self node count fault }
    {
        match self {
            RefusalWording::Brief => buffered(refusal_text(fault)),
            RefusalWording::Advised => advised_step_refusal(fault, node, count),
        }
    }
}

/// A text in a buffer.
fn buffered(text: &[u8]) -> TextBuffer
    requires { length text.now ≤ MAX_LINE_BYTES }
    ensures { result.items ≡ text.now }
{
    let mut out = ArrayVec::new();
    push_text(&mut out, text);
    out
}

/// The text of a refused call about a step of a node that has `count` steps, in a session of `explore`.
pub fn advised_step_refusal(fault: LabFault, node: NodeId, count: u32) -> TextBuffer
    ensures { result.items ≡ advised_step_refusal_text node count fault }
{
    match fault {
        LabFault::NoStep => missing_step_refusal(node, count),
        LabFault::Waiting => buffered(advised_refusal_text(LabFault::Waiting)),
        LabFault::Stopped => buffered(advised_refusal_text(LabFault::Stopped)),
        LabFault::Full => buffered(advised_refusal_text(LabFault::Full)),
        LabFault::Memory => buffered(advised_refusal_text(LabFault::Memory)),
        LabFault::Empty => buffered(advised_refusal_text(LabFault::Empty)),
        LabFault::EventNumbersSpent => buffered(advised_refusal_text(LabFault::EventNumbersSpent)),
    }
}

/// The refusal of a step that a node with `count` steps doesn't have, in a session of `explore`.
pub fn missing_step_refusal(node: NodeId, count: u32) -> TextBuffer
    ensures { result.items ≡ missing_step_text node count }
{
    let mut out = ArrayVec::new();
    push_text(&mut out, b"no 6 nostep: ");
    push_node(&mut out, node);
    push_text(&mut out, b" has ");
    push_number(&mut out, u64::from(count));
    push_text(&mut out, step_or_steps_word(count));
    out
}

/// The word after a number of steps, and the line's end.
fn step_or_steps_word(count: u32) -> &'static [u8]
    ensures text { result.now ≡ step_or_steps_word count }
    ensures len { length result.now ≤ 7 }
{
    if count == 1 { b" step\n" } else { b" steps\n" }
}

/// The text of a refused call in a session of `explore`, with what is the case or what to do.
pub fn advised_refusal_text(fault: LabFault) -> &'static [u8]
    ensures text { result.now ≡ advised_refusal_text fault }
    ensures len { length result.now ≤ MAX_LINE_BYTES }
{
    match fault {
        LabFault::Full => {
            b"no 3 full: give a greater --limit; or save, dump, and go on from the dump\n"
        }
        LabFault::Memory => b"no 4 memory: save, dump, and go on from the dump\n",
        LabFault::Waiting => b"no 1 waiting: who shows for whom it waits\n",
        LabFault::Stopped => b"no 2 stopped: whence NNN last shows why\n",
        LabFault::Empty => b"no 5 empty: the history has no event\n",
        LabFault::NoStep => b"no 6 nostep: trace NNN lists the steps\n",
        LabFault::EventNumbersSpent => b"no 7 spent: dump, and go on from the dump\n",
    }
}

/// What to do where a run ends for this reason, and the line's end.
pub fn refusal_advice_text(fault: LabFault) -> &'static [u8]
    ensures text { result.now ≡ refusal_advice_text fault }
    ensures len { length result.now ≤ 80 }
{
    match fault {
        LabFault::Full => b": give a greater --limit; or save, dump, and go on from the dump\n",
        LabFault::Memory => b": save, dump, and go on from the dump\n",
        LabFault::Waiting => b": who shows for whom it waits\n",
        LabFault::Stopped => b": whence NNN last shows why\n",
        LabFault::Empty => b": the history has no event\n",
        LabFault::NoStep => b": trace NNN lists the steps\n",
        LabFault::EventNumbersSpent => b": dump, and go on from the dump\n",
    }
}
