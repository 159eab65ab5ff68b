//! The control words: loops and jumps ahead.

ghost use Rattle.std.specs.Prelude.{◌≡◌, Ok};
ghost use Rattle.ga_parser.specs.Asking.{state_with_added_request, begin_loop as begin_row, begin_jump_ahead as ahead_row, end_loop, end_jump_ahead, end_outer_loop, control_word_requests as control_row, jump_to_label as jump_row, open_control_word_line, ◌▷◌};
ghost use Rattle.ga_parser.specs.inner.Drafting.{Answers, parse_state_of_builder};
ghost use Rattle.ga_parser.specs.declared.vocabulary.Control.TheVariants.{Else as ElseWord, Then as ThenWord, NextAround as NextAroundWord, Unext as UnextWord, While as WhileWord, Repeat as RepeatWord, For as ForWord};

use super::draft::RequestBuilder;
use super::fault::{SourceFault, SourceFaultCause, source_fault_at};
use super::item::{AssemblyItem, AssemblyRequest};
use super::vocabulary::Control;
use ga_slots::Op;

/// What a control word left open, with its line and its label.
#[derive(Clone, Copy)]
pub(crate) enum Open {
    /// A loop from the label on.
    Loop(u32, usize),
    /// A jump ahead to the label.
    JumpToLaterLabel(u32, usize),
}

impl Open {
    /// The line of the control word.
    pub(crate) fn line(self) -> u32
        ensures { result ≡ open_control_word_line self }
    {
        match self {
            Open::Loop(line, _) | Open::JumpToLaterLabel(line, _) => line,
        }
    }
}

impl<'s> RequestBuilder<'s> {
    /// What a control word asks for.
    pub(crate) fn control_word(&mut self, line: u32, word: Control) -> Result<(), SourceFault<'s>>
        ensures { Answers result (control_row (parse_state_of_builder self.old) line word) (λ _. parse_state_of_builder self.new) }
    {
        match word {
            Control::Begin => self.begin(line),
            Control::For => self.begin_for(line),
            Control::If(op) => self.begin_jump_ahead(line, op),
            Control::Else => self.otherwise(line),
            Control::Then => self.join(line),
            Control::Again => self.back(line, Op::Jump),
            Control::Until(op) => self.back(line, op),
            Control::Next => self.back(line, Op::Next),
            Control::NextAround => self.next_around(line),
            Control::Unext => self.unext(line),
            Control::While(op) => self.leave(line, op),
            Control::Repeat => self.repeat(line),
        }
    }

    /// A loop from here on.
    fn begin(&mut self, line: u32) -> Result<(), SourceFault<'s>>
        ensures { Answers result (Ok (begin_row (parse_state_of_builder self.old) line)) (λ _. parse_state_of_builder self.new) }
    {
        let label = self.labels.add_anonymous(line, true)?;
        self.ask(line, AssemblyRequest::MarkLabel(label))?;
        self.open.push(Open::Loop(line, label))?;
        Ok(())
    }

    /// `for`: a loop that counts.
    fn begin_for(&mut self, line: u32) -> Result<(), SourceFault<'s>>
        ensures { Answers result (control_row (parse_state_of_builder self.old) line ForWord) (λ _. parse_state_of_builder self.new) }
    {
        self.ask(
            line,
            AssemblyRequest::PlaceItem(AssemblyItem::Opcode(Op::Push)),
        )?;
        self.begin(line)
    }

    /// A jump ahead, open until its label is marked.
    fn begin_jump_ahead(&mut self, line: u32, op: Op) -> Result<(), SourceFault<'s>>
        ensures { Answers result (Ok (ahead_row (parse_state_of_builder self.old) line op)) (λ _. parse_state_of_builder self.new) }
    {
        let label = self.labels.add_anonymous(line, false)?;
        self.jump_to_label(line, op, label)?;
        self.open.push(Open::JumpToLaterLabel(line, label))?;
        Ok(())
    }

    /// `else`.
    fn otherwise(&mut self, line: u32) -> Result<(), SourceFault<'s>>
        ensures { Answers result (control_row (parse_state_of_builder self.old) line ElseWord) (λ _. parse_state_of_builder self.new) }
    {
        let label = self.close_ahead(line)?;
        self.begin_jump_ahead(line, Op::Jump)?;
        self.mark_label(line, label)
    }

    /// `then`.
    fn join(&mut self, line: u32) -> Result<(), SourceFault<'s>>
        ensures { Answers result (control_row (parse_state_of_builder self.old) line ThenWord) (λ _. parse_state_of_builder self.new) }
    {
        let label = self.close_ahead(line)?;
        self.mark_label(line, label)
    }

    /// A jump back that ends the innermost loop.
    fn back(&mut self, line: u32, op: Op) -> Result<(), SourceFault<'s>>
        ensures { Answers result (end_loop (parse_state_of_builder self.old) line ▷ (λ end. Ok (jump_row end.1 line op end.0))) (λ _. parse_state_of_builder self.new) }
    {
        let label = self.close_loop(line)?;
        self.jump_to_label(line, op, label)
    }

    /// `*next`.
    fn next_around(&mut self, line: u32) -> Result<(), SourceFault<'s>>
        ensures { Answers result (control_row (parse_state_of_builder self.old) line NextAroundWord) (λ _. parse_state_of_builder self.new) }
    {
        let label = self.close_around(line)?;
        self.jump_to_label(line, Op::Next, label)
    }

    /// `unext`.
    fn unext(&mut self, line: u32) -> Result<(), SourceFault<'s>>
        ensures { Answers result (control_row (parse_state_of_builder self.old) line UnextWord) (λ _. parse_state_of_builder self.new) }
    {
        let label = self.close_loop(line)?;
        self.ask(line, AssemblyRequest::Unext(label))
    }

    /// `while` and `-while`.
    fn leave(&mut self, line: u32, op: Op) -> Result<(), SourceFault<'s>>
        ensures { Answers result (control_row (parse_state_of_builder self.old) line (WhileWord op)) (λ _. parse_state_of_builder self.new) }
    {
        let label = self.close_loop(line)?;
        self.begin_jump_ahead(line, op)?;
        self.open.push(Open::Loop(line, label))?;
        Ok(())
    }

    /// `repeat`.
    fn repeat(&mut self, line: u32) -> Result<(), SourceFault<'s>>
        ensures { Answers result (control_row (parse_state_of_builder self.old) line RepeatWord) (λ _. parse_state_of_builder self.new) }
    {
        let label = self.close_loop(line)?;
        self.jump_to_label(line, Op::Jump, label)?;
        let behind = self.close_ahead(line)?;
        self.mark_label(line, behind)
    }

    /// The label of the innermost open word, which is a loop.
    fn close_loop(&mut self, line: u32) -> Result<usize, SourceFault<'s>>
        ensures { Answers result (end_loop (parse_state_of_builder self.old) line) (λ label. (label, parse_state_of_builder self.new)) }
    {
        match self.open.pop() {
            Some(Open::Loop(_, label)) => Ok(label),
            _ => Err(source_fault_at(line, SourceFaultCause::UnmatchedControlWord)),
        }
    }

    /// The label of the innermost open word, which is a jump ahead.
    fn close_ahead(&mut self, line: u32) -> Result<usize, SourceFault<'s>>
        ensures { Answers result (end_jump_ahead (parse_state_of_builder self.old) line) (λ label. (label, parse_state_of_builder self.new)) }
    {
        match self.open.pop() {
            Some(Open::JumpToLaterLabel(_, label)) => Ok(label),
            _ => Err(source_fault_at(line, SourceFaultCause::UnmatchedControlWord)),
        }
    }

    /// The label of the loop around the innermost open word, which stays open.
    fn close_around(&mut self, line: u32) -> Result<usize, SourceFault<'s>>
        ensures { Answers result (end_outer_loop (parse_state_of_builder self.old) line) (λ label. (label, parse_state_of_builder self.new)) }
    {
        let Some(innermost) = self.open.pop() else {
            return Err(source_fault_at(line, SourceFaultCause::UnmatchedControlWord));
        };
        let label = self.close_loop(line)?;
        self.open.push(innermost)?;
        Ok(label)
    }
}
