//! Whether a word would be refused, before it is taken.

ghost use Rattle.std.specs.Prelude.{◌≡◌, ℕ, List};
ghost use Rattle.ga_parser.specs.Asking.{ParseState, ◌▷◌, value_of_word, data_cell_requests as cell_row, value_or_call_requests, org_requests};
ghost use Rattle.ga_parser.specs.inner.Refusing.{RefusesForCause, loop_end_refusal_cause};

use super::controls::Open;
use super::draft::{Expect, RequestBuilder};
use super::fault::{NumberRange, SourceFaultCause};
use super::number::{Number, number_of};
use super::scan::{Token, TokenKind};
use super::vocabulary::{
    Control, Register, control_named, is_reserved_word, parse_directive, parse_opcode,
};

/// Why a value is refused, where it is; what is no value by the other cause.
#[tactic(auto, unfolding(crate::specs::Asking::value_of_word))]
fn cell_cause<'s>(text: &'s [u8]) -> Option<SourceFaultCause<'s>>
    ensures { (now : ParseState) (line : ℕ) → RefusesForCause result line (value_of_word now line text.now ▷ (λ said. cell_row said.1 line said.0)) }
{
    if let [b'\'', name @ ..] = text {
        return if name.is_empty() {
            Some(SourceFaultCause::MissingNameOrValue)
        } else {
            None
        };
    }
    match number_of(text) {
        Number::Of(_) => None,
        Number::OutOfRange => Some(SourceFaultCause::OperandOutOfRange(text, NumberRange::Word)),
        Number::Nothing => Some(SourceFaultCause::MissingNameOrValue),
    }
}

/// Why a literal or a label's name is refused, where it is.
#[tactic(auto, unfolding(crate::specs::Asking::value_of_word, crate::specs::Asking::call_label))]
fn literal_cause<'s>(text: &'s [u8]) -> Option<SourceFaultCause<'s>>
    ensures { (now : ParseState) (line : ℕ) (next : List ℕ) → RefusesForCause result line (value_of_word now line text.now ▷ (λ said. value_or_call_requests said.1 line text.now next said.0)) }
{
    if let [b'\'', name @ ..] = text {
        return if name.is_empty() {
            Some(SourceFaultCause::MissingNameOrValue)
        } else {
            None
        };
    }
    match number_of(text) {
        Number::Of(_) => None,
        Number::OutOfRange => Some(SourceFaultCause::OperandOutOfRange(text, NumberRange::Word)),
        Number::Nothing => {
            if is_reserved_word(text) {
                Some(SourceFaultCause::UnknownWord(text))
            } else {
                None
            }
        }
    }
}

/// Why an address is refused, where it is.
#[tactic(auto, unfolding(crate::specs::Asking::org_requests))]
fn address_cause<'s>(text: &'s [u8]) -> Option<SourceFaultCause<'s>>
    ensures { (now : ParseState) (line : ℕ) → RefusesForCause result line (org_requests now line text.now) }
{
    match number_of(text) {
        Number::Of(found) => {
            if found < 0x40 || 0x80 <= found && found < 0xc0 {
                None
            } else {
                Some(SourceFaultCause::OperandOutOfRange(text, NumberRange::Cell))
            }
        }
        Number::OutOfRange => Some(SourceFaultCause::OperandOutOfRange(text, NumberRange::Cell)),
        Number::Nothing => Some(SourceFaultCause::MissingNameOrValue),
    }
}

/// Why a word that ends a loop is refused, where it is: this one is open.
fn loop_cause<'s>(innermost: Option<Open>) -> Option<SourceFaultCause<'s>>
    ensures { result ≡ loop_end_refusal_cause innermost }
{
    match innermost {
        Some(Open::Loop(_, _)) => None,
        Some(Open::JumpToLaterLabel(_, _)) => Some(SourceFaultCause::UnmatchedControlWord),
        None => Some(SourceFaultCause::UnmatchedControlWord),
    }
}

impl<'s> RequestBuilder<'s> {
    ghost use Rattle.std.specs.Prelude.{◌≡◌, ℕ, reverse};
    ghost use Rattle.ga_parser.specs.Asking.{given_value_of_register, register_requests, word_requests, parse_one_word};
    ghost use Rattle.ga_parser.specs.Recovery.{state_with_skipped_word};
    ghost use Rattle.ga_parser.specs.Saying.{token_content};
    ghost use Rattle.ga_parser.specs.inner.Drafting.{parse_state_of_builder};
    ghost use Rattle.ga_parser.specs.inner.Refusing.{RefusesForCause, first_open, open_words_around_first, jump_ahead_refusal_cause, control_word_refusal_cause, label_name_refusal_cause, repeated_register_cause};

    /// The word that was left open last, where there is one.
    #[tactic(auto, using(crate::proofs::Causes::last_is_first))]
    fn innermost(&self) -> Option<Open>
        ensures { result ≡ first_open (reverse self.now.open.items) }
    {
        let all = self.open.as_slice();
        if all.is_empty() {
            return None;
        }
        Some(all[all.len() - 1])
    }

    /// The word right around the one that was left open last.
    #[tactic(auto, using(crate::proofs::Causes::last_but_one))]
    fn around(&self) -> Option<Open>
        ensures { result ≡ first_open (open_words_around_first (reverse self.now.open.items)) }
    {
        let all = self.open.as_slice();
        if all.len() < 2 {
            return None;
        }
        Some(all[all.len() - 2])
    }

    /// Why a word that ends a jump ahead is refused, where it is: this one is open.
    fn ahead_cause(&self, innermost: Option<Open>) -> Option<SourceFaultCause<'s>>
        ensures { result ≡ jump_ahead_refusal_cause self.now.labels innermost }
    {
        match innermost {
            Some(Open::JumpToLaterLabel(_, label)) => {
                if self.labels.is_marked(label) {
                    Some(SourceFaultCause::LabelTwice)
                } else {
                    None
                }
            }
            Some(Open::Loop(_, _)) => Some(SourceFaultCause::UnmatchedControlWord),
            None => Some(SourceFaultCause::UnmatchedControlWord),
        }
    }

    /// Why a control word is refused, where it is.
    fn control_cause(&self, control_word: Control) -> Option<SourceFaultCause<'s>>
        ensures { result ≡ control_word_refusal_cause self.now.labels (reverse self.now.open.items) control_word }
    {
        match control_word {
            Control::Begin | Control::For | Control::If(_) => None,
            Control::Else | Control::Then => self.ahead_cause(self.innermost()),
            Control::Again => loop_cause(self.innermost()),
            Control::Until(_) => loop_cause(self.innermost()),
            Control::Next => loop_cause(self.innermost()),
            Control::Unext => loop_cause(self.innermost()),
            Control::While(_) => loop_cause(self.innermost()),
            Control::NextAround => loop_cause(self.around()),
            Control::Repeat => match loop_cause(self.innermost()) {
                Some(cause) => Some(cause),
                None => self.ahead_cause(self.around()),
            },
        }
    }

    /// Why a label's name is refused, where it is.
    fn name_cause(&self, name: &'s [u8]) -> Option<SourceFaultCause<'s>>
        ensures { result ≡ label_name_refusal_cause self.now.labels name.now }
    {
        if is_reserved_word(name) {
            return Some(SourceFaultCause::NameTaken);
        }
        match self.labels.find(name) {
            Some(label) => {
                if self.labels.is_marked(label) {
                    Some(SourceFaultCause::LabelTwice)
                } else {
                    None
                }
            }
            None => None,
        }
    }

    /// Why a second value of a register is refused, where it is one.
    fn twice_cause(&self, register: Register) -> Option<SourceFaultCause<'s>>
        ensures { result ≡ repeated_register_cause (given_value_of_register self.now.registers register) }
    {
        let given = match register {
            Register::P => self.registers.p,
            Register::A => self.registers.a,
            Register::B => self.registers.b,
        };
        match given {
            Some(_) => Some(SourceFaultCause::RegisterTwice),
            None => None,
        }
    }

    /// Why a register's value is refused, where it is.
    #[tactic(auto, using(crate::proofs::Causes::give_refused), unfolding(crate::specs::Asking::register_requests))]
    fn register_cause(&self, register: Register, text: &'s [u8]) -> Option<SourceFaultCause<'s>>
        ensures { (line : ℕ) → RefusesForCause result line (register_requests (state_with_skipped_word (parse_state_of_builder self.now)) line register text.now) }
    {
        match number_of(text) {
            Number::Of(number) => {
                if number >= register.bound() {
                    return Some(SourceFaultCause::OperandOutOfRange(text, register.range()));
                }
                self.twice_cause(register)
            }
            Number::OutOfRange => Some(SourceFaultCause::OperandOutOfRange(text, register.range())),
            Number::Nothing => {
                if is_reserved_word(text) {
                    return Some(SourceFaultCause::MissingNameOrValue);
                }
                self.twice_cause(register)
            }
        }
    }

    /// Why a word without arguments is refused, if it is.
    #[tactic(auto, using(crate::proofs::Causes::control_word_refused, crate::proofs::Causes::other_word_refused), unfolding(crate::specs::Asking::word_requests))]
    fn word_cause(&self, text: &'s [u8], next: &[u8]) -> Option<SourceFaultCause<'s>>
        ensures { (line : ℕ) → RefusesForCause result line (word_requests (state_with_skipped_word (parse_state_of_builder self.now)) line text.now next.now) }
    {
        if next == b",".as_slice() {
            return cell_cause(text);
        }
        match parse_directive(text) {
            Some(_) => None,
            None => match parse_opcode(text) {
                Some(_) => None,
                None => match control_named(text) {
                    Some(control_word) => self.control_cause(control_word),
                    None => literal_cause(text),
                },
            },
        }
    }

    /// Why a word would be refused that is the next one, where it would.
    #[tactic(auto, using(crate::proofs::Causes::name_refused))]
    pub(crate) fn refusal(&self, token: Token<'s>, next: &[u8]) -> Option<SourceFaultCause<'s>>
        ensures { RefusesForCause result token.entry.line (parse_one_word (parse_state_of_builder self.now) (token_content token.entry) next.now) }
    {
        match token.kind {
            TokenKind::LongLine => Some(SourceFaultCause::LongLine),
            TokenKind::OpenComment => Some(SourceFaultCause::OpenComment),
            TokenKind::NoNumber => Some(SourceFaultCause::NoNumber),
            TokenKind::MissingNameOrValue => Some(SourceFaultCause::MissingNameOrValue),
            TokenKind::NameTaken => Some(SourceFaultCause::NameTaken),
            TokenKind::Word => match self.expect {
                Expect::Word => self.word_cause(token.text, next),
                Expect::Address => address_cause(token.text),
                Expect::Name => self.name_cause(token.text),
                Expect::Register(register) => self.register_cause(register, token.text),
                Expect::Nothing => None,
            },
        }
    }
}
