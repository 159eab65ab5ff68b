//! The words of one node as requests.

ghost use Rattle.std.specs.Prelude.{◌≡◌, ◌⊎◌, Err, IfOk, IfErr, codes, [], bytes_eq, if◌then◌else◌, slice_index_or};
ghost use Rattle.ga_slots.specs.declared.op.Op.TheVariants.{Jump, Call};
ghost use Rattle.ga_parser.specs.declared.fault.SourceFaultCause.TheVariants.{Memory};
ghost use Rattle.ga_parser.specs.Asking.{requests_of_words, address_with_carry_bit as carried_of, expects_operand as is_waiting_for};
ghost use Rattle.ga_parser.specs.Requests.{AreRequestsOfWords, refusal_of_source_fault};
ghost use Rattle.ga_parser.specs.Asking.RefusalCause.{NoNumberHere};
ghost use Rattle.ga_parser.specs.inner.Drafting.{Answers, parse_state_of_builder, texts_of_tokens};
ghost use Rattle.ga_parser.specs.Saying.{token_contents};

use super::controls::Open;
use super::fault::{NumberRange, SourceFault, SourceFaultCause, source_fault_at};
use super::item::{
    AssemblyItem, AssemblyRequest, InitialRegisters, LocatedRequest, NodeRequests, Operand,
    RegisterValue,
};
use super::labels::Labels;
use super::number::{Number, number_of};
use super::scan::Token;
use super::vocabulary::{
    Directive, Register, control_named, is_reserved_word, parse_directive, parse_opcode,
};
use ga_slots::Op;
use std::alloc::Global;
use std::mem;

/// What the next word is.
#[derive(Clone, Copy, PartialEq, Eq)]
pub(crate) enum Expect {
    Word,
    Address,
    Name,
    Register(Register),
    /// A word that the one before took with it.
    Nothing,
}

/// What the words so far ask for.
#[derive(Drop)]
pub(crate) struct RequestBuilder<'s> {
    pub asked: Vec<LocatedRequest>,
    pub labels: Labels<'s>,
    pub registers: InitialRegisters,
    pub open: Vec<Open>,
    /// Bit 9 of the addresses from here on.
    carries: bool,
    pub expect: Expect,
}

impl<'s> RequestBuilder<'s> {
    ghost use Rattle.std.specs.Prelude.{◌≡◌, Ok};
    ghost use Rattle.ga_parser.specs.Asking.{◌▷◌, initial_parse_state, state_with_added_request, jump_to_label as jump_row, mark_label as mark_row, value_of_word, label_name_requests, register_requests, org_requests, directive_requests as directive_row, data_cell_requests as cell_row, call_label as call_row, word_requests, parse_one_word, set_register_once, state_with_mentioned_label, label_number as number_of_label, finish_parse};
    ghost use Rattle.ga_parser.specs.declared.item.Operand.TheVariants.{Label as LabelOf};
    ghost use Rattle.ga_parser.specs.inner.Drafting.{Answers, parse_state_of_builder};
    ghost use Rattle.ga_parser.specs.Saying.{token_content};

    pub(crate) fn new(alloc: Global) -> Self
        ensures { parse_state_of_builder result ≡ initial_parse_state }
    {
        RequestBuilder {
            asked: Vec::new(alloc),
            labels: Labels::new(alloc),
            registers: InitialRegisters {
                p: None,
                a: None,
                b: None,
            },
            open: Vec::new(alloc),
            carries: false,
            expect: Expect::Word,
        }
    }

    pub(crate) fn ask(&mut self, line: u32, request: AssemblyRequest) -> Result<(), SourceFault<'s>>
        ensures { Answers result (Ok (state_with_added_request (parse_state_of_builder self.old) line request)) (λ _. parse_state_of_builder self.new) }
    {
        self.asked.push(LocatedRequest { line, request })?;
        Ok(())
    }

    /// Asks for an opcode with the address of a label.
    pub(crate) fn jump_to_label(
        &mut self,
        line: u32,
        op: Op,
        label: usize,
    ) -> Result<(), SourceFault<'s>>
        ensures { Answers result (Ok (jump_row (parse_state_of_builder self.old) line op label)) (λ _. parse_state_of_builder self.new) }
    {
        let item = if self.labels.is_marked(label) {
            AssemblyItem::JumpToEarlierLabel(op, label)
        } else {
            AssemblyItem::JumpToLaterLabel(op, label)
        };
        self.ask(line, AssemblyRequest::PlaceItem(item))
    }

    /// The label has its place here.
    pub(crate) fn mark_label(&mut self, line: u32, label: usize) -> Result<(), SourceFault<'s>>
        ensures { Answers result (mark_row (parse_state_of_builder self.old) line label) (λ _. parse_state_of_builder self.new) }
    {
        if self.labels.is_marked(label) {
            return Err(source_fault_at(line, SourceFaultCause::LabelTwice));
        }
        self.labels.mark_label(label);
        self.ask(line, AssemblyRequest::MarkLabel(label))
    }

    /// A number, a port, or the address of a label after an apostrophe.
    #[tactic(auto, unfolding(crate::specs::Asking::value_of_word))]
    fn value(&mut self, line: u32, text: &'s [u8]) -> Result<Option<Operand>, SourceFault<'s>>
        ensures { Answers result (value_of_word (parse_state_of_builder self.old) line text.now) (λ found. (found, parse_state_of_builder self.new)) }
    {
        if let [b'\'', name @ ..] = text {
            if name.is_empty() {
                return Err(source_fault_at(line, SourceFaultCause::MissingNameOrValue));
            }
            let label = self.labels.named(line, name)?;
            return Ok(Some(Operand::Label(label)));
        }
        match number_of(text) {
            Number::Of(number) => Ok(Some(Operand::Number(number))),
            Number::OutOfRange => Err(out_of_range(line, text, NumberRange::Word)),
            Number::Nothing => Ok(None),
        }
    }

    #[tactic(auto, unfolding(crate::specs::Asking::label_name_requests))]
    fn name(&mut self, line: u32, name: &'s [u8]) -> Result<(), SourceFault<'s>>
        ensures { Answers result (label_name_requests (parse_state_of_builder self.old) line name.now) (λ _. parse_state_of_builder self.new) }
    {
        if is_reserved_word(name) {
            return Err(source_fault_at(line, SourceFaultCause::NameTaken));
        }
        let label = self.labels.named(line, name)?;
        self.mark_label(line, label)
    }

    /// A number, a port or a label, as a register's value at load.
    #[tactic(auto, unfolding(crate::specs::Asking::register_requests))]
    fn register(
        &mut self,
        line: u32,
        register: Register,
        text: &'s [u8],
    ) -> Result<(), SourceFault<'s>>
        ensures { Answers result (register_requests (parse_state_of_builder self.old) line register text.now) (λ _. parse_state_of_builder self.new) }
    {
        let value = match number_of(text) {
            Number::Of(number) => {
                if number >= register.bound() {
                    return Err(out_of_range(line, text, register.range()));
                }
                Operand::Number(number)
            }
            Number::OutOfRange => return Err(out_of_range(line, text, register.range())),
            Number::Nothing => {
                if is_reserved_word(text) {
                    return Err(source_fault_at(line, SourceFaultCause::MissingNameOrValue));
                }
                Operand::Label(self.labels.named(line, text)?)
            }
        };
        let given = Some(RegisterValue { line, value });
        let before = match register {
            Register::P => mem::replace(&mut self.registers.p, given),
            Register::A => mem::replace(&mut self.registers.a, given),
            Register::B => mem::replace(&mut self.registers.b, given),
        };
        if before.is_some() {
            return Err(source_fault_at(line, SourceFaultCause::RegisterTwice));
        }
        Ok(())
    }

    fn directive(&mut self, line: u32, directive: Directive) -> Result<(), SourceFault<'s>>
        ensures { Answers result (Ok (directive_row (parse_state_of_builder self.old) line directive)) (λ _. parse_state_of_builder self.new) }
    {
        match directive {
            Directive::Label => self.expect = Expect::Name,
            Directive::Address => self.expect = Expect::Address,
            Directive::Register(register) => self.expect = Expect::Register(register),
            Directive::BeginNewCell => self.ask(line, AssemblyRequest::BeginNewCell)?,
            Directive::Carry(is_set) => {
                self.carries = is_set;
                self.ask(line, AssemblyRequest::Carry(is_set))?;
            }
        }
        Ok(())
    }

    #[tactic(auto, unfolding(crate::specs::Asking::org_requests))]
    fn address(&mut self, line: u32, text: &'s [u8]) -> Result<(), SourceFault<'s>>
        ensures { Answers result (org_requests (parse_state_of_builder self.old) line text.now) (λ _. parse_state_of_builder self.new) }
    {
        match number_of(text) {
            Number::Of(found) => {
                if found < 0x40 || 0x80 <= found && found < 0xc0 {
                    self.ask(
                        line,
                        AssemblyRequest::GoToAddress(address_with_carry_bit(self.carries, found)),
                    )
                } else {
                    Err(out_of_range(line, text, NumberRange::Cell))
                }
            }
            Number::OutOfRange => Err(out_of_range(line, text, NumberRange::Cell)),
            Number::Nothing => Err(source_fault_at(line, SourceFaultCause::MissingNameOrValue)),
        }
    }

    /// A cell with a value.
    fn cell(&mut self, line: u32, text: &'s [u8]) -> Result<(), SourceFault<'s>>
        ensures { Answers result (value_of_word (parse_state_of_builder self.old) line text.now ▷ (λ said. cell_row said.1 line said.0)) (λ _. parse_state_of_builder self.new) }
    {
        let Some(value) = self.value(line, text)? else {
            return Err(source_fault_at(line, SourceFaultCause::MissingNameOrValue));
        };
        self.expect = Expect::Nothing;
        self.ask(line, AssemblyRequest::PlaceItem(AssemblyItem::Cell(value)))
    }

    /// A call of a label, or a jump there where `;` is next.
    #[tactic(auto, unfolding(crate::specs::Asking::call_label))]
    fn call_label(&mut self, line: u32, name: &'s [u8], next: &[u8]) -> Result<(), SourceFault<'s>>
        ensures { Answers result (call_row (parse_state_of_builder self.old) line name.now next.now) (λ _. parse_state_of_builder self.new) }
    {
        if is_reserved_word(name) {
            return Err(source_fault_at(line, SourceFaultCause::UnknownWord(name)));
        }
        let label = self.labels.named(line, name)?;
        let op = calling_op(next);
        if op == Op::Jump {
            self.expect = Expect::Nothing;
        }
        self.jump_to_label(line, op, label)
    }

    /// A word without arguments. The next word decides whether it is a cell, and whether a call is a jump.
    #[tactic(auto, unfolding(crate::specs::Asking::word_requests))]
    fn word(&mut self, line: u32, text: &'s [u8], next: &[u8]) -> Result<(), SourceFault<'s>>
        ensures { Answers result (word_requests (parse_state_of_builder self.old) line text.now next.now) (λ _. parse_state_of_builder self.new) }
    {
        if next == b",".as_slice() {
            return self.cell(line, text);
        }
        if let Some(directive) = parse_directive(text) {
            return self.directive(line, directive);
        }
        if let Some(op) = parse_opcode(text) {
            return self.ask(line, AssemblyRequest::PlaceItem(AssemblyItem::Opcode(op)));
        }
        if let Some(control_word) = control_named(text) {
            return self.control_word(line, control_word);
        }
        if let Some(value) = self.value(line, text)? {
            return self.ask(
                line,
                AssemblyRequest::PlaceItem(AssemblyItem::Literal(value)),
            );
        }
        self.call_label(line, text, next)
    }

    pub(crate) fn take(&mut self, token: Token<'s>, next: &[u8]) -> Result<(), SourceFault<'s>>
        ensures { Answers result (parse_one_word (parse_state_of_builder self.old) (token_content token.entry) next.now) (λ _. parse_state_of_builder self.new) }
    {
        let text = token.word()?;
        let expect = self.expect;
        self.expect = Expect::Word;
        match expect {
            Expect::Word => self.word(token.line, text, next),
            Expect::Address => self.address(token.line, text),
            Expect::Name => self.name(token.line, text),
            Expect::Register(register) => self.register(token.line, register, text),
            Expect::Nothing => Ok(()),
        }
    }

    /// What is missing or still open after the last word, and a name that is no label's.
    #[tactic(auto, unfolding(crate::specs::Asking::refuse_unclosed_word))]
    fn finish(&self, line: u32) -> Result<(), SourceFault<'s>>
        ensures { Answers result (finish_parse (parse_state_of_builder self.now) line) (λ _. parse_state_of_builder self.now) }
    {
        if expects_operand(self.expect) {
            return Err(source_fault_at(line, SourceFaultCause::MissingNameOrValue));
        }
        if let Some(open) = self.open.first() {
            return Err(source_fault_at(open.line(), SourceFaultCause::UnclosedControlWord));
        }
        self.labels.check()
    }
}

/// A number that its place doesn't take.
fn out_of_range(line: u32, text: &[u8], range: NumberRange) -> SourceFault<'_>
    ensures { refusal_of_source_fault result ≡ record { line = line; wrong = NoNumberHere text.entry.now range } }
{
    source_fault_at(line, SourceFaultCause::OperandOutOfRange(text, range))
}

/// Whether a word is missing.
pub(crate) fn expects_operand(expect: Expect) -> bool
    ensures { result ≡ is_waiting_for expect }
{
    match expect {
        Expect::Word | Expect::Nothing => false,
        _ => true,
    }
}

/// The opcode of a label's name: a call, or a jump where `;` is the next word.
fn calling_op(next: &[u8]) -> Op
    ensures { result ≡ (if bytes_eq next.now (codes ";") then Jump else Call) }
{
    if next == b";".as_slice() {
        Op::Jump
    } else {
        Op::Call
    }
}

/// The text of a token, empty where there is none.
pub(crate) fn text_at<'s>(tokens: &[Token<'s>], i: usize) -> &'s [u8]
    ensures { result.now ≡ slice_index_or (texts_of_tokens tokens.now) i [] }
{
    match tokens.get(i) {
        Some(token) => token.text,
        None => &[],
    }
}

/// What the words of a node ask for.
fn read_node<'s>(
    alloc: Global,
    line: u32,
    tokens: &[Token<'s>],
) -> Result<RequestBuilder<'s>, SourceFault<'s>>
    ensures { Answers result (requests_of_words line (token_contents tokens.now)) parse_state_of_builder }
{
    let mut draft = RequestBuilder::new(alloc);
    let mut last = line;
    for (i, token) in tokens.iter().enumerate() {
        draft.take(*token, text_at(tokens, i + 1))?;
        last = token.line;
    }
    draft.finish(last)?;
    Ok(draft)
}

/// An address with this bit 9.
pub fn address_with_carry_bit(is_set: bool, address: u32) -> u32
    ensures { result ≡ carried_of is_set address }
{
    (if is_set { 512 } else { 0 }) + address % 512
}

/// The requests of the words of a node, whose name is on this line.
///
/// # Errors
/// The first fault of a word, otherwise a word that is missing at the end, a control word that is open, a name that is no
/// label's; or an allocation failed.
pub fn read_requests_of_node_words<'s>(
    alloc: Global,
    line: u32,
    tokens: &[Token<'s>],
) -> Result<NodeRequests<'s>, SourceFault<'s>>
    ensures asked { IfOk result (AreRequestsOfWords line (token_contents tokens.now)) }
    ensures refused { IfErr result (λ fault. (fault.cause ≡ Memory) ⊎ (requests_of_words line (token_contents tokens.now) ≡ Err (refusal_of_source_fault fault))) }
{
    let RequestBuilder {
        asked,
        labels,
        registers,
        ..
    } = read_node(alloc, line, tokens)?;
    Ok(NodeRequests {
        asked,
        names: labels.into_list(),
        registers,
    })
}
