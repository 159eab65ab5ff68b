//! The words of one node as requests, without those at fault.

ghost use Rattle.std.specs.Prelude.{◌≡◌, ◌++◌, map, filter, IfOk, IfErr, OnOk};
ghost use Rattle.std.specs.List.{flat_map};
ghost use Rattle.ga_parser.specs.declared.fault.SourceFaultCause.TheVariants.{Memory};
ghost use Rattle.ga_parser.specs.Asking.{label_content};
ghost use Rattle.ga_parser.specs.Requests.{refusal_of_source_fault};
ghost use Rattle.ga_parser.specs.Recovery.{AreRecoveredRequests, operand_label as label_by, item_label as label_of_item, request_label as label_of_request, has_placed_label as place_by, unplaced_label_refusals, request_unplaced_label_refusals, register_unplaced_label_refusals, register_label as label_of_given, recovered_register_value as left_of, recovered_registers as left_by, is_request_label_placed as is_left_by, recovery_of_words, missing_word_refusals, unclosed_word_refusal};
ghost use Rattle.ga_parser.specs.Saying.{token_contents};
ghost use Rattle.ga_parser.specs.inner.Recovering.{recovery_of_reading};

use super::controls::Open;
use super::draft::{Expect, RequestBuilder, expects_operand, text_at};
use super::fault::{SourceFault, SourceFaultCause, source_fault_at};
use super::item::{
    AssemblyItem, AssemblyRequest, InitialRegisters, LocatedRequest, NodeRequests, Operand,
    RegisterValue,
};
use super::labels::Label;
use super::scan::Token;
use std::alloc::{AllocError, Global};

/// What words of a node ask for of which some are at fault.
#[derive(Drop)]
pub struct RecoveredRequests<'s> {
    pub requests: NodeRequests<'s>,
    /// Those of words, and then those of what is missing, open or named after the last word.
    pub faults: Vec<SourceFault<'s>>,
}

/// The label of which a value is the address.
fn operand_label(value: Operand) -> Option<usize>
    ensures { result ≡ label_by value }
{
    match value {
        Operand::Number(_) => None,
        Operand::Label(label) => Some(label),
    }
}

/// The label of which an item needs the place.
fn item_label(item: AssemblyItem) -> Option<usize>
    ensures { result ≡ label_of_item item }
{
    match item {
        AssemblyItem::Opcode(_) => None,
        AssemblyItem::JumpToEarlierLabel(_, label) | AssemblyItem::JumpToLaterLabel(_, label) =>
            Some(label),
        AssemblyItem::Literal(value) | AssemblyItem::Cell(value) => operand_label(value),
    }
}

/// The label of which a request needs the place.
fn request_label(request: AssemblyRequest) -> Option<usize>
    ensures { result ≡ label_of_request request }
{
    match request {
        AssemblyRequest::PlaceItem(item) => item_label(item),
        AssemblyRequest::Unext(label) => Some(label),
        AssemblyRequest::MarkLabel(_)
        | AssemblyRequest::BeginNewCell
        | AssemblyRequest::GoToAddress(_)
        | AssemblyRequest::Carry(_) => None,
    }
}

/// Whether no label is needed, or it has its place.
fn has_placed_label(labels: &[Label<'_>], label: Option<usize>) -> bool
    ensures { result ≡ place_by (map label_content labels.now) label }
{
    match label {
        Some(label) => match labels.get(label) {
            Some(found) => found.is_marked,
            None => false,
        },
        None => true,
    }
}

/// Adds the fault of a word that names a label without a place.
fn add_unplaced<'s>(
    faults: &mut Vec<SourceFault<'s>>,
    labels: &[Label<'s>],
    line: u32,
    label: Option<usize>,
) -> Result<(), AllocError>
    ensures { OnOk result (map refusal_of_source_fault faults.new.items ≡ map refusal_of_source_fault faults.old.items ++ unplaced_label_refusals (map label_content labels.now) line label) }
{
    let Some(label) = label else {
        return Ok(());
    };
    let Some(found) = labels.get(label) else {
        return Ok(());
    };
    if !found.is_marked && !found.name.is_empty() {
        faults.push(source_fault_at(line, SourceFaultCause::UnknownWord(found.name)))?;
    }
    Ok(())
}

/// Adds the fault of a register that is given a label without a place.
fn add_given<'s>(
    faults: &mut Vec<SourceFault<'s>>,
    labels: &[Label<'s>],
    given: Option<RegisterValue>,
) -> Result<(), AllocError>
    ensures { OnOk result (map refusal_of_source_fault faults.new.items ≡ map refusal_of_source_fault faults.old.items ++ register_unplaced_label_refusals (map label_content labels.now) given) }
{
    match given {
        Some(given) => add_unplaced(faults, labels, given.line, operand_label(given.value)),
        None => Ok(()),
    }
}

/// What a register is given, unless that is a label without a place.
fn recovered_register_value(
    labels: &[Label<'_>],
    given: Option<RegisterValue>,
) -> Option<RegisterValue>
    ensures { result ≡ left_of (map label_content labels.now) given }
{
    let Some(found) = given else {
        return None;
    };
    if has_placed_label(labels, operand_label(found.value)) {
        given
    } else {
        None
    }
}

/// What the registers are given, without labels that have no place.
fn recovered_registers(labels: &[Label<'_>], registers: InitialRegisters) -> InitialRegisters
    ensures { result ≡ left_by (map label_content labels.now) registers }
{
    InitialRegisters {
        p: recovered_register_value(labels, registers.p),
        a: recovered_register_value(labels, registers.a),
        b: recovered_register_value(labels, registers.b),
    }
}

/// Whether a request is left: its label has a place, where it needs one.
fn is_request_label_placed(labels: &[Label<'_>], asked: LocatedRequest) -> bool
    ensures { result ≡ is_left_by (map label_content labels.now) asked }
{
    has_placed_label(labels, request_label(asked.request))
}

/// The requests that are left, and the faults of the others.
fn requests_left<'s>(
    alloc: Global,
    faults: &mut Vec<SourceFault<'s>>,
    labels: &[Label<'s>],
    asked: &[LocatedRequest],
) -> Result<Vec<LocatedRequest>, AllocError>
    ensures faults { OnOk result (map refusal_of_source_fault faults.new.items ≡ map refusal_of_source_fault faults.old.items ++ flat_map (request_unplaced_label_refusals (map label_content labels.now)) asked.now) }
    ensures left { IfOk result (λ left. left.items ≡ filter (is_left_by (map label_content labels.now)) asked.now) }
{
    let mut left = Vec::new(alloc);
    for one in asked {
        add_unplaced(faults, labels, one.line, request_label(one.request))?;
        if is_request_label_placed(labels, *one) {
            left.push(*one)?;
        }
    }
    Ok(left)
}

/// What the words so far ask for, and the faults of those that were passed over.
#[derive(Drop)]
struct Reading<'s> {
    draft: RequestBuilder<'s>,
    faults: Vec<SourceFault<'s>>,
    /// The line of the last word.
    last: u32,
    /// Whether the last word was passed over.
    is_last_skipped: bool,
}

impl<'s> Reading<'s> {
    ghost use Rattle.std.specs.Prelude.{◌≡◌, ◌⊎◌, ◌&&◌, Err, OnOk, IfErr};
    ghost use Rattle.ga_parser.specs.declared.fault.SourceFaultCause.TheVariants.{Memory};
    ghost use Rattle.ga_parser.specs.Asking.{parse_one_word as hear_row, refusal_at_line};
    ghost use Rattle.ga_parser.specs.Recovery.{recovery_after_result, is_comma, recover_next_word, initial_recovery};
    ghost use Rattle.ga_parser.specs.Requests.{refusal_of_source_fault, refusal_cause_of_fault_cause};
    ghost use Rattle.ga_parser.specs.Saying.{token_content};
    ghost use Rattle.ga_parser.specs.inner.Recovering.{recovery_of_reading};

    /// Before the words of a node, whose name is on this line.
    fn new(alloc: Global, line: u32) -> Self
        ensures { recovery_of_reading result ≡ initial_recovery line }
    {
        Reading {
            draft: RequestBuilder::new(alloc),
            faults: Vec::new(alloc),
            last: line,
            is_last_skipped: false,
        }
    }

    /// Whether the word belongs to the one before, which was skipped.
    fn goes_along(&self, token: Token<'s>) -> bool
        ensures { result ≡ (self.now.is_last_skipped && is_comma (token_content token.entry)) }
    {
        self.is_last_skipped && token.text == b",".as_slice()
    }

    /// Passes over a word that would be refused.
    fn pass_over(&mut self, line: u32, cause: SourceFaultCause<'s>) -> Result<(), SourceFault<'s>>
        ensures resolution_with_passed_word { OnOk result (recovery_of_reading self.new ≡ recovery_after_result (recovery_of_reading self.old) line (refusal_at_line line (refusal_cause_of_fault_cause cause.entry))) }
        ensures refused { IfErr result (λ fault. fault.cause ≡ Memory) }
    {
        self.faults.push(source_fault_at(line, cause))?;
        self.draft.expect = Expect::Word;
        self.is_last_skipped = true;
        self.last = line;
        Ok(())
    }

    /// Takes a word.
    fn parse_one_word(&mut self, token: Token<'s>, next: &[u8]) -> Result<(), SourceFault<'s>>
        ensures heard { OnOk result (recovery_of_reading self.new ≡ recovery_after_result (recovery_of_reading self.old) token.entry.line (hear_row (recovery_of_reading self.old).now (token_content token.entry) next.now)) }
        ensures refused { IfErr result (λ fault. (fault.cause ≡ Memory) ⊎ (hear_row (recovery_of_reading self.old).now (token_content token.entry) next.now ≡ Err (refusal_of_source_fault fault))) }
    {
        self.draft.take(token, next)?;
        self.is_last_skipped = false;
        self.last = token.line;
        Ok(())
    }

    /// Takes a word, or skips it if it would be refused. A `,` after a skipped word is skipped with it.
    #[tactic(auto, using(crate::proofs::Recovering::only_memory, crate::proofs::Recovering::heard_one))]
    fn take(&mut self, token: Token<'s>, next: &[u8]) -> Result<(), SourceFault<'s>>
        ensures taken { OnOk result (recovery_of_reading self.new ≡ recover_next_word (recovery_of_reading self.old) (token_content token.entry) next.now) }
        ensures refused { IfErr result (λ fault. fault.cause ≡ Memory) }
    {
        if self.goes_along(token) {
            return Ok(());
        }
        match self.draft.refusal(token, next) {
            Some(cause) => self.pass_over(token.line, cause),
            None => self.parse_one_word(token, next),
        }
    }
}

/// The words of a node, without those that are refused.
fn read_left<'s>(
    alloc: Global,
    line: u32,
    tokens: &[Token<'s>],
) -> Result<Reading<'s>, SourceFault<'s>>
    ensures read { IfOk result (λ reading. recovery_of_reading reading ≡ recovery_of_words line (token_contents tokens.now)) }
    ensures refused { IfErr result (λ fault. fault.cause ≡ Memory) }
{
    let mut reading = Reading::new(alloc, line);
    for (i, token) in tokens.iter().enumerate() {
        reading.take(*token, text_at(tokens, i + 1))?;
    }
    Ok(reading)
}

/// Adds the faults of control words that are open.
fn add_unclosed<'s>(faults: &mut Vec<SourceFault<'s>>, all: &[Open]) -> Result<(), AllocError>
    ensures { OnOk result (map refusal_of_source_fault faults.new.items ≡ map refusal_of_source_fault faults.old.items ++ map unclosed_word_refusal all.now) }
{
    for one in all {
        faults.push(source_fault_at(one.line(), SourceFaultCause::UnclosedControlWord))?;
    }
    Ok(())
}

/// Adds the faults of a word that is missing after the last one, and of control words that are open.
fn add_open<'s>(
    faults: &mut Vec<SourceFault<'s>>,
    expect: Expect,
    all: &[Open],
    last: u32,
) -> Result<(), AllocError>
    ensures { OnOk result (map refusal_of_source_fault faults.new.items ≡ map refusal_of_source_fault faults.old.items ++ missing_word_refusals last expect ++ map unclosed_word_refusal all.now) }
{
    if expects_operand(expect) {
        faults.push(source_fault_at(last, SourceFaultCause::MissingNameOrValue))?;
    }
    add_unclosed(faults, all)
}

/// The requests of the words of a node that are not at fault, and the faults of the others; its name is on this line.
///
/// # Errors
/// Allocation failed.
pub fn recover_requests<'s>(
    alloc: Global,
    line: u32,
    tokens: &[Token<'s>],
) -> Result<RecoveredRequests<'s>, SourceFault<'s>>
    ensures left { IfOk result (λ all. AreRecoveredRequests line (token_contents tokens.now) all.requests all.faults.items) }
    ensures refused { IfErr result (λ fault. fault.cause ≡ Memory) }
{
    let Reading {
        draft,
        mut faults,
        last,
        is_last_skipped: _,
    } = read_left(alloc, line, tokens)?;
    let RequestBuilder {
        asked,
        labels,
        registers,
        expect,
        open: all_open,
        ..
    } = draft;
    add_open(&mut faults, expect, all_open.as_slice(), last)?;
    let names = labels.into_list();
    let all = names.as_slice();
    let asked = requests_left(alloc, &mut faults, all, asked.as_slice())?;
    add_given(&mut faults, all, registers.p)?;
    add_given(&mut faults, all, registers.a)?;
    add_given(&mut faults, all, registers.b)?;
    let registers = recovered_registers(all, registers);
    Ok(RecoveredRequests {
        requests: NodeRequests {
            asked,
            names,
            registers,
        },
        faults,
    })
}
