//! A text as a chip.

ghost use Rattle.std.specs.Prelude.{ℕ, ◌≡◌, ◌≤◌, ◌<◌, true, false, List, [], ◌∷◌, length, replicate, take, drop, codes, position, Some, IfOk, IfErr, OnOk, OnErr, IfSome};
ghost use Rattle.std.specs.List.{All};
ghost use Rattle.ga_grid.specs.Chip.{records_of_chip, HaveWaitsFittingSlotsAndStops};
ghost use Rattle.ga_source.specs.Programs.{given_register_value, node_with_given_registers, requests_have_cells as has_cells_of, is_item_request as is_item_of, default_p_operand as start, is_label_named, registers_at_load, HasProgram, IsAssembledChip, ArePlainBodyPrograms, ArePlainProgramsOfSource, body_tokens, body_token_lists, HasRequestsOfWords, AreProgramsOfBodies, AreProgramsOfSource};
ghost use Rattle.ga_source.specs.Cells.{AreUnusedCellsZero, HasRequestedCellGroups};
ghost use Rattle.ga_grid.specs.Grid.{optional_node_number};
ghost use Rattle.ga_parser.specs.Plain.{PlainRequests, is_node_keyword as is_node_word, body_words, body_word_lists, named_node_number, token_texts, plain_requests_of_words, optional_register_operand, as_plain_requests};
ghost use Rattle.ga_parser.specs.Requests.{refusal_of_source_fault};
ghost use Rattle.ga_parser.specs.Saying.{token_contents, TokenContent};
ghost use Rattle.ga_source.specs.Recovery.{label_name_of_operand, register_value_refusals};
ghost use Rattle.ga_parser.specs.Vocabulary.{register_bound};
ghost use Rattle.ga_source.specs.Made.{IsChipOfSource, AreDistinctCells, requested_cells, IsPlainSource, AreWordsOfSource};
ghost use Rattle.ga_parser.specs.declared.fault.SourceFaultCause.TheVariants.{Memory};
ghost use Rattle.ga_parser.specs.declared.scan.TokenKind.TheVariants.{Word};
ghost use Rattle.ga_source.specs.inner.{AreWordsOfDistinctNewNodes, IsOptionalNumberBelow, AreRegisterNumbersInRange, AreProgramsLoaded, AreOfFirst, AreAskedFirst};
ghost use Rattle.ga_parser.specs.inner.Drafting.{texts_of_tokens};

use super::group::CellGroup;
use super::loading::load;
use super::packing::pack;
use super::reading::resolve;
use ga_grid::{CHIP_NODE_COUNT, Chip, NodeId, parse_decimal_name};
use ga_node::{Node, NodePlace};
use ga_parser::{
    AssemblyRequest, InitialRegisters, Label, LocatedRequest, NodeRequests, Operand, Register,
    RegisterValue, SourceFault, SourceFaultCause, Token, read_requests_of_node_words,
    source_fault_at, source_words, tokens_through_first_fault,
};
use std::alloc::Global;

/// The node of a name of three digits.
pub(crate) fn node_named(text: &[u8]) -> Option<NodeId>
    ensures { optional_node_number result ≡ named_node_number text.now }
{
    NodeId::from_decimal_name(parse_decimal_name(text)?)
}

/// Whether the program of a node begins here.
pub(crate) fn is_node_keyword(text: &[u8]) -> bool
    ensures { result ≡ is_node_word text.now }
{
    text == b"node".as_slice()
}

/// The number of words before the next word `node`.
pub(crate) fn body_length(tokens: &[Token]) -> usize
    ensures in_range { result ≤ length tokens.now }
    ensures front { texts_of_tokens (take result tokens.now) ≡ body_words (texts_of_tokens tokens.now) }
    ensures behind { body_word_lists (texts_of_tokens (drop result tokens.now)) ≡ body_word_lists (texts_of_tokens tokens.now) }
    ensures next { body_words (texts_of_tokens (drop result tokens.now)) ≡ [] }
    ensures said { token_contents (take result tokens.now) ≡ body_tokens (token_contents tokens.now) }
    ensures said_behind { body_token_lists (token_contents (drop result tokens.now)) ≡ body_token_lists (token_contents tokens.now) }
{
    for (i, token) in tokens.iter().enumerate() {
        if is_node_keyword(token.text) {
            return i;
        }
    }
    tokens.len()
}

/// Whether one of the requests asks for an item, and so for a cell.
fn requests_have_cells(asked: &[LocatedRequest]) -> bool
    ensures { result ≡ has_cells_of asked.now }
{
    asked.iter().any(|one| is_item_request(one.request))
}

/// Whether a request asks for an item.
fn is_item_request(request: AssemblyRequest) -> bool
    ensures { result ≡ is_item_of request }
{
    match request {
        AssemblyRequest::PlaceItem(_) | AssemblyRequest::Unext(_) => true,
        _ => false,
    }
}

/// Whether the label's name is `main`.
fn is_main(label: &Label<'_>) -> bool
    ensures { result ≡ is_label_named (codes "main") label.now }
{
    label.name == b"main".as_slice()
}

/// The first label `main`.
fn main_among(labels: &[Label<'_>]) -> Option<usize>
    ensures { result ≡ position (is_label_named (codes "main")) labels.now }
{
    labels.iter().position(|label| is_main(label))
}

/// P where no line gives it: the label `main` where there is one, or else 0.
fn default_p_operand(labels: &[Label<'_>]) -> Operand
    ensures { result ≡ start labels.now }
{
    match main_among(labels) {
        Some(label) => Operand::Label(label),
        None => Operand::Number(0),
    }
}

/// The registers of a program at load, where it gives these.
fn registers_of(
    given: InitialRegisters,
    labels: &[Label<'_>],
    requests_have_cells: bool,
) -> InitialRegisters
    ensures { result ≡ registers_at_load given labels.now requests_have_cells }
{
    let mut registers = given;
    if registers.p.is_none() && requests_have_cells {
        registers.p = Some(RegisterValue {
            line: 0,
            value: default_p_operand(labels),
        });
    }
    registers
}

/// The label's name, where the value is a label's address.
fn name_of<'s>(names: &[Label<'s>], value: Operand) -> &'s [u8]
    ensures { result.now ≡ label_name_of_operand names.now value }
{
    match value {
        Operand::Label(label) => match names.get(label) {
            Some(found) => found.name,
            None => &[],
        },
        Operand::Number(_) => &[],
    }
}

/// What a register gets, where it is given: below its bound.
pub(crate) fn value_given<'s>(
    labels: &[Option<u32>],
    names: &[Label<'s>],
    given: Option<RegisterValue>,
    register: Register,
) -> Result<Option<u32>, SourceFault<'s>>
    ensures in_range { IfOk result (λ found. IfSome found (λ value. value < register_bound register)) }
    ensures value { IfOk result (λ found. found ≡ given_register_value labels.now given) }
    ensures right { IfOk result (λ _. register_value_refusals labels.now names.now register given ≡ []) }
    ensures wrong { IfErr result (λ fault. register_value_refusals labels.now names.now register given ≡ refusal_of_source_fault fault ∷ []) }
    ensures refused { OnErr result (IsOptionalNumberBelow (register_bound register) (optional_register_operand given) → ⊥) }
{
    let Some(given) = given else {
        return Ok(None);
    };
    match resolve(labels, given.value) {
        Some(found) if found < register.bound() => Ok(Some(found)),
        _ => {
            let cause = SourceFaultCause::OperandOutOfRange(
                name_of(names, given.value),
                register.range(),
            );
            Err(source_fault_at(given.line, cause))
        }
    }
}

/// Sets the registers at load.
fn set_registers<'s>(
    node: &mut Node,
    labels: &[Option<u32>],
    names: &[Label<'s>],
    registers: InitialRegisters,
) -> Result<(), SourceFault<'s>>
    ensures set { OnOk result (node.new ≡ node_with_given_registers node.old labels.now registers) }
    ensures refused { OnErr result (AreRegisterNumbersInRange (optional_register_operand registers.p) (optional_register_operand registers.a) (optional_register_operand registers.b) → ⊥) }
{
    if let Some(value) = value_given(labels, names, registers.p, Register::P)? {
        node.set(NodePlace::P, value);
    }
    if let Some(value) = value_given(labels, names, registers.a, Register::A)? {
        node.set(NodePlace::A, value);
    }
    if let Some(value) = value_given(labels, names, registers.b, Register::B)? {
        node.set(NodePlace::B, value);
    }
    Ok(())
}

/// What the source asks of a node, and where that went.
#[derive(Drop)]
pub struct Program<'s> {
    pub node: NodeId,
    /// The line of the node's name.
    pub line: u32,
    pub asked: Vec<LocatedRequest>,
    /// The addresses of the labels by their numbers.
    pub labels: Vec<Option<u32>>,
    /// The labels' names, empty for one that a control word made.
    pub names: Vec<Label<'s>>,
    pub registers: InitialRegisters,
    pub groups: Vec<CellGroup>,
}

/// A chip with programs, and what the source asks of each node that it names.
#[derive(Drop)]
pub struct AssembledChip<'s> {
    pub chip: Chip,
    pub programs: Vec<Program<'s>>,
}

/// Assembles the program of a node.
fn assemble_node<'s>(
    alloc: Global,
    id: NodeId,
    node: &mut Node,
    line: u32,
    tokens: &[Token<'s>],
) -> Result<Program<'s>, SourceFault<'s>>
    ensures node { IfOk result (λ program. program.node ≡ id) }
    ensures loaded { IfOk result (λ program. HasProgram node.old node.new program) }
    ensures asked { IfOk result (HasRequestsOfWords line (token_contents tokens.now)) }
    ensures groups { IfOk result HasRequestedCellGroups }
    ensures asks { IfOk result (λ program. (plain : PlainRequests) → plain_requests_of_words (texts_of_tokens tokens.now) ≡ Some plain → as_plain_requests program.asked.items program.registers ≡ plain) }
    ensures names { IfOk result (λ program. (plain : PlainRequests) → plain_requests_of_words (texts_of_tokens tokens.now) ≡ Some plain → program.names.items ≡ []) }
    ensures refused { IfErr result (λ fault. (plain : PlainRequests) → All (λ token. token.kind ≡ Word) tokens.now → plain_requests_of_words (texts_of_tokens tokens.now) ≡ Some plain →
        AreDistinctCells (requested_cells 0 plain.requests) → fault.cause ≡ Memory) }
{
    let NodeRequests {
        asked,
        names,
        registers: given,
    } = read_requests_of_node_words(alloc, line, tokens)?;
    let packed = pack(alloc, asked.as_slice(), names.len())?;
    let registers = registers_of(
        given,
        names.as_slice(),
        requests_have_cells(asked.as_slice()),
    );
    set_registers(node, packed.labels.as_slice(), names.as_slice(), registers)?;
    load(node, &packed, asked.as_slice())?;
    Ok(Program {
        node: id,
        line,
        asked,
        labels: packed.labels,
        names,
        registers: given,
        groups: packed.groups,
    })
}

/// No node has begun.
pub(crate) fn none_begun() -> [bool; CHIP_NODE_COUNT]
    ensures size { length result ≡ 144 }
    ensures empty { result ≡ replicate 144 false }
{
    [false; CHIP_NODE_COUNT]
}

/// Assembles the program of the node whose words come first, and returns how many words it has.
fn assemble_first<'s>(
    alloc: Global,
    chip: &mut Chip,
    begun: &mut [bool],
    programs: &mut Vec<Program<'s>>,
    words: &[Token<'s>],
) -> Result<usize, SourceFault<'s>>
    requires many { 0 < length words.now }
    requires size { length begun.old ≡ 144 }
    requires loaded { AreProgramsLoaded chip.old begun.old programs.old.items }
    ensures count { IfOk result (λ count. (0 < count) × (count ≤ length words.now)) }
    ensures loaded { OnOk result (AreProgramsLoaded chip.new begun.new programs.new.items) }
    ensures groups { OnOk result (All HasRequestedCellGroups programs.old.items → All HasRequestedCellGroups programs.new.items) }
    ensures read { (all : List (List (List ℕ))) → AreOfFirst all programs.old.items (body_word_lists (texts_of_tokens words.now)) →
        IfOk result (λ count. AreOfFirst all programs.new.items (body_word_lists (texts_of_tokens (drop count words.now)))) }
    ensures asked { (all : List (List TokenContent)) → AreAskedFirst all programs.old.items (body_token_lists (token_contents words.now)) →
        IfOk result (λ count. AreAskedFirst all programs.new.items (body_token_lists (token_contents (drop count words.now)))) }
    ensures sound { IfOk result (λ count. AreWordsOfDistinctNewNodes begun.old words.now → AreWordsOfDistinctNewNodes begun.new (drop count words.now)) }
    ensures refused { IfErr result (λ fault. AreWordsOfDistinctNewNodes begun.old words.now → fault.cause ≡ Memory) }
{
    let first = words[0];
    if !is_node_keyword(first.word()?) {
        return Err(source_fault_at(first.line, SourceFaultCause::NoNodeBegun));
    }
    if words.len() < 2 {
        return Err(source_fault_at(first.line, SourceFaultCause::MissingNameOrValue));
    }
    let name = words[1];
    let Some(id) = node_named(name.word()?) else {
        return Err(source_fault_at(name.line, SourceFaultCause::NoSuchNode));
    };
    if begun[id.index()] {
        return Err(source_fault_at(name.line, SourceFaultCause::NodeTwice));
    }
    begun[id.index()] = true;
    let (_, behind) = words.split_at(2);
    let count = body_length(behind);
    let (body, _) = behind.split_at(count);
    let program = assemble_node(alloc, id, chip.node_mut(id), name.line, body)?;
    programs.push(program)?;
    Ok(count + 2)
}

/// The chip of words. A fault's line is the number in its place.
///
/// # Errors
/// A fault of the first node that has one: the first of its words, otherwise of its names, otherwise of its cells.
pub fn assemble_words<'s>(
    alloc: Global,
    words: &[Token<'s>],
) -> Result<AssembledChip<'s>, SourceFault<'s>>
    // Each node that is named has its program and its registers, and all else of the chip is as at load.
    ensures programs { IfOk result (λ all. IsAssembledChip all.chip all.programs.items) }

    // Each program is that of the words after a `node`, in order, and has exactly their requests.
    ensures asked { IfOk result (λ all. AreProgramsOfBodies (body_token_lists (token_contents words.now)) all.programs.items) }

    // The groups of each program are the cells that its requests make, in order.
    ensures groups { IfOk result (λ all. All HasRequestedCellGroups all.programs.items) }

    // Each program asks for what its words ask for as plain words, where they are.
    ensures read { IfOk result (λ all. ArePlainBodyPrograms (body_word_lists (token_texts (token_contents words.now))) all.programs.items) }

    // The words of a source of plain words that give each cell once are refused for want of memory alone.
    ensures refused { IfErr result (λ fault. (source : List ℕ) → AreWordsOfSource source (token_contents words.now) → IsPlainSource source → fault.cause ≡ Memory) }
{
    let mut chip = match Chip::new(alloc) {
        Ok(chip) => chip,
        Err(_) => return Err(source_fault_at(0, SourceFaultCause::Memory)),
    };
    let mut begun = none_begun();
    let mut programs = Vec::new(alloc);
    let mut start = 0;
    while start < words.len() {
        start += assemble_first(alloc, &mut chip, &mut begun, &mut programs, &words[start..])?;
    }
    Ok(AssembledChip { chip, programs })
}

/// The chip of a source, up to its end or to a line `end`.
///
/// # Errors
/// A fault of the first node that has one: the first of its words, or else of its names, or else of its cells.
pub fn assemble_source_text(
    alloc: Global,
    source: &[u8],
) -> Result<AssembledChip<'_>, SourceFault<'_>>
    // Each node that is named has its program and its registers, and all else of the chip is as at load.
    ensures programs { IfOk result (λ all. IsAssembledChip all.chip all.programs.items) }

    // Each program is that of the words after a `node`, in order, and has exactly their requests with their lines, the labels
    // and the registers.
    ensures asked { IfOk result (λ all. AreProgramsOfSource source.now all.programs.items) }

    // The groups of each program are the cells that its requests make, in order: each has just their items, each with its request's line.
    ensures groups { IfOk result (λ all. All HasRequestedCellGroups all.programs.items) }

    // Each program asks for what its words ask for as plain words, where they are.
    ensures read { IfOk result (λ all. ArePlainProgramsOfSource source.now all.programs.items) }

    // The words after a `node` make its node, if they are plain, and a node that isn't named is as at load.
    ensures made { IfOk result (λ all. IsChipOfSource source.now all.chip) }

    // A source of plain words that give each cell once is refused for want of memory alone.
    ensures refused { IfErr result (λ fault. IsPlainSource source.now → fault.cause ≡ Memory) }

    // Each cell that nobody names is 0.
    ensures empty { IfOk result (λ all. AreUnusedCellsZero all.chip all.programs.items) }

    // No node waits, so that the chip has an image.
    ensures steady { IfOk result (λ all. HaveWaitsFittingSlotsAndStops (records_of_chip all.chip)) }
{
    let tokens = source_words(alloc, source)?;
    assemble_words(alloc, tokens_through_first_fault(tokens.as_slice()))
}
