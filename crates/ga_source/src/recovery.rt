//! Words of which some are at fault: all faults, and what the other words give.

ghost use Rattle.std.specs.Prelude.{◌≡◌, ◌≤◌, ◌<◌, ◌++◌, ◌∷◌, [], true, length, drop, IfOk, IfErr, OnOk};
ghost use Rattle.ga_parser.specs.declared.fault.SourceFaultCause.TheVariants.{Memory};
ghost use Rattle.ga_parser.specs.Saying.{token_contents};
ghost use Rattle.ga_source.specs.Recovery.{tokens_with_word_numbers, register_value_refusals, register_refusals, AreFaultsOfRequests, AreFaultsOfNode, AreFaultsOfWords, AreFaultsOfSource, faults_or_first_fault as or_this};
ghost use Rattle.ga_source.specs.inner.{Adds, AreFaultsOfRefusals, BeginsNewNode, AddsFaultsBeforeRest};

use super::group::CellGroup;
use super::loading::load_left;
use super::node_start::{node_begun, skipped_length};
use super::numbered_words::{faults_on_lines_of_words, number_words};
use super::packing::{PackedNode, pack};
use super::program::{AssembledChip, Program, body_length, none_begun, value_given};
use ga_grid::{Chip, NodeId};
use ga_node::Node;
use ga_parser::{
    InitialRegisters, Label, NodeRequests, RecoveredRequests, Register, RegisterValue, SourceFault,
    SourceFaultCause, Token, recover_requests, source_fault_at, source_words_without_copies,
};
use std::alloc::{AllocError, Global};

/// The programs of words without those at fault, and all faults.
#[derive(Drop)]
pub struct RecoveredPrograms<'s> {
    /// The programs, with the cells that aren't at fault.
    pub assembled: AssembledChip<'s>,
    /// The faults in the order of their words, each with the number of its word in place of the line.
    pub faults: Vec<SourceFault<'s>>,
}

/// Whether memory ran out.
fn is_memory(fault: SourceFault<'_>) -> bool
    ensures { result ≡ true → fault.entry.cause ≡ Memory }
{
    match fault.cause {
        SourceFaultCause::Memory => true,
        _ => false,
    }
}

/// Adds a fault, unless memory ran out.
fn add_fault<'s>(
    faults: &mut Vec<SourceFault<'s>>,
    fault: SourceFault<'s>,
) -> Result<(), SourceFault<'s>>
    ensures added { OnOk result (faults.new.items ≡ faults.old.items ++ fault.entry ∷ []) }
    ensures refused { IfErr result (λ refused. refused.cause ≡ Memory) }
{
    if is_memory(fault) {
        return Err(fault);
    }
    faults.push(fault)?;
    Ok(())
}

/// Adds the fault of a register that is given a number out of its range.
#[tactic(auto, using(crate::proofs::Recovering::refused_none, crate::proofs::Recovering::refused_one))]
fn add_given<'s>(
    faults: &mut Vec<SourceFault<'s>>,
    labels: &[Option<u32>],
    names: &[Label<'s>],
    given: Option<RegisterValue>,
    register: Register,
) -> Result<(), AllocError>
    ensures { OnOk result (Adds (AreFaultsOfRefusals (register_value_refusals labels.now names.now register given)) faults.old.items faults.new.items) }
{
    match value_given(labels, names, given, register) {
        Ok(_) => Ok(()),
        Err(fault) => {
            faults.push(fault)?;
            Ok(())
        }
    }
}

/// The groups that were loaded.
fn groups_loaded(
    alloc: Global,
    groups: Vec<CellGroup>,
    loaded: &[bool],
) -> Result<Vec<CellGroup>, AllocError> {
    let mut left = Vec::new(alloc);
    for (group, is_loaded) in groups.into_iter().zip(loaded) {
        if *is_loaded {
            left.push(group)?;
        }
    }
    Ok(left)
}

/// Adds the faults of the values of registers at load.
#[tactic(auto, using(crate::proofs::Recovering::refused_three))]
fn add_registers<'s>(
    faults: &mut Vec<SourceFault<'s>>,
    labels: &[Option<u32>],
    names: &[Label<'s>],
    registers: InitialRegisters,
) -> Result<(), AllocError>
    ensures { OnOk result (Adds (AreFaultsOfRefusals (register_refusals labels.now names.now registers)) faults.old.items faults.new.items) }
{
    add_given(faults, labels, names, registers.p, Register::P)?;
    add_given(faults, labels, names, registers.a, Register::A)?;
    add_given(faults, labels, names, registers.b, Register::B)?;
    Ok(())
}

/// Adds the program of requests of a node without its cells at fault, and the faults of its registers and cells.
#[tactic(auto, using(crate::proofs::Recovering::one_unpacked, crate::proofs::Recovering::all_packed))]
fn load_requests<'s>(
    alloc: Global,
    id: NodeId,
    node: &mut Node,
    line: u32,
    requests: NodeRequests<'s>,
    programs: &mut Vec<Program<'s>>,
    faults: &mut Vec<SourceFault<'s>>,
) -> Result<(), SourceFault<'s>>
    ensures added { OnOk result (Adds (AreFaultsOfRequests requests.entry) faults.old.items faults.new.items) }
    ensures refused { IfErr result (λ fault. fault.cause ≡ Memory) }
{
    let NodeRequests {
        asked,
        names,
        registers,
    } = requests;
    let packed = match pack(alloc, asked.as_slice(), names.len()) {
        Ok(packed) => packed,
        Err(fault) => {
            add_fault(faults, fault)?;
            return Ok(());
        }
    };
    add_registers(
        faults,
        packed.labels.as_slice(),
        names.as_slice(),
        registers,
    )?;
    let loaded = load_left(alloc, node, &packed, faults)?;
    let PackedNode { groups, labels } = packed;
    programs.push(Program {
        node: id,
        line,
        asked,
        labels,
        names,
        registers,
        groups: groups_loaded(alloc, groups, loaded.as_slice())?,
    })?;
    Ok(())
}

/// Adds the program of a node without its words at fault, and their faults.
#[tactic(auto, using(crate::proofs::Recovering::all_of_node))]
fn recover_node<'s>(
    alloc: Global,
    id: NodeId,
    node: &mut Node,
    line: u32,
    tokens: &[Token<'s>],
    programs: &mut Vec<Program<'s>>,
    faults: &mut Vec<SourceFault<'s>>,
) -> Result<(), SourceFault<'s>>
    ensures added { OnOk result (Adds (AreFaultsOfNode line (token_contents tokens.now)) faults.old.items faults.new.items) }
    ensures refused { IfErr result (λ fault. fault.cause ≡ Memory) }
{
    let RecoveredRequests {
        requests,
        faults: of_words,
    } = recover_requests(alloc, line, tokens)?;
    faults.extend_from_slice(of_words.as_slice())?;
    load_requests(alloc, id, node, line, requests, programs, faults)?;
    Ok(())
}

/// Adds the program of the node with which the words begin, and returns the number of its words.
fn recover_begun<'s>(
    alloc: Global,
    id: NodeId,
    chip: &mut Chip,
    begun: &mut [bool],
    programs: &mut Vec<Program<'s>>,
    faults: &mut Vec<SourceFault<'s>>,
    words: &[Token<'s>],
) -> Result<usize, SourceFault<'s>>
    requires size { length begun.old ≡ 144 }
    requires node { BeginsNewNode begun.old (token_contents words.now) id.number }
    ensures count { IfOk result (λ count. (0 < count) × (count ≤ length words.now)) }
    ensures faults { IfOk result (λ count. AddsFaultsBeforeRest begun.old (token_contents words.now) begun.new (token_contents (drop count words.now)) faults.old.items faults.new.items) }
    ensures refused { IfErr result (λ fault. fault.cause ≡ Memory) }
{
    begun[id.index()] = true;
    let name = words[1];
    let (_, behind) = words.split_at(2);
    let count = body_length(behind);
    let (body, _) = behind.split_at(count);
    recover_node(
        alloc,
        id,
        chip.node_mut(id),
        name.line,
        body,
        programs,
        faults,
    )?;
    Ok(count + 2)
}

/// Adds the program of the node whose words are first, and returns the number of its words. If no node begins, the words up to the next
/// `node` are skipped, with the name after a `node`; after a fault of a line or of a constant nothing is.
fn recover_first<'s>(
    alloc: Global,
    chip: &mut Chip,
    begun: &mut [bool],
    programs: &mut Vec<Program<'s>>,
    faults: &mut Vec<SourceFault<'s>>,
    words: &[Token<'s>],
) -> Result<usize, SourceFault<'s>>
    requires some { 0 < length words.now }
    requires size { length begun.old ≡ 144 }
    ensures count { IfOk result (λ count. (0 < count) × (count ≤ length words.now)) }
    ensures faults { IfOk result (λ count. AddsFaultsBeforeRest begun.old (token_contents words.now) begun.new (token_contents (drop count words.now)) faults.old.items faults.new.items) }
    ensures refused { IfErr result (λ fault. fault.cause ≡ Memory) }
{
    match node_begun(begun, words) {
        Ok(id) => recover_begun(alloc, id, chip, begun, programs, faults, words),
        Err(fault) => {
            faults.push(fault)?;
            Ok(skipped_length(words))
        }
    }
}

/// The programs of words without those at fault, and all faults. In place of lines there are the numbers of words, from 1 on.
///
/// - A faulty word is skipped, with a directive before it that takes it and each `,` after it. What follows is read as if they weren't
///   there. So is a word that names a label without a place.
/// - If no node begins, the words up to the next `node` are skipped, with the name after a `node`; after a fault of a line or of a constant
///   nothing is.
/// - A faulty cell is left out, and the others keep their addresses. Cells that continue after one past the end of memory are left out
///   without a fault of their own.
///
/// # Errors
/// Out of memory.
pub fn recover_programs<'s>(
    alloc: Global,
    words: &[Token<'s>],
) -> Result<RecoveredPrograms<'s>, SourceFault<'s>>
    ensures faults { IfOk result (λ all. AreFaultsOfWords (token_contents (tokens_with_word_numbers 1 words.now)) all.faults.items) }
    ensures refused { IfErr result (λ fault. fault.cause ≡ Memory) }
{
    let numbered = number_words(alloc, words)?;
    let all = numbered.as_slice();
    let mut chip = match Chip::new(alloc) {
        Ok(chip) => chip,
        Err(_) => return Err(source_fault_at(0, SourceFaultCause::Memory)),
    };
    let mut begun = none_begun();
    let mut programs = Vec::new(alloc);
    let mut faults = Vec::new(alloc);
    let mut start = 0;
    while start < all.len() {
        start += recover_first(
            alloc,
            &mut chip,
            &mut begun,
            &mut programs,
            &mut faults,
            &all[start..],
        )?;
    }
    faults.sort_by_key(|fault| fault.line)?;
    Ok(RecoveredPrograms {
        assembled: AssembledChip { chip, programs },
        faults,
    })
}

/// These faults, or the first one if there are none. (That a source which isn't assembled has a fault is tested, not proved.)
///
/// # Errors
/// Out of memory.
pub fn faults_or_first_fault<'s>(
    mut faults: Vec<SourceFault<'s>>,
    first: SourceFault<'s>,
) -> Result<Vec<SourceFault<'s>>, AllocError>
    ensures { IfOk result (λ all. all.items ≡ or_this faults.entry.items first.entry) }
{
    if faults.is_empty() {
        faults.push(first)?;
    }
    Ok(faults)
}

/// All faults of a source that isn't assembled for this first one, in the order of lines, without those that have the text of the one
/// before.
///
/// # Errors
/// Out of memory.
pub fn find_all_faults<'s>(
    alloc: Global,
    source: &'s [u8],
    first: SourceFault<'s>,
) -> Result<Vec<SourceFault<'s>>, SourceFault<'s>>
    ensures faults { IfOk result (λ faults. AreFaultsOfSource source.now first.entry faults.items) }
    ensures refused { IfErr result (λ fault. fault.cause ≡ Memory) }
{
    if is_memory(first) {
        return Err(first);
    }
    let words = source_words_without_copies(alloc, source)?;
    let recovered = recover_programs(alloc, words.as_slice())?;
    let faults = faults_on_lines_of_words(alloc, words.as_slice(), recovered.faults.as_slice())?;
    Ok(faults_or_first_fault(faults, first)?)
}
