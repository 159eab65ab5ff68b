//! Groups loaded into a node.

ghost use Rattle.std.specs.Prelude.{◌≡◌, ◌≢◌, ◌-◌, ◌%◌, ◌<◌, ◌≤◌, ◌^◌, ℕ, Some, true, false, List, [], ◌∷◌, length, replicate, slice_index_or, slice_set, OnOk, OnErr, IsOk, IfSome, IsSome};
ghost use Rattle.std.specs.List.{All};
ghost use Rattle.ga_node.specs.State.{node_with_value, HasFullMemoryOfPlace};
ghost use Rattle.ga_slots.specs.Codes.{code_of_opcode};
ghost use Rattle.ga_slots.specs.Slots.{opcode as opcode_of, target as target_of};
ghost use Rattle.ga_source.specs.Reading.{first_spot_of_cell as begin_of, item_ends_cell, cells_match_requests as follows_of, slot_reaches_address as reaches_to, operand_value, word_at_address};
ghost use Rattle.ga_source.specs.inner.{IsFittingGroup, ArePackedRequestsLaidOut, group_uses_cell, HasItemInSlot, HasItemOperand, IsGivenMemoryCell, IsLiteralCellGiven, IsLoadedGroup, IsMemoryCell, IsWordOfItems, KeepsGivenCells, JumpReachesLabel, MayEndCell, IsCellOfAddress, KeepsOtherThanMemories, opcode_of_item, nothing, IsGroupOfOneDataCell, AreCellGroups, AreCellValuesWords, Adds, IsAnyFaultList};
ghost use Rattle.ga_parser.specs.declared.item.Operand.{Operand as ValueOf};
ghost use Rattle.ga_source.specs.Made.{IsMemoryAddress, AreDistinctCells};
ghost use Rattle.ga_source.specs.Cells.{KeepsOtherCells, requests_use_cell, is_address_of_cell, item_uses_cell};

use super::group::{CellGroup, PackingSpot};
use super::packing::PackedNode;
use super::reading::{first_spot_of_cell, resolve, slot_reaches_address, spot_after_item};
use ga_node::{Node, NodePlace};
use ga_parser::{
    AssemblyItem, LocatedRequest, Operand, SourceFault, SourceFaultCause, source_fault_at,
};
use ga_ports::advance_p;
use ga_slots::{Op, encode};
use ga_word::Word18;
use std::alloc::{AllocError, Global};

/// The addresses of cells are below this.
const CELLS: usize = 192;

/// The place of the cell at an address, where there is one.
pub(crate) fn place_of(address: u32) -> Option<NodePlace>
    ensures cell { IfSome result (IsCellOfAddress address) }
    ensures some { IsMemoryAddress address → IsSome result }
{
    let low = address % 512;
    if low < 64 {
        Some(NodePlace::Ram(low as u8))
    } else if 128 <= low && low < 192 {
        Some(NodePlace::Rom((low - 128) as u8))
    } else {
        None
    }
}

/// The word with a jump to an address in its slot, the last one; bits of a word that neither hold are 0.
#[tactic(auto, using(crate::proofs::Making::same_first, crate::proofs::Making::same_second, crate::proofs::Making::same_third, crate::proofs::Making::reached))]
fn with_target(word: Word18, slot: usize, address: u32) -> Word18
    requires { slot < 3 }
    ensures first { opcode_of result 0 ≡ opcode_of word 0 }
    ensures second { 1 ≤ slot → opcode_of result 1 ≡ opcode_of word 1 }
    ensures third { 2 ≤ slot → opcode_of result 2 ≡ opcode_of word 2 }
    ensures jump_leads_to_address { (p : ℕ) → reaches_to p slot (Some address) ≡ true → target_of p result slot ≡ address }
{
    let kept = word.get();
    Word18::from_low_bits(match slot {
        0 => kept / 0x2000 * 0x2000 + address % 0x400,
        1 => kept / 0x100 * 0x100 + address % 0x100,
        _ => kept / 8 * 8 + address % 8,
    })
}

/// The opcode of an item.
fn opcode_in(item: AssemblyItem) -> Op
    ensures { result ≡ opcode_of_item item }
{
    match item {
        AssemblyItem::Opcode(op)
        | AssemblyItem::JumpToEarlierLabel(op, _)
        | AssemblyItem::JumpToLaterLabel(op, _) => op,
        AssemblyItem::Literal(_) => Op::FetchP,
        AssemblyItem::Cell(_) => Op::Nop,
    }
}

/// A word of four `.`.
fn all_nop() -> [Op; 4]
    ensures { result ≡ replicate 4 Op.Nop }
{
    [Op::Nop; 4]
}

/// The opcodes of items, followed by `.`.
fn opcodes_in(items: &[AssemblyItem]) -> [Op; 4]
    requires { length items.now ≤ 4 }
    ensures size { length result ≡ 4 }
    ensures ops { (k : ℕ) → k < length items.now → slice_index_or result k Op.Return ≡ opcode_of_item (slice_index_or items.now k nothing) }
    ensures behind { (k : ℕ) → length items.now ≤ k → k < 4 → slice_index_or result k Op.Return ≡ Op.Nop }
{
    let mut ops = all_nop();
    for (slot, item) in items.iter().enumerate() {
        ops[slot] = opcode_in(*item);
    }
    ops
}

/// The instruction word with the opcodes of some items, followed by `.`.
fn opcode_word(items: &[AssemblyItem]) -> Word18
    requires few { length items.now ≤ 4 }
    requires last { length items.now ≡ 4 → code_of_opcode (opcode_of_item (slice_index_or items.now 3 nothing)) % 4 ≡ 0 }
    ensures ops { (k : ℕ) → k < length items.now → opcode_of result k ≡ opcode_of_item (slice_index_or items.now k nothing) }
    ensures behind { (k : ℕ) → length items.now ≤ k → k < 4 → opcode_of result k ≡ Op.Nop }
{
    match encode(opcodes_in(items)) {
        Some(word) => word,
        None => unreachable!(),
    }
}

/// A value as a word, where it is one.
fn value_in(labels: &[Option<u32>], value: Operand) -> Option<Word18>
    ensures value { IfSome result (λ word. operand_value labels.now value ≡ Some word) }
    ensures some { (n : ℕ) → value ≡ Operand.Number n → n < 2 ^ 18 → IsSome result }
{
    Word18::new(resolve(labels, value)?)
}

/// The word with a jump to a label in its slot, the last one, where the label has an address.
fn with_jump(labels: &[Option<u32>], word: Word18, slot: usize, label: usize) -> Option<Word18>
    requires { slot < 3 }
    ensures jump_leads_to_address { IfSome result (λ found. JumpReachesLabel labels.now found slot label) }
    ensures before { IfSome result (λ found. (k : ℕ) → k ≤ slot → opcode_of found k ≡ opcode_of word k) }
{
    let address = resolve(labels, Operand::Label(label))?;
    Some(with_target(word, slot, address))
}

/// The word with its last item, in this slot, by the word of the opcodes.
fn with_last(
    labels: &[Option<u32>],
    word: Word18,
    slot: usize,
    last: AssemblyItem,
) -> Option<Word18>
    requires { MayEndCell slot last }
    ensures has { IfSome result (λ found. opcode_of word slot ≡ opcode_of_item last → HasItemInSlot labels.now found slot last) }
    ensures before { IfSome result (λ found. (k : ℕ) → k < slot → opcode_of found k ≡ opcode_of word k) }
    ensures behind { IfSome result (λ found. item_ends_cell last ≡ false → found ≡ word) }
    ensures some { (n : ℕ) → last ≡ AssemblyItem.Cell (Operand.Number n) → n < 2 ^ 18 → IsSome result }
{
    match last {
        AssemblyItem::Cell(value) => value_in(labels, value),
        AssemblyItem::JumpToEarlierLabel(_, label) => with_jump(labels, word, slot, label),
        AssemblyItem::JumpToLaterLabel(_, label) => with_jump(labels, word, slot, label),
        AssemblyItem::Opcode(_) | AssemblyItem::Literal(_) => Some(word),
    }
}

/// The word of a group, where the values that it names are words.
fn word_of(labels: &[Option<u32>], group: &CellGroup) -> Option<Word18>
    requires begun { 0 < length group.now.items.items }
    requires fit { IsFittingGroup labels.now group.now }
    ensures word { IfSome result (λ word. IsWordOfItems labels.now group.now.items.items word) }
    ensures some { (n : ℕ) → group.now.items.items ≡ AssemblyItem.Cell (Operand.Number n) ∷ [] → n < 2 ^ 18 → IsSome result }
{
    let items = group.items.as_slice();
    let word = opcode_word(items);
    let slot = items.len() - 1;
    with_last(labels, word, slot, items[slot])
}

/// Writes a cell of a memory.
fn set_cell(node: &mut Node, place: NodePlace, word: Word18)
    requires { IsMemoryCell place }
    ensures value { node.new ≡ node_with_value node.old place word }
    ensures size { HasFullMemoryOfPlace node.old place }
{
    let _before = node.get(place);
    node.set(place, word.get());
}

/// Writes a cell that wasn't given before.
fn write(
    node: &mut Node,
    given: &mut [Option<u32>],
    line: u32,
    address: u32,
    word: Word18,
) -> Result<(), SourceFault<'static>>
    ensures rest { OnOk result (KeepsOtherThanMemories node.old node.new) }
    ensures elsewhere { OnOk result (KeepsOtherCells (is_address_of_cell address) node.old node.new) }
    ensures written { OnOk result (word_at_address node.new address ≡ Some word) }
    ensures held { OnOk result (IsGivenMemoryCell given.new (address % 512)) }
    ensures kept { OnOk result (KeepsGivenCells node.old given.old node.new given.new) }
    ensures given { OnOk result (given.new ≡ slice_set given.old (address % 512) (Some line)) }
    ensures refused { OnErr result (IsMemoryAddress address → length given.old ≡ 192 → slice_index_or given.old (address % 512) None ≢ None) }
{
    let low = address % 512;
    let Some(place) = place_of(address) else {
        return Err(source_fault_at(line, SourceFaultCause::PastMemoryEnd(low)));
    };
    let cell = low as usize;
    if cell >= given.len() {
        return Err(source_fault_at(line, SourceFaultCause::PastMemoryEnd(low)));
    }
    if let Some(before) = given[cell] {
        let cause = SourceFaultCause::CellTwice {
            cell: low,
            line: before,
        };
        return Err(source_fault_at(line, cause));
    }
    given[cell] = Some(line);
    set_cell(node, place, word);
    Ok(())
}

/// Whether a jump reaches its label from its spot.
fn see_jump(
    labels: &[Option<u32>],
    line: u32,
    spot: PackingSpot,
    label: usize,
) -> Result<(), SourceFault<'static>>
    ensures { OnOk result ((spot.slot < 3) × (reaches_to spot.p spot.slot (operand_value labels.now (Operand.Label label)) ≡ true)) }
{
    let to = resolve(labels, Operand::Label(label));
    if spot.slot < 3 && slot_reaches_address(spot.p, spot.slot, to) {
        Ok(())
    } else {
        let cause = SourceFaultCause::JumpOutOfReach {
            cell: spot.at,
            target: to.unwrap_or(0),
        };
        Err(source_fault_at(line, cause))
    }
}

/// Writes the cell of a literal, or sees whether a jump reaches its label.
fn write_item(
    node: &mut Node,
    given: &mut [Option<u32>],
    labels: &[Option<u32>],
    line: u32,
    spot: PackingSpot,
    item: AssemblyItem,
) -> Result<(), SourceFault<'static>>
    ensures rest { OnOk result (KeepsOtherThanMemories node.old node.new) }
    ensures elsewhere { OnOk result (KeepsOtherCells (item_uses_cell spot item) node.old node.new) }
    ensures has { OnOk result (HasItemOperand node.new labels.now spot item) }
    ensures held { OnOk result (IsLiteralCellGiven given.new spot item) }
    ensures kept { OnOk result (KeepsGivenCells node.old given.old node.new given.new) }
    ensures same { (value : ValueOf) → item ≡ AssemblyItem.Cell value → given.new ≡ given.old }
    ensures taken { (value : ValueOf) → item ≡ AssemblyItem.Cell value → IsOk result }
{
    match item {
        AssemblyItem::Literal(value) => match value_in(labels, value) {
            Some(word) => write(node, given, line, spot.p, word),
            None => Err(source_fault_at(line, SourceFaultCause::MissingNameOrValue)),
        },
        AssemblyItem::JumpToEarlierLabel(_, label) => see_jump(labels, line, spot, label),
        AssemblyItem::JumpToLaterLabel(_, label) => see_jump(labels, line, spot, label),
        AssemblyItem::Opcode(_) | AssemblyItem::Cell(_) => Ok(()),
    }
}

/// Writes the cells of a group: its word, and then by its items the literals.
fn write_group(
    node: &mut Node,
    given: &mut [Option<u32>],
    labels: &[Option<u32>],
    group: &CellGroup,
) -> Result<(), SourceFault<'static>>
    requires { IsFittingGroup labels.now group.now }
    ensures rest { OnOk result (KeepsOtherThanMemories node.old node.new) }
    ensures elsewhere { OnOk result (KeepsOtherCells (λ cell. group_uses_cell cell group.now) node.old node.new) }
    ensures kept { OnOk result (KeepsGivenCells node.old given.old node.new given.new) }
    ensures loaded { OnOk result (IsLoadedGroup node.new labels.now given.new group.now) }
    ensures given { OnOk result ((cell : ℕ × ℕ) (k : ℕ) → IsGroupOfOneDataCell cell group.now → k ≢ cell.0 % 512 →
        slice_index_or given.new k None ≡ slice_index_or given.old k None) }
    ensures refused { OnErr result ((cell : ℕ × ℕ) → IsGroupOfOneDataCell cell group.now → cell.1 < 2 ^ 18 → IsMemoryAddress cell.0 → length given.old ≡ 192 →
        slice_index_or given.old (cell.0 % 512) None ≢ None) }
{
    if let Some(line) = group.broken {
        return Err(source_fault_at(line, SourceFaultCause::UnextOutOfReach(group.address)));
    }
    let items = group.items.as_slice();
    if items.is_empty() {
        return Ok(());
    }
    let Some(word) = word_of(labels, group) else {
        return Err(source_fault_at(group.line(), SourceFaultCause::MissingNameOrValue));
    };
    write(node, given, group.line(), group.address, word)?;
    let mut spot = first_spot_of_cell(group.address);
    for (i, item) in items.iter().enumerate() {
        write_item(node, given, labels, group.line_of(i), spot, *item)?;
        spot = spot_after_item(spot, *item);
    }
    Ok(())
}

/// No cell is given.
fn none_given() -> [Option<u32>; CELLS]
    ensures size { length result ≡ 192 }
    ensures empty { result ≡ replicate 192 None }
{
    [None; CELLS]
}

/// Loads packed groups into a node, whose cells then read as the words that were packed. Its registers stay.
pub(crate) fn load(
    node: &mut Node,
    packed: &PackedNode,
    asked: &[LocatedRequest],
) -> Result<(), SourceFault<'static>>
    requires { ArePackedRequestsLaidOut packed.now asked.now }
    ensures cells_match_requests { OnOk result (follows_of node.new packed.now.labels.items (begin_of 0) asked.now ≡ true) }
    ensures rest { OnOk result (KeepsOtherThanMemories node.old node.new) }
    ensures elsewhere { OnOk result (KeepsOtherCells (requests_use_cell packed.now.labels.items (begin_of 0) asked.now) node.old node.new) }
    ensures refused { OnErr result ((cells : List (ℕ × ℕ)) → AreCellGroups cells packed.now.groups.items → AreCellValuesWords cells → AreDistinctCells cells → ⊥) }
{
    let labels = packed.labels.as_slice();
    let mut given = none_given();
    for group in &packed.groups {
        write_group(node, &mut given, labels, group)?;
    }
    Ok(())
}

/// Whether a cell is past the end of memory.
fn is_past(fault: Option<SourceFault<'_>>) -> bool {
    match fault {
        Some(
            SourceFault {
                line: _,
                cause: SourceFaultCause::PastMemoryEnd(_),
            },
        ) => true,
        _ => false,
    }
}

/// The address of the next cell after a group, without bit 9.
fn next_cell_of(group: &CellGroup) -> u32 {
    let mut p = advance_p(group.address);
    for item in &group.items {
        if let AssemblyItem::Literal(_) = item {
            p = advance_p(p);
        }
    }
    p % 512
}

/// Loads a group into a node, or adds its first fault and returns it.
#[tactic(auto, using(crate::proofs::Recovering::any_none, crate::proofs::Recovering::any_more))]
fn load_group<'s>(
    node: &mut Node,
    given: &mut [Option<u32>],
    labels: &[Option<u32>],
    group: &CellGroup,
    faults: &mut Vec<SourceFault<'s>>,
) -> Result<Option<SourceFault<'s>>, AllocError>
    requires { IsFittingGroup labels.now group.now }
    ensures { OnOk result (Adds IsAnyFaultList faults.old.items faults.new.items) }
{
    match write_group(node, given, labels, group) {
        Ok(()) => Ok(None),
        Err(fault) => {
            faults.push(fault)?;
            Ok(Some(fault))
        }
    }
}

/// Loads the packed groups that aren't at fault into a node, and adds the first fault of each other one. Groups that continue after one past
/// the end of memory are left out without a fault. Returns which groups were loaded.
#[tactic(auto, using(crate::proofs::Recovering::any_none, crate::proofs::Recovering::any_both))]
pub(crate) fn load_left<'s>(
    alloc: Global,
    node: &mut Node,
    packed: &PackedNode,
    faults: &mut Vec<SourceFault<'s>>,
) -> Result<Vec<bool>, AllocError>
    requires { All (IsFittingGroup packed.now.labels.items) packed.now.groups.items }
    ensures { OnOk result (Adds IsAnyFaultList faults.old.items faults.new.items) }
{
    let labels = packed.labels.as_slice();
    let mut given = none_given();
    let mut loaded = Vec::new(alloc);
    let mut past = None;
    for group in &packed.groups {
        if past == Some(group.address % 512) {
            past = Some(next_cell_of(group));
            loaded.push(false)?;
            continue;
        }
        let fault = load_group(node, &mut given, labels, group, faults)?;
        past = if is_past(fault) {
            Some(next_cell_of(group))
        } else {
            None
        };
        loaded.push(fault.is_none())?;
    }
    Ok(loaded)
}
