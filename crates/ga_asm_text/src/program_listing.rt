//! The lines of a program in a listing: its node, its labels and its cells.

ghost use Rattle.std.specs.Prelude.{OnOk};
ghost use Rattle.ga_asm_text.specs.inner.{fault_lines_left, IsTextExtended, IsListingExtended};

use super::fault_lines::FaultLines;
use super::number_text::{push_hex, push_node};
use ga_grid::{Chip, NodeId};
use ga_node::NodePlace;
use ga_ports::{AddressTarget, advance_p, classify_address};
use ga_slots::Op;
use ga_source::{AssemblyItem, AssemblyRequest, CellGroup, Operand, Program};
use std::alloc::AllocError;

/// Adds the name of a node, and its program.
#[tactic(auto, using(crate::proofs::FaultListing::grows, crate::proofs::FaultListing::tells_none, crate::proofs::FaultListing::tells_same, crate::proofs::FaultListing::tells_both))]
pub(crate) fn push_listed_program(
    text: &mut Vec<u8>,
    chip: &Chip,
    program: &Program<'_>,
    lines: &mut FaultLines<'_, '_>,
) -> Result<(), AllocError>
    ensures { OnOk result (IsListingExtended text.old.items text.new.items (fault_lines_left lines.old) (fault_lines_left lines.new)) }
{
    lines.push_before(text, program.line)?;
    push_node(text, program.node)?;
    push_program(text, chip, program, lines)?;
    Ok(())
}

/// Adds the labels and the cells of a program, in the order of the source.
#[tactic(auto, using(crate::proofs::FaultListing::grows, crate::proofs::FaultListing::tells_none, crate::proofs::FaultListing::tells_same, crate::proofs::FaultListing::tells_both))]
fn push_program(
    text: &mut Vec<u8>,
    chip: &Chip,
    program: &Program<'_>,
    lines: &mut FaultLines<'_, '_>,
) -> Result<(), AllocError>
    ensures { OnOk result (IsListingExtended text.old.items text.new.items (fault_lines_left lines.old) (fault_lines_left lines.new)) }
{
    let mut told = 0usize;
    for group in &program.groups {
        told = push_labels(text, program, told, group.line(), lines)?;
        push_group(text, chip, program, group, lines)?;
    }
    push_labels(text, program, told, u32::MAX, lines)?;
    Ok(())
}

/// Adds the labels of a program that come before the word with a number, but for those of the first requests. Returns how many
/// requests come before it.
#[tactic(auto, using(crate::proofs::FaultListing::grows, crate::proofs::FaultListing::tells_none, crate::proofs::FaultListing::tells_same, crate::proofs::FaultListing::tells_both))]
fn push_labels(
    text: &mut Vec<u8>,
    program: &Program<'_>,
    first: usize,
    number: u32,
    lines: &mut FaultLines<'_, '_>,
) -> Result<usize, AllocError>
    ensures { OnOk result (IsListingExtended text.old.items text.new.items (fault_lines_left lines.old) (fault_lines_left lines.new)) }
{
    let mut told = first;
    for asked in program.asked.iter().skip(first) {
        if asked.line >= number {
            return Ok(told);
        }
        if let AssemblyRequest::MarkLabel(label) = asked.request {
            push_label(text, program, label, asked.line, lines)?;
        }
        told = told.saturating_add(1);
    }
    Ok(told)
}

/// Adds the name of a label that has one.
#[tactic(auto, using(crate::proofs::FaultListing::grows, crate::proofs::FaultListing::tells_none, crate::proofs::FaultListing::tells_same, crate::proofs::FaultListing::tells_both))]
fn push_label(
    text: &mut Vec<u8>,
    program: &Program<'_>,
    label: usize,
    number: u32,
    lines: &mut FaultLines<'_, '_>,
) -> Result<(), AllocError>
    ensures { OnOk result (IsListingExtended text.old.items text.new.items (fault_lines_left lines.old) (fault_lines_left lines.new)) }
{
    let Some(found) = program.names.get(label) else {
        return Ok(());
    };
    if found.name.is_empty() {
        return Ok(());
    }
    lines.push_before(text, number)?;
    text.extend_from_slice(found.name)?;
    text.extend_from_slice(b":\n")?;
    Ok(())
}

/// Adds items, each after a blank.
#[tactic(auto, using(crate::proofs::FaultListing::grows, crate::proofs::FaultListing::grows_none, crate::proofs::FaultListing::grows_both))]
fn push_items(
    text: &mut Vec<u8>,
    program: &Program<'_>,
    items: &[AssemblyItem],
) -> Result<(), AllocError>
    ensures { OnOk result (IsTextExtended text.old.items text.new.items) }
{
    for item in items {
        text.push(b' ')?;
        push_item(text, program, *item)?;
    }
    Ok(())
}

/// Adds the cell of a literal.
#[tactic(auto, using(crate::proofs::FaultListing::grows, crate::proofs::FaultListing::grows_none, crate::proofs::FaultListing::grows_both))]
fn push_literal(
    text: &mut Vec<u8>,
    chip: &Chip,
    program: &Program<'_>,
    address: u32,
    value: Operand,
) -> Result<(), AllocError>
    ensures { OnOk result (IsTextExtended text.old.items text.new.items) }
{
    push_cell(text, chip, program.node, address)?;
    text.push(b' ')?;
    push_value(text, program, value)?;
    text.push(b'\n')?;
    Ok(())
}

/// Adds the cells of the literals of a group.
#[tactic(auto, using(crate::proofs::FaultListing::grows, crate::proofs::FaultListing::grows_none, crate::proofs::FaultListing::grows_both))]
fn push_literals(
    text: &mut Vec<u8>,
    chip: &Chip,
    program: &Program<'_>,
    group: &CellGroup,
) -> Result<(), AllocError>
    ensures { OnOk result (IsTextExtended text.old.items text.new.items) }
{
    let mut p = advance_p(group.address);
    for item in &group.items {
        if let AssemblyItem::Literal(value) = item {
            push_literal(text, chip, program, p, *value)?;
            p = advance_p(p);
        }
    }
    Ok(())
}

/// Adds the instruction word and the literals of a group, or its cell of data.
#[tactic(auto, using(crate::proofs::FaultListing::grows, crate::proofs::FaultListing::tells_none, crate::proofs::FaultListing::tells_same, crate::proofs::FaultListing::tells_both))]
fn push_group(
    text: &mut Vec<u8>,
    chip: &Chip,
    program: &Program<'_>,
    group: &CellGroup,
    lines: &mut FaultLines<'_, '_>,
) -> Result<(), AllocError>
    ensures { OnOk result (IsListingExtended text.old.items text.new.items (fault_lines_left lines.old) (fault_lines_left lines.new)) }
{
    lines.push_before(text, group.line())?;
    push_cell(text, chip, program.node, group.address)?;
    push_items(text, program, group.items.as_slice())?;
    push_line(text, lines.line(group.line()))?;
    push_literals(text, chip, program, group)?;
    Ok(())
}

/// Adds a line of the source after a `\`.
#[tactic(auto, using(crate::proofs::FaultListing::grows, crate::proofs::FaultListing::grows_none, crate::proofs::FaultListing::grows_both))]
fn push_line(text: &mut Vec<u8>, line: &[u8]) -> Result<(), AllocError>
    ensures { OnOk result (IsTextExtended text.old.items text.new.items) }
{
    text.extend_from_slice(b" \\ ")?;
    text.extend_from_slice(line)?;
    text.push(b'\n')?;
    Ok(())
}

/// Adds the address and the word of a cell.
#[tactic(auto, using(crate::proofs::FaultListing::grows, crate::proofs::FaultListing::grows_none, crate::proofs::FaultListing::grows_both))]
fn push_cell(text: &mut Vec<u8>, chip: &Chip, node: NodeId, address: u32) -> Result<(), AllocError>
    ensures { OnOk result (IsTextExtended text.old.items text.new.items) }
{
    let place = match classify_address(address) {
        AddressTarget::Rom(cell) => NodePlace::Rom(cell),
        AddressTarget::Ram(cell) => NodePlace::Ram(cell),
        _ => return Ok(()),
    };
    push_hex(text, address, 3)?;
    text.push(b' ')?;
    push_hex(text, chip.node(node).get(place), 6)?;
    Ok(())
}

/// Adds an opcode, with the label that it leads to.
#[tactic(auto, using(crate::proofs::FaultListing::grows, crate::proofs::FaultListing::grows_none, crate::proofs::FaultListing::grows_both))]
fn push_item(
    text: &mut Vec<u8>,
    program: &Program<'_>,
    item: AssemblyItem,
) -> Result<(), AllocError>
    ensures { OnOk result (IsTextExtended text.old.items text.new.items) }
{
    match item {
        AssemblyItem::Opcode(op) => text.extend_from_slice(op.name().as_bytes()),
        AssemblyItem::Literal(_) => text.extend_from_slice(Op::FetchP.name().as_bytes()),
        AssemblyItem::JumpToEarlierLabel(op, label) | AssemblyItem::JumpToLaterLabel(op, label) => {
            text.extend_from_slice(op.name().as_bytes())?;
            text.push(b' ')?;
            push_target(text, program, label)
        }
        AssemblyItem::Cell(value) => push_value(text, program, value),
    }
}

/// Adds a number in decimal and hexadecimal digits, or a label's name after an apostrophe.
#[tactic(auto, using(crate::proofs::FaultListing::grows, crate::proofs::FaultListing::grows_none, crate::proofs::FaultListing::grows_both))]
fn push_value(text: &mut Vec<u8>, program: &Program<'_>, value: Operand) -> Result<(), AllocError>
    ensures { OnOk result (IsTextExtended text.old.items text.new.items) }
{
    match value {
        Operand::Number(number) => {
            text.extend_from_slice(b"0x")?;
            push_hex(text, number, 5)
        }
        Operand::Label(label) => {
            text.push(b'\'')?;
            push_target(text, program, label)
        }
    }
}

/// Adds the name of a label, or its address where it has none.
#[tactic(auto, using(crate::proofs::FaultListing::grows, crate::proofs::FaultListing::grows_none, crate::proofs::FaultListing::grows_both))]
fn push_target(text: &mut Vec<u8>, program: &Program<'_>, label: usize) -> Result<(), AllocError>
    ensures { OnOk result (IsTextExtended text.old.items text.new.items) }
{
    if let Some(found) = program.names.get(label) {
        if !found.name.is_empty() {
            return text.extend_from_slice(found.name);
        }
    }
    match program.labels.get(label) {
        Some(Some(address)) => push_hex(text, *address, 3),
        _ => Ok(()),
    }
}
