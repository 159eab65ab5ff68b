//! The notes of a source.

ghost use Rattle.std.specs.Prelude.{◌≡◌, ◌++◌, map, decimal, IfOk, OnOk};
ghost use Rattle.ga_debug_info.specs.Given.{HasGivenRangesOfSource};
ghost use Rattle.ga_debug_info.specs.Notes.{IsDebugInfoOfSource};
ghost use Rattle.ga_debug_info.specs.Source.{label_address_content, label_address_if_named, program_label_addresses, space_and_label_name, address_text, cell_comment_text as note_text_of, whole_line_text, cell_source_content, cell_sources_at_address, are_code_items, group_cell_sources, program_cell_sources, literal_cell_sources};
ghost use Rattle.ga_source.specs.Reading.{p_after_item};
ghost use Rattle.ga_debug_info.specs.inner.{AreLastLabelsOfCells};

use crate::given::given_ranges_of_source;
use crate::label::{LastLabels, cell_of, name_of};
use crate::line::{SourceLineCursor, is_long};
use crate::notes::{CellSource, DebugInfo, LabelAddress};
use crate::wording::slot_words;
use ga_grid::NodeId;
use ga_image::GivenWords;
use ga_ports::advance_p;
use ga_source::{AssemblyItem, CellGroup, Label, Program, expectation_lines};
use ga_word::Word18;
use std::alloc::{AllocError, Global};

/// Where a source gives a cell, and whether it is an instruction word.
#[derive(Clone, Copy)]
struct CellAt {
    is_code: bool,
    address: u32,
    line: u32,
}

/// What a source says of each cell that it gives and of each slot, the names of its labels, which words at load it gives, and what it
/// expects of its programs.
///
/// # Errors
/// Memory is wanting.
pub fn debug_info_of_source(
    alloc: Global,
    source: &[u8],
    programs: &[Program<'_>],
) -> Result<DebugInfo, AllocError>
    ensures notes { IfOk result (λ notes. IsDebugInfoOfSource source.now programs.now notes) }
    ensures given { IfOk result (HasGivenRangesOfSource programs.now) }
{
    let mut lines = SourceLineCursor::new(source);
    let mut names = Vec::new(alloc);
    let mut notes = Vec::new(alloc);
    for program in programs {
        add_names(alloc, &mut names, program)?;
        add_cells(alloc, &mut notes, program, &mut lines)?;
    }
    let words = slot_words(alloc, source)?;
    let given = GivenWords::Ranges(given_ranges_of_source(alloc, programs, notes.as_slice())?);
    let expectations = expectation_lines(alloc, source)?;
    Ok(DebugInfo {
        notes,
        names,
        words,
        given,
        expectations,
    })
}

/// Adds the labels of a program that have a name.
fn add_names(
    alloc: Global,
    names: &mut Vec<LabelAddress>,
    program: &Program<'_>,
) -> Result<(), AllocError>
    ensures { OnOk result (map label_address_content names.new.items ≡ map label_address_content names.old.items ++ program_label_addresses program.now) }
{
    for (label, address) in program.names.iter().zip(&program.labels) {
        add_name(alloc, names, program.node, label, *address)?;
    }
    Ok(())
}

/// Adds a label, if it has a name and an address.
fn add_name(
    alloc: Global,
    names: &mut Vec<LabelAddress>,
    node: NodeId,
    label: &Label<'_>,
    address: Option<u32>,
) -> Result<(), AllocError>
    ensures { OnOk result (map label_address_content names.new.items ≡ map label_address_content names.old.items ++ label_address_if_named node label.now address) }
{
    let Some(address) = address else {
        return Ok(());
    };
    if label.name.is_empty() {
        return Ok(());
    }
    let mut text = Vec::new(alloc);
    text.extend_from_slice(label.name)?;
    names.push(LabelAddress {
        node,
        text,
        address,
    })?;
    Ok(())
}

/// Adds the cells of a program.
fn add_cells(
    alloc: Global,
    notes: &mut Vec<CellSource>,
    program: &Program<'_>,
    lines: &mut SourceLineCursor<'_>,
) -> Result<(), AllocError>
    ensures notes { OnOk result (map cell_source_content notes.new.items ≡ map cell_source_content notes.old.items ++ program_cell_sources lines.old program.now) }
    ensures same { lines.new ≡ lines.old }
{
    let marked = LastLabels::of(program);
    for group in &program.groups {
        add_group(alloc, notes, program, &marked, group, lines)?;
    }
    Ok(())
}

/// Adds the instruction word and the literals of a group, or its cell of data.
fn add_group(
    alloc: Global,
    notes: &mut Vec<CellSource>,
    program: &Program<'_>,
    marked: &LastLabels,
    group: &CellGroup,
    lines: &mut SourceLineCursor<'_>,
) -> Result<(), AllocError>
    requires { AreLastLabelsOfCells program.now marked.now.labels }
    ensures notes { OnOk result (map cell_source_content notes.new.items ≡ map cell_source_content notes.old.items ++ group_cell_sources lines.old program.now group.now) }
    ensures same { lines.new ≡ lines.old }
{
    let first = group.line();
    let is_code = is_code(group);
    let own = CellAt {
        is_code,
        address: group.address,
        line: first,
    };
    add_cell(alloc, notes, program, marked, own, lines)?;
    let mut p = advance_p(group.address);
    for (item, line) in group.items.iter().zip(&group.lines) {
        p = add_literal(alloc, notes, program, marked, p, *item, *line, lines)?;
    }
    Ok(())
}

/// Whether a group is an instruction word, and no cell of data.
pub(crate) fn is_code(group: &CellGroup) -> bool
    ensures { result ≡ are_code_items group.now.items.items }
{
    match group.items.as_slice() {
        [AssemblyItem::Cell(_)] => false,
        _ => true,
    }
}

/// Adds the cell of an item's literal, if it has one, from P on, and returns P after it.
fn add_literal(
    alloc: Global,
    notes: &mut Vec<CellSource>,
    program: &Program<'_>,
    marked: &LastLabels,
    p: u32,
    item: AssemblyItem,
    line: u32,
    lines: &mut SourceLineCursor<'_>,
) -> Result<u32, AllocError>
    requires { AreLastLabelsOfCells program.now marked.now.labels }
    ensures p { IfOk result (λ behind. behind ≡ p_after_item p item) }
    ensures notes { OnOk result (map cell_source_content notes.new.items ≡ map cell_source_content notes.old.items ++ literal_cell_sources lines.old program.now p item line) }
    ensures same { lines.new ≡ lines.old }
{
    let AssemblyItem::Literal(_) = item else {
        return Ok(p);
    };
    let literal = CellAt {
        is_code: false,
        address: p,
        line,
    };
    add_cell(alloc, notes, program, marked, literal, lines)?;
    Ok(advance_p(p))
}

/// Adds the cell at an address, where it names one.
fn add_cell(
    alloc: Global,
    notes: &mut Vec<CellSource>,
    program: &Program<'_>,
    marked: &LastLabels,
    given: CellAt,
    lines: &mut SourceLineCursor<'_>,
) -> Result<(), AllocError>
    requires { AreLastLabelsOfCells program.now marked.now.labels }
    ensures notes { OnOk result (map cell_source_content notes.new.items ≡ map cell_source_content notes.old.items ++ cell_sources_at_address lines.old program.now given.is_code given.address given.line) }
    ensures same { lines.new ≡ lines.old }
{
    let Some(cell) = cell_of(given.address) else {
        return Ok(());
    };
    let label = marked.before(cell);
    let text = cell_comment_text(alloc, program, given.address, label, given.line, lines)?;
    let is_long = is_long(lines.line(given.line));
    notes.push(CellSource {
        node: program.node,
        cell,
        address: given.address,
        line: given.line,
        is_code: given.is_code,
        is_long,
        text,
    })?;
    Ok(())
}

/// ` \ `, an address, the label of its cell, and the line, unless that is long.
fn cell_comment_text(
    alloc: Global,
    program: &Program<'_>,
    address: u32,
    label: Option<usize>,
    line: u32,
    lines: &mut SourceLineCursor<'_>,
) -> Result<Vec<u8>, AllocError>
    ensures text { IfOk result (λ text. text.items ≡ note_text_of lines.old program.now address label line) }
    ensures same { lines.new ≡ lines.old }
{
    let mut text = Vec::new(alloc);
    text.extend_from_slice(b" \\ ")?;
    text.extend_from_slice(&three_digits(address))?;
    push_label(&mut text, program, label)?;
    text.push(b' ')?;
    push_line(&mut text, line, lines)?;
    Ok(text)
}

/// Adds a line with its number, unless it is long.
fn push_line(
    text: &mut Vec<u8>,
    line: u32,
    lines: &mut SourceLineCursor<'_>,
) -> Result<(), AllocError>
    ensures text { OnOk result (text.new.items ≡ text.old.items ++ whole_line_text lines.old line) }
    ensures same { lines.new ≡ lines.old }
{
    let told = lines.line(line);
    if is_long(told) {
        return Ok(());
    }
    push_number(text, line)?;
    text.extend_from_slice(b": ")?;
    text.extend_from_slice(told)
}

/// Adds the name of a label after a blank.
fn push_label(
    text: &mut Vec<u8>,
    program: &Program<'_>,
    label: Option<usize>,
) -> Result<(), AllocError>
    ensures { OnOk result (text.new.items ≡ text.old.items ++ space_and_label_name program.now label) }
{
    let Some(label) = label else {
        return Ok(());
    };
    text.push(b' ')?;
    text.extend_from_slice(name_of(program, label))
}

/// An address in three hexadecimal digits.
pub(crate) fn three_digits(address: u32) -> [u8; 3]
    ensures { result ≡ address_text address }
{
    let [_, _, _, high, middle, low] = Word18::from_low_bits(address).to_hex_digits();
    [high, middle, low]
}

/// Adds a number in decimal digits.
pub(crate) fn push_number(text: &mut Vec<u8>, number: u32) -> Result<(), AllocError>
    ensures { OnOk result (text.new.items ≡ text.old.items ++ decimal number) }
{
    let mut buffer = itoa::Buffer::new();
    text.extend_from_slice(buffer.format(number).as_bytes())
}
