//! The words of the slots of a source.

ghost use Rattle.std.specs.Prelude.{◌≡◌, ◌<◌, ◌++◌, ◌∷◌, [], map, length, slice_index, drop, decimal, codes, IfOk, OnOk};
ghost use Rattle.ga_source.specs.Reading.{p_after_item};
ghost use Rattle.ga_parser.specs.Saying.{token_contents, token_columns};
ghost use Rattle.ga_parser.specs.Words.{source_tokens, source_columns};
ghost use Rattle.ga_debug_info.specs.Notes.{line_of_word_number as line_by_number, column_of_word_number as column_by_number, located_word_text, long_line_word_text, displayed_word_content, last_slot_of_word as last_slot_of, word_in_slot as word_by_slot, displayed_word, displayed_slot_words, displayed_address_words, displayed_literal_words, displayed_group_words, displayed_program_words, all_displayed_words, AreSlotWords};

use crate::building::{is_code, push_number};
use crate::label::cell_of;
use crate::line::{SourceLineCursor, is_long};
use ga_grid::NodeId;
use ga_ports::advance_p;
use ga_source::{AssemblyItem, CellGroup, Program, Token, assemble_by_word_number, source_words};
use std::alloc::{AllocError, Global};

/// The word of the source from which slots of a cell come.
#[derive(Clone, Copy)]
pub struct SlotWord {
    pub node: NodeId,
    /// 0 to 63 of RAM, 128 to 191 of ROM.
    pub cell: u8,
    /// Whether the cell holds an instruction word, and no literal or data.
    pub is_code: bool,
    /// The slots from 0 on: one, but for the last word of a cell.
    pub first: usize,
    pub last: usize,
    pub line: u32,
    /// The column of the word's first byte, in bytes from 1 on, after a byte order mark.
    pub column: u32,
}

/// The word from which slots of a cell come, and its text.
#[derive(Drop)]
pub struct DisplayedWord {
    pub word: SlotWord,
    /// Line, column and the text from the word on, where the line is long that begins the cell; else empty.
    pub text: Vec<u8>,
}

/// A cell that the source gives, and the line that begins it.
#[derive(Clone, Copy)]
pub(crate) struct Begun {
    pub(crate) node: NodeId,
    pub(crate) cell: u8,
    pub(crate) is_code: bool,
    pub(crate) line: u32,
}

/// The words of the slots that a source gives: it is assembled with the numbers of its words in the place of their lines.
///
/// # Errors
/// Memory is wanting, or the source can't be assembled.
pub(crate) fn slot_words(alloc: Global, source: &[u8]) -> Result<Vec<DisplayedWord>, AllocError>
    ensures { IfOk result (λ told. AreSlotWords source.now told.items) }
{
    let words = source_words(alloc, source)?;
    let Ok(all) = assemble_by_word_number(alloc, words.as_slice()) else {
        return Err(AllocError);
    };
    let mut lines = SourceLineCursor::new(source);
    let told = add_programs(alloc, all.programs.as_slice(), words.as_slice(), &mut lines)?;
    Ok(told)
}

/// The words of the slots that programs give.
fn add_programs(
    alloc: Global,
    programs: &[Program<'_>],
    words: &[Token<'_>],
    lines: &mut SourceLineCursor<'_>,
) -> Result<Vec<DisplayedWord>, AllocError>
    ensures words { IfOk result (λ told. map displayed_word_content told.items ≡ all_displayed_words lines.old words.now programs.now) }
    ensures same { lines.new ≡ lines.old }
{
    let mut told = Vec::new(alloc);
    for program in programs {
        add_program(alloc, &mut told, program, words, lines)?;
    }
    Ok(told)
}

/// Adds the words of the slots that a program gives.
fn add_program(
    alloc: Global,
    told: &mut Vec<DisplayedWord>,
    program: &Program<'_>,
    words: &[Token<'_>],
    lines: &mut SourceLineCursor<'_>,
) -> Result<(), AllocError>
    ensures words { OnOk result (map displayed_word_content told.new.items ≡ map displayed_word_content told.old.items ++ displayed_program_words lines.old words.now program.now) }
    ensures same { lines.new ≡ lines.old }
{
    for group in &program.groups {
        add_group(alloc, told, program.node, group, words, lines)?;
    }
    Ok(())
}

/// Adds the words of the slots of a group: of its own cell, and of its literals.
fn add_group(
    alloc: Global,
    told: &mut Vec<DisplayedWord>,
    node: NodeId,
    group: &CellGroup,
    words: &[Token<'_>],
    lines: &mut SourceLineCursor<'_>,
) -> Result<(), AllocError>
    ensures words { OnOk result (map displayed_word_content told.new.items ≡ map displayed_word_content told.old.items ++ displayed_group_words lines.old words.now node group.now) }
    ensures same { lines.new ≡ lines.old }
{
    let is_code = is_code(group);
    let numbers = group.lines.as_slice();
    add_cell(
        alloc,
        told,
        node,
        is_code,
        group.address,
        numbers,
        words,
        lines,
    )?;
    let mut p = advance_p(group.address);
    for (item, number) in group.items.iter().zip(&group.lines) {
        p = add_literal(alloc, told, node, p, *item, *number, words, lines)?;
    }
    Ok(())
}

/// Adds the word of an item's literal, if it has one, from P on, and returns P after it.
fn add_literal(
    alloc: Global,
    told: &mut Vec<DisplayedWord>,
    node: NodeId,
    p: u32,
    item: AssemblyItem,
    number: u32,
    words: &[Token<'_>],
    lines: &mut SourceLineCursor<'_>,
) -> Result<u32, AllocError>
    ensures p { IfOk result (λ behind. behind ≡ p_after_item p item) }
    ensures words { OnOk result (map displayed_word_content told.new.items ≡ map displayed_word_content told.old.items ++ displayed_literal_words lines.old words.now node p item number) }
    ensures same { lines.new ≡ lines.old }
{
    let AssemblyItem::Literal(_) = item else {
        return Ok(p);
    };
    add_cell(alloc, told, node, false, p, &[number], words, lines)?;
    Ok(advance_p(p))
}

/// Adds the words of the slots of the cell at an address, where it names one, whose items have these words.
fn add_cell(
    alloc: Global,
    told: &mut Vec<DisplayedWord>,
    node: NodeId,
    is_code: bool,
    address: u32,
    numbers: &[u32],
    words: &[Token<'_>],
    lines: &mut SourceLineCursor<'_>,
) -> Result<(), AllocError>
    ensures words { OnOk result (map displayed_word_content told.new.items ≡ map displayed_word_content told.old.items ++ displayed_address_words lines.old words.now node is_code address numbers.now) }
    ensures same { lines.new ≡ lines.old }
{
    let Some(cell) = cell_of(address) else {
        return Ok(());
    };
    let line = line_of_word_number(words, first_of(numbers));
    let cell = Begun {
        node,
        cell,
        is_code,
        line,
    };
    add_slots(alloc, told, cell, numbers, words, lines)
}

/// The first of some numbers, 0 where there is none.
fn first_of(numbers: &[u32]) -> u32
    ensures { result ≡ slice_index numbers.now 0 }
{
    match numbers {
        [first, ..] => *first,
        [] => 0,
    }
}

/// Adds the words of the slots of a cell, whose items have these words.
fn add_slots(
    alloc: Global,
    told: &mut Vec<DisplayedWord>,
    cell: Begun,
    numbers: &[u32],
    words: &[Token<'_>],
    lines: &mut SourceLineCursor<'_>,
) -> Result<(), AllocError>
    ensures words { OnOk result (map displayed_word_content told.new.items ≡ map displayed_word_content told.old.items ++ displayed_slot_words lines.old words.now cell (length numbers.now) 0 numbers.now) }
    ensures same { lines.new ≡ lines.old }
{
    let size = numbers.len();
    let mut slot = 0usize;
    while slot < size {
        let word = word_in_slot(cell, size, slot, numbers[slot], words);
        add_word(alloc, told, cell.line, word, lines)?;
        slot += 1;
    }
    Ok(())
}

/// The word of the item in a slot of a cell with `size` items.
fn word_in_slot(cell: Begun, size: usize, slot: usize, number: u32, words: &[Token<'_>]) -> SlotWord
    requires { slot < size }
    ensures { result ≡ word_by_slot words.now cell size slot number }
{
    SlotWord {
        node: cell.node,
        cell: cell.cell,
        is_code: cell.is_code,
        first: slot,
        last: last_slot_of_word(size, slot),
        line: line_of_word_number(words, number),
        column: column_of_word_number(words, number),
    }
}

/// Adds a word of a cell that begins in a line.
fn add_word(
    alloc: Global,
    told: &mut Vec<DisplayedWord>,
    begun: u32,
    word: SlotWord,
    lines: &mut SourceLineCursor<'_>,
) -> Result<(), AllocError>
    ensures words { OnOk result (map displayed_word_content told.new.items ≡ map displayed_word_content told.old.items ++ displayed_word lines.old begun word ∷ []) }
    ensures same { lines.new ≡ lines.old }
{
    let text = quoted(alloc, begun, word.line, word.column, lines)?;
    told.push(DisplayedWord { word, text })?;
    Ok(())
}

/// The last slot that has the word of this one.
fn last_slot_of_word(size: usize, slot: usize) -> usize
    requires { slot < size }
    ensures { result ≡ last_slot_of size slot }
{
    if slot + 1 == size { 3 } else { slot }
}

/// The line of the word with a number, 0 where there is none.
fn line_of_word_number(words: &[Token<'_>], number: u32) -> u32
    ensures { result ≡ line_by_number words.now number }
{
    match words.get(number.saturating_sub(1) as usize) {
        Some(word) => word.line,
        None => 0,
    }
}

/// The column of the word with a number, 0 where there is none.
fn column_of_word_number(words: &[Token<'_>], number: u32) -> u32
    ensures { result ≡ column_by_number words.now number }
{
    match words.get(number.saturating_sub(1) as usize) {
        Some(word) => word.column,
        None => 0,
    }
}

/// The text of the word at a column of a line, if the line that begins its cell is long.
fn quoted(
    alloc: Global,
    begun: u32,
    line: u32,
    column: u32,
    lines: &mut SourceLineCursor<'_>,
) -> Result<Vec<u8>, AllocError>
    ensures text { IfOk result (λ text. text.items ≡ long_line_word_text lines.old begun line column) }
    ensures same { lines.new ≡ lines.old }
{
    let mut text = Vec::new(alloc);
    if is_long(lines.line(begun)) {
        push_quoted(&mut text, line, column, lines)?;
    }
    Ok(text)
}

/// Adds the line, the column, and the text from there on.
fn push_quoted(
    text: &mut Vec<u8>,
    line: u32,
    column: u32,
    lines: &mut SourceLineCursor<'_>,
) -> Result<(), AllocError>
    ensures text { OnOk result (text.new.items ≡ text.old.items ++ located_word_text lines.old line column) }
    ensures same { lines.new ≡ lines.old }
{
    push_number(text, line)?;
    text.push(b':')?;
    push_number(text, column)?;
    text.extend_from_slice(b": ")?;
    text.extend_from_slice(lines.line_from_column(line, column))
}
