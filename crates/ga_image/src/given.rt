//! Which words of a chip a text gives.

ghost use Rattle.std.specs.Prelude.{◌≡◌, ◌++◌, IfOk, OnOk, option_map, None};
ghost use Rattle.std.specs.List.{list_any};
ghost use Rattle.ga_text.specs.Lines.{lines_of_text};
ghost use Rattle.ga_image.specs.FirstFault.{format_of_first_line};
ghost use Rattle.ga_image.specs.inner.{form_of_parsed_line};
ghost use Rattle.ga_image.specs.Given.{ram_cell_of_place, rom_cell_of_place, is_register_a, is_register_b, is_register_p, is_cell_in_row, is_place_in_row, range_gives_word, given_ranges_of_line, node_of_open_block, ranges_given_by_lines, format_gives_all_words, given_ranges_of_image, ranges_of_given_words};

use super::line::Line;
use ga_grid::NodeId;
use ga_node::NodePlace;
use ga_text::first_line;
use std::alloc::{AllocError, Global};

/// Words of a node that a text gives: of a register, or of cells from one on.
#[derive(Clone, Copy, Debug)]
pub struct GivenRange {
    /// The node.
    pub node: NodeId,
    /// The first place.
    pub first: NodePlace,
    /// The number of words.
    pub count: usize,
}

/// The words of a chip that a text gives; all others are as at load.
#[derive(Drop)]
pub enum GivenWords {
    /// Each word is given.
    All,
    /// These are given.
    Ranges(Vec<GivenRange>),
}

impl GivenWords {
    ghost use Rattle.std.specs.Prelude.{◌≡◌};
    ghost use Rattle.ga_image.specs.Given.{is_word_given};

    /// Whether the word of a place of a node is given. Only A, B, P and memory are given one by one.
    pub fn gives_word(&self, node: NodeId, place: NodePlace) -> bool
        ensures { result ≡ is_word_given self.now node place }
    {
        match self {
            GivenWords::All => true,
            GivenWords::Ranges(ranges) => has_range(ranges.as_slice(), node, place),
        }
    }
}

/// Whether one of these rows has the word of a place of a node.
fn has_range(ranges: &[GivenRange], node: NodeId, place: NodePlace) -> bool
    ensures { result ≡ list_any (range_gives_word node place) ranges.now }
{
    ranges
        .iter()
        .any(|range| range_gives_word(*range, node, place))
}

/// Whether a row has the word of a place of a node.
fn range_gives_word(range: GivenRange, node: NodeId, place: NodePlace) -> bool
    ensures { result ≡ range_gives_word node place range }
{
    range.node == node && is_place_in_row(range.first, range.count, place)
}

/// Whether a place is the register that is given, or one of the cells from the first on.
fn is_place_in_row(first: NodePlace, count: usize, place: NodePlace) -> bool
    ensures { result ≡ is_place_in_row first count place }
{
    match first {
        NodePlace::A => is_register_a(place),
        NodePlace::B => is_register_b(place),
        NodePlace::P => is_register_p(place),
        NodePlace::Ram(first) => is_cell_in_row(first, count, ram_cell_of_place(place)),
        NodePlace::Rom(first) => is_cell_in_row(first, count, rom_cell_of_place(place)),
        _ => false,
    }
}

fn is_register_a(place: NodePlace) -> bool
    ensures { result ≡ is_register_a place }
{
    match place {
        NodePlace::A => true,
        _ => false,
    }
}

fn is_register_b(place: NodePlace) -> bool
    ensures { result ≡ is_register_b place }
{
    match place {
        NodePlace::B => true,
        _ => false,
    }
}

fn is_register_p(place: NodePlace) -> bool
    ensures { result ≡ is_register_p place }
{
    match place {
        NodePlace::P => true,
        _ => false,
    }
}

/// The cell of RAM that a place is.
fn ram_cell_of_place(place: NodePlace) -> Option<u8>
    ensures { result ≡ ram_cell_of_place place }
{
    match place {
        NodePlace::Ram(cell) => Some(cell),
        _ => None,
    }
}

/// The cell of ROM that a place is.
fn rom_cell_of_place(place: NodePlace) -> Option<u8>
    ensures { result ≡ rom_cell_of_place place }
{
    match place {
        NodePlace::Rom(cell) => Some(cell),
        _ => None,
    }
}

/// Whether a cell is one of `count` from the first on.
fn is_cell_in_row(first: u8, count: usize, cell: Option<u8>) -> bool
    ensures { result ≡ is_cell_in_row first count cell }
{
    match cell {
        Some(cell) => first <= cell && usize::from(cell - first) < count,
        None => false,
    }
}

/// The words that an image gives: all of format 2, of format 1 those of its field lines. Takes time linear in the text.
///
/// # Errors
/// Out of memory.
pub fn given_words(alloc: Global, text: &[u8]) -> Result<GivenWords, AllocError>
    ensures { IfOk result (λ given. ranges_of_given_words given ≡ given_ranges_of_image (lines_of_text text.now)) }
{
    if format_gives_all_words(text) {
        return Ok(GivenWords::All);
    }
    Ok(GivenWords::Ranges(ranges_given_by_lines(alloc, text)?))
}

/// Whether the first line of a text is not the header of format 1.
fn format_gives_all_words(text: &[u8]) -> bool
    ensures { result ≡ format_gives_all_words (format_of_first_line (lines_of_text text.now)) }
{
    if text.is_empty() {
        return false;
    }
    let (header, _) = first_line(text);
    header != b"ga144 1".as_slice()
}

/// The words that the lines of a text give.
fn ranges_given_by_lines(alloc: Global, text: &[u8]) -> Result<Vec<GivenRange>, AllocError>
    ensures { IfOk result (λ ranges. ranges.items ≡ ranges_given_by_lines None (lines_of_text text.now)) }
{
    let mut ranges = Vec::new(alloc);
    let mut node = None;
    let mut rest = text;
    while !rest.is_empty() {
        let (line, after) = first_line(rest);
        let line = Line::parse(line);
        add_line(&mut ranges, node, &line)?;
        node = node_of_open_block(node, &line);
        rest = after;
    }
    Ok(ranges)
}

/// Adds the words that a line gives to the node of its block.
fn add_line(
    ranges: &mut Vec<GivenRange>,
    node: Option<NodeId>,
    line: &Option<Line>,
) -> Result<(), AllocError>
    ensures { OnOk result (ranges.new.items ≡ ranges.old.items ++ given_ranges_of_line node (option_map form_of_parsed_line line.now)) }
{
    let Some(node) = node else {
        return Ok(());
    };
    if let Some(Line::Words(field, words)) = line {
        ranges.push(GivenRange {
            node,
            first: field.place(),
            count: words.len(),
        })?;
    }
    Ok(())
}

/// The node whose block continues after a line.
fn node_of_open_block(node: Option<NodeId>, line: &Option<Line>) -> Option<NodeId>
    ensures { result ≡ node_of_open_block node (option_map form_of_parsed_line line.now) }
{
    match line {
        Some(Line::Node(decimal_name)) => NodeId::from_decimal_name(*decimal_name),
        _ => node,
    }
}
