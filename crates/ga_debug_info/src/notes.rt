//! Notes of cells, and the names of addresses.

ghost use Rattle.std.specs.Prelude.{◌≡◌, position};
ghost use Rattle.ga_debug_info.specs.Notes.{is_source_of_cell, cell_begins_on_line, is_label_of_node, slot_or_first_for_fetch as slot_worded_by, is_word_of_slot, is_earlier_slot_word_from_line as is_nearer_word, earlier_slot_word_from_line, label_address_of_node};

use crate::wording::{DisplayedWord, SlotWord};
use ga_grid::NodeId;
use ga_image::GivenWords;
use ga_node::NodePlace;
use ga_source::ExpectationLine;
use std::alloc::Global;

/// What the source says of a cell that it gives.
#[derive(Drop)]
pub struct CellSource {
    pub node: NodeId,
    /// 0 to 63 of RAM, 128 to 191 of ROM.
    pub cell: u8,
    /// P at the cell: 10 bits.
    pub address: u32,
    /// The line that gives the cell, of an instruction word the one that begins it.
    pub line: u32,
    /// Whether the cell holds an instruction word, and no literal or data.
    pub is_code: bool,
    /// Whether the line is long, so that the text ends before the word from which it is shown.
    pub is_long: bool,
    /// ` \ `, the address, the label before it, and the line that gives the cell, unless it is long.
    pub text: Vec<u8>,
}

/// A label of a node.
#[derive(Drop)]
pub struct LabelAddress {
    pub node: NodeId,
    pub text: Vec<u8>,
    /// P at the label: 10 bits.
    pub address: u32,
}

/// What the text of a chip gives, and what a source says of its cells and expects of its programs. An image says nothing of these.
#[derive(Drop)]
pub struct DebugInfo {
    pub notes: Vec<CellSource>,
    pub names: Vec<LabelAddress>,
    /// The words of the slots, in the order of the source.
    pub words: Vec<DisplayedWord>,
    /// The words at load that the text gives.
    pub given: GivenWords,
    /// The lines of the source that say what is expected of its programs; none of an image.
    pub expectations: Vec<ExpectationLine>,
}

impl DebugInfo {
    ghost use Rattle.std.specs.Prelude.{◌≡◌, ◌==◌, length, [], None, Some, option_map};
    ghost use Rattle.ga_image.specs.Given.{is_word_given};
    ghost use Rattle.ga_image.specs.declared.given.GivenWords.TheVariants.{All};
    ghost use Rattle.ga_debug_info.specs.Notes.{text_of_first_source_of_cell, is_first_source_of_cell_truncated, slot_text, source_word_in_slot, first_slot_word_from_line, line_address, label_address_of_node};

    /// No debug info, of a chip whose words are all given.
    pub fn no_debug_info(alloc: Global) -> Self
        ensures notes { result.notes.items ≡ [] }
        ensures names { result.names.items ≡ [] }
        ensures words { result.words.items ≡ [] }
        ensures given { result.given ≡ All }
        ensures expectations { result.expectations.items ≡ [] }
    {
        DebugInfo::for_image(alloc, GivenWords::All)
    }

    /// The debug info of an image, which gives these words and says nothing of cells.
    pub fn for_image(alloc: Global, given: GivenWords) -> Self
        ensures notes { result.notes.items ≡ [] }
        ensures names { result.names.items ≡ [] }
        ensures words { result.words.items ≡ [] }
        ensures given { result.given ≡ given }
        ensures expectations { result.expectations.items ≡ [] }
    {
        DebugInfo {
            notes: Vec::new(alloc),
            names: Vec::new(alloc),
            words: Vec::new(alloc),
            given,
            expectations: Vec::new(alloc),
        }
    }

    /// Whether the text gives the word at load of a place of a node. Takes time linear in what it gives.
    pub fn is_word_given(&self, node: NodeId, place: NodePlace) -> bool
        ensures { result ≡ is_word_given self.now.given node place }
    {
        self.given.gives_word(node, place)
    }

    /// Whether there is no debug info of any cell.
    pub fn is_empty(&self) -> bool
        ensures { result ≡ (length self.now.notes.items == 0) }
    {
        self.notes.is_empty()
    }

    /// The text of a cell of a node: empty if there is no cell, or the source doesn't give it.
    pub fn cell_text(&self, node: NodeId, cell: Option<u8>) -> &[u8]
        ensures { result.now ≡ text_of_first_source_of_cell self.now.notes.items node cell }
    {
        let Some(cell) = cell else {
            return &[];
        };
        let Some(place) = note_place(self.notes.as_slice(), node, cell) else {
            return &[];
        };
        match self.notes.get(place) {
            Some(note) => note.text.as_slice(),
            None => &[],
        }
    }

    /// Whether the text of a cell ends before a word: the line that gives it is long.
    pub fn is_cell_text_truncated(&self, node: NodeId, cell: Option<u8>) -> bool
        ensures { result ≡ is_first_source_of_cell_truncated self.now.notes.items node cell }
    {
        let Some(cell) = cell else {
            return false;
        };
        let Some(place) = note_place(self.notes.as_slice(), node, cell) else {
            return false;
        };
        match self.notes.get(place) {
            Some(note) => note.is_long,
            None => false,
        }
    }

    /// The text of the word from which a slot of a cell comes: line, column and the text from there on; for slot 4, the fetch,
    /// the word that begins the cell. Empty if the line that begins the cell isn't long, and if there is no such word.
    pub fn slot_text(&self, node: NodeId, cell: Option<u8>, slot: usize) -> &[u8]
        ensures { result.now ≡ slot_text self.now.words.items node cell slot }
    {
        let Some(cell) = cell else {
            return &[];
        };
        let Some(place) = word_place(self.words.as_slice(), node, cell, slot) else {
            return &[];
        };
        match self.words.get(place) {
            Some(told) => told.text.as_slice(),
            None => &[],
        }
    }

    /// The word from which a slot of a cell comes; of slot 4, the fetch, the one that begins the cell.
    pub fn slot_word(&self, node: NodeId, cell: u8, slot: usize) -> Option<SlotWord>
        ensures { result ≡ source_word_in_slot self.now.words.items node cell slot }
    {
        let place = word_place(self.words.as_slice(), node, cell, slot)?;
        match self.words.get(place) {
            Some(told) => Some(told.word),
            None => None,
        }
    }

    /// The first word of a line, or of the next line that has one, from which a slot of an instruction word comes.
    pub fn find_first_slot_word_from_line(&self, line: u32) -> Option<SlotWord>
        ensures { result ≡ first_slot_word_from_line line None self.now.words.items }
    {
        let mut best = None;
        for told in &self.words {
            best = nearer(line, best, told.word);
        }
        best
    }

    /// The address of the first instruction word of a node that a line begins.
    pub fn line_address(&self, node: NodeId, line: u32) -> Option<u32>
        ensures { result ≡ line_address self.now.notes.items node line }
    {
        let place = begun_place(self.notes.as_slice(), node, line)?;
        match self.notes.get(place) {
            Some(note) => Some(note.address),
            None => None,
        }
    }

    /// The address of a label of a node.
    pub fn label_address_of_node(&self, node: NodeId, text: &[u8]) -> Option<u32>
        ensures { result ≡ label_address_of_node self.now.names.items node text.now }
    {
        label_address(self.names.as_slice(), node, text)
    }
}

/// Whether a note is of this cell.
fn is_of(note: &CellSource, node: NodeId, cell: u8) -> bool
    ensures { result ≡ is_source_of_cell node cell note.now }
{
    note.node == node && note.cell == cell
}

/// The place of the first entry of a cell.
fn note_place(notes: &[CellSource], node: NodeId, cell: u8) -> Option<usize>
    ensures { result ≡ position (is_source_of_cell node cell) notes.now }
{
    notes.iter().position(|note| is_of(note, node, cell))
}

/// Whether a note is of an instruction word of the node that this line begins.
fn cell_begins_on_line(note: &CellSource, node: NodeId, line: u32) -> bool
    ensures { result ≡ cell_begins_on_line node line note.now }
{
    note.is_code && note.node == node && note.line == line
}

/// The place of the first entry of an instruction word of the node that this line begins.
fn begun_place(notes: &[CellSource], node: NodeId, line: u32) -> Option<usize>
    ensures { result ≡ position (cell_begins_on_line node line) notes.now }
{
    notes
        .iter()
        .position(|note| cell_begins_on_line(note, node, line))
}

/// Whether a name is this one of the node.
fn is_named(name: &LabelAddress, node: NodeId, text: &[u8]) -> bool
    ensures { result ≡ is_label_of_node node text.now name.now }
{
    name.node == node && name.text.as_slice() == text
}

/// The place of the first name that is this one of the node.
fn name_place(names: &[LabelAddress], node: NodeId, text: &[u8]) -> Option<usize>
    ensures { result ≡ position (is_label_of_node node text.now) names.now }
{
    names.iter().position(|name| is_named(name, node, text))
}

/// The address of a label of a node, of the labels of all nodes.
pub fn label_address(names: &[LabelAddress], node: NodeId, text: &[u8]) -> Option<u32>
    ensures { result ≡ label_address_of_node names.now node text.now }
{
    let place = name_place(names, node, text)?;
    match names.get(place) {
        Some(name) => Some(name.address),
        None => None,
    }
}

/// The slot whose word is shown: for a fetch, which has slot 4, the first.
fn slot_or_first_for_fetch(slot: usize) -> usize
    ensures { result ≡ slot_worded_by slot }
{
    if slot < 4 { slot } else { 0 }
}

/// Whether a word is that of a slot of a cell.
fn is_word_of(told: &DisplayedWord, node: NodeId, cell: u8, slot: usize) -> bool
    ensures { result ≡ is_word_of_slot node cell slot told.now }
{
    let slot = slot_or_first_for_fetch(slot);
    let word = told.word;
    word.node == node && word.cell == cell && word.first <= slot && slot <= word.last
}

/// The place of the first word that is that of a slot of a cell.
fn word_place(words: &[DisplayedWord], node: NodeId, cell: u8, slot: usize) -> Option<usize>
    ensures { result ≡ position (is_word_of_slot node cell slot) words.now }
{
    words
        .iter()
        .position(|told| is_word_of(told, node, cell, slot))
}

/// Of two words the one that comes first from a line on; of two on one line, the first of the two.
fn nearer(line: u32, best: Option<SlotWord>, word: SlotWord) -> Option<SlotWord>
    ensures { result ≡ earlier_slot_word_from_line line best word }
{
    if is_earlier_slot_word_from_line(line, best, word) {
        Some(word)
    } else {
        best
    }
}

/// Whether a word is of code, from a line on, and comes before another.
fn is_earlier_slot_word_from_line(line: u32, best: Option<SlotWord>, word: SlotWord) -> bool
    ensures { result ≡ is_nearer_word line best word }
{
    let is_behind = word.is_code && line <= word.line;
    match best {
        Some(best) => is_behind && word.line < best.line,
        None => is_behind,
    }
}
