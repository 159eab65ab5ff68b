//! Reading an image line by line.

ghost use Rattle.std.specs.Prelude.{◌≡◌, ◌≤◌, length, OnOk, Some};
ghost use Rattle.std.specs.Result.{result_err};
ghost use Rattle.ga_grid.specs.Grid.{default_chip, node_number_of_name};
ghost use Rattle.ga_image.specs.Fields.{fields_with_words, greatest_field_word};
ghost use Rattle.ga_image.specs.inner.{IsFieldWithinBank, progress_of_parser, stage_of_parser, IsAfterHeader, IsFieldWord, AreFieldWords};
ghost use Rattle.ga_image.specs.Reading.{Header};
ghost use Rattle.ga_image.specs.Spelling.{Node, Words, End};
ghost use Rattle.ga_image.specs.Grammar.{chip_with_word};
ghost use Rattle.ga_image.specs.Reading.{
  initial_read_progress,
  field_line_fault,
  node_line_fault,
  ends_inconsistent_block,
  form_if_allowed,
  fault_after_header,
  line_fault,
  first_fault_of_line,
  progress_with_block,
  progress_with_field_writes,
  progress_after_line_form,
  progress_after_line_at_stage,
  progress_after_line,
};

use super::fault::ImageFaultCause;
use super::field::{FIELDS, Field, Format, RunState};
use super::line::Line;
use ga_grid::{CHIP_NODE_COUNT, Chip, NodeId};
use ga_node::NodePlace;

/// The most bytes that a line has before its line feed.
pub const MAX_IMAGE_LINE_BYTES: usize = 200;

/// What may come next.
#[derive(Clone, Copy)]
pub(crate) enum ImageReadStage {
    /// The header.
    Header,
    /// A block or the end.
    Open,
    /// A field of this node, another block or the end.
    Block(NodeId),
    /// Nothing.
    Ended,
}

/// The state after the lines so far.
#[derive(Drop)]
pub(crate) struct Parser {
    pub format: Format,
    pub stage: ImageReadStage,
    /// For each node by its number, whether it has a block.
    pub blocks: [bool; CHIP_NODE_COUNT],
    /// For each field by its number, whether the last block gave it.
    pub given: [bool; FIELDS],
    /// The wait, stop and slot of the last block's node.
    pub held: RunState,
    pub chip: Chip,
}

impl Parser {
    /// A parser before the first line.
    #[tactic(auto, unfolding(crate::specs::Reading::initial_read_progress))]
    pub fn new(chip: Chip) -> Parser
        requires { chip ≡ default_chip }
        ensures { progress_of_parser result ≡ initial_read_progress }
    {
        Parser {
            format: Format::One,
            stage: ImageReadStage::Header,
            blocks: [false; CHIP_NODE_COUNT],
            given: [false; FIELDS],
            held: RunState::runs(),
            chip,
        }
    }

    /// Reads the next line. After a fault the parser's state is unspecified.
    #[tactic(auto, unfolding(crate::specs::Reading::first_fault_of_line, crate::specs::Reading::progress_after_line, crate::specs::Reading::field_line_fault, crate::specs::Reading::node_line_fault))]
    pub fn read_line(&mut self, text: &[u8]) -> Result<(), ImageFaultCause>
        ensures fault { result_err result ≡ first_fault_of_line (progress_of_parser self.old) text.now }
        ensures read { OnOk result (progress_of_parser self.new ≡ progress_after_line (progress_of_parser self.old) text.now) }
    {
        if text.len() > MAX_IMAGE_LINE_BYTES {
            return Err(ImageFaultCause::LineTooLong);
        }
        if let ImageReadStage::Header = self.stage {
            return self.read_header(text);
        }
        let Some(line) = Line::parse(text) else {
            return Err(ImageFaultCause::InvalidLine);
        };
        let stage = self.stage;
        if let ImageReadStage::Ended = stage {
            return Err(ImageFaultCause::InvalidLine);
        }
        match line {
            Line::Node(decimal_name) => self.begin_block(decimal_name),
            Line::Words(field, words) => self.read_field(field, words.as_slice()),
            Line::End => self.end(),
        }
    }

    fn read_header(&mut self, text: &[u8]) -> Result<(), ImageFaultCause>
        requires { self.old.stage ≡ ImageReadStage.Header }
        ensures fault { result_err result ≡ line_fault Header (progress_of_parser self.old) text.now }
        ensures read { OnOk result (progress_of_parser self.new ≡ progress_after_line_at_stage Header (progress_of_parser self.old) text.now) }
    {
        self.format = if text == b"ga144 1".as_slice() {
            Format::One
        } else if text == b"ga144 2".as_slice() {
            Format::Two
        } else {
            return Err(ImageFaultCause::WrongHeader);
        };
        self.stage = ImageReadStage::Open;
        Ok(())
    }

    /// Whether the wait, the stop and the slot of the block that ends here are inconsistent.
    fn is_inconsistent_run_state(&self) -> bool
        ensures { result ≡ ends_inconsistent_block (stage_of_parser self.now.stage) self.now.held (Some End) }
    {
        match self.stage {
            ImageReadStage::Block(_) => self.held.is_inconsistent_run_state(),
            _ => false,
        }
    }

    /// Begins the block of a node, and ends the one before.
    #[tactic(auto, unfolding(crate::specs::Reading::node_line_fault))]
    fn begin_block(&mut self, decimal_name: u32) -> Result<(), ImageFaultCause>
        requires { IsAfterHeader (stage_of_parser self.old.stage) }
        ensures fault { result_err result ≡ fault_after_header (progress_of_parser self.old) (Some (Node decimal_name)) }
        ensures begun { OnOk result (progress_of_parser self.new ≡ progress_with_block (progress_of_parser self.old) (node_number_of_name decimal_name)) }
    {
        if self.is_inconsistent_run_state() {
            return Err(ImageFaultCause::State);
        }
        let Some(node) = NodeId::from_decimal_name(decimal_name) else {
            return Err(ImageFaultCause::UnknownNode);
        };
        if self.blocks[node.index()] {
            return Err(ImageFaultCause::RepeatedNodeOrField);
        }
        self.stage = ImageReadStage::Block(node);
        self.blocks[node.index()] = true;
        self.given = [false; FIELDS];
        self.held = RunState::runs();
        Ok(())
    }

    /// Ends the image, and the last block.
    fn end(&mut self) -> Result<(), ImageFaultCause>
        requires { IsAfterHeader (stage_of_parser self.old.stage) }
        ensures fault { result_err result ≡ fault_after_header (progress_of_parser self.old) (Some End) }
        ensures ended { OnOk result (progress_of_parser self.new ≡ progress_after_line_form (progress_of_parser self.old) (Some End)) }
    {
        if self.is_inconsistent_run_state() {
            return Err(ImageFaultCause::State);
        }
        self.stage = ImageReadStage::Ended;
        Ok(())
    }

    /// Reads a field line of the present block.
    fn read_field(&mut self, field: Field, words: &[u32]) -> Result<(), ImageFaultCause>
        requires few { length words.now ≤ 16 }
        requires codes { AreFieldWords field words.now }
        requires open { IsAfterHeader (stage_of_parser self.old.stage) }
        ensures fault { result_err result ≡ fault_after_header (progress_of_parser self.old) (form_if_allowed self.old.format (Some (Words field words.now))) }
        ensures read { OnOk result (progress_of_parser self.new ≡ progress_after_line_form (progress_of_parser self.old) (form_if_allowed self.old.format (Some (Words field words.now)))) }
    {
        if !self.format.has(field) {
            return Err(ImageFaultCause::InvalidLine);
        }
        match self.stage {
            ImageReadStage::Block(node) => self.write_all(node, field, words),
            _ => Err(ImageFaultCause::InvalidLine),
        }
    }

    /// Writes the words of a field line.
    #[tactic(auto, unfolding(crate::specs::Reading::field_line_fault))]
    fn write_all(
        &mut self,
        node: NodeId,
        field: Field,
        words: &[u32],
    ) -> Result<(), ImageFaultCause>
        requires few { length words.now ≤ 16 }
        requires codes { AreFieldWords field words.now }
        requires block { self.old.stage ≡ ImageReadStage.Block node }
        ensures fault { result_err result ≡ field_line_fault (progress_of_parser self.old) field words.now }
        ensures written { OnOk result (progress_of_parser self.new ≡ progress_with_field_writes (progress_of_parser self.old) (fields_with_words field words.now)) }
    {
        if field.row_exceeds_bank(words.len()) {
            return Err(ImageFaultCause::Place);
        }
        if field.is_exceeded_by(words) {
            return Err(ImageFaultCause::WordOutOfRange);
        }
        let mut at = field;
        for word in words {
            let number = at.number();
            if self.given[number] {
                return Err(ImageFaultCause::RepeatedNodeOrField);
            }
            self.given[number] = true;
            self.held = self.held.with(at, *word);
            write(&mut self.chip, node, at, *word);
            at = at.next();
        }
        Ok(())
    }
}

/// Writes one word of a node. A node that waits isn't stopped, and one that is stopped doesn't wait.
#[tactic(auto, unfolding(crate::specs::Grammar::chip_with_word))]
fn write(chip: &mut Chip, node: NodeId, field: Field, word: u32)
    requires cell { IsFieldWithinBank field }
    requires in_range { word ≤ greatest_field_word field }
    requires code { IsFieldWord field word }
    ensures { chip.new ≡ chip_with_word chip.old node.number (field, word) }
{
    let held = chip.node_mut(node);
    match field {
        Field::Wait => {
            held.set(NodePlace::Stop, 0);
            held.set(NodePlace::Wait, word);
        }
        Field::Stop => {
            held.set(NodePlace::Wait, 0);
            held.set(NodePlace::Stop, word);
        }
        _ => held.set(field.place(), word),
    }
}
