//! Laws of the definitions, each the contract of a function that does nothing.

ghost use Rattle.std.specs.Prelude.{ℕ, ◌≡◌, ◌<◌, ◌↔◌, List, length, Ok, Err};
ghost use Rattle.ga_node.specs.Record.{NodeState, NodeRecord};
ghost use Rattle.ga_grid.specs.Chip.{records_of_chip, HaveWaitsFittingSlotsAndStops};
ghost use Rattle.ga_image.specs.declared.fault.ImageFault.{ImageFault};
ghost use Rattle.ga_image.specs.FirstFault.{IsFirstImageFault};
ghost use Rattle.ga_image.specs.Grammar.{IsImage};
ghost use Rattle.ga_text.specs.Lines.{lines_of_text};
ghost use Rattle.ga_image.specs.Printing.{printed_image, AreRecordsInRange, IsImageOfRecords};
ghost use Rattle.ga_image.specs.Reading.{initial_read_progress, read_result_of_lines};

/// An image is shorter than 2 ^ 24 bytes: a block has at most one line for each field, and a line at most 200 bytes.
pub fn images_are_short()
    ensures { (text : List ℕ) (chip : List NodeState) → IsImage (lines_of_text text) chip → length text < 16777216 }
{}

/// Reading line after line accepts the images alone, each with its chip, and answers the first fault of any other text: so a
/// text is an image of one chip or has one first fault, and never both.
pub fn reader_agrees_with_grammar()
    ensures images { (texts : List (List ℕ)) (chip : List NodeState) →
        IsImage texts chip ↔ (read_result_of_lines initial_read_progress 1 texts ≡ Ok chip) }
    ensures faults { (texts : List (List ℕ)) (fault : ImageFault) →
        IsFirstImageFault texts fault ↔ (read_result_of_lines initial_read_progress 1 texts ≡ Err fault) }
{}

/// The printed text of a chip is an image of a chip with the same records, if in each node the wait, the slot and the stop are
/// consistent. Reading it gives the chip back, unless an allocation fails.
#[tactic(auto, using(crate::proofs::PrintedBack::print_parse_round_trips))]
pub fn print_parse_round_trips()
    ensures { (nodes : List NodeRecord) → AreRecordsInRange nodes → HaveWaitsFittingSlotsAndStops nodes → IsImageOfRecords (lines_of_text (printed_image nodes)) nodes }
{}

/// The wait, the slot and the stop are consistent in each node of a chip that an image describes.
pub fn images_are_consistent()
    ensures { (texts : List (List ℕ)) (chip : List NodeState) → IsImage texts chip → HaveWaitsFittingSlotsAndStops (records_of_chip chip) }
{}
