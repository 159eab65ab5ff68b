//! Laws of the definitions, each the contract of a function that does nothing.

ghost use Rattle.std.specs.Prelude.{ℕ, ◌≡◌, ◌<◌, ◌++◌, List};
ghost use Rattle.ga_node.specs.Record.{NodeState};
ghost use Rattle.ga_grid.specs.Chip.{node_at, records_of_chip};
ghost use Rattle.ga_text.specs.Lines.{Text, lines_of_text};
ghost use Rattle.ga_image.specs.Grammar.{IsImage};
ghost use Rattle.ga_image.specs.Printing.{IsImageOfRecords};
ghost use Rattle.ga_asm_text.specs.Source.{IsAssembledImage, HasSameMemoriesAndRegisters, IsDisassembly, WritesAssembly};
ghost use Rattle.ga_console.specs.declared.run.Status.TheVariants.{Done};
ghost use Rattle.ga_source.specs.Made.{IsChipOfSource};

/// The chip that is assembled of the source of an image has the memories, A, B and P of the image's chip; so has that of the image
/// which is written of this source, and that of the image which `asm` writes where this source is its input, of which it may read a
/// part.
pub fn disassembly_round_trips()
    ensures made { (image text : Text) (made : List NodeState) → IsDisassembly image text → IsChipOfSource text made →
        (chip : List NodeState) × IsImage (lines_of_text image) chip × ((n : ℕ) → n < 144 → HasSameMemoriesAndRegisters (node_at chip n) (node_at made n)) }
    ensures written { (image text again : Text) → IsDisassembly image text → IsAssembledImage text again →
        (chip made : List NodeState) × IsImage (lines_of_text image) chip × IsImageOfRecords (lines_of_text again) (records_of_chip made) × ((n : ℕ) → n < 144 → HasSameMemoriesAndRegisters (node_at chip n) (node_at made n)) }
    ensures read { (image text read rest again : Text) → IsDisassembly image text → text ≡ read ++ rest → WritesAssembly read rest again Done →
        (chip made : List NodeState) × IsImage (lines_of_text image) chip × IsImageOfRecords (lines_of_text again) (records_of_chip made) × ((n : ℕ) → n < 144 → HasSameMemoriesAndRegisters (node_at chip n) (node_at made n)) }
{}
