//! A text as an image.

ghost use Rattle.std.specs.Prelude.{◌≡◌, ◌⊎◌, List, IfOk, IfErr};
ghost use Rattle.ga_node.specs.Record.{NodeState};
ghost use Rattle.ga_grid.specs.Grid.{default_chip};
ghost use Rattle.ga_image.specs.FirstFault.{IsFirstImageFault, out_of_memory_fault};
ghost use Rattle.ga_image.specs.Grammar.{IsImage};
ghost use Rattle.ga_text.specs.Lines.{lines_of_text};
ghost use Rattle.ga_image.specs.Reading.{initial_read_progress, read_result_of_lines, IsReadResultUnlessOutOfMemory};

use super::fault::{ImageFault, ImageFaultCause};
use super::parser::{ImageReadStage, Parser};
use ga_grid::Chip;
use ga_text::first_line;
use std::alloc::Global;

/// The chip that a text describes, or the first fault of the text. All memory is taken before the text is looked at.
///
/// # Errors
/// `Memory`, at line 0, where memory was refused; else the first fault of the text.
pub fn parse(alloc: Global, text: &[u8]) -> Result<Chip, ImageFault>
    // What is accepted is an image of that chip.
    ensures found { IfOk result (λ chip. IsImage (lines_of_text text.now) chip) }

    // Each image is accepted with its chip, unless an allocation fails.
    ensures only { (chip : List NodeState) → IsImage (lines_of_text text.now) chip → IsReadResultUnlessOutOfMemory result (Ok chip) }

    // A text that is no image is refused with the first fault of its lines, unless an allocation fails.
    ensures refused { IfErr result (λ fault. (fault ≡ out_of_memory_fault) ⊎ IsFirstImageFault (lines_of_text text.now) fault) }
{
    match Chip::new(alloc) {
        Ok(chip) => read(chip, text),
        Err(_) => Err(ImageFault {
            line: 0,
            cause: ImageFaultCause::Memory,
        }),
    }
}

/// Reads a text into a chip at load.
fn read(chip: Chip, text: &[u8]) -> Result<Chip, ImageFault>
    requires { chip ≡ default_chip }
    ensures { result ≡ read_result_of_lines initial_read_progress 1 (lines_of_text text.now) }
{
    let mut parser = Parser::new(chip);
    let mut rest = text;
    let mut line = 1;
    while !rest.is_empty() {
        let (first, after) = first_line(rest);
        if let Err(cause) = parser.read_line(first) {
            return Err(ImageFault { line, cause });
        }
        rest = after;
        line += 1;
    }
    match parser.stage {
        ImageReadStage::Ended => Ok(parser.chip),
        _ => Err(ImageFault {
            line,
            cause: ImageFaultCause::Truncated,
        }),
    }
}
