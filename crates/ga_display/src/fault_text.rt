//! The text of a refused image.
ghost use Rattle.std.specs.Prelude.{◌≡◌};
ghost use Rattle.ga_display.specs.Texts.{image_fault_text};

use ga_image::ImageFault;
use ga_text::{TextBuffer, push_number, push_text};

/// Puts the text of a refused image.
pub fn write_image_fault(out: &mut TextBuffer, fault: ImageFault)
    ensures { out.new.items ≡ image_fault_text fault }
{
    out.clear();
    push_text(out, b"no ");
    push_number(out, u64::from(fault.cause.number()));
    push_text(out, b" ");
    push_text(out, fault.cause.word().as_bytes());
    push_text(out, b" line ");
    push_number(out, u64::from(fault.line));
    push_text(out, b"\n");
}
