//! The line of text of a refusal, as a session of text writes it.

ghost use Rattle.std.specs.Prelude.{◌≡◌, ◌++◌, take};
ghost use Rattle.ga_explorer_json.specs.inner.{refusal_line_of_object};

use crate::bytes::{text_after_first_such_byte, text_before_first_such_byte};
use ga_text::LineBuffer;

/// Notes number, word and hint of a refusal, of which the object has this text after its first comma.
pub(crate) fn note_refusal(rest: &[u8], refusal: &mut LineBuffer)
    ensures { refusal.new.items ≡ take 201 (refusal_line_of_object rest.now) }
{
    let number_on = text_after_first_such_byte(b':', rest);
    let word_on = text_after_first_such_byte(b'"', text_after_first_such_byte(b':', number_on));
    let hint_on = text_after_first_such_byte(b'"', text_after_first_such_byte(b':', word_on));
    refusal.clear();
    append_front(refusal, b"no ");
    append_front(refusal, text_before_first_such_byte(b',', number_on));
    append_front(refusal, b" ");
    append_front(refusal, text_before_first_such_byte(b'"', word_on));
    append_front(refusal, b": ");
    append_front(refusal, text_before_first_such_byte(b'"', hint_on));
    append_front(refusal, b"\n");
}

/// Adds bytes to a text, as far as there is room.
fn append_front(text: &mut LineBuffer, bytes: &[u8])
    ensures { text.new.items ≡ take 201 (text.old.items ++ bytes.now) }
{
    let count = text.remaining_capacity().min(bytes.len());
    let _fits = text.try_extend_from_slice(&bytes[..count]);
}
