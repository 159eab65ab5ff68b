//! Parts of a text that bytes delimit.

ghost use Rattle.std.specs.Prelude.{◌≡◌};
ghost use Rattle.ga_explorer_json.specs.Refusals.{text_after_first_such_byte, text_before_first_such_byte, hint_of_refusal};

/// The text after the first of these bytes.
#[tactic(auto, using(crate::proofs::Splits::after_found, crate::proofs::Splits::after_none))]
pub(crate) fn text_after_first_such_byte(byte: u8, text: &[u8]) -> &[u8]
    ensures { result.now ≡ text_after_first_such_byte byte text.now }
{
    for (i, found) in text.iter().enumerate() {
        if *found == byte {
            return text.split_at(i + 1).1;
        }
    }
    b""
}

/// The text before the first of these bytes.
#[tactic(auto, using(crate::proofs::Splits::before_found, crate::proofs::Splits::before_none))]
pub(crate) fn text_before_first_such_byte(byte: u8, text: &[u8]) -> &[u8]
    ensures { result.now ≡ text_before_first_such_byte byte text.now }
{
    for (i, found) in text.iter().enumerate() {
        if *found == byte {
            return text.split_at(i).0;
        }
    }
    text
}

/// What the line of text of a refusal has after its colon and a blank.
pub(crate) fn hint_of_refusal(line: &[u8]) -> &[u8]
    ensures { result.now ≡ hint_of_refusal line.now }
{
    text_before_first_such_byte(
        b'\n',
        text_after_first_such_byte(b' ', text_after_first_such_byte(b':', line)),
    )
}
