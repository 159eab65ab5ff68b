//! The field lines of an image as text.

ghost use Rattle.std.specs.Prelude.{◌≡◌, ◌<◌, ◌≤◌, ◌++◌, [], ◌∷◌, ◌==◌, if◌then◌else◌, OnOk};
ghost use Rattle.std.specs.List.{list_all};
ghost use Rattle.ga_grid.specs.Grid.{decimal_name_of_node};
ghost use Rattle.ga_node.specs.State.{IsWaitCode};
ghost use Rattle.ga_text.specs.Digits.{three_decimal_digits, two_hex_digits_text, spaced_words_text};
ghost use Rattle.ga_image.specs.Spelling.{side_set_text, wait_text};
ghost use Rattle.ga_image.specs.Printing.{field_text, line_unless_default, word_line_unless_default, AreEighteenBitWords};
ghost use Rattle.ga_image.specs.inner.{field_lines_text, IsWordField, IsFieldOfOneDigit};

use super::field::Field;
use ga_grid::NodeId;
use ga_word::Word18;
use std::alloc::AllocError;

/// Adds words, each as six digits after a space.
fn push_words(text: &mut Vec<u8>, words: &[u32]) -> Result<(), AllocError>
    requires { AreEighteenBitWords words.now }
    ensures { OnOk result (text.new.items ≡ text.old.items ++ spaced_words_text words.now) }
{
    for word in words {
        text.extend_from_slice(b" ")?;
        text.extend_from_slice(&Word18::from_low_bits(*word).to_hex_digits())?;
    }
    Ok(())
}

/// Adds the number of a cell in two digits.
fn push_cell(text: &mut Vec<u8>, cell: u8) -> Result<(), AllocError>
    ensures { OnOk result (text.new.items ≡ text.old.items ++ two_hex_digits_text cell) }
{
    let [_, _, _, _, high, low] = Word18::from_low_bits(u32::from(cell)).to_hex_digits();
    text.extend_from_slice(&[high, low])
}

/// Adds the name of a node, its row and its column in three digits.
pub(crate) fn push_node(text: &mut Vec<u8>, node: NodeId) -> Result<(), AllocError>
    ensures { OnOk result (text.new.items ≡ text.old.items ++ three_decimal_digits (decimal_name_of_node node.number)) }
{
    let decimal_name = node.decimal_name();
    text.extend_from_slice(&[
        b'0' + (decimal_name / 100) as u8,
        b'0' + (decimal_name / 10 % 10) as u8,
        b'0' + (decimal_name % 10) as u8,
    ])
}

/// The letter of a side, or a hyphen.
fn side_letter_or_hyphen(name: u8, is_named: bool) -> u8
    ensures { result ≡ (if is_named then name else 45) }
{
    if is_named { name } else { b'-' }
}

/// Adds a set of sides, given by its number.
fn push_set(text: &mut Vec<u8>, sides: u32) -> Result<(), AllocError>
    ensures { OnOk result (text.new.items ≡ text.old.items ++ side_set_text sides) }
{
    text.extend_from_slice(&[
        side_letter_or_hyphen(b'r', sides / 8 % 2 == 1),
        side_letter_or_hyphen(b'd', sides / 4 % 2 == 1),
        side_letter_or_hyphen(b'l', sides / 2 % 2 == 1),
        side_letter_or_hyphen(b'u', sides % 2 == 1),
    ])
}

/// Adds what a node waits for, given by its number.
fn push_wait(text: &mut Vec<u8>, code: u32) -> Result<(), AllocError>
    requires { 16 ≤ code }
    ensures { OnOk result (text.new.items ≡ text.old.items ++ wait_text code) }
{
    if code < 32 {
        text.extend_from_slice(b"fetch ")?;
        push_set(text, code - 16)
    } else if code < 48 {
        text.extend_from_slice(b"read ")?;
        push_set(text, code - 32)
    } else {
        text.extend_from_slice(b"write ")?;
        push_set(text, code - 48)
    }
}

/// Adds the line of words for a field.
fn push_line(text: &mut Vec<u8>, field: Field, words: &[u32]) -> Result<(), AllocError>
    requires field { IsWordField field }
    requires words { AreEighteenBitWords words.now }
    ensures { OnOk result (text.new.items ≡ text.old.items ++ (field_text field words.now ++ 10 ∷ [])) }
{
    text.extend_from_slice(field.name().as_bytes())?;
    if let Field::Ram(cell) | Field::Rom(cell) = field {
        push_cell(text, cell)?;
    }
    push_words(text, words)?;
    text.extend_from_slice(b"\n")
}

/// Whether each of the words is the one at load.
fn are_at_load(words: &[u32], at_load: u32) -> bool
    ensures { result ≡ list_all (λ word. word == at_load) words.now }
{
    words.iter().all(|word| *word == at_load)
}

/// Adds the line of words for a field, unless each of them is the one at load.
#[tactic(auto, using(crate::proofs::Pieces::none_written, std::proofs::lemmas::Result::on_ok_weaker, crate::proofs::Pieces::one_written))]
pub(crate) fn push_words_unless(
    text: &mut Vec<u8>,
    at_load: u32,
    field: Field,
    words: &[u32],
) -> Result<(), AllocError>
    requires field { IsWordField field }
    requires words { AreEighteenBitWords words.now }
    ensures { OnOk result (text.new.items ≡ text.old.items ++ field_lines_text (line_unless_default at_load field words.now)) }
{
    if are_at_load(words, at_load) {
        Ok(())
    } else {
        push_line(text, field, words)
    }
}

/// Adds the line of a number of one digit, unless it is the one at load.
pub(crate) fn push_digit_unless(
    text: &mut Vec<u8>,
    at_load: u32,
    field: Field,
    digit: u32,
) -> Result<(), AllocError>
    requires digit { digit < 10 }
    requires field { IsFieldOfOneDigit field }
    ensures { OnOk result (text.new.items ≡ text.old.items ++ field_lines_text (word_line_unless_default at_load field digit)) }
{
    if digit == at_load {
        return Ok(());
    }
    text.extend_from_slice(field.name().as_bytes())?;
    text.extend_from_slice(&[b'0' + digit as u8, b'\n'])
}

/// Adds the line of what a node waits for, given by its number, unless it waits for nothing.
pub(crate) fn push_wait_unless(text: &mut Vec<u8>, code: u32) -> Result<(), AllocError>
    requires { IsWaitCode code }
    ensures { OnOk result (text.new.items ≡ text.old.items ++ field_lines_text (word_line_unless_default 0 Field.Wait code)) }
{
    if code == 0 {
        return Ok(());
    }
    text.extend_from_slice(Field::Wait.name().as_bytes())?;
    push_wait(text, code)?;
    text.extend_from_slice(b"\n")
}
