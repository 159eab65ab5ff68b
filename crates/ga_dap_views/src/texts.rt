//! Numbers and names as texts.

ghost use Rattle.std.specs.Prelude.{◌≡◌, ◌<◌, ◌^◌, ◌+◌, ◌++◌, ◌∷◌, [], codes, decimal, slice_index, string_bytes, IfOk, OnOk};
ghost use Rattle.hex.specs.Hex.{lower_digits};
ghost use Rattle.ga_word.specs.Word.{hex_digits_of_word};
ghost use Rattle.ga_grid.specs.Grid.{decimal_name_of_node};
ghost use Rattle.ga_text.specs.Digits.{three_decimal_digits, two_hex_digits_text};
ghost use Rattle.ga_dap_views.specs.Activity.{negative_value_suffix_text, word_value_text};
ghost use Rattle.ga_dap_views.specs.Variables.{memory_reference};
ghost use Rattle.ga_dap_views.specs.Disassembly.{three_hex_digits};

use ga_grid::NodeId;
use std::alloc::{AllocError, Global};

/// A hexadecimal digit.
fn digit(value: u32) -> &'static str
    requires { value < 16 }
    ensures hex { result.now ≡ slice_index lower_digits value ∷ [] }
    ensures decimal { value < 10 → result.now ≡ (48 + value) ∷ [] }
{
    match value {
        0 => "0",
        1 => "1",
        2 => "2",
        3 => "3",
        4 => "4",
        5 => "5",
        6 => "6",
        7 => "7",
        8 => "8",
        9 => "9",
        10 => "a",
        11 => "b",
        12 => "c",
        13 => "d",
        14 => "e",
        _ => "f",
    }
}

/// Adds the name of a node.
pub(crate) fn add_node(text: &mut String, node: NodeId) -> Result<(), AllocError>
    ensures { OnOk result (string_bytes text.new ≡ string_bytes text.old ++ three_decimal_digits (decimal_name_of_node node.number)) }
{
    let decimal_name = node.decimal_name();
    text.push_str(digit(decimal_name / 100))?;
    text.push_str(digit(decimal_name / 10 % 10))?;
    text.push_str(digit(decimal_name % 10))
}

/// Adds two hexadecimal digits.
pub(crate) fn add_hex2(text: &mut String, byte: u8) -> Result<(), AllocError>
    ensures { OnOk result (string_bytes text.new ≡ string_bytes text.old ++ two_hex_digits_text byte) }
{
    let value = u32::from(byte);
    text.push_str(digit(value / 16 % 16))?;
    text.push_str(digit(value % 16))
}

/// Adds six hexadecimal digits.
pub(crate) fn add_hex6(text: &mut String, value: u32) -> Result<(), AllocError>
    ensures { OnOk result (string_bytes text.new ≡ string_bytes text.old ++ hex_digits_of_word value) }
{
    text.push_str(digit(value / 1_048_576 % 16))?;
    text.push_str(digit(value / 65536 % 16))?;
    text.push_str(digit(value / 4096 % 16))?;
    text.push_str(digit(value / 256 % 16))?;
    text.push_str(digit(value / 16 % 16))?;
    text.push_str(digit(value % 16))
}

/// A number in decimal digits, after a text.
pub(crate) fn text_with_number(
    alloc: Global,
    before: &str,
    number: u32,
) -> Result<String, AllocError>
    ensures { IfOk result (λ text. string_bytes text ≡ before.now ++ decimal number) }
{
    format!(in alloc; "{before}{number}")
}

/// A word: its six digits, the number, and the negative number where its highest bit is set.
pub(crate) fn word_text(alloc: Global, word: u32) -> Result<String, AllocError>
    requires { word < 2 ^ 18 }
    ensures { IfOk result (λ text. string_bytes text ≡ word_value_text word) }
{
    let mut text = String::new(alloc);
    add_hex6(&mut text, word)?;
    add_number(&mut text, " = ", word)?;
    add_negative(&mut text, word)?;
    Ok(text)
}

/// Adds the negative number of a word, where its highest bit is set.
fn add_negative(text: &mut String, word: u32) -> Result<(), AllocError>
    requires { word < 2 ^ 18 }
    ensures { OnOk result (string_bytes text.new ≡ string_bytes text.old ++ negative_value_suffix_text word) }
{
    if word < 0x20000 {
        Ok(())
    } else {
        add_number(text, " = -", 0x40000 - word)
    }
}

/// Adds a number in decimal digits, after a text.
fn add_number(text: &mut String, before: &str, number: u32) -> Result<(), AllocError>
    ensures { OnOk result (string_bytes text.new ≡ string_bytes text.old ++ before.now ++ decimal number) }
{
    write!(text, "{before}{number}")
}

/// An address of the chip.
pub(crate) fn address_text(alloc: Global, address: u32) -> Result<String, AllocError>
    requires { address < 2 ^ 24 }
    ensures { IfOk result (λ text. string_bytes text ≡ memory_reference address) }
{
    let mut text = String::from_str(alloc, "0x")?;
    add_hex6(&mut text, address)?;
    Ok(text)
}

/// The name of a cell, by which a client requests it.
pub(crate) fn cell_name(alloc: Global, address: u8) -> Result<String, AllocError>
    ensures { IfOk result (λ text. string_bytes text ≡ codes "[" ++ two_hex_digits_text address ++ codes "]") }
{
    let mut text = String::from_str(alloc, "[")?;
    add_hex2(&mut text, address)?;
    text.push_str("]")?;
    Ok(text)
}

/// Adds three hexadecimal digits.
pub(crate) fn add_hex3(text: &mut String, value: u32) -> Result<(), AllocError>
    ensures { OnOk result (string_bytes text.new ≡ string_bytes text.old ++ three_hex_digits value) }
{
    text.push_str(digit(value / 256 % 16))?;
    text.push_str(digit(value / 16 % 16))?;
    text.push_str(digit(value % 16))
}
