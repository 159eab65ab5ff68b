//! Numbers in digits, and the name of a node.

ghost use Rattle.std.specs.Prelude.{◌≡◌, ◌≤◌, ◌<◌, ◌++◌, [], ◌∷◌, codes, OnOk, slice_index};
ghost use Rattle.hex.specs.Hex.{lower_digits};
ghost use Rattle.ga_grid.specs.Grid.{decimal_name_of_node};
ghost use Rattle.ga_text.specs.Digits.{three_decimal_digits};
ghost use Rattle.ga_asm_text.specs.inner.{AppendsSourceWords, last_hex_digits};

use ga_grid::NodeId;
use std::alloc::AllocError;

/// Adds `node` and the node's name.
pub(crate) fn push_node(text: &mut Vec<u8>, node: NodeId) -> Result<(), AllocError>
    ensures { OnOk result (AppendsSourceWords text.old.items text.new.items (codes "node" ∷ three_decimal_digits (decimal_name_of_node node.number) ∷ [])) }
{
    text.extend_from_slice(b"node ")?;
    text.extend_from_slice(&three_digits(node.decimal_name()))?;
    text.push(b'\n')?;
    Ok(())
}

/// A number in three digits.
fn three_digits(number: u32) -> [u8; 3]
    requires { number < 1000 }
    ensures { result ≡ three_decimal_digits number }
{
    [
        b'0' + (number / 100) as u8,
        b'0' + (number / 10 % 10) as u8,
        b'0' + (number % 10) as u8,
    ]
}

/// Adds a number in `digits` hexadecimal digits.
#[tactic(auto, using(crate::proofs::HexLemmas::hex_more))]
pub(crate) fn push_hex(text: &mut Vec<u8>, number: u32, digits: u32) -> Result<(), AllocError>
    requires { digits ≤ 8 }
    ensures { OnOk result (text.new.items ≡ text.old.items ++ last_hex_digits digits number) }
{
    let mut left = digits;
    while left > 0 {
        left -= 1;
        text.push(digit_of((number >> (4 * left) & 15) as u8))?;
    }
    Ok(())
}

/// A hexadecimal digit.
fn digit_of(value: u8) -> u8
    requires { value < 16 }
    ensures { result ≡ slice_index lower_digits value }
{
    if value < 10 {
        b'0' + value
    } else {
        b'a' - 10 + value
    }
}
