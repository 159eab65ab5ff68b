//! Names of nodes as texts.

ghost use Rattle.std.specs.Prelude.{◌≡◌, ◌<◌, ◌+◌, ◌++◌, ◌∷◌, [], decimal, string_bytes, OnOk};
ghost use Rattle.ga_text.specs.Digits.{name_of_node};

use ga_grid::NodeId;
use std::alloc::AllocError;

/// Adds three numbers.
fn add_numbers(text: &mut String, row: u32, tens: u32, ones: u32) -> Result<(), AllocError>
    ensures { OnOk result (string_bytes text.new ≡ string_bytes text.old ++ decimal row ++ decimal tens ++ decimal ones) }
{
    write!(text, "{row}{tens}{ones}")
}

/// Adds three decimal digits.
#[tactic(auto, using(crate::proofs::Sent::ok_then, crate::proofs::Sent::three_digits))]
fn add_digits(text: &mut String, row: u32, tens: u32, ones: u32) -> Result<(), AllocError>
    requires row { row < 10 }
    requires tens { tens < 10 }
    requires ones { ones < 10 }
    ensures { OnOk result (string_bytes text.new ≡ string_bytes text.old ++ (48 + row) ∷ (48 + tens) ∷ (48 + ones) ∷ []) }
{
    add_numbers(text, row, tens, ones)
}

/// Adds the name of a node.
pub fn push_node_name(text: &mut String, node: NodeId) -> Result<(), AllocError>
    ensures { OnOk result (string_bytes text.new ≡ string_bytes text.old ++ name_of_node node) }
{
    let decimal_name = node.decimal_name();
    add_digits(
        text,
        decimal_name / 100,
        decimal_name / 10 % 10,
        decimal_name % 10,
    )
}
