//! Sets of sides as texts.

ghost use Rattle.std.specs.Prelude.{◌≡◌, ◌≤◌, IfSome};
ghost use Rattle.ga_ports.specs.Address.{side_letter_value, parse_side_set};

/// The value of a letter of a set: the value of its side, or 0 for a hyphen.
fn side_letter_value(name: u8, value: u32, byte: u8) -> Option<u32>
    ensures value { result ≡ side_letter_value name value byte }
    ensures in_range { IfSome result (λ v. v ≤ value) }
{
    if byte == name {
        Some(value)
    } else if byte == b'-' {
        Some(0)
    } else {
        None
    }
}

/// The number of a set of sides: right 8, down 4, left 2, up 1.
#[tactic(auto, unfolding(crate::specs::Address::parse_side_set))]
pub fn parse_side_set(text: &[u8]) -> Option<u32>
    ensures value { result ≡ parse_side_set text.now }
    ensures in_range { IfSome result (λ sides. sides ≤ 15) }
{
    match text {
        [right, down, left, up] => {
            let right = side_letter_value(b'r', 8, *right)?;
            let down = side_letter_value(b'd', 4, *down)?;
            let left = side_letter_value(b'l', 2, *left)?;
            let up = side_letter_value(b'u', 1, *up)?;
            Some(right + down + left + up)
        }
        _ => None,
    }
}
