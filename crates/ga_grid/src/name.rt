//! The names of the nodes as texts.

ghost use Rattle.std.specs.Prelude.{◌≡◌, ◌<◌, IfSome};
ghost use Rattle.ga_grid.specs.Grid.{decimal_digit, parse_decimal_name};

/// The value of a decimal digit.
pub fn decimal_digit(byte: u8) -> Option<u32>
    ensures value { result ≡ decimal_digit byte }
    ensures in_range { IfSome result (λ digit. digit < 10) }
{
    match byte {
        b'0'..=b'9' => Some(u32::from(byte - b'0')),
        _ => None,
    }
}

/// The row and the column of a node, as three decimal digits. `NodeId::from_decimal_name` returns the node, if there is one.
#[tactic(auto, unfolding(crate::specs::Grid::parse_decimal_name))]
pub fn parse_decimal_name(text: &[u8]) -> Option<u32>
    ensures value { result ≡ parse_decimal_name text.now }
    ensures in_range { IfSome result (λ decimal_name. decimal_name < 1000) }
{
    match text {
        [row, tens, ones] => {
            let row = decimal_digit(*row)?;
            let tens = decimal_digit(*tens)?;
            let ones = decimal_digit(*ones)?;
            Some(100 * row + 10 * tens + ones)
        }
        _ => None,
    }
}
