//! Hit conditions as a client says them.

ghost use Rattle.std.specs.Prelude.{◌≡◌};
ghost use Rattle.ga_dap_breakpoints.specs.Saying.{parse_hit_number, hit_condition_by_operator, parse_hit_condition};

use crate::condition::HitCondition;
use ga_text::{parse_number, split_at_space};

/// A number of hits.
fn parse_hit_number(text: &[u8]) -> Option<u32>
    ensures { result ≡ parse_hit_number text.now }
{
    let number = parse_number(text)?;
    if number == 0 { None } else { Some(number) }
}

/// The hits that a sign and a number ask for.
fn hit_condition_by_operator(sign: &[u8], number: u32) -> Option<HitCondition>
    ensures { result ≡ hit_condition_by_operator sign.now number }
{
    if sign == b">=".as_slice() {
        Some(HitCondition::FromHitNumber(number))
    } else if sign == b"%".as_slice() {
        Some(HitCondition::EachMultipleOf(number))
    } else {
        None
    }
}

/// The hits that a text asks for: `N`, `>= N` or `% N`, with N from 1 on; none where it asks for none. Takes time by its length.
pub fn parse_hit_condition(text: &[u8]) -> Option<HitCondition>
    ensures { result ≡ parse_hit_condition text.now }
{
    match split_at_space(text) {
        Some((sign, number)) => hit_condition_by_operator(sign, parse_hit_number(number)?),
        None => Some(HitCondition::OnlyHitNumber(parse_hit_number(text)?)),
    }
}
