//! The arguments of `back`: `until` and conditions, for every event or for the steps of a node.

ghost use Rattle.std.specs.Prelude.{◌≡◌};
ghost use Rattle.ga_explorer.specs.Reading.{parse_back_arguments, parse_back_command_words, back_until_command};

use crate::changes::Change;
use ga_conditions::{parse_conditions, parse_until_conditions};
use ga_debug_info::DebugInfo;
use ga_text::{parse_node, split_at_space};

/// What follows `back` and a space.
#[tactic(auto, unfolding(crate::specs::Reading::parse_back_arguments))]
pub(crate) fn parse_back(notes: &Option<DebugInfo>, text: &[u8]) -> Option<Change>
    ensures { result ≡ parse_back_arguments notes.now text.now }
{
    let (name, rest) = split_at_space(text)?;
    parse_back_command_words(notes, name, rest)
}

/// `until` and conditions, or a node before these.
#[tactic(auto, unfolding(crate::specs::Reading::parse_back_command_words))]
fn parse_back_command_words(notes: &Option<DebugInfo>, name: &[u8], rest: &[u8]) -> Option<Change>
    ensures { result ≡ parse_back_command_words notes.now name.now rest.now }
{
    match name {
        b"until" => back_until_command(notes, rest),
        _ => {
            let node = parse_node(name)?;
            let until = parse_until_conditions(notes, rest)?;
            Some(Change::BackUntil {
                only: Some(node),
                until,
            })
        }
    }
}

fn back_until_command(notes: &Option<DebugInfo>, text: &[u8]) -> Option<Change>
    ensures { result ≡ back_until_command notes.now text.now }
{
    Some(Change::BackUntil {
        only: None,
        until: parse_conditions(notes, text)?,
    })
}
