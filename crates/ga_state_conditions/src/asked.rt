//! What is looked for in the states of a program, as text.

ghost use Rattle.std.specs.Prelude.{◌≡◌, ◌≤◌, length, Ok, Err, IfOk, MatchResult};
ghost use Rattle.ga_state_conditions.specs.Asked.{condition_without_counts, stuck_condition, parsed_state_condition, parsed_state_conditions};

use crate::condition::{StateCondition, counts_steps, counts_words};
use arrayvec::ArrayVec;
use ga_conditions::{parse_run_condition, split_first_condition};
use ga_debug_info::DebugInfo;
use ga_grid::NodeId;
use ga_scheduler::{Condition, MAX_CONDITIONS};
use ga_text::{parse_node, split_at_space};

/// Why a text gives no conditions.
#[derive(Clone, Copy, PartialEq, Eq, Debug)]
pub enum ConditionFault {
    /// It has another form.
    Syntax,
    /// A condition depends on how many steps a node made, which a state doesn't have.
    CountsSteps,
    /// A condition depends on how many words were transferred over a link.
    CountsWords,
    /// There are more than [`MAX_CONDITIONS`].
    TooManyConditions,
}

/// Some conditions.
pub type StateConditions = ArrayVec<StateCondition, MAX_CONDITIONS>;

/// A condition of a run, unless it counts.
fn condition_without_counts(condition: Option<Condition>) -> Result<StateCondition, ConditionFault>
    ensures { result ≡ condition_without_counts condition }
{
    match condition {
        Some(condition) => {
            if counts_steps(&condition) {
                Err(ConditionFault::CountsSteps)
            } else if counts_words(&condition) {
                Err(ConditionFault::CountsWords)
            } else {
                Ok(StateCondition::HoldsAfterEvent(condition))
            }
        }
        None => Err(ConditionFault::Syntax),
    }
}

/// The node that is to be stuck.
fn stuck_condition(node: Option<NodeId>) -> Result<StateCondition, ConditionFault>
    ensures { result ≡ stuck_condition node }
{
    match node {
        Some(node) => Ok(StateCondition::NodeIsStuck(node)),
        None => Err(ConditionFault::Syntax),
    }
}

/// The condition that a text spells.
fn parse_state_condition(
    notes: &Option<DebugInfo>,
    text: &[u8],
) -> Result<StateCondition, ConditionFault>
    ensures { result ≡ parsed_state_condition notes.now text.now }
{
    match split_at_space(text) {
        Some((name, rest)) => {
            if name == b"stuck".as_slice() {
                stuck_condition(parse_node(rest))
            } else {
                condition_without_counts(parse_run_condition(notes, text))
            }
        }
        None => condition_without_counts(parse_run_condition(notes, text)),
    }
}

/// The conditions that a text spells, with ` or ` between them.
///
/// # Errors
/// The first fault.
pub fn parse_state_conditions(
    notes: &Option<DebugInfo>,
    text: &[u8],
) -> Result<StateConditions, ConditionFault>
    ensures conditions { MatchResult result (λ parsed. parsed_state_conditions notes.now text.now ≡ Ok parsed.items)
        (λ fault. parsed_state_conditions notes.now text.now ≡ Err fault) }
    ensures few { IfOk result (λ parsed. length parsed.items ≤ 8) }
{
    let mut conditions = ArrayVec::new();
    let mut left = text;
    'conditions: for _place in 0..MAX_CONDITIONS {
        let (first, others) = split_first_condition(left);
        match parse_state_condition(notes, first) {
            Ok(one) => conditions.push(one),
            Err(fault) => return Err(fault),
        }
        left = match others {
            Some(others) => others,
            None => return Ok(conditions),
        };
    }
    Err(ConditionFault::TooManyConditions)
}
