//! The language of conditions: what a run, a search back and a breakpoint ask of an event and of the chip after it, as text.
#![tactic(auto)]

mod alternatives;
mod condition;
mod numbers;
mod tests_of_values;

pub use alternatives::{
    RunConditions, never_holding_conditions, parse_conditions, parse_until_conditions,
    split_first_condition,
};
pub use condition::parse_run_condition;
pub use numbers::{parse_hex_word, parse_operand};
pub use tests_of_values::{parse_comparison, parse_node_value, parse_value_test};
