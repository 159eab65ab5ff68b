//! The races of a lab: steps that could have come out otherwise, had nodes run in another order.
#![tactic(auto)]

mod acts;
mod adding;
mod alternatives;
mod around;
pub mod laws;
mod left;
mod look_changes;
mod moments;
mod races;
mod readings;
mod writers;

pub use alternatives::alternative_word;
pub use races::{Race, Races, find_races};
pub use readings::LookRace;
