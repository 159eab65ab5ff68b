//! Tests of what no session shows: calls that no session makes, a chip that threads share, texts
//! that are parsed and refused, and what an editor is shown. What sessions show is in the folder `sessions` at the top.
#![tactic(auto)]

#[cfg(test)]
mod adapter;
#[cfg(test)]
mod closed_sets;
#[cfg(test)]
mod common;
#[cfg(test)]
mod events;
#[cfg(test)]
mod expectations;
#[cfg(test)]
mod image;
#[cfg(test)]
mod messages;
#[cfg(test)]
mod moves;
#[cfg(test)]
mod schedules;
#[cfg(test)]
mod shared;
#[cfg(test)]
mod small_programs;
#[cfg(test)]
mod state_graph;
#[cfg(test)]
mod state_search;
#[cfg(test)]
mod state_store;
#[cfg(test)]
mod streams;
