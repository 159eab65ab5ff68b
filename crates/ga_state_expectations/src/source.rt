//! What a line of source says of a program.

use crate::expectation::NodeExpectation;
use ga_state_conditions::StateConditions;
use ga_state_links::LinkExpectation;

/// What is expected of a program, in whatever order its nodes run.
#[derive(Clone, PartialEq, Eq, Debug, Drop)]
pub enum Expectation {
    /// A node holds or does something at each end.
    NodeAtEveryEnd(NodeExpectation),
    /// None of these conditions holds after any event.
    Never(StateConditions),
    /// These words pass over a link.
    LinkPassesWords(LinkExpectation),
    /// Every order ends.
    EveryOrderEnds,
    /// The program has one end.
    OneEnd,
}

/// An expectation with its line.
#[derive(Drop)]
pub struct LineExpectation {
    /// The line's number, from 1 on.
    pub line: u32,
    /// The words after `expect`, with the name of the node in front if the line doesn't name it.
    pub text: Vec<u8>,
    /// What the line says.
    pub expectation: Expectation,
}
