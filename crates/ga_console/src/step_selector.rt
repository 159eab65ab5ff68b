//! Which step of a node a command or an option means.

ghost use Rattle.std.specs.Prelude.{◌≡◌};
ghost use Rattle.ga_console.specs.Selectors.{parse_step_selector, selected_step_number};

use ga_grid::NodeId;
use ga_lab::Lab;
use ga_text::parse_number;

/// Which step of a node is meant.
#[derive(Clone, Copy, PartialEq, Eq, Debug)]
pub enum StepSelector {
    /// The step with this number.
    Number(u32),
    /// The last step that the node made.
    Last,
}

impl StepSelector {
    /// What a word spells: a number, or `last`.
    pub fn parse(word: &[u8]) -> Option<Self>
        ensures { result ≡ parse_step_selector word.now }
    {
        if word == b"last".as_slice() {
            Some(StepSelector::Last)
        } else {
            Some(StepSelector::Number(parse_number(word)?))
        }
    }

    /// The number of the step: of the last of a node that made none, 0, which no step has.
    pub fn resolve(self, lab: &Lab, node: NodeId) -> u32
        ensures { result ≡ selected_step_number lab.now node self }
    {
        match self {
            StepSelector::Number(step) => step,
            StepSelector::Last => lab.steps(node),
        }
    }
}
