//! What a node can see of its neighbours, and the word that a read of `io` gives.

ghost use Rattle.std.specs.Prelude.{◌≡◌, ◌+◌, ◌≤◌, ◌<◌, ◌^◌};
ghost use Rattle.ga_node.specs.Io.{io_word, no_neighbours};

use ga_word::Word18;

/// The neighbour on one side of a node, as a read of `io` shows it.
#[derive(Clone, Copy, PartialEq, Eq, Debug)]
pub enum NeighbourState {
    /// No node: an edge of the grid.
    Nobody,
    /// A neighbour that doesn't wait for this side.
    Idle,
    /// A neighbour that waits reading a set with this side.
    Reading,
    /// A neighbour that waits writing this side.
    Writing,
}

/// The neighbours on the four sides of a node, as a read of `io` shows them.
#[derive(Clone, Copy, PartialEq, Eq, Debug)]
pub struct SeenNeighbours {
    /// The neighbour on side right.
    pub right: NeighbourState,
    /// The neighbour on side down.
    pub down: NeighbourState,
    /// The neighbour on side left.
    pub left: NeighbourState,
    /// The neighbour on side up.
    pub up: NeighbourState,
}

impl NeighbourState {
    /// What a side shows in its two bits, which are given by their values.
    #[inline(always)]
    fn shown(self, first: u32, second: u32) -> u32
        requires { first + second < 2 ^ 18 }
        ensures no_neighbours { self ≡ NeighbourState.Nobody → result ≡ first }
        ensures idle { self ≡ NeighbourState.Idle → result ≡ first }
        ensures reading { self ≡ NeighbourState.Reading → result ≡ 0 }
        ensures writing { self ≡ NeighbourState.Writing → result ≡ first + second }
        ensures in_range { result ≤ first + second }
    {
        match self {
            NeighbourState::Nobody => first,
            NeighbourState::Idle => first,
            NeighbourState::Reading => 0,
            NeighbourState::Writing => first + second,
        }
    }
}

impl SeenNeighbours {
    /// Nobody on any side.
    #[inline(always)]
    pub fn no_neighbours() -> Self
        ensures { result ≡ no_neighbours }
    {
        SeenNeighbours {
            right: NeighbourState::Nobody,
            down: NeighbourState::Nobody,
            left: NeighbourState::Nobody,
            up: NeighbourState::Nobody,
        }
    }

    /// The word that a read of `io` gives (DB001, the `io` register; the whole table of bits is this project's own choice). What
    /// was written to `io` is no part of it.
    #[inline(always)]
    #[tactic(auto, unfolding(crate::specs::Io::io_word))]
    pub fn io_word(self) -> Word18
        ensures { result ≡ io_word self }
    {
        let right = self.right.shown(0x10000, 0x8000);
        let down = self.down.shown(0x4000, 0x2000);
        let left = self.left.shown(0x1000, 0x800);
        let up = self.up.shown(0x400, 0x200);
        Word18::from_low_bits(0x155 + right + down + left + up)
    }
}
