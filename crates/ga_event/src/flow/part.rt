//! The parts of a node, and where their values come from.

/// A part of a node as the reference describes it: a word of its stacks or memories, or a register. One more is the word that
/// comes from outside the node in an event: the one that `io` shows, or a transferred one.
#[derive(Clone, Copy, PartialEq, Eq, Debug, Default)]
pub enum NodePart {
    /// A word of the data stack, 0 for T, 1 for S, to 9.
    Data(u8),
    /// A word of the return stack, 0 for R, to 8.
    Return(u8),
    /// A cell of RAM, 0 to 63.
    Ram(u8),
    /// A cell of ROM, 0 to 63.
    Rom(u8),
    /// The register A.
    A,
    /// The register B.
    B,
    /// The register P.
    P,
    /// The instruction word.
    I,
    /// The word written to `io`.
    Io,
    /// The carry.
    Carry,
    /// The slot that comes next.
    Slot,
    /// What the node waits for.
    Wait,
    /// Why the node is stopped.
    Stop,
    /// The word from outside.
    #[default]
    OutsideWord,
}

impl NodePart {
    ghost use Rattle.std.specs.Prelude.{◌≡◌, ◌↔◌, IsTrue};
    ghost use Rattle.ga_event.specs.Flow.{kind_of_node_part, index_of_node_part, is_same_node_part};

    /// T, the top of the data stack.
    pub const T: NodePart = NodePart::Data(0);
    /// S, the word below it.
    pub const S: NodePart = NodePart::Data(1);
    /// R, the top of the return stack.
    pub const R: NodePart = NodePart::Return(0);

    // A number for each kind of part.
    fn kind(self) -> u8
        ensures { result ≡ kind_of_node_part self }
    {
        match self {
            NodePart::Data(_) => 0,
            NodePart::Return(_) => 1,
            NodePart::Ram(_) => 2,
            NodePart::Rom(_) => 3,
            NodePart::A => 4,
            NodePart::B => 5,
            NodePart::P => 6,
            NodePart::I => 7,
            NodePart::Io => 8,
            NodePart::Carry => 9,
            NodePart::Slot => 10,
            NodePart::Wait => 11,
            NodePart::Stop => 12,
            NodePart::OutsideWord => 13,
        }
    }

    // The place or the cell of a part that has one.
    fn index(self) -> u8
        ensures { result ≡ index_of_node_part self }
    {
        match self {
            NodePart::Data(k) => k,
            NodePart::Return(k) => k,
            NodePart::Ram(k) => k,
            NodePart::Rom(k) => k,
            _ => 0,
        }
    }

    /// Whether the two are the same part.
    pub fn is_same_node_part(self, other: NodePart) -> bool
        ensures value { result ≡ is_same_node_part self other }
        ensures same { IsTrue result ↔ (self ≡ other) }
    {
        self.kind() == other.kind() && self.index() == other.index()
    }
}
