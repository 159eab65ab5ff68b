//! The scopes of a frame.

/// What a client is shown of a node (Debug Adapter Protocol, "Scope").
#[derive(Clone, Copy, PartialEq, Eq, Debug)]
pub enum Scope {
    /// Registers, and what the node does.
    Registers,
    /// The data stack.
    DataStackScope,
    /// The return stack.
    ReturnStackScope,
    /// The neighbours, and whether the node is deadlocked.
    Links,
    /// The cells of RAM.
    Ram,
    /// The cells of ROM.
    Rom,
}
