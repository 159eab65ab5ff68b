//! Programs of a node.

use ga_node::{Node, NodePlace};

/// `@p push . .`, a count, `dup + . unext` and `jump 0`: sums without end.
pub const ADDING_LOOP: &[u32] = &[0x048b2, 0x3ffff, 0x241b4, 0x10000];

/// Stack and memory words, a literal and `jump 0`: `dup 2* over +`, `push a a! .`, `pop and 2/ .`, `@p drop or .`, the literal, `@ ! . +`.
pub const MIXED_OPCODES_PROGRAM: &[u32] = &[
    0x24480, 0x2eeaa, 0x260c2, 0x042e2, 0x12345, 0x03ab0, 0x10000,
];

/// `@p b! @p .` with the port to the right and a literal, and `!b . . .`: the literal is sent to the right.
pub const SENDER_PROGRAM: &[u32] = &[0x4b12, 0x1d5, 0x2a, 0x89b2];

/// `@p b! @b .` with the port to the right: a word is taken from there.
pub const RECEIVER_PROGRAM: &[u32] = &[0x4b02, 0x1d5];

/// `@b @b @b unext` and `jump 0`: three reads of `io`, again and again.
pub const IO_READER_PROGRAM: &[u32] = &[0x1f04, 0x10000];

/// `jump 0`.
pub const JUMP_PROGRAM: &[u32] = &[0x10000];

/// Puts these words from cell 0 of a node on, and P there.
pub fn load_program(node: &mut Node, words: &[u32]) {
    node.set(NodePlace::P, 0);
    for cell in 0..64u8 {
        if let Some(word) = words.get(cell as usize) {
            node.set(NodePlace::Ram(cell), (*word).min(0x3ffff));
        }
    }
}
