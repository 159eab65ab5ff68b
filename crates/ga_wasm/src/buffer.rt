//! Buffers of the host, and how a call uses them.

ghost use Rattle.std.specs.Prelude.{◌≡◌, [], length, take};

use std::alloc::Global;

/// A reader of what was handed in, and two texts to write to.
pub(crate) fn streams(alloc: Global, input: &[u8]) -> (&[u8], Vec<u8>, Vec<u8>)
    ensures { (result.0.now ≡ input.now) × (result.1.items ≡ []) × (result.2.items ≡ []) }
{
    (input, Vec::new(alloc), Vec::new(alloc))
}

/// Puts a text at the front of a buffer, as far as there is room. Says how many bytes the text has.
pub(crate) fn put_front(output: &mut [u8], text: &[u8]) -> usize
    ensures count { result ≡ length text.now }
    ensures front { take result output.new ≡ take (length output.old) text.now }
{
    let count = text.len().min(output.len());
    output[..count].copy_from_slice(&text[..count]);
    text.len()
}
