//! Source as one call: its image, and its listing.

ghost use Rattle.std.specs.Prelude.{◌≡◌, ◌++◌, length, take};
ghost use Rattle.ga_text.specs.Lines.{Bytes};
ghost use Rattle.ga_asm_text.specs.Source.{WritesAssembly, WritesListing};
ghost use Rattle.ga_console.specs.declared.run.Status.{Status as Ended};

use crate::buffer::{put_front, streams};
use ga_asm_text::{assemble_source, list_source};
use std::alloc::Global;

/// The image of a source, as far as there is room for it; returns how many bytes it has, 0 if the source is refused. Its fault
/// or its warnings are at the front of `told`, as far as there is room; the rest of `told` is unchanged.
#[unsafe(no_mangle)]
pub extern "C" fn ga_assemble(
    alloc: Global,
    input: &[u8],
    output: &mut [u8],
    told: &mut [u8],
) -> usize
    ensures { (read rest text : Bytes) × (status : Ended) × (input.now ≡ read ++ rest) × WritesAssembly read rest text status
        × (result ≡ length text) × (take result output.new ≡ take (length output.old) text) }
{
    let (mut reader, mut image, mut faults) = streams(alloc, input);
    let _status = assemble_source(alloc, &mut reader, &mut image, &mut faults);
    put_front(told, faults.as_slice());
    put_front(output, image.as_slice())
}

/// The listing of a source, as far as there is room for it; says how many bytes it has, 0 where the source is refused.
#[unsafe(no_mangle)]
pub extern "C" fn ga_list(alloc: Global, input: &[u8], output: &mut [u8]) -> usize
    ensures { (read rest text : Bytes) × (status : Ended) × (input.now ≡ read ++ rest) × WritesListing read rest text status
        × (result ≡ length text) × (take result output.new ≡ take (length output.old) text) }
{
    let (mut reader, mut listing, mut faults) = streams(alloc, input);
    let _status = list_source(alloc, &mut reader, &mut listing, &mut faults);
    put_front(output, listing.as_slice())
}
