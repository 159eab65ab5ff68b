//! What tests of several modules begin with, and what they assert.
//!
//! An assertion in a function of its own is proved once, and costs the tests that call it little.

use ga_debug_info::{DebugInfo, debug_info_of_source};
use ga_grid::NodeId;
use ga_image::parse;
use ga_lab::Lab;
use ga_source::assemble_source_text;
use std::alloc::Global;
use std::fmt::{Debug, Display};
use std::process::Abort;
use std::test::Fail;

/// A value is the one wanted.
pub fn assert_equal_values<T: PartialEq + Debug>(rt: &impl Abort, got: &T, wanted: &T) {
    assert_eq!(rt; got, wanted);
}

/// Several values are those wanted.
pub fn assert_each_equal<T: PartialEq + Debug>(rt: &impl Abort, got: &[T], wanted: &[T]) {
    assert_eq!(rt; got, wanted);
}

/// Each value has this text for a person.
pub fn assert_each_display_text<T: Display>(
    rt: &impl Abort,
    alloc: Global,
    rows: &[(T, &str)],
) -> Result<(), Fail> {
    for (thing, wanted) in rows {
        let said = thing.to_string(alloc)?;
        assert_eq!(rt; said.as_str(), *wanted);
    }
    Ok(())
}

/// A lab with the chip of an image, whose history has at most `limit` events.
pub fn lab_of_image(alloc: Global, image: &[u8], limit: u32) -> Result<Lab, Fail> {
    let lab = Lab::new(alloc, parse(alloc, image)?, limit)?;
    Ok(lab)
}

/// Node 000 sends a word to node 001, which takes it, and node 700 jumps without end.
pub const PAIR_PROGRAM: &[u8] =
    b"ga144 1\nnode 000\np 000000\nram 00 004b12 0001d5 00002a 0089b2 010000\nnode 001\np 000000\nram 00 004b02 0001d5 000000 000000 010000\nnode 700\np 000000\nram 00 010000\nend\n";

/// In cell 00 of node 000 `@p call double`, in 02 `drop jump main`, in 03 `call quad`, in 04 `2* ;`, in 05 `dup + dup +`, in 06 `;`.
pub const CALLS_PROGRAM: &[u8] =
    b"node 000\n: main\n  5 double drop\n  main ;\n: double\n  quad\n  2* ;\n: quad\n  dup +\n  dup + ;\n";

/// The lab of a source, in which node 000 made `steps` steps, and its debug info.
pub fn lab_after_steps(
    rt: &impl Abort,
    alloc: Global,
    source: &[u8],
    steps: u32,
) -> Result<(Lab, DebugInfo), Fail> {
    let Ok(assembled) = assemble_source_text(alloc, source) else {
        panic!(rt; "assembles");
    };
    let notes = debug_info_of_source(alloc, source, assembled.programs.as_slice())?;
    let mut lab = Lab::new(alloc, assembled.chip, 1000)?;
    for _ in 0..steps {
        lab.step(NodeId::new(0))?;
    }
    Ok((lab, notes))
}
