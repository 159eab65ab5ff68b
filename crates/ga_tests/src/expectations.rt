//! The lines of a source that say what is expected of its programs.

use crate::common::{assert_each_equal, assert_equal_values, lab_after_steps};
use ga_grid::NodeId;
use std::alloc::Global;
use std::test::Fail;

/// Expectations before the first `node`, in a program of two nodes, after a comment, without words, and after the end.
const SOURCE: &[u8] =
    b"expect one end\nnode 001 100 dup\n\texpect t = limit ( why ) \\ so\n3 constant limit\nnode 017\n( so ) expect  reads left\nexpect\nend\nexpect t = 3\n";

/// A line, the nodes and the text of its expectation.
type Row<'a> = (u32, &'a [NodeId], &'a [u8]);

#[test]
fn of_a_source(rt: HostRuntime) -> Result<(), Fail> {
    let alloc: Global = rt.alloc();
    let (_lab, notes) = lab_after_steps(&rt, alloc, SOURCE, 0)?;
    let (two, one) = ([NodeId::new(1), NodeId::new(18)], [NodeId::new(17)]);
    let rows: [Row<'_>; 4] = [
        (1, &[], b"one end"),
        (3, &two, b"t = 3"),
        (6, &one, b"reads left"),
        (7, &one, b""),
    ];
    assert_equal_values(&rt, &notes.expectations.len(), &rows.len());
    for (found, (line, nodes, text)) in notes.expectations.iter().zip(&rows) {
        assert_equal_values(&rt, &found.line, line);
        assert_each_equal(&rt, found.nodes.as_slice(), nodes);
        assert_each_equal(&rt, found.text.as_slice(), text);
    }
    Ok(())
}
