//! The random schedule: in a long run, nodes that always have an event make about as many as each other.

use crate::common::{assert_equal_values, lab_of_image};
use ga_grid::NodeId;
use ga_scheduler::{Schedule, run_schedule};
use std::alloc::Global;
use std::process::Abort;
use std::test::Fail;

/// Nodes 100, 101, 102 and 201 jump without end.
const LOOPS: &[u8] =
    b"ga144 1\nnode 100\np 000000\nram 00 010000\nnode 101\np 000000\nram 00 010000\nnode 102\np 000000\nram 00 010000\nnode 201\np 000000\nram 00 010000\nend\n";

/// A number of steps is within 300 of 5000.
fn near(rt: &impl Abort, steps: u32) {
    assert!(rt; 4700 <= steps && steps <= 5300);
}

/// Of 20000 events by this seed each of the four nodes makes about a quarter.
fn is_fair(rt: &impl Abort, alloc: Global, seed: u64) -> Result<(), Fail> {
    let mut lab = lab_of_image(alloc, LOOPS, 20_000)?;
    let ran = run_schedule(&mut lab, Schedule::random_schedule(seed), 20_000, &[]);
    assert_equal_values(rt, &ran.events, &20_000);
    near(rt, lab.steps(NodeId::new(18)));
    near(rt, lab.steps(NodeId::new(19)));
    near(rt, lab.steps(NodeId::new(20)));
    near(rt, lab.steps(NodeId::new(37)));
    Ok(())
}

#[test]
fn a_random_schedule_is_fair(rt: HostRuntime) -> Result<(), Fail> {
    is_fair(&rt, rt.alloc(), 0)?;
    is_fair(&rt, rt.alloc(), 7)?;
    is_fair(&rt, rt.alloc(), u64::MAX)
}
