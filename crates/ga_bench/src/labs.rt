//! The steps and undos of a lab.

use crate::programs::{ADDING_LOOP, load_program};
use ga_grid::{Chip, NodeId};
use ga_lab::Lab;
use std::alloc::Global;
use std::io;
use std::time::Instant;

/// A lab in which each of the first `nodes` nodes sums without end.
pub fn lab_of_adders(alloc: Global, nodes: u8) -> Option<Lab> {
    let mut chip = Chip::new(alloc).ok()?;
    for number in 0..144u8 {
        if number < nodes {
            load_program(chip.node_mut(NodeId::new(number)), ADDING_LOOP);
        }
    }
    Lab::new(alloc, chip, u32::MAX).ok()
}

/// Makes a number of steps of the first nodes in turn, and counts those that were made; inlined, by the call that has none of
/// its own in this loop.
#[inline(never)]
fn steps<const IS_INLINED: bool>(lab: &mut Lab, nodes: u8, count: u32) -> u32 {
    let mut made = 0u32;
    let mut number = 0u8;
    for _ in 0..count {
        let node = NodeId::new(number % 144);
        let is_made = if IS_INLINED {
            lab.step_inlined(node).is_ok()
        } else {
            lab.step(node).is_ok()
        };
        if is_made {
            made = made.wrapping_add(1);
        }
        number = number.wrapping_add(1);
        if number >= nodes {
            number = 0;
        }
    }
    made
}

/// Undoes `count` events, and counts them.
#[inline(never)]
fn undos(lab: &mut Lab, count: u32) -> u32 {
    let mut state_after_undo = 0u32;
    for _ in 0..count {
        if lab.undo().is_ok() {
            state_after_undo = state_after_undo.wrapping_add(1);
        }
    }
    state_after_undo
}

/// What is made of a lab.
#[derive(Clone, Copy)]
pub enum LabOperation {
    Step,
    StepInlined,
    Undo,
}

/// The nanoseconds of a number of steps of the first nodes in turn, or of as many undos, and how many were made.
pub fn time_lab_operations(
    rt: &HostRuntime,
    lab: &mut Lab,
    act: LabOperation,
    nodes: u8,
    count: u32,
) -> io::Result<(u128, u32)> {
    let start = Instant::now(rt)?;
    let made = match act {
        LabOperation::Step => steps::<false>(lab, nodes, count),
        LabOperation::StepInlined => steps::<true>(lab, nodes, count),
        LabOperation::Undo => undos(lab, count),
    };
    Ok((start.elapsed(rt)?.as_nanos(), made))
}
