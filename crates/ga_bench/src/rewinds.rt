//! Rollbacks of a lab.

use crate::programs::{
    IO_READER_PROGRAM, JUMP_PROGRAM, RECEIVER_PROGRAM, SENDER_PROGRAM, load_program,
};
use ga_grid::{Chip, NodeId};
use ga_lab::Lab;
use std::alloc::Global;
use std::io;
use std::time::Instant;

/// How many pairs of neighbours pass a word; the last node of the grid makes own events.
const PAIRS: u8 = 71;

/// Makes `count` steps of a node, and counts those that were made.
fn steps(lab: &mut Lab, node: NodeId, count: u32) -> u32 {
    let mut made = 0u32;
    for _ in 0..count {
        if lab.step(node).is_ok() {
            made = made.wrapping_add(1);
        }
    }
    made
}

/// A lab in which the last node has made `own` own events, and then each pair has passed its word: the first node of a pair
/// sends a literal to the right, and the second receives it. None if fewer events were made.
pub fn lab_after_transfers(alloc: Global, own: u32) -> Option<Lab> {
    let mut chip = Chip::new(alloc).ok()?;
    for pair in 0..PAIRS {
        load_program(chip.node_mut(NodeId::new(2 * pair)), SENDER_PROGRAM);
        load_program(chip.node_mut(NodeId::new(2 * pair + 1)), RECEIVER_PROGRAM);
    }
    load_program(chip.node_mut(NodeId::new(143)), JUMP_PROGRAM);
    let mut lab = Lab::new(alloc, chip, u32::MAX).ok()?;
    if steps(&mut lab, NodeId::new(143), own) < own {
        return None;
    }
    for pair in 0..PAIRS {
        let _sent = steps(&mut lab, NodeId::new(2 * pair), 7);
        let _took = steps(&mut lab, NodeId::new(2 * pair + 1), 5);
    }
    Some(lab)
}

/// A lab in which node 001 has fetched, and node 000 has come to where its next step posts a wait.
pub fn lab_before_look(alloc: Global) -> Option<Lab> {
    let mut chip = Chip::new(alloc).ok()?;
    load_program(chip.node_mut(NodeId::new(0)), SENDER_PROGRAM);
    load_program(chip.node_mut(NodeId::new(1)), IO_READER_PROGRAM);
    let mut lab = Lab::new(alloc, chip, u32::MAX).ok()?;
    let _fetched = steps(&mut lab, NodeId::new(1), 1);
    let _sent = steps(&mut lab, NodeId::new(0), 6);
    Some(lab)
}

/// A lab in which node 100 looked at its neighbours again and again, and then node 000 and node 001 made own events, each of
/// the three four times `count` events, before node 000 sent a word to node 001. None if fewer were made.
pub fn lab_with_late_transfer(alloc: Global, count: u32) -> Option<Lab> {
    // `@p push . .`, then the count, and `. . . unext`: four events for each of the count and four more. Then what a sender or
    // a receiver does.
    let sender = [0x48b2, count, 0x2c9b4, 0x4b12, 0x1d5, 0x2a, 0x89b2];
    let taker = [0x48b2, count, 0x2c9b4, 0x4b02, 0x1d5];
    let mut chip = Chip::new(alloc).ok()?;
    load_program(chip.node_mut(NodeId::new(0)), &sender);
    load_program(chip.node_mut(NodeId::new(1)), &taker);
    load_program(chip.node_mut(NodeId::new(18)), IO_READER_PROGRAM);
    let mut lab = Lab::new(alloc, chip, u32::MAX).ok()?;
    let own = count.saturating_mul(4);
    let looked = steps(&mut lab, NodeId::new(18), own);
    let sent = steps(&mut lab, NodeId::new(0), own.saturating_add(17));
    let took = steps(&mut lab, NodeId::new(1), own.saturating_add(15));
    if looked.min(sent).min(took) < own {
        return None;
    }
    Some(lab)
}

/// What is rolled back.
#[derive(Clone, Copy)]
pub enum RollbackCase {
    /// The word of each pair, with the wait to send it: three entries of two nodes.
    PairTransfers,
    /// The word of node 000 and the wait to send it.
    OneTransfer,
    /// A wait of node 000 and this number of later looks of node 001 at it, with the `unext` after each three of them.
    LaterLooks(u32),
    /// All that the last node made.
    AllOfLastNode,
}

/// Takes a step of a node back, or asks what that would take: the events that go.
fn taken(lab: &mut Lab, node: NodeId, step: u32, is_done: bool) -> u32 {
    if is_done {
        return lab.rewind(node, step).unwrap_or(0);
    }
    match lab.forecast_rollback(node, step) {
        Ok(going) => going.events,
        Err(_) => 0,
    }
}

/// The events that go with the wait and the word of each pair.
fn taken_of_pairs(lab: &mut Lab, is_done: bool) -> u32 {
    let mut removed = 0u32;
    for pair in 0..PAIRS {
        removed = removed.wrapping_add(taken(lab, NodeId::new(2 * pair), 7, is_done));
    }
    removed
}

/// Rolls back what is to go, or asks what that would take: the events that go.
#[inline(never)]
fn go(lab: &mut Lab, goes: RollbackCase, wait: u32, is_done: bool) -> u32 {
    match goes {
        RollbackCase::PairTransfers => taken_of_pairs(lab, is_done),
        RollbackCase::OneTransfer => taken(lab, NodeId::new(0), wait, is_done),
        RollbackCase::LaterLooks(_) => taken(lab, NodeId::new(0), 7, is_done),
        RollbackCase::AllOfLastNode => taken(lab, NodeId::new(143), 1, is_done),
    }
}

/// Makes the looks that are to go.
fn look(lab: &mut Lab, goes: RollbackCase) {
    if let RollbackCase::LaterLooks(looks) = goes {
        let _waits = steps(lab, NodeId::new(0), 1);
        let _looked = steps(lab, NodeId::new(1), looks.saturating_add(looks / 3));
    }
}

/// Passes again what went.
fn pass_again(lab: &mut Lab, goes: RollbackCase) {
    match goes {
        RollbackCase::PairTransfers => {
            for pair in 0..PAIRS {
                let _made = steps(lab, NodeId::new(2 * pair), 2);
            }
        }
        RollbackCase::OneTransfer => {
            let _made = steps(lab, NodeId::new(0), 2);
        }
        _ => {}
    }
}

/// The nanoseconds of the best of some rounds of a rollback, and the number of events removed; or of its query.
pub fn time_rollback(
    rt: &HostRuntime,
    lab: &mut Lab,
    goes: RollbackCase,
    rounds: u32,
    is_done: bool,
) -> io::Result<(u128, u32)> {
    let wait = lab.steps(NodeId::new(0)).saturating_sub(1);
    let mut best = u128::MAX;
    let mut removed = 0u32;
    for _ in 0..rounds {
        look(lab, goes);
        let start = Instant::now(rt)?;
        removed = go(lab, goes, wait, is_done);
        best = best.min(start.elapsed(rt)?.as_nanos());
        if is_done {
            pass_again(lab, goes);
        }
    }
    Ok(match goes {
        RollbackCase::PairTransfers => (best / u128::from(PAIRS), removed),
        _ => (best, removed),
    })
}
