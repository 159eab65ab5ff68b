//! The events of a node.

use crate::programs::load_program;
use ga_node::{Node, OwnEventKind, Saved, SeenNeighbours};
use std::io;
use std::time::Instant;

/// Makes `count` events with a list that is kept from one event to the next, and sums their codes.
#[inline(never)]
fn sum_kinds(node: &mut Node, count: u32) -> u32 {
    let mut sum = 0u32;
    let mut saved = Saved::new();
    for _ in 0..count {
        if node.own_event_refusal().is_none() {
            saved = Saved::new();
            let due = node.due_action();
            if let OwnEventKind::Run(code) = node.execute_action_logged(
                due,
                SeenNeighbours::no_neighbours(),
                &mut saved,
            ) {
                sum = sum.wrapping_add(u32::from(code));
            }
        }
    }
    sum
}

/// Makes `count` events, each of which is undone and made again, and sums their codes.
#[inline(never)]
#[tactic(auto, using(ga_node::proofs::Restoring::apart_from_ready))]
fn sum_backs(node: &mut Node, count: u32) -> u32 {
    let mut sum = 0u32;
    for _ in 0..count {
        if node.own_event_refusal().is_none() {
            let mut saved = Saved::new();
            let due = node.due_action();
            let _ = node.execute_action_logged(due, SeenNeighbours::no_neighbours(), &mut saved);
            node.restore(&saved);
        }
        if let Ok((OwnEventKind::Run(code), _)) = node.own(SeenNeighbours::no_neighbours()) {
            sum = sum.wrapping_add(u32::from(code));
        }
    }
    sum
}

/// The nanoseconds of the best of some rounds of `count` events of a program, and the sum.
pub fn time_events(
    rt: &HostRuntime,
    words: &[u32],
    is_back: bool,
    count: u32,
    rounds: u32,
) -> io::Result<(u128, u32)> {
    let mut best = u128::MAX;
    let mut sum = 0u32;
    for _ in 0..rounds {
        let mut node = Node::new(0);
        load_program(&mut node, words);
        let start = Instant::now(rt)?;
        sum = if is_back {
            sum_backs(&mut node, count)
        } else {
            sum_kinds(&mut node, count)
        };
        best = best.min(start.elapsed(rt)?.as_nanos());
    }
    Ok((best, sum))
}
