//! The library in a program of your own: a chip from an image, steps, a cause, a rollback.
#![tactic(auto)]

use anyhow::Context;
use ga_grid::NodeId;
use ga_image::parse;
use ga_lab::Lab;
use std::alloc::Global;
use std::process::ExitCode;

/// Node 000 writes 2a to its right, and node 001 reads a word from there.
const IMAGE: &[u8] =
    b"ga144 1\nnode 000\np 000000\nram 00 004b12 0001d5 00002a 0089b2\nnode 001\np 000000\nram 00 004b02 0001d5\nend\n";

/// How many events are kept at most.
const LIMIT: u32 = 1000;

/// Steps a node until it waits or stops, and prints each event.
fn go(rt: &impl Print, lab: &mut Lab, node: NodeId) -> anyhow::Result<()> {
    for _ in 0..LIMIT {
        match lab.step(node) {
            Ok(made) => println!(rt; "{made}")?,
            Err(_) => return Ok(()),
        }
    }
    Ok(())
}

/// Steps both nodes, and prints how step 4 of the sender, which read the word from memory, led to step 5 of the reader, which
/// received it.
fn send(rt: &impl Print, lab: &mut Lab, sender: NodeId, reader: NodeId) -> anyhow::Result<()> {
    go(rt, lab, sender)?;
    go(rt, lab, reader)?;
    let chain = lab.why((sender, 4), (reader, 5))?.context("no cause")?;
    println!(rt; "a chain of {} events", chain.len())?;
    Ok(())
}

/// Takes a step back, with all that depends on it.
fn take_back(rt: &impl Print, lab: &mut Lab, node: NodeId, step: u32) -> anyhow::Result<()> {
    let removed = lab.rewind(node, step)?;
    let counts = lab.counts();
    println!(rt;
        "removed {removed}, kept {}, made {}",
        counts.kept, counts.made
    )?;
    Ok(())
}

fn walk(rt: &impl Print, alloc: Global) -> anyhow::Result<()> {
    let chip = parse(alloc, IMAGE)?;
    let mut lab = Lab::new(alloc, chip, LIMIT)?;
    let (sender, reader) = (NodeId::new(0), NodeId::new(1));
    send(rt, &mut lab, sender, reader)?;
    take_back(rt, &mut lab, sender, 4)
}

fn main(rt: HostRuntime) -> ExitCode {
    match walk(&rt, rt.alloc()) {
        Ok(()) => ExitCode::from(0),
        Err(error) => {
            let _ = eprintln!(rt; "{error}");
            ExitCode::from(1)
        }
    }
}
