//! Runs that are timed or counted, or in which one allocation fails. Each line of standard input names one, with numbers after
//! its name. What depends on the machine is written to standard error.
//!
//! Timed, by the best of the rounds:
//!
//! - `busy-into EVENTS ROUNDS`, `busy-back`, `mixed-into` and `mixed-back`: events of a node
//! - `lab CHIP_NODE_COUNT STEPS`: steps of the first nodes of a lab in turn, all undone and made again; `lab-inlined` makes them by
//!   `Lab::step_inlined`
//! - `rewind EVENTS ROUNDS`: rollbacks that remove three entries from a history of EVENTS events; `foretell` queries what they
//!   would remove
//! - `rewind-beside COUNT ROUNDS` and `foretell-beside`: the same if the nodes rolled back, and a neighbour that looked, have
//!   four times COUNT events each
//! - `rewind-all EVENTS`: one that removes EVENTS events
//! - `rewind-looks LOOKS ROUNDS`: rollbacks of a wait that also remove LOOKS looks of a neighbour
//!
//! Allocation N of the run fails, from 1 on, or none for 0: `causes N`, `messages N`, `shared N`, `shared-broken-off N`, `race
//! N`.
#![tactic(auto)]

mod causes;
mod events;
mod labs;
mod messages;
mod programs;
mod refused;
mod rewinds;
mod shared;

use events::time_events;
use ga_lab::Lab;
use labs::{LabOperation, lab_of_adders, time_lab_operations};
use programs::{ADDING_LOOP, MIXED_OPCODES_PROGRAM};
use refused::{print_outcome, run_with_failed_allocation};
use rewinds::{
    RollbackCase, lab_after_transfers, lab_before_look, lab_with_late_transfer, time_rollback,
};
use std::io;
use std::io::Read;

fn main(rt: HostRuntime) -> io::Result<()> {
    let mut text = [0u8; 64];
    let filled = rt.stdin().read(&mut text)?;
    let Ok(text) = str::from_utf8(&text[..filled]) else {
        return println!(rt; "no order");
    };
    for line in text.lines() {
        let mut words = line.split_ascii_whitespace();
        let name = words.next().unwrap_or("");
        let count = number(words.next(), 0);
        let rounds = number(words.next(), 1);
        if !is_timed(&rt, name, count, rounds)? {
            print_outcome(
                &rt,
                run_with_failed_allocation(&rt, rt.alloc(), name, count),
                count,
            )?;
        }
    }
    Ok(())
}

fn number(word: Option<&str>, otherwise: u32) -> u32 {
    match word {
        Some(word) => word.parse::<u32>().unwrap_or(otherwise),
        None => otherwise,
    }
}

/// Times the run of this name; false where none has it.
fn is_timed(rt: &HostRuntime, name: &str, count: u32, rounds: u32) -> io::Result<bool> {
    let alloc = rt.alloc();
    let nodes = count.clamp(1, 144) as u8;
    let is_done = name.as_bytes().starts_with(b"rewind");
    match name {
        "busy-into" => print_events(rt, ADDING_LOOP, false, count, rounds)?,
        "busy-back" => print_events(rt, ADDING_LOOP, true, count, rounds)?,
        "mixed-into" => print_events(rt, MIXED_OPCODES_PROGRAM, false, count, rounds)?,
        "mixed-back" => print_events(rt, MIXED_OPCODES_PROGRAM, true, count, rounds)?,
        "lab" => print_lab(rt, nodes, rounds, LabOperation::Step)?,
        "lab-inlined" => print_lab(rt, nodes, rounds, LabOperation::StepInlined)?,
        "rewind" | "foretell" => {
            print_rollback(
                rt,
                lab_after_transfers(alloc, count),
                RollbackCase::PairTransfers,
                rounds,
                is_done,
            )?
        }
        "rewind-beside" | "foretell-beside" => {
            print_rollback(
                rt,
                lab_with_late_transfer(alloc, count),
                RollbackCase::OneTransfer,
                rounds,
                is_done,
            )?
        }
        "rewind-all" => print_rollback(
            rt,
            lab_after_transfers(alloc, count),
            RollbackCase::AllOfLastNode,
            1,
            is_done,
        )?,
        "rewind-looks" => {
            let looks = RollbackCase::LaterLooks(count);
            print_rollback(rt, lab_before_look(alloc), looks, rounds, is_done)?
        }
        _ => return Ok(false),
    }
    Ok(true)
}

/// Prints the number of things, and the time for one of `count`.
fn print(rt: &HostRuntime, what: &str, timed: (u128, u32), count: u32, of: &str) -> io::Result<()> {
    let hundredths = timed.0.saturating_mul(100) / u128::from(count.max(1));
    println!(rt; "{what} {}", timed.1)?;
    eprintln!(rt; "{hundredths} hundredths of a nanosecond {of}")
}

fn print_lab(rt: &HostRuntime, nodes: u8, count: u32, act: LabOperation) -> io::Result<()> {
    let Some(mut lab) = lab_of_adders(rt.alloc(), nodes) else {
        return eprintln!(rt; "no memory");
    };
    for (act, what, of) in [
        (act, "made", "a step into fresh memory"),
        (LabOperation::Undo, "undone", "an undo"),
        (act, "made", "a step again"),
    ] {
        let timed = time_lab_operations(rt, &mut lab, act, nodes, count)?;
        print(rt, what, timed, count, of)?;
    }
    Ok(())
}

fn print_rollback(
    rt: &HostRuntime,
    lab: Option<Lab>,
    goes: RollbackCase,
    rounds: u32,
    is_done: bool,
) -> io::Result<()> {
    let Some(mut lab) = lab else {
        return eprintln!(rt; "no memory");
    };
    let (best, removed) = time_rollback(rt, &mut lab, goes, rounds, is_done)?;
    println!(rt; "removed {removed}")?;
    eprintln!(rt; "{best} nanoseconds a rollback")
}

fn print_events(
    rt: &HostRuntime,
    words: &[u32],
    is_back: bool,
    count: u32,
    rounds: u32,
) -> io::Result<()> {
    let timed = time_events(rt, words, is_back, count, rounds)?;
    print(rt, "sum", timed, count, "an event")
}
