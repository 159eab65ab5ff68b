//! The moves of an editor, over a program with calls and one that stores, and where the words of a line are.

use crate::common::{CALLS_PROGRAM, assert_each_equal, assert_equal_values, lab_after_steps};
use ga_dap_breakpoints::{
    Breakpoint, Granularity, HaltConditions, HaltReason, HitCondition, MoveResult, StepMove,
    WatchedAction, breakpoint_of_address, breakpoint_of_line, count_hits_in_history,
    make_continue_slice, make_step_slice, reverse_to_breakpoint, step_back, step_back_line,
};
use ga_dap_views::SlotAddress;
use ga_debug_info::{DebugInfo, SlotWord};
use ga_grid::NodeId;
use ga_lab::Lab;
use ga_scheduler::{Comparison, NodeValue, Schedule, ValueTest};
use ga_state_expectations::ExpectationKnowledge;
use std::alloc::Global;
use std::process::Abort;
use std::test::Fail;

/// Cell 00 holds `@p a! @p .`, 03 `! jump main`.
const STORES: &[u8] = b"node 000\n: main\n  9 a! 7 ! main ;\n";

/// What ends a run: each hit of these, or a stop.
fn each_hit<'b>(lab: &Lab, breakpoints: &'b [Breakpoint]) -> HaltConditions<'b> {
    HaltConditions {
        breakpoints,
        expectations: &[],
        stops: true,
        tally: count_hits_in_history(lab, &[]),
    }
}

/// A breakpoint of node 000.
fn watching(watched: WatchedAction) -> Breakpoint {
    Breakpoint {
        node: NodeId::new(0),
        watched,
        condition: None,
        hits: None,
    }
}

/// The second `dup` of `quad` is come to.
const SECOND_DUP: WatchedAction = WatchedAction::ArrivesAtSlot(SlotAddress { cell: 5, slot: 2 });

/// A move of node 000 by lines, with no breakpoint, ends after this number of events.
fn moves(
    rt: &impl Abort,
    alloc: Global,
    lab: &mut Lab,
    notes: &DebugInfo,
    mut by: StepMove,
    wanted: u64,
) {
    let halts = each_hit(lab, &[]);
    let Ok(known) = ExpectationKnowledge::at_begin_of_run(alloc, lab, halts.expectations) else {
        panic!(rt; "memory for no expectation");
    };
    let went = make_step_slice(
        lab,
        Schedule::round_robin_schedule(),
        &mut by,
        notes,
        halts,
        known,
        100,
    );
    assert_equal_values(rt, &went.events, &wanted);
    assert_equal_values(rt, &is_moved(&went), &true);
}

fn is_moved(went: &MoveResult) -> bool {
    match went.halt {
        HaltReason::CompletedMove(_) => true,
        _ => false,
    }
}

/// The place of the breakpoint by which a move ended.
fn hit_by(went: &MoveResult) -> Option<usize> {
    match went.halt {
        HaltReason::HitBreakpoint { which, .. } => Some(which),
        _ => None,
    }
}

#[test]
fn lines_are_stepped_in(rt: HostRuntime) -> Result<(), Fail> {
    let node = NodeId::new(0);
    let (mut lab, notes) = lab_after_steps(&rt, rt.alloc(), CALLS_PROGRAM, 0)?;
    // To line 6 by the call, to 9 by the next, to 10 by `dup`, to 7 by the return, and round to line 3.
    for wanted in [3, 2, 3, 4] {
        let line = StepMove::step_in(&lab, node, Granularity::Line);
        moves(&rt, rt.alloc(), &mut lab, &notes, line, wanted);
    }
    // The node is taken back over the call of `quad`.
    assert_equal_values(&rt, &step_back_line(&mut lab, &notes, node), &9);
    let over = StepMove::next(&lab, node, Granularity::Line);
    moves(&rt, rt.alloc(), &mut lab, &notes, over, 9);
    let step = StepMove::step_in(&lab, node, Granularity::Instruction);
    moves(&rt, rt.alloc(), &mut lab, &notes, step, 1);
    // By `2*` and `;` back to `drop`, the rest of line 3, and to line 4.
    for wanted in [2, 2] {
        let out = StepMove::next(&lab, node, Granularity::Line);
        moves(&rt, rt.alloc(), &mut lab, &notes, out, wanted);
    }
    Ok(())
}

#[test]
fn calls_are_stepped_out_of(rt: HostRuntime) -> Result<(), Fail> {
    let node = NodeId::new(0);
    let (mut lab, notes) = lab_after_steps(&rt, rt.alloc(), CALLS_PROGRAM, 0)?;
    assert_equal_values(&rt, &StepMove::step_out(&lab, node), &None);
    for wanted in [3, 2] {
        let line = StepMove::step_in(&lab, node, Granularity::Line);
        moves(&rt, rt.alloc(), &mut lab, &notes, line, wanted);
    }
    match StepMove::step_out(&lab, node) {
        // `quad` comes back by its step 12.
        Some(out) => moves(&rt, rt.alloc(), &mut lab, &notes, out, 7),
        None => assert!(&rt; false),
    }
    Ok(())
}

#[test]
fn slices_stop_at_a_breakpoint(rt: HostRuntime) -> Result<(), Fail> {
    let (mut lab, notes) = lab_after_steps(&rt, rt.alloc(), CALLS_PROGRAM, 0)?;
    let Some(on_line) = breakpoint_of_line(&notes, 10) else {
        panic!(&rt; "line 10 has code");
    };
    assert_equal_values(&rt, &on_line.breakpoint, &watching(SECOND_DUP));
    assert_equal_values(&rt, &on_line.line, &10);
    let breakpoints = [on_line.breakpoint];
    let halts = each_hit(&lab, &breakpoints);
    let known = ExpectationKnowledge::at_begin_of_run(rt.alloc(), &lab, halts.expectations)?;
    let slice = make_continue_slice(&mut lab, Schedule::greedy_schedule(), halts, known, 5);
    assert_equal_values(&rt, &slice.halt, &HaltReason::SliceEnded);
    let hit = make_continue_slice(&mut lab, slice.schedule, halts, slice.known, 100);
    assert_equal_values(&rt, &hit.events, &3);
    assert_equal_values(&rt, &hit_by(&hit), &Some(0));
    let again = make_continue_slice(&mut lab, hit.schedule, halts, hit.known, 100);
    assert_equal_values(&rt, &again.events, &18);
    Ok(())
}

#[test]
fn each_third_hit_is_stopped_at(rt: HostRuntime) -> Result<(), Fail> {
    let node = NodeId::new(0);
    let (mut lab, _) = lab_after_steps(&rt, rt.alloc(), CALLS_PROGRAM, 0)?;
    let ten = ValueTest {
        value: NodeValue::DataWord(0),
        comparison: Comparison::Equal,
        number: 10,
    };
    let third = [Breakpoint {
        condition: Some(ten),
        hits: Some(HitCondition::EachMultipleOf(3)),
        ..watching(SECOND_DUP)
    }];
    let mut halts = each_hit(&lab, &third);
    let known = ExpectationKnowledge::at_begin_of_run(rt.alloc(), &lab, halts.expectations)?;
    // The second `dup` is come to by event 8, and then by each 18th.
    let hit = make_continue_slice(&mut lab, Schedule::greedy_schedule(), halts, known, 100);
    assert_equal_values(&rt, &hit.events, &44);
    halts.tally = hit.tally;
    let again = make_continue_slice(&mut lab, hit.schedule, halts, hit.known, 100);
    assert_equal_values(&rt, &again.events, &54);
    assert_equal_values(&rt, &reverse_to_breakpoint(&mut lab, node, &third), &54);
    assert_equal_values(&rt, &count_hits_in_history(&lab, &third).counts[0], &3);
    assert_equal_values(&rt, &reverse_to_breakpoint(&mut lab, node, &third), &44);
    Ok(())
}

#[test]
fn a_store_is_stopped_at(rt: HostRuntime) -> Result<(), Fail> {
    let node = NodeId::new(0);
    let (mut lab, _) = lab_after_steps(&rt, rt.alloc(), STORES, 0)?;
    let Some(main) = breakpoint_of_address(node, 0) else {
        panic!(&rt; "address 0 is a cell");
    };
    let breakpoints = [watching(WatchedAction::WritesWatchedCell(9)), main];
    let halts = each_hit(&lab, &breakpoints);
    let known = ExpectationKnowledge::at_begin_of_run(rt.alloc(), &lab, halts.expectations)?;
    // The node is at address 0 when loaded, and arrives there by its first fetch.
    let first = make_continue_slice(&mut lab, Schedule::greedy_schedule(), halts, known, 100);
    assert_equal_values(&rt, &first.events, &1);
    assert_equal_values(&rt, &hit_by(&first), &Some(1));
    let hit = make_continue_slice(&mut lab, first.schedule, halts, first.known, 100);
    assert_equal_values(&rt, &hit.events, &6);
    assert_equal_values(&rt, &hit_by(&hit), &Some(0));
    assert_equal_values(&rt, &lab.memory(node, 9).get(), &7);
    Ok(())
}

#[test]
fn steps_are_taken_back(rt: HostRuntime) -> Result<(), Fail> {
    let alloc = rt.alloc();
    let node = NodeId::new(0);
    let (mut lab, notes) = lab_after_steps(&rt, alloc, CALLS_PROGRAM, 14)?;
    // To the fetch of `2* ;`, then over the call of `quad` to that of its line, then before the call of `double`.
    assert_equal_values(&rt, &step_back_line(&mut lab, &notes, node), &2);
    assert_equal_values(&rt, &step_back_line(&mut lab, &notes, node), &9);
    assert_equal_values(&rt, &step_back(&mut lab, node), &1);
    assert_equal_values(&rt, &lab.steps(node), &2);
    // Cell 05 has two lines: to its slot 2, and to the call of `quad`.
    let (mut lab, notes) = lab_after_steps(&rt, alloc, CALLS_PROGRAM, 10)?;
    assert_equal_values(&rt, &step_back_line(&mut lab, &notes, node), &2);
    assert_equal_values(&rt, &step_back_line(&mut lab, &notes, node), &3);
    let (mut lab, _) = lab_after_steps(&rt, alloc, CALLS_PROGRAM, 14)?;
    let double = watching(WatchedAction::ArrivesAtSlot(SlotAddress { cell: 3, slot: 0 }));
    assert_equal_values(&rt, &reverse_to_breakpoint(&mut lab, node, &[double]), &11);
    assert_equal_values(&rt, &reverse_to_breakpoint(&mut lab, node, &[double]), &3);
    Ok(())
}

/// A long line, whose last word is in slot 3, and a cell of three slots.
const LONG_LINE: &[u8] =
    b"node 001\n  : main over over ( two of them ) over right\n b! !b main ;\n";

/// Cell, first and last slot, line and column.
fn found(word: Option<SlotWord>) -> Option<(u8, usize, usize, u32, u32)> {
    let word = word?;
    Some((word.cell, word.first, word.last, word.line, word.column))
}

// The answers for these words are in `examples/explore`.
#[test]
fn lines_have_words(rt: HostRuntime) -> Result<(), Fail> {
    let (_, notes) = lab_after_steps(&rt, rt.alloc(), LONG_LINE, 0)?;
    let words = [
        found(notes.find_first_slot_word_from_line(1)),
        found(notes.find_first_slot_word_from_line(3)),
        found(notes.find_first_slot_word_from_line(4)),
    ];
    let wanted = [Some((0, 0, 0, 2, 10)), Some((2, 0, 0, 3, 2)), None];
    assert_each_equal(&rt, &words, &wanted);
    Ok(())
}
