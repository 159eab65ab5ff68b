//! A move of one node.

ghost use Rattle.std.specs.Prelude.{◌≡◌, ◌-◌, ◌<◌, ◌≤◌, ◌&&◌, Some, true, position};
ghost use Rattle.ga_event.specs.Told.{count_steps};
ghost use Rattle.ga_scheduler.specs.Conditions.{is_step_of_node};
ghost use Rattle.ga_scheduler.specs.Running.{scheduled_machine};
ghost use Rattle.ga_scheduler.specs.Watched.{IsReportOfNewestEvent, run_after_events_with_precedence};
ghost use Rattle.ga_dap_views.specs.Calls.{is_call_step, previous_return_entry_indices};
ghost use Rattle.ga_provenance.specs.Fetched.{fetched_cell};
ghost use Rattle.ga_dap_breakpoints.specs.declared.stepping.Granularity.TheVariants.{Line};
ghost use Rattle.ga_dap_breakpoints.specs.Stepping.{is_previous_return_entry_index, pending_call_after_step, move_after_event, move_after_events};
ghost use Rattle.ga_dap_breakpoints.specs.inner.Words.{instruction_cell_after_event, reaches_move_end_by_cell, completes_move_by_cell};
ghost use Rattle.ga_dap_breakpoints.specs.Going.{IsMoveResult, tally_after_events, step_plan};
ghost use Rattle.ga_state_expectations.specs.Knowledge.{IsExpectationKnowledge};

use crate::going::{MoveResult, move_result};
use crate::halts::{HaltConditions, HaltMonitor, check_halt};
use crate::lines::begins_line_by_cells;
use crate::stepping::{Granularity, StepMove};
use crate::words::{instruction_cell_after, instruction_cell_after_step};
use ga_dap_views::{is_call_step, previous_return_entry_indices};
use ga_debug_info::DebugInfo;
use ga_grid::{CHIP_NODE_COUNT, NodeId};
use ga_lab::{Lab, MadeEvent};
use ga_scheduler::{Schedule, StopCondition, is_step_of_node, run_watched};
use ga_state_expectations::ExpectationKnowledge;

/// A move of a node, and what ends it early.
#[derive(Clone, Copy)]
struct StepState<'a> {
    notes: &'a DebugInfo,
    halts: HaltConditions<'a>,
    stepping: StepMove,
}

/// What watches a move.
#[derive(Drop)]
struct Steps<'a> {
    notes: &'a DebugInfo,
    halting: HaltMonitor<'a>,
    stepping: StepMove,
    // The cell from which the node's word came, where the move is by lines.
    word: Option<u8>,
}

/// Whether an entry of the return stack stood at this place before.
fn is_previous_return_entry_index(from: Option<u8>, place: usize) -> bool
    ensures { result ≡ is_previous_return_entry_index place from }
{
    match from {
        Some(from) => usize::from(from) == place,
        None => false,
    }
}

/// The place of the entry after the node's newest step, if it was at `place` before.
fn place_behind(lab: &Lab, node: NodeId, place: usize) -> Option<usize>
    ensures { result ≡ position (is_previous_return_entry_index place) (previous_return_entry_indices lab.now node (count_steps node.number lab.now.kept - 1)) }
{
    let steps = lab.steps(node);
    let entries = previous_return_entry_indices(lab, node, steps.saturating_sub(1));
    entries
        .iter()
        .position(|from| is_previous_return_entry_index(*from, place))
}

/// Whether the node's newest step was a call and calls are stepped over.
fn is_gone_over(lab: &Lab, node: NodeId, over: bool) -> bool
    ensures { result ≡ (over && is_call_step lab.now node (count_steps node.number lab.now.kept)) }
{
    over && is_call_step(lab, node, lab.steps(node))
}

/// The call from which the node is to return first, after its newest step.
fn pending_call_after_step(
    lab: &Lab,
    node: NodeId,
    over: bool,
    call: Option<usize>,
) -> Option<usize>
    ensures { result ≡ pending_call_after_step lab.now node over call }
{
    match call {
        Some(place) => place_behind(lab, node, place),
        None => {
            if is_gone_over(lab, node, over) {
                Some(0)
            } else {
                None
            }
        }
    }
}

/// By how many steps of a node its newest one was preceded, where the newest event is one.
fn newest_step(lab: &Lab, made: &MadeEvent, node: NodeId) -> u32
    requires newest { IsReportOfNewestEvent lab.now made.now }
    requires own { is_step_of_node node.number made.now ≡ true }
    ensures step { result ≡ count_steps node.number lab.now.kept - 1 }
    ensures within { result < count_steps node.number lab.now.kept }
{
    // It is called for its contract only: the history can be replayed.
    lab.chip();
    lab.steps(node).saturating_sub(1)
}

/// A move after the newest event.
fn move_after_event(lab: &Lab, by: StepMove, made: &MadeEvent) -> StepMove
    ensures { result ≡ move_after_event by made.now lab.now }
{
    if !is_step_of_node(made, by.node) {
        return by;
    }
    let call = pending_call_after_step(lab, by.node, by.over, by.call);
    StepMove { call, ..by }
}

/// The cell from which a node's word came, after the newest event, if the word before it came from `word`.
fn instruction_cell_after_event(
    lab: &Lab,
    node: NodeId,
    word: Option<u8>,
    made: &MadeEvent,
) -> Option<u8>
    requires { IsReportOfNewestEvent lab.now made.now }
    ensures { result ≡ instruction_cell_after_event node word made.now lab.now }
{
    if !is_step_of_node(made, node) {
        return word;
    }
    let step = newest_step(lab, made, node);
    let walk = lab.walk_node_from_step(node, step);
    instruction_cell_after_step(lab, &walk, node, word)
}

/// Whether a move of this granularity can end by a step of a node, by the cells of the words before and after it.
fn reaches_move_end_by_cell(
    lab: &Lab,
    notes: &DebugInfo,
    node: NodeId,
    grain: Granularity,
    began: u32,
    step: u32,
    before: Option<u8>,
    behind: Option<u8>,
) -> bool
    requires { step < count_steps node.number lab.now.kept }
    ensures { result ≡ reaches_move_end_by_cell grain began notes.now node lab.now step before behind }
{
    match grain {
        Granularity::Instruction => true,
        Granularity::Line => begins_line_by_cells(lab, notes, node, step, began, before, behind),
    }
}

/// Whether the newest event completes a move, with the call from which the node is to return after it, by the cells of the
/// words before and after the event.
fn completes_move_by_cell(
    lab: &Lab,
    notes: &DebugInfo,
    by: &StepMove,
    call: Option<usize>,
    before: Option<u8>,
    behind: Option<u8>,
    made: &MadeEvent,
) -> bool
    requires newest { IsReportOfNewestEvent lab.now made.now }
    requires call { is_step_of_node by.now.node.number made.now ≡ true → call ≡ pending_call_after_step lab.now by.now.node by.now.over by.now.call }
    requires behind { behind ≡ instruction_cell_after_event by.now.node before made.now lab.now }
    ensures { result ≡ completes_move_by_cell notes.now by.now before made.now lab.now }
{
    if !is_step_of_node(made, by.node) {
        return false;
    }
    if call.is_some() {
        return false;
    }
    let step = newest_step(lab, made, by.node);
    reaches_move_end_by_cell(
        lab, notes, by.node, by.grain, by.began, step, before, behind,
    )
}

impl<'a> StopCondition for Steps<'a> {
    ghost use Rattle.std.specs.Prelude.{Some, ◌||◌};
    ghost use Rattle.ga_dap_breakpoints.specs.declared.moves.StepState.{StepState};
    ghost use Rattle.ga_dap_breakpoints.specs.Breakpoints.{ends_move_early};
    ghost use Rattle.ga_dap_breakpoints.specs.Stepping.{move_after_event, completes_move};
    ghost use Rattle.ga_dap_breakpoints.specs.inner.Stepping.{step_state_after_event, RemembersSteps};

    type State = StepState<'a>;

    ghost state = { λ w. record { notes = w.notes; halts = w.halting.halts; stepping = w.stepping } };

    ghost ends = { λ w told s. ends_move_early w.halts.breakpoints.now w.halts.expectations.now w.halts.tally w.halts.stops (Some w.stepping.node) told s || completes_move w.notes.now w.stepping told s };

    ghost seen = { λ w told s. step_state_after_event w told s };

    ghost remembers = { λ w s. RemembersSteps w s };

    fn ends_run_after_event(&mut self, made: &MadeEvent, lab: &Lab) -> bool {
        let by = self.stepping;
        let before = self.word;
        let next = move_after_event(lab, by, made);
        let behind = instruction_cell_after_event(lab, by.node, before, made);
        self.stepping = next;
        self.word = behind;
        check_halt(&mut self.halting, Some(by.node), made, lab)
            || completes_move_by_cell(lab, self.notes, &by, next.call, before, behind, made)
    }
}

/// The cell from which the word of a node came, where a move of it is by lines.
fn word_begun(lab: &Lab, by: &StepMove) -> Option<u8>
    ensures { by.now.grain ≡ Line → result ≡ fetched_cell lab.now by.now.node (count_steps by.now.node.number lab.now.kept) }
{
    match by.grain {
        Granularity::Instruction => None,
        Granularity::Line => instruction_cell_after(lab, by.node, lab.steps(by.node)),
    }
}

/// A slice of a move of a node, of at most `most` events. The node makes each event that it has; only while it has none do
/// others make theirs, in the order of the schedule. The slice ends when the move is complete, a breakpoint is hit at any node,
/// a stop ends it, or an event breaks an expectation. The same move and the returned schedule continue a slice that was cut, with
/// what is then known of the expectations. The time is linear in the number of events, in that of breakpoints and in that of
/// expectations; in addition in how long each node that arrives at the slot number of a breakpoint is within its word, for a move
/// by lines, once in a slice, in how long the node is within its word and in the length of its calls, and once for each
/// expectation that an event violates in the number of events in the history.
pub fn make_step_slice(
    lab: &mut Lab,
    schedule: Schedule,
    stepping: &mut StepMove,
    notes: &DebugInfo,
    halts: HaltConditions<'_>,
    known: ExpectationKnowledge,
    most: u64,
) -> MoveResult
    requires { IsExpectationKnowledge halts.expectations.now lab.old known }
    ensures known { IsExpectationKnowledge halts.entry.expectations.now lab.new result.known }
    ensures state { scheduled_machine lab.new result.schedule ≡ run_after_events_with_precedence (Some stepping.old.node) (scheduled_machine lab.old schedule) result.events }
    ensures stepping { stepping.new ≡ move_after_events stepping.old (scheduled_machine lab.old schedule) result.events }
    ensures hits { result.tally ≡ tally_after_events (Some stepping.old.node) halts.entry.breakpoints.now halts.entry.tally (scheduled_machine lab.old schedule) result.events }
    ensures most { result.events ≤ most }
    ensures end { IsMoveResult (step_plan notes.now halts.entry.breakpoints.now halts.entry.expectations.now halts.entry.tally halts.entry.stops stepping.old (scheduled_machine lab.old schedule)) (scheduled_machine lab.old schedule) most result.events result.halt }
{
    let node = stepping.node;
    // It is called for its contract only: the history can be replayed.
    lab.chip();
    let word = word_begun(lab, stepping);
    let mut watch = Steps {
        notes,
        halting: HaltMonitor {
            halts,
            cells: [None; CHIP_NODE_COUNT],
            known,
        },
        stepping: *stepping,
        word,
    };
    let run = run_watched(lab, schedule, Some(node), most, &mut watch);
    *stepping = watch.stepping;
    move_result(run, watch.halting, Some(node), lab)
}
