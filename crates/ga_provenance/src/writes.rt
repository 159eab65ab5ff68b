//! The steps that wrote a cell of memory.

ghost use Rattle.std.specs.Prelude.{◌≡◌, ◌<◌, ◌≤◌, ◌+◌, ◌-◌, ◌^◌, IfSome, slice_index};
ghost use Rattle.ga_node.specs.Record.{record_of_node};
ghost use Rattle.ga_event.specs.Told.{count_steps};
ghost use Rattle.ga_event.specs.Flow.{flow_of_stored_flow};
ghost use Rattle.ga_provenance.specs.Writes.{is_cell_written_by_flow, cell_write_at, newest_cell_write};
ghost use Rattle.ga_provenance.specs.inner.{IsCellStateAfterSteps, IsCellStateFollowedBack, ran_store_opcode};

use crate::kept::{
    Registers, TrackedPlace, registers_before, registers_in, value_after, word_before,
};
use crate::moving::event_stores_outside_part;
use crate::origin::{flow_by_trail, is_cell};
use crate::trail::CachedWalk;
use ga_event::{MadeEvent, NodePart, ValueFlow};
use ga_grid::NodeId;
use ga_lab::Lab;
use ga_node::{Node, NodePlace, OwnEventKind};
use ga_word::Word18;
use std::marker::Model;

/// A step that wrote a cell, and the cell's word after it.
#[derive(Clone, Copy, PartialEq, Eq, Debug)]
pub struct CellWrite {
    /// The number of the step.
    pub step: u32,
    /// The step as made.
    pub made: MadeEvent,
    /// The word in the cell after the step.
    pub word: Word18,
}

// Whether the value of a cell was stored there.
fn is_cell_written_by_flow(flow: &ValueFlow) -> bool
    ensures { result ≡ is_cell_written_by_flow (flow_of_stored_flow flow.now) }
{
    match flow {
        ValueFlow::CopiedFromPart(from) => !is_cell(*from),
        ValueFlow::ComputedFromParts(_) => true,
    }
}

// The word in a cell of RAM.
#[tactic(auto, unfolding(ga_node::specs::Record::record_of_node))]
fn word_in(node: &Node, cell: u8) -> u32
    requires { cell < 64 }
    ensures value { result ≡ slice_index (record_of_node node.now).ram cell }
    ensures fits { result < 2 ^ 18 }
{
    node.get(NodePlace::Ram(cell))
}

// Whether a step, as made, ran a store, whose codes are 0c to 0f: nothing else writes memory.
fn ran_store_opcode(told: &Option<MadeEvent>) -> bool
    ensures { result ≡ ran_store_opcode told.now }
{
    match told {
        Some(
            MadeEvent::Own {
                kind: OwnEventKind::Run(code),
                ..
            },
        ) => *code / 4 == 3,
        _ => false,
    }
}

/// How far a cell of a node was followed back: the steps that are still to be searched, and A, B and the word in the cell after
/// them.
#[derive(Clone, Copy, PartialEq, Eq, Debug)]
struct Reached {
    step: u32,
    registers: Registers,
    word: u32,
}

// Passes the steps that ran no store, back to the newest one that did, if there is one.
fn back_to_store(lab: &Lab, node: NodeId, cell: u8, from: Reached) -> Reached
    requires cell { cell < 64 }
    requires held { IsCellStateAfterSteps lab.now node.number cell from }
    ensures { IsCellStateFollowedBack lab.now node.number cell from result }
{
    let Reached {
        mut step,
        mut registers,
        mut word,
    } = from;
    'going: while step > 0 {
        let at = step - 1;
        let told = lab.made_event_of_step(node, at);
        if ran_store_opcode(&told) {
            return Reached {
                step,
                registers,
                word,
            };
        }
        registers = registers_before(lab, node, at, &told, registers);
        word = value_after(lab, node, at, &told, TrackedPlace::Ram(cell), word);
        step = at;
    }
    Reached {
        step,
        registers,
        word,
    }
}

// Passes back over a step that ran a store by A or B which named another cell; none for other steps.
#[tactic(auto, using(crate::proofs::Keeping::wrote_before, crate::proofs::Keeping::misses_writes))]
fn back_past_store(lab: &Lab, node: NodeId, cell: u8, from: Reached) -> Option<Reached>
    requires cell { cell < 64 }
    requires held { IsCellStateAfterSteps lab.now node.number cell from }
    ensures held { IfSome result (λ before. IsCellStateAfterSteps lab.now node.number cell before) }
    ensures same { IfSome result (λ before. newest_cell_write lab.now node.number cell before.step
        ≡ newest_cell_write lab.now node.number cell from.step) }
    ensures step { IfSome result (λ before. before.step + 1 ≡ from.step) }
{
    let Reached {
        step,
        registers,
        word,
    } = from;
    if step == 0 {
        return None;
    }
    let step = step - 1;
    let told = lab.made_event_of_step(node, step);
    let registers = registers_before(lab, node, step, &told, registers);
    if !event_stores_outside_part(&told, registers, NodePart::Ram(cell)) {
        return None;
    }
    let word = word_before(lab, node, step, TrackedPlace::Ram(cell), word);
    Some(Reached {
        step,
        registers,
        word,
    })
}

// Passes back to the newest step that ran a store, except for those by A or B that named another cell.
fn back_to_write(lab: &Lab, node: NodeId, cell: u8, from: Reached) -> Reached
    requires cell { cell < 64 }
    requires held { IsCellStateAfterSteps lab.now node.number cell from }
    ensures { IsCellStateFollowedBack lab.now node.number cell from result }
{
    let mut reached = back_to_store(lab, node, cell, from);
    'missing: while let Some(before) = back_past_store(lab, node, cell, reached) {
        reached = back_to_store(lab, node, cell, before);
    }
    reached
}

/// The steps of a node that wrote a cell of its RAM, the newest first. A contract sees the machine, the node, the cell, and how many
/// steps are still to be looked at.
#[derive(Drop)]
pub struct CellWrites<'l> {
    lab: &'l Lab,
    node: NodeId,
    cell: u8,
    trail: CachedWalk<'l>,
    reached: Reached,
}

impl<'l> Model for CellWrites<'l> {
    ghost use Rattle.ga_provenance.specs.Writes.{CellWriteSearch, cell_write_search};
    ghost use Rattle.ga_provenance.specs.inner.{IsCellWriteSearchState};

    ghost Value = { CellWriteSearch };

    ghost view = { λ w. cell_write_search w.lab.now w.node w.cell w.reached.step };

    ghost invariant = { λ w. IsCellWriteSearchState w.lab.now w.node w.cell w.trail w.reached };
}

impl<'l> CellWrites<'l> {
    ghost use Rattle.std.specs.Prelude.{◌≡◌, ◌<◌, ◌≤◌, ◌+◌, IfSome};
    ghost use Rattle.ga_event.specs.Told.{count_steps};
    ghost use Rattle.ga_provenance.specs.Writes.{cell_write_at, newest_cell_write, cell_write_search};

    /// All that a node made.
    pub fn new(lab: &'l Lab, node: NodeId, cell: u8) -> Self
        requires { cell < 64 }
        ensures { result ≡ cell_write_search lab.now node cell (count_steps node.number lab.now.kept) }
    {
        let step = lab.steps(node);
        let walk = lab.walk_node_from_step(node, step);
        let word = word_in(walk.node(), cell);
        let registers = registers_in(lab, node, &walk);
        CellWrites {
            lab,
            node,
            cell,
            trail: CachedWalk::new(lab, node, walk),
            reached: Reached {
                step,
                registers,
                word,
            },
        }
    }

    /// Searches back for the newest step that wrote the cell, and returns it; none if no step did. Takes no memory, and time
    /// linear in the number of steps that it passes.
    pub fn next(&mut self) -> Option<CellWrite>
        ensures value { result ≡ newest_cell_write self.old.machine self.old.node.number self.old.cell self.old.step }
        ensures step { IfSome result (λ written. self.new.step + 1 ≡ written.step) }
        ensures same { self.new ≡ cell_write_search self.old.machine self.old.node self.old.cell self.new.step }
    {
        self.seek();
        'going: while self.left() > 0 {
            if let Some(written) = self.back() {
                return Some(written);
            }
            self.seek();
        }
        None
    }

    // How many steps are still to be looked at.
    fn left(&self) -> u32
        ensures { result ≡ self.now.step }
    {
        self.reached.step
    }

    // Passes back to the newest step that may have written the cell.
    fn seek(&mut self)
        ensures newest { newest_cell_write self.old.machine self.old.node.number self.old.cell self.new.step
            ≡ newest_cell_write self.old.machine self.old.node.number self.old.cell self.old.step }
        ensures within { self.new.step ≤ self.old.step }
        ensures same { self.new ≡ cell_write_search self.old.machine self.old.node self.old.cell self.new.step }
    {
        self.reached = back_to_write(self.lab, self.node, self.cell, self.reached);
    }

    // Searches one step further back, and returns it if it wrote the cell.
    fn back(&mut self) -> Option<CellWrite>
        requires { 0 < self.old.step }
        ensures value { result ≡ cell_write_at self.old.machine self.old.node.number self.old.cell self.new.step }
        ensures step { self.new.step + 1 ≡ self.old.step }
        ensures same { self.new ≡ cell_write_search self.old.machine self.old.node self.old.cell self.new.step }
    {
        let lab = self.lab;
        let node = self.node;
        let Reached {
            step,
            registers,
            word,
        } = self.reached;
        let place = step - 1;
        let told = lab.made_event_of_step(node, place);
        self.trail.store_walk_registers(lab, node, step, registers);
        let flow = flow_by_trail(lab, &mut self.trail, node, place, NodePart::Ram(self.cell));
        self.reached = Reached {
            step: place,
            registers: self.trail.registers(lab, node, place),
            word: word_before(lab, node, place, TrackedPlace::Ram(self.cell), word),
        };
        if !is_cell_written_by_flow(&flow) {
            return None;
        }
        let made = told?;
        let word = Word18::from_low_bits(word);
        Some(CellWrite { step, made, word })
    }
}
