//! From which cell the instruction word of a node came, followed from step to step, or found once and kept until the node takes another word: so no step
//! looks back for it again.

ghost use Rattle.std.specs.Prelude.{◌≡◌, ◌<◌, ◌≤◌, ◌+◌, true};
ghost use Rattle.ga_node.specs.Record.{record_of_node};
ghost use Rattle.ga_event.specs.Told.{count_steps};
ghost use Rattle.ga_lab.specs.Machine.{node_at_step};
ghost use Rattle.ga_provenance.specs.Fetched.{fetched_cell};
ghost use Rattle.ga_dap_views.specs.Spots.{slot_address_of_node_record};
ghost use Rattle.ga_grid.specs.Chip.{node_record_at};
ghost use Rattle.ga_lab.specs.Machine.{chip_of_machine};
ghost use Rattle.ga_dap_breakpoints.specs.inner.Words.{event_kind_keeps_instruction_word, is_wait_for_code, event_keeps_instruction_word, instruction_cell_after_step};
ghost use Rattle.ga_dap_breakpoints.specs.inner.Cells.{instruction_cells_kept_after_event, known_or_fetched_cell, instruction_cell_of_node, is_node_within_word_at_slot, instruction_cells_with_node_cell, instruction_cells_with_needed_cell};

use ga_dap_views::{SlotAddress, memory_cell_of_address, next_slot_and_p};
use ga_grid::{CHIP_NODE_COUNT, NodeId};
use ga_lab::{Lab, MadeEvent, NodeWalk};
use ga_node::{Node, OwnEventKind, Wait};
use ga_provenance::fetched_cell_at;

/// Whether an event of a node's own leaves its word.
fn event_kind_keeps_instruction_word(kind: OwnEventKind) -> bool
    ensures { result ≡ event_kind_keeps_instruction_word kind }
{
    match kind {
        OwnEventKind::Fetch => false,
        OwnEventKind::Run(code) => code < 32,
        OwnEventKind::Wait => true,
        OwnEventKind::Stop(_) => true,
    }
}

fn is_wait_for_code(wait: Wait) -> bool
    ensures { result ≡ is_wait_for_code wait }
{
    match wait {
        Wait::Fetch(_) => true,
        Wait::Read(_) => false,
        Wait::Write(_) => false,
        Wait::Nothing => false,
    }
}

/// Whether the step with this event leaves the word of a node that was `before` before it.
fn event_keeps_instruction_word(told: &Option<MadeEvent>, before: &Node, node: NodeId) -> bool
    ensures { result ≡ event_keeps_instruction_word told.now (record_of_node before.now) node.number }
{
    match told {
        Some(MadeEvent::Own { kind, .. }) => event_kind_keeps_instruction_word(*kind),
        Some(MadeEvent::Pass { reader, .. }) => {
            if node.number == reader.number {
                !is_wait_for_code(before.wait())
            } else {
                true
            }
        }
        None => false,
    }
}

/// The cell from which the word of a node came, after its first `step` steps. The time is linear in the number of steps since
/// the fetch.
pub(crate) fn instruction_cell_after(lab: &Lab, node: NodeId, step: u32) -> Option<u8>
    requires { step ≤ count_steps node.number lab.now.kept }
    ensures { result ≡ fetched_cell lab.now node step }
{
    fetched_cell_at(lab, &lab.walk_node_from_step(node, step), node, node, step)
}

/// The cell of a node's word after the step at which a walk of the node is, if the word before it came from this cell. Constant
/// time.
pub(crate) fn instruction_cell_after_step(
    lab: &Lab,
    walk: &NodeWalk<'_>,
    node: NodeId,
    word: Option<u8>,
) -> Option<u8>
    requires walk { walk.now ≡ node_at_step lab.now node walk.now.step }
    requires within { walk.now.step < count_steps node.number lab.now.kept }
    ensures { result ≡ instruction_cell_after_step lab.now node walk.now.step word }
{
    // It is less than the node's steps, so that one more can be counted.
    let steps = lab.steps(node);
    let place = walk.step();
    prove!(place < steps);
    if event_keeps_instruction_word(&lab.made_event_of_step(node, place), walk.node(), node) {
        word
    } else {
        instruction_cell_after(lab, node, place + 1)
    }
}

/// The slot of a node whose word came from this cell.
pub(crate) fn slot_address_of_node_record(node: &Node, word: Option<u8>) -> Option<SlotAddress>
    ensures { result ≡ slot_address_of_node_record (record_of_node node.now) word }
{
    let (slot, p) = next_slot_and_p(node);
    if slot == 4 {
        return match memory_cell_of_address(p) {
            Some(cell) => Some(SlotAddress { cell, slot: 0 }),
            None => None,
        };
    }
    match word {
        Some(cell) => Some(SlotAddress { cell, slot }),
        None => None,
    }
}

/// The cells from which the words of the nodes came, as far as they were looked back for, by the numbers of the nodes; and none where a word came from no
/// memory.
pub(crate) type InstructionCellsByNode = [Option<Option<u8>>; CHIP_NODE_COUNT];

/// Forgets the cell of a node that may have taken another word by an event.
#[inline(always)]
pub(crate) fn forget(cells: &mut InstructionCellsByNode, made: &MadeEvent)
    ensures { cells.new ≡ instruction_cells_kept_after_event made.now cells.old }
{
    match made {
        MadeEvent::Own { node, kind, .. } => {
            if !event_kind_keeps_instruction_word(*kind) {
                cells[node.index()] = None;
            }
        }
        MadeEvent::Pass { reader, .. } => {
            cells[reader.index()] = None;
        }
    }
}

/// The cell of a word, where it is known, else as it is looked back for. Takes time by how many steps the node made since the fetch, where it isn't known.
fn known_or_fetched_cell(lab: &Lab, node: NodeId, known: Option<Option<u8>>) -> Option<u8>
    ensures { result ≡ known_or_fetched_cell lab.now node known }
{
    match known {
        Some(cell) => cell,
        None => instruction_cell_after(lab, node, lab.steps(node)),
    }
}

/// The cell of a node's word, which is known from then on.
fn cell_found(lab: &Lab, cells: &mut InstructionCellsByNode, node: NodeId) -> Option<u8>
    ensures cell { result ≡ instruction_cell_of_node lab.now cells.old node }
    ensures cells { cells.new ≡ instruction_cells_with_node_cell node.number (instruction_cell_of_node lab.now cells.old node) cells.old }
{
    let cell = known_or_fetched_cell(lab, node, cells[node.index()]);
    cells[node.index()] = Some(cell);
    cell
}

/// Whether a node is at this slot of its word, so that the word's cell is needed.
fn is_node_within_word_at_slot(at: SlotAddress, node: &Node) -> bool
    ensures { result ≡ is_node_within_word_at_slot at (record_of_node node.now) }
{
    let (slot, _) = next_slot_and_p(node);
    slot != 4 && slot == at.slot
}

/// The cell of a node's word, if the node is in it at this slot; it is known from then on.
pub(crate) fn cell_at(
    lab: &Lab,
    cells: &mut InstructionCellsByNode,
    node: NodeId,
    at: SlotAddress,
) -> Option<u8>
    ensures cell { is_node_within_word_at_slot at (node_record_at (chip_of_machine lab.now) node.number) ≡ true → result ≡ instruction_cell_of_node lab.now cells.old node }
    ensures cells { cells.new ≡ instruction_cells_with_needed_cell (is_node_within_word_at_slot at (node_record_at (chip_of_machine lab.now) node.number)) lab.now node cells.old }
{
    if is_node_within_word_at_slot(at, lab.node(node)) {
        cell_found(lab, cells, node)
    } else {
        None
    }
}
