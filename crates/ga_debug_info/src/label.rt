//! The last label at or before a cell.

ghost use Rattle.std.specs.Prelude.{◌≡◌, ◌<◌, ℕ, None, length, replicate, IfSome};
ghost use Rattle.std.specs.Option.{option_or};
ghost use Rattle.ga_debug_info.specs.Source.{cell_of_address, label_name as name_by, label_cell as label_cell_of, label_marked_in_cell, label_at_or_before};
ghost use Rattle.ga_source.specs.declared.program.Program.{Program as AProgram};
ghost use Rattle.ga_debug_info.specs.inner.{label_at_cell, AreLastLabelsOfCells};

use ga_ports::{AddressTarget, classify_address};
use ga_source::{AssemblyRequest, Program};

/// One more than the greatest cell: 0 to 63 are RAM, 128 to 191 ROM.
const CELLS: usize = 192;

/// The labels with a name that stand last at each cell of a node, by their numbers.
#[derive(Clone, Copy)]
pub(crate) struct LastLabels {
    labels: [Option<usize>; CELLS],
}

impl LastLabels {
    pub(crate) fn of(program: &Program<'_>) -> Self
        ensures { AreLastLabelsOfCells program.now result.labels }
    {
        let mut labels = none_marked();
        for asked in &program.asked {
            mark(&mut labels, program, asked.request);
        }
        LastLabels { labels }
    }

    /// The last label at or before a cell, in the same memory.
    pub(crate) fn before(&self, cell: u8) -> Option<usize>
        requires { cell < 192 }
        ensures { (program : AProgram) → AreLastLabelsOfCells program self.now.labels → result ≡ label_at_or_before program cell }
    {
        let first = usize::from(cell / 64 * 64);
        let mut behind = usize::from(cell % 64);
        while behind > 0 && self.labels[first + behind].is_none() {
            behind -= 1;
        }
        self.labels[first + behind]
    }
}

/// No label is at any cell.
fn none_marked() -> [Option<usize>; CELLS]
    ensures size { length result ≡ 192 }
    ensures none { result ≡ replicate 192 None }
{
    [None; CELLS]
}

/// Notes the label that a request marks.
fn mark(labels: &mut [Option<usize>], program: &Program<'_>, request: AssemblyRequest)
    requires { length labels.old ≡ 192 }
    ensures size { length labels.new ≡ 192 }
    ensures marked { (cell : ℕ) → cell < 192 → label_at_cell labels.new cell ≡ option_or (label_marked_in_cell program.now cell request) (label_at_cell labels.old cell) }
{
    if let AssemblyRequest::MarkLabel(label) = request {
        if let Some(cell) = label_cell(program, label) {
            labels[usize::from(cell)] = Some(label);
        }
    }
}

/// The cell of a label that has a name.
fn label_cell(program: &Program<'_>, label: usize) -> Option<u8>
    ensures cell { result ≡ label_cell_of program.now label }
    ensures in_range { IfSome result (λ cell. cell < 192) }
{
    if name_of(program, label).is_empty() {
        return None;
    }
    match program.labels.get(label) {
        Some(Some(address)) => cell_of(*address),
        _ => None,
    }
}

/// The name of a label, empty where it has none.
pub(crate) fn name_of<'s>(program: &Program<'s>, label: usize) -> &'s [u8]
    ensures { result.now ≡ name_by program.now label }
{
    match program.names.get(label) {
        Some(found) => found.name,
        None => &[],
    }
}

/// The cell that an address names: 0 to 63 of RAM, 128 to 191 of ROM.
pub(crate) fn cell_of(address: u32) -> Option<u8>
    ensures cell { result ≡ cell_of_address address }
    ensures in_range { IfSome result (λ cell. cell < 192) }
{
    match classify_address(address) {
        AddressTarget::Ram(cell) => Some(cell),
        AddressTarget::Rom(cell) => Some(128 + cell),
        _ => None,
    }
}
