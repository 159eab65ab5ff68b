//! Which words of a chip its source gives.

ghost use Rattle.std.specs.Prelude.{◌≡◌, ◌++◌, IfOk, OnOk};
ghost use Rattle.ga_source.specs.Programs.{requests_have_cells, is_item_request};
ghost use Rattle.ga_debug_info.specs.Given.{word_range_if_given, given_ranges_of_registers, cell_as_node_place, given_range_of_cell_source, given_ranges_of_source};

use crate::notes::CellSource;
use ga_grid::NodeId;
use ga_image::GivenRange;
use ga_node::NodePlace;
use ga_source::{AssemblyRequest, LocatedRequest, Program};
use std::alloc::{AllocError, Global};

/// The words that programs give: registers, and the cells of which the source says something.
///
/// # Errors
/// Out of memory.
pub(crate) fn given_ranges_of_source(
    alloc: Global,
    programs: &[Program<'_>],
    notes: &[CellSource],
) -> Result<Vec<GivenRange>, AllocError>
    ensures { IfOk result (λ given. given.items ≡ given_ranges_of_source programs.now notes.now) }
{
    let mut given = Vec::new(alloc);
    for program in programs {
        add_registers(&mut given, program)?;
    }
    for note in notes {
        given.push(given_range_of_cell_source(note))?;
    }
    Ok(given)
}

/// Adds the registers that a program gives.
fn add_registers(given: &mut Vec<GivenRange>, program: &Program<'_>) -> Result<(), AllocError>
    ensures { OnOk result (given.new.items ≡ given.old.items ++ given_ranges_of_registers program.now) }
{
    let node = program.node;
    let registers = program.registers;
    add_word(given, registers.a.is_some(), node, NodePlace::A)?;
    add_word(given, registers.b.is_some(), node, NodePlace::B)?;
    let is_started = registers.p.is_some() || requests_have_cells(program.asked.as_slice());
    add_word(given, is_started, node, NodePlace::P)
}

/// Adds a word of a node, if it is given.
fn add_word(
    given: &mut Vec<GivenRange>,
    is_word_given: bool,
    node: NodeId,
    place: NodePlace,
) -> Result<(), AllocError>
    ensures { OnOk result (given.new.items ≡ given.old.items ++ word_range_if_given is_word_given node place) }
{
    if is_word_given {
        given.push(GivenRange {
            node,
            first: place,
            count: 1,
        })?;
    }
    Ok(())
}

/// Whether one of the requests asks for an item, and so for a cell.
fn requests_have_cells(asked: &[LocatedRequest]) -> bool
    ensures { result ≡ requests_have_cells asked.now }
{
    asked.iter().any(|one| is_item_request(one.request))
}

/// Whether a request asks for an item.
fn is_item_request(request: AssemblyRequest) -> bool
    ensures { result ≡ is_item_request request }
{
    match request {
        AssemblyRequest::PlaceItem(_) | AssemblyRequest::Unext(_) => true,
        _ => false,
    }
}

/// The word of a cell.
fn given_range_of_cell_source(note: &CellSource) -> GivenRange
    ensures { result ≡ given_range_of_cell_source note.now }
{
    GivenRange {
        node: note.node,
        first: cell_as_node_place(note.cell),
        count: 1,
    }
}

/// A cell as a place.
fn cell_as_node_place(cell: u8) -> NodePlace
    ensures { result ≡ cell_as_node_place cell }
{
    if cell < 128 {
        NodePlace::Ram(cell)
    } else {
        NodePlace::Rom(cell - 128)
    }
}
