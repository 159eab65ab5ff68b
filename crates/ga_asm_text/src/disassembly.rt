//! An image in, source of the same memories and registers out.
ghost use Rattle.ga_text.specs.Output.{WritesText, ReadsAndWrites};
ghost use Rattle.std.specs.Prelude.{◌≡◌, ◌⊎◌, ◌<◌, ◌≤◌, [], ◌∷◌, length, codes, IfOk, IfErr, OnOk};
ghost use Rattle.std.specs.List.{All};
ghost use Rattle.ga_image.specs.FirstFault.{out_of_memory_fault, IsFirstImageFault};
ghost use Rattle.ga_image.specs.Grammar.{IsImage};
ghost use Rattle.ga_text.specs.Lines.{lines_of_text};
ghost use Rattle.ga_console.specs.Run.{IsFaultOfImage};
ghost use Rattle.ga_asm_text.specs.Source.{IsDisassembly, WritesDisassembly};
ghost use Rattle.ga_asm_text.specs.inner.{WritesDisassemblyAfterRead, IsOrdinarySourceWord, LacksByteOrderMark, TextSaysWords, AppendsSourceWords, AddsBytesWithinLastLine, hex_number_source_word, register_source_words, address_source_words, cell_source_words, address_after_cell, cells_words, address_after_cells, has_nonzero_memory as holds_words_of, default_register_p as usual_p_of, registers_source_words, memory_source_words, node_source_words, node_source_words_with_name, source_words, AreCellsOfWholeMemory, HasRegistersInRange, HasBothMemoriesWhole, HasMemoriesAndRegistersInRange};

use super::assembling::write_text_with_status;
use super::comment::CellRoles;
use super::number_text::{push_hex, push_node};
use ga_console::{Status, write_image_refusal};
use ga_debug_info::{
    find_stray_character_in_image, report_stray_character, report_unrepresented_fields,
};
use ga_grid::{CHIP_NODE_COUNT, Chip, NodeId, initial_p};
use ga_image::{ImageFault, ImageFaultCause, parse};
use ga_node::{Node, NodePlace};
use ga_text::{WholeInputResult, read_whole_input};
use std::alloc::{AllocError, Global};
use std::io::{Read, Write};

/// The fault of an image for which memory was wanting.
const NO_MEMORY: ImageFault = ImageFault {
    line: 0,
    cause: ImageFaultCause::Memory,
};

/// Reads an image of either format up to its first line `end`, and writes source that gives the same memories, A, B and P. What
/// else its nodes hold, which source can't express, is written to `errors`, a line for each node. A refused image gets its
/// refusal.
pub fn disassemble_image<R: Read, W: Write, E: Write>(
    alloc: Global,
    reader: &mut R,
    writer: &mut W,
    errors: &mut E,
) -> Status
    // Where the streams show their bytes: what was read, and what was written for it by the status.
    ensures { ReadsAndWrites (λ read rest text. WritesDisassembly read rest text result)
        (R.remaining reader.old) (R.remaining reader.new) (W.contents writer.old) (W.contents writer.new) }
{
    match read_whole_input(alloc, reader) {
        WholeInputResult::Whole(image) => disassemble_text(alloc, writer, errors, image),
        // No image that is accepted is so long.
        WholeInputResult::TooLong(image) => disassemble_text(alloc, writer, errors, image),
        WholeInputResult::ReadFailed => Status::StreamFault,
        WholeInputResult::NoMemory => write_image_refusal(writer, NO_MEMORY),
    }
}

/// Writes the source of an image, or refuses the image.
fn disassemble_text<W: Write, E: Write>(
    alloc: Global,
    writer: &mut W,
    errors: &mut E,
    image: Vec<u8>,
) -> Status
    ensures { WritesText (λ text. WritesDisassemblyAfterRead image.items text result) (W.contents writer.old) (W.contents writer.new) }
{
    match source_for(alloc, errors, image) {
        Ok(text) => write_text_with_status(writer, text),
        Err(fault) => write_image_refusal(writer, fault),
    }
}

/// Source of an image, with what it leaves out on `errors`; or the image's first fault.
fn source_for<E: Write>(
    alloc: Global,
    errors: &mut E,
    image: Vec<u8>,
) -> Result<Vec<u8>, ImageFault>
    ensures ok { IfOk result (λ text. IsDisassembly image.items text.items) }
    ensures err { IfErr result (λ fault. IsFaultOfImage image.items fault) }
{
    let chip = parse_told(alloc, errors, image.as_slice())?;
    match source_of(alloc, &chip) {
        Ok(text) => {
            if report_unrepresented_fields(alloc, errors, &chip).is_err() {
                return Err(NO_MEMORY);
            }
            Ok(text)
        }
        Err(_) => Err(NO_MEMORY),
    }
}

/// The chip of an image. For a refused one, `errors` gets what an editor wrote into it.
fn parse_told<E: Write>(alloc: Global, errors: &mut E, image: &[u8]) -> Result<Chip, ImageFault>
    ensures found { IfOk result (λ chip. IsImage (lines_of_text image.now) chip) }
    ensures refused { IfErr result (λ fault. (fault ≡ out_of_memory_fault) ⊎ IsFirstImageFault (lines_of_text image.now) fault) }
{
    let parsed = parse(alloc, image);
    if parsed.is_err() {
        let _written = report_stray_character(errors, find_stray_character_in_image(image));
    }
    parsed
}

/// Source of the memories, A, B and P of a chip.
fn source_of(alloc: Global, chip: &Chip) -> Result<Vec<u8>, AllocError>
    ensures says { IfOk result (λ text. TextSaysWords text.items (source_words 0 chip.now)) }
    ensures size { OnOk result (length chip.now ≡ 144) }
    ensures fit { OnOk result (All HasMemoriesAndRegistersInRange chip.now) }
{
    let mut text = Vec::new(alloc);
    for number in 0..CHIP_NODE_COUNT as u8 {
        let node = NodeId::new(number);
        push_program(&mut text, node, chip.node(node))?;
    }
    Ok(text)
}

/// Adds what source says of a node, unless that is nothing.
fn push_program(text: &mut Vec<u8>, id: NodeId, node: &Node) -> Result<(), AllocError>
    ensures says { OnOk result (AppendsSourceWords text.old.items text.new.items (node_source_words_with_name id.number (node_source_words id.number node.now))) }
    ensures fit { OnOk result (HasMemoriesAndRegistersInRange node.now) }
{
    let before = text.len();
    push_node(text, id)?;
    let begun = text.len();
    push_registers(text, id, node, has_nonzero_memory(node))?;
    push_cells(text, node)?;
    if text.len() == begun {
        text.truncate(before);
    }
    Ok(())
}

/// Whether a cell isn't 0.
#[tactic(auto, using(crate::proofs::Cells::looking_first, crate::proofs::Cells::found_in_ram, crate::proofs::Cells::found_in_rom, crate::proofs::Cells::looking_more, crate::proofs::Cells::found_nowhere))]
fn has_nonzero_memory(node: &Node) -> bool
    ensures { result ≡ holds_words_of node.now }
{
    for cell in 0..64u8 {
        if node.get(NodePlace::Ram(cell)) != 0 {
            return true;
        }
        if node.get(NodePlace::Rom(cell)) != 0 {
            return true;
        }
    }
    false
}

/// Adds the registers whose values the source wouldn't have: P is 0 where there are cells, and else as at load.
fn push_registers(
    text: &mut Vec<u8>,
    id: NodeId,
    node: &Node,
    has_cells: bool,
) -> Result<(), AllocError>
    ensures says { OnOk result (AppendsSourceWords text.old.items text.new.items (registers_source_words id.number node.now has_cells)) }
    ensures fit { OnOk result (HasRegistersInRange node.now) }
{
    push_register(
        text,
        b"/p",
        node.get(NodePlace::P),
        default_register_p(id, has_cells),
    )?;
    push_register(text, b"/a", node.get(NodePlace::A), 0)?;
    push_register(text, b"/b", node.get(NodePlace::B), 0x15d)?;
    Ok(())
}

/// P where no line gives it.
fn default_register_p(id: NodeId, has_cells: bool) -> u32
    ensures { result ≡ usual_p_of id.number has_cells }
{
    if has_cells { 0 } else { initial_p(id) }
}

/// Adds a register, unless it has this value.
fn push_register(text: &mut Vec<u8>, name: &[u8], value: u32, usual: u32) -> Result<(), AllocError>
    requires start { LacksByteOrderMark name.now }
    requires ordinary { IsOrdinarySourceWord name.now }
    requires short { length name.now ≤ 10 }
    ensures { OnOk result (AppendsSourceWords text.old.items text.new.items (register_source_words name.now value usual)) }
{
    if value != usual {
        text.extend_from_slice(name)?;
        text.extend_from_slice(b" 0x")?;
        push_hex(text, value, 5)?;
        text.push(b'\n')?;
    }
    Ok(())
}

/// Adds the cells that aren't 0, each run of them after its `org`.
fn push_cells(text: &mut Vec<u8>, node: &Node) -> Result<(), AllocError>
    ensures says { OnOk result (AppendsSourceWords text.old.items text.new.items (memory_source_words node.now)) }
    ensures fit { OnOk result (HasBothMemoriesWhole node.now) }
{
    let roles = CellRoles::of(node);
    let next = push_ram(text, node, &roles)?;
    push_rom(text, node, &roles, next)?;
    Ok(())
}

/// Adds the cells of RAM. Returns the address after the last one.
fn push_ram(text: &mut Vec<u8>, node: &Node, roles: &CellRoles) -> Result<u32, AllocError>
    ensures says { OnOk result (AppendsSourceWords text.old.items text.new.items (cells_words 0 0 node.now.ram)) }
    ensures next { IfOk result (λ next. next ≡ address_after_cells 0 0 node.now.ram) }
    ensures fit { OnOk result (AreCellsOfWholeMemory node.now.ram) }
{
    let mut next = 0;
    for cell in 0..64u8 {
        next = push_word(
            text,
            roles,
            node.get(NodePlace::Ram(cell)),
            u32::from(cell),
            next,
        )?;
    }
    Ok(next)
}

/// Adds the cells of ROM.
fn push_rom(
    text: &mut Vec<u8>,
    node: &Node,
    roles: &CellRoles,
    behind: u32,
) -> Result<(), AllocError>
    ensures says { OnOk result (AppendsSourceWords text.old.items text.new.items (cells_words 0x80 behind node.now.rom)) }
    ensures fit { OnOk result (AreCellsOfWholeMemory node.now.rom) }
{
    let mut next = behind;
    for cell in 0..64u8 {
        next = push_word(
            text,
            roles,
            node.get(NodePlace::Rom(cell)),
            0x80 + u32::from(cell),
            next,
        )?;
    }
    Ok(())
}

/// Adds a cell unless it is 0, and `org` before it if it isn't the next one. Returns the address after the last cell.
fn push_word(
    text: &mut Vec<u8>,
    roles: &CellRoles,
    word: u32,
    address: u32,
    next: u32,
) -> Result<u32, AllocError>
    requires { address < 0x400 }
    ensures says { OnOk result (AppendsSourceWords text.old.items text.new.items (cell_source_words word address next)) }
    ensures next { IfOk result (λ behind. behind ≡ address_after_cell word address next) }
{
    if word == 0 {
        return Ok(next);
    }
    push_address(text, address, next)?;
    push_cell(text, word, roles.remark(word, address).as_slice())?;
    Ok(address + 1)
}

/// Adds `org` and the address, unless it is the next one.
fn push_address(text: &mut Vec<u8>, address: u32, next: u32) -> Result<(), AllocError>
    ensures { OnOk result (AppendsSourceWords text.old.items text.new.items (address_source_words address next)) }
{
    if address != next {
        text.extend_from_slice(b"org 0x")?;
        push_hex(text, address, 2)?;
        text.push(b'\n')?;
    }
    Ok(())
}

/// Adds a cell, followed by a remark.
fn push_cell(text: &mut Vec<u8>, word: u32, remark: &[u8]) -> Result<(), AllocError>
    requires { length remark.now ≤ 80 }
    ensures { OnOk result (AppendsSourceWords text.old.items text.new.items (hex_number_source_word 6 word ∷ codes "," ∷ [])) }
{
    text.extend_from_slice(b"0x")?;
    push_hex(text, word, 6)?;
    text.extend_from_slice(b" , \\ ")?;
    push_remark(text, remark)?;
    text.push(b'\n')?;
    Ok(())
}

/// Adds a remark, but for bytes that would end its line: the remark is in this line alone.
#[tactic(auto, using(crate::proofs::SourceLines::remark_none, crate::proofs::SourceLines::remark_both, crate::proofs::SourceLines::remark_more))]
fn push_remark(text: &mut Vec<u8>, remark: &[u8]) -> Result<(), AllocError>
    ensures { OnOk result (AddsBytesWithinLastLine (length remark.now) text.old.items text.new.items) }
{
    for byte in remark {
        push_inner(text, *byte)?;
    }
    Ok(())
}

/// Adds a byte, unless it would end its line.
fn push_inner(text: &mut Vec<u8>, byte: u8) -> Result<(), AllocError>
    ensures { OnOk result (AddsBytesWithinLastLine 1 text.old.items text.new.items) }
{
    if byte != b'\n' && byte != b'\r' {
        text.push(byte)?;
    }
    Ok(())
}
