//! Cells of memory as instructions.

ghost use Rattle.std.specs.Prelude.{◌≡◌, ◌<◌, ◌≤◌, ◌^◌, ◌+◌, ◌-◌, ◌%◌, ◌++◌, ℕ, IfOk, OnOk, map, option_map, option_and_then, string_bytes};
ghost use Rattle.std.specs.List.{range_with_len};
ghost use Rattle.serde_json.specs.Data.{string, put as with_member};
ghost use Rattle.serde_json.specs.View.{view, members_view};
ghost use Rattle.ga_word.specs.Word.{hex_digits_of_word};
ghost use Rattle.ga_debug_info.specs.Source.{cell_of_address};
ghost use Rattle.ga_slots.specs.Codes.{name_of_opcode};
ghost use Rattle.ga_dap_views.specs.Labels.{label_of_cell};
ghost use Rattle.ga_dap_views.specs.Numbers.{chip_address};
ghost use Rattle.ga_dap_views.specs.Variables.{memory_reference};
ghost use Rattle.ga_dap_views.specs.Disassembly.{jump_target_text, has_address_operand, ends_instruction_word, slot_target_text, opcode_with_leading_blank, slots_text, is_data_in_source, instruction_text, members_with_source_line, members_with_label, instruction_members, instruction_object, invalid_instruction_object, cell_of_node_address, instruction_object_at, disassemble_response_body};

use crate::frames::{SourceFile, source_object};
use crate::json::object_with;
use crate::labels::{add_label, debug_info_of_cell, label_of_cell};
use crate::numbers::chip_address;
use crate::spots::memory_cell_of_address;
use crate::texts::{add_hex3, add_hex6, address_text, text_with_number};
use ga_debug_info::{CellSource, DebugInfo, LabelAddress};
use ga_grid::NodeId;
use ga_lab::Lab;
use ga_ports::advance_p;
use ga_slots::{Op, opcode, target};
use ga_word::Word18;
use serde_json::{Map, Value, json, push, put};
use std::alloc::{AllocError, Global};

/// Whether an address follows an opcode.
fn has_address_operand(op: Op) -> bool
    ensures { result ≡ has_address_operand op }
{
    match op {
        Op::Jump | Op::Call | Op::Next | Op::If | Op::MinusIf => true,
        _ => false,
    }
}

/// Whether nothing is carried out after an opcode in its word.
fn ends_instruction_word(op: Op) -> bool
    ensures { result ≡ ends_instruction_word op }
{
    match op {
        Op::Return | Op::Execute => true,
        _ => has_address_operand(op),
    }
}

/// The label at an address.
fn target_label(notes: &DebugInfo, node: NodeId, address: u32) -> Option<&LabelAddress>
    ensures { option_map (λ name. name.now) result ≡ option_and_then (label_of_cell notes.now.names.items node) (cell_of_address address) }
{
    let cell = memory_cell_of_address(address)?;
    label_of_cell(notes, node, cell)
}

/// Adds where a jump leads: a label, or an address.
fn add_target(
    alloc: Global,
    text: &mut String,
    notes: &DebugInfo,
    node: NodeId,
    address: u32,
) -> Result<(), AllocError>
    ensures { OnOk result (string_bytes text.new ≡ string_bytes text.old ++ jump_target_text notes.now node address) }
{
    match target_label(notes, node, address) {
        Some(name) => add_label(alloc, text, name),
        None => add_hex3(text, address % 512),
    }
}

/// Adds the opcode of a slot, after a blank except for that of slot 0.
fn add_op(text: &mut String, op: Op, slot: u8) -> Result<(), AllocError>
    ensures { OnOk result (string_bytes text.new ≡ string_bytes text.old ++ opcode_with_leading_blank slot (name_of_opcode op)) }
{
    if slot > 0 {
        text.push_str(" ")?;
    }
    text.push_str(op.name())
}

/// Adds the address of a slot, if its opcode has one and it has room for one. `p` is P after the cell.
fn add_address(
    alloc: Global,
    text: &mut String,
    notes: &DebugInfo,
    node: NodeId,
    p: u32,
    word: Word18,
    slot: u8,
) -> Result<(), AllocError>
    requires { slot < 4 }
    ensures { OnOk result (string_bytes text.new ≡ string_bytes text.old ++ slot_target_text notes.now node p word slot) }
{
    if slot == 3 {
        return Ok(());
    }
    if !has_address_operand(opcode(word, slot)) {
        return Ok(());
    }
    text.push_str(" ")?;
    add_target(alloc, text, notes, node, target(p, word, slot))
}

/// Adds the opcodes of a word, up to one after which nothing is carried out.
fn add_slots(
    alloc: Global,
    text: &mut String,
    notes: &DebugInfo,
    node: NodeId,
    p: u32,
    word: Word18,
) -> Result<(), AllocError>
    ensures { OnOk result (string_bytes text.new ≡ string_bytes text.old ++ slots_text notes.now node p word 0 4) }
{
    'slots: for slot in 0..4u8 {
        let op = opcode(word, slot);
        add_op(text, op, slot)?;
        add_address(alloc, text, notes, node, p, word, slot)?;
        if ends_instruction_word(op) {
            return Ok(());
        }
    }
    Ok(())
}

/// Whether a cell is a literal or data, by its source.
fn is_data_in_source(note: Option<&CellSource>) -> bool
    ensures { result ≡ is_data_in_source (option_map (λ one. one.now) note.entry) }
{
    match note {
        Some(note) => !note.is_code,
        None => false,
    }
}

/// What a cell with this word holds.
fn instruction_text(
    alloc: Global,
    notes: &DebugInfo,
    node: NodeId,
    cell: u8,
    word: Word18,
) -> Result<String, AllocError>
    ensures { IfOk result (λ text. string_bytes text ≡ instruction_text notes.now node cell word) }
{
    if is_data_in_source(debug_info_of_cell(notes, node, cell)) {
        return text_with_number(alloc, "word ", word.get());
    }
    let mut text = String::new(alloc);
    add_slots(
        alloc,
        &mut text,
        notes,
        node,
        advance_p(u32::from(cell)),
        word,
    )?;
    Ok(text)
}

/// A word in six hexadecimal digits.
fn bytes_text(alloc: Global, word: Word18) -> Result<String, AllocError>
    ensures { IfOk result (λ text. string_bytes text ≡ hex_digits_of_word word) }
{
    let mut text = String::new(alloc);
    add_hex6(&mut text, word.get())?;
    Ok(text)
}

/// Puts a text as a member.
fn put_text(
    alloc: Global,
    members: &mut Map<String, Value>,
    key: &str,
    text: String,
) -> Result<(), AllocError>
    ensures { OnOk result (members_view members.new.entries ≡ with_member key.now (string (string_bytes text)) (members_view members.old.entries)) }
{
    put(members, alloc, key, Value::String(text))
}

/// Puts the line, where the source has one.
fn put_line(
    alloc: Global,
    members: &mut Map<String, Value>,
    file: SourceFile<'_>,
    note: Option<&CellSource>,
) -> Result<(), AllocError>
    ensures { OnOk result (members_view members.new.entries ≡ members_with_source_line file.entry (option_map (λ one. one.now) note.entry) (members_view members.old.entries)) }
{
    let Some(note) = note else {
        return Ok(());
    };
    put(members, alloc, "line", Value::from(note.line))?;
    let source = source_object(alloc, file)?;
    put(members, alloc, "location", source)
}

/// Puts the label of a cell, if it has one.
fn put_label(
    alloc: Global,
    members: &mut Map<String, Value>,
    name: Option<&LabelAddress>,
) -> Result<(), AllocError>
    ensures { OnOk result (members_view members.new.entries ≡ members_with_label (option_map (λ one. one.now) name.entry) (members_view members.old.entries)) }
{
    let Some(name) = name else {
        return Ok(());
    };
    let text = String::from_utf8_lossy(alloc, name.text.as_slice())?;
    put_text(alloc, members, "symbol", text)
}

/// A cell as the instruction at an address of the chip.
fn instruction_members(
    alloc: Global,
    notes: &DebugInfo,
    node: NodeId,
    cell: u8,
    word: Word18,
    address: u32,
) -> Result<Map<String, Value>, AllocError>
    requires { address < 2 ^ 24 }
    ensures { IfOk result (λ members. members_view members.entries
        ≡ instruction_members (memory_reference address) (instruction_text notes.now node cell word) (hex_digits_of_word word)) }
{
    let mut members = Map::new(alloc);
    let pointer = address_text(alloc, address)?;
    put_text(alloc, &mut members, "address", pointer)?;
    let words = instruction_text(alloc, notes, node, cell, word)?;
    put_text(alloc, &mut members, "instruction", words)?;
    let bytes = bytes_text(alloc, word)?;
    put_text(alloc, &mut members, "instructionBytes", bytes)?;
    Ok(members)
}

/// The cell at an address of the chip, as an instruction.
fn instruction_object(
    alloc: Global,
    file: SourceFile<'_>,
    lab: &Lab,
    notes: &DebugInfo,
    node: NodeId,
    cell: u8,
    address: u32,
) -> Result<Value, AllocError>
    requires { address < 2 ^ 24 }
    ensures { IfOk result (λ v. (at : ℕ) → chip_address node.number at ≡ address → view v ≡ instruction_object file.entry notes.now lab.now node at cell) }
{
    let word = lab.memory(node, cell);
    let mut members = instruction_members(alloc, notes, node, cell, word, address)?;
    put_line(
        alloc,
        &mut members,
        file,
        debug_info_of_cell(notes, node, cell),
    )?;
    put_label(alloc, &mut members, label_of_cell(notes, node, cell))?;
    Ok(Value::Object(members))
}

#[tactic(auto, unfolding(crate::specs::Disassembly::invalid_instruction_object))]
fn invalid_instruction(alloc: Global, address: &str) -> Result<Value, AllocError>
    ensures { IfOk result (λ v. view v ≡ invalid_instruction_object address.now) }
{
    json!(in alloc; {"address": address, "instruction": "no memory", "presentationHint": "invalid"})
}

/// The instruction of an address without a cell.
fn invalid_instruction_object(alloc: Global, address: u32) -> Result<Value, AllocError>
    requires { address < 2 ^ 24 }
    ensures { IfOk result (λ v. view v ≡ invalid_instruction_object (memory_reference address)) }
{
    let text = address_text(alloc, address)?;
    invalid_instruction(alloc, text.as_str())
}

/// The cell that an address of a node names.
fn cell_of_node_address(address: u32) -> Option<u8>
    ensures { result ≡ cell_of_node_address address }
{
    if address < 256 {
        memory_cell_of_address(address)
    } else {
        None
    }
}

/// An address of a node on the chip.
fn address_in_node(node: NodeId, address: u32) -> u32
    requires { address < 4096 }
    ensures value { result ≡ chip_address node.number address }
    ensures in_range { result < 2 ^ 24 }
{
    chip_address(node, 0) + address
}

/// The instruction at an address of a node.
fn instruction_object_at(
    alloc: Global,
    file: SourceFile<'_>,
    lab: &Lab,
    notes: &DebugInfo,
    node: NodeId,
    address: u32,
) -> Result<Value, AllocError>
    requires { address < 4096 }
    ensures { IfOk result (λ v. view v ≡ instruction_object_at file.entry notes.now lab.now node address) }
{
    let pointer = address_in_node(node, address);
    match cell_of_node_address(address) {
        Some(cell) => instruction_object(alloc, file, lab, notes, node, cell, pointer),
        None => invalid_instruction_object(alloc, pointer),
    }
}

/// The instructions from one address on and before another.
fn instructions(
    alloc: Global,
    file: SourceFile<'_>,
    lab: &Lab,
    notes: &DebugInfo,
    node: NodeId,
    first: u32,
    end: u32,
) -> Result<Vec<Value>, AllocError>
    requires { first ≤ end }
    ensures { IfOk result (λ list. map view list.items
        ≡ map (λ k. instruction_object_at file.entry notes.now lab.now node (k % 4096)) (range_with_len first (end - first))) }
{
    let mut list = Vec::new(alloc);
    'cells: for address in first..end {
        let value = instruction_object_at(alloc, file, lab, notes, node, address % 4096)?;
        push(&mut list, value)?;
    }
    Ok(list)
}

/// The body of the response to `disassemble` (Debug Adapter Protocol, "DisassembleRequest"): `count` instructions of a node,
/// each of a cell, from an address on. After the last of a node's 4096 addresses comes the first. Takes memory for the
/// response.
///
/// # Errors
/// An allocation failed.
pub fn disassemble_response_body(
    alloc: Global,
    file: SourceFile<'_>,
    lab: &Lab,
    notes: &DebugInfo,
    node: NodeId,
    first: u32,
    count: u32,
) -> Result<Value, AllocError>
    requires { first + count < 2 ^ 32 }
    ensures { IfOk result (λ v. view v ≡ disassemble_response_body file.entry notes.now lab.now node first count) }
{
    let list = instructions(alloc, file, lab, notes, node, first, first + count)?;
    object_with(alloc, "instructions", list)
}
