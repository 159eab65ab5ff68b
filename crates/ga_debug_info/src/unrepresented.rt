//! The fields of an image that source doesn't give.

ghost use Rattle.std.specs.Prelude.{◌≡◌, ◌++◌, IfOk, OnErr, OnOk, []};
ghost use Rattle.std.specs.List.{list_all};
ghost use Rattle.ga_node.specs.Record.{record_of_node};
ghost use Rattle.ga_grid.specs.Grid.{decimal_name_of_node};
ghost use Rattle.ga_text.specs.Digits.{three_decimal_digits};
ghost use Rattle.ga_text.specs.Lines.{Bytes};
ghost use Rattle.ga_text.specs.Output.{IsTextWrittenOrTruncated};
ghost use Rattle.ga_debug_info.specs.Unrepresented.{field_name_unless_default, is_initial_stack_word, unrepresented_fields, unrepresented_node_line, unrepresented_fields_line, unrepresented_fields_text};

use super::faults::tell;
use ga_grid::{CHIP_NODE_COUNT, Chip, NodeId};
use ga_node::{Node, NodePlace};
use ga_stacks::UNUSED_STACK_WORD;
use ga_text::WriteResult;
use std::alloc::{AllocError, Global};
use std::io::Write;

/// Whether the data stack is as at load.
#[tactic(auto, using(crate::proofs::FieldLemmas::fresh_more, crate::proofs::FieldLemmas::fresh_none, crate::proofs::FieldLemmas::fresh_all))]
fn has_fresh_data(node: &Node) -> bool
    ensures { result ≡ list_all is_initial_stack_word (record_of_node node.now).d }
{
    node.has_valid_list_sizes();
    for place in 0..10u8 {
        if node.word_of_data_stack(place) != UNUSED_STACK_WORD {
            return false;
        }
    }
    true
}

/// Whether the return stack is as at load.
#[tactic(auto, using(crate::proofs::FieldLemmas::fresh_more, crate::proofs::FieldLemmas::fresh_none, crate::proofs::FieldLemmas::fresh_all))]
fn has_fresh_returns(node: &Node) -> bool
    ensures { result ≡ list_all is_initial_stack_word (record_of_node node.now).r }
{
    node.has_valid_list_sizes();
    for place in 0..9u8 {
        if node.word_of_return_stack(place) != UNUSED_STACK_WORD {
            return false;
        }
    }
    true
}

/// Adds the name of a field, unless it is as at load.
fn push_unless(text: &mut Vec<u8>, is_at_load: bool, name: &[u8]) -> Result<(), AllocError>
    ensures { OnOk result (text.new.items ≡ text.old.items ++ field_name_unless_default is_at_load name.now) }
{
    if is_at_load {
        return Ok(());
    }
    text.extend_from_slice(name)
}

/// Adds the names of the fields that aren't as at load, beside the memories, P, A and B.
fn push_fields(text: &mut Vec<u8>, node: &Node) -> Result<(), AllocError>
    ensures { OnOk result (text.new.items ≡ text.old.items ++ unrepresented_fields node.now) }
{
    push_unless(text, node.get(NodePlace::I) == 0, b" i")?;
    push_unless(text, node.get(NodePlace::Io) == UNUSED_STACK_WORD, b" io")?;
    push_unless(text, node.get(NodePlace::Carry) == 0, b" carry")?;
    push_unless(text, node.get(NodePlace::Slot) == 4, b" slot")?;
    push_unless(text, has_fresh_data(node), b" d")?;
    push_unless(text, has_fresh_returns(node), b" r")?;
    push_unless(text, node.get(NodePlace::Wait) == 0, b" wait")?;
    push_unless(text, node.get(NodePlace::Stop) == 0, b" stop")
}

/// Adds the name of a node, three digits.
fn push_name(text: &mut Vec<u8>, id: NodeId) -> Result<(), AllocError>
    ensures { OnOk result (text.new.items ≡ text.old.items ++ three_decimal_digits (decimal_name_of_node id.number)) }
{
    let decimal_name = id.decimal_name();
    text.extend_from_slice(&[
        b'0' + (decimal_name / 100) as u8,
        b'0' + (decimal_name / 10 % 10) as u8,
        b'0' + (decimal_name % 10) as u8,
    ])
}

/// Adds the line of a node with these fields.
fn push_line(text: &mut Vec<u8>, id: NodeId, fields: &[u8]) -> Result<(), AllocError>
    ensures { OnOk result (text.new.items ≡ text.old.items ++ unrepresented_node_line id.number fields.now) }
{
    text.extend_from_slice(b"ga144: node ")?;
    push_name(text, id)?;
    text.extend_from_slice(b": not in source:")?;
    text.extend_from_slice(fields)?;
    text.push(b'\n')?;
    Ok(())
}

/// Adds the line of a node with these fields, if there are any.
fn push_fields_line(text: &mut Vec<u8>, id: NodeId, fields: &[u8]) -> Result<(), AllocError>
    ensures { OnOk result (text.new.items ≡ text.old.items ++ unrepresented_fields_line id.number fields.now) }
{
    if fields.is_empty() {
        return Ok(());
    }
    push_line(text, id, fields)
}

/// Adds the line of a node that has fields which source doesn't give.
fn push_node(alloc: Global, text: &mut Vec<u8>, id: NodeId, node: &Node) -> Result<(), AllocError>
    ensures { OnOk result (text.new.items ≡ text.old.items ++ unrepresented_fields_line id.number (unrepresented_fields node.now)) }
{
    let mut fields = Vec::new(alloc);
    push_fields(&mut fields, node)?;
    push_fields_line(text, id, fields.as_slice())
}

/// The lines with the fields that source doesn't give.
fn lines_of(alloc: Global, chip: &Chip) -> Result<Vec<u8>, AllocError>
    ensures { IfOk result (λ text. text.items ≡ unrepresented_fields_text chip.now) }
{
    let mut text = Vec::new(alloc);
    for number in 0..CHIP_NODE_COUNT as u8 {
        let id = NodeId::new(number);
        push_node(alloc, &mut text, id, chip.node(id))?;
    }
    Ok(text)
}

/// Reports for each node of an image the fields that source doesn't give, in their order in an image.
///
/// # Errors
/// Out of memory; nothing was written then.
pub fn report_unrepresented_fields<E: Write>(
    alloc: Global,
    errors: &mut E,
    chip: &Chip,
) -> Result<WriteResult, AllocError>
    ensures lines { IfOk result (λ written. (before : Bytes) → E.contents errors.old ≡ Some before →
        IsTextWrittenOrTruncated written (E.contents errors.new) before (unrepresented_fields_text chip.now) []) }
    ensures unchanged { OnErr result (errors.new ≡ errors.old) }
{
    let text = lines_of(alloc, chip)?;
    Ok(tell(errors, text.as_slice()))
}
