//! Refused commands.

ghost use Rattle.std.specs.Prelude.{◌≡◌};
ghost use Rattle.ga_text.specs.Output.{WritesExactly};
ghost use Rattle.ga_json.specs.Compact.{json_line};
ghost use Rattle.ga_json.specs.Fields.{row_json};
ghost use Rattle.ga_explorer_json.specs.Refusals.{refusal_json, lab_fault_code, lab_fault_keyword, lab_fault_hint, lab_refusal_json, refusal_json_about_step};

use crate::bytes::hint_of_refusal;
use ga_display::{RefusalWording, advised_step_refusal};
use ga_grid::NodeId;
use ga_json::{Field, write_object};
use ga_lab::LabFault;
use ga_text::{WriteResult, Writer};
use std::io::Write;

/// Writes that a command was refused, with the number, the word and the hint of the refusal.
///
/// # Errors
/// A write failed.
pub(crate) fn write_refusal<W: Write>(
    command: &[u8],
    code: u64,
    why: &[u8],
    hint: &[u8],
    writer: &mut Writer<'_, W>,
) -> WriteResult
    ensures { WritesExactly result (json_line (refusal_json command.now code why.now hint.now)) W.contents writer.old writer.new }
{
    write_object(&refusal_fields(command, code, why, hint), writer)
}

/// A command, and the number, the word and the hint of its refusal.
fn refusal_fields<'a>(command: &'a [u8], code: u64, why: &'a [u8], hint: &'a [u8]) -> [Field<'a>; 4]
    ensures { row_json result ≡ refusal_json command.now code why.now hint.now }
{
    [
        Field::text(b"command", command),
        Field::number(b"refused", code),
        Field::text(b"why", why),
        Field::text(b"hint", hint),
    ]
}

/// Writes that a lab refused a command.
///
/// # Errors
/// A write failed.
pub(crate) fn write_lab_refusal<W: Write>(
    command: &[u8],
    fault: LabFault,
    writer: &mut Writer<'_, W>,
) -> WriteResult
    ensures { WritesExactly result (json_line (lab_refusal_json command.now fault)) W.contents writer.old writer.new }
{
    write_refusal(
        command,
        lab_fault_code(fault),
        lab_fault_keyword(fault),
        lab_fault_hint(fault),
        writer,
    )
}

/// Writes that a lab refused a command about a step of a node that has `count` steps.
///
/// # Errors
/// A write failed.
pub(crate) fn write_step_refusal<W: Write>(
    command: &[u8],
    fault: LabFault,
    node: NodeId,
    count: u32,
    writer: &mut Writer<'_, W>,
) -> WriteResult
    ensures { WritesExactly result (json_line (refusal_json_about_step command.now node count fault)) W.contents writer.old writer.new }
{
    let line = advised_step_refusal(fault, node, count);
    let hint = hint_of_refusal(line.as_slice());
    write_refusal(
        command,
        lab_fault_code(fault),
        lab_fault_keyword(fault),
        hint,
        writer,
    )
}

/// The hint of a refusal.
pub(crate) fn lab_fault_hint(fault: LabFault) -> &'static [u8]
    ensures { result.now ≡ lab_fault_hint fault }
{
    hint_of_refusal(RefusalWording::Advised.refusal_in_wording(fault))
}

/// The number of a refusal.
fn lab_fault_code(fault: LabFault) -> u64
    ensures { result ≡ lab_fault_code fault }
{
    match fault {
        LabFault::Waiting => 1,
        LabFault::Stopped => 2,
        LabFault::Full => 3,
        LabFault::Memory => 4,
        LabFault::Empty => 5,
        LabFault::NoStep => 6,
        LabFault::EventNumbersSpent => 7,
    }
}

/// The word of a refusal.
pub(crate) fn lab_fault_keyword(fault: LabFault) -> &'static [u8]
    ensures { result.now ≡ lab_fault_keyword fault }
{
    match fault {
        LabFault::Waiting => b"waiting",
        LabFault::Stopped => b"stopped",
        LabFault::Full => b"full",
        LabFault::Memory => b"memory",
        LabFault::Empty => b"empty",
        LabFault::NoStep => b"nostep",
        LabFault::EventNumbersSpent => b"spent",
    }
}
