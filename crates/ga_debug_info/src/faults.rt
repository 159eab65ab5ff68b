//! What standard error says of a source.

ghost use Rattle.std.specs.Prelude.{◌≡◌, ◌⊎◌, ◌++◌, List, [], IfOk, IfErr, OnErr, OnOk};
ghost use Rattle.std.specs.List.{flat_map};
ghost use Rattle.ga_parser.specs.declared.fault.SourceFault.{SourceFault as FaultAt};
ghost use Rattle.ga_parser.specs.declared.fault.SourceFaultCause.TheVariants.{Memory};
ghost use Rattle.ga_text.specs.Lines.{Bytes};
ghost use Rattle.ga_text.specs.Output.{IsTextWrittenOrTruncated};
ghost use Rattle.ga_source.specs.Recovery.{AreFaultsOfSource};
ghost use Rattle.ga_debug_info.specs.Faults.{reported_faults_text, error_prefix, out_of_memory_text, input_too_long_text, address_write_warning_text, store_warning_text, stores_of_programs};

use crate::building::{push_number, three_digits};
use crate::causes::push_faults;
use ga_source::{
    AssembledChip, Program, SourceFault, StoreOverCode, find_all_faults, find_stores_over_code,
};
use ga_text::{WriteResult, write_all};
use std::alloc::{AllocError, Global};
use std::io::Write;

/// Reports all faults of a source that isn't assembled for this first one, in the order of lines: the first 20, and the number of the
/// others. Or out of memory.
pub fn report_faults<'s, E: Write>(
    alloc: Global,
    errors: &mut E,
    source: &'s [u8],
    first: SourceFault<'s>,
) -> WriteResult
    ensures { (before : Bytes) → E.contents errors.old ≡ Some before →
        IsTextWrittenOrTruncated result (E.contents errors.new) before out_of_memory_text []
        ⊎ ((faults : List FaultAt) × AreFaultsOfSource source.now first.entry faults × IsTextWrittenOrTruncated result (E.contents errors.new) before (reported_faults_text error_prefix faults) []) }
{
    match format_faults(alloc, b"ga144: ", source, first) {
        Ok(text) => tell(errors, text.as_slice()),
        Err(_) => report_out_of_memory(errors),
    }
}

/// A line for each fault of a source that isn't assembled for this first one, after a prefix: the first 20, and the number of the others.
///
/// # Errors
/// Out of memory.
pub fn format_faults<'s>(
    alloc: Global,
    prefix: &[u8],
    source: &'s [u8],
    first: SourceFault<'s>,
) -> Result<Vec<u8>, SourceFault<'s>>
    ensures text { IfOk result (λ text. (faults : List FaultAt) × AreFaultsOfSource source.now first.entry faults × (text.items ≡ reported_faults_text prefix.now faults)) }
    ensures refused { IfErr result (λ fault. fault.cause ≡ Memory) }
{
    let faults = find_all_faults(alloc, source, first)?;
    let mut text = Vec::new(alloc);
    push_faults(&mut text, prefix, faults.as_slice())?;
    Ok(text)
}

/// Reports that memory ran out.
pub fn report_out_of_memory<E: Write>(errors: &mut E) -> WriteResult
    ensures { (before : Bytes) → E.contents errors.old ≡ Some before → IsTextWrittenOrTruncated result (E.contents errors.new) before out_of_memory_text [] }
{
    tell(errors, b"ga144: no memory\n")
}

/// Reports that the source extends past its bound.
pub fn report_input_too_long<E: Write>(errors: &mut E) -> WriteResult
    ensures { (before : Bytes) → E.contents errors.old ≡ Some before → IsTextWrittenOrTruncated result (E.contents errors.new) before input_too_long_text [] }
{
    tell(errors, b"ga144: the source has more than 16777216 bytes\n")
}

/// Adds a line that writes an address.
fn push_write(text: &mut Vec<u8>, line: u32, address: u32) -> Result<(), AllocError>
    ensures { OnOk result (text.new.items ≡ text.old.items ++ address_write_warning_text line address) }
{
    text.extend_from_slice(b"line ")?;
    push_number(text, line)?;
    text.extend_from_slice(b": warning: this writes ")?;
    text.extend_from_slice(&three_digits(address))
}

/// Adds the warning of a store over code.
fn push_store(text: &mut Vec<u8>, store: StoreOverCode) -> Result<(), AllocError>
    ensures { OnOk result (text.new.items ≡ text.old.items ++ store_warning_text store) }
{
    text.extend_from_slice(b"ga144: ")?;
    push_write(text, store.line, store.address)?;
    text.extend_from_slice(b", which holds code of line ")?;
    push_number(text, store.code_line)?;
    text.push(b'\n')?;
    Ok(())
}

/// Adds the warnings of stores over code.
fn push_stores(text: &mut Vec<u8>, stores: &[StoreOverCode]) -> Result<(), AllocError>
    ensures { OnOk result (text.new.items ≡ text.old.items ++ flat_map store_warning_text stores.now) }
{
    for store in stores {
        push_store(text, *store)?;
    }
    Ok(())
}

/// The stores over code of programs, in their order.
fn stores_of(alloc: Global, programs: &[Program<'_>]) -> Result<Vec<StoreOverCode>, AllocError>
    ensures { IfOk result (λ stores. stores.items ≡ stores_of_programs programs.now) }
{
    let mut all = Vec::new(alloc);
    for program in programs {
        let stores = find_stores_over_code(alloc, program)?;
        all.extend_from_slice(stores.as_slice())?;
    }
    Ok(all)
}

/// The warnings of the stores over code of programs.
fn text_of_stores(alloc: Global, programs: &[Program<'_>]) -> Result<Vec<u8>, AllocError>
    ensures { IfOk result (λ text. text.items ≡ flat_map store_warning_text (stores_of_programs programs.now)) }
{
    let stores = stores_of(alloc, programs)?;
    let mut text = Vec::new(alloc);
    push_stores(&mut text, stores.as_slice())?;
    Ok(text)
}

/// Reports the stores over code of all programs, in the order of the source.
///
/// # Errors
/// Out of memory; nothing was written then.
pub fn report_stores_over_code<E: Write>(
    alloc: Global,
    errors: &mut E,
    assembled: &AssembledChip<'_>,
) -> Result<WriteResult, AllocError>
    ensures warnings { IfOk result (λ written. (before : Bytes) → E.contents errors.old ≡ Some before →
        IsTextWrittenOrTruncated written (E.contents errors.new) before (flat_map store_warning_text (stores_of_programs assembled.now.programs.items)) []) }
    ensures unchanged { OnErr result (errors.new ≡ errors.old) }
{
    let text = text_of_stores(alloc, assembled.programs.as_slice())?;
    Ok(tell(errors, text.as_slice()))
}

/// Writes a text.
pub(crate) fn tell<E: Write>(errors: &mut E, text: &[u8]) -> WriteResult
    ensures { (before : Bytes) → E.contents errors.old ≡ Some before → IsTextWrittenOrTruncated result (E.contents errors.new) before text.now [] }
{
    write_all(errors, text)
}
