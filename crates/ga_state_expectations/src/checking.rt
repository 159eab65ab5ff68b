//! Whether what a source expects of its programs has a fault.

ghost use Rattle.std.specs.Prelude.{IfOk, IfErr};
ghost use Rattle.ga_state_expectations.specs.Lines.{HoldsForExpectationFaults};
ghost use Rattle.ga_state_expectations.specs.Sources.{HasFaultyExpectations, HasNoFaultyExpectation};

use crate::cause::ExpectationsError;
use crate::lines::parse_expectations;
use ga_debug_info::debug_info_of_source;
use ga_source::{SourceFaultCause, assemble_source_text, expectation_lines};
use std::alloc::Global;

/// Checks what a source expects that has no other fault.
fn check_assembled(alloc: Global, source: &[u8]) -> Result<(), ExpectationsError>
    ensures ok { IfOk result (λ done. HasNoFaultyExpectation source.now) }
    ensures err { IfErr result (λ why. HoldsForExpectationFaults why (HasFaultyExpectations source.now)) }
{
    match assemble_source_text(alloc, source) {
        Ok(assembled) => {
            let notes = debug_info_of_source(alloc, source, assembled.programs.as_slice())?;
            match parse_expectations(alloc, &Some(notes)) {
                Ok(_) => Ok(()),
                Err(why) => Err(why),
            }
        }
        Err(fault) => {
            if fault.cause == SourceFaultCause::Memory {
                Err(ExpectationsError::Memory)
            } else {
                Ok(())
            }
        }
    }
}

/// Checks what a source expects of its programs. Takes time linear in the source, which is assembled if it expects anything.
///
/// # Errors
/// The fault of each line that says what is expected and has one, if the source has no other fault; or out of memory.
pub fn check_source_expectations(alloc: Global, source: &[u8]) -> Result<(), ExpectationsError>
    ensures ok { IfOk result (λ done. HasNoFaultyExpectation source.now) }
    ensures err { IfErr result (λ why. HoldsForExpectationFaults why (HasFaultyExpectations source.now)) }
{
    let lines = expectation_lines(alloc, source)?;
    if lines.is_empty() {
        return Ok(());
    }
    check_assembled(alloc, source)
}
