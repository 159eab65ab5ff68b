//! The faults of a listing, each between the cells at its word.

ghost use Rattle.std.specs.Prelude.{◌≡◌, ◌+◌, ◌<◌, ◌++◌, [], true, length, map, OnOk};
ghost use Rattle.ga_source.specs.Recovery.{faults_at_lines_of_words};
ghost use Rattle.ga_asm_text.specs.Source.{fault_line_text, listed_fault_text};
ghost use Rattle.ga_asm_text.specs.inner.{is_repeated_fault as is_repeated_by, fault_lines_left, IsListingExtended};

use ga_debug_info::{SourceLineCursor, push_fault};
use ga_source::{SourceFault, Token, fault_on_line_of_word, line_of_numbered_word};
use std::alloc::AllocError;

/// The words of a source by their numbers, and its faults in the order of their words.
#[derive(Drop)]
pub(crate) struct FaultLines<'a, 's> {
    /// The word of number N is at N - 1.
    words: &'a [Token<'s>],
    lines: SourceLineCursor<'s>,
    /// The faults. The line of each is the number of a word.
    faults: Vec<SourceFault<'s>>,
    /// How many faults were listed or left out.
    told: usize,
    /// The last fault that was listed, with its line.
    last: Option<SourceFault<'s>>,
}

impl<'a, 's> FaultLines<'a, 's> {
    /// The lines of faults of a source, its words and its faults in their order.
    pub(crate) fn new(
        source: &'s [u8],
        words: &'a [Token<'s>],
        faults: Vec<SourceFault<'s>>,
    ) -> Self
        ensures { fault_lines_left result ≡ map (listed_fault_text source.now) (faults_at_lines_of_words words.now faults.entry.items) }
    {
        FaultLines {
            words,
            lines: SourceLineCursor::new(source),
            faults,
            told: 0,
            last: None,
        }
    }

    /// The line of the source that has the word with a number.
    pub(crate) fn line(&mut self, number: u32) -> &'s [u8]
        ensures { fault_lines_left self.new ≡ fault_lines_left self.old }
    {
        let line = line_of_numbered_word(self.words, number);
        self.lines.line(line)
    }

    /// Adds the faults of the words before the one of a number, each with its line. What is equal to the one before is left out.
    #[tactic(auto, using(crate::proofs::FaultListing::tells_same, crate::proofs::FaultListing::tells_both, crate::proofs::FaultListing::left_none))]
    pub(crate) fn push_before(&mut self, text: &mut Vec<u8>, number: u32) -> Result<(), AllocError>
        ensures { OnOk result (IsListingExtended text.old.items text.new.items (fault_lines_left self.old) (fault_lines_left self.new)) }
    {
        while self.is_before(number) {
            self.push_next(text)?;
        }
        Ok(())
    }

    /// Adds the faults that are left.
    #[tactic(auto, using(crate::proofs::FaultListing::tells_same, crate::proofs::FaultListing::tells_both, crate::proofs::FaultListing::left_none))]
    pub(crate) fn push_rest(&mut self, text: &mut Vec<u8>) -> Result<(), AllocError>
        ensures { OnOk result (IsListingExtended text.old.items text.new.items (fault_lines_left self.old) []) }
    {
        while self.told < self.faults.len() {
            self.push_next(text)?;
        }
        Ok(())
    }

    /// Whether the word of the next fault is before the one with a number.
    fn is_before(&self, number: u32) -> bool
        ensures { result ≡ true → self.now.told < length self.now.faults.items }
    {
        match self.faults.get(self.told) {
            Some(fault) => fault.line < number,
            None => false,
        }
    }

    /// Adds the next fault with its line, unless it is equal to the last one.
    fn push_next(&mut self, text: &mut Vec<u8>) -> Result<(), AllocError>
        requires { self.old.told < length self.old.faults.items }
        ensures told { OnOk result (IsListingExtended text.old.items text.new.items (fault_lines_left self.old) (fault_lines_left self.new)) }
        ensures next { OnOk result (self.new.told ≡ self.old.told + 1) }
        ensures same { self.new.faults ≡ self.old.faults }
    {
        let fault = fault_on_line_of_word(self.words, self.faults[self.told]);
        self.told += 1;
        if is_repeated_fault(self.last, fault) {
            return Ok(());
        }
        self.last = Some(fault);
        push_listed(text, fault, self.lines.line(fault.line))?;
        Ok(())
    }
}

/// Whether a fault is equal to the last one.
fn is_repeated_fault(last: Option<SourceFault<'_>>, fault: SourceFault<'_>) -> bool
    ensures { result ≡ is_repeated_by last.entry fault.entry }
{
    match last {
        Some(last) => fault == last,
        None => false,
    }
}

/// Adds a fault before its line.
fn push_listed(text: &mut Vec<u8>, fault: SourceFault<'_>, line: &[u8]) -> Result<(), AllocError>
    ensures { OnOk result (text.new.items ≡ text.old.items ++ fault_line_text fault.entry line.now) }
{
    push_fault(text, fault)?;
    text.extend_from_slice(b" \\ ")?;
    text.extend_from_slice(line)?;
    text.push(b'\n')?;
    Ok(())
}
