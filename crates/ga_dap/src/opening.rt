//! A program that is opened: an image, or source.

ghost use Rattle.std.specs.Prelude.{◌≡◌, ◌≢◌, [], None, IfOk, IfErr, map, string_bytes};
ghost use Rattle.ga_grid.specs.Chip.{records_of_chip};
ghost use Rattle.ga_image.specs.FirstFault.{IsFirstImageFault};
ghost use Rattle.ga_image.specs.declared.fault.ImageFault.{ImageFault as AnImageFault};
ghost use Rattle.ga_image.specs.declared.fault.ImageFaultCause.TheVariants.{Memory as NoMemory};
ghost use Rattle.ga_source.specs.Made.{IsPlainSource};
ghost use Rattle.ga_parser.specs.declared.fault.SourceFaultCause.TheVariants.{Memory as Wanting};
ghost use Rattle.ga_text.specs.Lines.{lines_of_text};
ghost use Rattle.ga_lab.specs.Machine.{initial_state};
ghost use Rattle.ga_console.specs.Run.{IsOpenedOnImage as OpensImage};
ghost use Rattle.ga_explorer.specs.Opening.{explorer_state, begins_as_image, OpensSource};
ghost use Rattle.ga_dap.specs.Opening.{OpensProgram, OpensTextAsProgram, IsRefusedProgramText, IsRefusedSource, AreProgramNodes, AreNodesOfSource};
ghost use Rattle.ga_dap.specs.inner.Unopened.{HoldsIfLaunchTextFault};

use ga_console::{open_lab_from_image, write_image_refusal};
use ga_dap_queries::Debuggee;
use ga_debug_info::{DebugInfo, debug_info_of_source, format_faults};
use ga_grid::{Chip, NodeId};
use ga_image::{ImageFault, ImageFaultCause};
use ga_lab::{Lab, LabFault};
use ga_source::{
    Program as NodeProgram, SourceFault, SourceFaultCause, StoreOverCode, assemble_source_text,
    find_stores_over_code,
};
use ga_state_expectations::{
    ExpectationFault, ExpectationsError, check_source_expectations, format_expectation_faults,
};
use std::alloc::{AllocError, Global};
use thiserror::Error;

/// Why a program is not launched.
#[derive(Drop, Debug, Error)]
pub enum LaunchError {
    /// Memory was refused.
    #[error("out of memory")]
    Memory,
    /// The program's text has a fault.
    #[error("{0}")]
    SourceFault(String),
}

impl From<AllocError> for LaunchError {
    ghost use Rattle.ga_dap.specs.declared.opening.LaunchError.TheVariants.{Memory};
    ghost use Rattle.std.specs.Prelude.{◌≡◌};

    ghost from_gives = { λ e r. r ≡ Memory };

    fn from(_: AllocError) -> Self {
        LaunchError::Memory
    }
}

/// A program, and what its source is warned of.
#[derive(Drop)]
pub struct OpenedProgram {
    pub program: Debuggee,
    pub warnings: String,
}

/// What a text is opened as.
#[derive(Drop)]
struct Contents {
    lab: Lab,
    source: Option<DebugInfo>,
    nodes: Vec<NodeId>,
    warnings: String,
}

/// The part of a path after its last slash.
fn name_in(path: &str) -> &str {
    match path.rsplit_once('/') {
        Some((_, name)) => name,
        None => path,
    }
}

/// The program that a file has as its text: an image, whose first bytes are `ga144`, or source.
///
/// # Errors
/// An allocation failed, or the text has a fault, written as `ga144 asm` writes it.
pub fn open_program(
    alloc: Global,
    path: &str,
    text: Vec<u8>,
    limit: u32,
) -> Result<OpenedProgram, LaunchError>
    ensures ok { IfOk result (λ opened. OpensProgram text.items limit opened.program) }
    ensures path { IfOk result (λ opened. string_bytes opened.program.path ≡ path.now) }
    ensures nodes { IfOk result (λ opened. AreProgramNodes text.items opened.program.nodes.items) }
    ensures err { IfErr result (λ why. HoldsIfLaunchTextFault why (IsRefusedProgramText text.items)) }
{
    match contents_of(alloc, text, limit) {
        Ok(contents) => match program_of(alloc, path, contents) {
            Ok(opened) => Ok(opened),
            Err(_) => Err(LaunchError::Memory),
        },
        Err(LaunchError::SourceFault(why)) => Err(LaunchError::SourceFault(why)),
        Err(LaunchError::Memory) => Err(LaunchError::Memory),
    }
}

/// The program of a file that has this path.
fn program_of(alloc: Global, path: &str, contents: Contents) -> Result<OpenedProgram, AllocError>
    ensures lab { IfOk result (λ opened. opened.program.lab ≡ contents.lab) }
    ensures source { IfOk result (λ opened. opened.program.source ≡ contents.source) }
    ensures nodes { IfOk result (λ opened. opened.program.nodes ≡ contents.nodes) }
    ensures path { IfOk result (λ opened. string_bytes opened.program.path ≡ path.now) }
{
    let Contents {
        lab,
        source,
        nodes,
        warnings,
    } = contents;
    let program = Debuggee {
        lab,
        source,
        empty_debug_info: DebugInfo::no_debug_info(alloc),
        nodes,
        path: String::from_str(alloc, path)?,
        name: String::from_str(alloc, name_in(path))?,
    };
    Ok(OpenedProgram { program, warnings })
}

/// Whether a text is an image: its first line is that of a format. Otherwise it is source.
fn is_image(text: &[u8]) -> bool
    ensures { result ≡ begins_as_image text.now }
{
    text.starts_with(b"ga144".as_slice())
}

fn contents_of(alloc: Global, text: Vec<u8>, limit: u32) -> Result<Contents, LaunchError>
    ensures ok { IfOk result (λ c. OpensTextAsProgram text.items limit c.lab c.source) }
    ensures nodes { IfOk result (λ c. AreProgramNodes text.items c.nodes.items) }
    ensures err { IfErr result (λ why. HoldsIfLaunchTextFault why (IsRefusedProgramText text.items)) }
{
    if is_image(text.as_slice()) {
        return image_contents(alloc, text, limit);
    }
    accepted_contents(alloc, text.as_slice(), limit)
}

fn image_contents(alloc: Global, text: Vec<u8>, limit: u32) -> Result<Contents, LaunchError>
    ensures opens { IfOk result (λ c. OpensImage text.items limit c.lab) }
    ensures empty_debug_info { IfOk result (λ c. c.source ≡ None) }
    ensures nodes { IfOk result (λ c. c.nodes.items ≡ []) }
    ensures err { IfErr result (λ why. HoldsIfLaunchTextFault why ((fault : AnImageFault) × IsFirstImageFault (lines_of_text text.items) fault)) }
{
    match open_lab_from_image(alloc, text, limit) {
        Ok(lab) => Ok(Contents {
            lab,
            source: None,
            nodes: Vec::new(alloc),
            warnings: String::new(alloc),
        }),
        Err(fault) => Err(image_refused(alloc, fault)),
    }
}

/// The text about an image's fault.
fn image_refused(alloc: Global, fault: ImageFault) -> LaunchError
    ensures { HoldsIfLaunchTextFault result (fault.cause ≢ NoMemory) }
{
    if fault.cause == ImageFaultCause::Memory {
        return LaunchError::Memory;
    }
    let mut text = Vec::new(alloc);
    let _ = write_image_refusal(&mut text, fault);
    told(alloc, text.as_slice())
}

/// The text of a fault.
fn told(alloc: Global, text: &[u8]) -> LaunchError {
    match String::from_utf8_lossy(alloc, text.trim_ascii_end()) {
        Ok(text) => LaunchError::SourceFault(text),
        Err(_) => LaunchError::Memory,
    }
}

/// What a source is opened as, unless what it expects of its programs has a fault.
fn accepted_contents(alloc: Global, source: &[u8], limit: u32) -> Result<Contents, LaunchError>
    ensures ok { IfOk result (λ c. OpensSource source.now limit (explorer_state c.lab c.source)) }
    ensures nodes { IfOk result (λ c. AreNodesOfSource source.now c.nodes.items) }
    ensures err { IfErr result (λ why. HoldsIfLaunchTextFault why (IsRefusedSource source.now)) }
{
    match check_source_expectations(alloc, source) {
        Ok(()) => source_contents(alloc, source, limit),
        Err(ExpectationsError::Memory) => Err(LaunchError::Memory),
        Err(ExpectationsError::FaultyLines(faults)) => Err(faults_told(alloc, faults.as_slice())),
    }
}

/// The text of faults in what a source expects.
fn faults_told(alloc: Global, faults: &[ExpectationFault]) -> LaunchError {
    match format_expectation_faults(alloc, b"", faults) {
        Ok(text) => told(alloc, text.as_slice()),
        Err(_) => LaunchError::Memory,
    }
}

fn source_contents(alloc: Global, source: &[u8], limit: u32) -> Result<Contents, LaunchError>
    ensures ok { IfOk result (λ c. OpensSource source.now limit (explorer_state c.lab c.source)) }
    ensures nodes { IfOk result (λ c. AreNodesOfSource source.now c.nodes.items) }
    ensures err { IfErr result (λ why. HoldsIfLaunchTextFault why (IsPlainSource source.now → ⊥)) }
{
    match assemble_source_text(alloc, source) {
        Err(fault) => Err(source_refused(alloc, source, fault)),
        Ok(assembled) => {
            let programs = assembled.programs.as_slice();
            let warnings = warnings_of(alloc, programs)?;
            let nodes = nodes_of(alloc, programs)?;
            let notes = debug_info_of_source(alloc, source, programs)?;
            let lab = lab_of(alloc, assembled.chip, limit)?;
            Ok(Contents {
                lab,
                source: Some(notes),
                nodes,
                warnings,
            })
        }
    }
}

fn lab_of(alloc: Global, chip: Chip, limit: u32) -> Result<Lab, AllocError>
    ensures { IfOk result (λ lab. lab ≡ initial_state (records_of_chip chip) limit) }
{
    match Lab::new(alloc, chip, limit) {
        Ok(lab) => Ok(lab),
        Err(_) => Err(AllocError),
    }
}

/// The refusal of a source with this fault.
fn source_refused<'s>(alloc: Global, source: &'s [u8], fault: SourceFault<'s>) -> LaunchError
    ensures { HoldsIfLaunchTextFault result (fault.entry.cause ≢ Wanting) }
{
    if fault.cause == SourceFaultCause::Memory {
        return LaunchError::Memory;
    }
    match format_faults(alloc, b"", source, fault) {
        Ok(text) => told(alloc, text.as_slice()),
        Err(_) => LaunchError::Memory,
    }
}

/// The nodes that have a program.
fn nodes_of(alloc: Global, programs: &[NodeProgram<'_>]) -> Result<Vec<NodeId>, AllocError>
    ensures { IfOk result (λ nodes. nodes.items ≡ map (λ p. p.node) programs.now) }
{
    let mut nodes = Vec::new(alloc);
    'programs: for program in programs {
        nodes.push(program.node)?;
    }
    Ok(nodes)
}

/// A line for each store over code, as `ga144 asm` warns of it.
fn warnings_of(alloc: Global, programs: &[NodeProgram<'_>]) -> Result<String, AllocError> {
    let mut text = String::new(alloc);
    for program in programs {
        let stores = find_stores_over_code(alloc, program)?;
        for store in stores.as_slice() {
            push_warning(&mut text, *store)?;
        }
    }
    Ok(text)
}

fn push_warning(text: &mut String, store: StoreOverCode) -> Result<(), AllocError> {
    let StoreOverCode {
        line,
        address,
        code_line,
    } = store;
    write!(
        text,
        "line {line}: warning: this writes {address:03x}, which holds code of line {code_line}\n"
    )
}
