//! A program that was launched.

ghost use Rattle.std.specs.Prelude.{◌≡◌, string_bytes};
ghost use Rattle.ga_dap_queries.specs.Disassembling.{program_debug_info};

use ga_dap_views::SourceFile;
use ga_debug_info::DebugInfo;
use ga_grid::NodeId;
use ga_lab::Lab;

/// A program that was launched: its chip with the events that are kept, and what its source says.
#[derive(Drop)]
pub struct Debuggee {
    /// The machine.
    pub lab: Lab,
    /// What the source says of the cells; nothing of an image.
    pub source: Option<DebugInfo>,
    /// The debug info if there is no source: empty.
    pub empty_debug_info: DebugInfo,
    /// The nodes that have a program in the source.
    pub nodes: Vec<NodeId>,
    /// The path of the file.
    pub path: String,
    /// The part of the path after its last slash.
    pub name: String,
}

impl Debuggee {
    ghost use Rattle.std.specs.Prelude.{◌≡◌, string_bytes};
    ghost use Rattle.ga_dap_queries.specs.Disassembling.{program_debug_info};

    /// What the source says of the cells.
    pub fn source_debug_info(&self) -> &DebugInfo
        ensures { result.now ≡ program_debug_info self.now }
    {
        match &self.source {
            Some(notes) => notes,
            None => &self.empty_debug_info,
        }
    }

    /// The file of the source.
    pub fn file(&self) -> SourceFile<'_>
        ensures name { result.name.now ≡ string_bytes self.now.name }
        ensures path { result.path.now ≡ string_bytes self.now.path }
    {
        SourceFile {
            name: self.name.as_str(),
            path: self.path.as_str(),
        }
    }
}
