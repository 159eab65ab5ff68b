//! Commands, as lines spell them.

ghost use Rattle.std.specs.Prelude.{◌≡◌, false, IfSome, IfNone, option_map};
ghost use Rattle.ga_console.specs.Commands.{SpellsCommand};
ghost use Rattle.ga_text.specs.Parsing.{split_at_space, parse_node, parse_number};
ghost use Rattle.ga_console.specs.inner.Parsing.{parse_step_arguments, parse_rewind_arguments, parse_memory_arguments, parse_why_arguments, command_without_arguments, debugger_command_with_arguments, is_command_first_four_bytes};
ghost use Rattle.ga_console.specs.declared.command.DebuggerCommand.{DebuggerCommand};
ghost use Rattle.ga_console.specs.declared.command.DebuggerCommand.TheVariants.{Step, Node, Trace};

use super::fast_path::{node_ahead, word_of};
use ga_grid::NodeId;
use ga_text::{parse_hex_byte, parse_node, parse_number, split_at_space};

/// The value in a table for a name, if it is the text; otherwise nothing.
macro_rules! by_name {
    ($text:expr;) => { None };
    ($text:expr; $name:literal => $told:expr, $($rows:tt)*) => {
        if $text == $name.as_slice() { $told } else { by_name!($text; $($rows)*) }
    };
}

/// A command of a session. Steps are numbered from 1, but any number may be asked for.
#[derive(Clone, Copy, PartialEq, Eq)]
pub enum DebuggerCommand {
    /// `step NNN`: makes the node's next event.
    Step(NodeId),
    /// `back`: takes the newest event back.
    Back,
    /// `rewind NNN K`: takes a step of the node back, and all that depends on it.
    Rewind(NodeId, u32),
    /// `node NNN`: shows the node.
    Node(NodeId),
    /// `mem NNN HH`: shows the word at an address of the node's memory.
    Memory(NodeId, u8),
    /// `trace NNN`: shows the steps of the node.
    Trace(NodeId),
    /// `why NNN K MMM J`: shows the chain of causes from one step to another.
    Why {
        from: NodeId,
        from_step: u32,
        to: NodeId,
        to_step: u32,
    },
    /// `count`: shows how many events are kept and were made, and the limit.
    Count,
    /// `dump`: shows the chip as an image.
    Dump,
    /// `quit`: ends the session.
    Quit,
}

/// `node`, and `mem` with a space, as `word_of` reads them.
const NODE: u64 = 0x6564_6f6e;

const MEMORY: u64 = 0x206d_656d;

/// The command that a line spells, or none.
#[inline(always)]
pub fn parse_debugger_command(line: &[u8]) -> Option<DebuggerCommand>
    ensures some { IfSome result (λ command. SpellsCommand command line.now) }
    ensures only { IfSome result (λ command. (other : DebuggerCommand) → SpellsCommand other line.now → other ≡ command) }
    ensures none { IfNone result ((command : DebuggerCommand) → ¬ SpellsCommand command line.now) }
{
    if has_head(line) { told_by(line) } else { None }
}

/// Whether a line begins with the first four bytes of a command.
#[inline(always)]
#[tactic(auto, using(crate::proofs::Heads::spelled_head))]
fn has_head(line: &[u8]) -> bool
    ensures { result ≡ false → (command : DebuggerCommand) → ¬ SpellsCommand command line.now }
{
    if line.len() < 4 {
        return false;
    }
    is_command_first_four_bytes(word_of(line[0], line[1], line[2], line[3]))
}

/// Whether four bytes in one number are the first of a command.
#[inline(always)]
fn is_command_first_four_bytes(word: u64) -> bool
    ensures { result ≡ is_command_first_four_bytes word }
{
    word == 0x7065_7473
        || word == 0x6b63_6162
        || word == 0x6977_6572
        || word == 0x6564_6f6e
        || word == 0x206d_656d
        || word == 0x6361_7274
        || word == 0x2079_6877
        || word == 0x6e75_6f63
        || word == 0x706d_7564
        || word == 0x7469_7571
}

/// The command of a line, whatever it begins with. A `node` or a `mem` is recognized without searching for its words.
#[tactic(auto, using(crate::proofs::Spelled::told_only, crate::proofs::Spelled::spelled_read))]
fn told_by(line: &[u8]) -> Option<DebuggerCommand>
    ensures some { IfSome result (λ command. SpellsCommand command line.now) }
    ensures only { IfSome result (λ command. (other : DebuggerCommand) → SpellsCommand other line.now → other ≡ command) }
    ensures none { IfNone result ((command : DebuggerCommand) → ¬ SpellsCommand command line.now) }
{
    match shown_by(line) {
        Some(command) => Some(command),
        None => spelled_by(line),
    }
}

/// The `node` or `mem` that a line spells.
#[inline(always)]
fn shown_by(line: &[u8]) -> Option<DebuggerCommand>
    ensures { IfSome result (λ command. SpellsCommand command line.now) }
{
    match node_shown(line) {
        Some(node) => Some(DebuggerCommand::Node(node)),
        None => memory_shown(line),
    }
}

/// The node that a line shows.
#[inline(always)]
#[tactic(auto, using(crate::proofs::AheadLemmas::same_bytes, crate::proofs::AheadLemmas::node_line))]
fn node_shown(line: &[u8]) -> Option<NodeId>
    ensures { IfSome result (λ node. SpellsCommand (Node node) line.now) }
{
    let [n, o, d, e, b' ', row, tens, ones] = line else {
        return None;
    };
    if word_of(*n, *o, *d, *e) != NODE {
        return None;
    }
    let node = node_ahead(*row, *tens, *ones, b'\n')?;
    Some(node)
}

/// The `mem` that a line spells.
#[inline(always)]
#[tactic(auto, using(crate::proofs::AheadLemmas::same_bytes, crate::proofs::AheadLemmas::memory_line))]
fn memory_shown(line: &[u8]) -> Option<DebuggerCommand>
    ensures { IfSome result (λ command. SpellsCommand command line.now) }
{
    let [m, e, s, space, row, tens, ones, b' ', high, low] = line else {
        return None;
    };
    if word_of(*m, *e, *s, *space) != MEMORY {
        return None;
    }
    let node = node_ahead(*row, *tens, *ones, b'\n')?;
    let address = parse_hex_byte(&[*high, *low])?;
    Some(DebuggerCommand::Memory(node, address))
}

/// The command that a line spells, by the words of the line.
fn spelled_by(line: &[u8]) -> Option<DebuggerCommand>
    ensures some { IfSome result (λ command. SpellsCommand command line.now) }
    ensures only { IfSome result (λ command. (other : DebuggerCommand) → SpellsCommand other line.now → other ≡ command) }
    ensures none { IfNone result ((command : DebuggerCommand) → ¬ SpellsCommand command line.now) }
{
    match split_at_space(line) {
        Some((name, arguments)) => debugger_command_with_arguments(name, arguments),
        None => alone(line),
    }
}

/// The command that is spelled by one word.
#[tactic(auto, unfolding(crate::specs::inner::Parsing::command_without_arguments))]
fn alone(name: &[u8]) -> Option<DebuggerCommand>
    ensures { result ≡ command_without_arguments name.now }
{
    match name {
        b"back" => Some(DebuggerCommand::Back),
        b"count" => Some(DebuggerCommand::Count),
        b"dump" => Some(DebuggerCommand::Dump),
        b"quit" => Some(DebuggerCommand::Quit),
        _ => None,
    }
}

/// The command of a word and what follows the space after it.
#[tactic(auto, unfolding(crate::specs::inner::Parsing::debugger_command_with_arguments))]
fn debugger_command_with_arguments(name: &[u8], arguments: &[u8]) -> Option<DebuggerCommand>
    ensures { result ≡ debugger_command_with_arguments name.now arguments.now }
{
    by_name!(name;
        b"step" => step_command(arguments),
        b"rewind" => rewind_of(arguments),
        b"node" => node_command(arguments),
        b"mem" => memory_of(arguments),
        b"trace" => trace_command(arguments),
        b"why" => why_of(arguments),
    )
}

fn step_command(arguments: &[u8]) -> Option<DebuggerCommand>
    ensures { result ≡ option_map Step (parse_node arguments.now) }
{
    Some(DebuggerCommand::Step(parse_node(arguments)?))
}

fn node_command(arguments: &[u8]) -> Option<DebuggerCommand>
    ensures { result ≡ option_map Node (parse_node arguments.now) }
{
    Some(DebuggerCommand::Node(parse_node(arguments)?))
}

fn trace_command(arguments: &[u8]) -> Option<DebuggerCommand>
    ensures { result ≡ option_map Trace (parse_node arguments.now) }
{
    Some(DebuggerCommand::Trace(parse_node(arguments)?))
}

#[tactic(auto, unfolding(crate::specs::inner::Parsing::parse_rewind_arguments))]
fn rewind_of(arguments: &[u8]) -> Option<DebuggerCommand>
    ensures { result ≡ parse_rewind_arguments arguments.now }
{
    let (node, step) = step_of(arguments)?;
    Some(DebuggerCommand::Rewind(node, step))
}

#[tactic(auto, unfolding(crate::specs::inner::Parsing::parse_memory_arguments))]
fn memory_of(arguments: &[u8]) -> Option<DebuggerCommand>
    ensures { result ≡ parse_memory_arguments arguments.now }
{
    let (node, address) = split_at_space(arguments)?;
    Some(DebuggerCommand::Memory(parse_node(node)?, parse_hex_byte(address)?))
}

#[tactic(auto, unfolding(crate::specs::inner::Parsing::parse_why_arguments))]
fn why_of(arguments: &[u8]) -> Option<DebuggerCommand>
    ensures { result ≡ parse_why_arguments arguments.now }
{
    let (from, rest) = split_at_space(arguments)?;
    let (from_step, rest) = split_at_space(rest)?;
    let from = parse_node(from)?;
    let from_step = parse_number(from_step)?;
    let (to, to_step) = step_of(rest)?;
    Some(DebuggerCommand::Why {
        from,
        from_step,
        to,
        to_step,
    })
}

/// A node and the number of a step.
#[tactic(auto, unfolding(crate::specs::inner::Parsing::parse_step_arguments))]
fn step_of(text: &[u8]) -> Option<(NodeId, u32)>
    ensures { result ≡ parse_step_arguments text.now }
{
    let (node, step) = split_at_space(text)?;
    Some((parse_node(node)?, parse_number(step)?))
}
