//! A line that was read whole, recognized in place.
ghost use Rattle.std.specs.Prelude.{◌≡◌, ◌+◌, ◌*◌, [], ◌∷◌, ◌++◌, IfSome, codes, take};
ghost use Rattle.ga_text.specs.Digits.{name_of_node};
ghost use Rattle.ga_console.specs.inner.Run.{IsCommandAhead, IsLineAhead, IsNumberAhead, HasCommandAtTextStart};

use super::command::{DebuggerCommand, parse_debugger_command};
use ga_grid::NodeId;
use ga_image::MAX_IMAGE_LINE_BYTES;
use ga_text::{MAX_NUMBER_DIGITS, find_line_feed, node_name_and_space, parse_number};

/// The bytes of a line `step NNN`.
const STEP_LINE: usize = b"step NNN".len();

/// The bytes of a line `back`.
const BACK_LINE: usize = b"back".len();

/// The bytes of a line `count`.
const COUNT_LINE: usize = b"count".len();

/// The bytes of a line `rewind NNN K` before its number.
const REWIND_HEAD: usize = b"rewind NNN ".len();

/// `step`, as `word_of` reads it.
const STEP: u64 = 0x7065_7473;

/// `ewin` and `ount`, as `word_of` reads them.
const EWIN: u64 = 0x6e69_7765;

const OUNT: u64 = 0x746e_756f;

/// What a space has more than a line feed, as the fourth byte.
const SPACE_FOR_FEED: u64 = 0x1600_0000;

/// What leaves the values of three digits, and nothing of a line feed after them, in the lower 32 bits.
const NO_DIGITS: u64 = 0x1_0000_0000 - 0x0a30_3030;

/// What gathers 18 rows, ten tens and the ones in the fourth byte.
const WEIGHTS: u64 = 0x120a_0101;

/// Four bytes in one number, which is compared at once.
#[inline(always)]
pub(crate) fn word_of(first: u8, second: u8, third: u8, fourth: u8) -> u64
    ensures { result ≡ first + 256 * second + 65536 * third + 16777216 * fourth }
{
    u64::from(first)
        + 0x100 * u64::from(second)
        + 0x1_0000 * u64::from(third)
        + 0x100_0000 * u64::from(fourth)
}

/// The node whose name and a line feed these bytes are. The weighted digits guess it, and its name decides.
#[inline(always)]
#[tactic(auto, using(crate::proofs::AheadLemmas::guess_is_node, crate::proofs::AheadLemmas::name_same))]
pub(crate) fn node_ahead(row: u8, tens: u8, ones: u8, feed: u8) -> Option<NodeId>
    ensures { IfSome result (λ node. (name_of_node node ++ codes "\n") ≡ (row ∷ tens ∷ ones ∷ feed ∷ [])) }
{
    let word = word_of(row, tens, ones, feed);
    let guess = ((word + NO_DIGITS) * WEIGHTS / 0x100_0000 % 0x100) as u8;
    let [first, second, third, space] = node_name_and_space(guess);
    if word_of(first, second, third, space) == word + SPACE_FOR_FEED {
        Some(NodeId::new(guess))
    } else {
        None
    }
}

/// What a text begins with.
#[derive(Clone, Copy)]
pub enum CommandAtTextStart {
    /// A line that spells a command, and how many bytes it has before its line feed. The command isn't `quit`.
    SpelledCommand(DebuggerCommand, usize),
    /// Another line that isn't too long.
    OtherWholeLine(usize),
    /// No whole line, or one that is too long.
    NoWholeLine,
}

/// The number that a text begins with, if a line feed follows it, and how many digits it has.
#[inline(always)]
fn number_ahead(text: &[u8]) -> Option<(u32, usize)>
    ensures { IfSome result (λ found. IsNumberAhead text.now found.0 found.1) }
{
    let digits = find_line_feed(text)?;
    if digits > MAX_NUMBER_DIGITS {
        return None;
    }
    let number = parse_number(&text[..digits])?;
    Some((number, digits))
}

/// The `rewind` that the line in front of a text spells, and how many bytes the line has.
#[inline(always)]
fn rewind_ahead(text: &[u8]) -> Option<(DebuggerCommand, usize)>
    requires { take 6 text.now ≡ codes "rewind" }
    ensures { IfSome result (λ told. IsCommandAhead text.now told.0 told.1) }
{
    let [_, _, _, _, _, _, b' ', row, tens, ones, b' ', ..] = text else {
        return None;
    };
    let node = node_ahead(*row, *tens, *ones, b'\n')?;
    let (step, digits) = number_ahead(&text[REWIND_HEAD..])?;
    Some((DebuggerCommand::Rewind(node, step), REWIND_HEAD + digits))
}

/// The `rewind` or `count` that the line in front of a text spells, and how many bytes it has. The second byte to the fifth distinguish the two.
#[inline(always)]
#[tactic(auto, using(crate::proofs::AheadLemmas::count_front, crate::proofs::AheadLemmas::six_are))]
fn soon_ahead(text: &[u8]) -> Option<(DebuggerCommand, usize)>
    ensures { IfSome result (λ told. IsCommandAhead text.now told.0 told.1) }
{
    let [first, second, third, fourth, fifth, sixth, ..] = text else {
        return None;
    };
    let word = word_of(*second, *third, *fourth, *fifth);
    if word == EWIN && *first == b'r' && *sixth == b'd' {
        return rewind_ahead(text);
    }
    if word == OUNT && *first == b'c' && *sixth == b'\n' {
        return Some((DebuggerCommand::Count, COUNT_LINE));
    }
    None
}

/// What a text begins with. `step`, `back`, `count` and `rewind` are recognized before the line feed is searched.
#[inline(always)]
#[tactic(auto, using(crate::proofs::AheadLemmas::same_bytes, crate::proofs::AheadLemmas::step_front))]
pub fn parse_command_at_text_start(text: &[u8]) -> CommandAtTextStart
    ensures { HasCommandAtTextStart text.now result }
{
    if let [s, t, e, p, b' ', row, tens, ones, feed, ..] = text {
        if word_of(*s, *t, *e, *p) == STEP {
            if let Some(node) = node_ahead(*row, *tens, *ones, *feed) {
                return CommandAtTextStart::SpelledCommand(DebuggerCommand::Step(node), STEP_LINE);
            }
        }
    }
    other_ahead(text)
}

/// What a text begins with that doesn't begin with a `step` of a node.
#[inline(always)]
fn other_ahead(text: &[u8]) -> CommandAtTextStart
    ensures { HasCommandAtTextStart text.now result }
{
    match text {
        [b'b', b'a', b'c', b'k', b'\n', ..] => CommandAtTextStart::SpelledCommand(
            DebuggerCommand::Back,
            BACK_LINE,
        ),
        _ => match soon_ahead(text) {
            Some(told) => CommandAtTextStart::SpelledCommand(told.0, told.1),
            None => line_ahead(text),
        },
    }
}

/// What a text begins with, by searching the line feed.
#[inline(always)]
fn line_ahead(text: &[u8]) -> CommandAtTextStart
    ensures { HasCommandAtTextStart text.now result }
{
    match find_line_feed(text) {
        None => CommandAtTextStart::NoWholeLine,
        Some(count) => {
            if count > MAX_IMAGE_LINE_BYTES {
                CommandAtTextStart::NoWholeLine
            } else {
                told_ahead(text, count)
            }
        }
    }
}

/// What a text begins with, if the line has `count` bytes.
#[inline(always)]
#[tactic(auto, using(crate::proofs::AheadLemmas::line_front))]
fn told_ahead(text: &[u8], count: usize) -> CommandAtTextStart
    requires { IsLineAhead text.now count }
    ensures { HasCommandAtTextStart text.now result }
{
    match parse_debugger_command(&text[..count]) {
        None => CommandAtTextStart::OtherWholeLine(count),
        Some(command) => match command {
            DebuggerCommand::Quit => CommandAtTextStart::OtherWholeLine(count),
            _ => CommandAtTextStart::SpelledCommand(command, count),
        },
    }
}
