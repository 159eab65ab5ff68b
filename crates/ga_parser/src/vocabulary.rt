//! The words that stand for themselves.

ghost use Rattle.std.specs.Prelude.{◌≡◌, ◌||◌, is_some, codes, bytes_eq};
ghost use Rattle.ga_parser.specs.Vocabulary.{find_in_table, loop_closing_words, opcodes_by_alias, opcodes_by_name, opcode_without_address, opcode_of_word, control_of_word, directive_of_word, register_bound, register_range, spells_number as is_number_in, is_syntax_word as is_sign_word, is_reserved_word as is_taken_word};

use super::fault::NumberRange;
use super::number::{Number, number_of};
use ga_slots::Op;

/// The value in a table for a name, if it is the text; otherwise the last argument, or nothing.
macro_rules! find_in_table {
    ($text:expr;) => { None };
    ($text:expr; else $other:expr) => { $other };
    ($text:expr; $name:literal => $meaning:expr, $($rows:tt)*) => {
        if $text == $name.as_slice() { Some($meaning) } else { find_in_table!($text; $($rows)*) }
    };
}

/// A word that begins or ends a control structure.
#[derive(Clone, Copy, PartialEq, Eq)]
pub(crate) enum Control {
    Begin,
    For,
    Again,
    Until(Op),
    Next,
    /// `*next`.
    NextAround,
    Unext,
    While(Op),
    Repeat,
    If(Op),
    Else,
    Then,
}

/// The opcode of a name that it has beside its own.
fn other_name(text: &[u8]) -> Option<Op>
    ensures { result ≡ find_in_table opcodes_by_alias text.now }
{
    find_in_table!(text;
        b"-" => Op::Invert,
        b"inv" => Op::Invert,
        b"xor" => Op::Or,
        b"nop" => Op::Nop,
    )
}

/// The opcode of its own name.
fn own_name(text: &[u8]) -> Option<Op>
    ensures { result ≡ find_in_table opcodes_by_name text.now }
{
    for code in 0..32u8 {
        let op = Op::from_code(code);
        if text == op.name().as_bytes() {
            return Some(op);
        }
    }
    None
}

/// The opcode, if no address follows it.
fn opcode_without_address(op: Op) -> Option<Op>
    ensures { result ≡ opcode_without_address op }
{
    match op {
        Op::Jump | Op::Call | Op::Unext | Op::Next | Op::If | Op::MinusIf => None,
        _ => Some(op),
    }
}

/// The opcode of a name, where the word is an opcode without an address.
#[tactic(auto, unfolding(crate::specs::Vocabulary::opcode_of_word))]
pub(crate) fn parse_opcode(text: &[u8]) -> Option<Op>
    ensures { result ≡ opcode_of_word text.now }
{
    match other_name(text) {
        Some(op) => opcode_without_address(op),
        None => match own_name(text) {
            Some(op) => opcode_without_address(op),
            None => None,
        },
    }
}

/// Whether a word has a meaning of its own, so that no label has this name: an opcode, a control word, a number, a port, or a
/// word that comes before or after a name or a value.
#[tactic(auto, unfolding(crate::specs::Vocabulary::is_reserved_word))]
pub(crate) fn is_reserved_word(text: &[u8]) -> bool
    ensures { result ≡ is_taken_word text.now }
{
    is_opcode(text)
        || control_named(text).is_some()
        || is_number(number_of(text))
        || parse_directive(text).is_some()
        || is_syntax_word(text)
}

/// Whether what a word says is a number, in range or not.
pub(crate) fn is_number(number: Number) -> bool
    ensures { result ≡ is_number_in number }
{
    match number {
        Number::Of(_) | Number::OutOfRange => true,
        Number::Nothing => false,
    }
}

/// Whether the word begins a node or an expectation, defines a constant, ends a cell of data, begins a comment, or has an apostrophe in
/// front.
fn is_syntax_word(text: &[u8]) -> bool
    ensures { result ≡ is_sign_word text.now }
{
    text == b"node".as_slice()
        || text == b"expect".as_slice()
        || text == b"constant".as_slice()
        || text == b",".as_slice()
        || text == b"\\".as_slice()
        || text == b"(".as_slice()
        || text.starts_with(b"'")
}

/// Whether the word is an opcode, with an address or without.
fn is_opcode(text: &[u8]) -> bool
    ensures { result ≡ (is_some (opcode_of_word text.now) || bytes_eq text.now (codes "jump") || bytes_eq text.now (codes "call")) }
{
    parse_opcode(text).is_some() || text == b"jump".as_slice() || text == b"call".as_slice()
}

/// A word that asks for no opcode itself.
#[derive(Clone, Copy, PartialEq, Eq)]
pub enum Directive {
    /// `:`
    Label,
    /// `org`
    Address,
    /// `/p`, `/a`, `/b`
    Register(Register),
    /// `..`
    BeginNewCell,
    /// `+cy`, `-cy`
    Carry(bool),
}

/// A register that a program may give.
#[derive(Clone, Copy, PartialEq, Eq)]
pub enum Register {
    P,
    A,
    B,
}

impl Register {
    /// The register's values are below this.
    pub fn bound(self) -> u32
        ensures { result ≡ register_bound self }
    {
        match self {
            Register::P => 0x400,
            Register::A => 0x4_0000,
            Register::B => 0x200,
        }
    }

    /// The register's values.
    pub fn range(self) -> NumberRange
        ensures { result ≡ register_range self }
    {
        match self {
            Register::P => NumberRange::P,
            Register::A => NumberRange::Word,
            Register::B => NumberRange::B,
        }
    }
}

/// The directive of a name.
#[tactic(auto, unfolding(crate::specs::Vocabulary::directive_of_word))]
pub fn parse_directive(text: &[u8]) -> Option<Directive>
    ensures { result ≡ directive_of_word text.now }
{
    find_in_table!(text;
        b":" => Directive::Label,
        b"org" => Directive::Address,
        b"/p" => Directive::Register(Register::P),
        b"/a" => Directive::Register(Register::A),
        b"/b" => Directive::Register(Register::B),
        b".." => Directive::BeginNewCell,
        b"+cy" => Directive::Carry(true),
        b"-cy" => Directive::Carry(false),
    )
}

/// The control word of a name.
#[tactic(auto, unfolding(crate::specs::Vocabulary::control_of_word))]
pub(crate) fn control_named(text: &[u8]) -> Option<Control>
    ensures { result ≡ control_of_word text.now }
{
    find_in_table!(text;
        b"begin" => Control::Begin,
        b"for" => Control::For,
        b"if" => Control::If(Op::If),
        b"-if" => Control::If(Op::MinusIf),
        b"ahead" => Control::If(Op::Jump),
        b"else" => Control::Else,
        b"then" => Control::Then,
        else closing_named(text)
    )
}

fn closing_named(text: &[u8]) -> Option<Control>
    ensures { result ≡ find_in_table loop_closing_words text.now }
{
    find_in_table!(text;
        b"again" => Control::Again,
        b"until" => Control::Until(Op::If),
        b"-until" => Control::Until(Op::MinusIf),
        b"next" => Control::Next,
        b"*next" => Control::NextAround,
        b"unext" => Control::Unext,
        b"while" => Control::While(Op::If),
        b"-while" => Control::While(Op::MinusIf),
        b"repeat" => Control::Repeat,
    )
}
