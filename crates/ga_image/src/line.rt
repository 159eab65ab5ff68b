//! The forms of a line.

ghost use Rattle.std.specs.Prelude.{◌≡◌, ◌≤◌, [], ◌∷◌};
ghost use Rattle.ga_image.specs.Spelling.{Words, parse_row_words, word_line_form, cells_line_form, stack_line_form, digit_line_form, side_set_wait_form, side_write_wait_form, node_wait_line_form, node_line_form, stack_memory_or_node_form, state_line_form, line_form};
ghost use Rattle.std.specs.Option.{option_map};
ghost use Rattle.ga_image.specs.inner.{form_of_parsed_line, field_of_bank};

use super::field::{Bank, Field};
use arrayvec::ArrayVec;
use ga_grid::parse_decimal_name;
use ga_ports::parse_side_set;
use ga_text::parse_hex_byte;
use ga_word::Word18;

/// A line after the header.
#[derive(Drop)]
pub(crate) enum Line {
    /// The block of the node with this row and column begins.
    Node(u32),
    /// Words for a field and for those after it.
    Words(Field, ArrayVec<u32, 16>),
    End,
}

/// Reads 1 to 16 numbers of six digits, each after one space.
fn read_words(text: &[u8]) -> Option<ArrayVec<u32, 16>>
    ensures { option_map (λ found. found.items) result ≡ parse_row_words text.now }
{
    let mut words = ArrayVec::new();
    let mut rest = text;
    while !rest.is_empty() {
        if rest.len() < 7 || words.is_full() {
            return None;
        }
        let (first, after) = rest.split_at(7);
        let digits = first.strip_prefix(b" ")?;
        words.push(Word18::parse_six_hex_digits(digits)?);
        rest = after;
    }
    if words.is_empty() { None } else { Some(words) }
}

#[tactic(auto, unfolding(crate::specs::Spelling::word_line_form))]
fn word_line(field: Field, text: &[u8]) -> Option<Line>
    ensures { option_map form_of_parsed_line result ≡ word_line_form field text.now }
{
    let mut words = ArrayVec::new();
    words.push(Word18::parse_six_hex_digits(text)?);
    Some(Line::Words(field, words))
}

#[tactic(auto, unfolding(crate::specs::Spelling::cells_line_form))]
fn cells_line(bank: Bank, text: &[u8]) -> Option<Line>
    ensures { option_map form_of_parsed_line result ≡ cells_line_form (field_of_bank bank) text.now }
{
    if text.len() < 2 {
        return None;
    }
    let (digits, rest) = text.split_at(2);
    let cell = parse_hex_byte(digits)?;
    let words = read_words(rest)?;
    Some(Line::Words(bank.field(cell), words))
}

#[tactic(auto, unfolding(crate::specs::Spelling::stack_line_form))]
fn stack_line(field: Field, count: usize, text: &[u8]) -> Option<Line>
    ensures { option_map form_of_parsed_line result ≡ stack_line_form field count text.now }
{
    let words = read_words(text)?;
    if words.len() == count {
        Some(Line::Words(field, words))
    } else {
        None
    }
}

fn one_word(field: Field, word: u32) -> Line
    ensures { form_of_parsed_line result ≡ Words field (word ∷ []) }
{
    let mut words = ArrayVec::new();
    words.push(word);
    Line::Words(field, words)
}

#[tactic(auto, unfolding(crate::specs::Spelling::digit_line_form))]
fn digit_line(field: Field, least: u8, most: u8, text: &[u8]) -> Option<Line>
    requires least { least ≤ 9 }
    requires most { most ≤ 9 }
    ensures { option_map form_of_parsed_line result ≡ digit_line_form field least most text.now }
{
    match text {
        [digit] => {
            if b'0' + least <= *digit && *digit <= b'0' + most {
                Some(one_word(field, u32::from(*digit - b'0')))
            } else {
                None
            }
        }
        _ => None,
    }
}

#[tactic(auto, unfolding(crate::specs::Spelling::side_set_wait_form))]
fn set_line(kind: u32, text: &[u8]) -> Option<Line>
    requires { kind ≤ 48 }
    ensures { option_map form_of_parsed_line result ≡ side_set_wait_form kind text.now }
{
    let sides = parse_side_set(text)?;
    if sides == 0 {
        None
    } else {
        Some(one_word(Field::Wait, kind + sides))
    }
}

#[tactic(auto, unfolding(crate::specs::Spelling::side_write_wait_form))]
fn side_line(text: &[u8]) -> Option<Line>
    ensures { option_map form_of_parsed_line result ≡ side_write_wait_form text.now }
{
    let sides = parse_side_set(text)?;
    if sides == 8 || sides == 4 || sides == 2 || sides == 1 {
        Some(one_word(Field::Wait, 48 + sides))
    } else {
        None
    }
}

#[tactic(auto, unfolding(crate::specs::Spelling::node_wait_line_form))]
fn wait_line(text: &[u8]) -> Option<Line>
    ensures { option_map form_of_parsed_line result ≡ node_wait_line_form text.now }
{
    if let Some(rest) = text.strip_prefix(b"fetch ") {
        set_line(16, rest)
    } else if let Some(rest) = text.strip_prefix(b"read ") {
        set_line(32, rest)
    } else if let Some(rest) = text.strip_prefix(b"write ") {
        side_line(rest)
    } else {
        None
    }
}

#[tactic(auto, unfolding(crate::specs::Spelling::node_line_form))]
fn node_line(text: &[u8]) -> Option<Line>
    ensures { option_map form_of_parsed_line result ≡ node_line_form text.now }
{
    Some(Line::Node(parse_decimal_name(text)?))
}

#[tactic(auto, unfolding(crate::specs::Spelling::stack_memory_or_node_form))]
fn wide_line(text: &[u8]) -> Option<Line>
    ensures { option_map form_of_parsed_line result ≡ stack_memory_or_node_form text.now }
{
    if let Some(rest) = text.strip_prefix(b"d") {
        stack_line(Field::Data(0), 10, rest)
    } else if let Some(rest) = text.strip_prefix(b"ram ") {
        cells_line(Bank::Ram, rest)
    } else if let Some(rest) = text.strip_prefix(b"rom ") {
        cells_line(Bank::Rom, rest)
    } else if let Some(rest) = text.strip_prefix(b"r") {
        stack_line(Field::Return(0), 9, rest)
    } else if let Some(rest) = text.strip_prefix(b"node ") {
        node_line(rest)
    } else if text == b"end".as_slice() {
        Some(Line::End)
    } else {
        None
    }
}

#[tactic(auto, unfolding(crate::specs::Spelling::state_line_form))]
fn state_line(text: &[u8]) -> Option<Line>
    ensures { option_map form_of_parsed_line result ≡ state_line_form text.now }
{
    if let Some(rest) = text.strip_prefix(b"carry ") {
        digit_line(Field::Carry, 0, 1, rest)
    } else if let Some(rest) = text.strip_prefix(b"slot ") {
        digit_line(Field::Slot, 0, 4, rest)
    } else if let Some(rest) = text.strip_prefix(b"wait ") {
        wait_line(rest)
    } else if let Some(rest) = text.strip_prefix(b"stop ") {
        digit_line(Field::Stop, 1, 3, rest)
    } else {
        wide_line(text)
    }
}

impl Line {
    /// Reads a line, if it has one of the forms.
    #[tactic(auto, unfolding(crate::specs::Spelling::line_form))]
    pub(crate) fn parse(text: &[u8]) -> Option<Line>
        ensures { option_map form_of_parsed_line result ≡ line_form text.now }
    {
        if let Some(rest) = text.strip_prefix(b"a ") {
            word_line(Field::A, rest)
        } else if let Some(rest) = text.strip_prefix(b"b ") {
            word_line(Field::B, rest)
        } else if let Some(rest) = text.strip_prefix(b"p ") {
            word_line(Field::P, rest)
        } else if let Some(rest) = text.strip_prefix(b"i ") {
            word_line(Field::I, rest)
        } else if let Some(rest) = text.strip_prefix(b"io ") {
            word_line(Field::Io, rest)
        } else {
            state_line(text)
        }
    }
}
