//! The text of a line as it is put together, in a buffer of fixed size.
ghost use Rattle.std.specs.Prelude.{◌≡◌, ◌+◌, ◌%◌, ◌≤◌, ◌<◌, [], ◌∷◌, ◌++◌, length, codes, decimal};
ghost use Rattle.ga_grid.specs.declared.node_id.NodeId.{NodeId};
ghost use Rattle.arrayvec.specs.ArrayVec.{array_vec_len};
ghost use Rattle.ga_word.specs.Word.{hex_digits_of_word};
ghost use Rattle.ga_text.specs.Digits.{three_decimal_digits, two_hex_digits_text, name_of_node, step_text};
ghost use Rattle.ga_text.specs.inner.{two_digits, four_decimal_digits};

use arrayvec::ArrayVec;
use ga_grid::NodeId;
use ga_word::Word18;
use itoa::write_digits;

/// The most bytes of an answer's line, its line feed included.
pub const MAX_LINE_BYTES: usize = 256;

/// The most digits of a number.
pub const MAX_NUMBER_DIGITS: usize = b"18446744073709551615".len();

/// The digits of a node's name, of a word and of a byte.
pub const NODE_NAME_BYTES: usize = b"717".len();

pub const WORD_DIGITS: usize = b"03ffff".len();

pub const BYTE_DIGITS: usize = b"ff".len();

/// The most bytes of a step: the name of its node, a space and its number.
pub const MAX_STEP_BYTES: usize = NODE_NAME_BYTES + 1 + MAX_NUMBER_DIGITS;

/// The text of a line.
pub type TextBuffer = ArrayVec<u8, MAX_LINE_BYTES>;

/// Adds a text.
#[inline]
pub fn push_text<const ROOM: usize>(out: &mut ArrayVec<u8, ROOM>, text: &[u8])
    requires { array_vec_len out.old + length text.now ≤ ROOM }
    ensures text { out.new.items ≡ out.old.items ++ text.now }
    ensures len { array_vec_len out.new ≡ array_vec_len out.old + length text.now }
{
    let _fits = out.try_extend_from_slice(text);
}

/// Adds a number in decimal digits.
#[inline(always)]
pub fn push_number<const ROOM: usize>(out: &mut ArrayVec<u8, ROOM>, number: u64)
    requires { array_vec_len out.old + MAX_NUMBER_DIGITS ≤ ROOM }
    ensures text { out.new.items ≡ out.old.items ++ decimal number }
    ensures len { array_vec_len out.new ≤ array_vec_len out.old + MAX_NUMBER_DIGITS }
{
    if number < 100000000 {
        push_up_to_eight_digits(out, number);
    } else {
        push_long(out, number);
    }
}

/// Adds a number of any length in decimal digits.
#[tactic(auto, using(crate::proofs::DigitLemmas::short_decimal))]
fn push_long<const ROOM: usize>(out: &mut ArrayVec<u8, ROOM>, number: u64)
    requires { array_vec_len out.old + MAX_NUMBER_DIGITS ≤ ROOM }
    ensures text { out.new.items ≡ out.old.items ++ decimal number }
    ensures len { array_vec_len out.new ≤ array_vec_len out.old + MAX_NUMBER_DIGITS }
{
    let mut digits = [0; MAX_NUMBER_DIGITS];
    let start = write_digits(number, &mut digits, MAX_NUMBER_DIGITS);
    push_text(out, &digits[start..]);
}

/// Adds a number of at most eight decimal digits, in pieces of fixed size.
#[inline(always)]
pub fn push_up_to_eight_digits<const ROOM: usize>(out: &mut ArrayVec<u8, ROOM>, number: u64)
    requires small { number < 100000000 }
    requires room { array_vec_len out.old + length (decimal number) ≤ ROOM }
    ensures text { out.new.items ≡ out.old.items ++ decimal number }
{
    if number < 10000 {
        push_front(out, number as u32);
    } else {
        push_front(out, (number / 10000) as u32);
        push_text(out, &four_of((number % 10000) as u32));
    }
}

/// The last four digits of a number, with zeros in front.
#[inline(always)]
fn four_of(number: u32) -> [u8; 4]
    requires { number < 10000 }
    ensures { result ≡ four_decimal_digits number }
{
    let [thousands, hundreds] = two_of(number / 100);
    let [tens, ones] = two_of(number % 100);
    [thousands, hundreds, tens, ones]
}

/// Two decimal digits of a number.
#[inline(always)]
#[tactic(auto, using(crate::proofs::DigitLemmas::decimal_pair))]
fn two_of(number: u32) -> [u8; 2]
    requires { number < 100 }
    ensures { result ≡ two_digits number }
{
    let at = 2 * number as usize;
    [DECIMAL[at], DECIMAL[at + 1]]
}

/// The last digit of a number.
#[inline(always)]
fn digit(number: u32) -> u8
    ensures { result ≡ 48 + number % 10 }
{
    b'0' + (number % 10) as u8
}

/// Adds a number of at most four digits.
#[inline(always)]
fn push_front<const ROOM: usize>(out: &mut ArrayVec<u8, ROOM>, number: u32)
    requires small { number < 10000 }
    requires room { array_vec_len out.old + length (decimal number) ≤ ROOM }
    ensures text { out.new.items ≡ out.old.items ++ decimal number }
{
    if number < 10 {
        push_text(out, &[digit(number)]);
    } else if number < 100 {
        push_text(out, &[digit(number / 10), digit(number)]);
    } else if number < 1000 {
        push_text(
            out,
            &[digit(number / 100), digit(number / 10), digit(number)],
        );
    } else {
        push_text(out, &four_of(number));
    }
}

/// Adds a number of one digit.
#[tactic(auto, using(std::proofs::lemmas::Fmt::decimal_digit))]
pub fn push_decimal_digit<const ROOM: usize>(out: &mut ArrayVec<u8, ROOM>, number: u8)
    requires small { number < 10 }
    requires room { array_vec_len out.old < ROOM }
    ensures text { out.new.items ≡ out.old.items ++ decimal number }
    ensures len { array_vec_len out.new ≡ array_vec_len out.old + 1 }
{
    push_text(out, &[b'0' + number]);
}

/// Adds a node's name.
pub fn push_node<const ROOM: usize>(out: &mut ArrayVec<u8, ROOM>, node: NodeId)
    requires { array_vec_len out.old + NODE_NAME_BYTES ≤ ROOM }
    ensures text { out.new.items ≡ out.old.items ++ name_of_node node }
    ensures len { array_vec_len out.new ≡ array_vec_len out.old + NODE_NAME_BYTES }
{
    push_text(out, &name_digits(node));
}

/// The digits of a node's name: one of its row, and two of its column.
#[inline(always)]
fn name_digits(node: NodeId) -> [u8; NODE_NAME_BYTES]
    ensures { result ≡ name_of_node node }
{
    let [row, tens, ones, _] = name_spaced(node);
    [row, tens, ones]
}

/// A node's name and a space.
#[inline(always)]
fn name_spaced(node: NodeId) -> [u8; 4]
    ensures { result ≡ name_of_node node ++ codes " " }
{
    node_name_and_space(node.index() as u8)
}

/// The name of the node with this number and a space, or four zeros where there is no such node.
#[inline(always)]
pub fn node_name_and_space(number: u8) -> [u8; 4]
    ensures named { (node : NodeId) → node.number ≡ number → result ≡ name_of_node node ++ codes " " }
    ensures none { 144 ≤ number → result ≡ (0 ∷ 0 ∷ 0 ∷ 0 ∷ []) }
{
    let at = 4 * number as usize;
    [NAMES[at], NAMES[at + 1], NAMES[at + 2], NAMES[at + 3]]
}

/// Adds a node's name and a space.
#[inline(always)]
pub fn push_node_and_space<const ROOM: usize>(out: &mut ArrayVec<u8, ROOM>, node: NodeId)
    requires { array_vec_len out.old + NODE_NAME_BYTES + 1 ≤ ROOM }
    ensures text { out.new.items ≡ out.old.items ++ (name_of_node node ++ codes " ") }
    ensures len { array_vec_len out.new ≡ array_vec_len out.old + NODE_NAME_BYTES + 1 }
{
    push_text(out, &name_spaced(node));
}

/// Adds a step: the name of its node and its number.
#[inline(always)]
pub fn push_step<const ROOM: usize>(out: &mut ArrayVec<u8, ROOM>, node: NodeId, step: u32)
    requires { array_vec_len out.old + MAX_STEP_BYTES ≤ ROOM }
    ensures text { out.new.items ≡ out.old.items ++ step_text node step }
    ensures len { array_vec_len out.new ≤ array_vec_len out.old + MAX_STEP_BYTES }
{
    push_text(out, &name_spaced(node));
    push_number(out, u64::from(step));
}

/// Adds a word in six hexadecimal digits.
pub fn push_word<const ROOM: usize>(out: &mut ArrayVec<u8, ROOM>, word: Word18)
    requires { array_vec_len out.old + WORD_DIGITS ≤ ROOM }
    ensures text { out.new.items ≡ out.old.items ++ hex_digits_of_word word }
    ensures len { array_vec_len out.new ≡ array_vec_len out.old + WORD_DIGITS }
{
    push_text(out, &hex6(word));
}

/// Adds a space and a word.
#[inline(always)]
pub fn push_spaced_word<const ROOM: usize>(out: &mut ArrayVec<u8, ROOM>, word: Word18)
    requires { array_vec_len out.old + 1 + WORD_DIGITS ≤ ROOM }
    ensures text { out.new.items ≡ out.old.items ++ (codes " " ++ hex_digits_of_word word) }
    ensures len { array_vec_len out.new ≡ array_vec_len out.old + 1 + WORD_DIGITS }
{
    let [a, b, c, d, e, f] = hex6(word);
    push_text(out, &[b' ', a, b, c, d, e, f]);
}

/// The six hexadecimal digits of a word.
#[inline(always)]
#[tactic(auto, using(crate::proofs::DigitLemmas::three_bytes))]
fn hex6(word: Word18) -> [u8; WORD_DIGITS]
    ensures { result ≡ hex_digits_of_word word }
{
    let bits = word.get();
    let [a, b] = two_hex_digits((bits / 65536) as u8);
    let [c, d] = two_hex_digits((bits / 256 % 256) as u8);
    let [e, f] = two_hex_digits((bits % 256) as u8);
    [a, b, c, d, e, f]
}

/// Adds a number in two hexadecimal digits.
pub fn push_hex_byte<const ROOM: usize>(out: &mut ArrayVec<u8, ROOM>, number: u8)
    requires { array_vec_len out.old + BYTE_DIGITS ≤ ROOM }
    ensures text { out.new.items ≡ out.old.items ++ two_hex_digits_text number }
    ensures len { array_vec_len out.new ≡ array_vec_len out.old + BYTE_DIGITS }
{
    push_text(out, &two_hex_digits(number));
}

/// The two hexadecimal digits of a number, in lower case.
#[inline(always)]
#[tactic(auto, using(crate::proofs::DigitLemmas::hexadecimal_pair))]
pub fn two_hex_digits(number: u8) -> [u8; BYTE_DIGITS]
    ensures { result ≡ two_hex_digits_text number }
{
    let at = 2 * number as usize;
    [HEXADECIMAL[at], HEXADECIMAL[at + 1]]
}

/// The numbers below 100, in two decimal digits each.
static DECIMAL: [u8; 200] =
    *b"00010203040506070809101112131415161718192021222324252627282930313233343536373839404142434445464748495051525354555657585960616263646566676869707172737475767778798081828384858687888990919293949596979899";

/// The numbers below 256, in two hexadecimal digits each.
static HEXADECIMAL: [u8; 512] =
    *b"000102030405060708090a0b0c0d0e0f101112131415161718191a1b1c1d1e1f202122232425262728292a2b2c2d2e2f303132333435363738393a3b3c3d3e3f404142434445464748494a4b4c4d4e4f505152535455565758595a5b5c5d5e5f606162636465666768696a6b6c6d6e6f707172737475767778797a7b7c7d7e7f808182838485868788898a8b8c8d8e8f909192939495969798999a9b9c9d9e9fa0a1a2a3a4a5a6a7a8a9aaabacadaeafb0b1b2b3b4b5b6b7b8b9babbbcbdbebfc0c1c2c3c4c5c6c7c8c9cacbcccdcecfd0d1d2d3d4d5d6d7d8d9dadbdcdddedfe0e1e2e3e4e5e6e7e8e9eaebecedeeeff0f1f2f3f4f5f6f7f8f9fafbfcfdfeff";

/// The names of the nodes, each with a space after it, and zeros up to the number 255.
static NAMES: [u8; 1024] =
    *b"000 001 002 003 004 005 006 007 008 009 010 011 012 013 014 015 016 017 100 101 102 103 104 105 106 107 108 109 110 111 112 113 114 115 116 117 200 201 202 203 204 205 206 207 208 209 210 211 212 213 214 215 216 217 300 301 302 303 304 305 306 307 308 309 310 311 312 313 314 315 316 317 400 401 402 403 404 405 406 407 408 409 410 411 412 413 414 415 416 417 500 501 502 503 504 505 506 507 508 509 510 511 512 513 514 515 516 517 600 601 602 603 604 605 606 607 608 609 610 611 612 613 614 615 616 617 700 701 702 703 704 705 706 707 708 709 710 711 712 713 714 715 716 717 \0\0\0\0\0\0\0\0\0\0\0\0\0\0\0\0\0\0\0\0\0\0\0\0\0\0\0\0\0\0\0\0\0\0\0\0\0\0\0\0\0\0\0\0\0\0\0\0\0\0\0\0\0\0\0\0\0\0\0\0\0\0\0\0\0\0\0\0\0\0\0\0\0\0\0\0\0\0\0\0\0\0\0\0\0\0\0\0\0\0\0\0\0\0\0\0\0\0\0\0\0\0\0\0\0\0\0\0\0\0\0\0\0\0\0\0\0\0\0\0\0\0\0\0\0\0\0\0\0\0\0\0\0\0\0\0\0\0\0\0\0\0\0\0\0\0\0\0\0\0\0\0\0\0\0\0\0\0\0\0\0\0\0\0\0\0\0\0\0\0\0\0\0\0\0\0\0\0\0\0\0\0\0\0\0\0\0\0\0\0\0\0\0\0\0\0\0\0\0\0\0\0\0\0\0\0\0\0\0\0\0\0\0\0\0\0\0\0\0\0\0\0\0\0\0\0\0\0\0\0\0\0\0\0\0\0\0\0\0\0\0\0\0\0\0\0\0\0\0\0\0\0\0\0\0\0\0\0\0\0\0\0\0\0\0\0\0\0\0\0\0\0\0\0\0\0\0\0\0\0\0\0\0\0\0\0\0\0\0\0\0\0\0\0\0\0\0\0\0\0\0\0\0\0\0\0\0\0\0\0\0\0\0\0\0\0\0\0\0\0\0\0\0\0\0\0\0\0\0\0\0\0\0\0\0\0\0\0\0\0\0\0\0\0\0\0\0\0\0\0\0\0\0\0\0\0\0\0\0\0\0\0\0\0\0\0\0\0\0\0\0\0\0\0\0\0\0\0\0\0\0\0\0\0\0\0\0\0\0\0\0\0\0\0\0\0\0\0\0\0\0\0\0\0\0\0\0\0\0\0\0\0\0\0\0\0\0\0\0\0\0\0\0\0\0\0\0\0\0\0\0\0\0\0\0\0\0\0\0\0\0\0\0\0\0\0\0\0";
