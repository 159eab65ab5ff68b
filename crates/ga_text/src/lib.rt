//! Text as bytes: its lines and words, digits decimal and hexadecimal, the names of nodes; input that is read up to its limit,
//! output that is buffered before it is written, and lines that are put together.
#![tactic(auto)]

mod image;
mod input;
mod lines;
mod output;
mod text;
mod whole;
mod words;

pub use image::{ImageReadEnd, read_image};
pub use input::{InputBuffer, find_line_feed};
pub use lines::{LineBuffer, LineEnd, first_line, read_line};
pub use output::{OUTPUT_CAPACITY, WriteError, WriteResult, Writer, write_all};
pub use text::{
    BYTE_DIGITS, MAX_LINE_BYTES, MAX_NUMBER_DIGITS, MAX_STEP_BYTES, NODE_NAME_BYTES, TextBuffer,
    WORD_DIGITS, node_name_and_space, push_decimal_digit, push_hex_byte, push_node,
    push_node_and_space, push_number, push_spaced_word, push_step, push_text,
    push_up_to_eight_digits, push_word, two_hex_digits,
};
pub use whole::{WholeInputResult, read_whole_input};
pub use words::{parse_hex_byte, parse_node, parse_number, split_at_space};
