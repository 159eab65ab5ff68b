//! How the words over a link break an expectation, as text.

ghost use Rattle.std.specs.Prelude.{◌≡◌, ◌≤◌, ◌+◌, ◌%◌, ◌++◌, codes, decimal};
ghost use Rattle.ga_word.specs.Word.{hex_digits_of_word, word_modulus};
ghost use Rattle.arrayvec.specs.ArrayVec.{array_vec_len};
ghost use Rattle.ga_explorer_text.specs.Observed.{link_fault_text};

use ga_state_links::LinkFault;
use ga_text::{MAX_NUMBER_DIGITS, TextBuffer, push_number, push_spaced_word, push_text, push_word};
use ga_word::Word18;

/// The maximum number of bytes of the number of a word.
const NUMBER_ROOM: usize = b"word ".len() + MAX_NUMBER_DIGITS;

/// The maximum number of bytes of how words break an expectation.
pub const LINK_FAULT_ROOM: usize = NUMBER_ROOM + b" never comes".len();

/// Adds the number, from 1 on, of the word after these.
fn push_word_number(out: &mut TextBuffer, place: u32)
    requires { array_vec_len out.old + NUMBER_ROOM ≤ 256 }
    ensures text { out.new.items ≡ out.old.items ++ codes "word " ++ decimal (place + 1) }
    ensures len { array_vec_len out.new ≤ array_vec_len out.old + NUMBER_ROOM }
{
    push_text(out, b"word ");
    push_number(out, u64::from(place) + 1);
}

/// Adds which word came after all that are expected.
fn push_further_word(out: &mut TextBuffer, word: u32)
    requires { array_vec_len out.old + LINK_FAULT_ROOM ≤ 256 }
    ensures text { out.new.items ≡ out.old.items ++ (codes "a further word is " ++ hex_digits_of_word (word % word_modulus)) }
    ensures len { array_vec_len out.new ≤ array_vec_len out.old + LINK_FAULT_ROOM }
{
    let word = Word18::from_low_bits(word);
    push_text(out, b"a further word is ");
    push_word(out, word);
}

/// Adds how the words over a link break an expectation, of which this number came before the fault.
pub fn push_link_fault(out: &mut TextBuffer, place: u32, fault: LinkFault)
    requires { array_vec_len out.old + LINK_FAULT_ROOM ≤ 256 }
    ensures text { out.new.items ≡ out.old.items ++ link_fault_text place fault }
    ensures len { array_vec_len out.new ≤ array_vec_len out.old + LINK_FAULT_ROOM }
{
    match fault {
        LinkFault::OtherWord(word) => {
            push_word_number(out, place);
            push_text(out, b" is");
            push_spaced_word(out, Word18::from_low_bits(word));
        }
        LinkFault::ExtraWord(word) => push_further_word(out, word),
        LinkFault::MissingWord => {
            push_word_number(out, place);
            push_text(out, b" never comes");
        }
    }
}
