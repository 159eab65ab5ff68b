//! What a node holds or does on a chip on which an expectation isn't met.

ghost use Rattle.std.specs.Prelude.{◌≡◌, ◌≤◌, ◌+◌, ◌++◌, length};
ghost use Rattle.arrayvec.specs.ArrayVec.{array_vec_len};
ghost use Rattle.ga_ports.specs.Address.{single_side_set};
ghost use Rattle.ga_explorer_text.specs.Observed.{optional_side_text, side_names_after_blanks, observation_text};

use ga_ports::{PortSet, Side};
use ga_state_expectations::NodeObservation;
use ga_text::{TextBuffer, push_number, push_spaced_word, push_text};

/// The maximum number of bytes of sides.
const SIDES_ROOM: usize = b" right down left up".len();

/// The maximum number of bytes of what a node holds or does.
pub const OBSERVATION_ROOM: usize = b"waits to write".len() + SIDES_ROOM;

/// Adds a blank and a side, if the set has it.
fn push_side_if(out: &mut TextBuffer, is_there: bool, name: &[u8])
    requires { array_vec_len out.old + length name.now ≤ 256 }
    ensures text { out.new.items ≡ out.old.items ++ optional_side_text is_there name.now }
    ensures len { array_vec_len out.new ≤ array_vec_len out.old + length name.now }
{
    if is_there {
        push_text(out, name);
    }
}

/// Adds sides, each after a blank.
fn push_sides(out: &mut TextBuffer, sides: PortSet)
    requires { array_vec_len out.old + SIDES_ROOM ≤ 256 }
    ensures text { out.new.items ≡ out.old.items ++ side_names_after_blanks sides }
    ensures len { array_vec_len out.new ≤ array_vec_len out.old + SIDES_ROOM }
{
    push_side_if(out, sides.has(Side::Right), b" right");
    push_side_if(out, sides.has(Side::Down), b" down");
    push_side_if(out, sides.has(Side::Left), b" left");
    push_side_if(out, sides.has(Side::Up), b" up");
}

/// The sides that are one.
pub fn sides_of(side: Side) -> PortSet
    ensures { result ≡ single_side_set side }
{
    PortSet::from_bits(side.bit_in_set())
}

/// Adds what a node holds or does.
pub fn push_observation(out: &mut TextBuffer, observation: NodeObservation)
    requires { array_vec_len out.old + OBSERVATION_ROOM ≤ 256 }
    ensures text { out.new.items ≡ out.old.items ++ observation_text observation }
    ensures len { array_vec_len out.new ≤ array_vec_len out.old + OBSERVATION_ROOM }
{
    match observation {
        NodeObservation::Is(word) => {
            push_text(out, b"is");
            push_spaced_word(out, word);
        }
        NodeObservation::Runs => push_text(out, b"runs"),
        NodeObservation::AwaitsCode => push_text(out, b"waits for code"),
        NodeObservation::Reads(sides) => {
            push_text(out, b"waits to read");
            push_sides(out, sides);
        }
        NodeObservation::Writes(side) => {
            push_text(out, b"waits to write");
            push_sides(out, sides_of(side));
        }
        NodeObservation::Stopped(stop) => {
            push_text(out, b"stop ");
            push_number(out, u64::from(stop));
        }
    }
}
