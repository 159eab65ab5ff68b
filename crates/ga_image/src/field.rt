//! The fields of a block, and its node's wait, stop and slot.

ghost use Rattle.std.specs.Prelude.{◌≡◌, ◌<◌, ◌≤◌, length};
ghost use Rattle.ga_image.specs.Spelling.{field_name};
ghost use Rattle.ga_image.specs.inner.{field_of_bank, IsFieldWithinBank};
ghost use Rattle.ga_image.specs.Fields.{format_has_field, field_place, field_number, next_field, row_exceeds_bank, has_too_great_word, run_state_at_load, run_state_with_field_word, is_inconsistent_run_state};

use ga_node::NodePlace;

/// How many registers, words of the stacks and cells of a node an image gives: nine registers, ten and nine words, and two
/// memories of 64 cells.
pub(crate) const FIELDS: usize = 156;

/// A format of images, by the number in its header.
#[derive(Clone, Copy)]
pub(crate) enum Format {
    One,
    Two,
}

/// What a field line gives words to. Of a stack or a memory it names the place of the first word.
#[derive(Clone, Copy)]
pub(crate) enum Field {
    A,
    B,
    P,
    I,
    Io,
    Carry,
    Slot,
    Wait,
    Stop,
    /// A word of the data stack, 0 for T.
    Data(u8),
    /// A word of the return stack, 0 for R.
    Return(u8),
    Ram(u8),
    Rom(u8),
}

/// What a node holds lists of words in: its two stacks, from the top on, and its two memories.
#[derive(Clone, Copy)]
pub(crate) enum Bank {
    Data,
    Return,
    Ram,
    Rom,
}

impl Bank {
    /// The field of a word of the stack or the memory.
    pub(crate) fn field(self, place: u8) -> Field
        ensures { result ≡ field_of_bank self place }
    {
        match self {
            Bank::Data => Field::Data(place),
            Bank::Return => Field::Return(place),
            Bank::Ram => Field::Ram(place),
            Bank::Rom => Field::Rom(place),
        }
    }
}

impl Format {
    /// Whether a block of this format may give the field.
    pub(crate) fn has(self, field: Field) -> bool
        ensures { result ≡ format_has_field self field }
    {
        match self {
            Format::Two => true,
            Format::One => match field {
                Field::A | Field::B | Field::P | Field::Ram(_) | Field::Rom(_) => true,
                _ => false,
            },
        }
    }
}

impl Field {
    /// The place of a node at load that the field names.
    pub(crate) fn place(self) -> NodePlace
        ensures { result ≡ field_place self }
    {
        match self {
            Field::A => NodePlace::A,
            Field::B => NodePlace::B,
            Field::P => NodePlace::P,
            Field::I => NodePlace::I,
            Field::Io => NodePlace::Io,
            Field::Carry => NodePlace::Carry,
            Field::Slot => NodePlace::Slot,
            Field::Wait => NodePlace::Wait,
            Field::Stop => NodePlace::Stop,
            Field::Data(0) => NodePlace::T,
            Field::Data(1) => NodePlace::S,
            Field::Data(word) => NodePlace::DataCell(word - 2),
            Field::Return(0) => NodePlace::R,
            Field::Return(word) => NodePlace::ReturnCell(word - 1),
            Field::Ram(cell) => NodePlace::Ram(cell),
            Field::Rom(cell) => NodePlace::Rom(cell),
        }
    }

    /// What the lines of the field begin with.
    pub(crate) fn name(self) -> &'static str
        ensures { result.now ≡ field_name self }
    {
        match self {
            Field::A => "a",
            Field::B => "b",
            Field::P => "p",
            Field::I => "i",
            Field::Io => "io",
            Field::Carry => "carry ",
            Field::Slot => "slot ",
            Field::Wait => "wait ",
            Field::Stop => "stop ",
            Field::Data(_) => "d",
            Field::Return(_) => "r",
            Field::Ram(_) => "ram ",
            Field::Rom(_) => "rom ",
        }
    }

    /// The number of the field among those of a node.
    pub(crate) fn number(self) -> usize
        requires { IsFieldWithinBank self }
        ensures value { result ≡ field_number self }
        ensures in_range { result < FIELDS }
    {
        match self {
            Field::A => 0,
            Field::B => 1,
            Field::P => 2,
            Field::I => 3,
            Field::Io => 4,
            Field::Carry => 5,
            Field::Slot => 6,
            Field::Wait => 7,
            Field::Stop => 8,
            Field::Data(word) => 9 + word as usize,
            Field::Return(word) => 19 + word as usize,
            Field::Ram(cell) => 28 + cell as usize,
            Field::Rom(cell) => 92 + cell as usize,
        }
    }

    /// The field of the next word of the line.
    pub(crate) fn next(self) -> Field
        requires { IsFieldWithinBank self }
        ensures { result ≡ next_field self }
    {
        match self {
            Field::Data(word) => Field::Data(word + 1),
            Field::Return(word) => Field::Return(word + 1),
            Field::Ram(cell) => Field::Ram(cell + 1),
            Field::Rom(cell) => Field::Rom(cell + 1),
            register => register,
        }
    }

    /// Whether `count` words exceed the last word of the stack or the last cell of the memory.
    pub(crate) fn row_exceeds_bank(self, count: usize) -> bool
        requires { count ≤ 16 }
        ensures { result ≡ row_exceeds_bank self count }
    {
        match self {
            Field::Data(word) => word as usize + count > 10,
            Field::Return(word) => word as usize + count > 9,
            Field::Ram(cell) | Field::Rom(cell) => cell as usize + count > 64,
            _ => false,
        }
    }

    /// Whether one of the words is past the greatest that a place of this field holds.
    pub(crate) fn is_exceeded_by(self, words: &[u32]) -> bool
        ensures { result ≡ has_too_great_word self words.now }
    {
        let greatest = self.place().greatest_value();
        words.iter().any(|word| *word > greatest)
    }
}

/// A block's wait, stop and slot of its node.
#[derive(Clone, Copy)]
pub(crate) struct RunState {
    /// The number of the wait, or 0.
    pub wait: u32,
    /// The number of the stop, or 0.
    pub stop: u32,
    /// The slot that comes next, 0 to 3, or 4 where a fetch is due.
    pub slot: u32,
}

impl RunState {
    /// A node at load neither waits nor is stopped, and a fetch is due.
    pub(crate) fn runs() -> RunState
        ensures { result ≡ run_state_at_load }
    {
        RunState {
            wait: 0,
            stop: 0,
            slot: 4,
        }
    }

    /// The wait, stop and slot with a word for a field.
    pub(crate) fn with(self, field: Field, word: u32) -> RunState
        ensures { result ≡ run_state_with_field_word self field word }
    {
        match field {
            Field::Wait => RunState { wait: word, ..self },
            Field::Stop => RunState { stop: word, ..self },
            Field::Slot => RunState { slot: word, ..self },
            _ => self,
        }
    }

    /// Whether the block's wait, stop and slot are inconsistent: its node both waits and is stopped, or waits to fetch where no
    /// fetch is due, or for another word where a fetch is due.
    pub(crate) fn is_inconsistent_run_state(self) -> bool
        ensures { result ≡ is_inconsistent_run_state self }
    {
        let is_fetch_due = self.slot == 4;
        let waits_to_fetch = self.wait < 32;
        self.wait != 0
            && (self.stop != 0
                || (if waits_to_fetch {
                    !is_fetch_due
                } else {
                    is_fetch_due
                }))
    }
}
