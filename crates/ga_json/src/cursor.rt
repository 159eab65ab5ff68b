//! The rows of an answer.

ghost use Rattle.std.specs.Prelude.{◌≡◌, option_map};
ghost use Rattle.ga_json.specs.Values.{JsonItems};
ghost use Rattle.ga_json.specs.inner.{rows_from_first_row};

use crate::field::RowFields;

/// The rows of an answer, one after another.
pub trait RowCursor<'a> {
    // The rows that were not taken yet.
    ghost left: { Self → JsonItems };

    /// The next row; none after the last.
    fn next(&mut self) -> Option<RowFields<'a>>
        ensures row { left self.old ≡ rows_from_first_row (option_map (λ row. row.items) result) (left self.new) };
}
