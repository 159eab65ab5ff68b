//! Rows that are made field by field, and no rows.

ghost use Rattle.std.specs.Prelude.{◌≡◌, ◌≤◌, ◌+◌, ◌++◌, length, map};
ghost use Rattle.arrayvec.specs.ArrayVec.{array_vec_len};
ghost use Rattle.ga_json.specs.Values.{no_items};
ghost use Rattle.ga_json.specs.Fields.{named_field_value};

use ga_json::{Field, MAX_FIELDS, RowCursor, RowFields};

/// Adds fields to a row.
pub(crate) fn push_fields<'a>(row: &mut RowFields<'a>, fields: &[Field<'a>])
    requires { array_vec_len row.old + length fields.now ≤ MAX_FIELDS }
    ensures fields { map named_field_value row.new.items ≡ map named_field_value row.old.items ++ map named_field_value fields.now }
    ensures len { array_vec_len row.new ≡ array_vec_len row.old + length fields.now }
{
    let _fits = row.try_extend_from_slice(fields);
}

/// No row.
#[derive(Drop)]
pub(crate) struct NoRows;

impl<'l> RowCursor<'l> for NoRows {
    ghost left = { λ rows. no_items };

    fn next(&mut self) -> Option<RowFields<'l>> {
        None
    }
}
