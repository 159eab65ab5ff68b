//! How the words over a link break an expectation, as fields of an object.

ghost use Rattle.std.specs.Prelude.{◌≡◌, ◌≤◌, map};
ghost use Rattle.arrayvec.specs.ArrayVec.{array_vec_len};
ghost use Rattle.ga_json.specs.Fields.{named_field_value};
ghost use Rattle.ga_check_report.specs.LinkFaults.{link_fault_keyword, link_fault_detail_fields};

use crate::json_fields::MAX_DETAILS;
use ga_json::{Field, RowFields, row_fields};
use ga_state_links::LinkFault;

/// How the words over a link break an expectation, in a word.
pub fn link_fault_keyword(fault: LinkFault) -> &'static [u8]
    ensures { result.now ≡ link_fault_keyword fault }
{
    match fault {
        LinkFault::OtherWord(_) => b"word",
        LinkFault::ExtraWord(_) => b"further word",
        LinkFault::MissingWord => b"no word",
    }
}

/// The number of the word, from 1 on, and the word that came, if one did.
pub fn link_fault_fields<'a>(place: u32, fault: LinkFault) -> RowFields<'a>
    ensures details { map named_field_value result.items ≡ link_fault_detail_fields place fault }
    ensures few { array_vec_len result ≤ MAX_DETAILS }
{
    let number = Field::number(b"place", u64::from(place) + 1);
    match fault {
        LinkFault::OtherWord(word) => {
            row_fields(&[number, Field::number(b"value", u64::from(word))])
        }
        LinkFault::ExtraWord(word) => {
            row_fields(&[number, Field::number(b"value", u64::from(word))])
        }
        LinkFault::MissingWord => row_fields(&[number]),
    }
}
