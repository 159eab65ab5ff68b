//! Events, as fields of a row.

ghost use Rattle.std.specs.Prelude.{◌≡◌, ◌≤◌, ◌+◌, ◌++◌, ◌%◌, map};
ghost use Rattle.arrayvec.specs.ArrayVec.{array_vec_len};
ghost use Rattle.ga_slots.specs.Codes.{name_of_opcode, opcode_of_code};
ghost use Rattle.ga_json.specs.Fields.{named_field_value};
ghost use Rattle.ga_explorer_json.specs.Events.{own_event_fields, passed_word_fields, event_action_fields, made_event_fields};

use crate::row::push_fields;
use ga_event::MadeEvent;
use ga_grid::NodeId;
use ga_json::{Field, MAX_FIELDS, RowFields};
use ga_node::OwnEventKind;
use ga_slots::Op;
use ga_word::Word18;

/// The most fields of what a step did.
pub(crate) const MAX_ACTION_FIELDS: usize = 6;

/// Adds what a step did: the opcode, what came in its place, or the word that was passed, with both ends.
pub(crate) fn push_action<'a>(row: &mut RowFields<'a>, made: MadeEvent)
    requires { array_vec_len row.old + MAX_ACTION_FIELDS ≤ MAX_FIELDS }
    ensures fields { map named_field_value row.new.items ≡ map named_field_value row.old.items ++ event_action_fields made }
    ensures len { array_vec_len row.new ≤ array_vec_len row.old + MAX_ACTION_FIELDS }
{
    match made {
        MadeEvent::Own { kind, .. } => push_own_event(row, kind),
        MadeEvent::Pass {
            writer,
            writer_step,
            reader,
            reader_step,
            word,
        } => push_fields(
            row,
            &passed_word_fields(writer, writer_step, reader, reader_step, word),
        ),
    }
}

/// A word that was passed, with both ends and their steps.
fn passed_word_fields(
    writer: NodeId,
    writer_step: u32,
    reader: NodeId,
    reader_step: u32,
    word: Word18,
) -> [Field<'static>; MAX_ACTION_FIELDS]
    ensures { map named_field_value result ≡ passed_word_fields writer writer_step reader reader_step word }
{
    [
        Field::text(b"what", b"pass"),
        Field::node(b"from", writer),
        Field::number(b"from_step", u64::from(writer_step)),
        Field::node(b"to", reader),
        Field::number(b"to_step", u64::from(reader_step)),
        Field::word(b"word", word),
    ]
}

/// Adds what an event of a node's own was.
fn push_own_event<'a>(row: &mut RowFields<'a>, kind: OwnEventKind)
    requires { array_vec_len row.old + 2 ≤ MAX_FIELDS }
    ensures fields { map named_field_value row.new.items ≡ map named_field_value row.old.items ++ own_event_fields kind }
    ensures len { array_vec_len row.new ≤ array_vec_len row.old + 2 }
{
    match kind {
        OwnEventKind::Fetch => push_fields(row, &[Field::text(b"what", b"fetch")]),
        OwnEventKind::Run(code) => push_fields(
            row,
            &[
                Field::text(b"what", b"run"),
                Field::text(b"opcode", opcode_name(code)),
            ],
        ),
        OwnEventKind::Wait => push_fields(row, &[Field::text(b"what", b"wait")]),
        OwnEventKind::Stop(number) => push_fields(
            row,
            &[
                Field::text(b"what", b"stop"),
                Field::number(b"stop", u64::from(number)),
            ],
        ),
    }
}

/// The name of the opcode with this code.
pub(crate) fn opcode_name(code: u8) -> &'static [u8]
    ensures { result.now ≡ name_of_opcode (opcode_of_code (code % 32)) }
{
    Op::from_code(code % 32).name().as_bytes()
}

/// Adds an event: of a node's own with its step, or a word that was passed.
pub(crate) fn push_made_event<'a>(row: &mut RowFields<'a>, made: MadeEvent)
    requires { array_vec_len row.old + MAX_ACTION_FIELDS ≤ MAX_FIELDS }
    ensures fields { map named_field_value row.new.items ≡ map named_field_value row.old.items ++ made_event_fields made }
    ensures len { array_vec_len row.new ≤ array_vec_len row.old + MAX_ACTION_FIELDS }
{
    match made {
        MadeEvent::Own { node, step, kind } => {
            push_fields(
                row,
                &[
                    Field::node(b"node", node),
                    Field::number(b"step", u64::from(step)),
                ],
            );
            push_own_event(row, kind);
        }
        MadeEvent::Pass {
            writer,
            writer_step,
            reader,
            reader_step,
            word,
        } => push_fields(
            row,
            &passed_word_fields(writer, writer_step, reader, reader_step, word),
        ),
    }
}
