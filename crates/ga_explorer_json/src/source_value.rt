//! The step that made the value that a step tested, as fields of the row of that step.

ghost use Rattle.std.specs.Prelude.{◌≡◌, ◌≤◌, ◌+◌, ◌++◌, map};
ghost use Rattle.arrayvec.specs.ArrayVec.{array_vec_len};
ghost use Rattle.ga_lab.specs.Machine.{node_at_step};
ghost use Rattle.ga_json.specs.Fields.{named_field_value};
ghost use Rattle.ga_explorer_json.specs.Events.{own_event_fields, passed_word_fields, event_action_fields};
ghost use Rattle.ga_explorer_json.specs.Whence.{value_origin_fields};
ghost use Rattle.ga_explorer_json.specs.Because.{source_prefixed_fields, value_node_and_step_fields, tested_value_word_fields, tested_value_provenance_fields};
ghost use Rattle.ga_explorer_json.specs.inner.{fields_of_step_source};

use crate::event::{MAX_ACTION_FIELDS, opcode_name};
use crate::part::{
    json_number_unless_zero, node_part_keyword, optional_number, stack_place_or_cell_address,
};
use crate::row::push_fields;
use crate::source::{
    SOURCE_FIELDS, StepSource, column_field, is_value_never_set, line_field, text_field,
    value_source,
};
use crate::whence_json::register_a_made_with_value;
use ga_debug_info::DebugInfo;
use ga_grid::NodeId;
use ga_json::{Field, MAX_FIELDS, RowFields};
use ga_lab::{Lab, MadeEvent, NodeWalk};
use ga_node::OwnEventKind;
use ga_provenance::PartValue;
use ga_word::Word18;

/// The most fields of the step that made a value.
pub(crate) const MAX_SOURCE_VALUE_FIELDS: usize = 2 + MAX_ACTION_FIELDS + 5 + SOURCE_FIELDS;

/// Adds the step that made a value, with its words.
pub(crate) fn push_source_value<'l, 'n>(
    row: &mut RowFields<'n>,
    lab: &'l Lab,
    notes: &'n Option<DebugInfo>,
    walk: &NodeWalk<'l>,
    value: PartValue,
    word: Word18,
    a: Word18,
)
    requires room { array_vec_len row.old + MAX_SOURCE_VALUE_FIELDS ≤ MAX_FIELDS }
    requires walk { walk.now ≡ node_at_step lab.now value.node walk.now.step }
    ensures { map named_field_value row.new.items ≡ map named_field_value row.old.items ++ tested_value_provenance_fields notes.now lab.now value word a }
{
    push_fields(row, &value_node_and_step_fields(value));
    push_source_made(row, lab, value);
    push_fields(row, &tested_value_word_fields(lab, notes, value, word, a));
    let source = value_source(lab, notes, walk, value.node, value);
    push_fields(row, &source_place_fields(source));
}

/// Where a value was made.
fn value_node_and_step_fields(value: PartValue) -> [Field<'static>; 2]
    ensures { map named_field_value result ≡ source_prefixed_fields (value_node_and_step_fields value) }
{
    [
        Field::node(b"source_node", value.node),
        json_number_unless_zero(b"source_step", value.step),
    ]
}

/// The part and the word of a value, A where its step made both, and whether nobody set it.
fn tested_value_word_fields(
    lab: &Lab,
    notes: &Option<DebugInfo>,
    value: PartValue,
    word: Word18,
    a: Word18,
) -> [Field<'static>; 5]
    ensures { map named_field_value result ≡ source_prefixed_fields (tested_value_word_fields notes.now lab.now value word a) }
{
    [
        Field::text(b"source_part", node_part_keyword(value.part)),
        optional_number(b"source_index", stack_place_or_cell_address(value.part)),
        Field::word(b"source_value", word),
        optional_number(b"source_a", register_a_made_with_value(lab, value, a)),
        Field::flag(b"source_never_set", is_value_never_set(notes, value)),
    ]
}

/// What the source has for a value.
fn source_place_fields(source: StepSource<'_>) -> [Field<'_>; SOURCE_FIELDS]
    ensures { map named_field_value result ≡ source_prefixed_fields (fields_of_step_source source.entry) }
{
    [
        line_field(b"source_line", source.word),
        column_field(b"source_column", source.word),
        text_field(b"source_source", source),
    ]
}

/// Adds what the step of a value did, or that the value was loaded.
fn push_source_made<'n>(row: &mut RowFields<'n>, lab: &Lab, value: PartValue)
    requires { array_vec_len row.old + MAX_ACTION_FIELDS ≤ MAX_FIELDS }
    ensures fields { map named_field_value row.new.items ≡ map named_field_value row.old.items ++ source_prefixed_fields (value_origin_fields lab.now value) }
    ensures len { array_vec_len row.new ≤ array_vec_len row.old + MAX_ACTION_FIELDS }
{
    if value.step == 0 {
        push_fields(row, &[Field::text(b"source_what", b"load")]);
    } else if let Some(made) = lab.made_event_of_step(value.node, value.step - 1) {
        push_source_action(row, made);
    }
}

/// Adds what a step did.
fn push_source_action<'n>(row: &mut RowFields<'n>, made: MadeEvent)
    requires { array_vec_len row.old + MAX_ACTION_FIELDS ≤ MAX_FIELDS }
    ensures fields { map named_field_value row.new.items ≡ map named_field_value row.old.items ++ source_prefixed_fields (event_action_fields made) }
    ensures len { array_vec_len row.new ≤ array_vec_len row.old + MAX_ACTION_FIELDS }
{
    match made {
        MadeEvent::Own { kind, .. } => push_source_event(row, kind),
        MadeEvent::Pass {
            writer,
            writer_step,
            reader,
            reader_step,
            word,
        } => push_fields(
            row,
            &source_pass_fields(writer, writer_step, reader, reader_step, word),
        ),
    }
}

/// A word that was passed, with both ends and their steps.
fn source_pass_fields(
    writer: NodeId,
    writer_step: u32,
    reader: NodeId,
    reader_step: u32,
    word: Word18,
) -> [Field<'static>; MAX_ACTION_FIELDS]
    ensures { map named_field_value result ≡ source_prefixed_fields (passed_word_fields writer writer_step reader reader_step word) }
{
    [
        Field::text(b"source_what", b"pass"),
        Field::node(b"source_from", writer),
        Field::number(b"source_from_step", u64::from(writer_step)),
        Field::node(b"source_to", reader),
        Field::number(b"source_to_step", u64::from(reader_step)),
        Field::word(b"source_word", word),
    ]
}

/// Adds what an event of a node's own was.
fn push_source_event<'n>(row: &mut RowFields<'n>, kind: OwnEventKind)
    requires { array_vec_len row.old + 2 ≤ MAX_FIELDS }
    ensures fields { map named_field_value row.new.items ≡ map named_field_value row.old.items ++ source_prefixed_fields (own_event_fields kind) }
    ensures len { array_vec_len row.new ≤ array_vec_len row.old + 2 }
{
    match kind {
        OwnEventKind::Fetch => push_fields(row, &[Field::text(b"source_what", b"fetch")]),
        OwnEventKind::Run(code) => push_fields(
            row,
            &[
                Field::text(b"source_what", b"run"),
                Field::text(b"source_opcode", opcode_name(code)),
            ],
        ),
        OwnEventKind::Wait => push_fields(row, &[Field::text(b"source_what", b"wait")]),
        OwnEventKind::Stop(number) => push_fields(
            row,
            &[
                Field::text(b"source_what", b"stop"),
                Field::number(b"source_stop", u64::from(number)),
            ],
        ),
    }
}
