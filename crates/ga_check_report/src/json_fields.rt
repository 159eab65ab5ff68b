//! The fields of the objects that are written as JSON.

ghost use Rattle.std.specs.Prelude.{◌≡◌, ◌≤◌, [], codes, map};
ghost use Rattle.arrayvec.specs.ArrayVec.{array_vec_len};
ghost use Rattle.ga_node.specs.declared.kind.OwnEventKind.TheVariants.{Run, Stop};
ghost use Rattle.ga_event.specs.declared.made.MadeEvent.TheVariants.{Own, Pass};
ghost use Rattle.ga_json.specs.Fields.{named_field_value};
ghost use Rattle.ga_check_report.specs.JsonValues.{search_stop_keyword, search_stop_json, search_result_fields};
ghost use Rattle.ga_check_report.specs.EventJson.{event_kind_and_step_fields, event_detail_fields};

use crate::ends_text::is_fully_explored;
use ga_event::MadeEvent;
use ga_grid::NodeId;
use ga_json::{Field, RowFields, row_fields, text_field};
use ga_node::OwnEventKind;
use ga_state_ends::FoundEnds;
use ga_state_search::SearchFault;
use ga_word::Word18;

/// The most fields of an event, or of what else breaks an expectation.
pub const MAX_DETAILS: usize = 6;

/// The fields of an event: what it was, and its steps.
pub(crate) fn event_fields<'a>(made: MadeEvent) -> RowFields<'a>
    ensures details { map named_field_value result.items ≡ event_detail_fields made }
    ensures few { array_vec_len result ≤ MAX_DETAILS }
{
    match made {
        MadeEvent::Own { node, step, kind } => own_fields(node, step, kind),
        MadeEvent::Pass {
            writer,
            writer_step,
            reader,
            reader_step,
            word,
        } => pass_fields((writer, writer_step), (reader, reader_step), word),
    }
}

/// The fields of an event of a node's own.
fn own_fields<'a>(node: NodeId, step: u32, kind: OwnEventKind) -> RowFields<'a>
    ensures details { map named_field_value result.items ≡ event_detail_fields (Own node step kind) }
    ensures few { array_vec_len result ≤ MAX_DETAILS }
{
    match kind {
        OwnEventKind::Fetch => step_fields(b"fetch", node, step),
        OwnEventKind::Run(code) => run_fields(node, step, code),
        OwnEventKind::Wait => step_fields(b"wait", node, step),
        OwnEventKind::Stop(stop) => stop_fields(node, step, stop),
    }
}

/// The fields of an event without a number.
fn step_fields<'a>(what: &'a [u8], node: NodeId, step: u32) -> RowFields<'a>
    ensures details { map named_field_value result.items ≡ event_kind_and_step_fields what.now node step [] }
    ensures few { array_vec_len result ≤ MAX_DETAILS }
{
    row_fields(&[
        Field::text(b"event", what),
        Field::node(b"node", node),
        Field::number(b"step", u64::from(step)),
    ])
}

/// The fields of an opcode that was carried out.
fn run_fields<'a>(node: NodeId, step: u32, code: u8) -> RowFields<'a>
    ensures details { map named_field_value result.items ≡ event_detail_fields (Own node step (Run code)) }
    ensures few { array_vec_len result ≤ MAX_DETAILS }
{
    row_fields(&[
        Field::text(b"event", b"run"),
        Field::node(b"node", node),
        Field::number(b"step", u64::from(step)),
        Field::number(b"opcode", u64::from(code)),
    ])
}

/// The fields of a stop.
fn stop_fields<'a>(node: NodeId, step: u32, stop: u8) -> RowFields<'a>
    ensures details { map named_field_value result.items ≡ event_detail_fields (Own node step (Stop stop)) }
    ensures few { array_vec_len result ≤ MAX_DETAILS }
{
    row_fields(&[
        Field::text(b"event", b"stop"),
        Field::node(b"node", node),
        Field::number(b"step", u64::from(step)),
        Field::number(b"stop", u64::from(stop)),
    ])
}

/// The fields of a transfer: the writer's step, then the reader's and the word.
fn pass_fields<'a>(writer: (NodeId, u32), reader: (NodeId, u32), word: Word18) -> RowFields<'a>
    ensures details { map named_field_value result.items ≡ event_detail_fields (Pass writer.0 writer.1 reader.0 reader.1 word) }
    ensures few { array_vec_len result ≤ MAX_DETAILS }
{
    row_fields(&[
        Field::text(b"event", b"pass"),
        Field::node(b"node", writer.0),
        Field::number(b"step", u64::from(writer.1)),
        Field::node(b"reader", reader.0),
        Field::number(b"reader_step", u64::from(reader.1)),
        Field::word(b"word", word),
    ])
}

/// What an answer with this name says of a search: the number of states, whether each was explored, and which bound was met.
pub(crate) fn search_result_fields<'a>(
    answer: &'a [u8],
    file: &'a [u8],
    found: &FoundEnds,
) -> RowFields<'a>
    ensures fields { map named_field_value result.items ≡ search_result_fields answer.now file.now found.now }
    ensures few { array_vec_len result ≤ 5 }
{
    let whole = is_fully_explored(found);
    let stopped = stop_field(found.fault());
    row_fields(&[
        Field::text(b"answer", answer),
        text_field(b"file", file),
        Field::number(b"states", found.count_states() as u64),
        Field::flag(b"explored", whole),
        stopped,
    ])
}

/// The bound that was met, if one was.
fn stop_field<'a>(fault: Option<SearchFault>) -> Field<'a>
    ensures { named_field_value result ≡ (codes "stopped", search_stop_json fault) }
{
    match fault {
        None => Field::absent(b"stopped"),
        Some(why) => Field::text(b"stopped", search_stop_keyword(why)),
    }
}

/// The bound that was met, in a word.
fn search_stop_keyword(why: SearchFault) -> &'static [u8]
    ensures { result.now ≡ search_stop_keyword why }
{
    match why {
        SearchFault::Full => b"states",
        SearchFault::Stopped => b"seconds",
        SearchFault::Memory => b"memory",
        SearchFault::ExceedsAssumptions => b"restarts",
    }
}
