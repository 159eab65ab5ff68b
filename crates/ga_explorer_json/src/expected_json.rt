//! The status of each expectation of the source.

ghost use Rattle.std.specs.Prelude.{◌≡◌, ◌≤◌, ◌+◌, ◌++◌, codes, map};
ghost use Rattle.arrayvec.specs.ArrayVec.{array_vec_len};
ghost use Rattle.ga_causal.specs.Dependence.{is_node_flagged};
ghost use Rattle.ga_text.specs.Output.{WritesSomeText, WritesExactly};
ghost use Rattle.ga_json.specs.Compact.{json_line};
ghost use Rattle.ga_json.specs.Fields.{named_field_value, row_json};
ghost use Rattle.ga_explorer_json.specs.Rows.{json_rows_of_items, IsJsonLine};
ghost use Rattle.ga_explorer_json.specs.Expected.{status_keyword, session_breach_keyword, status_cause_json, session_breach_fields, status_detail_fields, status_front_fields, status_json, status_row, statuses_head_fields, statuses_json, AreStatusesJson, IsExpectationsJson};

use crate::event::{MAX_ACTION_FIELDS, push_made_event};
use crate::refusal::write_lab_refusal;
use crate::row::push_fields;
use ga_check_report::{
    link_fault_fields, link_fault_keyword, observation_fields, observation_keyword,
};
use ga_debug_info::DebugInfo;
use ga_json::{Field, MAX_FIELDS, RowCursor, RowFields, row_fields, text_field, write_report};
use ga_lab::{Lab, LabFault};
use ga_races::find_deadlocked_nodes;
use ga_scheduler::is_quiescent;
use ga_state_expectations::{
    ExpectationStatus, LineExpectation, SessionBreach, expectation_status, known_expectations,
};
use ga_text::{WriteResult, Writer};
use std::alloc::Global;
use std::io::Write;

/// `expectations`: writes the status of each expectation of the source, a row each. Takes memory for the expectations.
///
/// # Errors
/// A write failed.
pub fn write_expectations_json<W: Write>(
    alloc: Global,
    lab: &Lab,
    notes: &Option<DebugInfo>,
    writer: &mut Writer<'_, W>,
) -> WriteResult
    ensures { WritesSomeText result (IsJsonLine (IsExpectationsJson notes.now lab.now)) W.contents writer.old writer.new }
{
    match known_expectations(alloc, notes) {
        Ok(expectations) => write_statuses(lab, expectations.as_slice(), writer),
        Err(_) => write_lab_refusal(b"expectations", LabFault::Memory, writer),
    }
}

/// Writes the status of each of these expectations.
fn write_statuses<W: Write>(
    lab: &Lab,
    expectations: &[LineExpectation],
    writer: &mut Writer<'_, W>,
) -> WriteResult
    ensures { WritesSomeText result (IsJsonLine (AreStatusesJson lab.now expectations.now)) W.contents writer.old writer.new }
{
    let chip = lab.chip();
    let stuck = find_deadlocked_nodes(chip);
    let is_quiet = is_quiescent(chip);
    write_status_rows(lab, &stuck, is_quiet, expectations, writer)
}

/// Writes the status of each of these expectations, where these nodes are deadlocked and an event is possible or none is.
fn write_status_rows<W: Write>(
    lab: &Lab,
    stuck: &[bool; 144],
    is_quiet: bool,
    expectations: &[LineExpectation],
    writer: &mut Writer<'_, W>,
) -> WriteResult
    ensures { WritesExactly result (json_line (statuses_json (is_node_flagged stuck.now) is_quiet lab.now expectations.now)) W.contents writer.old writer.new }
{
    let mut rows = StatusRows {
        lab,
        stuck,
        is_quiet,
        rest: expectations,
    };
    write_report(&statuses_head_fields(), &mut rows, writer)
}

/// The expectations whose rows are not written yet.
#[derive(Drop)]
struct StatusRows<'e> {
    lab: &'e Lab,
    stuck: &'e [bool; 144],
    is_quiet: bool,
    rest: &'e [LineExpectation],
}

impl<'e> RowCursor<'e> for StatusRows<'e> {
    ghost left = { λ rows. json_rows_of_items (status_row (is_node_flagged rows.stuck.now) rows.is_quiet rows.lab.now) rows.rest.now };

    fn next(&mut self) -> Option<RowFields<'e>> {
        match self.rest.split_first() {
            Some((one, rest)) => {
                self.rest = rest;
                Some(status_row(self.lab, self.stuck, self.is_quiet, one))
            }
            None => None,
        }
    }
}

/// The command.
fn statuses_head_fields() -> [Field<'static>; 1]
    ensures { map named_field_value result ≡ statuses_head_fields }
{
    [Field::text(b"command", b"expectations")]
}

/// The status of an expectation, where these nodes are deadlocked and an event is possible or none is.
fn status_row<'e>(
    lab: &Lab,
    stuck: &[bool; 144],
    is_quiet: bool,
    one: &'e LineExpectation,
) -> RowFields<'e>
    ensures { row_json result.items ≡ status_row (is_node_flagged stuck.now) is_quiet lab.now one.now }
{
    let status = expectation_status(lab, stuck, is_quiet, &one.expectation);
    let mut row = status_front_fields(one, &status);
    push_status_details(&mut row, &status);
    row
}

/// The line and the words of an expectation, its status, and what breaks it, in a word.
fn status_front_fields<'e>(one: &'e LineExpectation, status: &ExpectationStatus) -> RowFields<'e>
    ensures front { map named_field_value result.items ≡ status_front_fields one.now status.now }
    ensures few { array_vec_len result ≤ 4 }
{
    let word = status_keyword(*status);
    let cause = cause_field(*status);
    row_fields(&[
        Field::number(b"line", u64::from(one.line)),
        text_field(b"text", one.text.as_slice()),
        Field::text(b"outcome", word),
        cause,
    ])
}

/// The status of an expectation, in a word.
fn status_keyword(status: ExpectationStatus) -> &'static [u8]
    ensures { result.now ≡ status_keyword status }
{
    match status {
        ExpectationStatus::Held => b"held",
        ExpectationStatus::Broken(_) => b"broken",
        ExpectationStatus::Pending => b"pending",
    }
}

/// What breaks an expectation, in a word, if it is broken.
fn cause_field<'e>(status: ExpectationStatus) -> Field<'e>
    ensures { named_field_value result ≡ (codes "because", status_cause_json status) }
{
    match status {
        ExpectationStatus::Held => Field::absent(b"because"),
        ExpectationStatus::Broken(breach) => {
            Field::text(b"because", session_breach_keyword(breach))
        }
        ExpectationStatus::Pending => Field::absent(b"because"),
    }
}

/// What breaks an expectation in a session, in a word.
fn session_breach_keyword(breach: SessionBreach) -> &'static [u8]
    ensures { result.now ≡ session_breach_keyword breach }
{
    match breach {
        SessionBreach::Unmet(observation) => observation_keyword(observation),
        SessionBreach::Reached(_) => b"event",
        SessionBreach::Stuck(_) => b"stuck",
        SessionBreach::OverLink { fault, .. } => link_fault_keyword(fault),
    }
}

/// Adds what breaks an expectation, if it is broken.
fn push_status_details<'e>(row: &mut RowFields<'e>, status: &ExpectationStatus)
    requires { array_vec_len row.old + MAX_ACTION_FIELDS ≤ MAX_FIELDS }
    ensures { map named_field_value row.new.items ≡ map named_field_value row.old.items ++ status_detail_fields status.now }
{
    match status {
        ExpectationStatus::Held => {}
        ExpectationStatus::Broken(breach) => push_session_breach(row, *breach),
        ExpectationStatus::Pending => {}
    }
}

/// Adds what breaks an expectation in a session.
fn push_session_breach<'e>(row: &mut RowFields<'e>, breach: SessionBreach)
    requires { array_vec_len row.old + MAX_ACTION_FIELDS ≤ MAX_FIELDS }
    ensures { map named_field_value row.new.items ≡ map named_field_value row.old.items ++ session_breach_fields breach }
{
    match breach {
        SessionBreach::Unmet(observation) => {
            push_fields(row, observation_fields(observation).as_slice());
        }
        SessionBreach::Reached(made) => push_made_event(row, made),
        SessionBreach::Stuck(node) => push_fields(row, &[Field::node(b"node", node)]),
        SessionBreach::OverLink { place, fault } => {
            push_fields(row, link_fault_fields(place, fault).as_slice());
        }
    }
}
