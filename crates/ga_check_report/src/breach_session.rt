//! The session that leads to what breaks an expectation.

ghost use Rattle.std.specs.Prelude.{◌≡◌, ◌≤◌, ◌⊎◌, length, IfErr, OnOk, IfSome, IfNone};
ghost use Rattle.ga_text.specs.Output.{WritesExactly, WritesText};
ghost use Rattle.ga_lab.specs.Machine.{chip_of_machine};
ghost use Rattle.ga_lab.specs.declared.fault.LabFault.TheVariants.{Memory, Full};
ghost use Rattle.ga_state_ends.specs.Ends.{AreEndsOfChip};
ghost use Rattle.ga_state_conditions.specs.Reached.{IsReachedEvent, HasNoReachedEvent};
ghost use Rattle.ga_state_expectations.specs.Unmet.{IsUnmetChipOfState, IsFirstUnmetChip};
ghost use Rattle.ga_state_expectations.specs.declared.source.Expectation.TheVariants.{NodeAtEveryEnd, Never};
ghost use Rattle.ga_check_report.specs.inner.{IsNeverOfConditions, WritesSessionOfExpectation};
ghost use Rattle.ga_check_report.specs.Checking.{IsWrittenWithVerdictOrFails};
ghost use Rattle.ga_check_report.specs.ExpectationTexts.{unbroken_expectation_text};
ghost use Rattle.ga_check_report.specs.Expected.{unbroken_expectation_verdict, LeadsToBreach};
ghost use Rattle.ga_check_report.specs.EndTexts.{is_fully_explored};

use crate::ends_text::is_fully_explored;
use crate::judging::{judge_count, judge_endless, without_breach};
use crate::link_breach::tell_link;
use crate::making::make_all;
use crate::never::make_reached;
use crate::outcome::{ExpectationOutcome, is_outcome_unknown};
use crate::outcome_text::{no_session_front, write_expectation};
use crate::report::{Verdict, sent, tell_refused, tell_saved_as};
use crate::request::CheckRequest;
use ga_console::Status;
use ga_lab::{Lab, LabFault};
use ga_state_conditions::{ReachedEvent, StateCondition, StateConditions, find_reached_event};
use ga_state_ends::FoundEnds;
use ga_state_expectations::{
    Expectation, LineExpectation, NodeExpectation, UnmetChip, find_unmet_expectation_chip,
};
use ga_text::{WriteResult, Writer};
use std::alloc::Global;
use std::io::Write;

/// Writes the session of the expectation with this number, from 1 on.
pub(crate) fn tell_one<W: Write>(
    alloc: Global,
    lab: &mut Lab,
    found: &mut FoundEnds,
    one: &LineExpectation,
    request: CheckRequest<'_>,
    asked: u32,
    writer: &mut W,
) -> Verdict
    requires { AreEndsOfChip (chip_of_machine lab.old) found.old }
    ensures { WritesText (λ text. WritesSessionOfExpectation request.entry one.now asked lab.old text result) (W.contents writer.old) (W.contents writer.new) }
{
    match &one.expectation {
        Expectation::NodeAtEveryEnd(expectation) => {
            tell_unmet(alloc, lab, found, one, expectation, request, asked, writer)
        }
        Expectation::Never(conditions) => {
            tell_never(alloc, lab, found, one, conditions, request, asked, writer)
        }
        Expectation::LinkPassesWords(expected) => {
            tell_link(alloc, lab, found, one, expected, request, asked, writer)
        }
        Expectation::EveryOrderEnds => {
            tell_unbroken(found, one, asked, &judge_endless(found), writer)
        }
        Expectation::OneEnd => tell_unbroken(found, one, asked, &judge_count(found), writer),
    }
}

/// Writes the session that leads to the first chip of an end on which the expectation isn't met.
fn tell_unmet<W: Write>(
    alloc: Global,
    lab: &mut Lab,
    found: &mut FoundEnds,
    one: &LineExpectation,
    expectation: &NodeExpectation,
    request: CheckRequest<'_>,
    asked: u32,
    writer: &mut W,
) -> Verdict
    requires ends { AreEndsOfChip (chip_of_machine lab.old) found.old }
    requires said { one.now.expectation ≡ NodeAtEveryEnd expectation.now }
    ensures { WritesText (λ text. WritesSessionOfExpectation request.entry one.now asked lab.old text result) (W.contents writer.old) (W.contents writer.new) }
{
    match find_unmet_expectation_chip(alloc, found, expectation) {
        Ok(unmet) => tell_by_chip(
            alloc,
            lab,
            found,
            one,
            expectation,
            unmet,
            request,
            asked,
            writer,
        ),
        Err(_) => tell_refused(request.format, LabFault::Memory, writer),
    }
}

/// The same, by that chip, if there is one.
fn tell_by_chip<W: Write>(
    alloc: Global,
    lab: &mut Lab,
    found: &FoundEnds,
    one: &LineExpectation,
    expectation: &NodeExpectation,
    unmet: Option<UnmetChip>,
    request: CheckRequest<'_>,
    asked: u32,
    writer: &mut W,
) -> Verdict
    requires ends { AreEndsOfChip (chip_of_machine lab.old) found.now }
    requires said { one.now.expectation ≡ NodeAtEveryEnd expectation.now }
    requires unmet { IsFirstUnmetChip found.now expectation.now unmet }
    ensures { WritesText (λ text. WritesSessionOfExpectation request.entry one.now asked lab.old text result) (W.contents writer.old) (W.contents writer.new) }
{
    match unmet {
        Some(unmet) => tell_path(
            alloc,
            lab,
            found,
            one,
            expectation,
            unmet,
            request,
            asked,
            writer,
        ),
        None => tell_unbroken(found, one, asked, &without_breach(found), writer),
    }
}

/// Writes the session that leads to a chip of an end on which the expectation isn't met.
fn tell_path<W: Write>(
    alloc: Global,
    lab: &mut Lab,
    found: &FoundEnds,
    one: &LineExpectation,
    expectation: &NodeExpectation,
    unmet: UnmetChip,
    request: CheckRequest<'_>,
    asked: u32,
    writer: &mut W,
) -> Verdict
    requires ends { AreEndsOfChip (chip_of_machine lab.old) found.now }
    requires said { one.now.expectation ≡ NodeAtEveryEnd expectation.now }
    requires unmet { IsUnmetChipOfState found.now expectation.now unmet.state unmet }
    ensures { WritesText (λ text. WritesSessionOfExpectation request.entry one.now asked lab.old text result) (W.contents writer.old) (W.contents writer.new) }
{
    match lead_to_chip(alloc, lab, found, expectation, unmet) {
        Ok(()) => tell_saved_as(Verdict::SessionWritten, lab, writer),
        Err(LabFault::Full) => tell_refused(request.format, LabFault::Full, writer),
        Err(_) => tell_refused(request.format, LabFault::Memory, writer),
    }
}

/// Makes the events that lead to a chip of an end on which the expectation isn't met.
///
/// # Errors
/// [`LabFault::Full`] or [`LabFault::Memory`]; some of the events may be kept then.
fn lead_to_chip(
    alloc: Global,
    lab: &mut Lab,
    found: &FoundEnds,
    expectation: &NodeExpectation,
    unmet: UnmetChip,
) -> Result<(), LabFault>
    requires ends { AreEndsOfChip (chip_of_machine lab.old) found.now }
    requires unmet { IsUnmetChipOfState found.now expectation.now unmet.state unmet }
    ensures led { OnOk result (LeadsToBreach lab.old (NodeAtEveryEnd expectation.now) lab.new) }
    ensures faults { IfErr result (λ why. (why ≡ Full) ⊎ (why ≡ Memory)) }
{
    match found.path_along_edge(alloc, unmet.state, unmet.passed) {
        Ok(events) => make_all(lab, events.as_slice()),
        Err(_) => Err(LabFault::Memory),
    }
}

/// Writes the session that leads to an event after which one of the conditions holds.
fn tell_never<W: Write>(
    alloc: Global,
    lab: &mut Lab,
    found: &mut FoundEnds,
    one: &LineExpectation,
    conditions: &StateConditions,
    request: CheckRequest<'_>,
    asked: u32,
    writer: &mut W,
) -> Verdict
    requires ends { AreEndsOfChip (chip_of_machine lab.old) found.old }
    requires said { one.now.expectation ≡ Never conditions.now }
    ensures { WritesText (λ text. WritesSessionOfExpectation request.entry one.now asked lab.old text result) (W.contents writer.old) (W.contents writer.new) }
{
    let listed = conditions.as_slice();
    match find_reached_event(alloc, found, listed) {
        Ok(reached) => tell_by_event(
            alloc, lab, found, one, listed, reached, request, asked, writer,
        ),
        Err(_) => tell_refused(request.format, LabFault::Memory, writer),
    }
}

/// The same, by that event, if there is one.
fn tell_by_event<W: Write>(
    alloc: Global,
    lab: &mut Lab,
    found: &mut FoundEnds,
    one: &LineExpectation,
    conditions: &[StateCondition],
    reached: Option<ReachedEvent>,
    request: CheckRequest<'_>,
    asked: u32,
    writer: &mut W,
) -> Verdict
    requires few { length conditions.now ≤ 8 }
    requires ends { AreEndsOfChip (chip_of_machine lab.old) found.old }
    requires said { IsNeverOfConditions conditions.now one.now.expectation }
    requires reached { IfSome reached (IsReachedEvent found.old conditions.now) }
    requires none { IfNone reached (HasNoReachedEvent found.old conditions.now) }
    ensures { WritesText (λ text. WritesSessionOfExpectation request.entry one.now asked lab.old text result) (W.contents writer.old) (W.contents writer.new) }
{
    match reached {
        Some(reached) => tell_event(
            alloc, lab, found, one, conditions, reached, request, asked, writer,
        ),
        None => tell_unbroken(found, one, asked, &without_breach(found), writer),
    }
}

/// Writes the session that leads to the event.
fn tell_event<W: Write>(
    alloc: Global,
    lab: &mut Lab,
    found: &mut FoundEnds,
    one: &LineExpectation,
    conditions: &[StateCondition],
    reached: ReachedEvent,
    request: CheckRequest<'_>,
    asked: u32,
    writer: &mut W,
) -> Verdict
    requires few { length conditions.now ≤ 8 }
    requires ends { AreEndsOfChip (chip_of_machine lab.old) found.old }
    requires said { IsNeverOfConditions conditions.now one.now.expectation }
    requires reached { IsReachedEvent found.old conditions.now reached }
    ensures { WritesText (λ text. WritesSessionOfExpectation request.entry one.now asked lab.old text result) (W.contents writer.old) (W.contents writer.new) }
{
    match make_reached(alloc, lab, found, reached, conditions) {
        Ok(_made) => tell_saved_as(Verdict::SessionWritten, lab, writer),
        Err(LabFault::Full) => tell_refused(request.format, LabFault::Full, writer),
        Err(_) => tell_refused(request.format, LabFault::Memory, writer),
    }
}

/// Writes that no session leads to what breaks the expectation, with what is known of it.
pub(crate) fn tell_unbroken<W: Write>(
    found: &FoundEnds,
    one: &LineExpectation,
    asked: u32,
    outcome: &ExpectationOutcome,
    writer: &mut W,
) -> Verdict
    ensures { WritesText (λ text. IsWrittenWithVerdictOrFails (unbroken_expectation_text (is_fully_explored found.now.fault) asked one.now outcome.now) (unbroken_expectation_verdict outcome.now) text result)
        (W.contents writer.old) (W.contents writer.new) }
{
    let mut out = Writer::new(writer);
    let said = write_unbroken(is_fully_explored(found), one, asked, outcome, &mut out);
    sent(said, unbroken_expectation_verdict(outcome), &mut out)
}

/// Writes that no session leads to what breaks the expectation.
///
/// # Errors
/// A write failed.
fn write_unbroken<W: Write>(
    whole: bool,
    one: &LineExpectation,
    asked: u32,
    outcome: &ExpectationOutcome,
    writer: &mut Writer<'_, W>,
) -> WriteResult
    ensures { WritesExactly result (unbroken_expectation_text whole asked one.now outcome.now) W.contents writer.old writer.new }
{
    writer.write_blocks(no_session_front(asked).as_slice())?;
    write_expectation(whole, asked as usize, one, *outcome, writer)
}

/// The verdict where no session leads to what breaks an expectation: there is none, or it isn't known.
fn unbroken_expectation_verdict(outcome: &ExpectationOutcome) -> Verdict
    ensures { result ≡ unbroken_expectation_verdict outcome.now }
{
    if is_outcome_unknown(*outcome) {
        Verdict::Unknown
    } else {
        Verdict::FailedWithStatus(Status::ImageRefused)
    }
}
