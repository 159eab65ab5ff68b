//! What a search shows of the words over a link, and the session that leads to what breaks an expectation of them.

ghost use Rattle.std.specs.Prelude.{◌≡◌, ◌⊎◌, List, IfOk, OnOk, IfErr, IfSome, IfNone};
ghost use Rattle.ga_text.specs.Output.{WritesText};
ghost use Rattle.ga_node.specs.Record.{NodeRecord};
ghost use Rattle.ga_lab.specs.Machine.{chip_of_machine};
ghost use Rattle.ga_lab.specs.declared.fault.LabFault.TheVariants.{Memory, Full};
ghost use Rattle.ga_state_ends.specs.Ends.{AreEndsOfChip};
ghost use Rattle.ga_state_links.specs.LinkExpectations.{IsLinkBreach};
ghost use Rattle.ga_state_links.specs.Places.{HasNoLinkBreach};
ghost use Rattle.ga_state_expectations.specs.declared.source.Expectation.TheVariants.{LinkPassesWords};
ghost use Rattle.ga_check_report.specs.Outcomes.{IsLinkWordsBreach, IsOutcomeOfSearchFindings};
ghost use Rattle.ga_check_report.specs.Expected.{LeadsToBreach};
ghost use Rattle.ga_check_report.specs.inner.{WritesSessionOfExpectation};

use crate::breach_session::tell_unbroken;
use crate::judging::without_breach;
use crate::making::make_all;
use crate::outcome::{Breach, ExpectationOutcome};
use crate::report::{Verdict, tell_refused, tell_saved_as};
use crate::request::CheckRequest;
use ga_lab::{Lab, LabFault};
use ga_state_ends::FoundEnds;
use ga_state_expectations::LineExpectation;
use ga_state_links::{LinkBreach, LinkExpectation, find_link_breach};
use std::alloc::Global;
use std::io::Write;

/// What is known of the words that are expected over a link.
///
/// # Errors
/// Out of memory.
pub(crate) fn judge_link(
    alloc: Global,
    found: &mut FoundEnds,
    expected: &LinkExpectation,
) -> Result<ExpectationOutcome, LabFault>
    requires { (load : List NodeRecord) × AreEndsOfChip load found.old }
    ensures known { (load : List NodeRecord) → AreEndsOfChip load found.old →
        IfOk result (IsOutcomeOfSearchFindings found.old (HasNoLinkBreach found.old expected.now) (IsLinkWordsBreach load expected.now)) }
    ensures faults { IfErr result (λ why. (why ≡ Full) ⊎ (why ≡ Memory)) }
    ensures same { found.new ≡ found.old }
{
    match find_link_breach(alloc, found, expected) {
        Ok(breach) => Ok(link_outcome(found, expected, &breach)),
        Err(_) => Err(LabFault::Memory),
    }
}

/// The same, by what breaks the expectation, if something does.
fn link_outcome(
    found: &FoundEnds,
    expected: &LinkExpectation,
    breach: &Option<LinkBreach>,
) -> ExpectationOutcome
    requires { IfNone breach.now (HasNoLinkBreach found.now expected.now) }
    ensures { (load : List NodeRecord) → IfSome breach.now (λ it. IsLinkBreach load expected.now it.events.items it.place it.fault) →
        IsOutcomeOfSearchFindings found.now (HasNoLinkBreach found.now expected.now) (IsLinkWordsBreach load expected.now) result }
{
    match breach {
        Some(it) => ExpectationOutcome::Broken(Breach::OverLink {
            place: it.place,
            fault: it.fault,
        }),
        None => without_breach(found),
    }
}

/// Writes the session that leads to the word over a link that breaks the expectation, or after which one is missing.
pub(crate) fn tell_link<W: Write>(
    alloc: Global,
    lab: &mut Lab,
    found: &mut FoundEnds,
    one: &LineExpectation,
    expected: &LinkExpectation,
    request: CheckRequest<'_>,
    asked: u32,
    writer: &mut W,
) -> Verdict
    requires ends { AreEndsOfChip (chip_of_machine lab.old) found.old }
    requires said { one.now.expectation ≡ LinkPassesWords expected.now }
    ensures { WritesText (λ text. WritesSessionOfExpectation request.entry one.now asked lab.old text result) (W.contents writer.old) (W.contents writer.new) }
{
    match find_link_breach(alloc, found, expected) {
        Ok(breach) => tell_by_breach(lab, found, one, expected, &breach, request, asked, writer),
        Err(_) => tell_refused(request.format, LabFault::Memory, writer),
    }
}

/// The same, by what breaks it, if something does.
fn tell_by_breach<W: Write>(
    lab: &mut Lab,
    found: &FoundEnds,
    one: &LineExpectation,
    expected: &LinkExpectation,
    breach: &Option<LinkBreach>,
    request: CheckRequest<'_>,
    asked: u32,
    writer: &mut W,
) -> Verdict
    requires ends { AreEndsOfChip (chip_of_machine lab.old) found.now }
    requires said { one.now.expectation ≡ LinkPassesWords expected.now }
    requires breach { IfSome breach.now (λ it. IsLinkBreach (chip_of_machine lab.old) expected.now it.events.items it.place it.fault) }
    requires none { IfNone breach.now (HasNoLinkBreach found.now expected.now) }
    ensures { WritesText (λ text. WritesSessionOfExpectation request.entry one.now asked lab.old text result) (W.contents writer.old) (W.contents writer.new) }
{
    match breach {
        Some(it) => tell_breach(lab, one, expected, it, request, asked, writer),
        None => tell_unbroken(found, one, asked, &without_breach(found), writer),
    }
}

/// Writes the session of what breaks it.
fn tell_breach<W: Write>(
    lab: &mut Lab,
    one: &LineExpectation,
    expected: &LinkExpectation,
    breach: &LinkBreach,
    request: CheckRequest<'_>,
    asked: u32,
    writer: &mut W,
) -> Verdict
    requires said { one.now.expectation ≡ LinkPassesWords expected.now }
    requires breach { IsLinkBreach (chip_of_machine lab.old) expected.now breach.now.events.items breach.now.place breach.now.fault }
    ensures { WritesText (λ text. WritesSessionOfExpectation request.entry one.now asked lab.old text result) (W.contents writer.old) (W.contents writer.new) }
{
    match make_link_breach(lab, expected, breach) {
        Ok(()) => tell_saved_as(Verdict::SessionWritten, lab, writer),
        Err(LabFault::Full) => tell_refused(request.format, LabFault::Full, writer),
        Err(_) => tell_refused(request.format, LabFault::Memory, writer),
    }
}

/// Makes the events that break the expectation.
///
/// # Errors
/// [`LabFault::Full`] or [`LabFault::Memory`]; some of the events may be kept then.
fn make_link_breach(
    lab: &mut Lab,
    expected: &LinkExpectation,
    breach: &LinkBreach,
) -> Result<(), LabFault>
    requires { IsLinkBreach (chip_of_machine lab.old) expected.now breach.now.events.items breach.now.place breach.now.fault }
    ensures led { OnOk result (LeadsToBreach lab.old (LinkPassesWords expected.now) lab.new) }
    ensures faults { IfErr result (λ why. (why ≡ Full) ⊎ (why ≡ Memory)) }
{
    make_all(lab, breach.events.as_slice())
}
