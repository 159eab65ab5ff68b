//! Whether an event can come after which a condition holds, and the text about that.

ghost use Rattle.std.specs.Prelude.{◌≡◌, ◌≤◌, ◌⊎◌, false, length, IfOk, IfErr, IfSome, IfNone};
ghost use Rattle.ga_text.specs.Output.{WritesExactly, WritesText, ReadsAndWrites};
ghost use Rattle.ga_lab.specs.Machine.{chip_of_machine};
ghost use Rattle.ga_lab.specs.declared.fault.LabFault.TheVariants.{Memory, Full};
ghost use Rattle.ga_state_ends.specs.Ends.{AreEndsOfChip};
ghost use Rattle.ga_state_conditions.specs.Asked.{parsed_state_conditions};
ghost use Rattle.ga_state_conditions.specs.Reached.{IsReachedEvent, HasNoReachedEvent};
ghost use Rattle.ga_check_report.specs.declared.report.Verdict.TheVariants.{Unclean};
ghost use Rattle.ga_check_report.specs.Answers.{reached_event_answer, unreached_event_answer};
ghost use Rattle.ga_check_report.specs.Checking.{IsWrittenWithVerdictOrFails};
ghost use Rattle.ga_check_report.specs.Never.{unreached_event_verdict, HasReachedEvent, WritesNeverCheckReport, WritesReportForConditions, IsNeverCheckOutcome};
ghost use Rattle.ga_check_report.specs.Settled.{check_start_state};

use crate::ends_text::is_fully_explored;
use crate::making::{make, make_all};
use crate::never_json::{write_reached_json, write_unreached_json};
use crate::never_text::{write_made, write_unreached_text};
use crate::opening::open_program;
use crate::report::{Verdict, sent, tell_refused, tell_saved_as};
use crate::request::CheckRequest;
use crate::settling::settle_idle_nodes;
use ga_explorer::Explorer;
use ga_json::ReportFormat;
use ga_lab::{Lab, LabFault, MadeEvent};
use ga_state_conditions::{
    ConditionFault, ReachedEvent, StateCondition, find_reached_event, find_session_reaching_event,
    parse_state_conditions,
};
use ga_state_ends::{FoundEnds, find_ends};
use ga_state_search::SearchControl;
use ga_text::{InputBuffer, WriteResult, Writer};
use std::alloc::Global;
use std::io::{Read, Write};

/// Reads an image or source as [`crate::check_ends`] does. Writes whether an event can come, whatever the order in which its nodes run, after
/// which one of the conditions holds; if one can, the event, or with `session` the lines `step NNN` that lead there. The
/// verdict is `Clean` where none can come, `Unclean` where one was found.
///
/// # Errors
/// The fault of the conditions. Then nothing is written.
pub fn check_never_conditions<R: Read, W: Write, E: Write>(
    alloc: Global,
    reader: &mut R,
    writer: &mut W,
    errors: &mut E,
    request: CheckRequest<'_>,
    limit: u32,
    settles: bool,
    asked: &[u8],
    session: bool,
    watch: &SearchControl,
) -> Result<Verdict, ConditionFault>
    // If the streams report their bytes: what was read, and what was written for it by the verdict.
    ensures { ReadsAndWrites (λ read rest text. IsNeverCheckOutcome request.entry limit settles asked.now session read rest text result)
        (R.remaining reader.old) (R.remaining reader.new) (W.contents writer.old) (W.contents writer.new) }
{
    let mut input = InputBuffer::new();
    match open_program(
        alloc,
        &mut input,
        reader,
        writer,
        errors,
        request.format,
        limit,
    ) {
        Ok(begun) => answer_conditions(
            alloc, begun, request, settles, asked, session, watch, writer,
        ),
        Err(status) => Ok(Verdict::FailedWithStatus(status)),
    }
}

/// Writes what a machine reaches of the conditions of a text.
fn answer_conditions<W: Write>(
    alloc: Global,
    begun: Explorer,
    request: CheckRequest<'_>,
    settles: bool,
    asked: &[u8],
    session: bool,
    watch: &SearchControl,
    writer: &mut W,
) -> Result<Verdict, ConditionFault>
    ensures { WritesText (λ text. WritesReportForConditions (parsed_state_conditions begun.notes asked.now) request.entry session (check_start_state settles begun.lab) text result)
        (W.contents writer.old) (W.contents writer.new) }
{
    match parse_state_conditions(begun.notes(), asked) {
        Ok(conditions) => Ok(settle_and_look(
            alloc,
            &mut begun.into_lab(),
            request,
            settles,
            conditions.as_slice(),
            session,
            watch,
            writer,
        )),
        Err(fault) => Err(fault),
    }
}

/// Writes what a lab's chip reaches, from where its idle nodes wait if they are to.
fn settle_and_look<W: Write>(
    alloc: Global,
    lab: &mut Lab,
    request: CheckRequest<'_>,
    settles: bool,
    conditions: &[StateCondition],
    session: bool,
    watch: &SearchControl,
    writer: &mut W,
) -> Verdict
    requires few { length conditions.now ≤ 8 }
    ensures { WritesText (λ text. WritesNeverCheckReport request.entry conditions.now session (check_start_state settles lab.old) text result)
        (W.contents writer.old) (W.contents writer.new) }
{
    match settle_idle_nodes(lab, settles) {
        Ok(()) => look_for(alloc, lab, request, conditions, session, watch, writer),
        Err(_) => tell_refused(request.format, LabFault::Memory, writer),
    }
}

/// Searches the states of a lab's chip, and writes what it reaches.
fn look_for<W: Write>(
    alloc: Global,
    lab: &mut Lab,
    request: CheckRequest<'_>,
    conditions: &[StateCondition],
    session: bool,
    watch: &SearchControl,
    writer: &mut W,
) -> Verdict
    requires few { length conditions.now ≤ 8 }
    ensures { WritesText (λ text. WritesNeverCheckReport request.entry conditions.now session lab.old text result) (W.contents writer.old) (W.contents writer.new) }
{
    match find_ends(alloc, lab.chip(), request.most, watch) {
        Ok(mut found) => look_among(alloc, lab, &mut found, request, conditions, session, writer),
        Err(_) => tell_refused(request.format, LabFault::Memory, writer),
    }
}

/// Writes after which event of a search one of the conditions holds, or that none does.
fn look_among<W: Write>(
    alloc: Global,
    lab: &mut Lab,
    found: &mut FoundEnds,
    request: CheckRequest<'_>,
    conditions: &[StateCondition],
    session: bool,
    writer: &mut W,
) -> Verdict
    requires few { length conditions.now ≤ 8 }
    requires ends { AreEndsOfChip (chip_of_machine lab.old) found.old }
    ensures { WritesText (λ text. WritesNeverCheckReport request.entry conditions.now session lab.old text result) (W.contents writer.old) (W.contents writer.new) }
{
    match find_reached_event(alloc, found, conditions) {
        Ok(reached) => tell_found_event(
            alloc, lab, found, request, reached, conditions, session, writer,
        ),
        Err(_) => tell_refused(request.format, LabFault::Memory, writer),
    }
}

/// Writes the event that was found, or its session, or that there is none.
fn tell_found_event<W: Write>(
    alloc: Global,
    lab: &mut Lab,
    found: &mut FoundEnds,
    request: CheckRequest<'_>,
    reached: Option<ReachedEvent>,
    conditions: &[StateCondition],
    session: bool,
    writer: &mut W,
) -> Verdict
    requires few { length conditions.now ≤ 8 }
    requires ends { AreEndsOfChip (chip_of_machine lab.old) found.old }
    requires reached { IfSome reached (IsReachedEvent found.old conditions.now) }
    requires none { IfNone reached (HasNoReachedEvent found.old conditions.now) }
    ensures { WritesText (λ text. WritesNeverCheckReport request.entry conditions.now session lab.old text result) (W.contents writer.old) (W.contents writer.new) }
{
    match reached {
        Some(reached) => tell_event(
            alloc, lab, found, request, reached, conditions, session, writer,
        ),
        None => tell_unreached(request, found, writer),
    }
}

/// Writes the event that was reached, or its session.
fn tell_event<W: Write>(
    alloc: Global,
    lab: &mut Lab,
    found: &mut FoundEnds,
    request: CheckRequest<'_>,
    reached: ReachedEvent,
    conditions: &[StateCondition],
    session: bool,
    writer: &mut W,
) -> Verdict
    requires few { length conditions.now ≤ 8 }
    requires ends { AreEndsOfChip (chip_of_machine lab.old) found.old }
    requires reached { IsReachedEvent found.old conditions.now reached }
    ensures { WritesText (λ text. WritesNeverCheckReport request.entry conditions.now session lab.old text result) (W.contents writer.old) (W.contents writer.new) }
{
    match make_reached(alloc, lab, found, reached, conditions) {
        Ok(made) => tell_reached(
            lab,
            request.format,
            conditions.len(),
            reached.which,
            made,
            session,
            writer,
        ),
        Err(LabFault::Full) => tell_refused(request.format, LabFault::Full, writer),
        Err(_) => tell_refused(request.format, LabFault::Memory, writer),
    }
}

/// Makes the events of a session that leads to the reached event, and then that one.
///
/// # Errors
/// [`LabFault::Full`] or [`LabFault::Memory`]; some of the events may be kept then.
pub(crate) fn make_reached(
    alloc: Global,
    lab: &mut Lab,
    found: &mut FoundEnds,
    reached: ReachedEvent,
    conditions: &[StateCondition],
) -> Result<MadeEvent, LabFault>
    requires few { length conditions.now ≤ 8 }
    requires ends { AreEndsOfChip (chip_of_machine lab.old) found.old }
    requires reached { IsReachedEvent found.old conditions.now reached }
    ensures made { IfOk result (λ made. HasReachedEvent conditions.now reached.which lab.old lab.new made) }
    ensures faults { IfErr result (λ why. (why ≡ Full) ⊎ (why ≡ Memory)) }
    ensures same { found.new ≡ found.old }
{
    match find_session_reaching_event(alloc, found, conditions, reached) {
        Ok(events) => {
            make_all(lab, events.as_slice())?;
            make(lab, reached.event)
        }
        Err(_) => Err(LabFault::Memory),
    }
}

/// Writes the newest event of a lab, after which the condition at this place holds, or the session of its events.
fn tell_reached<W: Write>(
    lab: &Lab,
    format: ReportFormat<'_>,
    conditions: usize,
    which: u8,
    made: MadeEvent,
    session: bool,
    writer: &mut W,
) -> Verdict
    ensures { WritesText (λ text. IsWrittenWithVerdictOrFails (reached_event_answer format.entry session conditions which made lab.now) Unclean text result)
        (W.contents writer.old) (W.contents writer.new) }
{
    if session {
        tell_saved_as(Verdict::Unclean, lab, writer)
    } else {
        tell_made(lab, format, conditions, which, made, writer)
    }
}

/// Writes the newest event of a lab, and what is pending.
fn tell_made<W: Write>(
    lab: &Lab,
    format: ReportFormat<'_>,
    conditions: usize,
    which: u8,
    made: MadeEvent,
    writer: &mut W,
) -> Verdict
    ensures { WritesText (λ text. IsWrittenWithVerdictOrFails (reached_event_answer format.entry false conditions which made lab.now) Unclean text result)
        (W.contents writer.old) (W.contents writer.new) }
{
    let mut out = Writer::new(writer);
    let said = write_reached(lab, format, conditions, which, made, &mut out);
    sent(said, Verdict::Unclean, &mut out)
}

/// Writes the newest event of a lab in the requested format.
///
/// # Errors
/// A write failed.
fn write_reached<W: Write>(
    lab: &Lab,
    format: ReportFormat<'_>,
    conditions: usize,
    which: u8,
    made: MadeEvent,
    writer: &mut Writer<'_, W>,
) -> WriteResult
    ensures { WritesExactly result (reached_event_answer format.entry false conditions which made lab.now) W.contents writer.old writer.new }
{
    match format {
        ReportFormat::Text => write_made(lab, conditions, which, made, writer),
        ReportFormat::Json(file) => {
            write_reached_json(file, lab.counts().kept, which, made, writer)
        }
    }
}

/// Writes that no such event was found, and what is pending.
fn tell_unreached<W: Write>(request: CheckRequest<'_>, found: &FoundEnds, writer: &mut W) -> Verdict
    ensures { WritesText (λ text. IsWrittenWithVerdictOrFails (unreached_event_answer request.entry found.now) (unreached_event_verdict found.now) text result)
        (W.contents writer.old) (W.contents writer.new) }
{
    let mut out = Writer::new(writer);
    let said = write_unreached(request, found, &mut out);
    sent(said, unreached_event_verdict(found), &mut out)
}

/// The verdict where no such event was found: none comes, or it isn't known.
fn unreached_event_verdict(found: &FoundEnds) -> Verdict
    ensures { result ≡ unreached_event_verdict found.now }
{
    if is_fully_explored(found) {
        Verdict::Clean
    } else {
        Verdict::Unknown
    }
}

/// Writes that no such event was found, in the requested format.
///
/// # Errors
/// A write failed.
fn write_unreached<W: Write>(
    request: CheckRequest<'_>,
    found: &FoundEnds,
    writer: &mut Writer<'_, W>,
) -> WriteResult
    ensures { WritesExactly result (unreached_event_answer request.entry found.now) W.contents writer.old writer.new }
{
    match request.format {
        ReportFormat::Text => write_unreached_text(request, found, writer),
        ReportFormat::Json(file) => write_unreached_json(file, found, writer),
    }
}
