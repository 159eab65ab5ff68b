//! The text of the ends of a program: the numbers of states and of kinds of end, then each kind of end, then what the search leaves open.

ghost use Rattle.std.specs.Prelude.{◌≡◌, ◌≤◌, ◌+◌, ◌++◌, length, codes, decimal};
ghost use Rattle.arrayvec.specs.ArrayVec.{array_vec_len};
ghost use Rattle.ga_text.specs.Output.{WritesExactly};
ghost use Rattle.ga_check_report.specs.declared.end_nodes.EndPart.TheVariants.{Reading, Writing};
ghost use Rattle.ga_check_report.specs.EndTexts.{stopped_nodes_text, end_part_names_text, unclean_node_names_text, names_between_texts, halted_nodes_text, quiet_end_text, endless_end_text, end_description_text, node_ends_text, ends_of_kind_count_text, end_kind_line, unclean_nodes_line, end_kind_text, end_kind_with_decision_text, end_kinds_text, counted_noun_text, at_least_text, is_fully_explored, ends_header, search_stop_text, termination_text, final_line_text, ends_text, no_such_end_kind_text};

use crate::decision_text::decision_line;
use crate::end_nodes::{EndPart, NAMES_ROOM, STOPS_ROOM, nodes_of, stops_among, unclean_among};
use crate::request::CheckRequest;
use arrayvec::ArrayVec;
use ga_state_ends::{EndDecision, EndKind, FoundEnds, NodeEnd};
use ga_state_search::SearchFault;
use ga_text::{MAX_NUMBER_DIGITS, TextBuffer, WriteResult, Writer, push_number, push_text};
use std::io::Write;

/// The maximum number of bytes of what the nodes do that make no further step.
const STILL_ROOM: usize = STOPS_ROOM
    + b",".len()
    + NAMES_ROOM
    + b" waiting to read".len()
    + b",".len()
    + NAMES_ROOM
    + b" waiting to write".len();

/// The text of what they do.
type Still = ArrayVec<u8, STILL_ROOM>;

/// The maximum number of bytes of what the nodes do at an end.
const END_ROOM: usize = b"goes on for ever".len() + NAMES_ROOM + b", with".len() + STILL_ROOM;

/// The maximum number of bytes of the line of a kind of end.
const LINE_ROOM: usize = END_ROOM
    + b", in ".len()
    + MAX_NUMBER_DIGITS
    + b" ways".len()
    + b": --session ".len()
    + MAX_NUMBER_DIGITS
    + b"\n".len();

/// The text of that line.
type EndLine = ArrayVec<u8, LINE_ROOM>;

const UNCLEAN_ROOM: usize = b"  not clean:".len() + NAMES_ROOM + b"\n".len();

/// The line of the nodes that don't rest cleanly.
type UncleanLine = ArrayVec<u8, UNCLEAN_ROOM>;

/// Writes the numbers of states and of kinds of end, each kind of end, and what the search leaves open.
///
/// # Errors
/// A write failed.
pub(crate) fn write_ends<W: Write>(
    request: CheckRequest<'_>,
    found: &FoundEnds,
    writer: &mut Writer<'_, W>,
) -> WriteResult
    ensures { WritesExactly result (ends_text request.entry found.now) W.contents writer.old writer.new }
{
    write_head(found, writer)?;
    write_kinds(found.kinds(), found, writer)?;
    write_last(request, found, writer)
}

/// Writes that there is no kind of end of this number, and how many there are.
///
/// # Errors
/// A write failed.
pub(crate) fn write_no_kind<W: Write>(
    asked: u32,
    found: &FoundEnds,
    writer: &mut Writer<'_, W>,
) -> WriteResult
    ensures { WritesExactly result (no_such_end_kind_text asked found.now) W.contents writer.old writer.new }
{
    writer.write_blocks(no_kind_line(
        asked,
        is_fully_explored(found),
        found.kinds().len(),
    ).as_slice())
}

/// That there is no kind of end of this number, and how many there are.
fn no_kind_line(asked: u32, whole: bool, kinds: usize) -> TextBuffer
    ensures { result.items ≡ codes "no kind " ++ decimal asked ++ codes ": there are " ++ at_least_text whole ++ decimal kinds ++ codes "\n" }
{
    let mut out = ArrayVec::new();
    push_text(&mut out, b"no kind ");
    push_number(&mut out, u64::from(asked));
    push_text(&mut out, b": there are ");
    push_text(&mut out, at_least_text(whole));
    push_number(&mut out, kinds as u64);
    push_text(&mut out, b"\n");
    out
}

/// Whether each state was explored.
pub(crate) fn is_fully_explored(found: &FoundEnds) -> bool
    ensures { result ≡ is_fully_explored found.now.fault }
{
    found.fault().is_none()
}

/// Writes the numbers of states and of kinds of end.
fn write_head<W: Write>(found: &FoundEnds, writer: &mut Writer<'_, W>) -> WriteResult
    ensures { WritesExactly result (ends_header (is_fully_explored found.now.fault) (length found.now.searched.chips) (length found.now.kinds))
        W.contents writer.old writer.new }
{
    writer.write_blocks(head_line(
        is_fully_explored(found),
        found.count_states(),
        found.kinds().len(),
    )
    .as_slice())
}

/// The numbers of states and of kinds of end.
fn head_line(whole: bool, states: usize, kinds: usize) -> TextBuffer
    ensures { result.items ≡ ends_header whole states kinds }
{
    let mut out = ArrayVec::new();
    push_text(&mut out, at_least_text(whole));
    push_counted(&mut out, states as u64, b" state");
    push_text(&mut out, b", ");
    push_text(&mut out, at_least_text(whole));
    push_counted(&mut out, kinds as u64, b" kind");
    push_text(&mut out, b" of end\n");
    out
}

/// Whether there may be more.
pub(crate) fn at_least_text(whole: bool) -> &'static [u8]
    ensures text { result.now ≡ at_least_text whole }
    ensures len { length result.now ≤ 9 }
{
    if whole { b"" } else { b"at least " }
}

/// Adds how many there are of a thing.
pub(crate) fn push_counted(out: &mut TextBuffer, number: u64, thing: &[u8])
    requires room { array_vec_len out.old ≤ 100 }
    requires short { length thing.now ≤ 12 }
    ensures text { out.new.items ≡ out.old.items ++ counted_noun_text number thing.now }
    ensures len { array_vec_len out.new ≤ array_vec_len out.old + 33 }
{
    push_number(out, number);
    push_text(out, thing);
    if number != 1 {
        push_text(out, b"s");
    }
}

/// Writes which bound was met, or whether some order never comes to an end.
fn write_last<W: Write>(
    request: CheckRequest<'_>,
    found: &FoundEnds,
    writer: &mut Writer<'_, W>,
) -> WriteResult
    ensures { WritesExactly result (final_line_text request.entry found.now.fault found.now.has_cycle_before found.now.has_cycle)
        W.contents writer.old writer.new }
{
    match found.fault() {
        None => writer.write_text(termination_text(
            found.has_endless_path_before_end(),
            !found.always_ends(),
        )),
        Some(fault) => writer.write_blocks(stopped_line(request, fault).as_slice()),
    }
}

/// Whether some order never comes to an end.
fn termination_text(before: bool, cycle: bool) -> &'static [u8]
    ensures { result.now ≡ termination_text before cycle }
{
    if before {
        b"it can go on for ever before\n"
    } else if cycle {
        b""
    } else {
        b"every order comes to an end\n"
    }
}

/// Why the search stopped before its end.
pub(crate) fn stopped_line(request: CheckRequest<'_>, fault: SearchFault) -> TextBuffer
    ensures text { result.items ≡ search_stop_text request.entry fault }
    ensures len { array_vec_len result ≤ 60 }
{
    let mut out = ArrayVec::new();
    match fault {
        SearchFault::Full => {
            push_text(&mut out, b"stopped at --most ");
            push_number(&mut out, u64::from(request.most));
            push_text(&mut out, b" states\n");
        }
        SearchFault::Stopped => {
            push_text(&mut out, b"stopped after --seconds ");
            push_number(&mut out, u64::from(request.seconds));
            push_text(&mut out, b"\n");
        }
        SearchFault::Memory => push_text(&mut out, b"stopped: no memory for more states\n"),
        SearchFault::ExceedsAssumptions => push_text(&mut out, b"stopped: begun anew too often\n"),
    }
    out
}

/// Writes these kinds of end, numbered from 1 on, and what decides of each, as was found.
fn write_kinds<W: Write>(
    kinds: &[EndKind],
    found: &FoundEnds,
    writer: &mut Writer<'_, W>,
) -> WriteResult
    ensures { WritesExactly result (end_kinds_text found.now.decisions 0 kinds.now) W.contents writer.old writer.new }
{
    'kinds: for place in 0..kinds.len() {
        write_decided_kind(
            place as u64 + 1,
            &kinds[place],
            found.decision(place),
            writer,
        )?;
    }
    Ok(())
}

/// Writes a kind of end, which has this number, and what decides that it isn't clean.
fn write_decided_kind<W: Write>(
    number: u64,
    kind: &EndKind,
    decision: Option<EndDecision>,
    writer: &mut Writer<'_, W>,
) -> WriteResult
    ensures { WritesExactly result (end_kind_with_decision_text number kind.now decision) W.contents writer.old writer.new }
{
    write_kind(number, kind, writer)?;
    writer.write_blocks(decision_line(decision).as_slice())
}

/// Writes a kind of end, which has this number, and the nodes that don't rest cleanly there.
fn write_kind<W: Write>(number: u64, kind: &EndKind, writer: &mut Writer<'_, W>) -> WriteResult
    ensures { WritesExactly result (end_kind_text number kind.now) W.contents writer.old writer.new }
{
    writer.write_blocks(end_kind_line(number, kind).as_slice())?;
    writer.write_blocks(unclean_nodes_line(&kind.unclean).as_slice())
}

/// The line of a kind of end, which has this number.
fn end_kind_line(number: u64, kind: &EndKind) -> EndLine
    ensures { result.items ≡ end_kind_line number (node_ends_text kind.now.nodes) kind.now.ends }
{
    let mut out = ArrayVec::new();
    push_end(&mut out, &kind.nodes);
    push_ways(&mut out, kind.ends);
    push_text(&mut out, b": --session ");
    push_number(&mut out, number);
    push_text(&mut out, b"\n");
    out
}

/// Adds how many ends are of the kind, if they are several.
fn push_ways(out: &mut EndLine, ends: u32)
    requires { array_vec_len out.old ≤ END_ROOM }
    ensures text { out.new.items ≡ out.old.items ++ ends_of_kind_count_text ends }
    ensures len { array_vec_len out.new ≤ array_vec_len out.old + 30 }
{
    if ends != 1 {
        push_text(out, b", in ");
        push_number(out, u64::from(ends));
        push_text(out, b" ways");
    }
}

/// Adds what the nodes do at an end.
fn push_end(out: &mut EndLine, nodes: &[NodeEnd; 144])
    requires { array_vec_len out.old ≡ 0 }
    ensures text { out.new.items ≡ out.old.items ++ node_ends_text nodes.now }
    ensures len { array_vec_len out.new ≤ END_ROOM }
{
    let going = nodes_of(EndPart::Continuing, nodes);
    let still = still_among(nodes);
    match going.as_slice().split_first() {
        None => push_ended(out, still.as_slice()),
        Some(_) => push_going(out, going.as_slice(), still.as_slice()),
    }
}

/// Adds an end at which no node runs on and the nodes do this.
fn push_ended(out: &mut EndLine, still: &[u8])
    requires room { array_vec_len out.old ≡ 0 }
    requires short { length still.now ≤ STILL_ROOM }
    ensures text { out.new.items ≡ out.old.items ++ quiet_end_text still.now }
    ensures len { array_vec_len out.new ≤ END_ROOM }
{
    match still.split_first() {
        None => push_text(out, b"ends quiet"),
        Some((_, parts)) => {
            push_text(out, b"ends with");
            push_text(out, parts);
        }
    }
}

/// Adds an end at which these nodes go on, and the others do this.
fn push_going(out: &mut EndLine, going: &[u8], still: &[u8])
    requires room { array_vec_len out.old ≡ 0 }
    requires going { length going.now ≤ NAMES_ROOM }
    requires short { length still.now ≤ STILL_ROOM }
    ensures text { out.new.items ≡ out.old.items ++ endless_end_text going.now still.now }
    ensures len { array_vec_len out.new ≤ END_ROOM }
{
    push_text(out, b"goes on for ever");
    push_text(out, going);
    if let Some((_, parts)) = still.split_first() {
        push_text(out, b", with");
        push_text(out, parts);
    }
}

/// What the nodes do that make no further step, each part after a comma.
fn still_among(nodes: &[NodeEnd; 144]) -> Still
    ensures text { result.items ≡ halted_nodes_text (stopped_nodes_text nodes.now) (end_part_names_text Reading nodes.now) (end_part_names_text Writing nodes.now) }
{
    let mut out = ArrayVec::new();
    push_text(&mut out, stops_among(nodes).as_slice());
    push_enclosed(
        &mut out,
        b",",
        b" waiting to read",
        nodes_of(EndPart::Reading, nodes).as_slice(),
    );
    push_enclosed(
        &mut out,
        b",",
        b" waiting to write",
        nodes_of(EndPart::Writing, nodes).as_slice(),
    );
    out
}

/// Adds some nodes between two texts; nothing where there are none.
fn push_enclosed<const ROOM: usize>(
    out: &mut ArrayVec<u8, ROOM>,
    before: &[u8],
    after: &[u8],
    names: &[u8],
)
    requires { array_vec_len out.old + length before.now + length after.now + length names.now ≤ ROOM }
    ensures text { out.new.items ≡ out.old.items ++ names_between_texts before.now after.now names.now }
    ensures len { array_vec_len out.new ≤ array_vec_len out.old + length before.now + length after.now + length names.now }
{
    if !names.is_empty() {
        push_text(out, before);
        push_text(out, names);
        push_text(out, after);
    }
}

/// The line of the nodes that don't rest cleanly, if there are any.
fn unclean_nodes_line(unclean: &[bool; 144]) -> UncleanLine
    ensures { result.items ≡ unclean_nodes_line (unclean_node_names_text unclean.now) }
{
    let mut out = ArrayVec::new();
    push_enclosed(
        &mut out,
        b"  not clean:",
        b"\n",
        unclean_among(unclean).as_slice(),
    );
    out
}
