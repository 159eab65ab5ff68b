//! The provenance of a value as lines, the nearest first, each of a value or of a run of values that differ only in their steps.

ghost use Rattle.std.specs.Prelude.{◌≡◌, ◌≤◌, ◌<◌, ◌+◌, ◌++◌, false, IfOk, IfSome, OnOk, All, length, map, option_map};
ghost use Rattle.ga_event.specs.Flow.{IsNodePartInRange};
ghost use Rattle.ga_lab.specs.Machine.{node_at_step};
ghost use Rattle.ga_provenance.specs.Origins.{origin_of_value};
ghost use Rattle.ga_provenance.specs.Sources.{value_sources};
ghost use Rattle.ga_provenance.specs.Lines.{is_value_in_run, is_value_listed, next_value_in_run, oldest_value_of_run, provenance_line_of_use, values_used_by_line, AreProvenanceLinesOf, IsLineOfMovedValue};
ghost use Rattle.ga_provenance.specs.inner.{HasValuePartInRange, IsValueInHistory, IsValueTraced, part_value_of_traced_value, follows_oldest_in_run, following_value_in_run};

use crate::source_search::{SourceSearch, TracedValue};
use crate::value::PartValue;
use arrayvec::ArrayVec;
use ga_grid::NodeId;
use ga_lab::{Lab, NodeWalk};
use std::alloc::{AllocError, Global};

/// A line of a listing: a value that a step made, or that was loaded; or a run of values which the same opcode left in the same
/// part, each made from the next.
#[derive(Clone, Copy, PartialEq, Eq, Debug)]
pub struct ProvenanceLine {
    /// The number of the line that used the value, from 1 on; 0 for the queried value.
    pub user: u32,
    /// The value, right after the step that made it; of a run the newest.
    pub value: PartValue,
    /// The same value where it was used.
    pub used: PartValue,
    /// The number of values of the run.
    pub count: u32,
    /// The number of steps from each of them to the next; 0 for a single one.
    pub period: u32,
}

/// The steps whose values went into a value, the nearest first, each value once.
#[derive(Debug, Drop)]
pub struct ProvenanceLines {
    /// The lines, each after the one that used its value.
    pub lines: Vec<ProvenanceLine>,
    /// Whether no line is missing.
    pub is_whole: bool,
}

/// A value that was used, and the number of the line that used it.
#[derive(Clone, Copy, PartialEq, Eq, Debug)]
pub(crate) struct UsedValue {
    pub user: u32,
    pub used: PartValue,
}

impl ProvenanceLine {
    /// Whether a value is in the run.
    pub fn is_value_in_run(self, value: PartValue) -> bool
        ensures { result ≡ is_value_in_run self value }
    {
        let newest = self.value;
        if newest.node.number != value.node.number
            || !newest.part.is_same_node_part(value.part)
            || value.step > newest.step
        {
            return false;
        }
        let back = newest.step - value.step;
        if self.period == 0 {
            back == 0
        } else {
            back % self.period == 0 && back / self.period < self.count
        }
    }
}

// Whether a value is in the run of a line.
fn is_value_listed(lines: &[ProvenanceLine], value: PartValue) -> bool
    ensures { result ≡ is_value_listed lines.now value }
{
    lines.iter().any(|line| line.is_value_in_run(value))
}

// Whether a value follows the oldest one of a run that these lines don't list.
fn follows_oldest_in_run(
    lines: &[ProvenanceLine],
    line: ProvenanceLine,
    oldest: PartValue,
    next: PartValue,
) -> bool
    requires { next.step ≤ oldest.step }
    ensures { result ≡ follows_oldest_in_run lines.now line oldest next }
{
    (line.count == 1 || oldest.step - next.step == line.period) && !is_value_listed(lines, next)
}

// The value that follows the oldest one of a run.
fn find_following<'l, 'n>(
    search: SourceSearch<'l, 'n>,
    lines: &[ProvenanceLine],
    line: ProvenanceLine,
    oldest: &TracedValue,
) -> (SourceSearch<'l, 'n>, Option<TracedValue>)
    requires { IsValueTraced search.lab.now oldest.now }
    ensures lab { result.0.lab.now ≡ search.entry.lab.now }
    ensures next { option_map part_value_of_traced_value result.1 ≡ following_value_in_run lines.now line oldest.now.value (next_value_in_run search.entry.lab.now oldest.now.value) }
    ensures traced { IfSome result.1 (IsValueTraced search.entry.lab.now) }
{
    let (found, next) = search.next_value_in_run(oldest);
    match next {
        Some(next) => {
            if follows_oldest_in_run(lines, line, oldest.value, next.value) {
                (found, Some(next))
            } else {
                (found, None)
            }
        }
        None => (found, None),
    }
}

// The line of a used value after others, and the values from which the oldest one of its run was made: where its step read them,
// and as the steps made them.
fn find_line<'l, 'n>(
    search: SourceSearch<'l, 'n>,
    lines: &[ProvenanceLine],
    usage: UsedValue,
    value: PartValue,
) -> (
    SourceSearch<'l, 'n>,
    ProvenanceLine,
    ArrayVec<PartValue, 3>,
    ArrayVec<PartValue, 3>,
)
    requires value { value ≡ origin_of_value search.lab.now usage.used }
    requires kept { IsValueInHistory search.lab.now value }
    ensures lab { result.0.lab.now ≡ search.entry.lab.now }
    ensures line { result.1 ≡ provenance_line_of_use search.entry.lab.now lines.now usage }
    ensures used { result.2.items ≡ value_sources search.entry.lab.now (oldest_value_of_run (provenance_line_of_use search.entry.lab.now lines.now usage)) }
    ensures parts { All HasValuePartInRange result.2.items }
    ensures origins { result.3.items ≡ map (origin_of_value search.entry.lab.now) result.2.items }
    ensures kept { All (IsValueInHistory search.entry.lab.now) result.3.items }
{
    let (mut search, mut oldest) = search.trace_value_sources(value);
    let mut line = ProvenanceLine {
        user: usage.user,
        value,
        used: usage.used,
        count: 1,
        period: 0,
    };
    'run: loop {
        let (found, next) = find_following(search, lines, line, &oldest);
        search = found;
        match next {
            Some(next) => {
                line.period = oldest.value.step - next.value.step;
                line.count += 1;
                oldest = next;
            }
            None => {
                let TracedValue { used, origins, .. } = oldest;
                return (search, line, used, origins);
            }
        }
    }
}

// Adds the values that a line used.
fn push_used(
    uses: &mut Vec<UsedValue>,
    user: u32,
    values: ArrayVec<PartValue, 3>,
) -> Result<(), AllocError>
    ensures ok { OnOk result (uses.new.items ≡ uses.old.items ++ values_used_by_line user values.items) }
    ensures few { OnOk result (length uses.new.items ≤ length uses.old.items + 3) }
{
    let count = values.len();
    prove!(count <= 3);
    'values: for used in values.as_slice() {
        let used = *used;
        uses.push(UsedValue { user, used })?;
    }
    Ok(())
}

// Adds values.
fn push_origins(
    origins: &mut Vec<PartValue>,
    values: ArrayVec<PartValue, 3>,
) -> Result<(), AllocError>
    ensures { OnOk result (origins.new.items ≡ origins.old.items ++ values.items) }
{
    'values: for value in values.as_slice() {
        let value = *value;
        origins.push(value)?;
    }
    Ok(())
}

/// The steps whose values went into a value, through stacks, memories, registers and links, down to the load: as lines, the
/// nearest first, each value once, and at most `most` lines. Each value is followed back by the entries of its node's steps. Only
/// where these don't determine from where a step has a value, the node is walked back to that step: from where the walk for the
/// last value is, if that is of the same node and not earlier; else from where the walk `near` is, if the same holds of it; else
/// from the newest step. Takes memory linear in the number of lines, and for each value of their runs time linear in the number
/// of lines, and in the number of steps of its node between.
///
/// # Errors
/// An allocation failed.
pub fn find_provenance_lines_at<'l>(
    alloc: Global,
    lab: &'l Lab,
    near: &NodeWalk<'l>,
    at: NodeId,
    value: PartValue,
    most: u32,
) -> Result<ProvenanceLines, AllocError>
    requires part { IsNodePartInRange value.part }
    requires near { near.now ≡ node_at_step lab.now at near.now.step }
    ensures lines { IfOk result (λ found. AreProvenanceLinesOf lab.now value found.lines.items found.is_whole) }
    ensures most { IfOk result (λ found. length found.lines.items ≤ most) }
    ensures cut { IfOk result (λ found. found.is_whole ≡ false → length found.lines.items ≡ most) }
    ensures used { IfOk result (λ found. All (IsLineOfMovedValue lab.now) found.lines.items) }
{
    let mut lines: Vec<ProvenanceLine> = Vec::new(alloc);
    let mut uses: Vec<UsedValue> = Vec::new(alloc);
    uses.push(UsedValue {
        user: 0,
        used: value,
    })?;
    let mut origins: Vec<PartValue> = Vec::new(alloc);
    let (mut search, origin) = SourceSearch::new(lab, near, at).origin_of_value(value);
    origins.push(origin)?;
    let mut next = 0;
    'listing: while next < uses.len() {
        let usage = uses[next];
        let origin = origins[next];
        next += 1;
        if is_value_listed(&lines, origin) {
            continue 'listing;
        }
        if lines.as_slice().len() == most as usize {
            return Ok(ProvenanceLines {
                lines,
                is_whole: false,
            });
        }
        let (after, line, used, made) = find_line(search, &lines, usage, origin);
        search = after;
        lines.push(line)?;
        push_used(&mut uses, lines.len() as u32, used)?;
        push_origins(&mut origins, made)?;
    }
    Ok(ProvenanceLines {
        lines,
        is_whole: true,
    })
}
