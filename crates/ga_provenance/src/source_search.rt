//! A search of a lab for the values from which others were made, and for how runs go on.

ghost use Rattle.std.specs.Prelude.{◌≡◌};
ghost use Rattle.std.specs.List.{list_any};
ghost use Rattle.ga_provenance.specs.Sources.{is_same_value};
ghost use Rattle.ga_provenance.specs.Lines.{ran_same_opcode, is_same_opcode_event, event_that_made_value, is_same_opcode_repetition, are_values_among};

use crate::origin::{kept_step, origin_behind, trail_on};
use crate::trail::CachedWalk;
use crate::value::PartValue;
use crate::value_sources::sources_by_trail;
use arrayvec::ArrayVec;
use ga_event::MadeEvent;
use ga_grid::NodeId;
use ga_lab::{Lab, NodeWalk};
use ga_node::OwnEventKind;

// Whether two events of a node's own ran the same opcode, or fetched.
fn ran_same_opcode(kind: OwnEventKind, other: OwnEventKind) -> bool
    ensures { result ≡ ran_same_opcode kind other }
{
    match kind {
        OwnEventKind::Fetch => match other {
            OwnEventKind::Fetch => true,
            _ => false,
        },
        OwnEventKind::Run(code) => match other {
            OwnEventKind::Run(more) => code == more,
            _ => false,
        },
        _ => false,
    }
}

// Whether two steps, as made, ran the same opcode, or fetched.
fn is_same_opcode_event(made: Option<MadeEvent>, other: Option<MadeEvent>) -> bool
    ensures { result ≡ is_same_opcode_event made other }
{
    match made {
        Some(MadeEvent::Own { kind, .. }) => match other {
            Some(MadeEvent::Own { kind: more, .. }) => ran_same_opcode(kind, more),
            Some(MadeEvent::Pass { .. }) => false,
            None => false,
        },
        Some(MadeEvent::Pass { .. }) => false,
        None => false,
    }
}

// The step that made a value, as made.
fn event_that_made_value(lab: &Lab, value: PartValue) -> Option<MadeEvent>
    ensures { result ≡ event_that_made_value lab.now value }
{
    lab.made_event_of_step(value.node, value.step.saturating_sub(1))
}

// Whether the same opcode left two values in one part of a node, the second one earlier.
fn is_same_opcode_repetition(lab: &Lab, value: PartValue, next: PartValue) -> bool
    ensures { result ≡ is_same_opcode_repetition lab.now value next }
{
    next.step > 0
        && next.step < value.step
        && value.node.number == next.node.number
        && value.part.is_same_node_part(next.part)
        && is_same_opcode_event(
            event_that_made_value(lab, value),
            event_that_made_value(lab, next),
        )
}

// Whether a value is among others.
fn is_among(value: PartValue, others: &[PartValue]) -> bool
    ensures { result ≡ list_any (is_same_value value) others.now }
{
    others.iter().any(|other| value.is_equal_to(*other))
}

// Whether each value is this one or among some others.
fn are_values_among(value: PartValue, others: &[PartValue], values: &[PartValue]) -> bool
    ensures { result ≡ are_values_among value others.now values.now }
{
    values
        .iter()
        .all(|it| it.is_equal_to(value) || is_among(*it, others))
}

/// A value with those from which it was made.
#[derive(Debug, Drop)]
pub(crate) struct TracedValue {
    pub value: PartValue,
    /// The values from which it was made, where its step read them.
    pub used: ArrayVec<PartValue, 3>,
    /// The same values, as the steps made them.
    pub origins: ArrayVec<PartValue, 3>,
}

/// A search: a walk of a node, which isn't walked on, and a trail of the node that was searched last.
#[derive(Drop)]
pub(crate) struct SourceSearch<'l, 'n> {
    pub lab: &'l Lab,
    near: &'n NodeWalk<'l>,
    at: NodeId,
    node: NodeId,
    trail: CachedWalk<'l>,
    ghost near_stands: { near.now ≡ node_at_step lab.now at near.now.step },
    ghost trail_stands: { trail ≡ node_at_step lab.now node trail.step },
}

ghost use Rattle.ga_lab.specs.Machine.{node_at_step};

impl<'l, 'n> SourceSearch<'l, 'n> {
    ghost use Rattle.std.specs.Prelude.{◌≡◌, ◌≤◌, All, IfSome, option_map};
    ghost use Rattle.ga_event.specs.Flow.{IsNodePartInRange};
    ghost use Rattle.ga_event.specs.Told.{count_steps};
    ghost use Rattle.ga_lab.specs.Machine.{node_at_step};
    ghost use Rattle.ga_provenance.specs.Origins.{origin_of_value};
    ghost use Rattle.ga_provenance.specs.Lines.{next_value_in_run};
    ghost use Rattle.ga_provenance.specs.Sources.{value_sources};
    ghost use Rattle.ga_provenance.specs.inner.{HasValuePartInRange, IsValueInHistory, IsValueTraced, part_value_of_traced_value};

    /// A search that begins where a node is walked back to.
    pub fn new(lab: &'l Lab, near: &'n NodeWalk<'l>, at: NodeId) -> Self
        requires { near.now ≡ node_at_step lab.now at near.now.step }
        ensures { result.lab.now ≡ lab.now }
    {
        SourceSearch {
            lab,
            near,
            at,
            node: at,
            trail: CachedWalk::new(lab, at, near.copy()),
        }
    }

    // Takes a trail of a node that has not come past a step.
    fn approach(self, node: NodeId, step: u32) -> Self
        requires { step ≤ count_steps node.number self.lab.now.kept }
        ensures lab { result.lab.now ≡ self.entry.lab.now }
        ensures node { result.node ≡ node }
        ensures order { step ≤ result.trail.step }
    {
        let SourceSearch {
            lab,
            near,
            at,
            node: last,
            trail,
        } = self;
        SourceSearch {
            lab,
            near,
            at,
            node,
            trail: trail_on(lab, near, at, last, trail, node, step),
        }
    }

    /// Finds the step that made a value.
    pub fn origin_of_value(self, value: PartValue) -> (Self, PartValue)
        requires { IsNodePartInRange value.part }
        ensures lab { result.0.lab.now ≡ self.entry.lab.now }
        ensures value { result.1 ≡ origin_of_value self.entry.lab.now value }
        ensures kept { IsValueInHistory self.entry.lab.now result.1 }
    {
        let step = kept_step(self.lab, value);
        let SourceSearch {
            lab,
            near,
            at,
            node,
            mut trail,
        } = self.approach(value.node, step);
        let origin = origin_behind(lab, &mut trail, node, step, value.part);
        let search = SourceSearch {
            lab,
            near,
            at,
            node,
            trail,
        };
        (search, origin)
    }

    // The values from which a value was made, where its step read them.
    fn sources_of(self, value: PartValue) -> (Self, ArrayVec<PartValue, 3>)
        requires { IsValueInHistory self.lab.now value }
        ensures lab { result.0.lab.now ≡ self.entry.lab.now }
        ensures values { result.1.items ≡ value_sources self.entry.lab.now value }
        ensures parts { All HasValuePartInRange result.1.items }
    {
        let SourceSearch {
            lab,
            near,
            at,
            node,
            mut trail,
        } = self.approach(value.node, value.step.saturating_sub(1));
        let sources = sources_by_trail(lab, &mut trail, value);
        let search = SourceSearch {
            lab,
            near,
            at,
            node,
            trail,
        };
        (search, sources)
    }

    /// Finds the values from which a value was made.
    pub fn trace_value_sources(self, value: PartValue) -> (Self, TracedValue)
        requires { IsValueInHistory self.lab.now value }
        ensures lab { result.0.lab.now ≡ self.entry.lab.now }
        ensures value { result.1.value ≡ value }
        ensures traced { IsValueTraced self.entry.lab.now result.1 }
    {
        let (mut search, used) = self.sources_of(value);
        let mut origins = ArrayVec::new();
        'sources: for source in used.as_slice() {
            let (found, origin) = search.origin_of_value(*source);
            search = found;
            origins.push(origin);
        }
        let traced = TracedValue {
            value,
            used,
            origins,
        };
        (search, traced)
    }

    /// The value with which the run of a value continues.
    pub fn next_value_in_run(self, traced: &TracedValue) -> (Self, Option<TracedValue>)
        requires { IsValueTraced self.lab.now traced.now }
        ensures lab { result.0.lab.now ≡ self.entry.lab.now }
        ensures next { option_map part_value_of_traced_value result.1 ≡ next_value_in_run self.entry.lab.now traced.now.value }
        ensures traced { IfSome result.1 (IsValueTraced self.entry.lab.now) }
    {
        let mut search = self;
        'origins: for next in traced.origins.as_slice() {
            let next = *next;
            if !is_same_opcode_repetition(search.lab, traced.value, next) {
                continue 'origins;
            }
            let (found, further) = search.trace_value_sources(next);
            search = found;
            if are_values_among(next, further.origins.as_slice(), traced.origins.as_slice()) {
                return (search, Some(further));
            }
        }
        (search, None)
    }
}
