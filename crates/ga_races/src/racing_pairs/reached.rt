//! What some actions reach, and whether something happens between two.

ghost use Rattle.std.specs.Prelude.{◌≡◌, ◌<◌, ◌&&◌, ◌||◌, ℕ, true, false, length};
ghost use Rattle.ga_grid.specs.Grid.{neighbour_number};
ghost use Rattle.ga_causal.specs.Dependence.{is_node_flagged};
ghost use Rattle.ga_causal.specs.inner.{is_optional_node_marked};
ghost use Rattle.ga_event.specs.Apply.{equals_optional_number};
ghost use Rattle.ga_races.specs.HappensBefore.{HappensBefore};
ghost use Rattle.ga_races.specs.Acts.{has_side_towards_node, trace_action_of_event_access, trace_actions_of_accesses};
ghost use Rattle.ga_races.specs.inner.{has_marked_neighbour_on_sides, action_touches_node, action_changes_view, has_looked, shows_change_to_marked_node, is_dependent_on_reached_actions};

use crate::act::{EventAccess, SideSet};
use ga_causal::NodeSet;
use ga_event::{Event, EventWithLook};
use ga_grid::{NodeId, neighbour};
use ga_ports::Side;

// Of some actions the nodes that they touch, those to which they change what is shown, and those that look in them.
#[derive(Drop)]
struct Reached {
    touched: NodeSet,
    shown: NodeSet,
    looked: NodeSet,
}

// Whether the neighbour on a side, if it is one of some, is marked.
fn is_marked_over(marks: &NodeSet, node: NodeId, side: Side, has: bool) -> bool
    ensures { result ≡ (has && is_optional_node_marked (is_node_flagged marks.now) (neighbour_number node.number side)) }
{
    match neighbour(node, side) {
        Some(other) => has && marks.has(other),
        None => false,
    }
}

// Whether a neighbour on one of the sides is marked.
fn is_marked_beside(marks: &NodeSet, node: NodeId, sides: &SideSet) -> bool
    ensures { result ≡ has_marked_neighbour_on_sides (is_node_flagged marks.now) sides.now node.number }
{
    is_marked_over(marks, node, Side::Right, sides.right)
        || is_marked_over(marks, node, Side::Down, sides.down)
        || is_marked_over(marks, node, Side::Left, sides.left)
        || is_marked_over(marks, node, Side::Up, sides.up)
}

// Marks the neighbour on a side, if it is one of some.
fn mark_over(marks: &mut NodeSet, node: NodeId, side: Side, has: bool)
    ensures { (n : ℕ) → is_node_flagged marks.new n ≡ (is_node_flagged marks.old n || (has && equals_optional_number (neighbour_number node.number side) n)) }
{
    match neighbour(node, side) {
        Some(other) if has => marks.add_touched_nodes(&EventWithLook {
            event: Event::Own(other),
            look: false,
        }),
        _ => {}
    }
}

// Marks the neighbours on the sides.
fn mark_beside(marks: &mut NodeSet, node: NodeId, sides: &SideSet)
    ensures { (n : ℕ) → is_node_flagged marks.new n ≡ (is_node_flagged marks.old n || has_side_towards_node sides.now node.number n) }
{
    mark_over(marks, node, Side::Right, sides.right);
    mark_over(marks, node, Side::Down, sides.down);
    mark_over(marks, node, Side::Left, sides.left);
    mark_over(marks, node, Side::Up, sides.up);
}

// Marks the nodes to which an action changes what is shown.
fn mark_shown(marks: &mut NodeSet, act: &EventAccess)
    ensures { (n : ℕ) → is_node_flagged marks.new n ≡ (is_node_flagged marks.old n || action_changes_view (trace_action_of_event_access act.now) n) }
{
    match act.cause.event {
        Event::Own(node) => mark_beside(marks, node, &act.first),
        Event::Pass { writer, reader, .. } => {
            mark_beside(marks, writer, &act.first);
            mark_beside(marks, reader, &act.second);
        }
    }
}

// Marks the nodes of a look.
pub(super) fn mark_look(marks: &mut NodeSet, act: &EventAccess)
    ensures { (n : ℕ) → is_node_flagged marks.new n ≡ (is_node_flagged marks.old n || has_looked (trace_action_of_event_access act.now) n) }
{
    if act.cause.look {
        marks.add_touched_nodes(&act.cause);
    }
}

impl Reached {
    // The nodes that one action touches, those to which it changes what is shown, and those that look in it.
    fn by(act: &EventAccess) -> Self
        ensures touched { (n : ℕ) → is_node_flagged result.touched n ≡ action_touches_node (trace_action_of_event_access act.now) n }
        ensures shown { (n : ℕ) → is_node_flagged result.shown n ≡ action_changes_view (trace_action_of_event_access act.now) n }
        ensures looked { (n : ℕ) → is_node_flagged result.looked n ≡ has_looked (trace_action_of_event_access act.now) n }
    {
        let mut reached = Reached {
            touched: NodeSet::none(),
            shown: NodeSet::none(),
            looked: NodeSet::none(),
        };
        reached.add(act);
        reached
    }

    // Adds the nodes that an action touches, those to which it changes what is shown, and those that look in it.
    fn add(&mut self, act: &EventAccess)
        ensures touched { (n : ℕ) → is_node_flagged self.new.touched n ≡ (is_node_flagged self.old.touched n || action_touches_node (trace_action_of_event_access act.now) n) }
        ensures shown { (n : ℕ) → is_node_flagged self.new.shown n ≡ (is_node_flagged self.old.shown n || action_changes_view (trace_action_of_event_access act.now) n) }
        ensures looked { (n : ℕ) → is_node_flagged self.new.looked n ≡ (is_node_flagged self.old.looked n || has_looked (trace_action_of_event_access act.now) n) }
    {
        self.touched.add_touched_nodes(&act.cause);
        mark_shown(&mut self.shown, act);
        mark_look(&mut self.looked, act);
    }

    // Returns whether an action is dependent with one of the actions that were added. If so it is added too.
    fn take(&mut self, act: &EventAccess) -> bool
        ensures answer { result ≡ is_dependent_on_reached_actions (is_node_flagged self.old.touched) (is_node_flagged self.old.shown) (is_node_flagged self.old.looked) act.now }
        ensures touched { (n : ℕ) → is_node_flagged self.new.touched n ≡ (is_node_flagged self.old.touched n || (result && action_touches_node (trace_action_of_event_access act.now) n)) }
        ensures shown { (n : ℕ) → is_node_flagged self.new.shown n ≡ (is_node_flagged self.old.shown n || (result && action_changes_view (trace_action_of_event_access act.now) n)) }
        ensures looked { (n : ℕ) → is_node_flagged self.new.looked n ≡ (is_node_flagged self.old.looked n || (result && has_looked (trace_action_of_event_access act.now) n)) }
    {
        if !self.has_common_node(act) {
            return false;
        }
        self.add(act);
        true
    }

    // Whether an action is dependent with one of the actions that were added.
    fn has_common_node(&self, act: &EventAccess) -> bool
        ensures { result ≡ is_dependent_on_reached_actions (is_node_flagged self.now.touched) (is_node_flagged self.now.shown) (is_node_flagged self.now.looked) act.now }
    {
        self.touched.is_touched_by(&act.cause)
            || (act.cause.look && self.shown.is_touched_by(&act.cause))
            || self.is_shown_by(act)
    }

    // Whether an action changes what is shown to a node that looked in one of the actions that were added.
    fn is_shown_by(&self, act: &EventAccess) -> bool
        ensures { result ≡ shows_change_to_marked_node (is_node_flagged self.now.looked) act.now.cause.event act.now.first act.now.second }
    {
        match act.cause.event {
            Event::Own(node) => is_marked_beside(&self.looked, node, &act.first),
            Event::Pass { writer, reader, .. } => {
                is_marked_beside(&self.looked, writer, &act.first)
                    || is_marked_beside(&self.looked, reader, &act.second)
            }
        }
    }
}

// Whether two flags are both set.
pub(super) fn both(one: bool, other: bool) -> bool
    ensures { result ≡ (one && other) }
{
    one && other
}

// Whether something happens between two actions of a list, by one pass over the actions between them.
pub(super) fn is_between(acts: &[EventAccess], first: usize, later: usize) -> bool
    requires order { first < later }
    requires within { later < length acts.now }
    ensures some { result ≡ true →
        (m : ℕ) × HappensBefore (trace_actions_of_accesses acts.now) first m × HappensBefore (trace_actions_of_accesses acts.now) m later }
    ensures none { result ≡ false → (m : ℕ) →
        HappensBefore (trace_actions_of_accesses acts.now) first m → HappensBefore (trace_actions_of_accesses acts.now) m later → ⊥ }
{
    let end = acts[later];
    let mut reached = Reached::by(&acts[first]);
    'between: for place in first + 1..later {
        let act = acts[place];
        let met = reached.take(&act);
        if both(met, act.keeps_order_with_event(&end)) {
            return true;
        }
    }
    false
}
