//! The kept events as a picture takes them.

ghost use Rattle.std.specs.Prelude.{◌≡◌, ◌≤◌, ◌<◌, ◌&&◌, ◌||◌, not, ℕ, Bool, false, length, map, is_some, slice_index_or, IfOk, if◌then◌else◌};
ghost use Rattle.ga_event.specs.Apply.{equals_optional_number};
ghost use Rattle.ga_causal.specs.Dependence.{is_node_flagged, is_transfer_event, event_with_look_touches_node};
ghost use Rattle.ga_picture.specs.Items.{acting_node_of_event, is_plain_event_at, is_requested_step, is_requested_shade, shows_only_requested_events, is_event_left_out, requires_node_line, picture_item, picture_item_at, picture_items, is_plain_event};
ghost use Rattle.ga_picture.specs.Drawing.{item_with_nodes_left_out};
ghost use Rattle.ga_picture.specs.inner.{ArePlainEventsByReadyNodes, picture_facts_of_events};

use crate::shade::Shade;
use crate::view::PictureView;
use ga_causal::{EventWithLook, OutOfMemoryError};
use ga_event::Event;
use ga_grid::NodeId;
use std::alloc::Global;

/// A kept event as a picture takes it.
#[derive(Clone, Copy, PartialEq, Eq)]
pub struct PictureItem {
    /// The event, and whether it looks.
    pub cause: EventWithLook,
    /// The event's colour.
    pub shade: Shade,
    /// Whether the event may be one of many that are drawn as one mark: a fetch or an opcode without a look, which isn't asked for.
    pub plain: bool,
    /// Whether the event is left out.
    pub out: bool,
    /// Whether the event's node must be drawn for it: a pass, a wait or a stop, or a requested one.
    pub holds: bool,
}

/// What is known of the kept events, each list by their places.
#[derive(Clone, Copy)]
pub(crate) struct EventFacts<'k> {
    /// The events.
    pub(crate) events: &'k [EventWithLook],
    /// The colours of the events.
    pub(crate) shades: &'k [Shade],
    /// Whether each event is a fetch or an opcode.
    pub(crate) plain: &'k [bool],
    /// The idle nodes.
    pub(crate) idle: &'k [bool; 144],
    /// The places of the two requested steps.
    pub(crate) cause: Option<u32>,
    pub(crate) rewind: Option<u32>,
}

/// The events from one place on and up to another. Those of some nodes are left out.
pub(crate) fn items(
    alloc: Global,
    facts: EventFacts<'_>,
    alone: &[bool; 144],
    view: PictureView,
    from: usize,
    to: usize,
) -> Result<Vec<PictureItem>, OutOfMemoryError>
    requires order { from ≤ to }
    requires within { to ≤ length facts.events.now }
    requires shades { length facts.shades.now ≡ length facts.events.now }
    requires plain { length facts.plain.now ≡ length facts.events.now }
    ensures { (ready : ℕ → Bool) → ArePlainEventsByReadyNodes ready facts.entry →
        IfOk result (λ items. items.items ≡ map (item_with_nodes_left_out (is_node_flagged alone.now)) (picture_items (picture_facts_of_events facts.entry ready) view from to)) }
{
    let mut items = Vec::with_capacity(alloc, to - from)?;
    'events: for place in from..to {
        items.push(item_with_nodes_left_out(alone, picture_item_at(facts, view, place)))?;
    }
    Ok(items)
}

/// The event, which is left out where it is of one of these nodes.
fn item_with_nodes_left_out(alone: &[bool; 144], item: PictureItem) -> PictureItem
    ensures { result ≡ item_with_nodes_left_out (is_node_flagged alone.now) item }
{
    if has(alone, acting_node_of_event(item.cause.event)) {
        PictureItem {
            plain: false,
            out: true,
            ..item
        }
    } else {
        item
    }
}

/// The event at a place.
#[inline(always)]
pub(crate) fn picture_item_at(facts: EventFacts<'_>, view: PictureView, place: usize) -> PictureItem
    requires within { place < length facts.events.now }
    requires shades { length facts.shades.now ≡ length facts.events.now }
    requires plain { length facts.plain.now ≡ length facts.events.now }
    ensures { (ready : ℕ → Bool) →
        slice_index_or facts.entry.plain.now place false ≡ is_plain_event_at ready facts.entry.events.now place →
        result ≡ picture_item_at (picture_facts_of_events facts.entry ready) view place }
{
    let cause = facts.events[place];
    let shade = facts.shades[place];
    let plain = facts.plain[place];
    let named = is_named(facts.cause, facts.rewind, place);
    let silent = has(facts.idle, acting_node_of_event(cause.event));
    picture_item(view, cause, shade, plain, named, silent)
}

/// An event of a colour, which is plain, one of the requested steps, or of an idle node.
fn picture_item(
    view: PictureView,
    cause: EventWithLook,
    shade: Shade,
    plain: bool,
    named: bool,
    idle: bool,
) -> PictureItem
    ensures { result ≡ picture_item view cause shade plain named idle }
{
    let out = is_event_left_out(view, idle, shade);
    PictureItem {
        cause,
        shade,
        plain: plain && (!named && !out),
        out,
        holds: requires_node_line(view, cause, shade, plain),
    }
}

/// Whether an event's node has to be drawn for it.
fn requires_node_line(view: PictureView, cause: EventWithLook, shade: Shade, plain: bool) -> bool
    ensures { result ≡ requires_node_line view cause shade plain }
{
    let works = plain || (cause.look && !view.races);
    view.all || (is_asked(view, shade) || (is_pass(cause.event) || !works))
}

/// Whether an event is a pass.
pub(crate) fn is_pass(event: Event) -> bool
    ensures { result ≡ is_transfer_event event }
{
    match event {
        Event::Own(_) => false,
        Event::Pass { .. } => true,
    }
}

/// Whether an event is left out.
fn is_event_left_out(view: PictureView, idle: bool, shade: Shade) -> bool
    ensures { result ≡ is_event_left_out view idle shade }
{
    let asked = is_asked(view, shade);
    (!view.all && (idle && !asked)) || (shows_only_requested_events(view) && !asked)
}

/// Whether one of the requested steps is at this place.
fn is_named(cause: Option<u32>, rewind: Option<u32>, place: usize) -> bool
    ensures { result ≡ is_requested_step cause rewind place }
{
    is_at(cause, place) || is_at(rewind, place)
}

/// Whether a step is at this place.
fn is_at(step: Option<u32>, place: usize) -> bool
    ensures { result ≡ equals_optional_number step place }
{
    match step {
        Some(at) => at as usize == place,
        None => false,
    }
}

/// Whether a node is one of these nodes.
fn has(nodes: &[bool; 144], node: NodeId) -> bool
    ensures { result ≡ is_node_flagged nodes.now node.number }
{
    nodes[node.index()]
}

/// Whether what isn't asked for is left out.
fn shows_only_requested_events(view: PictureView) -> bool
    ensures { result ≡ shows_only_requested_events view }
{
    view.only && (view.cause.is_some() || view.rewind.is_some())
}

/// Whether the colour is that of a requested event.
fn is_asked(view: PictureView, shade: Shade) -> bool
    ensures { result ≡ is_requested_shade view shade }
{
    match shade {
        Shade::Red => true,
        Shade::Black => view.cause.is_some(),
        Shade::Grey => false,
    }
}

/// The node that makes an event, of a pass the writer.
pub(crate) fn acting_node_of_event(event: Event) -> NodeId
    ensures { result.number ≡ acting_node_of_event event }
{
    match event {
        Event::Own(node) => node,
        Event::Pass { writer, .. } => writer,
    }
}

/// For each event, whether it is a fetch or an opcode that doesn't look: an own event after which its node runs. So its next
/// event is its own; or there is none, and the node is ready.
pub(crate) fn plain_events(
    alloc: Global,
    events: &[EventWithLook],
    ready: [bool; 144],
) -> Result<Vec<bool>, OutOfMemoryError>
    ensures size { IfOk result (λ flags. length flags.items ≡ length events.now) }
    ensures exact { IfOk result (λ flags. (place : ℕ) → place < length events.now →
        slice_index_or flags.items place false ≡ is_plain_event_at (is_node_flagged ready) events.now place) }
{
    let mut runs = ready;
    let mut flags = vec![in alloc; false; events.len()]?;
    'events: for back in 0..events.len() {
        let at = events.len() - 1 - back;
        let event = events[at];
        flags[at] = is_plain_event(event, &runs);
        go_back(&mut runs, event);
    }
    Ok(flags)
}

/// Whether an event is an own one and no look, of a node that runs after it.
fn is_plain_event(event: EventWithLook, runs: &[bool; 144]) -> bool
    ensures { result ≡ is_plain_event (is_node_flagged runs.now) event }
{
    match event.event {
        Event::Own(node) => !event.look && runs[node.index()],
        Event::Pass { .. } => false,
    }
}

/// Which nodes ran before an event: that of an own event, and none of a pass.
fn go_back(runs: &mut [bool; 144], event: EventWithLook)
    ensures { (n : ℕ) → is_node_flagged runs.new n ≡ (if event_with_look_touches_node event n then not (is_transfer_event event.event) else is_node_flagged runs.old n) }
{
    match event.event {
        Event::Own(node) => runs[node.index()] = true,
        Event::Pass { writer, reader, .. } => {
            runs[writer.index()] = false;
            runs[reader.index()] = false;
        }
    }
}
