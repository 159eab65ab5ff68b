//! Chains of direct dependence.

ghost use Rattle.std.specs.Prelude.{◌≡◌, ◌≢◌, ◌↔◌, ◌<◌, ◌≤◌, ◌+◌, ◌^◌, true, false, List, length, map, drop, slice_get, slice_index_or, IfOk, IsTrue, [], ◌∷◌};
ghost use Rattle.ga_event.specs.declared.event.EventWithLook.{EventWithLook};
ghost use Rattle.ga_causal.specs.Dependence.{dependent_flags};
ghost use Rattle.ga_causal.specs.inner.{oldest_place_of_node, AreOldestEventPlaces};
ghost use Rattle.ga_causal.specs.Chains.{IsChain, IsChainTo, IsChainAnswer, IsNextChainLink};

use crate::firsts::Firsts;
use crate::rule::rule;
use ga_event::EventWithLook;
use ga_grid::OutOfMemoryError;
use std::alloc::Global;
use std::marker::Model;

/// A link of a chain: the place of its event in the list, from 0 on, and the rule by which that depends on the event of the
/// link before, 0 for the first link. Rule 1 is that of two own events of one node, rule 2 that of a pass and an event that touch
/// a common node, and rule 3, where neither holds, that of a look at a node that the event before touches.
#[derive(Clone, Copy, PartialEq, Eq, Debug)]
pub struct ChainLink {
    pub place: u32,
    pub rule: u8,
}

/// A list of links.
#[derive(Debug, Drop)]
pub struct Chain {
    links: Vec<ChainLink>,
}

impl Model for Chain {
    ghost use Rattle.std.specs.Prelude.{List};
    ghost use Rattle.ga_causal.specs.declared.chain.ChainLink.{ChainLink};

    ghost Value = { List ChainLink };

    ghost view = { λ c. c.links.items };
}

impl Chain {
    /// A chain of these links, the first of them first.
    pub fn new(links: Vec<ChainLink>) -> Self
        ensures { result ≡ links.items }
    {
        Chain { links }
    }

    /// The links, the first of them first.
    pub fn links(&self) -> &[ChainLink]
        ensures { result.now ≡ self.now }
    {
        self.links.as_slice()
    }

    /// The places of the links, in their order.
    pub fn places(&self) -> Result<Vec<u32>, OutOfMemoryError>
        ensures { IfOk result (λ list. list.items ≡ map (λ link. link.place) self.now) }
    {
        let links = self.links();
        let mut places = Vec::new(*self.links.allocator());
        places.reserve(links.len())?;
        'each: for link in links {
            places.push_reserved(link.place);
        }
        Ok(places)
    }

    /// The link at an index, 0 for the first.
    pub fn get(&self, index: usize) -> Option<ChainLink>
        ensures { result ≡ slice_get self.now index }
    {
        self.links().get(index).copied()
    }

    /// How many links the chain has.
    pub fn len(&self) -> usize
        ensures { result ≡ length self.now }
    {
        self.links().len()
    }

    /// Whether the chain has no link.
    pub fn is_empty(&self) -> bool
        ensures { IsTrue result ↔ (length self.now ≡ 0) }
    {
        self.links().is_empty()
    }
}

// The chain to an event that depends on the one at `from`, made from its end.
fn chain_back(
    alloc: Global,
    events: &[EventWithLook],
    skipped: u32,
    firsts: &Firsts,
    from: u32,
    to: u32,
) -> Result<Chain, OutOfMemoryError>
    requires from { from < length events.now }
    requires to { to < length events.now }
    requires fits { skipped + to < 2 ^ 32 }
    requires firsts { AreOldestEventPlaces events.now from to to (oldest_place_of_node firsts.now) }
    requires none { firsts.now.none ≡ to }
    requires dependent { slice_index_or (dependent_flags events.now from) to false ≡ true }
    ensures { IfOk result (λ chain. (all : List EventWithLook) → drop skipped all ≡ events.now →
        IsChainTo all (skipped + from) (skipped + to) chain) }
{
    let mut links = Vec::new(alloc);
    let mut at = to;
    while at != from {
        let event = &events[at as usize];
        let before = firsts.oldest(event);
        links.push(ChainLink {
            place: skipped + at,
            rule: rule(&events[before as usize], event),
        })?;
        at = before;
    }
    links.push(ChainLink {
        place: skipped + from,
        rule: 0,
    })?;
    links.reverse();
    Ok(Chain { links })
}

// The chain from an event to itself.
fn chain_alone(alloc: Global, place: u32) -> Result<Chain, OutOfMemoryError>
    ensures { IfOk result (λ chain. chain ≡ record { place = place; rule = 0 } ∷ []) }
{
    let mut links = Vec::new(alloc);
    links.push(ChainLink { place, rule: 0 })?;
    Ok(Chain { links })
}

/// The chain from one event to another, or none if that does not depend on it. It is made from its end: the link before each
/// event other than the first is the oldest of those on which it depends directly and which are the first or depend on it.
/// Walks once over the events between the two, and then back over those of the chain. Places count from 0.
pub fn find_chain(
    alloc: Global,
    events: &[EventWithLook],
    from: u32,
    to: u32,
) -> Result<Option<Chain>, OutOfMemoryError>
    requires from { from < length events.now }
    requires to { to < length events.now }
    ensures { IfOk result (IsChainAnswer events.now from to) }
{
    find_chain_after_skipped_events(alloc, events, 0, from, to)
}

/// Does what `find_chain` does, in the last events of a list, without those before them: as many as `skipped`. `from` and `to`
/// count from the first of the last events on, and the links give places of the whole list. What was skipped is in no chain.
pub fn find_chain_after_skipped_events(
    alloc: Global,
    events: &[EventWithLook],
    skipped: u32,
    from: u32,
    to: u32,
) -> Result<Option<Chain>, OutOfMemoryError>
    requires from { from < length events.now }
    requires to { to < length events.now }
    requires fits { skipped + to < 2 ^ 32 }
    ensures { IfOk result (λ answer. (all : List EventWithLook) → drop skipped all ≡ events.now →
        IsChainAnswer all (skipped + from) (skipped + to) answer) }
{
    if to < from {
        return Ok(None);
    }
    if to == from {
        let chain = chain_alone(alloc, skipped + from)?;
        return Ok(Some(chain));
    }
    let firsts = Firsts::of(events, from, to);
    if firsts.oldest(&events[to as usize]) == to {
        return Ok(None);
    }
    let chain = chain_back(alloc, events, skipped, &firsts, from, to)?;
    Ok(Some(chain))
}

// Whether the link may follow the event at the place before.
fn is_next(events: &[EventWithLook], before: u32, link: &ChainLink) -> bool
    requires { before < length events.now }
    ensures { IsTrue result ↔ IsNextChainLink events.now before link.now }
{
    if before >= link.place || link.place as usize >= events.len() {
        return false;
    }
    let by = rule(&events[before as usize], &events[link.place as usize]);
    by != 0 && link.rule == by
}

/// Whether the links are a chain: at least one, all of them places of the list, the first with rule 0 and each other one with
/// the rule by which its event depends directly on the one before.
pub fn is_chain(events: &[EventWithLook], chain: &Chain) -> bool
    ensures { IsTrue result ↔ IsChain events.now chain.now }
{
    let links = chain.links.as_slice();
    if links.is_empty() {
        return false;
    }
    let first = links[0];
    if first.place as usize >= events.len() || first.rule != 0 {
        return false;
    }
    let mut before = first.place;
    for link in &links[1..] {
        if !is_next(events, before, link) {
            return false;
        }
        before = link.place;
    }
    true
}
