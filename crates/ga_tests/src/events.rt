//! Chains of causes in a list of events, found and checked; what a rollback costs, and what a lab refuses.

ghost use Rattle.std.specs.Prelude.{◌<◌};

use crate::common::{
    PAIR_PROGRAM, assert_each_display_text, assert_each_equal, assert_equal_values, lab_of_image,
};
use ga_causal::{Chain, ChainLink, EventWithLook, find_chain, is_chain};
use ga_event::Event;
use ga_grid::NodeId;
use ga_lab::{Lab, LabFault, Ticks};
use ga_ports::Side;
use std::alloc::Global;
use std::process::Abort;
use std::test::Fail;

fn blind(event: Event) -> EventWithLook {
    EventWithLook { event, look: false }
}

// Own of 000, own of 001, a pass from 000 to 001, own of 000, own of 002.
fn events() -> [EventWithLook; 5] {
    let (first, second) = (NodeId::new(0), NodeId::new(1));
    [
        blind(Event::Own(first)),
        blind(Event::Own(second)),
        blind(Event::Pass {
            writer: first,
            reader: second,
            side: Side::Right,
        }),
        blind(Event::Own(first)),
        blind(Event::Own(NodeId::new(2))),
    ]
}

fn link(place: u32, rule: u8) -> ChainLink {
    ChainLink { place, rule }
}

// The links between two of the events; none where no chain leads there.
fn links_are(
    rt: &impl Abort,
    alloc: Global,
    from: u32,
    to: u32,
    wanted: &[ChainLink],
) -> Result<(), Fail>
    requires from { from < 5 }
    requires to { to < 5 }
{
    let events = events();
    match find_chain(alloc, &events, from, to)? {
        Some(chain) => {
            assert_each_equal(rt, chain.links(), wanted);
            assert_equal_values(rt, &chain.get(0), &Some(link(from, 0)));
            assert_equal_values(rt, &is_chain(&events, &chain), &true);
        }
        None => assert_each_equal(rt, &[], wanted),
    }
    Ok(())
}

#[test]
fn chains_are_found(rt: HostRuntime) -> Result<(), Fail> {
    links_are(&rt, rt.alloc(), 0, 3, &[link(0, 0), link(3, 1)])?;
    let long = [link(1, 0), link(2, 2), link(3, 2)];
    links_are(&rt, rt.alloc(), 1, 3, &long)?;
    links_are(&rt, rt.alloc(), 0, 4, &[])
}

// Whether these links are a chain of the events.
fn checked(rt: &impl Abort, alloc: Global, links: &[ChainLink], wanted: bool) -> Result<(), Fail> {
    let chain = Chain::new(links.to_vec(alloc)?);
    assert_equal_values(rt, &is_chain(&events(), &chain), &wanted);
    Ok(())
}

#[test]
fn chains_are_checked(rt: HostRuntime) -> Result<(), Fail> {
    let other = [link(0, 0), link(2, 2), link(3, 2)];
    checked(&rt, rt.alloc(), &other, true)?;
    checked(&rt, rt.alloc(), &[link(1, 0), link(3, 1)], false)?;
    checked(&rt, rt.alloc(), &[link(5, 0)], false)?;
    checked(&rt, rt.alloc(), &[], false)
}

fn steps(lab: &mut Lab, node: NodeId, count: u32) -> Result<(), LabFault> {
    for _ in 0..count {
        lab.step(node)?;
    }
    Ok(())
}

// The pair after its pass, with a number of own events of node 700 in the history: seven steps of the sender, five of the
// receiver.
fn passed_beside(alloc: Global, others: u32) -> Result<Lab, Fail> {
    let (n000, n001, n700) = (NodeId::new(0), NodeId::new(1), NodeId::new(126));
    let mut lab = lab_of_image(alloc, PAIR_PROGRAM, 1_000_000)?;
    for (node, count) in [(n700, others), (n000, 7), (n001, 5)] {
        steps(&mut lab, node, count)?;
    }
    Ok(lab)
}

// How many events a rollback removes and keeps, its ticks, and how many of them were searches in vain.
fn is_ticked(
    rt: &impl Abort,
    alloc: Global,
    others: u32,
    at: (NodeId, u32),
    wanted: (u32, u32, u64),
) -> Result<(), Fail> {
    let mut lab = passed_beside(alloc, others)?;
    let mut ticks = Ticks::new();
    let removed = lab.rewind_counting_ticks(at.0, at.1, &mut ticks);
    assert_equal_values(rt, &removed, &Ok(wanted.0));
    let counts = (lab.counts().kept, ticks.count(), ticks.failed_searches());
    assert_equal_values(rt, &counts, &(wanted.1, wanted.2, 0));
    Ok(())
}

// Two marks lowered, two nodes taken up, and each of three, then of six entries looked at and restored, whatever 700 keeps. No node
// has a look to search for.
#[test]
fn ticks_by_what_goes(rt: HostRuntime) -> Result<(), Fail> {
    for others in [0, 1000] {
        let wait = (NodeId::new(0), 7);
        is_ticked(&rt, rt.alloc(), others, wait, (2, others + 10, 10))?;
        let first = (NodeId::new(1), 1);
        is_ticked(&rt, rt.alloc(), others, first, (5, others + 7, 16))?;
    }
    Ok(())
}

// What a lab's refusals say to a person.
#[test]
fn refusals_in_words(rt: HostRuntime) -> Result<(), Fail> {
    let rows = [
        (LabFault::Waiting, "the node waits"),
        (LabFault::Stopped, "the node is stopped"),
        (LabFault::Full, "the limit of kept events is reached"),
        (LabFault::Memory, "out of memory"),
        (LabFault::Empty, "no event is kept"),
        (LabFault::NoStep, "there is no such step"),
        (LabFault::EventNumbersSpent, "no more events can be counted"),
    ];
    assert_each_display_text(&rt, rt.alloc(), &rows)
}
