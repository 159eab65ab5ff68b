//! What was found out about the nodes that have an event, and the node that is drawn of them.

ghost use Rattle.std.specs.Prelude.{◌≡◌, ◌<◌, ◌≤◌, ℕ, false, None, [], IfSome};
ghost use Rattle.ga_scheduler.specs.inner.{is_number_in_set, IsReadySetKnowledgeTrue};
ghost use Rattle.ga_scheduler.specs.Schedules.{passing_numbers_below, random_node};

use crate::numbers::NumberSet;
use crate::ready::lowest_number_from;
use arrayvec::ArrayVec;
use ga_grid::{CHIP_NODE_COUNT, NodeId};

/// What is known of a set of nodes until it changes.
#[derive(Drop)]
pub(crate) struct Known {
    /// The node that is alone in the set, if one is known to be.
    pub alone: Option<NodeId>,
    /// `numbers` has the numbers of its nodes, in their order.
    pub is_listed: bool,
    /// These numbers, or those of the set before it changed.
    pub numbers: ArrayVec<u8, CHIP_NODE_COUNT>,
}

impl Known {
    ghost use Rattle.std.specs.Prelude.{◌≡◌, false, None};

    /// Nothing is known.
    pub fn no_known_nodes() -> Self
        ensures alone { result.alone ≡ None }
        ensures listed { result.is_listed ≡ false }
    {
        Known {
            alone: None,
            is_listed: false,
            numbers: ArrayVec::new(),
        }
    }

    /// Nothing is known any more, as the set may have changed.
    #[inline(always)]
    pub fn forget_all_known_nodes(&mut self)
        ensures alone { self.new.alone ≡ None }
        ensures listed { self.new.is_listed ≡ false }
    {
        self.alone = None;
        self.is_listed = false;
    }
}

// Lists the numbers of the nodes in a set.
#[inline(never)]
fn list_numbers(ready: &NumberSet, numbers: &mut ArrayVec<u8, CHIP_NODE_COUNT>)
    requires { (n : ℕ) → 144 ≤ n → n < 192 → is_number_in_set ready.now n ≡ false }
    ensures { numbers.new.items ≡ passing_numbers_below (is_number_in_set ready.now) 144 }
{
    numbers.truncate(0);
    let mut from = 0u8;
    while from < CHIP_NODE_COUNT as u8 {
        match lowest_number_from(ready, NodeId::new(from)) {
            Some(node) => {
                numbers.push(node.number);
                from = node.number + 1;
            }
            None => return,
        }
    }
}

// Lists the numbers of the nodes in a set, unless they are listed.
#[inline(always)]
fn list_once(ready: &NumberSet, known: &mut Known)
    requires past { (n : ℕ) → 144 ≤ n → n < 192 → is_number_in_set ready.now n ≡ false }
    requires known { IsReadySetKnowledgeTrue ready.now known.old }
    ensures listed { known.new.numbers.items ≡ passing_numbers_below (is_number_in_set ready.now) 144 }
    ensures known { IsReadySetKnowledgeTrue ready.now known.new }
{
    if known.is_listed {
        return;
    }
    list_numbers(ready, &mut known.numbers);
    known.is_listed = true;
}

/// Draws the node, of those in a set, whose place a word is, modulo their number.
pub(crate) fn draw_node(ready: &NumberSet, known: &mut Known, word: u64) -> Option<NodeId>
    requires past { (n : ℕ) → 144 ≤ n → n < 192 → is_number_in_set ready.now n ≡ false }
    requires known { IsReadySetKnowledgeTrue ready.now known.old }
    ensures drawn { result ≡ random_node (is_number_in_set ready.now) word }
    ensures known { IsReadySetKnowledgeTrue ready.now known.new }
{
    list_once(ready, known);
    let count = known.numbers.len();
    if count == 0 {
        return None;
    }
    let place = (word % count as u64) as usize;
    Some(NodeId::new(known.numbers[place]))
}
