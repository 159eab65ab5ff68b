//! In what order the nodes make their events.

ghost use Rattle.std.specs.Prelude.{◌≡◌, ◌+◌};
ghost use Rattle.rand_xoshiro.specs.SplitMix64.{mix_u64};
ghost use Rattle.ga_grid.specs.Grid.{node_id};

use ga_grid::NodeId;
use rand_core::SeedableRng;
use rand_core::utils::NextWord;
use rand_xoshiro::SplitMix64;

/// The next turn after a node that made an event.
#[derive(Clone, Copy, PartialEq, Eq, Debug)]
pub enum ScheduleOrder {
    /// In rounds: to the next number, after the last one to the first. So in each round each node that has an event makes one,
    /// in the order of the numbers.
    Rounds,
    /// Only when the node has no event left: each makes as many events as it can.
    Greedy,
    /// To a node that is drawn: each that has an event is as likely as another.
    Random,
}

/// An order with its state: whose turn it is, and the state of the random generator. In rounds and in the greedy order the next
/// event is made by the first node, from the one whose turn it is on and round the chip, that has one. In the random order the
/// next word of the generator, modulo the number of nodes that have an event, is the place of the node that makes it among these,
/// in the order of their numbers and from 0 on.
#[derive(Clone, Copy, PartialEq, Eq, Debug)]
pub struct Schedule {
    /// How the next turn is chosen.
    pub order: ScheduleOrder,
    /// The node whose turn it is; in the random order none has one.
    pub turn: NodeId,
    /// The state of the generator, SplitMix64 (Steele, Lea and Flood, "Fast splittable pseudorandom number generators", 2014).
    pub generator: u64,
}

// A word, and the generator's next state.
fn drawn_word(state: u64) -> (u64, u64)
    ensures { result ≡ mix_u64 state }
{
    let mut generator = SplitMix64::seed_from_u64(state);
    let word = generator.next_word();
    (word, u64::from_le_bytes(generator.state()))
}

// Node 000.
pub(crate) fn first_node() -> NodeId
    ensures { result ≡ node_id 0 }
{
    NodeId::new(0)
}

// The node after this one, and 000 after the last.
fn following(node: NodeId) -> NodeId
    ensures { result ≡ node_id (node.number + 1) }
{
    if node.number < 143 {
        NodeId::new(node.number + 1)
    } else {
        NodeId::new(0)
    }
}

impl Schedule {
    ghost use Rattle.std.specs.Prelude.{◌≡◌};
    ghost use Rattle.rand_xoshiro.specs.SplitMix64.{mix_u64};
    ghost use Rattle.ga_scheduler.specs.Schedules.{round_robin_schedule, greedy_schedule, random_schedule, schedule_after_event};
    ghost use Rattle.ga_scheduler.specs.inner.{is_random_order};

    /// Rounds, the first of which begins at node 000.
    pub fn round_robin_schedule() -> Self
        ensures { result ≡ round_robin_schedule }
    {
        Schedule {
            order: ScheduleOrder::Rounds,
            turn: first_node(),
            generator: 0,
        }
    }

    /// Node 000 until it has no event, then the next.
    pub fn greedy_schedule() -> Self
        ensures { result ≡ greedy_schedule }
    {
        Schedule {
            order: ScheduleOrder::Greedy,
            turn: first_node(),
            generator: 0,
        }
    }

    /// Nodes that are drawn by a generator with this seed, which determines the schedule.
    pub fn random_schedule(seed: u64) -> Self
        ensures { result ≡ random_schedule seed }
    {
        Schedule {
            order: ScheduleOrder::Random,
            turn: first_node(),
            generator: seed,
        }
    }

    // The generator's next word.
    pub(crate) fn word(&self) -> u64
        ensures { result ≡ (mix_u64 self.now.generator).0 }
    {
        drawn_word(self.generator).0
    }

    // Whether nodes are drawn.
    pub(crate) fn draws(&self) -> bool
        ensures { result ≡ is_random_order self.now.order }
    {
        match self.order {
            ScheduleOrder::Rounds => false,
            ScheduleOrder::Greedy => false,
            ScheduleOrder::Random => true,
        }
    }

    // The schedule after an event that this node made.
    #[inline(always)]
    pub(crate) fn schedule_after_event(self, node: NodeId, draws: bool) -> Self
        requires { draws ≡ is_random_order self.order }
        ensures { result ≡ schedule_after_event self node }
    {
        if draws {
            return Schedule {
                generator: drawn_word(self.generator).1,
                ..self
            };
        }
        let turn = match self.order {
            ScheduleOrder::Rounds => following(node),
            ScheduleOrder::Greedy => node,
            ScheduleOrder::Random => node,
        };
        Schedule { turn, ..self }
    }
}
