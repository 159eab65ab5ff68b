//! The laws of orders and races, each the contract of a function that does nothing. They are about the definitions only.

ghost use Rattle.std.specs.Prelude.{◌≡◌, ◌≢◌, ◌<◌, ◌≤◌, ◌↔◌, ◌⊎◌, All, Contains, ℕ, Bool, true, false, length, List, [], ◌∷◌, ◌++◌, Some, IsSome, map, IfSome};
ghost use Rattle.ga_node.specs.Record.{NodeRecord};
ghost use Rattle.ga_ports.specs.declared.side.Side.{Side};
ghost use Rattle.ga_grid.specs.declared.node_id.NodeId.{NodeId};
ghost use Rattle.ga_event.specs.declared.event.Event.{Event};
ghost use Rattle.ga_event.specs.declared.event.Event.TheVariants.{Pass};
ghost use Rattle.ga_event.specs.Touches.{touches};
ghost use Rattle.ga_event.specs.declared.event.EventWithLook.{EventWithLook};
ghost use Rattle.ga_event.specs.Apply.{MadeEventOutcome, event_result, replay, run_events, apply};
ghost use Rattle.ga_event.specs.Told.{count_steps, events_of_causes};
ghost use Rattle.ga_causal.specs.Dependence.{events_after_rewind, HasNoLooks};
ghost use Rattle.ga_causal.specs.Equivalence.{AreEquivalentLists};
ghost use Rattle.ga_causal.specs.Words.{local_history_with_outside_words};
ghost use Rattle.ga_races.specs.Orders.{IsEnabled, IsTerminalChip, AreReorderings, AreIndependentOnChip, IsRace, HasNoRace, AreConflictingPasses};
ghost use Rattle.ga_races.specs.HappensBefore.{TraceAction, trace_action_at, HappensDirectlyBefore, IsVectorClock, clock_at_place, trace_action_of_event, trace_actions_of_events, events_with_looks_of_trace_actions, are_dependent_actions, HappensBefore, IsStepOfNode, IsEarlierInReordering, event_at_place, IsRacingPair, IsContendedPass, IsMarkedOrNeighbour};
ghost use Rattle.ga_races.specs.Kahn.{HasOneWriter};
ghost use Rattle.ga_races.specs.Rounds.{events_without_node, IsPollingRound, HasNoPollingRound};
ghost use Rattle.ga_grid.specs.Chip.{node_record_at};
ghost use Rattle.ga_event.specs.Next.{next_event_of_node};
ghost use Rattle.ga_races.specs.Acts.{AreDeadlocked};

/// Two different events that are enabled on a chip can both be made, in both orders and with the same chip, if they are
/// independent. If they touch a common node they are passes to one reader from two writers, over two sides: a word can only be
/// lost to another word where a reader waits on several sides.
pub fn diamond_property()
    ensures order { (chip : List NodeRecord) (e f : Event) → IsEnabled chip e → IsEnabled chip f → AreIndependentOnChip chip e f →
        IsSome (replay chip (e ∷ f ∷ [])) × (replay chip (e ∷ f ∷ []) ≡ replay chip (f ∷ e ∷ [])) }
    ensures rivals { (chip : List NodeRecord) (e f : Event) (n : ℕ) → IsEnabled chip e → IsEnabled chip f → e ≢ f →
        touches e n ≡ true → touches f n ≡ true → AreConflictingPasses e f }
{}

/// If a list has no race, any other list that can be made from the same chip, in which no node makes more steps, is a prefix of
/// the list in another order: it can be continued until each node has the local history with the words that it has in the list.
#[tactic(auto, using(crate::proofs::Orders::beginning_within))]
pub fn race_free_prefixes_extend()
    ensures { (chip : List NodeRecord) (events others : List Event) → IsSome (replay chip events) → HasNoRace chip events →
        IsSome (replay chip others) → ((n : ℕ) → count_steps n others ≤ count_steps n events) →
        (later : List Event) × AreReorderings chip events (others ++ later) }
{}

/// A list has no race if each other list that can be made from the same chip is a prefix of it in another order. For a list
/// that ends without an enabled event this is equivalent to having no race (`race_free_end_is_unique`).
pub fn no_race_if_confluent()
    ensures { (chip last : List NodeRecord) (events : List Event) → replay chip events ≡ Some last →
        ((others : List Event) → IsSome (replay chip others) → (later : List Event) × AreReorderings chip events (others ++ later)) →
        HasNoRace chip events }
{}

/// If a list has no race and ends without an enabled event, each order of steps is a prefix of it, and each that can't be
/// continued is the list in another order: it ends on the same chip. No node makes more steps in any.
pub fn race_free_end_is_unique()
    ensures beginning { (chip last : List NodeRecord) (events others : List Event) → replay chip events ≡ Some last → HasNoRace chip events →
        IsTerminalChip last → IsSome (replay chip others) →
        (later : List Event) × AreReorderings chip events (others ++ later) }
    ensures steps { (chip last : List NodeRecord) (events others : List Event) (n : ℕ) → replay chip events ≡ Some last →
        HasNoRace chip events → IsTerminalChip last → IsSome (replay chip others) →
        count_steps n others ≤ count_steps n events }
    ensures chip { (chip last now : List NodeRecord) (events others : List Event) → replay chip events ≡ Some last →
        HasNoRace chip events → IsTerminalChip last → replay chip others ≡ Some now → IsTerminalChip now →
        AreReorderings chip events others × (now ≡ last) }
{}

/// If no event of a list looks and the list ends without an enabled event, it has no race exactly if no rollback of a node's
/// step leaves a chip on which two neighbours wait to write to the node while it waits for both: what `rewind` of a step leaves
/// shows each race. (A race of two passes shows there also if an event is enabled at the end.)
pub fn rollbacks_reveal_races()
    ensures shown_state { (chip last : List NodeRecord) (events : List Event) (steps : List (EventWithLook × MadeEventOutcome)) (w x r : NodeId) (side other : Side) →
        run_events chip events ≡ Some (last, steps) → let causes = map (λ (s : EventWithLook × MadeEventOutcome). s.0) steps in
        HasNoLooks causes → IsRace chip events (Pass w r side) (Pass x r other) → AreConflictingPasses (Pass w r side) (Pass x r other) →
        (k : ℕ) × (now : List NodeRecord) × (replay chip (events_of_causes (events_after_rewind causes r.number k)) ≡ Some now)
        × IsEnabled now (Pass w r side) × IsEnabled now (Pass x r other) }
    ensures decided { (chip last : List NodeRecord) (events : List Event) (steps : List (EventWithLook × MadeEventOutcome)) →
        run_events chip events ≡ Some (last, steps) → let causes = map (λ (s : EventWithLook × MadeEventOutcome). s.0) steps in
        HasNoLooks causes → IsTerminalChip last →
        (HasNoRace chip events ↔
        ((k : ℕ) (now : List NodeRecord) (w x r : NodeId) (side other : Side) →
        replay chip (events_of_causes (events_after_rewind causes r.number k)) ≡ Some now →
        IsEnabled now (Pass w r side) → IsEnabled now (Pass x r other) → side ≢ other → ⊥)) }
{}

/// A list has no race where no event of it looks, it ends without a next event, and whenever a node takes a word, of the neighbours on
/// the sides on which it waits only one ever writes to it in the list (after Kahn). So every order of steps ends alike (`race_free_end_is_unique`).
pub fn one_writer_means_no_race()
    ensures { (chip last : List NodeRecord) (events : List Event) (steps : List (EventWithLook × MadeEventOutcome)) →
        run_events chip events ≡ Some (last, steps) → HasNoLooks (map (λ (s : EventWithLook × MadeEventOutcome). s.0) steps) → IsTerminalChip last →
        HasOneWriter chip events → HasNoRace chip events }
{}

/// Lists that differ by swaps of adjacent independent events are orders of one another: if neither sees what the other touches,
/// both have the same words. The first list must be one that can be made. Orders have the same chip.
#[tactic(auto, using(crate::proofs::Exact::order_of, crate::proofs::Orders::order_replay, crate::proofs::Orders::order_read))]
pub fn equivalent_lists_are_reorderings()
    ensures swaps { (chip : List NodeRecord) (events others : List Event) → AreEquivalentLists chip events others → IsSome (replay chip events) →
        AreReorderings chip events others }
    ensures chip { (chip : List NodeRecord) (events others : List Event) → AreReorderings chip events others →
        replay chip events ≡ replay chip others }
    ensures words { (chip : List NodeRecord) (events others : List Event) (n : ℕ) → AreReorderings chip events others →
        local_history_with_outside_words n chip events ≡ local_history_with_outside_words n chip others }
{}

/// Happens-before (Lamport) in a list is what every order of the list keeps: the past of an event can be read from the one list
/// that was made. Two neighbours in a list are not dependent as actions (`are_dependent_actions`) exactly if they are independent
/// (`AreIndependentOnChip`). The events are named by their steps: each is one, and is in every order as the step of the same number. The
/// list must be one that can be made, as nothing is swapped past an event that is not enabled.
pub fn reorderings_keep_happens_before()
    ensures free { (chip : List NodeRecord) (e f : Event) → IsEnabled chip e → IsEnabled (event_result chip e).0 f →
        ((are_dependent_actions (trace_action_of_event chip e) (trace_action_of_event (event_result chip e).0 f) ≡ false) ↔ (IsEnabled chip f × AreIndependentOnChip chip e f)) }
    ensures causes { (chip last : List NodeRecord) (events : List Event) (steps : List (EventWithLook × MadeEventOutcome)) → run_events chip events ≡ Some (last, steps) →
        events_with_looks_of_trace_actions (trace_actions_of_events chip events) ≡ map (λ (s : EventWithLook × MadeEventOutcome). s.0) steps }
    ensures named { (chip : List NodeRecord) (events : List Event) (place : ℕ) → place < length events →
        (n : ℕ) × (k : ℕ) × IsStepOfNode chip events n k place }
    ensures stands { (chip : List NodeRecord) (events others : List Event) (n k place : ℕ) → AreReorderings chip events others →
        IsStepOfNode chip events n k place → (there : ℕ) × IsStepOfNode chip others n k there }
    ensures every { (chip : List NodeRecord) (events others : List Event) (first later : ℕ) → HappensBefore (trace_actions_of_events chip events) first later →
        AreReorderings chip events others → IsEarlierInReordering chip events others first later }
    ensures some { (chip : List NodeRecord) (events : List Event) (first later : ℕ) → IsSome (replay chip events) →
        first < later → later < length events → ¬ HappensBefore (trace_actions_of_events chip events) first later →
        (others : List Event) × AreReorderings chip events others × IsEarlierInReordering chip events others later first }
    ensures exact { (chip : List NodeRecord) (events : List Event) (first later : ℕ) → IsSome (replay chip events) →
        first < later → later < length events →
        (HappensBefore (trace_actions_of_events chip events) first later
        ↔ ((others : List Event) → AreReorderings chip events others → IsEarlierInReordering chip events others first later)) }
{}

/// Which events of a list race can be read from the list alone, by happens-before (after Netzer and Miller). A look and a
/// change of what is shown to it race if nothing happens between them. A pass races with the pass of another writer exactly if
/// this writer comes to wait to write to the reader by steps of which none happens after the pass. For a list that ends without
/// an enabled event these are enough: it has no race exactly if there is neither, and then every order of steps ends on its
/// chip (`race_free_end_is_unique`).
pub fn races_read_from_list()
    ensures looks { (chip last : List NodeRecord) (events : List Event) (first later : ℕ) → replay chip events ≡ Some last →
        IsRacingPair chip events first later → IsRace chip events (event_at_place chip events first) (event_at_place chip events later) }
    ensures passes { (chip last : List NodeRecord) (events : List Event) (place : ℕ) (other : Event) → replay chip events ≡ Some last →
        IsContendedPass chip events place other → IsRace chip events (event_at_place chip events place) other }
    ensures rivals { (chip last : List NodeRecord) (events : List Event) (step other : Event) → replay chip events ≡ Some last →
        IsRace chip events step other → AreConflictingPasses step other →
        (place : ℕ) × (event_at_place chip events place ≡ step) × IsContendedPass chip events place other }
    ensures decided { (chip last : List NodeRecord) (events : List Event) → replay chip events ≡ Some last → IsTerminalChip last →
        (HasNoRace chip events
        ↔ (((first later : ℕ) → ¬ IsRacingPair chip events first later) × ((place : ℕ) (other : Event) → ¬ IsContendedPass chip events place other))) }
{}

/// Of two actions that touch a common node the earlier happens before the later. A clock can be made of those of earlier
/// places, in one pass over a list: of some on which the place depends directly, if each on which it depends directly is among
/// them or happens before one of them. It is therefore enough to take the last action of each node that is touched; for a look
/// also the last change by each neighbour; and for a change also the last look of each node to which it shows.
pub fn vector_clocks_are_exact()
    ensures node { (trace_actions_of_events : List TraceAction) (first later n : ℕ) → first < later → later < length trace_actions_of_events →
        touches (trace_action_at trace_actions_of_events first).cause.event n ≡ true → touches (trace_action_at trace_actions_of_events later).cause.event n ≡ true →
        HappensBefore trace_actions_of_events first later }
    ensures made { (trace_actions_of_events : List TraceAction) (place : ℕ) (known : List (ℕ × (ℕ → ℕ))) → place < length trace_actions_of_events →
        All (λ (clock : ℕ × (ℕ → ℕ)). HappensDirectlyBefore trace_actions_of_events clock.0 place × IsVectorClock trace_actions_of_events clock.0 clock.1) known →
        ((earlier : ℕ) → HappensDirectlyBefore trace_actions_of_events earlier place →
        (clock : ℕ × (ℕ → ℕ)) × Contains known clock × ((earlier ≡ clock.0) ⊎ HappensBefore trace_actions_of_events earlier clock.0)) →
        IsVectorClock trace_actions_of_events place (clock_at_place trace_actions_of_events place known) }
{}

/// An event changes what the next event of a node is at the nodes that it touches and at their neighbours alone.
#[tactic(auto, using(crate::proofs::Nexts::changes_near))]
pub fn next_event_changes_locally()
    ensures { (chip : List NodeRecord) (event : Event) →
        IfSome (apply chip event) (λ done. (node : NodeId) → IsMarkedOrNeighbour (touches event) node.number ⊎ (next_event_of_node chip node ≡ next_event_of_node done.0 node)) }
{}

/// Whatever further events are made, each of some nodes that are stuck stays as it is.
#[tactic(auto, using(crate::proofs::Stuck::stays))]
pub fn deadlock_is_permanent()
    ensures { (chip : List NodeRecord) (events : List Event) (marks : ℕ → Bool) → AreDeadlocked chip marks →
        IfSome (replay chip events) (λ later. (n : ℕ) → marks n ≡ true → node_record_at chip n ≡ node_record_at later n) }
{}

/// A node that polls makes rounds: events of its own that lead back to its record before them. A round without other events
/// leads to the chip on which it began. The events of other nodes within it can be made without it too, since a node that runs
/// shows them nothing: a list without a round leads to the same chip, whatever the looks of the round read. A shortest list to
/// a chip has no round, so the lists without one reach each chip that any list reaches.
pub fn polling_rounds_are_removable()
    ensures alone { (chip : List NodeRecord) (n : ℕ) (round : List Event) → IsPollingRound chip n round → events_without_node n round ≡ [] →
        replay chip round ≡ Some chip }
    ensures left { (chip now : List NodeRecord) (before round later : List Event) (n : ℕ) → replay chip before ≡ Some now →
        IsPollingRound now n round → replay chip (before ++ round ++ later) ≡ replay chip (before ++ events_without_node n round ++ later) }
    ensures shortest { (chip last : List NodeRecord) (events : List Event) → replay chip events ≡ Some last →
        ((others : List Event) → replay chip others ≡ Some last → length events ≤ length others) → HasNoPollingRound chip events }
{}
