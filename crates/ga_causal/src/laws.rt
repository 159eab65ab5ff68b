//! The laws of dependence, each the contract of a function that does nothing. They are about the definitions only.

ghost use Rattle.std.specs.Prelude.{◌≡◌, ◌↔◌, ◌<◌, ◌≤◌, ℕ, Bool, false, not, List, [], ◌∷◌, ◌++◌, ◌+◌, take, IsTrue, IsSome, IsNone, Option, Some, map, option_map, reverse, length, count_by, slice_index_or, IsPermutation};
ghost use Rattle.ga_event.specs.declared.event.Event.{Event};
ghost use Rattle.ga_event.specs.declared.event.EventWithLook.{EventWithLook};
ghost use Rattle.ga_node.specs.Record.{NodeRecord};
ghost use Rattle.ga_grid.specs.Chip.{node_record_at};
ghost use Rattle.ga_event.specs.Touches.{touches};
ghost use Rattle.ga_event.specs.Apply.{MadeEventOutcome, replay, run_events, event_with_look_on_chip};
ghost use Rattle.ga_causal.specs.declared.chain.ChainLink.{ChainLink};
ghost use Rattle.ga_causal.specs.Chains.{IsChain, IsChainTo, IsChainAnswer, chain_from_cause};
ghost use Rattle.ga_causal.specs.Steps.{links_with_events, numbered_events, numbered_events_with_seen_steps, count_touching_events, IsKthStep};
ghost use Rattle.ga_causal.specs.Dependence.{dependent_flags, rest, unflagged_elements, DependsOn, HasNoLooks, position_of_step, events_after_rewind, events_after_rewinds};
ghost use Rattle.ga_event.specs.Told.{events_of_causes};
ghost use Rattle.ga_causal.specs.Equivalence.{AreIndependentEvents, AreEquivalentLists, numbered_events_with_outcomes, local_history, local_history_with_outcomes};
ghost use Rattle.ga_causal.specs.Words.{local_history_with_outside_words};

/// Two events can be swapped if they touch no common node and neither looks at a node that the other touches: in either order
/// they lead to the same chip, and each looks alike and has the same outcome, or neither order can be made.
#[tactic(auto, using(crate::proofs::Runs::replay_swapped, crate::proofs::Runs::run_swapped))]
pub fn independent_events_swap()
    ensures chip { (chip : List NodeRecord) (e f : Event) → AreIndependentEvents (event_with_look_on_chip chip e) (event_with_look_on_chip chip f) →
        replay chip (e ∷ f ∷ []) ≡ replay chip (f ∷ e ∷ []) }
    ensures told { (chip : List NodeRecord) (e f : Event) → AreIndependentEvents (event_with_look_on_chip chip e) (event_with_look_on_chip chip f) →
        option_map (λ (done : List NodeRecord × List (EventWithLook × MadeEventOutcome)). (done.0, reverse done.1)) (run_events chip (e ∷ f ∷ []))
        ≡ run_events chip (f ∷ e ∷ []) }
{}

/// The list that a rollback leaves replays too, and each event that it keeps has the same outcome, looks exactly if it looked
/// before, and has the same numbers of steps. Each look that it keeps still comes after the same number of steps of each node
/// at which it looks.
pub fn rest_after_rollback_replays()
    ensures told { (chip : List NodeRecord) (events : List Event) (i : ℕ) (last : List NodeRecord) (steps : List (EventWithLook × MadeEventOutcome)) →
        run_events chip events ≡ Some (last, steps) →
        let causes = map (λ (s : EventWithLook × MadeEventOutcome). s.0) steps in
        (now : List NodeRecord) × (run_events chip (events_of_causes (rest causes i)) ≡ Some (now, unflagged_elements (dependent_flags causes i) steps)) }
    ensures steps { (events : List EventWithLook) (i : ℕ) → numbered_events (rest events i) ≡ unflagged_elements (dependent_flags events i) (numbered_events events) }
    ensures seen { (events : List EventWithLook) (i : ℕ) →
        numbered_events_with_seen_steps (rest events i) ≡ unflagged_elements (dependent_flags events i) (numbered_events_with_seen_steps events) }
{}

/// The flags of `dependent_flags` are the places of the events that depend on the one at the place `i`. There must be one: past the end
/// nothing is flagged, while by definition each place depends on itself.
#[tactic(auto, using(crate::proofs::Exact::dependents_exact))]
pub fn dependent_flags_are_exact()
    ensures { (events : List EventWithLook) (i j : ℕ) → i < length events →
        (IsTrue (slice_index_or (dependent_flags events i) j false) ↔ DependsOn events i j) }
{}

/// No larger rest keeps the numbers of the steps: a list without the event at the place `i`, in which each event keeps the
/// numbers of its steps, has no event that depends on it. A look keeps its own numbers also if what it observed is removed; the
/// law therefore holds of lists without looks, and of any list in which each look also keeps the number of the next step of
/// each node at which it looks.
#[tactic(auto, using(crate::proofs::Largest::largest, crate::proofs::Largest::largest_seen))]
pub fn rollback_keeps_largest_rest()
    ensures steps { (events : List EventWithLook) → HasNoLooks events →
        (i : ℕ) (dropped : List Bool) → IsTrue (slice_index_or dropped i false) →
        numbered_events (unflagged_elements dropped events) ≡ unflagged_elements dropped (numbered_events events) →
        (j : ℕ) → DependsOn events i j → IsTrue (slice_index_or dropped j false) }
    ensures seen { (events : List EventWithLook) (i : ℕ) (dropped : List Bool) →
        IsTrue (slice_index_or dropped i false) →
        numbered_events_with_seen_steps (unflagged_elements dropped events) ≡ unflagged_elements dropped (numbered_events_with_seen_steps events) →
        (j : ℕ) → DependsOn events i j → IsTrue (slice_index_or dropped j false) }
{}

/// A node has as many steps as events touch it, whether they look or not, and its k-th step is the k-th of them. Each step
/// is a cause of the node's later ones.
pub fn steps_are_touching_events()
    ensures events { (events : List EventWithLook) (n : ℕ) → count_touching_events n events ≡ count_by (λ e. touches e n) (events_of_causes events) }
    ensures stands { (events : List EventWithLook) (n k : ℕ) →
        (IsSome (position_of_step events n k) ↔ ((0 < k) × (k ≤ count_touching_events n events))) }
    ensures place { (events : List EventWithLook) (n k place : ℕ) → position_of_step events n k ≡ Some place → IsKthStep events n k place }
    ensures later { (events : List EventWithLook) (n k j i q : ℕ) → position_of_step events n k ≡ Some i → position_of_step events n j ≡ Some q → k ≤ j →
        DependsOn events i q }
{}

/// Rollbacks leave the same list in any order. Of two, the second is refused exactly where its step depends on the first.
#[tactic(auto, using(crate::proofs::Rollbacks::rewound_twice, crate::proofs::Rollbacks::rewound_any_order, crate::proofs::LocalHistories::refused_exactly))]
pub fn rollbacks_commute()
    ensures either { (events : List EventWithLook) (n k m j : ℕ) → events_after_rewind (events_after_rewind events n k) m j ≡ events_after_rewind (events_after_rewind events m j) n k }
    ensures refused { (events : List EventWithLook) (n k m j i q : ℕ) → position_of_step events n k ≡ Some i → position_of_step events m j ≡ Some q →
        (IsNone (position_of_step (rest events i) m j) ↔ DependsOn events i q) }
    ensures any { (events : List EventWithLook) (steps others : List (ℕ × ℕ)) → IsPermutation steps others →
        events_after_rewinds events steps ≡ events_after_rewinds events others }
{}

/// Equivalent lists, which differ by swaps of independent neighbours, lead to the same chip.
#[tactic(auto, using(crate::proofs::Runs::replay_equivalent))]
pub fn equivalent_lists_replay_alike()
    ensures { (chip : List NodeRecord) (events others : List Event) → AreEquivalentLists chip events others →
        replay chip events ≡ replay chip others }
{}

/// Equivalent lists run alike: to the same chip, with the same numbered events and outcomes, and with the same local history of
/// each node. The first list must run: a list that can't run has no chip and no local histories to compare.
#[tactic(auto, using(crate::proofs::Consistent::kept_alike))]
pub fn equivalent_runs_agree()
    ensures { (chip last : List NodeRecord) (events others : List Event) (steps : List (EventWithLook × MadeEventOutcome)) →
        run_events chip events ≡ Some (last, steps) → AreEquivalentLists chip events others →
        (made : List (EventWithLook × MadeEventOutcome)) × (run_events chip others ≡ Some (last, made)) × IsPermutation (numbered_events_with_outcomes steps) (numbered_events_with_outcomes made)
        × ((n : ℕ) → local_history_with_outcomes n steps ≡ local_history_with_outcomes n made) }
{}

/// Causal consistency (Danos and Krivine): of two lists that run from one chip, one is made from the other by swaps of
/// independent neighbours exactly if each node has the same local history after both, and exactly if both have the same
/// numbered events. Both must run, since nothing is swapped in a list that can't be made. Without looks the numbers of the
/// steps are enough; a look also needs the number of steps of each neighbour when it looked, which these numbers don't give.
#[tactic(auto, using(crate::proofs::Consistent::same_accounts, crate::proofs::Consistent::same_events, crate::proofs::Taken::same_steps))]
pub fn causal_consistency()
    ensures accounts { (chip last now : List NodeRecord) (events others : List Event) (steps made : List (EventWithLook × MadeEventOutcome)) →
        run_events chip events ≡ Some (last, steps) → run_events chip others ≡ Some (now, made) →
        let causes = map (λ (s : EventWithLook × MadeEventOutcome). s.0) in
        (AreEquivalentLists chip events others ↔ ((n : ℕ) → local_history n (causes steps) ≡ local_history n (causes made))) }
    ensures events { (chip last now : List NodeRecord) (events others : List Event) (steps made : List (EventWithLook × MadeEventOutcome)) →
        run_events chip events ≡ Some (last, steps) → run_events chip others ≡ Some (now, made) →
        let causes = map (λ (s : EventWithLook × MadeEventOutcome). s.0) in
        (AreEquivalentLists chip events others ↔ IsPermutation (numbered_events_with_seen_steps (causes steps)) (numbered_events_with_seen_steps (causes made))) }
    ensures steps { (chip last now : List NodeRecord) (events others : List Event) (steps made : List (EventWithLook × MadeEventOutcome)) →
        run_events chip events ≡ Some (last, steps) → run_events chip others ≡ Some (now, made) →
        let causes = map (λ (s : EventWithLook × MadeEventOutcome). s.0) in
        HasNoLooks (causes steps) →
        (AreEquivalentLists chip events others ↔ IsPermutation (numbered_events (causes steps)) (numbered_events (causes made))) }
{}

/// A node is determined by its local history with the words (after the monitored processes of Danos and Krivine): on chips of
/// one size with the same record of a node, lists in which it has the same local history with the same words leave the same
/// record of it, whatever else they do. Lists that run from one chip therefore lead to the same chip if each node has the same
/// local history with the same words. They need not be equivalent: a look can read the same word before and after a step of a
/// neighbour. Equivalent lists have the same local histories with words. Both lists must run, since a list that can't be made
/// leads to no chip.
#[tactic(auto, using(crate::proofs::Words::same_node, crate::proofs::Words::same_chip, crate::proofs::Words::same_received))]
pub fn local_history_determines_node()
    ensures node { (chip other last now : List NodeRecord) (events others : List Event) (n : ℕ) →
        replay chip events ≡ Some last → replay other others ≡ Some now → length chip ≡ length other →
        node_record_at chip n ≡ node_record_at other n → local_history_with_outside_words n chip events ≡ local_history_with_outside_words n other others →
        node_record_at last n ≡ node_record_at now n }
    ensures chip { (chip last now : List NodeRecord) (events others : List Event) →
        replay chip events ≡ Some last → replay chip others ≡ Some now →
        ((n : ℕ) → local_history_with_outside_words n chip events ≡ local_history_with_outside_words n chip others) → last ≡ now }
    ensures equivalent { (chip last : List NodeRecord) (events others : List Event) (n : ℕ) →
        replay chip events ≡ Some last → AreEquivalentLists chip events others →
        local_history_with_outside_words n chip events ≡ local_history_with_outside_words n chip others }
{}

/// Rollbacks of equivalent lists, to the same steps, leave equivalent lists. Both must run, so that there are steps to roll back.
#[tactic(auto, using(crate::proofs::Moved::rolled_back))]
pub fn rollback_preserves_equivalence()
    ensures { (chip last now : List NodeRecord) (events others : List Event) (steps made : List (EventWithLook × MadeEventOutcome)) →
        run_events chip events ≡ Some (last, steps) → run_events chip others ≡ Some (now, made) → AreEquivalentLists chip events others →
        let causes = map (λ (s : EventWithLook × MadeEventOutcome). s.0) in
        (rollbacks : List (ℕ × ℕ)) →
        AreEquivalentLists chip (events_of_causes (events_after_rewinds (causes steps) rollbacks)) (events_of_causes (events_after_rewinds (causes made) rollbacks)) }
{}

/// After a rollback each local history is a prefix of the one before, with the same outcomes; that of the node whose step is
/// removed ends just before the step, also if the step doesn't exist, when nothing is removed.
pub fn rollback_keeps_history_prefix()
    ensures first { (events : List EventWithLook) (n k m : ℕ) →
        (later : List (EventWithLook × List ℕ)) × (local_history m events ≡ local_history m (events_after_rewind events n k) ++ later) }
    ensures own { (events : List EventWithLook) (n k : ℕ) →
        local_history n (events_after_rewind events n (k + 1)) ≡ take k (local_history n events) }
    ensures told { (chip last : List NodeRecord) (events : List Event) (steps : List (EventWithLook × MadeEventOutcome)) (n k : ℕ) →
        run_events chip events ≡ Some (last, steps) →
        let causes = map (λ (s : EventWithLook × MadeEventOutcome). s.0) steps in
        (now : List NodeRecord) × (left : List (EventWithLook × MadeEventOutcome)) × (run_events chip (events_of_causes (events_after_rewind causes n k)) ≡ Some (now, left))
        × ((m : ℕ) → (later : List ((EventWithLook × List ℕ) × MadeEventOutcome)) × (local_history_with_outcomes m steps ≡ local_history_with_outcomes m left ++ later)) }
{}

/// The events that a rollback removes can be moved to the end of the list by swaps of independent neighbours, if no look is
/// among them: such a rollback is a sequence of undos, after swaps. A removed look can come before a kept step of a node at
/// which it looked, and isn't swapped with it.
#[tactic(auto, using(crate::proofs::Taken::removed_events_swap_to_end))]
pub fn removed_events_swap_to_end()
    ensures { (chip last : List NodeRecord) (events : List Event) (steps : List (EventWithLook × MadeEventOutcome)) (i : ℕ) →
        run_events chip events ≡ Some (last, steps) →
        let causes = map (λ (s : EventWithLook × MadeEventOutcome). s.0) steps in
        let taken = unflagged_elements (map not (dependent_flags causes i)) causes in
        HasNoLooks taken → AreEquivalentLists chip events (events_of_causes (rest causes i ++ taken)) }
{}

/// A chain in one of two equivalent lists is one in the other too: the same steps, each of which depends directly on the one before
/// it by the same rule. Both lists must run, so that they have chains.
#[tactic(auto, using(crate::proofs::Moved::equivalence_preserves_chains))]
pub fn equivalence_preserves_chains()
    ensures { (chip last now : List NodeRecord) (events others : List Event) (steps made : List (EventWithLook × MadeEventOutcome)) (links : List ChainLink) →
        run_events chip events ≡ Some (last, steps) → run_events chip others ≡ Some (now, made) → AreEquivalentLists chip events others →
        let causes = map (λ (s : EventWithLook × MadeEventOutcome). s.0) in
        IsChain (causes steps) links →
        (chain : List ChainLink) × IsChain (causes made) chain × (links_with_events (causes steps) links ≡ links_with_events (causes made) chain) }
{}

/// There is at most one chain from a place to another, it is a chain, and `chain_from_cause` returns whether there is one, and which.
#[tactic(auto, using(crate::proofs::ChainOf::chain_one, crate::proofs::ChainOf::chain_chain, crate::proofs::ChainOf::chain_found, crate::proofs::ChainOf::chain_is))]
pub fn chain_is_unique()
    ensures one { (events : List EventWithLook) (cause place : ℕ) (links others : List ChainLink) →
        IsChainTo events cause place links → IsChainTo events cause place others → links ≡ others }
    ensures chain { (events : List EventWithLook) (cause place : ℕ) (links : List ChainLink) → cause < length events →
        IsChainTo events cause place links → IsChain events links }
    ensures found { (events : List EventWithLook) (cause place : ℕ) → cause < length events →
        IsChainAnswer events cause place (chain_from_cause events cause place) }
    ensures only { (events : List EventWithLook) (cause place : ℕ) (answer : Option (List ChainLink)) →
        cause < length events →
        IsChainAnswer events cause place answer → answer ≡ chain_from_cause events cause place }
{}
