//! Laws of the machine, each the contract of a function that does no work. Those of reached machines (`IsReachableState`) hold of each
//! machine to which steps, undos and rollbacks lead from a load. They needn't hold of others: the events of their list need not
//! have been made, and then they have no chip.

ghost use Rattle.std.specs.Prelude.{◌≡◌, ◌<◌, ◌≤◌, ◌^◌, ◌↔◌, ℕ, true, List, [], ◌∷◌, ◌++◌, ◌+◌, ◌-◌, length, map, Some, None, Ok, IsSome};
ghost use Rattle.ga_event.specs.declared.event.Event.{Event};
ghost use Rattle.ga_event.specs.Touches.{touches};
ghost use Rattle.ga_event.specs.Apply.{replay};
ghost use Rattle.ga_event.specs.Told.{count_steps, made_event_at_place, events_of_causes};
ghost use Rattle.ga_grid.specs.declared.node_id.NodeId.{NodeId};
ghost use Rattle.ga_grid.specs.Chip.{HaveWaitsFittingSlotsAndStops, node_record_at};
ghost use Rattle.ga_event.specs.declared.made.MadeEvent.{MadeEvent};
ghost use Rattle.ga_lab.specs.Machine.{MachineState, initial_state, chip_of_machine, machine_events_with_outcomes, machine_events_with_looks, step_answer, state_after_step, has_step, state_after_undo, rewind_answer, state_after_rewind, why_answer, history_of_node, own_or_writing_node, state_after_steps};
ghost use Rattle.ga_node.specs.Record.{NodeRecord};
ghost use Rattle.ga_lab.specs.Calls.{MachineCall, state_after_machine_calls, IsReachableState, AreEquivalentStates};
ghost use Rattle.ga_lab.specs.Sequences.{AreCausallyEquivalent, RemovesNoLook, removed_events};
ghost use Rattle.ga_causal.specs.Equivalence.{AreEquivalentLists, local_history};
ghost use Rattle.ga_causal.specs.Words.{io_words_read};
ghost use Rattle.ga_causal.specs.Dependence.{HasNoLooks, position_of_step};
ghost use Rattle.ga_causal.specs.declared.chain.ChainLink.{ChainLink};
ghost use Rattle.ga_causal.specs.Chains.{IsChain};
ghost use Rattle.ga_causal.specs.Steps.{links_with_events};

use ga_event::laws;

/// If each node of the load has a wait that fits its slot and its stop, so has each node of the machine's chip, whatever its
/// history is.
#[tactic(auto, using(crate::proofs::Replays::chip_steady))]
pub fn machine_keeps_waits_consistent()
    ensures { (s : MachineState) → HaveWaitsFittingSlotsAndStops s.load → HaveWaitsFittingSlotsAndStops (chip_of_machine s) }
{
    laws::events_keep_waits_consistent();
}

/// The event that a step returns is the one that the history has later, at the place after the events before it.
#[tactic(auto, using(crate::proofs::Stepping::step_answer_stays_in_history))]
pub fn step_answer_stays_in_history()
    ensures { (s : MachineState) (n : NodeId) (told : MadeEvent) → IsSome (replay s.load s.kept) →
        step_answer s n ≡ Ok told → made_event_at_place (machine_events_with_outcomes (state_after_step s n)) (length s.kept) ≡ Some told }
{}

/// After any calls, the history can be replayed from the load.
#[tactic(auto, using(crate::proofs::Called::history_is_replayable))]
pub fn history_is_replayable()
    ensures { (load : List NodeRecord) (limit : ℕ) (calls : List MachineCall) →
        let s = state_after_machine_calls (initial_state load limit) calls in
        (s.load ≡ load) × IsSome (replay s.load s.kept) }
{}

/// After any calls, the history has no more events than the limit, nor than were made, and fewer than 2^64 were made.
pub fn history_limit_is_respected()
    ensures { (load : List NodeRecord) (limit : ℕ) (calls : List MachineCall) →
        let s = state_after_machine_calls (initial_state load limit) calls in
        (length s.kept ≤ s.limit) × (length s.kept ≤ s.made) × (s.made < 2 ^ 64) }
{}

/// After a rollback the history of each node is a prefix of the one before.
#[tactic(auto, using(crate::proofs::Called::rollback_keeps_node_prefixes, crate::proofs::Again::some_reached))]
pub fn rollback_keeps_node_prefixes()
    ensures { (s : MachineState) (n k m : ℕ) → IsReachableState s →
        (later : List MadeEvent) × (history_of_node s m ≡ history_of_node (state_after_rewind s n k) m ++ later) }
{}

/// To undo the newest event is to roll back the last step of any of its nodes. A rollback of another node's last step takes another
/// event.
#[tactic(auto, using(crate::proofs::Called::undo_is_rewind_of_last, crate::proofs::Again::some_reached))]
pub fn undo_is_rewind_of_last()
    ensures { (s : MachineState) (events : List Event) (event : Event) (n : ℕ) → IsReachableState s →
        s.kept ≡ events ++ event ∷ [] → touches event n ≡ true → state_after_undo s ≡ state_after_rewind s n (count_steps n s.kept) }
{}

/// Causal consistency of the machine (Danos and Krivine): whatever steps, undos and rollbacks led to two machines from one
/// load, if each node has the same local history in both, then they keep the same events except for the order of independent
/// ones, their chips are the same, and so is each node's `trace`. `independent_order_is_unobservable` is the other direction.
pub fn local_histories_determine_machine()
    ensures { (load : List NodeRecord) (limit bound : ℕ) (calls others : List MachineCall) →
        let s = state_after_machine_calls (initial_state load limit) calls in
        let z = state_after_machine_calls (initial_state load bound) others in
        ((n : ℕ) → local_history n (machine_events_with_looks s) ≡ local_history n (machine_events_with_looks z)) →
        AreEquivalentLists load s.kept z.kept × (chip_of_machine s ≡ chip_of_machine z) × ((n : ℕ) → history_of_node s n ≡ history_of_node z n) }
{}

/// Causal consistency of sequences of calls (Danos and Krivine): two sequences from one load are causally equivalent, which is
/// that a step followed by its undo cancels and independent steps swap, exactly if they end alike. Equivalent sequences from
/// any reached machine end alike. The other direction is for sequences from the load, and requires that no rollback removes a
/// look: what a neighbour did after the look stays, and then the rollback is no sequence of undos
/// (`examples/debug/programs/look_again`). It makes as many steps and undos again, which have to be counted: hence less than
/// half of 2^64 calls.
#[tactic(auto, using(crate::proofs::Sequences::sound, crate::proofs::Again::runs_reached, crate::proofs::Causal::related))]
pub fn calls_causally_consistent()
    ensures ends { (s : MachineState) (calls others : List MachineCall) → IsReachableState s → AreCausallyEquivalent s calls others →
        AreEquivalentLists s.load (state_after_machine_calls s calls).kept (state_after_machine_calls s others).kept }
    ensures related { (load : List NodeRecord) (limit : ℕ) (calls others : List MachineCall) →
        length calls + length calls < 2 ^ 64 → length others + length others < 2 ^ 64 →
        RemovesNoLook (initial_state load limit) calls → RemovesNoLook (initial_state load limit) others →
        AreEquivalentLists load (state_after_machine_calls (initial_state load limit) calls).kept (state_after_machine_calls (initial_state load limit) others).kept →
        AreCausallyEquivalent (initial_state load limit) calls others }
{}

/// The order of independent events shows in no chip, in no local history or `trace`, and in no answer to a step or a rollback,
/// nor later. (An undo shows it: it removes the newest event.)
pub fn independent_order_is_unobservable()
    ensures chip { (s z : MachineState) → AreEquivalentStates s z → chip_of_machine s ≡ chip_of_machine z }
    ensures account { (s z : MachineState) (n : ℕ) → IsReachableState s → AreEquivalentStates s z →
        local_history n (machine_events_with_looks s) ≡ local_history n (machine_events_with_looks z) }
    ensures history { (s z : MachineState) (n : ℕ) → IsReachableState s → AreEquivalentStates s z → history_of_node s n ≡ history_of_node z n }
    ensures step { (s z : MachineState) (n : NodeId) → AreEquivalentStates s z →
        (step_answer s n ≡ step_answer z n) × AreEquivalentStates (state_after_step s n) (state_after_step z n) }
    ensures rollback { (s z : MachineState) (n k : ℕ) → IsReachableState s → AreEquivalentStates s z →
        (rewind_answer s n k ≡ rewind_answer z n k) × AreEquivalentStates (state_after_rewind s n k) (state_after_rewind z n k) }
{}

/// `why` finds a chain in both of two machines that differ by the order of independent events, or in neither, and each chain
/// that it returns for the one is a chain of the other: the same steps, each of which depends directly on the one before by the
/// same rule. (It need not be the one that is returned there: where several of the events on which a step depends directly lead
/// back to the first, the one that was made first is in the chain.)
#[tactic(auto, using(crate::proofs::Explained::same_none, crate::proofs::Again::some_reached, crate::proofs::Explained::same_chain))]
pub fn why_ignores_order()
    ensures none { (s z : MachineState) (n k m j : ℕ) → IsReachableState s → AreEquivalentStates s z →
        ((why_answer s n k m j ≡ Ok None) ↔ (why_answer z n k m j ≡ Ok None)) }
    ensures chain { (s z : MachineState) (n k m j : ℕ) (links : List ChainLink) → IsReachableState s → AreEquivalentStates s z →
        why_answer s n k m j ≡ Ok (Some links) →
        (chain : List ChainLink) × IsChain (machine_events_with_looks z) chain × (links_with_events (machine_events_with_looks s) links ≡ links_with_events (machine_events_with_looks z) chain) }
{}

/// If no event of one of two machines looks, the histories of the nodes, which are what `trace` prints, determine all events
/// except for the order of independent ones, and with them the chip: another machine with the same histories has no look
/// either. (If one looks they don't: it reads another word if a neighbour made a step before it, and prints alike.)
pub fn traces_determine_chip()
    ensures { (load : List NodeRecord) (limit bound : ℕ) (calls others : List MachineCall) →
        let s = state_after_machine_calls (initial_state load limit) calls in
        let z = state_after_machine_calls (initial_state load bound) others in
        HasNoLooks (machine_events_with_looks s) → ((n : ℕ) → history_of_node s n ≡ history_of_node z n) →
        AreEquivalentLists load s.kept z.kept × (chip_of_machine s ≡ chip_of_machine z) }
{}

/// The histories of the nodes, together with the words that their looks read, determine the chip, whoever looks: a node with
/// the same `trace`, whose looks read the same words, is the same, whatever else differs. The local history of a node with the
/// words that it received thus determines it (after Danos and Krivine, who pair a process with the memory of what it received).
/// If its looks read other words, it may differ (`traces_determine_chip`). The order of all events is not determined: a look may have
/// read a word before or after a step of a neighbour that shows no wait, and a rollback of that step removes the look or keeps
/// it.
#[tactic(auto, using(crate::proofs::Heard::same_node, crate::proofs::Heard::same_chip))]
pub fn io_words_determine_chip()
    ensures node { (load : List NodeRecord) (limit bound : ℕ) (calls others : List MachineCall) (n : ℕ) →
        let s = state_after_machine_calls (initial_state load limit) calls in
        let z = state_after_machine_calls (initial_state load bound) others in
        history_of_node s n ≡ history_of_node z n → io_words_read n load s.kept ≡ io_words_read n load z.kept →
        node_record_at (chip_of_machine s) n ≡ node_record_at (chip_of_machine z) n }
    ensures chip { (load : List NodeRecord) (limit bound : ℕ) (calls others : List MachineCall) →
        let s = state_after_machine_calls (initial_state load limit) calls in
        let z = state_after_machine_calls (initial_state load bound) others in
        ((n : ℕ) → history_of_node s n ≡ history_of_node z n) → ((n : ℕ) → io_words_read n load s.kept ≡ io_words_read n load z.kept) →
        chip_of_machine s ≡ chip_of_machine z }
{}

/// Whatever was undone, the machine is where steps alone lead from the load: one step for each event of the history, in order,
/// for a pass one of its writer.
#[tactic(auto, using(crate::proofs::Forward::states_reachable_by_steps, crate::proofs::Again::some_reached, crate::proofs::Again::kept_reached, crate::proofs::Again::count_reached))]
pub fn states_reachable_by_steps()
    ensures { (s : MachineState) → IsReachableState s →
        state_after_steps (initial_state s.load s.limit) (map own_or_writing_node s.kept) ≡ record s { made = length s.kept } }
{}

/// `why` finds no chain from a step to another exactly if a rollback of the first keeps the other. Both must exist: `why`
/// refuses a step that doesn't.
#[tactic(auto, using(crate::proofs::Reasoned::rollback_iff_chain, crate::proofs::Again::some_reached))]
pub fn rollback_iff_chain()
    ensures { (s : MachineState) (n k m j : ℕ) → IsReachableState s → has_step s n k ≡ true → has_step s m j ≡ true →
        ((why_answer s n k m j ≡ Ok None) ↔ (has_step (state_after_rewind s n k) m j ≡ true)) }
{}

/// Two rollbacks leave the same machine in either order.
#[tactic(auto, using(crate::proofs::Reasoned::machine_rollbacks_commute, crate::proofs::Again::some_reached))]
pub fn machine_rollbacks_commute()
    ensures { (s : MachineState) (n k m j : ℕ) → IsReachableState s →
        state_after_rewind (state_after_rewind s n k) m j ≡ state_after_rewind (state_after_rewind s m j) n k }
{}

/// What was undone is made again by a step of its node, of a pass by one of its writer (a step of its reader takes the word of the
/// first writer that waits, which may be another). Once 2^64 - 1 events were made a step is refused.
#[tactic(auto, using(crate::proofs::Forward::undo_is_redone_by_step, crate::proofs::Again::some_reached, crate::proofs::Again::kept_reached))]
pub fn undo_is_redone_by_step()
    ensures { (s : MachineState) (xs : List Event) (e : Event) → IsReachableState s → s.kept ≡ xs ++ e ∷ [] →
        s.made < 2 ^ 64 - 1 → state_after_step (state_after_undo s) (own_or_writing_node e) ≡ record s { made = s.made + 1 } }
{}

/// What a rollback removed is made again by steps of the same nodes in their order, for a pass by one of its writer, if no look
/// is among it: then the history has the same events again except for the order of independent ones, and the chip is the same.
/// (A look made again also observes what its neighbours did after it.) The count of made events must have room for them.
pub fn rollback_is_redone_by_steps()
    ensures { (s : MachineState) (n k : ℕ) → IsReachableState s →
        let taken = removed_events (machine_events_with_looks s) (position_of_step (machine_events_with_looks s) n k) in
        HasNoLooks taken → s.made + length taken < 2 ^ 64 →
        let z = state_after_steps (state_after_rewind s n k) (map own_or_writing_node (events_of_causes taken)) in
        AreEquivalentLists s.load s.kept z.kept × (chip_of_machine z ≡ chip_of_machine s) }
{}

/// A node that keeps all its steps is the same after a rollback as before.
#[tactic(auto, using(crate::proofs::Elsewhere::rollback_leaves_other_nodes, crate::proofs::Again::some_reached))]
pub fn rollback_leaves_other_nodes()
    ensures { (s : MachineState) (n k m : ℕ) → IsReachableState s → count_steps m (state_after_rewind s n k).kept ≡ count_steps m s.kept →
        node_record_at (chip_of_machine (state_after_rewind s n k)) m ≡ node_record_at (chip_of_machine s) m }
{}
