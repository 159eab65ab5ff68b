//! Laws of the definitions, each the contract of a function that does nothing.

ghost use Rattle.std.specs.Prelude.{◌≡◌, ◌≢◌, ◌≤◌, ◌↔◌, ℕ, false, List, [], ◌++◌, Option, None, Ok, IsSome};
ghost use Rattle.std.specs.List.{All};
ghost use Rattle.ga_ports.specs.declared.side.Side.{Side};
ghost use Rattle.ga_node.specs.Record.{NodeRecord};
ghost use Rattle.ga_grid.specs.declared.node_id.NodeId.{NodeId};
ghost use Rattle.ga_event.specs.declared.event.Event.{Event};
ghost use Rattle.ga_event.specs.Told.{count_steps};
ghost use Rattle.ga_event.specs.Next.{next_event_of_node};
ghost use Rattle.ga_causal.specs.Dependence.{HasNoLooks};
ghost use Rattle.ga_races.specs.Orders.{AreReorderings, IsTerminalChip, HasNoRace};
ghost use Rattle.ga_lab.specs.Machine.{MachineState, initial_state, chip_of_machine, machine_events_with_looks, state_after_rewind};
ghost use Rattle.ga_lab.specs.Calls.{MachineCall, state_after_machine_calls, IsReachableState};
ghost use Rattle.ga_race_detector.specs.Races.{alternative_word, requested_races, has_made_or_next_look, first_ready_node, IsRealizableRace};

/// If the history of one session has no race, and no node of its chip has an event, every other session from that load,
/// whatever was stepped, undone or rewound in it, is on the way there: its history can be continued to that of the first in
/// another order. Once no node has an event there either, its chip is the same: the nodes that are stopped are stopped in both.
#[tactic(auto, using(crate::proofs::Offering::on_the_way, crate::proofs::Offering::same_end))]
pub fn race_free_end_unique()
    ensures way { (load : List NodeRecord) (limit bound : ℕ) (calls others : List MachineCall) →
        let s = state_after_machine_calls (initial_state load limit) calls in
        let z = state_after_machine_calls (initial_state load bound) others in
        HasNoRace load s.kept → IsTerminalChip (chip_of_machine s) →
        (later : List Event) × AreReorderings load s.kept (z.kept ++ later) }
    ensures chip { (load : List NodeRecord) (limit bound : ℕ) (calls others : List MachineCall) →
        let s = state_after_machine_calls (initial_state load limit) calls in
        let z = state_after_machine_calls (initial_state load bound) others in
        HasNoRace load s.kept → IsTerminalChip (chip_of_machine s) → IsTerminalChip (chip_of_machine z) → chip_of_machine z ≡ chip_of_machine s }
{}

/// No event is enabled exactly if no node has a next one: if each `step` is refused.
pub fn terminal_iff_no_next_event()
    ensures { (chip : List NodeRecord) →
        (IsTerminalChip chip ↔ ((n : NodeId) (event : Event) → next_event_of_node chip n ≡ Ok event → ⊥)) }
{}

/// The history of a session has no race if no event of it looks, no node has an event, and no rollback of a node's step leaves
/// two words offered to the node (`alternative_word`): then every other session is on the way to the same chip (`race_free_end_unique`).
pub fn no_alternative_no_race()
    ensures { (s : MachineState) → IsReachableState s → HasNoLooks (machine_events_with_looks s) → IsTerminalChip (chip_of_machine s) →
        ((r : NodeId) (k : ℕ) (side other : Side) → side ≢ other →
        IsSome (alternative_word (chip_of_machine (state_after_rewind s r.number k)) r.number side) →
        IsSome (alternative_word (chip_of_machine (state_after_rewind s r.number k)) r.number other) → ⊥) →
        HasNoRace s.load s.kept }
{}

/// If no race of a session is reported (`requested_races`), no event of its history and no next event looks, and no node has an
/// event, every other session from that load is on the way there, whatever was stepped, undone or rewound in it; and once no
/// node has an event there either, its chip is the same. This is the conclusion from a result of `find_races` without races,
/// for a run that has ended.
#[tactic(auto, using(crate::proofs::Untold::every_way, crate::proofs::Untold::every_end))]
pub fn reported_race_free_end_is_unique()
    ensures way { (load : List NodeRecord) (limit bound : ℕ) (calls others : List MachineCall) →
        let s = state_after_machine_calls (initial_state load limit) calls in
        let z = state_after_machine_calls (initial_state load bound) others in
        requested_races s None ≡ [] → has_made_or_next_look (machine_events_with_looks s) (chip_of_machine s) ≡ false → first_ready_node (chip_of_machine s) ≡ None →
        (later : List Event) × AreReorderings load s.kept (z.kept ++ later) }
    ensures chip { (load : List NodeRecord) (limit bound : ℕ) (calls others : List MachineCall) →
        let s = state_after_machine_calls (initial_state load limit) calls in
        let z = state_after_machine_calls (initial_state load bound) others in
        requested_races s None ≡ [] → has_made_or_next_look (machine_events_with_looks s) (chip_of_machine s) ≡ false → first_ready_node (chip_of_machine s) ≡ None →
        first_ready_node (chip_of_machine z) ≡ None → chip_of_machine z ≡ chip_of_machine s }
{}

/// Take a session of which no race is reported (`requested_races`), and of which no event of the history and no next event looks.
/// Every other session from that load in which no node made more steps is on the way there.
#[tactic(auto, using(crate::proofs::Untold::no_other))]
pub fn shorter_sessions_lead_to_race_free()
    ensures { (load : List NodeRecord) (limit bound : ℕ) (calls others : List MachineCall) →
        let s = state_after_machine_calls (initial_state load limit) calls in
        let z = state_after_machine_calls (initial_state load bound) others in
        requested_races s None ≡ [] → has_made_or_next_look (machine_events_with_looks s) (chip_of_machine s) ≡ false →
        ((n : ℕ) → count_steps n z.kept ≤ count_steps n s.kept) →
        (later : List Event) × AreReorderings load s.kept (z.kept ++ later) }
{}

/// Each reported race is one, with looks in the history or not: after a rollback of the step, a step of the other neighbour is
/// the pass to the node, of the other word.
#[tactic(auto, using(crate::proofs::Untold::all_made))]
pub fn race_is_realizable()
    ensures { (s : MachineState) (only : Option NodeId) → All (IsRealizableRace s) (requested_races s only) }
{}
