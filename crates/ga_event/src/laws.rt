//! Laws of the definitions, each the contract of a function that does nothing.

ghost use Rattle.std.specs.Prelude.{◌≡◌, ℕ, Bool, false, if◌then◌else◌, List, ◌∷◌, [], length, IfSome, Some, None, Ok};
ghost use Rattle.ga_node.specs.declared.seen.SeenNeighbours.{SeenNeighbours};
ghost use Rattle.ga_node.specs.Record.{NodeState, NodeRecord, HasValidListSizes};
ghost use Rattle.ga_node.specs.Table.{own, sent, taken, next_action_of_node};
ghost use Rattle.ga_node.specs.Io.{io_word};
ghost use Rattle.ga_grid.specs.declared.node_id.NodeId.{NodeId};
ghost use Rattle.ga_grid.specs.Chip.{node_at, node_record_at, records_of_chip, HaveWaitsFittingSlotsAndStops};
ghost use Rattle.ga_event.specs.declared.event.Event.{Event};
ghost use Rattle.ga_event.specs.declared.event.Effect.{Effect};
ghost use Rattle.ga_event.specs.Touches.{touches, observes_marked_node};
ghost use Rattle.ga_event.specs.Apply.{event_refusal, apply, event_with_look_on_chip, replay, AgreeOutsideMarks, AreEventResultsAlike};
ghost use Rattle.ga_event.specs.Next.{next_event_of_node};
ghost use Rattle.ga_event.specs.Undo.{chip_after_undo, event_with_look_from_effect, CanUndoEvent, IsEventApplied, KeepsTouchedNodes};
ghost use Rattle.ga_event.specs.declared.flow.part.NodePart.{NodePart};
ghost use Rattle.ga_event.specs.declared.flow.part.NodePart.TheVariants.{I, Slot};
ghost use Rattle.ga_event.specs.Flow.{IsNodePartInRange, node_part_value, flow_of_own_event, flow_after_send, flow_after_take, deciding_parts, HaveSameNextAction, AreNodesAlikeAtParts, AreBothValuesFromFlow};
ghost use Rattle.ga_event.specs.Sources.{initial_sources, sources_after_events, chip_after_events, AreEventsDecidedAlike, AreChipsAlikeAtNodeParts, HaveNodesValidListSizes};

/// An event changes the nodes that it touches alone.
#[tactic(auto, using(crate::proofs::Locality::apply_keeps))]
pub fn event_changes_only_touched_nodes()
    ensures { (chip : List NodeRecord) (event : Event) →
        IfSome (apply chip event) (λ done. AgreeOutsideMarks (touches event) chip done.0) }
{}

/// The event that a step of a node makes is enabled.
#[tactic(auto, using(crate::proofs::Nexts::next_can))]
pub fn next_event_is_enabled()
    ensures { (chip : List NodeRecord) (node : NodeId) (event : Event) → next_event_of_node chip node ≡ Ok event → event_refusal chip event ≡ None }
{}

/// Whether an event is enabled, whether it looks, its outcome and its effect depend only on the nodes that it sees: on chips
/// that agree there it is refused alike, or has the same outcome and leaves chips that agree as much as before.
#[tactic(auto, using(crate::proofs::Locality::refusal_alike, crate::proofs::Locality::apply_alike, crate::proofs::Locality::cause_alike))]
pub fn event_depends_on_observed_only()
    ensures refused { (marks : ℕ → Bool) (chip other : List NodeRecord) (event : Event) →
        AgreeOutsideMarks marks chip other → observes_marked_node marks (event_with_look_on_chip chip event) ≡ false →
        event_refusal chip event ≡ event_refusal other event }
    ensures cause { (marks : ℕ → Bool) (chip other : List NodeRecord) (event : Event) →
        AgreeOutsideMarks marks chip other → observes_marked_node marks (event_with_look_on_chip chip event) ≡ false →
        event_with_look_on_chip chip event ≡ event_with_look_on_chip other event }
    ensures alike { (marks : ℕ → Bool) (chip other : List NodeRecord) (event : Event) →
        AgreeOutsideMarks marks chip other → observes_marked_node marks (event_with_look_on_chip chip event) ≡ false →
        AreEventResultsAlike marks (apply chip event) (apply other event) }
{}

/// The effect of an event has whether it looked.
#[tactic(auto, using(crate::proofs::Applied::applied_cause))]
pub fn effect_determines_look()
    ensures { (old new : List NodeState) (event : Event) (effect : Effect) →
        IsEventApplied old event effect new → event_with_look_on_chip (records_of_chip old) event ≡ event_with_look_from_effect event effect }
{}

/// An event can be undone also if nodes that it doesn't touch have changed since: the touched nodes get their values from
/// before it, and the others are unchanged.
pub fn undo_after_other_events()
    ensures ready { (old new chip : List NodeState) (event : Event) (effect : Effect) →
        IsEventApplied old event effect new → KeepsTouchedNodes event new chip →
        CanUndoEvent chip event effect }
    ensures nodes { (old new chip : List NodeState) (event : Event) (effect : Effect) →
        IsEventApplied old event effect new → KeepsTouchedNodes event new chip →
        (n : ℕ) → node_at (chip_after_undo chip event effect) n ≡ (if touches event n then node_at old n else node_at chip n) }
{}

/// On a chip of which each node's wait fits its slot and its stop, every event leaves such a chip, and so does every list of
/// events.
#[tactic(auto, using(crate::proofs::Steadiness::apply_steady, crate::proofs::Steadiness::replay_steady))]
pub fn events_keep_waits_consistent()
    ensures event { (chip : List NodeRecord) (event : Event) → HaveWaitsFittingSlotsAndStops chip →
        IfSome (apply chip event) (λ done. HaveWaitsFittingSlotsAndStops done.0) }
    ensures events { (chip : List NodeRecord) (events : List Event) → HaveWaitsFittingSlotsAndStops chip →
        IfSome (replay chip events) (λ last. HaveWaitsFittingSlotsAndStops last) }
{}

/// Where each value comes from that an event leaves, in two nodes in which the same is decided: it is that of one part before,
/// or it is the same in both if both have the same values in the parts that the table of `Flow.antt` names.
pub fn flow_determines_value()
    ensures own { (seen other : SeenNeighbours) (n m : NodeRecord) (part : NodePart) → HasValidListSizes n → HasValidListSizes m → HaveSameNextAction n m → IsNodePartInRange part
        → AreBothValuesFromFlow (io_word seen) n (io_word other) m (flow_of_own_event n part) (node_part_value (io_word seen) (own seen n).1 part) (node_part_value (io_word other) (own other m).1 part) }
    ensures sent { (word other : ℕ) (n m : NodeRecord) (part : NodePart) → HasValidListSizes n → HasValidListSizes m → IsNodePartInRange part
        → AreBothValuesFromFlow word n other m (flow_after_send part) (node_part_value word (sent n) part) (node_part_value other (sent m) part) }
    ensures taken { (word other : ℕ) (n m : NodeRecord) (part : NodePart) → HasValidListSizes n → HasValidListSizes m → n.wait ≡ m.wait → IsNodePartInRange part
        → AreBothValuesFromFlow word n other m (flow_after_take n.wait part) (node_part_value word (taken word n) part) (node_part_value other (taken other m) part) }
    ensures kind { (seen other : SeenNeighbours) (n m : NodeRecord) → HaveSameNextAction n m → (own seen n).0 ≡ (own other m).0 }
    ensures alike { (n m : NodeRecord) → AreNodesAlikeAtParts 0 n 0 m (I ∷ Slot ∷ []) → AreNodesAlikeAtParts 0 n 0 m (deciding_parts (next_action_of_node n)) → HaveSameNextAction n m }
{}

/// What isn't among the sources of a value gave nothing to it.
pub fn sources_determine_value()
    ensures value { (c d : List NodeRecord) (events : List Event) (n : ℕ) (part : NodePart) →
        length c ≡ 144 → length d ≡ 144 → HaveNodesValidListSizes c → HaveNodesValidListSizes d → AreEventsDecidedAlike c d events
        → AreChipsAlikeAtNodeParts c d (sources_after_events c events initial_sources n part)
        → node_part_value 0 (node_record_at (chip_after_events c events) n) part ≡ node_part_value 0 (node_record_at (chip_after_events d events) n) part }
    ensures chip { (c d : List NodeRecord) (events : List Event) → replay c events ≡ Some d → chip_after_events c events ≡ d }
{}
