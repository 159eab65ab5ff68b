//! Laws of the definitions, each the contract of a function that does nothing.

ghost use Rattle.std.specs.Prelude.{◌≡◌, ◌<◌, ◌≤◌, ◌-◌, ℕ, List, [], ◌∷◌, Bool, true, false, All, Some, length, take};
ghost use Rattle.std.specs.List.{slice_get};
ghost use Rattle.ga_node.specs.Record.{HasValidListSizes};
ghost use Rattle.ga_causal.specs.Dependence.{position_of_step};
ghost use Rattle.ga_grid.specs.declared.node_id.NodeId.{NodeId};
ghost use Rattle.ga_lab.specs.Machine.{MachineState, machine_events_with_looks, history_of_node};
ghost use Rattle.ga_event.specs.Flow.{top_data_part, IsNodePartInRange, node_part_value};
ghost use Rattle.ga_provenance.specs.declared.value.PartValue.{PartValue};
ghost use Rattle.ga_provenance.specs.Origins.{value_made_by_step, node_after_steps, is_made_with_a_or_carry, origin_of_value};
ghost use Rattle.ga_provenance.specs.Asked.{queried_value};
ghost use Rattle.ga_provenance.specs.Sources.{IsCauseOfValue, IsLoadedOrCauseOfValue};
ghost use Rattle.ga_provenance.specs.declared.lines.ProvenanceLine.{ProvenanceLine};
ghost use Rattle.ga_provenance.specs.Lines.{source_origins, IsProvenance, is_value_listed, AreProvenanceLinesOf, IsValueListedAt};
ghost use Rattle.ga_provenance.specs.declared.deciding.BranchDecision.{BranchDecision};
ghost use Rattle.ga_provenance.specs.Deciding.{branch_decision_at};

/// Each value of the provenance of the queried one was loaded, or its step is one on which the queried step depends, so that `why`
/// leads from it there. The queried step must be in the history, as each of a node's is.
#[tactic(auto, using(crate::proofs::Causes::provenance_caused))]
pub fn provenance_is_loaded_or_cause()
    ensures { (s : MachineState) (value found : PartValue) (place : ℕ) →
        position_of_step (machine_events_with_looks s) value.node.number value.step ≡ Some place → IsProvenance s value found → IsLoadedOrCauseOfValue s value found }
{}

/// For the value that a step selects, each value of its provenance was loaded, or its step is one on which this step depends.
#[tactic(auto, using(crate::proofs::Causes::selected_caused))]
pub fn queried_provenance_is_loaded_or_cause()
    ensures { (s : MachineState) (node : NodeId) (step place : ℕ) (value found : PartValue) →
        position_of_step (machine_events_with_looks s) node.number step ≡ Some place → queried_value s node step ≡ Some value →
        IsProvenance s value found → IsLoadedOrCauseOfValue s (value_made_by_step node step top_data_part) found }
{}

/// Each step that a value decided is a cause of every later step of its node, so that `why` leads from it there; and so is the step
/// that made the value, but where that was loaded. The later step must be kept, as each of a node's is.
#[tactic(auto, using(crate::proofs::Decided::step_cause, crate::proofs::Decided::source_cause))]
pub fn deciding_steps_are_causes()
    ensures step { (s : MachineState) (node : NodeId) (step k place : ℕ) (decision : BranchDecision) →
        position_of_step (machine_events_with_looks s) node.number step ≡ Some place → k < step → branch_decision_at s node k ≡ Some decision →
        IsCauseOfValue s (value_made_by_step node decision.step top_data_part) (value_made_by_step node step top_data_part) }
    ensures source { (s : MachineState) (node : NodeId) (step k place : ℕ) (decision : BranchDecision) →
        position_of_step (machine_events_with_looks s) node.number step ≡ Some place → k < step → branch_decision_at s node k ≡ Some decision →
        IsLoadedOrCauseOfValue s (value_made_by_step node step top_data_part) decision.source }
{}

/// A value that was only moved since a step made it has the same word as then, unless that step made T with it, as which it is listed.
pub fn moved_values_keep_their_words()
    ensures { (s : MachineState) (value : PartValue) →
        length s.load ≡ 144 → value.step ≤ length (history_of_node s value.node.number) → IsNodePartInRange value.part → HasValidListSizes (node_after_steps s value.node.number value.step) →
        ((origin_of_value s value).part ≡ top_data_part → is_made_with_a_or_carry (slice_get (history_of_node s value.node.number) ((origin_of_value s value).step - 1)) ≡ false) →
        node_part_value 0 (node_after_steps s value.node.number value.step) value.part
        ≡ node_part_value 0 (node_after_steps s value.node.number (origin_of_value s value).step) (origin_of_value s value).part }
{}

/// Each listed value was loaded, or its step is one on which the queried step depends.
pub fn listed_values_are_causes()
    ensures { (s : MachineState) (value : PartValue) (place : ℕ) (lines : List ProvenanceLine) (whole : Bool) →
        position_of_step (machine_events_with_looks s) value.node.number value.step ≡ Some place → AreProvenanceLinesOf s value lines whole →
        (line at : ℕ) (listed : PartValue) → IsValueListedAt lines line at listed → IsLoadedOrCauseOfValue s value listed }
{}

/// If all lines are listed, none is missing: the step that made the queried value is listed, and with each value of a run those that
/// made the values from which it was made.
#[tactic(auto, using(crate::proofs::Whole::queried_listed))]
pub fn whole_provenance_misses_nothing()
    ensures asked { (s : MachineState) (value : PartValue) (lines : List ProvenanceLine) → AreProvenanceLinesOf s value lines true → is_value_listed lines (origin_of_value s value) ≡ true }
    ensures sources { (s : MachineState) (value : PartValue) (lines : List ProvenanceLine) → AreProvenanceLinesOf s value lines true →
        (line at : ℕ) (listed : PartValue) → IsValueListedAt lines line at listed → All (λ (source : PartValue). is_value_listed lines source ≡ true) (source_origins s listed) }
{}

/// No value is listed twice.
pub fn values_are_listed_once()
    ensures { (s : MachineState) (value : PartValue) (lines : List ProvenanceLine) (whole : Bool) → AreProvenanceLinesOf s value lines whole →
        (line other at place : ℕ) (listed : PartValue) → IsValueListedAt lines line at listed → IsValueListedAt lines other place listed → (line ≡ other) × (at ≡ place) }
{}

/// Fewer lines are the first of more: so the answers that continue one another join to all lines.
#[tactic(auto, using(crate::proofs::Whole::lines_join))]
pub fn provenance_lines_continue()
    ensures { (s : MachineState) (value : PartValue) (lines more : List ProvenanceLine) (is_whole is_more_whole : Bool) →
        AreProvenanceLinesOf s value lines is_whole → AreProvenanceLinesOf s value more is_more_whole → length lines ≤ length more → take (length lines) more ≡ lines }
{}

/// The runs of all lines have exactly the values of the provenance; those of the first lines have no others.
#[tactic(auto, using(crate::proofs::Whole::listed_sound, crate::proofs::Whole::provenance_listed))]
pub fn runs_unfold_to_provenance()
    ensures first { (s : MachineState) (value : PartValue) (lines : List ProvenanceLine) (whole : Bool) → AreProvenanceLinesOf s value lines whole →
        (listed : PartValue) → is_value_listed lines listed ≡ true → IsProvenance s value listed }
    ensures whole { (s : MachineState) (value : PartValue) (lines : List ProvenanceLine) → AreProvenanceLinesOf s value lines true →
        (found : PartValue) → IsProvenance s value found → is_value_listed lines found ≡ true }
{}
