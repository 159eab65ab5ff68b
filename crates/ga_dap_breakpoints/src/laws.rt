//! Laws of the definitions, each the contract of a function that does nothing.

ghost use Rattle.std.specs.Prelude.{◌≡◌, ◌<◌, ◌^◌, ℕ, List, Option, Some, IsSome};
ghost use Rattle.std.specs.List.{slice_get};
ghost use Rattle.ga_grid.specs.declared.node_id.NodeId.{NodeId};
ghost use Rattle.ga_event.specs.Apply.{replay};
ghost use Rattle.ga_scheduler.specs.Running.{ScheduledMachine};
ghost use Rattle.ga_scheduler.specs.Watched.{run_after_events_with_precedence};
ghost use Rattle.ga_dap_breakpoints.specs.declared.breakpoint.Breakpoint.{Breakpoint};
ghost use Rattle.ga_dap_breakpoints.specs.declared.condition.HitCondition.{HitCondition};
ghost use Rattle.ga_dap_breakpoints.specs.Breakpoints.{hit_count_at_index};
ghost use Rattle.ga_dap_breakpoints.specs.Going.{tally_after_events};
ghost use Rattle.ga_dap_breakpoints.specs.Reversing.{hit_tally_of_history};

/// Hits counted event by event equal those counted over the history: if a run begins with the latter, then, however it
/// continues, the count of each of the first 64 breakpoints with a hit condition is that of the history at that moment.
pub fn incremental_hit_counts_agree()
    ensures { (first : Option NodeId) (breakpoints : List Breakpoint) (r : ScheduledMachine) (events place : ℕ) (one : Breakpoint) (hits : HitCondition) →
        IsSome (replay r.state.load r.state.kept) → place < 64 → slice_get breakpoints place ≡ Some one → one.hits ≡ Some hits →
        hit_count_at_index (hit_tally_of_history (run_after_events_with_precedence first r events).state breakpoints).counts place < 2 ^ 32 →
        hit_count_at_index (tally_after_events first breakpoints (hit_tally_of_history r.state breakpoints) r events).counts place
        ≡ hit_count_at_index (hit_tally_of_history (run_after_events_with_precedence first r events).state breakpoints).counts place }
{}
