//! What watches a run.

ghost use Rattle.std.specs.Prelude.{◌≡◌, Bool};
ghost use Rattle.ga_event.specs.declared.made.MadeEvent.{MadeEvent};
ghost use Rattle.ga_lab.specs.Machine.{MachineState};
ghost use Rattle.ga_scheduler.specs.Watched.{IsReportOfNewestEvent, IsRunStep};

use ga_lab::{Lab, MadeEvent};

/// What ends a run: it gets each event just after it, and may count and remember.
pub trait StopCondition {
    /// What decides after which event the run ends. What a condition keeps beside this only saves time.
    type State;

    // The state of a condition.
    ghost state: { Self → Self.State };

    // Whether a condition in this state ends the run after this event, on the machine that it left.
    ghost ends: { Self.State → MadeEvent → MachineState → Bool };

    // The state after this event, on the machine that it left.
    ghost seen: { Self.State → MadeEvent → MachineState → Self.State };

    // What the condition keeps beside its state holds of this machine.
    ghost remembers: { Self → MachineState → Type 0 };

    /// Considers the newest event of a lab, and returns whether the run ends after it.
    fn ends_run_after_event(&mut self, made: &MadeEvent, lab: &Lab) -> bool
        requires newest { IsReportOfNewestEvent lab.now made.now }
        requires remembered { (before : MachineState) × remembers self.old before × IsRunStep before lab.now made.now }
        ensures answer { result ≡ ends (state self.old) made.now lab.now }
        ensures behind { state self.new ≡ seen (state self.old) made.now lab.now }
        ensures remembers { remembers self.new lab.now };
}
