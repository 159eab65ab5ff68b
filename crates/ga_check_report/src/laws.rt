//! What a reader of the answer of `ga144 check` may rely on, as laws: each is the contract of a function that does nothing.

ghost use Rattle.std.specs.Prelude.{◌≡◌, ◌⊎◌, ◌<◌, ◌-◌, ◌++◌, ℕ, Bool, List, None, Some, true, false, length, slice_get};
ghost use Rattle.std.specs.List.{list_any};
ghost use Rattle.ga_text.specs.Lines.{Text};
ghost use Rattle.ga_event.specs.declared.event.Event.{Event};
ghost use Rattle.ga_node.specs.Record.{NodeRecord};
ghost use Rattle.ga_event.specs.Apply.{replay};
ghost use Rattle.ga_event.specs.declared.made.MadeEvent.{MadeEvent};
ghost use Rattle.ga_races.specs.Orders.{IsEnabled};
ghost use Rattle.ga_lab.specs.Machine.{MachineState, chip_of_machine};
ghost use Rattle.ga_explorer_text.specs.Saved.{saved_session_text};
ghost use Rattle.ga_state_ends.specs.Ends.{EndSearchResult, AreEndsOfChip, is_unclean};
ghost use Rattle.ga_state_conditions.specs.declared.condition.StateCondition.{StateCondition};
ghost use Rattle.ga_state_conditions.specs.Reached.{IsConditionMet};
ghost use Rattle.ga_check_report.specs.Answers.{ends_answer, reached_event_answer};
ghost use Rattle.ga_check_report.specs.Never.{HasReachedEvent, WritesNeverCheckReport};
ghost use Rattle.ga_check_report.specs.Settled.{state_after_settling};
ghost use Rattle.ga_state_expectations.specs.declared.source.Expectation.{Expectation as AnExpectation};
ghost use Rattle.ga_state_expectations.specs.declared.source.Expectation.TheVariants.{OneEnd};
ghost use Rattle.ga_state_expectations.specs.declared.source.LineExpectation.{LineExpectation};
ghost use Rattle.ga_check_report.specs.declared.outcome.Breach.{Breach as ABreach};
ghost use Rattle.ga_check_report.specs.declared.outcome.ExpectationOutcome.TheVariants.{Holds, Broken};
ghost use Rattle.ga_check_report.specs.Outcomes.{IsExpectationOutcome, HoldsInEveryOrder, IsBrokenInSomeOrder};
ghost use Rattle.ga_check_report.specs.Expected.{LeadsToBreach, WritesExpectationsReport};
ghost use Rattle.ga_check_report.specs.Checking.{WritesEndsReport, HasAppendedEvents, HasReachedEndOfNumberedKind};
ghost use Rattle.ga_check_report.specs.declared.request.CheckRequest.{CheckRequest};
ghost use Rattle.ga_check_report.specs.declared.report.Verdict.TheVariants.{Clean, Unclean, SessionWritten};

/// Where the verdict is `Clean`, each state was explored, each kind of end is written, and each is clean. With `--same` each list of events can be
/// continued to one and the same chip.
pub fn clean_verdict_is_sound()
    ensures clean { (request : CheckRequest) (asked : ℕ) (s : MachineState) (text : Text) → WritesEndsReport request asked s text Clean →
        (found : EndSearchResult) × AreEndsOfChip (chip_of_machine s) found × (found.fault ≡ None) × (list_any is_unclean found.kinds ≡ false) × (text ≡ ends_answer request found) }
    ensures same { (request : CheckRequest) (asked : ℕ) (s : MachineState) (text : Text) → WritesEndsReport request asked s text Clean → request.same ≡ true →
        HoldsInEveryOrder (chip_of_machine s) OneEnd }
{}

/// Where the verdict is `Unclean`, an end that isn't clean is written; or `--same` asks for one end, and two were found.
pub fn unclean_verdict_is_sound()
    ensures { (request : CheckRequest) (asked : ℕ) (s : MachineState) (text : Text) → WritesEndsReport request asked s text Unclean →
        (found : EndSearchResult) × AreEndsOfChip (chip_of_machine s) found
        × ((list_any is_unclean found.kinds ≡ true) ⊎ ((request.same ≡ true) × (1 < length found.ends))) × (text ≡ ends_answer request found) }
{}

/// Where the verdict is `Saved`, the session that is written leads to an end of the requested kind.
pub fn session_leads_to_end()
    ensures { (request : CheckRequest) (asked : ℕ) (s : MachineState) (text : Text) → WritesEndsReport request asked s text SessionWritten →
        (found : EndSearchResult) × (last : MachineState) × AreEndsOfChip (chip_of_machine s) found × HasReachedEndOfNumberedKind found asked s last × (text ≡ saved_session_text last) }
{}

/// Where the verdict of `check_never_conditions` is `Clean`, none of the conditions is met by an event that comes after any list of events.
pub fn never_verdict_is_sound()
    ensures { (request : CheckRequest) (conditions : List StateCondition) (session : Bool) (s : MachineState) (text : Text) → WritesNeverCheckReport request conditions session s text Clean →
        (last : List NodeRecord) (events : List Event) (event : Event) (place : ℕ) (condition : StateCondition) → slice_get conditions place ≡ Some condition →
        replay (chip_of_machine s) events ≡ Some last → IsEnabled last event → IsConditionMet condition last event → ⊥ }
{}

/// Where it is `Unclean`, the text is that of an event that meets one of the conditions, or of its session.
pub fn reached_event_verdict_is_sound()
    ensures { (request : CheckRequest) (conditions : List StateCondition) (session : Bool) (s : MachineState) (text : Text) → WritesNeverCheckReport request conditions session s text Unclean →
        (which : ℕ) × (last : MachineState) × (made : MadeEvent) × HasReachedEvent conditions which s last made × (text ≡ reached_event_answer request.format session (length conditions) which made last) }
{}

/// A machine that has come to rest keeps some events more, and else is as it was. So what holds from there holds of the program: a list of
/// events from there is one, after those, from the machine before.
pub fn settling_appends_events()
    ensures { (s : MachineState) → replay s.load s.kept ≡ Some (chip_of_machine s) → (waits : List Event) × HasAppendedEvents s waits (state_after_settling s)
        × ((events : List Event) → replay (chip_of_machine (state_after_settling s)) events ≡ replay (chip_of_machine s) (waits ++ events)) }
{}

/// An expectation that a search shows to hold does so in every order, and one that it shows to be broken doesn't in some order.
pub fn expectation_outcomes_are_sound()
    ensures holds { (s : MachineState) (found : EndSearchResult) (expectation : AnExpectation) → AreEndsOfChip (chip_of_machine s) found →
        IsExpectationOutcome s found expectation Holds → HoldsInEveryOrder (chip_of_machine s) expectation }
    ensures broken { (s : MachineState) (found : EndSearchResult) (expectation : AnExpectation) (breach : ABreach) → AreEndsOfChip (chip_of_machine s) found →
        IsExpectationOutcome s found expectation (Broken breach) → IsBrokenInSomeOrder s found expectation }
{}

/// Where the verdict about expectations is `Clean`, each holds in every order, and its line says so; with `--same` there is one end in every order,
/// too. Where it is `Unclean`, one is broken; or `--same` asks for one end, and two were found.
pub fn expectations_verdict_is_sound()
    ensures clean { (request : CheckRequest) (expectations : List LineExpectation) (asked : ℕ) (s : MachineState) (text : Text) →
        WritesExpectationsReport request expectations asked s text Clean → (place : ℕ) (one : LineExpectation) → slice_get expectations place ≡ Some one →
        HoldsInEveryOrder (chip_of_machine s) one.expectation }
    ensures same { (request : CheckRequest) (expectations : List LineExpectation) (asked : ℕ) (s : MachineState) (text : Text) →
        WritesExpectationsReport request expectations asked s text Clean → request.same ≡ true → HoldsInEveryOrder (chip_of_machine s) OneEnd }
    ensures unclean { (request : CheckRequest) (expectations : List LineExpectation) (asked : ℕ) (s : MachineState) (text : Text) →
        WritesExpectationsReport request expectations asked s text Unclean →
        (found : EndSearchResult) × AreEndsOfChip (chip_of_machine s) found
        × (((place : ℕ) × (one : LineExpectation) × (slice_get expectations place ≡ Some one) × IsBrokenInSomeOrder s found one.expectation)
        ⊎ ((request.same ≡ true) × IsBrokenInSomeOrder s found OneEnd)) }
{}

/// Where the verdict about an expectation is `Saved`, the session that is written leads to what breaks it.
pub fn session_leads_to_breach()
    ensures { (request : CheckRequest) (expectations : List LineExpectation) (asked : ℕ) (s : MachineState) (text : Text) →
        WritesExpectationsReport request expectations asked s text SessionWritten →
        (one : LineExpectation) × (last : MachineState) × (slice_get expectations (asked - 1) ≡ Some one) × LeadsToBreach s one.expectation last × (text ≡ saved_session_text last) }
{}
