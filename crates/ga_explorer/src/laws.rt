//! Laws of the definitions, each the contract of a function that does nothing.

ghost use Rattle.std.specs.Prelude.{◌≡◌, ◌≢◌, ℕ, Bool, Option, length, false};
ghost use Rattle.ga_text.specs.Lines.{Bytes, Text, Line};
ghost use Rattle.ga_console.specs.Commands.{SpellsCommand};
ghost use Rattle.ga_console.specs.declared.command.DebuggerCommand.{DebuggerCommand};
ghost use Rattle.ga_console.specs.declared.run.Status.TheVariants.{CommandRefused};
ghost use Rattle.ga_lab.specs.Calls.{IsReachableState};
ghost use Rattle.ga_lab.specs.Machine.{MachineState, initial_state};
ghost use Rattle.ga_explorer_text.specs.Saved.{saved_session_lines};
ghost use Rattle.ga_debug_info.specs.declared.notes.DebugInfo.{DebugInfo};
ghost use Rattle.ga_explorer.specs.Answers.{AnswersExplorerLine};
ghost use Rattle.ga_explorer.specs.Classes.{command_class_of_line, class_of_explorer_command, class_of_debugger_command};
ghost use Rattle.ga_explorer.specs.Commands.{explorer_command_of_line};
ghost use Rattle.ga_explorer.specs.Leading.{LinesLeadToState};
ghost use Rattle.ga_explorer.specs.Opening.{ExplorerState};
ghost use Rattle.ga_explorer.specs.declared.commands.ExplorerCommand.{ExplorerCommand};
ghost use Rattle.ga_explorer.specs.declared.forms.CommandClass.TheVariants.{Change};
ghost use Rattle.ga_explorer.specs.Session.{RunsExplorer};

use ga_lab::laws::states_reachable_by_steps;

/// The lines of `save` are commands of the debugger that lead from the load back to the machine, whatever was taken back on the way
/// to it: it keeps the same events, and has made no others.
pub fn saved_session_round_trips()
    ensures { (s : MachineState) → IsReachableState s →
        LinesLeadToState (initial_state s.load s.limit) (saved_session_lines s) (record s { made = length s.kept }) }
{
    states_reachable_by_steps();
}

/// A session that isn't strict never ends at a refused command, nor with the exit status of one.
pub fn only_strict_sessions_end_at_a_refusal()
    ensures { (prompts : Bool) (chip : Option Text) (limit : ℕ) (read rest : Bytes) (written : Text) →
        ¬ RunsExplorer prompts false chip limit read rest written CommandRefused }
{}

/// The row of each command that a line spells has the class of the command: that of a query by its type, or of what its effect is.
pub fn command_rows_match_class()
    ensures explored { (notes : Option DebugInfo) (line : Line) (asked : ExplorerCommand) →
        explorer_command_of_line notes line ≡ Some asked → command_class_of_line line ≡ Some (class_of_explorer_command asked) }
    ensures debugged { (command : DebuggerCommand) (line : Line) →
        SpellsCommand command line → command_class_of_line line ≡ Some (class_of_debugger_command command) }
{}

/// Only a line whose row says that it changes the machine can change anything, whatever is answered.
pub fn only_changes_change_the_machine()
    ensures { (e : ExplorerState) (line : Line) (answer : Text) (new : ExplorerState) →
        command_class_of_line line ≢ Some Change → AnswersExplorerLine e line answer new → new ≡ e }
{}
