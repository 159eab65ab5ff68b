//! Laws of the answers: each is JSON on a line.

ghost use Rattle.std.specs.Prelude.{Bool, ℕ, Option};
ghost use Rattle.ga_text.specs.Lines.{Bytes, Text, Line};
ghost use Rattle.ga_console.specs.declared.run.Status.{Status};
ghost use Rattle.ga_explorer.specs.Opening.{ExplorerState};
ghost use Rattle.ga_explorer_json.specs.Answers.{AnswersJsonLine};
ghost use Rattle.ga_explorer_json.specs.JsonLines.{IsJsonLineUnlessQuit, WritesValidJsonLines};
ghost use Rattle.ga_explorer_json.specs.Session.{RunsJsonExplorer};

/// Each answer is a line that is a JSON text (RFC 8259) of a value; `quit` has none.
pub fn answers_are_json()
    ensures { (e new : ExplorerState) (line : Line) (answer : Text) → AnswersJsonLine e line answer new → IsJsonLineUnlessQuit line answer }
{}

/// All that a session writes are such lines, or where a write failed a front of them.
pub fn sessions_write_json()
    ensures { (strict : Bool) (file : Text) (chip : Option Text) (limit : ℕ) (read rest : Bytes) (written : Text) (status : Status) →
        RunsJsonExplorer strict file chip limit read rest written status → WritesValidJsonLines written status }
{}
