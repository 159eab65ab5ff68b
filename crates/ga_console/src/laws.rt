//! Laws of the definitions, each the contract of a function that does nothing.

ghost use Rattle.std.specs.Prelude.{ℕ, List};
ghost use Rattle.ga_grid.specs.Chip.{HaveWaitsFittingSlotsAndStops};
ghost use Rattle.ga_text.specs.Lines.{Bytes, Line};
ghost use Rattle.ga_lab.specs.Machine.{MachineState, chip_of_machine};
ghost use Rattle.ga_console.specs.Replies.{IsReachedByLines};
ghost use Rattle.ga_console.specs.Run.{IsOpenedOnImage};

use ga_lab::laws::machine_keeps_waits_consistent;

/// In each chip to which a session comes, each node's wait fits its slot and its stop: so its dump is an image.
pub fn session_keeps_waits_consistent()
    ensures { (image : Bytes) (limit : ℕ) (machine last : MachineState) (lines : List Line) →
        IsOpenedOnImage image limit machine → IsReachedByLines machine lines last → HaveWaitsFittingSlotsAndStops (chip_of_machine last) }
{
    machine_keeps_waits_consistent();
}
