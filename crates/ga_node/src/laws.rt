//! Laws of the definitions, each the contract of a function that does nothing.

ghost use Rattle.std.specs.Prelude.{◌≡◌, true, false};
ghost use Rattle.ga_node.specs.declared.seen.SeenNeighbours.{SeenNeighbours};
ghost use Rattle.ga_node.specs.Record.{NodeRecord, HasValidListSizes};
ghost use Rattle.ga_node.specs.Table.{own, own_event, reads_io_next};
ghost use Rattle.ga_node.specs.Io.{io_word};

/// An event that doesn't look is the same whatever its neighbours wait for, and so are its changes.
#[tactic(auto, using(crate::proofs::Looks::own_blind, crate::proofs::Looks::event_blind))]
pub fn only_looks_see_neighbours()
    ensures event { (seen other : SeenNeighbours) (node : NodeRecord) → reads_io_next node ≡ false → own seen node ≡ own other node }
    ensures changes { (seen other : SeenNeighbours) (node : NodeRecord) → reads_io_next node ≡ false → own_event seen node ≡ own_event other node }
{}

/// An event that looks observes: it leads to different nodes if the words of `io` differ. No event is called a look that isn't
/// one.
#[tactic(auto, using(crate::proofs::Looks::look_sees))]
pub fn looks_depend_on_neighbours()
    ensures { (seen other : SeenNeighbours) (node : NodeRecord) → HasValidListSizes node → reads_io_next node ≡ true → own seen node ≡ own other node → io_word seen ≡ io_word other }
{}
