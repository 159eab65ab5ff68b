//! What a node does, in a word.

ghost use Rattle.std.specs.Prelude.{◌≡◌};
ghost use Rattle.ga_explorer_text.specs.Waiting.{activity_name};

use ga_node::Wait;

/// What a node does that waits so, or is stopped so.
pub(crate) fn activity_name(wait: Wait, stop: u8) -> &'static [u8]
    ensures { result.now ≡ activity_name wait stop }
{
    match wait {
        Wait::Fetch(_) => b"fetches",
        Wait::Read(_) => b"reads",
        Wait::Write(_) => b"writes",
        Wait::Nothing => { if stop == 0 { b"runs" } else { b"stopped" } }
    }
}
