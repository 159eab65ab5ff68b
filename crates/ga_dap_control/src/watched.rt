//! The expectations of the source that a run watches.

ghost use Rattle.std.specs.Prelude.{◌≡◌, true, false, ◌&&◌, not, is_some, IfOk, IfErr};
ghost use Rattle.ga_dap_control.specs.Watched.{has_expectations_to_watch, AreExpectationsKnown, AreOptionalExpectationsKnown};

use crate::configuration::Configuration;
use ga_dap_queries::Debuggee;
use ga_state_expectations::{
    ExpectationKnowledge, LineExpectation, expects_nothing, known_expectations,
};
use std::alloc::{AllocError, Global};

/// The expectations that a run watches, and what is known of them after its last event.
#[derive(Drop)]
pub struct WatchedExpectations {
    /// Those of the source; none if the filter `broken` is off.
    pub expectations: Vec<LineExpectation>,
    pub known: ExpectationKnowledge,
}

/// Whether there are expectations to watch: the filter `broken` is on, and a line of the source says what is expected.
fn has_expectations_to_watch(program: &Debuggee, settings: &Configuration) -> bool
    ensures { result ≡ has_expectations_to_watch program.now settings.now }
{
    settings.broken && !expects_nothing(&program.source)
}

/// What is known where there are no expectations to watch. Takes no memory.
fn watch_nothing(alloc: Global, program: &Debuggee, settings: &Configuration) -> WatchedExpectations
    requires { has_expectations_to_watch program.now settings.now ≡ false }
    ensures { AreExpectationsKnown program.now settings.now result }
{
    WatchedExpectations {
        expectations: Vec::new(alloc),
        known: ExpectationKnowledge {
            words: Vec::new(alloc),
            broken: Vec::new(alloc),
        },
    }
}

/// What is known of the expectations that a run watches, before its first event.
fn begin_to_watch(
    alloc: Global,
    program: &Debuggee,
    settings: &Configuration,
) -> Result<WatchedExpectations, AllocError>
    ensures known { IfOk result (AreExpectationsKnown program.now settings.now) }
    ensures refused { IfErr result (λ why. has_expectations_to_watch program.now settings.now ≡ true) }
{
    if !has_expectations_to_watch(program, settings) {
        return Ok(watch_nothing(alloc, program, settings));
    }
    let expectations = known_expectations(alloc, &program.source)?;
    let known = ExpectationKnowledge::at_begin_of_run(
        alloc,
        &program.lab,
        expectations.as_slice(),
    )?;
    Ok(WatchedExpectations {
        expectations,
        known,
    })
}

/// What is known of the expectations that a run watches: as the slice before left it, or found anew. That takes memory for the expectations, and time linear
/// in the number of steps of one end of each link.
///
/// # Errors
/// Out of memory.
pub(crate) fn expectations_before_slice(
    alloc: Global,
    program: &Debuggee,
    settings: &Configuration,
    watched: Option<WatchedExpectations>,
) -> Result<WatchedExpectations, AllocError>
    requires { AreOptionalExpectationsKnown program.now settings.now watched }
    ensures known { IfOk result (AreExpectationsKnown program.now settings.now) }
    ensures refused { IfErr result (λ why. (has_expectations_to_watch program.now settings.now && not (is_some watched)) ≡ true) }
{
    match watched {
        Some(watched) => Ok(watched),
        None => begin_to_watch(alloc, program, settings),
    }
}
