//! What a program should do, whatever order its nodes run in: what a line of source says of it, and what nodes hold or do at each end.
#![tactic(auto)]

mod breaking;
mod cause;
mod checking;
mod deciding;
mod expectation;
mod expecting;
mod faults;
mod finding;
mod knowledge;
pub mod laws;
mod lines;
mod link;
mod node_value;
mod observation;
mod parsing;
mod requirement;
mod source;
mod status;
mod testing;
mod violations;

pub use cause::{ExpectationFault, ExpectationFaultCause, ExpectationsError};
pub use checking::check_source_expectations;
pub use deciding::find_decision_against_expectation;
pub use expectation::{NodeExpectation, NodeRequirement};
pub use expecting::{back_until_expecting, has_broken_among, run_expecting};
pub use faults::{format_expectation_faults, report_expectations_error};
pub use finding::{UnmetChip, find_unmet_expectation_chip};
pub use knowledge::ExpectationKnowledge;
pub use lines::{expects_nothing, known_expectations, parse_expectations};
pub use observation::{NodeObservation, observation_for_requirement};
pub use parsing::parse_expectation;
pub use source::{Expectation, LineExpectation};
pub use status::{ExpectationStatus, SessionBreach, expectation_status};
pub use testing::line_broken_by_newest_event;
