//! The ends of a program, whatever the order in which its nodes run: their kinds as text, the session that leads to each, and what a reader
//! may rely on.
#![tactic(auto)]

mod breach_decisions;
mod breach_session;
mod decision_text;
mod end_nodes;
mod ends_json;
mod ends_text;
mod expectation_json;
mod expectations_json;
mod expected;
mod json_fields;
mod judging;
pub mod laws;
mod link_breach;
mod link_fault;
mod making;
mod never;
mod never_json;
mod never_text;
mod node_rows;
mod opening;
mod outcome;
mod outcome_text;
mod report;
mod request;
mod same_end;
mod settling;

pub use expectation_json::{observation_fields, observation_keyword};
pub use expected::check_expectations_or_ends;
pub use ga_json::ReportFormat;
pub use ga_state_conditions::ConditionFault;
pub use json_fields::MAX_DETAILS;
pub use link_fault::{link_fault_fields, link_fault_keyword};
pub use never::check_never_conditions;
pub use opening::open_lab_with_json_refusals;
pub use report::{Verdict, check_ends};
pub use request::CheckRequest;
