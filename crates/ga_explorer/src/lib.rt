//! A session that explores: the commands of the debugger, events made up to a condition, and what a person asks of a lab besides.
#![tactic(auto)]

mod arguments;
mod back_request;
mod beginning;
mod changes;
mod command_table;
mod commands;
mod expecting;
mod explorer;
mod forms;
pub mod laws;
mod named_value;
mod opening;
mod preload;
mod prompting;
mod run_request;
mod session;
mod strict;

pub use beginning::open_lab;
pub use changes::{Change, ChangeResult};
pub use command_table::TextQuery;
pub use commands::{ExplorerCommand, Query, parse_explorer_command};
pub use expecting::{ExpectingRefusal, expecting_refusal_text};
pub use explorer::{Explorer, answer_explorer_line};
pub use forms::{CommandClass, CommandUsage, command_class_of_line, command_suggestion};
pub use named_value::part_of_value;
pub use preload::{complete_end_line, is_image_lacking_end_line};
pub use session::serve_explorer_session;
pub use strict::{is_refusal_answer, report_session_end_status};
