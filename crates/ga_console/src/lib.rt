//! A debugger's session, from the bytes that are read to the bytes that are written: an image, then commands, each
//! answered by the machine that replays the kept events; races; and the command line of the program.
#![tactic(auto)]

mod changes;
mod command;
mod commands;
mod fast_path;
pub mod laws;
mod race;
mod readings;
mod responder;
mod run;
mod settings;
mod step_selector;

pub use command::{DebuggerCommand, parse_debugger_command};
pub use commands::{CommandsEnd, serve_commands, serve_commands_with_limit_refusal};
pub use race::write_worker_race_report;
pub use responder::{LineAction, Responder, answer_line_in_wording, execute_command_in_wording};
pub use run::{
    Status, open_lab_from_image, session, session_with_responder, status_of_commands_end,
    write_image_refusal,
};
pub use settings::{CommandLineFault, Settings, parse_command_line};
pub use step_selector::StepSelector;
