//! Responses to requests that read, and events, for a client of the Debug Adapter Protocol.
#![tactic(auto)]

mod arguments;
mod capabilities;
mod debuggee;
mod disassembling;
mod evaluating;
mod exceptions;
mod launch;
mod naming;
mod readings;
mod request_name;
mod stuck;
mod telling;
mod watching;

pub use arguments::{frame_argument, member_list_values, thread_argument};
pub use capabilities::respond_initialize;
pub use debuggee::Debuggee;
pub use disassembling::{
    parse_signed_member, resolve_memory_reference, respond_disassemble, wrapped_address_offset,
};
pub use evaluating::{make_evaluate_body, parse_variable};
pub use exceptions::make_exception_info_body;
pub use launch::{parse_history_limit, parse_schedule, stops_on_entry};
pub use naming::push_node_name;
pub use readings::{
    respond_exception_info, respond_scopes, respond_stack_trace, respond_threads, respond_variables,
};
pub use request_name::{RequestName, parse_request_name};
pub use stuck::is_deadlocked;
pub use telling::{
    emit_breakpoint_hit, emit_output, emit_stopped_event, emit_thread_changes,
    first_node_with_thread, thread_flags_by_node,
};
pub use watching::respond_data_breakpoint_info;
