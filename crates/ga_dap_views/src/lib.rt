//! What a client of the Debug Adapter Protocol is shown of a lab: each response a definition of the machine.
#![tactic(auto)]

mod calls;
mod disassembly;
mod doing;
mod entries;
mod frames;
mod json;
mod labels;
mod listing;
mod numbers;
mod scope;
mod spots;
mod texts;
mod thread;
mod values;
mod variable;

pub use calls::{OpenCall, open_calls};
pub use disassembly::disassemble_response_body;
pub use doing::thread_title;
pub use entries::{is_call_step, previous_return_entry_indices, step_pushing_return_entry};
pub use frames::{SourceFile, stack_trace_body};
pub use labels::{first_code_word_of_line, source_line_of_slot};
pub use listing::{make_scopes_body, make_variables_body};
pub use numbers::{
    cell_at_chip_address, chip_address, frame_id, node_of_frame, node_of_thread,
    resolve_variables_reference, thread_id, variables_reference,
};
pub use scope::Scope;
pub use spots::{
    SlotAddress, memory_cell_of_address, next_slot_and_p, slot_address_after_steps,
    slot_address_of_walked_back_node,
};
pub use thread::{has_thread, make_threads_body};
pub use values::json_value_of_variable;
pub use variable::{Variable, count_variables, find_variable_at_index, variable_name};
