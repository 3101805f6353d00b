//! Scripts: lines of commands and questions to a registry, each with its reply.
#![tactic(auto)]

mod answering;
mod fields;
pub mod laws;
mod line_command;
mod line_end;
mod lookup;
mod output;
mod reply;
mod script;
mod script_end;
mod script_line;

pub use line_command::command_in_line;
pub use pid_service_laws::RegistryCalls;
pub use script::run_script;
pub use script_end::ScriptEnd;
pub use script_line::{LONGEST_LINE, is_idle};
