//! What a person gets of both programs: the pages of help, and the line below a fault at a terminal.
#![tactic(auto)]

mod explaining;
mod file_looks;
mod first_job;
mod met;
mod pages;
mod refusing;
mod similar;

pub use explaining::{explain_streams, is_for_a_person, reason_of, report_input};
pub use file_looks::looks_of;
pub use first_job::{FirstJob, first_job_of, words_given};
pub use met::{Met, Noted};
pub use pages::{
    CHECK, EXPORT, HELP, IMPORT, LOOKUP, MIGRATE, SCRIPT, SERVE, TIDY, USAGE, USAGE_PAGE, VERSION,
    VERSION_PAGE,
};
pub use refusing::{refuse_argument, refuse_command};
