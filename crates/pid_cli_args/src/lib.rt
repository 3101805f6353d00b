//! The command line of the program, and what a person at a terminal reads.
#![tactic(auto)]

mod command_building;
mod command_table;
pub mod fault_lines;
mod job;
mod job_of_arguments;
mod no_job;
pub mod terminal;

pub use job::{ImportArgs, Job, LookupArgs, ServeArgs};
pub use job_of_arguments::job_of;
pub use no_job::report_no_job;
