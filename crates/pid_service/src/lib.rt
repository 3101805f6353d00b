//! The registry: each command is one transaction on its tables.
#![tactic(auto)]

mod accounts;
mod changes;
mod closing;
mod export_sink;
mod exporting;
mod importing;
mod item_text;
mod items_text;
mod judging;
mod kept_children;
mod kept_text;
mod kept_views;
pub mod laws;
mod names;
mod obeying;
mod opening;
mod pending;
mod pending_numbers;
mod preparing;
mod reading;
mod registry;
mod registry_calls;
mod registry_queries;
mod registry_status;
mod renewing;
mod running;
mod sessions;
mod top;

pub use laws::{
    clauses_meet_sessions, commands_lead_on, first_openings_show_what_is_there, histories_are_kept,
    histories_are_kept_between, items_print_as_their_tree, migrations_find_histories,
    openings_find_histories, pages_tell_a_hundred, reached_histories_are_kept,
    reopened_registries_show_prefixes, repeats_end_doubts, taken_histories_are_reached,
};
pub use opening::{migrate, open};
pub use registry::Registry;
pub use running::RunReport;

// What its callers need of the crates below.
pub use pid_ident::{
    Account, Id8, Id16, Input, Key, LineKind, Name, Output, Path, ReadFault, Text, WordFault,
    WriteFault,
};
pub use pid_lookup::{Answer, AnswerText, Args, BadField, LookupRefusal, args_of};
pub use pid_moderation::{
    Act, ChangedItem, Changes, Command, Comment, Discussion, Expected, File, FileFault, Item,
    Listed, Pending, Proposal, Queued, Rank, Refusal, Reply, State, Status, Submission,
    SubmissionPage, Verb, command_of, reply_line,
};
pub use pid_service_laws::{ExportFault, ImportEnd, RegistryCalls, RegistryQueries};
pub use pid_tables::{Step, TableFault};
