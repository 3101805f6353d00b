//! What a registry under moderation promises to scripts and to HTTP (`RegistryCalls`,
//! `RegistryQueries`), and its sessions, from one opening to the next, over stops at any place,
//! with the laws that hold over them.
//!
//! `specs/Registries` says what each call of a registry does. From there `calls` leads to sessions,
//! and `laws` from sessions to the crash prefix: an opening finds the history after a prefix of the
//! commands, which has every acknowledged one.
#![tactic(auto)]

mod calls;
mod faults;
mod laws;
mod registry_calls;
mod registry_queries;

pub use calls::calls_make_a_session;
pub use faults::{ExportFault, ImportEnd};
pub use laws::{
    doubts_end, judgements_are_outcomes, refusals_change_nothing, sessions_are_prefixes,
};
pub use registry_calls::RegistryCalls;
pub use registry_queries::RegistryQueries;
