//! Whether the tables of a registry keep the conditions that every history keeps.
mod account;
mod authors;
mod checking;
mod item;
mod lacking;
pub mod laws;
mod meta;
mod numbers;
pub(crate) mod read;
mod receipt;
mod remark;
pub(crate) mod schema;
mod since;
mod submission;
mod tables;
mod value;
mod words;

pub use schema::has_some_table;
