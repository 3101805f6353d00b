//! The rows of a registry's tables in a SQLite database: one statement at a time, each on one
//! table. An item and the number of its last change are in two tables, and one call writes both.
//!
//! The tables are of schema 2.
//!
//! A read runs in a transaction of its own, which it rolls back; a write runs in its caller's.
//! `TableFault` says what each fault means.
pub mod account;
mod fault;
pub mod item;
pub mod meta;
pub mod receipt;
pub mod remark;
pub mod run;
mod schema_version;
pub mod submission;
pub mod value;

pub use fault::TableFault;
pub use schema_version::{LATEST, Version};
