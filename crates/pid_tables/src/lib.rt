//! The tables of a registry in a SQLite database: rows that show a history.
#![tactic(auto)]

mod batch;
pub mod check;
mod connection;
mod creation;
mod database;
mod faults;
mod gather;
mod judging;
pub mod laws;
pub mod lists;
mod migration;
mod put_file;
mod put_sink;
mod putting;
pub mod rows;
mod schema_1_to_2;
pub mod searches;
mod tables;
mod tally;

pub use database::{Database, WritableDatabase};
pub use faults::refusal_of;
pub use judging::{Early, judge_import};
pub use lists::EachEnd;
pub use migration::Step;
pub use put_file::Stop;
pub use putting::Put;
pub use rows::{TableFault, Version};
pub use tables::Tables;
