//! A registry over a connection.
use crate::kept_views::KeptViews;
use pid_tables::{Database, Tables};
use std::alloc::Global;

/// A registry over the tables of a connection. It is live until memory or the store fails it while
/// it writes. It also keeps in memory views that are asked for again and again.
#[derive(Drop)]
pub struct Registry<C: Database + Drop> {
    pub(crate) tables: Tables<C>,
    pub(crate) kept: KeptViews,
    pub(crate) live: bool,
    pub(crate) alloc: Global,
}
