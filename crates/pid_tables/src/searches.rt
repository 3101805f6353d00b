//! The submissions for a path or of an author: found by numbers that are kept in memory, or, if
//! none are kept, by a walk over all of them.
mod filings;
mod numbers;
mod pages;
mod walking;

pub use numbers::{Kept, Searches, numbers_after};
