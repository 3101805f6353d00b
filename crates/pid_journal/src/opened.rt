//! A registry with its journal in front of it, as an opening leaves it.
use crate::journaled::Journaled;

/// A registry with its journal in front of it, as an opening leaves it.
#[derive(Drop)]
pub struct Opened<R, J> {
    pub registry: Journaled<R, J>,
    /// The registry had obeyed commands that the journal has not, so that the journal goes on after
    /// a gap.
    pub gap: bool,
}
