//! Counting entries.

use crate::sink::{Entry, Sink};

/// Counts entries, up to the greatest count.
#[derive(Clone, Copy)]
pub struct Counter {
    /// How many entries came.
    pub count: u64,
}

/// A fault that never comes.
#[derive(Clone, Copy)]
pub enum Never {}

impl Sink for Counter {
    ghost use Rattle.pid_file.specs.Steps.Counters.{Counts};

    type Fault = Never;

    ghost takes = { Counts };

    ghost faults = { λ s entry f t. ⊥ };

    fn entry(&mut self, _entry: &Entry<'_>) -> Result<(), Never> {
        self.count = self.count.saturating_add(1);
        Ok(())
    }
}
