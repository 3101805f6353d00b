//! Why a text is not read.
use crate::fault_kind::LineKind;

/// Why a text of PCI identifiers is not read.
#[derive(Clone, Copy)]
pub enum ReadRefusal {
    /// The first faulty line, counted from 1, and what is wrong with it.
    Line { line: usize, kind: LineKind },
    /// The text has more than 100,000 entries.
    TooManyEntries,
    /// There is no memory.
    Memory,
}
