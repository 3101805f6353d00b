//! The first faulty line of a text that is read line by line.
use pid_file::LineKind;
use thiserror::Error;

/// The first line that has a fault of its own.
#[derive(Clone, Copy, Debug, PartialEq, Eq, Error)]
#[error("line {line}: {} {}", .kind.number(), .kind.word())]
pub struct LineFault {
    /// Its number, counted from 1.
    pub line: usize,
    /// What is wrong with it.
    pub kind: LineKind,
}
