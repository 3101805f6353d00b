//! How the answer to a line ends a script.

/// How the answer to a line ends a script.
#[derive(Clone, Copy)]
pub enum LineEnd {
    /// Memory or the store refused, or the registry had failed.
    Stopped,
    /// The writer failed, or took no byte.
    WriteFault,
    /// The line is too long.
    TooLong,
}
