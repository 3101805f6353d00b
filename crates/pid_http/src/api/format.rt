//! The two forms of replies.

/// How a reply is written.
#[derive(Clone, Copy)]
pub enum Format {
    /// As one JSON value (RFC 8259). Also if a request names no format.
    Json,
    /// As lines of text.
    Text,
}
