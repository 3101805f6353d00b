//! The limits of a request.

/// The most fields of a head.
pub const MOST_FIELDS: usize = 32;

/// The longest head, in bytes, with the empty lines before it.
pub const LONGEST_HEAD: usize = 16_384;

/// The longest body, in bytes: 4 MiB.
pub const LONGEST_BODY: usize = 4_194_304;

/// The most that one read asks for, in bytes.
pub(crate) const READ_SIZE: usize = 4096;
