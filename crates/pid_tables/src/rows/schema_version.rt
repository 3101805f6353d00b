//! The schemas of the tables.

/// The number of the schema that this program makes, `Version::Two`.
pub const LATEST: u32 = 2;

/// A schema of the tables.
///
/// - `One`: six tables, which keep no number of a change.
/// - `Two`: the same and a seventh, which has for each item the number of the last change of its
///   name; `meta` has the revision. This is the schema that this program makes.
#[derive(Clone, Copy)]
pub enum Version {
    One,
    Two,
}
