//! What the paths of a file were to the items.

/// How many paths were added, renamed, and had their names already.
#[derive(Clone, Copy)]
pub(crate) struct Tally {
    pub(crate) added: u32,
    pub(crate) renamed: u32,
    pub(crate) same: u32,
}
