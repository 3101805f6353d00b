//! The text of all items, as a registry keeps it in memory.
ghost use Rattle.std.specs.Prelude.{◌≡◌, IfSome};

use pid_ident::Path;

/// The longest text that is kept in memory, in bytes.
pub(crate) const MOST_BYTES: usize = 16_777_216;

/// Where the lines of the first item begin: the header has 17 bytes and its LF.
pub(crate) const FIRST: usize = 18;

/// The path of an item, and how many bytes its lines have in the text: that of the block that it
/// opens, and its own.
#[derive(Clone, Copy)]
pub struct Extent {
    pub(crate) path: Path,
    pub(crate) length: u16,
}

/// The text of all items, and in the same order the path of each with the length of its lines, by
/// which a command that writes an item finds its place in the text. An extent takes 12 bytes; a list
/// of them, as the text, less than twice what it holds.
#[derive(Drop)]
pub struct KeptText {
    pub(crate) bytes: Vec<u8>,
    pub(crate) extents: Vec<Extent>,
}

/// A path with a length, if that is short enough. Those of all items are.
pub(crate) fn extent_of(path: Path, length: u64) -> Option<Extent>
    ensures { IfSome result (λ extent. (extent.path ≡ path) × (extent.length ≡ length)) }
{
    match u16::try_from(length) {
        Ok(length) => Some(Extent { path, length }),
        Err(_) => None,
    }
}
