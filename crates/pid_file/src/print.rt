//! The canonical text of a tree.
ghost use Rattle.std.specs.Prelude.{
  ◌≡◌,
  ◌≤◌,
  ◌∷◌,
  [],
  ◌++◌,
  codes,
  take,
  IfSome,
  is_some,
};
ghost use Rattle.pid_file.specs.Identifiers.{hex4 as four_digits};
ghost use Rattle.pid_file.specs.PathTexts.{path_text};
ghost use Rattle.pid_file.specs.Writing.{Writes};
ghost use Rattle.std.specs.Ordering.{is_eq};
ghost use Rattle.pid_file.specs.Trees.{text_cmp};
ghost use Rattle.pid_file.specs.Printing.{
  block_line,
  ended,
  header,
  item_line,
  label_of,
  lines_after,
  opens_block,
  print,
};
ghost use Rattle.pid_file.specs.Steps.Printing.{text_or_none};

use crate::identifier::{Id16, hex2, hex4};
use crate::io::{Output, WriteFault};
use crate::path::Path;
use crate::tree::Tree;
use crate::writing::{write_all, write_parts};

/// Writes the first line of every canonical text.
pub fn write_header<W: Output>(out: &mut W) -> Result<(), WriteFault>
    ensures { Writes W.Output result out.old out.new (ended (header ∷ [])) }
{
    write_all(out, b"# PCI ID registry\n")
}

/// The vendor whose block the item opens, if one line comes before it: it is a generic
/// subsystem, and the item before, if there is one, is none of that vendor.
pub fn opened_block(before: Option<Path>, path: Path) -> Option<Id16>
    ensures opens { is_some result ≡ opens_block (text_or_none before) (path_text path) }
    ensures vendor { IfSome result (λ vendor. block_line (path_text path)
        ≡ codes "S " ++ four_digits vendor) }
{
    let Path::Generic { vendor, .. } = path else {
        return None;
    };
    match before {
        Some(previous) if is_generic_of(previous, vendor) => None,
        _ => Some(vendor),
    }
}

// Whether it is a generic subsystem of the vendor.
fn is_generic_of(path: Path, vendor: Id16) -> bool
    ensures { result ≡ is_eq (text_cmp (take 7 (path_text path))
        (codes "PS/" ++ four_digits vendor)) }
{
    match path {
        Path::Generic { vendor: other, .. } => is_same_vendor(other, vendor),
        _ => false,
    }
}

fn is_same_vendor(vendor: Id16, other: Id16) -> bool
    ensures { result ≡ is_eq (text_cmp (four_digits vendor) (four_digits other)) }
{
    vendor == other
}

/// Writes the line before the generic subsystems of a vendor.
pub fn write_block<W: Output>(vendor: Id16, out: &mut W) -> Result<(), WriteFault>
    ensures { Writes W.Output result out.old out.new
        (ended ((codes "S " ++ four_digits vendor) ∷ [])) }
{
    let [a, b, c, d] = hex4(vendor);
    write_all(out, &[b'S', b' ', a, b, c, d, b'\n'])
}

/// Writes the line of an item.
pub fn write_item<W: Output>(path: &Path, name: &str, out: &mut W) -> Result<(), WriteFault>
    ensures { Writes W.Output result out.old out.new
        (ended (item_line (path_text path.now, name.now) ∷ [])) }
{
    let label = Label::of(*path);
    let (front, _) = label.bytes.split_at(label.len);
    write_parts(out, &[front, name.as_bytes(), b"\n"])
}

// What comes before a name, with the spaces after it: the first `len` bytes.
#[derive(Clone, Copy)]
struct Label {
    bytes: [u8; 13],
    len: usize,
}

impl Label {
    fn of(path: Path) -> Label
        ensures bytes { take result.len result.bytes ≡ label_of (path_text path) ++ codes "  " }
        ensures len { result.len ≤ 13 }
    {
        match path {
            Path::Vendor { vendor } => {
                let [a, b, c, d] = hex4(vendor);
                Label {
                    bytes: [a, b, c, d, b' ', b' ', 0, 0, 0, 0, 0, 0, 0],
                    len: 6,
                }
            }
            Path::Device { device, .. } | Path::Generic { device, .. } => {
                let [a, b, c, d] = hex4(device);
                Label {
                    bytes: [b'\t', a, b, c, d, b' ', b' ', 0, 0, 0, 0, 0, 0],
                    len: 7,
                }
            }
            Path::Subsystem {
                subvendor,
                subdevice,
                ..
            } => {
                let [a, b, c, d] = hex4(subvendor);
                let [e, f, g, h] = hex4(subdevice);
                Label {
                    bytes: [b'\t', b'\t', a, b, c, d, b' ', e, f, g, h, b' ', b' '],
                    len: 13,
                }
            }
            Path::Class { class } => {
                let [a, b] = hex2(class);
                Label {
                    bytes: [b'C', b' ', a, b, b' ', b' ', 0, 0, 0, 0, 0, 0, 0],
                    len: 6,
                }
            }
            Path::Subclass { subclass, .. } => {
                let [a, b] = hex2(subclass);
                Label {
                    bytes: [b'\t', a, b, b' ', b' ', 0, 0, 0, 0, 0, 0, 0, 0],
                    len: 5,
                }
            }
            Path::ProgIf { progif, .. } => {
                let [a, b] = hex2(progif);
                Label {
                    bytes: [b'\t', b'\t', a, b, b' ', b' ', 0, 0, 0, 0, 0, 0, 0],
                    len: 6,
                }
            }
        }
    }
}

/// Writes the lines of an item that follows another or is the first: that of the block that it
/// opens, and its own.
pub fn write_after<W: Output>(
    before: Option<Path>,
    path: &Path,
    name: &str,
    out: &mut W,
) -> Result<(), WriteFault>
    ensures { Writes W.Output result out.old out.new
        (ended (lines_after (text_or_none before) ((path_text path.now, name.now) ∷ []))) }
{
    if let Some(vendor) = opened_block(before, *path) {
        write_block(vendor, out)?;
    }
    write_item(path, name, out)
}

/// Writes the text of a tree: the header, and the lines of each item in canonical order. If the
/// writer fails, a prefix of the text was written, and not all of it.
pub fn write_canonical<W: Output>(tree: &Tree, out: &mut W) -> Result<(), WriteFault>
    ensures { Writes W.Output result out.old out.new (print tree.now) }
{
    write_header(out)?;
    let mut before = None;
    for (path, name) in tree.in_order() {
        write_after(before, path, name.as_str(), out)?;
        before = Some(*path);
    }
    Ok(())
}
