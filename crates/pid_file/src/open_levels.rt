//! The open levels, and what a line says below them.
ghost use Rattle.std.specs.Prelude.{◌≡◌, ℕ, List, true, false};
ghost use Rattle.std.specs.Str.{is_utf8 as utf8_bytes};
ghost use Rattle.pid_file.specs.Marks.{is_idle as idle_line, depth as tabs};
ghost use Rattle.pid_file.specs.OpenLevels.{IsOpenAt};
ghost use Rattle.pid_file.specs.Steps.OpenLevels.{ReadsLine};
ghost use Rattle.pid_file.specs.Steps.OpenLevels.{
  below as below_at,
  first_below as below_at_one,
  second_below as below_at_two,
};
ghost use Rattle.pid_file.specs.Steps.OpenLevels.{
  open_below as levels_below,
  open_after as levels_after,
};

use crate::entry_line::{EntryKind, NamedPath, read_columns, vendor_of_block};
use crate::fault_kind::LineKind;
use crate::identifier::{Id8, Id16};
use crate::line::{Mark, is_idle, is_utf8, split_depth, split_mark};
use crate::path::Path;

/// What the next nested line can belong to.
#[derive(Clone, Copy)]
pub enum OpenLevels {
    /// No top-level line has come.
    Nothing,
    /// A block that is not known, whose lines are skipped.
    Unknown,
    Vendor { vendor: Id16 },
    Device { vendor: Id16, device: Id16 },
    Class { class: Id8 },
    Subclass { class: Id8, subclass: Id8 },
    /// A block of generic subsystems of a vendor.
    Generics { vendor: Id16 },
}

/// What a line says.
#[derive(Clone, Copy)]
pub enum LineContent<'a> {
    Nothing,
    /// A block that is not known begins.
    Unknown,
    /// A block of generic subsystems begins.
    Block { vendor: Id16 },
    Entry(NamedPath<'a>),
}

// What a line of depth 1 names, if it is not skipped.
fn first_below(levels: OpenLevels) -> Result<Option<EntryKind>, LineKind>
    ensures { result ≡ below_at_one levels }
{
    match levels {
        OpenLevels::Nothing => Err(LineKind::NoParent),
        OpenLevels::Unknown => Ok(None),
        OpenLevels::Vendor { vendor } | OpenLevels::Device { vendor, .. } => {
            Ok(Some(EntryKind::Device { vendor }))
        }
        OpenLevels::Class { class } | OpenLevels::Subclass { class, .. } => {
            Ok(Some(EntryKind::Subclass { class }))
        }
        OpenLevels::Generics { vendor } => Ok(Some(EntryKind::Generic { vendor })),
    }
}

// What a line of depth 2 names, if it is not skipped.
fn second_below(levels: OpenLevels) -> Result<Option<EntryKind>, LineKind>
    ensures { result ≡ below_at_two levels }
{
    match levels {
        OpenLevels::Unknown => Ok(None),
        OpenLevels::Nothing | OpenLevels::Vendor { .. } | OpenLevels::Class { .. } => {
            Err(LineKind::NoParent)
        }
        OpenLevels::Device { vendor, device } => Ok(Some(EntryKind::Subsystem { vendor, device })),
        OpenLevels::Subclass { class, subclass } => Ok(Some(EntryKind::ProgIf { class, subclass })),
        OpenLevels::Generics { .. } => Err(LineKind::TooDeep),
    }
}

// What a line of this depth, which is not 0, names, if it is not skipped.
fn place_below(levels: OpenLevels, depth: usize) -> Result<Option<EntryKind>, LineKind>
    ensures { result ≡ below_at levels depth }
{
    if depth == 1 {
        first_below(levels)
    } else if depth == 2 {
        second_below(levels)
    } else if let OpenLevels::Unknown = levels {
        Ok(None)
    } else {
        Err(LineKind::TooDeep)
    }
}

// Reads a line of depth 0.
fn read_head(line: &[u8]) -> Result<LineContent<'_>, LineKind>
    requires text { utf8_bytes line.now ≡ true }
    requires active { idle_line line.now ≡ false }
    requires flat { tabs line.now ≡ 0 }
    ensures { (levels : OpenLevels) (earlier : List (List ℕ))
        → ReadsLine levels earlier line.now result }
{
    let (mark, behind) = split_mark(line);
    match mark {
        Mark::Devices => {
            let vendor = read_columns(EntryKind::Vendor, behind)?;
            Ok(LineContent::Entry(vendor))
        }
        Mark::Classes => {
            let class = read_columns(EntryKind::Class, behind)?;
            Ok(LineContent::Entry(class))
        }
        Mark::Generics => match vendor_of_block(behind) {
            Some(vendor) => Ok(LineContent::Block { vendor }),
            None => Err(LineKind::BadId),
        },
        Mark::Unknown => Ok(LineContent::Unknown),
    }
}

/// Reads a line below the open levels.
pub fn read_line<'b>(levels: OpenLevels, line: &'b [u8]) -> Result<LineContent<'b>, LineKind>
    ensures { (earlier : List (List ℕ)) → IsOpenAt levels earlier
        → ReadsLine levels earlier line.now result }
{
    if !is_utf8(line) {
        return Err(LineKind::NotUtf8);
    }
    if is_idle(line) {
        return Ok(LineContent::Nothing);
    }
    let (depth, body) = split_depth(line);
    if depth == 0 {
        return read_head(line);
    }
    let Some(place) = place_below(levels, depth)? else {
        return Ok(LineContent::Nothing);
    };
    let named = read_columns(place, body)?;
    Ok(LineContent::Entry(named))
}

// The levels that are open after an entry.
fn open_below(path: Path) -> OpenLevels
    ensures { result ≡ levels_below path }
{
    match path {
        Path::Vendor { vendor } => OpenLevels::Vendor { vendor },
        Path::Device { vendor, device } | Path::Subsystem { vendor, device, .. } => {
            OpenLevels::Device { vendor, device }
        }
        Path::Class { class } => OpenLevels::Class { class },
        Path::Subclass { class, subclass }
        | Path::ProgIf {
            class,
            subclass,
            ..
        } => { OpenLevels::Subclass { class, subclass } }
        Path::Generic { vendor, .. } => OpenLevels::Generics { vendor },
    }
}

impl OpenLevels {
    /// The levels that are open after a line.
    pub fn after(self, said: &LineContent<'_>) -> OpenLevels
        ensures { result ≡ levels_after self said.now }
    {
        match *said {
            LineContent::Nothing => self,
            LineContent::Unknown => OpenLevels::Unknown,
            LineContent::Block { vendor } => OpenLevels::Generics { vendor },
            LineContent::Entry(entry) => open_below(entry.path),
        }
    }
}
