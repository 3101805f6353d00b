//! What is kept of the lines that were read.
ghost use Rattle.std.specs.Prelude.{◌≡◌, ◌+◌, ℕ, [], List};
ghost use Rattle.pid_file.specs.LinesRead.{Shows};
ghost use Rattle.pid_file.specs.Steps.LinesRead.{AdmitsLine};
ghost use Rattle.pid_file.specs.Steps.OpenLevels.{Says, open_after};

use crate::entry_line::NamedPath;
use crate::fault_kind::LineKind;
use crate::open_levels::{LineContent, OpenLevels, read_line};
use crate::refusal::ReadRefusal;
use crate::seen_paths::SeenPaths;
use std::alloc::Global;

// How many entries a text may have: a choice of this project.
const ENTRIES: usize = 100_000;

/// What is kept of the lines that were read.
#[derive(Drop)]
pub struct LinesRead {
    /// What the next nested line can belong to.
    pub levels: OpenLevels,
    /// How many lines were read.
    pub lines: usize,
    /// How many of them were entries.
    pub entries: usize,
    /// The paths of their entries.
    pub seen: SeenPaths,
}

impl LinesRead {
    /// What is kept before the first line.
    pub fn new(alloc: Global) -> LinesRead
        ensures { Shows result [] }
    {
        LinesRead {
            levels: OpenLevels::Nothing,
            lines: 0,
            entries: 0,
            seen: SeenPaths::new(alloc),
        }
    }

    // The line with this number was read.
    fn pass(&mut self, number: usize, said: &LineContent<'_>)
        ensures { self.new ≡ record self.old {
          levels = open_after self.old.levels said.now;
          lines = number;
        } }
    {
        self.levels = self.levels.after(said);
        self.lines = number;
    }

    // Takes what the line with this number says, which has no fault of its own.
    fn admit<'b>(
        &mut self,
        number: usize,
        said: LineContent<'b>,
    ) -> Result<Option<(usize, NamedPath<'b>)>, ReadRefusal>
        ensures { (earlier : List (List ℕ)) (line : List ℕ) → Shows self.old earlier
            → number ≡ self.old.lines + 1 → Says self.old.levels earlier line said.entry
            → AdmitsLine self.new earlier line result }
    {
        match said {
            LineContent::Nothing | LineContent::Unknown => {
                self.pass(number, &said);
                Ok(None)
            }
            LineContent::Block { vendor } => {
                if !self.seen.has_vendor(vendor) {
                    let kind = LineKind::VendorMissing;
                    return Err(ReadRefusal::Line { line: number, kind });
                }
                self.pass(number, &said);
                Ok(None)
            }
            LineContent::Entry(named) => {
                match self.seen.insert(named.path) {
                    Err(_) => return Err(ReadRefusal::Memory),
                    Ok(false) => {
                        let kind = LineKind::Duplicate;
                        return Err(ReadRefusal::Line { line: number, kind });
                    }
                    Ok(true) => {}
                }
                if self.entries >= ENTRIES {
                    return Err(ReadRefusal::TooManyEntries);
                }
                self.entries += 1;
                self.pass(number, &said);
                Ok(Some((number, named)))
            }
        }
    }

    /// Reads one more line: its number and its entry, if it is one; or what is refused at it, or
    /// `Memory`.
    pub fn judge<'b>(
        &mut self,
        line: &'b [u8],
    ) -> Result<Option<(usize, NamedPath<'b>)>, ReadRefusal>
        ensures { (earlier : List (List ℕ)) → Shows self.old earlier
            → AdmitsLine self.new earlier line.now result }
    {
        let Some(number) = self.lines.checked_add(1) else {
            return Err(ReadRefusal::Memory);
        };
        match read_line(self.levels, line) {
            Ok(said) => self.admit(number, said),
            Err(kind) => Err(ReadRefusal::Line { line: number, kind }),
        }
    }
}
