//! The paths that were seen, of those that can come again.
ghost use Rattle.std.specs.Prelude.{◌≡◌, ◌<◌, ◌^◌, false, IfOk, IsTrue, not};
ghost use Rattle.pid_file.specs.Steps.Flags.{IsOneMoreFlag};
ghost use Rattle.pid_file.specs.SeenPaths.{AreRising, has_flag, has_seen};
ghost use Rattle.pid_file.specs.Steps.SeenPaths.{InsertsPath};

use crate::identifier::Id16;
use crate::path::{Path, key_of};
use crate::seen::Seen;
use std::alloc::{AllocError, Global};

// How many vendors there can be.
const VENDORS: usize = 65_536;

/// The paths that were seen, but for those below a vendor or a class that another one followed.
///
/// Those can't come again: their vendor or class can't.
#[derive(Drop)]
pub struct SeenPaths {
    /// Whether each vendor was seen; empty before the first.
    pub vendors: Vec<bool>,
    /// The keys of classes and of generic subsystems.
    pub others: Seen,
    /// The keys of what is below the last vendor or class.
    pub below: Seen,
}

// Sets the flag at a place, and answers whether it was not set before.
fn set_flag(flags: &mut Vec<bool>, place: Id16) -> Result<bool, AllocError>
    ensures added { IfOk result (λ added. added ≡ not (has_flag flags.old.items place)) }
    ensures updates { IfOk result (λ added. IsTrue added
        → IsOneMoreFlag flags.old.items place flags.new.items) }
{
    let place = place as usize;
    if place >= flags.len() {
        flags.resize(VENDORS, false)?;
    }
    if flags[place] {
        return Ok(false);
    }
    flags[place] = true;
    Ok(true)
}

impl SeenPaths {
    /// Nothing was seen.
    pub fn new(alloc: Global) -> SeenPaths
        ensures empty { (path : Path) → has_seen result path ≡ false }
        ensures rising { AreRising result }
    {
        SeenPaths {
            vendors: Vec::new(alloc),
            others: Seen::new(alloc),
            below: Seen::new(alloc),
        }
    }

    /// Whether the vendor was seen.
    pub fn has_vendor(&self, vendor: Id16) -> bool
        ensures seen { result ≡ has_flag self.now.vendors.items vendor }
        ensures in_range { vendor < 2 ^ 16 }
    {
        match self.vendors.get(vendor as usize) {
            Some(seen) => *seen,
            None => false,
        }
    }

    /// One more path, and whether it was not seen before.
    pub fn insert(&mut self, path: Path) -> Result<bool, AllocError>
        ensures { InsertsPath path result self.old self.new }
    {
        let key = key_of(path);
        match path {
            Path::Vendor { vendor } => {
                self.below.clear();
                set_flag(&mut self.vendors, vendor)
            }
            Path::Class { .. } => {
                self.below.clear();
                self.others.insert(key)
            }
            Path::Generic { .. } => self.others.insert(key),
            Path::Device { .. }
            | Path::Subsystem { .. }
            | Path::Subclass { .. }
            | Path::ProgIf { .. } => self.below.insert(key),
        }
    }
}
