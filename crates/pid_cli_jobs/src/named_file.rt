//! A file that is written only while its names lead to it.
ghost use Rattle.std.specs.Prelude.{◌≡◌, false};
ghost use Rattle.sqlite_disk.specs.Disk.{CountsFault};
ghost use Rattle.sqlite_disk.specs.Refusal.{finds_no_room};
ghost use Rattle.pid_cli_jobs.specs.NamedFiles.{bare_file};

use sqlite_disk::{Disk, Tally};
use std::io;

/// The names under which the files of a database were opened.
pub trait FileNames {
    /// Whether they still lead to those files.
    fn are_kept(&mut self) -> bool;
}

/// A file of a database. It is not written once the names of the database lead elsewhere: what is
/// written to a file that was removed or replaced is lost.
#[derive(Drop)]
pub struct NamedFile<D, N> {
    file: D,
    names: N,
    refused: u64,
}

impl<D: Disk, N: FileNames> NamedFile<D, N> {
    /// A file, and the names of its database.
    pub fn new(file: D, names: N) -> NamedFile<D, N>
        ensures { bare_file result ≡ file }
    {
        NamedFile {
            file,
            names,
            refused: 0,
        }
    }
}

// Refuses a write if the names lead elsewhere, and counts it.
fn look<N: FileNames>(names: &mut N, refused: &mut u64) -> io::Result<()>
    ensures faults { CountsFault result refused.old refused.new }
    ensures kind { finds_no_room result ≡ false }
{
    if names.are_kept() {
        return Ok(());
    }
    *refused = refused.saturating_add(1);
    Err(io::Error::other("a file of the database was removed, replaced or emptied"))
}

impl<D: Disk, N: FileNames> Disk for NamedFile<D, N> {
    ghost use Rattle.std.specs.Prelude.{◌+◌};

    ghost seen = { λ f. D.Disk.seen f.file };

    ghost may_leave = { λ f. D.Disk.may_leave f.file };

    ghost is_usable = { λ f. D.Disk.is_usable f.file };

    ghost faults = { λ f. D.Disk.faults f.file + f.refused };

    ghost tally_of = { λ f. D.Disk.tally_of f.file };

    ghost is_rotten = { λ f. D.Disk.is_rotten f.file };

    ghost key_of = { λ f. D.Disk.key_of f.file };

    ghost is_frozen = { λ f. D.Disk.is_frozen f.file };

    ghost is_clean = { λ f. D.Disk.is_clean f.file };

    ghost is_fair = { λ f. D.Disk.is_fair f.file };

    ghost fair_if_clean = { λ f. D.Disk.fair_if_clean f.file };

    ghost seen_may_stay = { λ f. D.Disk.seen_may_stay f.file };

    ghost is_mixing = { λ f. D.Disk.is_mixing f.file };

    fn mixes(&self) -> bool {
        self.file.mixes()
    }

    fn key(&self) -> u64 {
        self.file.key()
    }

    fn tally(&self) -> Tally {
        self.file.tally()
    }

    fn may_be_used(&self) -> bool {
        self.file.may_be_used()
    }

    fn len(&mut self) -> io::Result<usize> {
        self.file.len()
    }

    fn read_at(&mut self, at: usize, buf: &mut [u8]) -> io::Result<()> {
        self.file.read_at(at, buf)
    }

    fn read_checked(&mut self, key: u64, want: u64, at: usize, buf: &mut [u8]) -> io::Result<()> {
        self.file.read_checked(key, want, at, buf)
    }

    fn write_at(&mut self, at: usize, bytes: &[u8]) -> io::Result<()> {
        look(&mut self.names, &mut self.refused)?;
        self.file.write_at(at, bytes)
    }

    fn set_len(&mut self, len: usize) -> io::Result<()> {
        look(&mut self.names, &mut self.refused)?;
        self.file.set_len(len)
    }

    fn sync(&mut self) -> io::Result<()> {
        self.file.sync()
    }
}
