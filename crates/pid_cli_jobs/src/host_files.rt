//! The two files of a database.
ghost use Rattle.std.specs.Prelude.{true, false, IsTrue, IfErr, IfOk};
ghost use Rattle.sqlite_std_file.specs.File.{IsFresh as IsNewFile, file_is_usable};
ghost use Rattle.pid_cli_jobs.specs.Files.{OpensFiles};
ghost use Rattle.pid_cli_jobs.specs.NamedFiles.{bare_file};
ghost use Rattle.pid_cli_jobs.specs.Sessions.{IsOfDatabase};

use crate::host_names::HostNames;
use crate::named_file::NamedFile;
use crate::unopened::Unopened;
use sqlite::{Connection, Error as SqlError, ErrorCode, FileStore, Leftover, Options};
use sqlite_disk::{Disk, Files, Start};
use sqlite_std_file::{FileFrom, OpenError};
use std::hash::{BuildHasher, RandomState};
use std::io;

/// Where the two files of a database are opened, once.
pub trait DatabaseFiles: Drop {
    ghost use Rattle.std.specs.Prelude.{◌≡◌, IsTrue, IfErr, IfOk};
    ghost use Rattle.sqlite.specs.Files.{image_of};
    ghost use Rattle.sqlite_wal.specs.Recovery.{Image};
    ghost use Rattle.pid_cli_jobs.specs.Sessions.{IsOfDatabase};

    type File: Disk + Drop;

    /// What they hold.
    ghost image: { Image };

    /// Opens those at a path, or makes them.
    fn open(self, path: &str) -> Result<Files<Self::File>, Unopened>
        ensures log { IfOk result (λ files. IsTrue (Self.File.Disk.is_usable files.log)) }
        ensures db { IfOk result (λ files. IsTrue (Self.File.Disk.is_usable files.db)) }
        ensures found { IfOk result (λ files. image_of Self.File.Disk files ≡ image) }
        ensures unopened { IfErr result IsOfDatabase };
}

/// A file of a database on the machine of the process.
pub type HostFile<'r, S> = NamedFile<FileFrom<S>, HostNames<'r>>;

// Why a file was not opened.
fn of_file(error: io::Error) -> Unopened
    ensures { IsOfDatabase result }
{
    if error.kind() == io::ErrorKind::OutOfMemory {
        Unopened::Memory
    } else {
        Unopened::Store
    }
}

fn of_pair(error: OpenError) -> Unopened
    ensures { IsOfDatabase result }
{
    match error {
        OpenError::OutOfMemory => Unopened::Memory,
        OpenError::Io(error) => of_file(error),
        OpenError::Busy | OpenError::HotJournal => Unopened::Store,
    }
}

// Why files were not opened as a database, by the error and what is left of them. `sqlite` answers
// NotADatabase for a database whose rows or schema it refuses, and for what is none.
fn of_database<D: Disk + Drop>(error: SqlError, left: Leftover<D>) -> Unopened
    ensures { IsOfDatabase result }
{
    match error {
        SqlError::SqliteFailure(ErrorCode::OutOfMemory) => Unopened::Memory,
        SqlError::SqliteFailure(ErrorCode::NotADatabase) => {
            let mut files = left.into_files();
            if begins_as_database(&mut files.db) {
                Unopened::Damaged
            } else {
                Unopened::Store
            }
        }
        _ => Unopened::Store,
    }
}

// Whether the header of an SQLite database is at the beginning of a file.
fn begins_as_database<D: Disk>(file: &mut D) -> bool {
    let mut header = [0; 16];
    file.may_be_used() && file.read_at(0, &mut header).is_ok() && header == *b"SQLite format 3\0"
}

// Opens the two files of a database, each under both names.
fn open_pair<'r, S: Start>(
    rt: &'r HostRuntime,
    path: &str,
    start: S,
) -> Result<Files<HostFile<'r, S>>, Unopened>
    ensures log { IfOk result (λ files. IsTrue (file_is_usable S.Start (bare_file files.log))
        × IsNewFile true (bare_file files.log)) }
    ensures db { IfOk result (λ files. IsTrue (file_is_usable S.Start (bare_file files.db))
        × IsNewFile false (bare_file files.db)) }
    ensures unopened { IfErr result IsOfDatabase }
{
    if path == ":memory:" || path.starts_with("file:") {
        return Err(Unopened::Store);
    }
    let files = match sqlite_std_file::open(rt, path, start) {
        Ok(files) => files,
        Err(error) => return Err(of_pair(error)),
    };
    match (HostNames::of(rt, path), HostNames::of(rt, path)) {
        (Ok(of_log), Ok(of_db)) => Ok(Files {
            log: NamedFile::new(files.log, of_log),
            db: NamedFile::new(files.db, of_db),
        }),
        (Err(error), _) | (_, Err(error)) => Err(of_file(error)),
    }
}

/// The files of a database on the machine of the process. Nothing is written there once their names
/// lead elsewhere.
#[derive(Drop)]
pub struct HostFiles<'r, S> {
    rt: &'r HostRuntime,
    start: S,
}

impl<'r, S: Start> HostFiles<'r, S> {
    /// `start` stands for what the files hold, and says how a crash is read (`Unknown`: a torn write
    /// leaves each byte old or new; `Wary`: it may leave anything).
    pub fn new(rt: &'r HostRuntime, start: S) -> HostFiles<'r, S> {
        HostFiles { rt, start }
    }
}

impl<'r, S: Start> DatabaseFiles for HostFiles<'r, S> {
    ghost use Rattle.sqlite_wal.specs.Files.{image_at};

    type File = HostFile<'r, S>;

    ghost image = { image_at S.Start };

    fn open(self, path: &str) -> Result<Files<HostFile<'r, S>>, Unopened> {
        let HostFiles { rt, start } = self;
        open_pair(rt, path, start)
    }
}

/// Opens the database at a path, or makes it.
pub fn open_database<P: DatabaseFiles>(
    rt: &HostRuntime,
    files: P,
    path: &str,
) -> Result<Connection<FileStore<P::File>>, Unopened>
    ensures opened { IfOk result (OpensFiles P.image) }
    ensures unopened { IfErr result IsOfDatabase }
{
    let Ok(state) = RandomState::new(rt) else {
        return Err(Unopened::Store);
    };
    let options = Options::new(state.hash_one(&0u8));
    let files = match files.open(path) {
        Ok(files) => files,
        Err(why) => return Err(why),
    };
    // It gets no clock: a registry has none.
    match Connection::open_files_with(rt.alloc(), files, options, false) {
        Ok(conn) => Ok(conn),
        Err((error, left)) => Err(of_database(error, left)),
    }
}
