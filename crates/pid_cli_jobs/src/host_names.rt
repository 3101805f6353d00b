//! The names of a database's two files.
use crate::named_file::FileNames;
use std::os::unix::fs::MetadataExt;
use std::path::PathBuf;
use std::{fs, io};

/// The name of an open file, and which file that was.
#[derive(Drop)]
struct Name {
    path: PathBuf,
    device: u64,
    number: u64,
    was_filled: bool,
}

impl Name {
    fn of(rt: &HostRuntime, path: PathBuf) -> io::Result<Name> {
        let found = fs::symlink_metadata(rt, path.as_str())?;
        Ok(Name {
            device: found.dev(),
            number: found.ino(),
            was_filled: found.len() > 0,
            path,
        })
    }

    // Whether the name still leads to the file, which was not emptied.
    fn is_kept(&mut self, rt: &HostRuntime) -> bool {
        match fs::symlink_metadata(rt, self.path.as_str()) {
            Ok(found) => {
                let is_emptied = self.was_filled && found.len() == 0;
                self.was_filled = self.was_filled || found.len() > 0;
                found.dev() == self.device && found.ino() == self.number && !is_emptied
            }
            Err(_) => false,
        }
    }
}

/// The names under which the machine of the process opened a database and its log.
#[derive(Drop)]
pub struct HostNames<'r> {
    rt: &'r HostRuntime,
    db: Name,
    log: Name,
}

impl<'r> HostNames<'r> {
    /// The names of the files at a path, which are there.
    pub fn of(rt: &'r HostRuntime, path: &str) -> io::Result<HostNames<'r>> {
        let db = fs::canonicalize(rt, path)?;
        let log = format!(in rt.alloc(); "{}-wal", db.as_str())?;
        Ok(HostNames {
            rt,
            db: Name::of(rt, db)?,
            log: Name::of(rt, PathBuf::from(log))?,
        })
    }
}

impl FileNames for HostNames<'_> {
    fn are_kept(&mut self) -> bool {
        self.db.is_kept(self.rt) && self.log.is_kept(self.rt)
    }
}
