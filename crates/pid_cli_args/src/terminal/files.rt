//! Why a pci.ids file could not be read, or was refused.

use crate::terminal::prefix::Prefix;
use crate::terminal::say;
use pid_cli_help::{looks_of, reason_of};
use pid_file::LARGEST;
use std::fs;
use std::fs::File;
use std::io::ErrorKind;

/// Before a path, and why.
pub const OPEN: &str = "cannot open ";

const READ: &str = "cannot read ";

/// What there is at a path.
#[derive(Clone, Copy)]
pub enum Found {
    Folder,
    /// A regular file, with its length in bytes.
    File(u64),
    Other,
}

/// What there is at a path, or why that is not known.
pub fn look_at(rt: &HostRuntime, path: &str) -> Result<Found, ErrorKind> {
    match fs::metadata(rt, path) {
        Ok(found) if found.is_dir() => Ok(Found::Folder),
        Ok(found) if found.is_file() => Ok(Found::File(found.len())),
        Ok(_) => Ok(Found::Other),
        Err(error) => Err(error.kind()),
    }
}

/// How a regular file begins; or which step fails, and why. What is no regular file is not opened,
/// since that may wait.
pub fn prefix_of(rt: &HostRuntime, path: &str) -> Result<Prefix, (&'static str, ErrorKind)> {
    match look_at(rt, path) {
        Err(fault) => Err((OPEN, fault)),
        Ok(Found::Folder) => Err((READ, ErrorKind::IsADirectory)),
        Ok(Found::Other) => Err((READ, ErrorKind::Other)),
        Ok(Found::File(_)) => match File::open(rt, path) {
            Err(error) => Err((OPEN, error.kind())),
            Ok(mut file) => Prefix::read(&mut file).map_err(|error| (READ, error.kind())),
        },
    }
}

/// Says why a file could not be opened or read. It is looked at again.
pub fn explain_unread(rt: &HostRuntime, path: &str) {
    let (front, fault) = match prefix_of(rt, path) {
        Ok(_) => (READ, ErrorKind::Other),
        Err(fault) => fault,
    };
    say(rt, front, path, ": ", reason_of(fault));
}

/// Says what a file looks like whose lines were refused, if its first bytes say it.
pub fn explain_looks(rt: &HostRuntime, path: &str) {
    if let Ok(prefix) = prefix_of(rt, path) {
        if let Some(looks) = looks_of(prefix.as_bytes()) {
            say(rt, "", path, " ", looks);
        }
    }
}

/// Says whether a file is too large.
pub fn explain_size(rt: &HostRuntime, path: &str) {
    if let Ok(Found::File(length)) = look_at(rt, path)
        && length > LARGEST as u64
    {
        say(rt, "", path, " ", "is larger than 4,194,304 bytes");
    }
}
