//! Why a registry, the folder of a journal or a port could not be had. Each is tried again.

use crate::job::Job;
use crate::terminal::files::{Found, look_at, prefix_of};
use crate::terminal::say;
use itoa::Buffer;
use pid_cli_help::reason_of;
use sqlite_disk::Unknown;
use sqlite_std_file::{OpenError, open};
use std::fs::File;
use std::io::ErrorKind;
use std::net::{IpAddr, Ipv4Addr, SocketAddr, TcpListener};

/// How each SQLite database begins.
const DATABASE: &[u8] = b"SQLite format 3\0";

/// Why the file of a registry could not be opened.
pub fn reason_of_store(rt: &HostRuntime, path: &str) -> &'static str {
    match look_at(rt, path) {
        Ok(Found::Folder) => reason_of(ErrorKind::IsADirectory),
        Ok(Found::File(_) | Found::Other) | Err(_) => reason_of_file(rt, path),
    }
}

fn reason_of_file(rt: &HostRuntime, path: &str) -> &'static str {
    match open(rt, path, Unknown) {
        Ok(_) => reason_of_contents(rt, path),
        Err(OpenError::Busy) => "another program has it open; fuser -v FILE shows which",
        Err(OpenError::HotJournal) => "it has a rollback journal: open it with sqlite3 first",
        Err(OpenError::OutOfMemory) => "out of memory",
        Err(OpenError::Io(error)) => match error.kind() {
            ErrorKind::NotFound => "there is no such folder",
            ErrorKind::Unsupported => "it or its -wal is a link or a device, or has a second name",
            kind => reason_of(kind),
        },
    }
}

// Why a file is no registry that can be opened and locked.
fn reason_of_contents(rt: &HostRuntime, path: &str) -> &'static str {
    match prefix_of(rt, path) {
        Err((_, fault)) => reason_of(fault),
        Ok(prefix) if prefix.as_bytes().starts_with(DATABASE) => {
            "SQLite finds a fault in it, or it has what STORAGE.md does not allow"
        }
        Ok(_) => "it is no SQLite database",
    }
}

/// Why the folder of a journal could not be opened.
pub fn reason_of_folder(rt: &HostRuntime, path: &str) -> &'static str {
    match look_at(rt, path) {
        Ok(Found::Folder) => reason_within(rt, path),
        Ok(Found::File(_) | Found::Other) => "it is no folder",
        Err(ErrorKind::NotFound) => "there is no such folder",
        Err(fault) => reason_of(fault),
    }
}

fn reason_within(rt: &HostRuntime, path: &str) -> &'static str {
    let Ok(lock) = format!(in rt.alloc(); "{path}/lock") else {
        return "out of memory";
    };
    match File::open(rt, lock.as_str()) {
        Err(error) => reason_of(error.kind()),
        Ok(file) if file.try_lock().is_ok() => "a file in it could not be read or written",
        Ok(_) => "another program has it open; fuser -v FOLDER/lock shows which",
    }
}

/// Says why a port could not be listened on, of a job that does.
pub fn explain_port(rt: &HostRuntime, job: Job<'_>) {
    let Job::Serve(words) = job else {
        return;
    };
    let address = SocketAddr::new(IpAddr::V4(Ipv4Addr::new(127, 0, 0, 1)), words.port);
    let (front, reason) = match TcpListener::bind(rt, address) {
        Err(error) => ("cannot listen on port ", reason_of(error.kind())),
        Ok(_) => ("cannot go on with port ", "it failed, but is free now"),
    };
    say(rt, front, Buffer::new().format(words.port), ": ", reason);
}
