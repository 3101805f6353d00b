//! The lock of a journal's folder.
use std::fs::File;

/// The file by which a program keeps others out of a folder.
#[derive(Drop)]
pub struct Lock {
    _file: File,
}

/// Locks the folder at a path, as long as the lock is kept. None if another program has it.
pub fn take_lock(rt: &HostRuntime, folder: &str) -> Option<Lock> {
    let path = format!(in rt.alloc(); "{folder}/lock").ok()?;
    let file = File::options()
        .write(true)
        .create(true)
        .open(rt, path.as_str())
        .ok()?;
    match file.try_lock() {
        Ok(()) => Some(Lock { _file: file }),
        Err(_) => None,
    }
}
