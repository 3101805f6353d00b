//! What a person at a terminal reads below the lines that programs read.
use crate::met::Met;
use std::io::{ErrorKind, IsTerminal, Write};

/// Whether somebody reads standard error as it is written.
pub fn is_for_a_person(rt: &HostRuntime) -> bool {
    rt.stderr().is_terminal()
}

/// Writes the parts of a line to standard error, up to the first that fails. With `write!` the first
/// program would contain what formats text.
pub(crate) fn say(rt: &HostRuntime, parts: &[&str]) {
    for part in parts {
        if rt.stderr().write_all(part.as_bytes()).is_err() {
            return;
        }
    }
}

/// Says what is read from a terminal, and how to end it.
pub fn report_input(rt: &HostRuntime, what: &str) {
    if rt.stdin().is_terminal() {
        say(
            rt,
            &[
                "pciids: reading ",
                what,
                " from the terminal; end it with Ctrl-D, or see pciids --help\n",
            ],
        );
    }
}

/// Says which standard stream failed and why, if the exit status is 3; or what the input looks like
/// that was refused, if it is 1.
pub fn explain_streams(rt: &HostRuntime, status: u8, input: &Met, output: &Met) {
    match (status, input.fault, output.fault) {
        (1, _, _) => {
            if let Some(looks) = input.looks {
                explain(rt, "standard input", looks);
            }
        }
        (3, Some(fault), _) => explain(rt, "cannot read standard input:", reason_of(fault)),
        (3, None, Some(fault)) if fault != ErrorKind::BrokenPipe => {
            explain(rt, "cannot write standard output:", reason_of(fault));
        }
        _ => {}
    }
}

fn explain(rt: &HostRuntime, front: &str, why: &str) {
    say(rt, &["pciids: ", front, " ", why, "\n"]);
}

/// Why the system did not do what it was asked to.
pub fn reason_of(fault: ErrorKind) -> &'static str {
    match fault {
        ErrorKind::NotFound => "there is no such file or folder",
        ErrorKind::PermissionDenied => "permission denied",
        ErrorKind::IsADirectory => "it is a folder",
        ErrorKind::NotADirectory => "a part of the path is no folder",
        ErrorKind::FilesystemLoop => "too many symbolic links",
        ErrorKind::ReadOnlyFilesystem => "the file system is read-only",
        ErrorKind::StorageFull => "no space is left",
        ErrorKind::QuotaExceeded => "the quota is used up",
        ErrorKind::FileTooLarge => "the file would be too large",
        ErrorKind::InvalidFilename => "the name is too long",
        ErrorKind::AddrInUse => "another program has it",
        _ => "the system refused, maybe for a faulty disk",
    }
}
