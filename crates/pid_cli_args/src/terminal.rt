//! What the whole program says at a terminal beyond the lines that programs read: a `Run` is
//! around a job, looks on, and explains its end.
//!
//! What is here is outside of what is proved of jobs: it only adds lines for a person to standard
//! error.

mod files;
mod lines;
mod prefix;
mod progress;
mod reasons;
mod run;
mod seen;
mod values;

pub use lines::ScriptInput;
pub use progress::{Counted, Progress};
pub use run::{Faults, Replies, Run};
pub use seen::{Looks, Seen};
use std::io::Write;

// Says what a file is or does, or after a front such as `cannot open `, why not.
fn say(rt: &HostRuntime, front: &str, path: &str, between: &str, what: &str) {
    write_parts(rt, &["pciids: ", front, path, between, what, "\n"]);
}

// Writes the parts of a line to standard error, up to the first that fails.
fn write_parts(rt: &HostRuntime, parts: &[&str]) {
    for part in parts {
        if rt.stderr().write_all(part.as_bytes()).is_err() {
            return;
        }
    }
}
