//! What the process prints if the arguments name no job.
ghost use Rattle.std.specs.Prelude.{◌≡◌, ◌≢◌};
ghost use Rattle.clap.specs.Words.{kind_of};
ghost use Rattle.clap.specs.declared.error.kind.ErrorKind.TheVariants.{DisplayHelp, DisplayVersion};
ghost use Rattle.clap.specs.declared.error.kind.ErrorKind.TheVariants.{OutOfMemory};

use crate::command_table::COMMANDS;
use clap::Error;
use clap::error::ErrorKind;
use pid_file::{NO_JOB, Plain, TextEnd, report_failed, report_text_end};
use std::io;
use std::io::Write;

/// Prints why the arguments name no job, and returns the exit status: help and the version, if
/// asked for, on `output`, and anything else on `faults`.
pub fn report_no_job<O: Write, F: Write>(
    error: &Error,
    words: &[String],
    output: &mut O,
    faults: &mut F,
) -> u8
    ensures memory { kind_of error.now ≡ OutOfMemory → result ≡ 3 }
    ensures words { kind_of error.now ≢ OutOfMemory → kind_of error.now ≢ DisplayHelp
        → kind_of error.now ≢ DisplayVersion → result ≡ 2 }
{
    if matches!(error.kind(), ErrorKind::OutOfMemory) {
        return report_text_end(TextEnd::Memory, &mut Plain::new(faults));
    }
    if error.use_stderr() {
        let written = write!(faults, "{error}");
        if let (Ok(()), Some(usage)) = (written, usage_meant(words)) {
            let _ = write!(faults, "To read a file, redirect standard input: {usage}\n");
        }
        return NO_JOB;
    }
    match write!(output, "{error}") {
        Ok(()) => 0,
        Err(fault) => {
            let is_unread = fault.kind() == io::ErrorKind::BrokenPipe;
            report_failed(is_unread, &mut Plain::new(faults))
        }
    }
}

// What to type instead. A common mistake is the name of a file as an argument. None where a command
// reads no file from standard input, and after an unknown option.
fn usage_meant(words: &[String]) -> Option<&'static str> {
    let word = match words.get(1) {
        Some(word) => word.as_str(),
        None => "",
    };
    match COMMANDS.iter().find(|row| row.0 == word) {
        Some(row) => row.1,
        None if word.starts_with('-') => None,
        None => Some("pciids < FILE"),
    }
}
