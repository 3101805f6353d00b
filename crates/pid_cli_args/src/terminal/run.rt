//! A run of the program, with a person at the terminal.

use crate::fault_lines::{
    JOURNAL_ANOTHER, JOURNAL_FAILED, JOURNAL_MISSING, OPEN_DAMAGED, OPEN_STORE, SOCKET_FAILED,
};
use crate::job::{ImportArgs, Job};
use crate::terminal::files::{OPEN, explain_looks, explain_size, explain_unread, look_at};
use crate::terminal::lines::{Lines, ScriptInput, script_input};
use crate::terminal::prefix::Prefix;
use crate::terminal::reasons::{explain_port, reason_of_folder, reason_of_store};
use crate::terminal::say;
use crate::terminal::seen::{Looks, Seen};
use crate::terminal::values::{explain_lookup, explain_sender};
use pid_cli_help::{Met, Noted, explain_streams, is_for_a_person, report_input};
use std::cell::Cell;
use std::io::{ErrorKind, Stderr, Stdin, Stdout};

/// A run, and what is said of it at a terminal. Where standard error is no terminal, only a registry
/// that an `export` made is spoken of.
#[derive(Drop)]
pub struct Run<'r> {
    rt: &'r HostRuntime,
    job: Job<'r>,
    files: Files<'r>,
    is_at_terminal: bool,
    // How what was reported begins.
    reported: Cell<Prefix>,
    lines: Lines,
    // Whether to say that the file of the registry was made, once it is there.
    is_awaited: Cell<bool>,
}

impl<'r> Run<'r> {
    /// The run of a job. Says that it reads from the terminal, if it does.
    pub fn begin(rt: &'r HostRuntime, job: Job<'r>) -> Run<'r> {
        let is_at_terminal = is_for_a_person(rt);
        if is_at_terminal {
            report_reading(rt, job);
        }
        let files = files_of(job);
        // An export may make a new registry.
        let is_spoken_of = is_at_terminal || matches!(job, Job::Export { .. });
        Run {
            rt,
            job,
            files,
            is_at_terminal,
            reported: Cell::new(Prefix::new()),
            lines: Lines::new(),
            is_awaited: Cell::new(is_spoken_of && is_missing(rt, files.registry)),
        }
    }

    /// Standard input. What it meets is noted.
    pub fn input<'s>(&'s self, met: &'s mut Met) -> Noted<'s, ScriptInput<'s, Stdin>> {
        let is_by_lines = self.is_at_terminal && matches!(self.job, Job::Script { .. });
        Noted::new(script_input(self.rt, is_by_lines, &self.lines), met)
    }

    /// Standard output. What it meets is noted.
    pub fn output<'s>(&'s self, met: &'s mut Met) -> Noted<'s, Seen<Stdout, Replies<'s>>> {
        let line = Prefix::new();
        Noted::new(
            Seen::new(self.rt.stdout(), Replies { line, run: self }),
            met,
        )
    }

    /// Standard error for the lines that programs read.
    pub fn faults(&self) -> Seen<Stderr, Faults<'_>> {
        Seen::new(self.rt.stderr(), Faults(&self.reported))
    }

    /// Explains the end of the run, by what standard input and standard output met.
    pub fn end(&self, status: u8, read: &Met, written: &Met) {
        let reported = self.reported.get();
        let fault = reported.as_str().split_inclusive('\n').next().unwrap_or("");
        if self.is_at_terminal {
            if matches!(self.job, Job::Tidy | Job::Check) {
                explain_streams(self.rt, status, read, written);
            } else {
                self.explain_fault(fault, read, written);
                self.explain_refusal();
            }
        }
        if !fault.as_bytes().starts_with(b"open: ") {
            // A journal that failed gave no commands.
            self.report_made(!fault.as_bytes().starts_with(b"journal: "));
        }
    }

    // Says once that the file of the registry was made, if it was.
    fn report_made(&self, is_by_journal: bool) {
        let path = self.files.registry;
        if !self.is_awaited.get() || is_missing(self.rt, path) {
            return;
        }
        self.is_awaited.set(false);
        match self.files.journal {
            Some(folder) if is_by_journal => say(self.rt, "", path, MADE_BY, folder),
            _ => say(self.rt, "", path, MADE, "a new, empty registry was made"),
        }
    }

    fn explain_fault(&self, fault: &str, read: &Met, written: &Met) {
        let (rt, registry) = (self.rt, self.files.registry);
        let journal = self.files.journal.unwrap_or("");
        match fault {
            OPEN_STORE => say(rt, OPEN, registry, ": ", reason_of_store(rt, registry)),
            OPEN_DAMAGED => say(rt, "", registry, " ", DAMAGED),
            JOURNAL_ANOTHER => say(rt, "", journal, " ", ANOTHER),
            JOURNAL_MISSING => say(rt, "", journal, " ", MISSING),
            JOURNAL_FAILED => say(rt, OPEN, journal, ": ", reason_of_folder(rt, journal)),
            _ => self.explain_stream(fault, read, written),
        }
    }

    fn explain_stream(&self, fault: &str, read: &Met, written: &Met) {
        let (rt, ids) = (self.rt, self.files.ids);
        match ids {
            _ if fault == SOCKET_FAILED => explain_port(rt, self.job),
            Some(ids) if fault.as_bytes().starts_with(b"line ") => explain_looks(rt, ids),
            _ if fault != "file: failed\n" => {}
            Some(ids) if written.fault.is_none() => explain_unread(rt, ids),
            _ => explain_streams(rt, 3, read, written),
        }
    }

    fn explain_refusal(&self) {
        let (rt, first) = (self.rt, self.lines.first.get());
        let Some(refusal) = first.as_str().strip_prefix("refused ") else {
            return;
        };
        match &self.job {
            Job::Script { .. } => self.lines.report_refused(rt, refusal),
            Job::Lookup(words) if refusal == "3 BadText" => explain_lookup(rt, words),
            Job::Import(words) => explain_import(rt, words, refusal),
            Job::Tidy | Job::Check | Job::Lookup(_) => {}
            Job::Export { .. } | Job::Serve(_) | Job::Migrate { .. } => {}
        }
    }
}

fn explain_import(rt: &HostRuntime, words: &ImportArgs<'_>, refusal: &str) {
    if refusal == "3 BadText" {
        explain_sender(rt, words);
        explain_size(rt, words.ids);
    } else if refusal.as_bytes().starts_with(b"14 FileFault line=1 ") {
        explain_looks(rt, words.ids);
    }
}

const MADE: &str = " was not there: ";

const MADE_BY: &str = " was not there: it was made, with the commands of ";

const DAMAGED: &str = "is damaged: see 'When something fails' in OPERATE.md";

const ANOTHER: &str = "is the journal of another registry: nothing was changed";

const MISSING: &str = "begins after the registry, or lacks a file in between";

// The file of the registry, which a job may make, or no text; the folder of its journal; the pci.ids
// file.
#[derive(Clone, Copy)]
struct Files<'r> {
    registry: &'r str,
    journal: Option<&'r str>,
    ids: Option<&'r str>,
}

fn files_of<'r>(job: Job<'r>) -> Files<'r> {
    let (registry, ids) = match job {
        Job::Tidy | Job::Check => ("", None),
        Job::Lookup(words) => ("", Some(words.ids)),
        Job::Script { db, .. } => (db.unwrap_or(""), None),
        Job::Import(words) => (words.db, Some(words.ids)),
        Job::Serve(words) => (words.db, None),
        Job::Export { db } | Job::Migrate { db } => (db, None),
    };
    Files {
        registry,
        journal: job.journal(),
        ids,
    }
}

fn report_reading(rt: &HostRuntime, job: Job<'_>) {
    match job {
        Job::Tidy | Job::Check => report_input(rt, "a pci.ids file"),
        Job::Script { .. } => report_input(rt, "commands"),
        Job::Lookup(_) | Job::Import(_) => {}
        Job::Export { .. } | Job::Serve(_) | Job::Migrate { .. } => {}
    }
}

// Whether there is nothing at a path, if one is named.
fn is_missing(rt: &HostRuntime, path: &str) -> bool {
    path != "" && matches!(look_at(rt, path), Err(ErrorKind::NotFound))
}

/// Notes how what is reported begins.
#[derive(Clone, Copy)]
pub struct Faults<'n>(&'n Cell<Prefix>);

impl Looks for Faults<'_> {
    fn look(&mut self, bytes: &[u8]) {
        let mut line = self.0.get();
        for byte in bytes {
            line.push(*byte);
        }
        self.0.set(line);
    }
}

/// Counts the replies that refuse a line, and says after the first write that a registry was made.
#[derive(Clone, Copy)]
pub struct Replies<'s> {
    line: Prefix,
    run: &'s Run<'s>,
}

impl Looks for Replies<'_> {
    fn look(&mut self, bytes: &[u8]) {
        if self.run.is_at_terminal {
            self.line = self.run.lines.count(self.line, bytes);
        }
        self.run.report_made(true);
    }
}
