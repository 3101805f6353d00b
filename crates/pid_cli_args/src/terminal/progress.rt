//! Progress of a long job, shown at a terminal.

use crate::terminal::prefix::Prefix;
use crate::terminal::seen::Looks;
use crate::terminal::write_parts;
use itoa::Buffer;
use memchr::memchr_iter;
use std::time::{Duration, Instant};

/// How long a job runs before its progress is shown, in milliseconds.
const PATIENCE: u64 = 1_000;

/// The shortest time between two updates, in milliseconds.
const PAUSE: u64 = 100;

/// Overwrites the longest progress line with spaces.
const CLEARED: &str = "\r                                        \r";

/// The number of lines that a job has read or written: one line on standard error, updated in
/// place, once the job has taken a second. It is erased when this is dropped. No promise covers what
/// is shown there.
pub struct Progress<'r> {
    rt: &'r HostRuntime,
    job: &'r str,
    lines: u64,
    // When to show it next; `None` if it is not shown.
    due: Option<Instant>,
    is_shown: bool,
}

impl<'r> Progress<'r> {
    /// The progress of a job that starts now, such as `importing`.
    pub fn new(rt: &'r HostRuntime, job: &'r str, is_at_terminal: bool) -> Progress<'r> {
        Progress {
            rt,
            job,
            lines: 0,
            due: if is_at_terminal {
                instant_after(rt, PATIENCE)
            } else {
                None
            },
            is_shown: false,
        }
    }

    /// Erases the line, so that other text can take its place.
    pub fn clear(&mut self) {
        if self.is_shown {
            write_parts(self.rt, &[CLEARED]);
            self.is_shown = false;
        }
    }

    /// Counts a line.
    pub fn count_line(&mut self) {
        self.count(1);
    }

    // Counts lines, and shows how many they are if it is time.
    fn count(&mut self, lines: usize) {
        let Some(due) = self.due else {
            return;
        };
        self.lines = self.lines.saturating_add(lines as u64);
        if let Ok(now) = Instant::now(self.rt) {
            if now >= due {
                let lines = grouped(self.lines);
                write_parts(self.rt, &["\r", self.job, ": ", lines.as_str(), " lines"]);
                self.is_shown = true;
                self.due = instant_after(self.rt, PAUSE);
            }
        }
    }
}

impl Drop for Progress<'_> {
    fn drop(mut self) {
        self.clear();
        let Progress {
            rt: _,
            job: _,
            lines: _,
            due: _,
            is_shown: _,
        } = self;
    }
}

// The moment so many milliseconds from now; `None` if the clock fails.
fn instant_after(rt: &HostRuntime, millis: u64) -> Option<Instant> {
    let now = Instant::now(rt).ok()?;
    now.checked_add(Duration::from_millis(millis))
}

// A number, with its digits in groups of three.
fn grouped(number: u64) -> Prefix {
    let mut line = Prefix::new();
    let mut digits = Buffer::new();
    let digits = digits.format(number).as_bytes();
    let mut left = digits.len();
    for digit in digits {
        if left % 3 == 0 && left < digits.len() {
            line.push(b',');
        }
        line.push(*digit);
        left = left.saturating_sub(1);
    }
    line
}

/// Counts the lines that pass.
#[derive(Drop)]
pub struct Counted<'p, 'r>(pub &'p mut Progress<'r>);

impl Looks for Counted<'_, '_> {
    fn look(&mut self, bytes: &[u8]) {
        self.0.count(memchr_iter(b'\n', bytes).count());
    }
}
