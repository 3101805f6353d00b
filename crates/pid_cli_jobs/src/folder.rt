//! The folder of a journal on the machine of the process.
ghost use Rattle.std.specs.Prelude.{◌≡◌, ◌+◌, ◌≤◌, IfOk, MatchResult, length};

use crate::journals::ReportingFolder;
use crate::lock::{Lock, take_lock};
use crate::segment::HostSegment;
use pid_cli_args::terminal::Progress;
use pid_journal::JournalFolder;
use pid_moderation::Refusal;
use std::alloc::{AllocError, Global};
use std::fs::File;
use std::io::{ErrorKind, IsTerminal, Write};
use std::os::unix::fs::FileExt;
use std::{fs, io};

/// A folder that is locked. A segment is a file in it, whose name is the revision at which it begins,
/// in 20 digits, and `.script`. Other files are left alone.
#[derive(Drop)]
pub struct HostFolder<'r> {
    rt: &'r HostRuntime,
    path: String,
    // How many files of segments were handed out.
    opened: u64,
    progress: Progress<'r>,
    _lock: Lock,
}

fn refusal_of(error: io::Error) -> Refusal {
    match error.kind() {
        ErrorKind::OutOfMemory => Refusal::Memory,
        _ => Refusal::Store,
    }
}

// Syncs the names in a folder.
fn sync_names(rt: &HostRuntime, path: &str) -> io::Result<()> {
    File::open(rt, path)?.sync_all()
}

// Makes a folder, if there is none.
fn make_folder(rt: &HostRuntime, path: &str) -> io::Result<()> {
    match fs::create_dir(rt, path) {
        Ok(()) => {
            let above = format!(in rt.alloc(); "{path}/..")?;
            sync_names(rt, above.as_str())
        }
        Err(error) => match error.kind() {
            ErrorKind::AlreadyExists => Ok(()),
            _ => Err(error),
        },
    }
}

// The number of a segment, if this is the name of one.
fn number_of(name: &str) -> Option<u64> {
    let digits = name.strip_suffix(".script")?;
    if digits.len() != 20 || digits.starts_with('+') {
        return None;
    }
    digits.parse().ok()
}

// Adds the numbers of the segments in a folder, in no order.
fn push_numbers(rt: &HostRuntime, path: &str, numbers: &mut Vec<u64>) -> io::Result<()> {
    for entry in fs::read_dir(rt, path)? {
        if let Some(number) = number_of(entry?.file_name()) {
            numbers.push(number)?;
        }
    }
    Ok(())
}

impl<'r> HostFolder<'r> {
    /// Opens the folder at a path, or makes it. No other program has it open then. None if that fails.
    pub fn at(rt: &'r HostRuntime, path: &str) -> Option<HostFolder<'r>> {
        make_folder(rt, path).ok()?;
        Some(HostFolder {
            rt,
            path: String::from_str(rt.alloc(), path).ok()?,
            opened: 0,
            progress: Progress::new(rt, "replaying the journal", rt.stderr().is_terminal()),
            _lock: take_lock(rt, path)?,
        })
    }

    fn path_of(&self, begin: u64) -> Result<String, AllocError> {
        format!(in self.rt.alloc(); "{}/{begin:020}.script", self.path.as_str())
    }

    // Opens the file of a segment to write it, or makes a new one.
    fn open_file(&self, begin: u64, is_new: bool) -> io::Result<File> {
        let path = self.path_of(begin)?;
        File::options()
            .append(true)
            .create_new(is_new)
            .open(self.rt, path.as_str())
    }

    fn read_file(&self, begin: u64, after: u64, buffer: &mut [u8]) -> io::Result<usize>
        ensures { IfOk result (λ n. n ≤ length buffer.new) }
    {
        let path = self.path_of(begin)?;
        File::open(self.rt, path.as_str())?.read_at(buffer, after)
    }

    fn make_file(&self, begin: u64) -> io::Result<File> {
        let file = self.open_file(begin, true)?;
        file.sync_all()?;
        sync_names(self.rt, self.path.as_str())?;
        Ok(file)
    }

    fn cut_file(&self, begin: u64, count: u64) -> io::Result<()> {
        let file = self.open_file(begin, false)?;
        let length = file.metadata()?.len();
        file.set_len(length.saturating_sub(count))?;
        file.sync_all()
    }

    // Hands out the file of a segment.
    fn hand_out(&mut self, file: io::Result<File>) -> Result<HostSegment<'r>, Refusal>
        ensures { MatchResult result (λ _. self.new.opened ≡ self.old.opened + 1)
            (λ _. self.new.opened ≡ self.old.opened) }
    {
        let Some(opened) = self.opened.checked_add(1) else {
            return Err(Refusal::Store);
        };
        let file = match file {
            Ok(file) => file,
            Err(error) => return Err(refusal_of(error)),
        };
        let Some(segment) = HostSegment::of(self.rt, file) else {
            return Err(Refusal::Store);
        };
        self.opened = opened;
        Ok(segment)
    }
}

impl<'r> JournalFolder for HostFolder<'r> {
    ghost use Rattle.std.specs.Prelude.{[], None};

    type Segment = HostSegment<'r>;

    ghost names = { λ _. None };

    ghost text_in = { λ _ _. [] };

    ghost openings = { λ folder. folder.opened };

    fn begins(&mut self, alloc: Global) -> Result<Vec<u64>, Refusal> {
        let mut numbers = Vec::new(alloc);
        match push_numbers(self.rt, self.path.as_str(), &mut numbers) {
            Ok(()) => {
                numbers.sort_unstable();
                Ok(numbers)
            }
            Err(error) => Err(refusal_of(error)),
        }
    }

    // The file is opened for each read, which brings many lines.
    fn read(&mut self, begin: u64, after: u64, buffer: &mut [u8]) -> Result<usize, Refusal> {
        match self.read_file(begin, after, buffer) {
            Ok(count) => Ok(count),
            Err(error) => Err(refusal_of(error)),
        }
    }

    fn replayed(&mut self) {
        self.progress.count_line();
    }

    fn cut(&mut self, begin: u64, count: u64) -> Result<(), Refusal> {
        match self.cut_file(begin, count) {
            Ok(()) => Ok(()),
            Err(error) => Err(refusal_of(error)),
        }
    }

    fn segment(&mut self, begin: u64) -> Result<HostSegment<'r>, Refusal> {
        let file = self.open_file(begin, false);
        self.hand_out(file)
    }

    fn new_segment(&mut self, begin: u64) -> Result<HostSegment<'r>, Refusal> {
        let file = self.make_file(begin);
        self.hand_out(file)
    }
}

impl ReportingFolder for HostFolder<'_> {
    fn end_replay(&mut self) {
        self.progress.clear();
    }

    fn report_gap(&mut self) {
        let mut faults = self.rt.stderr();
        let _ = write!(faults, "journal: gap\n");
        if faults.is_terminal() {
            let path = self.path.as_str();
            let _ = write!(
                faults,
                "pciids: {path} lacks commands that the registry was given without it; a new \
                 segment begins\n"
            );
        }
    }
}
