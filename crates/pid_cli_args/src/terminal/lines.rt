//! The lines of a script: which one is being answered, and which were refused.
ghost use Rattle.std.specs.Io.{ReadsAtMost};
ghost use Rattle.std.specs.Prelude.{◌≤◌};

use crate::terminal::prefix::Prefix;
use crate::terminal::{say, write_parts};
use itoa::Buffer;
use memchr::memchr;
use std::cell::Cell;
use std::io;
use std::io::{BufRead, BufReader, Read, Stdin};

/// The room for what is read of a script at once, in bytes.
const BUFFER: usize = 65_536;

/// The number of lines that are read one by one. A script may use twice as many reads.
const MOST: u64 = 5_000_000;

/// What is known of the lines of a script.
#[derive(Drop)]
pub struct Lines {
    // The number of the line that was read last, or of the first that was refused; `MOST` if lines
    // are not read one by one.
    number: Cell<u64>,
    refused: Cell<u64>,
    /// How the first reply begins that refuses a line.
    pub first: Cell<Prefix>,
}

impl Lines {
    /// No line was read yet.
    pub fn new() -> Lines {
        Lines {
            number: Cell::new(0),
            refused: Cell::new(0),
            first: Cell::new(Prefix::new()),
        }
    }

    /// Counts the replies that end in these bytes and refuse a line, the first of which began with
    /// what is kept of it. Returns what is kept of the one after them.
    ///
    /// A line that begins with `refused ` is such a reply, also between the lines of an `export`:
    /// those begin with a hex digit, a tab, a `C`, an `S` or a `#`.
    pub fn count(&self, line: Prefix, bytes: &[u8]) -> Prefix {
        let mut line = line;
        for byte in bytes {
            if *byte != b'\n' {
                line.push(*byte);
                continue;
            }
            if line.as_bytes().starts_with(b"refused ") {
                if self.refused.get() == 0 {
                    self.first.set(line);
                }
                self.refused.set(self.refused.get().saturating_add(1));
            }
            line = Prefix::new();
        }
        line
    }

    /// Says how many lines were refused, and which was the first one and why.
    pub fn report_refused(&self, rt: &HostRuntime, why: &str) {
        let (mut of_count, mut of_number) = (Buffer::new(), Buffer::new());
        let count = of_count.format(self.refused.get());
        let number = of_number.format(self.number.get());
        match (self.refused.get(), self.number.get()) {
            (_, 0 | MOST..) => say(rt, "lines refused: ", count, ", the first one: ", why),
            (1, _) => say(rt, "line ", number, " was refused: ", why),
            _ => say_many(rt, count, number, why),
        }
    }
}

fn say_many(rt: &HostRuntime, count: &str, number: &str, why: &str) {
    let between = " lines were refused, the first is line ";
    write_parts(rt, &["pciids: ", count, between, number, ": ", why, "\n"]);
}

/// A reader of what the inner one reads, at most a line at a time: so a script has answered all
/// lines but the one that it was given last. Once a line was refused, and if lines are not read one
/// by one, it reads as the inner one does.
#[derive(Drop)]
pub struct ScriptInput<'l, R> {
    inner: BufReader<R>,
    is_in_line: bool,
    lines: &'l Lines,
}

/// Standard input, by lines or as it is, and where its lines are counted.
pub fn script_input<'l>(
    rt: &HostRuntime,
    is_by_lines: bool,
    lines: &'l Lines,
) -> ScriptInput<'l, Stdin> {
    let room = if is_by_lines { BUFFER } else { 0 };
    let inner = match BufReader::with_capacity(rt.alloc(), room, rt.stdin()) {
        Ok(input) => input,
        Err(_) => BufReader::with_capacity(rt.alloc(), 0, rt.stdin()).unwrap(),
    };
    if inner.capacity() == 0 {
        lines.number.set(MOST);
    }
    ScriptInput {
        inner,
        is_in_line: false,
        lines,
    }
}

impl<R: Read> Read for ScriptInput<'_, R> {
    fn read(&mut self, buffer: &mut [u8]) -> io::Result<usize> {
        if self.lines.refused.get() > 0 || self.lines.number.get() >= MOST {
            return self.inner.read(buffer);
        }
        self.read_line(buffer)
    }
}

impl<R: Read> ScriptInput<'_, R> {
    fn read_line(&mut self, buffer: &mut [u8]) -> io::Result<usize>
        ensures { ReadsAtMost result buffer.new }
    {
        let (length, is_ended) = begin_of_line(self.inner.fill_buf()?, buffer.len());
        if length == 0 {
            return Ok(0);
        }
        if !self.is_in_line {
            let number = &self.lines.number;
            number.set(number.get().saturating_add(1));
        }
        self.is_in_line = !is_ended;
        self.inner.read(&mut buffer[..length])
    }
}

// How many bytes of the first line there are, of so many at the most, and whether its LF is one.
fn begin_of_line(bytes: &[u8], most: usize) -> (usize, bool)
    ensures { result.0 ≤ most }
{
    match memchr(b'\n', bytes) {
        Some(end) if end < most => (end + 1, true),
        _ => (bytes.len().min(most), false),
    }
}
