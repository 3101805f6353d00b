//! How the reading of a text ends.
ghost use Rattle.std.specs.Prelude.{◌≡◌};
ghost use Rattle.pid_file.specs.LineKinds.{number_of, word_of};
ghost use Rattle.pid_file.specs.TextEnds.{fault_line, line_report, status_of};
ghost use Rattle.pid_file.specs.Writing.{Writes};
ghost use Rattle.pid_file.specs.Steps.TextEnds.{end_of as end_made};

use crate::fault_kind::LineKind;
use crate::io::{Output, WriteFault};
use crate::refusal::ReadRefusal;
use crate::writing::{write_all, write_parts};
use itoa::Buffer;

/// The longest text that is read, in bytes.
pub const LARGEST: usize = 4_194_304;

/// How the reading of a text ends.
#[derive(Clone, Copy)]
pub enum TextEnd {
    /// The whole text was read, and the result was written.
    Done,
    /// The first faulty line, counted from 1.
    Line { line: usize, kind: LineKind },
    /// More than 100,000 entries.
    TooManyEntries,
    /// More than `LARGEST` bytes.
    TooLarge,
    /// Out of memory.
    Memory,
    /// The reader failed.
    ReadFault,
    /// A writer failed, or took no byte.
    WriteFault,
}

/// The end for a refusal.
pub fn end_of(refusal: ReadRefusal) -> TextEnd
    ensures { result ≡ end_made refusal }
{
    match refusal {
        ReadRefusal::Line { line, kind } => TextEnd::Line { line, kind },
        ReadRefusal::TooManyEntries => TextEnd::TooManyEntries,
        ReadRefusal::Memory => TextEnd::Memory,
    }
}

impl TextEnd {
    /// The exit status of a process that ends this way: 0 on success, 1 if the text was refused, 3
    /// if memory, a reader or a writer failed.
    pub fn status(self) -> u8
        ensures { result ≡ status_of self }
    {
        match self {
            TextEnd::Done => 0,
            TextEnd::Line { .. } | TextEnd::TooManyEntries | TextEnd::TooLarge => 1,
            TextEnd::Memory | TextEnd::ReadFault | TextEnd::WriteFault => 3,
        }
    }

    /// Writes the line that reports a fault of the text, or `no memory`. Allocates nothing.
    pub fn report_to<W: Output>(self, out: &mut W) -> Result<(), WriteFault>
        ensures { Writes W.Output result out.old out.new (fault_line self) }
    {
        match self {
            TextEnd::Line { line, kind } => report_line(line, kind, out),
            TextEnd::TooManyEntries => write_all(out, b"too many entries\n"),
            TextEnd::TooLarge => write_all(out, b"too large\n"),
            TextEnd::Memory => write_all(out, b"no memory\n"),
            TextEnd::Done | TextEnd::ReadFault | TextEnd::WriteFault => write_all(out, b""),
        }
    }
}

fn report_line<W: Output>(line: usize, kind: LineKind, out: &mut W) -> Result<(), WriteFault>
    ensures { Writes W.Output result out.old out.new
        (line_report line (number_of kind) (word_of kind)) }
{
    let mut line_digits = Buffer::new();
    let mut kind_digits = Buffer::new();
    let line = line_digits.format(line).as_bytes();
    let number = kind_digits.format(kind.number()).as_bytes();
    let word = kind.word().as_bytes();
    write_parts(out, &[b"line ", line, b": ", number, b" ", word, b"\n"])
}
