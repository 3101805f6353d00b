//! `tidy` and `check` on the streams of a process, and their exit statuses.
ghost use Rattle.std.specs.Prelude.{
  ◌≡◌,
  ◌≢◌,
  true,
  false,
  option_and_then,
  IfSome,
  IsSome,
};
ghost use Rattle.std.specs.Io.KnownBytes.{Keeps};
ghost use Rattle.pid_file.specs.ExitStatuses.{GotTidied, GotChecked};
ghost use Rattle.pid_file.specs.TextEnds.{fault_line, status_of};
ghost use Rattle.pid_file.specs.Steps.TextEnds.{failed_line};
ghost use Rattle.pid_file.specs.Writing.{TriesLine, use_of};

use crate::checking::check;
use crate::io::Output;
use crate::plain::Plain;
use crate::text_end::TextEnd;
use crate::tidying::tidy;
use crate::watched::Watched;
use crate::writing::write_all;
use std::alloc::Global;
use std::io::{BufWriter, Read, Write};

/// The exit status if the arguments name no job.
pub const NO_JOB: u8 = 2;

/// The exit status if memory, the store or a file failed.
pub const FAILED: u8 = 3;

const BUFFER: usize = 65_536;

/// Writes the canonical form of the input to `output`, or its fault line to `faults`. Returns the
/// exit status: 3 if memory, the reader, a writer or the flush of the output failed, whatever the
/// text; else 0 on success, and 1 if the text was refused. Hands back both writers, but not the
/// output if there was no memory for its buffer.
///
/// Reports a file that failed as `file: failed`, unless the reader of the output has gone away.
pub fn run_tidy<I: Read + Drop, O: Write + Drop, F: Write + Drop>(
    alloc: Global,
    input: I,
    output: O,
    faults: F,
) -> (u8, Option<O>, F)
    ensures wrote { IfSome (I.remaining input) (λ text. GotTidied text result.0 (record {
      output = O.contents output;
      output_after = option_and_then O.contents result.1;
      faults = F.contents faults;
      faults_after = F.contents result.2;
    })) }
    ensures handed_back { result.0 ≢ FAILED → IsSome result.1 }
{
    let mut faults = Plain::new(faults);
    let Ok(buffer) = BufWriter::with_capacity(alloc, BUFFER, Watched::new(output)) else {
        let status = report_text_end(TextEnd::Memory, &mut faults);
        return (status, None, faults.into_inner());
    };
    let mut input = Plain::new(input);
    let mut output = Plain::new(buffer);
    let end = tidy(alloc, &mut input, &mut output, &mut faults);
    let mut buffer = output.into_inner();
    let end = match buffer.flush() {
        Ok(()) => end,
        Err(_) => TextEnd::WriteFault,
    };
    let (watched, _) = buffer.into_parts();
    let status = status(end, watched.is_unread(), &mut faults);
    let output = watched.into_inner();
    let faults = faults.into_inner();
    (status, Some(output), faults)
}

/// Writes the number of entries in the input, or its fault line, to `output`. Returns the exit
/// status as `run_tidy` does, and both writers.
///
/// Reports a file that failed as `file: failed` on `faults`, unless the reader of the output has
/// gone away.
pub fn run_check<I: Read + Drop, O: Write + Drop, F: Write + Drop>(
    alloc: Global,
    input: I,
    output: O,
    faults: F,
) -> (u8, O, F)
    ensures { IfSome (I.remaining input) (λ text. GotChecked text result.0 (record {
      output = O.contents output;
      output_after = O.contents result.1;
      faults = F.contents faults;
      faults_after = F.contents result.2;
    })) }
{
    let mut input = Plain::new(input);
    let mut output = Plain::new(Watched::new(output));
    let mut faults = Plain::new(faults);
    let end = check(alloc, &mut input, &mut output);
    let watched = output.into_inner();
    let status = status(end, watched.is_unread(), &mut faults);
    let output = watched.into_inner();
    let faults = faults.into_inner();
    (status, output, faults)
}

// The exit status of an end. Reports a file that failed; anything else was reported before.
fn status<F: Output>(end: TextEnd, is_unread: bool, faults: &mut F) -> u8
    ensures status { result ≡ status_of end }
    ensures silent { status_of end ≢ FAILED → F.taken faults.new ≡ F.taken faults.old }
{
    match end {
        TextEnd::ReadFault | TextEnd::WriteFault => report_failed(is_unread, faults),
        _ => end.status(),
    }
}

/// Reports a fault of a text, or that memory ran out, and returns the exit status.
pub fn report_text_end<F: Output>(end: TextEnd, faults: &mut F) -> u8
    ensures status { result ≡ status_of end }
    ensures told { TriesLine (use_of F.Output faults.old faults.new) (fault_line end) }
{
    let _ = end.report_to(faults);
    end.status()
}

/// Reports that a file failed, as `file: failed`. If the reader of the output has gone away, only
/// the exit status says so.
pub fn report_failed<F: Output>(is_unread: bool, faults: &mut F) -> u8
    ensures status { result ≡ FAILED }
    ensures told { is_unread ≡ false
        → TriesLine (use_of F.Output faults.old faults.new) failed_line }
    ensures silent { is_unread ≡ true → Keeps (F.taken faults.old) (F.taken faults.new) }
{
    if !is_unread {
        let _ = write_all(faults, b"file: failed\n");
    }
    FAILED
}
