//! How a job ends.
ghost use Rattle.std.specs.Prelude.{◌≡◌};
ghost use Rattle.pid_file.specs.TextEnds.{fault_line};
ghost use Rattle.pid_file.specs.Writing.{use_of};
ghost use Rattle.pid_cli_jobs.specs.Lines.{PrintsLine, Reports, ReportsLast, exit_status};

use pid_file::{FAILED, TextEnd, report_failed, report_text_end};
use pid_ident::{Output, write_all};
use pid_moderation::{Refusal, write_reply_line};

/// How a job ends.
#[derive(Clone, Copy)]
pub enum JobEnd {
    /// Everything is printed, and this is the exit status.
    Exited(u8),
    /// An export was refused, which is not reported yet.
    Refused(Refusal),
    /// A file failed, which is not reported yet.
    FileFailed,
}

/// Prints a line, and ends with the status if it goes out whole.
pub fn print_line<O: Output>(line: &[u8], status: u8, output: &mut O) -> JobEnd
    ensures { PrintsLine result (use_of O.Output output.old output.new) line.now status }
{
    match write_all(output, line) {
        Ok(()) => JobEnd::Exited(status),
        Err(_) => JobEnd::FileFailed,
    }
}

/// Reports that memory ran out.
pub fn report_memory<F: Output>(faults: &mut F) -> JobEnd
    ensures { Reports (fault_line TextEnd.Memory) (use_of F.Output faults.old faults.new) result }
{
    JobEnd::Exited(report_text_end(TextEnd::Memory, faults))
}

/// Reports what is still to be reported at an end, and returns the exit status. `is_unread` says
/// that the reader of the output has gone away.
pub fn report_end<F: Output>(end: JobEnd, is_unread: bool, faults: &mut F) -> u8
    ensures status { result ≡ exit_status end }
    ensures told { ReportsLast end is_unread (use_of F.Output faults.old faults.new) }
{
    match end {
        JobEnd::Exited(status) => status,
        JobEnd::Refused(refusal) => {
            let _ = write_reply_line(faults, Err(refusal));
            FAILED
        }
        JobEnd::FileFailed => report_failed(is_unread, faults),
    }
}
