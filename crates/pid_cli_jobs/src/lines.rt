//! The lines that jobs print.
ghost use Rattle.std.specs.Prelude.{◌≡◌, Some, IfErr};
ghost use Rattle.pid_file.specs.Sending.{Sends};
ghost use Rattle.pid_file.specs.Writing.{use_of};
ghost use Rattle.pid_moderation.specs.ReplyLines.{outcome_line};
ghost use Rattle.pid_cli_jobs.specs.Lines.{
  PrintsAnswer,
  PrintsLine,
  count_line,
  reply_status,
  streams_used,
};

use crate::job_end::{JobEnd, print_line, report_memory};
use itoa::Buffer;
use pid_file::FAILED;
use pid_ident::{Output, WriteFault, write_parts};
use pid_lookup::{Answer, LookupRefusal, Unanswered};
use pid_moderation::{Refusal, Reply, write_reply_line};
use std::alloc::AllocError;

/// The exit status if a command or a lookup is refused.
const REFUSED: u8 = 1;

fn status_of(reply: Result<Reply, Refusal>) -> u8
    ensures { result ≡ reply_status reply }
{
    match reply {
        Ok(_) => 0,
        Err(Refusal::Memory | Refusal::Store | Refusal::Failed) => FAILED,
        Err(_) => REFUSED,
    }
}

/// Prints the reply to a command, for which no memory is taken. The exit status is 0 if it was
/// accepted, 3 if memory or the store failed, else 1.
pub fn print_reply<O: Output>(reply: Result<Reply, Refusal>, output: &mut O) -> JobEnd
    ensures { PrintsLine result (use_of O.Output output.old output.new) (outcome_line reply)
        (reply_status reply) }
{
    match write_reply_line(output, reply) {
        Ok(()) => JobEnd::Exited(status_of(reply)),
        Err(_) => JobEnd::FileFailed,
    }
}

/// Prints the answer to a lookup, as a script does. The exit status is 0 for a text, else 1; out of
/// memory is reported to `faults`, with status 3.
pub fn print_answer<O: Output, F: Output>(
    found: Result<Answer, LookupRefusal<AllocError>>,
    output: &mut O,
    faults: &mut F,
) -> JobEnd
    ensures { PrintsAnswer found
        (streams_used O.Output F.Output output.old output.new faults.old faults.new) result }
{
    match found {
        Ok(Answer::Text(text)) => {
            match write_parts(output, &[b"text ", text.as_bytes(), b"\n"]) {
                Ok(()) => JobEnd::Exited(0),
                Err(_) => JobEnd::FileFailed,
            }
        }
        Ok(Answer::NoAnswer) => print_line(Unanswered::NoAnswer.line().as_bytes(), REFUSED, output),
        Err(LookupRefusal::BadFlags) => {
            print_line(Unanswered::BadFlags.line().as_bytes(), REFUSED, output)
        }
        Err(LookupRefusal::Memory | LookupRefusal::Names(_)) => report_memory(faults),
    }
}

/// Prints a word and a count, as a line.
pub fn write_count<O: Output>(word: &str, count: u64, output: &mut O) -> Result<(), WriteFault>
    ensures sent { Sends result (O.taken output.old) (O.taken output.new)
        (count_line word.now count) }
    ensures fault { IfErr result (λ f. O.write_fault output.new ≡ Some f) }
{
    let mut digits = Buffer::new();
    let count = digits.format(count).as_bytes();
    write_parts(output, &[word.as_bytes(), count, b"\n"])
}
