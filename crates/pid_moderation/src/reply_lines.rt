//! The lines that answer commands.
ghost use Rattle.std.specs.Prelude.{
  ◌≡◌,
  ◌++◌,
  Some,
  IfOk,
  IfErr,
  IfSome,
  IsNone,
  length,
  string_bytes,
};
ghost use Rattle.pid_file.specs.Sending.{Sends};
ghost use Rattle.pid_moderation.specs.ReplyLines.{accepted_line, refused_line, outcome_line};

use crate::command::Reply;
use crate::refusal::{FileFault, Refusal};
use itoa::Buffer;
use pid_ident::{Output, WriteFault, write_all, write_parts};
use std::alloc::{AllocError, Global};

// How much an import found.
fn write_counts<W: Output>(
    out: &mut W,
    added: u32,
    renamed: u32,
    same: u32,
) -> Result<(), WriteFault>
    ensures sent { Sends result (W.taken out.old) (W.taken out.new)
        (accepted_line (Reply.Counts added renamed same)) }
    ensures fault { IfErr result (λ f. W.write_fault out.new ≡ Some f) }
{
    let mut first = Buffer::new();
    let mut second = Buffer::new();
    let mut third = Buffer::new();
    let added = first.format(added).as_bytes();
    let renamed = second.format(renamed).as_bytes();
    let same = third.format(same).as_bytes();
    write_parts(
        out,
        &[
            b"ok added=",
            added,
            b" renamed=",
            renamed,
            b" same=",
            same,
            b"\n",
        ],
    )
}

// A refusal by a fault of the file, with that fault.
fn write_file_fault<W: Output>(out: &mut W, fault: FileFault) -> Result<(), WriteFault>
    ensures sent { Sends result (W.taken out.old) (W.taken out.new)
        (refused_line (Refusal.FileFault fault)) }
    ensures fault { IfErr result (λ f. W.write_fault out.new ≡ Some f) }
{
    let refusal = Refusal::FileFault(fault);
    let mut digits = Buffer::new();
    let mut place = Buffer::new();
    let mut kind_digits = Buffer::new();
    let number = digits.format(refusal.number()).as_bytes();
    let word = refusal.word().as_bytes();
    match fault {
        FileFault::Line { line, kind } => {
            let line = place.format(line).as_bytes();
            let kind_number = kind_digits.format(kind.number()).as_bytes();
            let kind_word = kind.word().as_bytes();
            write_parts(
                out,
                &[
                    b"refused ",
                    number,
                    b" ",
                    word,
                    b" line=",
                    line,
                    b" kind=",
                    kind_number,
                    b" ",
                    kind_word,
                    b"\n",
                ],
            )
        }
        FileFault::TooMany => write_parts(
            out,
            &[b"refused ", number, b" ", word, b" too many entries\n"],
        ),
    }
}

/// Writes the line that answers a command, with the line feed at its end; at a fault a prefix of
/// it. It takes no memory, so that no answer is lost when memory runs out.
pub fn write_reply_line<W: Output>(
    out: &mut W,
    outcome: Result<Reply, Refusal>,
) -> Result<(), WriteFault>
    ensures sent { Sends result (W.taken out.old) (W.taken out.new) (outcome_line outcome) }
    ensures fault { IfErr result (λ f. W.write_fault out.new ≡ Some f) }
{
    let mut digits = Buffer::new();
    match outcome {
        Ok(Reply::Done) => write_all(out, b"ok\n"),
        Ok(Reply::Numbered(number)) => {
            write_parts(out, &[b"ok ", digits.format(number).as_bytes(), b"\n"])
        }
        Ok(
            Reply::Counts {
                added,
                renamed,
                same,
            },
        ) => write_counts(out, added, renamed, same),
        Err(Refusal::FileFault(fault)) => write_file_fault(out, fault),
        Err(refusal) => {
            let number = digits.format(refusal.number()).as_bytes();
            let word = refusal.word().as_bytes();
            write_parts(out, &[b"refused ", number, b" ", word, b"\n"])
        }
    }
}

// A text that grows as it is written to. Its fault is that memory was refused, or bytes were no
// text.
#[derive(Drop)]
struct Written {
    text: String,
    fault: Option<WriteFault>,
}

impl Output for Written {
    ghost use Rattle.std.specs.Prelude.{Some, string_bytes};

    ghost taken = { λ written. Some (string_bytes written.text) };

    ghost write_fault = { λ written. written.fault };

    fn write(&mut self, bytes: &[u8]) -> Result<usize, WriteFault> {
        if let Some(fault) = self.fault {
            return Err(fault);
        }
        if let Ok(text) = str::from_utf8(bytes) {
            if self.text.push_str(text).is_ok() {
                return Ok(bytes.len());
            }
        }
        self.fault = Some(WriteFault::Device);
        Err(WriteFault::Device)
    }
}

/// The line that answers a command, with the line feed at its end.
pub fn reply_line(alloc: Global, outcome: Result<Reply, Refusal>) -> Result<String, AllocError>
    ensures { IfOk result (λ line. string_bytes line ≡ outcome_line outcome) }
{
    let mut line = Written {
        text: String::new(alloc),
        fault: None,
    };
    match write_reply_line(&mut line, outcome) {
        Ok(()) => Ok(line.text),
        Err(_) => Err(AllocError),
    }
}
