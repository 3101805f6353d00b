//! Scripts: lines of commands and questions, each with its reply.
ghost use Rattle.std.specs.Prelude.{
  ◌≡◌,
  ◌+◌,
  ◌*◌,
  ◌^◌,
  ◌-◌,
  ◌<◌,
  ◌≤◌,
  min,
  vec_capacity,
  ◌++◌,
  ℕ,
  [],
  length,
  IfErr,
  OnOk,
};
ghost use Rattle.pid_ident.specs.Moments.{AllSince};
ghost use Rattle.pid_reader.specs.Lines.{drop_cr};
ghost use Rattle.pid_script.specs.ScriptLines.{LONGEST, ask_of};
ghost use Rattle.pid_script.specs.Steps.Progress.{TakesEnd, TakesPiece, script_end};
ghost use Rattle.pid_script.specs.Calling.{CallsGo};
ghost use Rattle.pid_script.specs.Steps.Output.{LeavesAnswer, Unfit, out};
ghost use Rattle.pid_script.specs.Scripts.{
  passage,
  EndsWith,
  IsScript,
  IsUpToDate,
  OverText,
  reader_and_writer,
};

use crate::answering::answer_line;
use crate::line_end::LineEnd;
use crate::output::flush;
use crate::reply::{refuse_long, stop_for_memory};
use crate::script_end::ScriptEnd;
use crate::script_line::is_too_long;
use pid_ident::{Incoming, Output};
use pid_reader::{split_line, without_cr};
use pid_service_laws::RegistryCalls;
use std::alloc::Global;

/// The room of one read, in bytes.
pub const BUFFER: usize = 65_536;

// Keeps more bytes of the open line.
fn keep<O: Output>(
    output: &mut O,
    held: &mut Vec<u8>,
    kept: &mut Vec<u8>,
    piece: &[u8],
) -> Result<(), LineEnd>
    ensures kept { OnOk result (kept.new.items ≡ kept.old.items ++ piece.now) }
    // No more of a line is kept than the longest, a CR at its end not counted.
    ensures short { OnOk result (length (drop_cr kept.new.items) ≤ LONGEST) }
    ensures silent { OnOk result (output.new ≡ output.old) }
    ensures still { OnOk result (held.new.items ≡ held.old.items) }
    ensures unfit { IfErr result (λ e. Unfit e (kept.old.items ++ piece.now)
        (out O.Output output.old held.old.items) (out O.Output output.new held.new.items)) }
{
    if is_too_long(kept, piece) {
        return Err(refuse_long(output, held));
    }
    match kept.extend_from_slice(piece) {
        Ok(()) => Ok(()),
        Err(_) => Err(stop_for_memory(output, held)),
    }
}

// Answers the open line, which ends with these bytes.
fn end_line<R: RegistryCalls, O: Output>(
    alloc: Global,
    registry: &mut R,
    output: &mut O,
    held: &mut Vec<u8>,
    kept: &mut Vec<u8>,
    front: &[u8],
) -> Result<(), LineEnd>
    ensures empty { OnOk result (kept.new.items ≡ []) }
    // The memory of a line that was kept is let go before the next one.
    ensures let_go { OnOk result (0 < length kept.old.items → vec_capacity kept.new ≡ 0) }
    ensures answers { LeavesAnswer R.RegistryCalls result (ask_of
        (drop_cr (kept.old.items ++ front.now))) registry.old
        (out O.Output output.old held.old.items) registry.new
        (out O.Output output.new held.new.items) }
{
    if kept.is_empty() {
        return answer_line(alloc, registry, output, held, without_cr(front));
    }
    if let Err(end) = keep(output, held, kept, front) {
        return Err(end);
    }
    let answered = answer_line(alloc, registry, output, held, without_cr(kept));
    // The memory of the line is let go too.
    *kept = Vec::new(alloc);
    answered
}

// Answers the lines of the next piece of the text, keeps what comes after them, and writes the
// replies that are held.
fn take_piece<R: RegistryCalls, O: Output>(
    alloc: Global,
    registry: &mut R,
    output: &mut O,
    held: &mut Vec<u8>,
    kept: &mut Vec<u8>,
    piece: &[u8],
) -> Result<(), LineEnd>
    ensures { TakesPiece R.RegistryCalls result registry.old registry.new
        (out O.Output output.old held.old.items) (out O.Output output.new held.new.items)
        kept.old.items kept.new.items piece.now }
{
    let mut rest = piece;
    while let Some((front, behind)) = split_line(rest) {
        if let Err(end) = end_line(alloc, registry, output, held, kept, front) {
            return Err(end);
        }
        rest = behind;
    }
    if rest.is_empty() {
        return flush(output, held);
    }
    if let Err(end) = keep(output, held, kept, rest) {
        return Err(end);
    }
    flush(output, held)
}

// The text has ended: answers a last line without LF, and writes the replies that are held.
fn end_text<R: RegistryCalls, O: Output>(
    alloc: Global,
    registry: &mut R,
    output: &mut O,
    held: &mut Vec<u8>,
    kept: &[u8],
) -> Result<(), LineEnd>
    ensures { TakesEnd R.RegistryCalls result registry.old registry.new
        (out O.Output output.old held.old.items) (out O.Output output.new held.new.items)
        kept.now }
{
    if kept.is_empty() {
        return flush(output, held);
    }
    if let Err(end) = answer_line(alloc, registry, output, held, without_cr(kept)) {
        return Err(end);
    }
    flush(output, held)
}

fn end_of(answered: Result<(), LineEnd>) -> ScriptEnd
    ensures { result ≡ script_end answered }
{
    match answered {
        Ok(()) => ScriptEnd::Done,
        Err(LineEnd::Stopped) => ScriptEnd::Stopped,
        Err(LineEnd::WriteFault) => ScriptEnd::WriteFault,
        Err(LineEnd::TooLong) => ScriptEnd::TooLong,
    }
}

/// Answers the lines of a script, one after the other.
///
/// A line ends with an LF, before which one CR is dropped; a last line without LF counts. It is a
/// command (`VERB ACCOUNT FIELDS`), `export`, `read FIELDS` or `lookup FIELDS`; an empty line and a
/// comment (`#`) get no reply, and any other line is refused as 3. Nothing more is answered after a
/// refusal as 16, 17 or 18, nor after a line of more than 16,777,216 bytes. If the script itself is
/// out of memory, the reply is the refusal 16, which takes none; a line that is too long as far as it
/// was read is refused as 3 all the same.
///
/// At most `turns` reads are made, which bring at most 65,536 bytes for each of them, and at most
/// one more than bytes are read; one that fails is the last, and so is one that finds nothing to
/// come. Whenever it reads, the lines that came whole are answered, the writer has taken their
/// replies and nothing more, and of the line that is open at most 16,777,217 bytes were read. The
/// reply to a command is written before the next line is answered. A line costs memory only while
/// it is open. The reply to a command takes no memory.
///
/// Over any registry under moderation the clauses read so, while the disk returns what was written.
/// Let it show a history as the script begins. At `Done` it shows the history with the commands of
/// all lines. At every other end it shows the history with those of the lines that were answered,
/// or with that of the next line too, whose reply did not go out; or it has failed, and a crash
/// leaves the one or the other. So a later opening finds each command whose reply went out whole. A
/// registry that has failed before refuses the first line that asks something of it as 18, or as 16
/// if memory runs out for the line, and stays as it is.
pub fn run_script<R: RegistryCalls, I: Incoming<O>, O: Output>(
    alloc: Global,
    registry: &mut R,
    input: &mut I,
    output: &mut O,
    turns: u64,
) -> ScriptEnd
    // Whatever was read and written, calls lead from the one registry to the other, so that the
    // script is part of a session.
    ensures calls { CallsGo R.showing registry.old registry.new }
    // The replies are those of the lines of the text, and the registry shows the history after
    // them.
    ensures script { OverText R.RegistryCalls (passage registry.old registry.new
        (O.taken output.old) (O.taken output.new)) (I.to_come input.old) (λ h p text.
        IsScript R.RegistryCalls result h p text (I.to_come input.new)) }
    // Whenever the text was read, the lines that had come whole had got their replies.
    ensures caught_up { OverText R.RegistryCalls (passage registry.old registry.new
        (O.taken output.old) (O.taken output.new)) (I.to_come input.old) (λ h p text.
        AllSince (IsUpToDate R.RegistryCalls h p text) (I.moments input.old)
        (I.moments input.new)) }
    // A fault that it ended by is kept, and no read but the last one found nothing to come.
    ensures ended { EndsWith result (reader_and_writer I.Incoming O.Output
        input.old input.new output.new turns) }
    ensures goes { I.goes input.old input.new }
{
    let mut buffer = [0u8; BUFFER];
    let mut held = Vec::new(alloc);
    let mut kept = Vec::new(alloc);
    for _turn in 0..turns {
        let Ok(count) = input.read_after(output, &mut buffer) else {
            return ScriptEnd::ReadFault;
        };
        if count == 0 {
            return end_of(end_text(alloc, registry, output, &mut held, &kept));
        }
        let piece = &buffer[..count];
        if let Err(end) = take_piece(alloc, registry, output, &mut held, &mut kept, piece) {
            return end_of(Err(end));
        }
    }
    ScriptEnd::TurnsSpent
}
