//! The replies to lines.
ghost use Rattle.std.specs.Prelude.{◌≡◌, ◌++◌, ◌∷◌, [], true, false, Err, OnOk};
ghost use Rattle.pid_moderation.specs.ReplyLines.{refused_line};
ghost use Rattle.pid_moderation.specs.declared.refusal.Refusal.TheVariants as refusals;
ghost use Rattle.pid_script.specs.StopLines.{is_stop as is_stopping};
ghost use Rattle.pid_script.specs.Steps.Output.{
  out,
  SaysMemory,
  SaysTooLong,
  TellsAnswer,
  TellsFound,
  TellsName,
  SaysText,
  GoesOnAfter,
  refusal_given,
  refusal_of_names,
};

use crate::line_end::LineEnd;
use crate::output::{flush, say, say_all};
use pid_ident::{Name, Output};
use pid_lookup::{Answer, LookupRefusal, Unanswered};
use pid_moderation::{Refusal, Reply, write_reply_line};

/// Says that memory ran out, which takes none.
pub fn stop_for_memory<O: Output>(output: &mut O, held: &mut Vec<u8>) -> LineEnd
    ensures { SaysMemory result (out O.Output output.old held.old.items)
        (out O.Output output.new held.new.items) }
{
    match say_all(output, held, b"refused 16 Memory\n") {
        Ok(()) => LineEnd::Stopped,
        Err(_) => LineEnd::WriteFault,
    }
}

/// Says that a line is too long.
pub fn refuse_long<O: Output>(output: &mut O, held: &mut Vec<u8>) -> LineEnd
    ensures { SaysTooLong result (out O.Output output.old held.old.items)
        (out O.Output output.new held.new.items) }
{
    match say_all(output, held, b"refused 3 BadText\n") {
        Ok(()) => LineEnd::TooLong,
        Err(_) => LineEnd::WriteFault,
    }
}

// Whether an answer stops a script.
fn ends_script(answer: Result<Reply, Refusal>) -> bool
    ensures true_at { result ≡ true → (e : _) × (answer ≡ Err e) × (is_stopping e ≡ true) }
    ensures false_at { result ≡ false → (e : _) → answer ≡ Err e → is_stopping e ≡ false }
{
    match answer {
        Ok(_) => false,
        Err(refusal) => matches!(refusal, Refusal::Memory | Refusal::Store | Refusal::Failed),
    }
}

// Says a word, a text and an LF.
fn say_line<O: Output>(
    output: &mut O,
    held: &mut Vec<u8>,
    word: &[u8],
    text: &[u8],
) -> Result<(), LineEnd>
    ensures { SaysText result (out O.Output output.old held.old.items)
        (out O.Output output.new held.new.items) (word.now ++ text.now ++ 10 ∷ []) }
{
    if let Err(end) = say(output, held, word) {
        return Err(end);
    }
    if let Err(end) = say(output, held, text) {
        return Err(end);
    }
    say(output, held, b"\n")
}

/// Writes the line of an answer, with all that is held. What was answered is written, even if
/// memory runs out.
pub fn send_answer<O: Output>(
    output: &mut O,
    held: &mut Vec<u8>,
    answer: Result<Reply, Refusal>,
) -> Result<(), LineEnd>
    ensures told { TellsAnswer result answer (out O.Output output.old held.old.items)
        (out O.Output output.new held.new.items) }
    ensures goes_on { GoesOnAfter result (refusal_given answer) }
    ensures empty { OnOk result (held.new.items ≡ []) }
{
    if let Err(end) = flush(output, held) {
        return Err(end);
    }
    let Ok(()) = write_reply_line(output, answer) else {
        return Err(LineEnd::WriteFault);
    };
    if ends_script(answer) {
        return Err(LineEnd::Stopped);
    }
    Ok(())
}

/// Says that a line is not understood.
pub fn send_bad_text<O: Output>(output: &mut O, held: &mut Vec<u8>) -> Result<(), LineEnd>
    ensures { SaysText result (out O.Output output.old held.old.items)
        (out O.Output output.new held.new.items) (refused_line refusals.BadText) }
{
    say(output, held, b"refused 3 BadText\n")
}

/// Says the name of a path, or that it has none.
pub fn send_name<O: Output>(
    output: &mut O,
    held: &mut Vec<u8>,
    name: &Result<Option<Name>, Refusal>,
) -> Result<(), LineEnd>
    ensures told { TellsName result name.now (out O.Output output.old held.old.items)
        (out O.Output output.new held.new.items) }
    ensures goes_on { GoesOnAfter result (refusal_given name.now) }
{
    match name {
        Ok(Some(name)) => say_line(output, held, b"name ", name.as_str().as_bytes()),
        Ok(None) => say(output, held, Unanswered::NoItem.line().as_bytes()),
        Err(refusal) => send_answer(output, held, Err(*refusal)),
    }
}

/// Says the answer to a look-up.
pub fn send_found<O: Output>(
    output: &mut O,
    held: &mut Vec<u8>,
    found: &Result<Answer, LookupRefusal<Refusal>>,
) -> Result<(), LineEnd>
    ensures told { TellsFound result found.now (out O.Output output.old held.old.items)
        (out O.Output output.new held.new.items) }
    ensures goes_on { GoesOnAfter result (refusal_of_names found.now) }
{
    match found {
        Ok(Answer::Text(text)) => say_line(output, held, b"text ", text.as_bytes()),
        Ok(Answer::NoAnswer) => say(output, held, Unanswered::NoAnswer.line().as_bytes()),
        Err(LookupRefusal::BadFlags) => say(output, held, Unanswered::BadFlags.line().as_bytes()),
        Err(LookupRefusal::Names(refusal)) => send_answer(output, held, Err(*refusal)),
        Err(LookupRefusal::Memory) => Err(stop_for_memory(output, held)),
    }
}
