//! What comes in from a reader, up to the end of a head.
ghost use Rattle.std.specs.Prelude.{
  ◌≡◌,
  ℕ,
  ◌+◌,
  ◌≤◌,
  List,
  length,
  take,
  ◌++◌,
  false,
  Option,
  vec_len,
  vec_capacity,
};
ghost use Rattle.std.specs.Io.KnownBytes.{IsAtEnd};
ghost use Rattle.httparse.specs.Grammar.{HasNoRequest as HasNoHeadYet};
ghost use Rattle.httparse.specs.declared.spans.HeaderSpan.{HeaderSpan as FieldSpan};
ghost use Rattle.pid_file.specs.declared.io.ReadFault.{ReadFault};
ghost use Rattle.pid_http_stream.specs.Steps.Intakes.{HeadStops, IsHeadJudged, IsHeadRead};
ghost use Rattle.pid_http_stream.specs.Steps.Intakes.{ReadsHead, ReadsMore, idle_head};
ghost use Rattle.pid_http_stream.specs.Steps.Intakes.{filled_by as filled_so, intake as intake_at};
ghost use Rattle.pid_http_stream.specs.Unfinished.{IsHeadUnfinished, IsUnfinished};

use crate::body_input::BodyFault;
use crate::judging::{FoundHead, are_line_ends, judge, judge_unended};
use crate::limits::{LONGEST_HEAD, MOST_FIELDS, READ_SIZE};
use crate::refusal::StreamFault;
use crate::turn::read_turn;
use httparse::spans::HeaderSpan;
use pid_ident::{Incoming, Output};

/// Why reading stops.
#[derive(Clone, Copy)]
pub(crate) enum Stop {
    ReadFault,
    TurnsSpent,
    Memory,
}

/// What came of one read.
#[derive(Clone, Copy)]
pub(crate) enum Filled {
    Piece,
    End,
    Stopped(Stop),
}

/// What the bytes begin with, once a head has come or can't come any more.
#[derive(Clone, Copy)]
pub(crate) enum HeadRead {
    Head(FoundHead),
    /// The stream ended, and nothing is left.
    Nothing,
    Faulty(StreamFault),
    Stopped(Stop),
}

// Keeps a piece, for which there is room.
fn keep(held: &mut Vec<u8>, piece: &[u8]) -> Filled
    requires { vec_len held.old + length piece.now ≤ vec_capacity held.old }
    ensures kept { held.new.items ≡ held.old.items ++ piece.now }
    ensures piece { result ≡ Filled.Piece }
{
    match held.extend_from_slice(piece) {
        Ok(()) => Filled::Piece,
        Err(_) => Filled::Stopped(Stop::Memory),
    }
}

// What a fault of a read is.
fn filled_by(fault: BodyFault) -> Filled
    ensures { result ≡ filled_so fault }
{
    match fault {
        BodyFault::Short => Filled::End,
        BodyFault::ReadFault => Filled::Stopped(Stop::ReadFault),
        BodyFault::TurnsSpent => Filled::Stopped(Stop::TurnsSpent),
    }
}

// Reads once, and keeps what came. Room is made first, so that nothing is read that can't be kept;
// and nothing is read while a whole request is held, or what is refused.
fn read_more<I: Incoming<W>, W: Output>(
    held: &mut Vec<u8>,
    turns_left: &mut u64,
    input: &mut I,
    output: &W,
) -> Filled
    requires { IsUnfinished held.old.items }
    ensures { ReadsMore I.Incoming (W.taken output.now)
        (intake_at held.old.items input.old turns_left.old)
        (intake_at held.new.items input.new turns_left.new) result }
{
    if held.reserve(READ_SIZE).is_err() {
        return Filled::Stopped(Stop::Memory);
    }
    let mut buffer = [0u8; READ_SIZE];
    match read_turn(input, output, turns_left, &mut buffer) {
        Ok(count) => keep(held, &buffer[..count]),
        Err(fault) => filled_by(fault),
    }
}

// The bytes that are left at the end of the stream, in which no head has ended.
fn judge_end(held: &[u8]) -> HeadRead
    requires none { HasNoHeadYet held.now }
    requires short { length held.now ≤ LONGEST_HEAD }
    ensures judged { (fields : List FieldSpan) → (left : Option (List ℕ)) → IsAtEnd left
        → IsHeadRead held.now fields left result }
    ensures stopped { (fault : Option ReadFault) (left : ℕ) → HeadStops result fault fault left }
    ensures idle { idle_head result ≡ 1 }
{
    if are_line_ends(held) {
        HeadRead::Nothing
    } else {
        HeadRead::Faulty(StreamFault::BadHead)
    }
}

// Judges what came, of which so many bytes hold no head. They are parsed again only if a line
// ends after these: every head ends with a line.
fn judge_more(
    held: &[u8],
    before: usize,
    fields: &mut [HeaderSpan; MOST_FIELDS],
) -> Result<Option<FoundHead>, StreamFault>
    requires wants { IsHeadUnfinished (take before held.now) }
    requires before { before ≤ length held.now }
    ensures { IsHeadJudged held.now fields.new result }
{
    let (_, piece) = held.split_at(before);
    if piece.contains(&b'\n') {
        judge(held, fields)
    } else {
        judge_unended(held)
    }
}

/// Reads until a head has come, or none can come.
pub(crate) fn read_head<I: Incoming<W>, W: Output>(
    held: &mut Vec<u8>,
    turns_left: &mut u64,
    input: &mut I,
    output: &W,
    fields: &mut [HeaderSpan; MOST_FIELDS],
) -> HeadRead
    ensures { ReadsHead I.Incoming (W.taken output.now) fields.new
        (intake_at held.old.items input.old turns_left.old)
        (intake_at held.new.items input.new turns_left.new) result }
{
    let mut judged = judge(held, fields);
    'reading: loop {
        match judged {
            Err(fault) => return HeadRead::Faulty(fault),
            Ok(found) => match found {
                Some(head) => return HeadRead::Head(head),
                None => {}
            },
        }
        let before = held.len();
        match read_more(held, turns_left, input, output) {
            Filled::Stopped(stop) => return HeadRead::Stopped(stop),
            Filled::End => return judge_end(held),
            Filled::Piece => {
                judged = judge_more(held, before, fields);
            }
        }
    }
}
