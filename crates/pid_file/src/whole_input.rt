//! An input that is read to its end, up to a limit of bytes.
ghost use Rattle.std.specs.Prelude.{
  ◌≡◌,
  ◌↔◌,
  ◌++◌,
  ℕ,
  List,
  [],
  None,
  Ok,
  Err,
  IsSome,
  IfSome,
  IfOk,
  IfErr,
  OnOk,
};
ghost use Rattle.std.specs.Io.KnownBytes.{Consumes};
ghost use Rattle.pid_file.specs.Lines.{lines_of};
ghost use Rattle.pid_file.specs.OpenTexts.{IsLeftOpen};
ghost use Rattle.pid_file.specs.Sinks.{Ends};
ghost use Rattle.pid_file.specs.WholeLines.{whole_lines};
ghost use Rattle.pid_file.specs.WholeInputs.{CutsInput, LeavesInput};
ghost use Rattle.pid_file.specs.Steps.WholeInputs.{FailsPiece, IsNoPiece, IsPiece};

use crate::io::Input;
use crate::open_text::OpenText;
use crate::sink::{CutEnd, Sink};
use std::alloc::Global;

/// The most that one read asks for, in bytes.
pub const BUFFER: usize = 4_096;

/// Why not all entries of an input came to a sink.
#[derive(Drop)]
pub enum InputEnd<F> {
    /// The reader failed.
    ReadFault,
    /// The input has more bytes than the limit.
    TooLong,
    /// The text is refused, or the sink faulted.
    Cut(CutEnd<F>),
}

/// Why an input was not read to its end.
#[derive(Clone, Copy)]
pub enum SkipEnd {
    /// The reader failed.
    ReadFault,
    /// The input has more bytes than the limit.
    TooLong,
}

impl<F: Drop> From<SkipEnd> for InputEnd<F> {
    ghost use Rattle.std.specs.Prelude.{◌≡◌};
    ghost use Rattle.pid_file.specs.Steps.WholeInputs.{as_input_end};

    ghost from_gives = { λ end r. r ≡ as_input_end end };

    fn from(end: SkipEnd) -> InputEnd<F> {
        match end {
            SkipEnd::ReadFault => InputEnd::ReadFault,
            SkipEnd::TooLong => InputEnd::TooLong,
        }
    }
}

/// The next chunk of an input that may have `room` bytes more; none at its end.
///
/// Fails with `TooLong` if more than `room` bytes are left, of which it has read one too many, and
/// with `ReadFault` if the reader fails.
pub fn next_piece<'b, I: Input>(
    input: &mut I,
    room: usize,
    buffer: &'b mut [u8; BUFFER],
) -> Result<Option<&'b [u8]>, SkipEnd>
    ensures piece { IfOk result (λ o. IfSome o
        (λ piece. IsPiece room (I.to_come input.old) (I.to_come input.new) piece.now)) }
    ensures end { result ≡ Ok None → IsNoPiece (I.to_come input.old) (I.to_come input.new) }
    ensures failed { IfErr result (FailsPiece room (I.to_come input.old) (I.to_come input.new)) }
    ensures fault { (result ≡ Err SkipEnd.ReadFault) ↔ IsSome (I.read_fault input.new) }
    ensures goes { I.goes input.old input.new }
{
    let piece = &mut buffer[..room.min(BUFFER - 1) + 1];
    let Ok(count) = input.read(piece) else {
        return Err(SkipEnd::ReadFault);
    };
    if count == 0 {
        return Ok(None);
    }
    if count > room {
        return Err(SkipEnd::TooLong);
    }
    Ok(Some(&piece[..count]))
}

// Takes the next chunk, if the text was not given up before.
fn take_next<K: Sink>(
    text: &mut OpenText,
    outcome: Result<(), CutEnd<K::Fault>>,
    piece: &[u8],
    sink: &mut K,
) -> Result<(), CutEnd<K::Fault>>
where
    K::Fault: Drop,
    ensures holds { (front : List ℕ) → OnOk outcome (IsLeftOpen text.old front)
        → OnOk result (IsLeftOpen text.new (front ++ piece.now)) }
    ensures ends { (front : List ℕ) (start : K) → OnOk outcome (IsLeftOpen text.old front)
        → Ends K.takes K.faults outcome start (whole_lines front) sink.old →
        Ends K.takes K.faults result start (whole_lines (front ++ piece.now)) sink.new }
{
    outcome?;
    text.take(piece, sink)
}

// The text has ended.
fn end_text<K: Sink>(
    text: OpenText,
    outcome: Result<(), CutEnd<K::Fault>>,
    sink: &mut K,
) -> Result<(), CutEnd<K::Fault>>
where
    K::Fault: Drop,
    ensures ends { (whole : List ℕ) (start : K) → OnOk outcome (IsLeftOpen text whole)
        → Ends K.takes K.faults outcome start (whole_lines whole) sink.old →
        Ends K.takes K.faults result start (lines_of whole) sink.new }
{
    outcome?;
    text.end(sink)
}

/// Hands the entries of the input's text to the sink, in the order of their lines, until the text
/// is refused or the sink faults. Whatever the outcome, the input is read to its end, or until more
/// than `limit` bytes came: then no more is read. A fault of the input is answered before all else;
/// then that the text is too long; then what the sink made of it.
pub fn cut_input<K: Sink, I: Input>(
    alloc: Global,
    limit: usize,
    input: &mut I,
    sink: &mut K,
) -> Result<(), InputEnd<K::Fault>>
where
    K::Fault: Drop,
    ensures read { (text : List ℕ) × Consumes (I.to_come input.old) (I.to_come input.new) text
        × CutsInput K.takes K.faults limit result (I.to_come input.new) text sink.old sink.new }
    ensures leaves { LeavesInput I.Input limit input.old input.new
        (result ≡ Err InputEnd.ReadFault) }
{
    let mut text = OpenText::new(alloc);
    let mut buffer = [0u8; BUFFER];
    let mut room = limit;
    let mut outcome = Ok(());
    while let Some(piece) = next_piece(input, room, &mut buffer)? {
        outcome = take_next(&mut text, outcome, piece, sink);
        room -= piece.len();
    }
    match end_text(text, outcome, sink) {
        Ok(()) => Ok(()),
        Err(end) => Err(InputEnd::Cut(end)),
    }
}
