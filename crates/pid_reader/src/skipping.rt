//! An input that is read to its end, up to a limit of bytes, and not looked at.
ghost use Rattle.std.specs.Prelude.{◌≡◌, ◌+◌, ◌≤◌, ℕ, List, Err, IsSome, length};
ghost use Rattle.std.specs.Io.KnownBytes.{Consumes};
ghost use Rattle.pid_file.specs.WholeInputs.{SkipsInput};

use pid_file::{BUFFER, Input, SkipEnd, next_piece};

/// Reads the input to its end, or until more than `limit` bytes came: then no more is read. A fault
/// of the input comes before all else.
pub fn skip_input<I: Input>(limit: usize, input: &mut I) -> Result<(), SkipEnd>
    ensures read { (text : List ℕ) × Consumes (I.to_come input.old) (I.to_come input.new) text
        × SkipsInput limit result (I.to_come input.new) text }
    ensures stops { (front : List ℕ) × Consumes (I.to_come input.old) (I.to_come input.new) front
        × (length front ≤ limit + 1) }
    ensures fault { result ≡ Err SkipEnd.ReadFault → IsSome (I.read_fault input.new) }
    ensures fault_first { IsSome (I.read_fault input.new) → result ≡ Err SkipEnd.ReadFault }
    ensures goes { I.goes input.old input.new }
{
    let mut buffer = [0u8; BUFFER];
    let mut room = limit;
    while let Some(piece) = next_piece(input, room, &mut buffer)? {
        room -= piece.len();
    }
    Ok(())
}
