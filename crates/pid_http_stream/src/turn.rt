//! One read of a reader that may be read so often.
ghost use Rattle.std.specs.Prelude.{ℕ, ◌<◌, length};
ghost use Rattle.pid_http_stream.specs.Steps.Bodies.{turns_at};
ghost use Rattle.pid_http_stream.specs.Steps.Intakes.{TakesTurn};

use crate::body_input::BodyFault;
use pid_ident::{Incoming, Output};

/// Reads once, if a turn is left; the end of the reader is a fault too.
pub(crate) fn read_turn<I: Incoming<W>, W: Output>(
    input: &mut I,
    output: &W,
    turns_left: &mut u64,
    buffer: &mut [u8],
) -> Result<usize, BodyFault>
    requires { 0 < length buffer.old }
    ensures read { TakesTurn result buffer.new (W.taken output.now)
        (turns_at I.Incoming input.old turns_left.old)
        (turns_at I.Incoming input.new turns_left.new) }
    ensures goes { I.goes input.old input.new }
{
    if *turns_left == 0 {
        return Err(BodyFault::TurnsSpent);
    }
    *turns_left -= 1;
    match input.read_after(output, buffer) {
        Err(_) => Err(BodyFault::ReadFault),
        Ok(0) => Err(BodyFault::Short),
        Ok(count) => Ok(count),
    }
}
