//! The text that is held for a writer.
//!
//! Replies are held until a command was answered, a read ends or there is no more room, so that
//! many go out by one write. If there is no memory to hold them they go out at once.
ghost use Rattle.std.specs.Prelude.{◌≡◌, ◌≤◌, ◌++◌, length, true, false, []};
ghost use Rattle.pid_script.specs.Steps.Output.{SaysText, GoesOut, out};

use crate::line_end::LineEnd;
use pid_ident::{Output, write_all};

/// The most bytes that are held.
pub const ROOM: usize = 65_536;

// Holds more bytes, if there is room and memory for them.
fn holds(held: &mut Vec<u8>, text: &[u8]) -> bool
    ensures held { result ≡ true → held.new.items ≡ held.old.items ++ text.now }
    ensures same { result ≡ false → held.new.items ≡ held.old.items }
    ensures room { length held.old.items ≤ ROOM → length held.new.items ≤ ROOM }
{
    if ROOM.saturating_sub(held.len()) < text.len() {
        return false;
    }
    match held.extend_from_slice(text) {
        Ok(()) => true,
        Err(_) => false,
    }
}

fn send<O: Output>(output: &mut O, text: &[u8]) -> Result<(), LineEnd>
    ensures { GoesOut result (out O.Output output.old []) (out O.Output output.new []) text.now }
{
    match write_all(output, text) {
        Ok(()) => Ok(()),
        Err(_) => Err(LineEnd::WriteFault),
    }
}

/// Writes what is held.
pub fn flush<O: Output>(output: &mut O, held: &mut Vec<u8>) -> Result<(), LineEnd>
    ensures { GoesOut result (out O.Output output.old held.old.items)
        (out O.Output output.new held.new.items) held.old.items }
{
    if let Err(end) = send(output, held.as_slice()) {
        return Err(end);
    }
    held.clear();
    Ok(())
}

/// Says a text: it is held after what is held already, or goes out after that.
pub fn say<O: Output>(output: &mut O, held: &mut Vec<u8>, text: &[u8]) -> Result<(), LineEnd>
    ensures { SaysText result (out O.Output output.old held.old.items)
        (out O.Output output.new held.new.items) text.now }
{
    if holds(held, text) {
        return Ok(());
    }
    if let Err(end) = flush(output, held) {
        return Err(end);
    }
    send(output, text)
}

/// Says a text, and writes all that is held.
pub fn say_all<O: Output>(output: &mut O, held: &mut Vec<u8>, text: &[u8]) -> Result<(), LineEnd>
    ensures { GoesOut result (out O.Output output.old held.old.items)
        (out O.Output output.new held.new.items) (held.old.items ++ text.now) }
{
    if let Err(end) = say(output, held, text) {
        return Err(end);
    }
    flush(output, held)
}
