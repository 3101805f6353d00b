//! Writing bytes whole, or a prefix of them at a fault.
ghost use Rattle.std.specs.List.{flat_map};
ghost use Rattle.pid_file.specs.Writing.{Writes};

use crate::io::{Output, WriteFault};

/// Writes all of the bytes, or a prefix of them at a fault.
pub fn write_all<W: Output>(out: &mut W, bytes: &[u8]) -> Result<(), WriteFault>
    ensures { Writes W.Output result out.old out.new bytes.now }
{
    let mut rest = bytes;
    while !rest.is_empty() {
        let count = out.write(rest)?;
        let (_, behind) = rest.split_at(count);
        rest = behind;
    }
    Ok(())
}

/// Writes the parts one after another, or a prefix of them at a fault.
pub fn write_parts<W: Output>(out: &mut W, parts: &[&[u8]]) -> Result<(), WriteFault>
    ensures { Writes W.Output result out.old out.new
        (flat_map (λ part. part.now) parts.now) }
{
    for part in parts {
        write_all(out, part)?;
    }
    Ok(())
}
