//! Counting the entries of a text, or finding its first fault.
ghost use Rattle.std.specs.Prelude.{◌≡◌, IsSome, IfSome};
ghost use Rattle.pid_file.specs.Checked.{IsChecked, ok_line};
ghost use Rattle.pid_file.specs.WholeInputs.{LeavesInput};
ghost use Rattle.pid_file.specs.Writing.{Writes};

use crate::input_text::count_input;
use crate::io::{Input, Output, WriteFault};
use crate::report::report_unread;
use crate::text_end::{LARGEST, TextEnd};
use crate::writing::write_parts;
use itoa::Buffer;
use std::alloc::Global;

/// Writes `ok` and the number of entries in the input, or its fault line.
///
/// Writes nothing if the input fails: only the returned end says so. Builds no tree. Reads at most
/// one byte past `LARGEST`.
pub fn check<I: Input, O: Output>(alloc: Global, input: &mut I, output: &mut O) -> TextEnd
    ensures checked { IfSome (I.to_come input.old)
        (λ text. IsChecked result text (O.taken output.old) (O.taken output.new)) }
    ensures write_fault { result ≡ TextEnd.WriteFault → IsSome (O.write_fault output.new) }
    ensures leaves { LeavesInput I.Input LARGEST input.old input.new
        (result ≡ TextEnd.ReadFault) }
{
    match count_input(alloc, LARGEST, input) {
        Ok(count) => match write_ok(count, output) {
            Ok(()) => TextEnd::Done,
            Err(_) => TextEnd::WriteFault,
        },
        Err(end) => report_unread(end, output),
    }
}

fn write_ok<O: Output>(count: u64, output: &mut O) -> Result<(), WriteFault>
    ensures { Writes O.Output result output.old output.new (ok_line count) }
{
    let mut digits = Buffer::new();
    let count = digits.format(count).as_bytes();
    write_parts(output, &[b"ok ", count, b"\n"])
}
