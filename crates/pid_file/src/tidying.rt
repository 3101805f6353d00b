//! Printing the canonical form of a text.
ghost use Rattle.std.specs.Prelude.{◌≡◌, ◌⊎◌, IsSome, IfSome};
ghost use Rattle.pid_file.specs.Tidied.{IsTidied, PrintsNothing};
ghost use Rattle.pid_file.specs.WholeInputs.{LeavesInput};

use crate::input_text::read_input;
use crate::io::{Input, Output};
use crate::print::write_canonical;
use crate::report::report_unread;
use crate::text_end::{LARGEST, TextEnd};
use std::alloc::Global;
use std::mem;

/// Writes the canonical form of the input to `output`, or its fault line to `faults`.
///
/// Writes nothing to `output` if the text has a fault. If the input or a writer fails, only the
/// returned end says so. Reads at most one byte past `LARGEST`.
pub fn tidy<I: Input, O: Output, F: Output>(
    alloc: Global,
    input: &mut I,
    output: &mut O,
    faults: &mut F,
) -> TextEnd
    ensures tidied { IfSome (I.to_come input.old) (λ text. IsTidied result text (record {
      output = O.taken output.old;
      output_after = O.taken output.new;
      faults = F.taken faults.old;
      faults_after = F.taken faults.new;
    })) }
    ensures write_fault { result ≡ TextEnd.WriteFault
        → IsSome (O.write_fault output.new) ⊎ IsSome (F.write_fault faults.new) }
    ensures nothing_printed { PrintsNothing result (O.taken output.old) (O.taken output.new) }
    ensures leaves { LeavesInput I.Input LARGEST input.old input.new
        (result ≡ TextEnd.ReadFault) }
{
    let read = read_input(alloc, LARGEST, input);
    match read {
        Ok(tree) => {
            let printed = write_canonical(&tree, output);
            // The process ends after this, so freeing the tree would be wasted time.
            mem::forget(tree);
            match printed {
                Ok(()) => TextEnd::Done,
                Err(_) => TextEnd::WriteFault,
            }
        }
        Err(end) => report_unread(end, faults),
    }
}
