//! Reporting why a text was not read.
ghost use Rattle.std.specs.Prelude.{◌≡◌, ◌≢◌, ◌↔◌, ◌⊎◌, ℕ, List};
ghost use Rattle.pid_file.specs.InputTexts.{IsUnread};
ghost use Rattle.pid_file.specs.Steps.TextEnds.{unread_end};
ghost use Rattle.pid_file.specs.Reports.{IsReported, ReportsEnd};
ghost use Rattle.pid_file.specs.Writing.{use_of};

use crate::counter::Never;
use crate::io::Output;
use crate::sink::CutEnd;
use crate::text_end::{LARGEST, TextEnd, end_of};
use crate::whole_input::InputEnd;

/// Reports a fault of the text, or that memory ran out. Writes nothing if the reader failed. If the
/// writer fails, that is the end.
pub fn report_unread<F: Output>(end: InputEnd<Never>, faults: &mut F) -> TextEnd
    ensures told { (text : List ℕ) → IsUnread LARGEST end text
        → IsReported result text (F.taken faults.old) (F.taken faults.new) }
    ensures reports { ReportsEnd result (use_of F.Output faults.old faults.new) }
    ensures ends { (result ≡ unread_end end) ⊎ (result ≡ TextEnd.WriteFault) }
    ensures read_fault { (result ≡ TextEnd.ReadFault) ↔ (end ≡ InputEnd.ReadFault) }
    ensures not_done { result ≢ TextEnd.Done }
{
    let end = match end {
        InputEnd::ReadFault => return TextEnd::ReadFault,
        InputEnd::TooLong => TextEnd::TooLarge,
        InputEnd::Cut(CutEnd::Refused(refusal)) => end_of(refusal),
        InputEnd::Cut(CutEnd::Fault(never)) => match never {},
    };
    match end.report_to(faults) {
        Ok(()) => end,
        Err(_) => TextEnd::WriteFault,
    }
}
