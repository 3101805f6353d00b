//! The last segment of a journal, in which it may go on.
ghost use Rattle.pid_journal.specs.Steps.Reopening.{CutsTorn, Reopens};

use crate::folder::JournalFolder;
use crate::marking::mark_end;
use crate::open_fault::OpenFault;
use crate::segment_text::SegmentText;
use pid_service_laws::RegistryQueries;
use std::alloc::Global;

/// Cuts off what is no whole line at the end of a segment that was read.
pub(crate) fn cut_torn<F: JournalFolder>(
    folder: &mut F,
    text: &SegmentText,
) -> Result<(), OpenFault>
    ensures { CutsTorn F.JournalFolder folder.old folder.new text.now result }
{
    let torn = text.left();
    if torn == 0 {
        return Ok(());
    }
    match folder.cut(text.begin(), torn as u64) {
        Ok(()) => Ok(()),
        Err(refusal) => Err(OpenFault::Refused(refusal)),
    }
}

/// Opens a segment that was read, and marks its end.
pub(crate) fn reopen<R: RegistryQueries, F: JournalFolder>(
    alloc: Global,
    registry: &mut R,
    folder: &mut F,
    text: &SegmentText,
) -> Result<F::Segment, OpenFault>
    ensures { Reopens R.showing F.JournalFolder F.Segment.JournalFile registry.old registry.new
        folder.old folder.new text.now result }
{
    let mut segment = match folder.segment(text.begin()) {
        Ok(segment) => segment,
        Err(refusal) => return Err(OpenFault::Refused(refusal)),
    };
    mark_end(alloc, registry, &mut segment, text.is_marked());
    Ok(segment)
}
