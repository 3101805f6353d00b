//! The mark at the end of a journal.
ghost use Rattle.pid_journal.specs.Steps.Parts.{MarksEnd};

use crate::entry::mark_of;
use crate::file::JournalFile;
use pid_service_laws::RegistryQueries;
use std::alloc::Global;

/// Marks the last entry of a journal, if it is not marked yet: its command has ended, and this is
/// what the registry holds. There is no mark if the registry refuses the question, or memory runs
/// out.
pub fn mark_end<R: RegistryQueries, J: JournalFile>(
    alloc: Global,
    registry: &mut R,
    journal: &mut J,
    is_marked: bool,
)
    ensures { MarksEnd R.showing registry.old registry.new (J.safe journal.old)
        (J.safe journal.new) }
{
    if is_marked {
        return;
    }
    let Ok(status) = registry.status() else {
        return;
    };
    let Some(mark) = mark_of(alloc, &status) else {
        return;
    };
    journal.mark(mark.as_bytes());
}
