//! One segment of a journal, obeyed by a registry that does not have all of it yet.
ghost use Rattle.std.specs.Prelude.{◌≡◌, ◌⊎◌, [], ◌∷◌, ℕ, List, IfOk, MatchResult};
ghost use Rattle.pid_journal.specs.Steps.Comparing.{BringsOn, ComparesSegment};
ghost use Rattle.pid_journal.specs.Steps.Reads.{EndsAt};
ghost use Rattle.pid_journal.specs.Steps.Segments.{
  FollowsSegment,
  HasComeTo,
  LinesMayBeObeyed,
};

use crate::folder::JournalFolder;
use crate::following::follow;
use crate::open_fault::OpenFault;
use crate::placing::find_place;
use crate::segment_text::SegmentText;
use crate::status_counts::counts_of;
use pid_service_laws::RegistryQueries;
use std::alloc::Global;

/// Brings a registry up to the end of the segment that begins at a revision, which is only read.
pub(crate) fn follow_segment<R: RegistryQueries, F: JournalFolder>(
    alloc: Global,
    registry: &mut R,
    folder: &mut F,
    begin: u64,
) -> Result<SegmentText, OpenFault>
    ensures brings { BringsOn R.showing F.JournalFolder registry.old registry.new folder.old
        folder.new (begin ∷ []) result }
    ensures followed { FollowsSegment R.RegistryCalls F.JournalFolder registry.old registry.new
        folder.old begin result }
    ensures ended { IfOk result (λ text. (text.begin ≡ begin) × EndsAt F.JournalFolder folder.old text) }
    ensures compared { ComparesSegment R.showing F.JournalFolder registry.old registry.new folder.old
        begin result }
    ensures come { MatchResult result (λ x. HasComeTo R.showing registry.old registry.new begin)
        (λ fault. LinesMayBeObeyed fault ⊎ HasComeTo R.showing registry.old registry.new begin) }
{
    let status = match registry.status() {
        Ok(status) => status,
        Err(refusal) => return Err(OpenFault::Refused(refusal)),
    };
    let now = counts_of(&status);
    if now.revision < begin {
        return Err(OpenFault::Missing);
    }
    let mut text = SegmentText::new(alloc, begin);
    match find_place(alloc, folder, &mut text, now, begin) {
        Ok(()) => {}
        Err(fault) => return Err(fault),
    }
    match follow(alloc, registry, folder, &mut text) {
        Ok(()) => Ok(text),
        Err(refusal) => Err(OpenFault::Refused(refusal)),
    }
}
