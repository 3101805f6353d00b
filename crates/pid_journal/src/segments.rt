//! The segments of a journal, obeyed in turn by a registry that does not have them yet.
ghost use Rattle.std.specs.Prelude.{
  ◌≡◌,
  ◌≢◌,
  ◌⊎◌,
  ◌≤◌,
  [],
  ◌∷◌,
  true,
  false,
  IfErr,
  IfOk,
  IsSorted,
  MatchOption,
  MatchResult,
};
ghost use Rattle.std.specs.Ordering.{nat_cmp};
ghost use Rattle.pid_journal.specs.Steps.Faults.{IsRefused};
ghost use Rattle.pid_journal.specs.Steps.Comparing.{BringsOn, ComparesAll, SkipsLate};
ghost use Rattle.pid_journal.specs.Steps.Reads.{EndsAtLast};
ghost use Rattle.pid_journal.specs.Steps.Segments.{
  AsksRevision,
  FollowsAll,
  HasComeTo,
  HasComeToFirst,
  HasComeToLast,
  KeepsShown,
  LinesMayBeObeyed,
  PassesSegment,
};

use crate::catching_up::follow_segment;
use crate::folder::JournalFolder;
use crate::open_fault::OpenFault;
use crate::segment_text::SegmentText;
use pid_service_laws::RegistryQueries;
use std::alloc::Global;

/// The revision of a registry.
pub fn revision_of<R: RegistryQueries>(registry: &mut R) -> Result<u64, OpenFault>
    ensures { AsksRevision R.showing registry.old registry.new result }
{
    match registry.status() {
        Ok(status) => Ok(status.revision),
        Err(refusal) => Err(OpenFault::Refused(refusal)),
    }
}

// The first of some names, and the others.
fn first_of(names: &[u64]) -> Option<(u64, &[u64])>
    ensures { MatchOption result (names.now ≡ []) (λ p. names.now ≡ p.0 ∷ p.1.now) }
{
    let (first, others) = names.split_first()?;
    Some((*first, others))
}

// A fault of a segment. Where lines of one before it were obeyed, what does not go on from there is
// missing.
fn fault_after(moved: bool, fault: OpenFault) -> OpenFault
    ensures refused { IsRefused fault → IsRefused result }
    ensures moved { moved ≡ true → LinesMayBeObeyed result }
    ensures stays { LinesMayBeObeyed result ⊎ (result ≡ fault) }
    ensures same { moved ≡ false → result ≡ fault }
{
    match fault {
        OpenFault::Refused(_) | OpenFault::Missing => fault,
        OpenFault::Another | OpenFault::Newer => { if moved { OpenFault::Missing } else { fault } }
    }
}

// A fault of a segment after which another comes. A registry that has more commands than this one
// has not those of the next, so that some are missing between the two.
fn fault_between(fault: OpenFault) -> OpenFault
    ensures refused { IsRefused fault → IsRefused result }
    ensures stays { LinesMayBeObeyed result ⊎ (result ≡ fault) }
    ensures never { result ≢ OpenFault.Newer }
{
    match fault {
        OpenFault::Refused(_) | OpenFault::Another | OpenFault::Missing => fault,
        OpenFault::Newer => OpenFault::Missing,
    }
}

// Brings a registry up to where the next segment begins, unless it is there or later already.
// Answers whether it obeyed the segment.
fn pass_segment<R: RegistryQueries, F: JournalFolder>(
    alloc: Global,
    registry: &mut R,
    folder: &mut F,
    begin: u64,
    next: u64,
) -> Result<bool, OpenFault>
    ensures brings { BringsOn R.showing F.JournalFolder registry.old registry.new folder.old
        folder.new (begin ∷ []) result }
    ensures passed { PassesSegment R.RegistryCalls F.JournalFolder registry.old registry.new
        folder.old begin next result }
    ensures still { IfOk result (λ moved. moved ≡ false
        → KeepsShown R.showing registry.old registry.new) }
    ensures late { SkipsLate R.showing registry.old registry.new next result }
    ensures never { IfErr result (λ fault. fault ≢ OpenFault.Newer) }
    ensures begun { IfOk result (λ x. begin ≤ next → HasComeTo R.showing registry.old registry.new begin) }
{
    match revision_of(registry) {
        Ok(revision) => {
            if next <= revision {
                return Ok(false);
            }
        }
        Err(fault) => return Err(fault),
    }
    match follow_segment(alloc, registry, folder, begin) {
        Ok(_text) => Ok(true),
        Err(fault) => Err(fault_between(fault)),
    }
}

/// Brings a registry up to the end of the segments that begin at these revisions, which are only
/// read. Answers the text of the last one, if there is one.
pub(crate) fn follow_all<R: RegistryQueries, F: JournalFolder>(
    alloc: Global,
    registry: &mut R,
    folder: &mut F,
    begins: &[u64],
) -> Result<Option<SegmentText>, OpenFault>
    ensures brings { BringsOn R.showing F.JournalFolder registry.old registry.new folder.old
        folder.new begins.now result }
    ensures followed { FollowsAll R.RegistryCalls F.JournalFolder registry.old registry.new
        folder.old begins.now result }
    ensures ended { IfOk result (EndsAtLast F.JournalFolder folder.old begins.now) }
    ensures compared { ComparesAll R.showing F.JournalFolder registry.old registry.new folder.old
        begins.now result }
    ensures come { IfErr result (λ fault. fault ≡ OpenFault.Newer
        → HasComeToLast R.showing registry.old registry.new begins.now) }
    ensures begun { IsSorted nat_cmp begins.now → MatchResult result
        (λ x. HasComeToFirst R.showing registry.old registry.new begins.now)
        (λ fault. fault ≡ OpenFault.Newer → HasComeToFirst R.showing registry.old registry.new begins.now) }
{
    let Some((mut begin, mut rest)) = first_of(begins) else {
        return Ok(None);
    };
    let mut moved = false;
    while let Some((next, others)) = first_of(rest) {
        match pass_segment(alloc, registry, folder, begin, next) {
            Ok(obeyed) => moved = moved || obeyed,
            Err(fault) => return Err(fault_after(moved, fault)),
        }
        begin = next;
        rest = others;
    }
    match follow_segment(alloc, registry, folder, begin) {
        Ok(text) => Ok(Some(text)),
        Err(fault) => Err(fault_after(moved, fault)),
    }
}
