//! The journal of a folder, put in front of its registry.
ghost use Rattle.std.specs.Prelude.{◌≡◌, ℕ, List, Some, false, true, IfOk, IfSome};
ghost use Rattle.pid_service_laws.specs.CallLaws.{StaysClean};
ghost use Rattle.pid_journal.specs.Openings.{OpensJournal};
ghost use Rattle.pid_journal.specs.Steps.Comparing.{ComparesGap, ObeysSome};
ghost use Rattle.pid_journal.specs.Steps.Reopening.{
  BeginsSegment,
  FindsGap,
  FindsJournal,
  FindsNext,
  LeavesFolder,
};
ghost use Rattle.pid_journal.specs.Steps.Reads.{AreNames};
ghost use Rattle.pid_journal.specs.Steps.Segments.{AsksName, AsksOn, HasComeToFirst, IsNewName};

use crate::folder::JournalFolder;
use crate::journaled::Journaled;
use crate::open_fault::OpenFault;
use crate::opened::Opened;
use crate::reopening::{cut_torn, reopen};
use crate::segment_text::SegmentText;
use crate::segments::{follow_all, revision_of};
use pid_moderation::Refusal;
use pid_service_laws::RegistryQueries;
use std::alloc::Global;

// Whether the last of some names is this one.
fn is_last(names: &[u64], name: u64) -> bool
    ensures { result ≡ false → IsNewName names.now name }
{
    match names.split_last() {
        Some((last, _)) => *last == name,
        None => false,
    }
}

// The name of a segment that begins where a registry stands, unless the last one has it.
fn new_name<R: RegistryQueries>(registry: &mut R, begins: &[u64]) -> Result<Option<u64>, OpenFault>
    ensures asked { AsksName R.showing registry.old registry.new result }
    ensures new { IfOk result (λ name. IfSome name (IsNewName begins.now)) }
{
    match revision_of(registry) {
        Ok(revision) => {
            if is_last(begins, revision) {
                return Ok(None);
            }
            Ok(Some(revision))
        }
        Err(fault) => Err(fault),
    }
}

// A new segment, which begins where a registry stands. `Store` if the last one has its name.
fn begin_segment<R: RegistryQueries, F: JournalFolder>(
    registry: &mut R,
    folder: &mut F,
    begins: &[u64],
) -> Result<F::Segment, OpenFault>
    requires { AreNames F.JournalFolder folder.old begins.now }
    ensures { BeginsSegment R.RegistryCalls F.JournalFolder F.Segment.JournalFile registry.old
        registry.new folder.old folder.new result }
{
    let revision = match new_name(registry, begins) {
        Ok(Some(revision)) => revision,
        Ok(None) => return Err(OpenFault::Refused(Refusal::Store)),
        Err(fault) => return Err(fault),
    };
    match folder.new_segment(revision) {
        Ok(segment) => Ok(segment),
        Err(refusal) => Err(OpenFault::Refused(refusal)),
    }
}

// Whether a journal goes on in its last segment. One that is longer than so many bytes ends, but not
// where its last command has no mark yet, nor where the next one would have its name.
fn goes_on<R: RegistryQueries>(
    registry: &mut R,
    text: &SegmentText,
    begins: &[u64],
    longest: u64,
) -> Result<bool, OpenFault>
    ensures { AsksOn R.showing registry.old registry.new result }
{
    if text.read() <= longest || !text.is_marked() {
        return Ok(true);
    }
    match new_name(registry, begins) {
        Ok(name) => Ok(name.is_none()),
        Err(fault) => Err(fault),
    }
}

// The segment in which a journal goes on, of which this is the last one that it has.
fn segment_after<R: RegistryQueries, F: JournalFolder>(
    alloc: Global,
    registry: &mut R,
    folder: &mut F,
    last: Option<SegmentText>,
    begins: &[u64],
    longest: u64,
) -> Result<F::Segment, OpenFault>
    requires { AreNames F.JournalFolder folder.old begins.now }
    ensures { FindsNext R.RegistryCalls F.JournalFolder F.Segment.JournalFile registry.old
        registry.new folder.old folder.new last result }
{
    let Some(text) = last else {
        return begin_segment(registry, folder, begins);
    };
    match cut_torn(folder, &text) {
        Ok(()) => {}
        Err(fault) => return Err(fault),
    }
    match goes_on(registry, &text, begins, longest) {
        Ok(true) => reopen(alloc, registry, folder, &text),
        Ok(false) => begin_segment(registry, folder, begins),
        Err(fault) => Err(fault),
    }
}

// The segment in which the journal of a folder goes on, and whether there is a gap before it. The
// registry obeys the lines that it does not have.
fn find_segment<R: RegistryQueries, F: JournalFolder>(
    alloc: Global,
    registry: &mut R,
    folder: &mut F,
    longest: u64,
) -> Result<(F::Segment, bool), OpenFault>
    ensures honest { StaysClean R.showing registry.old registry.new }
    ensures found { FindsJournal R.RegistryCalls F.JournalFolder F.Segment.JournalFile registry.old
        registry.new folder.old folder.new result }
    ensures gap { IfOk result (λ found. found.1 ≡ true → FindsGap R.RegistryCalls F.JournalFolder
        F.Segment.JournalFile registry.old registry.new folder.old folder.new found.0) }
    ensures leaves { LeavesFolder R.RegistryCalls F.JournalFolder F.Segment.JournalFile registry.old
        registry.new folder.old folder.new result }
    ensures obeys { (names : List ℕ) → F.names folder.old ≡ Some names → ObeysSome R.showing
        F.JournalFolder registry.old registry.new folder.old names result }
    ensures compared { ComparesGap R.showing F.JournalFolder registry.old registry.new folder.old
        result }
    ensures begun { IfOk result (λ found. (names : List ℕ) → F.names folder.old ≡ Some names
        → HasComeToFirst R.showing registry.old registry.new names) }
{
    let begins = match folder.begins(alloc) {
        Ok(begins) => begins,
        Err(refusal) => return Err(OpenFault::Refused(refusal)),
    };
    let last = match follow_all(alloc, registry, folder, begins.as_slice()) {
        Ok(last) => last,
        Err(OpenFault::Newer) => {
            return match begin_segment(registry, folder, begins.as_slice()) {
                Ok(segment) => Ok((segment, true)),
                Err(fault) => Err(fault),
            };
        }
        Err(fault) => return Err(fault),
    };
    match segment_after(alloc, registry, folder, last, begins.as_slice(), longest) {
        Ok(segment) => Ok((segment, false)),
        Err(fault) => Err(fault),
    }
}

/// Puts the journal of a folder in front of its registry: one that shows the history to which the
/// journal leads, or an earlier one on the way there. It obeys the lines that it does not have. So
/// a command that was in doubt comes to its end, and a registry that was restored from a copy has
/// every command of its journal again. A last line that is not whole is cut off. Every other line
/// stays, and only the segment in which the journal goes on is opened to be written.
///
/// - A folder without a segment gets one, which begins where the registry stands.
/// - If the last segment has more bytes than `longest`, a new one begins after it, unless no command
///   was accepted in it, or its last command has no mark.
/// - If the registry has commands that the journal has not, a new segment begins, after a gap.
/// - If the journal is another registry's, the registry and all segments stay as they are.
///
/// The registry is handed back with a fault.
pub fn open_journal<R: RegistryQueries, F: JournalFolder>(
    alloc: Global,
    mut registry: R,
    folder: &mut F,
    longest: u64,
) -> Result<Opened<R, F::Segment>, (R, OpenFault)>
    ensures { OpensJournal R.RegistryCalls F.JournalFolder F.Segment.JournalFile registry folder.old
        folder.new result }
{
    match find_segment(alloc, &mut registry, folder, longest) {
        Ok((journal, gap)) => {
            let registry = Journaled {
                registry,
                journal,
                failed: false,
                alloc,
            };
            Ok(Opened { registry, gap })
        }
        Err(fault) => Err((registry, fault)),
    }
}
