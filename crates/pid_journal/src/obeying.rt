//! One command: its entry is safe before it is judged.
ghost use Rattle.std.specs.Prelude.{◌≡◌, ◌≢◌, ◌⊎◌, true, false, Err, IfSome, IsErrAnd};
ghost use Rattle.pid_moderation.specs.Faults.{IsMemoryOrStore};
ghost use Rattle.pid_moderation.specs.Files.{asks};
ghost use Rattle.pid_moderation.specs.History.{History};
ghost use Rattle.pid_service_laws.specs.CallLaws.{StaysClean};
ghost use Rattle.pid_service_laws.specs.Registries.{CommandLeaves};
ghost use Rattle.pid_journal.specs.declared.counts.Counts.{Counts};
ghost use Rattle.pid_journal.specs.Journals.{counts_held, IsEntry};
ghost use Rattle.pid_journal.specs.Pairs.{
  AddsEntry,
  ObeysAnywhere,
  PairShows,
  pair_showing,
};
ghost use Rattle.pid_journal.specs.Steps.Parts.{
  CutsAfter,
  IsProbed,
  IsCutBack,
  IsUnmarked,
  MarksAreWithin,
  pair_showing_from,
};

use crate::entry::entry_of;
use crate::file::JournalFile;
use crate::journaled::Journaled;
use crate::marking::mark_end;
use crate::unaccepted::has_no_line;
use pid_moderation::{Command, Refusal, Reply, breaks_form};
use pid_service_laws::RegistryQueries;

// Whether an answer says that memory ran out or that the store failed.
fn is_fault(answer: &Result<Reply, Refusal>) -> bool
    ensures yes { result ≡ true → IsErrAnd answer.now IsMemoryOrStore }
    ensures no { result ≡ false → IsErrAnd answer.now IsMemoryOrStore → ⊥ }
{
    match answer {
        Ok(_) => false,
        Err(refusal) => matches!(refusal, Refusal::Memory | Refusal::Store),
    }
}

fn is_failed(refusal: Refusal) -> bool
    ensures yes { result ≡ true → refusal ≡ Refusal.Failed }
    ensures no { result ≡ false → refusal ≢ Refusal.Failed }
{
    matches!(refusal, Refusal::Failed)
}

// Whether a registry is live: one that has failed answers nothing else.
pub(crate) fn is_answering<R: RegistryQueries>(registry: &mut R) -> bool
    ensures { IsProbed R.showing R.is_live registry.old registry.new result }
{
    match registry.status() {
        Ok(_) => true,
        Err(refusal) => !is_failed(refusal),
    }
}

impl<R: RegistryQueries, J: JournalFile> Journaled<R, J> {
    // Cuts off what comes after so many bytes. If that fails, the registry counts as failed.
    fn take_back(&mut self, count: u64)
        requires { IfSome (J.safe self.old.journal) (λ text. MarksAreWithin text count) }
        ensures same { self.new.registry ≡ self.old.registry }
        ensures kept { CutsAfter (J.safe self.old.journal) (J.safe self.new.journal) count }
        ensures taken { IsCutBack J.JournalFile self.old self.new count }
    {
        match self.journal.cut(count) {
            Ok(()) => {}
            Err(_) => self.failed = true,
        }
    }

    // Obeys a command that has this entry.
    fn obey_noted(&mut self, entry: &[u8], command: Command) -> Result<Reply, Refusal>
        requires { IsUnmarked entry.now }
        ensures added { (counts : Counts) → IsEntry entry.now counts (asks command)
            → AddsEntry (J.safe self.old.journal) (J.safe self.new.journal) (asks command) result }
        ensures honest { R.showing.is_clean self.new.registry → R.showing.is_clean self.old.registry }
        ensures obeyed { R.showing.is_clean self.new.registry → (start h : History)
            → PairShows R.RegistryCalls J.JournalFile start self.old h
            → IsEntry entry.now (counts_held h) (asks command)
            → CommandLeaves (pair_showing_from R.RegistryCalls J.JournalFile start) result self.new
            h (asks command) }
    {
        pid_service_laws::judgements_are_outcomes(); // proof only
        let count = self.journal.count();
        match self.journal.append(entry) {
            Ok(()) => {
                let answer = self.registry.obey(command);
                if !is_fault(&answer) {
                    mark_end(self.alloc, &mut self.registry, &mut self.journal, false);
                    return answer;
                }
                if !is_answering(&mut self.registry) {
                    return answer;
                }
                self.take_back(count);
                answer
            }
            Err(_) => {
                self.take_back(count);
                Err(Refusal::Store)
            }
        }
    }

    /// Obeys a command, or says why not. Its entry is safe in the journal before it is judged.
    ///
    /// - A command that breaks its form, and an import whose file is not UTF-8, are answered without
    ///   an entry, as a registry answers them: they change nothing.
    /// - `Store` if its entry could not be written, or if there is none: then nothing was done. What
    ///   was written of the entry is cut off again.
    /// - `Memory` and `Store` of a registry that stays live: the command was not obeyed, and its
    ///   entry is cut off again.
    /// - If a cut fails, the registry has failed, as a registry fails whose commit failed: the
    ///   command is in doubt.
    pub fn obey(&mut self, command: Command) -> Result<Reply, Refusal>
        ensures honest { StaysClean (pair_showing R.RegistryCalls J.JournalFile) self.old self.new }
        // It shows the history to which its journal leads.
        ensures obeyed { ObeysAnywhere R.RegistryCalls J.JournalFile self.old (asks command) result
            self.new }
        ensures failed { (self.old.failed ≡ true) ⊎ (R.is_live self.old.registry ≡ false)
            → (result ≡ Err Refusal.Failed) × (self.new ≡ self.old) }
        // What its journal has stays, and the entry of the command comes to it.
        ensures added { AddsEntry (J.safe self.old.journal) (J.safe self.new.journal) (asks command) result }
    {
        if self.failed {
            return Err(Refusal::Failed);
        }
        let status = self.registry.status()?;
        if breaks_form(&command) {
            return Err(Refusal::BadText);
        }
        if has_no_line(self.alloc, &command)? {
            return self.registry.obey(command);
        }
        let seconds = self.journal.seconds();
        let entry = entry_of(self.alloc, seconds, &status, &command)?;
        self.obey_noted(entry.as_bytes(), command)
    }
}
