//! What is asked for again and again is read before it is asked for.
ghost use Rattle.std.specs.Prelude.{◌≡◌, ◌⊎◌, Ok, Err, MatchResult};
ghost use Rattle.pid_service.specs.Asking.{Answers};
ghost use Rattle.pid_service.specs.Steps.Asking.{Finds};

use crate::registry::Registry;
use pid_moderation::{Refusal, Status};
use pid_service_laws::RegistryQueries;
use pid_tables::WritableDatabase;

// How many commands change fewer items than a page has, if none is an import.
const COMMANDS: u64 = 99;

// A part of what is kept in memory: with the items that were changed last comes how many accounts
// there are.
enum Part {
    Pending,
    Changes,
    Numbers,
    Top,
    Text,
}

const PARTS: [Part; 5] = [
    Part::Pending,
    Part::Changes,
    Part::Numbers,
    Part::Top,
    Part::Text,
];

// What a question was refused for, but that memory ran out. Its answer is dropped.
fn unless_short<T: Drop>(found: Result<T, Refusal>) -> Result<(), Refusal>
    ensures { MatchResult found (λ _. result ≡ Ok tt)
        (λ e. (result ≡ Err e) ⊎ ((e ≡ Refusal.Memory) × (result ≡ Ok tt))) }
{
    match found {
        Ok(found) => {
            drop(found);
            Ok(())
        }
        Err(Refusal::Memory) => Ok(()),
        Err(refusal) => Err(refusal),
    }
}

impl<C: WritableDatabase + Drop> Registry<C> {
    // Keeps a part, if memory is there for it.
    fn keep(&mut self, part: &Part) -> Result<(), Refusal>
        ensures { Finds C.Database self.old self.new result (λ h _. Unit {0}) }
    {
        match part {
            Part::Pending => self.keep_pending(),
            Part::Numbers => self.keep_numbers(true),
            Part::Top => unless_short(self.children(None)),
            Part::Changes => match self.status() {
                Ok(status) => {
                    let since = status.revision.saturating_sub(COMMANDS);
                    unless_short(self.changes(since, None))
                }
                Err(refusal) => unless_short::<Status>(Err(refusal)),
            },
            Part::Text => unless_short(self.export_length()),
        }
    }

    /// Reads all that is kept in memory, so that no question after an opening waits for it: the
    /// numbers of what is pending and of all submissions, how many accounts there are, the vendors
    /// and the classes, the items that the last 99 commands changed, and the text of all items.
    ///
    /// It answers nothing, and to be out of memory is no refusal: what does not fit is not kept, and
    /// is read when it is asked for. A registry that has failed answers `Failed`.
    pub fn prepare(&mut self) -> Result<(), Refusal>
        ensures { Answers C.Database self.old self.new result (λ h _. Unit {0}) }
    {
        if !self.live {
            return Err(Refusal::Failed);
        }
        for part in &PARTS {
            match self.keep(part) {
                Ok(()) => {}
                Err(refusal) => return Err(refusal),
            }
        }
        Ok(())
    }
}
