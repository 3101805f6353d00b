//! What a question reads.
ghost use Rattle.std.specs.Prelude.{◌≡◌};
ghost use Rattle.pid_service.specs.Steps.Asking.{Finds, answered_as};

use crate::registry::Registry;
use pid_moderation::Refusal;
use pid_tables::searches::Searches;
use pid_tables::{Database, TableFault, refusal_of};

/// What was found in the tables, or the refusal that their fault is answered as.
pub(crate) fn fault_as_refusal<T>(found: Result<T, TableFault>) -> Result<T, Refusal>
    ensures { result ≡ answered_as found }
{
    match found {
        Ok(found) => Ok(found),
        Err(fault) => Err(refusal_of(fault)),
    }
}

impl<C: Database + Drop> Registry<C> {
    // Reads the numbers of all submissions, if they are wanted, unless that was done, and keeps them
    // if memory is there for them.
    pub(crate) fn keep_numbers(&mut self, wanted: bool) -> Result<(), Refusal>
        ensures { Finds C.Database self.old self.new result (λ h _. Unit {0}) }
    {
        if !self.live {
            return Err(Refusal::Failed);
        }
        if !wanted {
            return Ok(());
        }
        let Searches::Unread = &self.kept.numbers else {
            return Ok(());
        };
        match self.tables.read_numbers(self.alloc) {
            Ok(numbers) => {
                self.kept.numbers = numbers;
                Ok(())
            }
            Err(TableFault::Memory) => {
                self.kept.numbers = Searches::Lacking;
                Ok(())
            }
            Err(fault) => Err(refusal_of(fault)),
        }
    }
}
