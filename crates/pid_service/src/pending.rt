//! Pages of what is pending, by the numbers that are kept in memory.
ghost use Rattle.std.specs.Prelude.{◌≡◌, map};
ghost use Rattle.pid_moderation.specs.PendingPages.{pending_in, told_of};
ghost use Rattle.pid_moderation.specs.QueuePages.{queue_in, queued_of};
ghost use Rattle.pid_service.specs.KeptViews.{HoldsPending};
ghost use Rattle.pid_service.specs.Steps.Asking.{Finds, ReadsIn};

use crate::pending_numbers::{numbers_above, read_pending_numbers};
use crate::registry::Registry;
use pid_moderation::{PAGE, Pending, Queued, Refusal};
use pid_tables::{Database, TableFault, Tables, refusal_of};
use std::alloc::Global;

/// The page by the numbers that are kept; if none are, by a walk over all submissions.
pub(crate) fn pending_by<C: Database + Drop>(
    tables: &mut Tables<C>,
    alloc: Global,
    numbers: &Option<Vec<u32>>,
    after: u32,
) -> Result<Vec<Pending>, TableFault>
    ensures { ReadsIn C.Database tables.old tables.new result
        (λ v page. HoldsPending numbers.now v
        → map told_of page.items ≡ pending_in PAGE after v) }
{
    let Some(numbers) = numbers else {
        return tables.pending_page(alloc, after);
    };
    match numbers_above(alloc, numbers.as_slice(), after) {
        Some(page) => tables.pending_at(alloc, page.as_slice()),
        None => Err(TableFault::Memory),
    }
}

/// The queue by the numbers that are kept; if none are, by a walk over all submissions.
pub(crate) fn queue_by<C: Database + Drop>(
    tables: &mut Tables<C>,
    alloc: Global,
    numbers: &Option<Vec<u32>>,
    after: u32,
) -> Result<Vec<Queued>, TableFault>
    ensures { ReadsIn C.Database tables.old tables.new result
        (λ v queue. HoldsPending numbers.now v
        → map queued_of queue.items ≡ queue_in PAGE after v) }
{
    let Some(numbers) = numbers else {
        return tables.queue_page(alloc, after);
    };
    match numbers_above(alloc, numbers.as_slice(), after) {
        Some(page) => tables.queue_at(alloc, page.as_slice()),
        None => Err(TableFault::Memory),
    }
}

impl<C: Database + Drop> Registry<C> {
    // Reads the numbers of what is pending, unless that was done, and keeps them if memory is there
    // for them.
    pub(crate) fn keep_pending(&mut self) -> Result<(), Refusal>
        ensures { Finds C.Database self.old self.new result (λ h _. Unit {0}) }
    {
        if !self.live {
            return Err(Refusal::Failed);
        }
        if self.kept.pending_read {
            return Ok(());
        }
        match read_pending_numbers(&mut self.tables, self.alloc) {
            Ok(numbers) => {
                self.kept.pending = numbers;
                self.kept.pending_read = true;
                Ok(())
            }
            Err(TableFault::Memory) => {
                self.kept.pending_read = true;
                Ok(())
            }
            Err(fault) => Err(refusal_of(fault)),
        }
    }
}
