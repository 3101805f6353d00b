//! Pages of the queue of a moderator: pending submissions, each with what a decision asks for.
ghost use Rattle.std.specs.Prelude.{◌≡◌, ◌∷◌, [], map};
ghost use Rattle.pid_moderation.specs.PendingPages.{told_of};
ghost use Rattle.pid_moderation.specs.QueuePages.{entry_in, queue_in, queued_of};
ghost use Rattle.pid_tables.specs.Rows.Clauses.{Reads};
ghost use Rattle.pid_tables.specs.Lists.ByNumber.{standings_at};
ghost use Rattle.pid_tables.specs.Lists.Steps.Adding.{Adds};

use crate::database::Database;
use crate::lists::adding::push_last;
use crate::rows::TableFault;
use crate::rows::remark::remark_count;
use crate::tables::Tables;
use pid_moderation::{PAGE, Pending, Queued};
use std::alloc::Global;

impl<C: Database + Drop> Tables<C> {
    // Adds a pending submission, with the name at its path and the count of its remarks.
    fn add_queued(
        &mut self,
        queue: &mut Vec<Queued>,
        alloc: Global,
        pending: Pending,
    ) -> Result<(), TableFault>
        ensures { Reads C.state self.old.conn self.new.conn result
            (λ v _. Adds queued_of queue.old.items queue.new.items (entry_in v (told_of pending) ∷ [])) }
    {
        match remark_count(self, pending.number) {
            Err(fault) => {
                drop(pending);
                Err(fault)
            }
            Ok(remarks) => match self.item(alloc, &pending.submission.path) {
                Err(fault) => {
                    drop(pending);
                    Err(fault)
                }
                Ok(now) => {
                    let Pending { number, submission } = pending;
                    let queued = Queued {
                        number,
                        submission,
                        now,
                        remarks,
                    };
                    push_last(queue, queued)
                }
            },
        }
    }

    // Pending submissions, each with the rest.
    fn queue_of(&mut self, alloc: Global, page: Vec<Pending>) -> Result<Vec<Queued>, TableFault>
        ensures { Reads C.state self.old.conn self.new.conn result
            (λ v queue. map queued_of queue.items ≡ map (entry_in v) (map told_of page.items)) }
    {
        let mut queue = Vec::new(alloc);
        for pending in page {
            self.add_queued(&mut queue, alloc, pending)?;
        }
        Ok(queue)
    }

    /// The first pending submissions whose numbers are above a number, at most a page of them, each
    /// with the name that its path has today and the count of the remarks on it. Decided ones are
    /// passed over, row by row; the rest of an entry is read by its key.
    pub fn queue_page(&mut self, alloc: Global, after: u32) -> Result<Vec<Queued>, TableFault>
        ensures { Reads C.state self.old.conn self.new.conn result
            (λ v queue. map queued_of queue.items ≡ queue_in PAGE after v) }
    {
        let page = self.pending_page(alloc, after)?;
        self.queue_of(alloc, page)
    }

    /// The same for the submissions with these numbers, for a caller that knows which are pending. A
    /// number that no submission has is passed over. All is read by keys.
    pub fn queue_at(&mut self, alloc: Global, numbers: &[u32]) -> Result<Vec<Queued>, TableFault>
        ensures { Reads C.state self.old.conn self.new.conn result
            (λ v queue. map queued_of queue.items ≡ map (entry_in v) (standings_at numbers.now v)) }
    {
        let page = self.pending_at(alloc, numbers)?;
        self.queue_of(alloc, page)
    }
}
