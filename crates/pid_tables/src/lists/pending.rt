//! Pages of pending submissions.
ghost use Rattle.std.specs.Prelude.{
  ◌≡◌,
  ◌∷◌,
  [],
  ℕ,
  List,
  map,
  MatchResult,
};
ghost use Rattle.std.specs.List.{AllByRecursion};
ghost use Rattle.sqlite.specs.Held.{state};
ghost use Rattle.pid_moderation.specs.Views.{Views};
ghost use Rattle.pid_tables.specs.Rows.Steps.Unread.{IsDamagedRow};
ghost use Rattle.pid_moderation.specs.Submissions.{Standing};
ghost use Rattle.pid_moderation.specs.PendingPages.{pending_in, told_of};
ghost use Rattle.pid_tables.specs.Lists.ByNumber.{standings_at};
ghost use Rattle.pid_tables.specs.Lists.Steps.Adding.{Adds};
ghost use Rattle.pid_tables.specs.Lists.Steps.PendingRows.{
  ArePendingIn,
  IsPendingIn,
  IsReadablePending,
};
ghost use Rattle.pid_tables.specs.Rows.Clauses.{Reads};

use crate::database::Database;
use crate::lists::adding::push_last;
use crate::rows::TableFault;
use crate::rows::run::read_rows;
use crate::rows::submission::{standing, submission_of};
use crate::rows::value::number_at;
use crate::tables::Tables;
use pid_moderation::{PAGE, Pending};
use sqlite::Row;
use sqlite::types::ToSql;
use std::alloc::Global;

fn add_pending(page: &mut Vec<Pending>, row: &Row, alloc: Global) -> Result<(), TableFault>
    ensures { (v : Views) (s : ℕ × Standing) → IsPendingIn v s row.now → MatchResult result
        (λ _. Adds told_of page.old.items page.new.items (s ∷ []))
        (IsDamagedRow (IsReadablePending s)) }
{
    pid_ident::laws::texts_have_one_path(); // proof only
    let number = number_at(row, 8)?;
    let submission = submission_of(row, alloc)?;
    push_last(page, Pending { number, submission })
}

fn page_of(rows: &[Row], alloc: Global) -> Result<Vec<Pending>, TableFault>
    ensures { (v : Views) (all : List (ℕ × Standing)) → ArePendingIn v all rows.now
        → MatchResult result (λ page. map told_of page.items ≡ all)
        (IsDamagedRow (AllByRecursion IsReadablePending all)) }
{
    let mut page = Vec::new(alloc);
    for row in rows {
        add_pending(&mut page, row, alloc)?;
    }
    Ok(page)
}

// Adds the submission with a number, as a pending one; nothing if there is none.
fn add_numbered<C: Database + Drop>(
    page: &mut Vec<Pending>,
    tables: &mut Tables<C>,
    alloc: Global,
    number: u32,
) -> Result<(), TableFault>
    ensures { Reads C.state tables.old.conn tables.new.conn result
        (λ v _. Adds told_of page.old.items page.new.items (standings_at (number ∷ []) v)) }
{
    match standing(tables, alloc, number)? {
        None => Ok(()),
        Some(submission) => push_last(page, Pending { number, submission }),
    }
}

impl<C: Database + Drop> Tables<C> {
    /// The first pending submissions whose numbers are above a number, `PAGE` at most. From 0 on,
    /// and then from the last number that was listed, pages go through all that are pending.
    /// Decided ones are passed over, row by row.
    pub fn pending_page(&mut self, alloc: Global, after: u32) -> Result<Vec<Pending>, TableFault>
        ensures { Reads C.state self.old.conn self.new.conn result
            (λ v page. map told_of page.items ≡ pending_in PAGE after v) }
    {
        let after = after.to_sql();
        let rows = read_rows(
            self,
            "SELECT author, path, form, name, note, state, decider, reason, num FROM submission \
                WHERE state = 0 AND num > ?1 ORDER BY num LIMIT 100",
            &[after],
        )?;
        page_of(rows.as_slice(), alloc)
    }

    /// The submissions with these numbers, in the order of the numbers, for a caller that knows which
    /// are pending: one that was decided is listed too. A number that no submission has is passed over.
    /// Each is read by its key.
    pub fn pending_at(&mut self, alloc: Global, numbers: &[u32]) -> Result<Vec<Pending>, TableFault>
        ensures { Reads C.state self.old.conn self.new.conn result
            (λ v page. map told_of page.items ≡ standings_at numbers.now v) }
    {
        let mut page = Vec::new(alloc);
        for number in numbers {
            add_numbered(&mut page, self, alloc, *number)?;
        }
        Ok(page)
    }
}
