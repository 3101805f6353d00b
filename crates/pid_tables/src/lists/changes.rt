//! Pages of the items that were added or renamed.
ghost use Rattle.std.specs.Prelude.{
  ◌≡◌,
  ◌∷◌,
  [],
  List,
  map,
  Some,
};
ghost use Rattle.std.specs.Option.{option_copied};
ghost use Rattle.sqlite_value.specs.Value.{owned};
ghost use Rattle.pid_tables.specs.Rows.Clauses.{Reads};
ghost use Rattle.pid_tables.specs.Lists.Steps.Clauses.{ReadsOf};
ghost use Rattle.pid_tables.specs.Lists.Steps.Adding.{Adds};
ghost use Rattle.pid_tables.specs.Rows.TableRows.{number};
ghost use Rattle.pid_moderation.specs.ChangePages.{
  AreHeld,
  Changed,
  changed_of,
  changes_in,
  page_of as told_page,
  start_text,
};
ghost use Rattle.pid_tables.specs.Lists.Steps.ChangeRows.{
  AreChangesIn,
  IsChangeIn,
  held as held_number,
};

use crate::database::Database;
use crate::lists::adding::push_last;
use crate::lists::paths::text_or_empty;
use crate::rows::TableFault;
use crate::rows::run::read_rows;
use crate::rows::value::{path_at, whole_at};
use crate::tables::Tables;
use pid_ident::Path;
use pid_moderation::{ChangedItem, Changes, PAGE};
use sqlite::Row;
use sqlite::types::{ToSql, ValueRef};
use std::alloc::Global;

// A number as a query asks for it: for one that SQLite does not hold, the greatest that it holds.
fn clamp_to_i64<'a>(whole: u64) -> ValueRef<'a>
    ensures { owned result ≡ number (held_number whole) }
{
    match i64::try_from(whole) {
        Ok(whole) => ValueRef::Int(whole),
        Err(_) => ValueRef::Int(i64::MAX),
    }
}

impl<C: Database + Drop> Tables<C> {
    // Adds the item of a row, which has its path and the number of its last change.
    fn add_changed(
        &mut self,
        items: &mut Vec<ChangedItem>,
        alloc: Global,
        row: &Row,
    ) -> Result<(), TableFault>
        ensures { ReadsOf C.state self.old.conn self.new.conn result
            (λ v item. IsChangeIn v item row.now)
            (λ item _. Adds changed_of items.old.items items.new.items (item ∷ [])) }
    {
        let path = path_at(row, 0)?;
        let since = whole_at(row, 1)?;
        match self.item(alloc, &path)? {
            Some(name) => push_last(items, ChangedItem { path, name, since }),
            None => Err(TableFault::Damaged),
        }
    }

    // The items of rows, in their order.
    fn changed_items(&mut self, alloc: Global, rows: &[Row]) -> Result<Vec<ChangedItem>, TableFault>
        ensures { ReadsOf C.state self.old.conn self.new.conn result
            (λ v (all : List Changed). AreChangesIn v all rows.now)
            (λ all items. map changed_of items.items ≡ all) }
    {
        let mut items = Vec::new(alloc);
        for row in rows {
            self.add_changed(&mut items, alloc, row)?;
        }
        Ok(items)
    }

    /// The first items whose names were changed by a command after this number, and whose paths
    /// come after that path, `PAGE` at most; with the revision. From no path on, and then from the
    /// last path that was listed, pages go through all of them. Items without such a change are
    /// passed over, row by row.
    ///
    /// It holds of views whose numbers SQLite holds, as those of every history do whose revision is
    /// within its limit.
    pub fn changes_page(
        &mut self,
        alloc: Global,
        since: u64,
        after: Option<&Path>,
    ) -> Result<Changes, TableFault>
        ensures { Reads C.state self.old.conn self.new.conn result
            (λ v changes. AreHeld v → told_page changes
            ≡ changes_in PAGE since (start_text (option_copied after.entry)) v) }
    {
        let revision = self.revision()?;
        let start = text_or_empty(alloc, after)?;
        let after = start.as_str().to_sql();
        let since = clamp_to_i64(since);
        let rows = read_rows(
            self,
            "SELECT path, since FROM item_since WHERE path > ?1 AND since > ?2 ORDER BY path LIMIT 100",
            &[after, since],
        );
        drop(start);
        let rows = rows?;
        let listed = self.changed_items(alloc, rows.as_slice());
        drop(rows);
        let items = listed?;
        Ok(Changes { revision, items })
    }
}
