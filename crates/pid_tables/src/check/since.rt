//! The numbers of changes: each item has one, which is at most the revision.
ghost use Rattle.std.specs.Prelude.{◌↔◌, false, IsTrue};
ghost use Rattle.pid_tables.specs.Check.Conditions.{IsSinceRow};
ghost use Rattle.pid_tables.specs.Check.Steps.PathSets.{HasPath};
ghost use Rattle.pid_tables.specs.Check.Steps.Clauses.{KeepsTable};
ghost use Rattle.pid_tables.specs.Check.Steps.Keeping.{GoWith};
ghost use Rattle.pid_tables.specs.declared.check.schema.Table.TheVariants as table;

use crate::check::item::add_path;
use crate::check::read::{RowFold, fold_rows};
use crate::check::schema::Table;
use crate::check::value::is_within;
use crate::database::Database;
use crate::rows::TableFault;
use crate::tables::Tables;
use pid_ident::Path;
use sqlite::Row;
use std::alloc::Global;
use std::collections::BTreeSet;

// Whether a row is one of a number. It is known whether it has a path.
fn is_since_row(row: &Row, has_path: bool, revision: u64) -> bool
    ensures { (IsTrue has_path ↔ HasPath row.now) → IsTrue result ↔ IsSinceRow revision row.now }
{
    if !has_path {
        return false;
    }
    if row.column_count() != 2 {
        return false;
    }
    is_within(row, 1, revision)
}

// What judging the numbers takes of the rows so far.
#[derive(Drop)]
struct SinceFold {
    revision: u64,
    good: bool,
    paths: BTreeSet<Path>,
}

impl RowFold for SinceFold {
    ghost use Rattle.pid_tables.specs.Check.Steps.Keeping.{TakesSinces};

    ghost keeps = { TakesSinces };

    fn keep(&mut self, row: &Row) -> Result<(), TableFault> {
        let has_path = add_path(&mut self.paths, row)?;
        self.good &= is_since_row(row, has_path, self.revision);
        Ok(())
    }
}

/// Reads the numbers of changes, and judges whether they go with the paths of the items and the
/// revision.
pub(crate) fn read_sinces<C: Database + Drop>(
    tables: &mut Tables<C>,
    items: &BTreeSet<Path>,
    revision: u64,
    alloc: Global,
) -> Result<bool, TableFault>
    ensures { KeepsTable C.state tables.old.conn tables.new.conn result table.Since
        (GoWith items.now revision) }
{
    let mut keeper = SinceFold {
        revision,
        good: true,
        paths: BTreeSet::new(alloc),
    };
    fold_rows(tables, Table::Since, &mut keeper)?;
    Ok(keeper.good & items.is_subset(&keeper.paths))
}
