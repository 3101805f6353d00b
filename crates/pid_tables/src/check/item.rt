//! Items: each is a name at a path whose parent is there too, and there are at most 100,000.
ghost use Rattle.std.specs.Prelude.{
  ◌≡◌,
  ◌↔◌,
  ◌++◌,
  ◌∷◌,
  List,
  [],
  true,
  false,
  Some,
  IsTrue,
  IfOk,
  IfErr,
  OnOk,
};
ghost use Rattle.std.specs.BTreeSet.{contains};
ghost use Rattle.sqlite.specs.Order.{Row as Values};
ghost use Rattle.pid_ident.specs.PathTexts.{IsPath, parent_of};
ghost use Rattle.pid_file.specs.Steps.Paths.{path_cmp};
ghost use Rattle.pid_tables.specs.Check.Steps.PathSets.{
  ArePathsOf,
  HasPath,
  HasEachParent,
  IsItemAlone,
};
ghost use Rattle.pid_tables.specs.Check.Steps.Clauses.{KeepsTable};
ghost use Rattle.pid_tables.specs.Check.Steps.Keeping.{KeepsItems};
ghost use Rattle.pid_tables.specs.declared.check.schema.Table.TheVariants as table;
ghost use Rattle.pid_tables.specs.Rows.Faults.{IsMemoryOrStore};

use crate::check::read::{RowFold, checked_next, fold_rows};
use crate::check::schema::Table;
use crate::check::words::{has_name, path_at};
use crate::database::Database;
use crate::rows::TableFault;
use crate::tables::Tables;
use pid_ident::Path;
use pid_moderation::ITEMS;
use sqlite::Row;
use std::alloc::Global;
use std::collections::BTreeSet;

/// Adds the path of a row, and answers whether it has one.
pub(crate) fn add_path(paths: &mut BTreeSet<Path>, row: &Row) -> Result<bool, TableFault>
    ensures added { (rows : List Values) → ArePathsOf paths.old rows
        → OnOk result (ArePathsOf paths.new (rows ++ row.now ∷ [])) }
    ensures there { IfOk result (λ there. IsTrue there ↔ HasPath row.now) }
    ensures only_store { IfErr result IsMemoryOrStore }
{
    match path_at(row, 0) {
        None => Ok(false),
        Some(path) => match paths.insert(path) {
            Ok(_) => Ok(true),
            Err(_) => Err(TableFault::Memory),
        },
    }
}

// Whether a row is an item's, whatever its parent. It is known whether it has a path.
fn is_item_row(row: &Row, has_path: bool) -> bool
    ensures { (IsTrue has_path ↔ HasPath row.now) → IsTrue result ↔ IsItemAlone row.now }
{
    if !has_path {
        return false;
    }
    if row.column_count() != 2 {
        return false;
    }
    has_name(row, 1)
}

fn has_parent(paths: &BTreeSet<Path>, path: Path) -> bool
    ensures parent { IsTrue result ↔ ((above : _) → parent_of path ≡ Some above
        → contains path_cmp paths.now above ≡ true) }
    ensures in_range { IsPath path }
{
    match path.parent() {
        Some(parent) => paths.contains(&parent),
        None => true,
    }
}

fn hold_parents(paths: &BTreeSet<Path>) -> bool
    ensures { IsTrue result ↔ HasEachParent paths.now }
{
    for path in paths.iter() {
        if !has_parent(paths, *path) {
            return false;
        }
    }
    true
}

/// What is kept of the items: `good` says whether each row so far is by itself an item's, and once
/// all are read, whether they are those of a registry.
#[derive(Drop)]
pub(crate) struct Items {
    pub(crate) good: bool,
    pub(crate) count: u64,
    pub(crate) paths: BTreeSet<Path>,
}

impl RowFold for Items {
    ghost use Rattle.pid_tables.specs.Check.Steps.Keeping.{TakesItems};

    ghost keeps = { λ first rows it. TakesItems rows it };

    fn keep(&mut self, row: &Row) -> Result<(), TableFault> {
        self.count = checked_next(self.count)?;
        let has_path = add_path(&mut self.paths, row)?;
        self.good &= is_item_row(row, has_path);
        Ok(())
    }
}

/// Reads the items, and judges whether they are those of a registry.
pub(crate) fn read_items<C: Database + Drop>(
    tables: &mut Tables<C>,
    alloc: Global,
) -> Result<Items, TableFault>
    ensures { KeepsTable C.state tables.old.conn tables.new.conn result table.Item
        KeepsItems }
{
    let mut items = Items {
        good: true,
        count: 0,
        paths: BTreeSet::new(alloc),
    };
    fold_rows(tables, Table::Item, &mut items)?;
    items.good &= (items.count <= ITEMS as u64) & hold_parents(&items.paths);
    Ok(items)
}
