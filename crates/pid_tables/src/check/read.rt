//! The rows of one table, one at a time.
ghost use Rattle.std.specs.Prelude.{◌≡◌, ◌++◌, ◌∷◌, List, [], suc, IfOk, IfErr, OnOk};
ghost use Rattle.sqlite.specs.Order.{Row as Values};
ghost use Rattle.pid_tables.specs.Rows.Faults.{IsMemoryOrStore};
ghost use Rattle.pid_tables.specs.Check.Steps.Clauses.{KeepsTable};

use crate::check::schema::Table;
use crate::database::Database;
use crate::rows::TableFault;
use crate::tables::Tables;
use sqlite::Row;

/// Keeps of rows what judging them needs.
pub trait RowFold {
    ghost use Rattle.std.specs.Prelude.{List};
    ghost use Rattle.sqlite.specs.Order.{Row as Values};

    /// The keeper at first, the rows that it took since, and the keeper now.
    ghost keeps: { Self → List Values → Self → Type 0 };

    /// Takes one more row.
    fn keep(&mut self, row: &Row) -> Result<(), TableFault>
        ensures kept { (first : Self) (rows : List Values) → keeps first rows self.old
            → OnOk result (keeps first (rows ++ row.now ∷ []) self.new) }
        ensures only_store { IfErr result IsMemoryOrStore };
}

/// Hands each row of a table to a keeper, as `Database::fold_rows` does.
pub(crate) fn fold_rows<C: Database + Drop, K: RowFold>(
    tables: &mut Tables<C>,
    table: Table,
    keeper: &mut K,
) -> Result<(), TableFault>
    ensures { KeepsTable C.state tables.old.conn tables.new.conn result table
        (λ rows x. K.keeps keeper.old [] keeper.old
        → K.keeps keeper.old rows keeper.new) }
{
    tables.conn.fold_rows(table, keeper)
}

/// The count of rows with one more.
pub(crate) fn checked_next(count: u64) -> Result<u64, TableFault>
    ensures next { IfOk result (λ next. next ≡ suc count) }
    ensures only_store { IfErr result IsMemoryOrStore }
{
    match count.checked_add(1) {
        Some(next) => Ok(next),
        None => Err(TableFault::Memory),
    }
}
