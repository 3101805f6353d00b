//! One query at a time.
ghost use Rattle.std.specs.Prelude.{IfOk};
ghost use Rattle.sqlite.specs.Values.{bound};
ghost use Rattle.pid_tables.specs.Rows.Clauses.{HasCleanDisk, OnlyReads};
ghost use Rattle.pid_tables.specs.Rows.Steps.Clauses.{FaultsQuery, ShowsApart};

use crate::database::Database;
use crate::rows::fault::TableFault;
use crate::tables::Tables;
use sqlite::Row;
use sqlite::types::ValueRef;

/// The rows of one query, as `Database::read_rows` answers them.
pub fn read_rows<C: Database + Drop>(
    tables: &mut Tables<C>,
    sql: &str,
    params: &[ValueRef<'_>],
) -> Result<Vec<Row>, TableFault>
    ensures rests { OnlyReads C.state tables.old.conn tables.new.conn }
    ensures shown { HasCleanDisk C.state tables.new.conn → IfOk result
        (λ rows. ShowsApart C.state sql.now (bound params.now) tables.old.conn rows.items) }
    ensures faults { FaultsQuery C.state sql.now (bound params.now) tables.old.conn tables.new.conn
        result }
{
    tables.conn.read_rows(sql, params)
}
