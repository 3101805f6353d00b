//! Which tables of the schema a database has.
ghost use Rattle.std.specs.Prelude.{
  ◌≡◌,
  ◌↔◌,
  ◌<◌,
  [],
  length,
  false,
  true,
  IsTrue,
  IfOk,
  IfErr,
  OnOk,
};
ghost use Rattle.std.specs.List.{Any};
ghost use Rattle.sqlite.specs.Held.{state};
ghost use Rattle.pid_tables.specs.Rows.Faults.{IsMemoryOrStore};
ghost use Rattle.pid_tables.specs.Rows.Steps.Faults.{fault_of_sql};
ghost use Rattle.pid_tables.specs.declared.rows.fault.TableFault.TheVariants.{Damaged};
ghost use Rattle.pid_moderation.specs.Views.{Views};
ghost use Rattle.pid_tables.specs.Rows.Steps.Queries.{IsQuery};
ghost use Rattle.pid_tables.specs.Rows.Schema.{pid_schema};
ghost use Rattle.pid_tables.specs.Check.Steps.Asking.{AsksTables};
ghost use Rattle.pid_tables.specs.Check.Steps.Clauses.{Asks};
ghost use Rattle.pid_tables.specs.Check.Shapes.{CanBeAsked, HasEachTable};
ghost use Rattle.pid_tables.specs.Check.Steps.Shapes.{HasTablesOf};
ghost use Rattle.pid_tables.specs.Check.Queries.{query_of};
ghost use Rattle.pid_tables.specs.Rows.Clauses.{
  AtRest,
  HasCleanDisk,
  IsCaused,
  Reads,
  is_open,
};

use crate::database::Database;
use crate::rows::{TableFault, Version};
use crate::tables::Tables;
use sqlite::Error;

// No text is refused as damage but one that is not understood.
pub(crate) fn unasked(error: Error) -> Result<bool, TableFault>
    ensures refused { IfOk result (λ asked. (asked ≡ false) × (fault_of_sql error ≡ Damaged)) }
    ensures only_store { IfErr result IsMemoryOrStore }
    ensures told { IfErr result (λ fault. fault ≡ fault_of_sql error) }
{
    match TableFault::from(error) {
        TableFault::Damaged => Ok(false),
        fault => Err(fault),
    }
}

/// Whether a query can be asked, as `Database::can_ask` answers it.
pub(crate) fn can_ask<C: Database + Drop>(
    tables: &mut Tables<C>,
    sql: &str,
) -> Result<bool, TableFault>
    ensures asks { Asks C.state tables.old.conn tables.new.conn result
        (λ d asked. IsTrue asked ↔ CanBeAsked d.schema sql.now) }
    ensures was_open { HasCleanDisk C.state tables.new.conn
        → OnOk result (IsTrue (is_open C.state tables.old.conn)) }
    ensures caused { HasCleanDisk C.state tables.new.conn → (v : Views)
        → AtRest C.state tables.old.conn v → IsQuery pid_schema sql.now []
        → IfErr result (IsCaused C.state tables.old.conn tables.new.conn) }
{
    tables.conn.can_ask(sql)
}

/// The tables of the schemas; the last is in schema 2 alone.
#[derive(Clone, Copy)]
pub enum Table {
    Meta,
    Account,
    Item,
    Submission,
    Remark,
    Receipt,
    Since,
}

/// The tables that both schemas have.
pub(crate) const SIX: [Table; 6] = [
    Table::Meta,
    Table::Account,
    Table::Item,
    Table::Submission,
    Table::Remark,
    Table::Receipt,
];

const SEVEN: [Table; 7] = [
    Table::Meta,
    Table::Account,
    Table::Item,
    Table::Submission,
    Table::Remark,
    Table::Receipt,
    Table::Since,
];

// It asks for a table of this name, whatever its columns.
const ANY_SINCE: &str = "SELECT count(*) FROM item_since";

/// The query of a table: it asks for the columns by their names.
pub(crate) fn query(table: Table) -> &'static str
    ensures { result.now ≡ query_of table }
{
    match table {
        Table::Meta => "SELECT label, value FROM meta",
        Table::Account => "SELECT name, rank FROM account",
        Table::Item => "SELECT path, name FROM item",
        Table::Submission => {
            "SELECT num, author, path, form, name, note, state, decider, reason FROM submission"
        }
        Table::Remark => "SELECT num, seq, author, body FROM remark",
        Table::Receipt => "SELECT account, token, kind, a, b, c FROM receipt",
        Table::Since => "SELECT path, since FROM item_since",
    }
}

/// Whether the query of one of the tables can be asked; or, if `can` is false, cannot be.
pub(crate) fn some_can<C: Database + Drop>(
    tables: &mut Tables<C>,
    listed: &[Table],
    can: bool,
) -> Result<bool, TableFault>
    ensures asks { Asks C.state tables.old.conn tables.new.conn result (λ d some. IsTrue some
        ↔ Any (λ t. IsTrue can ↔ CanBeAsked d.schema (query_of t)) listed.now) }
    ensures was_open { HasCleanDisk C.state tables.new.conn → 0 < length listed.now
        → OnOk result (IsTrue (is_open C.state tables.old.conn)) }
    ensures caused { HasCleanDisk C.state tables.new.conn → (v : Views)
        → AtRest C.state tables.old.conn v
        → IfErr result (IsCaused C.state tables.old.conn tables.new.conn) }
{
    for table in listed {
        if can_ask(tables, query(*table))? == can {
            return Ok(true);
        }
    }
    Ok(false)
}

/// Whether some of the seven tables is there: whether a query of its columns by their names can be
/// prepared. Nothing is said of its rows.
pub fn has_some_table<C: Database + Drop>(tables: &mut Tables<C>) -> Result<bool, TableFault>
    ensures reads { Reads C.state tables.old.conn tables.new.conn result (λ v some. some ≡ true) }
    ensures found { AsksTables C.state tables.old.conn tables.new.conn result }
{
    some_can(tables, &SEVEN, true)
}

/// Of which schema the tables are, if each of the six is there.
pub(crate) fn tables_of<C: Database + Drop>(
    tables: &mut Tables<C>,
) -> Result<Option<Version>, TableFault>
    ensures { Asks C.state tables.old.conn tables.new.conn result
        (λ d found. HasEachTable d.schema → HasTablesOf found d.schema) }
{
    if !can_ask(tables, ANY_SINCE)? {
        return Ok(Some(Version::One));
    }
    if can_ask(tables, query(Table::Since))? {
        return Ok(Some(Version::Two));
    }
    Ok(None)
}
