//! The tables of schema 1 become those of schema 2, inside a transaction.
ghost use Rattle.pid_tables.specs.Steps.Making.{MovesAll};

use crate::database::Batch;
use crate::rows::{LATEST, TableFault};
use sqlite::types::ToSql;

/// Makes tables of schema 1 those of schema 2: a table of the numbers of changes, where each item
/// has 0, and the revision, which is 0. What the six tables show stays. The caller knows that the
/// tables are of schema 1: if they have a table, a view or an index of the new table's name, it
/// is refused with `Damaged` or `Store`.
pub(crate) fn move_tables<B: Batch>(tx: &mut B) -> Result<(), TableFault>
    ensures { MovesAll B.batch tx.old tx.new result }
{
    tx.write_one(
        "CREATE TABLE item_since (path TEXT NOT NULL PRIMARY KEY REFERENCES item(path) ON DELETE \
            CASCADE, since INTEGER NOT NULL) STRICT",
        &[],
    )?;
    tx.write_one(
        "INSERT INTO item_since (path, since) SELECT path, 0 FROM item",
        &[],
    )?;
    let revision = "revision".to_sql();
    let none = 0u32.to_sql();
    tx.write_one(
        "INSERT INTO meta (label, value) VALUES (?1, ?2)",
        &[revision, none],
    )?;
    let schema = "schema".to_sql();
    let latest = LATEST.to_sql();
    tx.write_one(
        "UPDATE meta SET value = ?2 WHERE label = ?1",
        &[schema, latest],
    )
}
