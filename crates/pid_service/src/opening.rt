//! Opens a registry, and moves a database to the schema of today.
ghost use Rattle.std.specs.Prelude.{◌≡◌, ◌↔◌, true, false, Some, Err};
ghost use Rattle.pid_tables.specs.declared.rows.schema_version.Version.TheVariants.{Two};
ghost use Rattle.pid_service.specs.Opening.{
  ExplainsOpening,
  MovesAtOnce,
  MovesJudged,
  MovesShown,
  MovesTo,
  OpensAtOnce,
  OpensRegistry,
  OpensTo,
  connection_left,
  opening_end,
};
ghost use Rattle.pid_service.specs.Steps.Opening.{IsMadeReady, JudgesTables};

use crate::kept_views::KeptViews;
use crate::registry::Registry;
use pid_tables::{Database, Step, TableFault, Tables, Version, WritableDatabase};
use std::alloc::Global;

fn is_today(found: Option<Version>) -> bool
    ensures { result ≡ true ↔ (found ≡ Some Two) }
{
    match found {
        Some(Version::Two) => true,
        Some(Version::One) | None => false,
    }
}

// Judges tables in the schema of today. There are no others after a migration.
fn judge_tables<C: Database + Drop>(tables: &mut Tables<C>, alloc: Global) -> Result<(), TableFault>
    ensures { JudgesTables C.Database tables.old tables.new result }
{
    let _outside = tables.conn.is_autocommit(); // proof only
    match tables.check(alloc) {
        Err(fault) => Err(fault),
        Ok(found) => {
            if is_today(found) {
                Ok(())
            } else {
                Err(TableFault::Store)
            }
        }
    }
}

// Makes the tables if there is none, moves those of schema 1, and judges them.
fn make_ready<C: WritableDatabase + Drop>(
    tables: &mut Tables<C>,
    alloc: Global,
) -> Result<(), TableFault>
    ensures { IsMadeReady C.Database tables.old tables.new result }
{
    let _outside = tables.conn.is_autocommit(); // proof only
    match tables.migrate(alloc) {
        Err(fault) => Err(fault),
        Ok(_) => judge_tables(tables, alloc),
    }
}

/// Opens the registry whose tables the connection has, or makes a new one if it has none of
/// them. Tables of an older schema are moved first, as `migrate` does.
///
/// If it fails it hands the connection back: `NewerSchema` of a schema that is later than this
/// one, which is judged first; `Damaged` of tables that break a condition (docs/STORAGE.md), or
/// if something else has the name of one; else `Memory` or `Store`. A connection within a
/// transaction gets `Store` and is left alone. Other tables, indexes and views are allowed: that is
/// tested, not promised. After `Memory` and `Store` the connection that comes back shows what it
/// showed, and the call may be made again.
pub fn open<C: WritableDatabase + Drop>(
    alloc: Global,
    conn: C,
) -> Result<Registry<C>, (TableFault, C)>
    ensures busy { (C.state conn).in_transaction ≡ true → result ≡ Err (TableFault.Store, conn) }
    ensures history { OpensTo C.Database conn result }
    ensures registry { (C.state conn).in_transaction ≡ false
        → OpensRegistry C.Database conn result }
    ensures at_once { (C.state conn).in_transaction ≡ false
        → OpensAtOnce C.state conn (connection_left result) (opening_end result) }
    ensures explains { (C.state conn).in_transaction ≡ false
        → ExplainsOpening C.state conn (connection_left result) (opening_end result) }
{
    if !conn.is_autocommit() {
        return Err((TableFault::Store, conn));
    }
    let Ok(kept) = KeptViews::new(alloc) else {
        return Err((TableFault::Memory, conn));
    };
    let mut tables = Tables::new(conn);
    match make_ready(&mut tables, alloc) {
        Ok(()) => Ok(Registry {
            tables,
            kept,
            live: true,
            alloc,
        }),
        Err(fault) => {
            drop(kept);
            Err((fault, tables.into_conn()))
        }
    }
}

/// Moves a database to the schema of today, in one transaction: it makes the tables if there is
/// none (`Created`), moves those of schema 1, once all its conditions were judged (`Moved`), and
/// leaves those of schema 2 unjudged (`Already`).
///
/// The history stays the same. That of schema 1 is before the mark: each name has the number 0,
/// and so has the revision. If it fails, it hands the connection back, as `open` does, with the
/// same faults.
pub fn migrate<C: WritableDatabase + Drop>(
    alloc: Global,
    conn: C,
) -> Result<(C, Step), (TableFault, C)>
    ensures busy { (C.state conn).in_transaction ≡ true → result ≡ Err (TableFault.Store, conn) }
    ensures history { MovesTo C.state conn result }
    ensures at_once { (C.state conn).in_transaction ≡ false → MovesAtOnce C.state conn result }
    ensures shown { (C.state conn).in_transaction ≡ false → MovesShown C.state conn result }
    ensures judged { (C.state conn).in_transaction ≡ false → MovesJudged C.state conn result }
{
    if !conn.is_autocommit() {
        return Err((TableFault::Store, conn));
    }
    let mut tables = Tables::new(conn);
    let moved = tables.migrate(alloc);
    let conn = tables.into_conn();
    match moved {
        Ok(step) => Ok((conn, step)),
        Err(fault) => Err((fault, conn)),
    }
}
