//! The table of counts and of the revision.
ghost use Rattle.std.specs.Prelude.{
  ◌≡◌,
  IfOk,
  IfErr,
  MatchResult,
  Ok,
  codes,
  length,
  option_map,
  slice_get,
};
ghost use Rattle.sqlite.specs.Listing.{understood};
ghost use Rattle.sqlite_resolve.specs.declared.compiled.Compiled.{Compiled};
ghost use Rattle.pid_tables.specs.Rows.Steps.Answers.{value_row};
ghost use Rattle.pid_tables.specs.Rows.Faults.{IsMemoryOrStore, IsNotNewerSchema};
ghost use Rattle.pid_tables.specs.Rows.LabelRows.{
  ExplainsNumber,
  HasLabel,
  IsDamageOf,
  ShowsNoNumber,
  ShowsNumber,
  ShowsValues,
  value_text,
};
ghost use Rattle.pid_tables.specs.Rows.Steps.LabelRows.{IsMetaFirst};
ghost use Rattle.pid_tables.specs.Rows.Schema.{latest};
ghost use Rattle.pid_tables.specs.Rows.Shows.{counts_of};
ghost use Rattle.pid_tables.specs.Rows.Steps.Shows.{meta_of};
ghost use Rattle.pid_tables.specs.Rows.Steps.Turns.{recounting};
ghost use Rattle.pid_tables.specs.Rows.Steps.Writes.{with_revision};
ghost use Rattle.pid_tables.specs.Rows.Clauses.{HasCleanDisk, Reads, seen};
ghost use Rattle.pid_tables.specs.Rows.Steps.Clauses.{ChangesTo, LeadsTo, ReadsLabel};

use crate::database::{Batch, Database};
use crate::rows::fault::TableFault;
use crate::rows::run::read_rows;
use crate::rows::value::{number_at, stored, whole_at};
use crate::tables::Tables;
use sqlite::Row;
use sqlite::types::ToSql;

/// Writes how many items there are into the table of counts. It does not count them.
pub fn count_items<B: Batch>(tx: &mut B, count: u32) -> Result<(), TableFault>
    ensures { LeadsTo B.batch tx.old tx.new result
        (recounting (λ c. record c { items = count })) }
{
    let label = "items".to_sql();
    let value = count.to_sql();
    tx.write_one(
        "UPDATE meta SET value = ?2 WHERE label = ?1",
        &[label, value],
    )
}

/// Writes how many submissions there are into the table of counts. It does not count them.
pub fn count_submissions<B: Batch>(tx: &mut B, count: u32) -> Result<(), TableFault>
    ensures { LeadsTo B.batch tx.old tx.new result
        (recounting (λ c. record c { submissions = count })) }
{
    let label = "submissions".to_sql();
    let value = count.to_sql();
    tx.write_one(
        "UPDATE meta SET value = ?2 WHERE label = ?1",
        &[label, value],
    )
}

/// Writes how many commands were accepted. A number that 63 bits do not hold is refused with
/// `Store`.
pub fn set_revision<B: Batch>(tx: &mut B, revision: u64) -> Result<(), TableFault>
    ensures { ChangesTo B.batch tx.old tx.new result (λ v. Unit {0})
        (with_revision revision) }
{
    let label = "revision".to_sql();
    let value = stored(revision)?;
    tx.write_one(
        "UPDATE meta SET value = ?2 WHERE label = ?1",
        &[label, value],
    )
}

/// Reads one row and drops it: an answer of `Ok` means that the connection is open and the
/// transaction goes on.
pub fn probe_transaction<B: Batch>(tx: &mut B) -> Result<(), TableFault>
    ensures { ChangesTo B.batch tx.old tx.new result (λ v. Unit {0})
        (λ v. v) }
{
    let label = "schema".to_sql();
    tx.read_inside("SELECT value FROM meta WHERE label = ?1", &[label])?;
    Ok(())
}

fn value_rows<C: Database + Drop>(
    tables: &mut Tables<C>,
    label: &str,
) -> Result<Vec<Row>, TableFault>
    ensures reads { Reads C.state tables.old.conn tables.new.conn result
        (λ v rows. slice_get rows.items 0
        ≡ option_map value_row (meta_of (counts_of v) v.revision label.now)) }
    ensures shows { HasCleanDisk C.state tables.new.conn
        → IfOk result (λ rows. ShowsValues (seen C.state tables.old.conn) label.now rows.items) }
    ensures only_store { HasCleanDisk C.state tables.new.conn → (query : Compiled)
        → understood (seen C.state tables.old.conn).schema value_text ≡ Ok query
        → IfErr result IsMemoryOrStore }
    ensures never { IfErr result IsNotNewerSchema }
{
    let label = label.to_sql();
    read_rows(tables, "SELECT value FROM meta WHERE label = ?1", &[label])
}

// The number of one of the three labels that both schemas have.
fn count<C: Database + Drop>(tables: &mut Tables<C>, label: &str) -> Result<u32, TableFault>
    ensures { ReadsLabel C.state label.now tables.old.conn tables.new.conn result }
{
    let rows = value_rows(tables, label)?;
    match rows.first() {
        Some(row) => number_at(row, 0),
        None => Err(TableFault::Damaged),
    }
}

/// The number of the schema, by the table of counts: 1 or 2 in tables that this program made,
/// another in those of a later one. A number that is missing, or that 32 bits do not hold, is
/// `Damaged`.
pub fn schema_number<C: Database + Drop>(tables: &mut Tables<C>) -> Result<u32, TableFault>
    ensures reads { Reads C.state tables.old.conn tables.new.conn result (λ v n. n ≡ latest) }
    // Whatever the schema: it is what the query of the label answers first, and `Damaged` if
    // that is no number.
    ensures shown { HasCleanDisk C.state tables.new.conn
        → MatchResult result (ShowsNumber (seen C.state tables.old.conn) (codes "schema"))
        (IsDamageOf (ShowsNoNumber (seen C.state tables.old.conn) (codes "schema"))) }
    // The same by what storage has, if the table was made first, whatever comes after it.
    ensures stored { HasCleanDisk C.state tables.new.conn
        → IsMetaFirst (seen C.state tables.old.conn).schema
        → MatchResult result (HasLabel (seen C.state tables.old.conn).trees (codes "schema"))
        (ExplainsNumber (seen C.state tables.old.conn).trees (codes "schema")) }
    ensures never { IfErr result IsNotNewerSchema }
{
    count(tables, "schema")
}

impl<C: Database + Drop> Tables<C> {
    /// How many items there are, by the table of counts. A count that is missing, or that 32 bits do
    /// not hold, is `Damaged`.
    pub fn items(&mut self) -> Result<u32, TableFault>
        ensures { Reads C.state self.old.conn self.new.conn result (λ v n. n ≡ length v.items) }
    {
        count(self, "items")
    }

    /// How many submissions there are, by the table of counts. A count that is missing, or that 32 bits
    /// do not hold, is `Damaged`.
    pub fn submissions(&mut self) -> Result<u32, TableFault>
        ensures { Reads C.state self.old.conn self.new.conn result (λ v n. n ≡ length v.submits) }
    {
        count(self, "submissions")
    }

    /// How many commands were accepted, by the table of counts. A number that is missing, or that is no
    /// whole number, is `Damaged`.
    pub fn revision(&mut self) -> Result<u64, TableFault>
        ensures { Reads C.state self.old.conn self.new.conn result (λ v n. n ≡ v.revision) }
    {
        let rows = value_rows(self, "revision")?;
        match rows.first() {
            Some(row) => whole_at(row, 0),
            None => Err(TableFault::Damaged),
        }
    }
}
