//! Makes the tables in a database that has none.
ghost use Rattle.std.specs.Prelude.{
  ◌≡◌,
  ℕ,
  [],
  ◌∷◌,
  false,
  None,
  List,
  IfErr,
  MatchResult,
  IsTrue,
};
ghost use Rattle.sqlite.specs.declared.types.Value.TheVariants.{Text};
ghost use Rattle.pid_tables.specs.Rows.Faults.{IsMemoryOrStore, IsNotNewerSchema};
ghost use Rattle.pid_tables.specs.Rows.PairRows.{Map};
ghost use Rattle.pid_tables.specs.Rows.TableRows.{number};
ghost use Rattle.pid_tables.specs.Statements.{Carries, new_label_text, registry_statements};
ghost use Rattle.pid_tables.specs.Steps.MakingTables.{HasOnlyMeta, with_label};
ghost use Rattle.pid_tables.specs.Steps.Making.{
  CarriesInside,
  FillsRegistry,
  LabelsAll,
  MakesAll,
  MakesOne,
  MakesThree,
};
ghost use Rattle.pid_tables.specs.Rows.Clauses.{HasCleanDisk, seen};
ghost use Rattle.pid_tables.specs.Clauses.{MakesNew, MakesNothing, WritesAtOnce};

use crate::database::{Batch, Database};
use crate::rows::{LATEST, TableFault};
use pid_moderation::Rank;
use sqlite::Connection;
use sqlite::types::ToSql;

// The tables, in the order in which they are made.
const META: &str =
    "CREATE TABLE meta (label TEXT NOT NULL PRIMARY KEY, value INTEGER NOT NULL) STRICT";

const ACCOUNT: &str =
    "CREATE TABLE account (name TEXT NOT NULL PRIMARY KEY, rank INTEGER NOT NULL CHECK (rank \
        BETWEEN 0 AND 3)) STRICT";

const ITEM: &str = "CREATE TABLE item (path TEXT NOT NULL PRIMARY KEY, name TEXT NOT NULL) STRICT";

const SUBMISSION: &str =
    "CREATE TABLE submission (num INTEGER NOT NULL PRIMARY KEY, author TEXT NOT NULL REFERENCES \
        account(name), path TEXT NOT NULL, form INTEGER NOT NULL CHECK (form BETWEEN 0 AND 1), \
        name TEXT NOT NULL, note TEXT NOT NULL, state INTEGER NOT NULL CHECK (state BETWEEN 0 AND \
        3), decider TEXT NOT NULL, reason TEXT NOT NULL) STRICT";

const REMARK: &str =
    "CREATE TABLE remark (num INTEGER NOT NULL REFERENCES submission(num), seq INTEGER NOT NULL, \
        author TEXT NOT NULL REFERENCES account(name), body TEXT NOT NULL, PRIMARY KEY (num, seq)) \
        STRICT";

const RECEIPT: &str =
    "CREATE TABLE receipt (account TEXT NOT NULL REFERENCES account(name), token TEXT NOT NULL, \
        kind INTEGER NOT NULL, a INTEGER NOT NULL, b INTEGER NOT NULL, c INTEGER NOT NULL, PRIMARY \
        KEY (account, token)) STRICT";

const ITEM_SINCE: &str =
    "CREATE TABLE item_since (path TEXT NOT NULL PRIMARY KEY REFERENCES item(path) ON DELETE \
        CASCADE, since INTEGER NOT NULL) STRICT";

fn make_table<B: Batch>(tx: &mut B, sql: &str) -> Result<(), TableFault>
    ensures { MakesOne B.batch sql.now tx.old tx.new result }
{
    tx.write_one(sql, &[])
}

// Makes three tables in turn.
fn make_three<B: Batch>(
    tx: &mut B,
    first: &str,
    second: &str,
    third: &str,
) -> Result<(), TableFault>
    ensures { MakesThree B.batch first.now second.now third.now tx.old tx.new result }
{
    make_table(tx, first)?;
    make_table(tx, second)?;
    make_table(tx, third)
}

fn make_tables<B: Batch>(tx: &mut B) -> Result<(), TableFault>
    ensures { MakesAll B.batch tx.old tx.new result }
{
    make_three(tx, META, ACCOUNT, ITEM)?;
    make_three(tx, SUBMISSION, REMARK, RECEIPT)?;
    make_table(tx, ITEM_SINCE)
}

fn add_label<B: Batch>(tx: &mut B, label: &str, value: u32) -> Result<(), TableFault>
    ensures works { CarriesInside B.batch tx.old tx.new result
        ((new_label_text, Text label.now ∷ number value ∷ []) ∷ []) }
    ensures never { IfErr result IsNotNewerSchema }
    ensures added { HasCleanDisk B.batch.state tx.new → IsTrue (B.batch.state tx.old).in_transaction
        → (m : Map (List ℕ) ℕ) → HasOnlyMeta m (seen B.batch.state tx.old)
        → m label.now ≡ None
        → MatchResult result (λ _. HasOnlyMeta (with_label label.now value m)
        (seen B.batch.state tx.new)) IsMemoryOrStore }
{
    let label = label.to_sql();
    let value = value.to_sql();
    tx.write_one(
        "INSERT INTO meta (label, value) VALUES (?1, ?2)",
        &[label, value],
    )
}

fn add_labels<B: Batch>(tx: &mut B) -> Result<(), TableFault>
    ensures { LabelsAll B.batch tx.old tx.new result }
{
    add_label(tx, "revision", 0)?;
    add_label(tx, "submissions", 0)?;
    add_label(tx, "items", 0)?;
    add_label(tx, "schema", LATEST)
}

pub(crate) fn make_registry<B: Batch>(tx: &mut B) -> Result<(), TableFault>
    ensures { FillsRegistry B.batch tx.old tx.new result }
{
    make_tables(tx)?;
    add_labels(tx)?;
    // The one account of a new registry.
    let name = "root".to_sql();
    let rank = u32::from(Rank::Administrator.number()).to_sql();
    tx.write_one(
        "INSERT INTO account (name, rank) VALUES (?1, ?2)",
        &[name, rank],
    )
}
