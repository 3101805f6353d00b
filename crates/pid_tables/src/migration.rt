//! Moves the tables of a database to schema 2.
ghost use Rattle.std.specs.Prelude.{
  ◌≡◌,
  false,
  IfErr,
  IfOk,
  IsTrue,
  MatchResult,
  OnErr,
  OnOk,
};
ghost use Rattle.pid_moderation.specs.Views.{Views};
ghost use Rattle.pid_tables.specs.Rows.Clauses.{
  AtRest,
  HasCleanDisk,
  OnlyReads,
  RestsIn,
  is_open,
  seen,
};
ghost use Rattle.pid_tables.specs.Rows.Faults.{IsMemoryOrStore, IsNotNewerSchema};
ghost use Rattle.pid_tables.specs.declared.rows.schema_version.Version.TheVariants.{One};
ghost use Rattle.pid_tables.specs.Check.Checking.{Explains};
ghost use Rattle.pid_tables.specs.Clauses.{
  MigratesJudged,
  MigratesNone,
  MigratesShown,
  WritesAtOnce,
};
ghost use Rattle.pid_tables.specs.Statements.{Carries, move_statements};
ghost use Rattle.pid_tables.specs.Steps.Clauses.{FindsLatest, FindsShown};
ghost use Rattle.pid_tables.specs.Steps.Bringing.{IsStanding, step_for};
ghost use Rattle.pid_tables.specs.Steps.Found.{BringsFound};

use crate::check::has_some_table;
use crate::database::{Database, WritableDatabase};
use crate::rows::meta::schema_number;
use crate::rows::{LATEST, TableFault, Version};
use crate::tables::Tables;
use std::alloc::Global;

/// What was in a database that was moved to schema 2.
#[derive(Clone, Copy, PartialEq, Eq)]
pub enum Step {
    /// No table: those of a new registry were made.
    Created,
    /// The tables of schema 1: they were moved.
    Moved,
    /// The tables of schema 2: they were left as they are.
    Already,
}

// Whether there are tables, and their labels name schema 2. Labels that cannot be read name none.
fn is_current<C: Database + Drop>(tables: &mut Tables<C>) -> Result<bool, TableFault>
    ensures { FindsLatest C.state tables.old.conn tables.new.conn result }
{
    crate::check::laws::schemas_have_tables(); // proof only
    if !has_some_table(tables)? {
        return Ok(false);
    }
    match schema_number(tables) {
        Ok(number) => Ok(number == LATEST),
        Err(TableFault::Damaged) => Ok(false),
        Err(fault) => Err(fault),
    }
}

// Moves what is there to schema 2.
fn upgrade<C: WritableDatabase>(conn: &mut C, found: Option<Version>) -> Result<Step, TableFault>
    requires { (C.state conn.old).in_transaction ≡ false }
    ensures at_once { WritesAtOnce C.state conn.old conn.new result }
    ensures step { IfOk result (λ step. step ≡ step_for found) }
    ensures brings { BringsFound C.state found conn.old conn.new result }
    ensures never { HasCleanDisk C.state conn.new → IfErr result IsNotNewerSchema }
{
    match found {
        None => match conn.create() {
            Ok(()) => Ok(Step::Created),
            Err(fault) => Err(fault),
        },
        Some(Version::One) => match conn.move_up() {
            Ok(()) => Ok(Step::Moved),
            Err(fault) => Err(fault),
        },
        Some(Version::Two) => Ok(Step::Already),
    }
}

impl<C: WritableDatabase + Drop> Tables<C> {
    // The schema of the tables; none if there is no table. Those of schema 1 are judged, those of
    // schema 2 are not.
    fn schema_found(&mut self, alloc: Global) -> Result<Option<Version>, TableFault>
        ensures rests { OnlyReads C.state self.old.conn self.new.conn }
        ensures same { IsTrue (is_open C.state self.new.conn)
            → (seen C.state self.new.conn) ≡ (seen C.state self.old.conn) }
        ensures shown { FindsShown C.state self.old.conn self.new.conn result }
        ensures told { HasCleanDisk C.state self.new.conn
            → MatchResult result (IsStanding (seen C.state self.old.conn))
            (Explains (seen C.state self.old.conn)) }
    {
        crate::check::laws::sound_histories_are_registries(); // proof only
        let _outside = self.conn.is_autocommit(); // proof only
        if is_current(self)? {
            return Ok(Some(Version::Two));
        }
        self.check(alloc)
    }

    /// Moves the database to schema 2: makes the tables of a new registry if there is none, moves
    /// those of schema 1, and leaves those of schema 2 as they are.
    ///
    /// Tables of schema 1 are judged before, as `check` does it, and moved in one transaction.
    /// Whatever a crash leaves of that shows the same history, in schema 1 or in schema 2. Tables
    /// whose labels name schema 2 are not judged. Whatever other tables there are, nothing is
    /// written but the statements of a new registry, if there is no table of one, or else those
    /// that move schema 1; and `Created` and `Moved` say that they were carried out. A fault other
    /// than `Memory` and `Store` changes nothing; after those two the connection shows what it
    /// showed, and the call may be made again.
    pub fn migrate(&mut self, alloc: Global) -> Result<Step, TableFault>
        // Whatever there is, it is one step.
        ensures at_once { WritesAtOnce C.state self.old.conn self.new.conn result }
        ensures shown { MigratesShown C.state self.old.conn self.new.conn result }
        ensures judged { MigratesJudged C.state self.old.conn self.new.conn result }
        ensures none { MigratesNone C.state self.old.conn self.new.conn result }
    {
        crate::check::laws::schemas_have_tables(); // proof only
        let found = self.schema_found(alloc)?;
        upgrade(&mut self.conn, found)
    }
}
