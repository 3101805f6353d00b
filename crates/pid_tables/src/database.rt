//! What the tables ask of a database, and of a transaction on it.
ghost use Rattle.std.specs.Prelude.{
  ◌≡◌,
  ◌↔◌,
  [],
  ℕ,
  List,
  false,
  not,
  IfErr,
  IfOk,
  IsTrue,
  OnErr,
  OnOk,
};
ghost use Rattle.sqlite.specs.State.{State};
ghost use Rattle.sqlite.specs.Tree.{Trees};
ghost use Rattle.sqlite.specs.Values.{bound};
ghost use Rattle.pid_moderation.specs.Views.{Views};
ghost use Rattle.pid_tables.specs.Rows.Schema.{pid_schema};
ghost use Rattle.pid_tables.specs.Rows.Steps.Batches.{Batches};
ghost use Rattle.pid_tables.specs.Rows.Steps.Queries.{IsQuery};
ghost use Rattle.pid_tables.specs.Rows.Steps.Clauses.{FaultsQuery, ReadsInside, ShowsApart, WritesOne};
ghost use Rattle.pid_tables.specs.Rows.Clauses.{
  AtRest,
  HasCleanDisk,
  IsCaused,
  LeavesEither,
  OnlyReads,
  is_open,
};
ghost use Rattle.pid_tables.specs.Rows.Faults.{IsNotNewerSchema};
ghost use Rattle.pid_tables.specs.Clauses.{MakesNew, MakesNothing, WritesAtOnce};
ghost use Rattle.pid_tables.specs.Steps.Clauses.{MovesUp};
ghost use Rattle.pid_tables.specs.Statements.{Carries, move_statements, registry_statements};
ghost use Rattle.pid_tables.specs.ImportClauses.{EndsImport, EndsOutside};
ghost use Rattle.pid_tables.specs.Importing.{ReadsFile, StopIsNotFailed, TellsReadFault};
ghost use Rattle.pid_tables.specs.Judging.{WhereOpen};
ghost use Rattle.pid_moderation.specs.Changes.{changed, FitsViews};
ghost use Rattle.pid_moderation.specs.Files.{file_reading};
ghost use Rattle.pid_moderation.specs.History.{History, asked};
ghost use Rattle.pid_moderation.specs.Views.{views_of};
ghost use Rattle.std.specs.Io.KnownBytes.{Consumes};
ghost use Rattle.pid_tables.specs.Check.Shapes.{CanBeAsked};
ghost use Rattle.pid_tables.specs.Check.Steps.Clauses.{Asks, KeepsTable};
ghost use Rattle.pid_tables.specs.Lists.Steps.EachItem.{HandsAll};

use crate::check::read::RowFold;
use crate::check::schema::Table;
use crate::lists::EachEnd;
use crate::put_file::Stop;
use crate::rows::TableFault;
use pid_ident::Input;
use pid_moderation::{Change, Command, Facts, Reply};
use pid_reader::Sink;
use sqlite::Row;
use sqlite::types::ValueRef;
use std::alloc::Global;

/// A database, as a connection shows it. Each read leaves it as it is.
pub trait Database {
    /// What a value of the type shows of its database.
    ghost state: { Self → State };

    /// Whether it is outside a transaction. There it sees what is committed.
    fn is_autocommit(&self) -> bool
        ensures value { result ≡ not (state self.now).in_transaction }
        ensures settled { IsTrue result → IsTrue (state self.now).is_open
            → (state self.now).now ≡ (state self.now).committed };

    /// Whether a query can be asked: whether its text is understood.
    fn can_ask(&mut self, sql: &str) -> Result<bool, TableFault>
        requires { (state self.old).in_transaction ≡ false }
        ensures asks { Asks state self.old self.new result
            (λ d asked. IsTrue asked ↔ CanBeAsked d.schema sql.now) }
        ensures was_open { HasCleanDisk state self.new → OnOk result (IsTrue (is_open state self.old)) }
        ensures caused { HasCleanDisk state self.new → (v : Views) → AtRest state self.old v
            → IsQuery pid_schema sql.now [] → IfErr result (IsCaused state self.old self.new) };

    /// The rows of one query, in a transaction of its own, which is rolled back; all are held in
    /// memory at once. The parameters are those of the text, `?1` first. A text that the schema does
    /// not know is `Damaged`.
    fn read_rows(&mut self, sql: &str, params: &[ValueRef<'_>]) -> Result<Vec<Row>, TableFault>
        requires { (state self.old).in_transaction ≡ false }
        ensures rests { OnlyReads state self.old self.new }
        ensures shown { HasCleanDisk state self.new
            → IfOk result (λ rows. ShowsApart state sql.now (bound params.now) self.old rows.items) }
        ensures faults { FaultsQuery state sql.now (bound params.now) self.old self.new result };

    /// Hands each row of a table to a keeper, in some order: no list of them is made.
    fn fold_rows<K: RowFold>(&mut self, table: Table, keeper: &mut K) -> Result<(), TableFault>
        requires { (state self.old).in_transaction ≡ false }
        ensures { KeepsTable state self.old self.new result table
            (λ rows x. K.keeps keeper.old [] keeper.old
            → K.keeps keeper.old rows keeper.new) };

    /// Hands all items to a sink, as `each_item` of `Tables` does.
    fn each_item<K: Sink>(&mut self, sink: &mut K) -> Result<(), EachEnd<K::Fault>>
        requires { (state self.old).in_transaction ≡ false }
        ensures { HandsAll K.takes K.faults state self.old self.new sink.old sink.new result };

    /// While it is open, the disk has returned what was written.
    ghost clean: { (s : Self) → IsTrue (state s).is_open → HasCleanDisk state s };

    /// While it is open, a crash leaves what is committed.
    ghost durable: { (s : Self) (db : Trees) → IsTrue (state s).is_open → (state s).may_leave db
        → db ≡ (state s).committed.trees };
}

/// A transaction on a database.
pub trait Batch {
    /// What a value of the type shows of its database, and the connection that it is on.
    ghost batch: { Batches Self };

    /// Runs one statement that writes. The parameters are those of the text, `?1` first. A text that
    /// the schema does not know is `Damaged`; what the database refuses is `Store`.
    fn write_one(&mut self, sql: &str, params: &[ValueRef<'_>]) -> Result<(), TableFault>
        ensures { WritesOne batch sql.now (bound params.now) self.old self.new result };

    /// The rows of one query, all held in memory at once. The parameters are those of the text, `?1`
    /// first. A text that the schema does not know is `Damaged`.
    fn read_inside(&mut self, sql: &str, params: &[ValueRef<'_>]) -> Result<Vec<Row>, TableFault>
        ensures { ReadsInside batch sql.now (bound params.now) self.old self.new result };

    /// While it is open, the disk has returned what was written.
    ghost clean: { (s : Self) → IsTrue (batch.state s).is_open → HasCleanDisk batch.state s };
}

/// A database that a registry writes, each call in one transaction.
pub trait WritableDatabase: Database {
    /// Makes the tables of a new registry in a database that has none: `root` is an administrator,
    /// and there is nothing else.
    ///
    /// In a database with no table at all, whatever it answers, a crash leaves that, or the new
    /// registry whole; after a fault the connection has no table, and a further call may make them.
    /// If a name is taken that one of the tables wants, it answers `Damaged`, or else `Memory` or
    /// `Store`, and changes nothing. If there are tables of other names, the new ones are made all in
    /// one step, or after a fault none of them: a crash leaves what it left before, or what the
    /// statements of a new registry make of it, which are the same in any database. `Ok` says that
    /// they were carried out. What these show together with other tables, no clause says.
    fn create(&mut self) -> Result<(), TableFault>
        requires { (Self.state self.old).in_transaction ≡ false }
        // Whatever the database, it is one step, and nothing but the statements of a new registry.
        ensures at_once { WritesAtOnce Self.state self.old self.new result }
        ensures statements { Carries Self.state registry_statements self.old self.new result }
        ensures makes { MakesNew Self.state self.old self.new result }
        ensures spares { MakesNothing Self.state self.old self.new result };

    /// Moves tables of schema 1 to schema 2.
    fn move_up(&mut self) -> Result<(), TableFault>
        requires { (Self.state self.old).in_transaction ≡ false }
        ensures at_once { WritesAtOnce Self.state self.old self.new result }
        ensures moved { MovesUp Self.state self.old self.new result }
        ensures never { HasCleanDisk Self.state self.new → IfErr result IsNotNewerSchema }
        ensures statements { Carries Self.state move_statements self.old self.new result };

    /// Writes a change, its receipt included.
    fn write(&mut self, alloc: Global, change: &Change) -> Result<(), TableFault>
        requires { (Self.state self.old).in_transaction ≡ false }
        ensures ends { EndsOutside Self.state self.old self.new }
        ensures stands { (v : Views) → AtRest Self.state self.old v → FitsViews change.now v
            → OnOk result (AtRest Self.state self.new (changed change.now v)) }
        ensures either { (v : Views) → AtRest Self.state self.old v → FitsViews change.now v
            → OnErr result (LeavesEither Self.state self.new v (changed change.now v)) };

    /// Imports the file of an import, with the rest of the import.
    ///
    /// `facts` and `items` are those of `judge_import`, if the import depends on its file. The input
    /// is read to its end, or until its text is too long: then one byte more than a file may have was
    /// read. The file that the command has is not looked at.
    fn import_file<I: Input>(
        &mut self,
        alloc: Global,
        facts: &mut Facts,
        items: u32,
        command: &Command,
        input: &mut I,
    ) -> Result<Reply, Stop>
        requires { (Self.state self.old).in_transaction ≡ false }
        ensures ends { EndsOutside Self.state self.old self.new }
        // Some text was read; the import is answered, and the tables are left, as of a command with
        // this file.
        ensures stops { (text : List ℕ) × Consumes (I.to_come input.old) (I.to_come input.new) text
            × ReadsFile result (I.to_come input.new) text
            × (HasCleanDisk Self.state self.new → (h : History)
            → AtRest Self.state self.old (views_of h)
            → WhereOpen h command.now facts.old items
            (EndsImport Self.state self.new result h (asked command.now (file_reading text)))) }
        ensures read_fault { TellsReadFault result (I.read_fault input.new) }
        ensures goes { I.goes input.old input.new }
        // Only a registry that has failed is answered as such.
        ensures alive { IfErr result StopIsNotFailed };
}
