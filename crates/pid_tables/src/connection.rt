//! A connection as a database, and a transaction on it.
ghost use Rattle.std.specs.Prelude.{◌≡◌, true, false, IsTrue, OnOk};
ghost use Rattle.sqlite.specs.Held.{state};
ghost use Rattle.pid_moderation.specs.Views.{Views};
ghost use Rattle.pid_tables.specs.Rows.Shows.{Shows, counts_of};
ghost use Rattle.pid_tables.specs.Steps.Clauses.{EndsCommit};
ghost use Rattle.pid_tables.specs.Rows.Clauses.{AtRest, HasCleanDisk, LeavesEither, Survives, is_open, seen};
ghost use Rattle.pid_tables.specs.Rows.Steps.Clauses.{KeepsCommitted, Within, Written};

use crate::batch::apply;
use crate::check::read::RowFold;
use crate::check::schema::{Table, query, unasked};
use crate::creation::make_registry;
use crate::database::{Batch, Database, WritableDatabase};
use crate::faults::refusal_of;
use crate::lists::EachEnd;
use crate::lists::walk::hand_on;
use crate::put_file::{Stop, apply_file, put_file, stop_of};
use crate::rows::TableFault;
use crate::schema_1_to_2::move_tables;
use pid_ident::Input;
use pid_moderation::{Change, Command, Facts, Reply};
use pid_reader::Sink;
use sqlite::types::ValueRef;
use sqlite::{Alter, Connection, Row, Transaction};
use std::alloc::Global;

impl<S: Alter> Batch for Transaction<'_, S> {
    ghost use Rattle.sqlite.specs.Held.{state};
    ghost use Rattle.sqlite.proofs.StateLemmas.{clean_if_open};

    ghost batch = { record {
      state = λ tx. state S.Store tx.conn.now;
      reference = λ tx. tx.conn.ghost_name;
    } };

    fn write_one(&mut self, sql: &str, params: &[ValueRef<'_>]) -> Result<(), TableFault> {
        self.execute(sql, params)?;
        Ok(())
    }

    fn read_inside(&mut self, sql: &str, params: &[ValueRef<'_>]) -> Result<Vec<Row>, TableFault> {
        Ok(self.query_all(sql, params)?)
    }

    ghost clean = { λ tx. clean_if_open (S.Store.view tx.conn.now.store)
        (S.Store.shut_if_dirty tx.conn.now.store) };
}

impl<S: Alter> Database for Connection<S> {
    ghost use Rattle.sqlite.specs.Held.{state};
    ghost use Rattle.sqlite.proofs.StateLemmas.{clean_if_open};

    ghost state = { state S.Store };

    fn is_autocommit(&self) -> bool {
        Connection::is_autocommit(self)
    }

    fn can_ask(&mut self, sql: &str) -> Result<bool, TableFault> {
        match self.prepare(sql).err() {
            None => Ok(true),
            Some(error) => unasked(error),
        }
    }

    fn read_rows(&mut self, sql: &str, params: &[ValueRef<'_>]) -> Result<Vec<Row>, TableFault> {
        let mut tx = self.transaction();
        tx.read_inside(sql, params)
    }

    fn fold_rows<K: RowFold>(&mut self, table: Table, keeper: &mut K) -> Result<(), TableFault> {
        let sql = query(table);
        let mut rows = self.query(sql, &[])?;
        'rows: for _ in 0..usize::MAX {
            let Some(row) = rows.next()? else {
                return Ok(());
            };
            keeper.keep(row)?;
        }
        // More rows than can be counted.
        Err(TableFault::Memory)
    }

    fn each_item<K: Sink>(&mut self, sink: &mut K) -> Result<(), EachEnd<K::Fault>> {
        let mut rows = self.query("SELECT path, name FROM item ORDER BY path", &[])?;
        'rows: for at in 0..usize::MAX {
            let Some(row) = rows.next()? else {
                return Ok(());
            };
            hand_on(row, at + 1, sink)?;
        }
        Err(EachEnd::Tables(TableFault::Damaged))
    }

    ghost clean = { λ conn. clean_if_open (S.Store.view conn.store)
        (S.Store.shut_if_dirty conn.store) };

    ghost durable = { λ conn. S.Store.settled conn.store };
}

impl<S: Alter> WritableDatabase for Connection<S> {
    fn create(&mut self) -> Result<(), TableFault> {
        let mut batch = self.transaction();
        make_registry(&mut batch)?;
        commit(batch)
    }

    fn move_up(&mut self) -> Result<(), TableFault> {
        let mut batch = self.transaction();
        move_tables(&mut batch)?;
        commit(batch)
    }

    fn write(&mut self, alloc: Global, change: &Change) -> Result<(), TableFault> {
        let mut batch = begin(self);
        apply(&mut batch, alloc, change)?;
        commit(batch)
    }

    fn import_file<I: Input>(
        &mut self,
        alloc: Global,
        facts: &mut Facts,
        items: u32,
        command: &Command,
        input: &mut I,
    ) -> Result<Reply, Stop> {
        // The number that the import has if it is accepted.
        let revision = facts.revision.saturating_add(1);
        let mut batch = begin(self);
        match put_file(&mut batch, alloc, revision, input) {
            Err(end) => {
                roll_back(batch);
                Err(stop_of(end))
            }
            Ok(tally) => match apply_file(&mut batch, alloc, facts, items, tally, command) {
                Err(stop) => {
                    roll_back(batch);
                    Err(stop)
                }
                Ok(reply) => match commit(batch) {
                    Ok(()) => Ok(reply),
                    Err(fault) => Err(Stop::Failed(refusal_of(fault))),
                },
            },
        }
    }
}

// Begins a transaction on tables at rest. It shows what they show.
fn begin<S: Alter>(conn: &mut Connection<S>) -> Transaction<'_, S>
    requires { conn.old.in_transaction ≡ false }
    ensures same_reference { result.conn.ghost_name ≡ conn.entry.ghost_name }
    ensures unchanged { result.conn.now ≡ record conn.old { in_transaction = true } }
    ensures begun { (v : Views) → AtRest (state S.Store) conn.old v
        → Within (state S.Store) result.conn.now (counts_of v) v v }
{
    conn.transaction()
}

// Commits what the transaction wrote, all of it or nothing.
fn commit<S: Alter>(batch: Transaction<'_, S>) -> Result<(), TableFault>
    ensures ended { batch.exit.0.now.in_transaction ≡ false }
    ensures survives { Survives (state S.Store) batch.entry.conn.now batch.exit.0.now
        (λ db. db ≡ (seen (state S.Store) batch.entry.conn.now).trees) }
    ensures stands { (w : Views) → (HasCleanDisk (state S.Store) batch.entry.conn.now
        → IsTrue (is_open (state S.Store) batch.entry.conn.now)
        × Shows (seen (state S.Store) batch.entry.conn.now) w)
        → OnOk result (AtRest (state S.Store) batch.exit.0.now w) }
    ensures either { (v w : Views) → Written (state S.Store) batch.entry.conn.now (counts_of w) v w
        → LeavesEither (state S.Store) batch.exit.0.now v w }
    // It sees what the transaction saw. Or a fault has its cause, and it sees what was committed
    // before.
    ensures ends { EndsCommit (state S.Store) batch.entry.conn.now batch.exit.0.now result }
{
    batch.commit()?;
    Ok(())
}

// Gives the transaction up, and commits nothing.
//
// If the tables showed views before it, they show the same again, and so does whatever a crash
// leaves. A roll back that fails shuts the connection, which then shows nothing.
fn roll_back<S: Alter>(batch: Transaction<'_, S>)
    ensures ended { batch.exit.0.now.in_transaction ≡ false }
    ensures survives { Survives (state S.Store) batch.entry.conn.now batch.exit.0.now (λ _. ⊥) }
    ensures given_back { (v : Views) → KeepsCommitted (state S.Store) batch.entry.conn.now v
        → AtRest (state S.Store) batch.exit.0.now v }
{
    batch.rollback();
}
