//! All items, one at a time.
ghost use Rattle.std.specs.Prelude.{◌≡◌, false, IfErr};
ghost use Rattle.pid_tables.specs.Rows.Causes.{IsReadable};
ghost use Rattle.pid_tables.specs.Rows.Steps.Faults.{fault_of_sql};
ghost use Rattle.pid_tables.specs.Lists.EachItem.{Walks, WalksSome, placed_from};
ghost use Rattle.pid_tables.specs.Lists.Steps.EachItem.{HandsAll, HandsRow};
ghost use Rattle.pid_tables.specs.declared.lists.walk.EachEnd.TheVariants as ends;
ghost use Rattle.pid_tables.specs.Rows.Clauses.{OnlyReads};
ghost use Rattle.pid_tables.specs.Lists.Clauses.{IsCausedEnd, OverViews};

use crate::database::Database;
use crate::rows::TableFault;
use crate::rows::value::{path_at, text_at};
use crate::tables::Tables;
use pid_ident::is_name;
use pid_reader::{Entry, Sink};
use sqlite::{Error as SqlError, Row};

/// Why a walk over the items ended early: the tables faulted, or the sink.
#[derive(Drop)]
pub enum EachEnd<F> {
    Tables(TableFault),
    Fault(F),
}

impl<F> From<TableFault> for EachEnd<F> {
    ghost from_gives = { λ fault end. end ≡ ends.Tables fault };

    fn from(fault: TableFault) -> EachEnd<F> {
        EachEnd::Tables(fault)
    }
}

impl<F> From<SqlError> for EachEnd<F> {
    ghost from_gives = { λ e end. end ≡ ends.Tables (fault_of_sql e) };

    fn from(error: SqlError) -> EachEnd<F> {
        EachEnd::Tables(TableFault::from(error))
    }
}

// Hands the item of a row to the sink.
pub(crate) fn hand_on<K: Sink>(
    row: &Row,
    line: usize,
    sink: &mut K,
) -> Result<(), EachEnd<K::Fault>>
    ensures { HandsRow K.takes K.faults row.now line sink.old sink.new result }
{
    let path = path_at(row, 0)?;
    let name = text_at(row, 1)?;
    if !is_name(name) {
        return Err(EachEnd::Tables(TableFault::Damaged));
    }
    match sink.entry(&Entry { line, path, name }) {
        Ok(()) => Ok(()),
        Err(fault) => Err(EachEnd::Fault(fault)),
    }
}

impl<C: Database + Drop> Tables<C> {
    /// Hands all items to a sink, in the canonical order, one at a time: no list of them is made.
    /// The line of an entry is its place among them, counted from 1.
    ///
    /// If it fails, the sink took the items before one, in their order, and faulted at that one,
    /// or was handed no more: nothing that it took is taken back.
    pub fn each_item<K: Sink>(&mut self, sink: &mut K) -> Result<(), EachEnd<K::Fault>>
        ensures rests { OnlyReads C.state self.old.conn self.new.conn }
        ensures told { OverViews C.state self.old.conn self.new.conn
            (λ v. Walks K.takes K.faults result (placed_from 1 v.items) sink.old sink.new) }
        ensures some { WalksSome K.takes K.faults result sink.old sink.new }
        ensures caused { OverViews C.state self.old.conn self.new.conn
            (λ v. IsReadable v → IfErr result (IsCausedEnd C.state self.old.conn self.new.conn)) }
    {
        self.conn.each_item(sink)
    }
}
