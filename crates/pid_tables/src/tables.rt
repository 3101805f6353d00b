//! The tables of a registry, over a connection.
ghost use Rattle.std.specs.Prelude.{◌≡◌, false};
ghost use Rattle.pid_tables.specs.Rows.Clauses.{OnlyReads, Tells};
ghost use Rattle.pid_tables.specs.Clauses.{TellsSchema};

use crate::check::has_some_table;
use crate::database::Database;
use crate::rows::TableFault;
use crate::rows::meta::schema_number;

/// The tables of a registry, over a connection that is at rest between calls. A read leaves them as
/// they are. The methods are where what they ask is: `gather`, `check`, `migration`, and the files
/// of `lists` and `rows`.
///
/// What writes a whole change is a method of `conn`, in one transaction (`WritableDatabase`).
#[derive(Drop)]
pub struct Tables<C: Database + Drop> {
    pub conn: C,
    ghost settled: { (C.state conn).in_transaction ≡ false },
}

impl<C: Database + Drop> Tables<C> {
    /// The tables of an open connection, which is kept as it is: nothing is read, made or checked.
    pub fn new(conn: C) -> Tables<C>
        requires { (C.state conn).in_transaction ≡ false }
        ensures { result.conn ≡ conn }
    {
        Tables { conn }
    }

    /// Hands the connection back as it is.
    pub fn into_conn(self) -> C
        ensures { result ≡ self.conn }
    {
        let Tables { conn } = self;
        conn
    }

    /// The number of the schema, as the labels have it, and 0 if none of its tables is there,
    /// whatever others are.
    ///
    /// What the labels have is what the query of the label answers first, whatever other tables
    /// there are; if that is no number of 32 bits, the tables are `Damaged`.
    pub fn version(&mut self) -> Result<u32, TableFault>
        ensures rests { OnlyReads C.state self.old.conn self.new.conn }
        ensures told { Tells C.state self.old.conn self.new.conn result (λ v n. n ≡ 2) }
        ensures shown { TellsSchema C.state self.old.conn self.new.conn result }
    {
        if has_some_table(self)? {
            schema_number(self)
        } else {
            Ok(0)
        }
    }
}
