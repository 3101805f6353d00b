//! The table of accounts and their ranks.
ghost use Rattle.std.specs.Prelude.{◌≡◌, true, false, codes, is_none};
ghost use Rattle.pid_tables.specs.Rows.Accounts.{HasAccounts};
ghost use Rattle.pid_tables.specs.Rows.Steps.Writes.{with_rank};
ghost use Rattle.pid_tables.specs.Rows.Clauses.{Reads};
ghost use Rattle.pid_tables.specs.Rows.Steps.Clauses.{ChangesTo};

use crate::database::{Batch, Database};
use crate::rows::fault::TableFault;
use crate::rows::run::read_rows;
use crate::rows::value::rank_at;
use crate::tables::Tables;
use pid_ident::Account;
use pid_moderation::Rank;
use sqlite::types::ToSql;

// The statement that adds an account, or sets the rank of one that is there.
fn ranking(is_new: bool) -> &'static str
    ensures new { is_new ≡ true
        → result.now ≡ codes "INSERT INTO account (name, rank) VALUES (?1, ?2)" }
    ensures known { is_new ≡ false
        → result.now ≡ codes "UPDATE account SET rank = ?2 WHERE name = ?1" }
{
    if is_new {
        "INSERT INTO account (name, rank) VALUES (?1, ?2)"
    } else {
        "UPDATE account SET rank = ?2 WHERE name = ?1"
    }
}

/// Sets the rank of an account, which is added if it `is_new`. One that is new and there is refused
/// with `Store`; of one that is neither, nothing is written, and the answer is `Ok`.
pub fn set_rank<B: Batch>(
    tx: &mut B,
    who: &Account,
    rank: Rank,
    is_new: bool,
) -> Result<(), TableFault>
    ensures { ChangesTo B.batch tx.old tx.new result
        (λ v. is_new ≡ is_none (v.rank who.now)) (with_rank who.now rank) }
{
    let name = who.as_str().to_sql();
    let rank = u32::from(rank.number()).to_sql();
    tx.write_one(ranking(is_new), &[name, rank])
}

impl<C: Database + Drop> Tables<C> {
    /// The rank of an account, or none if there is no such account. A number that is no rank's is
    /// `Damaged`.
    pub fn rank(&mut self, name: &str) -> Result<Option<Rank>, TableFault>
        ensures { Reads C.state self.old.conn self.new.conn result (λ v rank. rank ≡ v.rank name.now) }
    {
        let name = name.to_sql();
        let rows = read_rows(self, "SELECT rank FROM account WHERE name = ?1", &[name])?;
        match rows.first() {
            Some(row) => Ok(Some(rank_at(row, 0)?)),
            None => Ok(None),
        }
    }

    /// How many accounts there are. The rows are held in memory while they are counted.
    pub fn accounts(&mut self) -> Result<u64, TableFault>
        ensures { Reads C.state self.old.conn self.new.conn result (λ v n. HasAccounts v n) }
    {
        let rows = read_rows(self, "SELECT rank FROM account", &[])?;
        Ok(rows.len() as u64)
    }
}
