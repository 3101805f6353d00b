//! The table of receipts: replies kept under accounts and keys.
ghost use Rattle.std.specs.Prelude.{◌≡◌, None};
ghost use Rattle.pid_tables.specs.Rows.TableRows.{
  first_number,
  reply_kind,
  second_number,
  third_number,
};
ghost use Rattle.pid_tables.specs.Rows.Steps.Writes.{with_reply};
ghost use Rattle.pid_tables.specs.Rows.Clauses.{Reads};
ghost use Rattle.pid_tables.specs.Rows.Steps.Clauses.{ChangesTo};

use crate::database::{Batch, Database};
use crate::rows::fault::TableFault;
use crate::rows::run::read_rows;
use crate::rows::value::reply_at;
use crate::tables::Tables;
use pid_ident::{Account, Key};
use pid_moderation::Reply;
use sqlite::types::ToSql;

// The kind of a reply and its numbers, 0 where it has none.
fn numbers(reply: Reply) -> (u32, u32, u32, u32)
    ensures kind { result.0 ≡ reply_kind reply }
    ensures first { result.1 ≡ first_number reply }
    ensures second { result.2 ≡ second_number reply }
    ensures third { result.3 ≡ third_number reply }
{
    match reply {
        Reply::Done => (0, 0, 0, 0),
        Reply::Numbered(number) => (1, number, 0, 0),
        Reply::Counts {
            added,
            renamed,
            same,
        } => (2, added, renamed, same),
    }
}

/// Keeps a reply under an account and a key that have none yet. One that is kept already is refused
/// with `Store`, and so is an account that is not there.
pub fn keep_reply<B: Batch>(
    tx: &mut B,
    account: &Account,
    key: &Key,
    reply: Reply,
) -> Result<(), TableFault>
    ensures { ChangesTo B.batch tx.old tx.new result
        (λ v. v.kept account.now key.now ≡ None)
        (with_reply account.now key.now reply) }
{
    let account = account.as_str().to_sql();
    let key = key.as_str().to_sql();
    let (kind, first, second, third) = numbers(reply);
    let kind = kind.to_sql();
    let first = first.to_sql();
    let second = second.to_sql();
    let third = third.to_sql();
    tx.write_one(
        "INSERT INTO receipt (account, token, kind, a, b, c) VALUES (?1, ?2, ?3, ?4, ?5, ?6)",
        &[account, key, kind, first, second, third],
    )
}

/// The reply that is kept under an account and a key, or none if there is none. Numbers that
/// are no reply's are `Damaged`.
pub fn kept_reply<C: Database + Drop>(
    tables: &mut Tables<C>,
    account: &str,
    key: &str,
) -> Result<Option<Reply>, TableFault>
    ensures { Reads C.state tables.old.conn tables.new.conn result
        (λ v reply. reply ≡ v.kept account.now key.now) }
{
    let account = account.to_sql();
    let key = key.to_sql();
    let rows = read_rows(
        tables,
        "SELECT kind, a, b, c FROM receipt WHERE account = ?1 AND token = ?2",
        &[account, key],
    )?;
    match rows.first() {
        Some(row) => Ok(Some(reply_at(row)?)),
        None => Ok(None),
    }
}
