//! The table of remarks on submissions.
ghost use Rattle.std.specs.Prelude.{◌≡◌, ◌+◌, length, IfOk, IfErr};
ghost use Rattle.sqlite.specs.Order.{column};
ghost use Rattle.sqlite.specs.declared.types.Value.TheVariants.{Text as TextValue};
ghost use Rattle.pid_tables.specs.Rows.Steps.Unread.{IsDamagedRow, ReadsAsRemark};
ghost use Rattle.pid_tables.specs.Rows.Steps.Writes.{with_remark};
ghost use Rattle.pid_tables.specs.Rows.Clauses.{Reads};
ghost use Rattle.pid_tables.specs.Rows.Steps.Clauses.{ChangesTo};

use crate::database::{Batch, Database};
use crate::rows::fault::TableFault;
use crate::rows::run::read_rows;
use crate::rows::value::{account_at, number_at, words_at};
use crate::tables::Tables;
use pid_ident::{Account, Text};
use pid_moderation::Comment;
use sqlite::Row;
use sqlite::types::ToSql;
use std::alloc::Global;

/// Adds a remark after the last one on its submission. `number` is the submission's, and `place`
/// one more than its remarks are so far: they count from 1. A submission or an author that is not
/// there is refused with `Store`.
pub fn add_remark<B: Batch>(
    tx: &mut B,
    number: u32,
    place: u32,
    author: &Account,
    text: &Text,
) -> Result<(), TableFault>
    ensures { ChangesTo B.batch tx.old tx.new result
        (λ v. place ≡ length (v.remarks number) + 1)
        (with_remark number (record { author = author.now; text = text.now })) }
{
    let number = number.to_sql();
    let place = place.to_sql();
    let author = author.as_str().to_sql();
    let text = text.as_str().to_sql();
    tx.write_one(
        "INSERT INTO remark (num, seq, author, body) VALUES (?1, ?2, ?3, ?4)",
        &[number, place, author, text],
    )
}

/// How many remarks there are on the submission with a number: the place of the last one. No such
/// submission has 0.
pub fn remark_count<C: Database + Drop>(
    tables: &mut Tables<C>,
    number: u32,
) -> Result<u32, TableFault>
    ensures { Reads C.state tables.old.conn tables.new.conn result
        (λ v count. count ≡ length (v.remarks number)) }
{
    let number = number.to_sql();
    let rows = read_rows(
        tables,
        "SELECT seq FROM remark WHERE num = ?1 ORDER BY seq DESC LIMIT 1",
        &[number],
    )?;
    match rows.first() {
        Some(row) => number_at(row, 0),
        None => Ok(0),
    }
}

/// The remark of a row that has its author in the first column and its text in the second; further
/// columns are not looked at. If a column is missing or breaks its rule, the row is `Damaged`.
pub fn comment_of(row: &Row, alloc: Global) -> Result<Comment, TableFault>
    ensures author { IfOk result (λ comment. column row.now 0 ≡ TextValue comment.author) }
    ensures text { IfOk result (λ comment. column row.now 1 ≡ TextValue comment.text) }
    ensures unread { IfErr result (IsDamagedRow (ReadsAsRemark row.now)) }
{
    let author = account_at(row, alloc, 0)?;
    let text = words_at(row, alloc, 1)?;
    Ok(Comment { author, text })
}
