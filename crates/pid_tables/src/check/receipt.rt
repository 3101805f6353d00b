//! Receipts: each keeps a reply that is its account's own, under a key.
ghost use Rattle.std.specs.Prelude.{◌≡◌, ◌↔◌, ◌+◌, ◌≤◌, List, ℕ, true, false, IsTrue};
ghost use Rattle.sqlite.specs.declared.types.Value.TheVariants.{Text as TextValue};
ghost use Rattle.sqlite.specs.Order.{column, Row as Values};
ghost use Rattle.pid_ident.specs.Words.{is_key as key_test};
ghost use Rattle.pid_tables.specs.Rows.TableRows.{number};
ghost use Rattle.pid_tables.specs.Check.Conditions.{IsReceiptRow};
ghost use Rattle.pid_tables.specs.Check.Steps.Clauses.{KeepsTable};
ghost use Rattle.pid_tables.specs.Check.Steps.Keeping.{AreOfAuthors};
ghost use Rattle.pid_tables.specs.declared.check.schema.Table.TheVariants as table;
ghost use Rattle.pid_tables.specs.Check.Steps.AuthorSets.{
  AreAuthorsOf,
  HasReply,
  HasCounts,
  IsNumbered,
};

use crate::check::authors::{Authors, is_by};
use crate::check::read::{RowFold, fold_rows};
use crate::check::schema::Table;
use crate::check::value::{is_number_at, number_at, text_at};
use crate::database::Database;
use crate::rows::TableFault;
use crate::tables::Tables;
use pid_ident::{is_account, is_key};
use pid_moderation::ITEMS;
use sqlite::Row;

fn sums_within_limit(added: u64, renamed: u64, same: u64) -> bool
    ensures { IsTrue result ↔ (added + renamed + same ≤ 100000) }
{
    let most = ITEMS as u64;
    added <= most && renamed <= most && same <= most && added + renamed + same <= most
}

fn has_counts(row: &Row) -> bool
    ensures { IsTrue result ↔ HasCounts row.now }
{
    match number_at(row, 3) {
        None => false,
        Some(added) => match number_at(row, 4) {
            None => false,
            Some(renamed) => match number_at(row, 5) {
                None => false,
                Some(same) => sums_within_limit(added, renamed, same),
            },
        },
    }
}

fn is_done(row: &Row) -> bool
    ensures { IsTrue result ↔ ((column row.now 3 ≡ number 0) × (column row.now 4 ≡ number 0)
        × (column row.now 5 ≡ number 0)) }
{
    is_number_at(row, 3, 0) && is_number_at(row, 4, 0) && is_number_at(row, 5, 0)
}

fn is_numbered(row: &Row, authors: &Authors, account: &str) -> bool
    ensures { (rows : List Values) → AreAuthorsOf authors.now rows
        → IsTrue result ↔ IsNumbered rows row.now account.now }
{
    if !is_number_at(row, 4, 0) {
        return false;
    }
    if !is_number_at(row, 5, 0) {
        return false;
    }
    match number_at(row, 3) {
        None => false,
        Some(submission) => is_by(authors, submission, account),
    }
}

fn is_own(row: &Row, authors: &Authors, account: &str) -> bool
    ensures { (rows : List Values) → AreAuthorsOf authors.now rows
        → IsTrue result ↔ HasReply rows row.now account.now }
{
    match number_at(row, 2) {
        None => false,
        Some(0) => is_done(row),
        Some(1) => is_numbered(row, authors, account),
        Some(2) => has_counts(row),
        Some(_) => false,
    }
}

fn has_key(row: &Row) -> bool
    ensures { IsTrue result ↔ ((key : List ℕ) × (column row.now 1 ≡ TextValue key)
        × (key_test key ≡ true)) }
{
    match text_at(row, 1) {
        Some(key) => is_key(key),
        None => false,
    }
}

fn is_receipt_row(row: &Row, authors: &Authors) -> bool
    ensures { (rows : List Values) → AreAuthorsOf authors.now rows
        → IsTrue result ↔ IsReceiptRow rows row.now }
{
    if row.column_count() != 6 {
        return false;
    }
    if !has_key(row) {
        return false;
    }
    match text_at(row, 0) {
        None => false,
        Some(account) => {
            if !is_account(account) {
                return false;
            }
            is_own(row, authors, account)
        }
    }
}

// Whether the receipts so far go with the authors.
#[derive(Drop)]
struct ReceiptFold<'a> {
    authors: &'a Authors,
    good: bool,
}

impl RowFold for ReceiptFold<'_> {
    ghost use Rattle.pid_tables.specs.Check.Steps.Keeping.{TakesReceipts};

    ghost keeps = { TakesReceipts };

    fn keep(&mut self, row: &Row) -> Result<(), TableFault> {
        self.good &= is_receipt_row(row, self.authors);
        Ok(())
    }
}

/// Reads the receipts, and judges whether they are those of a registry whose submissions have these
/// authors.
pub(crate) fn read_receipts<C: Database + Drop>(
    tables: &mut Tables<C>,
    authors: &Authors,
) -> Result<bool, TableFault>
    ensures { KeepsTable C.state tables.old.conn tables.new.conn result table.Receipt
        (AreOfAuthors authors.now) }
{
    let mut keeper = ReceiptFold {
        authors,
        good: true,
    };
    fold_rows(tables, Table::Receipt, &mut keeper)?;
    Ok(keeper.good)
}
