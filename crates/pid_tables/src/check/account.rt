//! Accounts: each has a name and a rank, `root` is one, and some account is an administrator.
ghost use Rattle.std.specs.Prelude.{◌↔◌, false, IsTrue};
ghost use Rattle.pid_tables.specs.Check.Conditions.{IsAccountRow};
ghost use Rattle.pid_tables.specs.Check.Steps.Clauses.{KeepsTable};
ghost use Rattle.pid_tables.specs.Check.Steps.Keeping.{KeepsAccounts};
ghost use Rattle.pid_tables.specs.declared.check.schema.Table.TheVariants as table;

use crate::check::read::{RowFold, fold_rows};
use crate::check::schema::Table;
use crate::check::value::{is_number_at, is_within, text_at};
use crate::database::Database;
use crate::rows::TableFault;
use crate::tables::Tables;
use pid_ident::is_account;
use sqlite::Row;
use std::alloc::Global;
use std::collections::BTreeSet;

fn is_account_row(row: &Row) -> bool
    ensures { IsTrue result ↔ IsAccountRow row.now }
{
    if row.column_count() != 2 {
        return false;
    }
    match text_at(row, 0) {
        Some(name) => is_account(name) && is_within(row, 1, 3),
        None => false,
    }
}

/// What is kept of the accounts: `good` says whether each row so far is an account's, and once all
/// are read, whether they are those of a registry; `administrator`, whether one row is that of an
/// administrator.
#[derive(Drop)]
pub(crate) struct Accounts {
    alloc: Global,
    pub(crate) good: bool,
    administrator: bool,
    pub(crate) names: BTreeSet<String>,
}

impl RowFold for Accounts {
    ghost use Rattle.pid_tables.specs.Check.Steps.Keeping.{TakesAccounts};

    ghost keeps = { λ first rows it. TakesAccounts rows it };

    fn keep(&mut self, row: &Row) -> Result<(), TableFault> {
        self.good &= is_account_row(row);
        self.administrator |= is_number_at(row, 1, 3);
        let Some(text) = text_at(row, 0) else {
            return Ok(());
        };
        let name = String::from_str(self.alloc, text)?;
        let inserted = self.names.insert(name).is_ok();
        if !inserted {
            return Err(TableFault::Memory);
        }
        Ok(())
    }
}

/// Reads the accounts, and judges whether they are those of a registry.
pub(crate) fn read_accounts<C: Database + Drop>(
    tables: &mut Tables<C>,
    alloc: Global,
) -> Result<Accounts, TableFault>
    ensures { KeepsTable C.state tables.old.conn tables.new.conn result table.Account
        KeepsAccounts }
{
    let mut accounts = Accounts {
        alloc,
        good: true,
        administrator: false,
        names: BTreeSet::new(alloc),
    };
    fold_rows(tables, Table::Account, &mut accounts)?;
    accounts.good &= accounts.names.contains("root") & accounts.administrator;
    Ok(accounts)
}
