//! The tables of a schema, one after the other: of each is kept whether its rows are good, and what
//! judging the others takes. Whatever was found, each is read.
ghost use Rattle.pid_tables.specs.Rows.Faults.{IsMemoryOrStore};
ghost use Rattle.pid_tables.specs.Check.Shapes.{HasTables, HasEachTable};
ghost use Rattle.pid_tables.specs.Check.Steps.Keeping.{ShowsNamed, ShowsSubmitted, ShowsJudged};
ghost use Rattle.pid_tables.specs.Check.Steps.Clauses.{JudgesRows};

use crate::check::account::read_accounts;
use crate::check::item::read_items;
use crate::check::receipt::read_receipts;
use crate::check::remark::read_remarks;
use crate::check::since::read_sinces;
use crate::check::submission::read_submissions;
use crate::database::Database;
use crate::rows::{TableFault, Version};
use crate::tables::Tables;
use std::alloc::Global;

/// What is kept of some tables: whether all their rows are good, and how many the first of them
/// has.
#[derive(Clone, Copy)]
pub(crate) struct Part {
    pub(crate) good: bool,
    pub(crate) count: u64,
}

/// What is kept of all tables.
#[derive(Clone, Copy)]
pub(crate) struct Judged {
    pub(crate) good: bool,
    pub(crate) items: u64,
    pub(crate) submissions: u64,
}

// The items, and in schema 2 their numbers.
fn read_named<C: Database + Drop>(
    tables: &mut Tables<C>,
    alloc: Global,
    version: Version,
    revision: u64,
) -> Result<Part, TableFault>
    ensures { JudgesRows C.state tables.old.conn tables.new.conn result
        (λ d. HasTables version d.schema) (ShowsNamed version revision) (λ d. IsMemoryOrStore) }
{
    let items = read_items(tables, alloc)?;
    let count = items.count;
    match version {
        Version::One => Ok(Part {
            good: items.good,
            count,
        }),
        Version::Two => {
            let dated = read_sinces(tables, &items.paths, revision, alloc)?;
            Ok(Part {
                good: items.good & dated,
                count,
            })
        }
    }
}

// The submissions, with the accounts and the receipts.
fn read_submitted<C: Database + Drop>(
    tables: &mut Tables<C>,
    alloc: Global,
) -> Result<Part, TableFault>
    ensures { JudgesRows C.state tables.old.conn tables.new.conn result
        (λ d. HasEachTable d.schema) ShowsSubmitted (λ d. IsMemoryOrStore) }
{
    let accounts = read_accounts(tables, alloc)?;
    let listed = accounts.good;
    let read = read_submissions(tables, &accounts.names, alloc);
    drop(accounts);
    let submissions = read?;
    let good = listed & submissions.good;
    let count = submissions.count;
    let kept = read_receipts(tables, &submissions.authors);
    drop(submissions);
    let receipts = kept?;
    Ok(Part {
        good: good & receipts,
        count,
    })
}

/// Reads and judges the tables of a schema other than `meta`, which has this revision.
pub(crate) fn read_tables<C: Database + Drop>(
    tables: &mut Tables<C>,
    alloc: Global,
    version: Version,
    revision: u64,
) -> Result<Judged, TableFault>
    ensures { JudgesRows C.state tables.old.conn tables.new.conn result
        (λ d. HasTables version d.schema) (ShowsJudged version revision) (λ d. IsMemoryOrStore) }
{
    let submitted = read_submitted(tables, alloc)?;
    let named = read_named(tables, alloc, version, revision)?;
    let remarks = read_remarks(tables, alloc)?;
    Ok(Judged {
        good: submitted.good & named.good & remarks,
        items: named.count,
        submissions: submitted.count,
    })
}
