//! The paths and the authors of all submissions, as the tables have them.
ghost use Rattle.std.specs.Prelude.{◌≡◌, ◌∷◌, ◌++◌, ◌+◌, [], ℕ, List, drop, length, map, take, true, false};
ghost use Rattle.pid_moderation.specs.Views.{Submitted};
ghost use Rattle.pid_tables.specs.Rows.Clauses.{Reads};
ghost use Rattle.pid_tables.specs.Searches.Filings.{filed_as};
ghost use Rattle.pid_tables.specs.Searches.KeptNumbers.{AreKeptFor, HoldsNumbers};
ghost use Rattle.pid_tables.specs.Searches.Steps.FilingRows.{filing_row};

use crate::database::Database;
use crate::rows::TableFault;
use crate::rows::run::read_rows;
use crate::rows::value::text_at;
use crate::searches::numbers::{Kept, Searches, add_number};
use crate::tables::Tables;
use sqlite::Row;
use sqlite::types::ToSql;
use std::alloc::Global;
use std::collections::BTreeMap;

// How many submissions are read at once.
const ROWS: usize = 1_000;

// How often they are read at most: what 10,000,000 submissions take.
const TIMES: u32 = 10_001;

// The paths and the authors of the submissions above a number, `ROWS` at most.
fn filing_rows<C: Database + Drop>(
    tables: &mut Tables<C>,
    after: u32,
) -> Result<Vec<Row>, TableFault>
    ensures { Reads C.state tables.old.conn tables.new.conn result
        (λ v rows. rows.items ≡ map filing_row (take ROWS (drop after v.submits))) }
{
    let after = after.to_sql();
    read_rows(
        tables,
        "SELECT path, author FROM submission WHERE num > ?1 ORDER BY num LIMIT 1000",
        &[after],
    )
}

// Adds the number of the submission that a row is of, if memory is there.
fn add_row(kept: &mut Kept, alloc: Global, number: u32, row: &Row) -> bool
    ensures { (s : Submitted) (filings : List (List ℕ × List ℕ)) → row.now ≡ filing_row s
        → AreKeptFor kept.old filings → number ≡ length filings + 1 → result ≡ true
        → AreKeptFor kept.new (filings ++ filed_as s ∷ []) }
{
    let Ok(path) = text_at(row, 0) else {
        return false;
    };
    let Ok(author) = text_at(row, 1) else {
        return false;
    };
    add_number(kept, alloc, number, path, author)
}

// Adds the numbers after one, if memory is there.
fn add_rows(kept: &mut Kept, alloc: Global, after: u32, rows: &[Row]) -> bool
    ensures { (all : List Submitted) (filings : List (List ℕ × List ℕ))
        → rows.now ≡ map filing_row all → AreKeptFor kept.old filings
        → after ≡ length filings → result ≡ true
        → AreKeptFor kept.new (filings ++ map filed_as all) }
{
    let mut number = after;
    for row in rows {
        let Some(next) = number.checked_add(1) else {
            return false;
        };
        number = next;
        if !add_row(kept, alloc, number, row) {
            return false;
        }
    }
    true
}

impl<C: Database + Drop> Tables<C> {
    /// The numbers of all submissions, if memory is there and they are at most 10,000,000.
    pub fn read_numbers(&mut self, alloc: Global) -> Result<Searches, TableFault>
        ensures { Reads C.state self.old.conn self.new.conn result (λ v numbers. HoldsNumbers numbers v) }
    {
        let mut kept = Kept {
            paths: BTreeMap::new(alloc),
            authors: BTreeMap::new(alloc),
        };
        for time in 0..TIMES {
            let after = time * ROWS as u32;
            let rows = filing_rows(self, after)?;
            if !add_rows(&mut kept, alloc, after, rows.as_slice()) {
                return Ok(Searches::Lacking);
            }
            if rows.len() < ROWS {
                return Ok(Searches::Kept(kept));
            }
        }
        Ok(Searches::Lacking)
    }
}
