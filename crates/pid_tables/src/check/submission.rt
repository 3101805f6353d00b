//! Submissions: each is one of an account, in a state that it may have.
ghost use Rattle.std.specs.Prelude.{
  ◌≡◌,
  ◌≢◌,
  ◌↔◌,
  ◌++◌,
  ◌∷◌,
  List,
  [],
  ℕ,
  false,
  IsTrue,
};
ghost use Rattle.sqlite.specs.declared.types.Value.TheVariants.{Text as TextValue};
ghost use Rattle.sqlite.specs.Order.{column, Row as Values};
ghost use Rattle.pid_moderation.specs.WellMade.{ProposesName};
ghost use Rattle.pid_tables.specs.Rows.TableRows.{number, form_of, name_of, state_number};
ghost use Rattle.pid_moderation.specs.Submissions.{decider_of, reason_of};
ghost use Rattle.pid_tables.specs.Check.Steps.NamesRead.{
  IsAmong,
  IsDecidedAmong,
  IsSubmissionAmong,
};
ghost use Rattle.pid_tables.specs.Check.Steps.Clauses.{KeepsTable};
ghost use Rattle.pid_tables.specs.Check.Steps.Keeping.{AreFit, KeepsSubmissions};
ghost use Rattle.pid_tables.specs.declared.check.schema.Table.TheVariants as table;

use crate::check::authors::{Authors, add_author, no_authors};
use crate::check::numbers::{Numbers, add_number, count_from_one, no_numbers};
use crate::check::read::{RowFold, checked_next, fold_rows};
use crate::check::schema::Table;
use crate::check::value::{is_text_at, number_at, text_at};
use crate::check::words::{has_filled_text, has_name, has_path, has_text};
use crate::database::Database;
use crate::rows::TableFault;
use crate::tables::Tables;
use sqlite::Row;
use std::alloc::Global;
use std::collections::BTreeSet;

fn proposes(row: &Row) -> bool
    ensures { IsTrue result ↔ ((p : _) × (column row.now 3 ≡ number (form_of p))
        × (column row.now 4 ≡ TextValue (name_of p)) × ProposesName p) }
{
    match number_at(row, 3) {
        Some(0) => has_name(row, 4),
        Some(1) => is_text_at(row, 4, ""),
        _ => false,
    }
}

fn is_by_other(row: &Row, names: &BTreeSet<String>, author: &str) -> bool
    ensures { IsTrue result ↔ ((decider : List ℕ) × (column row.now 7 ≡ TextValue decider)
        × (decider ≢ author.now) × IsAmong names.now decider) }
{
    match text_at(row, 7) {
        Some(decider) => decider != author && names.contains(decider),
        None => false,
    }
}

fn is_decided(row: &Row, names: &BTreeSet<String>, author: &str) -> bool
    ensures { IsTrue result ↔ ((s : _) × (column row.now 6 ≡ number (state_number s))
        × (column row.now 7 ≡ TextValue (decider_of author.now s))
        × (column row.now 8 ≡ TextValue (reason_of s)) × IsDecidedAmong names.now author.now s) }
{
    match number_at(row, 6) {
        Some(0) => is_text_at(row, 7, "") && is_text_at(row, 8, ""),
        Some(1) => is_by_other(row, names, author) && is_text_at(row, 8, ""),
        Some(2) => is_by_other(row, names, author) && has_filled_text(row, 8),
        Some(3) => is_text_at(row, 7, author) && is_text_at(row, 8, ""),
        _ => false,
    }
}

// Whether a row of this number is a submission's, if there are as many rows at least.
#[tactic(auto, using(crate::proofs::OfCheck::SubmissionFacts::path_of, crate::proofs::OfCheck::SubmissionFacts::proposal_of, crate::proofs::OfCheck::SubmissionFacts::note_of))]
fn is_submission_row(row: &Row, names: &BTreeSet<String>, num: u64) -> bool
    ensures { column row.now 0 ≡ number num
        → IsTrue result ↔ IsSubmissionAmong names.now num row.now }
{
    if row.column_count() != 9 {
        return false;
    }
    if num == 0 {
        return false;
    }
    if !has_path(row, 2) {
        return false;
    }
    if !proposes(row) {
        return false;
    }
    if !has_text(row, 5) {
        return false;
    }
    let Some(author) = text_at(row, 1) else {
        return false;
    };
    if !names.contains(author) {
        return false;
    }
    is_decided(row, names, author)
}

/// What rows say of the count: whether they are submissions' if it is no less than the greatest of
/// their numbers.
#[derive(Clone, Copy)]
pub(crate) struct Fit {
    good: bool,
    greatest: u64,
}

// The fit with one more row.
fn fit_row(fit: Fit, row: &Row, names: &BTreeSet<String>) -> Fit
    ensures { (rows : List Values) → AreFit names.now rows fit
        → AreFit names.now (rows ++ row.now ∷ []) result }
{
    let misfit = Fit { good: false, ..fit };
    let Some(num) = number_at(row, 0) else {
        return misfit;
    };
    if !is_submission_row(row, names, num) {
        return misfit;
    }
    Fit {
        good: fit.good,
        greatest: fit.greatest.max(num),
    }
}

// What judging the submissions takes of the rows so far.
#[derive(Drop)]
struct SubmissionFold<'a> {
    names: &'a BTreeSet<String>,
    alloc: Global,
    count: u64,
    fit: Fit,
    numbers: Numbers,
    authors: Authors,
}

impl RowFold for SubmissionFold<'_> {
    ghost use Rattle.pid_tables.specs.Check.Steps.Keeping.{TakesSubmissions};

    ghost keeps = { TakesSubmissions };

    fn keep(&mut self, row: &Row) -> Result<(), TableFault> {
        self.count = checked_next(self.count)?;
        self.fit = fit_row(self.fit, row, self.names);
        add_number(&mut self.numbers, row)?;
        add_author(&mut self.authors, self.alloc, row)?;
        Ok(())
    }
}

/// What is kept of the submissions.
#[derive(Drop)]
pub(crate) struct Submissions {
    pub(crate) good: bool,
    pub(crate) count: u64,
    pub(crate) authors: Authors,
}

/// Reads the submissions, and judges whether they are those of a registry with accounts of these
/// names.
pub(crate) fn read_submissions<C: Database + Drop>(
    tables: &mut Tables<C>,
    names: &BTreeSet<String>,
    alloc: Global,
) -> Result<Submissions, TableFault>
    ensures { KeepsTable C.state tables.old.conn tables.new.conn result table.Submission
        (KeepsSubmissions names.now) }
{
    let mut keeper = SubmissionFold {
        names,
        alloc,
        count: 0,
        fit: Fit {
            good: true,
            greatest: 0,
        },
        numbers: no_numbers(alloc),
        authors: no_authors(alloc),
    };
    fold_rows(tables, Table::Submission, &mut keeper)?;
    let fits = keeper.fit.good & (keeper.fit.greatest <= keeper.count);
    Ok(Submissions {
        good: fits & count_from_one(&keeper.numbers, keeper.count),
        count: keeper.count,
        authors: keeper.authors,
    })
}
