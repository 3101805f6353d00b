//! Pages of the submissions for a path or of an author, the latest first.
ghost use Rattle.std.specs.Prelude.{◌≡◌, map};
ghost use Rattle.std.specs.Option.{option_copied};
ghost use Rattle.pid_moderation.specs.SubmissionPages.{
  listed_of,
  submission_page_of,
  submissions_of,
};
ghost use Rattle.pid_tables.specs.Rows.Clauses.{Reads};
ghost use Rattle.pid_tables.specs.Rows.Steps.Answers.{value_row};
ghost use Rattle.pid_tables.specs.Lists.Steps.Adding.{Adds};
ghost use Rattle.pid_tables.specs.Lists.Steps.Clauses.{ReadsOf};
ghost use Rattle.pid_tables.specs.Lists.Steps.SubmissionRows.{
  AreListedIn,
  IsListedIn,
  StandsFor,
  end_number,
  last_before,
  latest_asked,
  next_after,
  numbers_among,
};

use crate::database::Database;
use crate::lists::adding::push_last;
use crate::lists::paths::text_or_empty;
use crate::rows::TableFault;
use crate::rows::remark::remark_count;
use crate::rows::run::read_rows;
use crate::rows::submission::standing;
use crate::rows::value::number_at;
use crate::tables::Tables;
use pid_ident::{Account, Path};
use pid_moderation::{Listed, PAGE, SEARCHED, SubmissionPage};
use sqlite::Row;
use sqlite::types::ToSql;
use std::alloc::Global;

// The numbers above `low` and up to `last` of the submissions for a path and of an author, the
// latest first, at most a page of them. The empty text stands for every path or author.
fn number_rows<'x, C: Database + Drop>(
    tables: &mut Tables<C>,
    low: u32,
    last: u32,
    path: &'x str,
    author: &'x str,
) -> Result<Vec<Row>, TableFault>
    ensures { Reads C.state tables.old.conn tables.new.conn result
        (λ v rows. rows.items ≡ map value_row (numbers_among (latest_asked PAGE (record {
          low = low;
          last = last;
          path = path.now;
          author = author.now;
        }) v))) }
{
    let low = low.to_sql();
    let last = last.to_sql();
    let path = path.to_sql();
    let author = author.to_sql();
    read_rows(
        tables,
        "SELECT num FROM submission WHERE num > ?1 AND num <= ?2 AND (?3 = '' OR path = ?3) \
            AND (?4 = '' OR author = ?4) ORDER BY num DESC LIMIT 100",
        &[low, last, path, author],
    )
}

// Adds the submission whose number a row has, and the count of the remarks on it; nothing if there
// is none.
fn add_listed<C: Database + Drop>(
    page: &mut Vec<Listed>,
    tables: &mut Tables<C>,
    alloc: Global,
    row: &Row,
) -> Result<(), TableFault>
    ensures { ReadsOf C.state tables.old.conn tables.new.conn result
        (λ v more. IsListedIn v more row.now)
        (λ more _. Adds listed_of page.old.items page.new.items more) }
{
    let number = number_at(row, 0)?;
    let remarks = remark_count(tables, number)?;
    match standing(tables, alloc, number)? {
        None => Ok(()),
        Some(submission) => {
            let found = Listed {
                number,
                submission,
                remarks,
            };
            push_last(page, found)
        }
    }
}

// The submissions whose numbers the rows have.
fn listed_at<C: Database + Drop>(
    tables: &mut Tables<C>,
    alloc: Global,
    rows: &[Row],
) -> Result<Vec<Listed>, TableFault>
    ensures { ReadsOf C.state tables.old.conn tables.new.conn result
        (λ v listed. AreListedIn v listed rows.now)
        (λ listed page. map listed_of page.items ≡ listed) }
{
    let mut page = Vec::new(alloc);
    for row in rows {
        add_listed(&mut page, tables, alloc, row)?;
    }
    Ok(page)
}

// The last number that a page looks at, of so many submissions.
fn last_of(count: u32, before: u32) -> u32
    ensures { result ≡ last_before count before }
{
    if before == 0 || count < before {
        count
    } else {
        before - 1
    }
}

// The number of the last one of a full page, or else the least that was looked at.
#[tactic(auto, using(crate::proofs::OfLists::SubmissionPageLemmas::end_full, crate::proofs::OfLists::SubmissionPageLemmas::end_short, crate::proofs::OfLists::SubmissionPageLemmas::end_none))]
fn end_of(page: &[Listed], lowest: u32) -> u32
    ensures { result ≡ end_number PAGE (map listed_of page.now) lowest }
{
    match page.last() {
        Some(last) => {
            if page.len() == PAGE {
                last.number
            } else {
                lowest
            }
        }
        None => lowest,
    }
}

// Where the next page begins, after one that looked at numbers down to `lowest`.
pub(crate) fn next_of(page: &[Listed], lowest: u32) -> u32
    ensures { result ≡ next_after PAGE (map listed_of page.now) lowest }
{
    let number = end_of(page, lowest);
    if number <= 1 { 0 } else { number }
}

// The text of an account, or the empty one.
fn author_or_any(author: Option<&Account>) -> &str
    ensures { StandsFor (option_copied author.entry) result.now }
{
    match author {
        Some(author) => author.as_str(),
        None => "",
    }
}

impl<C: Database + Drop> Tables<C> {
    /// The latest submissions for a path, if one is named, and of an author, if one is named, whose
    /// numbers are below `before`, of which 0 stands for no bound: at most `PAGE` of them, out of at
    /// most `SEARCHED` that are looked at. `before` of the page is where the next one begins; 0 where
    /// there is none. From 0 on, and then from there, pages go through all of them.
    pub fn submissions_page(
        &mut self,
        alloc: Global,
        path: Option<&Path>,
        author: Option<&Account>,
        before: u32,
    ) -> Result<SubmissionPage, TableFault>
        ensures { Reads C.state self.old.conn self.new.conn result
            (λ v page. submission_page_of page ≡ submissions_of PAGE SEARCHED (record {
              path = option_copied path.entry;
              author = option_copied author.entry;
              before = before;
            }) v) }
    {
        let count = self.submissions()?;
        let last = last_of(count, before);
        let low = last.saturating_sub(SEARCHED as u32);
        let author = author_or_any(author);
        let path = text_or_empty(alloc, path)?;
        let rows = number_rows(self, low, last, path.as_str(), author);
        drop(path);
        let rows = rows?;
        let listed = listed_at(self, alloc, rows.as_slice());
        drop(rows);
        let submissions = listed?;
        let before = next_of(submissions.as_slice(), low + 1);
        Ok(SubmissionPage {
            before,
            submissions,
        })
    }
}
