//! Pages of the submissions for a path or of an author, the latest first.
ghost use Rattle.std.specs.Prelude.{
  ◌≡◌,
  ◌∷◌,
  ◌&&◌,
  [],
  length,
  map,
  option_map,
  reverse,
  take,
};
ghost use Rattle.pid_ident.specs.PathTexts.{path_text};
ghost use Rattle.std.specs.Option.{option_copied};
ghost use Rattle.pid_moderation.specs.SubmissionPages.{
  is_wanted,
  listed_of,
  submission_page_of,
  submissions_of,
};
ghost use Rattle.pid_tables.specs.Lists.Steps.Adding.{Adds};
ghost use Rattle.pid_tables.specs.Rows.Clauses.{Reads};
ghost use Rattle.pid_tables.specs.Searches.Steps.Among.{found_among};
ghost use Rattle.pid_tables.specs.Searches.KeptNumbers.{HoldsNumbers};

use crate::database::Database;
use crate::lists::adding::push_last;
use crate::lists::submissions::next_of;
use crate::rows::TableFault;
use crate::rows::remark::remark_count;
use crate::rows::submission::standing;
use crate::searches::numbers::{Searches, list_below};
use crate::tables::Tables;
use pid_ident::{Account, Path};
use pid_moderation::{Listed, PAGE, Submission, SubmissionPage};
use std::alloc::Global;

// Whether the path is the one that is wanted, if one is.
fn is_path(wanted: Option<&Path>, path: Path) -> bool
    ensures { result ≡ is_wanted (option_map path_text (option_copied wanted.entry))
        (path_text path) }
{
    match wanted {
        Some(wanted) => path == *wanted,
        None => true,
    }
}

// Whether the account is the one that is wanted, if one is.
fn is_author(wanted: Option<&Account>, author: &Account) -> bool
    ensures { result ≡ is_wanted (option_copied wanted.entry) author.now }
{
    match wanted {
        Some(wanted) => *author == *wanted,
        None => true,
    }
}

// Whether a submission is for the path and of the author that are wanted.
fn is_of(path: Option<&Path>, author: Option<&Account>, submission: &Submission) -> bool
    ensures { result ≡ (is_wanted (option_map path_text (option_copied path.entry))
        (path_text submission.now.path)
        && is_wanted (option_copied author.entry) submission.now.author) }
{
    is_path(path, submission.path) && is_author(author, &submission.author)
}

// Adds the submission with a number, if it is sought, and the count of the remarks on it.
fn add_sought<C: Database + Drop>(
    page: &mut Vec<Listed>,
    tables: &mut Tables<C>,
    alloc: Global,
    number: u32,
    path: Option<&Path>,
    author: Option<&Account>,
) -> Result<(), TableFault>
    ensures { Reads C.state tables.old.conn tables.new.conn result
        (λ v _. Adds listed_of page.old.items page.new.items (found_among (option_copied path.entry)
        (option_copied author.entry) (number ∷ []) v)) }
{
    match standing(tables, alloc, number)? {
        None => Ok(()),
        Some(submission) => {
            if !is_of(path, author, &submission) {
                drop(submission);
                return Ok(());
            }
            match remark_count(tables, number) {
                Ok(remarks) => {
                    let found = Listed {
                        number,
                        submission,
                        remarks,
                    };
                    push_last(page, found)
                }
                Err(fault) => {
                    drop(submission);
                    Err(fault)
                }
            }
        }
    }
}

// The submissions that are sought among these numbers, the last one first, at most a page of them.
fn sought_at<C: Database + Drop>(
    tables: &mut Tables<C>,
    alloc: Global,
    numbers: &[u32],
    path: Option<&Path>,
    author: Option<&Account>,
) -> Result<Vec<Listed>, TableFault>
    ensures { Reads C.state tables.old.conn tables.new.conn result
        (λ v page. map listed_of page.items ≡ take PAGE (found_among (option_copied path.entry)
        (option_copied author.entry) (reverse numbers.now) v)) }
{
    let mut page = Vec::new(alloc);
    for at in 0..numbers.len() {
        if page.len() == PAGE {
            return Ok(page);
        }
        let number = numbers[numbers.len() - 1 - at];
        add_sought(&mut page, tables, alloc, number, path, author)?;
    }
    Ok(page)
}

impl<C: Database + Drop> Tables<C> {
    /// A page of the submissions for a path and of an author, where one is named, the latest first,
    /// whose numbers are below `before`, of which 0 stands for no bound: by the numbers that are kept,
    /// and if none are, by a walk over all submissions.
    pub fn page_by(
        &mut self,
        alloc: Global,
        numbers: &Searches,
        path: Option<&Path>,
        author: Option<&Account>,
        before: u32,
    ) -> Result<SubmissionPage, TableFault>
        ensures { Reads C.state self.old.conn self.new.conn result (λ v page. HoldsNumbers numbers.now v
            → submission_page_of page ≡ submissions_of PAGE (length v.submits) (record {
              path = option_copied path.entry;
              author = option_copied author.entry;
              before = before;
            }) v) }
    {
        let found = match list_below(numbers, alloc, path, author, before) {
            Some(list) => sought_at(self, alloc, list, path, author),
            None => self.walk(alloc, path, author, before),
        };
        let submissions = found?;
        let before = next_of(submissions.as_slice(), 0);
        Ok(SubmissionPage {
            before,
            submissions,
        })
    }
}
