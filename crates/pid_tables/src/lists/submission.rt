//! A submission with the remarks on it.
ghost use Rattle.std.specs.Prelude.{◌≡◌, ◌∷◌, [], List, map, option_map, MatchResult};
ghost use Rattle.std.specs.List.{AllByRecursion};
ghost use Rattle.pid_moderation.specs.Views.{Remark};
ghost use Rattle.pid_tables.specs.Rows.Steps.Answers.{remark_shown};
ghost use Rattle.pid_tables.specs.Rows.Causes.{IsReadableRemark};
ghost use Rattle.pid_moderation.specs.Submissions.{remark_of, discussion_in, discussion_of};
ghost use Rattle.pid_tables.specs.Rows.Steps.Unread.{IsDamagedRow};
ghost use Rattle.pid_tables.specs.Rows.Clauses.{Reads};
ghost use Rattle.pid_tables.specs.Lists.Steps.Adding.{Adds};

use crate::database::Database;
use crate::lists::adding::push_last;
use crate::rows::TableFault;
use crate::rows::remark::comment_of;
use crate::rows::run::read_rows;
use crate::rows::submission::standing;
use crate::tables::Tables;
use pid_moderation::{Comment, Discussion};
use sqlite::Row;
use sqlite::types::ToSql;
use std::alloc::Global;

fn add_comment(comments: &mut Vec<Comment>, row: &Row, alloc: Global) -> Result<(), TableFault>
    ensures { (remark : Remark) → row.now ≡ remark_shown remark
        → MatchResult result (λ _. Adds remark_of comments.old.items comments.new.items
        (remark ∷ [])) (IsDamagedRow (IsReadableRemark remark)) }
{
    let comment = comment_of(row, alloc)?;
    push_last(comments, comment)
}

fn comments_of(rows: &[Row], alloc: Global) -> Result<Vec<Comment>, TableFault>
    ensures { (remarks : List Remark) → rows.now ≡ map remark_shown remarks
        → MatchResult result (λ comments. map remark_of comments.items ≡ remarks)
        (IsDamagedRow (AllByRecursion IsReadableRemark remarks)) }
{
    let mut comments = Vec::new(alloc);
    for row in rows {
        add_comment(&mut comments, row, alloc)?;
    }
    Ok(comments)
}

fn comments<C: Database + Drop>(
    tables: &mut Tables<C>,
    alloc: Global,
    number: u32,
) -> Result<Vec<Comment>, TableFault>
    ensures { Reads C.state tables.old.conn tables.new.conn result
        (λ v comments. map remark_of comments.items ≡ v.remarks number) }
{
    let number = number.to_sql();
    let rows = read_rows(
        tables,
        "SELECT author, body FROM remark WHERE num = ?1 ORDER BY seq",
        &[number],
    )?;
    comments_of(rows.as_slice(), alloc)
}

impl<C: Database + Drop> Tables<C> {
    /// The submission with the number, as it stands, and the remarks on it in their order.
    pub fn submission(
        &mut self,
        alloc: Global,
        number: u32,
    ) -> Result<Option<Discussion>, TableFault>
        ensures { Reads C.state self.old.conn self.new.conn result
            (λ v d. option_map discussion_of d ≡ discussion_in v number) }
    {
        let remarks = comments(self, alloc, number)?;
        match standing(self, alloc, number)? {
            Some(submission) => Ok(Some(Discussion {
                submission,
                remarks,
            })),
            None => Ok(None),
        }
    }
}
