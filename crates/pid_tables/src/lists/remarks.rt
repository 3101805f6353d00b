//! A submission with a page of the remarks on it.
ghost use Rattle.std.specs.Prelude.{
  ◌≡◌,
  ◌∷◌,
  [],
  ℕ,
  List,
  map,
  option_map,
  take,
  MatchResult,
};
ghost use Rattle.std.specs.List.{AllByRecursion};
ghost use Rattle.pid_moderation.specs.Views.{Remark};
ghost use Rattle.pid_moderation.specs.RemarkPages.{
  placed_after,
  placed_of,
  remark_page_in,
  remark_page_of,
};
ghost use Rattle.pid_tables.specs.Rows.Steps.Unread.{IsDamagedRow};
ghost use Rattle.pid_tables.specs.Rows.Clauses.{Reads};
ghost use Rattle.pid_tables.specs.Lists.Steps.Adding.{Adds};
ghost use Rattle.pid_tables.specs.Lists.Steps.RemarkRows.{IsReadablePlaced, placed_row};

use crate::database::Database;
use crate::lists::adding::push_last;
use crate::rows::TableFault;
use crate::rows::remark::{comment_of, remark_count};
use crate::rows::run::read_rows;
use crate::rows::submission::standing;
use crate::rows::value::number_at;
use crate::tables::Tables;
use pid_moderation::{PAGE, PlacedRemark, RemarkPage};
use sqlite::Row;
use sqlite::types::ToSql;
use std::alloc::Global;

fn add_remark(page: &mut Vec<PlacedRemark>, row: &Row, alloc: Global) -> Result<(), TableFault>
    ensures { (p : ℕ × Remark) → row.now ≡ placed_row p → MatchResult result
        (λ _. Adds placed_of page.old.items page.new.items (p ∷ []))
        (IsDamagedRow (IsReadablePlaced p)) }
{
    let place = number_at(row, 2)?;
    let remark = comment_of(row, alloc)?;
    push_last(page, PlacedRemark { place, remark })
}

fn remarks_of(rows: &[Row], alloc: Global) -> Result<Vec<PlacedRemark>, TableFault>
    ensures { (all : List (ℕ × Remark)) → rows.now ≡ map placed_row all
        → MatchResult result (λ page. map placed_of page.items ≡ all)
        (IsDamagedRow (AllByRecursion IsReadablePlaced all)) }
{
    let mut page = Vec::new(alloc);
    for row in rows {
        add_remark(&mut page, row, alloc)?;
    }
    Ok(page)
}

// The first remarks after a place, `PAGE` at most, in their order. They are read by their key, from
// the first one on.
fn remarks_after<C: Database + Drop>(
    tables: &mut Tables<C>,
    alloc: Global,
    number: u32,
    after: u32,
) -> Result<Vec<PlacedRemark>, TableFault>
    ensures { Reads C.state tables.old.conn tables.new.conn result
        (λ v page. map placed_of page.items ≡ take PAGE (placed_after after (v.remarks number))) }
{
    let number = number.to_sql();
    let after = after.to_sql();
    let rows = read_rows(
        tables,
        "SELECT author, body, seq FROM remark WHERE num = ?1 AND seq > ?2 ORDER BY seq LIMIT 100",
        &[number, after],
    )?;
    remarks_of(rows.as_slice(), alloc)
}

impl<C: Database + Drop> Tables<C> {
    /// The submission with the number, as it stands, how many remarks there are on it, and the first
    /// of them after a place, `PAGE` at most, in their order. From 0 on, and then from the last
    /// place of a page, pages go through all of them. What comes before a page is not read.
    pub fn remark_page(
        &mut self,
        alloc: Global,
        number: u32,
        after: u32,
    ) -> Result<Option<RemarkPage>, TableFault>
        ensures { Reads C.state self.old.conn self.new.conn result
            (λ v page. option_map remark_page_of page ≡ remark_page_in PAGE number after v) }
    {
        let remarks = remarks_after(self, alloc, number, after)?;
        let count = remark_count(self, number)?;
        match standing(self, alloc, number)? {
            Some(submission) => Ok(Some(RemarkPage {
                number,
                submission,
                count,
                remarks,
            })),
            None => Ok(None),
        }
    }
}
