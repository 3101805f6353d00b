//! Remarks: those on a submission count from 1, and none is empty.
ghost use Rattle.std.specs.Prelude.{◌↔◌, false, IsTrue};
ghost use Rattle.pid_tables.specs.Check.Conditions.{AreRemarks};
ghost use Rattle.pid_tables.specs.Check.Steps.Reading.{TakesRow};
ghost use Rattle.pid_tables.specs.Check.Steps.Clauses.{KeepsTable};
ghost use Rattle.pid_tables.specs.Check.Steps.Keeping.{IsPartJudged};
ghost use Rattle.pid_tables.specs.declared.check.schema.Table.TheVariants as table;
ghost use Rattle.pid_tables.specs.Check.Steps.PlaceSets.{
  ArePlacesOf,
  FollowEach,
  FollowsPlace,
  IsRemark,
};

use crate::check::read::{RowFold, fold_rows};
use crate::check::schema::Table;
use crate::check::value::{has_number, has_words, number_at};
use crate::check::words::has_filled_text;
use crate::database::Database;
use crate::rows::TableFault;
use crate::tables::Tables;
use pid_moderation::REMARKS;
use sqlite::Row;
use std::alloc::Global;
use std::collections::BTreeSet;

// Adds the place of a row.
fn add_place(places: &mut BTreeSet<(u64, u64)>, row: &Row) -> Result<(), TableFault>
    ensures { TakesRow result (ArePlacesOf places.old) (ArePlacesOf places.new) row.now }
{
    let Some(submission) = number_at(row, 0) else {
        return Ok(());
    };
    let Some(place) = number_at(row, 1) else {
        return Ok(());
    };
    match places.insert((submission, place)) {
        Ok(_) => Ok(()),
        Err(_) => Err(TableFault::Memory),
    }
}

fn follows(places: &BTreeSet<(u64, u64)>, submission: u64, place: u64) -> bool
    ensures { IsTrue result ↔ FollowsPlace places.now submission place }
{
    if place == 0 || place > REMARKS as u64 {
        return false;
    }
    if place == 1 {
        return true;
    }
    places.contains(&(submission, place - 1))
}

fn follow_each(places: &BTreeSet<(u64, u64)>) -> bool
    ensures { IsTrue result ↔ FollowEach places.now }
{
    for place in places.iter() {
        if !follows(places, place.0, place.1) {
            return false;
        }
    }
    true
}

// Whether a row is a remark's, whatever its place.
#[tactic(auto, using(crate::proofs::OfCheck::RemarkFacts::num_of, crate::proofs::OfCheck::RemarkFacts::place_of, crate::proofs::OfCheck::RemarkFacts::author_of, crate::proofs::OfCheck::RemarkFacts::body_of))]
fn is_remark_row(row: &Row) -> bool
    ensures { IsTrue result ↔ IsRemark row.now }
{
    if row.column_count() != 4 {
        return false;
    }
    if !has_number(row, 0) {
        return false;
    }
    if !has_number(row, 1) {
        return false;
    }
    if !has_words(row, 2) {
        return false;
    }
    has_filled_text(row, 3)
}

// What judging the remarks takes of the rows so far: `good` says whether each alone is a remark's.
#[derive(Drop)]
struct RemarkFold {
    good: bool,
    places: BTreeSet<(u64, u64)>,
}

impl RowFold for RemarkFold {
    ghost use Rattle.pid_tables.specs.Check.Steps.Keeping.{TakesRemarks};

    ghost keeps = { λ first rows it. TakesRemarks rows it };

    fn keep(&mut self, row: &Row) -> Result<(), TableFault> {
        self.good &= is_remark_row(row);
        add_place(&mut self.places, row)?;
        Ok(())
    }
}

/// Reads the remarks, and judges whether they are those of a registry.
pub(crate) fn read_remarks<C: Database + Drop>(
    tables: &mut Tables<C>,
    alloc: Global,
) -> Result<bool, TableFault>
    ensures { KeepsTable C.state tables.old.conn tables.new.conn result table.Remark
        (IsPartJudged AreRemarks) }
{
    let mut keeper = RemarkFold {
        good: true,
        places: BTreeSet::new(alloc),
    };
    fold_rows(tables, Table::Remark, &mut keeper)?;
    Ok(keeper.good & follow_each(&keeper.places))
}
