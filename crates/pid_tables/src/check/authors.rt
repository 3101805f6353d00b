//! The authors of submissions: each name is kept once, and each submission has the place of one.
ghost use Rattle.std.specs.Prelude.{
  ◌≡◌,
  ◌⊎◌,
  ◌↔◌,
  ℕ,
  List,
  [],
  IsTrue,
  IfOk,
  IfErr,
  OnOk,
};
ghost use Rattle.std.specs.BTreeMap.{get_by_text};
ghost use Rattle.sqlite.specs.Order.{Row as Values};
ghost use Rattle.pid_tables.specs.Check.Steps.Reading.{TakesRow};
ghost use Rattle.pid_tables.specs.Check.Steps.AuthorSets.{
  AreAuthorsOf,
  HasPlace,
  IsByAuthor,
  IsInTurn,
  PlacesName,
};
ghost use Rattle.pid_tables.specs.Rows.Faults.{IsMemoryOrStore};

use crate::check::value::{number_at, text_at};
use crate::rows::TableFault;
use sqlite::Row;
use std::alloc::Global;
use std::collections::{BTreeMap, BTreeSet};

/// The names of authors with their places, and of each submission its author's place: those whose
/// numbers came in turn, from 1 on, and the others.
#[derive(Drop)]
pub(crate) struct Authors {
    names: BTreeMap<String, u32>,
    turn: Vec<u32>,
    others: BTreeSet<(u64, u32)>,
}

/// No authors yet.
pub(crate) fn no_authors(alloc: Global) -> Authors
    ensures { AreAuthorsOf result [] }
{
    Authors {
        names: BTreeMap::new(alloc),
        turn: Vec::new(alloc),
        others: BTreeSet::new(alloc),
    }
}

fn place_in(names: &BTreeMap<String, u32>, name: &str) -> Option<u32>
    ensures { result ≡ get_by_text names.now name.now }
{
    match names.get(name) {
        Some(place) => Some(*place),
        None => None,
    }
}

// The place of a name, which is kept from now on.
fn place_of(names: &mut BTreeMap<String, u32>, alloc: Global, name: &str) -> Result<u32, TableFault>
    ensures placed { IfOk result (PlacesName names.old names.new name.now) }
    ensures only_store { IfErr result IsMemoryOrStore }
{
    if let Some(place) = place_in(names, name) {
        return Ok(place);
    }
    let Ok(place) = u32::try_from(names.len()) else {
        return Err(TableFault::Memory);
    };
    let owned = String::from_str(alloc, name)?;
    let inserted = names.insert(owned, place).is_ok();
    if !inserted {
        return Err(TableFault::Memory);
    }
    Ok(place)
}

fn insert_place(
    turn: &mut Vec<u32>,
    others: &mut BTreeSet<(u64, u32)>,
    submission: u64,
    place: u32,
) -> Result<(), TableFault>
    ensures added { (n k : ℕ) → OnOk result (HasPlace turn.new.items others.new n k
        ↔ (HasPlace turn.old.items others.old n k ⊎ ((submission ≡ n) × (place ≡ k)))) }
    ensures only_store { IfErr result IsMemoryOrStore }
{
    if submission > 0 && submission - 1 == turn.len() as u64 {
        let pushed = turn.push(place).is_ok();
        if !pushed {
            return Err(TableFault::Memory);
        }
        return Ok(());
    }
    match others.insert((submission, place)) {
        Ok(_) => Ok(()),
        Err(_) => Err(TableFault::Memory),
    }
}

/// Adds the number and the author of a row.
pub(crate) fn add_author(authors: &mut Authors, alloc: Global, row: &Row) -> Result<(), TableFault>
    ensures { TakesRow result (AreAuthorsOf authors.old) (AreAuthorsOf authors.new) row.now }
{
    let Some(submission) = number_at(row, 0) else {
        return Ok(());
    };
    let Some(author) = text_at(row, 1) else {
        return Ok(());
    };
    let place = place_of(&mut authors.names, alloc, author)?;
    insert_place(&mut authors.turn, &mut authors.others, submission, place)?;
    Ok(())
}

fn is_in_turn(turn: &[u32], submission: u64, place: u32) -> bool
    ensures { IsTrue result ↔ IsInTurn turn.now submission place }
{
    if submission == 0 {
        return false;
    }
    match turn.get((submission - 1) as usize) {
        Some(found) => *found == place,
        None => false,
    }
}

fn has_place(authors: &Authors, submission: u64, place: u32) -> bool
    ensures { IsTrue result ↔ HasPlace authors.now.turn.items authors.now.others submission place }
{
    if is_in_turn(authors.turn.as_slice(), submission, place) {
        return true;
    }
    authors.others.contains(&(submission, place))
}

/// Whether a submission has this number and this author.
pub(crate) fn is_by(authors: &Authors, submission: u64, account: &str) -> bool
    ensures { (rows : List Values) → AreAuthorsOf authors.now rows
        → IsTrue result ↔ IsByAuthor rows submission account.now }
{
    match place_in(&authors.names, account) {
        Some(place) => has_place(authors, submission, place),
        None => false,
    }
}
